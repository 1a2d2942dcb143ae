//! What each operation took, and the order in which things are looked at.

use std::alloc::Global;
use std::time::{Clock, Instant};

/// The nanoseconds of each operation, in the order of the first lap of each.
#[derive(Drop)]
pub(crate) struct Laps {
    list: Vec<(&'static str, u64)>,
    start: Option<Instant>,
}

impl Laps {
    /// No laps.
    pub(crate) fn new(alloc: Global) -> Laps {
        Laps {
            list: Vec::new(alloc),
            start: None,
        }
    }

    /// Begins a lap.
    pub(crate) fn begin<R: Clock>(&mut self, rt: &R) -> Option<()> {
        self.start = Some(Instant::now(rt).ok()?);
        Some(())
    }

    /// Adds the time since the lap began to an operation's, and begins the next. None if the clock or an
    /// allocation fails.
    pub(crate) fn end<R: Clock>(&mut self, rt: &R, name: &'static str) -> Option<()> {
        let taken = u64::try_from(self.start?.elapsed(rt).ok()?.as_nanos()).ok()?;
        match self.list.iter_mut().find(|lap| lap.0 == name) {
            Some(lap) => lap.1 = lap.1.wrapping_add(taken),
            None => self.list.push((name, taken)).ok()?,
        }
        self.begin(rt)
    }

    /// Each operation's name and nanoseconds.
    pub(crate) fn list(&self) -> &[(&'static str, u64)] {
        self.list.as_slice()
    }
}

/// The places below n in an order drawn by a linear generator. None if an allocation fails.
pub(crate) fn drawn(alloc: Global, n: usize) -> Option<Vec<usize>> {
    let mut list = Vec::with_capacity(alloc, n).ok()?;
    for place in 0..n {
        list.push(place).ok()?;
    }
    let mut state: u64 = 7;
    for i in (1..n).rev() {
        state = state
            .wrapping_mul(6364136223846793005)
            .wrapping_add(1442695040888963407);
        let other = (state >> 33) as usize % (i + 1);
        if i < list.len() && other < list.len() {
            list.swap(i, other);
        }
    }
    Some(list)
}

/// What was seen before, and a number.
pub(crate) fn mix(seen: u64, number: u64) -> u64 {
    seen.wrapping_mul(3).wrapping_add(number)
}
