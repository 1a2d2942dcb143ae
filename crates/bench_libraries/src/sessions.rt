//! Sessions.

use crate::laps::{Laps, mix};
use generational_box::{Location, Storage};
use session_table::{Entry, SessionTable};
use std::alloc::Global;
use std::time::Clock;

/// Makes the operations over n entries of a table, in n / 10 sessions, and returns a sum of what was
/// seen. None if a call wasn't carried out.
pub(crate) fn run<R: Clock, S: Storage<u64>>(
    rt: &R,
    alloc: Global,
    laps: &mut Laps,
    table: &mut SessionTable<u64, u64, u64, S>,
    order: &Vec<usize>,
) -> Option<u64> {
    let mut list = Vec::new(alloc);
    let mut seen: u64 = 0;
    let sessions = order.len() / 10;
    laps.begin(rt)?;
    login(table, sessions)?;
    laps.end(rt, "login")?;
    put(table, &mut list, order.len(), sessions)?;
    laps.end(rt, "put")?;
    for _ in 0..10 {
        seen = get(table, &list, order, seen)?;
    }
    laps.end(rt, "get")?;
    for _ in 0..5 {
        seen = entry(table, order, sessions, seen)?;
    }
    laps.end(rt, "entry")?;
    for _ in 0..5 {
        seen = entries(table, sessions, seen)?;
    }
    laps.end(rt, "entries")?;
    touch(table, order, sessions)?;
    laps.end(rt, "touch")?;
    for _ in 0..order.len() / 1000 {
        seen = expire(table, seen);
    }
    laps.end(rt, "expire")?;
    logout(table, order, sessions)?;
    laps.end(rt, "logout")?;
    Some(seen)
}

#[inline(never)]
fn login<S: Storage<u64>>(
    table: &mut SessionTable<u64, u64, u64, S>,
    sessions: usize,
) -> Option<()> {
    for i in 0..sessions {
        table.login(i as u64, 0).ok()?;
    }
    Some(())
}

#[inline(never)]
fn put<S: Storage<u64>>(
    table: &mut SessionTable<u64, u64, u64, S>,
    list: &mut Vec<Entry<u64>>,
    n: usize,
    sessions: usize,
) -> Option<()> {
    let here = Location::new("sessions.rt", 9, 14);
    for i in 0..n {
        let id = i.checked_rem(sessions)? as u64;
        list.push(table.put(&id, i as u64, i as u64, here).ok()?)
            .ok()?;
    }
    Some(())
}

#[inline(never)]
fn get<S: Storage<u64>>(
    table: &SessionTable<u64, u64, u64, S>,
    list: &Vec<Entry<u64>>,
    order: &Vec<usize>,
    start: u64,
) -> Option<u64> {
    let mut seen = start;
    for i in order {
        seen = mix(seen, *table.get(*list.get(*i)?).ok()?);
    }
    Some(seen)
}

#[inline(never)]
fn entry<S: Storage<u64>>(
    table: &SessionTable<u64, u64, u64, S>,
    order: &Vec<usize>,
    sessions: usize,
    start: u64,
) -> Option<u64> {
    let mut seen = start;
    for i in order {
        let id = i.checked_rem(sessions)? as u64;
        let entry = table.entry(&id, &(*i as u64))?;
        seen = mix(seen, *table.get(entry).ok()?);
    }
    Some(seen)
}

#[inline(never)]
fn entries<S: Storage<u64>>(
    table: &SessionTable<u64, u64, u64, S>,
    sessions: usize,
    start: u64,
) -> Option<u64> {
    let mut seen = start;
    for i in 0..sessions {
        for (_, entry) in table.session(&(i as u64))?.entries() {
            seen = seen.wrapping_add(*table.get(entry).ok()?);
        }
    }
    Some(seen)
}

// Uses each session at a later time.
#[inline(never)]
fn touch<S: Storage<u64>>(
    table: &mut SessionTable<u64, u64, u64, S>,
    order: &Vec<usize>,
    sessions: usize,
) -> Option<()> {
    for i in order {
        if *i < sessions && !table.touch(&(*i as u64), 7) {
            return None;
        }
    }
    Some(())
}

// Ends the sessions that weren't used since before the others: none.
#[inline(never)]
fn expire<S: Storage<u64>>(table: &mut SessionTable<u64, u64, u64, S>, start: u64) -> u64 {
    mix(start, table.expire(7) as u64)
}

#[inline(never)]
fn logout<S: Storage<u64>>(
    table: &mut SessionTable<u64, u64, u64, S>,
    order: &Vec<usize>,
    sessions: usize,
) -> Option<()> {
    for i in order {
        if *i < sessions && !table.logout(&(*i as u64)) {
            return None;
        }
    }
    Some(())
}
