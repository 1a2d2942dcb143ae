//! How often a plain recomputation has to run rules.

use crate::graph_plain::{Plain, value_at};

/// How many nodes are known at once.
pub(crate) const NODES: usize = 12;

/// What a node came to when its rule was last run.
#[derive(Clone, Copy)]
struct Past {
    value: Option<u64>,
    // how often the value has changed
    changes: u64,
    // what the rule read then, and how often that had changed
    reads: [Option<(usize, u64)>; 2],
}

const NEVER: Past = Past {
    value: None,
    changes: 0,
    reads: [None, None],
};

/// What the nodes came to, and which of them are needed and settled.
#[derive(Clone, Copy)]
pub(crate) struct Runs {
    pasts: [Past; NODES],
    needed: [bool; NODES],
    settled: [bool; NODES],
}

impl Runs {
    pub(crate) fn new() -> Self {
        Runs {
            pasts: [NEVER; NODES],
            needed: [false; NODES],
            settled: [false; NODES],
        }
    }

    /// Notes that a node got a value, a rule, or another node's place.
    pub(crate) fn reset(&mut self, place: usize) {
        if let Some(past) = self.pasts.get_mut(place) {
            past.value = None;
            past.changes = past.changes.wrapping_add(1);
            past.reads = [None, None];
        }
    }

    /// Counts the rules that must be run for these nodes: of each node that one of them needs and that
    /// means something, whose rule was never run, or read something that has changed since.
    pub(crate) fn settle(
        &mut self,
        plains: &[Plain; NODES],
        values: &[Option<u64>; NODES],
        wanted: &[bool; NODES],
    ) -> u64 {
        self.needed = *wanted;
        self.settled = [false; NODES];
        for _ in 0..NODES {
            self.need(plains, values);
        }
        let mut count: u64 = 0;
        for _ in 0..NODES {
            count = count.wrapping_add(self.round(plains, values));
        }
        count
    }

    /// Notes what each needed node reads as needed.
    fn need(&mut self, plains: &[Plain; NODES], values: &[Option<u64>; NODES]) {
        for (place, plain) in plains.iter().enumerate() {
            if is_at(&self.needed, place) {
                for read in plain.reads(values) {
                    note(&mut self.needed, read);
                }
            }
        }
    }

    /// Settles each needed node that reads settled ones alone, and counts those whose rule is run.
    fn round(&mut self, plains: &[Plain; NODES], values: &[Option<u64>; NODES]) -> u64 {
        let mut count: u64 = 0;
        for (place, plain) in plains.iter().enumerate() {
            if self.is_next(place, *plain, values) && self.settle_one(place, *plain, values) {
                count = count.wrapping_add(1);
            }
        }
        count
    }

    /// Whether a node is needed, means something and isn't settled, and what it reads is settled.
    fn is_next(&self, place: usize, plain: Plain, values: &[Option<u64>; NODES]) -> bool {
        is_at(&self.needed, place)
            && !is_at(&self.settled, place)
            && value_at(values, place).is_some()
            && plain
                .reads(values)
                .iter()
                .all(|read| self.is_settled(*read))
    }

    fn is_settled(&self, read: Option<usize>) -> bool {
        match read {
            Some(place) => is_at(&self.settled, place),
            None => true,
        }
    }

    /// How often a node that is read has changed.
    fn seen(&self, read: Option<usize>) -> Option<(usize, u64)> {
        let place = read?;
        let past = self.pasts.get(place)?;
        Some((place, past.changes))
    }

    /// Settles a node, and returns whether its rule is run.
    fn settle_one(&mut self, place: usize, plain: Plain, values: &[Option<u64>; NODES]) -> bool {
        note(&mut self.settled, Some(place));
        if let Plain::Value(_) = plain {
            return false;
        }
        let reads = plain.reads(values).map(|read| self.seen(read));
        let value = value_at(values, place);
        let Some(past) = self.pasts.get_mut(place) else {
            return false;
        };
        if past.value.is_some() && past.reads == reads {
            return false;
        }
        past.reads = reads;
        if past.value != value {
            past.value = value;
            past.changes = past.changes.wrapping_add(1);
        }
        true
    }
}

fn is_at(list: &[bool], place: usize) -> bool {
    list.get(place).copied().unwrap_or(false)
}

fn note(list: &mut [bool], place: Option<usize>) {
    let Some(place) = place else {
        return;
    };
    if let Some(noted) = list.get_mut(place) {
        *noted = true;
    }
}
