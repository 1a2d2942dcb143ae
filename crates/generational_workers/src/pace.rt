//! When a worker makes checkpoints.

/// How many calls a worker makes from one checkpoint to the next, and how many of them it has made.
#[derive(Drop)]
pub(crate) struct Pace {
    // no checkpoint is made if it is 0
    every: u64,
    calls: u64,
}

impl Pace {
    pub(crate) fn new(every: u64) -> Self {
        Pace { every, calls: 0 }
    }

    // Counts a call, and returns whether a checkpoint is due.
    pub(crate) fn is_due(&mut self) -> bool {
        if self.every == 0 {
            return false;
        }
        self.calls = self.calls.wrapping_add(1);
        if self.calls < self.every {
            return false;
        }
        self.calls = 0;
        true
    }
}
