//! Gates, at which one thread waits until another has come so far.

use std::sync::atomic::{AtomicU64, Ordering};
use std::thread;

// How often a gate is checked before the waiting thread gives up.
const TURNS: u64 = 10_000_000;

/// Each arrival opens the gate for one that passes it.
#[derive(Drop)]
pub(crate) struct Gate {
    arrivals: AtomicU64,
}

impl Gate {
    pub(crate) fn new() -> Gate {
        Gate {
            arrivals: AtomicU64::new(0),
        }
    }

    /// Opens the gate once more.
    pub(crate) fn arrive(&self) {
        self.arrivals.fetch_add(1, Ordering::SeqCst);
    }

    /// Whether the gate is open.
    pub(crate) fn is_open(&self) -> bool {
        self.arrivals.load(Ordering::SeqCst) > 0
    }

    /// Waits until the gate is open, for a bounded number of turns, and passes it. Returns whether it was
    /// opened in time. One thread alone waits at a gate.
    pub(crate) fn passes(&self) -> bool {
        for _ in 0..TURNS {
            if self.is_open() {
                self.arrivals.fetch_sub(1, Ordering::SeqCst);
                return true;
            }
            thread::yield_now();
        }
        false
    }
}
