//! How the memory of a process grows. A test can't count allocations, so it looks how much memory is
//! mapped: a list that grows by leaps changes that a few times, and one that grows by one element at a
//! time changes it whenever a page is full.

use crate::expected::given;
use std::fs;
use std::process::Abort;
use std::rt::Files;

/// How many looks found the mapped memory changed.
#[derive(Drop)]
pub(crate) struct Gauge {
    last: u64,
    leaps: u32,
}

impl Gauge {
    /// A gauge of what is mapped from now on.
    pub(crate) fn new<R: Files + AllocGlobal + Abort>(rt: &R) -> Gauge {
        Gauge {
            last: mapped(rt),
            leaps: 0,
        }
    }

    /// Looks whether more is mapped now.
    pub(crate) fn look<R: Files + AllocGlobal + Abort>(&mut self, rt: &R) {
        let pages = mapped(rt);
        if pages != self.last {
            self.leaps = self.leaps.saturating_add(1);
        }
        self.last = pages;
    }

    /// Asserts that there were few leaps.
    pub(crate) fn assert_few(&self, rt: &impl Abort) {
        assert!(rt; self.leaps <= 40, "{} leaps", self.leaps);
    }
}

// How many pages the process has mapped.
fn mapped<R: Files + AllocGlobal + Abort>(rt: &R) -> u64 {
    let text = given(rt, fs::read_to_string(rt, "/proc/self/statm"));
    let (pages, _) = text.as_str().split_once(' ').unwrap_or(("", ""));
    given(rt, pages.parse::<u64>())
}
