//! How much memory a process has mapped at most.

use crate::reloaded::given;
use std::fs;
use std::process::Abort;
use std::rt::Files;

/// What was mapped at most at the beginning.
#[derive(Clone, Copy)]
pub(crate) struct Room(u64);

impl Room {
    pub(crate) fn new<R: Files + AllocGlobal + Abort>(rt: &R) -> Room {
        Room(most_mapped(rt))
    }

    /// Asserts that there were never more than 8 MiB above that.
    pub(crate) fn assert_little<R: Files + AllocGlobal + Abort>(self, rt: &R) {
        let most = most_mapped(rt);
        assert!(rt;
            most <= self.0.saturating_add(8192),
            "{} KiB, and then {most}",
            self.0
        );
    }
}

// How many KiB the process had mapped at most.
fn most_mapped<R: Files + AllocGlobal + Abort>(rt: &R) -> u64 {
    let text = given(rt, fs::read_to_string(rt, "/proc/self/status"));
    let (_, rest) = text.as_str().split_once("VmPeak:").unwrap_or(("", ""));
    let (number, _) = rest.split_once("kB").unwrap_or(("", ""));
    given(rt, number.trim().parse::<u64>())
}
