//! What is asserted of values of any type, and numbers that look drawn.

use std::alloc::Global;
use std::fmt::{Debug, Display};
use std::process::Abort;

/// Asserts that a value is what it should be. It is proved once, for all types.
pub(crate) fn assert_same<T: PartialEq + Debug>(rt: &impl Abort, found: &T, wanted: &T) {
    assert_eq!(rt; *found, *wanted);
}

/// What a call returns that must not fail.
pub(crate) fn ok<T, E: Drop>(rt: &impl Abort, answer: Result<T, E>) -> T {
    match answer {
        Ok(value) => value,
        Err(_) => panic!(rt; "it failed"),
    }
}

/// Asserts what a value prints.
pub(crate) fn assert_prints<T: Display>(rt: &impl Abort, alloc: Global, found: &T, wanted: &str) {
    let text = format!(in alloc; "{found}").expect(rt, "memory");
    assert_eq!(rt; text.as_str(), wanted);
}

/// The next of a row of numbers that look drawn.
pub(crate) fn drawn(state: &mut u64) -> u64 {
    *state = state
        .wrapping_mul(6_364_136_223_846_793_005)
        .wrapping_add(1_442_695_040_888_963_407);
    *state >> 33
}

/// A drawn number below another, or 0.
pub(crate) fn drawn_below(state: &mut u64, end: usize) -> usize {
    (drawn(state) as usize).checked_rem(end).unwrap_or(0)
}
