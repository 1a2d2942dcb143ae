//! What a test finds beside what it wants, and what it must be given.

use generational_box::{GenerationalBox, Location, Storage};
use std::alloc::Global;
use std::fmt::Debug;
use std::process::Abort;

/// Asserts that a value is what it should be. It is proved once, for all types.
pub(crate) fn assert_same<T: PartialEq + Debug>(rt: &impl Abort, found: &T, wanted: &T) {
    assert_eq!(rt; *found, *wanted);
}

/// The result of a call that must not fail. It is proved once, for all types: a closure that destructures
/// an error is proved at each use.
pub(crate) fn given<T, E: Drop>(rt: &impl Abort, answer: Result<T, E>) -> T {
    match answer {
        Ok(given) => given,
        Err(_) => panic!(rt; "it was refused"),
    }
}

/// Adds to a list.
pub(crate) fn push<T: Drop>(rt: &impl Abort, list: &mut Vec<T>, value: T) {
    given(rt, list.push(value));
}

/// Makes a box of an empty text.
pub(crate) fn made_in<S: Storage<String>>(
    rt: &impl Abort,
    alloc: Global,
    store: &mut S,
    made: Location,
) -> GenerationalBox<String> {
    given(rt, GenerationalBox::leak(store, String::new(alloc), made))
}
