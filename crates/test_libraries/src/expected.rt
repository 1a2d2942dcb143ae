//! What a test finds beside what it wants.

use generational_box::HandedBack;
use std::alloc::Global;
use std::fmt::{Debug, Display};
use std::process::Abort;

/// Asserts that a value is what it should be. It is proved once, for all types.
pub(crate) fn assert_same<T: PartialEq + Debug>(rt: &impl Abort, found: &T, wanted: &T) {
    assert_eq!(rt; *found, *wanted);
}

/// The result of a call that must not fail. It is proved once, for all types: a closure that destructures
/// an error is proved at each use.
pub(crate) fn given<T, E: Drop>(rt: &impl Abort, answer: Result<T, E>) -> T {
    match answer {
        Ok(given) => given,
        Err(_) => panic!(rt; "it was refused"),
    }
}

/// The result of a call that returns what it doesn't store: that must be what was passed in.
pub(crate) fn answered<A, T: PartialEq + Debug + Drop, E>(
    rt: &impl Abort,
    answer: Result<A, HandedBack<T, E>>,
    handed_in: &T,
) -> Result<A, E> {
    match answer {
        Ok(kept) => Ok(kept),
        Err(HandedBack { value, cause }) => {
            assert_same(rt, &value, handed_in);
            Err(cause)
        }
    }
}

/// Asserts what a value prints.
pub(crate) fn assert_prints<T: Display>(rt: &impl Abort, alloc: Global, found: &T, wanted: &str) {
    let text = format!(in alloc; "{found}").expect(rt, "memory");
    assert_eq!(rt; text.as_str(), wanted);
}
