//! How a scenario reports what it finds. A library never ends a process: the tests do.

use std::fmt::Debug;

/// Ends the run if something isn't as a scenario wants it, and says what.
pub trait Judge {
    /// Ends the run: this was found.
    fn stop<T>(&self, found: &str) -> T;

    /// Ends the run unless this holds: else this was found.
    fn demand(&self, holds: bool, found: &str);

    /// Ends the run unless both are the same.
    fn compare<T: PartialEq + Debug>(&self, found: &T, wanted: &T);

    /// The value of a result. For an error the run ends: this was wanted.
    fn expect<T, E: Debug + Drop>(&self, answer: Result<T, E>, wanted: &str) -> T;
}

/// The value of an option. For None the run ends.
pub(crate) fn present<T>(rt: &impl Judge, value: Option<T>, wanted: &str) -> T {
    rt.expect(value.ok_or("nothing"), wanted)
}
