//! The places at which the scenarios ask.

use generational_box::Location;

/// Where a value is made.
pub(crate) fn made() -> Location {
    Location::new("a.rs", 3, 5)
}

/// Where another value is made.
pub(crate) fn made_later() -> Location {
    Location::new("a.rs", 8, 9)
}

/// Where a value is read.
pub(crate) fn read() -> Location {
    Location::new("r.rs", 1, 2)
}

/// Where a value is read again.
pub(crate) fn read_later() -> Location {
    Location::new("r.rs", 6, 7)
}
