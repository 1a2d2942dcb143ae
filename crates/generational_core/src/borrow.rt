//! An active borrow.

use generational_errors::Location;

/// An active borrow: its ticket, and the location that the caller passed when it began.
#[derive(Clone, Copy, Debug, PartialEq, Eq)]
pub struct Borrow {
    /// The ticket.
    pub ticket: u64,
    /// The location that the caller passed when the borrow began.
    pub location: Location,
}
