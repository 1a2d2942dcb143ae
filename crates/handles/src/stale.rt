//! The error of a stale handle.

use generational_core::Location;
use std::error::Error;
use std::fmt;

/// The value of a handle was removed, or belongs to another table.
#[derive(Clone, Copy, Debug, PartialEq, Eq)]
pub struct Stale {
    /// Where the value was made; None if it belongs to another table.
    pub created_at: Option<Location>,
}

/// Prints `the value made at file:line:column is gone`, or `the handle is of another table`.
impl fmt::Display for Stale {
    ghost use Rattle.std.specs.Prelude.{Some};
    ghost use Rattle.handles.specs.Texts.{stale_text};

    ghost output = { λ it. Some (stale_text it) };

    fn fmt<W: fmt::Write>(&self, f: &mut fmt::Formatter<W>) -> fmt::Result {
        match self.created_at {
            Some(created_at) => write!(f, "the value made at {created_at} is gone"),
            None => write!(f, "the handle is of another table"),
        }
    }
}

impl Error for Stale {}
