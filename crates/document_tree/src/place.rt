//! Places, and why a call with one fails.

ghost use Rattle.std.specs.Prelude.{◌≡◌, ◌≤◌, ◌^◌, IfNone, IfSome};
ghost use Rattle.handles.specs.Handles.{id_in};

use generational_core::GenerationalBoxId;
use handles::parts::handle_at;
use handles::{Handle, Stale};
use std::error::Error;
use std::fmt;

/// What marks a handle as a place's.
pub enum PlaceKind {}

/// A place in a document: a handle that is `Copy`, owns nothing, and may outlive its part. It never
/// refers to a later place's part. Places are equal if their ids are: two that refer to one part aren't.
pub type Place = Handle<u32, PlaceKind>;

/// The place with an id that was stored, for a list of children. It has no location: `find` of a document
/// returns a place with one. None if the slot is too high for a place, from 2³² on. Doesn't allocate.
///
/// ```rust
/// let child = place_of(id)?;
/// ```
pub fn place_of(id: GenerationalBoxId) -> Option<Place>
    ensures place { IfSome result (λ p. id_in p ≡ id) }
    ensures none { IfNone result (2 ^ 32 ≤ id.slot) }
{
    if id.slot > u32::MAX as usize {
        return None;
    }
    Some(handle_at(id, u32::MAX))
}

/// Why a place can't be made, or can't be added as a child.
#[derive(Clone, Copy, Debug, PartialEq, Eq)]
pub enum PlaceError {
    /// The place was removed, or belongs to another document.
    Stale(Stale),
    /// Out of memory, or too many places.
    OutOfMemory,
    /// The part has fewer children than the index, or no child at it.
    OutOfRange,
}

/// Prints the text of `Stale`, `out of memory`, or `the index is past the children`.
impl fmt::Display for PlaceError {
    ghost use Rattle.std.specs.Prelude.{Some};
    ghost use Rattle.document_tree.specs.Texts.{place_error_text};

    ghost output = { λ it. Some (place_error_text it) };

    fn fmt<W: fmt::Write>(&self, f: &mut fmt::Formatter<W>) -> fmt::Result {
        match self {
            PlaceError::Stale(stale) => write!(f, "{stale}"),
            PlaceError::OutOfMemory => write!(f, "out of memory"),
            PlaceError::OutOfRange => write!(f, "the index is past the children"),
        }
    }
}

impl Error for PlaceError {}

/// Converts with `?`, and keeps where the place's part was added. Doesn't allocate.
impl From<Stale> for PlaceError {
    ghost use Rattle.std.specs.Prelude.{◌≡◌};
    ghost use Rattle.document_tree.specs.declared.place.PlaceError.TheVariants.{Stale};

    ghost from_gives = { λ stale error. error ≡ Stale stale };

    fn from(stale: Stale) -> PlaceError {
        PlaceError::Stale(stale)
    }
}
