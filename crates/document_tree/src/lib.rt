//! A tree of document parts, built on boxes, in which a part may be at several places.
//!
//! A [`Place`] is a `Copy` handle of 24 bytes that may outlive its part. A part has content and the
//! places of its children, and lives as long as some place refers to it. The store has a number for each
//! place, the key of its part; the parts are in a list of the document's own. A call with a removed
//! place fails with [`Stale`], which says where its part was added. Each call's contract says which
//! content and children every place has afterwards.
#![tactic(auto)]

mod building;
mod children;
mod counts;
mod document;
mod laws;
mod laying;
mod outlines;
mod part;
mod parts;
mod place;
mod places;
mod sweeping;

pub use crate::document::Document;
pub use crate::laws::{depths_are_steps, outlines_stay_below};
pub use crate::parts::{DocumentPart, DocumentParts, PartsFault};
pub use crate::place::{Place, PlaceError, PlaceKind, place_of};
pub use generational_core::HandedBack;
pub use handles::{Handle, Sites, Stale};
pub use live_cells::CellFault;
