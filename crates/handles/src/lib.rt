//! Handles of 24 bytes, and what a table stores for them.
//!
//! A [`Handle`] refers to a cell of a store, and has a number in its table's own list of locations
//! ([`Sites`]) for where the cell was made. A [`HandleMap`] stores a value for each handle of one table,
//! by the handle's slot. The libraries built on boxes use this crate; it exports nothing that users need,
//! except what these re-export.
#![tactic(auto)]

mod cells;
mod handle;
mod map;
mod sites;
mod stale;
mod walk;

/// How a table makes and reads handles. Users don't need it.
pub mod parts {
    pub use crate::cells::{peek, pointer_to};
    pub use crate::handle::{handle_at, number_of, site_of, slot_of};
    pub use crate::map::{HandleMap, Row};
    pub use crate::sites::Sites;
}

pub use crate::handle::Handle;
pub use crate::sites::Sites;
pub use crate::stale::Stale;
pub use crate::walk::HandleIter;
