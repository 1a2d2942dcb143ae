//! A list that grows in chunks: its items are never moved.
//!
//! [`Chunks`] is for lists that are appended to, copied as a whole and emptied as a whole, as a history
//! is. Growing allocates one chunk and copies no item, and appending an item for which there is room
//! doesn't allocate.
#![tactic(auto)]

mod list;

pub use crate::list::Chunks;
