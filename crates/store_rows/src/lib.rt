//! The rows of what a store has, in few bytes, written over those of an earlier state.
//!
//! A checkpoint of the shared store packs them while other workers wait. So they are few bytes, they are
//! written to memory that was touched before, and an unchanged slot without whole rows isn't written
//! again.
#![tactic(auto)]

mod columns;
mod packed;
mod rows;

pub use crate::columns::PackedSlots;
pub use crate::packed::PackedSlot;
pub use crate::rows::{PackedRows, PastRows, RowCounts};
