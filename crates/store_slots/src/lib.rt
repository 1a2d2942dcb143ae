//! The slots of a store of generational boxes: cells under names, which slots are free, how many
//! references a cell has, and which borrows block a removal.
//!
//! It is an internal part of `generational_box`; users import that. Its items are `pub` for the crates
//! that depend on it, and may change with them.
#![tactic(auto)]

pub mod blocking_borrow;
pub mod counts;
pub mod found;
mod packing;
mod references;
pub mod refusals;
mod rows;
pub mod slots;
