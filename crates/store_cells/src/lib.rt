//! The entries of a store of generational boxes: what each slot stores, with its borrows.
//!
//! It is an internal part of `generational_box`; users import that. Its items are `pub` for the crates
//! that depend on it, and may change with them.
#![tactic(auto)]

pub mod entries;
pub mod entry;
pub mod latest;
