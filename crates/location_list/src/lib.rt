//! A list of locations without duplicates, each with its number.
//!
//! Code that stores many locations stores a number for each, and a [`LocationList`] has the location of
//! each number. It is an internal crate: users don't need it.
#![tactic(auto)]

mod list;

pub use crate::list::LocationList;
