//! Values of numbered slots, all of which are removed at once in O(1).
#![tactic(auto)]

mod values;

pub use crate::values::StampedValues;
