//! Which of many numbered slots are dirty, found by blocks of 64.
#![tactic(auto)]

mod slots;

pub use crate::slots::{DirtySlots, block_end};
