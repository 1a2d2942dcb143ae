//! The steps of a shared store, and how its history stores them.
//!
//! A [`Step`] is a worker, its call and the reply, without values. A [`StepList`] stores most steps in 8
//! bytes, with a number for each location and with names for cells, and any other whole. It is an
//! internal part of `generational_sync`, which exports what users need.
#![tactic(auto)]

mod entry;
mod locations;
mod short;
mod shorten;
mod step;
mod step_list;

pub use crate::entry::{
    AnyEntry, BoxEnded, BoxMade, BoxPointed, OwnerEnded, OwnerMade, ReadBegun, ReadDropped,
    ReadEnded, ReferenceMade, SharedMade, StepEntry, ValueSet, WriteBegun, WriteEnded, making,
    making_reference, making_shared,
};
pub use crate::step::{Kind, Step, StepReply};
pub use crate::step_list::{OldSteps, StepList};
