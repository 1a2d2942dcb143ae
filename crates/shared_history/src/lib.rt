//! The history of a store that threads share: what workers count of their steps, the steps since the
//! last checkpoint, and the base from which they go on. `generational_sync` keeps one under its lock.
#![tactic(auto)]

mod base;
pub mod kept;
pub mod log;
pub mod replies;
mod tally;

pub use crate::base::Base;
pub use crate::tally::{Count, Tally, tallies};
