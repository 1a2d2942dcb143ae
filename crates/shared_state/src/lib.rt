//! What the lock of a shared store protects: a sequential store with the history of its steps, and laws of
//! such histories. It needs no threads. An internal part of `generational_sync`, which exports what users
//! need.
#![tactic(auto)]

mod begin;
pub mod laws;
mod state;

pub use crate::begin::{BeginError, BeginRefusal, Unbegun};
pub use crate::state::{SyncState, WantedRows};
