//! A store of generational boxes that threads share, with a history of its steps.
//!
//! A [`SyncStorage`] is one sequential store under one lock. Each call that returns is a step: the store
//! records the worker, the call and the reply, and the worker's [`Tally`] counts it by its [`Kind`]. The
//! history replays: from an empty store the abstract machine, without values, takes the recorded steps
//! one by one and gives the recorded replies, and comes to the state that the store has.
//! [`SyncStorage::audit`] takes all tallies and returns a list that replays, and that has of each kind as
//! many steps as they have counted. `docs/history.md` describes histories in plain words.
//!
//! [`SyncState`] is what the lock protects. It needs no threads.
#![tactic(auto)]

pub mod parts;
mod storage;
mod together;

pub use crate::storage::SyncStorage;
pub use crate::together::Together;
pub use shared_history::{Base, Count, Tally};
pub use shared_records::{Kind, Step, StepReply};
pub use shared_state::{BeginError, BeginRefusal, SyncState, Unbegun, laws};
