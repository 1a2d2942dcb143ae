//! Sessions of generational boxes over any storage, and their laws.
//!
//! A [`Session`] is a store with what its calls returned: it runs calls, and lists of them, that refer to
//! each other by their places. Its definitions, in `specs/`, say what sessions are, when one state
//! carries another, and what holds of replies for every storage. [`laws`] has what holds of all sessions,
//! and passes on what holds of all steps of the machine. Users of boxes import the crate
//! `generational_box`, which exports all of this, and provides the stores.
#![tactic(auto)]

mod calls;
pub mod laws;
mod places;
mod session;

pub use crate::calls::{BoxAt, Call, Reply};
pub use crate::session::Session;
