//! Workers in threads of their own that share a store, without ledgers, blanks or tallies.
//!
//! A [`Service`] says what is done before the threads start, in each of them ([`Job::serve`]), and
//! after they have all returned. [`run_workers`] makes the store, starts the threads, joins them and
//! audits the store: it returns what the service returned, and the history of the store's steps,
//! proved to replay and to have as many steps of each kind as the workers counted. [`run_alone`] does
//! the same without threads, for tests.
#![tactic(auto)]

mod alone;
mod hand;
mod job;
mod lone;
mod own;
mod pace;
mod run;
mod worker;

pub use crate::alone::{Alone, run_alone};
pub use crate::job::{Job, Service};
pub use crate::run::{STORE_NUMBER, Served, run_workers};
pub use crate::worker::Worker;
pub use generational_sync::{Base, Step};
