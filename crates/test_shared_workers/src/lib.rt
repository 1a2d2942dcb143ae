//! Scenarios of a store that threads share, over workers and their stores: what calls return, what the
//! audited history has, and that each waiting call returns. The expected values are worked out by hand.
//! `test_shared` plays them.
#![tactic(auto)]

mod audits;
mod beside;
mod each_call;
mod gates;
mod judge;
mod kinds;
mod places;
mod recorded;
mod recorder;
mod rows;
mod scenes;
mod strangers;
mod together;
mod unshared;
mod waking;
mod workers;

pub use crate::audits::audited;
pub use crate::each_call::call_each;
pub use crate::judge::Judge;
pub use crate::kinds::{Entry, turn};
pub use crate::scenes::{Scenario, play};
pub use crate::unshared::{live, trim};
pub use crate::waking::Freeing;
pub use crate::workers::{Handle, Worker};
