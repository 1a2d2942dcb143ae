//! Sources, memos and effects, built on boxes: a memo's value is what its rule computes from the current
//! values of the sources, whatever is cached and in whatever order they were set.
//!
//! A [`Key`] is a handle of a node. A [`Rule`] says what a memo computes from other nodes, which it
//! reads through a [`Reads`]. A [`Reactive`] has the nodes in a store, and reports which of the watched
//! nodes have changed. A set runs no rule: a memo is brought up to date when it is read, and its rule is
//! run only if something that it read has another value.
#![tactic(auto)]

mod blame;
mod effects;
mod fault;
mod key;
pub mod laws;
mod links;
mod look;
mod node;
mod nodes;
mod reactive;
mod reader;
mod rule;
mod scope;

pub use crate::effects::{Effect, Told};
pub use crate::fault::Fault;
pub use crate::key::Key;
pub use crate::node::Node;
pub use crate::reactive::Reactive;
pub use crate::reader::Reader;
pub use crate::rule::{Reads, Rule};
pub use crate::scope::Scope;
pub use reactive_values::{Items, Text, Value};
