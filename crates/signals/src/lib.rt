//! Signals, built on boxes: a value is dropped with the scope that created it, unless another scope holds
//! an alias.
//!
//! A [`Scope`] is an owner, and a [`Signal`] the box of a reference to a shared value. Each call is a few
//! calls of the underlying store, for every storage and every element type: its contract says what
//! signals read afterwards, and which are unchanged.
#![tactic(auto)]

mod scope;
mod signal;

pub use crate::scope::Scope;
pub use crate::signal::Signal;
