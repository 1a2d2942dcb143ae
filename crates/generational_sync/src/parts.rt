//! What tests of threads need of a store. Users of a shared store don't need it.

pub use crate::storage::waiting;
