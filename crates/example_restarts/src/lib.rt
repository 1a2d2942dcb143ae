//! Callers of shared stores that outlive their process.
#![tactic(auto)]

pub mod restarts;
