//! Small callers of scopes and signals, which prove that their contracts say what a caller needs.
#![tactic(auto)]

pub mod scopes;
