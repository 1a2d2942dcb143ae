//! Laws of the abstract machine: what holds of all its steps.
//!
//! [`laws`] has what each call does, and what each leads from and to, and [`caller_laws`] what a call leaves
//! unchanged. Its definitions, in `specs/`, say when one state carries another, what a store lacks when a
//! call fails, and what stores have that libraries keep. The lemmas behind the laws, and those that code over
//! a store cites, are in `proofs/callers`. Users of boxes import the crate `generational_box`, which exports
//! the laws, and provides the stores.
#![tactic(auto)]

pub mod caller_laws;
pub mod laws;
