//! Small callers of the libraries built on boxes, which prove that their contracts say what a caller
//! needs; and the programs of two pages, which have proofs of their own.
#![tactic(auto)]

pub mod documents;
pub mod entities;
pub mod errors;
pub mod keyed;
pub mod memos;
pub mod phrases;
pub mod prices;
pub mod proving;
pub mod resources;
pub mod sessions;
pub mod trees;
