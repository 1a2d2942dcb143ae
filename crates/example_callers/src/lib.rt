//! Small callers of the boxes' crates, which prove that their contracts say what a caller needs.
#![tactic(auto)]

pub mod asking;
pub mod clones;
pub mod conditions;
pub mod images;
pub mod kinds;
pub mod leaving;
pub mod owned;
pub mod sessions;
pub mod shared;
pub mod slots;
pub mod soundness;
pub mod table;
pub mod values;
pub mod wrapping;
pub mod writing;
