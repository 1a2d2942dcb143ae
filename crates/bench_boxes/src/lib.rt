//! Whole workloads over a store: what the store is measured by.
//!
//! Each workload makes many calls and returns a checksum of the values that were seen, which is the same
//! for every store that does the same work. They are described in `docs/PERFORMANCE.md` at the
//! repository's root.
#![tactic(auto)]

mod calls;
mod element;
mod random;
mod workloads;

pub use crate::calls::Stopped;
pub use crate::element::Element;
pub use crate::workloads::{
    answer, churn, insert_and_read, own_and_release, point_often, read_often, read_together,
    write_often,
};
