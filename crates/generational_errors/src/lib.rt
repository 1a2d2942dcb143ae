//! Locations, and the errors of boxes and stores.
//!
//! They depend on no other crate of this repository. Users of boxes import the crate `generational_box`,
//! which exports all of them.
#![tactic(auto)]

mod error;

pub use crate::error::{
    AlreadyBorrowedError, AlreadyBorrowedMutError, BorrowError, BorrowMutError, BorrowMutResult,
    BorrowResult, HandedBack, Location, Refusal, Refused, StoreError, ValueDroppedError,
};
