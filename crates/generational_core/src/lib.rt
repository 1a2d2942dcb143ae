//! What every storage of generational boxes has in common: boxes, guards and owners, and the traits
//! of storages.
//!
//! Its definitions, in `specs/`, are those of the abstract machine that `docs/machine.md` describes. The
//! clauses of [`AnyStorage`] and [`Storage`] say that each call is a step of that machine; the crate
//! `generational_laws` states what holds of all steps. Users of boxes import the crate
//! `generational_box`, which exports all of this except [`parts`], and provides the stores.
#![tactic(auto)]

mod borrow;
mod boxes;
mod owner;
pub mod parts;
mod references;
mod rows;
mod steps;
mod storage;

pub use crate::boxes::{GenerationalBox, GenerationalBoxId, GenerationalPointer};
pub use crate::owner::{Owner, OwnerId};
pub use crate::references::{GenerationalRef, GenerationalRefMut, Mut, MutPart, Ref};
pub use crate::rows::BaseRow;
pub use crate::steps::StepCall;
pub use crate::storage::{AnyStorage, Storage};
pub use generational_errors::{
    AlreadyBorrowedError, AlreadyBorrowedMutError, BorrowError, BorrowMutError, BorrowMutResult,
    BorrowResult, HandedBack, Location, Refusal, Refused, StoreError, ValueDroppedError,
};
