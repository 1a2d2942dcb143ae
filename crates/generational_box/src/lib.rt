//! Generational boxes: `Copy` boxes over recycled slots.
//!
//! A [`Store`] stores values of one type. A [`GenerationalBox`] refers to one of them: it is `Copy`, owns
//! nothing, and may outlive its value, since a name is never issued twice. A value is read or written
//! under a guard, which refers to its borrow and is consumed by `release`. If a borrow is in the way, or
//! the value was removed, a call fails with an error that says where the borrow began or where the box
//! was made. [`Session`] runs lists of calls that refer to each other by their places.
//!
//! Every call is proved to be a step of a small abstract machine, for every element type that can be
//! dropped and every storage: the clauses of [`AnyStorage`] and [`Storage`] say which step. The
//! definitions are in `specs/` of `generational_core`; `docs/machine.md` describes them in plain words.
#![tactic(auto)]

mod id_text;
mod ids;
mod unsync;

pub use crate::id_text::{box_id, parse_box_id};
pub use crate::unsync::{Numbers, Store, UnsyncStorage};
pub use generational_core::{
    AlreadyBorrowedError, AlreadyBorrowedMutError, AnyStorage, BaseRow, BorrowError,
    BorrowMutError, BorrowMutResult, BorrowResult, GenerationalBox, GenerationalBoxId,
    GenerationalPointer, GenerationalRef, GenerationalRefMut, HandedBack, Location, Mut, MutPart,
    Owner, OwnerId, Ref, Refusal, Refused, StepCall, Storage, StoreError, ValueDroppedError,
};
pub use generational_laws::caller_laws;
pub use generational_sessions::{BoxAt, Call, Reply, Session, laws};
pub use store_images::{
    CellImage, Image, ImageFault, LoadError, LoadRefusal, Loaded, SaveError, SlotImage,
};
pub use store_parts::pool::{LastFirst, OldestFirst, SlotPool};
