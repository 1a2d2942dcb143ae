//! Calls that free others, under a lock of several calls. There they don't wait: one that a borrow
//! hinders isn't carried out.

use generational_box::{
    BorrowMutError, BorrowMutResult, BorrowResult, GenerationalBox, GenerationalRef,
    GenerationalRefMut, Owner, Refused, StepCall, StoreError,
};
use generational_sync::{Count, SyncState, Tally};
use std::mem;

/// Removes a box.
pub(crate) fn end<A: Count, B: Count, C: Count, D: Count>(
    state: &mut SyncState<String, 7, A, B, C, D>,
    tally: &mut Tally<A, B, C, D>,
    asked: GenerationalBox<String>,
) -> BorrowMutResult<()> {
    if !state.ready(&StepCall::ManuallyDrop(asked.pointer())) {
        return Err(Refused::Store(StoreError::OutOfMemory));
    }
    state.manually_drop(asked, tally)
}

/// Points a box elsewhere.
pub(crate) fn point_to<A: Count, B: Count, C: Count, D: Count>(
    state: &mut SyncState<String, 7, A, B, C, D>,
    tally: &mut Tally<A, B, C, D>,
    asked: GenerationalBox<String>,
    other: GenerationalBox<String>,
) -> BorrowMutResult<()> {
    if !state.ready(&StepCall::PointTo(asked.pointer(), other.pointer())) {
        return Err(Refused::Store(StoreError::OutOfMemory));
    }
    state.point_to(asked, other, tally)
}

/// Ends the read that is held.
pub(crate) fn release_read<A: Count, B: Count, C: Count, D: Count>(
    state: &mut SyncState<String, 7, A, B, C, D>,
    tally: &mut Tally<A, B, C, D>,
    held: &mut Option<GenerationalRef<String>>,
) -> bool {
    match held.take() {
        Some(guard) => state.release_read(guard, tally),
        None => false,
    }
}

/// Ends the write that is held.
pub(crate) fn release_write<A: Count, B: Count, C: Count, D: Count>(
    state: &mut SyncState<String, 7, A, B, C, D>,
    tally: &mut Tally<A, B, C, D>,
    held: &mut Option<GenerationalRefMut<String>>,
) -> Result<(), String> {
    match held.take() {
        Some(guard) => state.release_write(guard, tally),
        None => Ok(()),
    }
}

/// The result of an owner's release.
pub(crate) type Released = Result<(), (Owner, Refused<BorrowMutError>)>;

/// Spends an owner that wasn't spent yet.
pub(crate) fn release_owner<A: Count, B: Count, C: Count, D: Count>(
    state: &mut SyncState<String, 7, A, B, C, D>,
    tally: &mut Tally<A, B, C, D>,
    released: &mut Released,
) {
    if let Err((owner, cause)) = mem::replace(released, Ok(())) {
        let now = if state.may_release(&owner) {
            state.release_owner(owner, tally)
        } else {
            Err((owner, cause))
        };
        if let Err((owner, _)) = mem::replace(released, now) {
            owner.leak();
        }
    }
}

/// Makes another reference.
pub(crate) fn leak_reference<A: Count, B: Count, C: Count, D: Count>(
    state: &mut SyncState<String, 7, A, B, C, D>,
    tally: &mut Tally<A, B, C, D>,
    of: GenerationalBox<String>,
) -> BorrowResult<GenerationalBox<String>> {
    if !state.ready(&StepCall::LeakReference(of.pointer())) {
        return Err(Refused::Store(StoreError::OutOfMemory));
    }
    state.leak_reference(of, tally)
}

/// Makes a reference of an owner.
pub(crate) fn insert_reference<A: Count, B: Count, C: Count, D: Count>(
    state: &mut SyncState<String, 7, A, B, C, D>,
    tally: &mut Tally<A, B, C, D>,
    owner: &Owner,
    of: GenerationalBox<String>,
) -> BorrowResult<GenerationalBox<String>> {
    if !state.ready(&StepCall::InsertReference(owner.id(), of.pointer())) {
        return Err(Refused::Store(StoreError::OutOfMemory));
    }
    state.insert_reference(owner, of, tally)
}
