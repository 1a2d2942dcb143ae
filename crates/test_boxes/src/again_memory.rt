//! Calls that may fail to allocate; each is made again if it does, and then succeeds.

use crate::expected::{assert_same, begin, counts_of, insert, leak, made, new_owner};
use generational_box::{
    AlreadyBorrowedError, AnyStorage, BorrowMutError, GenerationalBox, GenerationalRef, Location,
    Owner, Refused, Storage, StoreError,
};
use std::alloc::Global;
use std::process::Abort;

/// Makes a box. A making that fails to allocate returns the value, and changes no count.
pub(crate) fn leak_or_again<T: Drop, S: Storage<T>>(
    rt: &impl Abort,
    store: &mut S,
    value: T,
) -> GenerationalBox<T> {
    let before = counts_of(store);
    match GenerationalBox::leak(store, value, made()) {
        Ok(given) => given,
        Err(refusal) => {
            assert_same(rt, &refusal.cause, &StoreError::OutOfMemory);
            assert_same(rt, &counts_of(store), &before);
            leak(rt, store, refusal.value, made())
        }
    }
}

/// Begins a read beside another.
pub(crate) fn begin_or_again<T, S: Storage<T>>(
    rt: &impl Abort,
    store: &mut S,
    asked: GenerationalBox<T>,
    began: Location,
) -> GenerationalRef<T> {
    match asked.try_read(store, began) {
        Err(Refused::Store(StoreError::OutOfMemory)) => begin(rt, store, asked, began),
        answer => answer.expect(rt, "a guard"),
    }
}

/// Makes an owner. If memory runs out the store is unchanged.
pub(crate) fn owner_or_again<T, S: AnyStorage<T>>(rt: &impl Abort, store: &mut S) -> Owner {
    let before = (store.is_fresh(), counts_of(store));
    match store.owner() {
        Ok(given) => given,
        Err(cause) => {
            assert_same(rt, &cause, &StoreError::OutOfMemory);
            assert_same(rt, &(store.is_fresh(), counts_of(store)), &before);
            new_owner(rt, store)
        }
    }
}

/// Makes a box by an owner. A making that fails to allocate returns the value, and changes no count.
pub(crate) fn insert_or_again<T: Drop, S: Storage<T>>(
    rt: &impl Abort,
    store: &mut S,
    owner: &Owner,
    value: T,
) -> GenerationalBox<T> {
    let before = counts_of(store);
    match owner.insert(store, value, made()) {
        Ok(given) => given,
        Err(refusal) => {
            assert_same(rt, &refusal.cause, &StoreError::OutOfMemory);
            assert_same(rt, &counts_of(store), &before);
            insert(rt, store, owner, refusal.value, made())
        }
    }
}

/// The error of an end with these readers.
pub(crate) fn readers(
    rt: &impl Abort,
    alloc: Global,
    began: &[Location],
) -> Refused<BorrowMutError> {
    let began = match began.to_vec(alloc) {
        Ok(began) => began,
        Err(_) => began.to_vec(alloc).expect(rt, "memory"),
    };
    Refused::Borrow(BorrowMutError::AlreadyBorrowed(AlreadyBorrowedError::new(began)))
}

/// Whether a call failed to allocate.
fn lacks(answer: &Result<(), Refused<BorrowMutError>>) -> bool {
    matches!(answer, Err(Refused::Store(StoreError::OutOfMemory)))
}

/// Asserts that a call fails with these readers.
fn assert_readers(
    rt: &impl Abort,
    alloc: Global,
    answer: &Result<(), Refused<BorrowMutError>>,
    began: &[Location],
) {
    assert_same(rt, answer, &Err(readers(rt, alloc, began)));
}

/// Asserts that an end fails with these readers, the second time at the latest.
pub(crate) fn assert_borrowed<T, S: Storage<T>>(
    rt: &impl Abort,
    alloc: Global,
    store: &mut S,
    asked: GenerationalBox<T>,
    began: &[Location],
) {
    let first = asked.manually_drop(store);
    if lacks(&first) {
        let second = asked.manually_drop(store);
        assert_readers(rt, alloc, &second, began);
    } else {
        assert_readers(rt, alloc, &first, began);
    }
}

/// Asserts that a box isn't pointed at another while these readers are active, the second time at the
/// latest.
pub(crate) fn assert_held<T, S: Storage<T>>(
    rt: &impl Abort,
    alloc: Global,
    store: &mut S,
    [from, to]: [GenerationalBox<T>; 2],
    began: &[Location],
) {
    let first = from.point_to(store, to);
    if lacks(&first) {
        let second = from.point_to(store, to);
        assert_readers(rt, alloc, &second, began);
    } else {
        assert_readers(rt, alloc, &first, began);
    }
}
