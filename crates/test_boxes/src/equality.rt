//! Values that differ in one thing alone aren't equal.

use crate::expected::{assert_same, leak, made, made_later};
use crate::fresh::{Scenario, play};
use generational_box::{
    AlreadyBorrowedError, AlreadyBorrowedMutError, BorrowError, BorrowMutError,
    GenerationalPointer, Location, Refused, StepCall, Storage, Store, StoreError,
    ValueDroppedError,
};
use std::alloc::Global;
use std::process::Abort;

/// Asserts that of several values each is equal to itself alone.
fn assert_all_differ<T: PartialEq>(rt: &impl Abort, values: &[T]) {
    for (place, one) in values.iter().enumerate() {
        for (other_place, other) in values.iter().enumerate() {
            assert!(rt; (*one == *other) == (place == other_place));
        }
    }
}

#[test]
fn locations(rt: HostRuntime) {
    let places = [
        Location::new("a.rs", 3, 5),
        Location::new("b.rs", 3, 5),
        Location::new("a.rs", 4, 5),
        Location::new("a.rs", 3, 6),
    ];
    assert_all_differ(&rt, &places);
    assert_same(&rt, &places[0], &Location::new("a.rs", 3, 5));
}

/// An error of readers that began at these locations.
fn read_at(rt: &impl Abort, alloc: Global, began: &[Location]) -> AlreadyBorrowedError {
    AlreadyBorrowedError::new(began.to_vec(alloc).expect(rt, "memory"))
}

#[test]
fn errors_at_other_locations(rt: HostRuntime) {
    let (one, other) = (made(), made_later());
    let gone = [ValueDroppedError::new(one), ValueDroppedError::new(other)];
    assert_all_differ(&rt, &gone);
    let written = [
        AlreadyBorrowedMutError::new(one),
        AlreadyBorrowedMutError::new(other),
    ];
    assert_all_differ(&rt, &written);
}

#[test]
fn errors_of_other_readers(rt: HostRuntime) {
    let alloc = rt.alloc();
    let (one, other) = (made(), made_later());
    let read = [
        read_at(&rt, alloc, &[one, other]),
        read_at(&rt, alloc, &[other, one]),
        read_at(&rt, alloc, &[one]),
        read_at(&rt, alloc, &[one, one]),
        read_at(&rt, alloc, &[other, other]),
    ];
    assert_all_differ(&rt, &read);
    assert!(rt; read[0] == read_at(&rt, alloc, &[one, other]));
}

/// A value that is gone.
fn gone(made: Location) -> BorrowError {
    BorrowError::Dropped(ValueDroppedError::new(made))
}

/// A value that is written.
fn written(began: Location) -> BorrowError {
    BorrowError::AlreadyBorrowedMut(AlreadyBorrowedMutError::new(began))
}

#[test]
fn errors_of_other_kinds(rt: HostRuntime) {
    let (one, other) = (made(), made_later());
    let asked = [gone(one), gone(other), written(one), written(other)];
    assert_all_differ(&rt, &asked);
}

#[test]
fn errors_of_writes_of_other_kinds(rt: HostRuntime) {
    let alloc = rt.alloc();
    let (one, other) = (made(), made_later());
    let asked = [
        BorrowMutError::AlreadyBorrowed(read_at(&rt, alloc, &[one])),
        BorrowMutError::AlreadyBorrowed(read_at(&rt, alloc, &[other])),
        BorrowMutError::from(gone(one)),
        BorrowMutError::from(gone(other)),
        BorrowMutError::from(written(one)),
    ];
    assert_all_differ(&rt, &asked);
}

#[test]
fn refusals(rt: HostRuntime) {
    let (lacking, exhausted) = (StoreError::OutOfMemory, StoreError::NumbersExhausted);
    assert_all_differ(&rt, &[lacking, exhausted, StoreError::UnknownOwner]);
    let refused = [
        Refused::Store(lacking),
        Refused::Store(exhausted),
        Refused::Borrow(gone(made())),
        Refused::Borrow(gone(made_later())),
    ];
    assert_all_differ(&rt, &refused);
}

/// Asserts that recorded calls differ in their kind, their box, their location and their ticket.
fn assert_steps(rt: &impl Abort, one: GenerationalPointer, other: GenerationalPointer) {
    let calls = [
        StepCall::Read(one, made()),
        StepCall::Read(other, made()),
        StepCall::Read(one, made_later()),
        StepCall::ManuallyDrop(one),
        StepCall::ManuallyDrop(other),
        StepCall::Leak(made()),
        StepCall::Leak(made_later()),
        StepCall::ReleaseRead(0),
        StepCall::ReleaseRead(1),
    ];
    assert_all_differ(rt, &calls);
    assert!(rt; calls[0] == StepCall::Read(one, made()));
}

struct Steps;

impl Scenario<u32> for Steps {
    fn play<R: Abort, S: Storage<u32>>(rt: &R, _: Global, store: &mut S) {
        let one = leak(rt, store, 1, made());
        let other = leak(rt, store, 1, made());
        assert_steps(rt, one.pointer(), other.pointer());
    }
}

#[test]
fn recorded_calls(rt: HostRuntime) {
    play::<u32, Steps>(&rt, rt.alloc());
}
