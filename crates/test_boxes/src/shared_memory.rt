//! Shared values where memory runs out. Each test passes whichever allocation fails, and what may fail to
//! allocate is tried a second time.

use crate::again_memory::{assert_held, begin_or_again, owner_or_again};
use crate::expected::{
    assert_opens, assert_reads, assert_released, assert_same, assert_unread, begin, counts_of,
    dropped, end, given, leak, made, made_later, release,
};
use crate::fresh::{Scenario, SessionScenario, play, play_in_session};
use crate::sharing::{insert_rc, insert_reference, leak_rc, leak_reference, point};
use generational_box::{
    BoxAt, Call, GenerationalBox, Location, Owner, Refused, Reply, Session, Storage, Store,
    StoreError,
};
use std::alloc::Global;
use std::process::Abort;

/// Makes a shared value, the second time at the latest. A making that fails to allocate returns the value
/// and changes no count, and an own value is made after it.
fn leak_rc_or_again<S: Storage<u32>>(
    rt: &impl Abort,
    store: &mut S,
    value: u32,
) -> GenerationalBox<u32> {
    let before = counts_of(store);
    match GenerationalBox::leak_rc(store, value, made()) {
        Ok(given) => given,
        Err(refusal) => {
            assert_same(
                rt,
                &(refusal.value, refusal.cause),
                &(value, StoreError::OutOfMemory),
            );
            assert_same(rt, &counts_of(store), &before);
            leak(rt, store, value, made());
            leak_rc(rt, store, value, made())
        }
    }
}

/// Makes a reference, the second time at the latest. One that fails to allocate changes no count.
fn leak_reference_or_again<S: Storage<u32>>(
    rt: &impl Abort,
    store: &mut S,
    shared: GenerationalBox<u32>,
) -> GenerationalBox<u32> {
    let before = counts_of(store);
    match shared.leak_reference(store) {
        Err(Refused::Store(StoreError::OutOfMemory)) => {
            assert_same(rt, &counts_of(store), &before);
            leak_reference(rt, store, shared)
        }
        answer => answer.expect(rt, "a box"),
    }
}

/// Makes a shared value by an owner, the second time at the latest. A making that fails to allocate
/// returns the value, and changes no count.
fn insert_rc_or_again<S: Storage<u32>>(
    rt: &impl Abort,
    store: &mut S,
    owner: &Owner,
    value: u32,
) -> GenerationalBox<u32> {
    let before = counts_of(store);
    match owner.insert_rc(store, value, made()) {
        Ok(given) => given,
        Err(refusal) => {
            assert_same(
                rt,
                &(refusal.value, refusal.cause),
                &(value, StoreError::OutOfMemory),
            );
            assert_same(rt, &counts_of(store), &before);
            insert_rc(rt, store, owner, value, made())
        }
    }
}

/// Makes a reference by an owner, the second time at the latest. One that fails to allocate changes no
/// count.
fn insert_reference_or_again<S: Storage<u32>>(
    rt: &impl Abort,
    store: &mut S,
    owner: &Owner,
    shared: GenerationalBox<u32>,
) -> GenerationalBox<u32> {
    let before = counts_of(store);
    match owner.insert_reference(store, shared) {
        Err(Refused::Store(StoreError::OutOfMemory)) => {
            assert_same(rt, &counts_of(store), &before);
            insert_reference(rt, store, owner, shared)
        }
        answer => answer.expect(rt, "a box"),
    }
}

/// Only a making with fewer than two slots free may fail to allocate.
struct SharedValues;

impl Scenario<u32> for SharedValues {
    fn play<R: Abort, S: Storage<u32>>(rt: &R, _: Global, store: &mut S) {
        for value in 0..9 {
            let shared = leak_rc_or_again(rt, store, value);
            assert_reads(rt, store, shared, value);
            end(rt, store, shared);
            assert_unread(rt, store, shared, dropped(made()));
            leak_rc(rt, store, value, made());
        }
    }
}

/// A making that finds one slot free leaves it free where it fails to allocate for the other.
struct ValuesBesideOneFreeSlot;

impl Scenario<u32> for ValuesBesideOneFreeSlot {
    fn play<R: Abort, S: Storage<u32>>(rt: &R, _: Global, store: &mut S) {
        let mut earlier = leak_rc_or_again(rt, store, 0);
        for value in 1..9 {
            let kept = leak_reference_or_again(rt, store, earlier);
            end(rt, store, earlier);
            earlier = leak_rc_or_again(rt, store, value);
            assert_reads(rt, store, earlier, value);
            assert_reads(rt, store, kept, value - 1);
        }
    }
}

#[test]
fn for_two_new_slots_and_for_one(rt: HostRuntime) {
    play::<u32, SharedValues>(&rt, rt.alloc());
    play::<u32, ValuesBesideOneFreeSlot>(&rt, rt.alloc());
}

/// A reference fails to allocate only if no slot is free.
struct References;

impl Scenario<u32> for References {
    fn play<R: Abort, S: Storage<u32>>(rt: &R, _: Global, store: &mut S) {
        let shared = leak_rc_or_again(rt, store, 5);
        for _ in 0..9 {
            let reference = leak_reference_or_again(rt, store, shared);
            assert_reads(rt, store, reference, 5);
            end(rt, store, reference);
            leak_reference(rt, store, shared);
        }
    }
}

/// An owner's makings may fail to allocate for slots and for the owner's list. What fails leaves no name
/// in the list.
struct NamesOfAnOwner;

impl Scenario<u32> for NamesOfAnOwner {
    fn play<R: Abort, S: Storage<u32>>(rt: &R, _: Global, store: &mut S) {
        let owner = owner_or_again(rt, store);
        for value in 0..9 {
            let shared = insert_rc_or_again(rt, store, &owner, value);
            let reference = insert_reference_or_again(rt, store, &owner, shared);
            end(rt, store, shared);
            assert_reads(rt, store, reference, value);
        }
        release(rt, store, owner);
        assert_same(rt, &(store.slots(), store.free()), &(19, 19));
    }
}

/// Pointing a reference elsewhere allocates only an error's readers, and leaves the reference unchanged
/// if that fails.
struct ReadersOfTheOldValue;

impl Scenario<u32> for ReadersOfTheOldValue {
    fn play<R: Abort, S: Storage<u32>>(rt: &R, alloc: Global, store: &mut S) {
        let reference = leak_rc_or_again(rt, store, 5);
        let other = leak_rc_or_again(rt, store, 6);
        let first = begin(rt, store, reference, made());
        let second = begin_or_again(rt, store, reference, made_later());
        let began = [made(), made_later()];
        assert_held(rt, alloc, store, [reference, other], &began);
        assert_opens(rt, store, &first, Some(5));
        assert_released(rt, store, first, true);
        assert_released(rt, store, second, true);
        point(rt, store, reference, other);
        assert_reads(rt, store, reference, 6);
    }
}

#[test]
fn for_references_and_their_readers(rt: HostRuntime) {
    play::<u32, References>(&rt, rt.alloc());
    play::<u32, NamesOfAnOwner>(&rt, rt.alloc());
    play::<u32, ReadersOfTheOldValue>(&rt, rt.alloc());
}

/// Whether a call returned a box, or returns itself or its value.
fn is_shared_or_back(answer: &Result<Reply<u32>, Call<u32>>) -> bool {
    match answer {
        Ok(Reply::Box(_) | Reply::Back(6, StoreError::OutOfMemory)) => true,
        Err(Call::LeakRc(6, _)) => true,
        _ => false,
    }
}

/// Makes a shared value by a call. If an allocation fails, the call or its value comes back.
fn assert_shared<S: Storage<u32>>(rt: &impl Abort, session: &mut Session<u32, S>) {
    let answer = session.call(Call::LeakRc(6, made()));
    assert_same(rt, &is_shared_or_back(&answer), &true);
}

/// Whether a call returned a box, finds no such place, fails, or returns itself.
fn is_referred_or_back(answer: &Result<Reply<u32>, Call<u32>>) -> bool {
    match answer {
        Ok(Reply::Box(_) | Reply::NoSuch(None)) => true,
        Ok(Reply::Store(StoreError::OutOfMemory)) => true,
        Err(Call::LeakReference(BoxAt::Place(0))) => true,
        _ => false,
    }
}

/// Makes a reference by a call. If an allocation fails, the call comes back, or fails.
fn assert_referred<S: Storage<u32>>(rt: &impl Abort, session: &mut Session<u32, S>) {
    let answer = session.call(Call::LeakReference(BoxAt::Place(0)));
    assert_same(rt, &is_referred_or_back(&answer), &true);
}

struct Calls;

impl SessionScenario for Calls {
    fn play<R: Abort, S: Storage<u32>>(rt: &R, _: Global, session: &mut Session<u32, S>) {
        for _ in 0..9 {
            assert_shared(rt, session);
            assert_referred(rt, session);
        }
    }
}

// A session returns a call without a place, and replies to one without a slot.
#[test]
fn for_the_calls_of_a_session(rt: HostRuntime) {
    play_in_session::<Calls>(&rt, rt.alloc());
}
