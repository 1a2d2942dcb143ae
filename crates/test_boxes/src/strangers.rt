//! Guards and owners of one store that are passed to another, and a box that is passed to a store of the
//! same number. The scripts use boxes of other stores.

use crate::expected::{
    assert_kept, assert_opens, assert_reads, assert_released, assert_same, assert_shows,
    assert_stays, assert_unknown, assert_unread, assert_unwritten, begin, begin_write, borrowed,
    counts_of, dropped, end, insert, leak, made, made_later, new_owner, read, release, written,
};
use crate::fresh::{TwoStoreScenario, play_in_twins, play_in_two_stores};
use crate::sharing::{insert_rc, leak_rc};
use generational_box::{
    AlreadyBorrowedMutError, BorrowError, GenerationalBox, GenerationalRefMut, Owner, Refused,
    Storage, StoreError,
};
use std::alloc::Global;
use std::process::Abort;

/// Two stores each have a reader with ticket 0 at a cell `0@1`. A guard opens nothing in the other store,
/// and is consumed there without a change, so its own cell stays borrowed.
struct GuardsOfTwo;

impl TwoStoreScenario<u32> for GuardsOfTwo {
    fn play<R: Abort, S: Storage<u32>>(rt: &R, alloc: Global, seven: &mut S, eight: &mut S) {
        let own = leak(rt, seven, 70, made());
        let foreign = leak(rt, eight, 80, made_later());
        let guard = begin(rt, seven, own, made());
        let stranger = begin(rt, eight, foreign, read());
        assert_same(rt, &(guard.ticket(), stranger.ticket()), &(0, 0));
        assert_opens(rt, seven, &stranger, None);
        assert_opens(rt, eight, &guard, None);

        assert_released(rt, seven, stranger, false);
        assert_stays(rt, seven, own, borrowed(rt, alloc, &[made()]));
        assert_opens(rt, seven, &guard, Some(70));
        assert_released(rt, seven, guard, true);
        end(rt, seven, own);
        assert_unwritten(rt, eight, foreign, borrowed(rt, alloc, &[read()]));
    }
}

/// A guard of the first store is passed to the second, which doesn't know it: it is consumed there
/// without a change, and both cells stay borrowed.
struct GuardHandedOver;

impl TwoStoreScenario<u32> for GuardHandedOver {
    fn play<R: Abort, S: Storage<u32>>(rt: &R, alloc: Global, seven: &mut S, eight: &mut S) {
        let foreign = leak(rt, seven, 70, made());
        let own = leak(rt, eight, 80, made());
        let stranger = begin(rt, seven, foreign, made_later());
        let guard = begin(rt, eight, own, read());
        let before = counts_of(eight);

        assert_released(rt, eight, stranger, false);
        assert_same(rt, &counts_of(eight), &before);
        assert_unwritten(rt, eight, own, borrowed(rt, alloc, &[read()]));
        assert_opens(rt, eight, &guard, Some(80));
        assert_released(rt, eight, guard, true);
        assert_unwritten(rt, seven, foreign, borrowed(rt, alloc, &[made_later()]));
    }
}

/// Asserts that a store doesn't know a writer, and returns its value.
fn assert_handed_back<S: Storage<u32>>(
    rt: &impl Abort,
    store: &mut S,
    writer: GenerationalRefMut<u32>,
    value: u32,
) {
    assert_same(rt, &writer.release(store), &Err(value));
}

/// A store returns the value of another store's writer, and changes nothing. The writer is consumed, and
/// its cell stays borrowed.
struct WritersOfTwo;

impl TwoStoreScenario<u32> for WritersOfTwo {
    fn play<R: Abort, S: Storage<u32>>(rt: &R, _: Global, seven: &mut S, eight: &mut S) {
        let own = leak(rt, seven, 70, made());
        let foreign = leak(rt, eight, 80, made_later());
        let stranger = begin_write(rt, eight, foreign, written());
        let before = counts_of(seven);

        assert_handed_back(rt, seven, stranger, 80);
        assert_same(rt, &counts_of(seven), &before);
        assert_reads(rt, seven, own, 70);
        let writing = BorrowError::AlreadyBorrowedMut(AlreadyBorrowedMutError::new(written()));
        assert_unread(rt, eight, foreign, Refused::Borrow(writing));
    }
}

#[test]
fn borrows_of_another_store_are_unknown(rt: HostRuntime) {
    play_in_two_stores::<u32, GuardsOfTwo>(&rt, rt.alloc());
    play_in_two_stores::<u32, GuardHandedOver>(&rt, rt.alloc());
    play_in_two_stores::<u32, WritersOfTwo>(&rt, rt.alloc());
}

struct BoxOfATwin;

impl TwoStoreScenario<u32> for BoxOfATwin {
    fn play<R: Abort, S: Storage<u32>>(rt: &R, alloc: Global, one: &mut S, twin: &mut S) {
        let asked = leak(rt, one, 1, made());
        let shared = leak_rc(rt, twin, 2, made_later());
        assert_shows(rt, alloc, &asked, "0@1");
        assert_shows(rt, alloc, &shared, "1@1");

        assert_unread(rt, twin, asked, dropped(made()));
        end(rt, twin, asked);
        assert_reads(rt, twin, shared, 2);
        assert_reads(rt, one, asked, 1);
    }
}

// A box of one store has the id that a shared value has in another store of its number. A box that
// names a shared value itself, and no reference to it, reaches nothing, and ends nothing.
#[test]
fn a_box_of_a_store_of_one_number_reaches_no_shared_value(rt: HostRuntime) {
    play_in_twins::<u32, BoxOfATwin>(&rt, rt.alloc());
}

/// Asserts that a store makes no box and no shared value by an owner, and returns the values.
fn assert_not_inserted<S: Storage<u32>>(rt: &impl Abort, store: &mut S, owner: &Owner) {
    assert_unknown(rt, owner.insert(store, 9, made()), 9);
    assert_unknown(rt, owner.insert_rc(store, 9, made()), 9);
}

/// Asserts that a store makes no reference by an owner.
fn assert_not_listed<S: Storage<u32>>(
    rt: &impl Abort,
    store: &mut S,
    owner: &Owner,
    asked: GenerationalBox<u32>,
) {
    let unknown = Refused::Store(StoreError::UnknownOwner);
    assert_same(rt, &owner.insert_reference(store, asked), &Err(unknown));
}

/// Asserts that a store doesn't clone an owner.
fn assert_not_cloned<S: Storage<u32>>(rt: &impl Abort, store: &mut S, owner: &Owner) {
    match owner.clone(store) {
        Ok(given) => {
            given.leak();
            panic!(rt; "the clone was given");
        }
        Err(cause) => assert_same(rt, &cause, &StoreError::UnknownOwner),
    }
}

/// Each of two stores has an owner of boxes, so both have a record under the same key. Only its own store
/// knows an owner: another one makes nothing by it; that error comes before any about a box.
struct OwnersOfTwo;

impl TwoStoreScenario<u32> for OwnersOfTwo {
    fn play<R: Abort, S: Storage<u32>>(rt: &R, _: Global, seven: &mut S, eight: &mut S) {
        let own = new_owner(rt, seven);
        let stale = leak(rt, seven, 0, made());
        end(rt, seven, stale);
        insert(rt, seven, &own, 1, made());
        let shared = insert_rc(rt, seven, &own, 2, made());
        let owner = new_owner(rt, eight);
        let foreign = insert_rc(rt, eight, &owner, 8, made_later());
        let before = counts_of(seven);

        assert_not_inserted(rt, seven, &owner);
        assert_not_listed(rt, seven, &owner, shared);
        assert_not_listed(rt, seven, &owner, foreign);
        assert_not_listed(rt, seven, &owner, stale);
        assert_not_cloned(rt, seven, &owner);
        let unknown = Refused::Store(StoreError::UnknownOwner);
        let owner = assert_kept(rt, seven, owner, unknown);
        assert_same(rt, &counts_of(seven), &before);

        release(rt, eight, owner);
        assert_unread(rt, eight, foreign, dropped(made_later()));
        release(rt, seven, own);
        assert_same(rt, &seven.free(), &3);
    }
}

/// Asserts that a making by an owner of another store fails, and takes no free slot: the next value has
/// the slot that was freed last.
fn assert_first_free<S: Storage<u32>>(
    rt: &impl Abort,
    store: &mut S,
    refused: bool,
    slot: usize,
) -> GenerationalBox<u32> {
    assert!(rt; refused);
    let next = leak(rt, store, 3, made());
    assert_same(rt, &next.raw_ptr(), &slot);
    next
}

/// A making that fails leaves the free slots in their order.
struct FreeSlots;

impl TwoStoreScenario<u32> for FreeSlots {
    fn play<R: Abort, S: Storage<u32>>(rt: &R, _: Global, seven: &mut S, eight: &mut S) {
        let stranger = new_owner(rt, eight);
        let shared = leak_rc(rt, seven, 0, made());
        let one = leak(rt, seven, 1, made());
        let other = leak(rt, seven, 2, made());
        end(rt, seven, one);
        end(rt, seven, other);
        let refused = stranger.insert(seven, 4, made()).is_err();
        let next = assert_first_free(rt, seven, refused, other.raw_ptr());
        end(rt, seven, next);
        let refused = stranger.insert_rc(seven, 4, made()).is_err();
        let next = assert_first_free(rt, seven, refused, other.raw_ptr());
        end(rt, seven, next);
        let refused = stranger.insert_reference(seven, shared).is_err();
        assert_first_free(rt, seven, refused, other.raw_ptr());
        assert_first_free(rt, seven, true, one.raw_ptr());
        stranger.leak();
    }
}

#[test]
fn an_owner_of_another_store_is_unknown_and_takes_nothing(rt: HostRuntime) {
    play_in_two_stores::<u32, OwnersOfTwo>(&rt, rt.alloc());
    play_in_two_stores::<u32, FreeSlots>(&rt, rt.alloc());
}
