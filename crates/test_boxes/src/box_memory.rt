//! Memory runs out. Each test passes whichever allocation fails: `rt try --test --fail-alloc N` makes the
//! Nth of each test fail. What may fail to allocate is tried a second time.

use crate::again_memory::{
    assert_borrowed, begin_or_again, insert_or_again, leak_or_again, owner_or_again, readers,
};
use crate::expected::{
    assert_opens, assert_reads, assert_released, assert_same, assert_unread, begin, counts_of,
    dropped, end, given, leak, made, made_later, read, release,
};
use crate::fresh::{
    Beginning, Kind, Over, Scenario, SessionScenario, play, play_in_session, run_over,
    run_over_oldest_first,
};
use crate::sharing::{leak_rc, leak_reference};
use generational_box::{
    AnyStorage, BoxAt, Call, GenerationalBox, GenerationalRef, Location, Owner, Refused, Reply,
    Session, Storage, StoreError,
};
use std::alloc::Global;
use std::process::Abort;

/// The owner that comes back from a release that fails, with these readers. One that fails to allocate
/// for them ends nothing either.
fn assert_kept_by<S: AnyStorage<u32>>(
    rt: &impl Abort,
    alloc: Global,
    store: &mut S,
    owner: Owner,
    began: &[Location],
) -> Owner {
    let before = counts_of(store);
    let answer = match owner.release(store) {
        Err((back, Refused::Store(StoreError::OutOfMemory))) => {
            assert_same(rt, &counts_of(store), &before);
            back.release(store)
        }
        answer => answer,
    };
    let (back, refusal) = answer.err().expect(rt, "a refusal");
    assert_same(rt, &refusal, &readers(rt, alloc, began));
    assert_same(rt, &counts_of(store), &before);
    back
}

/// Begins a read beside another, if there is memory. One that fails changes nothing.
fn begin_if_memory<S: Storage<u32>>(
    rt: &impl Abort,
    store: &mut S,
    asked: GenerationalBox<u32>,
    began: Location,
) -> Option<GenerationalRef<u32>> {
    match asked.try_read(store, began) {
        Ok(second) => Some(second),
        Err(refused) => {
            assert_same(rt, &refused, &Refused::Store(StoreError::OutOfMemory));
            None
        }
    }
}

/// Only a making with no slot free may fail to allocate.
struct Slots;

impl Scenario<u32> for Slots {
    fn play<R: Abort, S: Storage<u32>>(rt: &R, _: Global, store: &mut S) {
        for value in 0..9 {
            let used = leak_or_again(rt, store, value);
            assert_reads(rt, store, used, value);
            end(rt, store, used);
            assert_unread(rt, store, used, dropped(made()));
            leak(rt, store, value, made());
        }
    }
}

/// A cell's first reader doesn't allocate. One that can't be added to others leaves those unchanged, and
/// the store goes on once there is memory.
struct ReadersBesideOthers;

impl Scenario<u32> for ReadersBesideOthers {
    fn play<R: Abort, S: Storage<u32>>(rt: &R, alloc: Global, store: &mut S) {
        let value = leak_or_again(rt, store, 5);
        let guard = begin(rt, store, value, made());
        if let Some(second) = begin_if_memory(rt, store, value, made_later()) {
            assert_released(rt, store, second, true);
        }
        assert_opens(rt, store, &guard, Some(5));
        assert_borrowed(rt, alloc, store, value, &[made()]);
        if let Some(second) = begin_if_memory(rt, store, value, read()) {
            assert_borrowed(rt, alloc, store, value, &[made(), read()]);
            assert_released(rt, store, second, true);
        }
        assert_opens(rt, store, &guard, Some(5));
        assert_released(rt, store, guard, true);
        end(rt, store, value);
    }
}

#[test]
fn for_slots_and_readers(rt: HostRuntime) {
    play::<u32, Slots>(&rt, rt.alloc());
    play::<u32, ReadersBesideOthers>(&rt, rt.alloc());
}

/// The records of owners are allocated. An owner that fails takes no ticket.
struct Owners;

impl Scenario<u32> for Owners {
    fn play<R: Abort, S: Storage<u32>>(rt: &R, _: Global, store: &mut S) {
        for taken in 1..=20 {
            let owner = owner_or_again(rt, store);
            assert_same(rt, &store.tickets_left(), &(18446744073709551615 - taken));
            owner.leak();
        }
    }
}

/// The owner that comes back while the later of two boxes is read, and then the earlier one, too.
fn assert_told_of_earlier<S: Storage<u32>>(
    rt: &impl Abort,
    alloc: Global,
    store: &mut S,
    owner: Owner,
    [earlier, later]: [GenerationalBox<u32>; 2],
    value: u32,
) -> Owner {
    let second = begin(rt, store, later, made_later());
    let first = begin(rt, store, earlier, made());
    let owner = assert_kept_by(rt, alloc, store, owner, &[made()]);
    assert_opens(rt, store, &second, Some(value));
    assert_released(rt, store, first, true);
    assert_released(rt, store, second, true);
    owner
}

/// A making by an owner may fail to allocate for the owner's list even if a slot is free, for example for
/// the first box here. Each box is in the list after the one before it: if both are read, the error is
/// that of the earlier one.
struct BoxesOfAnOwner;

impl Scenario<u32> for BoxesOfAnOwner {
    fn play<R: Abort, S: Storage<u32>>(rt: &R, alloc: Global, store: &mut S) {
        let ended = leak_or_again(rt, store, 9);
        end(rt, store, ended);
        let mut owner = owner_or_again(rt, store);
        let mut earlier = insert_or_again(rt, store, &owner, 0);
        for value in 1..6 {
            let later = insert_or_again(rt, store, &owner, value);
            owner = assert_told_of_earlier(rt, alloc, store, owner, [earlier, later], value);
            earlier = later;
        }
        release(rt, store, owner);
        assert_same(rt, &(store.slots(), store.free()), &(6, 6));
    }
}

/// A release that can't allocate its error's two locations returns the owner, and the readers go on.
struct ReadersOfAnOwnersBox;

impl Scenario<u32> for ReadersOfAnOwnersBox {
    fn play<R: Abort, S: Storage<u32>>(rt: &R, alloc: Global, store: &mut S) {
        let owner = owner_or_again(rt, store);
        let only = insert_or_again(rt, store, &owner, 5);
        let first = begin(rt, store, only, made());
        let second = begin_or_again(rt, store, only, made_later());
        let owner = assert_kept_by(rt, alloc, store, owner, &[made(), made_later()]);
        assert_opens(rt, store, &first, Some(5));
        assert_opens(rt, store, &second, Some(5));
        assert_released(rt, store, first, true);
        assert_released(rt, store, second, true);
        release(rt, store, owner);
        assert_unread(rt, store, only, dropped(made()));
    }
}

#[test]
fn for_owners_and_their_boxes(rt: HostRuntime) {
    play::<u32, Owners>(&rt, rt.alloc());
    play::<u32, BoxesOfAnOwner>(&rt, rt.alloc());
    play::<u32, ReadersOfAnOwnersBox>(&rt, rt.alloc());
}

/// A making and a read of what it makes, as a list.
fn two_calls(rt: &impl Abort, alloc: Global) -> Vec<Call<u32>> {
    let mut calls = match Vec::with_capacity(alloc, 2) {
        Ok(calls) => calls,
        Err(_) => Vec::with_capacity(alloc, 2).expect(rt, "memory"),
    };
    calls.push_reserved(Call::Leak(5, made()));
    calls.push_reserved(Call::TryRead(BoxAt::Place(0), read()));
    calls
}

/// Runs two calls, the second time at the latest. A list that fails to allocate comes back whole.
fn run_or_again<S: Storage<u32>>(
    rt: &impl Abort,
    session: &mut Session<u32, S>,
    calls: Vec<Call<u32>>,
) -> Vec<Reply<u32>> {
    let ran = match session.run(calls) {
        Err(back) => {
            assert_same(rt, &back.len(), &2);
            session.run(back)
        }
        ran => ran,
    };
    given(rt, ran)
}

/// Asserts the replies to two calls, of which the first may have failed to allocate.
fn assert_two_replies<S: Storage<u32>>(
    rt: &impl Abort,
    session: &Session<u32, S>,
    replies: &[Reply<u32>],
) {
    match replies {
        [Reply::Box(_), Reply::Reader] => assert_same(rt, &session.view(1).copied(), &Some(5)),
        [Reply::Back(5, StoreError::OutOfMemory), Reply::NoSuch(None)] => {}
        _ => assert!(rt; false, "other replies"),
    }
}

/// Whether a call returned a box, or returns itself or its value.
fn is_made_or_back(answer: &Result<Reply<u32>, Call<u32>>) -> bool {
    match answer {
        Ok(Reply::Box(_) | Reply::Back(6, StoreError::OutOfMemory)) => true,
        Err(Call::Leak(6, _)) => true,
        _ => false,
    }
}

/// Makes a box by a call. If an allocation fails, the call or its value comes back.
fn assert_called<S: Storage<u32>>(rt: &impl Abort, session: &mut Session<u32, S>) {
    let answer = session.call(Call::Leak(6, made()));
    assert_same(rt, &is_made_or_back(&answer), &true);
}

struct Places;

impl SessionScenario for Places {
    fn play<R: Abort, S: Storage<u32>>(rt: &R, alloc: Global, session: &mut Session<u32, S>) {
        let calls = two_calls(rt, alloc);
        let replies = run_or_again(rt, session, calls);
        assert_two_replies(rt, session, &replies);
        assert_called(rt, session);
    }
}

// Calls that find no room for their places or replies come back whole, and have no place: they can be
// passed in again.
#[test]
fn for_the_places_of_calls(rt: HostRuntime) {
    play_in_session::<Places>(&rt, rt.alloc());
}

/// Makes room for so many cells, the third time at the latest.
fn reserve_or_again<K: Kind<u32>>(rt: &impl Abort, store: &mut K::Made, more: usize) {
    for _ in 0..2 {
        if K::reserve(store, more).is_ok() {
            return;
        }
    }
    given(rt, K::reserve(store, more));
}

/// Values, shared values and references that take forty cells.
fn make_forty_cells<S: Storage<u32>>(rt: &impl Abort, store: &mut S) {
    for value in 0..10 {
        leak(rt, store, value, made());
        let shared = leak_rc(rt, store, value, made());
        leak_reference(rt, store, shared);
    }
}

/// Makes room in a store, and values there, twice.
struct MakingsInRoom;

impl<R: Abort> Over<u32, R> for MakingsInRoom {
    type Answer = ();

    fn run<K: Kind<u32>>(rt: &R, alloc: Global, number: u64, beginning: Beginning) {
        let mut store = K::make(alloc, number, beginning);
        for _ in 0..2 {
            reserve_or_again::<K>(rt, &mut store, 40);
            make_forty_cells(rt, &mut store);
        }
    }
}

// What room was made for doesn't allocate: no making is tried a second time.
#[test]
fn makings_in_reserved_room(rt: HostRuntime) {
    run_over::<u32, _, MakingsInRoom>(&rt, rt.alloc(), 7, Beginning::First);
    run_over_oldest_first::<u32, _, MakingsInRoom>(&rt, rt.alloc(), 7, Beginning::First);
}

/// Asserts that there is no room for so many cells.
fn assert_no_room<K: Kind<u32>>(rt: &impl Abort, store: &mut K::Made, more: usize) {
    assert_same(rt, &K::reserve(store, more), &Err(StoreError::OutOfMemory));
}

/// Asks a store for too much room, before and after it has some.
struct RoomBeyondAll;

impl<R: Abort> Over<u32, R> for RoomBeyondAll {
    type Answer = ();

    fn run<K: Kind<u32>>(rt: &R, alloc: Global, number: u64, beginning: Beginning) {
        let mut store = K::make(alloc, number, beginning);
        for more in [usize::MAX, usize::MAX - 1, 1 << 32] {
            assert_no_room::<K>(rt, &mut store, more);
        }
        reserve_or_again::<K>(rt, &mut store, 1);
        leak(rt, &mut store, 1, made());
        assert_no_room::<K>(rt, &mut store, usize::MAX);
    }
}

// More room than there can be fails, and takes none.
#[test]
fn room_beyond_all(rt: HostRuntime) {
    run_over::<u32, _, RoomBeyondAll>(&rt, rt.alloc(), 7, Beginning::First);
}
