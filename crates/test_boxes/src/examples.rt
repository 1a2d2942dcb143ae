//! The examples of the calls' own pages, run: `.ci/page.py` compares them with these lines.

use crate::expected::{assert_same, made, read, written};
use generational_box::{
    AnyStorage, BorrowMutError, BoxAt, Call, GenerationalBox, Location, Numbers, Owner, Reply,
    Session, Storage, Store, StoreError, UnsyncStorage, ValueDroppedError,
};
use std::alloc::Global;
use std::process::Abort;

/// What a box has without its store.
fn tell(one: GenerationalBox<u64>, other: GenerationalBox<u64>) -> bool {
    let is_same = one.ptr_eq(&other);
    let have_one_id = one.id() == other.id();
    is_same == have_one_id && one.raw_ptr() != other.raw_ptr()
}

/// A value that is set, and looked at.
fn set<S: Storage<u64>>(store: &mut S, kept: GenerationalBox<u64>) -> Option<u64> {
    if kept.is_live(store) && kept.can_write(store) {
        kept.set(store, 8);
    }
    kept.peek(store).copied()
}

/// A box that is found again by its id.
fn find<S: Storage<u64>>(store: &S, kept: GenerationalBox<u64>) -> bool {
    let found = GenerationalBox::find(store, kept.id());
    found == Some(kept)
}

/// A value for which there is room already.
fn make_within(store: &mut UnsyncStorage<u64>) -> Option<GenerationalBox<u64>> {
    store.reserve(1).ok()?;
    GenerationalBox::leak(store, 7, made()).ok()
}

/// A shared value, and a reference that is led to it.
fn lead<S: Storage<u64>>(store: &mut S, owner: &Owner) -> Option<u64> {
    let first = owner.insert_rc(store, 1, made()).ok()?;
    let second = owner.insert_reference(store, first).ok()?;
    let other = GenerationalBox::leak_rc(store, 2, made()).ok()?;
    second.point_to(store, other).ok()?;
    other.manually_drop(store).ok()?;
    second.peek(store).copied()
}

/// A value that is read if nothing is in the way.
fn read_free<S: Storage<u64>>(
    store: &mut S,
    kept: GenerationalBox<u64>,
) -> Result<Option<u64>, StoreError> {
    if !kept.can_read(store) {
        return Ok(None);
    }
    let guard = kept.read(store, read())?;
    let seen = guard.deref(store).map(|view| *view);
    guard.release(store);
    Ok(seen)
}

/// A value that is exchanged if nothing is in the way.
fn exchange<S: Storage<u64>>(
    store: &mut S,
    kept: GenerationalBox<u64>,
    value: u64,
) -> Result<Option<u64>, StoreError> {
    if !kept.can_write(store) {
        return Ok(None);
    }
    let mut guard = kept.write(store, written())?;
    let old = guard.replace(value);
    let _ = guard.release(store);
    Ok(Some(old))
}

/// The location in a failed write's error: where a reader or the writer began, or where the value was
/// made.
fn met_at(refused: &BorrowMutError) -> Option<Location> {
    match refused {
        BorrowMutError::AlreadyBorrowed(read) => read.borrowed_at().first().copied(),
        BorrowMutError::AlreadyBorrowedMut(written) => Some(written.borrowed_mut_at()),
        BorrowMutError::Dropped(gone) => Some(gone.created_at()),
    }
}

/// Two owner values of one record.
fn hold<S: Storage<u64>>(store: &mut S, owner: Owner) -> Result<bool, StoreError> {
    let Ok(other) = owner.clone(store) else {
        owner.leak();
        return Ok(false);
    };
    let have_one_record = owner.id() == other.id();
    owner.leak();
    match other.release(store) {
        Ok(()) => Ok(have_one_record),
        Err((other, _borrowed)) => {
            other.leak();
            Ok(false)
        }
    }
}

/// A list of calls. Each refers to the result of an earlier call by that call's place.
fn run<S: Storage<u64> + Drop>(alloc: Global, store: S) -> Option<u64> {
    if !store.is_fresh() {
        return None;
    }
    let leak = Call::Leak(7, made());
    let read = Call::TryRead(BoxAt::Place(0), read());
    let calls = vec![in alloc; leak, read].ok()?;
    let mut session = Session::new(alloc, store);
    let replies = session.run(calls).ok();
    let seen = session.view(1).copied();
    let store = session.finish();
    match replies?.get(1) {
        Some(Reply::Reader) if store.number() == 1 => seen,
        _ => None,
    }
}

/// Calls one at a time. Each refers to the result of an earlier call by that call's place.
fn call<S: Storage<u64> + Drop>(alloc: Global, store: S) -> Option<u64> {
    if !store.is_fresh() {
        return None;
    }
    let mut session = Session::new(alloc, store);
    let made = session.call(Call::Leak(7, made()));
    let found = session.call(Call::Id(BoxAt::Place(0)));
    session.finish();
    match (made.ok()?, found.ok()?) {
        (Reply::Box(made), Reply::Id(found)) if made.id() == found => Some(found.generation),
        _ => None,
    }
}

/// A store whose last generation is near.
fn make_late(alloc: Global) -> UnsyncStorage<u64> {
    let numbers = Numbers {
        generation: u64::MAX,
        ticket: 0,
    };
    Store::new_at(alloc, 1, numbers)
}

/// Makes a box that lives until it is ended manually, and another reference to a shared value.
fn leak<S: Storage<u64>>(store: &mut S) -> Option<bool> {
    let value = GenerationalBox::leak(store, 7, made()).ok()?;
    let first = GenerationalBox::leak_rc(store, 8, made()).ok()?;
    let second = first.leak_reference(store).ok()?;
    Some(tell(value, second) && value.created_at() == first.created_at())
}

/// The examples of boxes and owners, in one store with a box.
fn boxes_and_owners<S: Storage<u64> + Drop>(
    rt: &impl Abort,
    mut store: S,
    kept: GenerationalBox<u64>,
) {
    assert_same(rt, &leak(&mut store), &Some(true));
    let owner = store.owner().expect(rt, "an owner");
    assert_same(rt, &lead(&mut store, &owner), &Some(2));
    assert_same(rt, &hold(&mut store, owner), &Ok(true));
    assert_same(rt, &find(&store, kept), &true);
    assert_same(rt, &set(&mut store, kept), &Some(8));
    assert_same(rt, &exchange(&mut store, kept, 9), &Ok(Some(8)));
    assert_same(rt, &read_free(&mut store, kept), &Ok(Some(9)));
}

#[test]
fn examples_of_calls(rt: HostRuntime) {
    let alloc = rt.alloc();
    let mut store = UnsyncStorage::new(alloc, 1);
    let kept = make_within(&mut store).expect(&rt, "a box");
    boxes_and_owners(&rt, store, kept);
    let gone = BorrowMutError::Dropped(ValueDroppedError::new(made()));
    assert_same(&rt, &met_at(&gone), &Some(made()));
    assert_same(&rt, &run(alloc, make_late(alloc)), &Some(7));
    assert_same(&rt, &call(alloc, make_late(alloc)), &Some(u64::MAX));
}
