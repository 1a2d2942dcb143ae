//! Stores that have no image now, and what errors print.

use crate::expected::{assert_prints, assert_same, ok};
use crate::fresh::{Saves, Scene, play};
use crate::images::{made, saved};
use crate::scene::{assert_reads, begin_read, counts_of, fill};
use generational_box::{
    AnyStorage, GenerationalBox, GenerationalBoxId, GenerationalRef, GenerationalRefMut,
    ImageFault, LoadError, Owner, SaveError, Storage,
};
use std::alloc::Global;
use std::process::Abort;

/// Asserts why a store has no copy of its image.
fn assert_no_copy<S: Saves<u64>>(rt: &impl Abort, store: &S, cause: SaveError) {
    match store.copy() {
        Ok(_) => panic!(rt; "the store has an image"),
        Err(found) => assert_same(rt, &found, &cause),
    }
}

/// Asserts why a store isn't saved, and gives it back unchanged. It has no copy either.
fn unsaved<S: Storage<u64> + Saves<u64> + Drop>(rt: &impl Abort, store: S, cause: SaveError) -> S {
    assert_no_copy(rt, &store, cause);
    let before = counts_of(&store);
    match store.save() {
        Ok(_) => panic!(rt; "the store was saved"),
        Err((store, found)) => {
            assert_same(rt, &found, &cause);
            assert_same(rt, &counts_of(&store), &before);
            store
        }
    }
}

fn found<S: Storage<u64>>(
    rt: &impl Abort,
    store: &S,
    id: GenerationalBoxId,
) -> GenerationalBox<u64> {
    GenerationalBox::find(store, id).expect(rt, "a box")
}

fn begin<S: Storage<u64>>(
    rt: &impl Abort,
    store: &mut S,
    id: GenerationalBoxId,
) -> GenerationalRef<u64> {
    let given = found(rt, store, id);
    begin_read(rt, store, given)
}

fn begin_write<S: Storage<u64>>(
    rt: &impl Abort,
    store: &mut S,
    id: GenerationalBoxId,
) -> GenerationalRefMut<u64> {
    let Ok(guard) = found(rt, store, id).try_write(store, made()) else {
        panic!(rt; "no guard")
    };
    guard
}

fn end_read<S: Storage<u64>>(rt: &impl Abort, store: &mut S, guard: GenerationalRef<u64>) {
    assert!(rt; guard.release(store));
}

fn end_write<S: Storage<u64>>(rt: &impl Abort, store: &mut S, guard: GenerationalRefMut<u64>) {
    assert_same(rt, &guard.release(store), &Ok(()));
}

fn new_owner<S: Storage<u64>>(rt: &impl Abort, store: &mut S) -> Owner {
    ok(rt, store.owner())
}

fn release<S: Storage<u64>>(rt: &impl Abort, store: &mut S, owner: Owner) {
    match owner.release(store) {
        Ok(()) => {}
        Err((owner, _)) => {
            owner.leak();
            panic!(rt; "the owner stays");
        }
    }
}

/// Values that are borrowed. The shared value is in slot 2.
struct Borrowed;

impl Scene<u64> for Borrowed {
    fn play<R: Abort, S: Storage<u64> + Saves<u64> + Drop>(
        &self,
        rt: &R,
        _alloc: Global,
        store: S,
    ) {
        let mut store = store;
        let ids = fill(rt, &mut store);
        let reader = begin(rt, &mut store, ids.second);
        let mut store = unsaved(rt, store, SaveError::Borrowed(2));
        // the first of two borrowed values is reported
        let writer = begin_write(rt, &mut store, ids.live);
        let mut store = unsaved(rt, store, SaveError::Borrowed(0));
        end_read(rt, &mut store, reader);
        let mut store = unsaved(rt, store, SaveError::Borrowed(0));
        end_write(rt, &mut store, writer);
        assert_reads(rt, &store, ids.live, Some(12));
        let _ = saved(rt, store);
    }
}

#[test]
fn borrowed_values_stay(rt: HostRuntime) {
    play::<u64, Borrowed>(&rt, rt.alloc(), 7, &Borrowed);
}

/// A store with an owner, and a value that is borrowed: owners come before borrows.
struct Owned;

impl Scene<u64> for Owned {
    fn play<R: Abort, S: Storage<u64> + Saves<u64> + Drop>(
        &self,
        rt: &R,
        _alloc: Global,
        store: S,
    ) {
        let mut store = store;
        let ids = fill(rt, &mut store);
        let owner = new_owner(rt, &mut store);
        let reader = begin(rt, &mut store, ids.live);
        let mut store = unsaved(rt, store, SaveError::Owned);
        end_read(rt, &mut store, reader);
        let mut store = unsaved(rt, store, SaveError::Owned);
        release(rt, &mut store, owner);
        let _ = saved(rt, store);
    }
}

#[test]
fn an_owner_stays(rt: HostRuntime) {
    play::<u64, Owned>(&rt, rt.alloc(), 7, &Owned);
}

/// Faults of images, and what they print.
const FAULTS: [(ImageFault, &str); 5] = [
    (
        ImageFault::EarlyGeneration(3),
        "slot 3 has a generation below the first",
    ),
    (
        ImageFault::DanglingReference(0),
        "slot 0 has a reference to no shared value",
    ),
    (
        ImageFault::UnreferencedValue(9),
        "slot 9 has a shared value without a reference",
    ),
    (
        ImageFault::LowPeak,
        "the peak is less than the live and free slots",
    ),
    (ImageFault::HighPeak, "the peak is more than the slots"),
];

#[test]
fn errors_print(rt: HostRuntime) {
    let alloc = rt.alloc();
    for (fault, text) in FAULTS {
        assert_prints(&rt, alloc, &fault, text);
    }
    let unsound = LoadError::Unsound(ImageFault::HighPeak);
    let text = "no store has such an image: the peak is more than the slots";
    assert_prints(&rt, alloc, &unsound, text);
    assert_prints(&rt, alloc, &LoadError::OutOfMemory, "out of memory");
    assert_prints(&rt, alloc, &SaveError::Owned, "the store has an owner");
    assert_prints(
        &rt,
        alloc,
        &SaveError::Borrowed(4),
        "the value of slot 4 is borrowed",
    );
    assert_prints(&rt, alloc, &SaveError::OutOfMemory, "out of memory");
}
