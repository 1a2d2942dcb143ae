//! A store with every kind of cell, saved and loaded.

use crate::expected::{assert_same, ok};
use crate::fresh::{Saves, Scene, play};
use crate::images::{loaded, made, saved, text_of};
use generational_box::{AnyStorage, GenerationalBox, GenerationalBoxId, GenerationalRef, Storage};
use std::alloc::Global;
use std::process::Abort;

/// What a storage counts: slots, free ones, the most live at once, and tickets left.
pub(crate) fn counts_of<S: Storage<u64>>(store: &S) -> (usize, usize, usize, u64) {
    (
        store.slots(),
        store.free(),
        store.peak_live(),
        store.tickets_left(),
    )
}

/// A box with a value.
pub(crate) fn leak<T: Drop, S: Storage<T>>(
    rt: &impl Abort,
    store: &mut S,
    value: T,
) -> GenerationalBox<T> {
    ok(rt, GenerationalBox::leak(store, value, made()))
}

/// A box with a shared value.
pub(crate) fn leak_rc<T: Drop, S: Storage<T>>(
    rt: &impl Abort,
    store: &mut S,
    value: T,
) -> GenerationalBox<T> {
    ok(rt, GenerationalBox::leak_rc(store, value, made()))
}

/// A reference to a box's shared value.
fn leak_reference<S: Storage<u64>>(
    rt: &impl Abort,
    store: &mut S,
    shared: GenerationalBox<u64>,
) -> GenerationalBox<u64> {
    let Ok(given) = shared.leak_reference(store) else {
        panic!(rt; "memory")
    };
    given
}

/// Begins to read a box.
pub(crate) fn begin_read<T, S: Storage<T>>(
    rt: &impl Abort,
    store: &mut S,
    given: GenerationalBox<T>,
) -> GenerationalRef<T> {
    let Ok(guard) = given.try_read(store, made()) else {
        panic!(rt; "no guard")
    };
    guard
}

pub(crate) fn end<S: Storage<u64>>(rt: &impl Abort, store: &mut S, given: GenerationalBox<u64>) {
    assert!(rt; given.manually_drop(store).is_ok());
}

/// Asserts what the box of an id reads, if a value.
pub(crate) fn assert_reads<S: Storage<u64>>(
    rt: &impl Abort,
    store: &S,
    id: GenerationalBoxId,
    value: Option<u64>,
) {
    let found: Option<GenerationalBox<u64>> = GenerationalBox::find(store, id);
    let seen = match found {
        Some(given) => given.peek(store).copied(),
        None => None,
    };
    assert_same(rt, &seen, &value);
}

/// The ids of a store with a live value, an ended one, and two references to a shared value.
#[derive(Clone, Copy)]
pub(crate) struct Ids {
    pub(crate) live: GenerationalBoxId,
    pub(crate) ended: GenerationalBoxId,
    pub(crate) first: GenerationalBoxId,
    pub(crate) second: GenerationalBoxId,
}

/// Fills an empty store: slot 0 has its second value, slot 1 is free, slot 2 has a shared value or a
/// reference, and slots 3 and 4 the others.
pub(crate) fn fill<S: Storage<u64>>(rt: &impl Abort, store: &mut S) -> Ids {
    let ended = leak(rt, store, 10);
    let gone = leak(rt, store, 11);
    end(rt, store, ended);
    let live = leak(rt, store, 12);
    let first = leak_rc(rt, store, 20);
    let second = leak_reference(rt, store, first);
    end(rt, store, gone);
    Ids {
        live: live.id(),
        ended: ended.id(),
        first: first.id(),
        second: second.id(),
    }
}

/// Asserts what the ids read, and that a shared value ends with its last reference.
fn assert_scene<S: Storage<u64>>(rt: &impl Abort, store: &mut S, ids: Ids) {
    assert_reads(rt, store, ids.live, Some(12));
    assert_reads(rt, store, ids.ended, None);
    assert_reads(rt, store, ids.first, Some(20));
    assert_reads(rt, store, ids.second, Some(20));
    assert_ends(rt, store, ids.first, 2);
    assert_reads(rt, store, ids.second, Some(20));
    assert_ends(rt, store, ids.second, 4);
}

/// Ends an id's box, and asserts how many slots are free then.
fn assert_ends<S: Storage<u64>>(
    rt: &impl Abort,
    store: &mut S,
    id: GenerationalBoxId,
    free: usize,
) {
    let given = GenerationalBox::find(store, id).expect(rt, "a box");
    end(rt, store, given);
    assert_reads(rt, store, id, None);
    assert_same(rt, &store.free(), &free);
}

/// Asserts that new values get new ids.
fn assert_new<S: Storage<u64>>(rt: &impl Abort, store: &mut S, ids: Ids) {
    for value in 30..40u64 {
        let id = leak(rt, store, value).id();
        assert!(rt; id != ids.live && id != ids.ended && id != ids.first && id != ids.second);
        assert_reads(rt, store, id, Some(value));
    }
    assert_reads(rt, store, ids.live, Some(12));
    assert_reads(rt, store, ids.ended, None);
}

/// A store that is saved and loaded.
struct SavedAndLoaded;

impl Scene<u64> for SavedAndLoaded {
    fn play<R: Abort, S: Storage<u64> + Saves<u64> + Drop>(&self, rt: &R, alloc: Global, store: S) {
        let mut store = store;
        let ids = fill(rt, &mut store);
        let before = counts_of(&store);
        let mut store: S = loaded(rt, S::load(alloc, saved(rt, store)));
        assert_same(rt, &counts_of(&store), &before);
        assert_scene(rt, &mut store, ids);
        assert_new(rt, &mut store, ids);
    }
}

#[test]
fn a_store_is_loaded_as_it_was(rt: HostRuntime) {
    play::<u64, SavedAndLoaded>(&rt, rt.alloc(), 7, &SavedAndLoaded);
}

/// A copy of a store's image. The store goes on with its own values.
struct Copied;

impl Scene<u64> for Copied {
    fn play<R: Abort, S: Storage<u64> + Saves<u64> + Drop>(&self, rt: &R, alloc: Global, store: S) {
        let mut store = store;
        let ids = fill(rt, &mut store);
        let copy = ok(rt, store.copy());
        assert_reads(rt, &store, ids.live, Some(12));
        let text = text_of(rt, alloc, &copy);
        let image = saved(rt, store);
        assert_same(rt, &text_of(rt, alloc, &image), &text);
        let store: S = loaded(rt, S::load(alloc, copy));
        assert_reads(rt, &store, ids.first, Some(20));
    }
}

#[test]
fn a_copy_is_the_same_image(rt: HostRuntime) {
    play::<u64, Copied>(&rt, rt.alloc(), 7, &Copied);
}
