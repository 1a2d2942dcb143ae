//! Memory runs out while an image is made or loaded. Each test passes whichever allocation fails, and
//! what may fail to allocate is tried again.

use crate::expected::assert_same;
use crate::fresh::{Saves, Scene, play};
use crate::images::{made, saved};
use generational_box::{
    AnyStorage, GenerationalBox, GenerationalBoxId, Image, LoadError, LoadRefusal, Loaded,
    SaveError, Storage,
};
use std::alloc::Global;
use std::process::Abort;

// How often a load is tried.
const TRIES: u32 = 8;

fn note(rt: &impl Abort, alloc: Global, text: &str) -> String {
    match text.to_string(alloc) {
        Ok(note) => note,
        Err(_) => text.to_string(alloc).expect(rt, "memory"),
    }
}

fn leak_or_again<S: Storage<String>>(
    rt: &impl Abort,
    store: &mut S,
    text: String,
) -> GenerationalBox<String> {
    match GenerationalBox::leak(store, text, made()) {
        Ok(given) => given,
        Err(refusal) => match GenerationalBox::leak(store, refusal.value, made()) {
            Ok(given) => given,
            Err(_) => panic!(rt; "memory"),
        },
    }
}

fn leak_rc_or_again<S: Storage<String>>(
    rt: &impl Abort,
    store: &mut S,
    text: String,
) -> GenerationalBox<String> {
    match GenerationalBox::leak_rc(store, text, made()) {
        Ok(given) => given,
        Err(refusal) => match GenerationalBox::leak_rc(store, refusal.value, made()) {
            Ok(given) => given,
            Err(_) => panic!(rt; "memory"),
        },
    }
}

/// The store's image, with copies of its values.
fn copied_or_again<S: Saves<String>>(rt: &impl Abort, store: &S) -> Image<String> {
    match store.copy() {
        Ok(image) => image,
        Err(cause) => {
            assert_same(rt, &cause, &SaveError::OutOfMemory);
            store.copy().expect(rt, "memory")
        }
    }
}

/// The store as an image. If that fails, the store is unchanged.
fn saved_or_again<S: Storage<String> + Saves<String> + Drop>(
    rt: &impl Abort,
    store: S,
) -> Image<String> {
    let before = (store.slots(), store.free(), store.len());
    match store.save() {
        Ok(image) => image,
        Err((store, cause)) => {
            assert_same(rt, &cause, &SaveError::OutOfMemory);
            assert_same(rt, &(store.slots(), store.free(), store.len()), &before);
            saved(rt, store)
        }
    }
}

/// The image of a load that failed to allocate.
fn unloaded(rt: &impl Abort, refusal: LoadRefusal<String>) -> Image<String> {
    assert_same(rt, &refusal.cause, &LoadError::OutOfMemory);
    refusal.image
}

/// Loads an image. A load allocates little at first, which may fail again.
fn loaded_or_again<S: Saves<String>>(rt: &impl Abort, alloc: Global, image: Image<String>) -> S {
    let mut image = image;
    for _ in 0..TRIES {
        match S::load(alloc, image) {
            Ok(store) => return store,
            Err(refusal) => image = unloaded(rt, refusal),
        }
    }
    panic!(rt; "memory")
}

fn loaded_as_or_again<S: Saves<String>>(
    rt: &impl Abort,
    alloc: Global,
    image: Image<String>,
) -> (S, Loaded) {
    let mut image = image;
    for _ in 0..TRIES {
        match S::load_as(alloc, 8, image) {
            Ok(both) => return both,
            Err(refusal) => image = unloaded(rt, refusal),
        }
    }
    panic!(rt; "memory")
}

fn assert_peeks<S: Storage<String>>(
    rt: &impl Abort,
    store: &S,
    given: GenerationalBox<String>,
    text: &str,
) {
    match given.peek(store) {
        Some(seen) => assert_same(rt, &seen.as_str(), &text),
        None => panic!(rt; "nothing is seen"),
    }
}

/// Asserts that a box of an image reads nothing in a store under another number.
fn assert_unseen<S: Storage<String>>(rt: &impl Abort, store: &S, given: GenerationalBox<String>) {
    assert!(rt; given.peek(store).is_none());
}

/// Asserts what an id reads once it is taken over.
fn assert_adopted<S: Storage<String>>(
    rt: &impl Abort,
    store: &S,
    taken: &Loaded,
    id: GenerationalBoxId,
    text: &str,
) {
    let id = taken.adopt(id).expect(rt, "an id");
    let given = GenerationalBox::find(store, id).expect(rt, "a box");
    assert_peeks(rt, store, given, text);
}

/// An image and a copy that are made and loaded.
struct MadeAndLoaded;

impl Scene<String> for MadeAndLoaded {
    fn play<R: Abort, S: Storage<String> + Saves<String> + Drop>(
        &self,
        rt: &R,
        alloc: Global,
        store: S,
    ) {
        let mut store = store;
        let own = leak_or_again(rt, &mut store, note(rt, alloc, "a value of a box"));
        let shared = leak_rc_or_again(rt, &mut store, note(rt, alloc, "a value that is shared"));
        let copy = copied_or_again(rt, &store);
        let store: S = loaded_or_again(rt, alloc, saved_or_again(rt, store));
        assert_peeks(rt, &store, own, "a value of a box");
        assert_peeks(rt, &store, shared, "a value that is shared");
        let (again, taken): (S, Loaded) = loaded_as_or_again(rt, alloc, copy);
        assert_unseen(rt, &again, own);
        assert_adopted(rt, &again, &taken, shared.id(), "a value that is shared");
    }
}

#[test]
fn images_are_made_and_loaded(rt: HostRuntime) {
    play::<String, MadeAndLoaded>(&rt, rt.alloc(), 7, &MadeAndLoaded);
}
