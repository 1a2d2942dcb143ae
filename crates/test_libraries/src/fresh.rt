//! Stores of which nothing was made yet, for what is tested over any store: they are made here, once
//! for all tests.

ghost use Rattle.std.specs.Prelude.{◌≤◌};

use generational_box::{LastFirst, Numbers, OldestFirst, Storage, Store};
use std::alloc::Global;
use std::process::Abort;

/// What is done over a new store, which goes in the end.
pub(crate) trait Scene<T> {
    fn play<R: Abort, S: Storage<T> + Drop>(&self, rt: &R, alloc: Global, store: S);
}

/// Plays a scene over a new store.
pub(crate) fn play<T: Drop, P: Scene<T>>(rt: &impl Abort, alloc: Global, scene: &P) {
    let store: Store<T, LastFirst> = Store::new(alloc, 1);
    scene.play(rt, alloc, store);
}

/// Plays a scene over a new store that takes the slot that has been free for the longest. It has this
/// number, and its next ticket is this one.
fn play_oldest_first<T: Drop, P: Scene<T>>(
    rt: &impl Abort,
    alloc: Global,
    number: u64,
    ticket: u64,
    scene: &P,
) {
    let numbers = Numbers {
        generation: 1,
        ticket,
    };
    let store: Store<T, OldestFirst> = Store::new_at(alloc, number, numbers);
    scene.play(rt, alloc, store);
}

/// Plays a scene over a new store, once with each order of free slots.
pub(crate) fn play_both<T: Drop, P: Scene<T>>(rt: &impl Abort, alloc: Global, scene: &P) {
    play(rt, alloc, scene);
    play_oldest_first(rt, alloc, 2, 0, scene);
}

/// Plays a scene over a new store whose next ticket is this one.
pub(crate) fn play_at_ticket<T: Drop, P: Scene<T>>(
    rt: &impl Abort,
    alloc: Global,
    ticket: u64,
    scene: &P,
) {
    play_oldest_first(rt, alloc, 1, ticket, scene);
}

/// Plays a scene over a new store whose slots begin with this generation.
pub(crate) fn play_at_generation<T: Drop, P: Scene<T>>(
    rt: &impl Abort,
    alloc: Global,
    generation: u64,
    scene: &P,
)
    requires { 1 ≤ generation }
{
    let numbers = Numbers {
        generation,
        ticket: 0,
    };
    let store: Store<T, LastFirst> = Store::new_at(alloc, 1, numbers);
    scene.play(rt, alloc, store);
}

/// What is done over two new stores, which go in the end.
pub(crate) trait SceneOfTwo<T, C> {
    fn play<R: Abort, S: Storage<T> + Drop, P: Storage<C> + Drop>(
        &self,
        rt: &R,
        alloc: Global,
        store: S,
        parts: P,
    );
}

/// Plays a scene over two new stores, of which each has its own order of free slots.
pub(crate) fn play_two<T: Drop, C: Drop, P: SceneOfTwo<T, C>>(
    rt: &impl Abort,
    alloc: Global,
    scene: &P,
) {
    let store: Store<T, LastFirst> = Store::new(alloc, 1);
    let parts: Store<C, OldestFirst> = Store::new(alloc, 2);
    scene.play(rt, alloc, store, parts);
}
