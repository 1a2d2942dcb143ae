//! Two runs of one image, and ids that are taken over into a store with another number.

use crate::expected::{assert_same, ok};
use crate::fresh::{Saves, Scene, play};
use crate::images::{Cell, Slot, image_of, loaded, saved};
use crate::scene::{Ids, assert_reads, fill, leak};
use generational_box::{GenerationalBoxId, Image, Loaded, Storage, parse_box_id};
use std::alloc::Global;
use std::process::Abort;

/// The store of an image, under a number.
fn loaded_as<S: Saves<u64>>(
    rt: &impl Abort,
    alloc: Global,
    number: u64,
    image: Image<u64>,
) -> (S, Loaded) {
    ok(rt, S::load_as(alloc, number, image))
}

/// The id of a value that a run of an image is given first, and reads.
fn given_first<S: Storage<u64>>(rt: &impl Abort, store: &mut S, value: u64) -> GenerationalBoxId {
    let id = leak(rt, store, value).id();
    assert_reads(rt, store, id, Some(value));
    id
}

/// Asserts that a run under a new number reads nothing by an id of a lost run, nor by one of the image.
fn assert_apart<S: Storage<u64>>(
    rt: &impl Abort,
    store: &mut S,
    given: GenerationalBoxId,
    ids: Ids,
) {
    let _ = leak(rt, store, 88);
    assert_reads(rt, store, given, None);
    assert_reads(rt, store, ids.live, None);
}

/// Runs of one image. The danger: another value under the same id. Under a new number no id of a lost run
/// reads anything.
struct Runs;

impl Scene<u64> for Runs {
    fn play<R: Abort, S: Storage<u64> + Saves<u64> + Drop>(&self, rt: &R, alloc: Global, store: S) {
        let mut store = store;
        let ids = fill(rt, &mut store);
        let mut lost: S = loaded(rt, S::load(alloc, ok(rt, store.copy())));
        let given = given_first(rt, &mut lost, 77);
        let mut again: S = loaded(rt, S::load(alloc, ok(rt, store.copy())));
        assert_same(rt, &given_first(rt, &mut again, 88), &given);
        let (mut store, taken): (S, Loaded) = loaded_as(rt, alloc, 8, saved(rt, store));
        assert_apart(rt, &mut store, given, ids);
        assert_same(rt, &taken.adopt(given), &None);
    }
}

#[test]
fn runs_of_one_image_are_told_apart_by_number(rt: HostRuntime) {
    play::<u64, Runs>(&rt, rt.alloc(), 7, &Runs);
}

/// Asserts what an id of the image reads once it is taken over, if it can be.
fn assert_adopted<S: Storage<u64>>(
    rt: &impl Abort,
    store: &S,
    taken: &Loaded,
    id: GenerationalBoxId,
    value: Option<u64>,
) {
    match taken.adopt(id) {
        Some(adopted) => assert_reads(rt, store, adopted, value),
        None => assert_same(rt, &None, &value),
    }
}

/// Asserts what the ids of a filled store read once they are taken over.
fn assert_all_adopted<S: Storage<u64>>(rt: &impl Abort, store: &S, taken: &Loaded, ids: Ids) {
    assert_adopted(rt, store, taken, ids.live, Some(12));
    assert_adopted(rt, store, taken, ids.first, Some(20));
    assert_adopted(rt, store, taken, ids.second, Some(20));
    assert_adopted(rt, store, taken, ids.ended, None);
}

/// Ids that are taken over, and aren't taken over again: they're of store 8 then.
struct Adopted;

impl Scene<u64> for Adopted {
    fn play<R: Abort, S: Storage<u64> + Saves<u64> + Drop>(&self, rt: &R, alloc: Global, store: S) {
        let mut store = store;
        let ids = fill(rt, &mut store);
        let (store, taken): (S, Loaded) = loaded_as(rt, alloc, 8, saved(rt, store));
        assert_all_adopted(rt, &store, &taken, ids);
        let adopted = taken.adopt(ids.live).expect(rt, "an id");
        assert_same(rt, &taken.adopt(adopted), &None);
    }
}

#[test]
fn ids_of_live_values_are_adopted(rt: HostRuntime) {
    play::<u64, Adopted>(&rt, rt.alloc(), 7, &Adopted);
}

const FEW: [Slot; 2] = [(4, Cell::Own(1)), (2, Cell::No)];

/// Ids of an image that isn't that of the scene's store.
struct OtherIds;

impl Scene<u64> for OtherIds {
    fn play<R: Abort, S: Storage<u64> + Saves<u64> + Drop>(
        &self,
        rt: &R,
        alloc: Global,
        _store: S,
    ) {
        let image = image_of(rt, alloc, 1, 2, &FEW);
        let (mut store, taken): (S, Loaded) = loaded_as(rt, alloc, 7, image);
        // the free slot's next value has an id that the image doesn't know
        let given = leak(rt, &mut store, 9).id();
        assert_same(rt, &taken.adopt(given), &None);
        // under the image's own number its ids are themselves
        let live = id_of(rt, 7, "0@4");
        assert_same(rt, &taken.adopt(live), &Some(live));
        for text in ["0@3", "0@5", "1@2", "1@3", "2@4", "18446744073709551615@4"] {
            assert_same(rt, &taken.adopt(id_of(rt, 7, text)), &None);
        }
        assert_same(rt, &taken.adopt(id_of(rt, 8, "0@4")), &None);
    }
}

#[test]
fn other_ids_are_not(rt: HostRuntime) {
    play::<u64, OtherIds>(&rt, rt.alloc(), 7, &OtherIds);
}

fn id_of(rt: &impl Abort, number: u64, text: &str) -> GenerationalBoxId {
    parse_box_id(number, text).expect(rt, "an id")
}
