//! Ids: what tells boxes apart that had one slot, also once their values are gone.

use crate::expected::{
    assert_same, assert_shows, end, insert, leak, made, made_later, new_owner, release,
};
use crate::fresh::{
    Beginning, Kind, Over, Scenario, TwoStoreScenario, play, play_in_two_stores, run_over,
};
use crate::sharing::{leak_rc, leak_reference};
use generational_box::{AnyStorage, GenerationalBox, GenerationalBoxId, Location, Storage};
use std::alloc::Global;
use std::collections::{BTreeSet, HashSet};
use std::hash::{DefaultHasher, Hash, Hasher};
use std::process::Abort;

/// What a value hashes to.
fn hash_of<T: Hash>(hashed: &T) -> u64 {
    let mut hasher = DefaultHasher::new();
    hashed.hash(&mut hasher);
    hasher.finish()
}

/// Asserts the name of a box of slot 0, and where it was made. A copy has the same id.
fn assert_id(
    rt: &impl Abort,
    alloc: Global,
    given: GenerationalBox<u32>,
    name: &str,
    place: Location,
) {
    assert_shows(rt, alloc, &given.id(), name);
    assert_same(rt, &given.raw_ptr(), &0);
    assert_same(rt, &given.created_at(), &place);
    let copy = given;
    assert!(rt; given.ptr_eq(&given) && given.ptr_eq(&copy));
    assert!(rt; given.id() == copy.id());
    assert_same(rt, &hash_of(&given.id()), &hash_of(&copy.id()));
}

/// Asserts that two boxes have different ids.
fn assert_apart(rt: &impl Abort, one: GenerationalBox<u32>, other: GenerationalBox<u32>) {
    assert!(rt; !one.ptr_eq(&other) && !other.ptr_eq(&one));
    assert!(rt; one.id() != other.id());
}

/// Asserts the slot of a box, of whatever store.
fn assert_slot<S: Storage<u32>>(
    rt: &impl Abort,
    store: &S,
    given: GenerationalBox<u32>,
    slot: usize,
) {
    assert_same(rt, &given.raw_ptr(), &slot);
    assert_same(rt, &store.data_ptr(given.pointer()), &slot);
}

/// Two owners use one slot, one after the other.
struct BoxesOneAfterTheOther;

impl Scenario<u32> for BoxesOneAfterTheOther {
    fn play<R: Abort, S: Storage<u32>>(rt: &R, alloc: Global, store: &mut S) {
        let owner = new_owner(rt, store);
        let first = insert(rt, store, &owner, 1, made());
        release(rt, store, owner);
        let owner = new_owner(rt, store);
        let second = insert(rt, store, &owner, 1234, made_later());

        assert_same(rt, &store.slots(), &1);
        assert_id(rt, alloc, first, "0@1", made());
        assert_id(rt, alloc, second, "0@2", made_later());
        assert_slot(rt, store, first, 0);
        assert_slot(rt, store, second, 0);
        assert_apart(rt, first, second);
        release(rt, store, owner);
    }
}

/// Slots are identified by their numbers.
struct BoxesBesideAnotherStore;

impl TwoStoreScenario<u32> for BoxesBesideAnotherStore {
    fn play<R: Abort, S: Storage<u32>>(rt: &R, _: Global, store: &mut S, eight: &mut S) {
        let foreign = leak(rt, eight, 0, made());
        for slot in 0..3 {
            let given = leak(rt, store, 1, made());
            assert_slot(rt, store, given, slot);
            assert_apart(rt, given, foreign);
        }
    }
}

#[test]
fn boxes_of_one_slot_and_of_several(rt: HostRuntime) {
    play::<u32, BoxesOneAfterTheOther>(&rt, rt.alloc());
    play_in_two_stores::<u32, BoxesBesideAnotherStore>(&rt, rt.alloc());
}

/// The id of a box that is made and ended.
fn id_of_next<S: Storage<u32>>(rt: &impl Abort, store: &mut S, is_kept: bool) -> GenerationalBoxId {
    let given = leak(rt, store, 1, made());
    if !is_kept {
        end(rt, store, given);
    }
    given.id()
}

/// Asserts that a hundred ids have more than ninety hashes, of which each takes a slot of its own or
/// none.
fn assert_many<S: Storage<u32>>(rt: &impl Abort, alloc: Global, store: &mut S, is_kept: bool) {
    let mut hashes = BTreeSet::new(alloc);
    for _ in 0..100 {
        let hash = hash_of(&id_of_next(rt, store, is_kept));
        hashes.insert(hash).expect(rt, "memory");
    }
    assert!(rt; hashes.len() > 90);
}

struct IdsOfSlots;

impl Scenario<u32> for IdsOfSlots {
    fn play<R: Abort, S: Storage<u32>>(rt: &R, alloc: Global, store: &mut S) {
        assert_many(rt, alloc, store, true);
    }
}

struct IdsOfGenerations;

impl Scenario<u32> for IdsOfGenerations {
    fn play<R: Abort, S: Storage<u32>>(rt: &R, alloc: Global, store: &mut S) {
        assert_many(rt, alloc, store, false);
    }
}

/// The hash of the first id of a store.
fn first_hash<S: Storage<u32> + Drop>(rt: &impl Abort, mut store: S) -> u64 {
    hash_of(&id_of_next(rt, &mut store, true))
}

/// The same of a store that is made for it.
struct FirstHash;

impl<R: Abort> Over<u32, R> for FirstHash {
    type Answer = u64;

    fn run<K: Kind<u32>>(rt: &R, alloc: Global, number: u64, beginning: Beginning) -> u64 {
        first_hash(rt, K::make(alloc, number, beginning))
    }
}

// Ids that differ in the slot alone, in the generation alone, or in the store alone.
#[test]
fn ids_have_many_hashes(rt: HostRuntime) {
    play::<u32, IdsOfSlots>(&rt, rt.alloc());
    play::<u32, IdsOfGenerations>(&rt, rt.alloc());
    let mut hashes = BTreeSet::new(rt.alloc());
    for number in 0..100 {
        let hash = run_over::<u32, _, FirstHash>(&rt, rt.alloc(), number, Beginning::First);
        hashes.insert(hash).expect(&rt, "memory");
    }
    assert!(rt; hashes.len() > 90);
}

/// Asserts that a store finds a box by its id, with the location where it was made.
fn assert_found<S: Storage<u32>>(rt: &impl Abort, store: &S, given: GenerationalBox<u32>) {
    let found = GenerationalBox::find(store, given.id()).expect(rt, "a box");
    assert!(rt; found == given);
    assert_same(rt, &found.created_at(), &given.created_at());
}

/// Asserts that a store has no box of an id.
fn assert_lost<S: Storage<u32>>(rt: &impl Abort, store: &S, id: Option<GenerationalBoxId>) {
    let id = id.expect(rt, "an id");
    assert!(rt; GenerationalBox::find(store, id).is_none());
}

struct BoxesFoundByTheirIds;

impl TwoStoreScenario<u32> for BoxesFoundByTheirIds {
    fn play<R: Abort, S: Storage<u32>>(rt: &R, _: Global, store: &mut S, eight: &mut S) {
        let value = leak(rt, store, 1, made());
        let first = leak_rc(rt, store, 2, made_later());
        let second = leak_reference(rt, store, first);
        for given in [value, first, second] {
            assert_found(rt, store, given);
            assert_lost(rt, eight, Some(given.id()));
        }
        // a shared value has no box
        assert_lost(rt, store, store.target(first.pointer()));
        end(rt, store, value);
        assert_lost(rt, store, Some(value.id()));
        let next = leak(rt, store, 3, made());
        assert_same(rt, &next.raw_ptr(), &value.raw_ptr());
        assert_lost(rt, store, Some(value.id()));
        assert_found(rt, store, next);
    }
}

/// Boxes are kept apart by their whole ids, and a copy is the same.
struct BoxesInASet;

impl TwoStoreScenario<u32> for BoxesInASet {
    fn play<R: Abort, S: Storage<u32>>(rt: &R, alloc: Global, store: &mut S, eight: &mut S) {
        let mut seen = HashSet::new(alloc);
        let one = leak(rt, store, 1, made());
        let other = leak(rt, store, 1, made());
        let foreign = leak(rt, eight, 1, made());
        end(rt, store, one);
        let later = leak(rt, store, 1, made());
        for given in [one, other, foreign, later] {
            assert_same(rt, &seen.insert(given).expect(rt, "memory"), &true);
            assert_same(rt, &seen.insert(given).expect(rt, "memory"), &false);
        }
        assert_same(rt, &seen.len(), &4);
    }
}

/// By the store, then by the slot, then by the generation.
struct IdsInOrder;

impl TwoStoreScenario<u32> for IdsInOrder {
    fn play<R: Abort, S: Storage<u32>>(rt: &R, _: Global, store: &mut S, eight: &mut S) {
        let first = leak(rt, store, 1, made());
        end(rt, store, first);
        let second = leak(rt, store, 1, made());
        let beside = leak(rt, store, 1, made());
        let foreign = leak(rt, eight, 1, made());
        let ids = [first.id(), second.id(), beside.id(), foreign.id()];
        for (place, id) in ids.iter().enumerate() {
            for (other_place, other) in ids.iter().enumerate() {
                assert!(rt; id.cmp(other) == place.cmp(&other_place));
            }
        }
    }
}

#[test]
fn boxes_found_by_their_ids_and_kept_by_them(rt: HostRuntime) {
    play_in_two_stores::<u32, BoxesFoundByTheirIds>(&rt, rt.alloc());
    play_in_two_stores::<u32, BoxesInASet>(&rt, rt.alloc());
    play_in_two_stores::<u32, IdsInOrder>(&rt, rt.alloc());
}

/// Asserts how many cells are live.
fn assert_live<S: Storage<u32>>(rt: &impl Abort, store: &S, count: usize) {
    assert_same(rt, &store.len(), &count);
}

struct LiveCells;

impl Scenario<u32> for LiveCells {
    fn play<R: Abort, S: Storage<u32>>(rt: &R, _: Global, store: &mut S) {
        let value = leak(rt, store, 1, made());
        assert_live(rt, store, 1);
        let first = leak_rc(rt, store, 2, made());
        assert_live(rt, store, 3);
        let second = leak_reference(rt, store, first);
        assert_live(rt, store, 4);
        end(rt, store, first);
        assert_live(rt, store, 3);
        end(rt, store, second);
        assert_live(rt, store, 1);
        end(rt, store, value);
        assert_same(rt, &(store.len(), store.free()), &(0, 4));
    }
}

// A shared value and each of its references is a cell.
#[test]
fn live_cells(rt: HostRuntime) {
    play::<u32, LiveCells>(&rt, rt.alloc());
}
