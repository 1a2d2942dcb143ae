//! Owners of many names that reach one borrowed value: what they are asked takes a moment, since
//! it goes over the names a few times and over no name again for another's sake.

use crate::expected::{
    assert_kept_by_reader, assert_reads, assert_released, assert_unread, begin, dropped, insert,
    made, made_later, new_owner, read, release, written,
};
use crate::fresh::{Scenario, play};
use crate::sharing::{insert_rc, insert_reference, leak_rc};
use generational_box::{GenerationalBox, Owner, Storage};
use std::alloc::Global;
use std::process::Abort;

/// Makes a hundred thousand references, by an owner, to the shared value that a box refers to.
fn insert_references<S: Storage<u32>>(
    rt: &impl Abort,
    store: &mut S,
    owner: &Owner,
    shared: GenerationalBox<u32>,
) {
    for _ in 0..100_000 {
        insert_reference(rt, store, owner, shared);
    }
}

/// A reference outside keeps the target of all: its reader is in nobody's way, and the error is that of
/// the last name's reader, twice.
struct ATargetThatLivesOn;

impl Scenario<u32> for ATargetThatLivesOn {
    fn play<R: Abort, S: Storage<u32>>(rt: &R, alloc: Global, store: &mut S) {
        let shared = leak_rc(rt, store, 1, made());
        let owner = new_owner(rt, store);
        insert_references(rt, store, &owner, shared);
        let last = insert(rt, store, &owner, 2, made_later());
        let of_all = begin(rt, store, shared, read());
        let of_last = begin(rt, store, last, written());

        let owner = assert_kept_by_reader(rt, alloc, store, owner, written());
        let owner = assert_kept_by_reader(rt, alloc, store, owner, written());
        assert_released(rt, store, of_last, true);
        release(rt, store, owner);
        assert_unread(rt, store, last, dropped(made_later()));
        assert_released(rt, store, of_all, true);
        assert_reads(rt, store, shared, 1);
    }
}

/// All references to the target are on the list: the error is that of its reader, at the first name.
struct ATargetThatGoes;

impl Scenario<u32> for ATargetThatGoes {
    fn play<R: Abort, S: Storage<u32>>(rt: &R, alloc: Global, store: &mut S) {
        let owner = new_owner(rt, store);
        let shared = insert_rc(rt, store, &owner, 1, made());
        insert_references(rt, store, &owner, shared);
        let last = insert(rt, store, &owner, 2, made_later());
        let of_last = begin(rt, store, last, written());
        let of_all = begin(rt, store, shared, read());

        let owner = assert_kept_by_reader(rt, alloc, store, owner, read());
        assert_released(rt, store, of_all, true);
        let owner = assert_kept_by_reader(rt, alloc, store, owner, written());
        assert_released(rt, store, of_last, true);
        release(rt, store, owner);
        assert_unread(rt, store, shared, dropped(made()));
    }
}

#[test]
fn one_borrowed_target_lives_on_or_goes(rt: HostRuntime) {
    play::<u32, ATargetThatLivesOn>(&rt, rt.alloc());
    play::<u32, ATargetThatGoes>(&rt, rt.alloc());
}
