//! Replies in pairs: each is the same as itself, and no two that differ in one part are the same.

use crate::expected::{assert_same, made_in, push};
use boxes_script::is_same;
use generational_box::{
    AlreadyBorrowedError, AlreadyBorrowedMutError, BorrowMutError, Location, Reply, Storage, Store,
    StoreError, UnsyncStorage, ValueDroppedError,
};
use std::alloc::Global;
use std::process::Abort;

/// Places of which any two differ in one part alone.
const PLACES: [(&str, u32, u32); 4] = [
    ("a.rt", 3, 5),
    ("b.rt", 3, 5),
    ("a.rt", 4, 5),
    ("a.rt", 3, 6),
];

/// The indices of the places at which readers stand: one place is missing, another one, both are
/// there, in the other order, and one of them twice.
const READERS: [&[usize]; 6] = [&[], &[0], &[2], &[0, 2], &[2, 0], &[0, 0]];

/// Values that come back.
const VALUES: [&str; 3] = ["", "a", "b"];

const CAUSES: [StoreError; 3] = [
    StoreError::OutOfMemory,
    StoreError::NumbersExhausted,
    StoreError::UnknownOwner,
];

fn place(index: usize) -> Location {
    let (file, line, column) = PLACES.get(index).copied().unwrap_or(("", 0, 0));
    Location::new(file, line, column)
}

/// Adds a reply to a list.
fn add(rt: &impl Abort, list: &mut Vec<Reply<String>>, reply: Reply<String>) {
    push(rt, list, reply);
}

/// Adds what holds nothing, or what is set aside.
fn add_kinds(rt: &impl Abort, list: &mut Vec<Reply<String>>) {
    add(rt, list, Reply::Owner);
    add(rt, list, Reply::Reader);
    add(rt, list, Reply::Writer);
    add(rt, list, Reply::Done);
    add(rt, list, Reply::Flag(true));
    add(rt, list, Reply::Flag(false));
    add(rt, list, Reply::Slot(0));
}

/// Adds an error.
fn add_error(rt: &impl Abort, list: &mut Vec<Reply<String>>, error: BorrowMutError) {
    add(rt, list, Reply::Error(error));
}

/// Adds a box, its location and an error for it, of each place, and the id of the first.
fn add_places<S: Storage<String>>(
    rt: &impl Abort,
    alloc: Global,
    store: &mut S,
    list: &mut Vec<Reply<String>>,
) {
    for index in 0..PLACES.len() {
        let at = place(index);
        let made = made_in(rt, alloc, store, at);
        add(rt, list, Reply::Box(made));
        add(rt, list, Reply::Created(at));
        let gone = ValueDroppedError::new(at);
        add_error(rt, list, BorrowMutError::Dropped(gone));
        let written = AlreadyBorrowedMutError::new(at);
        add_error(rt, list, BorrowMutError::AlreadyBorrowedMut(written));
        if index == 0 {
            add(rt, list, Reply::Id(made.id()));
        }
    }
}

/// The places of these indices.
fn places_of(rt: &impl Abort, alloc: Global, indices: &[usize]) -> Vec<Location> {
    let mut places = Vec::new(alloc);
    for index in indices {
        push(rt, &mut places, place(*index));
    }
    places
}

/// Adds an error for the readers at each list of places.
fn add_readers(rt: &impl Abort, alloc: Global, list: &mut Vec<Reply<String>>) {
    for indices in READERS {
        let read = AlreadyBorrowedError::new(places_of(rt, alloc, indices));
        add_error(rt, list, BorrowMutError::AlreadyBorrowed(read));
    }
}

/// A text of its own.
fn text(rt: &impl Abort, alloc: Global, value: &str) -> String {
    String::from_str(alloc, value).expect(rt, "memory")
}

/// Adds what comes back with a value, and each cause with it.
fn add_value(rt: &impl Abort, alloc: Global, list: &mut Vec<Reply<String>>, value: &str) {
    add(rt, list, Reply::Unready(Some(text(rt, alloc, value))));
    add(rt, list, Reply::NoSuch(Some(text(rt, alloc, value))));
    add(rt, list, Reply::Old(text(rt, alloc, value)));
    for cause in CAUSES {
        add(rt, list, Reply::Back(text(rt, alloc, value), cause));
    }
}

/// Adds what comes back without a value, and each cause.
fn add_no_value(rt: &impl Abort, list: &mut Vec<Reply<String>>) {
    add(rt, list, Reply::Unready(None));
    add(rt, list, Reply::NoSuch(None));
    for cause in CAUSES {
        add(rt, list, Reply::Store(cause));
    }
}

/// All the replies, made anew, with the boxes of a store that is dropped. No two are the same.
fn every_reply<S: Storage<String> + Drop>(
    rt: &impl Abort,
    alloc: Global,
    mut store: S,
) -> Vec<Reply<String>> {
    let mut list = Vec::new(alloc);
    add_kinds(rt, &mut list);
    add_places(rt, alloc, &mut store, &mut list);
    add_readers(rt, alloc, &mut list);
    add_no_value(rt, &mut list);
    for value in VALUES {
        add_value(rt, alloc, &mut list, value);
    }
    list
}

/// Asserts that two lists of replies that differ are the same at each place, and nowhere else.
fn assert_same_in_order(rt: &impl Abort, ones: &[Reply<String>], others: &[Reply<String>]) {
    for (index, one) in ones.iter().enumerate() {
        for (place, other) in others.iter().enumerate() {
            let found = (index, place, is_same(one, other));
            assert_same(rt, &found, &(index, place, index == place));
        }
    }
}

/// All the replies, with the boxes of a new store.
fn every_new_reply(rt: &impl Abort, alloc: Global) -> Vec<Reply<String>> {
    let store: UnsyncStorage<String> = Store::new(alloc, 7);
    every_reply(rt, alloc, store)
}

// Each reply is the same as itself made anew, and as no other one.
#[test]
fn replies_are_the_same_in_all_parts_or_not_at_all(rt: HostRuntime) {
    let ones = every_new_reply(&rt, rt.alloc());
    let others = every_new_reply(&rt, rt.alloc());
    assert_same(&rt, &ones.len(), &53);
    assert_same_in_order(&rt, &ones, &others);
}

/// Asserts that two replies are the same.
fn assert_alike(rt: &impl Abort, one: Reply<String>, other: Reply<String>) {
    let found = is_same(&one, &other);
    assert_same(rt, &found, &true);
}

/// Asserts that replies of two boxes are the same.
fn assert_boxes_alike<S: Storage<String> + Drop>(rt: &impl Abort, alloc: Global, mut store: S) {
    let one = made_in(rt, alloc, &mut store, place(0));
    let other = made_in(rt, alloc, &mut store, place(0));
    assert_same(rt, &one.ptr_eq(&other), &false);
    assert_alike(rt, Reply::Box(one), Reply::Box(other));
    assert_alike(rt, Reply::Id(one.id()), Reply::Id(other.id()));
    assert_alike(rt, Reply::Slot(0), Reply::Slot(1));
}

// Ids and numbers of slots are set aside.
#[test]
fn replies_are_the_same_whatever_their_slots(rt: HostRuntime) {
    let store: UnsyncStorage<String> = Store::new(rt.alloc(), 7);
    assert_boxes_alike(&rt, rt.alloc(), store);
}
