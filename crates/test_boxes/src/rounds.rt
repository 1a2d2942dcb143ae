//! A hundred thousand rounds of calls: the memory that the first hundred take is enough for all.

use crate::expected::{
    assert_kept, assert_released, assert_stays, begin, begin_write, borrowed, end, given, insert,
    leak, made, made_later, new_owner, push, read, release, written,
};
use crate::fresh::{Life, LifeOfTwo, live, live_in_two_stores};
use crate::growth::{Gauge, Growth, grow};
use crate::sessions::{ask, session_over};
use crate::sharing::{insert_rc, leak_rc, leak_reference, point};
use generational_box::{BoxAt, Call, GenerationalBox, GenerationalRef, Storage};
use std::alloc::Global;
use std::process::Abort;
use std::rt::Files;

/// What is done in each round.
trait Round {
    fn play(&mut self, rt: &impl Abort, alloc: Global);
}

/// Plays rounds, and asserts that the process has no more memory after them all than after a hundred,
/// except for a few pages.
fn assert_steady<R: Files + AllocGlobal + Abort, P: Round>(rt: &R, alloc: Global, played: &mut P) {
    for _ in 0..100 {
        played.play(rt, alloc);
    }
    let mut gauge = Gauge::new(rt);
    for _ in 0..100_000 {
        played.play(rt, alloc);
    }
    gauge.look(rt);
    gauge.assert_grew(rt, 64);
}

/// A text of its own.
fn text(rt: &impl Abort, alloc: Global) -> String {
    String::from_str(alloc, "a text").expect(rt, "memory")
}

/// Makes a box of a text.
fn leak_text<S: Storage<String>>(
    rt: &impl Abort,
    alloc: Global,
    store: &mut S,
) -> GenerationalBox<String> {
    leak(rt, store, text(rt, alloc), made())
}

/// The guards of three readers.
type Three = (
    GenerationalRef<String>,
    GenerationalRef<String>,
    GenerationalRef<String>,
);

/// Begins three reads of one value. The error of its removal has all of them.
fn read_thrice<S: Storage<String>>(
    rt: &impl Abort,
    alloc: Global,
    store: &mut S,
    asked: GenerationalBox<String>,
) -> Three {
    let first = begin(rt, store, asked, read());
    let second = begin(rt, store, asked, made());
    let third = begin(rt, store, asked, made_later());
    let refusal = borrowed(rt, alloc, &[read(), made(), made_later()]);
    assert_stays(rt, store, asked, refusal);
    (first, second, third)
}

/// Writes another text into a value, and sets it once more.
fn write_and_set<S: Storage<String>>(
    rt: &impl Abort,
    alloc: Global,
    store: &mut S,
    asked: GenerationalBox<String>,
) {
    let mut guard = begin_write(rt, store, asked, written());
    let _old = guard.replace(text(rt, alloc));
    given(rt, guard.release(store));
    if asked.can_write(store) {
        asked.set(store, text(rt, alloc));
    }
}

/// Makes boxes by an owner, and releases it. A release fails meanwhile.
fn own<S: Storage<String>>(rt: &impl Abort, alloc: Global, store: &mut S) {
    let owner = new_owner(rt, store);
    let only = insert(rt, store, &owner, text(rt, alloc), made());
    let shared = insert_rc(rt, store, &owner, text(rt, alloc), made());
    let reference = leak_reference(rt, store, shared);
    let (first, second, third) = read_thrice(rt, alloc, store, only);
    let places = [read(), made(), made_later()];
    let owner = assert_kept(rt, store, owner, borrowed(rt, alloc, &places));
    assert_released(rt, store, second, true);
    assert_released(rt, store, first, true);
    assert_released(rt, store, third, true);
    write_and_set(rt, alloc, store, only);
    release(rt, store, owner);
    end(rt, store, reference);
}

/// Leads a reference elsewhere, so that a shared value ends.
fn turn<S: Storage<String>>(rt: &impl Abort, alloc: Global, store: &mut S) {
    let one = leak_rc(rt, store, text(rt, alloc), made());
    let other = leak_rc(rt, store, text(rt, alloc), made());
    point(rt, store, one, other);
    end(rt, store, one);
    end(rt, store, other);
}

/// Rounds in one store.
#[derive(Drop)]
struct OneStore<S> {
    store: S,
}

impl<S: Storage<String>> Round for OneStore<S> {
    fn play(&mut self, rt: &impl Abort, alloc: Global) {
        own(rt, alloc, &mut self.store);
        turn(rt, alloc, &mut self.store);
    }
}

/// Rounds in one store, in which nothing is left.
struct InOneStore;

impl Growth<String> for InOneStore {
    fn grow<R: Files + AllocGlobal + Abort, S: Storage<String> + Drop>(
        rt: &R,
        alloc: Global,
        store: S,
    ) {
        assert_steady(rt, alloc, &mut OneStore { store });
    }
}

/// Leaves values, an owner's list and three readers in a store, of which another one spends the
/// guards.
fn leave<S: Storage<String>>(rt: &impl Abort, alloc: Global, store: &mut S, other: &mut S) {
    let owner = new_owner(rt, store);
    insert(rt, store, &owner, text(rt, alloc), made());
    owner.leak();
    leak_rc(rt, store, text(rt, alloc), made());
    let only = leak_text(rt, alloc, store);
    let (first, second, third) = read_thrice(rt, alloc, store, only);
    assert_released(rt, other, first, false);
    assert_released(rt, other, second, false);
    assert_released(rt, other, third, false);
}

/// Values that are left in a store that is dropped.
struct LeftWithStore;

impl LifeOfTwo<String> for LeftWithStore {
    fn live<R: Abort, S: Storage<String> + Drop>(
        rt: &R,
        alloc: Global,
        mut store: S,
        mut other: S,
    ) {
        own(rt, alloc, &mut store);
        leave(rt, alloc, &mut store, &mut other);
    }
}

/// Each round in stores of its own.
#[derive(Drop)]
struct NewStores;

impl Round for NewStores {
    fn play(&mut self, rt: &impl Abort, alloc: Global) {
        live_in_two_stores::<String, LeftWithStore>(rt, alloc);
    }
}

/// The calls of a list, by their places.
fn call_at(place: usize, value: String) -> Call<String> {
    match place {
        0 => Call::Owner,
        1 => Call::Insert(0, value, made()),
        2 => Call::InsertRc(0, value, made()),
        3 => Call::LeakReference(BoxAt::Place(2)),
        4 | 5 => Call::TryRead(BoxAt::Place(1), read()),
        6 => Call::ManuallyDrop(BoxAt::Place(1)),
        7 => Call::Set(BoxAt::Place(1), value),
        8 => Call::Insert(1, value, made()),
        9 => Call::TryWrite(BoxAt::Place(3), written()),
        10 => Call::Replace(9, value),
        11 => Call::Release(4),
        _ => Call::Leak(value, made()),
    }
}

/// A list of calls.
fn calls(rt: &impl Abort, alloc: Global) -> Vec<Call<String>> {
    let mut calls = Vec::new(alloc);
    for place in 0..13 {
        let asked = call_at(place, text(rt, alloc));
        push(rt, &mut calls, asked);
    }
    calls
}

/// The list, run in a session, and another call. Then the session ends.
struct ListInSession;

impl Life<String> for ListInSession {
    fn live<R: Abort, S: Storage<String> + Drop>(rt: &R, alloc: Global, store: S) {
        let mut session = session_over(rt, alloc, store);
        given(rt, session.run(calls(rt, alloc)));
        ask(rt, &mut session, call_at(12, text(rt, alloc)));
        let _store = session.finish();
    }
}

/// Each round in a session of its own.
#[derive(Drop)]
struct NewSessions;

impl Round for NewSessions {
    fn play(&mut self, rt: &impl Abort, alloc: Global) {
        live::<String, ListInSession>(rt, alloc);
    }
}

// Values, owners, readers and references in one store; stores; sessions and lists of calls.
#[test]
fn memory_is_given_back(rt: HostRuntime) {
    let alloc = rt.alloc();
    grow::<String, InOneStore, _>(&rt, alloc);
    assert_steady(&rt, alloc, &mut NewStores);
    assert_steady(&rt, alloc, &mut NewSessions);
}
