//! Plenty of everything: if there is memory, no call fails to allocate, however much there is already.

use crate::expected::{
    assert_reads, assert_same, assert_unread, dropped, end, given, insert, leak, made, made_later,
    new_owner, push, read, release, written,
};
use crate::fresh::{Scenario, SessionScenario, play, play_at_last_generation, play_in_session};
use crate::sessions::{assert_told, told};
use crate::sharing::{insert_rc, insert_reference, leak_rc, leak_reference, point};
use generational_box::{AnyStorage, BoxAt, Call, Reply, Session, Storage};
use std::alloc::Global;
use std::process::Abort;

struct BoxesOfAStore;

impl Scenario<u32> for BoxesOfAStore {
    fn play<R: Abort, S: Storage<u32>>(rt: &R, _: Global, store: &mut S) {
        let owner = new_owner(rt, store);
        let first = insert(rt, store, &owner, 0, made());
        for value in 1..2_000 {
            let owned = insert(rt, store, &owner, value, made_later());
            assert_reads(rt, store, owned, value);
            let leaked = leak(rt, store, value, made());
            assert_reads(rt, store, leaked, value);
        }
        release(rt, store, owner);
        assert_unread(rt, store, first, dropped(made()));
    }
}

/// Makes owners that have no boxes. Those that are released leave no record.
struct OwnersOfAStore;

impl Scenario<u32> for OwnersOfAStore {
    fn play<R: Abort, S: Storage<u32>>(rt: &R, _: Global, store: &mut S) {
        for _ in 0..2_000 {
            let owner = new_owner(rt, store);
            release(rt, store, owner);
        }
        assert!(rt; store.is_fresh());
        for _ in 0..2_000 {
            new_owner(rt, store).leak();
        }
    }
}

struct SharedValuesOfAStore;

impl Scenario<u32> for SharedValuesOfAStore {
    fn play<R: Abort, S: Storage<u32>>(rt: &R, _: Global, store: &mut S) {
        let owner = new_owner(rt, store);
        let first = insert_rc(rt, store, &owner, 0, made());
        for value in 1..2_000 {
            let listed = insert_rc(rt, store, &owner, value, made_later());
            let other = insert_reference(rt, store, &owner, listed);
            assert_reads(rt, store, other, value);
            let leaked = leak_rc(rt, store, value, made());
            let reference = leak_reference(rt, store, leaked);
            point(rt, store, reference, first);
            assert_reads(rt, store, reference, 0);
        }
        release(rt, store, owner);
        assert_unread(rt, store, first, dropped(made()));
    }
}

/// Makes boxes by the owner at place 0.
fn inserts<S: Storage<u32>>(rt: &impl Abort, session: &mut Session<u32, S>, count: u32) {
    for value in 0..count {
        assert_told(rt, session, Call::Insert(0, value, made()), told::BOX);
    }
}

/// Makes boxes by nobody.
fn leaks<S: Storage<u32>>(rt: &impl Abort, session: &mut Session<u32, S>, count: u32) {
    for value in 0..count {
        assert_told(rt, session, Call::Leak(value, made()), told::BOX);
    }
}

/// Shares values with the owner at place 0, and with nobody. The first value has place 1.
fn shares<S: Storage<u32>>(rt: &impl Abort, session: &mut Session<u32, S>, count: u32) {
    for value in 0..count {
        assert_told(rt, session, Call::InsertRc(0, value, made()), told::BOX);
        let listed = Call::InsertReference(0, BoxAt::Place(1));
        assert_told(rt, session, listed, told::BOX);
        assert_told(rt, session, Call::LeakRc(value, made()), told::BOX);
        let referred = Call::LeakReference(BoxAt::Place(1));
        assert_told(rt, session, referred, told::BOX);
        let pointed = Call::PointTo(BoxAt::Place(3), BoxAt::Place(1));
        assert_told(rt, session, pointed, told::DONE);
    }
}

/// Begins reads of the box at place 1.
fn reads<S: Storage<u32>>(rt: &impl Abort, session: &mut Session<u32, S>, count: u32) {
    for _ in 0..count {
        let asked = Call::TryRead(BoxAt::Place(1), read());
        assert_told(rt, session, asked, told::READER);
    }
}

/// A list of makings.
fn makings(rt: &impl Abort, alloc: Global, count: u32) -> Vec<Call<u32>> {
    let mut calls = Vec::new(alloc);
    for value in 0..count {
        push(rt, &mut calls, Call::Leak(value, made()));
    }
    calls
}

/// Runs a list of makings.
fn run<S: Storage<u32>>(
    rt: &impl Abort,
    session: &mut Session<u32, S>,
    calls: Vec<Call<u32>>,
    count: usize,
) {
    let replies = given(rt, session.run(calls));
    assert_same(rt, &replies.len(), &count);
    for reply in &replies {
        assert!(rt; matches!(reply, Reply::Box(_)));
    }
}

/// Two thousand boxes of an owner, a hundred readers, six thousand calls and a list of two hundred.
struct CallsOfASession;

impl SessionScenario for CallsOfASession {
    fn play<R: Abort, S: Storage<u32>>(rt: &R, alloc: Global, session: &mut Session<u32, S>) {
        assert_told(rt, session, Call::Owner, told::OWNER);
        inserts(rt, session, 2_000);
        reads(rt, session, 100);
        let end = Call::ManuallyDrop(BoxAt::Place(1));
        assert_told(rt, session, end, told::ERROR);
        let write = Call::TryWrite(BoxAt::Place(1), written());
        assert_told(rt, session, write, told::ERROR);
        assert_told(rt, session, Call::ReleaseOwner(0), told::ERROR);
        leaks(rt, session, 4_000);
        run(rt, session, makings(rt, alloc, 200), 200);
        reads(rt, session, 1);
    }
}

/// Two thousand shared values of an owner, as many of nobody, and six thousand references.
struct SharedValuesOfASession;

impl SessionScenario for SharedValuesOfASession {
    fn play<R: Abort, S: Storage<u32>>(rt: &R, _: Global, session: &mut Session<u32, S>) {
        assert_told(rt, session, Call::Owner, told::OWNER);
        shares(rt, session, 2_000);
        reads(rt, session, 100);
        assert_told(rt, session, Call::ReleaseOwner(0), told::DONE);
    }
}

#[test]
fn places_of_a_session(rt: HostRuntime) {
    play_in_session::<CallsOfASession>(&rt, rt.alloc());
    play_in_session::<SharedValuesOfASession>(&rt, rt.alloc());
}

/// A slot that has retired hinders nothing.
struct RetiredSlot;

impl Scenario<u32> for RetiredSlot {
    fn play<R: Abort, S: Storage<u32>>(rt: &R, alloc: Global, store: &mut S) {
        let only = leak(rt, store, 1, made());
        end(rt, store, only);
        assert_same(rt, &store.retired(), &1);
        BoxesOfAStore::play(rt, alloc, store);
        SharedValuesOfAStore::play(rt, alloc, store);
    }
}

#[test]
fn cells_and_owners_of_a_store(rt: HostRuntime) {
    play::<u32, BoxesOfAStore>(&rt, rt.alloc());
    play::<u32, OwnersOfAStore>(&rt, rt.alloc());
    play::<u32, SharedValuesOfAStore>(&rt, rt.alloc());
    play_at_last_generation::<u32, RetiredSlot>(&rt, rt.alloc());
}
