//! What a session's end leaves in its store.

use crate::expected::{assert_reads, assert_same, end, given, made, read};
use crate::fresh::{Life, live};
use generational_box::{BoxAt, Call, GenerationalBox, Reply, Session, Storage};
use std::alloc::Global;
use std::process::Abort;

/// A session over an empty store.
pub(crate) fn session_over<T: Drop, S: Storage<T>>(
    rt: &impl Abort,
    alloc: Global,
    store: S,
) -> Session<T, S> {
    assert!(rt; store.is_fresh());
    Session::new(alloc, store)
}

/// Runs a call.
pub(crate) fn call<T: Drop, S: Storage<T>>(
    rt: &impl Abort,
    session: &mut Session<T, S>,
    call: Call<T>,
) -> Reply<T> {
    given(rt, session.call(call))
}

/// Makes a call, and drops its reply.
pub(crate) fn ask<T: Drop, S: Storage<T>>(
    rt: &impl Abort,
    session: &mut Session<T, S>,
    asked: Call<T>,
) {
    let _reply = call(rt, session, asked);
}

/// The kind of a reply, without its contents: comparing it leaves no reply to be dropped.
pub(crate) mod told {
    pub(crate) const BOX: &str = "a box";

    pub(crate) const OWNER: &str = "an owner";

    pub(crate) const READER: &str = "a reader";

    pub(crate) const DONE: &str = "done";

    pub(crate) const ERROR: &str = "an error";

    pub(crate) const OTHER: &str = "another reply";
}

/// What a reply tells.
fn told_by<T>(reply: &Reply<T>) -> &'static str {
    match reply {
        Reply::Box(_) => told::BOX,
        Reply::Owner => told::OWNER,
        Reply::Reader => told::READER,
        Reply::Done => told::DONE,
        Reply::Error(_) => told::ERROR,
        _ => told::OTHER,
    }
}

/// Makes a call, and asserts what its reply tells.
pub(crate) fn assert_told<T: Drop, S: Storage<T>>(
    rt: &impl Abort,
    session: &mut Session<T, S>,
    asked: Call<T>,
    told: &str,
) {
    let reply = call(rt, session, asked);
    assert_same(rt, &told_by(&reply), &told);
}

/// The box that a call gives.
fn box_of<S: Storage<u32>>(
    rt: &impl Abort,
    session: &mut Session<u32, S>,
    asked: Call<u32>,
) -> GenerationalBox<u32> {
    match call(rt, session, asked) {
        Reply::Box(given) => given,
        _ => panic!(rt; "another reply"),
    }
}

/// Begins a read of the box at a place.
fn begin_at<S: Storage<u32>>(rt: &impl Abort, session: &mut Session<u32, S>, place: usize) {
    let asked = Call::TryRead(BoxAt::Place(place), read());
    assert_told(rt, session, asked, told::READER);
}

/// The end of a session releases the guards that it still holds, so its boxes can be ended.
struct ReadersOfTwo;

impl Life<u32> for ReadersOfTwo {
    fn live<R: Abort, S: Storage<u32> + Drop>(rt: &R, alloc: Global, store: S) {
        let mut session = session_over(rt, alloc, store);
        let one = box_of(rt, &mut session, Call::Leak(1, made()));
        let other = box_of(rt, &mut session, Call::Leak(1, made()));
        for place in [0, 1, 0] {
            begin_at(rt, &mut session, place);
        }
        assert_same(rt, &session.store().number(), &7);
        let mut store = session.finish();
        end(rt, &mut store, one);
        end(rt, &mut store, other);
    }
}

/// A session that holds a reader of one box, and an owner of another.
///
/// Once a session has ended nothing is in the way of a write, of what was read and of what an owner made.
struct ReaderAndOwner;

impl Life<u32> for ReaderAndOwner {
    fn live<R: Abort, S: Storage<u32> + Drop>(rt: &R, alloc: Global, store: S) {
        let mut session = session_over(rt, alloc, store);
        let lent = box_of(rt, &mut session, Call::Leak(1, made()));
        begin_at(rt, &mut session, 0);
        assert_told(rt, &mut session, Call::Owner, told::OWNER);
        let owned = box_of(rt, &mut session, Call::Insert(2, 2, made()));
        assert_same(rt, &lent.can_write(session.store()), &false);
        let store = session.finish();
        assert_same(rt, &lent.can_write(&store), &true);
        assert_same(rt, &owned.can_write(&store), &true);
    }
}

/// A session's end leaks the owners that it still holds: their boxes stay.
struct BoxOfAnOwner;

impl Life<u32> for BoxOfAnOwner {
    fn live<R: Abort, S: Storage<u32> + Drop>(rt: &R, alloc: Global, store: S) {
        let mut session = session_over(rt, alloc, store);
        assert_told(rt, &mut session, Call::Owner, told::OWNER);
        let kept = box_of(rt, &mut session, Call::Insert(0, 1, made()));
        let mut store = session.finish();
        assert_reads(rt, &mut store, kept, 1);
    }
}

#[test]
fn the_end_of_a_session(rt: HostRuntime) {
    live::<u32, ReadersOfTwo>(&rt, rt.alloc());
    live::<u32, ReaderAndOwner>(&rt, rt.alloc());
    live::<u32, BoxOfAnOwner>(&rt, rt.alloc());
}
