//! How a store and a session grow: by leaps that become larger, and never by much more than they
//! need.
//!
//! A test can't count allocations. So it asks the system now and then how much memory the process has
//! mapped. What grows by leaps changes that a few times, and what grows by one at a time changes it
//! whenever a page is full.

use crate::expected::{given, insert, leak, made, new_owner};
use crate::fresh::{Beginning, Kind, Over, run_over};
use crate::sessions::{assert_told, session_over, told};
use crate::sharing::{leak_rc, leak_reference};
use generational_box::{BoxAt, Call, Owner, Session, Storage};
use std::alloc::Global;
use std::fs;
use std::process::Abort;
use std::rt::Files;

/// How many pages the process has mapped.
fn mapped<R: Files + AllocGlobal + Abort>(rt: &R) -> u64 {
    let text = given(rt, fs::read_to_string(rt, "/proc/self/statm"));
    let (pages, _) = text.as_str().split_once(' ').unwrap_or(("", ""));
    given(rt, pages.parse::<u64>())
}

/// How the mapped memory grows.
#[derive(Clone, Copy)]
pub(crate) struct Gauge {
    first: u64,
    last: u64,
    leaps: u32,
}

impl Gauge {
    /// A gauge of what is mapped from now on.
    pub(crate) fn new<R: Files + AllocGlobal + Abort>(rt: &R) -> Gauge {
        let pages = mapped(rt);
        Gauge {
            first: pages,
            last: pages,
            leaps: 0,
        }
    }

    /// Looks whether more is mapped now.
    pub(crate) fn look<R: Files + AllocGlobal + Abort>(&mut self, rt: &R) {
        let pages = mapped(rt);
        if pages != self.last {
            self.leaps = self.leaps.saturating_add(1);
        }
        self.last = pages;
    }

    /// Asserts that there were few leaps, and that no more pages are mapped than these.
    pub(crate) fn assert_grew(&self, rt: &impl Abort, pages: u64) {
        let grown = self.last.saturating_sub(self.first);
        assert!(rt; grown <= pages, "{grown} pages");
        assert!(rt; self.leaps <= 40, "{} leaps", self.leaps);
    }
}

/// What grows in a store that is dropped in the end.
pub(crate) trait Growth<T> {
    fn grow<R: Files + AllocGlobal + Abort, S: Storage<T> + Drop>(rt: &R, alloc: Global, store: S);
}

/// What grows, in a store that is made for it.
struct Grown<P>(P);

impl<T, R: Files + AllocGlobal + Abort, P: Growth<T>> Over<T, R> for Grown<P> {
    type Answer = ();

    fn run<K: Kind<T>>(rt: &R, alloc: Global, number: u64, beginning: Beginning) {
        P::grow(rt, alloc, K::make(alloc, number, beginning));
    }
}

/// Runs a life over an empty store.
pub(crate) fn grow<T: Drop, P: Growth<T>, R: Files + AllocGlobal + Abort>(rt: &R, alloc: Global) {
    run_over::<T, R, Grown<P>>(rt, alloc, 7, Beginning::First);
}

/// Makes a hundred boxes by nobody.
fn make<S: Storage<u32>>(rt: &impl Abort, store: &mut S) {
    for value in 0..100 {
        leak(rt, store, value, made());
    }
}

/// Makes boxes by nobody, and looks how the memory grows.
struct Leaks;

impl Growth<u32> for Leaks {
    fn grow<R: Files + AllocGlobal + Abort, S: Storage<u32> + Drop>(
        rt: &R,
        _: Global,
        mut store: S,
    ) {
        let mut gauge = Gauge::new(rt);
        leak(rt, &mut store, 0, made());
        gauge.look(rt);
        gauge.assert_grew(rt, 1_000);
        for _ in 0..1_000 {
            make(rt, &mut store);
            gauge.look(rt);
        }
        gauge.assert_grew(rt, 10_000);
    }
}

// A hundred thousand slots.
#[test]
fn slots(rt: HostRuntime) {
    grow::<u32, Leaks, _>(&rt, rt.alloc());
}

/// Makes a shared value and a hundred references to it.
fn share<S: Storage<u32>>(rt: &impl Abort, store: &mut S) {
    let shared = leak_rc(rt, store, 0, made());
    for _ in 1..100 {
        leak_reference(rt, store, shared);
    }
}

/// Makes shared values and references, and looks how the memory grows.
struct Shares;

impl Growth<u32> for Shares {
    fn grow<R: Files + AllocGlobal + Abort, S: Storage<u32> + Drop>(
        rt: &R,
        _: Global,
        mut store: S,
    ) {
        let mut gauge = Gauge::new(rt);
        for _ in 0..1_000 {
            share(rt, &mut store);
            gauge.look(rt);
        }
        gauge.assert_grew(rt, 10_000);
    }
}

// A hundred thousand references and a thousand shared values.
#[test]
fn references(rt: HostRuntime) {
    grow::<u32, Shares, _>(&rt, rt.alloc());
}

/// Makes a hundred boxes by an owner.
fn make_by<S: Storage<u32>>(rt: &impl Abort, store: &mut S, owner: &Owner) {
    for value in 0..100 {
        insert(rt, store, owner, value, made());
    }
}

/// Makes boxes by an owner, and looks how the memory grows.
fn make_all_by<R: Files + AllocGlobal + Abort, S: Storage<u32>>(
    rt: &R,
    store: &mut S,
    owner: &Owner,
    gauge: &mut Gauge,
) {
    for _ in 0..1_000 {
        make_by(rt, store, owner);
        gauge.look(rt);
    }
}

/// Makes boxes by an owner that is leaked in the end.
struct Owns;

impl Growth<u32> for Owns {
    fn grow<R: Files + AllocGlobal + Abort, S: Storage<u32> + Drop>(
        rt: &R,
        _: Global,
        mut store: S,
    ) {
        let mut gauge = Gauge::new(rt);
        let owner = new_owner(rt, &mut store);
        make_all_by(rt, &mut store, &owner, &mut gauge);
        owner.leak();
        gauge.assert_grew(rt, 12_000);
    }
}

// A hundred thousand boxes of one owner.
#[test]
fn an_owners_list(rt: HostRuntime) {
    grow::<u32, Owns, _>(&rt, rt.alloc());
}

/// Makes a hundred calls of a session that take no slot.
fn ask<S: Storage<u32>>(rt: &impl Abort, session: &mut Session<u32, S>) {
    for _ in 0..100 {
        assert_told(rt, session, Call::Id(BoxAt::Place(0)), told::OTHER);
    }
}

/// Makes calls, and looks how the memory grows.
fn ask_all<R: Files + AllocGlobal + Abort, S: Storage<u32>>(
    rt: &R,
    session: &mut Session<u32, S>,
    gauge: &mut Gauge,
) {
    assert_told(rt, session, Call::Leak(1, made()), told::BOX);
    for _ in 0..1_000 {
        ask(rt, session);
        gauge.look(rt);
    }
}

/// Makes calls of a session over a store, and ends it.
struct Calls;

impl Growth<u32> for Calls {
    fn grow<R: Files + AllocGlobal + Abort, S: Storage<u32> + Drop>(
        rt: &R,
        alloc: Global,
        store: S,
    ) {
        let mut gauge = Gauge::new(rt);
        let mut session = session_over(rt, alloc, store);
        ask_all(rt, &mut session, &mut gauge);
        let _store = session.finish();
        gauge.assert_grew(rt, 8_000);
    }
}

// A hundred thousand places of a session.
#[test]
fn places(rt: HostRuntime) {
    grow::<u32, Calls, _>(&rt, rt.alloc());
}
