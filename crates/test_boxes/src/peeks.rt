//! What `peek` returns while the value is read, and while it is written.

use crate::expected::{
    assert_released, assert_same, begin, begin_write, given, leak, made, read, written,
};
use crate::fresh::{Scenario, play};
use crate::sharing::{leak_rc, leak_reference};
use generational_box::{GenerationalBox, Storage};
use std::alloc::Global;
use std::process::Abort;

/// Asserts what a live box shows.
fn assert_peeks<S: Storage<u32>>(
    rt: &impl Abort,
    store: &S,
    asked: GenerationalBox<u32>,
    shown: Option<u32>,
) {
    assert_same(rt, &asked.peek(store).copied(), &shown);
    assert!(rt; asked.is_live(store));
}

/// Looks by one box at a value that is read and written by another, which may be the same.
fn look_beside_borrows<S: Storage<u32>>(
    rt: &impl Abort,
    store: &mut S,
    looking: GenerationalBox<u32>,
    lent: GenerationalBox<u32>,
) {
    assert_peeks(rt, store, looking, Some(5));
    let first = begin(rt, store, lent, read());
    assert_peeks(rt, store, looking, Some(5));
    let second = begin(rt, store, lent, made());
    assert_peeks(rt, store, looking, Some(5));
    assert_released(rt, store, first, true);
    assert_released(rt, store, second, true);
    let writer = begin_write(rt, store, lent, written());
    assert_peeks(rt, store, looking, None);
    given(rt, writer.release(store));
    assert_peeks(rt, store, looking, Some(5));
}

struct Looks;

impl Scenario<u32> for Looks {
    fn play<R: Abort, S: Storage<u32>>(rt: &R, _: Global, store: &mut S) {
        let plain = leak(rt, store, 5, made());
        look_beside_borrows(rt, store, plain, plain);
        let shared = leak_rc(rt, store, 5, made());
        let second = leak_reference(rt, store, shared);
        look_beside_borrows(rt, store, second, second);
        look_beside_borrows(rt, store, second, shared);
        look_beside_borrows(rt, store, shared, second);
    }
}

// A value is shown beside its readers, and not while a writer has it, by each box that reaches it.
#[test]
fn a_value_is_shown_unless_it_is_written(rt: HostRuntime) {
    play::<u32, Looks>(&rt, rt.alloc());
}
