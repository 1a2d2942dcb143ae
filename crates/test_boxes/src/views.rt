//! Views: their parts, clones and texts, and what is written through parts.

use crate::expected::{
    assert_prints, assert_released, assert_same, assert_shows, assert_unwritten, begin,
    begin_write, borrowed, given, leak, made, read, written,
};
use crate::fresh::{Scenario, play};
use crate::values::clone_of;
use generational_box::{GenerationalRef, GenerationalRefMut, Ref, Storage};
use std::alloc::Global;
use std::process::Abort;

/// The view of a guard's value.
fn view<'a, S: Storage<(u32, u32)>>(
    rt: &impl Abort,
    store: &'a S,
    guard: &GenerationalRef<(u32, u32)>,
) -> Ref<'a, (u32, u32)> {
    guard.deref(store).expect(rt, "a view")
}

/// Asserts what the views of a pair give: a clone, the second part, a part and none.
fn assert_parts<S: Storage<(u32, u32)>>(
    rt: &impl Abort,
    alloc: Global,
    store: &S,
    guard: &GenerationalRef<(u32, u32)>,
) {
    let whole = view(rt, store, guard);
    assert_same(rt, &whole.cloned(), &Ok((1, 2)));
    assert_shows(rt, alloc, &whole, "(1, 2)");
    let second = whole.map(|pair| &pair.1);
    assert_same(rt, &*second, &2);
    assert_prints(rt, alloc, &second, "2");
    let first = view(rt, store, guard).try_map(|pair| Some(&pair.0));
    assert_same(rt, &first.map(|part| *part), &Some(1));
    let none = view(rt, store, guard).try_map(|_pair| None::<&u32>);
    assert!(rt; none.is_none());
}

/// A view that finds no part ends, and the borrow stands.
struct PartsOfAPair;

impl Scenario<(u32, u32)> for PartsOfAPair {
    fn play<R: Abort, S: Storage<(u32, u32)>>(rt: &R, alloc: Global, store: &mut S) {
        let pair = leak(rt, store, (1, 2), made());
        let guard = begin(rt, store, pair, read());
        assert_parts(rt, alloc, store, &guard);
        assert_unwritten(rt, store, pair, borrowed(rt, alloc, &[read()]));
        assert_released(rt, store, guard, true);
    }
}

/// Writes both parts of a pair through its views, and looks for a third.
fn write_parts(rt: &impl Abort, guard: &mut GenerationalRefMut<(u32, u32)>) {
    *guard.deref_mut().map_mut(|pair| &mut pair.1) = 20;
    assert_same(rt, &*guard.deref(), &(1, 20));
    match guard.deref_mut().try_map_mut(|pair| Some(&mut pair.0)) {
        Some(mut part) => *part = 10,
        None => panic!(rt; "there is a part"),
    }
    assert_same(rt, &*guard.deref(), &(10, 20));
    let none = guard.deref_mut().try_map_mut(|_pair| None::<&mut u32>);
    assert!(rt; none.is_none());
}

/// Writes a part of a part, and looks for another.
fn write_part_of_part(rt: &impl Abort, guard: &mut GenerationalRefMut<(u32, u32)>) {
    *guard
        .deref_mut()
        .map_mut(|pair| pair)
        .map_mut(|pair| &mut pair.0) = 11;
    let whole = guard.deref_mut().map_mut(|pair| pair);
    match whole.try_map_mut(|pair| Some(&mut pair.1)) {
        Some(mut part) => *part = 22,
        None => panic!(rt; "there is a part"),
    }
    assert_same(rt, &*guard.deref(), &(11, 22));
}

/// What is written through a part is the guard's, and goes back with it.
struct PartsOfAWriter;

impl Scenario<(u32, u32)> for PartsOfAWriter {
    fn play<R: Abort, S: Storage<(u32, u32)>>(rt: &R, _: Global, store: &mut S) {
        let pair = leak(rt, store, (1, 2), made());
        let mut guard = begin_write(rt, store, pair, written());
        write_parts(rt, &mut guard);
        write_part_of_part(rt, &mut guard);
        given(rt, guard.release(store));
        let reader = begin(rt, store, pair, read());
        assert_same(rt, &clone_of(rt, store, &reader), &Ok((11, 22)));
        assert_released(rt, store, reader, true);
    }
}

#[test]
fn a_pair_is_viewed_and_written_by_its_parts(rt: HostRuntime) {
    play::<(u32, u32), PartsOfAPair>(&rt, rt.alloc());
    play::<(u32, u32), PartsOfAWriter>(&rt, rt.alloc());
}
