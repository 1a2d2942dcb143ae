//! Boxes, guards, owners and sessions that are sent to another thread and come back.

use generational_box::{
    AnyStorage, GenerationalBox, GenerationalRef, GenerationalRefMut, Location, Session, Storage,
    Store, UnsyncStorage,
};
use std::alloc::Global;
use std::process::Abort;
use std::sync::Wait;
use std::thread::Threads;
use std::{mem, thread};

/// Where a value is made, read and written.
fn here() -> Location {
    Location::new("a.rs", 3, 5)
}

/// Has another thread exchange two values, which takes both there and back.
///
/// A guard can't be moved into a closure, since it can't be dropped.
fn swap_elsewhere<T: Send, R: Threads + Wait + Sync>(rt: &R, one: &mut T, other: &mut T) {
    thread::join(rt, || (), || mem::swap(one, other));
}

/// Makes a box of a value.
fn leak<S: Storage<u32>>(rt: &impl Abort, store: &mut S, value: u32) -> GenerationalBox<u32> {
    let answer = GenerationalBox::leak(store, value, here());
    answer.map_err(|refusal| refusal.cause).expect(rt, "a box")
}

/// Begins a read.
fn begin<S: Storage<u32>>(
    rt: &impl Abort,
    store: &mut S,
    asked: GenerationalBox<u32>,
) -> GenerationalRef<u32> {
    asked.try_read(store, here()).expect(rt, "a guard")
}

/// Begins a write.
fn begin_write<S: Storage<u32>>(
    rt: &impl Abort,
    store: &mut S,
    asked: GenerationalBox<u32>,
) -> GenerationalRefMut<u32> {
    asked.try_write(store, here()).expect(rt, "a guard")
}

/// Asserts that a guard opens this number, and releases it.
fn assert_opens<S: Storage<u32>>(
    rt: &impl Abort,
    store: &mut S,
    guard: GenerationalRef<u32>,
    number: u32,
) {
    assert_eq!(rt; guard.deref(store).map(|view| *view), Some(number));
    assert!(rt; guard.release(store));
}

#[test]
fn boxes_and_guards_of_readers(rt: HostRuntime) {
    let mut store: UnsyncStorage<u32> = Store::new(rt.alloc(), 7);
    let mut one = leak(&rt, &mut store, 10);
    let mut other = leak(&rt, &mut store, 20);
    swap_elsewhere(&rt, &mut one, &mut other);
    assert_eq!(rt; (one.raw_ptr(), other.raw_ptr()), (1, 0));

    let mut first = begin(&rt, &mut store, one);
    let mut second = begin(&rt, &mut store, other);
    swap_elsewhere(&rt, &mut first, &mut second);
    assert_opens(&rt, &mut store, first, 10);
    assert_opens(&rt, &mut store, second, 20);
}

#[test]
fn guards_of_writers(rt: HostRuntime) {
    let mut store: UnsyncStorage<u32> = Store::new(rt.alloc(), 7);
    let one = leak(&rt, &mut store, 10);
    let other = leak(&rt, &mut store, 20);
    let mut first = begin_write(&rt, &mut store, one);
    let mut second = begin_write(&rt, &mut store, other);
    swap_elsewhere(&rt, &mut first, &mut second);
    assert_eq!(rt; (first.replace(21), second.replace(11)), (20, 10));
    assert_eq!(rt; first.release(&mut store), Ok(()));
    assert_eq!(rt; second.release(&mut store), Ok(()));
    let guard = begin(&rt, &mut store, one);
    assert_opens(&rt, &mut store, guard, 11);
    let guard = begin(&rt, &mut store, other);
    assert_opens(&rt, &mut store, guard, 21);
}

/// A session over a store with this number.
fn session(rt: &impl Abort, alloc: Global, number: u64) -> Session<u32, UnsyncStorage<u32>> {
    let store: UnsyncStorage<u32> = Store::new(alloc, number);
    assert!(rt; store.is_fresh());
    Session::new(alloc, store)
}

#[test]
fn owners(rt: HostRuntime) {
    let mut store: UnsyncStorage<u32> = Store::new(rt.alloc(), 7);
    let mut one = store.owner().expect(&rt, "an owner");
    let mut other = store.owner().expect(&rt, "an owner");
    swap_elsewhere(&rt, &mut one, &mut other);
    assert_eq!(rt; (one.id().key, other.id().key), (1, 0));
    one.leak();
    other.leak();
}

#[test]
fn sessions(rt: HostRuntime) {
    let mut first = session(&rt, rt.alloc(), 7);
    let mut second = session(&rt, rt.alloc(), 8);
    swap_elsewhere(&rt, &mut first, &mut second);
    assert_eq!(rt; (first.finish().number(), second.finish().number()), (8, 7));
}
