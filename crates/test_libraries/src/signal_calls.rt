//! Calls of scopes and signals over any store, one a function, with the results that they must have.

use crate::expected::{assert_same, given};
use generational_box::{
    AlreadyBorrowedError, AnyStorage, BorrowError, BorrowMutError, Location, Refused, Storage,
    ValueDroppedError,
};
use signals::{Scope, Signal};
use std::alloc::Global;
use std::process::Abort;

/// Where a value is made.
pub(crate) fn first_made() -> Location {
    Location::new("a.rs", 3, 5)
}

/// Where another value is made.
pub(crate) fn second_made() -> Location {
    Location::new("a.rs", 8, 9)
}

/// Where a value is read or written.
pub(crate) fn asked() -> Location {
    Location::new("r.rs", 1, 2)
}

/// Begins a scope.
pub(crate) fn scope<T, S: AnyStorage<T>>(rt: &impl Abort, store: &mut S) -> Scope {
    Scope::new(store).expect(rt, "a scope")
}

/// Makes a signal of a value.
pub(crate) fn signal<T: Drop, S: Storage<T>>(
    rt: &impl Abort,
    store: &mut S,
    scope: &Scope,
    value: T,
    made: Location,
) -> Signal<T> {
    given(rt, scope.signal(store, value, made))
}

/// Makes an alias of a signal.
pub(crate) fn alias<S: Storage<u64>>(
    rt: &impl Abort,
    store: &mut S,
    scope: &Scope,
    of: Signal<u64>,
) -> Signal<u64> {
    scope.alias(store, of).expect(rt, "an alias")
}

/// Ends a scope, in whose way nothing is.
pub(crate) fn end<T, S: AnyStorage<T>>(rt: &impl Abort, store: &mut S, scope: Scope) {
    match scope.end(store) {
        Ok(()) => {}
        Err(_back) => rt.abort(),
    }
}

/// The scope that comes back from an end in whose way a reader is.
pub(crate) fn end_hindered<S: AnyStorage<u64>>(
    rt: &impl Abort,
    store: &mut S,
    scope: Scope,
    alloc: Global,
) -> Scope {
    match scope.end(store) {
        Ok(()) => rt.abort(),
        Err((scope, refused)) => {
            assert_same(rt, &refused, &Refused::Borrow(read_once(rt, alloc)));
            scope
        }
    }
}

/// Reads a signal, which has a value.
pub(crate) fn sees<S: Storage<u64>>(
    rt: &impl Abort,
    store: &mut S,
    signal: Signal<u64>,
    value: u64,
) {
    assert!(rt; signal.is_readable(store));
    assert_same(rt, &signal.peek(store).copied(), &Some(value));
    assert_same(rt, &signal.with(store, |seen| *seen), &Some(value));
    assert_same(rt, &signal.get(store, asked(), |seen| *seen), &Ok(value));
}

/// Reads a signal that has ended: the closure isn't called.
pub(crate) fn is_gone<S: Storage<u64>>(
    rt: &impl Abort,
    store: &mut S,
    signal: Signal<u64>,
    made: Location,
) {
    assert!(rt; !signal.is_readable(store));
    let mut called = false;
    assert_same(rt, &signal.with(store, |_| called = true), &None);
    let answer = signal.get(store, asked(), |_| called = true);
    let error = BorrowError::Dropped(ValueDroppedError::new(made));
    assert_same(rt, &answer, &Err(Refused::Borrow(error)));
    assert!(rt; !called);
}

/// Sets a signal.
pub(crate) fn set<S: Storage<u64>>(
    rt: &impl Abort,
    store: &mut S,
    signal: Signal<u64>,
    value: u64,
) {
    assert_same(rt, &signal.set(store, value, asked()), &Ok(()));
}

/// Sets a signal that has ended: the value comes back.
pub(crate) fn set_ended<S: Storage<u64>>(
    rt: &impl Abort,
    store: &mut S,
    signal: Signal<u64>,
    value: u64,
    made: Location,
) {
    let error = BorrowMutError::Dropped(ValueDroppedError::new(made));
    let answer = signal.set(store, value, asked());
    assert_same(rt, &answer, &Err((value, Refused::Borrow(error))));
}

/// Changes a signal, which fails so: the closure isn't called.
fn update_refused<S: Storage<u64>>(
    rt: &impl Abort,
    store: &mut S,
    signal: Signal<u64>,
    error: BorrowMutError,
) {
    let mut called = false;
    let answer = signal.update(store, asked(), |_| called = true);
    assert_same(rt, &answer, &Err(Refused::Borrow(error)));
    assert!(rt; !called);
}

/// Changes a signal that has ended.
pub(crate) fn update_ended<S: Storage<u64>>(
    rt: &impl Abort,
    store: &mut S,
    signal: Signal<u64>,
    made: Location,
) {
    let error = BorrowMutError::Dropped(ValueDroppedError::new(made));
    update_refused(rt, store, signal, error);
}

/// The error of one reader, since `asked`.
fn read_once(rt: &impl Abort, alloc: Global) -> BorrowMutError {
    let readers = [asked()].to_vec(alloc).expect(rt, "memory");
    BorrowMutError::AlreadyBorrowed(AlreadyBorrowedError::new(readers))
}

/// Changes a signal that is read, since `asked`.
pub(crate) fn update_hindered<S: Storage<u64>>(
    rt: &impl Abort,
    store: &mut S,
    signal: Signal<u64>,
    alloc: Global,
) {
    update_refused(rt, store, signal, read_once(rt, alloc));
}

/// Doubles a signal's value, and returns the one before.
pub(crate) fn double<S: Storage<u64>>(
    rt: &impl Abort,
    store: &mut S,
    signal: Signal<u64>,
    before: u64,
) {
    let answer = signal.update(store, asked(), |value| {
        let before = *value;
        *value = before.wrapping_mul(2);
        before
    });
    assert_same(rt, &answer, &Ok(before));
}

/// Points a signal to the value of another.
pub(crate) fn swap<S: Storage<u64>>(
    rt: &impl Abort,
    store: &mut S,
    signal: Signal<u64>,
    to: Signal<u64>,
) {
    assert_same(rt, &signal.swap_source(store, to), &Ok(()));
}
