//! Shared values and references, made and pointed elsewhere over any store, one call a function.

use crate::expected::given;
use generational_box::{GenerationalBox, Location, Owner, Storage};
use std::process::Abort;

/// Makes a shared value, and its first reference.
pub(crate) fn leak_rc<T: Drop, S: Storage<T>>(
    rt: &impl Abort,
    store: &mut S,
    value: T,
    made: Location,
) -> GenerationalBox<T> {
    given(rt, GenerationalBox::leak_rc(store, value, made))
}

/// Makes another reference to the shared value that a box refers to.
pub(crate) fn leak_reference<T, S: Storage<T>>(
    rt: &impl Abort,
    store: &mut S,
    shared: GenerationalBox<T>,
) -> GenerationalBox<T> {
    shared.leak_reference(store).expect(rt, "a box")
}

/// Makes a shared value by an owner, and its first reference.
pub(crate) fn insert_rc<T: Drop, S: Storage<T>>(
    rt: &impl Abort,
    store: &mut S,
    owner: &Owner,
    value: T,
    made: Location,
) -> GenerationalBox<T> {
    given(rt, owner.insert_rc(store, value, made))
}

/// Makes another reference, by an owner, to the shared value that a box refers to.
pub(crate) fn insert_reference<T, S: Storage<T>>(
    rt: &impl Abort,
    store: &mut S,
    owner: &Owner,
    shared: GenerationalBox<T>,
) -> GenerationalBox<T> {
    owner.insert_reference(store, shared).expect(rt, "a box")
}

/// Points a reference to the shared value that another box refers to.
pub(crate) fn point<T, S: Storage<T>>(
    rt: &impl Abort,
    store: &mut S,
    from: GenerationalBox<T>,
    to: GenerationalBox<T>,
) {
    given(rt, from.point_to(store, to));
}
