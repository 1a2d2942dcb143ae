//! The calls of the store that are measured, from the borrow to its release.

use crate::element::Element;
use generational_box::{GenerationalBox, Location, Owner, Refusal, Refused, Storage, StoreError};
use std::alloc::AllocError;

/// The workload can't go on: a call failed, for example because an allocation did.
#[derive(Clone, Copy)]
pub struct Stopped;

impl From<AllocError> for Stopped {
    fn from(_: AllocError) -> Stopped {
        Stopped
    }
}

impl From<StoreError> for Stopped {
    fn from(_: StoreError) -> Stopped {
        Stopped
    }
}

impl<E: Drop> From<Refusal<E>> for Stopped {
    fn from(_: Refusal<E>) -> Stopped {
        Stopped
    }
}

impl<E: Drop> From<Refused<E>> for Stopped {
    fn from(_: Refused<E>) -> Stopped {
        Stopped
    }
}

// The place that every call names.
#[inline(always)]
fn here() -> Location {
    Location::new("workload", 1, 1)
}

/// A box of a value.
#[inline(always)]
pub(crate) fn make<E: Element, S: Storage<E>>(
    store: &mut S,
    value: E,
) -> Result<GenerationalBox<E>, Stopped> {
    let made = GenerationalBox::leak(store, value, here())?;
    Ok(made)
}

/// The digest of a box's value, which is borrowed and released.
#[inline(always)]
pub(crate) fn read<E: Element, S: Storage<E>>(
    store: &mut S,
    key: GenerationalBox<E>,
) -> Result<u64, Stopped> {
    let guard = key.try_read(store, here())?;
    let digest = guard.deref(store).map(|value| value.digest());
    guard.release(store);
    digest.ok_or(Stopped)
}

/// The digests of two boxes' values. The first is borrowed still while the second is read.
#[inline(always)]
pub(crate) fn read_two<E: Element, S: Storage<E>>(
    store: &mut S,
    keys: (GenerationalBox<E>, GenerationalBox<E>),
) -> Result<(u64, u64), Stopped> {
    let guard = keys.0.try_read(store, here())?;
    let digest = guard.deref(store).map(|value| value.digest());
    let other = read(store, keys.1);
    guard.release(store);
    Ok((digest.ok_or(Stopped)?, other?))
}

/// The digests of three boxes' values. The first is borrowed still while the others are read, and
/// the second while the third is.
#[inline(always)]
pub(crate) fn read_three<E: Element, S: Storage<E>>(
    store: &mut S,
    key: GenerationalBox<E>,
    others: (GenerationalBox<E>, GenerationalBox<E>),
) -> Result<(u64, u64, u64), Stopped> {
    let guard = key.try_read(store, here())?;
    let digest = guard.deref(store).map(|value| value.digest());
    let read = read_two(store, others);
    guard.release(store);
    let (second, third) = read?;
    Ok((digest.ok_or(Stopped)?, second, third))
}

/// The digest of a box's value, in whose place another is put.
#[inline(always)]
pub(crate) fn write<E: Element, S: Storage<E>>(
    store: &mut S,
    key: GenerationalBox<E>,
    value: E,
) -> Result<u64, Stopped> {
    let mut guard = key.try_write(store, here())?;
    let digest = guard.deref().digest();
    guard.replace(value);
    match guard.release(store) {
        Ok(()) => Ok(digest),
        Err(_) => Err(Stopped),
    }
}

/// Removes a box's value.
#[inline(always)]
pub(crate) fn end<E: Element, S: Storage<E>>(
    store: &mut S,
    key: GenerationalBox<E>,
) -> Result<(), Stopped> {
    key.manually_drop(store)?;
    Ok(())
}

/// A shared value, and the box of its first reference.
#[inline(always)]
pub(crate) fn make_shared<E: Element, S: Storage<E>>(
    store: &mut S,
    value: E,
) -> Result<GenerationalBox<E>, Stopped> {
    let made = GenerationalBox::leak_rc(store, value, here())?;
    Ok(made)
}

/// Adds another reference to a box's shared value.
#[inline(always)]
pub(crate) fn refer<E: Element, S: Storage<E>>(
    store: &mut S,
    shared: GenerationalBox<E>,
) -> Result<GenerationalBox<E>, Stopped> {
    let made = shared.leak_reference(store)?;
    Ok(made)
}

/// Points a reference to the shared value of another box.
#[inline(always)]
pub(crate) fn point<E: Element, S: Storage<E>>(
    store: &mut S,
    from: GenerationalBox<E>,
    to: GenerationalBox<E>,
) -> Result<(), Stopped> {
    from.point_to(store, to)?;
    Ok(())
}

/// An owner without boxes.
#[inline(always)]
pub(crate) fn new_owner<E: Element, S: Storage<E>>(store: &mut S) -> Result<Owner, Stopped> {
    let owner = store.owner()?;
    Ok(owner)
}

/// A box of a value, which ends with its owner.
#[inline(always)]
pub(crate) fn insert<E: Element, S: Storage<E>>(
    store: &mut S,
    owner: &Owner,
    value: E,
) -> Result<GenerationalBox<E>, Stopped> {
    let made = owner.insert(store, value, here())?;
    Ok(made)
}

/// Removes an owner's values. If the release fails, the owner is leaked.
#[inline(always)]
pub(crate) fn release<E: Element, S: Storage<E>>(
    store: &mut S,
    owner: Owner,
) -> Result<(), Stopped> {
    match owner.release(store) {
        Ok(()) => Ok(()),
        Err((refused, _)) => {
            refused.leak();
            Err(Stopped)
        }
    }
}
