//! Whole workloads over a store, for C: what the store is measured by.
//!
//! Guards can't cross C, and a call is too short to be timed alone. So each export runs a workload of
//! many calls and returns a checksum of the values that were seen, which is the same for every store that
//! does the same work. Each workload has an export for `u64` and one for `String`; they are described in
//! `docs/PERFORMANCE.md` at the repository's root.
//!
//! An export returns 1 if an allocation failed.
#![tactic(auto)]

#[cfg(test)]
mod tests;

use bench_boxes::{
    Element, Stopped, answer, churn, insert_and_read, own_and_release, point_often, read_often,
    read_together, write_often,
};
use generational_box::{Storage, UnsyncStorage};
use std::alloc::Global;

/// A workload, over a store of any elements.
trait Workload {
    fn run<E: Element, S: Storage<E> + Drop>(
        alloc: Global,
        store: S,
        n: u64,
        seed: u64,
    ) -> Result<u64, Stopped>;
}

/// Runs a workload over a new store. It is here alone that a store's type is named: each function that
/// does so is proved with all that a storage must meet.
#[inline(always)]
fn over_new<E: Element, W: Workload>(alloc: Global, n: u64, seed: u64) -> u64 {
    let store: UnsyncStorage<E> = UnsyncStorage::new(alloc, 1);
    answer(W::run(alloc, store, n, seed))
}

struct InsertAndRead;

impl Workload for InsertAndRead {
    #[inline(always)]
    fn run<E: Element, S: Storage<E> + Drop>(
        alloc: Global,
        store: S,
        n: u64,
        seed: u64,
    ) -> Result<u64, Stopped> {
        insert_and_read(alloc, store, n, seed)
    }
}

struct Replacement;

impl Workload for Replacement {
    #[inline(always)]
    fn run<E: Element, S: Storage<E> + Drop>(
        alloc: Global,
        store: S,
        n: u64,
        seed: u64,
    ) -> Result<u64, Stopped> {
        churn(alloc, store, n, seed)
    }
}

struct ReadOften;

impl Workload for ReadOften {
    #[inline(always)]
    fn run<E: Element, S: Storage<E> + Drop>(
        alloc: Global,
        store: S,
        n: u64,
        seed: u64,
    ) -> Result<u64, Stopped> {
        read_often(alloc, store, n, seed)
    }
}

struct WriteOften;

impl Workload for WriteOften {
    #[inline(always)]
    fn run<E: Element, S: Storage<E> + Drop>(
        alloc: Global,
        store: S,
        n: u64,
        seed: u64,
    ) -> Result<u64, Stopped> {
        write_often(alloc, store, n, seed)
    }
}

struct OwnAndRelease;

impl Workload for OwnAndRelease {
    #[inline(always)]
    fn run<E: Element, S: Storage<E> + Drop>(
        alloc: Global,
        store: S,
        n: u64,
        seed: u64,
    ) -> Result<u64, Stopped> {
        own_and_release(alloc, store, n, seed)
    }
}

struct PointOften;

impl Workload for PointOften {
    #[inline(always)]
    fn run<E: Element, S: Storage<E> + Drop>(
        alloc: Global,
        store: S,
        n: u64,
        seed: u64,
    ) -> Result<u64, Stopped> {
        point_often(alloc, store, n, seed)
    }
}

struct ReadTogether;

impl Workload for ReadTogether {
    #[inline(always)]
    fn run<E: Element, S: Storage<E> + Drop>(
        alloc: Global,
        store: S,
        n: u64,
        seed: u64,
    ) -> Result<u64, Stopped> {
        read_together(alloc, store, n, seed)
    }
}

/// w1 over numbers: values are made, read once in a shuffled order, and ended.
#[unsafe(no_mangle)]
pub extern "C" fn gbox_w1_u64(alloc: Global, n: u64, seed: u64) -> u64 {
    over_new::<u64, InsertAndRead>(alloc, n, seed)
}

/// w1 over texts.
#[unsafe(no_mangle)]
pub extern "C" fn gbox_w1_text(alloc: Global, n: u64, seed: u64) -> u64 {
    over_new::<String, InsertAndRead>(alloc, n, seed)
}

/// w2 over numbers: values are ended, and others made in their place.
#[unsafe(no_mangle)]
pub extern "C" fn gbox_w2_u64(alloc: Global, n: u64, seed: u64) -> u64 {
    over_new::<u64, Replacement>(alloc, n, seed)
}

/// w2 over texts.
#[unsafe(no_mangle)]
pub extern "C" fn gbox_w2_text(alloc: Global, n: u64, seed: u64) -> u64 {
    over_new::<String, Replacement>(alloc, n, seed)
}

/// w3 over numbers: values are read, ten times each on average.
#[unsafe(no_mangle)]
pub extern "C" fn gbox_w3_u64(alloc: Global, n: u64, seed: u64) -> u64 {
    over_new::<u64, ReadOften>(alloc, n, seed)
}

/// w3 over texts.
#[unsafe(no_mangle)]
pub extern "C" fn gbox_w3_text(alloc: Global, n: u64, seed: u64) -> u64 {
    over_new::<String, ReadOften>(alloc, n, seed)
}

/// w4 over numbers: values are replaced by others.
#[unsafe(no_mangle)]
pub extern "C" fn gbox_w4_u64(alloc: Global, n: u64, seed: u64) -> u64 {
    over_new::<u64, WriteOften>(alloc, n, seed)
}

/// w4 over texts.
#[unsafe(no_mangle)]
pub extern "C" fn gbox_w4_text(alloc: Global, n: u64, seed: u64) -> u64 {
    over_new::<String, WriteOften>(alloc, n, seed)
}

/// w5 over numbers: owners make values, and end them.
#[unsafe(no_mangle)]
pub extern "C" fn gbox_w5_u64(alloc: Global, n: u64, seed: u64) -> u64 {
    over_new::<u64, OwnAndRelease>(alloc, n, seed)
}

/// w5 over texts.
#[unsafe(no_mangle)]
pub extern "C" fn gbox_w5_text(alloc: Global, n: u64, seed: u64) -> u64 {
    over_new::<String, OwnAndRelease>(alloc, n, seed)
}

/// w6 over numbers: references to shared values are pointed at others.
#[unsafe(no_mangle)]
pub extern "C" fn gbox_w6_u64(alloc: Global, n: u64, seed: u64) -> u64 {
    over_new::<u64, PointOften>(alloc, n, seed)
}

/// w6 over texts.
#[unsafe(no_mangle)]
pub extern "C" fn gbox_w6_text(alloc: Global, n: u64, seed: u64) -> u64 {
    over_new::<String, PointOften>(alloc, n, seed)
}

/// w8 over numbers: values are read while others are borrowed.
#[unsafe(no_mangle)]
pub extern "C" fn gbox_w8_u64(alloc: Global, n: u64, seed: u64) -> u64 {
    over_new::<u64, ReadTogether>(alloc, n, seed)
}

/// w8 over texts.
#[unsafe(no_mangle)]
pub extern "C" fn gbox_w8_text(alloc: Global, n: u64, seed: u64) -> u64 {
    over_new::<String, ReadTogether>(alloc, n, seed)
}
