//! Where scenarios are played.

ghost use Rattle.std.specs.Prelude.{◌≡◌, ◌<◌};

use crate::judging::Judging;
use generational_box::StoreError;
use generational_sync::{Count, SyncStorage};
use std::alloc::Global;
use std::marker::Brand;
use std::process::Abort;
use std::sync::Wait;
use std::sync::ledger::Blank;
use std::thread::Threads;
use test_shared_workers::{Handle, Scenario};

// How often a store is made again if an allocation fails.
const TRIES: u64 = 20;

/// Plays a scenario with so many workers of a new store, numbered from 0. No allocation fails.
pub(crate) fn plays<H: Threads + Wait + Abort + Sync>(
    rt: &H,
    alloc: Global,
    workers: usize,
    scenario: Scenario,
)
    requires { 0 < workers }
{
    assert!(rt; play(rt, alloc, workers, scenario) == Ok(0));
}

/// Plays a scenario with one worker, where allocations may fail. If a store can't be made, it is made
/// again.
pub(crate) fn plays_with_little_memory<H: Threads + Wait + Abort + Sync>(
    rt: &H,
    alloc: Global,
    scenario: Scenario,
) {
    for _ in 0..TRIES {
        if play(rt, alloc, 1, scenario).is_ok() {
            return;
        }
    }
    rt.abort()
}

// How often an allocation failed. Err if no store was made.
fn play<H: Threads + Wait + Abort + Sync>(
    rt: &H,
    alloc: Global,
    workers: usize,
    scenario: Scenario,
) -> Result<u64, StoreError>
    requires { 0 < workers }
{
    let parts = workers as u64;
    play_with::<Brand, Brand, Brand, Brand, H>(
        rt,
        alloc,
        workers,
        scenario,
        Blank::new(parts),
        Blank::new(parts),
        Blank::new(parts),
        Blank::new(parts),
    )
}

fn play_with<
    A: Count + Send + Sync,
    B: Count + Send + Sync,
    C: Count + Send + Sync,
    D: Count + Send + Sync,
    H: Threads + Wait + Abort + Sync,
>(
    rt: &H,
    alloc: Global,
    workers: usize,
    scenario: Scenario,
    made: Blank,
    lent: Blank,
    changed: Blank,
    refused: Blank,
) -> Result<u64, StoreError>
    requires some { 0 < workers }
    requires made { (made.name ≡ A.name) × (made.parts ≡ A.parts) × (made.parts ≡ workers) ×
        (A.workers ≡ workers) }
    requires lent { (lent.name ≡ B.name) × (lent.parts ≡ B.parts) × (lent.parts ≡ workers) ×
        (B.workers ≡ workers) }
    requires changed { (changed.name ≡ C.name) × (changed.parts ≡ C.parts) ×
        (changed.parts ≡ workers) × (C.workers ≡ workers) }
    requires refused { (refused.name ≡ D.name) × (refused.parts ≡ D.parts) ×
        (refused.parts ≡ workers) × (D.workers ≡ workers) }
{
    let store = SyncStorage::<String, 7, A, B, C, D>::new(
        alloc, workers, made, lent, changed, refused,
    );
    let (store, tallies) = store?;
    let mut all = Vec::new(alloc);
    for tally in tallies {
        let store = store.try_clone()?;
        let handle = Handle {
            store,
            tally,
            together: false,
        };
        if all.push(handle).is_err() {
            return Err(StoreError::OutOfMemory);
        }
    }
    test_shared_workers::play(&Judging(rt), alloc, all, scenario)
}
