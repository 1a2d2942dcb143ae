//! What the workers of a new store do.

use crate::beside::{crowd, read_beside, write_beside};
use crate::judge::{Judge, present};
use crate::recorder::Recorder;
use crate::rows::*;
use crate::waking::{Freeing, trim_beside, wake_after, wake_all, wake_together};
use crate::workers::Worker;
use generational_box::StoreError;
use std::alloc::Global;
use std::sync::Wait;
use std::thread::Threads;

/// What the workers of a new store do: each scenario is a function of `rows`, `beside` or `waking`,
/// which tells what it is.
#[derive(Clone, Copy)]
pub enum Scenario {
    OwnersEnd,
    MemoryLacks,
    ReferencesTurn,
    ValueIsRead,
    OwnerLeaks,
    ValueEnds,
    SlotIsReused,
    ReferencesCount,
    ReferenceMoves,
    ValueIsMadeBeside,
    BasesHaveBorrows,
    HistoryIsTrimmed,
    StrangersCome,
    StrangeOwnerComes,
    ReadBeside,
    WriteBeside,
    TrimBeside,
    Crowd,
    Wake(Freeing),
    WakeTogether(Freeing),
    WakeAll,
}

/// Runs the workers, each of which records its steps. Returns how often an allocation failed.
pub fn play<W: Worker, H: Threads + Wait + Judge + Sync>(
    rt: &H,
    alloc: Global,
    workers: Vec<W>,
    scenario: Scenario,
) -> Result<u64, StoreError> {
    let mut all = Vec::new(alloc);
    for worker in workers {
        if all.push(Recorder::new(alloc, worker)).is_err() {
            return Err(StoreError::OutOfMemory);
        }
    }
    Ok(act(rt, alloc, all, scenario))
}

// Runs the workers, and returns how often an allocation failed for a single one.
fn act<W: Worker, H: Threads + Wait + Judge + Sync>(
    rt: &H,
    alloc: Global,
    mut workers: Vec<Recorder<W>>,
    scenario: Scenario,
) -> u64 {
    if let Scenario::Crowd = scenario {
        crowd(rt, workers);
        return 0;
    }
    let last = present(rt, workers.pop(), "a worker");
    match scenario {
        Scenario::OwnersEnd => owners_end(rt, last),
        Scenario::MemoryLacks => memory_lacks(rt, last),
        Scenario::ReferencesTurn => references_turn(rt, last),
        Scenario::ValueIsRead => value_is_read(rt, last),
        Scenario::OwnerLeaks => owner_leaks(rt, last),
        Scenario::ValueEnds => value_ends(rt, last),
        Scenario::SlotIsReused => slot_is_reused(rt, last),
        Scenario::ReferencesCount => references_count(rt, last),
        Scenario::ReferenceMoves => reference_moves(rt, last),
        Scenario::ValueIsMadeBeside => value_is_made_beside(rt, last),
        Scenario::BasesHaveBorrows => bases_have_borrows(rt, last),
        Scenario::HistoryIsTrimmed => history_is_trimmed(rt, last),
        Scenario::StrangersCome => strangers_come(rt, alloc, last),
        Scenario::StrangeOwnerComes => strange_owner_comes(rt, alloc, last),
        _ => {
            act_beside(rt, alloc, workers, last, scenario);
            0
        }
    }
}

// Lets several workers act in threads.
fn act_beside<W: Worker, H: Threads + Wait + Judge + Sync>(
    rt: &H,
    alloc: Global,
    mut workers: Vec<Recorder<W>>,
    last: Recorder<W>,
    scenario: Scenario,
) {
    let before = present(rt, workers.pop(), "two workers");
    match scenario {
        Scenario::ReadBeside => read_beside(rt, alloc, before, last),
        Scenario::WriteBeside => write_beside(rt, before, last),
        Scenario::TrimBeside => trim_beside(rt, before, last),
        _ => {
            let first = present(rt, workers.pop(), "three workers");
            match scenario {
                Scenario::Wake(step) => wake_after(rt, alloc, first, before, last, step),
                Scenario::WakeTogether(step) => {
                    wake_together(rt, alloc, first, before, last, step);
                }
                _ => wake_all(rt, first, before, last),
            }
        }
    }
}
