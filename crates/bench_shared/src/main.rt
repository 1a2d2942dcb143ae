//! `bench_shared STORE LIST WORKERS ROUNDS [BETWEEN]`: so many workers in threads make a list of calls so
//! many times over one store, each over boxes of its own; if BETWEEN is passed and isn't 0, with a
//! checkpoint after each so many rounds, or, for `keeps`, with so many checkpoints at the end; for
//! `places` it is the number of locations at which the calls are made. One line says how many calls that
//! were, and how many steps an audit returned. The caller measures how long it takes, in processor time
//! (`bench/shared.py`).
//!
//! | STORE       | the store of the calls                                             |
//! |-------------|--------------------------------------------------------------------|
//! | `shared`    | `SyncStorage`, with its history, which is audited at the end       |
//! | `unaudited` | the same, without the audit                                        |
//! | `floor`     | the sequential store in a plain mutex, without a history           |
//!
//! | LIST     | the calls of a round                                                  |
//! |----------|-----------------------------------------------------------------------|
//! | `reads`  | a box is made, read twice, ended, and read once more: 9 calls         |
//! | `together` | the same, under one lock |
//! | `writes` | an owner's boxes are made, written and pointed elsewhere, and end with the owner: 12 calls |
//! | `keeps`  | a box is made, and stays: 1 call                                       |
//! | `places` | a box that stays is read, at each of BETWEEN locations in turn, and then at the last 500 of them: 2 calls |
//! | `forgotten` | the same, with a checkpoint once each location has come                |
//! | a number | calls drawn from it, over boxes that workers of a shared store exchange: a few a round |
//!
//! Of drawn calls the audits are printed, a base and each step a line (`.ci/replay.py` replays them). The
//! status is 1 if a call failed, for example to allocate, and 2 for other words.
#![tactic(auto)]

ghost use Rattle.std.specs.Prelude.{◌≡◌, ◌<◌, IfSome};

mod calls;
mod drawn;
mod history;
mod locked;
mod plain;
mod rounds;

use crate::calls::here;
use crate::history::{Course, print_history};
use crate::locked::Worker;
use crate::plain::Plain;
use crate::rounds::{List, run};
use generational_box::{Storage, UnsyncStorage};
use generational_sync::{Count, SyncStorage, Tally};
use std::alloc::Global;
use std::marker::Brand;
use std::process::ExitCode;
use std::rt::Env;
use std::sync::ledger::Blank;
use std::sync::{Arc, Mutex, Wait};
use std::thread::Threads;
use std::{env, thread};

/// What a run did.
#[derive(Drop)]
struct Done {
    calls: u64,
    steps: usize,
}

fn main(rt: HostRuntime) -> ExitCode {
    let Some(words) = Words::read(&rt) else {
        return ExitCode::from(2);
    };
    let parts = words.workers as u64;
    let done = if words.store != Store::Floor {
        shared::<Brand, Brand, Brand, Brand, HostRuntime>(
            &rt,
            rt.alloc(),
            &words,
            Blank::new(parts),
            Blank::new(parts),
            Blank::new(parts),
            Blank::new(parts),
        )
    } else {
        floor(&rt, rt.alloc(), &words)
    };
    let Some(done) = done else {
        return ExitCode::from(1);
    };
    match println!(rt; "calls {} steps {}", done.calls, done.steps) {
        Ok(_) => ExitCode::from(0),
        Err(_) => ExitCode::from(1),
    }
}

/// Which kind of store the calls are made on.
#[derive(Clone, Copy, PartialEq, Eq)]
enum Store {
    Shared,
    Unaudited,
    Floor,
}

/// The program's words.
#[derive(Drop)]
struct Words {
    store: Store,
    list: List,
    workers: usize,
    rounds: u64,
    between: u64,
}

impl Words {
    // None for words that the program doesn't know.
    fn read<R: Env + AllocGlobal>(rt: &R) -> Option<Words>
        ensures { IfSome result (λ words. 0 < words.workers) }
    {
        let mut words = env::args(rt).ok()?.skip(1);
        let store = match words.next()?.as_str() {
            "shared" => Store::Shared,
            "unaudited" => Store::Unaudited,
            "floor" => Store::Floor,
            _ => return None,
        };
        let list = match words.next()?.as_str() {
            "reads" => List::Reads,
            "together" => List::Together,
            "writes" => List::Writes,
            "keeps" => List::Keeps,
            "places" => List::Locations(false),
            "forgotten" => List::Locations(true),
            word => List::Drawn(word.parse::<u64>().ok()?),
        };
        let workers = words.next()?.parse::<usize>().ok()?;
        let rounds = words.next()?.parse::<u64>().ok()?;
        let between = match words.next() {
            Some(word) => word.parse::<u64>().ok()?,
            None => 0,
        };
        if workers == 0 || workers > 64 || words.next().is_some() {
            return None;
        }
        Some(Words {
            store,
            list,
            workers,
            rounds,
            between,
        })
    }
}

// The workers of one shared store.
fn shared<
    A: Count + Send + Sync,
    B: Count + Send + Sync,
    C: Count + Send + Sync,
    D: Count + Send + Sync,
    H: Threads + Wait + Print + Sync,
>(
    rt: &H,
    alloc: Global,
    words: &Words,
    made: Blank,
    lent: Blank,
    changed: Blank,
    refused: Blank,
) -> Option<Done>
    requires some { 0 < words.now.workers }
    requires made { (made.name ≡ A.name) × (made.parts ≡ A.parts) × (made.parts ≡ words.now.workers) ×
        (A.workers ≡ words.now.workers) }
    requires lent { (lent.name ≡ B.name) × (lent.parts ≡ B.parts) × (lent.parts ≡ words.now.workers) ×
        (B.workers ≡ words.now.workers) }
    requires changed { (changed.name ≡ C.name) × (changed.parts ≡ C.parts) ×
        (changed.parts ≡ words.now.workers) × (C.workers ≡ words.now.workers) }
    requires refused { (refused.name ≡ D.name) × (refused.parts ≡ D.parts) ×
        (refused.parts ≡ words.now.workers) × (D.workers ≡ words.now.workers) }
{
    let (store, tallies) = SyncStorage::<u64, 7, A, B, C, D>::new(
        alloc,
        words.workers,
        made,
        lent,
        changed,
        refused,
    ).ok()?;
    let workers = workers_of(alloc, &store, tallies)?;
    if let List::Drawn(seed) = words.list {
        let course = Course {
            seed,
            rounds: words.rounds,
            between: words.between,
        };
        return print_history(rt, alloc, workers, course);
    }
    let (mut whole, calls) = run_all(rt, workers, words)?;
    let steps = count_steps(rt, &store, &mut whole, words.store)?;
    Some(Done { calls, steps })
}

// A worker for each tally.
fn workers_of<A: Count, B: Count, C: Count, D: Count>(
    alloc: Global,
    store: &SyncStorage<u64, 7, A, B, C, D>,
    tallies: Vec<Tally<A, B, C, D>>,
) -> Option<Vec<Worker<A, B, C, D>>> {
    let mut workers = Vec::new(alloc);
    for tally in tallies {
        let store = store.try_clone().ok()?;
        let at = here();
        workers.push(Worker { store, tally, at }).ok()?;
    }
    Some(workers)
}

// Has each worker make its calls in a thread. All tallies in one, and how many calls were made.
fn run_all<
    A: Count + Send + Sync,
    B: Count + Send + Sync,
    C: Count + Send + Sync,
    D: Count + Send + Sync,
    H: Threads + Wait + Sync,
>(rt: &H, workers: Vec<Worker<A, B, C, D>>, words: &Words) -> Option<(Tally<A, B, C, D>, u64)> {
    let (list, rounds, between) = (words.list, words.rounds, words.between);
    let parts = thread::map_vec(
        rt,
        workers,
        &|mut worker: Worker<A, B, C, D>| {
            let calls = run(&mut worker, rt, list, rounds, between);
            (worker.tally, calls)
        },
    )
    .ok()?;
    gather(parts)
}

// How many steps an audit returns, and none without an audit. None if a tally is missing.
fn count_steps<A: Count, B: Count, C: Count, D: Count>(
    rt: &impl Wait,
    store: &SyncStorage<u64, 7, A, B, C, D>,
    whole: &mut Tally<A, B, C, D>,
    asked: Store,
) -> Option<usize> {
    if !whole.is_whole() {
        return None;
    }
    if asked != Store::Shared {
        return Some(0);
    }
    let (_, steps) = store.audit(rt, whole).ok()?;
    Some(steps.len())
}

// All tallies in one, and how many calls were made.
fn gather<A: Count, B: Count, C: Count, D: Count>(
    mut parts: Vec<(Tally<A, B, C, D>, Option<u64>)>,
) -> Option<(Tally<A, B, C, D>, u64)> {
    let (mut whole, calls) = parts.pop()?;
    let mut calls = calls?;
    for (tally, part) in parts {
        calls = calls.wrapping_add(part?);
        whole.merge(tally).ok()?;
    }
    Some((whole, calls))
}

// The workers of a sequential store in a mutex.
fn floor<H: Threads + Wait + Sync>(rt: &H, alloc: Global, words: &Words) -> Option<Done> {
    let store: UnsyncStorage<u64> = UnsyncStorage::new(alloc, 7);
    floor_over(rt, alloc, words, store)
}

// The workers of any sequential store in a mutex.
fn floor_over<S: Storage<u64> + Drop + Send, H: Threads + Wait + Sync>(
    rt: &H,
    alloc: Global,
    words: &Words,
    store: S,
) -> Option<Done> {
    let store = Arc::new(alloc, Mutex::new(store)).ok()?;
    let mut workers = Vec::new(alloc);
    for _ in 0..words.workers {
        let store = Arc::try_clone(&store).ok()?;
        workers.push(Plain { store }).ok()?;
    }
    let (list, rounds, between) = (words.list, words.rounds, words.between);
    let parts = thread::map_vec(
        rt,
        workers,
        &|mut worker: Plain<S>| { run(&mut worker, rt, list, rounds, between) },
    )
    .ok()?;
    let mut calls = 0u64;
    for part in parts {
        calls = calls.wrapping_add(part?);
    }
    Some(Done { calls, steps: 0 })
}
