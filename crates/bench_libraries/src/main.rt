//! `bench_libraries LIST N` makes a list of operations over N things, and prints what it saw of them;
//! `bench_libraries LIST N REPS` makes it REPS times, and prints the nanoseconds of each operation too,
//! of all repetitions together.
//!
//! | LIST        | the things                                                       |
//! |-------------|------------------------------------------------------------------|
//! | `entities`  | entities of an `EntityTable`, components of a `ComponentTable`   |
//! | `trees`     | nodes of a `SceneTree`, each below the one at a quarter of its place |
//! | `sessions`  | entries of a `SessionTable`, ten of a session                    |
//! | `documents` | places of a `Document`, ten of a part                            |
//! | `files`     | values of a store, which is saved and loaded                      |
//! | `memo-..`   | nodes of a `Reactive`: see `Work` in memos.rt                     |
//!
//! `bench/peers` makes the same operations over what a user would pick instead, and sees the same.
//! `bench/compare.py` runs both. Each operation is a function of its own, so that a profiler counts it
//! apart. Things are looked at in a drawn order.
//!
//! The status is 1 if a call failed, for example to allocate, and 2 for other words.
#![tactic(auto)]

mod documents;
mod entities;
mod files;
mod laps;
mod memos;
mod sessions;
mod trees;

use crate::laps::{Laps, drawn};
use crate::memos::Work;
use document_tree::Document;
use entity_table::EntityTable;
use generational_box::{Store, UnsyncStorage};
use reactive::Reactive;
use scene_tree::SceneTree;
use session_table::SessionTable;
use std::env;
use std::process::ExitCode;
use std::rt::Env;

fn main(rt: HostRuntime) -> ExitCode {
    let Some(words) = Words::read(&rt) else {
        return ExitCode::from(2);
    };
    let mut laps = Laps::new(rt.alloc());
    let Some(seen) = seen_in(&rt, &mut laps, words) else {
        return ExitCode::from(1);
    };
    if println!(rt; "seen {}", seen).is_err() {
        return ExitCode::from(1);
    }
    if words.is_timed {
        for (name, nanos) in laps.list() {
            if println!(rt; "{} {}", name, nanos).is_err() {
                return ExitCode::from(1);
            }
        }
    }
    ExitCode::from(0)
}

/// Makes the list's operations as often as the words say, and returns what was seen the last time. None
/// if a call wasn't carried out.
fn seen_in(rt: &HostRuntime, laps: &mut Laps, words: Words) -> Option<u64> {
    let order = drawn(rt.alloc(), words.things)?;
    let mut seen = 0;
    for _ in 0..words.repetitions {
        seen = match words.list {
            List::Entities => in_entities(rt, laps, &order)?,
            List::Trees => in_trees(rt, laps, &order)?,
            List::Sessions => in_sessions(rt, laps, &order)?,
            List::Documents => in_documents(rt, laps, &order)?,
            List::Files => in_files(rt, laps, &order)?,
            List::Memos(work) => in_memos(rt, laps, work, words.things)?,
        };
    }
    Some(seen)
}

/// Makes the operations over the entities of an empty table.
fn in_entities(rt: &HostRuntime, laps: &mut Laps, order: &Vec<usize>) -> Option<u64> {
    let alloc = rt.alloc();
    let store: UnsyncStorage<u64> = Store::new(alloc, 1);
    let mut table = EntityTable::new(alloc, store);
    entities::run(rt, alloc, laps, &mut table, order)
}

/// Makes them over the nodes of an empty tree.
fn in_trees(rt: &HostRuntime, laps: &mut Laps, order: &Vec<usize>) -> Option<u64> {
    let alloc = rt.alloc();
    let store: UnsyncStorage<u64> = Store::new(alloc, 1);
    let mut tree = SceneTree::new(alloc, store);
    trees::run(rt, alloc, laps, &mut tree, order)
}

/// Makes them over the entries of an empty table.
fn in_sessions(rt: &HostRuntime, laps: &mut Laps, order: &Vec<usize>) -> Option<u64> {
    let alloc = rt.alloc();
    let store: UnsyncStorage<u64> = Store::new(alloc, 1);
    let mut table = SessionTable::new(alloc, store);
    let seen = sessions::run(rt, alloc, laps, &mut table, order);
    let _store = table.finish();
    seen
}

/// Makes them over the places of an empty document.
fn in_documents(rt: &HostRuntime, laps: &mut Laps, order: &Vec<usize>) -> Option<u64> {
    let alloc = rt.alloc();
    let store: UnsyncStorage<u32> = Store::new(alloc, 2);
    let mut document = Document::new(alloc, store);
    documents::run(rt, alloc, laps, &mut document, order)
}

/// Makes them over the values of an empty store.
fn in_files(rt: &HostRuntime, laps: &mut Laps, order: &Vec<usize>) -> Option<u64> {
    let mut store: UnsyncStorage<u64> = Store::new(rt.alloc(), 1);
    files::run(rt, rt.alloc(), laps, &mut store, order)
}

/// Makes the rounds of a work over the nodes of an empty graph.
fn in_memos(rt: &HostRuntime, laps: &mut Laps, work: Work, things: usize) -> Option<u64> {
    let mut graph = Reactive::new(rt.alloc(), UnsyncStorage::new(rt.alloc(), 1));
    memos::run(rt, rt.alloc(), laps, &mut graph, work, things)
}

/// What keeps the things.
#[derive(Clone, Copy, PartialEq, Eq)]
enum List {
    Entities,
    Trees,
    Sessions,
    Documents,
    Files,
    Memos(Work),
}

/// The program's words.
#[derive(Clone, Copy)]
struct Words {
    list: List,
    things: usize,
    repetitions: usize,
    is_timed: bool,
}

impl Words {
    // None for words that the program doesn't know.
    fn read<R: Env + AllocGlobal>(rt: &R) -> Option<Words> {
        let mut words = env::args(rt).ok()?.skip(1);
        let list = match words.next()?.as_str() {
            "entities" => List::Entities,
            "trees" => List::Trees,
            "sessions" => List::Sessions,
            "documents" => List::Documents,
            "files" => List::Files,
            word => List::Memos(Work::named(word)?),
        };
        let things = words.next()?.parse::<usize>().ok()?;
        let repetitions = match words.next() {
            Some(word) => Some(word.parse::<usize>().ok()?),
            None => None,
        };
        if words.next().is_some() {
            return None;
        }
        Some(Words {
            list,
            things,
            repetitions: repetitions.unwrap_or(1),
            is_timed: repetitions.is_some(),
        })
    }
}
