//! How the libraries' lists grow. Each test adds many things: allocations and times show that lists grow
//! by leaps, and are dropped in one pass.

use crate::document_acts::document_over;
use crate::document_memory::{add_or_again, append_or_again};
use crate::entity_acts::{entities_over, give, spawn};
use crate::expected::given;
use crate::fresh::{Scene, play};
use crate::graph_calls::Graph;
use crate::graph_lines::Line::{Chain, End, Flush, Set, Source, Watchers};
use crate::graph_lines::{Course, Lines, Table, take_whole};
use crate::session_acts::sessions_over;
use crate::session_limits::{log_in, put};
use crate::signal_calls::{end, first_made, scope, signal};
use crate::tree_acts::tree_over;
use crate::tree_memory::{child_or_again, remove_or_again, root_or_again};
use entity_table::ComponentTable;
use generational_box::Storage;
use std::alloc::Global;
use std::process::Abort;

/// How many things are added.
pub(crate) const MANY: u64 = 20_000;

/// How many sessions there are, and how many values a long one keeps.
pub(crate) const ENTRIES: u64 = 100_000;

/// Spawns entities, each with a component.
struct SpawnAll;

impl Scene<u64> for SpawnAll {
    fn play<R: Abort, S: Storage<u64> + Drop>(&self, rt: &R, alloc: Global, store: S) {
        let mut entities = entities_over(rt, alloc, store);
        let mut components = ComponentTable::new(alloc, &entities);
        for component in 0..MANY {
            let entity = spawn(rt, &mut entities, 0);
            give(rt, &mut components, entity, component);
        }
    }
}

#[test]
fn entities(rt: HostRuntime) {
    play::<u64, SpawnAll>(&rt, rt.alloc(), &SpawnAll);
}

/// Begins sessions with a value each, notes a use of each second one, lets the others expire, and
/// logs the rest out. No call looks at all sessions but the one expiry.
struct LogInAll;

impl Scene<u64> for LogInAll {
    fn play<R: Abort, S: Storage<u64> + Drop>(&self, rt: &R, alloc: Global, store: S) {
        let mut table = sessions_over(rt, alloc, store);
        for id in 0..ENTRIES {
            log_in(rt, &mut table, id);
            put(rt, &mut table, (id, 1), id);
        }
        for id in 0..ENTRIES {
            if id % 2 == 0 {
                assert!(rt; table.touch(&id, 1));
            }
        }
        assert!(rt; table.expire(1) == 50_000);
        for id in 0..ENTRIES {
            table.logout(&id);
        }
        assert!(rt; table.len() == 0);
        let _left = table.finish();
    }
}

#[test]
fn logins(rt: HostRuntime) {
    play::<u64, LogInAll>(&rt, rt.alloc(), &LogInAll);
}

/// A session that keeps many values, and ends.
struct KeepAll;

impl Scene<u64> for KeepAll {
    fn play<R: Abort, S: Storage<u64> + Drop>(&self, rt: &R, alloc: Global, store: S) {
        let mut table = sessions_over(rt, alloc, store);
        log_in(rt, &mut table, 1);
        for value in 0..ENTRIES {
            put(rt, &mut table, (1, value), value);
        }
        assert!(rt; table.logout(&1));
        let _left = table.finish();
    }
}

#[test]
fn entries(rt: HostRuntime) {
    play::<u64, KeepAll>(&rt, rt.alloc(), &KeepAll);
}

/// A root with many children, which are removed with it.
struct AddAndRemove;

impl Scene<u64> for AddAndRemove {
    fn play<R: Abort, S: Storage<u64> + Drop>(&self, rt: &R, alloc: Global, store: S) {
        let mut tree = tree_over(rt, alloc, store);
        let root = root_or_again(rt, &mut tree);
        for value in 0..MANY {
            child_or_again(rt, &mut tree, root, value);
        }
        remove_or_again(rt, &mut tree, root);
    }
}

#[test]
fn children(rt: HostRuntime) {
    play::<u64, AddAndRemove>(&rt, rt.alloc(), &AddAndRemove);
}

/// A page with many parts below it, and its outline. A quarter as many are on no page, and are removed in
/// one pass.
struct AppendAll;

impl Scene<u32> for AppendAll {
    fn play<R: Abort, S: Storage<u32> + Drop>(&self, rt: &R, alloc: Global, store: S) {
        let mut document = document_over(rt, alloc, store);
        let page = add_or_again(rt, &mut document, 0);
        for content in 0..MANY {
            let part = add_or_again(rt, &mut document, content);
            append_or_again(rt, &mut document, page, part);
            if content % 4 == 0 {
                add_or_again(rt, &mut document, content);
            }
        }
        given(rt, document.outline(page, 30_000));
        assert!(rt; document.len() == 25_001);
        given(rt, document.retain_below(page));
        assert!(rt; document.len() == 20_001);
    }
}

#[test]
fn parts(rt: HostRuntime) {
    play::<u32, AppendAll>(&rt, rt.alloc(), &AppendAll);
}

/// Makes signals of a scope, and ends it.
struct SignalAll;

impl Scene<u64> for SignalAll {
    fn play<R: Abort, S: Storage<u64> + Drop>(&self, rt: &R, _: Global, mut store: S) {
        let signals = scope(rt, &mut store);
        for value in 0..MANY {
            signal(rt, &mut store, &signals, value, first_made());
        }
        end(rt, &mut store, signals);
    }
}

#[test]
fn a_scopes_signals(rt: HostRuntime) {
    play::<u64, SignalAll>(&rt, rt.alloc(), &SignalAll);
}

/// A chain of memos, and watched ones that read its last. The chain's source ends, and other sources are set:
/// no watched one walks the whole chain.
#[derive(Clone, Copy)]
struct WatchEnded;

impl Course for WatchEnded {
    fn take<R: Abort, G: Graph>(&self, rt: &R, table: &mut Table<G>) {
        let made = [
            Source(1),
            Source(0),
            Source(7),
            Chain(0, 1, 5000),
            Watchers(5002, 5000),
        ];
        Lines(&made).take(rt, table);
        Lines(&[Flush]).take(rt, table);
        assert!(rt; table.take_told().len() == 5000);
        Lines(&[End(0), Flush]).take(rt, table);
        assert!(rt; table.take_told().len() == 5000);
        for value in 0..6 {
            Lines(&[Set(2, value), Flush, Flush]).take(rt, table);
            assert!(rt; table.take_told().is_empty());
        }
    }
}

#[test]
fn watchers(rt: HostRuntime) {
    take_whole(&rt, rt.alloc(), &WatchEnded);
}
