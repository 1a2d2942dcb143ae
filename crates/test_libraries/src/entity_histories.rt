//! Histories of tables of entities, as rows: each is carried out once with each order of free slots.

use crate::entity_acts::Census;
use crate::fresh::{Scene, play_both};
use crate::rows::{History, carry_out_all};
use generational_box::Storage;
use std::alloc::Global;
use std::process::Abort;

/// A history of a table over a new store.
#[derive(Drop)]
struct Told(History);

impl Scene<u64> for Told {
    fn play<R: Abort, S: Storage<u64> + Drop>(&self, rt: &R, alloc: Global, store: S) {
        let mut subject = Census::new(rt, alloc, store);
        let (name, rows) = self.0;
        carry_out_all(rt, alloc, &mut subject, name, rows);
    }
}

const HISTORIES: [History; 5] = [
    (
        "live ones stand in the order of slots",
        &[
            "spawn 10 -> ok | 0=10",
            "spawn 20 -> ok | 0=10 1=20",
            "spawn 30 -> ok | 0=10 1=20 2=30",
            // The first slot is left, and passed over.
            "despawn 0 -> ok | 1=20 2=30",
            "despawn 0 -> the value made at e.rs:0:1 is gone | 1=20 2=30",
            // The next entity takes it, and comes first.
            "spawn 40 -> ok | 3=40 1=20 2=30",
            // The last slot is left, and then all are.
            "despawn 2 -> ok | 3=40 1=20",
            "despawn 1 -> ok | 3=40",
            "despawn 3 -> ok |",
        ],
    ),
    (
        "a stale handle reads no later entity",
        &[
            "spawn 1 -> ok | 0=1",
            "despawn 0 -> ok |",
            // The only free slot is taken again.
            "spawn 2 -> ok | 1=2",
            "set 0 9 -> the value made at e.rs:0:1 is gone | 1=2",
            "despawn 0 -> the value made at e.rs:0:1 is gone | 1=2",
            "set 1 3 -> ok | 1=3",
        ],
    ),
    (
        "a test leaves what passes",
        &[
            "spawn 5 -> ok | 0=5",
            "spawn 8 -> ok | 0=5 1=8",
            "spawn 2 -> ok | 0=5 1=8 2=2",
            "spawn 9 -> ok | 0=5 1=8 2=2 3=9",
            // 8 and 9 go, and the others stay at their slots.
            "retain 6 -> ok | 0=5 2=2",
            "retain 6 -> ok | 0=5 2=2",
            "retain 1 -> ok |",
        ],
    ),
    (
        "all go",
        &[
            "clear -> ok |",
            "spawn 5 -> ok | 0=5",
            "spawn 8 -> ok | 0=5 1=8",
            "despawn 0 -> ok | 1=8",
            "clear -> ok |",
        ],
    ),
    (
        "an element is changed in its place",
        &[
            "spawn 10 -> ok | 0=10",
            "spawn 20 -> ok | 0=10 1=20",
            "update 0 5 -> ok | 0=15 1=20",
            "update 0 5 -> ok | 0=20 1=20",
            "despawn 0 -> ok | 1=20",
            "update 0 5 -> the value made at e.rs:0:1 is gone | 1=20",
            // The slot is reused, and the first handle doesn't change what is there.
            "spawn 30 -> ok | 2=30 1=20",
            "update 0 5 -> the value made at e.rs:0:1 is gone | 2=30 1=20",
            "update 2 1 -> ok | 2=31 1=20",
        ],
    ),
];

#[test]
fn histories_of_entities(rt: HostRuntime) {
    for history in HISTORIES {
        play_both::<u64, Told>(&rt, rt.alloc(), &Told(history));
    }
}
