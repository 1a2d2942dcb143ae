//! Histories of tables of sessions, as rows: each is carried out once with each order of free slots.

use crate::fresh::{Scene, play_both};
use crate::rows::{History, carry_out_all};
use crate::session_acts::Desk;
use generational_box::Storage;
use std::alloc::Global;
use std::process::Abort;

/// A history of a table over a new store. Nothing stays in the store.
#[derive(Drop)]
struct Told(History);

impl Scene<u64> for Told {
    fn play<R: Abort, S: Storage<u64> + Drop>(&self, rt: &R, alloc: Global, store: S) {
        let mut subject = Desk::new(rt, alloc, store);
        let (name, rows) = self.0;
        carry_out_all(rt, alloc, &mut subject, name, rows);
        subject.finish(rt);
    }
}

const HISTORIES: [History; 12] = [
    (
        "a logout ends its own values",
        &[
            "login 1 10 -> ok | 1@10",
            "login 2 11 -> ok | 1@10 2@11",
            "login 1 12 -> the id has a session already | 1@10 2@11",
            "put 1 5 -> ok | 1@10 2@11 0=5",
            "put 2 6 -> ok | 1@10 2@11 0=5 1=6",
            "put 1 7 -> ok | 1@10 2@11 0=5 1=6 2=7",
            "logout 1 -> ok | 2@11 1=6",
            "logout 1 -> no session | 2@11 1=6",
            "set 2 9 -> the value made at p.rs:2:1 is gone | 2@11 1=6",
            "set 1 9 -> ok | 2@11 1=9",
            "logout 2 -> ok |",
        ],
    ),
    (
        "a stale entry reads no later value",
        &[
            "put 3 1 -> the id has no session |",
            "login 3 0 -> ok | 3@0",
            "put 3 1 -> ok | 3@0 0=1",
            "logout 3 -> ok |",
            // The id comes again, and its value takes the only free slot.
            "login 3 4 -> ok | 3@4",
            "put 3 2 -> ok | 3@4 1=2",
            "set 0 8 -> the value made at p.rs:0:1 is gone | 3@4 1=2",
        ],
    ),
    // A clock may go back: the time of the last call counts, whichever is later.
    (
        "a time goes back",
        &[
            "login 1 20 -> ok | 1@20",
            "login 2 15 -> ok | 1@20 2@15",
            "touch 1 10 -> ok | 1@10 2@15",
            "touch 2 14 -> ok | 1@10 2@14",
            "touch 2 0 -> ok | 1@10 2@0",
            "touch 2 12 -> ok | 1@10 2@12",
            "expire 12 -> ended 1 | 2@12",
            "expire 13 -> ended 1 |",
        ],
    ),
    (
        "old sessions expire",
        &[
            "login 1 10 -> ok | 1@10",
            "login 2 20 -> ok | 1@10 2@20",
            "login 3 30 -> ok | 1@10 2@20 3@30",
            "put 1 4 -> ok | 1@10 2@20 3@30 0=4",
            "put 2 5 -> ok | 1@10 2@20 3@30 0=4 1=5",
            "put 3 6 -> ok | 1@10 2@20 3@30 0=4 1=5 2=6",
            "touch 4 31 -> no session | 1@10 2@20 3@30 0=4 1=5 2=6",
            "touch 1 31 -> ok | 1@31 2@20 3@30 0=4 1=5 2=6",
            // One that was used at the time itself is young enough.
            "expire 30 -> ended 1 | 1@31 3@30 0=4 2=6",
            "expire 30 -> ended 0 | 1@31 3@30 0=4 2=6",
            "expire 40 -> ended 2 |",
        ],
    ),
    (
        "a key keeps its entry",
        &[
            "login 1 0 -> ok | 1@0",
            "login 2 0 -> ok | 1@0 2@0",
            "put_at 1 5 8 -> ok | 1@0 2@0 0=8",
            "put_at 1 5 9 -> the session has an entry under the key already | 1@0 2@0 0=8",
            // Another session has keys of its own.
            "put_at 2 5 9 -> ok | 1@0 2@0 0=8 1=9",
            "logout 1 -> ok | 2@0 1=9",
        ],
    ),
    (
        "a value is changed in its place",
        &[
            "login 1 0 -> ok | 1@0",
            "put 1 5 -> ok | 1@0 0=5",
            "update 0 2 -> ok | 1@0 0=7",
            "put 1 9 -> ok | 1@0 0=7 1=9",
            "update 0 1 -> ok | 1@0 0=8 1=9",
            "logout 1 -> ok |",
            "login 1 3 -> ok | 1@3",
            // The slot is reused, and the first entry doesn't change what is there.
            "put 1 6 -> ok | 1@3 2=6",
            "update 0 1 -> the value made at p.rs:0:1 is gone | 1@3 2=6",
        ],
    ),
    (
        "a session gets another id",
        &[
            "login 1 10 -> ok | 1@10",
            "login 2 20 -> ok | 1@10 2@20",
            "put 1 5 -> ok | 1@10 2@20 0=5",
            "rename 1 2 -> the new id has a session already | 1@10 2@20 0=5",
            "rename 1 1 -> the new id has a session already | 1@10 2@20 0=5",
            "rename 4 2 -> the id has no session | 1@10 2@20 0=5",
            "rename 1 3 -> ok | 2@20 3@10 0=5",
            "put 1 6 -> the id has no session | 2@20 3@10 0=5",
            // What is kept goes with the session, whichever id that has.
            "put 3 7 -> ok | 2@20 3@10 0=5 1=7",
            "logout 3 -> ok | 2@20",
        ],
    ),
    (
        "one value is taken out",
        &[
            "login 1 10 -> ok | 1@10",
            "login 2 20 -> ok | 1@10 2@20",
            "put 1 5 -> ok | 1@10 2@20 0=5",
            "put 1 6 -> ok | 1@10 2@20 0=5 1=6",
            "put 1 7 -> ok | 1@10 2@20 0=5 1=6 2=7",
            // Another session, a key without an entry, and an id without a session lose nothing.
            "remove 2 1 -> no entry | 1@10 2@20 0=5 1=6 2=7",
            "remove 1 3 -> no entry | 1@10 2@20 0=5 1=6 2=7",
            "remove 3 1 -> no entry | 1@10 2@20 0=5 1=6 2=7",
            "remove 1 1 -> took 6 | 1@10 2@20 0=5 2=7",
            "remove 1 1 -> no entry | 1@10 2@20 0=5 2=7",
            // Another session takes the slot, and the first one's end leaves what is there.
            "put_at 2 1 8 -> ok | 1@10 2@20 0=5 2=7 3=8",
            "set 1 9 -> the value made at p.rs:1:1 is gone | 1@10 2@20 0=5 2=7 3=8",
            "logout 1 -> ok | 2@20 3=8",
            "remove 2 1 -> took 8 | 2@20",
        ],
    ),
    (
        "none expires",
        &[
            "login 1 10 -> ok | 1@10",
            "login 2 20 -> ok | 1@10 2@20",
            "login 3 10 -> ok | 1@10 2@20 3@10",
            "put 2 7 -> ok | 1@10 2@20 3@10 0=7",
            "expire 10 -> ended 0 | 1@10 2@20 3@10 0=7",
        ],
    ),
    (
        "each second expires",
        &[
            "login 1 10 -> ok | 1@10",
            "login 2 20 -> ok | 1@10 2@20",
            "login 3 10 -> ok | 1@10 2@20 3@10",
            "put 2 7 -> ok | 1@10 2@20 3@10 0=7",
            "expire 11 -> ended 2 | 2@20 0=7",
        ],
    ),
    (
        "one expires beyond the very time",
        &[
            "login 1 10 -> ok | 1@10",
            "login 2 20 -> ok | 1@10 2@20",
            "login 3 10 -> ok | 1@10 2@20 3@10",
            "put 2 7 -> ok | 1@10 2@20 3@10 0=7",
            "expire 20 -> ended 2 | 2@20 0=7",
        ],
    ),
    (
        "all expire",
        &[
            "login 1 10 -> ok | 1@10",
            "login 2 20 -> ok | 1@10 2@20",
            "login 3 10 -> ok | 1@10 2@20 3@10",
            "put 2 7 -> ok | 1@10 2@20 3@10 0=7",
            "expire 21 -> ended 3 |",
        ],
    ),
];

#[test]
fn histories_of_sessions(rt: HostRuntime) {
    for history in HISTORIES {
        play_both::<u64, Told>(&rt, rt.alloc(), &Told(history));
    }
}
