//! Histories of documents, as rows: each is carried out once with each order of free slots.

use crate::document_acts::Draft;
use crate::fresh::{Scene, play_both};
use crate::rows::{History, carry_out_all};
use generational_box::Storage;
use std::alloc::Global;
use std::process::Abort;

/// A history of a document over a new store.
#[derive(Drop)]
struct Told(History);

impl Scene<u32> for Told {
    fn play<R: Abort, S: Storage<u32> + Drop>(&self, rt: &R, alloc: Global, store: S) {
        let mut subject = Draft::new(rt, alloc, store);
        let (name, rows) = self.0;
        carry_out_all(rt, alloc, &mut subject, name, rows);
    }
}

const HISTORIES: [History; 5] = [
    (
        "a heading is exchanged on each page",
        &[
            // The place 0 is the heading, 1 and 2 are pages.
            "add 10 -> ok | 0=10",
            "add 1 -> ok | 0=10 1=1",
            "add 2 -> ok | 0=10 1=1 2=2",
            "append 1 0 -> ok | 0=10 1=1(0) 2=2",
            "append 2 0 -> ok | 0=10 1=1(0) 2=2(0)",
            "add 20 -> ok | 0=10 1=1(0) 2=2(0) 3=20",
            "exchange 0 3 -> ok | 0=20 1=1(0) 2=2(0) 3=20",
            // The new part lives on by the heading's place.
            "remove 3 -> ok | 0=20 1=1(0) 2=2(0)",
            "exchange 0 3 -> the value made at d.rs:1:1 is gone | 0=20 1=1(0) 2=2(0)",
            "remove 0 -> ok | 1=1(0) 2=2(0)",
            "append 1 0 -> the value made at d.rs:1:1 is gone | 1=1(0) 2=2(0)",
        ],
    ),
    (
        "what is set shows at each place",
        &[
            "add 5 -> ok | 0=5",
            "repeat 0 -> ok | 0=5 1=5",
            "add 8 -> ok | 0=5 1=5 2=8",
            "append 1 2 -> ok | 0=5(2) 1=5(2) 2=8",
            "append 0 2 -> ok | 0=5(2 2) 1=5(2 2) 2=8",
            "set 0 6 -> ok | 0=6(2 2) 1=6(2 2) 2=8",
            // The part lives on by its second place.
            "remove 0 -> ok | 1=6(2 2) 2=8",
            "repeat 0 -> the value made at d.rs:1:1 is gone | 1=6(2 2) 2=8",
            "remove 1 -> ok | 2=8",
            "set 1 9 -> the value made at d.rs:1:1 is gone | 2=8",
        ],
    ),
    (
        "a place that is gone reads no later part",
        &[
            "add 1 -> ok | 0=1",
            "remove 0 -> ok |",
            // The free slots are taken again.
            "add 2 -> ok | 1=2",
            "remove 0 -> the value made at d.rs:1:1 is gone | 1=2",
            "append 0 1 -> the value made at d.rs:1:1 is gone | 1=2",
            // A part may stand below itself.
            "append 1 1 -> ok | 1=2(1)",
            "exchange 1 1 -> ok | 1=2(1)",
            "remove 1 -> ok |",
        ],
    ),
    // Children that are inserted, taken out, and end.
    (
        "children come and go",
        &[
            "add 1 -> ok | 0=1",
            "repeat 0 -> ok | 0=1 1=1",
            "add 2 -> ok | 0=1 1=1 2=2",
            // The children are those of both places of a part.
            "insert 0 0 2 -> ok | 0=1(2) 1=1(2) 2=2",
            "insert 1 0 0 -> ok | 0=1(0 2) 1=1(0 2) 2=2",
            "insert 0 3 2 -> the index is past the children | 0=1(0 2) 1=1(0 2) 2=2",
            "insert 0 2 1 -> ok | 0=1(0 2 1) 1=1(0 2 1) 2=2",
            "take_child 0 3 -> the index is past the children | 0=1(0 2 1) 1=1(0 2 1) 2=2",
            "take_child 0 2 -> took 1 | 0=1(0 2) 1=1(0 2) 2=2",
            "update 1 6 -> ok | 0=7(0 2) 1=7(0 2) 2=2",
            // A child that went is listed until it is cleared away.
            "remove 2 -> ok | 0=7(0 2) 1=7(0 2)",
            "clear_gone 1 -> ok | 0=7(0) 1=7(0)",
            "insert 0 0 2 -> the value made at d.rs:1:1 is gone | 0=7(0) 1=7(0)",
            "update 2 1 -> the value made at d.rs:1:1 is gone | 0=7(0) 1=7(0)",
            "clear_gone 2 -> the value made at d.rs:1:1 is gone | 0=7(0) 1=7(0)",
            "take_child 1 0 -> took 0 | 0=7 1=7",
        ],
    ),
    (
        "what is below a place is kept",
        &[
            // The place 0 is a book, 1 and 2 are pages, and 3 is a heading of both.
            "add 9 -> ok | 0=9",
            "add 1 -> ok | 0=9 1=1",
            "add 2 -> ok | 0=9 1=1 2=2",
            "add 3 -> ok | 0=9 1=1 2=2 3=3",
            "append 0 1 -> ok | 0=9(1) 1=1 2=2 3=3",
            "append 1 3 -> ok | 0=9(1) 1=1(3) 2=2 3=3",
            "append 2 3 -> ok | 0=9(1) 1=1(3) 2=2(3) 3=3",
            // The second page is below itself, and the heading has a place on no page.
            "append 2 2 -> ok | 0=9(1) 1=1(3) 2=2(3 2) 3=3",
            "repeat 3 -> ok | 0=9(1) 1=1(3) 2=2(3 2) 3=3 4=3",
            "retain_below 0 -> ok | 0=9(1) 1=1(3) 3=3",
            "set 3 4 -> ok | 0=9(1) 1=1(3) 3=4",
            // A slot of a removed child has a place that isn't below.
            "remove 3 -> ok | 0=9(1) 1=1(3)",
            "add 5 -> ok | 0=9(1) 1=1(3) 5=5",
            "retain_below 3 -> the value made at d.rs:1:1 is gone | 0=9(1) 1=1(3) 5=5",
            "retain_below 0 -> ok | 0=9(1) 1=1(3)",
            "retain_below 1 -> ok | 1=1(3)",
        ],
    ),
];

#[test]
fn histories_of_documents(rt: HostRuntime) {
    for history in HISTORIES {
        play_both::<u32, Told>(&rt, rt.alloc(), &Told(history));
    }
}
