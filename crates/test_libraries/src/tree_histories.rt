//! Histories of trees, as rows: each is carried out once with each order of free slots.

use crate::fresh::{Scene, play_both};
use crate::rows::{History, carry_out_all};
use crate::tree_acts::Grove;
use generational_box::Storage;
use std::alloc::Global;
use std::process::Abort;

/// A history of a tree over a new store.
#[derive(Drop)]
struct Told(History);

impl Scene<u64> for Told {
    fn play<R: Abort, S: Storage<u64> + Drop>(&self, rt: &R, alloc: Global, store: S) {
        let mut subject = Grove::new(rt, alloc, store);
        let (name, rows) = self.0;
        carry_out_all(rt, alloc, &mut subject, name, rows);
    }
}

const HISTORIES: [History; 5] = [
    (
        "a subtree goes level by level",
        &[
            "add_root 1 -> ok | 0=1",
            "add_child 0 2 -> ok | 0=1(1) 1=2<0",
            "add_child 1 3 -> ok | 0=1(1) 1=2<0(2) 2=3<1",
            "add_child 0 4 -> ok | 0=1(1 3) 1=2<0(2) 2=3<1 3=4<0",
            // Node 1 goes, with node 2 below it. Its sibling stays.
            "remove_subtree 1 -> removed 1 2 | 0=1(3) 3=4<0",
            "remove_subtree 2 -> the value made at t.rs:2:1 is gone | 0=1(3) 3=4<0",
            "add_child 1 9 -> the value made at t.rs:1:1 is gone | 0=1(3) 3=4<0",
            // A free slot is taken again. The stale handles read nothing of the new node.
            "add_child 3 5 -> ok | 0=1(3) 3=4<0(4) 4=5<3",
            "set 1 9 -> the value made at t.rs:1:1 is gone | 0=1(3) 3=4<0(4) 4=5<3",
            "remove_subtree 0 -> removed 0 3 4 |",
        ],
    ),
    (
        "a node moves with all below it",
        &[
            "add_root 1 -> ok | 0=1",
            "add_child 0 2 -> ok | 0=1(1) 1=2<0",
            "add_child 1 3 -> ok | 0=1(1) 1=2<0(2) 2=3<1",
            // No node is moved below itself, at once or over two steps.
            "move_to 0 0 -> the node would be below itself | 0=1(1) 1=2<0(2) 2=3<1",
            "move_to 0 2 -> the node would be below itself | 0=1(1) 1=2<0(2) 2=3<1",
            "add_root 4 -> ok | 0=1(1) 1=2<0(2) 2=3<1 3=4",
            "move_to 1 3 -> ok | 0=1 1=2<3(2) 2=3<1 3=4(1)",
            // A root moves, and the other order is no cycle any more.
            "move_to 0 2 -> ok | 0=1<2 1=2<3(2) 2=3<1(0) 3=4(1)",
            "remove_subtree 3 -> removed 3 1 2 0 |",
            "move_to 3 0 -> the value made at t.rs:3:1 is gone |",
        ],
    ),
    // Five children, of which the one in the middle goes, then the first, then the last.
    (
        "children that are left keep their order",
        &[
            "add_root 0 -> ok | 0=0",
            "add_child 0 1 -> ok | 0=0(1) 1=1<0",
            "add_child 0 2 -> ok | 0=0(1 2) 1=1<0 2=2<0",
            "add_child 0 3 -> ok | 0=0(1 2 3) 1=1<0 2=2<0 3=3<0",
            "add_child 0 4 -> ok | 0=0(1 2 3 4) 1=1<0 2=2<0 3=3<0 4=4<0",
            "add_child 0 5 -> ok | 0=0(1 2 3 4 5) 1=1<0 2=2<0 3=3<0 4=4<0 5=5<0",
            "remove_subtree 3 -> removed 3 | 0=0(1 2 4 5) 1=1<0 2=2<0 4=4<0 5=5<0",
            "remove_subtree 1 -> removed 1 | 0=0(2 4 5) 2=2<0 4=4<0 5=5<0",
            "remove_subtree 5 -> removed 5 | 0=0(2 4) 2=2<0 4=4<0",
        ],
    ),
    (
        "a node moves behind its siblings",
        &[
            "add_root 1 -> ok | 0=1",
            "add_child 0 2 -> ok | 0=1(1) 1=2<0",
            "add_child 0 3 -> ok | 0=1(1 2) 1=2<0 2=3<0",
            "set 1 5 -> ok | 0=1(1 2) 1=5<0 2=3<0",
            "move_to 1 0 -> ok | 0=1(2 1) 1=5<0 2=3<0",
            "remove_subtree 2 -> removed 2 | 0=1(1) 1=5<0",
            "move_to 1 2 -> the value made at t.rs:2:1 is gone | 0=1(1) 1=5<0",
        ],
    ),
    // Children that come before, after, first and last, then go about among themselves.
    (
        "children are put at spots",
        &[
            "add_root 1 -> ok | 0=1",
            "add_at before 0 9 -> the node made at t.rs:0:1 has no parent | 0=1",
            "add_at first_of 0 2 -> ok | 0=1(1) 1=2<0",
            "add_at before 1 3 -> ok | 0=1(2 1) 1=2<0 2=3<0",
            "add_at after 2 4 -> ok | 0=1(2 3 1) 1=2<0 2=3<0 3=4<0",
            "move_at 1 before 3 -> ok | 0=1(2 1 3) 1=2<0 2=3<0 3=4<0",
            "move_at 2 after 3 -> ok | 0=1(1 3 2) 1=2<0 2=3<0 3=4<0",
            // A node is moved beside a node that is it, or is below it.
            "move_at 2 after 2 -> the node would be below itself | 0=1(1 3 2) 1=2<0 2=3<0 3=4<0",
            "move_at 1 before 0 -> the node made at t.rs:0:1 has no parent | 0=1(1 3 2) 1=2<0 2=3<0 3=4<0",
            "move_at 2 first_of 3 -> ok | 0=1(1 3) 1=2<0 2=3<3 3=4<0(2)",
            "detach 3 -> ok | 0=1(1) 1=2<0 2=3<3 3=4(2)",
            "move_at 2 last_of 0 -> ok | 0=1(1 2) 1=2<0 2=3<0 3=4",
            "remove_subtree 1 -> removed 1 | 0=1(2) 2=3<0 3=4",
            "move_at 2 after 1 -> the value made at t.rs:1:1 is gone | 0=1(2) 2=3<0 3=4",
            "update 2 5 -> ok | 0=1(2) 2=8<0 3=4",
            "update 1 5 -> the value made at t.rs:1:1 is gone | 0=1(2) 2=8<0 3=4",
            "add_at first_of 1 9 -> the value made at t.rs:1:1 is gone | 0=1(2) 2=8<0 3=4",
        ],
    ),
];

#[test]
fn histories_of_trees(rt: HostRuntime) {
    for history in HISTORIES {
        play_both::<u64, Told>(&rt, rt.alloc(), &Told(history));
    }
}
