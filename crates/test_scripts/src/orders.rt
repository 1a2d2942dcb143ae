//! The two orders in which free slots are taken: the one that was freed last is first, or the one
//! that has been free for the longest.

use crate::runs::Script;
use crate::tables::{FIRST, assert_answers, assert_answers_from, assert_run};
use generational_box::{LastFirst, OldestFirst};

const SCRIPTS: [Script; 1] = [(
    "the slot that was freed last is first",
    &[
        "leak a -> box 0@1",
        "leak b -> box 1@1",
        "leak c -> box 2@1",
        "end 2 -> ok",
        "end 1 -> ok",
        "end 3 -> ok",
        "leak d -> box 2@2",
        "leak e -> box 0@2",
        "leak f -> box 1@2",
        "leak g -> box 3@1",
    ],
)];

const OLDEST_FIRST: [Script; 1] = [(
    "the slot that was freed first is first",
    &[
        "leak a -> box 0@1",
        "leak b -> box 1@1",
        "leak c -> box 2@1",
        "end 2 -> ok",
        "end 1 -> ok",
        "end 3 -> ok",
        "leak d -> box 1@2",
        "end 7 -> ok",
        "leak e -> box 0@2",
        "leak f -> box 2@2",
        "leak g -> box 1@3",
        "leak h -> box 3@1",
    ],
)];

const LISTS: [Script; 1] = [
    // Ids aside, both stores give the same replies to the list.
    (
        "one list over either order",
        &[
            "leak a -> box 0@1",
            "leak b -> box 1@1",
            "end #0 -> ok",
            "end #1 -> ok",
            "leak c -> box 1@2",
        ],
    ),
];

const LISTS_OLDEST_FIRST: [Script; 1] = [(
    "one list over either order",
    &[
        "leak a -> box 0@1",
        "leak b -> box 1@1",
        "end #0 -> ok",
        "end #1 -> ok",
        "leak c -> box 0@2",
    ],
)];

#[test]
fn either_order_of_free_slots(rt: HostRuntime) {
    let alloc = rt.alloc();
    assert_answers(&rt, alloc, &SCRIPTS);
    assert_answers_from::<OldestFirst>(&rt, alloc, FIRST, &OLDEST_FIRST);
    assert_run::<LastFirst>(&rt, alloc, &LISTS);
    assert_run::<OldestFirst>(&rt, alloc, &LISTS_OLDEST_FIRST);
}
