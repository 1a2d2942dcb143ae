//! The order in which slots are taken and freed where values are shared. The store takes the slot
//! that was freed last.

use crate::runs::Script;
use crate::tables::assert_answers;

const SCRIPTS: [Script; 7] = [
    // The slot that was freed last goes to the value, and the next one to its reference.
    (
        "a shared value takes its slot before its reference",
        &[
            "leak_rc a -> box 1@1",
            "leak b -> box 2@1",
            "leak c -> box 3@1",
            "end 3 -> ok",
            "end 2 -> ok",
            "leak_rc d -> box 3@2",
            "leak e -> box 4@1",
            "end 6 -> ok",
            "leak f -> box 3@3",
        ],
    ),
    (
        "one free slot goes to the shared value",
        &[
            "leak a -> box 0@1",
            "end 1 -> ok",
            "leak_rc b -> box 1@1",
            "end 3 -> ok",
            "leak c -> box 1@2",
            "leak d -> box 0@3",
        ],
    ),
    (
        "a shared value is freed before its last reference",
        &[
            "leak_rc a -> box 1@1",
            "end 1 -> ok",
            "leak b -> box 1@2",
            "leak c -> box 0@2",
            "end 3 -> ok",
            "end 4 -> ok",
            "leak_rc d -> box 1@3",
            "leak_reference 7 -> box 2@1",
            "end 7 -> ok",
            "leak e -> box 1@4",
            "end 8 -> ok",
            "leak f -> box 2@2",
            "leak g -> box 0@4",
        ],
    ),
    // The first value ends with the second reference to it, and its slot is freed before that one.
    (
        "an owners names end in the order of its list",
        &[
            "owner -> owner",
            "insert_rc 1 a -> box 1@1",
            "insert 1 b -> box 2@1",
            "insert_reference 1 2 -> box 3@1",
            "insert_rc 1 c -> box 5@1",
            "release 1 -> ok",
            "leak d -> box 5@2",
            "leak d -> box 4@2",
            "leak d -> box 3@2",
            "leak d -> box 0@2",
            "leak d -> box 2@2",
            "leak d -> box 1@2",
            "leak d -> box 6@1",
        ],
    ),
    (
        "an owner frees references to others values",
        &[
            "owner -> owner",
            "leak_rc a -> box 1@1",
            "insert_reference 1 2 -> box 2@1",
            "insert 1 b -> box 3@1",
            "release 1 -> ok",
            "leak c -> box 3@2",
            "leak d -> box 2@2",
            "leak e -> box 4@1",
            "try_read 2 -> reader",
            "show 9 -> value a",
        ],
    ),
    // The new value ends with the other of its references.
    (
        "pointing elsewhere frees the old value alone",
        &[
            "leak_rc old -> box 1@1",
            "leak_rc new -> box 3@1",
            "point_to 1 2 -> ok",
            "leak a -> box 0@2",
            "leak b -> box 4@1",
            "end 1 -> ok",
            "leak c -> box 1@2",
            "end 2 -> ok",
            "leak d -> box 3@2",
            "leak e -> box 2@2",
        ],
    ),
    (
        "a reference takes the slot that was freed last",
        &[
            "leak_rc a -> box 1@1",
            "leak b -> box 2@1",
            "leak c -> box 3@1",
            "end 2 -> ok",
            "end 3 -> ok",
            "leak_reference 1 -> box 3@2",
            "leak_reference 1 -> box 2@2",
            "leak_reference 1 -> box 4@1",
        ],
    ),
];

#[test]
fn slots_of_shared_values(rt: HostRuntime) {
    assert_answers(&rt, rt.alloc(), &SCRIPTS);
}
