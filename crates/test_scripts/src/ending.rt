//! Boxes that are read and removed, and slots that are reused.

use crate::runs::Script;
use crate::tables::assert_answers;

const SCRIPTS: [Script; 4] = [
    // Nothing is removed while it is read. Then the value is gone forever, even once its slot has another
    // one.
    (
        "a value ends once its reader is gone",
        &[
            "leak 1 -> box 0@1",
            "try_read 1 -> reader",
            "end 1 -> read:\tscript:2:1",
            "show 2 -> value 1",
            "release 2 -> ok",
            "end 1 -> ok",
            "try_read 1 -> dropped: script:1:1",
            "leak 2 -> box 0@2",
            "try_read 1 -> dropped: script:1:1",
        ],
    ),
    // Free slots are taken before a new one is made, each under its next generation.
    (
        "slots are used again",
        &[
            "leak 1 -> box 0@1",
            "leak 2 -> box 1@1",
            "end 1 -> ok",
            "end 2 -> ok",
            "leak 1 -> box 1@2",
            "leak 2 -> box 0@2",
            "end 5 -> ok",
            "end 6 -> ok",
            "leak 1 -> box 0@3",
            "leak 2 -> box 1@3",
            "end 9 -> ok",
            "end 10 -> ok",
            "leak 3 -> box 1@4",
            "leak 4 -> box 0@4",
            "leak 5 -> box 2@1",
        ],
    ),
    // An owner's boxes end from the first to the last: so the slot of the last one is taken first.
    (
        "an owners slots are freed in order",
        &[
            "owner -> owner",
            "insert 1 0 -> box 0@1",
            "insert 1 1 -> box 1@1",
            "insert 1 2 -> box 2@1",
            "release 1 -> ok",
            "leak 4 -> box 2@2",
            "leak 4 -> box 1@2",
            "leak 4 -> box 0@2",
        ],
    ),
    // A box is `Copy` and keeps nothing alive: each copy reads the value, calls on each fail once it is
    // gone, and none removes the value that has the slot by then.
    (
        "a box outlives its value",
        &[
            "leak hello world -> box 0@1",
            "try_read 1 -> reader",
            "show 2 -> value hello world",
            "release 2 -> ok",
            "end 1 -> ok",
            "try_read 1 -> dropped: script:1:1",
            "leak  -> box 0@2",
            "end 1 -> ok",
            "try_read 1 -> dropped: script:1:1",
            "try_read 7 -> reader",
            "show 10 -> value ",
            "release 10 -> ok",
        ],
    ),
];

#[test]
fn boxes_that_end(rt: HostRuntime) {
    assert_answers(&rt, rt.alloc(), &SCRIPTS);
}
