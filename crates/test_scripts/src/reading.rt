//! Readers side by side.

use crate::runs::Script;
use crate::tables::assert_answers;

const SCRIPTS: [Script; 5] = [
    // Of three readers the first and the third began at one location. A release takes its own reader
    // away, and the others keep their order.
    (
        "the third reader is released",
        &[
            "leak 5 -> box 0@1",
            "try_read 1 -> reader",
            "try_read 1 -> reader",
            "as 2 try_read 1 -> reader",
            "end 1 -> read:\tscript:2:1\tscript:3:1\tscript:2:1",
            "release 4 -> ok",
            "end 1 -> read:\tscript:2:1\tscript:3:1",
            "show 2 -> value 5",
            "release 2 -> ok",
            "release 3 -> ok",
            "end 1 -> ok",
        ],
    ),
    (
        "the first reader is released",
        &[
            "leak 5 -> box 0@1",
            "try_read 1 -> reader",
            "try_read 1 -> reader",
            "as 2 try_read 1 -> reader",
            "end 1 -> read:\tscript:2:1\tscript:3:1\tscript:2:1",
            "release 2 -> ok",
            "end 1 -> read:\tscript:3:1\tscript:2:1",
            "show 3 -> value 5",
            "release 3 -> ok",
            "release 4 -> ok",
            "end 1 -> ok",
        ],
    ),
    (
        "the second reader is released",
        &[
            "leak 5 -> box 0@1",
            "try_read 1 -> reader",
            "try_read 1 -> reader",
            "as 2 try_read 1 -> reader",
            "end 1 -> read:\tscript:2:1\tscript:3:1\tscript:2:1",
            "release 3 -> ok",
            "end 1 -> read:\tscript:2:1\tscript:2:1",
            "show 2 -> value 5",
            "release 2 -> ok",
            "release 4 -> ok",
            "end 1 -> ok",
        ],
    ),
    // Readers end between others, until the first of them ends, or the last, or most have ended.
    (
        "readers between others are released",
        &[
            "leak 5 -> box 0@1",
            "try_read 1 -> reader",
            "try_read 1 -> reader",
            "try_read 1 -> reader",
            "try_read 1 -> reader",
            "try_read 1 -> reader",
            "try_read 1 -> reader",
            "release 4 -> ok",
            "show 5 -> value 5",
            "end 1 -> read:\tscript:2:1\tscript:3:1\tscript:5:1\tscript:6:1\tscript:7:1",
            "release 3 -> ok",
            "release 2 -> ok",
            "end 1 -> read:\tscript:5:1\tscript:6:1\tscript:7:1",
            "try_read 1 -> reader",
            "try_read 1 -> reader",
            "release 6 -> ok",
            "release 7 -> ok",
            "end 1 -> read:\tscript:5:1\tscript:14:1\tscript:15:1",
            "try_read 1 -> reader",
            "release 14 -> ok",
            "release 15 -> ok",
            "end 1 -> read:\tscript:5:1\tscript:19:1",
            "show 19 -> value 5",
            "release 5 -> ok",
            "release 19 -> ok",
            "end 1 -> ok",
        ],
    ),
    // The guards began in the other order than the boxes, and one box ends while the other is read.
    (
        "guards open their own values",
        &[
            "leak 10 -> box 0@1",
            "leak 20 -> box 1@1",
            "try_read 2 -> reader",
            "try_read 1 -> reader",
            "show 3 -> value 20",
            "show 4 -> value 10",
            "release 3 -> ok",
            "end 2 -> ok",
            "show 4 -> value 10",
            "release 4 -> ok",
        ],
    ),
];

#[test]
fn readers_side_by_side(rt: HostRuntime) {
    assert_answers(&rt, rt.alloc(), &SCRIPTS);
}
