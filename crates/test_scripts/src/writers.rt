//! Writers: who keeps them out, whom they keep out, and what they leave in the cell.

use crate::runs::Script;
use crate::tables::assert_answers;

const SCRIPTS: [Script; 6] = [
    (
        "a writer keeps readers and writers out",
        &[
            "leak 1 -> box 0@1",
            "try_write 1 -> writer",
            "try_read 1 -> written: script:2:1",
            "try_write 1 -> written: script:2:1",
            "show 2 -> value 1",
            "release 2 -> ok",
            "try_read 1 -> reader",
            "show 7 -> value 1",
            "release 7 -> ok",
        ],
    ),
    (
        "each of two readers keeps writers out",
        &[
            "leak 1 -> box 0@1",
            "as 1 try_read 1 -> reader",
            "as 1 try_read 1 -> reader",
            "try_write 1 -> read:\tscript:1:1\tscript:1:1",
            "release 3 -> ok",
            "try_write 1 -> read:\tscript:1:1",
            "release 2 -> ok",
            "try_write 1 -> writer",
            "release 8 -> ok",
        ],
    ),
    // Two of the three began at one place. The others keep their order, whichever is released.
    (
        "readers are told in order",
        &[
            "leak 1 -> box 0@1",
            "as 1 try_read 1 -> reader",
            "try_read 1 -> reader",
            "as 1 try_read 1 -> reader",
            "try_write 1 -> read:\tscript:1:1\tscript:3:1\tscript:1:1",
            "release 4 -> ok",
            "try_write 1 -> read:\tscript:1:1\tscript:3:1",
            "release 2 -> ok",
            "release 3 -> ok",
        ],
    ),
    (
        "readers are told in order, again",
        &[
            "leak 1 -> box 0@1",
            "as 1 try_read 1 -> reader",
            "try_read 1 -> reader",
            "as 1 try_read 1 -> reader",
            "try_write 1 -> read:\tscript:1:1\tscript:3:1\tscript:1:1",
            "release 2 -> ok",
            "try_write 1 -> read:\tscript:3:1\tscript:1:1",
            "release 4 -> ok",
            "release 3 -> ok",
        ],
    ),
    (
        "a writer leaves what it put in",
        &[
            "leak 1 -> box 0@1",
            "try_write 1 -> writer",
            "replace 2 3 -> old 1",
            "show 2 -> value 3",
            "release 2 -> ok",
            "try_read 1 -> reader",
            "show 6 -> value 3",
            "release 6 -> ok",
            "try_write 1 -> writer",
            "replace 9 5 -> old 3",
            "release 9 -> ok",
            "try_read 1 -> reader",
            "show 12 -> value 5",
            "release 12 -> ok",
        ],
    ),
    // A value that comes to a writer too late comes back.
    (
        "a session writes",
        &[
            "leak 1 -> box 0@1",
            "try_write 1 -> writer",
            "try_read 1 -> written: script:2:1",
            "try_write 1 -> written: script:2:1",
            "replace 2 3 -> old 1",
            "show 2 -> value 3",
            "release 2 -> ok",
            "replace #1 4 -> back 4",
            "as 1 try_read 1 -> reader",
            "try_write 1 -> read:\tscript:1:1",
            "show 9 -> value 3",
        ],
    ),
];

#[test]
fn writers_and_others(rt: HostRuntime) {
    assert_answers(&rt, rt.alloc(), &SCRIPTS);
}
