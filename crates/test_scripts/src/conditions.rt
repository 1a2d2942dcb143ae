//! Reads, writes and sets under their conditions, and the conditions as calls.

use crate::runs::Script;
use crate::tables::assert_answers;

const SCRIPTS: [Script; 2] = [
    // Under readers a value may be read and not written, under a writer neither, and gone neither.
    (
        "a session asks conditions",
        &[
            "leak a -> box 0@1",
            "read #0 -> reader",
            "read #0 -> reader",
            "write #0 -> unready",
            "set #0 b -> unready b",
            "release #1 -> ok",
            "release #2 -> ok",
            "can_write #0 -> true",
            "write #0 -> writer",
            "can_read #0 -> false",
            "read #0 -> unready",
            "set #0 c -> unready c",
            "release #8 -> ok",
            "set #0 d -> ok",
            "read #0 -> reader",
            "view 14 -> value d",
            "release #14 -> ok",
            "end #0 -> ok",
            "read #0 -> unready",
            "set #0 e -> unready e",
            "can_read #0 -> false",
            "can_write #0 -> false",
        ],
    ),
    // A box of another store meets no condition, and one of this store's number is none at all.
    (
        "conditions of strangers",
        &[
            "leak a -> box 0@1",
            "eight b -> box 0@1",
            "twin c -> box 0@1",
            "set *0 d -> unready d",
            "read *0 -> unready",
            "can_read *0 -> false",
            "set *1 e -> back e",
            "write *1 -> no such",
            "can_write *1 -> no such",
        ],
    ),
];

#[test]
fn calls_under_conditions(rt: HostRuntime) {
    assert_answers(&rt, rt.alloc(), &SCRIPTS);
}
