//! Owners: which boxes end with them, and what keeps them from ending.

use crate::runs::Script;
use crate::tables::assert_answers;

const SCRIPTS: [Script; 11] = [
    (
        "a box ends with its owner",
        &[
            "owner -> owner",
            "insert 1 1 -> box 0@1",
            "try_read 2 -> reader",
            "show 3 -> value 1",
            "release 3 -> ok",
            "release 1 -> ok",
            "try_read 2 -> dropped: script:2:1",
        ],
    ),
    // A leaked owner ends nothing. One without boxes is released as well.
    (
        "a box outlives a leaked owner",
        &[
            "owner -> owner",
            "insert 1 hello world -> box 0@1",
            "leak_owner 1 -> ok",
            "owner -> owner",
            "release 4 -> ok",
            "try_read 2 -> reader",
            "show 6 -> value hello world",
            "release 6 -> ok",
        ],
    ),
    // A box of the first owner has the slot of a box of the second. It is gone all the same, and can't
    // disturb the other one's writer.
    (
        "a slot goes from owner to owner",
        &[
            "owner -> owner",
            "insert 1 1 -> box 0@1",
            "release 1 -> ok",
            "owner -> owner",
            "insert 4 2 -> box 0@2",
            "slot #1 -> 0",
            "slot #4 -> 0",
            "try_write 5 -> writer",
            "try_read 2 -> dropped: script:2:1",
            "end 2 -> ok",
            "end 5 -> written: script:8:1",
            "show 8 -> value 2",
            "release 8 -> ok",
            "try_read 5 -> reader",
            "show 14 -> value 2",
            "release 14 -> ok",
            "release 4 -> ok",
            "try_read 5 -> dropped: script:5:1",
        ],
    ),
    // One borrowed box keeps all boxes of the owner alive.
    (
        "a reader keeps an owner",
        &[
            "owner -> owner",
            "insert 1 1 -> box 0@1",
            "insert 1 2 -> box 1@1",
            "try_read 3 -> reader",
            "counts -> slots 2 free 0 retired 0 peak 2 next 2",
            "release 1 -> read:\tscript:4:1",
            "counts -> slots 2 free 0 retired 0 peak 2 next 2",
            "try_read 2 -> reader",
            "show 8 -> value 1",
            "release 8 -> ok",
            "show 4 -> value 2",
            "release 4 -> ok",
            "release 1 -> ok",
            "try_read 2 -> dropped: script:2:1",
            "try_read 3 -> dropped: script:3:1",
        ],
    ),
    // Of several borrowed boxes the error is that of the one that was inserted first, whichever was
    // borrowed first.
    (
        "the first borrowed box is told of",
        &[
            "owner -> owner",
            "insert 1 1 -> box 0@1",
            "insert 1 2 -> box 1@1",
            "try_read 3 -> reader",
            "try_read 2 -> reader",
            "release 1 -> read:\tscript:5:1",
            "release 5 -> ok",
            "release 1 -> read:\tscript:4:1",
            "release 4 -> ok",
            "try_write 3 -> writer",
            "release 1 -> written: script:10:1",
            "try_read 2 -> reader",
            "show 12 -> value 1",
            "release 12 -> ok",
            "release 10 -> ok",
            "try_read 3 -> reader",
            "show 16 -> value 2",
            "release 16 -> ok",
            "release 1 -> ok",
            "try_read 2 -> dropped: script:2:1",
        ],
    ),
    // The boxes end with the last owner value of a record that is released.
    (
        "the last clone ends the boxes",
        &[
            "owner -> owner",
            "insert 1 1 -> box 0@1",
            "clone 1 -> owner",
            "release 1 -> ok",
            "try_read 2 -> reader",
            "show 5 -> value 1",
            "release 5 -> ok",
            "release 3 -> ok",
            "try_read 2 -> dropped: script:2:1",
        ],
    ),
    // A clone that is leaked is never released, so the boxes stay.
    (
        "a leaked clone keeps the boxes",
        &[
            "owner -> owner",
            "insert 1 1 -> box 0@1",
            "clone 1 -> owner",
            "leak_owner 3 -> ok",
            "release 1 -> ok",
            "try_read 2 -> reader",
            "show 6 -> value 1",
            "release 6 -> ok",
        ],
    ),
    // What an owner made through one owner value ends with any other one of its record.
    (
        "clones have one list",
        &[
            "owner -> owner",
            "clone 1 -> owner",
            "insert 2 1 -> box 0@1",
            "release 2 -> ok",
            "try_read 3 -> reader",
            "show 5 -> value 1",
            "release 5 -> ok",
            "release 1 -> ok",
            "try_read 3 -> dropped: script:3:1",
        ],
    ),
    // An owner's box was removed, and its slot has a box without an owner. A reader of that one neither
    // hinders the owner nor is disturbed.
    (
        "an owner leaves the next box of a slot alone",
        &[
            "owner -> owner",
            "insert 1 1 -> box 0@1",
            "insert 1 2 -> box 1@1",
            "end 2 -> ok",
            "leak 3 -> box 0@2",
            "try_read 5 -> reader",
            "release 1 -> ok",
            "try_read 2 -> dropped: script:2:1",
            "try_read 3 -> dropped: script:3:1",
            "show 6 -> value 3",
            "release 6 -> ok",
            "try_read 5 -> reader",
            "show 12 -> value 3",
            "release 12 -> ok",
        ],
    ),
    // A value that is read stays where it is while its owner makes others.
    (
        "a read value stays while others are made",
        &[
            "owner -> owner",
            "insert 1 hello world -> box 0@1",
            "try_read 2 -> reader",
            "insert 1 1 -> box 1@1",
            "show 3 -> value hello world",
            "release 3 -> ok",
            "try_read 4 -> reader",
            "show 7 -> value 1",
            "release 7 -> ok",
            "release 1 -> ok",
            "try_read 2 -> dropped: script:2:1",
        ],
    ),
    (
        "owners come and go",
        &[
            "owner -> owner",
            "owner -> owner",
            "release 1 -> ok",
            "release 2 -> ok",
            "release 1 -> no such",
            "owner -> owner",
            "counts -> slots 0 free 0 retired 0 peak 0 next 3",
        ],
    ),
];

#[test]
fn boxes_of_owners(rt: HostRuntime) {
    assert_answers(&rt, rt.alloc(), &SCRIPTS);
}
