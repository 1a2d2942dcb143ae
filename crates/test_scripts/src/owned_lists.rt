//! Sessions: calls of owners, and questions about boxes.

use crate::runs::Script;
use crate::tables::{ONE_TICKET, assert_answers, assert_answers_from, assert_run};
use generational_box::LastFirst;

const LISTS: [Script; 2] = [
    // An owner is made, inserts a value and is cloned. The value is read, and ends with the second
    // release, which fails once: the owner stays at its place, and inserts there.
    (
        "an owners boxes end with its last value",
        &[
            "owner -> owner",
            "insert #0 1 -> box 0@1",
            "clone #0 -> owner",
            "release_owner #0 -> ok",
            "try_read #1 -> reader",
            "release_owner #2 -> read:\tscript:5:1",
            "insert #2 2 -> box 1@1",
            "release #4 -> ok",
            "release_owner #2 -> ok",
            "try_read #1 -> dropped: script:2:1",
            "try_read #6 -> dropped: script:7:1",
        ],
    ),
    // Some calls access no store: they work for removed boxes and for those of other stores.
    (
        "questions about boxes",
        &[
            "eight 3 -> box 0@1",
            "twin 4 -> box 0@1",
            "leak 1 -> box 0@1",
            "end #0 -> ok",
            "leak 2 -> box 0@2",
            "ptr_eq #0 #0 -> true",
            "ptr_eq #0 #2 -> false",
            "ptr_eq *0 #0 -> false",
            "id #0 -> 0@1",
            "id #2 -> 0@2",
            "slot #2 -> 0",
            "slot *0 -> 0",
            "created_at #0 -> script:3:1",
            "created_at *0 -> script:1:1",
            "ptr_eq #0 #1 -> no such",
            "ptr_eq #1 #0 -> no such",
            "id #1 -> no such",
            "slot #99 -> no such",
            "created_at *1 -> no such",
            "ptr_eq #0 *1 -> no such",
        ],
    ),
];

const SCRIPTS: [Script; 2] = [
    // A leaked owner's boxes stay, also when the other owner values are released.
    (
        "boxes of a leaked owner stay",
        &[
            "owner -> owner",
            "insert #0 1 -> box 0@1",
            "clone #0 -> owner",
            "leak_owner #2 -> ok",
            "release_owner #0 -> ok",
            "try_read #1 -> reader",
            "view 5 -> value 1",
        ],
    ),
    // Places that hold no owner: not given yet, spent by a release or a leak, or of another thing. A
    // value that was passed in comes back.
    (
        "calls of owners that are none",
        &[
            "leak 1 -> box 0@1",
            "owner -> owner",
            "release_owner #1 -> ok",
            "owner -> owner",
            "leak_owner #3 -> ok",
            "insert #0 5 -> back 5",
            "clone #0 -> no such",
            "release_owner #0 -> no such",
            "leak_owner #0 -> no such",
            "insert #1 5 -> back 5",
            "clone #1 -> no such",
            "release_owner #1 -> no such",
            "leak_owner #1 -> no such",
            "insert #3 5 -> back 5",
            "clone #3 -> no such",
            "release_owner #3 -> no such",
            "leak_owner #3 -> no such",
            "insert #9 5 -> back 5",
            "clone #9 -> no such",
            "release_owner #9 -> no such",
            "leak_owner #9 -> no such",
            "insert #18446744073709551615 5 -> back 5",
            "clone #18446744073709551615 -> no such",
            "release_owner #18446744073709551615 -> no such",
            "leak_owner #18446744073709551615 -> no such",
            "release #3 -> no such",
        ],
    ),
];

const WITH_ONE_TICKET: [Script; 1] = [
    // At the end of tickets neither an owner nor a clone is given, and an insertion is.
    (
        "owners without tickets",
        &[
            "owner -> owner",
            "owner -> refused: numbers exhausted",
            "clone 1 -> refused: numbers exhausted",
            "insert 1 1 -> box 0@1",
            "release 1 -> ok",
        ],
    ),
];

#[test]
fn calls_of_owners(rt: HostRuntime) {
    let alloc = rt.alloc();
    assert_run::<LastFirst>(&rt, alloc, &LISTS);
    assert_answers(&rt, alloc, &SCRIPTS);
    assert_answers_from::<LastFirst>(&rt, alloc, ONE_TICKET, &WITH_ONE_TICKET);
}
