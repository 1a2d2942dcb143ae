//! Sessions: calls that name each other by their places.

use crate::runs::Script;
use crate::tables::{ONE_TICKET, assert_answers, assert_answers_from, assert_run};
use generational_box::LastFirst;

const LISTS: [Script; 1] = [
    // A value is made, read, ended too early, released, ended and read too late; then another is made.
    (
        "a run answers each call in order",
        &[
            "leak 1 -> box 0@1",
            "try_read #0 -> reader",
            "end #0 -> read:\tscript:2:1",
            "release #1 -> ok",
            "end #0 -> ok",
            "try_read #0 -> dropped: script:1:1",
            "leak 2 -> box 0@2",
        ],
    ),
];

const SCRIPTS: [Script; 3] = [
    // Call by call the replies are the same, and the value is seen while its guard is active.
    (
        "calls are answered one by one",
        &[
            "leak 1 -> box 0@1",
            "view 1 -> no such",
            "try_read #0 -> reader",
            "view 1 -> value 1",
            "end #0 -> read:\tscript:3:1",
            "view 1 -> value 1",
            "release #1 -> ok",
            "view 1 -> no such",
            "end #0 -> ok",
            "view 1 -> no such",
            "try_read #0 -> dropped: script:1:1",
            "view 1 -> no such",
            "leak 2 -> box 0@2",
            "view 1 -> no such",
            "view 0 -> no such",
            "view 7 -> no such",
        ],
    ),
    // A place that gave no such thing, a spent guard, and a foreign box with the store's own number.
    // Each such call has a place too, and nothing changes.
    (
        "calls that name no such thing",
        &[
            "twin 2 -> box 0@1",
            "leak 1 -> box 0@1",
            "try_read #0 -> reader",
            "release #1 -> ok",
            "try_read #3 -> no such",
            "view 3 -> no such",
            "try_read #18446744073709551615 -> no such",
            "view 4 -> no such",
            "try_read #1 -> no such",
            "view 5 -> no such",
            "try_read *0 -> no such",
            "view 6 -> no such",
            "end #8 -> no such",
            "view 7 -> no such",
            "end #2 -> no such",
            "view 8 -> no such",
            "end *0 -> no such",
            "view 9 -> no such",
            "release #1 -> no such",
            "view 10 -> no such",
            "release #0 -> no such",
            "view 11 -> no such",
            "release #12 -> no such",
            "view 12 -> no such",
            "try_read #0 -> reader",
            "view 13 -> value 1",
        ],
    ),
    // A foreign box of a store with another number is gone, and ends there with no change.
    (
        "calls that name boxes of another store",
        &[
            "eight 2 -> box 0@1",
            "leak 1 -> box 0@1",
            "try_read 2 -> reader",
            "try_read *0 -> dropped: script:1:1",
            "end *0 -> ok",
            "show 3 -> value 1",
        ],
    ),
];

const WITH_ONE_TICKET: [Script; 1] = [
    // An error of the store itself leaves the active guard.
    (
        "a session without tickets",
        &[
            "leak hello world -> box 0@1",
            "try_read 1 -> reader",
            "try_read 1 -> refused: numbers exhausted",
            "view 1 -> value hello world",
            "view 2 -> no such",
        ],
    ),
];

#[test]
fn calls_by_places(rt: HostRuntime) {
    let alloc = rt.alloc();
    assert_run::<LastFirst>(&rt, alloc, &LISTS);
    assert_answers(&rt, alloc, &SCRIPTS);
    assert_answers_from::<LastFirst>(&rt, alloc, ONE_TICKET, &WITH_ONE_TICKET);
}
