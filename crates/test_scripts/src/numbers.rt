//! Stores whose numbers begin near their ends.

use crate::runs::Script;
use crate::tables::{
    LAST_BUT_ONE, LAST_GENERATION, NO_TICKET, ONE_TICKET, TWO_TICKETS, assert_answers_from,
};
use generational_box::LastFirst;

const AT_THE_LAST_GENERATION: [Script; 2] = [
    // A slot whose cell ends at the last generation is never reused.
    (
        "a slot retires at its last generation",
        &[
            "leak 1 -> box 0@18446744073709551615",
            "end 1 -> ok",
            "leak 2 -> box 1@18446744073709551615",
            "try_read 1 -> dropped: script:1:1",
            "counts -> slots 2 free 0 retired 1 peak 1 next 0",
        ],
    ),
    // Both slots of a shared value and its reference retire.
    (
        "the slots of a shared value retire",
        &[
            "leak_rc a -> box 1@18446744073709551615",
            "end 1 -> ok",
            "counts -> slots 2 free 0 retired 2 peak 2 next 0",
            "leak b -> box 2@18446744073709551615",
            "counts -> slots 3 free 0 retired 2 peak 2 next 0",
        ],
    ),
];

const AT_THE_LAST_BUT_ONE: [Script; 1] = [
    // A slot whose cell ends one generation earlier is used once more.
    (
        "the last generation is used",
        &[
            "leak 1 -> box 0@18446744073709551614",
            "end 1 -> ok",
            "leak 1 -> box 0@18446744073709551615",
            "end 3 -> ok",
            "counts -> slots 1 free 0 retired 1 peak 1 next 0",
            "leak 1 -> box 1@18446744073709551614",
            "counts -> slots 2 free 0 retired 1 peak 1 next 0",
            "end 6 -> ok",
        ],
    ),
];

const WITHOUT_TICKETS: [Script; 2] = [
    // The last number is never given as a ticket. There a read fails, unless the value is gone, and a
    // making or an end isn't.
    (
        "no ticket is left",
        &[
            "leak 1 -> box 0@1",
            "try_read 1 -> refused: numbers exhausted",
            "can_write 1 -> true",
            "write #0 -> refused: numbers exhausted",
            "set 1 2 -> ok",
            "end 1 -> ok",
            "try_read 1 -> dropped: script:1:1",
        ],
    ),
    // With no ticket left there is no owner, but a box.
    (
        "no ticket for an owner",
        &[
            "counts -> slots 0 free 0 retired 0 peak 0 next 18446744073709551615",
            "leak 1 -> box 0@1",
            "owner -> refused: numbers exhausted",
        ],
    ),
];

const WITH_ONE_TICKET: [Script; 3] = [
    (
        "one ticket is left",
        &[
            "leak 1 -> box 0@1",
            "try_read 1 -> reader",
            "release 2 -> ok",
            "try_read 1 -> refused: numbers exhausted",
            "end 1 -> ok",
            "try_read 1 -> dropped: script:1:1",
        ],
    ),
    // The last ticket goes to a reader. Then a read and a write fail, even after the reader's release,
    // and a read of a box whose value was removed fails with that.
    (
        "the last ticket goes to a reader",
        &[
            "leak old -> box 0@1",
            "end 1 -> ok",
            "leak a -> box 0@2",
            "counts -> slots 1 free 0 retired 0 peak 1 next 18446744073709551614",
            "try_read 3 -> reader",
            "try_read 3 -> refused: numbers exhausted",
            "counts -> slots 1 free 0 retired 0 peak 1 next 18446744073709551615",
            "release 5 -> ok",
            "try_write 3 -> refused: numbers exhausted",
            "try_read 1 -> dropped: script:1:1",
            "try_write 1 -> dropped: script:1:1",
        ],
    ),
    // The last ticket goes to an owner. It isn't cloned, but makes boxes, and ends them.
    (
        "the last ticket goes to an owner",
        &[
            "owner -> owner",
            "counts -> slots 0 free 0 retired 0 peak 0 next 18446744073709551615",
            "clone 1 -> refused: numbers exhausted",
            "insert 1 1 -> box 0@1",
            "try_read 4 -> refused: numbers exhausted",
            "release 1 -> ok",
            "try_read 4 -> dropped: script:4:1",
        ],
    ),
];

const WITH_TWO_TICKETS: [Script; 1] = [(
    "two tickets are left",
    &[
        "leak 1 -> box 0@1",
        "try_read 1 -> reader",
        "release 2 -> ok",
        "try_read 1 -> reader",
        "release 4 -> ok",
        "try_read 1 -> refused: numbers exhausted",
        "end 1 -> ok",
        "try_read 1 -> dropped: script:1:1",
    ],
)];

#[test]
fn numbers_near_their_ends(rt: HostRuntime) {
    let alloc = rt.alloc();
    assert_answers_from::<LastFirst>(&rt, alloc, LAST_GENERATION, &AT_THE_LAST_GENERATION);
    assert_answers_from::<LastFirst>(&rt, alloc, LAST_BUT_ONE, &AT_THE_LAST_BUT_ONE);
    assert_answers_from::<LastFirst>(&rt, alloc, NO_TICKET, &WITHOUT_TICKETS);
    assert_answers_from::<LastFirst>(&rt, alloc, ONE_TICKET, &WITH_ONE_TICKET);
    assert_answers_from::<LastFirst>(&rt, alloc, TWO_TICKETS, &WITH_TWO_TICKETS);
}
