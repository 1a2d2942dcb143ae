//! References: from which boxes they are made, and why that fails.

use crate::runs::Script;
use crate::tables::{LAST_GENERATION, ONE_TICKET, assert_answers, assert_answers_from};
use generational_box::LastFirst;

const SCRIPTS: [Script; 7] = [
    // The error of a value that isn't shared has its location, even while it is read. Its writer's error
    // comes first.
    (
        "own values have no references",
        &[
            "owner -> owner",
            "insert 1 1 -> box 0@1",
            "leak_reference 2 -> dropped: script:2:1",
            "insert_reference 1 2 -> dropped: script:2:1",
            "try_read 2 -> reader",
            "leak_reference 2 -> dropped: script:2:1",
            "insert_reference 1 2 -> dropped: script:2:1",
            "release 5 -> ok",
            "try_write 2 -> writer",
            "leak_reference 2 -> written: script:9:1",
            "insert_reference 1 2 -> written: script:9:1",
            "show 9 -> value 1",
            "counts -> slots 1 free 0 retired 0 peak 1 next 3",
            "release 9 -> ok",
            "release 1 -> ok",
            "counts -> slots 1 free 1 retired 0 peak 1 next 3",
        ],
    ),
    // Neither when the slots are free, nor when a shared value has them again.
    (
        "ended boxes give no references",
        &[
            "owner -> owner",
            "leak_rc 1 -> box 1@1",
            "end 2 -> ok",
            "leak_reference 2 -> dropped: script:2:1",
            "insert_reference 1 2 -> dropped: script:2:1",
            "leak_rc 2 -> box 0@2",
            "leak_reference 2 -> dropped: script:2:1",
            "leak_reference 6 -> box 2@1",
            "counts -> slots 3 free 0 retired 0 peak 3 next 1",
        ],
    ),
    // A reader keeps no reference out.
    (
        "read values have more references",
        &[
            "leak_rc hello world -> box 1@1",
            "try_read 1 -> reader",
            "leak_reference 1 -> box 2@1",
            "show 2 -> value hello world",
            "try_read 3 -> reader",
            "show 5 -> value hello world",
        ],
    ),
    // The error by each reference is the writer's.
    (
        "written values have no more references",
        &[
            "owner -> owner",
            "leak_rc 1 -> box 1@1",
            "leak_reference 2 -> box 2@1",
            "try_write 2 -> writer",
            "leak_reference 2 -> written: script:4:1",
            "leak_reference 3 -> written: script:4:1",
            "insert_reference 1 3 -> written: script:4:1",
            "counts -> slots 3 free 0 retired 0 peak 3 next 2",
            "release 4 -> ok",
            "insert_reference 1 3 -> box 3@1",
        ],
    ),
    // Each has its own id, and the location of the shared value.
    (
        "references are boxes of their own",
        &[
            "leak_rc 1 -> box 1@1",
            "leak_reference 1 -> box 2@1",
            "ptr_eq 1 2 -> false",
            "ptr_eq 2 2 -> true",
            "id 2 -> 2@1",
            "created_at 1 -> script:1:1",
            "created_at 2 -> script:1:1",
            "end 1 -> ok",
            "leak_reference 2 -> box 1@2",
            "created_at 9 -> script:1:1",
        ],
    ),
    // A value that was passed in comes back, and nothing changes.
    (
        "lines that give no such thing",
        &[
            "leak_rc 1 -> box 1@1",
            "owner -> owner",
            "insert_rc #0 2 -> back 2",
            "insert_rc #9 2 -> back 2",
            "insert_reference #0 #0 -> no such",
            "insert_reference #1 #1 -> no such",
            "insert_reference #1 #9 -> no such",
            "leak_reference #1 -> no such",
            "leak_reference #9 -> no such",
            "point_to #0 #1 -> no such",
            "point_to #1 #0 -> no such",
            "point_to #9 #9 -> no such",
            "counts -> slots 2 free 0 retired 0 peak 2 next 1",
            "release_owner #1 -> ok",
            "insert_rc #1 2 -> back 2",
            "insert_reference #1 #0 -> no such",
            "counts -> slots 2 free 0 retired 0 peak 2 next 1",
        ],
    ),
    // A box of a store with another number is gone, with its own location. One of a store with the
    // same number is none of the session.
    (
        "boxes of other stores",
        &[
            "eight 2 -> box 0@1",
            "twin 3 -> box 0@1",
            "owner -> owner",
            "leak_rc 1 -> box 1@1",
            "leak_reference *0 -> dropped: script:1:1",
            "insert_reference #0 *0 -> dropped: script:1:1",
            "point_to #1 *0 -> dropped: script:1:1",
            "point_to *0 #1 -> dropped: script:1:1",
            "point_to *0 *0 -> ok",
            "leak_reference *1 -> no such",
            "insert_reference #0 *1 -> no such",
            "point_to #1 *1 -> no such",
            "point_to *1 #1 -> no such",
            "counts -> slots 2 free 0 retired 0 peak 2 next 1",
            "try_read #1 -> reader",
            "view 11 -> value 1",
        ],
    ),
];

const WITH_ONE_TICKET: [Script; 1] = [
    // No making takes a ticket.
    (
        "references without tickets",
        &[
            "owner -> owner",
            "leak_rc 1 -> box 1@1",
            "leak_reference 2 -> box 2@1",
            "insert_reference 1 3 -> box 3@1",
            "point_to 2 3 -> ok",
            "try_read 4 -> refused: numbers exhausted",
            "release 1 -> ok",
            "end 3 -> ok",
            "end 2 -> ok",
            "counts -> slots 4 free 4 retired 0 peak 4 next 18446744073709551615",
        ],
    ),
];

const AT_THE_LAST_GENERATION: [Script; 1] = [
    // At the last generation each slot has one cell.
    (
        "slots retire with their values",
        &[
            "leak_rc 1 -> box 1@18446744073709551615",
            "leak_reference 1 -> box 2@18446744073709551615",
            "end 1 -> ok",
            "counts -> slots 3 free 0 retired 1 peak 3 next 0",
            "try_read 2 -> reader",
            "show 5 -> value 1",
            "release 5 -> ok",
            "end 2 -> ok",
            "counts -> slots 3 free 0 retired 3 peak 3 next 1",
            "try_read 2 -> dropped: script:1:1",
            "leak_rc 2 -> box 4@18446744073709551615",
            "counts -> slots 5 free 0 retired 3 peak 3 next 1",
            "leak_rc 3 -> box 6@18446744073709551615",
            "point_to 11 13 -> ok",
            "counts -> slots 7 free 0 retired 4 peak 4 next 1",
        ],
    ),
];

#[test]
fn makings_of_references(rt: HostRuntime) {
    let alloc = rt.alloc();
    assert_answers(&rt, alloc, &SCRIPTS);
    assert_answers_from::<LastFirst>(&rt, alloc, ONE_TICKET, &WITH_ONE_TICKET);
    assert_answers_from::<LastFirst>(&rt, alloc, LAST_GENERATION, &AT_THE_LAST_GENERATION);
}
