//! What a store counts, call by call.

use crate::runs::Script;
use crate::tables::{LAST_BUT_ONE, assert_answers, assert_answers_from};
use generational_box::LastFirst;

const SCRIPTS: [Script; 2] = [
    // Neither a making nor an end takes a ticket, nor does a read that fails.
    (
        "makings and ends",
        &[
            "counts -> slots 0 free 0 retired 0 peak 0 next 0",
            "leak 1 -> box 0@1",
            "counts -> slots 1 free 0 retired 0 peak 1 next 0",
            "leak 2 -> box 1@1",
            "counts -> slots 2 free 0 retired 0 peak 2 next 0",
            "end 2 -> ok",
            "counts -> slots 2 free 1 retired 0 peak 2 next 0",
            "end 2 -> ok",
            "try_read 2 -> dropped: script:2:1",
            "counts -> slots 2 free 1 retired 0 peak 2 next 0",
            "leak 3 -> box 0@2",
            "counts -> slots 2 free 0 retired 0 peak 2 next 0",
            "leak 4 -> box 2@1",
            "counts -> slots 3 free 0 retired 0 peak 3 next 0",
            "end 4 -> ok",
            "counts -> slots 3 free 1 retired 0 peak 3 next 0",
        ],
    ),
    // Each owner, each clone and each borrow takes a ticket, and nothing gives one back.
    (
        "owners and borrows",
        &[
            "owner -> owner",
            "counts -> slots 0 free 0 retired 0 peak 0 next 1",
            "insert 1 1 -> box 0@1",
            "counts -> slots 1 free 0 retired 0 peak 1 next 1",
            "insert 1 2 -> box 1@1",
            "counts -> slots 2 free 0 retired 0 peak 2 next 1",
            "clone 1 -> owner",
            "counts -> slots 2 free 0 retired 0 peak 2 next 2",
            "try_read 3 -> reader",
            "counts -> slots 2 free 0 retired 0 peak 2 next 3",
            "release 7 -> ok",
            "release 1 -> read:\tscript:9:1",
            "counts -> slots 2 free 0 retired 0 peak 2 next 3",
            "release 9 -> ok",
            "counts -> slots 2 free 0 retired 0 peak 2 next 3",
            "try_write 5 -> writer",
            "counts -> slots 2 free 0 retired 0 peak 2 next 4",
            "end 5 -> written: script:16:1",
            "release 16 -> ok",
            "counts -> slots 2 free 0 retired 0 peak 2 next 4",
            "release 1 -> ok",
            "counts -> slots 2 free 2 retired 0 peak 2 next 4",
            "leak 3 -> box 1@2",
            "counts -> slots 2 free 1 retired 0 peak 2 next 4",
        ],
    ),
];

const AT_THE_LAST_BUT_ONE: [Script; 1] = [
    // Slots begin at the last generation but one, so each has two cells. In the end there are just as
    // many slots as the peak and the retired ones together.
    (
        "retired slots",
        &[
            "owner -> owner",
            "insert 1 1 -> box 0@18446744073709551614",
            "counts -> slots 1 free 0 retired 0 peak 1 next 1",
            "end 2 -> ok",
            "counts -> slots 1 free 1 retired 0 peak 1 next 1",
            "insert 1 2 -> box 0@18446744073709551615",
            "leak 3 -> box 1@18446744073709551614",
            "counts -> slots 2 free 0 retired 0 peak 2 next 1",
            "release 1 -> ok",
            "counts -> slots 2 free 0 retired 1 peak 2 next 1",
            "end 7 -> ok",
            "counts -> slots 2 free 1 retired 1 peak 2 next 1",
            "leak 4 -> box 1@18446744073709551615",
            "leak 5 -> box 2@18446744073709551614",
            "counts -> slots 3 free 0 retired 1 peak 2 next 1",
            "end 13 -> ok",
            "counts -> slots 3 free 0 retired 2 peak 2 next 1",
            "leak 6 -> box 3@18446744073709551614",
            "counts -> slots 4 free 0 retired 2 peak 2 next 1",
        ],
    ),
];

#[test]
fn what_a_store_counts(rt: HostRuntime) {
    let alloc = rt.alloc();
    assert_answers(&rt, alloc, &SCRIPTS);
    assert_answers_from::<LastFirst>(&rt, alloc, LAST_BUT_ONE, &AT_THE_LAST_BUT_ONE);
}
