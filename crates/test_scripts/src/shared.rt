//! Shared values: what keeps them alive, and what keeps them from ending.

use crate::runs::Script;
use crate::tables::{assert_answers, assert_run};
use generational_box::LastFirst;

const SCRIPTS: [Script; 13] = [
    // An inner owner makes the value, and an outer one refers to it. It lives as long as the outer one,
    // and both boxes have its location.
    (
        "a value outlives the owner that made it",
        &[
            "owner -> owner",
            "owner -> owner",
            "insert_rc 2 hello world -> box 1@1",
            "insert_reference 1 3 -> box 2@1",
            "created_at 4 -> script:3:1",
            "stats -> slots 3 free 0 retired 0 peak 3",
            "release 2 -> ok",
            "try_read 3 -> dropped: script:3:1",
            "try_read 4 -> reader",
            "show 9 -> value hello world",
            "release 9 -> ok",
            "release 1 -> ok",
            "try_read 4 -> dropped: script:3:1",
            "stats -> slots 3 free 3 retired 0 peak 3",
        ],
    ),
    // References of references lead to the value itself: the last one lives on where those end from
    // which it came.
    (
        "a value ends with its last reference",
        &[
            "leak_rc x -> box 1@1",
            "leak_reference 1 -> box 2@1",
            "leak_reference 2 -> box 3@1",
            "created_at 3 -> script:1:1",
            "end 1 -> ok",
            "end 2 -> ok",
            "try_read 1 -> dropped: script:1:1",
            "try_read 3 -> reader",
            "show 8 -> value x",
            "release 8 -> ok",
            "stats -> slots 4 free 2 retired 0 peak 4",
            "end 3 -> ok",
            "try_read 3 -> dropped: script:1:1",
            "end 3 -> ok",
            "stats -> slots 4 free 4 retired 0 peak 4",
        ],
    ),
    // The value is read by its third reference. The other two may end all the same.
    (
        "a reader hinders the last reference alone",
        &[
            "leak_rc x -> box 1@1",
            "leak_reference 1 -> box 2@1",
            "leak_reference 2 -> box 3@1",
            "try_read 3 -> reader",
            "end 1 -> ok",
            "end 2 -> ok",
            "end 3 -> read:\tscript:4:1",
            "show 4 -> value x",
            "release 4 -> ok",
            "end 3 -> ok",
            "stats -> slots 4 free 4 retired 0 peak 4",
        ],
    ),
    // The value is written by a reference that ends meanwhile. What is written is there for the other.
    (
        "a writer hinders the last reference alone",
        &[
            "leak_rc x -> box 1@1",
            "leak_reference 1 -> box 2@1",
            "try_write 1 -> writer",
            "end 1 -> ok",
            "try_read 1 -> dropped: script:1:1",
            "try_read 2 -> written: script:3:1",
            "end 2 -> written: script:3:1",
            "replace 3 y -> old x",
            "release 3 -> ok",
            "try_read 2 -> reader",
            "show 10 -> value y",
        ],
    ),
    (
        "a writer of a shared value",
        &[
            "owner -> owner",
            "insert_rc 1 1 -> box 1@1",
            "try_write 2 -> writer",
            "try_read 2 -> written: script:3:1",
            "try_write 2 -> written: script:3:1",
            "release 1 -> written: script:3:1",
            "release 3 -> ok",
            "try_write 2 -> writer",
            "replace 8 2 -> old 1",
            "release 8 -> ok",
            "try_read 2 -> reader",
            "show 11 -> value 2",
        ],
    ),
    // Two readers that began at one location are listed separately.
    (
        "readers of a shared value",
        &[
            "owner -> owner",
            "insert_rc 1 1 -> box 1@1",
            "try_read 2 -> reader",
            "as 3 try_read 2 -> reader",
            "try_write 2 -> read:\tscript:3:1\tscript:3:1",
            "release 3 -> ok",
            "try_write 2 -> read:\tscript:3:1",
            "release 4 -> ok",
            "try_write 2 -> writer",
        ],
    ),
    // A borrow is of the value, by whichever reference.
    (
        "borrows are seen by each reference",
        &[
            "leak_rc 1 -> box 1@1",
            "leak_reference 1 -> box 2@1",
            "try_read 1 -> reader",
            "try_read 2 -> reader",
            "try_write 1 -> read:\tscript:3:1\tscript:4:1",
            "try_write 2 -> read:\tscript:3:1\tscript:4:1",
            "release 3 -> ok",
            "release 4 -> ok",
            "try_write 2 -> writer",
            "try_read 1 -> written: script:9:1",
            "replace 9 3 -> old 1",
            "release 9 -> ok",
            "try_read 1 -> reader",
            "show 13 -> value 3",
        ],
    ),
    // The owner ends though its value is read by its own box, since another reference keeps the value.
    (
        "a read value stays for a reference of nobody",
        &[
            "owner -> owner",
            "insert_rc 1 hello -> box 1@1",
            "leak_reference 2 -> box 2@1",
            "try_read 2 -> reader",
            "release 1 -> ok",
            "show 4 -> value hello",
            "try_read 2 -> dropped: script:2:1",
            "end 2 -> ok",
            "show 4 -> value hello",
            "end 3 -> read:\tscript:4:1",
            "release 4 -> ok",
            "end 3 -> ok",
            "stats -> slots 3 free 3 retired 0 peak 3",
        ],
    ),
    (
        "an owner with all references waits for the reader",
        &[
            "owner -> owner",
            "insert_rc 1 hello -> box 1@1",
            "insert_reference 1 2 -> box 2@1",
            "try_read 3 -> reader",
            "release 1 -> read:\tscript:4:1",
            "stats -> slots 3 free 0 retired 0 peak 3",
            "show 4 -> value hello",
            "release 4 -> ok",
            "release 1 -> ok",
            "try_read 2 -> dropped: script:2:1",
            "try_read 3 -> dropped: script:2:1",
            "stats -> slots 3 free 3 retired 0 peak 3",
        ],
    ),
    // One of the references in the list has ended before, and another has its slot.
    (
        "an owner with all references waits for the writer",
        &[
            "owner -> owner",
            "insert_rc 1 hello -> box 1@1",
            "insert_reference 1 2 -> box 2@1",
            "end 2 -> ok",
            "insert_reference 1 3 -> box 1@2",
            "try_write 5 -> writer",
            "release 1 -> written: script:6:1",
            "show 6 -> value hello",
            "release 6 -> ok",
            "release 1 -> ok",
            "stats -> slots 3 free 3 retired 0 peak 3",
        ],
    ),
    (
        "an owner without all references waits for nobody",
        &[
            "owner -> owner",
            "insert_rc 1 hello -> box 1@1",
            "insert_reference 1 2 -> box 2@1",
            "leak_reference 3 -> box 3@1",
            "try_read 3 -> reader",
            "release 1 -> ok",
            "show 5 -> value hello",
            "stats -> slots 4 free 2 retired 0 peak 4",
            "release 5 -> ok",
            "end 4 -> ok",
            "stats -> slots 4 free 4 retired 0 peak 4",
        ],
    ),
    // Whichever owner comes last waits for the reader.
    (
        "two owners share a value",
        &[
            "owner -> owner",
            "owner -> owner",
            "insert_rc 1 hello -> box 1@1",
            "insert_reference 2 3 -> box 2@1",
            "try_read 3 -> reader",
            "release 2 -> ok",
            "release 1 -> read:\tscript:5:1",
            "insert_reference 1 3 -> box 2@2",
            "release 5 -> ok",
            "release 1 -> ok",
            "stats -> slots 3 free 3 retired 0 peak 3",
        ],
    ),
    // The first value has a reference elsewhere, and so it is passed over until that one ends.
    (
        "the first value that would end is told of",
        &[
            "owner -> owner",
            "insert_rc 1 a -> box 1@1",
            "insert 1 b -> box 2@1",
            "insert_rc 1 c -> box 4@1",
            "leak_reference 2 -> box 5@1",
            "try_read 4 -> reader",
            "try_read 3 -> reader",
            "try_read 2 -> reader",
            "release 1 -> read:\tscript:7:1",
            "release 7 -> ok",
            "release 1 -> read:\tscript:6:1",
            "end 5 -> ok",
            "release 1 -> read:\tscript:8:1",
            "release 8 -> ok",
            "release 6 -> ok",
            "release 1 -> ok",
            "stats -> slots 6 free 6 retired 0 peak 6",
        ],
    ),
];

const LISTS: [Script; 1] = [
    // A list of calls: the value of the first making ends with its owner, and the other one with its
    // last reference.
    (
        "a run of calls shares a value",
        &[
            "owner -> owner",
            "insert_rc #0 1 -> box 1@1",
            "insert_reference #0 #1 -> box 2@1",
            "leak_rc 2 -> box 4@1",
            "leak_reference #3 -> box 5@1",
            "point_to #2 #4 -> ok",
            "try_read #2 -> reader",
            "release_owner #0 -> ok",
            "end #3 -> ok",
            "end #4 -> read:\tscript:7:1",
            "release #6 -> ok",
            "end #4 -> ok",
            "try_read #1 -> dropped: script:2:1",
            "try_read #4 -> dropped: script:4:1",
        ],
    ),
];

#[test]
fn values_with_references(rt: HostRuntime) {
    let alloc = rt.alloc();
    assert_answers(&rt, alloc, &SCRIPTS);
    assert_run::<LastFirst>(&rt, alloc, &LISTS);
}
