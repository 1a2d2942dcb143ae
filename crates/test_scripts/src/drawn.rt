//! Drawn lists of calls over two stores, and how their replies compare.

ghost use Rattle.std.specs.Prelude.{◌≤◌};

use crate::expected::{assert_same, given, made_in};
use crate::runs::{assert_ended, run_words, texts};
use boxes_script::{Verdict, compare, compare_stores};
use generational_box::{
    BoxAt, Call, GenerationalBox, Location, Numbers, OldestFirst, Reply, Storage, Store,
    StoreError, UnsyncStorage,
};
use std::alloc::Global;
use std::process::Abort;

/// Asserts how the program ends with these words, and what it writes.
fn assert_fuzz(
    rt: &impl Abort,
    alloc: Global,
    words: &[&str],
    status: u8,
    output: &str,
    faults: &str,
) {
    let outcome = run_words(alloc, &texts(rt, alloc, words), &mut "".as_bytes());
    assert_ended(rt, &outcome, status, output, faults);
}

#[test]
fn two_stores_answer_a_list_alike(rt: HostRuntime) {
    let alloc = rt.alloc();
    assert_fuzz(&rt, alloc, &["fuzz", "1", "10000"], 0, "same\n", "");
    assert_fuzz(&rt, alloc, &["fuzz", "1", "0"], 0, "same\n", "");
    assert_fuzz(
        &rt,
        alloc,
        &["fuzz", "18446744073709551615", "1"],
        0,
        "same\n",
        "",
    );
}

/// What standard error gets where the words are none that the program knows.
const USAGE: &str = "boxes: usage: boxes or boxes fuzz SEED COUNT\n";

#[test]
fn words_that_are_no_list(rt: HostRuntime) {
    let alloc = rt.alloc();
    assert_fuzz(&rt, alloc, &["fuzz", "1"], 2, "", USAGE);
    assert_fuzz(&rt, alloc, &["fuzz", "1", "100001"], 2, "", USAGE);
    assert_fuzz(
        &rt,
        alloc,
        &["fuzz", "18446744073709551616", "1"],
        2,
        "",
        USAGE,
    );
    assert_fuzz(&rt, alloc, &["fuzz", "01", "1"], 2, "", USAGE);
    assert_fuzz(&rt, alloc, &["fuzz", "+1", "1"], 2, "", USAGE);
    assert_fuzz(&rt, alloc, &["fuzz", "1", ""], 2, "", USAGE);
    assert_fuzz(&rt, alloc, &["fuzz", "1", "1", "1"], 2, "", USAGE);
    assert_fuzz(&rt, alloc, &["buzz", "1", "1"], 2, "", USAGE);
}

/// A box of a new store of this number.
fn stranger(rt: &impl Abort, alloc: Global, number: u64) -> GenerationalBox<String> {
    let mut store: UnsyncStorage<String> = Store::new(alloc, number);
    made_in(rt, alloc, &mut store, Location::new("b", 1, 1))
}

/// Three replies, of which the second is another.
fn three(rt: &impl Abort, alloc: Global, second: Reply<String>) -> Vec<Reply<String>> {
    given(rt, vec![in alloc; Reply::Owner, second, Reply::Done])
}

/// Asserts how two lists of replies compare that have these at place 1.
fn assert_compared(
    rt: &impl Abort,
    alloc: Global,
    one: Reply<String>,
    other: Reply<String>,
    verdict: Verdict,
) {
    let ones = three(rt, alloc, one);
    let others = three(rt, alloc, other);
    assert_same(rt, &compare(&ones, &others), &verdict);
    assert_same(rt, &compare(&others, &ones), &verdict);
}

// A list that ends before the other differs from it there.
#[test]
fn a_shorter_list_differs_at_its_end(rt: HostRuntime) {
    let list = three(&rt, rt.alloc(), Reply::Done);
    let mut shorter = three(&rt, rt.alloc(), Reply::Done);
    for end in [2, 1, 0] {
        shorter.truncate(end);
        assert_same(&rt, &compare(&list, &shorter), &Verdict::Differs(end));
        assert_same(&rt, &compare(&shorter, &list), &Verdict::Differs(end));
    }
}

/// Where the replies of the next test say that a box was made.
fn at(line: u32) -> Reply<String> {
    Reply::Created(Location::new("fuzz", line, 1))
}

#[test]
fn the_first_place_that_differs_is_found(rt: HostRuntime) {
    let alloc = rt.alloc();
    let lacks = StoreError::OutOfMemory;
    let ended = StoreError::NumbersExhausted;
    assert_compared(&rt, alloc, at(1), at(1), Verdict::Same);
    assert_compared(&rt, alloc, Reply::Slot(1), Reply::Slot(2), Verdict::Same);
    assert_compared(&rt, alloc, at(1), at(2), Verdict::Differs(1));
    assert_compared(&rt, alloc, Reply::Done, Reply::Reader, Verdict::Differs(1));
    assert_compared(
        &rt,
        alloc,
        Reply::Store(lacks),
        Reply::Done,
        Verdict::Refused(1),
    );
    assert_compared(
        &rt,
        alloc,
        Reply::Store(lacks),
        Reply::Store(ended),
        Verdict::Refused(1),
    );
    assert_compared(
        &rt,
        alloc,
        Reply::Store(ended),
        Reply::Store(ended),
        Verdict::Same,
    );
}

/// Two values and two reads, the last of a box of the store of number 2.
fn calls(rt: &impl Abort, alloc: Global) -> Vec<Call<String>> {
    let here = Location::new("fuzz", 1, 1);
    let foreign = BoxAt::Foreign(stranger(rt, alloc, 2));
    let calls = vec![in alloc;
        Call::Leak(String::new(alloc), here),
        Call::TryRead(BoxAt::Place(0), here),
        Call::Leak(String::new(alloc), here),
        Call::TryRead(foreign, here),
    ];
    given(rt, calls)
}

/// Asserts how two stores compare.
fn assert_answered<S: Storage<String> + Drop, Z: Storage<String> + Drop>(
    rt: &impl Abort,
    alloc: Global,
    one: S,
    other: Z,
    verdict: Verdict,
) {
    assert!(rt; one.is_fresh() && other.is_fresh());
    let ones = (one, calls(rt, alloc));
    let others = (other, calls(rt, alloc));
    let found = compare_stores(alloc, ones, others).expect(rt, "memory");
    assert_same(rt, &found, &verdict);
}

/// Asserts how a store of this number and these first numbers compares with one of number 1.
fn assert_stores_compared(
    rt: &impl Abort,
    alloc: Global,
    number: u64,
    numbers: Numbers,
    verdict: Verdict,
)
    requires { 1 ≤ numbers.generation }
{
    let one: UnsyncStorage<String> = Store::new(alloc, 1);
    let other: Store<String, OldestFirst> = Store::new_at(alloc, number, numbers);
    assert_answered(rt, alloc, one, other, verdict);
}

// On a store without a ticket the first read fails, and one of the other number doesn't take the last box
// for another store's.
#[test]
fn the_first_call_that_stores_answer_otherwise_is_found(rt: HostRuntime) {
    let alloc = rt.alloc();
    let first = Numbers {
        generation: 1,
        ticket: 0,
    };
    let last = Numbers {
        generation: u64::MAX,
        ticket: u64::MAX,
    };
    assert_stores_compared(&rt, alloc, 1, first, Verdict::Same);
    assert_stores_compared(&rt, alloc, 1, last, Verdict::Differs(1));
    assert_stores_compared(&rt, alloc, 2, first, Verdict::Differs(3));
}

// A store with too many slots differs from there on, unless another difference comes earlier, or the same
// call failed to allocate.
#[test]
fn too_many_slots_are_a_difference(rt: HostRuntime) {
    for (verdict, breach, wanted) in [
        (Verdict::Same, None, Verdict::Same),
        (Verdict::Same, Some(2), Verdict::Differs(2)),
        (Verdict::Differs(3), None, Verdict::Differs(3)),
        (Verdict::Differs(3), Some(2), Verdict::Differs(2)),
        (Verdict::Differs(3), Some(4), Verdict::Differs(3)),
        (Verdict::Refused(3), None, Verdict::Refused(3)),
        (Verdict::Refused(3), Some(2), Verdict::Differs(2)),
        (Verdict::Refused(3), Some(3), Verdict::Refused(3)),
    ] {
        assert_same(&rt, &verdict.or_breach(breach), &wanted);
    }
}
