//! Drawn lists over other pairs of stores than the program's. Where those of a pair differ, the
//! program must tell from which call on.

ghost use Rattle.std.specs.Prelude.{◌≤◌};
ghost use Rattle.generational_core.specs.Conditions.{IsFresh};

use crate::drawn_counts::{Beginning, COUNT, FEW_TICKETS, FIRST, replies_from};
use crate::drawn_words::reply_word;
use crate::expected::{assert_same, given, made_in};
use crate::runs::{Outcome, assert_ended};
use boxes_script::{Pair, fuzz_pair, fuzz_run};
use generational_box::{Location, Numbers, Reply, Storage, Store};
use std::alloc::Global;
use std::process::Abort;

/// A pair whose first store has the number 1.
fn pair(alloc: Global, numbers: Numbers, other: Beginning) -> Pair
    requires one { 1 ≤ numbers.generation }
    requires other { 1 ≤ other.1.generation }
    ensures one { IsFresh result.one.state }
    ensures other { IsFresh result.other.state }
{
    Pair {
        one: Store::new_at(alloc, 1, numbers),
        other: Store::new_at(alloc, other.0, other.1),
    }
}

/// The words `fuzz SEED COUNT`.
fn words(rt: &impl Abort, alloc: Global, seed: u64, count: usize) -> Vec<String> {
    let fuzz = given(rt, String::from_str(alloc, "fuzz"));
    let seed = given(rt, format!(in alloc; "{seed}"));
    let count = given(rt, format!(in alloc; "{count}"));
    given(rt, vec![in alloc; fuzz, seed, count])
}

/// Asserts with which status the list of a seed ends over a pair, and what is printed.
fn assert_told(rt: &impl Abort, alloc: Global, list: (u64, usize), pair: Pair, told: (u8, &str))
    requires one { IsFresh pair.one.state }
    requires other { IsFresh pair.other.state }
{
    let words = words(rt, alloc, list.0, list.1);
    let mut output = Vec::new(alloc);
    let mut faults = Vec::new(alloc);
    let status = fuzz_run(alloc, &words, pair, &mut output, &mut faults);
    let outcome = Outcome {
        status,
        output,
        faults,
    };
    assert_ended(rt, &outcome, told.0, told.1, "");
}

/// The first place at which two lists of replies have another kind.
fn first_other(ones: &[Reply<String>], others: &[Reply<String>]) -> Option<usize> {
    ones.iter()
        .zip(others.iter())
        .position(|(one, other)| reply_word(one) != reply_word(other))
}

/// Asserts that the program prints where the second store of a pair has other replies to the list of a
/// seed, and that this is at this place or after it.
fn assert_differs(rt: &impl Abort, alloc: Global, seed: u64, other: Beginning, least: usize)
    requires { 1 ≤ other.1.generation }
{
    let ones = replies_from(rt, alloc, seed, (1, FIRST));
    let others = replies_from(rt, alloc, seed, other);
    let place = first_other(&ones, &others).unwrap_or(0);
    assert!(rt; place >= least, "differs at {place}");
    let told = format!(in alloc; "differs at {place}\n").expect(rt, "memory");
    assert_told(
        rt,
        alloc,
        (seed, place),
        pair(alloc, FIRST, other),
        (0, "same\n"),
    );
    for count in [place.saturating_add(1), COUNT] {
        let differing = pair(alloc, FIRST, other);
        assert_told(rt, alloc, (seed, count), differing, (4, told.as_str()));
    }
}

// A store that has fewer tickets gives no borrow where the other still does. One of another number
// takes boxes of its own number for none, and those of the other's for foreign ones.
#[test]
fn a_pair_that_differs_is_told(rt: HostRuntime) {
    for seed in [1, 2] {
        assert_differs(&rt, rt.alloc(), seed, (1, FEW_TICKETS), 2_000);
        assert_differs(&rt, rt.alloc(), seed, (2, FIRST), 1);
    }
}

// Ids and slots are set aside: where the generations begin makes no difference, nor where the tickets do
// that both have.
#[test]
fn a_pair_that_answers_alike_is_the_same(rt: HostRuntime) {
    let last = Numbers {
        generation: u64::MAX,
        ticket: 0,
    };
    let alloc = rt.alloc();
    for (numbers, other) in [(FIRST, last), (FEW_TICKETS, FEW_TICKETS)] {
        let alike = pair(alloc, numbers, (1, other));
        assert_told(&rt, alloc, (1, COUNT), alike, (0, "same\n"));
    }
}

/// The slot that a new store uses again, of two that were freed one after the other.
fn slot_used_again<S: Storage<String> + Drop>(
    rt: &impl Abort,
    alloc: Global,
    mut store: S,
) -> usize {
    let here = Location::new("pair", 1, 1);
    let first = made_in(rt, alloc, &mut store, here);
    let second = made_in(rt, alloc, &mut store, here);
    given(rt, first.manually_drop(&mut store));
    given(rt, second.manually_drop(&mut store));
    made_in(rt, alloc, &mut store, here).raw_ptr()
}

// The program's own pair takes free slots in different orders.
#[test]
fn the_programs_pair_is_of_two_kinds(rt: HostRuntime) {
    let Pair { one, other } = fuzz_pair(rt.alloc());
    assert_same(&rt, &slot_used_again(&rt, rt.alloc(), one), &1);
    assert_same(&rt, &slot_used_again(&rt, rt.alloc(), other), &0);
}
