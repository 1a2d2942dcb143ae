//! What a drawn list has and what its replies tell, counted: each thing at least so often.

ghost use Rattle.std.specs.Prelude.{◌≤◌};

use crate::drawn_words::{
    NUMBER, boxes_in, call_word, guard_in, location_in, owner_in, reply_word, words_of,
};
use crate::expected::{assert_same, push};
use crate::tables::run;
use boxes_script::fuzz_list;
use generational_box::{BoxAt, Call, Numbers, Reply, Store, UnsyncStorage};
use std::alloc::Global;
use std::process::Abort;

/// How many calls the lists here have.
pub(crate) const COUNT: usize = 10_000;

/// The words for a list's calls and their replies, and how often each occurs at least.
const LEAST: [(&str, usize); 60] = [
    ("leak", 600),
    ("leak_rc", 300),
    ("leak_reference", 300),
    ("insert", 200),
    ("insert_rc", 200),
    ("insert_reference", 200),
    ("owner", 200),
    ("clone_owner", 100),
    ("release_owner", 100),
    ("leak_owner", 100),
    ("try_read", 250),
    ("try_write", 250),
    ("read", 100),
    ("write", 100),
    ("set", 100),
    ("replace", 100),
    ("release", 500),
    ("manually_drop", 400),
    ("point_to", 200),
    ("ptr_eq", 50),
    ("id", 50),
    ("raw_ptr", 50),
    ("created_at", 50),
    ("can_read", 50),
    ("can_write", 50),
    ("no text", 300),
    ("a letter", 300),
    ("two letters", 300),
    ("three letters", 300),
    ("another text", 300),
    ("nobody's box", 1500),
    ("an owner's box", 900),
    ("no box", 60),
    ("a box past the end", 120),
    ("a foreign box", 80),
    ("a foreign box of the same number", 80),
    ("a held guard", 140),
    ("a spent guard", 90),
    ("no guard", 300),
    ("a guard past the end", 20),
    ("a held owner", 300),
    ("a spent owner", 300),
    ("no owner", 300),
    ("an owner past the end", 30),
    ("an owner is given", 130),
    ("a box is given", 1000),
    ("a reader", 150),
    ("a writer", 150),
    ("done", 450),
    ("the old value", 14),
    ("true", 40),
    ("false", 25),
    ("an id", 30),
    ("a slot", 30),
    ("a location", 25),
    ("dropped", 200),
    ("borrowed", 30),
    ("borrowed mutably", 50),
    ("unready", 40),
    ("unready, and a value comes back", 25),
];

/// The list of a seed.
pub(crate) fn list_of(rt: &impl Abort, alloc: Global, seed: u64) -> Vec<Call<String>> {
    fuzz_list(alloc, seed, COUNT).expect(rt, "memory")
}

/// The number of a store, and where it begins.
pub(crate) type Beginning = (u64, Numbers);

/// Where a new store begins.
pub(crate) const FIRST: Numbers = Numbers {
    generation: 1,
    ticket: 0,
};

/// Where a store begins that has four hundred tickets.
pub(crate) const FEW_TICKETS: Numbers = Numbers {
    generation: 1,
    ticket: u64::MAX - 400,
};

/// The replies of a store with these first numbers to the list of a seed.
pub(crate) fn replies_from(
    rt: &impl Abort,
    alloc: Global,
    seed: u64,
    beginning: Beginning,
) -> Vec<Reply<String>>
    requires { 1 ≤ beginning.1.generation }
{
    let store: UnsyncStorage<String> = Store::new_at(alloc, beginning.0, beginning.1);
    run(rt, alloc, store, list_of(rt, alloc, seed))
}

/// Asserts that each word of a table is in a list at least so often.
fn assert_at_least(rt: &impl Abort, list: &[&str], least: &[(&str, usize)]) {
    for (word, count) in least {
        let found = count_of(list, word);
        assert!(rt; found >= *count, "{word}: {found}");
    }
}

/// How often a word is in a list.
fn count_of(list: &[&str], word: &str) -> usize {
    let mut found: usize = 0;
    for it in list {
        if *it == word {
            found = found.saturating_add(1);
        }
    }
    found
}

#[test]
fn a_list_has_enough_of_everything(rt: HostRuntime) {
    let calls = list_of(&rt, rt.alloc(), 1);
    let replies = replies_from(&rt, rt.alloc(), 1, (NUMBER, FIRST));
    assert_same(&rt, &calls.len(), &COUNT);
    let list = words_of(&rt, rt.alloc(), &calls, &replies);
    assert_at_least(&rt, &list, &LEAST);
}

/// The calls that take a ticket, and how often each meets the end of the tickets at least.
const EXHAUSTED: [(&str, usize); 5] = [
    ("owner", 50),
    ("try_read", 50),
    ("try_write", 50),
    ("read", 20),
    ("write", 20),
];

/// The kinds of the calls that fail because the tickets are used up.
fn exhausted(
    rt: &impl Abort,
    alloc: Global,
    calls: &[Call<String>],
    replies: &[Reply<String>],
) -> Vec<&'static str> {
    let mut list = Vec::new(alloc);
    for (call, reply) in calls.iter().zip(replies.iter()) {
        if reply_word(reply) == "numbers exhausted" {
            push(rt, &mut list, call_word(call));
        }
    }
    list
}

#[test]
fn a_list_meets_the_end_of_the_tickets(rt: HostRuntime) {
    let calls = list_of(&rt, rt.alloc(), 1);
    let replies = replies_from(&rt, rt.alloc(), 1, (NUMBER, FEW_TICKETS));
    let list = exhausted(&rt, rt.alloc(), &calls, &replies);
    assert_at_least(&rt, &list, &EXHAUSTED);
}

/// How far back the places lie that the calls of a list name.
#[derive(Drop)]
struct Distances {
    boxes: Vec<usize>,
    guards: Vec<usize>,
    owners: Vec<usize>,
}

impl Distances {
    // Adds those of the boxes that the call of a place names.
    fn add_boxes(&mut self, rt: &impl Abort, place: usize, call: &Call<String>) {
        let (one, other) = boxes_in(call);
        for at in [one, other] {
            if let Some(BoxAt::Place(named)) = at {
                push(rt, &mut self.boxes, place.saturating_sub(*named));
            }
        }
    }

    // Adds those of what the call of a place names.
    fn add(&mut self, rt: &impl Abort, place: usize, call: &Call<String>) {
        self.add_boxes(rt, place, call);
        if let Some(named) = guard_in(call) {
            push(rt, &mut self.guards, place.saturating_sub(named));
        }
        if let Some(named) = owner_in(call) {
            push(rt, &mut self.owners, place.saturating_sub(named));
        }
    }

    // The distances in a list.
    fn of(rt: &impl Abort, alloc: Global, calls: &[Call<String>]) -> Distances {
        let mut distances = Distances {
            boxes: Vec::new(alloc),
            guards: Vec::new(alloc),
            owners: Vec::new(alloc),
        };
        for (place, call) in calls.iter().enumerate() {
            distances.add(rt, place, call);
        }
        distances
    }
}

/// Asserts that at least so many distances are among these many from the first on.
fn assert_near(rt: &impl Abort, distances: &[usize], first: usize, many: usize, least: usize) {
    let found = count_near(distances, first, many);
    assert!(rt; found >= least, "{found} from {first} on");
}

/// How many distances are among these many from the first on.
fn count_near(distances: &[usize], first: usize, many: usize) -> usize {
    let mut found: usize = 0;
    for it in distances {
        if it.saturating_sub(first) < many && *it >= first {
            found = found.saturating_add(1);
        }
    }
    found
}

// Any of the sixteen latest boxes, guards and owners may be named.
#[test]
fn calls_name_near_and_far_places(rt: HostRuntime) {
    let calls = list_of(&rt, rt.alloc(), 1);
    let distances = Distances::of(&rt, rt.alloc(), &calls);
    for first in 1..=32 {
        assert_near(&rt, &distances.boxes, first, 1, 40);
    }
    for first in [1, 31, 61, 91] {
        assert_near(&rt, &distances.guards, first, 30, 100);
    }
    for first in [1, 91, 181, 271] {
        assert_near(&rt, &distances.owners, first, 90, 200);
    }
}

/// How many calls of two lists are of other kinds. Each of the first list has a location of its own.
fn others(rt: &impl Abort, calls: &[Call<String>], others: &[Call<String>]) -> usize {
    let mut found: usize = 0;
    for (place, (call, other)) in calls.iter().zip(others.iter()).enumerate() {
        if let Some(location) = location_in(call) {
            assert_same(rt, &(location.line() as usize).checked_sub(1), &Some(place));
        }
        if call_word(call) != call_word(other) {
            found = found.saturating_add(1);
        }
    }
    found
}

#[test]
fn another_seed_draws_another_list(rt: HostRuntime) {
    let calls = list_of(&rt, rt.alloc(), 1);
    for seed in [2, 4_294_967_297] {
        let found = others(&rt, &calls, &list_of(&rt, rt.alloc(), seed));
        assert!(&rt; found >= 5_000, "{found} of the seed {seed}");
    }
}
