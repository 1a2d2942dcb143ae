//! Scripts of lines of the dialect, each with its reply.

ghost use Rattle.std.specs.Prelude.{◌≤◌};

use crate::dialect::{Dialect, write_with_value};
use crate::expected::{given, push};
use crate::naming::Strangers;
use crate::runs::{Script, assert_written, parts, replies_of};
use generational_box::{
    Call, LastFirst, Location, Numbers, Reply, Session, SlotPool, Storage, Store,
};
use std::alloc::Global;
use std::process::Abort;

/// The numbers with which a new store begins.
pub(crate) const FIRST: Numbers = Numbers {
    generation: 1,
    ticket: 0,
};

/// The numbers of a store whose slots have one generation.
pub(crate) const LAST_GENERATION: Numbers = Numbers {
    generation: u64::MAX,
    ticket: 0,
};

/// The numbers of a store whose slots have two generations.
pub(crate) const LAST_BUT_ONE: Numbers = Numbers {
    generation: u64::MAX - 1,
    ticket: 0,
};

/// The numbers of a store that has no ticket.
pub(crate) const NO_TICKET: Numbers = Numbers {
    generation: 1,
    ticket: u64::MAX,
};

/// The numbers of a store that has one ticket.
pub(crate) const ONE_TICKET: Numbers = Numbers {
    generation: 1,
    ticket: u64::MAX - 1,
};

/// The numbers of a store that has two tickets.
pub(crate) const TWO_TICKETS: Numbers = Numbers {
    generation: 1,
    ticket: u64::MAX - 2,
};

/// A session's own store, and the others: of number 8, and of its own number.
#[derive(Drop)]
struct Stores<S> {
    own: S,
    eight: S,
    twin: S,
}

/// New stores, of which the session's own begins with these numbers.
fn new_stores<P: SlotPool>(alloc: Global, numbers: Numbers) -> Stores<Store<String, P>>
    requires { 1 ≤ numbers.generation }
{
    Stores {
        own: Store::new_at(alloc, 7, numbers),
        eight: Store::new(alloc, 8),
        twin: Store::new(alloc, 7),
    }
}

/// Asserts that the lines of each script have the replies beside them, over a new store that takes the
/// slot that was freed last.
pub(crate) fn assert_answers(rt: &impl Abort, alloc: Global, scripts: &[Script]) {
    assert_answers_from::<LastFirst>(rt, alloc, FIRST, scripts);
}

/// Asserts the same over a store with these first numbers.
pub(crate) fn assert_answers_from<P: SlotPool + Drop>(
    rt: &impl Abort,
    alloc: Global,
    numbers: Numbers,
    scripts: &[Script],
)
    requires { 1 ≤ numbers.generation }
{
    for (name, lines) in scripts {
        assert_lines(rt, alloc, new_stores::<P>(alloc, numbers), name, lines);
    }
}

// Asserts that the lines of a script have the replies beside them.
fn assert_lines<S: Storage<String> + Drop>(
    rt: &impl Abort,
    alloc: Global,
    stores: Stores<S>,
    name: &str,
    lines: &[&str],
) {
    let Stores { own, eight, twin } = stores;
    assert!(rt; own.is_fresh());
    let mut dialect = Dialect::new(alloc, own, Strangers::new(alloc, eight, twin));
    let mut answered = Vec::new(alloc);
    for (line, number) in lines.iter().zip(1..u32::MAX) {
        let answer = dialect.answer(number, parts(line).0, &mut answered);
        answer.expect(rt, "an answer");
    }
    let _store = dialect.finish();
    assert_written(rt, name, &answered, &replies_of(rt, alloc, lines));
}

/// Asserts that the calls of each script, passed in as one list, have the replies beside them. Lines of
/// other stores are no calls, and come first.
pub(crate) fn assert_run<P: SlotPool + Drop>(rt: &impl Abort, alloc: Global, scripts: &[Script]) {
    for (name, lines) in scripts {
        assert_list(rt, alloc, new_stores::<P>(alloc, FIRST), name, lines);
    }
}

// Asserts that the calls of a script have the replies beside them.
fn assert_list<S: Storage<String> + Drop>(
    rt: &impl Abort,
    alloc: Global,
    stores: Stores<S>,
    name: &str,
    lines: &[&str],
) {
    let Stores { own, eight, twin } = stores;
    let mut strangers = Strangers::new(alloc, eight, twin);
    let mut calls = Vec::new(alloc);
    let mut answered = Vec::new(alloc);
    for (line, number) in lines.iter().zip(1..u32::MAX) {
        let line = parts(line).0;
        add_line(rt, &mut strangers, number, line, &mut calls, &mut answered);
    }
    for reply in run(rt, alloc, own, calls) {
        write_with_value(&mut answered, reply).expect(rt, "memory");
    }
    assert_written(rt, name, &answered, &replies_of(rt, alloc, lines));
}

// Adds the call of a line to a list. A line of another store is run at once.
fn add_line<S: Storage<String>>(
    rt: &impl Abort,
    strangers: &mut Strangers<S>,
    number: u32,
    line: &str,
    calls: &mut Vec<Call<String>>,
    answered: &mut Vec<u8>,
) {
    let location = Location::new("script", number, 1);
    let (word, rest) = line.split_once(' ').unwrap_or((line, ""));
    if word == "eight" || word == "twin" {
        let answer = strangers.answer(word, rest, location, answered);
        assert!(rt; answer.is_ok());
    } else {
        let call = strangers.call(word, rest, location).expect(rt, "a call");
        push(rt, calls, call);
    }
}

/// Runs a list of calls in a session over an empty store, and ends it.
pub(crate) fn run<S: Storage<String> + Drop>(
    rt: &impl Abort,
    alloc: Global,
    store: S,
    calls: Vec<Call<String>>,
) -> Vec<Reply<String>> {
    assert!(rt; store.is_fresh());
    let mut session = Session::new(alloc, store);
    let ran = session.run(calls);
    let _store = session.finish();
    given(rt, ran)
}
