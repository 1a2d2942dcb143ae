//! That each waiting call returns once no borrow is in its way.
//!
//! When a call is known to wait, one step is taken that frees it, and no other until it has returned: a
//! step that wakes nothing leaves the call asleep, and the test ends with a failure. Another worker takes
//! the lock again and again meanwhile, so a wake that comes before the step is soon one that comes too
//! early.

use crate::gates::Gate;
use crate::judge::{Judge, present};
use crate::places::{made, made_later, read, read_later};
use crate::recorder::Recorder;
use crate::workers::Worker;
use generational_box::GenerationalBox;
use std::alloc::Global;
use std::sync::{Mutex, Wait};
use std::thread;
use std::thread::Threads;

// How often a call waits in a test.
const ROUNDS: usize = 40;

// How often the lock is crowded at most.
const CROWDINGS: u64 = 10_000_000;

/// The step that frees the call that waits.
#[derive(Clone, Copy)]
pub enum Freeing {
    ReaderReleased,
    WriterReleased,
    BoxEnded,
    OwnerReleased,
    PointedElsewhere,
    ReferenceMade,
    ReferenceInserted,
}

// What the workers report to each other.
#[derive(Drop)]
struct Rounds {
    asked: Mutex<Option<GenerationalBox<String>>>,
    begun: Gate,
    answered: Gate,
    over: Gate,
}

impl Rounds {
    fn new() -> Rounds {
        Rounds {
            asked: Mutex::new(None),
            begun: Gate::new(),
            answered: Gate::new(),
            over: Gate::new(),
        }
    }

    // Has the other worker call something on this box, and goes on once that call waits.
    fn send_to_sleep<W: Worker>(
        &self,
        rt: &(impl Wait + Judge),
        one: &Recorder<W>,
        asked: GenerationalBox<String>,
    ) {
        *self.asked.lock(rt) = Some(asked);
        self.begun.arrive();
        one.waits_for(rt, 1);
    }

    // The box to call something of.
    fn asked(&self, rt: &(impl Wait + Judge)) -> GenerationalBox<String> {
        rt.demand(self.begun.passes(), "not begun");
        present(rt, self.asked.lock(rt).take(), "a box is asked for")
    }

    // Goes on once the waiting call has returned.
    fn assert_answered(&self, rt: &impl Judge) {
        rt.demand(self.answered.passes(), "the call was not woken");
    }
}

// The boxes of two shared values.
#[derive(Clone, Copy)]
struct Values {
    shared: GenerationalBox<String>,
    other: GenerationalBox<String>,
}

// Writes a shared value, while the other worker waits to read a reference to it.
fn frees_a_read<W: Worker>(
    rt: &(impl Wait + Judge),
    one: &mut Recorder<W>,
    values: Values,
    step: Freeing,
    rounds: &Rounds,
) {
    let owner = one.owner(rt);
    let reference = one.insert_reference(rt, &owner, values.shared);
    let guard = one.begin_write(rt, values.shared, read());
    rounds.send_to_sleep(rt, one, reference);
    match step {
        Freeing::OwnerReleased => {
            one.release_owner(rt, owner);
            rounds.assert_answered(rt);
            one.release_over(rt, guard, "shared", "written");
            return;
        }
        Freeing::WriterReleased => {
            owner.leak();
            one.release_over(rt, guard, "shared", "written");
            rounds.assert_answered(rt);
            return;
        }
        Freeing::PointedElsewhere => one.point_to(rt, reference, values.other),
        _ => one.end(rt, reference),
    }
    rounds.assert_answered(rt);
    owner.leak();
    one.release_over(rt, guard, "shared", "written");
}

// Reads a shared value by its only reference, while the other worker waits to end that.
fn frees_an_end<W: Worker>(
    rt: &(impl Wait + Judge),
    one: &mut Recorder<W>,
    values: Values,
    step: Freeing,
    rounds: &Rounds,
) {
    let owner = one.owner(rt);
    let reference = one.insert_reference(rt, &owner, values.shared);
    one.end(rt, values.shared);
    let guard = one.begin(rt, reference, read());
    rounds.send_to_sleep(rt, one, reference);
    match step {
        Freeing::ReferenceMade => {
            one.leak_reference(rt, reference);
        }
        Freeing::ReferenceInserted => {
            one.insert_reference(rt, &owner, reference);
        }
        _ => {
            one.release(rt, guard);
            rounds.assert_answered(rt);
            owner.leak();
            return;
        }
    }
    rounds.assert_answered(rt);
    one.release(rt, guard);
    owner.leak();
}

// Takes the step that frees the call in each round.
fn frees_each<W: Worker>(
    rt: &(impl Wait + Judge),
    one: &mut Recorder<W>,
    values: &[Values],
    step: Freeing,
    rounds: &Rounds,
) {
    for values in values {
        match step {
            Freeing::ReaderReleased | Freeing::ReferenceMade | Freeing::ReferenceInserted => {
                frees_an_end(rt, one, *values, step, rounds);
            }
            _ => frees_a_read(rt, one, *values, step, rounds),
        }
    }
    rounds.over.arrive();
}

// Makes the call that waits in each round.
fn waits_in_each<W: Worker>(
    rt: &(impl Wait + Judge),
    two: &mut Recorder<W>,
    step: Freeing,
    rounds: &Rounds,
) {
    for _ in 0..ROUNDS {
        let asked = rounds.asked(rt);
        match step {
            Freeing::WriterReleased => two.reads(rt, asked, read_later(), "written"),
            Freeing::PointedElsewhere => two.reads(rt, asked, read_later(), "other"),
            Freeing::BoxEnded | Freeing::OwnerReleased => {
                two.finds_dropped(rt, asked, read_later(), made());
            }
            _ => two.end(rt, asked),
        }
        rounds.answered.arrive();
    }
}

// Takes the lock again and again.
fn crowds<W: Worker>(
    rt: &(impl Wait + Judge),
    three: &mut Recorder<W>,
    calm: GenerationalBox<String>,
    rounds: &Rounds,
) {
    let guard = three.begin(rt, calm, read_later());
    for _ in 0..CROWDINGS {
        if rounds.over.is_open() {
            break;
        }
        three.assert_opens(rt, &guard, "calm");
    }
    three.release(rt, guard);
}

/// Each round a call waits until one step frees it.
pub(crate) fn wake_after<W: Worker, H: Threads + Wait + Judge + Sync>(
    rt: &H,
    alloc: Global,
    mut first: Recorder<W>,
    mut second: Recorder<W>,
    mut third: Recorder<W>,
    step: Freeing,
) {
    let calm = first.leak(rt, "calm", made_later());
    let mut values = Vec::new(alloc);
    for _ in 0..ROUNDS {
        let shared = first.leak_rc(rt, "shared", made());
        let other = first.leak_rc(rt, "other", made_later());
        rt.demand(values.push(Values { shared, other }).is_ok(), "no memory");
    }
    let values = values.as_slice();
    let rounds = Rounds::new();
    thread::join(
        rt,
        || frees_each(rt, &mut first, values, step, &rounds),
        || thread::join(
            rt,
            || waits_in_each(rt, &mut second, step, &rounds),
            || crowds(rt, &mut third, calm, &rounds),
        ),
    );
    first.take_over(rt, second);
    first.take_over(rt, third);
    first.audit(rt, 3);
}

/// The same, where the first worker takes the step under a lock of several calls.
pub(crate) fn wake_together<W: Worker, H: Threads + Wait + Judge + Sync>(
    rt: &H,
    alloc: Global,
    mut first: Recorder<W>,
    second: Recorder<W>,
    third: Recorder<W>,
    step: Freeing,
) {
    first.call_together();
    wake_after(rt, alloc, first, second, third, step);
}

// Writes the value until two calls wait, and releases it.
fn frees_two_reads<W: Worker>(
    rt: &(impl Wait + Judge),
    one: &mut Recorder<W>,
    asked: GenerationalBox<String>,
    rounds: &Rounds,
) {
    let guard = one.begin_write(rt, asked, read());
    rounds.begun.arrive();
    rounds.begun.arrive();
    one.waits_for(rt, 2);
    one.release_over(rt, guard, "old", "new");
    rounds.assert_answered(rt);
    rounds.assert_answered(rt);
    rounds.over.arrive();
    rounds.over.arrive();
}

// Reads the value once it isn't written any more, and until the other read has returned too.
fn reads_once_released<W: Worker>(
    rt: &(impl Wait + Judge),
    one: &mut Recorder<W>,
    asked: GenerationalBox<String>,
    rounds: &Rounds,
) {
    rt.demand(rounds.begun.passes(), "not begun");
    let guard = one.begin(rt, asked, read_later());
    one.assert_opens(rt, &guard, "new");
    rounds.answered.arrive();
    rt.demand(rounds.over.passes(), "not over");
    one.release(rt, guard);
}

/// Two reads wait for one writer, and its release wakes both.
pub(crate) fn wake_all<W: Worker, H: Threads + Wait + Judge + Sync>(
    rt: &H,
    mut first: Recorder<W>,
    mut second: Recorder<W>,
    mut third: Recorder<W>,
) {
    let asked = first.leak(rt, "old", made());
    let rounds = Rounds::new();
    thread::join(
        rt,
        || frees_two_reads(rt, &mut first, asked, &rounds),
        || thread::join(
            rt,
            || reads_once_released(rt, &mut second, asked, &rounds),
            || reads_once_released(rt, &mut third, asked, &rounds),
        ),
    );
    first.take_over(rt, second);
    first.take_over(rt, third);
    first.finish(rt, &[[1, 1, 1, 0], [0, 1, 1, 0], [0, 1, 1, 0]]);
}

// Trims the history while a call waits, which goes on to wait, and releases the value.
fn trims_while_written<W: Worker>(
    rt: &(impl Wait + Judge),
    one: &mut Recorder<W>,
    asked: GenerationalBox<String>,
    rounds: &Rounds,
) {
    let guard = one.begin_write(rt, asked, read());
    rounds.begun.arrive();
    one.waits_for(rt, 1);
    one.trim(rt, 2);
    one.waits_for(rt, 1);
    one.release_over(rt, guard, "old", "new");
    rounds.assert_answered(rt);
    rounds.over.arrive();
}

/// A read waits while the history is trimmed, and returns once the writer is released.
pub(crate) fn trim_beside<W: Worker, H: Threads + Wait + Judge + Sync>(
    rt: &H,
    mut first: Recorder<W>,
    mut second: Recorder<W>,
) {
    let asked = first.leak(rt, "old", made());
    let rounds = Rounds::new();
    thread::join(
        rt,
        || trims_while_written(rt, &mut first, asked, &rounds),
        || reads_once_released(rt, &mut second, asked, &rounds),
    );
    first.take_over(rt, second);
    first.finish(rt, &[[0, 0, 1, 0], [0, 1, 1, 0]]);
}
