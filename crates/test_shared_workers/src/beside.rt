//! Two workers in threads: what they read beside each other, and a reader that waits for a writer.

use crate::gates::Gate;
use crate::judge::{Judge, present};
use crate::places::{made, made_later, read, read_later};
use crate::recorder::Recorder;
use crate::strangers::strange_box;
use crate::workers::Worker;
use generational_box::{GenerationalBox, GenerationalRefMut, Location};
use std::alloc::Global;
use std::sync::Wait;
use std::thread;
use std::thread::Threads;

// Opens the value, says so, waits until the other worker has too, and releases.
fn reads_beside<W: Worker>(
    rt: &(impl Wait + Judge),
    one: &mut Recorder<W>,
    asked: GenerationalBox<String>,
    at: Location,
    opened: &Gate,
    other: &Gate,
) {
    let guard = one.begin(rt, asked, at);
    one.assert_opens(rt, &guard, "hello");
    opened.arrive();
    rt.demand(other.passes(), "the other worker did not open it");
    one.assert_opens(rt, &guard, "hello");
    one.release(rt, guard);
}

/// Two workers read one value beside each other, and one of them a box of another store.
pub(crate) fn read_beside<W: Worker, H: Threads + Wait + Judge + Sync>(
    rt: &H,
    alloc: Global,
    mut first: Recorder<W>,
    mut second: Recorder<W>,
) {
    let shared = first.leak(rt, "hello", made());
    let strange = strange_box(rt, alloc);
    let (opened, other) = (Gate::new(), Gate::new());
    thread::join(
        rt,
        || reads_beside(rt, &mut first, shared, read(), &opened, &other),
        || {
            reads_beside(rt, &mut second, shared, made_later(), &other, &opened);
            second.finds_dropped(rt, strange, read_later(), made_later());
        },
    );
    first.take_over(rt, second);
    first.finish(rt, &[[1, 1, 1, 0], [0, 1, 1, 1]]);
}

// The boxes of two values, and of a shared value and another reference to it.
#[derive(Clone, Copy)]
struct Boxes {
    changed: GenerationalBox<String>,
    calm: GenerationalBox<String>,
    shared: GenerationalBox<String>,
    reference: GenerationalBox<String>,
}

// What the two workers report to each other.
#[derive(Drop)]
struct Gates {
    written: Gate,
    calm: Gate,
}

// Holds a guard of the changed and one of the shared value. Ends the reference while its reader
// waits, and then exchanges the changed value, for which the same worker waits next.
fn writes<W: Worker>(rt: &(impl Wait + Judge), one: &mut Recorder<W>, boxes: Boxes, gates: &Gates) {
    let changed = one.begin_write(rt, boxes.changed, read());
    let shared = one.begin_write(rt, boxes.shared, read_later());
    gates.written.arrive();
    rt.demand(gates.calm.passes(), "the calm value was not read");
    one.waits_for(rt, 1);
    one.end(rt, boxes.reference);
    exchanges(rt, one, changed);
    one.release_over(rt, shared, "shared", "shared");
}

fn exchanges<W: Worker>(
    rt: &(impl Wait + Judge),
    one: &mut Recorder<W>,
    changed: GenerationalRefMut<String>,
) {
    one.waits_for(rt, 1);
    one.release_over(rt, changed, "old", "new");
}

// Reads what isn't written, then the reference, which ends meanwhile, and then the changed value.
fn reads_after<W: Worker>(
    rt: &(impl Wait + Judge),
    two: &mut Recorder<W>,
    boxes: Boxes,
    gates: &Gates,
) {
    rt.demand(gates.written.passes(), "nothing was written");
    two.reads(rt, boxes.calm, read(), "calm");
    gates.calm.arrive();
    two.finds_dropped(rt, boxes.reference, read(), made());
    two.reads(rt, boxes.changed, read_later(), "new");
}

/// A worker writes two values, while the other reads: what isn't written at once, and what is once
/// it has ended or was released.
pub(crate) fn write_beside<W: Worker, H: Threads + Wait + Judge + Sync>(
    rt: &H,
    mut first: Recorder<W>,
    mut second: Recorder<W>,
) {
    let changed = first.leak(rt, "old", made_later());
    let calm = first.leak(rt, "calm", made_later());
    let shared = first.leak_rc(rt, "shared", made());
    let reference = first.leak_reference(rt, shared);
    let boxes = Boxes {
        changed,
        calm,
        shared,
        reference,
    };
    let gates = Gates {
        written: Gate::new(),
        calm: Gate::new(),
    };
    thread::join(
        rt,
        || writes(rt, &mut first, boxes, &gates),
        || reads_after(rt, &mut second, boxes, &gates),
    );
    first.take_over(rt, second);
    first.finish(rt, &[[4, 2, 3, 0], [0, 2, 2, 1]]);
}

// How often each worker of a crowd makes a box, reads it and ends it: 8 workers take 5,024 steps.
const ROUNDS: u64 = 157;

// Makes box after box, reads and ends each.
fn makes_and_ends<W: Worker>(rt: &(impl Wait + Judge), one: &mut Recorder<W>) {
    for _ in 0..ROUNDS {
        let made = one.leak(rt, "one of many", made());
        one.reads(rt, made, read(), "one of many");
        one.end(rt, made);
    }
}

/// All workers make, read and end boxes of their own beside each other.
pub(crate) fn crowd<W: Worker, H: Threads + Wait + Judge + Sync>(
    rt: &H,
    workers: Vec<Recorder<W>>,
) {
    let count = workers.len();
    let act = &|mut one: Recorder<W>| {
        makes_and_ends(rt, &mut one);
        one
    };
    let mut workers = rt.expect(thread::map_vec(rt, workers, act), "memory");
    let mut first = present(rt, workers.pop(), "a worker");
    for other in workers {
        first.take_over(rt, other);
    }
    first.audit(rt, count);
}
