//! What a history must have of a worker.

use crate::judge::Judge;
use generational_box::{Location, StepCall};
use generational_sync::{Kind, Step, StepReply};

/// The kinds of steps, in the order in which they are counted.
pub(crate) const KINDS: [Kind; 4] = [Kind::Made, Kind::Lent, Kind::Changed, Kind::Refused];

/// Asserts that a worker's steps in the history are those that are wanted, in order, with boxes that
/// were made at the same places.
pub(crate) fn assert_recorded(rt: &impl Judge, worker: usize, history: &[Step], wanted: &[Step]) {
    let own = history.iter().filter(|step| step.worker == worker);
    let mut wanted = wanted.iter().filter(|step| step.worker == worker);
    for step in own {
        match wanted.next() {
            Some(next) => assert_step(rt, step, next),
            None => rt.demand(false, "a step that wasn't made"),
        }
    }
    rt.demand(wanted.next().is_none(), "a step that lacks");
}

// Asserts that a step is the one that is wanted, with boxes that were made at the same places.
fn assert_step(rt: &impl Judge, step: &Step, wanted: &Step) {
    rt.compare(step, wanted);
    rt.compare(&places(step), &places(wanted));
}

// Where the boxes of a call and of its reply were made, which takes no part in their equality.
fn places(step: &Step) -> [Option<Location>; 3] {
    let (asked, other) = match step.call {
        StepCall::LeakReference(asked)
        | StepCall::InsertReference(_, asked)
        | StepCall::Read(asked, _)
        | StepCall::Write(asked, _)
        | StepCall::Set(asked)
        | StepCall::ManuallyDrop(asked) => (Some(asked), None),
        StepCall::PointTo(asked, other) => (Some(asked), Some(other)),
        _ => (None, None),
    };
    let made = match step.reply {
        StepReply::Made(made) | StepReply::MadeShared(_, made) => Some(made),
        _ => None,
    };
    [asked, other, made].map(|known| known.map(|pointer| pointer.created_at))
}

/// Asserts that so many steps of a worker are of each kind: made, lent, changed, refused.
pub(crate) fn assert_kinds(rt: &impl Judge, worker: usize, steps: &[Step], counts: [usize; 4]) {
    for (kind, wanted) in KINDS.into_iter().zip(counts) {
        let found = steps
            .iter()
            .filter(|step| step.worker == worker && step.kind() == kind);
        rt.compare(&found.count(), &wanted);
    }
}
