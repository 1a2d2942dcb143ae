//! Histories of drawn calls, audited and printed.

use crate::Done;
use crate::calls::{Calls, here};
use crate::drawn::{Board, Drawing, DrawnCalls, SPOTS};
use crate::locked::Worker;
use generational_box::{
    AnyStorage, GenerationalBox, GenerationalPointer, Location, Owner, StepCall, Storage,
    UnsyncStorage,
};
use generational_sync::{Count, Step, StepReply};
use std::alloc::Global;
use std::sync::Wait;
use std::thread::{self, Threads};

/// What is drawn.
#[derive(Clone, Copy)]
pub(crate) struct Course {
    /// The number from which it is drawn.
    pub(crate) seed: u64,
    /// The rounds of each worker.
    pub(crate) rounds: u64,
    /// A worker's rounds from one checkpoint to the next; 0 if none is made.
    pub(crate) between: u64,
}

// How often the worker that is left makes a checkpoint before it draws more calls.
const CHECKPOINTS: u64 = 4;

/// Lets the workers draw their calls in threads. Then one worker alone, with the counts of all, prints
/// the audit, makes a checkpoint while borrows stand and fewer values live than before, and draws more
/// calls, a few times over. So each base but the first is where the history before it led. The last
/// history has no steps.
pub(crate) fn print_history<W: DrawnCalls + Drop + Send, H: Threads + Wait + Print + Sync>(
    rt: &H,
    alloc: Global,
    workers: Vec<W>,
    course: Course,
) -> Option<Done> {
    let mut last = draw_beside(rt, alloc, workers, course)?;
    let mut steps = 0usize;
    let kept = last.keep(rt)?;
    for turn in 0..CHECKPOINTS {
        last.clear(rt);
        let borrows = last.begin_borrows(rt, kept, turn)?;
        let printed = last.calls.print_audit(rt);
        let trimmed = last.calls.checkpoint(rt);
        last.end_borrows(rt, borrows);
        if !trimmed {
            return None;
        }
        steps = steps.wrapping_add(printed?);
        last.rounds(rt, course.rounds / 4, 0)?;
    }
    steps = steps.wrapping_add(last.calls.print_audit(rt)?);
    if !last.calls.checkpoint(rt) {
        return None;
    }
    last.calls.print_audit(rt)?;
    Some(Done { calls: 0, steps })
}

// Has the workers draw their calls in threads. The one that is returned has the counts of all.
fn draw_beside<W: DrawnCalls + Drop + Send, H: Threads + Wait + Sync>(
    rt: &H,
    alloc: Global,
    mut workers: Vec<W>,
    course: Course,
) -> Option<Drawing<W>> {
    let mut other = UnsyncStorage::<u64>::new(alloc, 9);
    let strange = ask_for_strangers(rt, workers.first_mut()?, &mut other)?;
    let board = Board::new(alloc, vec![in alloc; strange; SPOTS as usize].ok()?)?;
    let mut drawing = Vec::new(alloc);
    let mut seed = course.seed;
    for worker in workers {
        seed = seed.wrapping_add(0x9E37_79B9_7F4A_7C15);
        let one = Drawing::new(worker, board.try_clone()?, seed);
        drawing.push(one).ok()?;
    }
    let (rounds, between) = (course.rounds, course.between);
    let parts = thread::map_vec(
        rt,
        drawing,
        &|mut one: Drawing<W>| {
            let done = one.rounds(rt, rounds, between);
            (one, done)
        },
    )
    .ok()?;
    gather(parts)
}

// The last worker, with the counts of all. None if one didn't come to its end.
fn gather<W: DrawnCalls + Drop>(mut parts: Vec<(Drawing<W>, Option<()>)>) -> Option<Drawing<W>> {
    let (mut last, done) = parts.pop()?;
    done?;
    for (one, done) in parts {
        done?;
        if !last.calls.take_over(one.calls) {
            return None;
        }
    }
    Some(last)
}

// Makes a box of another store. An insertion by an owner of that store fails.
fn ask_for_strangers<S: Storage<u64>>(
    rt: &impl Wait,
    worker: &mut impl Calls,
    other: &mut S,
) -> Option<GenerationalBox<u64>> {
    if let Ok(owner) = other.owner() {
        worker.insert(rt, &owner, 0);
        owner.leak();
    }
    GenerationalBox::leak(other, 0, here()).ok()
}

impl<
    A: Count + Send + Sync,
    B: Count + Send + Sync,
    C: Count + Send + Sync,
    D: Count + Send + Sync,
> DrawnCalls for Worker<A, B, C, D> {
    fn clone_owner(&mut self, rt: &impl Wait, owner: &Owner) -> Option<Owner> {
        self.store.clone_owner(rt, owner, &mut self.tally).ok()
    }

    fn insert_reference(
        &mut self,
        rt: &impl Wait,
        owner: &Owner,
        of: GenerationalBox<u64>,
    ) -> Option<GenerationalBox<u64>> {
        self.store
            .insert_reference(rt, owner, of, &mut self.tally)
            .ok()
    }

    fn take_over(&mut self, other: Self) -> bool {
        self.tally.merge(other.tally).is_ok()
    }

    fn print_audit(&mut self, rt: &(impl Wait + Print)) -> Option<usize> {
        if !self.tally.is_whole() {
            return None;
        }
        let (base, steps) = self.store.audit(rt, &mut self.tally).ok()?;
        println!(rt; "{base:?}").ok()?;
        for step in steps.iter() {
            print_step(rt, step)?;
        }
        Some(steps.len())
    }
}

// Prints a step. What of its boxes doesn't print with them comes last.
fn print_step(rt: &impl Print, step: &Step) -> Option<()> {
    let Step {
        worker,
        call,
        reply,
    } = step;
    println!(rt; "{worker} {call:?} {reply:?} {:?}", origins(step)).ok()
}

// The store of each box in a step, and where its cell was made: of the box of the call, of the other one,
// and of the returned one.
fn origins(step: &Step) -> [Option<(u64, Location)>; 3] {
    let (asked, other) = match step.call {
        StepCall::LeakReference(asked)
        | StepCall::InsertReference(_, asked)
        | StepCall::Read(asked, _)
        | StepCall::Write(asked, _)
        | StepCall::Set(asked)
        | StepCall::ManuallyDrop(asked) => (Some(asked), None),
        StepCall::PointTo(asked, other) => (Some(asked), Some(other)),
        _ => (None, None),
    };
    let made = match step.reply {
        StepReply::Made(made) | StepReply::MadeShared(_, made) => Some(made),
        _ => None,
    };
    [asked, other, made].map(|known| {
        known.map(|pointer: GenerationalPointer| (pointer.id.store, pointer.created_at))
    })
}
