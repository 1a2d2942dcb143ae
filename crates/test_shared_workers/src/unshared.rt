//! What lies under the lock, called without threads.

use crate::judge::Judge;
use crate::places::{made as leaked_at, read as read_at};
use crate::recorder::text;
use generational_box::{BaseRow, GenerationalBox, GenerationalRef, StepCall};
use generational_sync::{Count, Step, StepReply, SyncState, Tally};
use std::alloc::Global;

// Makes a box of `hello`.
fn leak<A: Count, B: Count, C: Count, D: Count>(
    rt: &impl Judge,
    alloc: Global,
    state: &mut SyncState<String, 7, A, B, C, D>,
    tally: &mut Tally<A, B, C, D>,
) -> GenerationalBox<String> {
    let made = state.leak(text(rt, alloc, "hello"), leaked_at(), tally);
    rt.expect(made.map_err(|refusal| refusal.cause), "a box")
}

// Begins a read, which nothing hinders.
fn begin<A: Count, B: Count, C: Count, D: Count>(
    rt: &impl Judge,
    state: &mut SyncState<String, 7, A, B, C, D>,
    tally: &mut Tally<A, B, C, D>,
    asked: GenerationalBox<String>,
) -> GenerationalRef<String> {
    let call = StepCall::Read(asked.pointer(), read_at());
    if !state.ready(&call) {
        return rt.stop("a read that waits");
    }
    let guard = state.try_read(asked, read_at(), tally);
    rt.expect(guard, "a guard")
}

// Removes a box, which nothing hinders.
fn end<A: Count, B: Count, C: Count, D: Count>(
    rt: &impl Judge,
    state: &mut SyncState<String, 7, A, B, C, D>,
    tally: &mut Tally<A, B, C, D>,
    asked: GenerationalBox<String>,
) {
    let call = StepCall::ManuallyDrop(asked.pointer());
    if !state.ready(&call) {
        return rt.stop("an end that waits");
    }
    rt.expect(state.manually_drop(asked, tally), "a box that ends");
}

// Asserts that a guard opens `hello`.
fn assert_opens<A: Count, B: Count, C: Count, D: Count>(
    rt: &impl Judge,
    state: &SyncState<String, 7, A, B, C, D>,
    guard: &GenerationalRef<String>,
) {
    let opened = state.open(guard);
    let opens = opened.is_some_and(|text| text.as_str() == "hello");
    rt.demand(opens, "another value");
}

/// Makes a box, reads it twice and ends it, by the calls that lie under the lock. A reader hinders
/// the end.
pub fn live<A: Count, B: Count, C: Count, D: Count>(
    rt: &impl Judge,
    alloc: Global,
    state: &mut SyncState<String, 7, A, B, C, D>,
    tally: &mut Tally<A, B, C, D>,
) {
    let made = leak(rt, alloc, state, tally);
    let guard = begin(rt, state, tally, made);
    let beside = begin(rt, state, tally, made);
    assert_opens(rt, state, &guard);
    rt.demand(state.release_read(beside, tally), "an unknown reader");
    let call = StepCall::ManuallyDrop(made.pointer());
    rt.demand(!state.ready(&call), "an end that waits for nobody");
    rt.demand(state.release_read(guard, tally), "an unknown reader");
    end(rt, state, tally, made);
}

/// Trims the steps during a read, and goes on. The audit has a base of the state then, and only the later
/// steps.
pub fn trim<A: Count, B: Count, C: Count, D: Count>(
    rt: &impl Judge,
    alloc: Global,
    state: &mut SyncState<String, 7, A, B, C, D>,
    tally: &mut Tally<A, B, C, D>,
) {
    let made = leak(rt, alloc, state, tally);
    let guard = begin(rt, state, tally, made);
    rt.compare(&state.checkpoint(), &Ok(2));
    rt.demand(state.release_read(guard, tally), "an unknown reader");
    end(rt, state, tally, made);
    assert_audited(rt, state, tally, made);
}

// Asserts that a box and its reader are in the base, and that their ends came later.
fn assert_audited<A: Count, B: Count, C: Count, D: Count>(
    rt: &impl Judge,
    state: &mut SyncState<String, 7, A, B, C, D>,
    tally: &mut Tally<A, B, C, D>,
    made: GenerationalBox<String>,
) {
    if !tally.is_whole() {
        return rt.stop("a tally that lacks");
    }
    let (base, steps) = rt.expect(state.audit(tally), "an audit");
    let id = made.id();
    let value = BaseRow::Value(id, leaked_at());
    let reader = BaseRow::Reader(id, 0, read_at());
    rt.compare(&base.trimmed(), &2);
    let rows = [BaseRow::Slot(0, 1), value, reader];
    rt.demand(base.rows() == rows.as_slice(), "other rows");
    let released = step(StepCall::ReleaseRead(0));
    let ended = step(StepCall::ManuallyDrop(made.pointer()));
    let wanted = [released, ended];
    rt.demand(steps.as_slice() == wanted.as_slice(), "other steps");
}

// A step of worker 0 that was carried out.
fn step(call: StepCall) -> Step {
    Step {
        worker: 0,
        call,
        reply: StepReply::Done,
    }
}
