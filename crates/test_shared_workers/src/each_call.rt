//! Each call that lies under the lock, called without threads.

use crate::judge::Judge;
use crate::places::{made, made_later, read};
use crate::recorder::text;
use generational_box::{GenerationalBox, GenerationalRefMut, Owner, StepCall};
use generational_sync::{Count, SyncState, Tally};
use std::alloc::Global;

/// Two owner values of one record keep a box, a shared value and a reference. Values are written,
/// set, and pointed to; with the second owner value all ends that the record lists.
pub fn call_each<A: Count, B: Count, C: Count, D: Count>(
    rt: &impl Judge,
    alloc: Global,
    state: &mut SyncState<String, 7, A, B, C, D>,
    tally: &mut Tally<A, B, C, D>,
) {
    let session = rt.expect(state.owner(tally), "an owner");
    let again = rt.expect(state.clone_owner(&session, tally), "the same owner");
    let kept = insert(rt, alloc, state, tally, &session);
    let free = leak_rc(rt, alloc, state, tally);
    let listed = insert_rc(rt, alloc, state, tally, &session);
    let beside = refer(rt, state, tally, listed);
    let other = refer_for(rt, state, tally, &again, free);
    change(rt, alloc, state, tally, kept, beside);
    assert_shows(rt, state, tally, listed, "set");
    point(rt, state, tally, other, listed);
    assert_shows(rt, state, tally, other, "set");
    release(rt, state, tally, session);
    assert_shows(rt, state, tally, kept, "twice");
    release(rt, state, tally, again);
    assert_gone(rt, state, tally, kept);
    assert_gone(rt, state, tally, other);
    assert_shows(rt, state, tally, beside, "set");
    assert_shows(rt, state, tally, free, "free");
}

// Makes a box of `kept`, on the owner's list.
fn insert<A: Count, B: Count, C: Count, D: Count>(
    rt: &impl Judge,
    alloc: Global,
    state: &mut SyncState<String, 7, A, B, C, D>,
    tally: &mut Tally<A, B, C, D>,
    owner: &Owner,
) -> GenerationalBox<String> {
    let kept = state.insert(owner, text(rt, alloc, "kept"), made(), tally);
    rt.expect(kept.map_err(|refusal| refusal.cause), "a box")
}

// Makes a shared value `shared`, and a reference to it on the owner's list.
fn insert_rc<A: Count, B: Count, C: Count, D: Count>(
    rt: &impl Judge,
    alloc: Global,
    state: &mut SyncState<String, 7, A, B, C, D>,
    tally: &mut Tally<A, B, C, D>,
    owner: &Owner,
) -> GenerationalBox<String> {
    let shared = state.insert_rc(owner, text(rt, alloc, "shared"), made(), tally);
    rt.expect(shared.map_err(|refusal| refusal.cause), "a shared value")
}

// Makes a shared value `free`, and a reference to it on no list.
fn leak_rc<A: Count, B: Count, C: Count, D: Count>(
    rt: &impl Judge,
    alloc: Global,
    state: &mut SyncState<String, 7, A, B, C, D>,
    tally: &mut Tally<A, B, C, D>,
) -> GenerationalBox<String> {
    let shared = state.leak_rc(text(rt, alloc, "free"), made_later(), tally);
    rt.expect(shared.map_err(|refusal| refusal.cause), "a shared value")
}

// Makes a reference to what a box refers to, on no list.
fn refer<A: Count, B: Count, C: Count, D: Count>(
    rt: &impl Judge,
    state: &mut SyncState<String, 7, A, B, C, D>,
    tally: &mut Tally<A, B, C, D>,
    asked: GenerationalBox<String>,
) -> GenerationalBox<String> {
    if !state.ready(&StepCall::LeakReference(asked.pointer())) {
        return rt.stop("a reference that waits");
    }
    let reference = state.leak_reference(asked, tally);
    rt.expect(reference, "a reference")
}

// Makes a reference to what a box refers to, on the owner's list.
fn refer_for<A: Count, B: Count, C: Count, D: Count>(
    rt: &impl Judge,
    state: &mut SyncState<String, 7, A, B, C, D>,
    tally: &mut Tally<A, B, C, D>,
    owner: &Owner,
    asked: GenerationalBox<String>,
) -> GenerationalBox<String> {
    let call = StepCall::InsertReference(owner.id(), asked.pointer());
    if !state.ready(&call) {
        return rt.stop("a reference that waits");
    }
    let reference = state.insert_reference(owner, asked, tally);
    rt.expect(reference, "a reference")
}

// Writes `once` and then `twice` to the first box by guards, and sets the value of the other to `set`.
fn change<A: Count, B: Count, C: Count, D: Count>(
    rt: &impl Judge,
    alloc: Global,
    state: &mut SyncState<String, 7, A, B, C, D>,
    tally: &mut Tally<A, B, C, D>,
    written: GenerationalBox<String>,
    set: GenerationalBox<String>,
) {
    let guard = try_write(rt, state, tally, written);
    end_write(rt, alloc, state, tally, guard, "once");
    let guard = write(rt, state, tally, written);
    end_write(rt, alloc, state, tally, guard, "twice");
    if !state.ready(&StepCall::Set(set.pointer())) {
        return rt.stop("another value that waits");
    }
    let value = text(rt, alloc, "set");
    rt.compare(&state.set(set, value, tally), &Ok(()));
}

// Begins a write by `try_write`.
fn try_write<A: Count, B: Count, C: Count, D: Count>(
    rt: &impl Judge,
    state: &mut SyncState<String, 7, A, B, C, D>,
    tally: &mut Tally<A, B, C, D>,
    asked: GenerationalBox<String>,
) -> GenerationalRefMut<String> {
    if !state.ready(&StepCall::Write(asked.pointer(), read())) {
        return rt.stop("a write that waits");
    }
    let guard = state.try_write(asked, read(), tally);
    rt.expect(guard, "a guard")
}

// Begins a write by `write`.
fn write<A: Count, B: Count, C: Count, D: Count>(
    rt: &impl Judge,
    state: &mut SyncState<String, 7, A, B, C, D>,
    tally: &mut Tally<A, B, C, D>,
    asked: GenerationalBox<String>,
) -> GenerationalRefMut<String> {
    if !state.ready(&StepCall::Write(asked.pointer(), read())) {
        return rt.stop("a write that waits");
    }
    let guard = state.write(asked, read(), tally);
    rt.expect(guard, "a guard")
}

// Ends a write that leaves this value.
fn end_write<A: Count, B: Count, C: Count, D: Count>(
    rt: &impl Judge,
    alloc: Global,
    state: &mut SyncState<String, 7, A, B, C, D>,
    tally: &mut Tally<A, B, C, D>,
    mut guard: GenerationalRefMut<String>,
    value: &str,
) {
    *guard.deref_mut() = text(rt, alloc, value);
    rt.compare(&state.release_write(guard, tally), &Ok(()));
}

// Points a reference to what another box refers to.
fn point<A: Count, B: Count, C: Count, D: Count>(
    rt: &impl Judge,
    state: &mut SyncState<String, 7, A, B, C, D>,
    tally: &mut Tally<A, B, C, D>,
    asked: GenerationalBox<String>,
    other: GenerationalBox<String>,
) {
    let call = StepCall::PointTo(asked.pointer(), other.pointer());
    if !state.ready(&call) {
        return rt.stop("a reference that waits");
    }
    rt.compare(&state.point_to(asked, other, tally), &Ok(()));
}

// Spends an owner value.
fn release<A: Count, B: Count, C: Count, D: Count>(
    rt: &impl Judge,
    state: &mut SyncState<String, 7, A, B, C, D>,
    tally: &mut Tally<A, B, C, D>,
    owner: Owner,
) {
    if !state.may_release(&owner) {
        owner.leak();
        return rt.stop("a release that waits");
    }
    if let Err((owner, _)) = state.release_owner(owner, tally) {
        owner.leak();
        rt.stop("an owner that stays")
    }
}

// Asserts that a box shows a value.
fn assert_shows<A: Count, B: Count, C: Count, D: Count>(
    rt: &impl Judge,
    state: &mut SyncState<String, 7, A, B, C, D>,
    tally: &mut Tally<A, B, C, D>,
    asked: GenerationalBox<String>,
    wanted: &str,
) {
    if !state.ready(&StepCall::Read(asked.pointer(), read())) {
        return rt.stop("a read that waits");
    }
    let guard = rt.expect(state.read(asked, read(), tally), "a guard");
    let opened = state.open(&guard);
    rt.demand(
        opened.is_some_and(|text| text.as_str() == wanted),
        "another value",
    );
    rt.demand(state.release_read(guard, tally), "an unknown reader");
}

// Asserts that a box's cell has ended.
fn assert_gone<A: Count, B: Count, C: Count, D: Count>(
    rt: &impl Judge,
    state: &mut SyncState<String, 7, A, B, C, D>,
    tally: &mut Tally<A, B, C, D>,
    asked: GenerationalBox<String>,
) {
    if !state.ready(&StepCall::Read(asked.pointer(), read())) {
        return rt.stop("a read that waits");
    }
    if let Ok(guard) = state.read(asked, read(), tally) {
        rt.demand(state.release_read(guard, tally), "an unknown reader");
        rt.stop("a cell that lives")
    }
}
