//! A single value: stored, read and written.

ghost use Rattle.std.specs.Prelude.{◌≡◌, ◌≢◌, IfOk, IfErr, OnOk, OnErr, Some, unwrap_or};
ghost use Rattle.generational_core.specs.declared.boxes.GenerationalPointer.{GenerationalPointer};
ghost use Rattle.generational_core.specs.Answers.{pointer_of, read_refused, end_refused};
ghost use Rattle.generational_core.specs.Borrowing.{reach};
ghost use Rattle.generational_core.specs.Boxes.{name_of};
ghost use Rattle.generational_core.specs.Leaving.{IsUnchanged, IsSet};
ghost use Rattle.generational_core.specs.Machine.Action.{Read, Write};
ghost use Rattle.generational_core.specs.Seeing.{value_in};
ghost use Rattle.generational_core.specs.State.{IsGiven};
ghost use Rattle.generational_core.specs.Steps.{Meets};
ghost use Rattle.generational_laws.specs.Lacking.{IsShortage};

use generational_box::{
    BorrowMutResult, BorrowResult, GenerationalBox, Location, Refused, Storage,
};

/// Stores a value, and reads it: it is the same value. Every earlier box is unchanged in each case.
pub fn there_and_back<S: Storage<u64>>(
    store: &mut S,
    value: u64,
    here: Location,
) -> BorrowResult<u64>
    ensures same { IfOk result (λ seen. seen ≡ value) }
    ensures others { (b : GenerationalPointer) → IsGiven (S.state store.old) (name_of b) →
        IsUnchanged (S.state store.old) b (S.state store.new) }
    // It fails only if no slot is free, so that it has to allocate, or if the tickets are used up.
    ensures short { IfErr result (IsShortage (S.state store.old) 1 1) }
{
    let made = match GenerationalBox::leak(store, value, here) {
        Ok(made) => made,
        Err(refusal) => return Err(Refused::Store(refusal.cause)),
    };
    let guard = made.try_read(store, here)?;
    let kept = guard.deref(store).map(|view| *view);
    guard.release(store);
    let Some(kept) = kept else {
        unreachable!();
    };
    Ok(kept)
}

/// Reads the value that a box sees. Every box is unchanged in each case.
pub fn read_value<S: Storage<u64>>(
    store: &mut S,
    target: GenerationalBox<u64>,
    here: Location,
) -> BorrowResult<u64>
    ensures seen { IfOk result (λ seen.
        value_in (S.state store.old) (pointer_of target) ≡ Some seen) }
    ensures left { (b : GenerationalPointer) → IsUnchanged (S.state store.old) b (S.state store.new) }
    // It fails like the read.
    ensures refused { IfErr result (λ refusal. Meets (S.state store.old)
        (Read (pointer_of target) here) (read_refused refusal) (S.state store.new)) }
{
    let guard = target.try_read(store, here)?;
    let seen = guard.deref(store).map(|view| *view);
    guard.release(store);
    match seen {
        Some(seen) => Ok(seen),
        None => unreachable!(),
    }
}

/// Writes a value through a writer's view.
pub fn write_value<S: Storage<u64>>(
    store: &mut S,
    target: GenerationalBox<u64>,
    value: u64,
    here: Location,
) -> BorrowMutResult<()>
    // Each box of the same cell sees the value, and the others are unchanged in each case.
    ensures written { OnOk result ((b : GenerationalPointer) →
        reach (S.state store.old) b ≡ reach (S.state store.old) (pointer_of target) →
        value_in (S.state store.new) b ≡ Some value) }
    ensures others { (b : GenerationalPointer) →
        reach (S.state store.old) b ≢ reach (S.state store.old) (pointer_of target) →
        IsUnchanged (S.state store.old) b (S.state store.new) }
    // Nothing else changes but a ticket, which is used up.
    ensures set { OnOk result (
        IsSet (S.state store.old) (pointer_of target) value (S.state store.new)) }
    // It fails like the write, and the state is unchanged then.
    ensures refused { IfErr result (λ refusal. Meets (S.state store.old)
        (Write (pointer_of target) here) (end_refused refusal) (S.state store.new)) }
    ensures unchanged { OnErr result (S.state store.new ≡ S.state store.old) }
{
    let mut guard = target.try_write(store, here)?;
    *guard.deref_mut() = value;
    match guard.release(store) {
        Ok(()) => Ok(()),
        Err(_) => unreachable!(),
    }
}

/// Writes a value and reads it back: it is the same value. Fails like the write, and like the read after
/// it. Boxes of other cells are unchanged in each case.
pub fn written_value<S: Storage<u64>>(
    store: &mut S,
    target: GenerationalBox<u64>,
    value: u64,
    here: Location,
) -> BorrowMutResult<u64>
    ensures same { IfOk result (λ seen. seen ≡ value) }
    ensures others { (b : GenerationalPointer) →
        reach (S.state store.old) b ≢ reach (S.state store.old) (pointer_of target) →
        IsUnchanged (S.state store.old) b (S.state store.new) }
{
    write_value(store, target, value, here)?;
    let seen = read_value(store, target, here)?;
    Ok(seen)
}

/// Replaces the value that a box sees, and reads the new one back. Returns the old value and the one that
/// was read: what the box saw, and the one that was passed in. Fails like the write, and like the read
/// after it. Boxes of other cells are unchanged in each case.
pub fn replaced_value<S: Storage<u64>>(
    store: &mut S,
    target: GenerationalBox<u64>,
    value: u64,
    here: Location,
) -> BorrowMutResult<(u64, u64)>
    ensures old { IfOk result (λ both.
        value_in (S.state store.old) (pointer_of target) ≡ Some both.0) }
    ensures new { IfOk result (λ both. both.1 ≡ value) }
    ensures others { (b : GenerationalPointer) →
        reach (S.state store.old) b ≢ reach (S.state store.old) (pointer_of target) →
        IsUnchanged (S.state store.old) b (S.state store.new) }
{
    let mut guard = target.try_write(store, here)?;
    let old = guard.replace(value);
    match guard.release(store) {
        Ok(()) => {}
        Err(_) => unreachable!(),
    }
    let seen = read_value(store, target, here)?;
    Ok((old, seen))
}

/// What `peek` of a box returns, or another number if that is None.
pub fn shown_or<S: Storage<u64>>(store: &S, target: GenerationalBox<u64>, other: u64) -> u64
    ensures { result ≡ unwrap_or (value_in (S.state store.now) (pointer_of target)) other }
{
    match target.peek(store) {
        Some(shown) => *shown,
        None => other,
    }
}
