//! Values that are set, read and written if nothing is in the way.

ghost use Rattle.std.specs.Prelude.{◌≡◌, ◌≢◌, ◌+◌, ◌<◌, ◌^◌, IfNone, IfSome, OnSome, IfOk, IfErr};
ghost use Rattle.std.specs.Prelude.{IsTrue, IsFalse, is_some, Some, None, if◌then◌else◌};
ghost use Rattle.generational_core.specs.declared.boxes.GenerationalPointer.{GenerationalPointer};
ghost use Rattle.generational_errors.specs.declared.error.StoreError.TheVariants.{NumbersExhausted};
ghost use Rattle.generational_core.specs.Answers.{pointer_of};
ghost use Rattle.generational_core.specs.Borrowing.{reach, can_write};
ghost use Rattle.generational_core.specs.Boxes.{name_of};
ghost use Rattle.generational_core.specs.Leaving.{IsUnchanged, IsSet};
ghost use Rattle.generational_core.specs.Machine.Action.{Read};
ghost use Rattle.generational_core.specs.Machine.Answer.{Refused};
ghost use Rattle.generational_core.specs.Seeing.{value_in};
ghost use Rattle.generational_core.specs.Steps.{Meets, last_ticket};
ghost use Rattle.generational_laws.specs.PlainStores.{HasNoReferences};

use generational_box::{GenerationalBox, Location, Storage, StoreError};

/// Sets a value, and returns whether it was set: it isn't if the value was dropped or is borrowed, and
/// then nothing changes. Never fails otherwise.
pub fn set_value<S: Storage<u64>>(store: &mut S, target: GenerationalBox<u64>, value: u64) -> bool
    ensures free { result ≡ can_write (S.state store.old) (pointer_of target) }
    // Each box of the same cell sees the value, and the others are unchanged.
    ensures set { IsTrue result → (b : GenerationalPointer) →
        reach (S.state store.old) b ≡ reach (S.state store.old) (pointer_of target) →
        value_in (S.state store.new) b ≡ Some value }
    ensures others { (b : GenerationalPointer) →
        reach (S.state store.old) b ≢ reach (S.state store.old) (pointer_of target) →
        IsUnchanged (S.state store.old) b (S.state store.new) }
    ensures unchanged { IsFalse result → S.state store.new ≡ S.state store.old }
{
    if !target.can_write(store) {
        return false;
    }
    target.set(store, value);
    true
}

/// Counts a value up in place, if it isn't borrowed, and returns the count before. None if the value was
/// dropped or is borrowed, and then nothing changes. Never fails otherwise.
pub fn count_up<S: Storage<u64>>(store: &mut S, counter: GenerationalBox<u64>) -> Option<u64>
    requires { IfSome (value_in (S.state store.old) (pointer_of counter)) (λ n. n + 1 < 2 ^ 64) }
    ensures free { is_some result ≡ can_write (S.state store.old) (pointer_of counter) }
    ensures before { IfSome result (λ n.
        value_in (S.state store.old) (pointer_of counter) ≡ Some n) }
    // Each box of the same cell sees the new count, and the others are unchanged.
    ensures counted { IfSome result (λ n. (b : GenerationalPointer) →
        reach (S.state store.old) b ≡ reach (S.state store.old) (pointer_of counter) →
        value_in (S.state store.new) b ≡ Some (n + 1)) }
    ensures others { (b : GenerationalPointer) →
        reach (S.state store.old) b ≢ reach (S.state store.old) (pointer_of counter) →
        IsUnchanged (S.state store.old) b (S.state store.new) }
    ensures unchanged { IfNone result (S.state store.new ≡ S.state store.old) }
{
    counter.with_mut(store, |count: &mut u64| {
        let before = *count;
        *count += 1;
        before
    })
}

/// Sets the value of a box of a store without references. Each box of another name keeps its value.
pub fn set_plain<S: Storage<u64>>(store: &mut S, given: GenerationalBox<u64>, value: u64) -> bool
    requires { HasNoReferences (S.state store.old) }
    ensures plain { HasNoReferences (S.state store.new) }
    ensures others { (b : GenerationalPointer) → name_of (pointer_of given) ≢ name_of b →
        IsUnchanged (S.state store.old) b (S.state store.new) }
{
    if given.can_write(store) {
        given.set(store, value);
        return true;
    }
    false
}

/// Reads the value that a box sees, if no writer has it. None if one has it, or if the value was dropped.
/// Every box is unchanged in each case.
pub fn read_free<S: Storage<u64>>(
    store: &mut S,
    target: GenerationalBox<u64>,
    here: Location,
) -> Result<Option<u64>, StoreError>
    ensures seen { IfOk result (λ seen. seen ≡ value_in (S.state store.old) (pointer_of target)) }
    ensures left { (b : GenerationalPointer) → IsUnchanged (S.state store.old) b (S.state store.new) }
    // It fails like the read: for lack of a ticket, or of memory.
    ensures refused { IfErr result (λ cause. Meets (S.state store.old)
        (Read (pointer_of target) here) (Refused cause) (S.state store.new)) }
{
    if !target.can_read(store) {
        return Ok(None);
    }
    let guard = target.read(store, here)?;
    let seen = guard.deref(store).map(|view| *view);
    guard.release(store);
    Ok(seen)
}

/// Sets a value and reads it back: it is the same value. None if it wasn't set. An error is that of the
/// read. Boxes of other cells are unchanged in each case.
pub fn set_and_read<S: Storage<u64>>(
    store: &mut S,
    target: GenerationalBox<u64>,
    value: u64,
    here: Location,
) -> Result<Option<u64>, StoreError>
    ensures seen { IfOk result (λ seen. seen ≡
        (if can_write (S.state store.old) (pointer_of target) then Some value else None)) }
    ensures others { (b : GenerationalPointer) →
        reach (S.state store.old) b ≢ reach (S.state store.old) (pointer_of target) →
        IsUnchanged (S.state store.old) b (S.state store.new) }
{
    if !set_value(store, target, value) {
        return Ok(None);
    }
    read_free(store, target, here)
}

/// Writes a value that isn't borrowed, and returns the old one, which the box saw. None if the value was
/// dropped or is borrowed, and then nothing changes.
pub fn exchange<S: Storage<u64>>(
    store: &mut S,
    target: GenerationalBox<u64>,
    value: u64,
    here: Location,
) -> Result<Option<u64>, StoreError>
    ensures old { IfOk result (λ old. old ≡ (if can_write (S.state store.old) (pointer_of target)
        then value_in (S.state store.old) (pointer_of target) else None)) }
    // The value changes and a ticket is used up, and nothing else.
    ensures set { IfOk result (λ old. OnSome old
        (IsSet (S.state store.old) (pointer_of target) value (S.state store.new))) }
    ensures unchanged { IfOk result (λ old. IfNone old (S.state store.new ≡ S.state store.old)) }
    // It fails only if all tickets were issued, and the state is unchanged then.
    ensures refused { IfErr result (λ cause. (cause ≡ NumbersExhausted)
        × ((S.state store.old).next ≡ last_ticket) × (S.state store.new ≡ S.state store.old)) }
{
    if !target.can_write(store) {
        return Ok(None);
    }
    let mut guard = target.write(store, here)?;
    let old = guard.replace(value);
    match guard.release(store) {
        Ok(()) => Ok(Some(old)),
        Err(_) => unreachable!(),
    }
}
