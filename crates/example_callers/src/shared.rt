//! Shared values, and references to them.

ghost use Rattle.std.specs.Prelude.{◌≡◌, IfOk, IfErr};
ghost use Rattle.generational_core.specs.declared.boxes.GenerationalPointer.{GenerationalPointer};
ghost use Rattle.generational_core.specs.Boxes.{name_of};
ghost use Rattle.generational_core.specs.Leaving.{IsUnchanged};
ghost use Rattle.generational_core.specs.State.{IsGiven};
ghost use Rattle.generational_laws.specs.Lacking.{IsShortage};

use crate::values::{read_value, write_value};
use generational_box::{BorrowMutResult, GenerationalBox, Location, Refused, Storage};

/// Writes a shared value through its first reference, and reads it through its second: it is what was
/// written. Each box that the store issued before is unchanged in each case.
pub fn written_through<S: Storage<u64>>(
    store: &mut S,
    value: u64,
    next: u64,
    here: Location,
) -> BorrowMutResult<u64>
    ensures written { IfOk result (λ seen. seen ≡ next) }
    ensures others { (b : GenerationalPointer) → IsGiven (S.state store.old) (name_of b) →
        IsUnchanged (S.state store.old) b (S.state store.new) }
    // It fails only if fewer than three slots are free, so that it has to allocate, or if fewer than two
    // tickets remain.
    ensures short { IfErr result (IsShortage (S.state store.old) 3 2) }
{
    let first = match GenerationalBox::leak_rc(store, value, here) {
        Ok(first) => first,
        Err(refusal) => return Err(Refused::Store(refusal.cause)),
    };
    let second = first.leak_reference(store)?;
    write_value(store, first, next, here)?;
    let seen = read_value(store, second, here)?;
    Ok(seen)
}

/// Removes the first reference to a shared value, and reads the value through the second: it has outlived
/// the first, and is the same value. Each box that the store issued before is unchanged in each case.
pub fn outlived<S: Storage<u64>>(store: &mut S, value: u64, here: Location) -> BorrowMutResult<u64>
    ensures same { IfOk result (λ seen. seen ≡ value) }
    ensures others { (b : GenerationalPointer) → IsGiven (S.state store.old) (name_of b) →
        IsUnchanged (S.state store.old) b (S.state store.new) }
    // It fails only if fewer than three slots are free, so that it has to allocate, or if the tickets are
    // used up.
    ensures short { IfErr result (IsShortage (S.state store.old) 3 1) }
{
    let first = match GenerationalBox::leak_rc(store, value, here) {
        Ok(first) => first,
        Err(refusal) => return Err(Refused::Store(refusal.cause)),
    };
    let second = first.leak_reference(store)?;
    first.manually_drop(store)?;
    let kept = read_value(store, second, here)?;
    Ok(kept)
}
