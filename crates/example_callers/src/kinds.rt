//! Values of two kinds in one store.

ghost use Rattle.std.specs.Prelude.{◌≡◌, ℕ, Bool, not, IfErr, OnOk, OnErr, Some};
ghost use Rattle.generational_core.specs.Answers.{pointer_of, end_refused};
ghost use Rattle.generational_core.specs.Leaving.{IsSet};
ghost use Rattle.generational_core.specs.Machine.Action.{Write};
ghost use Rattle.generational_core.specs.Seeing.{value_in};
ghost use Rattle.generational_core.specs.Steps.{Meets};
ghost use Rattle.example_callers.specs.declared.kinds.Entry.TheVariants as entry;

use generational_box::{BorrowMutResult, GenerationalBox, Location, Storage};

/// A number or a flag.
#[derive(Clone, Copy)]
pub enum Entry {
    /// A number.
    Number(u64),
    /// A flag.
    Flag(bool),
}

/// The opposite of a flag. A number is unchanged.
fn opposite(given: Entry) -> Entry
    ensures flag { (on : Bool) → given ≡ entry.Flag on → result ≡ entry.Flag (not on) }
    ensures number { (n : ℕ) → given ≡ entry.Number n → result ≡ given }
{
    match given {
        Entry::Number(n) => Entry::Number(n),
        Entry::Flag(on) => Entry::Flag(!on),
    }
}

/// Turns a flag to its opposite, and leaves a number unchanged. Fails like a write, and then nothing
/// changes.
pub fn toggle<S: Storage<Entry>>(
    store: &mut S,
    target: GenerationalBox<Entry>,
    here: Location,
) -> BorrowMutResult<()>
    ensures flag { OnOk result ((on : Bool) →
        value_in (S.state store.old) (pointer_of target) ≡ Some (entry.Flag on) →
        IsSet (S.state store.old) (pointer_of target) (entry.Flag (not on)) (S.state store.new)) }
    ensures number { OnOk result ((n : ℕ) →
        value_in (S.state store.old) (pointer_of target) ≡ Some (entry.Number n) →
        IsSet (S.state store.old) (pointer_of target) (entry.Number n) (S.state store.new)) }
    ensures refused { IfErr result (λ refusal. Meets (S.state store.old)
        (Write (pointer_of target) here) (end_refused refusal) (S.state store.new)) }
    ensures unchanged { OnErr result (S.state store.new ≡ S.state store.old) }
{
    let mut guard = target.try_write(store, here)?;
    let next = opposite(*guard.deref());
    *guard.deref_mut() = next;
    match guard.release(store) {
        Ok(()) => Ok(()),
        Err(_) => unreachable!(),
    }
}
