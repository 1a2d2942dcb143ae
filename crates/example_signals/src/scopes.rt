//! Scopes and their signals.

ghost use Rattle.std.specs.Prelude.{◌≡◌, ◌≢◌, ◌+◌, ◌%◌, ◌^◌, ◌⊎◌, ℕ, [], Some, IfSome, IfOk, IfErr};
ghost use Rattle.generational_core.specs.declared.boxes.GenerationalPointer.{GenerationalPointer};
ghost use Rattle.generational_errors.specs.declared.error.Refused.TheVariants as refused;
ghost use Rattle.generational_errors.specs.declared.error.StoreError.TheVariants.{NumbersExhausted};
ghost use Rattle.generational_core.specs.Answers.{end_refused};
ghost use Rattle.generational_core.specs.Borrowing.{reach};
ghost use Rattle.generational_core.specs.Boxes.{name_of};
ghost use Rattle.generational_core.specs.Leaving.{IsUnchanged};
ghost use Rattle.generational_core.specs.Machine.{Action};
ghost use Rattle.generational_core.specs.Machine.Action.{Point, Write};
ghost use Rattle.generational_core.specs.Machine.Answer.{Done};
ghost use Rattle.generational_core.specs.Seeing.{value_in};
ghost use Rattle.generational_core.specs.State.{State};
ghost use Rattle.generational_core.specs.Steps.{Meets, last_ticket};
ghost use Rattle.signals.specs.Scopes.{HasSignals};
ghost use Rattle.signals.specs.Signals.{signal_pointer};

use generational_box::{BorrowMutResult, Location, Storage};
use signals::{Scope, Signal};

/// Makes a signal in one scope and an alias of it in another, ends the first scope, and reads the alias:
/// it is the value that was passed in.
pub fn outlived<S: Storage<u64>>(store: &mut S, value: u64, here: Location) -> Option<u64>
    ensures { IfSome result (λ seen. seen ≡ value) }
{
    let Ok(inner) = Scope::new(store) else {
        return None;
    };
    let outer = match Scope::new(store) {
        Ok(outer) => outer,
        Err(_) => {
            inner.leak();
            return None;
        }
    };
    let seen = alias_outlives(store, inner, &outer, value, here);
    outer.leak();
    seen
}

// The same of two scopes, of which the first has no signals yet.
fn alias_outlives<S: Storage<u64>>(
    store: &mut S,
    inner: Scope,
    outer: &Scope,
    value: u64,
    here: Location,
) -> Option<u64>
    requires apart { outer.now ≢ inner }
    requires empty { HasSignals (S.state store.old) inner [] }
    ensures { IfSome result (λ seen. seen ≡ value) }
{
    let signal = match inner.signal(store, value, here) {
        Ok(signal) => signal,
        Err(_) => {
            inner.leak();
            return None;
        }
    };
    let alias = match outer.alias(store, signal) {
        Ok(alias) => alias,
        Err(_) => {
            inner.leak();
            return None;
        }
    };
    match inner.end(store) {
        Ok(()) => alias.get(store, here, |seen| *seen).ok(),
        Err((inner, _)) => {
            inner.leak();
            None
        }
    }
}

/// Sets a value through an alias, and reads it through the signal from which the alias was made: it is
/// what was set. None if a call fails.
pub fn set_through_alias<S: Storage<u64>>(
    store: &mut S,
    scope: &Scope,
    signal: Signal<u64>,
    value: u64,
    here: Location,
) -> Option<u64>
    ensures { IfSome result (λ seen. seen ≡ value) }
{
    let alias = scope.alias(store, signal).ok()?;
    let Ok(()) = alias.set(store, value, here) else {
        return None;
    };
    signal.get(store, here, |seen| *seen).ok()
}

/// Points a signal to the value of another, sets that value, and reads it through the first: it is what
/// was set. Boxes of other names and other cells are unchanged in each case.
pub fn set_source<S: Storage<u64>>(
    store: &mut S,
    signal: Signal<u64>,
    other: Signal<u64>,
    value: u64,
    here: Location,
) -> BorrowMutResult<u64>
    ensures set { IfOk result (λ seen. seen ≡ value) }
    ensures others { (b : GenerationalPointer) → name_of (signal_pointer signal) ≢ name_of b →
        reach (S.state store.old) b ≢ reach (S.state store.old) (signal_pointer other) →
        IsUnchanged (S.state store.old) b (S.state store.new) }
    // It fails like `swap_source`, like the write after it, or like a read when the tickets are used up.
    ensures refused { IfErr result (λ refusal.
        let turn : Action ℕ = Point (signal_pointer signal) (signal_pointer other) in
        let write : Action ℕ = Write (signal_pointer signal) here in
        Meets (S.state store.old) turn (end_refused refusal) (S.state store.new)
        ⊎ ((turned : State ℕ) × Meets (S.state store.old) turn Done turned
        × Meets turned write (end_refused refusal) (S.state store.new))
        ⊎ ((refusal ≡ refused.Store NumbersExhausted)
        × ((S.state store.new).next ≡ last_ticket))) }
{
    signal.swap_source(store, other)?;
    match signal.set(store, value, here) {
        Ok(()) => {}
        Err((_, refusal)) => return Err(refusal),
    }
    let seen = signal.get(store, here, |seen| *seen)?;
    Ok(seen)
}

/// Counts a signal up by one, and reads it. Boxes of other cells are unchanged in each case.
pub fn count_up<S: Storage<u64>>(
    store: &mut S,
    signal: Signal<u64>,
    here: Location,
) -> BorrowMutResult<u64>
    ensures counted { IfOk result (λ seen. (old : ℕ) ×
        (value_in (S.state store.old) (signal_pointer signal) ≡ Some old) ×
        (seen ≡ (old + 1) % 2 ^ 64)) }
    ensures others { (b : GenerationalPointer) →
        reach (S.state store.old) b ≢ reach (S.state store.old) (signal_pointer signal) →
        IsUnchanged (S.state store.old) b (S.state store.new) }
    // It fails like the write, or like a read when the tickets are used up.
    ensures refused { IfErr result (λ refusal.
        Meets (S.state store.old) (Write (signal_pointer signal) here) (end_refused refusal)
        (S.state store.new)
        ⊎ ((refusal ≡ refused.Store NumbersExhausted)
        × ((S.state store.new).next ≡ last_ticket))) }
{
    signal.update(store, here, |count| *count = count.wrapping_add(1))?;
    let seen = signal.get(store, here, |seen| *seen)?;
    Ok(seen)
}
