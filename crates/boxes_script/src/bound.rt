//! The bound on slots.

ghost use Rattle.std.specs.Prelude.{◌↔◌, ◌≤◌, ◌+◌, IsTrue};
ghost use Rattle.generational_core.specs.Slots.{slots, retired};

use generational_core::AnyStorage;

/// Whether a store has at most as many slots as the peak number of live cells plus the slots that are
/// never reused. Doesn't allocate.
pub fn is_bounded<T, S: AnyStorage<T>>(store: &S) -> bool
    ensures { IsTrue result ↔
        (slots (S.state store.now) ≤ (S.state store.now).peak + retired (S.state store.now)) }
{
    store.slots().saturating_sub(store.retired()) <= store.peak_live()
}
