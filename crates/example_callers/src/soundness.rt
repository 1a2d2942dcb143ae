//! What every store's state is known to be.

ghost use Rattle.std.specs.Prelude.{◌≤◌, ◌+◌};
ghost use Rattle.generational_core.specs.State.{IsSound};
ghost use Rattle.generational_core.specs.Slots.{slots, retired};

use generational_box::Storage;

/// Does nothing with a store: its state is sound and its slots are bounded, at any time.
pub fn at_rest<S: Storage<u64>>(store: &S)
    ensures sound { IsSound (S.state store.now) }
    ensures bounded { slots (S.state store.now)
        ≤ (S.state store.now).peak + retired (S.state store.now) }
{}
