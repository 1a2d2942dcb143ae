//! Faults that are kept until something is changed.

ghost use Rattle.std.specs.Prelude.{◌≡◌, ◌⊎◌, ℕ, Some, IfSome};
ghost use Rattle.reactive.specs.Blaming.{IsAtFault};
ghost use Rattle.reactive.specs.declared.blame.Blame.{Blame};
ghost use Rattle.stamped_values.specs.Stamps.{stamped_at};

use crate::effects::shortage;
use crate::fault::Fault;
use crate::key::Key;
use crate::look::Frame;
use stamped_values::StampedValues;

/// A node, and why it means nothing.
#[derive(Clone, Copy)]
pub(crate) struct Blame {
    pub(crate) key: Key,
    pub(crate) fault: Fault,
}

// The kept fault of a node, if there is one.
pub(crate) fn kept_fault(faults: &StampedValues<Blame>, key: Key) -> Option<Fault>
    ensures { IfSome result (λ f. stamped_at faults.now key.id.slot ≡ Some (record { key = key; fault = f })) }
{
    let blame = faults.get(key.id.slot)?;
    if blame.key == key {
        Some(blame.fault)
    } else {
        None
    }
}

// Keeps a fault of a node, and of those on the path to it, as far as there is memory for it. A lack of
// memory or numbers isn't kept, nor that the node itself was removed, which is found out at once.
pub(crate) fn keep_fault(
    faults: &mut StampedValues<Blame>,
    path: &Vec<Frame>,
    top: Key,
    fault: Fault,
)
    ensures { (s : ℕ) (b : Blame) → stamped_at faults.new s ≡ Some b →
        (stamped_at faults.old s ≡ Some b) ⊎ IsAtFault path.now.items top fault b }
{
    let None = shortage(fault) else {
        return;
    };
    if fault == Fault::Gone(top) {
        return;
    }
    let key = top;
    let _ = faults.put(key.id.slot, Blame { key, fault });
    for frame in path.iter() {
        let key = frame.key;
        let _ = faults.put(key.id.slot, Blame { key, fault });
    }
}
