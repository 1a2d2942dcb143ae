//! An owner's values.

ghost use Rattle.std.specs.Prelude.{◌≡◌, ◌≢◌, IfOk, IfErr, OnErr, Some, true};
ghost use Rattle.generational_core.specs.declared.boxes.GenerationalPointer.{GenerationalPointer};
ghost use Rattle.generational_core.specs.Answers.{pointer_of, release_answer};
ghost use Rattle.generational_core.specs.Boxes.{name_of};
ghost use Rattle.generational_core.specs.Conditions.{IsEnded};
ghost use Rattle.generational_core.specs.Leaving.{IsUnchanged};
ghost use Rattle.generational_core.specs.Machine.{ownership};
ghost use Rattle.generational_core.specs.Machine.Action.{ReleaseOwner};
ghost use Rattle.generational_core.specs.Names.{among};
ghost use Rattle.generational_core.specs.State.{Ownership};
ghost use Rattle.generational_core.specs.Steps.{Meets};
ghost use Rattle.generational_laws.specs.Lacking.{Lacks};
ghost use Rattle.generational_laws.specs.ListedOnce.{AreListedOnce};

use generational_box::{
    BorrowMutError, GenerationalBox, Location, Owner, Refusal, Refused, Storage, StoreError,
};

/// Stores a value by an owner, and releases the owner. Returns the box, whose name is never live again;
/// every other box is unchanged. If it fails, every box is, and none is made.
pub fn end_owned<S: Storage<u64>>(
    store: &mut S,
    value: u64,
    here: Location,
) -> Result<GenerationalBox<u64>, StoreError>
    ensures ended { IfOk result (λ made.
        IsEnded (S.state store.new) (name_of (pointer_of made))) }
    ensures others { IfOk result (λ made. (b : GenerationalPointer) →
        name_of (pointer_of made) ≢ name_of b →
        IsUnchanged (S.state store.old) b (S.state store.new)) }
    ensures left { OnErr result ((b : GenerationalPointer) →
        IsUnchanged (S.state store.old) b (S.state store.new)) }
    // It fails only if an allocation fails, or if the tickets are used up.
    ensures cause { IfErr result (λ cause. Lacks (S.state store.old) cause) }
{
    let owner = store.owner()?;
    let made = owner.insert(store, value, here);
    match owner.release(store) {
        Ok(()) => {}
        Err((owner, _)) => {
            owner.leak();
            unreachable!()
        }
    }
    match made {
        Ok(made) => Ok(made),
        Err(Refusal { value: _, cause }) => Err(cause),
    }
}

/// Releases an owner, given another one. Returns the result of the release. The boxes in the other's list
/// are unchanged in each case.
pub fn release_beside<S: Storage<u64>>(
    store: &mut S,
    first: Owner,
    second: &Owner,
) -> Result<(), (Owner, Refused<BorrowMutError>)>
    requires apart { first ≢ second.now }
    requires once { AreListedOnce (S.state store.old) }
    ensures once { AreListedOnce (S.state store.new) }
    ensures left { (h : Ownership) (b : GenerationalPointer) →
        ownership (S.state store.old) second.now ≡ Some h → among h.names (name_of b) ≡ true →
        IsUnchanged (S.state store.old) b (S.state store.new) }
    ensures step { Meets (S.state store.old) (ReleaseOwner first) (release_answer result)
        (S.state store.new) }
{
    first.release(store)
}
