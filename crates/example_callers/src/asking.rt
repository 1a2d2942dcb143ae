//! What can be checked before a call, and what references refer to.

ghost use Rattle.std.specs.Prelude.{◌≡◌, ◌+◌, IfErr, IfOk, IfSome, OnErr, OnOk, Some, true, ◌||◌};
ghost use Rattle.generational_core.specs.Answers.{pointer_of};
ghost use Rattle.generational_core.specs.Boxes.{has_same_id};
ghost use Rattle.generational_core.specs.Conditions.{fresh};
ghost use Rattle.generational_core.specs.Seeing.{value_in};
ghost use Rattle.generational_core.specs.Slots.{free, retired};
ghost use Rattle.generational_core.specs.StepCalls.{id_of_owner, meets_no_borrow, is_ready, target_of};
ghost use Rattle.generational_core.specs.Machine.Action.{ReleaseOwner};
ghost use Rattle.generational_core.specs.Machine.Answer.{Done};
ghost use Rattle.generational_core.specs.Steps.{Meets};
ghost use Rattle.generational_core.specs.declared.boxes.GenerationalPointer.{GenerationalPointer};
ghost use Rattle.generational_core.specs.declared.steps.StepCall.TheVariants as call;

use generational_box::{
    AnyStorage, GenerationalBox, GenerationalBoxId, Owner, StepCall, Storage, StoreError,
    UnsyncStorage,
};
use std::alloc::Global;

/// Releases an owner value, if no borrow is in the way. If one is, or if the store doesn't know the
/// owner, the owner comes back and nothing changes.
pub fn release_if_free<S: Storage<u64>>(store: &mut S, owner: Owner) -> Result<(), Owner>
    ensures back { IfErr result (λ o. o ≡ owner) }
    ensures left { OnErr result (S.state store.new ≡ S.state store.old) }
    ensures done { OnOk result (Meets (S.state store.old) (ReleaseOwner owner) Done
        (S.state store.new)) }
    ensures free { OnOk result (meets_no_borrow (S.state store.old) (ReleaseOwner owner) ≡ true) }
{
    if !store.may_release(&owner) {
        return Err(owner);
    }
    match owner.release(store) {
        Ok(()) => Ok(()),
        Err((owner, _)) => Err(owner),
    }
}

/// Whether the release of an owner value is ready as a history records it.
pub fn is_release_ready<S: Storage<u64>>(store: &S, owner: &Owner) -> bool
    ensures { result ≡ is_ready (S.state store.now) (call.ReleaseOwner (id_of_owner owner.now)) }
{
    store.ready(&StepCall::ReleaseOwner(owner.id()))
}

/// Whether two boxes are references to one shared value.
pub fn are_aliases<S: Storage<u64>>(
    store: &S,
    one: GenerationalBox<u64>,
    other: GenerationalBox<u64>,
) -> bool
    ensures same { result ≡ true
        → target_of (S.state store.now) (pointer_of one)
        ≡ target_of (S.state store.now) (pointer_of other) }
    ensures named { IfSome (target_of (S.state store.now) (pointer_of one)) (λ t.
        target_of (S.state store.now) (pointer_of other) ≡ Some t → result ≡ true) }
{
    store.target(one.pointer()).is_some()
        && store.target(one.pointer()) == store.target(other.pointer())
}

/// The value of a box of which only the id was stored: what `peek` of the box itself returns.
pub fn look_by_id<S: Storage<u64>>(store: &S, id: GenerationalBoxId) -> Option<u64>
    ensures { IfSome result (λ value. (kept : GenerationalPointer) → kept.id ≡ id
        → value_in (S.state store.now) kept ≡ Some value) }
{
    GenerationalBox::find(store, id)?.peek(store).copied()
}

/// Whether a box is one of two.
pub fn is_one_of(
    asked: GenerationalBox<u64>,
    one: GenerationalBox<u64>,
    other: GenerationalBox<u64>,
) -> bool
    ensures { result ≡ has_same_id (pointer_of asked) (pointer_of one)
        || has_same_id (pointer_of asked) (pointer_of other) }
{
    asked == one || asked == other
}

/// How many slots of a store have no live cell: they are free, or retired.
pub fn slots_without_cells<S: Storage<u64>>(store: &S) -> usize
    ensures { result ≡ free (S.state store.now) + retired (S.state store.now) }
{
    store.slots() - store.len()
}

/// Creates a store with capacity for this many values, without values.
pub fn store_for(
    alloc: Global,
    number: u64,
    values: usize,
) -> Result<UnsyncStorage<u64>, StoreError>
    ensures { IfOk result (λ store. store.state ≡ fresh number 1 0) }
{
    let mut store = UnsyncStorage::new(alloc, number);
    store.reserve(values)?;
    Ok(store)
}
