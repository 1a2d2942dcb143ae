//! What calls leave unchanged: other boxes, guards, owners, and the whole store if a call fails.

ghost use Rattle.std.specs.Prelude.{◌≡◌, ◌≢◌, IfErr, IfNone, IfOk, IfSome, IsFalse, IsTrue, OnErr, OnOk};
ghost use Rattle.std.specs.Prelude.{Some, is_some};
ghost use Rattle.generational_core.specs.declared.boxes.GenerationalPointer.{GenerationalPointer};
ghost use Rattle.generational_core.specs.Answers.{pointer_of};
ghost use Rattle.generational_core.specs.Borrowing.{reach};
ghost use Rattle.generational_core.specs.Boxes.{name_of};
ghost use Rattle.generational_core.specs.Conditions.{IsEnded};
ghost use Rattle.generational_core.specs.Leaving.{IsUnchanged, IsSet, HasNoBorrows};
ghost use Rattle.generational_core.specs.Machine.{OwnerName, ownership};
ghost use Rattle.generational_core.specs.Names.{Name};
ghost use Rattle.generational_core.specs.Seeing.{value_in};
ghost use Rattle.generational_core.specs.State.{Ownership};

use generational_box::{
    BorrowMutResult, BorrowResult, GenerationalBox, Location, Owner, Refusal, Storage,
};

/// Removes a value. Its name is never live again, or the removal fails and the store's state is
/// unchanged. A box of another name is unchanged in either case.
pub fn end_value<S: Storage<u64>>(
    store: &mut S,
    target: GenerationalBox<u64>,
) -> BorrowMutResult<()>
    ensures ended { OnOk result ((m : Name) →
        reach (S.state store.old) (pointer_of target) ≡ Some m →
        IsEnded (S.state store.new) (name_of (pointer_of target))) }
    ensures refused { OnErr result (S.state store.new ≡ S.state store.old) }
    ensures others { (b : GenerationalPointer) → name_of (pointer_of target) ≢ name_of b →
        IsUnchanged (S.state store.old) b (S.state store.new) }
{
    target.manually_drop(store)
}

/// Moves a value out of the store, which removes its box. None if the value is shared, borrowed or gone,
/// and then nothing changes. A box of another name is unchanged in either case.
pub fn move_out<S: Storage<String>>(
    store: &mut S,
    target: GenerationalBox<String>,
) -> Option<String>
    ensures seen { IfSome result (λ value.
        value_in (S.state store.old) (pointer_of target) ≡ Some value) }
    ensures ended { IfSome result (λ value.
        IsEnded (S.state store.new) (name_of (pointer_of target))) }
    ensures others { (b : GenerationalPointer) → name_of (pointer_of target) ≢ name_of b →
        IsUnchanged (S.state store.old) b (S.state store.new) }
    ensures unchanged { IfNone result (S.state store.new ≡ S.state store.old) }
{
    target.take(store)
}

/// Points a reference to what another box refers to, so that it sees what the other saw. If that fails,
/// nothing changes.
pub fn follow<S: Storage<u64>>(
    store: &mut S,
    reference: GenerationalBox<u64>,
    other: GenerationalBox<u64>,
) -> BorrowMutResult<()>
    ensures seen { OnOk result (value_in (S.state store.new) (pointer_of reference) ≡
        value_in (S.state store.old) (pointer_of other)) }
    ensures refused { OnErr result (S.state store.new ≡ S.state store.old) }
{
    reference.point_to(store, other)
}

/// Reads a value while another is removed, if that can be: it is what the box saw. Fails like the read,
/// and then nothing changes. Boxes that don't have the other's name see the same value.
pub fn read_across_end<S: Storage<u64>>(
    store: &mut S,
    target: GenerationalBox<u64>,
    other: GenerationalBox<u64>,
    here: Location,
) -> BorrowResult<u64>
    ensures seen { IfOk result (λ seen.
        value_in (S.state store.old) (pointer_of target) ≡ Some seen) }
    ensures others { (b : GenerationalPointer) → name_of (pointer_of other) ≢ name_of b →
        value_in (S.state store.new) b ≡ value_in (S.state store.old) b }
    ensures refused { OnErr result (S.state store.new ≡ S.state store.old) }
{
    let guard = target.try_read(store, here)?;
    let _ended = other.manually_drop(store).is_ok();
    let seen = guard.deref(store).map(|view| *view);
    guard.release(store);
    match seen {
        Some(seen) => Ok(seen),
        None => unreachable!(),
    }
}

/// Writes a value, and returns whether it was written: then only the value and the next ticket change,
/// and otherwise nothing. A guard's release in its own store never fails.
pub fn put_value<S: Storage<u64>>(
    store: &mut S,
    target: GenerationalBox<u64>,
    value: u64,
    here: Location,
) -> bool
    ensures set { IsTrue result →
        IsSet (S.state store.old) (pointer_of target) value (S.state store.new) }
    ensures refused { IsFalse result → S.state store.new ≡ S.state store.old }
{
    let mut guard = match target.try_write(store, here) {
        Ok(guard) => guard,
        Err(_) => return false,
    };
    guard.replace(value);
    match guard.release(store) {
        Ok(()) => true,
        Err(_) => unreachable!(),
    }
}

/// Whether a box sees a value.
pub fn sees_value<S: Storage<u64>>(store: &S, target: GenerationalBox<u64>) -> bool
    ensures { result ≡ is_some (value_in (S.state store.now) (pointer_of target)) }
{
    target.can_read(store)
}

/// Removes a value of a store without borrows. Never fails.
pub fn end_unborrowed<S: Storage<u64>>(store: &mut S, target: GenerationalBox<u64>)
    requires { HasNoBorrows (S.state store.old) }
    ensures { HasNoBorrows (S.state store.new) }
{
    match target.manually_drop(store) {
        Ok(()) => {}
        Err(_) => unreachable!(),
    }
}

/// Stores a shared value by an owner. If that fails, the value comes back, and nothing changes. Every
/// other owner keeps its list.
pub fn share_by<S: Storage<u64>>(
    store: &mut S,
    owner: &Owner,
    value: u64,
    here: Location,
) -> Result<GenerationalBox<u64>, Refusal<u64>>
    ensures seen { IfOk result (λ made.
        value_in (S.state store.new) (pointer_of made) ≡ Some value) }
    ensures others { (o : OwnerName) (h : Ownership) → owner.now ≢ o →
        ownership (S.state store.old) o ≡ Some h → ownership (S.state store.new) o ≡ Some h }
    ensures back { IfErr result (λ refusal. refusal.value ≡ value) }
    ensures refused { OnErr result (S.state store.new ≡ S.state store.old) }
{
    owner.insert_rc(store, value, here)
}
