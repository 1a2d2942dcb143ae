//! Signals.

ghost use Rattle.std.specs.Prelude.{◌≡◌, ◌≢◌, Some, IfOk, IfErr, IfSome, OnOk, OnErr, option_copied};
ghost use Rattle.std.specs.Prelude.{false, is_ok, is_some};
ghost use Rattle.std.specs.Borrow.{MutBor};
ghost use Rattle.std.specs.Fn.{FnOnceReturnsAt, FnOnceReturnsAtMut};
ghost use Rattle.generational_core.specs.declared.boxes.GenerationalPointer.{GenerationalPointer};
ghost use Rattle.generational_core.specs.Answers.{read_refused, end_refused, end_answer};
ghost use Rattle.generational_core.specs.Boxes.{name_of};
ghost use Rattle.generational_core.specs.Borrowing.{reach, can_read, can_write, take_ticket};
ghost use Rattle.generational_core.specs.Leaving.{IsUnchanged, IsSet};
ghost use Rattle.generational_core.specs.Machine.Action.{Read, Write, Point, SetValue};
ghost use Rattle.generational_core.specs.Machine.Answer.{Old};
ghost use Rattle.generational_core.specs.Seeing.{value_in};
ghost use Rattle.generational_core.specs.Steps.{Meets};
ghost use Rattle.signals.specs.Scopes.{LeavesScopes};
ghost use Rattle.signals.specs.Signals.{raw_box, signal_pointer, AllSee};

use generational_core::{
    BorrowMutError, BorrowMutResult, BorrowResult, GenerationalBox, GenerationalBoxId,
    GenerationalRefMut, Location, Refused, Storage,
};
use generational_laws::caller_laws::{
    calls_leave_other_boxes, calls_leave_other_owners, guards_stay_known,
    pointed_boxes_see_what_others_saw, refused_calls_change_nothing,
    released_borrows_leave_the_rest,
};
use generational_laws::laws::{made_boxes_see_their_values, unborrowed_boxes_are_free};
use std::alloc::AllocError;
use std::fmt;
use std::hash::{Hash, Hasher};

/// A signal: it refers to a value that other signals may refer to as well, and is `Copy`. Contracts model
/// it as its box (`raw_box`).
///
/// A signal owns nothing: it reads its value until its scope ends.
pub struct Signal<T> {
    pub(crate) raw: GenerationalBox<T>,
}

/// Never fails, and doesn't allocate.
impl<T> Clone for Signal<T> {
    ghost use Rattle.std.specs.Prelude.{⊤};

    ghost is_clone = { λ a b. b ≡ a };

    ghost is_infallible = { λ _. ⊤ };

    fn clone(&self) -> Result<Self, AllocError> {
        Ok(*self)
    }
}

impl<T> Copy for Signal<T> {}

/// Equal if their ids are. An alias isn't equal to the signal that it was made of.
impl<T> PartialEq for Signal<T> {
    ghost use Rattle.std.proofs.Common.{rules};
    ghost use Rattle.std.specs.Cmp.Rules.{comparing};
    ghost use Rattle.std.specs.Ordering.{on};
    ghost use Rattle.generational_core.specs.Boxes.{has_same_id};

    ghost eq = { on signal_pointer has_same_id };

    ghost laws = { Prim.search (comparing, rules) };

    fn eq(&self, other: &Self) -> bool {
        self.raw.ptr_eq(&other.raw)
    }
}

impl<T> Eq for Signal<T> {
    ghost use Rattle.std.proofs.Common.{rules};
    ghost use Rattle.std.specs.Cmp.Rules.{comparing};

    ghost laws = { Prim.search (comparing, rules) };
}

/// Hashes the id.
impl<T> Hash for Signal<T> {
    ghost use Rattle.std.proofs.Common.{rules};
    ghost use Rattle.std.specs.Cmp.Rules.{hashing};
    ghost use Rattle.generational_core.specs.Boxes.{hashed_id};

    ghost hash_input = { λ it. hashed_id (signal_pointer it) };

    ghost respects_eq = { Prim.search (hashing, rules) };

    fn hash<H: Hasher>(&self, state: &mut H) {
        self.raw.hash(state);
    }
}

/// Prints the id, as `slot@generation`.
impl<T> fmt::Debug for Signal<T> {
    ghost use Rattle.generational_core.specs.Texts.{id_text};

    ghost debug_output = { λ it. Some (id_text (signal_pointer it).id) };

    fn fmt<W: fmt::Write>(&self, f: &mut fmt::Formatter<W>) -> fmt::Result {
        write!(f, "{:?}", self.raw)
    }
}

impl<T> Signal<T> {
    /// The signal's box, on which each call of a box may be made.
    ///
    /// ```rust
    /// let is_live = kept.as_box().is_live(store);
    /// ```
    pub fn as_box(self) -> GenerationalBox<T>
        ensures { result ≡ raw_box self }
    {
        self.raw
    }

    /// The id of the signal, which no other ever has. Copies of one signal have one id. Doesn't
    /// allocate.
    ///
    /// ```rust
    /// let id = kept.id();
    /// ```
    pub fn id(self) -> GenerationalBoxId
        ensures { result ≡ (signal_pointer self).id }
    {
        self.raw.id()
    }

    /// Calls a closure once on the value, and returns the closure's result. The store is unchanged,
    /// except that a ticket was used: the number that identifies a borrow. O(1) except for the closure.
    ///
    /// # Errors
    ///
    /// Those of a read of the signal's box, in this order: `Dropped`, `AlreadyBorrowedMut`,
    /// `NumbersExhausted`, `OutOfMemory`, only if the value has another reader. The closure isn't called
    /// then, and the store is unchanged.
    ///
    /// ```rust
    /// let seen = signal.get(store, here, |seen| *seen)?;
    /// ```
    pub fn get<S: Storage<T>, R, F: FnOnce(&T) -> R>(
        self,
        store: &mut S,
        location: Location,
        f: F,
    ) -> BorrowResult<R>
        requires { F.IsAlwaysCallable f }
        ensures read { IfOk result (λ answer. (v : T) ×
            (value_in (S.state store.old) (signal_pointer self) ≡ Some v) ×
            FnOnceReturnsAt F.FnOnce f v answer) }
        ensures ticket { OnOk result (S.state store.new ≡ take_ticket (S.state store.old)) }
        ensures refused { IfErr result (λ cause. (S.state store.new ≡ S.state store.old) ×
            Meets (S.state store.old) (Read (signal_pointer self) location) (read_refused cause)
            (S.state store.new)) }
    {
        guards_stay_known::<T>();
        unborrowed_boxes_are_free::<T>();
        refused_calls_change_nothing::<T>();
        let guard = self.raw.try_read(store, location)?;
        let answer = match guard.deref(store) {
            Some(view) => f(&*view),
            None => unreachable!(),
        };
        guard.release(store);
        Ok(answer)
    }

    /// Sets the value, and drops the old one: each box of the same value reads the new one, and nothing
    /// else changes, except that a ticket was used. O(1) except for dropping the old value, and for an
    /// error's list of locations.
    ///
    /// # Errors
    ///
    /// Those of a write of the signal's box, in this order: `Dropped`; `AlreadyBorrowedMut`;
    /// `AlreadyBorrowed`, or `OutOfMemory` instead if its list can't be allocated; `NumbersExhausted`.
    /// The value comes back then, and the store is unchanged.
    ///
    /// ```rust
    /// let alias = scope.alias(store, signal).ok()?;
    /// let Ok(()) = alias.set(store, value, here) else {
    ///     return None;
    /// };
    /// ```
    pub fn set<S: Storage<T>>(
        self,
        store: &mut S,
        value: T,
        location: Location,
    ) -> Result<(), (T, Refused<BorrowMutError>)>
    where
        T: Drop,
        ensures set { OnOk result (
            IsSet (S.state store.old) (signal_pointer self) value (S.state store.new)) }
        ensures seen { OnOk result (
            AllSee (S.state store.old) (signal_pointer self) value (S.state store.new)) }
        ensures others { OnOk result ((b : GenerationalPointer) →
            reach (S.state store.old) b ≢ reach (S.state store.old) (signal_pointer self) →
            IsUnchanged (S.state store.old) b (S.state store.new)) }
        ensures scopes { LeavesScopes (S.state store.old) (S.state store.new) }
        ensures refused { IfErr result (λ refusal. (S.state store.new ≡ S.state store.old) ×
            Meets (S.state store.old) (Write (signal_pointer self) location) (end_refused refusal.1)
            (S.state store.new)) }
        ensures back { IfErr result (λ refusal. refusal.0 ≡ value) }
    {
        released_borrows_leave_the_rest::<T>();
        refused_calls_change_nothing::<T>();
        let mut guard = match self.raw.try_write(store, location) {
            Ok(guard) => guard,
            Err(refused) => return Err((value, refused)),
        };
        set_value(&mut guard, value);
        match guard.release(store) {
            Ok(()) => Ok(()),
            Err(_) => unreachable!(),
        }
    }

    /// Calls a closure once on the value, mutably, and returns the closure's result: each box of the same
    /// value reads the changed value, and nothing else changes. No ticket is used, and the value isn't
    /// moved. O(1) except for the closure, and for an error's list of locations.
    ///
    /// # Errors
    ///
    /// If the value was dropped or is borrowed, those of a write of the signal's box, in this order:
    /// `Dropped`; `AlreadyBorrowedMut`; `AlreadyBorrowed`, or `OutOfMemory` instead if its list can't be
    /// allocated. The closure isn't called then, and the store is unchanged.
    ///
    /// ```rust
    /// clicks.update(store, here, |count| *count = count.wrapping_add(1))?;
    /// ```
    pub fn update<S: Storage<T>, R, F: FnOnce(&mut T) -> R>(
        self,
        store: &mut S,
        location: Location,
        f: F,
    ) -> BorrowMutResult<R>
        requires { (value : MutBor T) →
            value_in (S.state store.old) (signal_pointer self) ≡ Some value.now → F.pre f value }
        ensures changed { IfOk result (λ answer. (old : T) × (changed : T) ×
            (value_in (S.state store.old) (signal_pointer self) ≡ Some old) ×
            FnOnceReturnsAtMut F.FnOnce f old answer changed ×
            Meets (S.state store.old) (SetValue (signal_pointer self) changed) (Old old)
            (S.state store.new) ×
            AllSee (S.state store.old) (signal_pointer self) changed (S.state store.new)) }
        ensures free { is_ok result ≡ can_write (S.state store.old) (signal_pointer self) }
        ensures others { OnOk result ((b : GenerationalPointer) →
            reach (S.state store.old) b ≢ reach (S.state store.old) (signal_pointer self) →
            IsUnchanged (S.state store.old) b (S.state store.new)) }
        ensures scopes { LeavesScopes (S.state store.old) (S.state store.new) }
        ensures refused { IfErr result (λ cause. (S.state store.new ≡ S.state store.old) ×
            Meets (S.state store.old) (Write (signal_pointer self) location) (end_refused cause)
            (S.state store.new)) }
    {
        if !self.raw.can_write(store) {
            return Err(self.hindrance(store, location));
        }
        Ok(store.change_value(self.raw.pointer(), f))
    }

    // Why a write that may not be made fails. Nothing changes.
    fn hindrance<S: Storage<T>>(self, store: &mut S, location: Location) -> Refused<BorrowMutError>
        requires { can_write (S.state store.old) (signal_pointer self) ≡ false }
        ensures step { Meets (S.state store.old) (Write (signal_pointer self) location)
            (end_refused result) (S.state store.new) }
        ensures unchanged { S.state store.new ≡ S.state store.old }
    {
        match self.raw.try_write(store, location) {
            Err(refused) => refused,
            Ok(_) => unreachable!(),
        }
    }

    /// Calls a closure once on the value, without a ticket or a location, and returns the closure's
    /// result. The store is borrowed meanwhile.
    ///
    /// None if the signal was removed or belongs to another store, or its value is being written: the
    /// closure isn't called. Doesn't allocate itself, and is O(1) except for the closure.
    ///
    /// ```rust
    /// let twice = kept.with(store, |count| count.wrapping_mul(2));
    /// ```
    pub fn with<S: Storage<T>, R, F: FnOnce(&T) -> R>(self, store: &S, f: F) -> Option<R>
        requires { F.IsAlwaysCallable f }
        ensures read { IfSome result (λ answer. (v : T) ×
            (value_in (S.state store.now) (signal_pointer self) ≡ Some v) ×
            FnOnceReturnsAt F.FnOnce f v answer) }
        ensures seen { is_some result ≡ is_some (value_in (S.state store.now) (signal_pointer self)) }
    {
        match self.raw.peek(store) {
            Some(value) => Some(f(value)),
            None => None,
        }
    }

    /// Borrows the value without a ticket or a location. The store is borrowed meanwhile. None if the
    /// signal was removed or belongs to another store, or its value is being written. Doesn't allocate,
    /// and is O(1).
    ///
    /// ```rust
    /// if let Some(value) = kept.peek(store) {
    ///     println!(rt; "{kept:?} is {value}")?;
    /// }
    /// ```
    pub fn peek<S: Storage<T>>(self, store: &S) -> Option<&T>
        ensures { option_copied result ≡ value_in (S.state store.now) (signal_pointer self) }
    {
        self.raw.peek(store)
    }

    /// Whether the signal may be read: false if it was removed or belongs to another store, or its value
    /// is being written. Doesn't allocate, and is O(1).
    ///
    /// ```rust
    /// if kept.is_readable(store) {
    ///     let twice = kept.with(store, |count| count.wrapping_mul(2));
    ///     println!(rt; "{id:?} has {:?}, twice {twice:?}", kept.peek(store))?;
    /// }
    /// ```
    pub fn is_readable<S: Storage<T>>(self, store: &S) -> bool
        ensures { result ≡ can_read (S.state store.now) (signal_pointer self) }
    {
        self.raw.can_read(store)
    }

    /// Points the signal to the value that another refers to: it refers to what the other did and reads
    /// the same, and each other box is unchanged. The value that it referred to before is dropped if no
    /// signal refers to it any more. O(1) except for an error's list of locations, the only thing that is
    /// allocated.
    ///
    /// The results, and the errors, are those of `GenerationalBox::point_to`. A call that fails leaves
    /// the store unchanged.
    ///
    /// ```rust
    /// signal.swap_source(store, other)?;
    /// ```
    pub fn swap_source<S: Storage<T>>(self, store: &mut S, to: Signal<T>) -> BorrowMutResult<()>
        ensures step { Meets (S.state store.old) (Point (signal_pointer self) (signal_pointer to))
            (end_answer result) (S.state store.new) }
        ensures reached { OnOk result (
            reach (S.state store.new) (signal_pointer self) ≡ reach (S.state store.old) (signal_pointer to)) }
        ensures seen { OnOk result (value_in (S.state store.new) (signal_pointer self) ≡
            value_in (S.state store.old) (signal_pointer to)) }
        ensures others { (b : GenerationalPointer) → name_of (signal_pointer self) ≢ name_of b →
            IsUnchanged (S.state store.old) b (S.state store.new) }
        ensures scopes { LeavesScopes (S.state store.old) (S.state store.new) }
        ensures refused { OnErr result (S.state store.new ≡ S.state store.old) }
    {
        made_boxes_see_their_values::<T>();
        pointed_boxes_see_what_others_saw::<T>();
        calls_leave_other_boxes::<T>();
        calls_leave_other_owners::<T>();
        refused_calls_change_nothing::<T>();
        self.raw.point_to(store, to.raw)
    }
}

// Sets the value of a writer's guard, and drops the old one.
fn set_value<T: Drop>(guard: &mut GenerationalRefMut<T>, value: T)
    ensures { guard.new ≡ record guard.old { value = value } }
{
    guard.replace(value);
}
