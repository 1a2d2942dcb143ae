//! Scopes.

ghost use Rattle.std.specs.Prelude.{◌≡◌, ◌≢◌, true, false, List, [], ◌∷◌, ◌++◌, Some, None};
ghost use Rattle.std.specs.Prelude.{IfOk, IfErr, OnOk, OnErr};
ghost use Rattle.generational_core.specs.declared.boxes.GenerationalPointer.{GenerationalPointer};
ghost use Rattle.generational_core.specs.Answers.{owner_answer, release_answer};
ghost use Rattle.generational_core.specs.Borrowing.{reach};
ghost use Rattle.generational_core.specs.Boxes.{name_of};
ghost use Rattle.generational_core.specs.Conditions.{IsEnded};
ghost use Rattle.generational_core.specs.Leaving.{IsUnchanged};
ghost use Rattle.generational_core.specs.Machine.{OwnerName, ownership};
ghost use Rattle.generational_core.specs.Machine.Action.{NewOwner, MakeShared, Refer, ReleaseOwner};
ghost use Rattle.generational_core.specs.Names.{Name, among};
ghost use Rattle.generational_core.specs.Seeing.{value_in};
ghost use Rattle.generational_core.specs.StepCalls.{id_of_owner};
ghost use Rattle.generational_core.specs.Steps.{Meets};
ghost use Rattle.signals.specs.Scopes.{HasSignals, LeavesScopes, LeavesOtherScopes};
ghost use Rattle.signals.specs.Signals.{signal_pointer, signal_answer, alias_answer};

use crate::signal::Signal;
use generational_core::{
    AnyStorage, BorrowMutError, BorrowResult, Location, Owner, OwnerId, Refusal, Refused, Storage,
    StoreError,
};
use generational_laws::caller_laws::{
    boxes_end_for_good, calls_leave_other_boxes, calls_leave_other_owners,
    refused_calls_change_nothing,
};
use generational_laws::laws::{
    boxes_and_guards_are_new, made_boxes_see_their_values, owners_list_their_boxes,
};
use std::fmt;
use std::marker::Model;

/// A scope of signals, which are removed with it. Contracts model it as its store's number and its key.
///
/// It has no `Drop`: `end` or `leak` must consume it.
pub struct Scope {
    owner: Owner,
}

impl Model for Scope {
    ghost use Rattle.generational_core.specs.Machine.{OwnerName};

    ghost Value = { OwnerName };

    ghost view = { λ s. s.owner };
}

/// Prints `scope KEY of store NUMBER`.
impl fmt::Debug for Scope {
    ghost use Rattle.signals.specs.Texts.{scope_text};

    ghost debug_output = { λ s. Some (scope_text s) };

    fn fmt<W: fmt::Write>(&self, f: &mut fmt::Formatter<W>) -> fmt::Result {
        let id = self.owner.id();
        write!(f, "scope {} of store {}", id.key, id.store)
    }
}

impl Scope {
    /// The id of the scope, which no other ever has. Doesn't allocate.
    ///
    /// ```rust
    /// let key = page.id().key;
    /// ```
    pub fn id(&self) -> OwnerId
        ensures { result ≡ id_of_owner self.now }
    {
        self.owner.id()
    }

    /// Creates a scope without signals. It takes a ticket, one of the numbers that a store issues for its
    /// borrows and owners. Allocates for the scope's record, and is amortised O(1).
    ///
    /// # Errors
    ///
    /// - `NumbersExhausted` if the tickets are used up.
    /// - `OutOfMemory`.
    ///
    /// The store is unchanged then.
    ///
    /// ```rust
    /// let dialog = Scope::new(store)?;
    ///
    /// if let Err((dialog, _)) = dialog.end(store) {
    ///     dialog.leak();
    /// }
    /// ```
    pub fn new<T, S: AnyStorage<T>>(store: &mut S) -> Result<Scope, StoreError>
        ensures step { Meets (S.state store.old) NewOwner (owner_answer result)
            (S.state store.new) }
        ensures empty { IfOk result (λ scope. HasSignals (S.state store.new) scope []) }
        ensures unknown { IfOk result (λ scope. ownership (S.state store.old) scope ≡ None) }
        ensures others { (b : GenerationalPointer) →
            IsUnchanged (S.state store.old) b (S.state store.new) }
        ensures scopes { LeavesScopes (S.state store.old) (S.state store.new) }
        ensures refused { OnErr result (S.state store.new ≡ S.state store.old) }
    {
        owners_list_their_boxes::<T>();
        calls_leave_other_boxes::<T>();
        calls_leave_other_owners::<T>();
        let owner = store.owner()?;
        Ok(Scope { owner })
    }

    /// Creates a signal of a value, which is removed with this scope and with no other. The signal reads
    /// the value, and each other box is unchanged. Allocates if fewer than two slots are free, or the
    /// scope's list has no room. Amortised O(1).
    ///
    /// # Errors
    ///
    /// - `UnknownOwner` if the scope is of a store with another number.
    /// - `OutOfMemory`.
    ///
    /// The value comes back then, and the store is unchanged.
    ///
    /// ```rust
    /// let clicks = dialog.signal(store, 6, here)?;
    /// ```
    pub fn signal<T, S: Storage<T>>(
        &self,
        store: &mut S,
        value: T,
        location: Location,
    ) -> Result<Signal<T>, Refusal<T>>
        ensures step { Meets (S.state store.old) (MakeShared (Some self.now) value location)
            (signal_answer result) (S.state store.new) }
        ensures seen { IfOk result (λ signal.
            value_in (S.state store.new) (signal_pointer signal) ≡ Some value) }
        ensures others { IfOk result (λ signal. (b : GenerationalPointer) →
            name_of (signal_pointer signal) ≢ name_of b →
            IsUnchanged (S.state store.old) b (S.state store.new)) }
        ensures listed { IfOk result (λ signal. (names : List Name) →
            HasSignals (S.state store.old) self.now names →
            HasSignals (S.state store.new) self.now (names ++ name_of (signal_pointer signal) ∷ [])) }
        ensures unlisted { IfOk result (λ signal. (scope : OwnerName) (names : List Name) →
            HasSignals (S.state store.old) scope names →
            among names (name_of (signal_pointer signal)) ≡ false) }
        ensures scopes { LeavesOtherScopes (S.state store.old) self.now (S.state store.new) }
        ensures refused { OnErr result (S.state store.new ≡ S.state store.old) }
        ensures back { IfErr result (λ refusal. refusal.value ≡ value) }
    {
        made_boxes_see_their_values::<T>();
        boxes_and_guards_are_new::<T>();
        calls_leave_other_boxes::<T>();
        calls_leave_other_owners::<T>();
        refused_calls_change_nothing::<T>();
        let raw = self.owner.insert_rc(store, value, location)?;
        Ok(Signal { raw })
    }

    /// Creates another signal of the value that a signal refers to. It refers to the same value and reads
    /// the same, and each other box is unchanged. It is removed with this scope and with no other, and
    /// the value lives at least as long. Allocates if no slot is free, or the scope's list has no room.
    /// Amortised O(1).
    ///
    /// # Errors
    ///
    /// - `UnknownOwner` if the scope is of a store with another number.
    /// - `Dropped` if the other was removed.
    /// - `AlreadyBorrowedMut` if its value is being written.
    /// - `OutOfMemory`.
    ///
    /// The store is unchanged then.
    ///
    /// ```rust
    /// let clicks = dialog.signal(store, 6, here)?;
    /// let kept = page.alias(store, clicks)?;
    /// ```
    pub fn alias<T, S: Storage<T>>(&self, store: &mut S, of: Signal<T>) -> BorrowResult<Signal<T>>
        ensures step { Meets (S.state store.old) (Refer (Some self.now) (signal_pointer of))
            (alias_answer result) (S.state store.new) }
        ensures reached { IfOk result (λ signal.
            reach (S.state store.new) (signal_pointer signal) ≡
            reach (S.state store.old) (signal_pointer of)) }
        ensures together { IfOk result (λ signal.
            reach (S.state store.new) (signal_pointer signal) ≡
            reach (S.state store.new) (signal_pointer of)) }
        ensures seen { IfOk result (λ signal.
            value_in (S.state store.new) (signal_pointer signal) ≡
            value_in (S.state store.old) (signal_pointer of)) }
        ensures others { IfOk result (λ signal. (b : GenerationalPointer) →
            name_of (signal_pointer signal) ≢ name_of b →
            IsUnchanged (S.state store.old) b (S.state store.new)) }
        ensures listed { IfOk result (λ signal. (names : List Name) →
            HasSignals (S.state store.old) self.now names →
            HasSignals (S.state store.new) self.now (names ++ name_of (signal_pointer signal) ∷ [])) }
        ensures unlisted { IfOk result (λ signal. (scope : OwnerName) (names : List Name) →
            HasSignals (S.state store.old) scope names →
            among names (name_of (signal_pointer signal)) ≡ false) }
        ensures scopes { LeavesOtherScopes (S.state store.old) self.now (S.state store.new) }
        ensures refused { OnErr result (S.state store.new ≡ S.state store.old) }
    {
        made_boxes_see_their_values::<T>();
        boxes_and_guards_are_new::<T>();
        calls_leave_other_boxes::<T>();
        calls_leave_other_owners::<T>();
        refused_calls_change_nothing::<T>();
        let raw = self.owner.insert_reference(store, of.raw)?;
        Ok(Signal { raw })
    }

    /// Removes the scope and all of its signals: each name of its list has ended, and each other box is
    /// unchanged. A value is dropped with the last signal that refers to it, so one that a signal of
    /// another scope refers to stays live. O(k) for k signals.
    ///
    /// # Errors
    ///
    /// - `UnknownOwner` if the scope is of a store with another number.
    /// - The error of a write of the first signal of the scope, in the order in which they were made,
    ///   whose value would be dropped and is borrowed.
    ///
    /// The scope comes back then, and the store is unchanged. Only the list of an error's locations is
    /// allocated.
    ///
    /// ```rust
    /// if let Err((dialog, _)) = dialog.end(store) {
    ///     dialog.leak();
    /// }
    /// ```
    pub fn end<T, S: AnyStorage<T>>(
        self,
        store: &mut S,
    ) -> Result<(), (Scope, Refused<BorrowMutError>)>
        ensures step { Meets (S.state store.old) (ReleaseOwner self) (release_answer result)
            (S.state store.new) }
        ensures ended { OnOk result ((names : List Name) →
            HasSignals (S.state store.old) self names →
            (n : Name) → among names n ≡ true → IsEnded (S.state store.new) n) }
        ensures others { OnOk result ((names : List Name) →
            HasSignals (S.state store.old) self names →
            (b : GenerationalPointer) → among names (name_of b) ≡ false →
            IsUnchanged (S.state store.old) b (S.state store.new)) }
        ensures scopes { LeavesOtherScopes (S.state store.old) self (S.state store.new) }
        ensures refused { OnErr result (S.state store.new ≡ S.state store.old) }
        ensures back { IfErr result (λ refusal. refusal.0 ≡ self) }
    {
        boxes_end_for_good::<T>();
        calls_leave_other_boxes::<T>();
        calls_leave_other_owners::<T>();
        refused_calls_change_nothing::<T>();
        let Scope { owner } = self;
        match owner.release(store) {
            Ok(()) => Ok(()),
            Err((owner, refused)) => Err((Scope { owner }, refused)),
        }
    }

    /// Consumes the scope, and leaves its signals unchanged: no scope ever removes them from then on. Use
    /// it for a scope whose `end` failed. Doesn't allocate, and is O(1).
    ///
    /// ```rust
    /// if let Err((dialog, _)) = dialog.end(store) {
    ///     dialog.leak();
    /// }
    /// ```
    pub fn leak(self) {
        let Scope { owner } = self;
        owner.leak();
    }
}
