//! Calls that make boxes and owners.

ghost use Rattle.std.specs.Prelude.{◌≡◌, None, Some, IfErr};
ghost use Rattle.generational_core.specs.Answers.{box_answer, owner_answer, pointer_of};
ghost use Rattle.generational_core.specs.Answers.{reference_box_answer};
ghost use Rattle.generational_core.specs.Machine.Action.{CloneOwner, Make, MakeShared, NewOwner};
ghost use Rattle.generational_core.specs.Machine.Action.{Refer};
ghost use Rattle.shared_state.specs.Shared.{IsUnseenStep};

use super::SyncStorage;
use generational_box::{
    BorrowResult, GenerationalBox, Location, Owner, Refusal, StepCall, StoreError,
};
use shared_history::{Count, Tally};
use std::sync::Wait;

impl<T: Drop, const NUMBER: u64, M: Count, L: Count, C: Count, R: Count> SyncStorage<
    T,
    NUMBER,
    M,
    L,
    C,
    R,
> {
    /// Stores a value, and returns its box. The value lives until it is removed manually. The box has the
    /// store's number and the location, and its id was never issued before. Waits for no borrow.
    ///
    /// Allocates for a slot, if none is free, and for the step.
    ///
    /// # Errors
    ///
    /// `OutOfMemory`: the value comes back, and nothing changes.
    ///
    /// ```rust
    /// let total = first.store.leak(rt, 0, here, &mut first.tally)?;
    /// ```
    pub fn leak(
        &self,
        rt: &impl Wait,
        value: T,
        location: Location,
        tally: &mut Tally<M, L, C, R>,
    ) -> Result<GenerationalBox<T>, Refusal<T>>
        ensures step { IsUnseenStep NUMBER tally.old (Make None value location) (box_answer result)
            tally.new }
        ensures back { IfErr result (λ r. r.value ≡ value) }
    {
        self.shared.held.lock(rt).state.leak(value, location, tally)
    }

    /// Stores a shared value with a first reference to it, and returns the reference's box. The reference
    /// lives until it is removed manually. The box has the store's number and the location, and its id
    /// was never issued before. The value lives exactly as long as there is a live reference to it. Waits
    /// for no borrow.
    ///
    /// Allocates for two slots, if fewer are free, and for the step.
    ///
    /// # Errors
    ///
    /// `OutOfMemory`: the value comes back, and nothing changes.
    ///
    /// ```rust
    /// self.store.leak_rc(rt, value, at, &mut self.tally)
    /// ```
    pub fn leak_rc(
        &self,
        rt: &impl Wait,
        value: T,
        location: Location,
        tally: &mut Tally<M, L, C, R>,
    ) -> Result<GenerationalBox<T>, Refusal<T>>
        ensures step { IsUnseenStep NUMBER tally.old (MakeShared None value location)
            (box_answer result) tally.new }
        ensures back { IfErr result (λ r. r.value ≡ value) }
    {
        self.shared
            .held
            .lock(rt)
            .state
            .leak_rc(value, location, tally)
    }

    /// Adds a reference to the shared value that a box refers to, once that isn't being written, and
    /// returns its box. The reference lives until it is removed manually. The box has the store's number
    /// and the value's location, and its id was never issued before. Wakes the calls that wait.
    ///
    /// # Errors
    ///
    /// - `OutOfMemory` if the history has no room.
    /// - `Dropped` with the box's own creation location if its cell was removed or belongs to another
    ///   store, or if its value isn't shared (a step).
    /// - `OutOfMemory` if anything else can't be allocated.
    ///
    /// A call that fails changes nothing. Allocates for a slot, if none is free, and for the step.
    ///
    /// ```rust
    /// self.store.leak_reference(rt, of, &mut self.tally)
    /// ```
    pub fn leak_reference(
        &self,
        rt: &impl Wait,
        asked: GenerationalBox<T>,
        tally: &mut Tally<M, L, C, R>,
    ) -> BorrowResult<GenerationalBox<T>>
        ensures step { IsUnseenStep {T = T} NUMBER tally.old (Refer None (pointer_of asked))
            (reference_box_answer result) tally.new }
    {
        let call = StepCall::LeakReference(asked.pointer());
        let mut held = self.lock_when(rt, call);
        let made = held.state.leak_reference(asked, tally);
        self.unlock(held, made.is_ok());
        made
    }

    /// Returns an owner without boxes, of a new record. It has the store's number. Waits for no borrow.
    ///
    /// # Errors
    ///
    /// - `OutOfMemory` if the history has no room.
    /// - `NumbersExhausted` if the tickets are used up (a step).
    /// - `OutOfMemory` if anything else can't be allocated.
    ///
    /// A call that fails changes nothing. Allocates for the record and for the step.
    ///
    /// ```rust
    /// let session = self.store.owner(rt, &mut self.tally)?;
    /// ```
    pub fn owner(&self, rt: &impl Wait, tally: &mut Tally<M, L, C, R>) -> Result<Owner, StoreError>
        ensures step { IsUnseenStep {T = T} NUMBER tally.old NewOwner (owner_answer result)
            tally.new }
    {
        self.shared.held.lock(rt).state.owner(tally)
    }

    /// Returns another owner value of the same record. Waits for no borrow.
    ///
    /// # Errors
    ///
    /// - `OutOfMemory` only if the history has no room.
    /// - `UnknownOwner` if the store has no record of the owner (a step).
    /// - `NumbersExhausted` if the tickets are used up (a step).
    ///
    /// A call that fails changes nothing. Nothing else allocates.
    ///
    /// ```rust
    /// self.store.clone_owner(rt, owner, &mut self.tally)
    /// ```
    pub fn clone_owner(
        &self,
        rt: &impl Wait,
        owner: &Owner,
        tally: &mut Tally<M, L, C, R>,
    ) -> Result<Owner, StoreError>
        ensures step { IsUnseenStep {T = T} NUMBER tally.old (CloneOwner owner.now)
            (owner_answer result) tally.new }
    {
        self.shared.held.lock(rt).state.clone_owner(owner, tally)
    }

    /// Stores a value, and returns its box. The value is removed when the last owner value of this record
    /// is released. The box has the store's number and the location, and its id was never issued before.
    /// Waits for no borrow.
    ///
    /// # Errors
    ///
    /// - `OutOfMemory` if the history has no room.
    /// - `UnknownOwner` if the store has no record of the owner (a step).
    /// - `OutOfMemory` if anything else can't be allocated.
    ///
    /// The value comes back then, and the store is unchanged. Allocates for a slot, if none is free, for
    /// room on the owner's list, and for the step.
    ///
    /// ```rust
    /// let kept = self
    ///     .store
    ///     .insert(rt, session, value, here, &mut self.tally)?;
    /// ```
    pub fn insert(
        &self,
        rt: &impl Wait,
        owner: &Owner,
        value: T,
        location: Location,
        tally: &mut Tally<M, L, C, R>,
    ) -> Result<GenerationalBox<T>, Refusal<T>>
        ensures step { IsUnseenStep NUMBER tally.old (Make (Some owner.now) value location)
            (box_answer result) tally.new }
        ensures back { IfErr result (λ r. r.value ≡ value) }
    {
        self.shared
            .held
            .lock(rt)
            .state
            .insert(owner, value, location, tally)
    }

    /// Stores a shared value with a first reference to it, and returns the reference's box. The reference
    /// is removed when the last owner value of this record is released. The box has the store's number
    /// and the location, and its id was never issued before. The value lives exactly as long as there is
    /// a live reference to it. Waits for no borrow.
    ///
    /// # Errors
    ///
    /// - `OutOfMemory` if the history has no room.
    /// - `UnknownOwner` if the store has no record of the owner (a step).
    /// - `OutOfMemory` if anything else can't be allocated.
    ///
    /// The value comes back then, and the store is unchanged. Allocates for two slots, if fewer are free,
    /// for room on the owner's list, and for the step.
    ///
    /// ```rust
    /// self.store.insert_rc(rt, owner, value, at, &mut self.tally)
    /// ```
    pub fn insert_rc(
        &self,
        rt: &impl Wait,
        owner: &Owner,
        value: T,
        location: Location,
        tally: &mut Tally<M, L, C, R>,
    ) -> Result<GenerationalBox<T>, Refusal<T>>
        ensures step { IsUnseenStep NUMBER tally.old (MakeShared (Some owner.now) value location)
            (box_answer result) tally.new }
        ensures back { IfErr result (λ r. r.value ≡ value) }
    {
        self.shared
            .held
            .lock(rt)
            .state
            .insert_rc(owner, value, location, tally)
    }

    /// Adds a reference to the shared value that a box refers to, once that isn't being written, and
    /// returns its box. The reference is removed when the last owner value of this record is released.
    /// The box has the store's number and the value's location, and its id was never issued before. Wakes
    /// the calls that wait.
    ///
    /// # Errors
    ///
    /// - `OutOfMemory` if the history has no room.
    /// - `UnknownOwner` if the store has no record of the owner, which is checked before any waiting (a
    ///   step).
    /// - `Dropped` with the box's own creation location if its cell was removed or belongs to another
    ///   store, or if its value isn't shared (a step).
    /// - `OutOfMemory` if anything else can't be allocated.
    ///
    /// A call that fails changes nothing. Allocates for a slot, if none is free, for room on the owner's
    /// list, and for the step.
    ///
    /// ```rust
    /// self.store.insert_reference(rt, owner, of, &mut self.tally)
    /// ```
    pub fn insert_reference(
        &self,
        rt: &impl Wait,
        owner: &Owner,
        asked: GenerationalBox<T>,
        tally: &mut Tally<M, L, C, R>,
    ) -> BorrowResult<GenerationalBox<T>>
        ensures step { IsUnseenStep {T = T} NUMBER tally.old
            (Refer (Some owner.now) (pointer_of asked)) (reference_box_answer result) tally.new }
    {
        let call = StepCall::InsertReference(owner.id(), asked.pointer());
        let mut held = self.lock_when(rt, call);
        let made = held.state.insert_reference(owner, asked, tally);
        self.unlock(held, made.is_ok());
        made
    }
}
