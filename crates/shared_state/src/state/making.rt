//! Calls that make boxes and owners.

ghost use Rattle.std.specs.Prelude.{◌≡◌, true, None, Some, IfErr, is_some, option_copied};
ghost use Rattle.generational_core.specs.declared.steps.StepCall.TheVariants as call;
ghost use Rattle.generational_core.specs.Answers.{box_answer, owner_answer, pointer_of};
ghost use Rattle.generational_core.specs.Answers.{reference_box_answer};
ghost use Rattle.generational_core.specs.Machine.Action.{CloneOwner, Make, MakeShared, NewOwner};
ghost use Rattle.generational_core.specs.Machine.Action.{Refer};
ghost use Rattle.generational_core.specs.StepCalls.{id_of_owner, is_ready, recorded_as, target_of};
ghost use Rattle.shared_state.specs.Shared.{IsStep};
ghost use Rattle.shared_records.specs.Kinds.{made_by, referred_by, shared_by};

use super::{SyncState, record_call, record_failure, record_step};
use generational_box::{
    AnyStorage, BorrowResult, GenerationalBox, GenerationalBoxId, GenerationalPointer, Location,
    Owner, OwnerId, Refusal, Refused, StepCall, Storage, StoreError, UnsyncStorage,
};
use generational_core::parts::box_at;
use shared_history::replies::{owner_reply, read_refusal, store_reply};
use shared_history::{Count, Tally};
use shared_records::{
    BoxMade, OwnerMade, ReferenceMade, SharedMade, making, making_reference, making_shared,
};

impl<T: Drop, const NUMBER: u64, M: Count, L: Count, C: Count, R: Count> SyncState<
    T,
    NUMBER,
    M,
    L,
    C,
    R,
> {
    /// Stores a value, and returns its box. The value lives until it is removed manually. The box has the
    /// store's number and the location, and its id was never issued before.
    ///
    /// Allocates for a slot, if none is free, and for the step.
    ///
    /// # Errors
    ///
    /// `OutOfMemory`: the value comes back, and nothing changes.
    ///
    /// ```rust
    /// let made = state.leak(value, here(), tally).ok()?;
    /// ```
    #[inline(always)]
    pub fn leak(
        &mut self,
        value: T,
        location: Location,
        tally: &mut Tally<M, L, C, R>,
    ) -> Result<GenerationalBox<T>, Refusal<T>>
        ensures step { IsStep NUMBER self.old tally.old (Make None value location)
            (box_answer result) self.new tally.new }
        ensures back { IfErr result (λ r. r.value ≡ value) }
    {
        self.make(None, None, value, location, tally)
    }

    /// Stores a value, and returns its box. The value is removed when the last owner value of this record
    /// is released. The box has the store's number and the location, its id was never issued before, and
    /// it is added at the end of the record's list.
    ///
    /// # Errors
    ///
    /// - `OutOfMemory` if the history has no room.
    /// - `UnknownOwner` if the store has no record of the owner (a step).
    /// - `OutOfMemory` if anything else can't be allocated.
    ///
    /// The value comes back then, and the store is unchanged. Allocates for a slot, if none is free, for
    /// room on the list, and for the step.
    ///
    /// ```rust
    /// let kept = state.insert(owner, text(rt, alloc, "kept"), made(), tally);
    /// rt.expect(kept.map_err(|refusal| refusal.cause), "a box")
    /// ```
    pub fn insert(
        &mut self,
        owner: &Owner,
        value: T,
        location: Location,
        tally: &mut Tally<M, L, C, R>,
    ) -> Result<GenerationalBox<T>, Refusal<T>>
        ensures step { IsStep NUMBER self.old tally.old (Make (Some owner.now) value location)
            (box_answer result) self.new tally.new }
        ensures back { IfErr result (λ r. r.value ≡ value) }
    {
        self.make(Some(owner), Some(owner.id()), value, location, tally)
    }

    // Makes a box of a value, on the list of the owner with this id if there is one.
    #[inline(always)]
    fn make(
        &mut self,
        owner: Option<&Owner>,
        id: Option<OwnerId>,
        value: T,
        location: Location,
        tally: &mut Tally<M, L, C, R>,
    ) -> Result<GenerationalBox<T>, Refusal<T>>
        requires { recorded_as (Make (option_copied owner) value location)
            ≡ Some (made_by id location) }
        ensures step { IsStep NUMBER self.old tally.old
            (Make (option_copied owner.entry) value location) (box_answer result) self.new tally.new }
        ensures back { IfErr result (λ r. r.value ≡ value) }
    {
        if self.log.reserve(2).is_err() {
            let cause = StoreError::OutOfMemory;
            return Err(Refusal { value, cause });
        }
        match self.store.new(value, location, owner) {
            Ok(pointer) => {
                let entry = BoxMade {
                    owner: id,
                    at: location,
                    made: pointer,
                };
                record_step(&self.store, &mut self.log, entry, tally);
                Ok(box_at(pointer))
            }
            Err(refusal) => {
                let call = making(id, location);
                let reply = store_reply::<T>(refusal.cause);
                record_failure(&self.store, &mut self.log, call, reply, tally);
                Err(refusal)
            }
        }
    }

    /// Stores a shared value with a first reference to it, and returns the reference's box. The reference
    /// lives until it is removed manually. The box has the store's number and the location, and its id
    /// and that of the value's cell were never issued before. The value lives exactly as long as there is
    /// a live reference to it.
    ///
    /// Allocates for two slots, if fewer are free, and for the step.
    ///
    /// # Errors
    ///
    /// `OutOfMemory`: the value comes back, and nothing changes.
    ///
    /// ```rust
    /// let shared = state.leak_rc(text(rt, alloc, "free"), made_later(), tally);
    /// rt.expect(shared.map_err(|refusal| refusal.cause), "a shared value")
    /// ```
    pub fn leak_rc(
        &mut self,
        value: T,
        location: Location,
        tally: &mut Tally<M, L, C, R>,
    ) -> Result<GenerationalBox<T>, Refusal<T>>
        ensures step { IsStep NUMBER self.old tally.old (MakeShared None value location)
            (box_answer result) self.new tally.new }
        ensures back { IfErr result (λ r. r.value ≡ value) }
    {
        self.make_shared(None, None, value, location, tally)
    }

    /// Stores a shared value with a first reference to it, and returns the reference's box. The reference
    /// is removed when the last owner value of this record is released, and is added at the end of the
    /// record's list. The box has the store's number and the location, and its id and that of the value's
    /// cell were never issued before. The value lives exactly as long as there is a live reference to it.
    ///
    /// # Errors
    ///
    /// - `OutOfMemory` if the history has no room.
    /// - `UnknownOwner` if the store has no record of the owner (a step).
    /// - `OutOfMemory` if anything else can't be allocated.
    ///
    /// The value comes back then, and the store is unchanged. Allocates for two slots, if fewer are free,
    /// for room on the list, and for the step.
    ///
    /// ```rust
    /// let shared = state.insert_rc(owner, text(rt, alloc, "shared"), made(), tally);
    /// rt.expect(shared.map_err(|refusal| refusal.cause), "a shared value")
    /// ```
    pub fn insert_rc(
        &mut self,
        owner: &Owner,
        value: T,
        location: Location,
        tally: &mut Tally<M, L, C, R>,
    ) -> Result<GenerationalBox<T>, Refusal<T>>
        ensures step { IsStep NUMBER self.old tally.old (MakeShared (Some owner.now) value location)
            (box_answer result) self.new tally.new }
        ensures back { IfErr result (λ r. r.value ≡ value) }
    {
        self.make_shared(Some(owner), Some(owner.id()), value, location, tally)
    }

    // Makes a shared value and a first reference to it, on the list of the owner with this id if there
    // is one.
    #[inline(always)]
    fn make_shared(
        &mut self,
        owner: Option<&Owner>,
        id: Option<OwnerId>,
        value: T,
        location: Location,
        tally: &mut Tally<M, L, C, R>,
    ) -> Result<GenerationalBox<T>, Refusal<T>>
        requires { recorded_as (MakeShared (option_copied owner) value location)
            ≡ Some (shared_by id location) }
        ensures step { IsStep NUMBER self.old tally.old
            (MakeShared (option_copied owner.entry) value location) (box_answer result) self.new
            tally.new }
        ensures back { IfErr result (λ r. r.value ≡ value) }
    {
        if self.log.reserve(2).is_err() {
            let cause = StoreError::OutOfMemory;
            return Err(Refusal { value, cause });
        }
        match self.store.new_rc(value, location, owner) {
            Ok(pointer) => {
                let entry = SharedMade {
                    owner: id,
                    at: location,
                    cell: shared_cell(&self.store, pointer),
                    made: pointer,
                };
                record_step(&self.store, &mut self.log, entry, tally);
                Ok(box_at(pointer))
            }
            Err(refusal) => {
                let call = making_shared(id, location);
                let reply = store_reply::<T>(refusal.cause);
                record_call(&self.store, &mut self.log, call, reply, tally);
                Err(refusal)
            }
        }
    }

    /// Adds a reference to the shared value that a box refers to and that isn't being written, and
    /// returns its box. The reference lives until it is removed manually. The box has the store's number
    /// and the value's location, and its id was never issued before.
    ///
    /// # Errors
    ///
    /// - `OutOfMemory` if the history has no room.
    /// - `Dropped` with the box's own creation location if its cell was removed or belongs to another
    ///   store, or if its value isn't shared (a step).
    /// - `OutOfMemory` if anything else can't be allocated.
    ///
    /// A call that fails changes nothing. Allocates for a slot, if none is free, and for the step.
    ///
    /// ```rust
    /// if !state.ready(&StepCall::LeakReference(asked.pointer())) {
    ///     return rt.stop("a reference that waits");
    /// }
    /// let reference = state.leak_reference(asked, tally);
    /// ```
    pub fn leak_reference(
        &mut self,
        asked: GenerationalBox<T>,
        tally: &mut Tally<M, L, C, R>,
    ) -> BorrowResult<GenerationalBox<T>>
        requires { is_ready self.old.state (call.LeakReference (pointer_of asked)) ≡ true }
        ensures step { IsStep NUMBER self.old tally.old (Refer None (pointer_of asked))
            (reference_box_answer result) self.new tally.new }
    {
        let asked = asked.pointer();
        self.refer(None, None, asked, tally)
    }

    /// Adds a reference to the shared value that a box refers to and that isn't being written, and
    /// returns its box. The reference is removed when the last owner value of this record is released,
    /// and is added at the end of the record's list. The box has the store's number and the value's
    /// location, and its id was never issued before.
    ///
    /// # Errors
    ///
    /// - `OutOfMemory` if the history has no room.
    /// - `UnknownOwner` if the store has no record of the owner (a step).
    /// - `Dropped` with the box's own creation location if its cell was removed or belongs to another
    ///   store, or if its value isn't shared (a step).
    /// - `OutOfMemory` if anything else can't be allocated.
    ///
    /// A call that fails changes nothing. Allocates for a slot, if none is free, for room on the list,
    /// and for the step.
    ///
    /// ```rust
    /// let call = StepCall::InsertReference(owner.id(), asked.pointer());
    /// if !state.ready(&call) {
    ///     return rt.stop("a reference that waits");
    /// }
    /// let reference = state.insert_reference(owner, asked, tally);
    /// ```
    pub fn insert_reference(
        &mut self,
        owner: &Owner,
        asked: GenerationalBox<T>,
        tally: &mut Tally<M, L, C, R>,
    ) -> BorrowResult<GenerationalBox<T>>
        requires { is_ready self.old.state
            (call.InsertReference (id_of_owner owner.now) (pointer_of asked)) ≡ true }
        ensures step { IsStep NUMBER self.old tally.old (Refer (Some owner.now) (pointer_of asked))
            (reference_box_answer result) self.new tally.new }
    {
        let asked = asked.pointer();
        self.refer(Some(owner), Some(owner.id()), asked, tally)
    }

    // Makes a reference to what the box refers to, on the list of the owner with this id if there is one.
    #[inline(always)]
    fn refer(
        &mut self,
        owner: Option<&Owner>,
        id: Option<OwnerId>,
        asked: GenerationalPointer,
        tally: &mut Tally<M, L, C, R>,
    ) -> BorrowResult<GenerationalBox<T>>
        requires call { recorded_as {T = T} (Refer (option_copied owner) asked)
            ≡ Some (referred_by id asked) }
        requires ready { is_ready self.old.state (referred_by id asked) ≡ true }
        ensures step { IsStep NUMBER self.old tally.old (Refer (option_copied owner.entry) asked)
            (reference_box_answer result) self.new tally.new }
    {
        if self.log.reserve(2).is_err() {
            return Err(Refused::Store(StoreError::OutOfMemory));
        }
        match self.store.new_reference(asked, owner) {
            Ok(pointer) => {
                let entry = ReferenceMade {
                    owner: id,
                    asked,
                    made: pointer,
                };
                record_step(&self.store, &mut self.log, entry, tally);
                Ok(box_at(pointer))
            }
            Err(refused) => {
                let call = making_reference(id, asked);
                let reply = read_refusal::<T>(&refused);
                record_call(&self.store, &mut self.log, call, reply, tally);
                Err(refused)
            }
        }
    }

    /// Returns an owner without boxes, of a new record. It has the store's number.
    ///
    /// # Errors
    ///
    /// - `OutOfMemory` if the history has no room.
    /// - `NumbersExhausted` if the tickets are used up (a step).
    /// - `OutOfMemory` if anything else can't be allocated.
    ///
    /// A call that fails changes nothing. Allocates for the record and for the step.
    ///
    /// ```rust
    /// let session = rt.expect(state.owner(tally), "an owner");
    /// ```
    pub fn owner(&mut self, tally: &mut Tally<M, L, C, R>) -> Result<Owner, StoreError>
        ensures step { IsStep NUMBER self.old tally.old NewOwner (owner_answer result) self.new
            tally.new }
    {
        if self.log.reserve(2).is_err() {
            return Err(StoreError::OutOfMemory);
        }
        match self.store.owner() {
            Ok(owner) => {
                let entry = OwnerMade { owner: owner.id() };
                record_step(&self.store, &mut self.log, entry, tally);
                Ok(owner)
            }
            Err(error) => {
                let reply = store_reply::<T>(error);
                record_call(&self.store, &mut self.log, StepCall::Owner, reply, tally);
                Err(error)
            }
        }
    }

    /// Returns another owner value of the same record.
    ///
    /// # Errors
    ///
    /// - `OutOfMemory` only if the history has no room.
    /// - `UnknownOwner` if the store has no record of the owner (a step).
    /// - `NumbersExhausted` if the tickets are used up (a step).
    ///
    /// A call that fails changes nothing. Nothing else allocates.
    ///
    /// ```rust
    /// let again = rt.expect(state.clone_owner(&session, tally), "the same owner");
    /// ```
    pub fn clone_owner(
        &mut self,
        owner: &Owner,
        tally: &mut Tally<M, L, C, R>,
    ) -> Result<Owner, StoreError>
        ensures step { IsStep NUMBER self.old tally.old (CloneOwner owner.now) (owner_answer result)
            self.new tally.new }
    {
        if self.log.reserve(2).is_err() {
            return Err(StoreError::OutOfMemory);
        }
        let call = StepCall::CloneOwner(owner.id());
        let clone = self.store.clone_owner(owner);
        let reply = owner_reply::<T>(&clone);
        record_call(&self.store, &mut self.log, call, reply, tally);
        clone
    }
}

// The cell that the box of a new shared value refers to.
#[inline(always)]
fn shared_cell<T: Drop>(store: &UnsyncStorage<T>, made: GenerationalPointer) -> GenerationalBoxId
    requires { is_some (target_of store.now.state made) ≡ true }
    ensures { Some result ≡ target_of store.now.state made }
{
    store.target(made).unwrap()
}
