//! What a worker can do with the store that it shares.

ghost use Rattle.std.specs.Prelude.{◌≡◌, ◌<◌, ◌⊎◌, ℕ, None, Some, Err, IfErr, IfOk, IfSome, OnSome};
ghost use Rattle.generational_errors.specs.declared.error.StoreError.TheVariants.{OutOfMemory};
ghost use Rattle.std.specs.Fn.{FnOnceReturnsAtMut};
ghost use Rattle.generational_core.specs.Answers.{back_answer, box_answer, end_answer, end_refused};
ghost use Rattle.generational_core.specs.Answers.{owner_answer, pointer_of, read_answer, read_refused};
ghost use Rattle.generational_core.specs.Answers.{reference_box_answer, release_answer, write_answer};
ghost use Rattle.generational_core.specs.Machine.Action.{CloneOwner, End, Make, MakeShared};
ghost use Rattle.generational_core.specs.Machine.Action.{NewOwner, Point, Read, Refer, ReleaseOwner};
ghost use Rattle.generational_core.specs.Machine.Action.{ReleaseReader, ReleaseWriter, SetValue};
ghost use Rattle.generational_core.specs.Machine.Action.{Write};
ghost use Rattle.generational_core.specs.Machine.Answer.{Back, Done, Flag, Owned};
ghost use Rattle.shared_state.specs.Shared.{IsUnseenStep, MayRefuseTrimming};
ghost use Rattle.generational_workers.specs.Borrows.{IsOwnDropped, IsReadThrough, IsWriteThrough};
ghost use Rattle.shared_history.specs.Counts.{Counts};
ghost use Rattle.shared_history.specs.Replies.{set_answer};

use generational_box::{
    BorrowError, BorrowMutError, BorrowMutResult, BorrowResult, GenerationalBox, GenerationalRef,
    GenerationalRefMut, Location, Owner, Refusal, Refused, StoreError, ValueDroppedError,
};

/// A worker of a store: each call of the store as a method.
///
/// A call that takes `&mut self` is a step of the store, like the call of the same name of
/// `SyncStorage`, in whose terms its contract is stated. Which state the store is in isn't known here,
/// since other workers call it too: a step leads from some state to another, adds one to the worker's
/// own count of its kind, and uses only boxes, guards and owners of this store. Any call may return
/// `OutOfMemory` instead, if there is no room for the step: nothing changes then, and no count is
/// raised.
pub trait Worker<T> {
    ghost number: { ℕ };

    ghost counts: { Self → Counts };

    /// The store's number. Doesn't allocate and doesn't wait.
    fn number(&self) -> u64
        ensures { result ≡ number };

    /// The worker's number: the workers of a run are numbered from 0, and the one that begins and
    /// ends the run comes after them. Doesn't allocate and doesn't wait.
    fn worker(&self) -> usize
        ensures { result ≡ (counts self.now).worker };

    /// Creates a box of a value, which lives until it is dropped manually. The box has the store's
    /// number and the location, and its id is unique. Doesn't wait.
    ///
    /// # Errors
    /// `OutOfMemory`: returns the value. Allocates a slot if none is free, and room for the step.
    fn leak(&mut self, value: T, location: Location) -> Result<GenerationalBox<T>, Refusal<T>>
        ensures step { IsUnseenStep number (counts self.old) (Make None value location)
            (box_answer result) (counts self.new) }
        ensures back { IfErr result (λ r. r.value ≡ value) };

    /// Creates a shared value and a first reference to it, which lives until it is dropped manually.
    /// Returns the reference's box, which has the store's number and the location, and whose id is
    /// unique. The value lives as long as a reference to it does. Doesn't wait.
    ///
    /// # Errors
    /// `OutOfMemory`: returns the value. Allocates two slots if fewer are free, and room for the step.
    fn leak_rc(&mut self, value: T, location: Location) -> Result<GenerationalBox<T>, Refusal<T>>
        ensures step { IsUnseenStep number (counts self.old) (MakeShared None value location)
            (box_answer result) (counts self.new) }
        ensures back { IfErr result (λ r. r.value ≡ value) };

    /// Creates another reference to the shared value of a box, which lives until it is dropped
    /// manually. Waits while the value has a writer, and wakes those that wait.
    ///
    /// # Errors
    /// `Dropped` with the location at which the box was created, if its cell was dropped or is of
    /// another store, or if its value isn't shared. Allocates a slot if none is free, and room for the
    /// step.
    fn leak_reference(&mut self, asked: GenerationalBox<T>) -> BorrowResult<GenerationalBox<T>>
        ensures step { IsUnseenStep {T = T} number (counts self.old) (Refer None (pointer_of asked))
            (reference_box_answer result) (counts self.new) };

    /// Creates an owner without boxes. Doesn't wait.
    ///
    /// # Errors
    /// `NumbersExhausted`, if no ticket is left. Allocates the owner's record, and room for the step.
    fn owner(&mut self) -> Result<Owner, StoreError>
        ensures step { IsUnseenStep {T = T} number (counts self.old) NewOwner (owner_answer result)
            (counts self.new) };

    /// Creates another owner of the same boxes. Doesn't wait.
    ///
    /// # Errors
    /// In this order: `UnknownOwner`, if the owner is of another store; `NumbersExhausted`, if no ticket
    /// is left. Allocates room for the step.
    fn clone_owner(&mut self, owner: &Owner) -> Result<Owner, StoreError>
        ensures step { IsUnseenStep {T = T} number (counts self.old) (CloneOwner owner.now)
            (owner_answer result) (counts self.new) };

    /// Creates a box of a value, which lives until its last owner is released. The box has the store's
    /// number and the location, and its id is unique. Doesn't wait.
    ///
    /// # Errors
    /// `UnknownOwner`, if the owner is of another store. Returns the value then. Allocates a slot if none
    /// is free, room on the owner's list, and room for the step.
    fn insert(
        &mut self,
        owner: &Owner,
        value: T,
        location: Location,
    ) -> Result<GenerationalBox<T>, Refusal<T>>
        ensures step { IsUnseenStep number (counts self.old) (Make (Some owner.now) value location)
            (box_answer result) (counts self.new) }
        ensures back { IfErr result (λ r. r.value ≡ value) };

    /// Creates a shared value and a first reference to it, which lives until its last owner is released.
    /// Returns the reference's box, which has the store's number and the location, and whose id is
    /// unique. The value lives as long as a reference to it does. Doesn't wait.
    ///
    /// # Errors
    /// `UnknownOwner`, if the owner is of another store. Returns the value then. Allocates two slots if
    /// fewer are free, room on the owner's list, and room for the step.
    fn insert_rc(
        &mut self,
        owner: &Owner,
        value: T,
        location: Location,
    ) -> Result<GenerationalBox<T>, Refusal<T>>
        ensures step { IsUnseenStep number (counts self.old)
            (MakeShared (Some owner.now) value location) (box_answer result) (counts self.new) }
        ensures back { IfErr result (λ r. r.value ≡ value) };

    /// Creates another reference to the shared value of a box, which lives until its last owner is
    /// released. Waits while the value has a writer, and wakes those that wait.
    ///
    /// # Errors
    /// In this order: `UnknownOwner`, if the owner is of another store, without waiting; `Dropped` with
    /// the location at which the box was created, if its cell was dropped or is of another store, or if
    /// its value isn't shared. Allocates a slot if none is free, room on the owner's list, and room for
    /// the step.
    fn insert_reference(
        &mut self,
        owner: &Owner,
        asked: GenerationalBox<T>,
    ) -> BorrowResult<GenerationalBox<T>>
        ensures step { IsUnseenStep {T = T} number (counts self.old) (Refer (Some owner.now) (pointer_of asked))
            (reference_box_answer result) (counts self.new) };

    /// Releases an owner, and with the last one of its boxes drops them all, and each shared value whose
    /// last reference is among them. Waits while a value that would be dropped is borrowed, and wakes
    /// those that wait.
    ///
    /// # Errors
    /// `UnknownOwner`, if the owner is of another store, without waiting. Returns the owner then.
    /// Allocates room for the step.
    fn release_owner(&mut self, owner: Owner) -> Result<(), (Owner, Refused<BorrowMutError>)>
        ensures step { IsUnseenStep {T = T} number (counts self.old) (ReleaseOwner owner)
            (release_answer result) (counts self.new) }
        ensures back { IfErr result (λ e. e.0 ≡ owner) };

    /// Begins a read of the box's value. Waits while the value has a writer. The guard has the store's
    /// number, and must be released.
    ///
    /// # Errors
    /// In this order: `Dropped` with the location at which the box was created, if its cell was dropped
    /// or is of another store; `NumbersExhausted`, if no ticket is left. Allocates room for two steps,
    /// and for a reader in addition to another.
    fn try_read(
        &mut self,
        asked: GenerationalBox<T>,
        location: Location,
    ) -> BorrowResult<GenerationalRef<T>>
        ensures step { IsUnseenStep {T = T} number (counts self.old) (Read (pointer_of asked) location)
            (read_answer result) (counts self.new) };

    /// Begins a write of the box's value. Waits while the value is borrowed. The guard owns the value
    /// meanwhile, has the store's number, and must be released.
    ///
    /// # Errors
    /// In this order: `Dropped` with the location at which the box was created, if its cell was dropped
    /// or is of another store; `NumbersExhausted`, if no ticket is left. Allocates room for two steps.
    fn try_write(
        &mut self,
        asked: GenerationalBox<T>,
        location: Location,
    ) -> BorrowMutResult<GenerationalRefMut<T>>
        ensures step { IsUnseenStep number (counts self.old) (Write (pointer_of asked) location)
            (write_answer result) (counts self.new) };

    /// Ends a read, wakes those that wait, and returns whether the store knew the guard. If it didn't,
    /// nothing changes. Doesn't allocate and doesn't wait.
    fn release_read(&mut self, guard: GenerationalRef<T>) -> bool
        ensures step { IsUnseenStep {T = T} number (counts self.old) (ReleaseReader guard) (Flag result)
            (counts self.new) };

    /// Runs `f` on the value of a reader's guard, under the store's lock, and returns what `f` returns;
    /// None if the store doesn't know the guard. It isn't a step. `f` must not call the store: that
    /// would deadlock. Allocates only what `f` allocates.
    fn open<A, F: FnOnce(&T) -> A>(&self, guard: &GenerationalRef<T>, f: F) -> Option<A>
        requires { F.IsAlwaysCallable f }
        ensures answer { IfSome result (λ answer. (value : _) × F.post f value answer) }
        ensures own { OnSome result (guard.now.store ≡ number) };

    /// Ends a write, puts the guard's value back into its cell, and wakes those that wait. Doesn't
    /// allocate and doesn't wait.
    ///
    /// # Errors
    /// Returns the value, if the store doesn't know the guard. Nothing changes then.
    fn release_write(&mut self, guard: GenerationalRefMut<T>) -> Result<(), T>
        ensures step { IsUnseenStep number (counts self.old) (ReleaseWriter guard.guard guard.value)
            (back_answer result) (counts self.new) };

    /// Replaces the box's value and drops the old one. Waits while the value is borrowed. Every box of
    /// the value then refers to the new one.
    ///
    /// # Errors
    /// `Dropped` with the location at which the box was created, if its cell was dropped or is of
    /// another store. Returns the new value then. Allocates room for the step.
    fn set(
        &mut self,
        asked: GenerationalBox<T>,
        value: T,
    ) -> Result<(), (T, Refused<BorrowMutError>)>
        ensures step { (old : T) × IsUnseenStep number (counts self.old)
            (SetValue (pointer_of asked) value) (set_answer old result) (counts self.new) }
        ensures back { IfErr result (λ e. e.0 ≡ value) };

    /// Drops the box's cell, and the value with it. Waits while the value is borrowed, and wakes those
    /// that wait. For a box whose cell was dropped or is of another store it returns Ok, and nothing
    /// changes.
    ///
    /// # Errors
    /// `OutOfMemory` is the only possible error. Allocates room for the step.
    fn manually_drop(&mut self, asked: GenerationalBox<T>) -> BorrowMutResult<()>
        ensures step { IsUnseenStep {T = T} number (counts self.old) (End (pointer_of asked))
            (end_answer result) (counts self.new) };

    /// Points a reference at the shared value of another box, and drops the value that it referred to if
    /// it was the last reference. Waits while a value that would be dropped is borrowed, or the other's
    /// value has a writer, and wakes those that wait. A box may be pointed at itself: nothing changes.
    ///
    /// # Errors
    /// `Dropped`: with the other box's location, if that refers to no value; with this box's own, if its
    /// cell was dropped or is of another store; with that of the other's value, if this box is no
    /// reference or that value isn't shared. Allocates room for the step.
    fn point_to(
        &mut self,
        asked: GenerationalBox<T>,
        other: GenerationalBox<T>,
    ) -> BorrowMutResult<()>
        ensures step { IsUnseenStep {T = T} number (counts self.old)
            (Point (pointer_of asked) (pointer_of other)) (end_answer result) (counts self.new) };

    /// Makes the store's present state the base that its history starts from, drops the steps so far,
    /// and returns how many steps were ever dropped. It isn't a step, and raises no count. Takes time
    /// for each slot, twice, and for each borrow and each box that an owner has.
    ///
    /// # Errors
    /// In this order: `NumbersExhausted`, if that number doesn't fit into 64 bits; `OutOfMemory`.
    /// Nothing changes then.
    fn checkpoint(&mut self) -> Result<u64, StoreError>
        ensures counts { counts self.new ≡ counts self.old }
        ensures refusal { IfErr result MayRefuseTrimming };

    /// Reads a box's value by a closure: begins a read, runs `f` on the value, ends the read, and
    /// returns what `f` returns. Waits while the value has a writer. `f` runs under the store's lock and
    /// must not call the store: that would deadlock. Two steps.
    ///
    /// # Errors
    /// In this order: `Dropped` with the location at which the box was created, if its cell was dropped
    /// or is of another store; `NumbersExhausted`, if no ticket is left. Allocates room for two steps,
    /// and for a reader in addition to another. `Dropped` with that location is also returned after the
    /// two steps, if the store didn't know the read's own guard.
    final fn with<A: Drop, F: FnOnce(&T) -> A>(
        &mut self,
        asked: GenerationalBox<T>,
        location: Location,
        f: F,
    ) -> BorrowResult<A>
        requires { F.IsAlwaysCallable f }
        ensures answer { IfOk result (λ answer. (value : _) × F.post f value answer) }
        ensures steps { IfOk result (λ _. IsReadThrough T number (counts self.old) (pointer_of asked)
            location (counts self.new)) }
        ensures refusal { IfErr result (λ e.
            IsUnseenStep {T = T} number (counts self.old) (Read (pointer_of asked) location)
            (read_refused e) (counts self.new)
            ⊎ (IsReadThrough T number (counts self.old) (pointer_of asked) location
            (counts self.new) × IsOwnDropped T (pointer_of asked) (read_refused e))) }
    {
        let reader = self.try_read(asked, location)?;
        let answer = self.open(&reader, f);
        self.release_read(reader);
        match answer {
            Some(answer) => Ok(answer),
            None => Err(Refused::Borrow(BorrowError::Dropped(dropped(asked)))),
        }
    }

    /// Changes a box's value by a closure: begins a write, runs `f` on the value that its guard owns, ends
    /// the write, and returns what `f` returns. Waits while the value is borrowed. Two steps.
    ///
    /// # Errors
    /// In this order: `Dropped` with the location at which the box was created, if its cell was dropped
    /// or is of another store; `NumbersExhausted`, if no ticket is left. Allocates room for two steps.
    /// `Dropped` with that location is also returned after `f`, if the store didn't know the write's own
    /// guard: the value is dropped then.
    final fn with_mut<A: Drop, F: FnOnce(&mut T) -> A>(
        &mut self,
        asked: GenerationalBox<T>,
        location: Location,
        f: F,
    ) -> BorrowMutResult<A>
    where
        T: Drop,
        requires { F.IsAlwaysCallable f }
        ensures steps { IfOk result (λ answer. (value changed : T)
            × FnOnceReturnsAtMut F.FnOnce f value answer changed
            × IsWriteThrough number (counts self.old) (pointer_of asked) location value changed Done
            (counts self.new)) }
        ensures refusal { IfErr result (λ e.
            IsUnseenStep {T = T} number (counts self.old) (Write (pointer_of asked) location)
            (end_refused e) (counts self.new)
            ⊎ ((value changed back : T)
            × IsWriteThrough number (counts self.old) (pointer_of asked) location value changed
            (Back back) (counts self.new) × IsOwnDropped T (pointer_of asked) (end_refused e))) }
    {
        let mut writer = self.try_write(asked, location)?;
        let answer = change(&mut writer, f);
        match self.release_write(writer) {
            Ok(()) => Ok(answer),
            Err(_) => Err(Refused::Borrow(BorrowMutError::Dropped(dropped(asked)))),
        }
    }

    /// Runs `f` with a new owner, releases the owner, and returns what `f` returns. Waits at the end
    /// while a value that would be dropped is borrowed. Two steps, in addition to those of `f`.
    ///
    /// # Errors
    /// `NumbersExhausted`, if no ticket is left. Allocates what [`owner`](Worker::owner) and
    /// [`release_owner`](Worker::release_owner) allocate. `OutOfMemory` is also returned if the owner's
    /// release fails, after the steps of `f`: the owner is leaked then.
    final fn with_owner<A: Drop, F: FnOnce(&mut Self, &Owner) -> A>(
        &mut self,
        f: F,
    ) -> Result<A, StoreError>
        requires { F.IsAlwaysCallable f }
        ensures ran { IfOk result (λ answer. (begun ended : _) × (owner : _)
            × IsUnseenStep {T = T} number (counts self.old) NewOwner (Owned owner.now)
            (counts begun.now)
            × F.post f begun owner answer ended
            × IsUnseenStep {T = T} number (counts ended.now) (ReleaseOwner owner.now) Done
            (counts self.new)) }
        ensures refusal { IfErr result (λ e. IsUnseenStep {T = T} number (counts self.old) NewOwner
            (owner_answer (Err e)) (counts self.new) ⊎ e ≡ OutOfMemory) }
    {
        let owner = self.owner()?;
        let answer = f(self, &owner);
        match self.release_owner(owner) {
            Ok(()) => Ok(answer),
            Err((owner, _)) => {
                owner.leak();
                Err(StoreError::OutOfMemory)
            }
        }
    }
}

// Runs a closure once on the value of a writer's guard, and returns what it returns.
fn change<T, A, F: FnOnce(&mut T) -> A>(guard: &mut GenerationalRefMut<T>, f: F) -> A
    requires { F.IsAlwaysCallable f }
    ensures { (changed : T) × FnOnceReturnsAtMut F.FnOnce f guard.old.value result changed
        × (guard.new ≡ record guard.old { value = changed }) }
{
    f(&mut *guard.deref_mut())
}

// The error for a box whose value was dropped.
fn dropped<T>(asked: GenerationalBox<T>) -> ValueDroppedError
    ensures { result.created_at ≡ (pointer_of asked).created_at }
{
    ValueDroppedError::new(asked.pointer().created_at)
}
