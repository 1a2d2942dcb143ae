//! Calls that begin and end borrows, and that set a value.

ghost use Rattle.std.specs.Prelude.{◌≡◌, true, IfErr, IfNone, IfSome};
ghost use Rattle.generational_core.specs.declared.boxes.GenerationalPointer.{GenerationalPointer};
ghost use Rattle.generational_core.specs.declared.steps.StepCall.TheVariants as call;
ghost use Rattle.generational_core.specs.Answers.{back_answer, pointer_of, read_answer};
ghost use Rattle.generational_core.specs.Answers.{write_answer};
ghost use Rattle.generational_core.specs.Machine.Action.{Read, ReleaseReader, ReleaseWriter};
ghost use Rattle.generational_core.specs.Machine.Action.{SetValue, Write};
ghost use Rattle.generational_core.specs.Machine.Answer.{Flag};
ghost use Rattle.generational_core.specs.StepCalls.{is_ready};
ghost use Rattle.generational_core.specs.Steps.{Meets};
ghost use Rattle.shared_state.specs.Keeping.{IsHindered};
ghost use Rattle.shared_state.specs.Shared.{IsStep};
ghost use Rattle.shared_history.specs.Replies.{set_answer};

use super::{SyncState, record_call, record_end, record_failed_read, record_failure, record_step};
use generational_box::laws::calls_are_ready_where_no_borrow_is_told;
use generational_box::{
    AnyStorage, BorrowMutError, BorrowMutResult, BorrowResult, GenerationalBox,
    GenerationalPointer, GenerationalRef, GenerationalRefMut, Location, Refused, StepCall, Storage,
    StoreError, UnsyncStorage, ValueDroppedError,
};
use shared_history::replies::{back_reply, end_refusal, flag_reply};
use shared_history::{Count, Tally};
use shared_records::{ReadBegun, ReadEnded, ValueSet, WriteBegun, WriteEnded};

impl<T: Drop, const NUMBER: u64, M: Count, L: Count, C: Count, R: Count> SyncState<
    T,
    NUMBER,
    M,
    L,
    C,
    R,
> {
    /// Begins a read of the box's value, which no writer hinders. The guard has the store's number.
    ///
    /// Allocates for the reader if the value has another one, for the step and for the step of its
    /// release.
    ///
    /// # Errors
    ///
    /// - `OutOfMemory` if the history has no room.
    /// - `Dropped` with the box's own creation location if its cell was removed or belongs to another
    ///   store (a step).
    /// - `NumbersExhausted` if the tickets are used up (a step).
    /// - `OutOfMemory` only if the value has another reader.
    ///
    /// ```rust
    /// if !state.ready(&StepCall::Read(asked.pointer(), here())) {
    ///     return None;
    /// }
    /// state.try_read(asked, here(), tally).ok()
    /// ```
    #[inline(always)]
    pub fn try_read(
        &mut self,
        asked: GenerationalBox<T>,
        location: Location,
        tally: &mut Tally<M, L, C, R>,
    ) -> BorrowResult<GenerationalRef<T>>
        requires { is_ready self.old.state (call.Read (pointer_of asked) location) ≡ true }
        ensures step { IsStep NUMBER self.old tally.old (Read (pointer_of asked) location)
            (read_answer result) self.new tally.new }
    {
        match self.read_at_once(asked, location, tally) {
            Some(read) => read,
            None => unreachable!(),
        }
    }

    /// Begins a read, like `try_read`, if no writer is in its way; None otherwise, and then nothing changes.
    #[inline(always)]
    pub fn read_at_once(
        &mut self,
        asked: GenerationalBox<T>,
        location: Location,
        tally: &mut Tally<M, L, C, R>,
    ) -> Option<BorrowResult<GenerationalRef<T>>>
        ensures step { IfSome result (λ read. IsStep NUMBER self.old tally.old
            (Read (pointer_of asked) location) (read_answer read) self.new tally.new) }
        ensures none { IfNone result (IsHindered self.old tally.old
            (call.Read (pointer_of asked) location) self.new tally.new) }
    {
        let pointer = asked.pointer();
        if self.log.reserve(2).is_err() {
            if !self.is_ready(StepCall::Read(pointer, location)) {
                return None;
            }
            return Some(Err(Refused::Store(StoreError::OutOfMemory)));
        }
        calls_are_ready_where_no_borrow_is_told::<T>();
        match begin_read(&mut self.store, pointer, location) {
            Ok(guard) => {
                let entry = ReadBegun {
                    asked: pointer,
                    at: location,
                    ticket: guard.ticket(),
                };
                record_step(&self.store, &mut self.log, entry, tally);
                Some(Ok(guard))
            }
            Err(refused) => {
                let (store, log) = (&self.store, &mut self.log);
                if !record_failed_read(store, log, pointer, location, &refused, tally) {
                    return None;
                }
                Some(Err(refused))
            }
        }
    }

    /// Calls `try_read`. The sequential store's `read` has a condition instead of errors.
    ///
    /// ```rust
    /// if !state.ready(&StepCall::Read(asked.pointer(), read())) {
    ///     return rt.stop("a read that waits");
    /// }
    /// let guard = rt.expect(state.read(asked, read(), tally), "a guard");
    /// ```
    pub fn read(
        &mut self,
        asked: GenerationalBox<T>,
        location: Location,
        tally: &mut Tally<M, L, C, R>,
    ) -> BorrowResult<GenerationalRef<T>>
        requires { is_ready self.old.state (call.Read (pointer_of asked) location) ≡ true }
        ensures step { IsStep NUMBER self.old tally.old (Read (pointer_of asked) location)
            (read_answer result) self.new tally.new }
    {
        self.try_read(asked, location, tally)
    }

    /// Begins a write of the box's value, which no borrow hinders. The value moves into the guard, which
    /// has the store's number.
    ///
    /// # Errors
    ///
    /// - `OutOfMemory` only if the history has no room.
    /// - `Dropped` with the box's own creation location if its cell was removed or belongs to another
    ///   store (a step).
    /// - `NumbersExhausted` if the tickets are used up (a step).
    ///
    /// Allocates for the step and for the step of its release.
    ///
    /// ```rust
    /// if !state.ready(&StepCall::Write(asked.pointer(), read())) {
    ///     return rt.stop("a write that waits");
    /// }
    /// let guard = state.try_write(asked, read(), tally);
    /// ```
    #[inline(always)]
    pub fn try_write(
        &mut self,
        asked: GenerationalBox<T>,
        location: Location,
        tally: &mut Tally<M, L, C, R>,
    ) -> BorrowMutResult<GenerationalRefMut<T>>
        requires { is_ready self.old.state (call.Write (pointer_of asked) location) ≡ true }
        ensures step { IsStep NUMBER self.old tally.old (Write (pointer_of asked) location)
            (write_answer result) self.new tally.new }
    {
        match self.write_at_once(asked, location, tally) {
            Some(written) => written,
            None => unreachable!(),
        }
    }

    /// Begins a write, like `try_write`, if no borrow is in its way; None otherwise, and then nothing
    /// changes.
    #[inline(always)]
    pub fn write_at_once(
        &mut self,
        asked: GenerationalBox<T>,
        location: Location,
        tally: &mut Tally<M, L, C, R>,
    ) -> Option<BorrowMutResult<GenerationalRefMut<T>>>
        ensures step { IfSome result (λ written. IsStep NUMBER self.old tally.old
            (Write (pointer_of asked) location) (write_answer written) self.new tally.new) }
        ensures none { IfNone result (IsHindered self.old tally.old
            (call.Write (pointer_of asked) location) self.new tally.new) }
    {
        let pointer = asked.pointer();
        if self.log.reserve(2).is_err() {
            if !self.is_ready(StepCall::Write(pointer, location)) {
                return None;
            }
            return Some(Err(Refused::Store(StoreError::OutOfMemory)));
        }
        calls_are_ready_where_no_borrow_is_told::<T>();
        match self.store.try_write(pointer, location) {
            Ok(guard) => {
                let entry = WriteBegun {
                    asked: pointer,
                    at: location,
                    ticket: guard.ticket(),
                };
                record_step(&self.store, &mut self.log, entry, tally);
                Some(Ok(guard))
            }
            Err(refused) => {
                let call = StepCall::Write(pointer, location);
                let reply = end_refusal::<T>(&refused);
                if !record_failure(&self.store, &mut self.log, call, reply, tally) {
                    return None;
                }
                Some(Err(refused))
            }
        }
    }

    /// Calls `try_write`. The sequential store's `write` has a condition instead of errors.
    ///
    /// ```rust
    /// if !state.ready(&StepCall::Write(asked.pointer(), read())) {
    ///     return rt.stop("a write that waits");
    /// }
    /// let guard = state.write(asked, read(), tally);
    /// ```
    pub fn write(
        &mut self,
        asked: GenerationalBox<T>,
        location: Location,
        tally: &mut Tally<M, L, C, R>,
    ) -> BorrowMutResult<GenerationalRefMut<T>>
        requires { is_ready self.old.state (call.Write (pointer_of asked) location) ≡ true }
        ensures step { IsStep NUMBER self.old tally.old (Write (pointer_of asked) location)
            (write_answer result) self.new tally.new }
    {
        self.try_write(asked, location, tally)
    }

    /// Ends a read. Returns whether the store knew the guard; if it didn't, the guard is consumed and
    /// nothing changes. Never fails, and doesn't allocate: the room for its step was reserved when the
    /// borrow began.
    ///
    /// ```rust
    /// let known = state.release_read(guard, tally);
    /// ```
    #[inline(always)]
    pub fn release_read(&mut self, guard: GenerationalRef<T>, tally: &mut Tally<M, L, C, R>) -> bool
        ensures step { IsStep NUMBER self.old tally.old (ReleaseReader guard) (Flag result) self.new
            tally.new }
    {
        let entry = ReadEnded {
            ticket: guard.ticket(),
        };
        let known = self.store.release_read(guard);
        let reply = flag_reply::<T>(known);
        record_end(&self.store, &mut self.log, entry, reply, tally);
        known
    }

    /// Ends a write, and puts the guard's value into the cell. If the store doesn't know the guard, the
    /// value comes back and nothing changes. Never fails, and doesn't allocate: the room for its step was
    /// reserved when the borrow began.
    ///
    /// ```rust
    /// rt.compare(&state.release_write(guard, tally), &Ok(()));
    /// ```
    #[inline(always)]
    pub fn release_write(
        &mut self,
        guard: GenerationalRefMut<T>,
        tally: &mut Tally<M, L, C, R>,
    ) -> Result<(), T>
        ensures step { IsStep NUMBER self.old tally.old (ReleaseWriter guard.guard guard.value)
            (back_answer result) self.new tally.new }
    {
        let entry = WriteEnded {
            ticket: guard.ticket(),
        };
        let released = self.store.release_write(guard);
        let reply = back_reply(&released);
        record_end(&self.store, &mut self.log, entry, reply, tally);
        released
    }

    /// Replaces the value that the box refers to, which isn't borrowed, and drops the old one. Every box
    /// that refers to the value refers to the new one from then on. No ticket is used.
    ///
    /// # Errors
    ///
    /// - `OutOfMemory` only if the history has no room for the step.
    /// - `Dropped` with the box's own creation location if its cell was removed or belongs to another
    ///   store (a step).
    ///
    /// The value that was passed in comes back then, and the store is unchanged. Nothing else allocates.
    ///
    /// ```rust
    /// if !state.ready(&StepCall::Set(set.pointer())) {
    ///     return rt.stop("another value that waits");
    /// }
    /// let value = text(rt, alloc, "set");
    /// rt.compare(&state.set(set, value, tally), &Ok(()));
    /// ```
    pub fn set(
        &mut self,
        asked: GenerationalBox<T>,
        value: T,
        tally: &mut Tally<M, L, C, R>,
    ) -> Result<(), (T, Refused<BorrowMutError>)>
        requires { is_ready self.old.state (call.Set (pointer_of asked)) ≡ true }
        ensures step { (old : T) × IsStep NUMBER self.old tally.old
            (SetValue (pointer_of asked) value) (set_answer old result) self.new tally.new }
        ensures back { IfErr result (λ e. e.0 ≡ value) }
    {
        if self.log.reserve(2).is_err() {
            return Err((value, Refused::Store(StoreError::OutOfMemory)));
        }
        let pointer = asked.pointer();
        match set_value(&mut self.store, pointer, value) {
            Ok(_) => {
                let entry = ValueSet { asked: pointer };
                record_step(&self.store, &mut self.log, entry, tally);
                Ok(())
            }
            Err(back) => {
                let call = StepCall::Set(pointer);
                let reply = end_refusal::<T>(&back.1);
                record_call(&self.store, &mut self.log, call, reply, tally);
                Err(back)
            }
        }
    }
}

// Begins a read in the store, before it is recorded.
#[inline(always)]
fn begin_read<T: Drop>(
    store: &mut UnsyncStorage<T>,
    asked: GenerationalPointer,
    location: Location,
) -> BorrowResult<GenerationalRef<T>>
    ensures { Meets store.old.state (Read asked location) (read_answer result) store.new.state }
{
    store.try_read(asked, location)
}

// Sets the value that the box refers to, if it isn't borrowed.
fn set_value<T: Drop>(
    store: &mut UnsyncStorage<T>,
    asked: GenerationalPointer,
    value: T,
) -> Result<(), (T, Refused<BorrowMutError>)>
    requires { is_ready store.old.state (call.Set asked) ≡ true }
    ensures step { (old : T) × Meets store.old.state (SetValue asked value) (set_answer old result)
        store.new.state }
    ensures back { IfErr result (λ e. e.0 ≡ value) }
{
    if store.can_write(asked) {
        store.replace_value(asked, value);
        return Ok(());
    }
    let error = ValueDroppedError::new(asked.created_at);
    Err((value, Refused::Borrow(BorrowMutError::Dropped(error))))
}
