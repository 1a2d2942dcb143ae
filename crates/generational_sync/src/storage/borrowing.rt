//! Calls that begin and end borrows, and that set a value.

ghost use Rattle.std.specs.Prelude.{◌≡◌, IfErr};
ghost use Rattle.generational_core.specs.Answers.{back_answer, pointer_of, read_answer};
ghost use Rattle.generational_core.specs.Answers.{write_answer};
ghost use Rattle.generational_core.specs.Machine.Action.{Read, ReleaseReader, ReleaseWriter};
ghost use Rattle.generational_core.specs.Machine.Action.{SetValue, Write};
ghost use Rattle.generational_core.specs.Machine.Answer.{Flag};
ghost use Rattle.shared_state.specs.Shared.{IsUnseenStep};
ghost use Rattle.shared_history.specs.Replies.{set_answer};

use super::SyncStorage;
use crate::together::Held;
use generational_box::{
    BorrowMutError, BorrowMutResult, BorrowResult, GenerationalBox, GenerationalRef,
    GenerationalRefMut, Location, Refused, StepCall,
};
use shared_history::{Count, Tally};
use shared_state::SyncState;
use std::sync::{MutexGuard, Wait};

impl<T: Drop, const NUMBER: u64, M: Count, L: Count, C: Count, R: Count> SyncStorage<
    T,
    NUMBER,
    M,
    L,
    C,
    R,
> {
    /// Begins a read of the box's value, once no writer is in its way. The guard has the store's number,
    /// and must be released.
    ///
    /// Allocates for the reader if the value has another one, for the step and for the step of its
    /// release.
    ///
    /// # Errors
    ///
    /// - `OutOfMemory` if the history has no room.
    /// - `Dropped` with the box's own creation location if its cell was removed or belongs to another
    ///   store (a step).
    /// - `NumbersExhausted` if the tickets are used up (a step).
    /// - `OutOfMemory` only if the value has another reader.
    ///
    /// ```rust
    /// self.store.try_read(rt, asked, at, &mut self.tally)
    /// ```
    pub fn try_read(
        &self,
        rt: &impl Wait,
        asked: GenerationalBox<T>,
        location: Location,
        tally: &mut Tally<M, L, C, R>,
    ) -> BorrowResult<GenerationalRef<T>>
        ensures step { IsUnseenStep {T = T} NUMBER tally.old (Read (pointer_of asked) location)
            (read_answer result) tally.new }
    {
        let mut held = self.shared.held.lock(rt);
        if let Some(read) = held.state.read_at_once(asked, location, tally) {
            return read;
        }
        self.read_later(rt, held, asked, location, tally)
    }

    // Begins the read once the writer that is in its way is gone. It is inlined, so that the other
    // function's arguments are written to memory here, and not where a read begins at once.
    #[inline(always)]
    fn read_later<'a>(
        &'a self,
        rt: &impl Wait,
        held: MutexGuard<'a, Held<SyncState<T, NUMBER, M, L, C, R>>>,
        asked: GenerationalBox<T>,
        location: Location,
        tally: &mut Tally<M, L, C, R>,
    ) -> BorrowResult<GenerationalRef<T>>
        ensures step { IsUnseenStep {T = T} NUMBER tally.old (Read (pointer_of asked) location)
            (read_answer result) tally.new }
    {
        self.wait_to_read(rt, held, asked, location, tally)
    }

    #[cold]
    #[inline(never)]
    fn wait_to_read<'a>(
        &'a self,
        rt: &impl Wait,
        held: MutexGuard<'a, Held<SyncState<T, NUMBER, M, L, C, R>>>,
        asked: GenerationalBox<T>,
        location: Location,
        tally: &mut Tally<M, L, C, R>,
    ) -> BorrowResult<GenerationalRef<T>>
        ensures step { IsUnseenStep {T = T} NUMBER tally.old (Read (pointer_of asked) location)
            (read_answer result) tally.new }
    {
        let call = StepCall::Read(asked.pointer(), location);
        let mut held = self.wait_for(rt, held, call);
        held.state.try_read(asked, location, tally)
    }

    /// Calls `try_read`. The sequential store's `read` has a condition instead of errors.
    ///
    /// ```rust
    /// let reader = self.store.read(rt, kept, here, &mut self.tally)?;
    /// let seen = self.store.open(rt, &reader, |value| *value);
    /// self.store.release_read(rt, reader, &mut self.tally);
    /// ```
    pub fn read(
        &self,
        rt: &impl Wait,
        asked: GenerationalBox<T>,
        location: Location,
        tally: &mut Tally<M, L, C, R>,
    ) -> BorrowResult<GenerationalRef<T>>
        ensures step { IsUnseenStep {T = T} NUMBER tally.old (Read (pointer_of asked) location)
            (read_answer result) tally.new }
    {
        self.try_read(rt, asked, location, tally)
    }

    /// Begins a write of the box's value, once no borrow is in its way. The value moves into the guard,
    /// which has the store's number and must be released. Its views need no lock.
    ///
    /// # Errors
    ///
    /// - `OutOfMemory` only if the history has no room.
    /// - `Dropped` with the box's own creation location if its cell was removed or belongs to another
    ///   store (a step).
    /// - `NumbersExhausted` if the tickets are used up (a step).
    ///
    /// Allocates for the step and for the step of its release.
    ///
    /// ```rust
    /// self.store.try_write(rt, asked, at, &mut self.tally)
    /// ```
    pub fn try_write(
        &self,
        rt: &impl Wait,
        asked: GenerationalBox<T>,
        location: Location,
        tally: &mut Tally<M, L, C, R>,
    ) -> BorrowMutResult<GenerationalRefMut<T>>
        ensures step { IsUnseenStep NUMBER tally.old (Write (pointer_of asked) location)
            (write_answer result) tally.new }
    {
        let mut held = self.shared.held.lock(rt);
        if let Some(written) = held.state.write_at_once(asked, location, tally) {
            return written;
        }
        self.write_later(rt, held, asked, location, tally)
    }

    // Begins the write once the borrows that are in its way are gone. It is inlined for the same reason
    // as a read's.
    #[inline(always)]
    fn write_later<'a>(
        &'a self,
        rt: &impl Wait,
        held: MutexGuard<'a, Held<SyncState<T, NUMBER, M, L, C, R>>>,
        asked: GenerationalBox<T>,
        location: Location,
        tally: &mut Tally<M, L, C, R>,
    ) -> BorrowMutResult<GenerationalRefMut<T>>
        ensures step { IsUnseenStep NUMBER tally.old (Write (pointer_of asked) location)
            (write_answer result) tally.new }
    {
        self.wait_to_write(rt, held, asked, location, tally)
    }

    #[cold]
    #[inline(never)]
    fn wait_to_write<'a>(
        &'a self,
        rt: &impl Wait,
        held: MutexGuard<'a, Held<SyncState<T, NUMBER, M, L, C, R>>>,
        asked: GenerationalBox<T>,
        location: Location,
        tally: &mut Tally<M, L, C, R>,
    ) -> BorrowMutResult<GenerationalRefMut<T>>
        ensures step { IsUnseenStep NUMBER tally.old (Write (pointer_of asked) location)
            (write_answer result) tally.new }
    {
        let call = StepCall::Write(asked.pointer(), location);
        let mut held = self.wait_for(rt, held, call);
        held.state.try_write(asked, location, tally)
    }

    /// Calls `try_write`. The sequential store's `write` has a condition instead of errors.
    ///
    /// ```rust
    /// let mut writer = self.store.write(rt, total, here, &mut self.tally)?;
    /// let sum = (*writer.deref()).wrapping_add(seen.unwrap_or(0));
    /// *writer.deref_mut() = sum;
    /// let _ = self.store.release_write(rt, writer, &mut self.tally);
    /// ```
    pub fn write(
        &self,
        rt: &impl Wait,
        asked: GenerationalBox<T>,
        location: Location,
        tally: &mut Tally<M, L, C, R>,
    ) -> BorrowMutResult<GenerationalRefMut<T>>
        ensures step { IsUnseenStep NUMBER tally.old (Write (pointer_of asked) location)
            (write_answer result) tally.new }
    {
        self.try_write(rt, asked, location, tally)
    }

    /// Ends a read, and wakes the calls that wait. Returns whether the store knew the guard; if it
    /// didn't, the guard is consumed and nothing changes. Never fails, and doesn't allocate. Waits for no
    /// borrow.
    ///
    /// ```rust
    /// self.store.release_read(rt, reader, &mut self.tally);
    /// ```
    pub fn release_read(
        &self,
        rt: &impl Wait,
        guard: GenerationalRef<T>,
        tally: &mut Tally<M, L, C, R>,
    ) -> bool
        ensures step { IsUnseenStep {T = T} NUMBER tally.old (ReleaseReader guard) (Flag result)
            tally.new }
    {
        let mut held = self.shared.held.lock(rt);
        let known = held.state.release_read(guard, tally);
        self.unlock(held, known);
        known
    }

    /// Ends a write, puts the guard's value into the cell, and wakes the calls that wait. If the store
    /// doesn't know the guard, the value comes back and nothing changes. Never fails, and doesn't
    /// allocate. Waits for no borrow.
    ///
    /// ```rust
    /// let _ = self.store.release_write(rt, writer, &mut self.tally);
    /// ```
    pub fn release_write(
        &self,
        rt: &impl Wait,
        guard: GenerationalRefMut<T>,
        tally: &mut Tally<M, L, C, R>,
    ) -> Result<(), T>
        ensures step { IsUnseenStep NUMBER tally.old (ReleaseWriter guard.guard guard.value)
            (back_answer result) tally.new }
    {
        let mut held = self.shared.held.lock(rt);
        let released = held.state.release_write(guard, tally);
        self.unlock(held, released.is_ok());
        released
    }

    /// Replaces the value that the box refers to, once it isn't borrowed, and drops the old one. Every
    /// box that refers to the value refers to the new one from then on. No ticket is used.
    ///
    /// # Errors
    ///
    /// - `OutOfMemory` only if the history has no room for the step.
    /// - `Dropped` with the box's own creation location if its cell was removed or belongs to another
    ///   store (a step).
    ///
    /// The value that was passed in comes back then, and the store is unchanged. Nothing else allocates.
    ///
    /// ```rust
    /// self.store.set(rt, asked, value, &mut self.tally)
    /// ```
    pub fn set(
        &self,
        rt: &impl Wait,
        asked: GenerationalBox<T>,
        value: T,
        tally: &mut Tally<M, L, C, R>,
    ) -> Result<(), (T, Refused<BorrowMutError>)>
        ensures step { (old : T) × IsUnseenStep NUMBER tally.old (SetValue (pointer_of asked) value)
            (set_answer old result) tally.new }
        ensures back { IfErr result (λ e. e.0 ≡ value) }
    {
        let call = StepCall::Set(asked.pointer());
        let mut held = self.lock_when(rt, call);
        held.state.set(asked, value, tally)
    }
}
