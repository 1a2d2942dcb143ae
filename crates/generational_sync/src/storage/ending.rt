//! Calls that remove boxes, release owners, and point references elsewhere.

ghost use Rattle.std.specs.Prelude.{◌≡◌, IfErr};
ghost use Rattle.generational_core.specs.Answers.{end_answer, pointer_of, release_answer};
ghost use Rattle.generational_core.specs.Machine.Action.{End, Point, ReleaseOwner};
ghost use Rattle.shared_state.specs.Shared.{IsUnseenStep};

use super::SyncStorage;
use crate::together::Held;
use generational_box::{
    BorrowMutError, BorrowMutResult, GenerationalBox, Owner, Refused, StepCall,
};
use shared_history::{Count, Tally};
use shared_state::SyncState;
use std::sync::{MutexGuard, Wait};

impl<T: Drop, const NUMBER: u64, M: Count, L: Count, C: Count, R: Count> SyncStorage<
    T,
    NUMBER,
    M,
    L,
    C,
    R,
> {
    /// Removes the box's cell, and drops the value, once no borrow is in the way. For a box whose cell
    /// was removed or belongs to another store, the call returns Ok, a step that changes nothing. Wakes
    /// the calls that wait.
    ///
    /// # Errors
    ///
    /// `OutOfMemory` only if the history has no room for the step: nothing changes. Nothing else
    /// allocates.
    ///
    /// ```rust
    /// self.store.manually_drop(rt, asked, &mut self.tally)
    /// ```
    pub fn manually_drop(
        &self,
        rt: &impl Wait,
        asked: GenerationalBox<T>,
        tally: &mut Tally<M, L, C, R>,
    ) -> BorrowMutResult<()>
        ensures step { IsUnseenStep {T = T} NUMBER tally.old (End (pointer_of asked))
            (end_answer result) tally.new }
    {
        let mut held = self.shared.held.lock(rt);
        if let Some(ended) = held.state.end_at_once(asked, tally) {
            self.unlock(held, ended.is_ok());
            return ended;
        }
        self.end_later(rt, held, asked, tally)
    }

    // Removes the box's cell once the borrows that are in its way are gone. It is inlined, so that the
    // other function's arguments are written to memory here, and not where a cell is removed at once.
    #[inline(always)]
    fn end_later<'a>(
        &'a self,
        rt: &impl Wait,
        held: MutexGuard<'a, Held<SyncState<T, NUMBER, M, L, C, R>>>,
        asked: GenerationalBox<T>,
        tally: &mut Tally<M, L, C, R>,
    ) -> BorrowMutResult<()>
        ensures step { IsUnseenStep {T = T} NUMBER tally.old (End (pointer_of asked))
            (end_answer result) tally.new }
    {
        self.wait_to_end(rt, held, asked, tally)
    }

    #[cold]
    #[inline(never)]
    fn wait_to_end<'a>(
        &'a self,
        rt: &impl Wait,
        held: MutexGuard<'a, Held<SyncState<T, NUMBER, M, L, C, R>>>,
        asked: GenerationalBox<T>,
        tally: &mut Tally<M, L, C, R>,
    ) -> BorrowMutResult<()>
        ensures step { IsUnseenStep {T = T} NUMBER tally.old (End (pointer_of asked))
            (end_answer result) tally.new }
    {
        let call = StepCall::ManuallyDrop(asked.pointer());
        let mut held = self.wait_for(rt, held, call);
        let ended = held.state.manually_drop(asked, tally);
        self.unlock(held, ended.is_ok());
        ended
    }

    /// Points a reference to the shared value that another box refers to, once that value isn't being
    /// written, and the value that the reference referred to before isn't borrowed if it would be
    /// dropped. The value that it referred to before is dropped if this was the last live reference to
    /// it. The reference keeps its id and its location. For two boxes of the same id, even of a removed
    /// cell, and for a reference that refers to that value already, the call returns Ok, a step that
    /// changes nothing. Wakes the calls that wait.
    ///
    /// # Errors
    ///
    /// - `OutOfMemory` only if the history has no room for the step.
    /// - `Dropped`, a step: with the other box's location if that refers to no value; with this box's own
    ///   if its cell was removed or belongs to another store; with that of the value which the other
    ///   refers to if this box is no reference or that value isn't shared.
    ///
    /// A call that fails changes nothing, and nothing else allocates.
    ///
    /// ```rust
    /// self.store.point_to(rt, asked, other, &mut self.tally)
    /// ```
    pub fn point_to(
        &self,
        rt: &impl Wait,
        asked: GenerationalBox<T>,
        other: GenerationalBox<T>,
        tally: &mut Tally<M, L, C, R>,
    ) -> BorrowMutResult<()>
        ensures step { IsUnseenStep {T = T} NUMBER tally.old
            (Point (pointer_of asked) (pointer_of other)) (end_answer result) tally.new }
    {
        let call = StepCall::PointTo(asked.pointer(), other.pointer());
        let mut held = self.lock_when(rt, call);
        let pointed = held.state.point_to(asked, other, tally);
        self.unlock(held, pointed.is_ok());
        pointed
    }

    /// Consumes an owner value, once no borrow is in the way of its release. The last one of its record
    /// removes all live boxes of the list, and each shared value without other references. Wakes the
    /// calls that wait.
    ///
    /// # Errors
    ///
    /// - `OutOfMemory` only if the history has no room for the step.
    /// - `UnknownOwner` if the store has no record of the owner, which is checked before any waiting (a
    ///   step).
    ///
    /// The owner comes back then, and the store is unchanged. Nothing else allocates.
    ///
    /// ```rust
    /// if let Err((session, _)) = self.store.release_owner(rt, session, &mut self.tally) {
    ///     session.leak();
    /// }
    /// ```
    pub fn release_owner(
        &self,
        rt: &impl Wait,
        owner: Owner,
        tally: &mut Tally<M, L, C, R>,
    ) -> Result<(), (Owner, Refused<BorrowMutError>)>
        ensures step { IsUnseenStep {T = T} NUMBER tally.old (ReleaseOwner owner)
            (release_answer result) tally.new }
        ensures back { IfErr result (λ e. e.0 ≡ owner) }
    {
        let mut held = self.lock_to_release(rt, &owner);
        let released = held.state.release_owner(owner, tally);
        self.unlock(held, released.is_ok());
        released
    }
}
