//! Calls that remove boxes, release owners, and point references elsewhere.

ghost use Rattle.std.specs.Prelude.{◌≡◌, true, IfErr, IfNone, IfSome};
ghost use Rattle.generational_core.specs.declared.steps.StepCall.TheVariants as call;
ghost use Rattle.generational_core.specs.Answers.{end_answer, pointer_of, release_answer};
ghost use Rattle.generational_core.specs.Machine.Action.{End, Point, ReleaseOwner};
ghost use Rattle.generational_core.specs.StepCalls.{id_of_owner, is_ready};
ghost use Rattle.shared_state.specs.Keeping.{IsHindered};
ghost use Rattle.shared_state.specs.Shared.{IsStep};

use super::{SyncState, record_call, record_failure, record_step};
use generational_box::laws::calls_are_ready_where_no_borrow_is_told;
use generational_box::{
    AnyStorage, BorrowMutError, BorrowMutResult, GenerationalBox, Owner, Refused, StepCall,
    Storage, StoreError,
};
use shared_history::replies::end_refusal;
use shared_history::{Count, Tally};
use shared_records::{BoxEnded, BoxPointed, OwnerEnded};

impl<T: Drop, const NUMBER: u64, M: Count, L: Count, C: Count, R: Count> SyncState<
    T,
    NUMBER,
    M,
    L,
    C,
    R,
> {
    /// Removes the box's cell, which no borrow hinders, and drops the value. For a box whose cell was
    /// removed or belongs to another store, the call returns Ok, a step that changes nothing.
    ///
    /// # Errors
    ///
    /// `OutOfMemory` only if the history has no room for the step: nothing changes. Nothing else
    /// allocates.
    ///
    /// ```rust
    /// if !state.ready(&StepCall::ManuallyDrop(made.pointer())) {
    ///     return None;
    /// }
    /// state.manually_drop(made, tally).ok()?;
    /// ```
    #[inline(always)]
    pub fn manually_drop(
        &mut self,
        asked: GenerationalBox<T>,
        tally: &mut Tally<M, L, C, R>,
    ) -> BorrowMutResult<()>
        requires { is_ready self.old.state (call.ManuallyDrop (pointer_of asked)) ≡ true }
        ensures step { IsStep NUMBER self.old tally.old (End (pointer_of asked)) (end_answer result)
            self.new tally.new }
    {
        match self.end_at_once(asked, tally) {
            Some(ended) => ended,
            None => unreachable!(),
        }
    }

    /// Removes a box's cell, like `manually_drop`, if no borrow is in its way; None otherwise, and then
    /// nothing changes.
    #[inline(always)]
    pub fn end_at_once(
        &mut self,
        asked: GenerationalBox<T>,
        tally: &mut Tally<M, L, C, R>,
    ) -> Option<BorrowMutResult<()>>
        ensures step { IfSome result (λ ended. IsStep NUMBER self.old tally.old
            (End (pointer_of asked)) (end_answer ended) self.new tally.new) }
        ensures none { IfNone result (IsHindered self.old tally.old
            (call.ManuallyDrop (pointer_of asked)) self.new tally.new) }
    {
        let pointer = asked.pointer();
        if self.log.reserve(2).is_err() {
            if !self.is_ready(StepCall::ManuallyDrop(pointer)) {
                return None;
            }
            return Some(Err(Refused::Store(StoreError::OutOfMemory)));
        }
        calls_are_ready_where_no_borrow_is_told::<T>();
        match self.store.recycle(pointer) {
            Ok(_) => {
                let entry = BoxEnded { asked: pointer };
                record_step(&self.store, &mut self.log, entry, tally);
                Some(Ok(()))
            }
            Err(refused) => {
                let call = StepCall::ManuallyDrop(pointer);
                let reply = end_refusal::<T>(&refused);
                if !record_failure(&self.store, &mut self.log, call, reply, tally) {
                    return None;
                }
                Some(Err(refused))
            }
        }
    }

    /// Points a reference to the shared value that another box refers to. That value isn't being written,
    /// and the value that the reference referred to before isn't borrowed if it would be dropped. The
    /// value that it referred to before is dropped if this was the last live reference to it. The
    /// reference keeps its id and its location. For two boxes of the same id, even of a removed cell, and
    /// for a reference that refers to that value already, the call returns Ok, a step that changes
    /// nothing.
    ///
    /// # Errors
    ///
    /// - `OutOfMemory` only if the history has no room for the step.
    /// - `Dropped`, a step: with the other box's location if that refers to no value; with this box's own
    ///   if its cell was removed or belongs to another store; with that of the value which the other
    ///   refers to if this box is no reference or that value isn't shared.
    ///
    /// A call that fails changes nothing, and nothing else allocates.
    ///
    /// ```rust
    /// let call = StepCall::PointTo(asked.pointer(), other.pointer());
    /// if !state.ready(&call) {
    ///     return rt.stop("a reference that waits");
    /// }
    /// rt.compare(&state.point_to(asked, other, tally), &Ok(()));
    /// ```
    pub fn point_to(
        &mut self,
        asked: GenerationalBox<T>,
        other: GenerationalBox<T>,
        tally: &mut Tally<M, L, C, R>,
    ) -> BorrowMutResult<()>
        requires { is_ready self.old.state (call.PointTo (pointer_of asked) (pointer_of other))
            ≡ true }
        ensures step { IsStep NUMBER self.old tally.old
            (Point (pointer_of asked) (pointer_of other)) (end_answer result) self.new tally.new }
    {
        if self.log.reserve(2).is_err() {
            return Err(Refused::Store(StoreError::OutOfMemory));
        }
        let pointer = asked.pointer();
        let target = other.pointer();
        match self.store.change_reference(pointer, target) {
            Ok(_) => {
                let entry = BoxPointed {
                    asked: pointer,
                    other: target,
                };
                record_step(&self.store, &mut self.log, entry, tally);
                Ok(())
            }
            Err(refused) => {
                let call = StepCall::PointTo(pointer, target);
                let reply = end_refusal::<T>(&refused);
                record_call(&self.store, &mut self.log, call, reply, tally);
                Err(refused)
            }
        }
    }

    /// Consumes an owner value, whose release no borrow hinders. The last one of its record removes all
    /// live boxes of the list, and each shared value without other references.
    ///
    /// # Errors
    ///
    /// - `OutOfMemory` only if the history has no room for the step.
    /// - `UnknownOwner` if the store has no record of the owner (a step).
    ///
    /// The owner comes back then, and the store is unchanged. Nothing else allocates.
    ///
    /// ```rust
    /// if let Err((owner, _)) = state.release_owner(owner, tally) {
    ///     owner.leak();
    ///     rt.stop("an owner that stays")
    /// }
    /// ```
    pub fn release_owner(
        &mut self,
        owner: Owner,
        tally: &mut Tally<M, L, C, R>,
    ) -> Result<(), (Owner, Refused<BorrowMutError>)>
        requires { is_ready self.old.state (call.ReleaseOwner (id_of_owner owner)) ≡ true }
        ensures step { IsStep NUMBER self.old tally.old (ReleaseOwner owner) (release_answer result)
            self.new tally.new }
        ensures back { IfErr result (λ e. e.0 ≡ owner) }
    {
        if self.log.reserve(2).is_err() {
            return Err((owner, Refused::Store(StoreError::OutOfMemory)));
        }
        let id = owner.id();
        match self.store.release_owner(owner) {
            Ok(_) => {
                let entry = OwnerEnded { owner: id };
                record_step(&self.store, &mut self.log, entry, tally);
                Ok(())
            }
            Err(back) => {
                let call = StepCall::ReleaseOwner(id);
                let reply = end_refusal::<T>(&back.1);
                record_call(&self.store, &mut self.log, call, reply, tally);
                Err(back)
            }
        }
    }
}
