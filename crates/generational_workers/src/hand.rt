//! A worker in a thread of its own.

ghost use Rattle.std.specs.Prelude.{◌≡◌, None, Some, IfErr};
ghost use Rattle.generational_core.specs.Answers.{back_answer, end_answer, pointer_of, read_answer};
ghost use Rattle.generational_core.specs.Answers.{reference_box_answer, write_answer};
ghost use Rattle.generational_core.specs.Machine.Action.{End, Point, Read, Refer, ReleaseReader};
ghost use Rattle.generational_core.specs.Machine.Action.{ReleaseWriter, SetValue, Write};
ghost use Rattle.generational_core.specs.Machine.Answer.{Flag};
ghost use Rattle.shared_state.specs.Shared.{IsUnseenStep};
ghost use Rattle.shared_history.specs.Replies.{set_answer};

use crate::own::OwnTally;
use crate::pace::Pace;
use crate::worker::Worker;
use generational_box::{
    BorrowMutError, BorrowMutResult, BorrowResult, GenerationalBox, GenerationalRef,
    GenerationalRefMut, Location, Owner, Refusal, Refused, StoreError,
};
use generational_sync::{Count, SyncStorage};
use std::sync::Wait;

/// A handle of the store, permission to wait, the worker's tally, and when it makes checkpoints.
#[derive(Drop)]
pub(crate) struct Hand<'a, H: Wait, T, const NUMBER: u64, M: Count, L: Count, C: Count, R: Count> {
    pub(crate) rt: &'a H,
    pub(crate) store: SyncStorage<T, NUMBER, M, L, C, R>,
    pub(crate) own: OwnTally<M, L, C, R>,
    pub(crate) pace: Pace,
}

impl<'a, H: Wait, T: Drop, const NUMBER: u64, M: Count, L: Count, C: Count, R: Count> Hand<
    'a,
    H,
    T,
    NUMBER,
    M,
    L,
    C,
    R,
> {
    // Counts a call, and makes a checkpoint if one is due. If that fails, the next one is due as late.
    fn keep_pace(&mut self)
        ensures { self.new.own.tally ≡ self.old.own.tally }
    {
        if self.pace.is_due() {
            let OwnTally { tally } = &mut self.own;
            let _ = self.store.checkpoint(self.rt, tally);
        }
    }
}

impl<'a, H: Wait, T: Drop, const NUMBER: u64, M: Count, L: Count, C: Count, R: Count> Worker<T>
    for Hand<'a, H, T, NUMBER, M, L, C, R> {
    ghost number = { NUMBER };

    ghost counts = { λ h. h.own.tally };

    fn number(&self) -> u64 {
        self.store.number()
    }

    fn worker(&self) -> usize {
        self.own.tally.worker()
    }

    #[tactic(auto, using(crate::proofs::Keeping::unseen_parts, crate::proofs::Keeping::after_pause))]
    fn leak(&mut self, value: T, location: Location) -> Result<GenerationalBox<T>, Refusal<T>> {
        self.keep_pace();
        let OwnTally { tally } = &mut self.own;
        self.store.leak(self.rt, value, location, tally)
    }

    #[tactic(auto, using(crate::proofs::Keeping::unseen_parts, crate::proofs::Keeping::after_pause))]
    fn leak_rc(&mut self, value: T, location: Location) -> Result<GenerationalBox<T>, Refusal<T>> {
        self.keep_pace();
        let OwnTally { tally } = &mut self.own;
        self.store.leak_rc(self.rt, value, location, tally)
    }

    #[tactic(auto, using(crate::proofs::Keeping::unseen_parts, crate::proofs::Keeping::after_pause))]
    fn leak_reference(&mut self, asked: GenerationalBox<T>) -> BorrowResult<GenerationalBox<T>>
        ensures step { IsUnseenStep {T = T} NUMBER self.old.own.tally (Refer None (pointer_of asked))
            (reference_box_answer result) self.new.own.tally }
    {
        self.keep_pace();
        let OwnTally { tally } = &mut self.own;
        self.store.leak_reference(self.rt, asked, tally)
    }

    #[tactic(auto, using(crate::proofs::Keeping::unseen_parts, crate::proofs::Keeping::after_pause))]
    fn owner(&mut self) -> Result<Owner, StoreError> {
        self.keep_pace();
        let OwnTally { tally } = &mut self.own;
        self.store.owner(self.rt, tally)
    }

    #[tactic(auto, using(crate::proofs::Keeping::unseen_parts, crate::proofs::Keeping::after_pause))]
    fn clone_owner(&mut self, owner: &Owner) -> Result<Owner, StoreError> {
        self.keep_pace();
        let OwnTally { tally } = &mut self.own;
        self.store.clone_owner(self.rt, owner, tally)
    }

    #[tactic(auto, using(crate::proofs::Keeping::unseen_parts, crate::proofs::Keeping::after_pause))]
    fn insert(
        &mut self,
        owner: &Owner,
        value: T,
        location: Location,
    ) -> Result<GenerationalBox<T>, Refusal<T>> {
        self.keep_pace();
        let OwnTally { tally } = &mut self.own;
        self.store.insert(self.rt, owner, value, location, tally)
    }

    #[tactic(auto, using(crate::proofs::Keeping::unseen_parts, crate::proofs::Keeping::after_pause))]
    fn insert_rc(
        &mut self,
        owner: &Owner,
        value: T,
        location: Location,
    ) -> Result<GenerationalBox<T>, Refusal<T>> {
        self.keep_pace();
        let OwnTally { tally } = &mut self.own;
        self.store.insert_rc(self.rt, owner, value, location, tally)
    }

    #[tactic(auto, using(crate::proofs::Keeping::unseen_parts, crate::proofs::Keeping::after_pause))]
    fn insert_reference(
        &mut self,
        owner: &Owner,
        asked: GenerationalBox<T>,
    ) -> BorrowResult<GenerationalBox<T>>
        ensures step { IsUnseenStep {T = T} NUMBER self.old.own.tally (Refer (Some owner.now) (pointer_of asked))
            (reference_box_answer result) self.new.own.tally }
    {
        self.keep_pace();
        let OwnTally { tally } = &mut self.own;
        self.store.insert_reference(self.rt, owner, asked, tally)
    }

    #[tactic(auto, using(crate::proofs::Keeping::unseen_parts, crate::proofs::Keeping::after_pause))]
    fn release_owner(&mut self, owner: Owner) -> Result<(), (Owner, Refused<BorrowMutError>)> {
        self.keep_pace();
        let OwnTally { tally } = &mut self.own;
        self.store.release_owner(self.rt, owner, tally)
    }

    #[tactic(auto, using(crate::proofs::Keeping::unseen_parts, crate::proofs::Keeping::after_pause))]
    fn try_read(
        &mut self,
        asked: GenerationalBox<T>,
        location: Location,
    ) -> BorrowResult<GenerationalRef<T>>
        ensures step { IsUnseenStep {T = T} NUMBER self.old.own.tally (Read (pointer_of asked) location)
            (read_answer result) self.new.own.tally }
    {
        self.keep_pace();
        let OwnTally { tally } = &mut self.own;
        self.store.try_read(self.rt, asked, location, tally)
    }

    #[tactic(auto, using(crate::proofs::Keeping::unseen_parts, crate::proofs::Keeping::after_pause))]
    fn try_write(
        &mut self,
        asked: GenerationalBox<T>,
        location: Location,
    ) -> BorrowMutResult<GenerationalRefMut<T>>
        ensures step { IsUnseenStep NUMBER self.old.own.tally (Write (pointer_of asked) location)
            (write_answer result) self.new.own.tally }
    {
        self.keep_pace();
        let OwnTally { tally } = &mut self.own;
        self.store.try_write(self.rt, asked, location, tally)
    }

    #[tactic(auto, using(crate::proofs::Keeping::unseen_parts))]
    fn release_read(&mut self, guard: GenerationalRef<T>) -> bool
        ensures step { IsUnseenStep {T = T} NUMBER self.old.own.tally (ReleaseReader guard) (Flag result)
            self.new.own.tally }
    {
        let OwnTally { tally } = &mut self.own;
        self.store.release_read(self.rt, guard, tally)
    }

    fn open<A, F: FnOnce(&T) -> A>(&self, guard: &GenerationalRef<T>, f: F) -> Option<A> {
        self.store.open(self.rt, guard, f)
    }

    #[tactic(auto, using(crate::proofs::Keeping::unseen_parts))]
    fn release_write(&mut self, guard: GenerationalRefMut<T>) -> Result<(), T>
        ensures step { IsUnseenStep NUMBER self.old.own.tally (ReleaseWriter guard.guard guard.value)
            (back_answer result) self.new.own.tally }
    {
        let OwnTally { tally } = &mut self.own;
        self.store.release_write(self.rt, guard, tally)
    }

    #[tactic(auto, using(crate::proofs::Keeping::unseen_parts, crate::proofs::Keeping::after_pause))]
    fn set(
        &mut self,
        asked: GenerationalBox<T>,
        value: T,
    ) -> Result<(), (T, Refused<BorrowMutError>)>
        ensures step { (old : T) × IsUnseenStep NUMBER self.old.own.tally
            (SetValue (pointer_of asked) value) (set_answer old result) self.new.own.tally }
        ensures back { IfErr result (λ e. e.0 ≡ value) }
    {
        self.keep_pace();
        let OwnTally { tally } = &mut self.own;
        self.store.set(self.rt, asked, value, tally)
    }

    #[tactic(auto, using(crate::proofs::Keeping::unseen_parts, crate::proofs::Keeping::after_pause))]
    fn manually_drop(&mut self, asked: GenerationalBox<T>) -> BorrowMutResult<()>
        ensures step { IsUnseenStep {T = T} NUMBER self.old.own.tally (End (pointer_of asked))
            (end_answer result) self.new.own.tally }
    {
        self.keep_pace();
        let OwnTally { tally } = &mut self.own;
        self.store.manually_drop(self.rt, asked, tally)
    }

    #[tactic(auto, using(crate::proofs::Keeping::unseen_parts, crate::proofs::Keeping::after_pause))]
    fn point_to(
        &mut self,
        asked: GenerationalBox<T>,
        other: GenerationalBox<T>,
    ) -> BorrowMutResult<()>
        ensures step { IsUnseenStep {T = T} NUMBER self.old.own.tally
            (Point (pointer_of asked) (pointer_of other)) (end_answer result) self.new.own.tally }
    {
        self.keep_pace();
        let OwnTally { tally } = &mut self.own;
        self.store.point_to(self.rt, asked, other, tally)
    }

    fn checkpoint(&mut self) -> Result<u64, StoreError> {
        let OwnTally { tally } = &mut self.own;
        self.store.checkpoint(self.rt, tally)
    }
}
