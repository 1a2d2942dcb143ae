//! A worker that has its store alone, so that a service runs without threads.

ghost use Rattle.std.specs.Prelude.{◌≡◌, true, false, None, Some, IfErr, IfSome, is_some};
ghost use Rattle.std.specs.Option.{ForSome};
ghost use Rattle.generational_core.specs.Answers.{back_answer, end_answer, pointer_of, read_answer};
ghost use Rattle.generational_core.specs.Answers.{reference_box_answer, write_answer};
ghost use Rattle.generational_core.specs.Machine.Action.{End, Point, Read, Refer, ReleaseReader};
ghost use Rattle.generational_core.specs.Machine.Action.{ReleaseWriter, SetValue, Write};
ghost use Rattle.generational_core.specs.Machine.Answer.{Flag};
ghost use Rattle.generational_core.specs.StepCalls.{id_of_owner, is_ready};
ghost use Rattle.shared_state.specs.Shared.{IsUnseenStep};
ghost use Rattle.generational_workers.specs.Waits.{WouldWait};
ghost use Rattle.shared_history.specs.Replies.{set_answer};

use crate::own::OwnTally;
use crate::pace::Pace;
use crate::worker::Worker;
use generational_box::{
    BorrowMutError, BorrowMutResult, BorrowResult, GenerationalBox, GenerationalRef,
    GenerationalRefMut, Location, Owner, Refusal, Refused, StepCall, StoreError,
};
use generational_sync::laws::histories_lead_to_sound_states;
use generational_sync::{Count, SyncState};

/// A store that one worker has at a time, and the first call that would have waited for ever.
#[derive(Drop)]
pub(crate) struct Bench<T, const NUMBER: u64, M: Count, L: Count, C: Count, R: Count> {
    pub(crate) state: SyncState<T, NUMBER, M, L, C, R>,
    pub(crate) stuck: Option<StepCall>,
    ghost waits: { ForSome stuck (WouldWait T NUMBER) },
}

impl<T: Drop, const NUMBER: u64, M: Count, L: Count, C: Count, R: Count> Bench<
    T,
    NUMBER,
    M,
    L,
    C,
    R,
> {
    // A store in which no call has been stuck.
    pub(crate) fn new(state: SyncState<T, NUMBER, M, L, C, R>) -> Self {
        Bench { state, stuck: None }
    }

    // Whether a call would wait for ever, since nobody else is there to end the borrow that stands in
    // its way. The first one is kept.
    fn is_stuck(&mut self, call: StepCall) -> bool
        ensures ready { result ≡ false → is_ready self.new.state.state call ≡ true }
        ensures waits { result ≡ true → is_ready self.new.state.state call ≡ false }
        ensures told { result ≡ true → self.old.stuck ≡ None → self.new.stuck ≡ Some call }
        ensures first { is_some self.old.stuck ≡ true → self.new.stuck ≡ self.old.stuck }
        ensures unstuck { result ≡ false → self.new.stuck ≡ self.old.stuck }
        ensures state { self.new.state ≡ self.old.state }
    {
        self.state.history_replays();
        if self.state.ready(&call) {
            return false;
        }
        if self.stuck.is_none() {
            self.stuck = Some(call);
        }
        true
    }
}

/// A worker at a store that it has alone: its tally, and when it makes checkpoints.
#[derive(Drop)]
pub(crate) struct Lone<T, const NUMBER: u64, M: Count, L: Count, C: Count, R: Count> {
    pub(crate) bench: Bench<T, NUMBER, M, L, C, R>,
    pub(crate) own: OwnTally<M, L, C, R>,
    pub(crate) pace: Pace,
}

impl<T: Drop, const NUMBER: u64, M: Count, L: Count, C: Count, R: Count> Lone<
    T,
    NUMBER,
    M,
    L,
    C,
    R,
> {
    // Counts a call, and makes a checkpoint if one is due. If that fails, the next one is due as late.
    fn keep_pace(&mut self)
        ensures { self.new.own.tally ≡ self.old.own.tally }
    {
        if self.pace.is_due() {
            let bench = &mut self.bench;
            let _ = bench.state.checkpoint();
        }
    }
}

#[tactic(auto, using(crate::proofs::Seen::seen, crate::proofs::Seen::seen_parts, crate::proofs::Seen::seen_after_pause, crate::proofs::Seen::stuck_after_pause))]
impl<T: Drop, const NUMBER: u64, M: Count, L: Count, C: Count, R: Count> Worker<T>
    for Lone<T, NUMBER, M, L, C, R> {
    ghost number = { NUMBER };

    ghost counts = { λ l. l.own.tally };

    fn number(&self) -> u64 {
        NUMBER
    }

    fn worker(&self) -> usize {
        self.own.tally.worker()
    }

    fn leak(&mut self, value: T, location: Location) -> Result<GenerationalBox<T>, Refusal<T>> {
        self.keep_pace();
        let Lone { bench, own, .. } = self;
        let Bench { state, .. } = bench;
        let OwnTally { tally } = own;
        state.leak(value, location, tally)
    }

    fn leak_rc(&mut self, value: T, location: Location) -> Result<GenerationalBox<T>, Refusal<T>> {
        self.keep_pace();
        let Lone { bench, own, .. } = self;
        let Bench { state, .. } = bench;
        let OwnTally { tally } = own;
        state.leak_rc(value, location, tally)
    }

    fn leak_reference(&mut self, asked: GenerationalBox<T>) -> BorrowResult<GenerationalBox<T>>
        ensures step { IsUnseenStep {T = T} NUMBER self.old.own.tally (Refer None (pointer_of asked))
            (reference_box_answer result) self.new.own.tally }
    {
        self.keep_pace();
        let bench = &mut self.bench;
        if bench.is_stuck(StepCall::LeakReference(asked.pointer())) {
            return Err(Refused::Store(StoreError::OutOfMemory));
        }
        let Lone { bench, own, .. } = self;
        let Bench { state, .. } = bench;
        let OwnTally { tally } = own;
        state.leak_reference(asked, tally)
    }

    fn owner(&mut self) -> Result<Owner, StoreError> {
        self.keep_pace();
        let Lone { bench, own, .. } = self;
        let Bench { state, .. } = bench;
        let OwnTally { tally } = own;
        state.owner(tally)
    }

    fn clone_owner(&mut self, owner: &Owner) -> Result<Owner, StoreError> {
        self.keep_pace();
        let Lone { bench, own, .. } = self;
        let Bench { state, .. } = bench;
        let OwnTally { tally } = own;
        state.clone_owner(owner, tally)
    }

    fn insert(
        &mut self,
        owner: &Owner,
        value: T,
        location: Location,
    ) -> Result<GenerationalBox<T>, Refusal<T>> {
        self.keep_pace();
        let Lone { bench, own, .. } = self;
        let Bench { state, .. } = bench;
        let OwnTally { tally } = own;
        state.insert(owner, value, location, tally)
    }

    fn insert_rc(
        &mut self,
        owner: &Owner,
        value: T,
        location: Location,
    ) -> Result<GenerationalBox<T>, Refusal<T>> {
        self.keep_pace();
        let Lone { bench, own, .. } = self;
        let Bench { state, .. } = bench;
        let OwnTally { tally } = own;
        state.insert_rc(owner, value, location, tally)
    }

    fn insert_reference(
        &mut self,
        owner: &Owner,
        asked: GenerationalBox<T>,
    ) -> BorrowResult<GenerationalBox<T>>
        ensures step { IsUnseenStep {T = T} NUMBER self.old.own.tally (Refer (Some owner.now) (pointer_of asked))
            (reference_box_answer result) self.new.own.tally }
    {
        self.keep_pace();
        let bench = &mut self.bench;
        if bench.is_stuck(StepCall::InsertReference(owner.id(), asked.pointer())) {
            return Err(Refused::Store(StoreError::OutOfMemory));
        }
        let Lone { bench, own, .. } = self;
        let Bench { state, .. } = bench;
        let OwnTally { tally } = own;
        state.insert_reference(owner, asked, tally)
    }

    fn release_owner(&mut self, owner: Owner) -> Result<(), (Owner, Refused<BorrowMutError>)> {
        self.keep_pace();
        let bench = &mut self.bench;
        if bench.is_stuck(StepCall::ReleaseOwner(owner.id())) {
            return Err((owner, Refused::Store(StoreError::OutOfMemory)));
        }
        let Lone { bench, own, .. } = self;
        let Bench { state, .. } = bench;
        let OwnTally { tally } = own;
        state.release_owner(owner, tally)
    }

    fn try_read(
        &mut self,
        asked: GenerationalBox<T>,
        location: Location,
    ) -> BorrowResult<GenerationalRef<T>>
        ensures step { IsUnseenStep {T = T} NUMBER self.old.own.tally (Read (pointer_of asked) location)
            (read_answer result) self.new.own.tally }
    {
        self.keep_pace();
        let bench = &mut self.bench;
        if bench.is_stuck(StepCall::Read(asked.pointer(), location)) {
            return Err(Refused::Store(StoreError::OutOfMemory));
        }
        let Lone { bench, own, .. } = self;
        let Bench { state, .. } = bench;
        let OwnTally { tally } = own;
        state.try_read(asked, location, tally)
    }

    fn try_write(
        &mut self,
        asked: GenerationalBox<T>,
        location: Location,
    ) -> BorrowMutResult<GenerationalRefMut<T>>
        ensures step { IsUnseenStep NUMBER self.old.own.tally (Write (pointer_of asked) location)
            (write_answer result) self.new.own.tally }
    {
        self.keep_pace();
        let bench = &mut self.bench;
        if bench.is_stuck(StepCall::Write(asked.pointer(), location)) {
            return Err(Refused::Store(StoreError::OutOfMemory));
        }
        let Lone { bench, own, .. } = self;
        let Bench { state, .. } = bench;
        let OwnTally { tally } = own;
        state.try_write(asked, location, tally)
    }

    fn release_read(&mut self, guard: GenerationalRef<T>) -> bool
        ensures step { IsUnseenStep {T = T} NUMBER self.old.own.tally (ReleaseReader guard) (Flag result)
            self.new.own.tally }
    {
        let Lone { bench, own, .. } = self;
        let Bench { state, .. } = bench;
        let OwnTally { tally } = own;
        state.release_read(guard, tally)
    }

    fn open<A, F: FnOnce(&T) -> A>(&self, guard: &GenerationalRef<T>, f: F) -> Option<A> {
        histories_lead_to_sound_states();
        self.bench.state.history_replays();
        let value = self.bench.state.open(guard)?;
        Some(f(value))
    }

    fn release_write(&mut self, guard: GenerationalRefMut<T>) -> Result<(), T>
        ensures step { IsUnseenStep NUMBER self.old.own.tally (ReleaseWriter guard.guard guard.value)
            (back_answer result) self.new.own.tally }
    {
        let Lone { bench, own, .. } = self;
        let Bench { state, .. } = bench;
        let OwnTally { tally } = own;
        state.release_write(guard, tally)
    }

    fn set(
        &mut self,
        asked: GenerationalBox<T>,
        value: T,
    ) -> Result<(), (T, Refused<BorrowMutError>)>
        ensures step { (old : T) × IsUnseenStep NUMBER self.old.own.tally
            (SetValue (pointer_of asked) value) (set_answer old result) self.new.own.tally }
        ensures back { IfErr result (λ e. e.0 ≡ value) }
    {
        self.keep_pace();
        let bench = &mut self.bench;
        if bench.is_stuck(StepCall::Set(asked.pointer())) {
            return Err((value, Refused::Store(StoreError::OutOfMemory)));
        }
        let Lone { bench, own, .. } = self;
        let Bench { state, .. } = bench;
        let OwnTally { tally } = own;
        state.set(asked, value, tally)
    }

    fn manually_drop(&mut self, asked: GenerationalBox<T>) -> BorrowMutResult<()>
        ensures step { IsUnseenStep {T = T} NUMBER self.old.own.tally (End (pointer_of asked))
            (end_answer result) self.new.own.tally }
    {
        self.keep_pace();
        let bench = &mut self.bench;
        if bench.is_stuck(StepCall::ManuallyDrop(asked.pointer())) {
            return Err(Refused::Store(StoreError::OutOfMemory));
        }
        let Lone { bench, own, .. } = self;
        let Bench { state, .. } = bench;
        let OwnTally { tally } = own;
        state.manually_drop(asked, tally)
    }

    fn point_to(
        &mut self,
        asked: GenerationalBox<T>,
        other: GenerationalBox<T>,
    ) -> BorrowMutResult<()>
        ensures step { IsUnseenStep {T = T} NUMBER self.old.own.tally
            (Point (pointer_of asked) (pointer_of other)) (end_answer result) self.new.own.tally }
    {
        self.keep_pace();
        let bench = &mut self.bench;
        if bench.is_stuck(StepCall::PointTo(asked.pointer(), other.pointer())) {
            return Err(Refused::Store(StoreError::OutOfMemory));
        }
        let Lone { bench, own, .. } = self;
        let Bench { state, .. } = bench;
        let OwnTally { tally } = own;
        state.point_to(asked, other, tally)
    }

    fn checkpoint(&mut self) -> Result<u64, StoreError> {
        let bench = &mut self.bench;
        bench.state.checkpoint()
    }
}
