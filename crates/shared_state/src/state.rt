//! What the lock protects.

ghost use Rattle.std.specs.Prelude.{◌≡◌, ◌<◌, ◌+◌, ◌^◌, [], IfOk, IfErr, IfSome, OnErr, OnOk, Some, length};
ghost use Rattle.std.specs.Prelude.{option_copied};
ghost use Rattle.std.specs.Bool.{OnFalse, OnTrue};
ghost use Rattle.generational_errors.specs.declared.error.Location.{Location};
ghost use Rattle.generational_errors.specs.declared.error.StoreError.TheVariants.{OutOfMemory};
ghost use Rattle.generational_core.specs.Slots.{slots};
ghost use Rattle.generational_core.specs.declared.steps.StepCall.TheVariants as call;
ghost use Rattle.generational_core.specs.Conditions.{fresh};
ghost use Rattle.generational_core.specs.Answers.{read_refused, value_behind};
ghost use Rattle.generational_core.specs.Machine.Action.{Read};
ghost use Rattle.generational_core.specs.StepCalls.{id_of_owner, is_ready};
ghost use Rattle.shared_history.specs.Counts.{new_tallies};
ghost use Rattle.shared_history.specs.Replies.{recorded_reply};
ghost use Rattle.shared_records.specs.declared.step.StepReply.TheVariants as reply;
ghost use Rattle.shared_history.specs.Bases.{IsTallied, all_trimmed, new_base};
ghost use Rattle.shared_state.specs.Keeping.{HasEnded, IsStepRecorded, WasRefused};
ghost use Rattle.shared_state.specs.Shared.{IsBlank, IsCheckpoint, MayRefuseCheckpoint};
ghost use Rattle.shared_state.specs.Shared.{Replays};

mod borrowing;
mod ending;
mod images;
mod making;

// A law does nothing when it is called: the caller's proof cites it.
use crate::laws::{
    free_calls_are_answered_so, histories_lead_to_sound_states, recorded_calls_are_lawful,
};
use generational_box::laws::{calls_are_ready_where_no_borrow_is_told, steps_keep_the_store};
use generational_box::{
    AnyStorage, BorrowError, GenerationalPointer, GenerationalRef, Location, Owner, Refused,
    StepCall, Storage, StoreError, UnsyncStorage,
};
use shared_history::kept::KeptBase;
use shared_history::log::{Log, Outdated};
use shared_history::replies::read_refusal;
use shared_history::{Base, Count, Tally, tallies};
use shared_records::{AnyEntry, ReadDropped, Step, StepEntry, StepReply};
use std::alloc::Global;
use std::marker::Model;
use std::sync::ledger::Blank;
use store_rows::{PackedRows, RowCounts};

/// A store with the history of its steps. Contracts model it as the machine's state, a base and that
/// list.
///
/// It is what the lock of a `SyncStorage` protects, and needs no threads. After any
/// calls, the history replays from the base, which is a sound state of this number, to the state, by the
/// letters of locations; each kind's book has as many steps as were trimmed and as the history has; and
/// the history has room for another step for each active borrow. The base is that of an empty store, or
/// an image's, until a checkpoint.
///
/// Each call that returns is a step of the machine, and of the tally's worker: exactly that step is
/// appended, by the letters of its locations, and only the count of its kind is raised by one; the call
/// uses and returns only what is of this store, and fails only for the listed reasons. One definition,
/// `IsStep`, says all of this in the contract of each call. A call that fails with `OutOfMemory` is no
/// step and changes nothing, and neither does the release of a guard that the store doesn't know. A step
/// needs memory for its step in the history, so a call may fail with `OutOfMemory` even if the
/// sequential store's would return something else.
#[derive(Drop)]
pub struct SyncState<T, const NUMBER: u64, M: Count, L: Count, C: Count, R: Count> {
    store: UnsyncStorage<T>,
    log: Log<NUMBER, M, L, C, R>,
}

impl<T, const NUMBER: u64, M: Count, L: Count, C: Count, R: Count> Model
    for SyncState<T, NUMBER, M, L, C, R> {
    ghost use Rattle.std.specs.Coded.{codes};
    ghost use Rattle.std.specs.FinMap as map;
    ghost use Rattle.shared_state.specs.Keeping.{IsKept, shared};
    ghost use Rattle.shared_state.specs.Shared.{SharedState};

    ghost Value = { SharedState T };

    ghost coded = { Prim.hlevel (codes, map.code) };

    ghost view = { λ s. shared s.store.state s.log };

    ghost invariant = { λ s. IsKept NUMBER s.store.state s.log };
}

impl<T: Drop, const NUMBER: u64, M: Count, L: Count, C: Count, R: Count> SyncState<
    T,
    NUMBER,
    M,
    L,
    C,
    R,
> {
    /// Creates a store, and a tally for each worker, numbered from 0. Each tally counts nothing.
    ///
    /// Each blank must be of its kind's ledger and have a part for each worker.
    ///
    /// # Errors
    ///
    /// `OutOfMemory`, also for 2^32 workers or more. The blanks are consumed in either case.
    ///
    /// ```rust
    /// let state = SyncState::<String, 7, A, B, C, D>::new(alloc, 1, made, lent, changed, refused);
    /// let (mut state, mut tallies) = state.expect(rt, "a store");
    /// let mut tally = tallies.pop().expect(rt, "a tally");
    /// ```
    pub fn new(
        alloc: Global,
        workers: usize,
        made: Blank,
        lent: Blank,
        changed: Blank,
        refused: Blank,
    ) -> Result<(Self, Vec<Tally<M, L, C, R>>), StoreError>
        requires made { IsBlank workers made M.name M.parts M.workers }
        requires lent { IsBlank workers lent L.name L.parts L.workers }
        requires changed { IsBlank workers changed C.name C.parts C.workers }
        requires refused { IsBlank workers refused R.name R.parts R.workers }
        ensures fresh { IfOk result (λ r. r.0
            ≡ record { state = fresh NUMBER 1 0; base = new_base NUMBER; history = [] }) }
        ensures tallies { IfOk result (λ r. r.1.items ≡ new_tallies workers) }
        ensures err { IfErr result (λ e. e ≡ OutOfMemory) }
    {
        recorded_calls_are_lawful::<T>();
        histories_lead_to_sound_states();
        let (made, made_rest) = made.open::<M>();
        let (lent, lent_rest) = lent.open::<L>();
        let (changed, changed_rest) = changed.open::<C>();
        let (refused, refused_rest) = refused.open::<R>();
        let tallies = tallies(
            alloc,
            workers,
            made_rest,
            lent_rest,
            changed_rest,
            refused_rest,
        )?;
        let state = SyncState {
            store: UnsyncStorage::new(alloc, NUMBER),
            log: Log::new(alloc, made, lent, changed, refused),
        };
        Ok((state, tallies))
    }

    /// Does nothing. Its contract says that, after any calls, the history replays from the base, which
    /// describes a sound state of this store, to the state. A caller's proof cites it.
    pub fn history_replays(&self)
        ensures { Replays NUMBER self.now }
    {
        let _ = &self.log;
    }

    /// Whether no borrow is in the call's way. A read, or a new reference, needs that there is no writer;
    /// a write, or a `set`, that there is no borrow; a removal, or a box that is pointed elsewhere, that
    /// no value which would be dropped is borrowed. Doesn't allocate.
    ///
    /// ```rust
    /// if !state.ready(&StepCall::ManuallyDrop(made.pointer())) {
    ///     return None;
    /// }
    /// state.manually_drop(made, tally).ok()?;
    /// ```
    pub fn ready(&self, call: &StepCall) -> bool
        ensures { result ≡ is_ready self.now.state call.now }
    {
        self.store.ready(call)
    }

    // Whether no borrow is in the way of a call that is passed in. It is inlined, so that the call is
    // written to memory only here, and not at the start of the caller.
    #[inline(always)]
    fn is_ready(&self, call: StepCall) -> bool
        ensures { result ≡ is_ready self.now.state call }
    {
        self.ready(&call)
    }

    /// Whether no borrow is in the way of an owner's release. The owner's hint finds its record at once;
    /// `ready` has to search all records. Doesn't allocate.
    ///
    /// ```rust
    /// if !state.may_release(&owner) {
    ///     owner.leak();
    ///     return rt.stop("a release that waits");
    /// }
    /// ```
    pub fn may_release(&self, owner: &Owner) -> bool
        ensures { result ≡ is_ready self.now.state (call.ReleaseOwner (id_of_owner owner.now)) }
    {
        self.store.may_release(owner)
    }

    /// The value that a reader's guard opens, exactly if the state knows the guard. It isn't a step.
    /// Doesn't allocate.
    ///
    /// ```rust
    /// let same = state.open(&guard).copied() == Some(value);
    /// ```
    #[inline]
    pub fn open(&self, guard: &GenerationalRef<T>) -> Option<&T>
        ensures { option_copied result ≡ value_behind self.now.state guard.now }
    {
        self.store.open(guard)
    }

    /// Makes the state, without values, the base from which the history goes on, and empties the history.
    /// Returns how many steps were ever trimmed. It isn't a step. The history keeps its capacity.
    ///
    /// # Errors
    ///
    /// - `NumbersExhausted` if the steps that were trimmed and those of the history together would be
    ///   more than fit into 64 bits.
    /// - `OutOfMemory`.
    ///
    /// A call that fails changes nothing. It takes time for each slot, borrow and owner's box. The rows
    /// reuse the memory of those of the base before the last, so it allocates only if there are more of
    /// them, for example the first two times; the entry of a free slot, or of a value that isn't
    /// borrowed, isn't written again if it is unchanged.
    ///
    /// ```rust
    /// rt.compare(&state.checkpoint(), &Ok(2));
    /// ```
    pub fn checkpoint(&mut self) -> Result<u64, StoreError>
        ensures ok { IfOk result (IsCheckpoint self.old self.new) }
        ensures err { OnErr result (self.new ≡ self.old) }
        ensures refusal { IfErr result (λ e. MayRefuseCheckpoint self.old e) }
    {
        if let Some(wanted) = self.wanted_rows()? {
            self.replace_past(wanted.reserve()?);
        }
        match self.trim() {
            Ok((trimmed, _)) => Ok(trimmed),
            Err(error) => Err(error),
        }
    }

    /// For how many rows the next checkpoint lacks room, so that it can be reserved without the lock; None
    /// if it has room. `replace_past` takes the rows. Doesn't allocate.
    ///
    /// # Errors
    ///
    /// `NumbersExhausted` if no more steps can be counted as trimmed.
    pub fn wanted_rows(&self) -> Result<Option<WantedRows>, StoreError>
        ensures ok { OnOk result
            (all_trimmed self.now.base + length self.now.history < 2 ^ 64) }
        ensures refusal { IfErr result (λ e. MayRefuseCheckpoint self.now e) }
    {
        if self.log.trimmed_steps().is_none() {
            return Err(StoreError::NumbersExhausted);
        }
        let Some(counts) = self.log.wanted_rows(self.store.row_counts()) else {
            return Ok(None);
        };
        Ok(Some(WantedRows {
            alloc: self.log.alloc(),
            counts,
        }))
    }

    /// Has the next checkpoint write its rows to fresh, empty ones, and returns those that they replace.
    /// The state is unchanged. Doesn't allocate.
    pub fn replace_past(&mut self, fresh: PackedRows) -> PackedRows
        requires { fresh ≡ [] }
        ensures { self.new ≡ self.old }
    {
        self.log.replace_past(fresh)
    }

    /// Packs the slots from one on, up to another, so that the next checkpoint needn't write those of
    /// them that don't change until then. The state is unchanged.
    ///
    /// # Errors
    ///
    /// `OutOfMemory`.
    pub fn pack_ahead(&mut self, from: usize, to: usize) -> Result<(), StoreError>
        ensures state { self.new ≡ self.old }
        ensures refusal { IfErr result (λ e. e ≡ OutOfMemory) }
    {
        let past = self.log.take_past();
        let past = self.store.pack_ahead(past, from, to)?;
        self.log.replace_past(past);
        Ok(())
    }

    /// How many slots the store has. O(1).
    pub fn slots(&self) -> usize
        ensures { result ≡ slots self.now.state }
    {
        self.store.slots()
    }

    /// Makes a checkpoint, like `checkpoint`, and returns how many steps it trimmed, and what is no longer
    /// needed, so that it can be dropped without the lock.
    ///
    /// # Errors
    ///
    /// - `NumbersExhausted` if no more steps can be counted as trimmed.
    /// - `OutOfMemory`.
    pub fn trim(&mut self) -> Result<(u64, Outdated), StoreError>
        ensures ok { IfOk result (λ r. IsCheckpoint self.old self.new r.0) }
        ensures err { OnErr result (self.new ≡ self.old) }
        ensures refusal { IfErr result (λ e. MayRefuseCheckpoint self.old e) }
    {
        histories_lead_to_sound_states();
        let Some(steps) = self.log.trimmed_steps() else {
            return Err(StoreError::NumbersExhausted);
        };
        let past = self.log.take_past();
        let rows = match self.store.pack_rows(past) {
            Ok(rows) => rows,
            Err(error) => return Err(error),
        };
        let next = u64::MAX - self.store.tickets_left();
        let base = KeptBase::of(NUMBER, next, self.store.peak_live(), steps, rows);
        let trimmed = base.trimmed();
        let outdated = self.log.rebase(base)?;
        Ok((trimmed, outdated))
    }

    /// A copy of the base and of the history, for a whole tally (see `is_whole`): of each kind both
    /// together count exactly as many steps as the tally counts. It isn't a step. It takes time and
    /// memory for each row of the base and each step.
    ///
    /// # Errors
    ///
    /// `OutOfMemory`: nothing changes.
    ///
    /// ```rust
    /// let (base, steps) = rt.expect(state.audit(tally), "an audit");
    /// ```
    pub fn audit(&mut self, whole: &mut Tally<M, L, C, R>) -> Result<(Base, Vec<Step>), StoreError>
        requires { whole.old.parts ≡ M.workers }
        ensures base { IfOk result (λ r. r.0 ≡ self.old.base) }
        ensures steps { IfOk result (λ r. r.1.items ≡ self.old.history) }
        ensures counts { IsTallied whole.old self.old.base self.old.history }
        ensures state { self.new ≡ self.old }
        ensures tally { whole.new ≡ whole.old }
        ensures refusal { IfErr result (λ e. e ≡ OutOfMemory) }
    {
        match self.log.audit(whole) {
            Ok(copies) => Ok(copies),
            Err(_) => Err(StoreError::OutOfMemory),
        }
    }
}

/// For how many rows of a checkpoint there is no room yet.
#[derive(Drop)]
pub struct WantedRows {
    alloc: Global,
    counts: RowCounts,
}

impl WantedRows {
    /// Allocates them.
    ///
    /// # Errors
    ///
    /// `OutOfMemory`.
    pub fn reserve(self) -> Result<PackedRows, StoreError>
        ensures ok { IfOk result (λ rows. rows ≡ []) }
        ensures refusal { IfErr result (λ e. e ≡ OutOfMemory) }
    {
        match PackedRows::with_room(self.alloc, self.counts) {
            Ok(rows) => Ok(rows),
            Err(_) => Err(StoreError::OutOfMemory),
        }
    }
}

// Records the step of a call of the store.
#[inline(always)]
fn record_step<T: Drop, const NUMBER: u64, M: Count, L: Count, C: Count, R: Count, E: StepEntry>(
    store: &UnsyncStorage<T>,
    log: &mut Log<NUMBER, M, L, C, R>,
    entry: E,
    tally: &mut Tally<M, L, C, R>,
)
    requires { 1 < log.old.room }
    ensures { IsStepRecorded NUMBER log.old tally.old (E.as_call entry) (Some (E.as_reply entry))
        store.now.state log.new tally.new }
{
    let _ = store;
    recorded_calls_are_lawful::<T>();
    histories_lead_to_sound_states();
    steps_keep_the_store::<T>();
    free_calls_are_answered_so::<T>();
    log.add_step(entry, tally);
}

// Records the step of any call of the store, if its reply is one that is recorded. It is inlined, so that
// the other function's arguments are written to memory here.
#[inline(always)]
fn record_call<T: Drop, const NUMBER: u64, M: Count, L: Count, C: Count, R: Count>(
    store: &UnsyncStorage<T>,
    log: &mut Log<NUMBER, M, L, C, R>,
    call: StepCall,
    reply: Option<StepReply>,
    tally: &mut Tally<M, L, C, R>,
)
    requires { 1 < log.old.room }
    ensures { IsStepRecorded NUMBER log.old tally.old call reply store.now.state log.new tally.new }
{
    record_any_step(store, log, call, reply, tally);
}

#[cold]
#[inline(never)]
fn record_any_step<T: Drop, const NUMBER: u64, M: Count, L: Count, C: Count, R: Count>(
    store: &UnsyncStorage<T>,
    log: &mut Log<NUMBER, M, L, C, R>,
    call: StepCall,
    reply: Option<StepReply>,
    tally: &mut Tally<M, L, C, R>,
)
    requires { 1 < log.old.room }
    ensures { IsStepRecorded NUMBER log.old tally.old call reply store.now.state log.new tally.new }
{
    recorded_calls_are_lawful::<T>();
    histories_lead_to_sound_states();
    steps_keep_the_store::<T>();
    free_calls_are_answered_so::<T>();
    match reply {
        Some(reply) => record_step(store, log, AnyEntry { call, reply }, tally),
        None => {}
    }
}

// Records a failed read, which left the store unchanged, if no writer is in its way. Returns whether none
// is. Reads of a removed value are common, since a handle may be stored for longer; their error always
// has the box's own location. The reply is made here, so that it is written to memory here, and not where
// a read begins.
#[inline(always)]
fn record_failed_read<T: Drop, const NUMBER: u64, M: Count, L: Count, C: Count, R: Count>(
    store: &UnsyncStorage<T>,
    log: &mut Log<NUMBER, M, L, C, R>,
    asked: GenerationalPointer,
    at: Location,
    refused: &Refused<BorrowError>,
    tally: &mut Tally<M, L, C, R>,
) -> bool
    requires room { 1 < log.old.room }
    requires own { (told : Location) → Some (reply.Dropped told)
        ≡ recorded_reply store.now.state (Read asked at) (read_refused refused.now)
        → told ≡ asked.created_at }
    ensures ready { WasRefused (call.Read asked at)
        (recorded_reply store.now.state (Read asked at) (read_refused refused.now)) store.now.state
        → result ≡ is_ready store.now.state (call.Read asked at) }
    ensures recorded { OnTrue result (IsStepRecorded NUMBER log.old tally.old (call.Read asked at)
        (recorded_reply store.now.state (Read asked at) (read_refused refused.now))
        store.now.state log.new tally.new) }
    ensures left { OnFalse result ((log.new ≡ log.old) × (tally.new ≡ tally.old)) }
{
    calls_are_ready_where_no_borrow_is_told::<T>();
    let reply = read_refusal::<T>(refused);
    if let Some(answer) = reply {
        if let StepReply::Dropped(_) = answer {
            record_step(store, log, ReadDropped { asked, at }, tally);
            return true;
        }
    }
    record_failure(store, log, StepCall::Read(asked, at), reply, tally)
}

// Records a failed call, which left the store unchanged, if no borrow is in its way. Returns whether none
// is. It is inlined, so that the other function's arguments are written to memory here, and not where a
// call succeeds.
#[inline(always)]
fn record_failure<T: Drop, const NUMBER: u64, M: Count, L: Count, C: Count, R: Count>(
    store: &UnsyncStorage<T>,
    log: &mut Log<NUMBER, M, L, C, R>,
    call: StepCall,
    reply: Option<StepReply>,
    tally: &mut Tally<M, L, C, R>,
) -> bool
    requires { 1 < log.old.room }
    ensures ready { result ≡ is_ready store.now.state call }
    ensures recorded { OnTrue result
        (IsStepRecorded NUMBER log.old tally.old call reply store.now.state log.new tally.new) }
    ensures left { OnFalse result ((log.new ≡ log.old) × (tally.new ≡ tally.old)) }
{
    record_ready_failure(store, log, call, reply, tally)
}

// Records a failed call out of line, since few calls fail.
#[cold]
#[inline(never)]
fn record_ready_failure<T: Drop, const NUMBER: u64, M: Count, L: Count, C: Count, R: Count>(
    store: &UnsyncStorage<T>,
    log: &mut Log<NUMBER, M, L, C, R>,
    call: StepCall,
    reply: Option<StepReply>,
    tally: &mut Tally<M, L, C, R>,
) -> bool
    requires { 1 < log.old.room }
    ensures ready { result ≡ is_ready store.now.state call }
    ensures recorded { OnTrue result
        (IsStepRecorded NUMBER log.old tally.old call reply store.now.state log.new tally.new) }
    ensures left { OnFalse result ((log.new ≡ log.old) × (tally.new ≡ tally.old)) }
{
    if !store.ready(&call) {
        return false;
    }
    record_any_step(store, log, call, reply, tally);
    true
}

// Records the end of a borrow, if the reply says that the store knew its guard. The room for it was
// reserved when the borrow began.
#[inline(always)]
fn record_end<T: Drop, const NUMBER: u64, M: Count, L: Count, C: Count, R: Count, E: StepEntry>(
    store: &UnsyncStorage<T>,
    log: &mut Log<NUMBER, M, L, C, R>,
    entry: E,
    reply: Option<StepReply>,
    tally: &mut Tally<M, L, C, R>,
)
    requires { IfSome reply (λ r. r ≡ E.as_reply entry) }
    ensures { HasEnded NUMBER log.old (E.as_call entry) reply store.now.state → IsStepRecorded NUMBER
        log.old tally.old (E.as_call entry) reply store.now.state log.new tally.new }
{
    let _ = store;
    recorded_calls_are_lawful::<T>();
    histories_lead_to_sound_states();
    steps_keep_the_store::<T>();
    free_calls_are_answered_so::<T>();
    match reply {
        Some(_) => log.add_end(entry, tally),
        None => {}
    }
}
