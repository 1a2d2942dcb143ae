//! The store that threads share.

ghost use Rattle.std.specs.Prelude.{◌≡◌, ◌<◌, true, IfOk, IfErr, IfSome, OnSome};
ghost use Rattle.std.specs.Sync.Mutex.{mutex_guard_value};
ghost use Rattle.generational_errors.specs.declared.error.StoreError.TheVariants.{OutOfMemory};
ghost use Rattle.generational_core.specs.declared.steps.StepCall.TheVariants as call;
ghost use Rattle.generational_core.specs.StepCalls.{id_of_owner, is_ready};
ghost use Rattle.shared_history.specs.Counts.{new_tallies};
ghost use Rattle.shared_history.specs.Bases.{IsTallied};
ghost use Rattle.shared_state.specs.Shared.{IsBlank, IsHistory, MayRefuseTrimming};

mod borrowing;
mod ending;
mod images;
mod making;

use crate::together::{Held, Shared, Together};
use generational_box::{GenerationalRef, Owner, StepCall, StoreError};
use shared_history::{Base, Count, Tally};
use shared_records::Step;
use shared_state::SyncState;
use shared_state::laws::histories_lead_to_sound_states;
use std::alloc::Global;
use std::sync::ledger::Blank;
use std::sync::{Arc, Condvar, Mutex, MutexGuard, Wait};

// How many slots are packed ahead while the lock is held once.
const AT_ONCE: usize = 2048;

/// A store that threads share: one [`SyncState`] under one lock.
///
/// `NUMBER` is the store's number, by which it tells its boxes from those of other stores. Each call that
/// takes a tally is a step of the store, whose states its contract doesn't mention. It adds one to the
/// tally's count of its reply's kind, uses and returns only what is of the store, and fails only for the
/// listed reasons. `OutOfMemory` and the release of a guard that the store doesn't know raise no count. A
/// call waits while a borrow is in its way, and checks everything again after each wake. The calls that
/// wait are woken after each end of a borrow, of a box or of an owner, after a box is pointed elsewhere,
/// and after a reference is made. A thread that waits for its own guard deadlocks. No clause says that a
/// waiting call is woken, that calls are passed on with their own boxes, locations and guards, or that an
/// audit is a copy of the history.
#[derive(Drop)]
pub struct SyncStorage<T, const NUMBER: u64, M: Count, L: Count, C: Count, R: Count> {
    shared: Arc<Shared<SyncState<T, NUMBER, M, L, C, R>>, Global>,
}

impl<T: Drop, const NUMBER: u64, M: Count, L: Count, C: Count, R: Count> SyncStorage<
    T,
    NUMBER,
    M,
    L,
    C,
    R,
> {
    /// Creates a store, and a tally for each worker, numbered from 0. Each tally counts nothing.
    ///
    /// Each blank must be of its kind's ledger and have a part for each worker.
    ///
    /// # Errors
    ///
    /// `OutOfMemory`, also for 2^32 workers or more. The blanks are consumed in either case.
    ///
    /// ```rust
    /// let (store, tallies) = SyncStorage::<u64, 7, M, L, C, R>::new(
    ///     alloc, WORKERS, made, lent, changed, refused,
    /// )?;
    /// ```
    pub fn new(
        alloc: Global,
        workers: usize,
        made: Blank,
        lent: Blank,
        changed: Blank,
        refused: Blank,
    ) -> Result<(Self, Vec<Tally<M, L, C, R>>), StoreError>
        requires made { IsBlank workers made M.name M.parts M.workers }
        requires lent { IsBlank workers lent L.name L.parts L.workers }
        requires changed { IsBlank workers changed C.name C.parts C.workers }
        requires refused { IsBlank workers refused R.name R.parts R.workers }
        ensures tallies { IfOk result (λ r. r.1.items ≡ new_tallies workers) }
        ensures err { IfErr result (λ e. e ≡ OutOfMemory) }
    {
        let (state, tallies) = SyncState::new(alloc, workers, made, lent, changed, refused)?;
        let held = Held { state, waiting: 0 };
        let shared = Shared {
            held: Mutex::new(held),
            freed: Condvar::new(),
        };
        match Arc::new(alloc, shared) {
            Ok(shared) => Ok((SyncStorage { shared }, tallies)),
            Err(_) => Err(StoreError::OutOfMemory),
        }
    }

    /// The store's number. Doesn't allocate and doesn't wait.
    ///
    /// ```rust
    /// rt.compare(&store.number(), &7);
    /// ```
    pub fn number(&self) -> u64
        ensures { result ≡ NUMBER }
    {
        NUMBER
    }

    /// Another handle of the same store. Doesn't wait.
    ///
    /// # Errors
    ///
    /// `OutOfMemory` only.
    ///
    /// ```rust
    /// let mut workers = Vec::new(alloc);
    /// for tally in tallies {
    ///     let store = store.try_clone()?;
    ///     workers.push(Worker { store, tally })?;
    /// }
    /// ```
    pub fn try_clone(&self) -> Result<Self, StoreError>
        ensures { IfErr result (λ e. e ≡ OutOfMemory) }
    {
        match Arc::try_clone(&self.shared) {
            Ok(shared) => Ok(SyncStorage { shared }),
            Err(_) => Err(StoreError::OutOfMemory),
        }
    }

    // Waits until no borrow is in the call's way.
    fn lock_when<'a>(
        &'a self,
        rt: &impl Wait,
        call: StepCall,
    ) -> MutexGuard<'a, Held<SyncState<T, NUMBER, M, L, C, R>>>
        ensures { is_ready (mutex_guard_value result).state.state call ≡ true }
    {
        let held = self.shared.held.lock(rt);
        self.wait_for(rt, held, call)
    }

    // Waits, with the lock held, until no borrow is in the call's way.
    fn wait_for<'a>(
        &'a self,
        rt: &impl Wait,
        mut held: MutexGuard<'a, Held<SyncState<T, NUMBER, M, L, C, R>>>,
        call: StepCall,
    ) -> MutexGuard<'a, Held<SyncState<T, NUMBER, M, L, C, R>>>
        ensures { is_ready (mutex_guard_value result).state.state call ≡ true }
    {
        for _ in rt.forever() {
            if held.state.ready(&call) {
                return held;
            }
            held = self.sleep(rt, held);
        }
        unreachable!()
    }

    // Waits until no borrow is in the way of the owner's release.
    fn lock_to_release<'a>(
        &'a self,
        rt: &impl Wait,
        owner: &Owner,
    ) -> MutexGuard<'a, Held<SyncState<T, NUMBER, M, L, C, R>>>
        ensures { is_ready (mutex_guard_value result).state.state
            (call.ReleaseOwner (id_of_owner owner.now)) ≡ true }
    {
        let mut held = self.shared.held.lock(rt);
        for _ in rt.forever() {
            if held.state.may_release(owner) {
                return held;
            }
            held = self.sleep(rt, held);
        }
        unreachable!()
    }

    // Releases the lock until a wake, and takes it again. Meanwhile the call counts as waiting.
    fn sleep<'a>(
        &'a self,
        rt: &impl Wait,
        mut held: MutexGuard<'a, Held<SyncState<T, NUMBER, M, L, C, R>>>,
    ) -> MutexGuard<'a, Held<SyncState<T, NUMBER, M, L, C, R>>> {
        held.waiting = held.waiting.wrapping_add(1);
        let mut held = self.shared.freed.wait(rt, held);
        held.waiting = held.waiting.wrapping_sub(1);
        held
    }

    // Releases the lock, and wakes all waiting calls if this one may have freed some.
    fn unlock(&self, held: MutexGuard<'_, Held<SyncState<T, NUMBER, M, L, C, R>>>, frees: bool) {
        self.shared.unlock(held, frees);
    }

    /// The store's lock, under which a closure makes several calls at once. Doesn't allocate and doesn't
    /// wait.
    ///
    /// ```rust
    /// let Worker { store, tally, .. } = self;
    /// store
    ///     .together()
    ///     .run(rt, |state| read_at_once(state, tally, value))
    /// ```
    pub fn together(&self) -> Together<'_, SyncState<T, NUMBER, M, L, C, R>> {
        Together::of(&self.shared)
    }

    /// Calls `f` on the value of a reader's guard, under the lock, and returns its result; None if the
    /// store doesn't know the guard. It isn't a step. `f` must not call the store: it would deadlock.
    /// Allocates only what `f` does.
    ///
    /// ```rust
    /// let reader = store.read(rt, total, here, &mut whole)?;
    /// let sum = store.open(rt, &reader, |value| *value);
    /// store.release_read(rt, reader, &mut whole);
    /// ```
    pub fn open<A, F: FnOnce(&T) -> A>(
        &self,
        rt: &impl Wait,
        guard: &GenerationalRef<T>,
        f: F,
    ) -> Option<A>
        requires { F.IsAlwaysCallable f }
        ensures answer { IfSome result (λ answer. (value : _) × F.post f value answer) }
        ensures own { OnSome result (guard.now.store ≡ NUMBER) }
    {
        histories_lead_to_sound_states();
        let held = self.shared.held.lock(rt);
        let state = &held.state;
        state.history_replays();
        let value = state.open(guard)?;
        Some(f(value))
    }

    /// Makes the store's state, without values, the base from which its history goes on, and empties the
    /// history. Returns how many steps were ever trimmed. It isn't a step, and raises no count. All slots
    /// are packed ahead first, few at a time, with other calls in between. Then, under the lock, all are
    /// checked again, and those that have changed meanwhile are packed, with everything that is borrowed,
    /// is a reference, or is on an owner's list. The rows reuse the memory of those of the base before
    /// the last; if that doesn't have room for one and a half times as many slots as there are, room for
    /// twice as many is reserved. The steps are dropped after the lock is released.
    ///
    /// # Errors
    ///
    /// - `NumbersExhausted` if the steps that were trimmed and those of the history together would be
    ///   more than fit into 64 bits.
    /// - `OutOfMemory`.
    ///
    /// A call that fails changes nothing. It takes time for each slot, twice, and for each borrow and
    /// owner's box.
    ///
    /// ```rust
    /// self.store.checkpoint(rt, &mut self.tally).is_ok()
    /// ```
    pub fn checkpoint(
        &self,
        rt: &impl Wait,
        tally: &mut Tally<M, L, C, R>,
    ) -> Result<u64, StoreError>
        ensures tally { tally.new ≡ tally.old }
        ensures refusal { IfErr result MayRefuseTrimming }
    {
        let _ = tally;
        self.pack_ahead(rt)?;
        let mut held = self.shared.held.lock(rt);
        let trimming = held.state.trim();
        drop(held);
        let (trimmed, outdated) = trimming?;
        drop(outdated);
        Ok(trimmed)
    }

    // Packs all slots ahead, few at a time, so that a checkpoint has to write only those that change
    // meanwhile. Other calls run in between; of the slots that these make, it packs as many as there were
    // at first.
    fn pack_ahead(&self, rt: &impl Wait) -> Result<(), StoreError>
        ensures refusal { IfErr result MayRefuseTrimming }
    {
        let slots = self.reserve_rows(rt)?;
        for from in (0..slots.saturating_mul(2)).step_by(AT_ONCE) {
            let mut held = self.shared.held.lock(rt);
            if from >= held.state.slots() {
                return Ok(());
            }
            held.state.pack_ahead(from, from.saturating_add(AT_ONCE))?;
        }
        Ok(())
    }

    // Reserves room for a checkpoint's rows without the lock, and returns how many slots there are.
    fn reserve_rows(&self, rt: &impl Wait) -> Result<usize, StoreError>
        ensures refusal { IfErr result MayRefuseTrimming }
    {
        let held = self.shared.held.lock(rt);
        let slots = held.state.slots();
        let wanted = held.state.wanted_rows();
        drop(held);
        if let Some(wanted) = wanted? {
            let fresh = wanted.reserve()?;
            let mut held = self.shared.held.lock(rt);
            let outdated = held.state.replace_past(fresh);
            drop(held);
            drop(outdated);
        }
        Ok(slots)
    }

    /// The base and the history, for a whole tally (see `is_whole`). The returned list replays from the
    /// base, a sound state of this number; and of each kind the base and the list together count exactly
    /// as many steps as the tally counts. It isn't a step. The files of the list's locations have the
    /// letters of those that were passed in, whose texts may be elsewhere in memory.
    ///
    /// # Errors
    ///
    /// `OutOfMemory`: nothing changes.
    ///
    /// ```rust
    /// if !whole.is_whole() {
    ///     return Err(anyhow!("a tally is missing"));
    /// }
    /// let (_, steps) = store.audit(rt, &mut whole)?;
    /// ```
    pub fn audit(
        &self,
        rt: &impl Wait,
        whole: &mut Tally<M, L, C, R>,
    ) -> Result<(Base, Vec<Step>), StoreError>
        requires { whole.old.parts ≡ M.workers }
        ensures replays { IfOk result (λ r. IsHistory NUMBER r.0 r.1.items) }
        ensures counts { IfOk result (λ r. IsTallied whole.old r.0 r.1.items) }
        ensures tally { whole.new ≡ whole.old }
        ensures refusal { IfErr result (λ e. e ≡ OutOfMemory) }
    {
        let mut held = self.shared.held.lock(rt);
        let state = &mut held.state;
        state.history_replays();
        state.audit(whole)
    }
}

/// How many calls of the store wait: each sleeps, or has come so far that a wake would reach it.
pub fn waiting<T: Drop, const NUMBER: u64, M: Count, L: Count, C: Count, R: Count>(
    store: &SyncStorage<T, NUMBER, M, L, C, R>,
    rt: &impl Wait,
) -> usize {
    store.shared.held.lock(rt).waiting
}
