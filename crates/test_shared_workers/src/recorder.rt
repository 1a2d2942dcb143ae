//! Workers that know what the history must have of them. Each call has the result that its scenario says,
//! or the test ends; if an allocation fails, it is made a second time.

use crate::judge::{Judge, present};
use crate::recorded::{KINDS, assert_kinds, assert_recorded};
use crate::workers::{MadeOrBack, Worker};
use generational_box::{
    BaseRow, BorrowError, BorrowMutError, BorrowMutResult, BorrowResult, GenerationalBox,
    GenerationalBoxId, GenerationalRef, GenerationalRefMut, Location, Owner, Refused, StepCall,
    StoreError, ValueDroppedError,
};
use generational_sync::{Base, Step, StepReply};
use std::alloc::Global;
use std::sync::Wait;
use std::thread;

// How often a worker looks whether calls wait before it gives up.
const TURNS: u64 = 10_000_000;

/// How often an audit that failed is asked for again.
const AUDITS: u64 = 8;

/// A worker, and the steps that its calls are.
#[derive(Drop)]
pub(crate) struct Recorder<W> {
    worker: W,
    alloc: Global,
    steps: Vec<Step>,
    // how many steps of all workers were trimmed, where this one trimmed them
    trimmed: u64,
    // how often an allocation failed
    lacks: u64,
}

impl<W: Worker> Recorder<W> {
    pub(crate) fn new(alloc: Global, worker: W) -> Self {
        Recorder {
            worker,
            alloc,
            steps: Vec::new(alloc),
            trimmed: 0,
            lacks: 0,
        }
    }

    // That a call is this step.
    fn record(&mut self, rt: &impl Judge, call: StepCall, reply: StepReply) {
        let step = Step {
            worker: self.worker.number(),
            call,
            reply,
        };
        if self.steps.push(step).is_err() {
            rt.demand(self.steps.push(step).is_ok(), "no memory for a step");
        }
    }

    // That a call failed to allocate, and is called again.
    fn lacks(&mut self, rt: &impl Judge, cause: StoreError) {
        rt.compare(&cause, &StoreError::OutOfMemory);
        self.lacks = self.lacks.wrapping_add(1);
    }

    // The box that was made.
    fn made(
        &mut self,
        rt: &impl Judge,
        call: StepCall,
        answer: MadeOrBack,
    ) -> GenerationalBox<String> {
        let made = rt.expect(answer.map_err(|refusal| refusal.cause), "a box");
        self.record(rt, call, StepReply::Made(made.pointer()));
        made
    }

    // The box of the shared value that was made. Its cell is in the slot before, since the scenarios make
    // shared values if no slot is free.
    fn made_shared(
        &mut self,
        rt: &impl Judge,
        call: StepCall,
        answer: MadeOrBack,
    ) -> GenerationalBox<String> {
        let made = rt.expect(answer.map_err(|refusal| refusal.cause), "a box");
        let mut cell: GenerationalBoxId = made.id();
        cell.slot = cell.slot.wrapping_sub(1);
        self.record(rt, call, StepReply::MadeShared(cell, made.pointer()));
        made
    }

    pub(crate) fn leak(
        &mut self,
        rt: &(impl Wait + Judge),
        value: &str,
        at: Location,
    ) -> GenerationalBox<String> {
        let value = text(rt, self.alloc, value);
        let answer = match self.worker.leak(rt, value, at) {
            Err(back) => {
                self.lacks(rt, back.cause);
                self.worker.leak(rt, back.value, at)
            }
            made => made,
        };
        self.made(rt, StepCall::Leak(at), answer)
    }

    pub(crate) fn leak_rc(
        &mut self,
        rt: &(impl Wait + Judge),
        value: &str,
        at: Location,
    ) -> GenerationalBox<String> {
        let value = text(rt, self.alloc, value);
        let answer = self.worker.leak_rc(rt, value, at);
        self.made_shared(rt, StepCall::LeakRc(at), answer)
    }

    pub(crate) fn leak_reference(
        &mut self,
        rt: &(impl Wait + Judge),
        of: GenerationalBox<String>,
    ) -> GenerationalBox<String> {
        let made = rt.expect(self.worker.leak_reference(rt, of), "a reference");
        let call = StepCall::LeakReference(of.pointer());
        self.record(rt, call, StepReply::Made(made.pointer()));
        made
    }

    pub(crate) fn owner(&mut self, rt: &(impl Wait + Judge)) -> Owner {
        let answer = match self.worker.owner(rt) {
            Err(cause) => {
                self.lacks(rt, cause);
                self.worker.owner(rt)
            }
            owner => owner,
        };
        let owner = rt.expect(answer, "an owner");
        self.record(rt, StepCall::Owner, StepReply::Owner(owner.id()));
        owner
    }

    pub(crate) fn clone_owner(&mut self, rt: &(impl Wait + Judge), owner: &Owner) -> Owner {
        let answer = match self.worker.clone_owner(rt, owner) {
            Err(cause) => {
                self.lacks(rt, cause);
                self.worker.clone_owner(rt, owner)
            }
            clone => clone,
        };
        let call = StepCall::CloneOwner(owner.id());
        self.record(rt, call, StepReply::Owner(owner.id()));
        rt.expect(answer, "an owner")
    }

    pub(crate) fn insert(
        &mut self,
        rt: &(impl Wait + Judge),
        owner: &Owner,
        value: &str,
        at: Location,
    ) -> GenerationalBox<String> {
        let value = text(rt, self.alloc, value);
        let answer = match self.worker.insert(rt, owner, value, at) {
            Err(back) => {
                self.lacks(rt, back.cause);
                self.worker.insert(rt, owner, back.value, at)
            }
            made => made,
        };
        self.made(rt, StepCall::Insert(owner.id(), at), answer)
    }

    pub(crate) fn insert_rc(
        &mut self,
        rt: &(impl Wait + Judge),
        owner: &Owner,
        value: &str,
        at: Location,
    ) -> GenerationalBox<String> {
        let value = text(rt, self.alloc, value);
        let answer = self.worker.insert_rc(rt, owner, value, at);
        self.made_shared(rt, StepCall::InsertRc(owner.id(), at), answer)
    }

    pub(crate) fn insert_reference(
        &mut self,
        rt: &(impl Wait + Judge),
        owner: &Owner,
        of: GenerationalBox<String>,
    ) -> GenerationalBox<String> {
        let answer = self.worker.insert_reference(rt, owner, of);
        let made = rt.expect(answer, "a reference");
        let call = StepCall::InsertReference(owner.id(), of.pointer());
        self.record(rt, call, StepReply::Made(made.pointer()));
        made
    }

    // The result of a read that didn't fail to allocate, called by either name.
    fn asks_to_read(
        &mut self,
        rt: &(impl Wait + Judge),
        asked: GenerationalBox<String>,
        at: Location,
    ) -> BorrowResult<GenerationalRef<String>> {
        match self.worker.try_read(rt, asked, at) {
            Err(Refused::Store(cause)) => {
                self.lacks(rt, cause);
                self.worker.read(rt, asked, at)
            }
            answer => answer,
        }
    }

    // The guard that a read gave.
    fn reader(
        &mut self,
        rt: &impl Judge,
        asked: GenerationalBox<String>,
        at: Location,
        answer: BorrowResult<GenerationalRef<String>>,
    ) -> GenerationalRef<String> {
        let guard = rt.expect(answer, "a guard");
        let call = StepCall::Read(asked.pointer(), at);
        self.record(rt, call, StepReply::Reader(guard.ticket()));
        guard
    }

    /// Begins a read, which is released by `release`.
    pub(crate) fn begin(
        &mut self,
        rt: &(impl Wait + Judge),
        asked: GenerationalBox<String>,
        at: Location,
    ) -> GenerationalRef<String> {
        let answer = self.asks_to_read(rt, asked, at);
        self.reader(rt, asked, at, answer)
    }

    /// Ends a read.
    pub(crate) fn release(&mut self, rt: &(impl Wait + Judge), guard: GenerationalRef<String>) {
        let call = StepCall::ReleaseRead(guard.ticket());
        rt.demand(self.worker.release_read(rt, guard), "an unknown reader");
        self.record(rt, call, StepReply::Done);
    }

    /// Reads a value, and releases the guard.
    pub(crate) fn reads(
        &mut self,
        rt: &(impl Wait + Judge),
        asked: GenerationalBox<String>,
        at: Location,
        value: &str,
    ) {
        let guard = self.begin(rt, asked, at);
        self.assert_opens(rt, &guard, value);
        self.release(rt, guard);
    }

    /// The same, by the other name.
    pub(crate) fn reads_by_name(
        &mut self,
        rt: &(impl Wait + Judge),
        asked: GenerationalBox<String>,
        at: Location,
        value: &str,
    ) {
        let answer = self.worker.read(rt, asked, at);
        let guard = self.reader(rt, asked, at, answer);
        self.assert_opens(rt, &guard, value);
        self.release(rt, guard);
    }

    /// Asserts that a guard opens this value.
    pub(crate) fn assert_opens(
        &self,
        rt: &(impl Wait + Judge),
        guard: &GenerationalRef<String>,
        value: &str,
    ) {
        rt.demand(self.worker.opens(rt, guard, value), "another value");
    }

    /// A read of a box that reaches nothing, and was made at this location.
    pub(crate) fn finds_dropped(
        &mut self,
        rt: &(impl Wait + Judge),
        asked: GenerationalBox<String>,
        at: Location,
        made: Location,
    ) {
        match self.asks_to_read(rt, asked, at) {
            Err(Refused::Borrow(BorrowError::Dropped(error))) => {
                rt.compare(&error.created_at(), &made);
            }
            Err(_) => rt.stop("another refusal"),
            Ok(guard) => {
                self.worker.release_read(rt, guard);
                rt.stop("a value that is read")
            }
        }
        let call = StepCall::Read(asked.pointer(), at);
        self.record(rt, call, StepReply::Dropped(made));
    }

    // The guard that a write gave.
    fn writer(
        &mut self,
        rt: &impl Judge,
        asked: GenerationalBox<String>,
        at: Location,
        answer: BorrowMutResult<GenerationalRefMut<String>>,
    ) -> GenerationalRefMut<String> {
        let guard = rt.expect(answer, "a guard");
        let call = StepCall::Write(asked.pointer(), at);
        self.record(rt, call, StepReply::Writer(guard.ticket()));
        guard
    }

    /// Begins a write, which is released by `release_over`.
    pub(crate) fn begin_write(
        &mut self,
        rt: &(impl Wait + Judge),
        asked: GenerationalBox<String>,
        at: Location,
    ) -> GenerationalRefMut<String> {
        let answer = self.worker.try_write(rt, asked, at);
        self.writer(rt, asked, at, answer)
    }

    /// The same, by the other name.
    pub(crate) fn begin_write_by_name(
        &mut self,
        rt: &(impl Wait + Judge),
        asked: GenerationalBox<String>,
        at: Location,
    ) -> GenerationalRefMut<String> {
        let answer = self.worker.write(rt, asked, at);
        self.writer(rt, asked, at, answer)
    }

    /// Replaces the value, and ends the write.
    pub(crate) fn release_over(
        &mut self,
        rt: &(impl Wait + Judge),
        mut guard: GenerationalRefMut<String>,
        old: &str,
        new: &str,
    ) {
        let before = guard.replace(text(rt, self.alloc, new));
        rt.demand(before.as_str() == old, "another value before");
        let call = StepCall::ReleaseWrite(guard.ticket());
        rt.expect(self.worker.release_write(rt, guard), "a write that ends");
        self.record(rt, call, StepReply::Done);
    }

    pub(crate) fn set(
        &mut self,
        rt: &(impl Wait + Judge),
        asked: GenerationalBox<String>,
        value: &str,
    ) {
        let value = text(rt, self.alloc, value);
        let answer = self.worker.set(rt, asked, value);
        rt.expect(
            answer.map_err(|(_, refused)| refused),
            "a value that is set",
        );
        self.record(rt, StepCall::Set(asked.pointer()), StepReply::Done);
    }

    // The value back that wasn't set, and why.
    fn refused_set(
        &mut self,
        rt: &(impl Wait + Judge),
        asked: GenerationalBox<String>,
        value: String,
    ) -> (String, Refused<BorrowMutError>) {
        match self.worker.set(rt, asked, value) {
            Err(refusal) => refusal,
            Ok(()) => rt.stop("a value that is set"),
        }
    }

    /// Sets a box that reaches nothing, and was made at this location. The value comes back.
    pub(crate) fn sets_dropped(
        &mut self,
        rt: &(impl Wait + Judge),
        asked: GenerationalBox<String>,
        value: &str,
        made: Location,
    ) {
        let handed = text(rt, self.alloc, value);
        let (mut back, mut refused) = self.refused_set(rt, asked, handed);
        if let Refused::Store(cause) = refused {
            self.lacks(rt, cause);
            (back, refused) = self.refused_set(rt, asked, back);
        }
        rt.demand(back.as_str() == value, "another value back");
        let gone = BorrowMutError::Dropped(ValueDroppedError::new(made));
        rt.compare(&refused, &Refused::Borrow(gone));
        let call = StepCall::Set(asked.pointer());
        self.record(rt, call, StepReply::Dropped(made));
    }

    /// Removes a box.
    pub(crate) fn end(&mut self, rt: &(impl Wait + Judge), asked: GenerationalBox<String>) {
        rt.expect(self.worker.manually_drop(rt, asked), "a box that ends");
        let call = StepCall::ManuallyDrop(asked.pointer());
        self.record(rt, call, StepReply::Done);
    }

    pub(crate) fn point_to(
        &mut self,
        rt: &(impl Wait + Judge),
        asked: GenerationalBox<String>,
        other: GenerationalBox<String>,
    ) {
        rt.expect(
            self.worker.point_to(rt, asked, other),
            "a box that is pointed",
        );
        let call = StepCall::PointTo(asked.pointer(), other.pointer());
        self.record(rt, call, StepReply::Done);
    }

    pub(crate) fn release_owner(&mut self, rt: &(impl Wait + Judge), owner: Owner) {
        let call = StepCall::ReleaseOwner(owner.id());
        if let Err((back, refused)) = self.worker.release_owner(rt, owner) {
            match refused {
                Refused::Store(cause) => self.lacks(rt, cause),
                Refused::Borrow(_) => rt.stop("a borrow in the way"),
            }
            if let Err((back, _)) = self.worker.release_owner(rt, back) {
                back.leak();
                rt.stop("an owner refused twice")
            }
        }
        self.record(rt, call, StepReply::Done);
    }

    /// An owner of another store, by which nothing is made, and which comes back.
    pub(crate) fn refuses_owner(
        &mut self,
        rt: &(impl Wait + Judge),
        owner: Owner,
        value: &str,
        at: Location,
    ) {
        self.refuses_clone(rt, &owner);
        self.refuses_insertion(rt, &owner, value, at);
        let call = StepCall::ReleaseOwner(owner.id());
        match self.worker.release_owner(rt, owner) {
            Err((back, refused)) => {
                back.leak();
                rt.compare(&refused, &Refused::Store(StoreError::UnknownOwner));
            }
            Ok(()) => rt.stop("a stranger that is released"),
        }
        self.record(rt, call, StepReply::Store(StoreError::UnknownOwner));
    }

    fn refuses_clone(&mut self, rt: &(impl Wait + Judge), owner: &Owner) {
        match self.worker.clone_owner(rt, owner) {
            Err(cause) => rt.compare(&cause, &StoreError::UnknownOwner),
            Ok(clone) => {
                clone.leak();
                rt.stop("a stranger that is cloned")
            }
        }
        let call = StepCall::CloneOwner(owner.id());
        self.record(rt, call, StepReply::Store(StoreError::UnknownOwner));
    }

    fn refuses_insertion(
        &mut self,
        rt: &(impl Wait + Judge),
        owner: &Owner,
        value: &str,
        at: Location,
    ) {
        let handed = text(rt, self.alloc, value);
        match self.worker.insert(rt, owner, handed, at) {
            Err(back) => {
                rt.compare(&back.cause, &StoreError::UnknownOwner);
                rt.demand(back.value.as_str() == value, "another value back");
            }
            Ok(_) => rt.stop("a box of a stranger"),
        }
        let call = StepCall::Insert(owner.id(), at);
        self.record(rt, call, StepReply::Store(StoreError::UnknownOwner));
    }

    /// A reader of another store, which isn't released, and opens nothing.
    pub(crate) fn refuses_reader(
        &mut self,
        rt: &(impl Wait + Judge),
        guard: GenerationalRef<String>,
        value: &str,
    ) {
        rt.demand(
            !self.worker.opens(rt, &guard, value),
            "a stranger that is opened",
        );
        rt.demand(
            !self.worker.release_read(rt, guard),
            "a stranger that is released",
        );
    }

    /// A writer of another store, whose value comes back.
    pub(crate) fn refuses_writer(
        &mut self,
        rt: &(impl Wait + Judge),
        guard: GenerationalRefMut<String>,
        value: &str,
    ) {
        match self.worker.release_write(rt, guard) {
            Err(back) => rt.demand(back.as_str() == value, "another value back"),
            Ok(()) => rt.stop("a stranger that is released"),
        }
    }

    /// From now on each step that may free another's call is made under a lock of several calls.
    pub(crate) fn call_together(&mut self) {
        self.worker.call_together();
    }

    /// Waits, for a bounded number of turns, until so many calls of the store wait.
    pub(crate) fn waits_for(&self, rt: &(impl Wait + Judge), calls: usize) {
        for _ in 0..TURNS {
            if self.worker.waiting(rt) == calls {
                return;
            }
            thread::yield_now();
        }
        rt.stop("no call waits")
    }

    /// Trims the history, which had so many steps in all, and the steps of this worker with it. If that
    /// fails, all of them and the base stay.
    pub(crate) fn trim(&mut self, rt: &(impl Wait + Judge), trimmed: u64) {
        let answer = match self.worker.checkpoint(rt) {
            Err(cause) => {
                self.lacks(rt, cause);
                let (_, steps) = self.history(rt);
                rt.compare(&steps.len(), &self.steps.len());
                self.worker.checkpoint(rt)
            }
            trimmed => trimmed,
        };
        rt.compare(&answer, &Ok(trimmed));
        self.steps.clear();
        self.trimmed = trimmed;
    }

    // The base and the history, once all other workers' counts were taken over.
    fn history(&mut self, rt: &(impl Wait + Judge)) -> (Base, Vec<Step>) {
        let mut audit = self.worker.audit(rt);
        // An audit allocates several times, so it may fail as often.
        for _ in 0..AUDITS {
            if audit.is_none() {
                self.lacks = self.lacks.wrapping_add(1);
                audit = self.worker.audit(rt);
            }
        }
        let (base, steps) = present(rt, audit, "an audit");
        rt.compare(&base.trimmed(), &self.trimmed);
        (base, steps)
    }

    /// Asserts that the history of this worker alone has a base with this next ticket, this peak and
    /// these rows, and that both have so many steps of each kind.
    pub(crate) fn assert_base(
        &mut self,
        rt: &(impl Wait + Judge),
        (next, peak): (u64, usize),
        rows: &[BaseRow],
        kinds: [u64; 4],
    ) {
        let (base, steps) = self.history(rt);
        rt.compare(&base.number(), &7);
        rt.compare(&(base.next(), base.peak()), &(next, peak));
        rt.demand(base.rows() == rows, "other rows");
        for (kind, wanted) in KINDS.into_iter().zip(kinds) {
            let later = steps.iter().filter(|step| step.kind() == kind).count();
            rt.compare(&base.count(kind).wrapping_add(later as u64), &wanted);
        }
    }

    /// Takes over what another worker has counted, and its steps.
    pub(crate) fn take_over(&mut self, rt: &impl Judge, other: Self) {
        let Recorder { worker, steps, .. } = other;
        rt.demand(self.worker.take_over(worker), "counts of another store");
        for step in steps.iter() {
            rt.demand(self.steps.push(*step).is_ok(), "no memory for a step");
        }
    }

    /// Asserts that the history has each worker's steps in order, and no others, with the places at
    /// which their boxes were made. All workers'
    /// counts and steps were taken over.
    pub(crate) fn audit(&mut self, rt: &(impl Wait + Judge), workers: usize) {
        let (_, history) = self.history(rt);
        rt.compare(&history.len(), &self.steps.len());
        for worker in 0..workers {
            assert_recorded(rt, worker, history.as_slice(), self.steps.as_slice());
        }
    }

    /// Asserts that too, and of each worker so many steps of each kind: made, lent, changed, refused.
    /// Returns how often an allocation failed.
    pub(crate) fn finish(mut self, rt: &(impl Wait + Judge), kinds: &[[usize; 4]]) -> u64 {
        self.audit(rt, kinds.len());
        for (worker, counts) in kinds.iter().enumerate() {
            assert_kinds(rt, worker, self.steps.as_slice(), *counts);
        }
        self.lacks
    }
}

/// A text. If an allocation fails, it is asked for a second time.
pub(crate) fn text(rt: &impl Judge, alloc: Global, letters: &str) -> String {
    match String::from_str(alloc, letters) {
        Ok(text) => text,
        Err(_) => rt.expect(String::from_str(alloc, letters), "a text"),
    }
}
