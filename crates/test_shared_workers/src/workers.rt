//! Workers of a store that threads share. Their calls have no contract here: the scenarios compare
//! results.

use crate::audits::audited;
use crate::together;
use generational_box::{
    BorrowMutError, BorrowMutResult, BorrowResult, GenerationalBox, GenerationalRef,
    GenerationalRefMut, Location, Owner, Refusal, Refused, StoreError,
};
use generational_sync::parts::waiting;
use generational_sync::{Base, Count, Step, SyncStorage, Tally};
use std::sync::Wait;

/// A worker of a store of texts. Each call is the store's of the same name.
pub trait Worker: Drop + Send {
    /// Which worker it is, from 0.
    fn number(&self) -> usize;

    /// From now on each step that may free another's call is made under a lock of several calls.
    fn call_together(&mut self);

    /// Makes a box.
    fn leak(&mut self, rt: &impl Wait, value: String, at: Location) -> MadeOrBack;

    /// Makes a shared value.
    fn leak_rc(&mut self, rt: &impl Wait, value: String, at: Location) -> MadeOrBack;

    /// Makes another reference.
    fn leak_reference(
        &mut self,
        rt: &impl Wait,
        of: GenerationalBox<String>,
    ) -> BorrowResult<GenerationalBox<String>>;

    /// Makes an owner.
    fn owner(&mut self, rt: &impl Wait) -> Result<Owner, StoreError>;

    /// Makes another owner with the same list.
    fn clone_owner(&mut self, rt: &impl Wait, owner: &Owner) -> Result<Owner, StoreError>;

    /// Makes a box of an owner.
    fn insert(&mut self, rt: &impl Wait, owner: &Owner, value: String, at: Location) -> MadeOrBack;

    /// Makes a shared value of an owner.
    fn insert_rc(
        &mut self,
        rt: &impl Wait,
        owner: &Owner,
        value: String,
        at: Location,
    ) -> MadeOrBack;

    /// Makes a reference of an owner.
    fn insert_reference(
        &mut self,
        rt: &impl Wait,
        owner: &Owner,
        of: GenerationalBox<String>,
    ) -> BorrowResult<GenerationalBox<String>>;

    /// Begins a read.
    fn try_read(
        &mut self,
        rt: &impl Wait,
        asked: GenerationalBox<String>,
        at: Location,
    ) -> BorrowResult<GenerationalRef<String>>;

    /// Begins a read, by the other name.
    fn read(
        &mut self,
        rt: &impl Wait,
        asked: GenerationalBox<String>,
        at: Location,
    ) -> BorrowResult<GenerationalRef<String>>;

    /// Begins a write.
    fn try_write(
        &mut self,
        rt: &impl Wait,
        asked: GenerationalBox<String>,
        at: Location,
    ) -> BorrowMutResult<GenerationalRefMut<String>>;

    /// Begins a write, by the other name.
    fn write(
        &mut self,
        rt: &impl Wait,
        asked: GenerationalBox<String>,
        at: Location,
    ) -> BorrowMutResult<GenerationalRefMut<String>>;

    /// Ends a read.
    fn release_read(&mut self, rt: &impl Wait, guard: GenerationalRef<String>) -> bool;

    /// Ends a write.
    fn release_write(
        &mut self,
        rt: &impl Wait,
        guard: GenerationalRefMut<String>,
    ) -> Result<(), String>;

    /// Sets another value.
    fn set(
        &mut self,
        rt: &impl Wait,
        asked: GenerationalBox<String>,
        value: String,
    ) -> Result<(), (String, Refused<BorrowMutError>)>;

    /// Removes a box.
    fn manually_drop(
        &mut self,
        rt: &impl Wait,
        asked: GenerationalBox<String>,
    ) -> BorrowMutResult<()>;

    /// Points a box elsewhere.
    fn point_to(
        &mut self,
        rt: &impl Wait,
        asked: GenerationalBox<String>,
        other: GenerationalBox<String>,
    ) -> BorrowMutResult<()>;

    /// Spends an owner.
    fn release_owner(
        &mut self,
        rt: &impl Wait,
        owner: Owner,
    ) -> Result<(), (Owner, Refused<BorrowMutError>)>;

    /// Whether a guard opens this value, which is compared under the lock.
    fn opens(&self, rt: &impl Wait, guard: &GenerationalRef<String>, value: &str) -> bool;

    /// How many calls of the store wait.
    fn waiting(&self, rt: &impl Wait) -> usize;

    /// Takes over what another worker has counted. False for the tally of another store.
    fn take_over(&mut self, other: Self) -> bool;

    /// Trims the history, and returns how many steps that were in all.
    fn checkpoint(&mut self, rt: &impl Wait) -> Result<u64, StoreError>;

    /// The base and the history, once all other workers' counts were taken over. None if an allocation
    /// fails, or where a worker's counts lack.
    fn audit(&mut self, rt: &impl Wait) -> Option<(Base, Vec<Step>)>;
}

/// The result of a making: a box, or the value.
pub type MadeOrBack = Result<GenerationalBox<String>, Refusal<String>>;

/// A handle of the store with number 7, and a tally.
#[derive(Drop)]
pub struct Handle<A: Count, B: Count, C: Count, D: Count> {
    /// The worker's own handle of the store.
    pub store: SyncStorage<String, 7, A, B, C, D>,
    /// What counts the worker's steps.
    pub tally: Tally<A, B, C, D>,
    /// Whether steps that may free others are made under a lock of several calls.
    pub together: bool,
}

impl<
    A: Count + Send + Sync,
    B: Count + Send + Sync,
    C: Count + Send + Sync,
    D: Count + Send + Sync,
> Worker for Handle<A, B, C, D> {
    fn number(&self) -> usize {
        self.tally.worker()
    }

    fn call_together(&mut self) {
        self.together = true;
    }

    fn leak(&mut self, rt: &impl Wait, value: String, at: Location) -> MadeOrBack {
        self.store.leak(rt, value, at, &mut self.tally)
    }

    fn leak_rc(&mut self, rt: &impl Wait, value: String, at: Location) -> MadeOrBack {
        self.store.leak_rc(rt, value, at, &mut self.tally)
    }

    fn leak_reference(
        &mut self,
        rt: &impl Wait,
        of: GenerationalBox<String>,
    ) -> BorrowResult<GenerationalBox<String>> {
        if self.together {
            let Handle { store, tally, .. } = self;
            return store
                .together()
                .run(rt, |state| together::leak_reference(state, tally, of));
        }
        self.store.leak_reference(rt, of, &mut self.tally)
    }

    fn owner(&mut self, rt: &impl Wait) -> Result<Owner, StoreError> {
        self.store.owner(rt, &mut self.tally)
    }

    fn clone_owner(&mut self, rt: &impl Wait, owner: &Owner) -> Result<Owner, StoreError> {
        self.store.clone_owner(rt, owner, &mut self.tally)
    }

    fn insert(&mut self, rt: &impl Wait, owner: &Owner, value: String, at: Location) -> MadeOrBack {
        self.store.insert(rt, owner, value, at, &mut self.tally)
    }

    fn insert_rc(
        &mut self,
        rt: &impl Wait,
        owner: &Owner,
        value: String,
        at: Location,
    ) -> MadeOrBack {
        self.store.insert_rc(rt, owner, value, at, &mut self.tally)
    }

    fn insert_reference(
        &mut self,
        rt: &impl Wait,
        owner: &Owner,
        of: GenerationalBox<String>,
    ) -> BorrowResult<GenerationalBox<String>> {
        if self.together {
            let Handle { store, tally, .. } = self;
            return store.together().run(
                rt,
                |state| together::insert_reference(state, tally, owner, of),
            );
        }
        self.store.insert_reference(rt, owner, of, &mut self.tally)
    }

    fn try_read(
        &mut self,
        rt: &impl Wait,
        asked: GenerationalBox<String>,
        at: Location,
    ) -> BorrowResult<GenerationalRef<String>> {
        self.store.try_read(rt, asked, at, &mut self.tally)
    }

    fn read(
        &mut self,
        rt: &impl Wait,
        asked: GenerationalBox<String>,
        at: Location,
    ) -> BorrowResult<GenerationalRef<String>> {
        self.store.read(rt, asked, at, &mut self.tally)
    }

    fn try_write(
        &mut self,
        rt: &impl Wait,
        asked: GenerationalBox<String>,
        at: Location,
    ) -> BorrowMutResult<GenerationalRefMut<String>> {
        self.store.try_write(rt, asked, at, &mut self.tally)
    }

    fn write(
        &mut self,
        rt: &impl Wait,
        asked: GenerationalBox<String>,
        at: Location,
    ) -> BorrowMutResult<GenerationalRefMut<String>> {
        self.store.write(rt, asked, at, &mut self.tally)
    }

    fn release_read(&mut self, rt: &impl Wait, guard: GenerationalRef<String>) -> bool {
        if self.together {
            let Handle { store, tally, .. } = self;
            let mut held = Some(guard);
            let known = store.together().run(
                rt,
                |state| together::release_read(state, tally, &mut held),
            );
            return match held {
                Some(guard) => store.release_read(rt, guard, tally),
                None => known,
            };
        }
        self.store.release_read(rt, guard, &mut self.tally)
    }

    fn release_write(
        &mut self,
        rt: &impl Wait,
        guard: GenerationalRefMut<String>,
    ) -> Result<(), String> {
        if self.together {
            let Handle { store, tally, .. } = self;
            let mut held = Some(guard);
            let released = store.together().run(
                rt,
                |state| together::release_write(state, tally, &mut held),
            );
            return match held {
                Some(guard) => store.release_write(rt, guard, tally),
                None => released,
            };
        }
        self.store.release_write(rt, guard, &mut self.tally)
    }

    fn set(
        &mut self,
        rt: &impl Wait,
        asked: GenerationalBox<String>,
        value: String,
    ) -> Result<(), (String, Refused<BorrowMutError>)> {
        self.store.set(rt, asked, value, &mut self.tally)
    }

    fn manually_drop(
        &mut self,
        rt: &impl Wait,
        asked: GenerationalBox<String>,
    ) -> BorrowMutResult<()> {
        if self.together {
            let Handle { store, tally, .. } = self;
            return store
                .together()
                .run(rt, |state| together::end(state, tally, asked));
        }
        self.store.manually_drop(rt, asked, &mut self.tally)
    }

    fn point_to(
        &mut self,
        rt: &impl Wait,
        asked: GenerationalBox<String>,
        other: GenerationalBox<String>,
    ) -> BorrowMutResult<()> {
        if self.together {
            let Handle { store, tally, .. } = self;
            return store
                .together()
                .run(rt, |state| together::point_to(state, tally, asked, other));
        }
        self.store.point_to(rt, asked, other, &mut self.tally)
    }

    fn release_owner(
        &mut self,
        rt: &impl Wait,
        owner: Owner,
    ) -> Result<(), (Owner, Refused<BorrowMutError>)> {
        if self.together {
            let Handle { store, tally, .. } = self;
            let mut released = Err((owner, Refused::Store(StoreError::OutOfMemory)));
            store.together().run(
                rt,
                |state| together::release_owner(state, tally, &mut released),
            );
            return released;
        }
        self.store.release_owner(rt, owner, &mut self.tally)
    }

    fn opens(&self, rt: &impl Wait, guard: &GenerationalRef<String>, value: &str) -> bool {
        self.store
            .open(rt, guard, move |text| text.as_str() == value)
            == Some(true)
    }

    fn waiting(&self, rt: &impl Wait) -> usize {
        waiting(&self.store, rt)
    }

    fn take_over(&mut self, other: Self) -> bool {
        self.tally.merge(other.tally).is_ok()
    }

    fn checkpoint(&mut self, rt: &impl Wait) -> Result<u64, StoreError> {
        self.store.checkpoint(rt, &mut self.tally)
    }

    fn audit(&mut self, rt: &impl Wait) -> Option<(Base, Vec<Step>)> {
        if !self.tally.is_whole() {
            return None;
        }
        audited(&self.store, rt, &mut self.tally).ok()
    }
}
