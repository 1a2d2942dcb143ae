//! The workload's calls over the store that threads share.

use crate::calls::{Calls, here};
use generational_box::{
    GenerationalBox, GenerationalRef, GenerationalRefMut, Location, Owner, StepCall,
};
use generational_sync::{Count, SyncState, SyncStorage, Tally};
use std::sync::Wait;

/// A worker: a handle of the store, a tally, and where its calls are made.
#[derive(Drop)]
pub(crate) struct Worker<A: Count, B: Count, C: Count, D: Count> {
    pub(crate) store: SyncStorage<u64, 7, A, B, C, D>,
    pub(crate) tally: Tally<A, B, C, D>,
    pub(crate) at: Location,
}

impl<A: Count, B: Count, C: Count, D: Count> Calls for Worker<A, B, C, D> {
    fn move_to(&mut self, at: Location) {
        self.at = at;
    }

    fn leak(&mut self, rt: &impl Wait, value: u64) -> Option<GenerationalBox<u64>> {
        self.store.leak(rt, value, self.at, &mut self.tally).ok()
    }

    fn leak_rc(&mut self, rt: &impl Wait, value: u64) -> Option<GenerationalBox<u64>> {
        self.store.leak_rc(rt, value, self.at, &mut self.tally).ok()
    }

    fn leak_reference(
        &mut self,
        rt: &impl Wait,
        of: GenerationalBox<u64>,
    ) -> Option<GenerationalBox<u64>> {
        self.store.leak_reference(rt, of, &mut self.tally).ok()
    }

    fn owner(&mut self, rt: &impl Wait) -> Option<Owner> {
        self.store.owner(rt, &mut self.tally).ok()
    }

    fn insert(
        &mut self,
        rt: &impl Wait,
        owner: &Owner,
        value: u64,
    ) -> Option<GenerationalBox<u64>> {
        self.store
            .insert(rt, owner, value, self.at, &mut self.tally)
            .ok()
    }

    fn insert_rc(
        &mut self,
        rt: &impl Wait,
        owner: &Owner,
        value: u64,
    ) -> Option<GenerationalBox<u64>> {
        self.store
            .insert_rc(rt, owner, value, self.at, &mut self.tally)
            .ok()
    }

    fn release_owner(&mut self, rt: &impl Wait, owner: Owner) -> bool {
        match self.store.release_owner(rt, owner, &mut self.tally) {
            Ok(_) => true,
            Err((owner, _)) => {
                owner.leak();
                false
            }
        }
    }

    fn read(
        &mut self,
        rt: &impl Wait,
        asked: GenerationalBox<u64>,
    ) -> Option<GenerationalRef<u64>> {
        self.store
            .try_read(rt, asked, self.at, &mut self.tally)
            .ok()
    }

    fn opens(&mut self, rt: &impl Wait, guard: &GenerationalRef<u64>, value: u64) -> bool {
        self.store.open(rt, guard, |seen| *seen) == Some(value)
    }

    fn release_read(&mut self, rt: &impl Wait, guard: GenerationalRef<u64>) -> bool {
        self.store.release_read(rt, guard, &mut self.tally)
    }

    fn write(
        &mut self,
        rt: &impl Wait,
        asked: GenerationalBox<u64>,
    ) -> Option<GenerationalRefMut<u64>> {
        self.store
            .try_write(rt, asked, self.at, &mut self.tally)
            .ok()
    }

    fn release_write(&mut self, rt: &impl Wait, guard: GenerationalRefMut<u64>) -> bool {
        self.store.release_write(rt, guard, &mut self.tally).is_ok()
    }

    fn set(&mut self, rt: &impl Wait, asked: GenerationalBox<u64>, value: u64) -> bool {
        self.store.set(rt, asked, value, &mut self.tally).is_ok()
    }

    fn point_to(
        &mut self,
        rt: &impl Wait,
        asked: GenerationalBox<u64>,
        other: GenerationalBox<u64>,
    ) -> bool {
        self.store
            .point_to(rt, asked, other, &mut self.tally)
            .is_ok()
    }

    fn end(&mut self, rt: &impl Wait, asked: GenerationalBox<u64>) -> bool {
        self.store.manually_drop(rt, asked, &mut self.tally).is_ok()
    }

    fn reads_together(&mut self, rt: &impl Wait, value: u64) -> Option<u64> {
        let Worker { store, tally, .. } = self;
        store
            .together()
            .run(rt, |state| read_at_once(state, tally, value))
    }

    fn checkpoint(&mut self, rt: &impl Wait) -> bool {
        self.store.checkpoint(rt, &mut self.tally).is_ok()
    }
}

// Makes a box, reads it twice, ends it, and reads it once more. None if a call isn't carried out.
fn read_at_once<A: Count, B: Count, C: Count, D: Count>(
    state: &mut SyncState<u64, 7, A, B, C, D>,
    tally: &mut Tally<A, B, C, D>,
    value: u64,
) -> Option<u64> {
    let made = state.leak(value, here(), tally).ok()?;
    for _ in 0..2u64 {
        let guard = read_now(state, tally, made)?;
        let same = state.open(&guard).copied() == Some(value);
        let known = state.release_read(guard, tally);
        if !(same && known) {
            return None;
        }
    }
    if !state.ready(&StepCall::ManuallyDrop(made.pointer())) {
        return None;
    }
    state.manually_drop(made, tally).ok()?;
    match read_now(state, tally, made) {
        Some(guard) => {
            state.release_read(guard, tally);
            None
        }
        None => Some(9),
    }
}

// Begins a read, unless a writer is in its way or the store fails.
fn read_now<A: Count, B: Count, C: Count, D: Count>(
    state: &mut SyncState<u64, 7, A, B, C, D>,
    tally: &mut Tally<A, B, C, D>,
    asked: GenerationalBox<u64>,
) -> Option<GenerationalRef<u64>> {
    if !state.ready(&StepCall::Read(asked.pointer(), here())) {
        return None;
    }
    state.try_read(asked, here(), tally).ok()
}
