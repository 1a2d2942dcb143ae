//! The workload's calls over a sequential store in a plain mutex: without a history, and if a borrow is
//! in the way, a call fails instead of waiting.

use crate::calls::{Calls, here};
use generational_box::{
    AnyStorage, GenerationalBox, GenerationalRef, GenerationalRefMut, Location, Owner, Storage,
};
use std::alloc::Global;
use std::sync::{Arc, Mutex, Wait};

/// A worker: a handle of the store.
#[derive(Drop)]
pub(crate) struct Plain<S> {
    pub(crate) store: Arc<Mutex<S>, Global>,
}

impl<S: Storage<u64> + Drop> Calls for Plain<S> {
    // Each call is made at one location.
    fn move_to(&mut self, at: Location) {
        let _ = at;
    }

    fn leak(&mut self, rt: &impl Wait, value: u64) -> Option<GenerationalBox<u64>> {
        let mut store = self.store.lock(rt);
        GenerationalBox::leak(&mut *store, value, here()).ok()
    }

    fn leak_rc(&mut self, rt: &impl Wait, value: u64) -> Option<GenerationalBox<u64>> {
        let mut store = self.store.lock(rt);
        GenerationalBox::leak_rc(&mut *store, value, here()).ok()
    }

    fn leak_reference(
        &mut self,
        rt: &impl Wait,
        of: GenerationalBox<u64>,
    ) -> Option<GenerationalBox<u64>> {
        let mut store = self.store.lock(rt);
        of.leak_reference(&mut *store).ok()
    }

    fn owner(&mut self, rt: &impl Wait) -> Option<Owner> {
        let mut store = self.store.lock(rt);
        store.owner().ok()
    }

    fn insert(
        &mut self,
        rt: &impl Wait,
        owner: &Owner,
        value: u64,
    ) -> Option<GenerationalBox<u64>> {
        let mut store = self.store.lock(rt);
        owner.insert(&mut *store, value, here()).ok()
    }

    fn insert_rc(
        &mut self,
        rt: &impl Wait,
        owner: &Owner,
        value: u64,
    ) -> Option<GenerationalBox<u64>> {
        let mut store = self.store.lock(rt);
        owner.insert_rc(&mut *store, value, here()).ok()
    }

    fn release_owner(&mut self, rt: &impl Wait, owner: Owner) -> bool {
        let mut store = self.store.lock(rt);
        match owner.release(&mut *store) {
            Ok(_) => true,
            Err((owner, _)) => {
                owner.leak();
                false
            }
        }
    }

    fn read(
        &mut self,
        rt: &impl Wait,
        asked: GenerationalBox<u64>,
    ) -> Option<GenerationalRef<u64>> {
        let mut store = self.store.lock(rt);
        asked.try_read(&mut *store, here()).ok()
    }

    fn opens(&mut self, rt: &impl Wait, guard: &GenerationalRef<u64>, value: u64) -> bool {
        let store = self.store.lock(rt);
        let seen = store.open(guard).copied();
        seen == Some(value)
    }

    fn release_read(&mut self, rt: &impl Wait, guard: GenerationalRef<u64>) -> bool {
        let mut store = self.store.lock(rt);
        guard.release(&mut *store)
    }

    fn write(
        &mut self,
        rt: &impl Wait,
        asked: GenerationalBox<u64>,
    ) -> Option<GenerationalRefMut<u64>> {
        let mut store = self.store.lock(rt);
        asked.try_write(&mut *store, here()).ok()
    }

    fn release_write(&mut self, rt: &impl Wait, guard: GenerationalRefMut<u64>) -> bool {
        let mut store = self.store.lock(rt);
        guard.release(&mut *store).is_ok()
    }

    fn set(&mut self, rt: &impl Wait, asked: GenerationalBox<u64>, value: u64) -> bool {
        let mut store = self.store.lock(rt);
        if !asked.can_write(&*store) {
            return false;
        }
        asked.set(&mut *store, value);
        true
    }

    fn point_to(
        &mut self,
        rt: &impl Wait,
        asked: GenerationalBox<u64>,
        other: GenerationalBox<u64>,
    ) -> bool {
        let mut store = self.store.lock(rt);
        asked.point_to(&mut *store, other).is_ok()
    }

    fn end(&mut self, rt: &impl Wait, asked: GenerationalBox<u64>) -> bool {
        let mut store = self.store.lock(rt);
        asked.manually_drop(&mut *store).is_ok()
    }

    fn reads_together(&mut self, rt: &impl Wait, value: u64) -> Option<u64> {
        let mut store = self.store.lock(rt);
        let made = GenerationalBox::leak(&mut *store, value, here()).ok()?;
        for _ in 0..2u64 {
            let guard = made.try_read(&mut *store, here()).ok()?;
            let same = store.open(&guard).copied() == Some(value);
            let known = guard.release(&mut *store);
            if !(same && known) {
                return None;
            }
        }
        made.manually_drop(&mut *store).ok()?;
        match made.try_read(&mut *store, here()) {
            Ok(guard) => {
                guard.release(&mut *store);
                None
            }
            Err(_) => Some(9),
        }
    }

    fn checkpoint(&mut self, _rt: &impl Wait) -> bool {
        true
    }
}
