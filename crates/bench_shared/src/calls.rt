//! The calls of the workload, over any kind of store.

use generational_box::{GenerationalBox, GenerationalRef, GenerationalRefMut, Location, Owner};
use std::sync::Wait;

/// What a worker of the workload calls. A call that fails returns None or false.
pub(crate) trait Calls {
    /// Says where the calls are made from now on.
    fn move_to(&mut self, at: Location);

    /// Makes a box.
    fn leak(&mut self, rt: &impl Wait, value: u64) -> Option<GenerationalBox<u64>>;

    /// Makes a shared value.
    fn leak_rc(&mut self, rt: &impl Wait, value: u64) -> Option<GenerationalBox<u64>>;

    /// Makes another reference.
    fn leak_reference(
        &mut self,
        rt: &impl Wait,
        of: GenerationalBox<u64>,
    ) -> Option<GenerationalBox<u64>>;

    /// Makes an owner.
    fn owner(&mut self, rt: &impl Wait) -> Option<Owner>;

    /// Makes a box that ends with the owner.
    fn insert(&mut self, rt: &impl Wait, owner: &Owner, value: u64) -> Option<GenerationalBox<u64>>;

    /// Makes a shared value whose reference ends with the owner.
    fn insert_rc(
        &mut self,
        rt: &impl Wait,
        owner: &Owner,
        value: u64,
    ) -> Option<GenerationalBox<u64>>;

    /// Spends the owner.
    fn release_owner(&mut self, rt: &impl Wait, owner: Owner) -> bool;

    /// Begins a read.
    fn read(&mut self, rt: &impl Wait, asked: GenerationalBox<u64>) -> Option<GenerationalRef<u64>>;

    /// Whether the guard opens this value.
    fn opens(&mut self, rt: &impl Wait, guard: &GenerationalRef<u64>, value: u64) -> bool;

    /// Ends a read.
    fn release_read(&mut self, rt: &impl Wait, guard: GenerationalRef<u64>) -> bool;

    /// Begins a write.
    fn write(
        &mut self,
        rt: &impl Wait,
        asked: GenerationalBox<u64>,
    ) -> Option<GenerationalRefMut<u64>>;

    /// Ends a write.
    fn release_write(&mut self, rt: &impl Wait, guard: GenerationalRefMut<u64>) -> bool;

    /// Sets another value.
    fn set(&mut self, rt: &impl Wait, asked: GenerationalBox<u64>, value: u64) -> bool;

    /// Points a reference elsewhere.
    fn point_to(
        &mut self,
        rt: &impl Wait,
        asked: GenerationalBox<u64>,
        other: GenerationalBox<u64>,
    ) -> bool;

    /// Removes a box.
    fn end(&mut self, rt: &impl Wait, asked: GenerationalBox<u64>) -> bool;

    /// Makes a box, reads it twice, ends it, and reads it once more: 9 calls, under one lock.
    fn reads_together(&mut self, rt: &impl Wait, value: u64) -> Option<u64>;

    /// Trims the history. True where there is none.
    fn checkpoint(&mut self, rt: &impl Wait) -> bool;
}

/// Where every call is made.
pub(crate) fn here() -> Location {
    Location::new("workload.rs", 1, 1)
}
