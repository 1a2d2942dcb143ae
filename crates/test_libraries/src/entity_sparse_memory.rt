//! Components that few entities have, and room that is made ahead, whichever allocation fails.

use crate::entity_acts::entities_over;
use crate::entity_memory::spawn_or_again;
use crate::expected::{answered, assert_same, given};
use crate::fresh::{Scene, play};
use entity_table::{ComponentTable, Entity, SparseTable};
use generational_box::{Storage, StoreError};
use std::alloc::Global;
use std::process::Abort;

/// Sets a component that few have. One that fails to allocate comes back, and the table is unchanged.
fn insert_or_again(
    rt: &impl Abort,
    rare: &mut SparseTable<u64, u64>,
    entity: Entity<u64>,
    component: u64,
) {
    let before = rare.len();
    if let Err(cause) = answered(rt, rare.insert(entity, component), &component) {
        assert_same(rt, &cause, &StoreError::OutOfMemory);
        assert_same(rt, &rare.len(), &before);
        given(rt, rare.insert(entity, component));
    }
    assert_same(rt, &rare.get(entity).copied(), &Some(component));
}

/// Entities with components of either kind, some in room that was made for them.
struct SpawnWithRoom;

impl Scene<u64> for SpawnWithRoom {
    fn play<R: Abort, S: Storage<u64> + Drop>(&self, rt: &R, alloc: Global, store: S) {
        let mut table = entities_over(rt, alloc, store);
        let mut names = ComponentTable::new(alloc, &table);
        let mut rare: SparseTable<u64, u64> = SparseTable::new(alloc);
        let mut more: SparseTable<u64, u64> = SparseTable::new(alloc);
        if table.reserve(200).is_err() {
            assert!(rt; table.is_empty());
            given(rt, table.reserve(200));
        }
        if names.reserve(200).is_err() {
            given(rt, names.reserve(200));
        }
        if more.reserve(200).is_err() {
            assert!(rt; more.is_empty());
            given(rt, more.reserve(200));
        }
        for element in 0..200 {
            let entity = spawn_or_again(rt, &mut table, element);
            insert_or_again(rt, &mut rare, entity, element);
            // No memory is asked for here.
            given(rt, names.insert(entity, element));
            given(rt, more.insert(entity, element));
        }
        assert_same(rt, &names.len(), &rare.len());
        assert_same(rt, &more.len(), &rare.len());
    }
}

#[test]
fn room_that_was_made_is_used(rt: HostRuntime) {
    play::<u64, SpawnWithRoom>(&rt, rt.alloc(), &SpawnWithRoom);
}
