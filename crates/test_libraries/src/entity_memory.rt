//! Tables where memory runs out. Each test passes whichever allocation fails: what fails to allocate
//! changes nothing, and is tried a second time.

use crate::entity_acts::{add, entities_over, made_at};
use crate::expected::{assert_same, given};
use crate::fresh::{Scene, play};
use entity_table::{ComponentTable, Entity, EntityTable};
use example_libraries::entities::raised;
use generational_box::Storage;
use std::alloc::Global;
use std::process::Abort;

/// How many entities are spawned: more than the room that is found at once.
const MANY: u64 = 20;

/// Spawns an entity, which shows its element. One that fails to allocate leaves the table unchanged.
pub(crate) fn spawn_or_again<S: Storage<u64>>(
    rt: &impl Abort,
    table: &mut EntityTable<u64, S>,
    element: u64,
) -> Entity<u64> {
    let before = table.len();
    let spawned = match table.spawn(element, made_at(0)) {
        Ok(entity) => Ok(entity),
        Err(refusal) => {
            assert_same(rt, &refusal.value, &element);
            assert_same(rt, &table.len(), &before);
            table.spawn(element, made_at(0))
        }
    };
    let entity = given(rt, spawned);
    assert!(rt; table.is_alive(entity));
    entity
}

/// Gives an entity a component. One that fails to allocate leaves it without.
fn give_or_again(
    rt: &impl Abort,
    table: &mut ComponentTable<u64, u64>,
    entity: Entity<u64>,
    component: u64,
) {
    if let Err(refusal) = table.insert(entity, component) {
        assert_same(rt, &refusal.value, &component);
        assert!(rt; !table.contains(entity));
        given(rt, table.insert(entity, component));
    }
    assert!(rt; table.contains(entity));
}

/// Spawns entities with components.
struct SpawnMany;

impl Scene<u64> for SpawnMany {
    fn play<R: Abort, S: Storage<u64> + Drop>(&self, rt: &R, alloc: Global, store: S) {
        let mut entities = entities_over(rt, alloc, store);
        let mut components = ComponentTable::new(alloc, &entities);
        for element in 0..MANY {
            let entity = spawn_or_again(rt, &mut entities, element);
            give_or_again(rt, &mut components, entity, element);
            // No memory is asked for from here on.
            given(rt, add(rt, &mut entities, entity, 1));
            assert_same(rt, &raised(&mut components, entity), &Some(element));
            if element % 3 == 0 {
                given(rt, entities.despawn(entity));
            }
            components.sweep(&entities);
            assert_same(rt, &components.contains(entity), &entities.is_alive(entity));
        }
    }
}

#[test]
fn what_lacks_memory_changes_nothing(rt: HostRuntime) {
    play::<u64, SpawnMany>(&rt, rt.alloc(), &SpawnMany);
}
