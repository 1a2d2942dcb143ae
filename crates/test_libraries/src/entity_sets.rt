//! Entities that are removed with their components, and components that are tested.

use crate::entity_acts::{entities_over, give, made_at, spawn};
use crate::expected::{assert_same, given};
use crate::fresh::{Scene, play, play_both};
use crate::growth::MANY;
use entity_table::ComponentTable;
use example_libraries::entities::{dropped_above, gone_with_all};
use generational_box::Storage;
use std::alloc::Global;
use std::process::Abort;

/// Two entities with components in two tables, of which the first is removed with all.
struct RemoveWithAll;

impl Scene<u64> for RemoveWithAll {
    fn play<R: Abort, S: Storage<u64> + Drop>(&self, rt: &R, alloc: Global, store: S) {
        let mut table = entities_over(rt, alloc, store);
        let mut both = (
            ComponentTable::new(alloc, &table),
            ComponentTable::<u64, bool>::new(alloc, &table),
        );
        let first = spawn(rt, &mut table, 0);
        let second = spawn(rt, &mut table, 1);
        give(rt, &mut both.0, first, 5);
        give(rt, &mut both.0, second, 6);
        give(rt, &mut both.1, first, true);
        assert_same(
            rt,
            &gone_with_all(&mut table, &mut both, first).ok(),
            &Some(false),
        );
        assert_same(rt, &both.0.len(), &1);
        assert!(rt; both.1.is_empty());
        assert_same(rt, &both.0.get(second).copied(), &Some(6));
        // A stale entity's components stay.
        give(rt, &mut both.1, first, true);
        assert!(rt; gone_with_all(&mut table, &mut both, first).is_err());
        assert!(rt; both.1.contains(first));
        // One without components.
        let third = given(rt, table.spawn(3, made_at(2)));
        assert_same(
            rt,
            &gone_with_all(&mut table, &mut both, third).ok(),
            &Some(false),
        );
        assert_same(rt, &both.0.len(), &1);
    }
}

#[test]
fn entities_go_with_their_components(rt: HostRuntime) {
    play_both::<u64, RemoveWithAll>(&rt, rt.alloc(), &RemoveWithAll);
}

/// Components of which some pass a test.
struct TestComponents;

impl Scene<u64> for TestComponents {
    fn play<R: Abort, S: Storage<u64> + Drop>(&self, rt: &R, alloc: Global, store: S) {
        let mut table = entities_over(rt, alloc, store);
        let mut components = ComponentTable::new(alloc, &table);
        dropped_above(&mut components, 0);
        for component in 0..5 {
            let entity = spawn(rt, &mut table, 0);
            give(rt, &mut components, entity, component);
        }
        components.retain(|component: &u64| *component % 2 == 0);
        let left = components.iter().map(|(_, component)| *component);
        assert!(rt; left.eq([0, 2, 4].iter().copied()));
        dropped_above(&mut components, 3);
        assert_same(rt, &components.len(), &2);
    }
}

#[test]
fn components_that_pass_a_test_stay(rt: HostRuntime) {
    play_both::<u64, TestComponents>(&rt, rt.alloc(), &TestComponents);
}

/// Entities with components in five tables, which are removed with them, one by one: no call looks at the
/// other entities' slots.
struct RemoveMany;

impl Scene<u64> for RemoveMany {
    fn play<R: Abort, S: Storage<u64> + Drop>(&self, rt: &R, alloc: Global, store: S) {
        let mut table = entities_over(rt, alloc, store);
        let mut all = (
            ComponentTable::new(alloc, &table),
            ComponentTable::new(alloc, &table),
            ComponentTable::new(alloc, &table),
            ComponentTable::new(alloc, &table),
            ComponentTable::new(alloc, &table),
        );
        for component in 0..MANY {
            let entity = spawn(rt, &mut table, 0);
            give(rt, &mut all.0, entity, component);
            give(rt, &mut all.1, entity, component);
            give(rt, &mut all.2, entity, component);
            give(rt, &mut all.3, entity, component);
            give(rt, &mut all.4, entity, component);
        }
        for slot in 0..table.slots() {
            if let Some(entity) = table.at(slot) {
                given(rt, table.despawn_with(entity, &mut all));
            }
        }
        let (a, b, c, d, e) = all;
        assert!(rt;
            table.is_empty()
                && a.is_empty()
                && b.is_empty()
                && c.is_empty()
                && d.is_empty()
                && e.is_empty()
        );
    }
}

#[test]
fn entities_go_with_five_components(rt: HostRuntime) {
    play::<u64, RemoveMany>(&rt, rt.alloc(), &RemoveMany);
}
