//! Tables of components, and tables whose store has given all its tickets.

use crate::entity_acts::{add, entities_over, give, made_at, spawn};
use crate::expected::{assert_same, given};
use crate::fresh::{Scene, play, play_at_ticket};
use entity_table::{AttachError, ComponentTable, Entity, EntityTable, Stale};
use example_libraries::entities::{
    age_all, despawned_bare, greatest, handed_over, move_all, raise_all, raised, renamed,
    taken_out, told_after, within_limits,
};
use generational_box::{LastFirst, Storage, Store};
use std::alloc::Global;
use std::process::Abort;

/// Sees what component an entity has.
fn has(
    rt: &impl Abort,
    table: &ComponentTable<u64, u64>,
    entity: Entity<u64>,
    component: Option<u64>,
) {
    assert_same(rt, &table.contains(entity), &component.is_some());
    assert_same(rt, &table.get(entity).copied(), &component);
}

/// An entity with a component, which goes, and another that takes its slot.
struct ComponentsFollow;

impl Scene<u64> for ComponentsFollow {
    fn play<R: Abort, S: Storage<u64> + Drop>(&self, rt: &R, alloc: Global, store: S) {
        let mut entities = entities_over(rt, alloc, store);
        let mut components = ComponentTable::new(alloc, &entities);
        let first = spawn(rt, &mut entities, 0);
        give(rt, &mut components, first, 11);
        give(rt, &mut components, first, 12);
        has(rt, &components, first, Some(12));
        given(rt, entities.despawn(first));
        let second = spawn(rt, &mut entities, 1);
        has(rt, &components, second, None);
        give(rt, &mut components, second, 13);
        has(rt, &components, first, None);
        assert!(rt; components.remove(second));
        has(rt, &components, second, None);
    }
}

/// An entity that goes, and one that comes.
struct StaleIsTold;

impl Scene<u64> for StaleIsTold {
    fn play<R: Abort, S: Storage<u64> + Drop>(&self, rt: &R, alloc: Global, store: S) {
        let mut table = entities_over(rt, alloc, store);
        let first = match table.spawn(0, made_at(3)) {
            Ok(entity) => entity,
            Err(_lacking) => rt.abort(),
        };
        let stale = Stale {
            created_at: Some(made_at(3)),
        };
        let told = told_after(&mut table, first, 4, made_at(4));
        assert_same(rt, &told, &Err(stale));
        assert_same(rt, &table.len(), &1);
    }
}

/// An entity that is looked at, set and tested, if the tickets are used up.
struct AnEntityGoes;

impl Scene<u64> for AnEntityGoes {
    fn play<R: Abort, S: Storage<u64> + Drop>(&self, rt: &R, alloc: Global, store: S) {
        let mut table = entities_over(rt, alloc, store);
        let entity = spawn(rt, &mut table, 0);
        given(rt, table.set(entity, 5));
        assert_same(rt, &table.get(entity).copied().ok(), &Some(5));
        table.retain(|element| *element == 5);
        assert_same(rt, &table.len(), &1);
        given(rt, table.despawn(entity));
    }
}

/// An entity that goes, and another in its slot, which is given a component by both handles.
struct AGoneHandleGivesNothing;

impl Scene<u64> for AGoneHandleGivesNothing {
    fn play<R: Abort, S: Storage<u64> + Drop>(&self, rt: &R, alloc: Global, store: S) {
        let mut entities = entities_over(rt, alloc, store);
        let mut components = ComponentTable::new(alloc, &entities);
        let first = spawn(rt, &mut entities, 0);
        given(rt, entities.despawn(first));
        let second = spawn(rt, &mut entities, 1);
        given(rt, renamed(&entities, &mut components, second, 11));
        let stale = Stale {
            created_at: Some(made_at(0)),
        };
        let told = renamed(&entities, &mut components, first, 12);
        assert!(rt; told == Err(AttachError::Stale(stale)));
        has(rt, &components, second, Some(11));
        assert!(rt; first != second);
        goes_over(rt, &components, &[(second, 11)]);
    }
}

/// Sees that an entity is the only one.
fn is_only<S: Storage<u64>>(rt: &impl Abort, table: &EntityTable<u64, S>, wanted: Entity<u64>) {
    for (entity, _) in table.iter() {
        assert_same(rt, &entity, &wanted);
    }
    assert_same(rt, &table.len(), &1);
}

/// Entities that are gone over, before and after one of them goes.
struct LiveOnesAreGoneOver;

impl Scene<u64> for LiveOnesAreGoneOver {
    fn play<R: Abort, S: Storage<u64> + Drop>(&self, rt: &R, alloc: Global, store: S) {
        let mut table = entities_over(rt, alloc, store);
        assert_same(rt, &table.iter().len(), &0);
        let first = spawn(rt, &mut table, 0);
        let second = spawn(rt, &mut table, 1);
        given(rt, table.set(first, 7));
        given(rt, table.set(second, 9));
        assert_same(rt, &table.iter().len(), &2);
        assert_same(rt, &greatest(&table), &9);
        given(rt, table.despawn(second));
        assert_same(rt, &greatest(&table), &7);
        is_only(rt, &table, first);
        assert_same(rt, &taken_out(&mut table, second), &None);
        assert_same(rt, &taken_out(&mut table, first), &Some(7));
        assert_same(rt, &table.len(), &0);
    }
}

#[test]
fn live_entities_and_stale_ones(rt: HostRuntime) {
    play::<u64, StaleIsTold>(&rt, rt.alloc(), &StaleIsTold);
    play_at_ticket::<u64, AnEntityGoes>(&rt, rt.alloc(), u64::MAX, &AnEntityGoes);
    play::<u64, LiveOnesAreGoneOver>(&rt, rt.alloc(), &LiveOnesAreGoneOver);
}

/// Entities of which some have a component, and some of these go.
struct ComponentsAreSwept;

impl Scene<u64> for ComponentsAreSwept {
    fn play<R: Abort, S: Storage<u64> + Drop>(&self, rt: &R, alloc: Global, store: S) {
        let mut entities = entities_over(rt, alloc, store);
        let mut components = ComponentTable::new(alloc, &entities);
        let first = spawn(rt, &mut entities, 0);
        let second = spawn(rt, &mut entities, 1);
        let third = spawn(rt, &mut entities, 2);
        give(rt, &mut components, first, 10);
        give(rt, &mut components, third, 12);
        // The second has none: it is passed over.
        goes_over(rt, &components, &[(first, 10), (third, 12)]);
        given(rt, entities.set(third, 2));
        joins(
            rt,
            &entities,
            &components,
            &[(first, 0, 10), (third, 2, 12)],
        );
        assert!(rt; !within_limits(&entities, &components));
        given(rt, entities.despawn(third));
        has(rt, &components, third, Some(12));
        joins(rt, &entities, &components, &[(first, 0, 10)]);
        given(rt, entities.set(first, 10));
        assert!(rt; within_limits(&entities, &components));
        given(rt, despawned_bare(&mut entities, &mut components, second));
        goes_over(rt, &components, &[(first, 10)]);
        has(rt, &components, third, None);
        assert!(rt; despawned_bare(&mut entities, &mut components, second).is_err());
        given(rt, despawned_bare(&mut entities, &mut components, first));
        goes_over(rt, &components, &[]);
    }
}

/// Sees what components there are, in order.
fn goes_over(rt: &impl Abort, table: &ComponentTable<u64, u64>, wanted: &[(Entity<u64>, u64)]) {
    assert_same(rt, &table.len(), &wanted.len());
    assert_same(rt, &table.iter().len(), &wanted.len());
    let mut rest = wanted;
    for (entity, component) in table.iter() {
        let Some(((of, number), others)) = rest.split_first() else {
            assert!(rt; false);
            return;
        };
        assert_same(rt, &entity, of);
        assert_same(rt, component, number);
        rest = others;
    }
    assert!(rt; rest.is_empty());
}

/// Sees which live entities have a component, with both, in order.
fn joins<E: Storage<u64>>(
    rt: &impl Abort,
    entities: &EntityTable<u64, E>,
    components: &ComponentTable<u64, u64>,
    wanted: &[(Entity<u64>, u64, u64)],
) {
    let mut rest = wanted;
    for (entity, element, component) in components.join(entities) {
        let Some((of, others)) = rest.split_first() else {
            assert!(rt; false);
            return;
        };
        assert_same(rt, &(entity, *element, *component), of);
        rest = others;
    }
    assert!(rt; rest.is_empty());
}

#[test]
fn components_follow_their_entities(rt: HostRuntime) {
    play::<u64, ComponentsFollow>(&rt, rt.alloc(), &ComponentsFollow);
    play::<u64, ComponentsAreSwept>(&rt, rt.alloc(), &ComponentsAreSwept);
}

/// Elements and components that calls change in passing, after an entity went.
struct EachIsChanged;

impl Scene<u64> for EachIsChanged {
    fn play<R: Abort, S: Storage<u64> + Drop>(&self, rt: &R, alloc: Global, store: S) {
        let mut entities = entities_over(rt, alloc, store);
        let mut places = ComponentTable::new(alloc, &entities);
        let mut speeds = ComponentTable::new(alloc, &entities);
        let first = spawn(rt, &mut entities, 0);
        let second = spawn(rt, &mut entities, 1);
        let third = spawn(rt, &mut entities, 2);
        give(rt, &mut places, first, 10);
        give(rt, &mut places, third, 30);
        give(rt, &mut speeds, second, 2);
        give(rt, &mut speeds, third, 3);
        given(rt, entities.despawn(first));
        age_all(&mut entities);
        assert_same(rt, &entities.get(third).copied().ok(), &Some(1));
        raise_all(&mut places);
        move_all(&mut places, &mut speeds);
        goes_over(rt, &places, &[(first, 11), (third, 34)]);
        goes_over(rt, &speeds, &[(second, 2), (third, 3)]);
        places.clear();
        assert!(rt; places.is_empty());
        goes_over(rt, &places, &[]);
    }
}

#[test]
fn each_element_and_component_is_changed(rt: HostRuntime) {
    play::<u64, EachIsChanged>(&rt, rt.alloc(), &EachIsChanged);
}

/// An entity that gets a component, or changes it, by a handle of another table.
struct AForeignHandleGivesNothing;

impl Scene<u64> for AForeignHandleGivesNothing {
    fn play<R: Abort, S: Storage<u64> + Drop>(&self, rt: &R, alloc: Global, store: S) {
        let mut entities = entities_over(rt, alloc, store);
        let mut components = ComponentTable::new(alloc, &entities);
        let others: Store<u64, LastFirst> = Store::new(alloc, 7);
        let mut others = entities_over(rt, alloc, others);
        let own = spawn(rt, &mut entities, 0);
        let foreign = spawn(rt, &mut others, 1);
        give(rt, &mut components, own, 11);
        let stale = Stale { created_at: None };
        let told = renamed(&entities, &mut components, foreign, 12);
        assert!(rt; told == Err(AttachError::Stale(stale)));
        assert!(rt;
            components
                .insert(foreign, 13)
                .is_err_and(|refusal| refusal.value == 13)
        );
        assert_same(rt, &raised(&mut components, foreign), &None);
        assert_same(rt, &entities.created_at(own), &Some(made_at(0)));
        assert_same(rt, &entities.created_at(foreign), &None);
        assert_same(rt, &add(rt, &mut entities, foreign, 1), &Err(stale));
        assert_same(rt, &raised(&mut components, own), &Some(11));
        assert!(rt; !handed_over(&mut components, foreign, own));
        assert!(rt; handed_over(&mut components, own, own));
        has(rt, &components, own, Some(12));
    }
}

#[test]
fn a_gone_handle_or_a_foreign_one_gives_no_component(rt: HostRuntime) {
    play::<u64, AGoneHandleGivesNothing>(&rt, rt.alloc(), &AGoneHandleGivesNothing);
    play::<u64, AForeignHandleGivesNothing>(&rt, rt.alloc(), &AForeignHandleGivesNothing);
}
