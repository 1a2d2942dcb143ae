//! What is dropped by documents, and by tables of entities and of components: values that are replaced,
//! removed or returned. Each is counted by what std's `Rc` counts.

use crate::counted::{Counted, another, assert_count, let_go, new_counted};
use crate::document_acts::{add, document_over};
use crate::entity_acts::{entities_over, give, made_at, spawn};
use crate::expected::{assert_same, given};
use crate::fresh::{Scene, play};
use document_tree::{Document, Place};
use entity_table::{ComponentTable, Entity, EntityTable};
use generational_box::Storage;
use std::alloc::Global;
use std::process::Abort;

/// Makes another place of a part.
fn repeat<S: Storage<u32>>(
    rt: &impl Abort,
    document: &mut Document<Counted, S>,
    place: Place,
) -> Place {
    document.repeat(place).expect(rt, "a place")
}

/// Sets a part's content.
fn set<S: Storage<u32>>(
    rt: &impl Abort,
    document: &mut Document<Counted, S>,
    place: Place,
    content: Counted,
) {
    given(rt, document.set(place, content));
}

/// Points a place to another's part.
fn exchange<S: Storage<u32>>(
    rt: &impl Abort,
    document: &mut Document<Counted, S>,
    place: Place,
    other: Place,
) {
    given(rt, document.exchange(place, other));
}

/// Ends a place.
fn remove<S: Storage<u32>>(rt: &impl Abort, document: &mut Document<Counted, S>, place: Place) {
    given(rt, document.remove(place));
}

/// A part's content that is set twice.
struct ContentsGo;

impl Scene<u32> for ContentsGo {
    fn play<R: Abort, S: Storage<u32> + Drop>(&self, rt: &R, alloc: Global, store: S) {
        let mut document = document_over(rt, alloc, store);
        let first = new_counted(rt, alloc);
        let second = new_counted(rt, alloc);
        let place = add(rt, &mut document, another(rt, &first));
        set(rt, &mut document, place, another(rt, &second));
        assert_count(rt, &first, 1);
        set(rt, &mut document, place, another(rt, &first));
        assert_count(rt, &second, 1);
    }
}

/// A part whose places go, the last by an exchange, and another whose places are removed.
struct PartsGo;

impl Scene<u32> for PartsGo {
    fn play<R: Abort, S: Storage<u32> + Drop>(&self, rt: &R, alloc: Global, store: S) {
        let mut document = document_over(rt, alloc, store);
        let old = new_counted(rt, alloc);
        let new = new_counted(rt, alloc);
        let first = add(rt, &mut document, another(rt, &old));
        let second = repeat(rt, &mut document, first);
        let third = add(rt, &mut document, another(rt, &new));
        exchange(rt, &mut document, first, third);
        assert_count(rt, &old, 2);
        exchange(rt, &mut document, second, third);
        assert_count(rt, &old, 1);
        remove(rt, &mut document, third);
        remove(rt, &mut document, first);
        assert_count(rt, &new, 2);
        remove(rt, &mut document, second);
        assert_count(rt, &new, 1);
    }
}

#[test]
fn contents_and_parts_of_a_document(rt: HostRuntime) {
    play::<u32, ContentsGo>(&rt, rt.alloc(), &ContentsGo);
    play::<u32, PartsGo>(&rt, rt.alloc(), &PartsGo);
}

/// A component that another takes the place of, and one that is removed.
fn components_go(
    rt: &impl Abort,
    alloc: Global,
    components: &mut ComponentTable<u64, Counted>,
    entity: Entity<u64>,
) {
    let first = new_counted(rt, alloc);
    let second = new_counted(rt, alloc);
    give(rt, components, entity, another(rt, &first));
    give(rt, components, entity, another(rt, &second));
    assert_count(rt, &first, 1);
    assert_count(rt, &second, 2);
    assert!(rt; components.remove(entity));
    assert_count(rt, &second, 1);
}

/// A component that is returned. It is dropped once, by the caller that has it then.
fn components_come_back(
    rt: &impl Abort,
    alloc: Global,
    components: &mut ComponentTable<u64, Counted>,
    entity: Entity<u64>,
) {
    let value = new_counted(rt, alloc);
    give(rt, components, entity, another(rt, &value));
    let taken = components.take(entity).expect(rt, "a component");
    assert_count(rt, &value, 2);
    let_go(taken);
    assert_count(rt, &value, 1);
    assert!(rt; components.take(entity).is_none());
}

/// A component that outlives its entity, until the next of the slot gets one.
fn left_ones_go<S: Storage<u64>>(
    rt: &impl Abort,
    alloc: Global,
    entities: &mut EntityTable<u64, S>,
    components: &mut ComponentTable<u64, Counted>,
) {
    let left = new_counted(rt, alloc);
    let first = spawn(rt, entities, 0);
    give(rt, components, first, another(rt, &left));
    given(rt, entities.despawn(first));
    assert_count(rt, &left, 2);
    let second = spawn(rt, entities, 1);
    give(rt, components, second, new_counted(rt, alloc));
    assert_count(rt, &left, 1);
}

/// All, of a table over this store.
struct BothGo;

impl Scene<u64> for BothGo {
    fn play<R: Abort, S: Storage<u64> + Drop>(&self, rt: &R, alloc: Global, store: S) {
        let mut entities = entities_over(rt, alloc, store);
        let mut components = ComponentTable::new(alloc, &entities);
        let entity = spawn(rt, &mut entities, 2);
        components_go(rt, alloc, &mut components, entity);
        components_come_back(rt, alloc, &mut components, entity);
        left_ones_go(rt, alloc, &mut entities, &mut components);
    }
}

/// An entity that is taken with its element, twice.
struct ElementsComeBack;

impl Scene<Counted> for ElementsComeBack {
    fn play<R: Abort, S: Storage<Counted> + Drop>(&self, rt: &R, alloc: Global, store: S) {
        assert!(rt; store.is_fresh());
        let mut table = EntityTable::new(alloc, store);
        let value = new_counted(rt, alloc);
        let entity = given(rt, table.spawn(another(rt, &value), made_at(0)));
        let taken = table.take(entity).expect(rt, "an element");
        assert_count(rt, &value, 2);
        let_go(taken);
        assert_count(rt, &value, 1);
        assert!(rt; table.take(entity).is_err());
        assert_same(rt, &table.len(), &0);
    }
}

#[test]
fn components_and_elements_of_entities(rt: HostRuntime) {
    play::<u64, BothGo>(&rt, rt.alloc(), &BothGo);
    play::<Counted, ElementsComeBack>(&rt, rt.alloc(), &ElementsComeBack);
}
