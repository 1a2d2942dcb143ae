//! Tables of entities and components that are taken apart and made again, and stores and rows of which no
//! table can be made.

use crate::expected::{assert_prints, assert_same, drawn, ok};
use crate::fresh::{Saves, Scene, play};
use crate::scene::{begin_read, leak, leak_rc};
use entity_table::{
    CellFault, ComponentTable, Entity, EntityParts, EntityTable, HandedBack, RowFault, Sites,
};
use example_saving::made_again;
use generational_box::{AnyStorage, GenerationalBoxId, Location, Storage, box_id};
use std::alloc::Global;
use std::process::Abort;

type Rows = Vec<(GenerationalBoxId, u64)>;

/// Where an entity is made: each at a line of its own.
fn made_at(line: u32) -> Location {
    Location::new("e.rs", line, 1)
}

/// A table over a new store.
fn table_over<S: Storage<u64>>(rt: &impl Abort, alloc: Global, store: S) -> EntityTable<u64, S> {
    assert!(rt; store.is_fresh());
    EntityTable::new(alloc, store)
}

/// Spawns an entity at a line.
fn spawn<S: Storage<u64>>(
    rt: &impl Abort,
    table: &mut EntityTable<u64, S>,
    element: u64,
    line: u32,
) -> Entity<u64> {
    ok(rt, table.spawn(element, made_at(line)))
}

/// Gives an entity a component.
fn give(
    rt: &impl Abort,
    names: &mut ComponentTable<u64, u64>,
    entity: Entity<u64>,
    component: u64,
) {
    ok(rt, names.insert(entity, component));
}

fn despawn<S: Storage<u64>>(rt: &impl Abort, table: &mut EntityTable<u64, S>, entity: Entity<u64>) {
    ok(rt, table.despawn(entity));
}

/// The entities of a filled table that tests name.
#[derive(Clone, Copy)]
struct Named {
    gone: Entity<u64>,
    first: Entity<u64>,
    second: Entity<u64>,
}

/// Fills a table with two entities, of which the first has taken the slot of one that is gone. The second
/// has a component.
fn fill<S: Storage<u64>>(
    rt: &impl Abort,
    table: &mut EntityTable<u64, S>,
    names: &mut ComponentTable<u64, u64>,
) -> Named {
    let gone = spawn(rt, table, 0, 0);
    let second = spawn(rt, table, 10, 1);
    give(rt, names, gone, 40);
    give(rt, names, second, 50);
    despawn(rt, table, gone);
    let first = spawn(rt, table, 20, 2);
    Named {
        gone,
        first,
        second,
    }
}

/// Asserts an entity's element, and where it was made.
fn assert_element<S: Storage<u64>>(
    rt: &impl Abort,
    table: &EntityTable<u64, S>,
    id: GenerationalBoxId,
    element: Option<u64>,
    line: u32,
) {
    match table.find(id) {
        Some(entity) => {
            assert_same(rt, &table.get(entity).ok().copied(), &element);
            assert_made_at(rt, table, entity, line);
        }
        None => assert_same(rt, &element, &None),
    }
}

/// Asserts where an entity was made.
fn assert_made_at<S: Storage<u64>>(
    rt: &impl Abort,
    table: &EntityTable<u64, S>,
    entity: Entity<u64>,
    line: u32,
) {
    assert_same(rt, &table.created_at(entity), &Some(made_at(line)));
}

/// Asserts that a table has a filled one's entities.
fn assert_entities<S: Storage<u64>>(rt: &impl Abort, table: &EntityTable<u64, S>, named: Named) {
    assert_element(rt, table, named.gone.id(), None, 0);
    assert_element(rt, table, named.first.id(), Some(20), 2);
    assert_element(rt, table, named.second.id(), Some(10), 1);
    assert_made_at(rt, table, named.gone, 0);
    assert_made_at(rt, table, named.second, 1);
}

/// Asserts that an entity alone has a component.
fn assert_component(
    rt: &impl Abort,
    names: &ComponentTable<u64, u64>,
    entity: Entity<u64>,
    component: u64,
) {
    assert_same(rt, &names.get(entity).copied(), &Some(component));
    assert_same(rt, &names.len(), &1);
}

struct MadeAgain;

impl Scene<u64> for MadeAgain {
    fn play<R: Abort, S: Storage<u64> + Saves<u64> + Drop>(&self, rt: &R, alloc: Global, store: S) {
        let mut table = table_over(rt, alloc, store);
        let mut names = ComponentTable::new(alloc, &table);
        let named = fill(rt, &mut table, &mut names);
        let (table, names) = ok(rt, made_again(alloc, table, names));
        assert_entities(rt, &table, named);
        assert_component(rt, &names, named.second, 50);
    }
}

#[test]
fn a_table_that_was_taken_apart_is_made_again(rt: HostRuntime) {
    play::<u64, MadeAgain>(&rt, rt.alloc(), 3, &MadeAgain);
}

/// Asserts that no table is made of a store, and returns the store.
fn comes_back<S: Storage<u64> + Drop>(
    rt: &impl Abort,
    alloc: Global,
    store: S,
    fault: CellFault,
) -> S {
    let live = store.len();
    let sites = Sites::new(alloc);
    let answer = EntityTable::from_parts(alloc, EntityParts { store, sites });
    let Err(HandedBack { value, cause }) = answer else {
        panic!(rt; "a table was made")
    };
    assert_same(rt, &cause, &fault);
    assert_same(rt, &value.store.len(), &live);
    value.store
}

/// A shared value.
struct ASharedValue;

impl Scene<u64> for ASharedValue {
    fn play<R: Abort, S: Storage<u64> + Saves<u64> + Drop>(&self, rt: &R, alloc: Global, store: S) {
        let mut store = store;
        leak(rt, &mut store, 1);
        leak_rc(rt, &mut store, 2);
        comes_back(rt, alloc, store, CellFault::Shared(1));
    }
}

/// A value that is read.
struct AValueThatIsRead;

impl Scene<u64> for AValueThatIsRead {
    fn play<R: Abort, S: Storage<u64> + Saves<u64> + Drop>(&self, rt: &R, alloc: Global, store: S) {
        let mut store = store;
        leak(rt, &mut store, 1);
        let second = leak(rt, &mut store, 2);
        let guard = begin_read(rt, &mut store, second);
        let mut store = comes_back(rt, alloc, store, CellFault::Borrowed(1));
        assert!(rt; guard.release(&mut store));
    }
}

/// Faults of cells, and what they print.
const CELL_FAULTS: [(CellFault, &str); 3] = [
    (CellFault::Borrowed(1), "the value of slot 1 is borrowed"),
    (
        CellFault::Shared(1),
        "slot 1 has a shared value or a reference",
    ),
    (CellFault::OutOfMemory, "out of memory"),
];

#[test]
fn stores_that_no_table_has_come_back(rt: HostRuntime) {
    let alloc = rt.alloc();
    play::<u64, ASharedValue>(&rt, alloc, 1, &ASharedValue);
    play::<u64, AValueThatIsRead>(&rt, alloc, 1, &AValueThatIsRead);
    for (fault, text) in CELL_FAULTS {
        assert_prints(&rt, alloc, &fault, text);
    }
}

/// Asserts that no table is made of rows, which come back.
fn rows_come_back<S: Storage<u64>>(
    rt: &impl Abort,
    alloc: Global,
    table: &EntityTable<u64, S>,
    rows: &[(GenerationalBoxId, u64)],
    fault: RowFault,
) {
    let copy: Rows = Vec::from_slice(alloc, rows).expect(rt, "memory");
    let Err(HandedBack { value, cause }) = ComponentTable::from_parts(alloc, table, copy) else {
        panic!(rt; "a table was made")
    };
    assert_same(rt, &cause, &fault);
    assert!(rt; value.as_slice() == rows);
}

/// A filled table.
fn filled<S: Storage<u64>>(
    rt: &impl Abort,
    alloc: Global,
    store: S,
) -> (EntityTable<u64, S>, Named) {
    let mut table = table_over(rt, alloc, store);
    let mut names = ComponentTable::new(alloc, &table);
    let named = fill(rt, &mut table, &mut names);
    (table, named)
}

struct FaultyRows;

impl Scene<u64> for FaultyRows {
    fn play<R: Abort, S: Storage<u64> + Saves<u64> + Drop>(&self, rt: &R, alloc: Global, store: S) {
        let (table, named) = filled(rt, alloc, store);
        let (first, second) = (named.first.id(), named.second.id());
        let stale = [(first, 1), (named.gone.id(), 2)];
        rows_come_back(rt, alloc, &table, &stale, RowFault::Stale(1));
        let foreign = [(box_id(9, 0, first.generation), 1)];
        rows_come_back(rt, alloc, &table, &foreign, RowFault::Stale(0));
        let high = [(box_id(3, usize::MAX, 1), 1)];
        rows_come_back(rt, alloc, &table, &high, RowFault::Stale(0));
        let order = [(second, 1), (first, 2)];
        rows_come_back(rt, alloc, &table, &order, RowFault::Order(1));
        let twice = [(first, 1), (second, 2), (second, 3)];
        rows_come_back(rt, alloc, &table, &twice, RowFault::Order(2));
    }
}

/// Faults of rows, and what they print.
const ROW_FAULTS: [(RowFault, &str); 3] = [
    (RowFault::Stale(1), "row 1 is of no live entity"),
    (RowFault::Order(2), "row 2 isn't above the row before"),
    (RowFault::OutOfMemory, "out of memory"),
];

#[test]
fn rows_that_no_components_have_come_back(rt: HostRuntime) {
    let alloc = rt.alloc();
    play::<u64, FaultyRows>(&rt, alloc, 3, &FaultyRows);
    for (fault, text) in ROW_FAULTS {
        assert_prints(&rt, alloc, &fault, text);
    }
}

/// Up to three rows, of numbers, slots and generations that are now and then an entity's.
fn drawn_rows(rt: &impl Abort, alloc: Global, state: &mut u64) -> Rows {
    let mut rows = Vec::new(alloc);
    for _ in 0..drawn(state) % 4 {
        let number = 3 + drawn(state) % 8 / 7;
        let id = box_id(number, (drawn(state) % 3) as usize, 1 + drawn(state) % 2);
        rows.push((id, drawn(state))).expect(rt, "memory");
    }
    rows
}

/// Whether rows made a table that has exactly them, or came back.
fn has_or_returns<S: Storage<u64>>(
    alloc: Global,
    table: &EntityTable<u64, S>,
    rows: Rows,
    copy: &[(GenerationalBoxId, u64)],
) -> bool {
    match ComponentTable::from_parts(alloc, table, rows) {
        Ok(names) => {
            names.len() == copy.len()
                && copy.iter().all(|row| {
                    let entity = table.find(row.0);
                    entity.and_then(|entity| names.get(entity).copied()) == Some(row.1)
                })
        }
        Err(refusal) => refusal.value.as_slice() == copy,
    }
}

struct DrawnRows;

impl Scene<u64> for DrawnRows {
    fn play<R: Abort, S: Storage<u64> + Saves<u64> + Drop>(&self, rt: &R, alloc: Global, store: S) {
        let (table, _) = filled(rt, alloc, store);
        let mut state = 1;
        for _ in 0..100_000 {
            let rows = drawn_rows(rt, alloc, &mut state);
            let copy = Vec::from_slice(alloc, rows.as_slice()).expect(rt, "memory");
            assert!(rt; has_or_returns(alloc, &table, rows, copy.as_slice()));
        }
    }
}

#[test]
fn drawn_rows_make_a_table_or_come_back(rt: HostRuntime) {
    play::<u64, DrawnRows>(&rt, rt.alloc(), 3, &DrawnRows);
}
