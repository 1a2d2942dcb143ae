//! Mutated files of tables of entities: each is an error, or is loaded as its own image and rows say.

use crate::mutating::Outcome;
use crate::reloaded::{
    Cell, Files, Kind, SavedId, adopted, assert_refused_or_loaded, cells_in, files_of, given,
    image_in, made_at, outcome_of, rows_in, saved_id, shared_files, store_of,
};
use entity_table::{ComponentTable, EntityParts, EntityTable, RowFault, Sites};
use generational_box::{AnyStorage, GenerationalBoxId, UnsyncStorage};
use std::alloc::Global;
use std::process::Abort;

type Kept = UnsyncStorage<u64>;

type Row = (SavedId, u64);

type Table = EntityTable<u64, Kept>;

type Names = ComponentTable<u64, u64>;

/// The files of a table with four entities, of which one has the slot of one that is gone, and of a slot
/// that is free. Three have a component.
fn saved(rt: &impl Abort, alloc: Global) -> Files {
    let mut table = EntityTable::new(alloc, Kept::new(alloc, 3));
    let mut names = ComponentTable::new(alloc, &table);
    let gone = given(rt, table.spawn(9, made_at(9)));
    let first = given(rt, table.spawn(10, made_at(1)));
    let last = given(rt, table.spawn(11, made_at(2)));
    let free = given(rt, table.spawn(12, made_at(3)));
    given(rt, table.despawn(gone));
    let again = given(rt, table.spawn(13, made_at(4)));
    given(rt, table.despawn(free));
    given(rt, names.attach(&table, first, 50));
    given(rt, names.attach(&table, last, 51));
    given(rt, names.attach(&table, again, 52));
    let rows = given(rt, names.into_parts(alloc).map_err(|_| ()));
    let rows = rows.iter().map(|(id, name)| (saved_id(*id), *name));
    let rows: Vec<Row> = given(rt, rows.collect(alloc));
    files_of(rt, alloc, table.store(), &rows)
}

/// Asserts that a table has exactly these cells and components.
fn assert_has(
    rt: &impl Abort,
    table: &Table,
    names: &Names,
    cells: &[Cell<u64>],
    rows: &[(GenerationalBoxId, u64)],
) {
    assert!(rt; table.len() == cells.len() && names.len() == rows.len());
    for (id, value, location) in cells {
        let entity = table.find(*id).expect(rt, "an entity");
        assert!(rt; table.get(entity).ok() == Some(value));
        assert!(rt; table.created_at(entity) == Some(*location));
    }
    for (id, name) in rows {
        let entity = table.find(*id).expect(rt, "an entity");
        assert!(rt; names.get(entity) == Some(name));
    }
}

/// Loads files. What was loaded is what they say.
fn loaded(rt: &impl Abort, alloc: Global, files: &Files) -> Result<(), Outcome> {
    let image = image_in(rt, alloc, files.image.as_slice())?;
    let rows: Vec<Row> = rows_in(rt, alloc, files.rows.as_slice())?;
    let (number, cells) = (image.number, cells_in(rt, alloc, &image));
    let (store, ids) = store_of(rt, alloc, image)?;
    let sites = Sites::new(alloc);
    let table = match EntityTable::from_parts(alloc, EntityParts { store, sites }) {
        Ok(table) => table,
        Err(refusal) => return Err(outcome_of(rt, refusal.cause)),
    };
    let mut moved = Vec::new(alloc);
    for (id, name) in rows {
        given(rt, moved.push((adopted(&ids, number, id)?, name)));
    }
    let copy = given(rt, Vec::from_slice(alloc, moved.as_slice()));
    match ComponentTable::from_parts(alloc, &table, moved) {
        Ok(names) => {
            assert_has(rt, &table, &names, cells.as_slice(), copy.as_slice());
            Ok(())
        }
        Err(refusal) => match refusal.cause {
            RowFault::OutOfMemory => panic!(rt; "memory"),
            RowFault::Stale(_) | RowFault::Order(_) => Err(Outcome::Ids),
        },
    }
}

struct Tables;

impl Kind for Tables {
    fn load<R: Abort>(&self, rt: &R, alloc: Global, files: &Files) -> Result<(), Outcome> {
        loaded(rt, alloc, files)
    }
}

#[test]
fn mutated_tables_are_refused_or_loaded(rt: HostRuntime) {
    let alloc = rt.alloc();
    let (files, shared) = (saved(&rt, alloc), shared_files(&rt, alloc));
    assert_refused_or_loaded(&rt, &Tables, &files, &shared);
}
