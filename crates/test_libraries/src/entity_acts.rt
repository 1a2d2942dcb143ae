//! The commands of histories of tables of entities, each named like the call that it makes.
//!
//! | command                                      | reply, if not an error |
//! |----------------------------------------------|------------------------|
//! | `spawn ELEMENT`, `despawn ENTITY`            | `ok`                   |
//! | `set ENTITY ELEMENT`, `update ENTITY MORE`   | `ok`                   |
//! | `retain BOUND`, `clear`                      | `ok`                   |
//!
//! `update` adds to an element, and `retain` keeps the entities whose elements are below a number. The
//! state has each live entity, in the order of their slots, as `ENTITY=ELEMENT`.

use crate::expected::{answered, assert_same, given};
use crate::rows::{Made, Subject, Words, write_reply};
use entity_table::{ComponentTable, Entity, EntityKind, EntityTable, Stale};
use generational_box::{Location, Storage};
use std::alloc::Global;
use std::fmt::Write;
use std::process::Abort;

/// Where an entity is made: each at a line of its own, by its number.
pub(crate) fn made_at(number: usize) -> Location {
    Location::new("e.rs", u32::try_from(number).unwrap_or(0), 1)
}

/// A table of entities over a new store.
pub(crate) fn entities_over<S: Storage<u64>>(
    rt: &impl Abort,
    alloc: Global,
    store: S,
) -> EntityTable<u64, S> {
    assert!(rt; store.is_fresh());
    EntityTable::new(alloc, store)
}

/// Spawns an entity.
pub(crate) fn spawn<S: Storage<u64>>(
    rt: &impl Abort,
    table: &mut EntityTable<u64, S>,
    number: usize,
) -> Entity<u64> {
    given(rt, table.spawn(0, made_at(number)))
}

/// Gives an entity a component.
pub(crate) fn give<C: Drop>(
    rt: &impl Abort,
    table: &mut ComponentTable<u64, C>,
    entity: Entity<u64>,
    component: C,
) {
    given(rt, table.insert(entity, component));
}

/// Adds to an entity's element in place. The closure is called only if it is carried out.
pub(crate) fn add<S: Storage<u64>>(
    rt: &impl Abort,
    table: &mut EntityTable<u64, S>,
    entity: Entity<u64>,
    more: u64,
) -> Result<(), Stale> {
    let mut left = Some(more);
    let answer = table.update(entity, |element: &mut u64| {
        *element = element.wrapping_add(left.take().unwrap_or(0));
    });
    assert_same(rt, &left.is_none(), &answer.is_ok());
    answer
}

/// A table, and the entities that were spawned.
#[derive(Drop)]
pub(crate) struct Census<S: Storage<u64>> {
    alloc: Global,
    table: EntityTable<u64, S>,
    entities: Made<u64, EntityKind>,
}

impl<S: Storage<u64>> Census<S> {
    /// A table over a new store.
    pub(crate) fn new(rt: &impl Abort, alloc: Global, store: S) -> Census<S> {
        Census {
            alloc,
            table: entities_over(rt, alloc, store),
            entities: Made::new(alloc),
        }
    }

    fn spawn(&mut self, rt: &impl Abort, words: &mut Words<'_>) -> Result<(), Stale> {
        let spawned = self
            .table
            .spawn(words.number(rt), made_at(self.entities.next()));
        self.entities.add(rt, given(rt, spawned));
        Ok(())
    }

    fn despawn(&mut self, rt: &impl Abort, words: &mut Words<'_>) -> Result<(), Stale> {
        let entity = self.entities.named(rt, words);
        self.table.despawn(entity)
    }

    // Sets an element. It comes back if that fails.
    fn set(&mut self, rt: &impl Abort, words: &mut Words<'_>) -> Result<(), Stale> {
        let entity = self.entities.named(rt, words);
        let element = words.number(rt);
        answered(rt, self.table.set(entity, element), &element)
    }

    fn update(&mut self, rt: &impl Abort, words: &mut Words<'_>) -> Result<(), Stale> {
        let entity = self.entities.named(rt, words);
        add(rt, &mut self.table, entity, words.number(rt))
    }

    fn retain(&mut self, rt: &impl Abort, words: &mut Words<'_>) -> Result<(), Stale> {
        let bound = words.number(rt);
        self.table.retain(|element| *element < bound);
        Ok(())
    }

    fn clear(&mut self) -> Result<(), Stale> {
        self.table.clear();
        Ok(())
    }
}

impl<S: Storage<u64>> Subject for Census<S> {
    fn carry_out<R: Abort>(&mut self, rt: &R, words: &mut Words<'_>, text: &mut String) {
        let answer = match words.word() {
            "spawn" => self.spawn(rt, words),
            "despawn" => self.despawn(rt, words),
            "set" => self.set(rt, words),
            "update" => self.update(rt, words),
            "retain" => self.retain(rt, words),
            "clear" => self.clear(),
            _ => panic!(rt; "no such command"),
        };
        write_reply(rt, text, answer);
    }

    fn show<R: Abort>(&mut self, rt: &R, text: &mut String) {
        let list = walked(rt, self.alloc, &self.table);
        write_live(rt, &self.table, &self.entities, &list, text);
        let mut live: usize = 0;
        for (number, entity) in self.entities.all().iter().enumerate() {
            if self.table.is_alive(*entity) {
                live = live.wrapping_add(1);
            } else {
                let stale = Stale {
                    created_at: Some(made_at(number)),
                };
                assert_same(rt, &self.table.get(*entity).copied(), &Err(stale));
            }
        }
        assert_same(rt, &self.table.len(), &live);
    }
}

/// The live entities, as the walk over the table yields them with what they have.
fn walked<S: Storage<u64>>(
    rt: &impl Abort,
    alloc: Global,
    table: &EntityTable<u64, S>,
) -> Vec<Entity<u64>> {
    let mut list = Vec::new(alloc);
    for (entity, element) in table.iter() {
        assert_same(rt, &table.get(entity).copied(), &Ok(*element));
        given(rt, list.push(entity));
    }
    list
}

/// Writes the live entities, slot by slot: those of a list.
fn write_live<S: Storage<u64>>(
    rt: &impl Abort,
    table: &EntityTable<u64, S>,
    entities: &Made<u64, EntityKind>,
    list: &[Entity<u64>],
    text: &mut String,
) {
    let mut rest = list;
    for slot in 0..table.slots() {
        if let Some(entity) = table.at(slot) {
            let Some((first, others)) = rest.split_first() else {
                panic!(rt; "an entity that the walk left out")
            };
            assert_same(rt, &first.id(), &entity.id());
            write_one(rt, table, entities, entity, text);
            rest = others;
        }
    }
    assert!(rt; rest.is_empty());
}

/// Writes an entity by its number, with its element.
fn write_one<S: Storage<u64>>(
    rt: &impl Abort,
    table: &EntityTable<u64, S>,
    entities: &Made<u64, EntityKind>,
    entity: Entity<u64>,
    text: &mut String,
) {
    let number = entities.number_of(rt, entity);
    let element = given(rt, table.get(entities.at(rt, number)).copied());
    given(rt, write!(text, " {number}={element}"));
}
