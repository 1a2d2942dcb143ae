//! Entities and components.

use crate::laps::{Laps, mix};
use entity_table::{ComponentTable, Entity, EntityTable};
use generational_box::{Location, Storage};
use std::alloc::Global;
use std::time::Clock;

/// Makes the operations over n entities of a table, and returns a sum of what was seen. None if a call
/// wasn't carried out.
pub(crate) fn run<R: Clock, S: Storage<u64>>(
    rt: &R,
    alloc: Global,
    laps: &mut Laps,
    table: &mut EntityTable<u64, S>,
    order: &Vec<usize>,
) -> Option<u64> {
    let mut entities = Vec::new(alloc);
    let mut seen: u64 = 0;
    laps.begin(rt)?;
    spawn(table, &mut entities, order.len())?;
    laps.end(rt, "spawn")?;
    for _ in 0..10 {
        seen = get(table, &entities, order, seen)?;
    }
    laps.end(rt, "get")?;
    for _ in 0..10 {
        seen = iter(table, seen);
    }
    laps.end(rt, "iter")?;
    for _ in 0..10 {
        update(table, &entities, order)?;
    }
    laps.end(rt, "update")?;
    for _ in 0..5 {
        replace(table, &mut entities, order)?;
    }
    laps.end(rt, "replace")?;
    seen = run_components(rt, alloc, laps, table, &entities, order, seen)?;
    despawn(table, &entities, order)?;
    laps.end(rt, "despawn")?;
    Some(seen)
}

// The operations over a component of each entity.
fn run_components<R: Clock, S: Storage<u64>>(
    rt: &R,
    alloc: Global,
    laps: &mut Laps,
    table: &EntityTable<u64, S>,
    entities: &Vec<Entity<u64>>,
    order: &Vec<usize>,
    start: u64,
) -> Option<u64> {
    let mut parts = ComponentTable::new(alloc, table);
    let mut seen = start;
    attach(&mut parts, entities)?;
    laps.end(rt, "attach")?;
    for _ in 0..10 {
        seen = part(&parts, entities, order, seen)?;
    }
    laps.end(rt, "part")?;
    for _ in 0..10 {
        seen = parts_iter(&parts, seen);
    }
    laps.end(rt, "parts_iter")?;
    for _ in 0..10 {
        seen = join(&parts, table, seen);
    }
    laps.end(rt, "join")?;
    detach(&mut parts, entities, order)?;
    laps.end(rt, "detach")?;
    Some(seen)
}

/// Where things are made.
#[inline(always)]
fn here() -> Location {
    Location::new("entities.rt", 9, 14)
}

#[inline(never)]
fn spawn<S: Storage<u64>>(
    table: &mut EntityTable<u64, S>,
    entities: &mut Vec<Entity<u64>>,
    n: usize,
) -> Option<()> {
    for i in 0..n {
        entities.push(table.spawn(i as u64, here()).ok()?).ok()?;
    }
    Some(())
}

#[inline(never)]
fn get<S: Storage<u64>>(
    table: &EntityTable<u64, S>,
    entities: &Vec<Entity<u64>>,
    order: &Vec<usize>,
    start: u64,
) -> Option<u64> {
    let mut seen = start;
    for i in order {
        seen = mix(seen, *table.get(*entities.get(*i)?).ok()?);
    }
    Some(seen)
}

#[inline(never)]
fn iter<S: Storage<u64>>(table: &EntityTable<u64, S>, start: u64) -> u64 {
    let mut seen = start;
    for (_, number) in table.iter() {
        seen = mix(seen, *number);
    }
    seen
}

#[inline(never)]
fn update<S: Storage<u64>>(
    table: &mut EntityTable<u64, S>,
    entities: &Vec<Entity<u64>>,
    order: &Vec<usize>,
) -> Option<()> {
    for i in order {
        table
            .update(
                *entities.get(*i)?,
                |number: &mut u64| *number = number.wrapping_add(1),
            )
            .ok()?;
    }
    Some(())
}

#[inline(never)]
fn replace<S: Storage<u64>>(
    table: &mut EntityTable<u64, S>,
    entities: &mut Vec<Entity<u64>>,
    order: &Vec<usize>,
) -> Option<()> {
    for i in order {
        let entity = entities.get_mut(*i)?;
        table.despawn(*entity).ok()?;
        *entity = table.spawn(*i as u64, here()).ok()?;
    }
    Some(())
}

#[inline(never)]
fn attach(parts: &mut ComponentTable<u64, u64>, entities: &Vec<Entity<u64>>) -> Option<()> {
    for entity in entities {
        parts.insert(*entity, 7).ok()?;
    }
    Some(())
}

#[inline(never)]
fn part(
    parts: &ComponentTable<u64, u64>,
    entities: &Vec<Entity<u64>>,
    order: &Vec<usize>,
    start: u64,
) -> Option<u64> {
    let mut seen = start;
    for i in order {
        seen = mix(seen, *parts.get(*entities.get(*i)?)?);
    }
    Some(seen)
}

#[inline(never)]
fn parts_iter(parts: &ComponentTable<u64, u64>, start: u64) -> u64 {
    let mut seen = start;
    for (_, number) in parts.iter() {
        seen = mix(seen, *number);
    }
    seen
}

#[inline(never)]
fn join<S: Storage<u64>>(
    parts: &ComponentTable<u64, u64>,
    table: &EntityTable<u64, S>,
    start: u64,
) -> u64 {
    let mut seen = start;
    for (_, number, part) in parts.join(table) {
        seen = mix(seen, *number).wrapping_add(*part);
    }
    seen
}

#[inline(never)]
fn detach(
    parts: &mut ComponentTable<u64, u64>,
    entities: &Vec<Entity<u64>>,
    order: &Vec<usize>,
) -> Option<()> {
    for i in order {
        if !parts.remove(*entities.get(*i)?) {
            return None;
        }
    }
    Some(())
}

#[inline(never)]
fn despawn<S: Storage<u64>>(
    table: &mut EntityTable<u64, S>,
    entities: &Vec<Entity<u64>>,
    order: &Vec<usize>,
) -> Option<()> {
    for i in order {
        table.despawn(*entities.get(*i)?).ok()?;
    }
    Some(())
}
