//! What a worker does round after round.

ghost use Rattle.std.specs.Prelude.{◌<◌};

use crate::calls::Calls;
use generational_box::{GenerationalBox, Location, Owner};
use std::sync::Wait;

/// Runs so many rounds, and returns how many calls they made; None if a call wasn't carried out. A
/// checkpoint, which isn't counted, comes after each so many rounds, and none if that is 0. For `Keeps`
/// all checkpoints come at the end, so many, each followed by another round. Of `Locations` that number says
/// at how many locations boxes are read.
pub(crate) fn run<S: Calls>(
    store: &mut S,
    rt: &impl Wait,
    list: List,
    rounds: u64,
    between: u64,
) -> Option<u64> {
    match list {
        List::Keeps => return keep(store, rt, rounds, between),
        List::Locations(forgets) => return read_at_locations(store, rt, rounds, between, forgets),
        _ => {}
    }
    let mut calls = 0u64;
    let mut since = 0u64;
    for value in 0..rounds {
        if since == between && between != 0 {
            if !store.checkpoint(rt) {
                return None;
            }
            since = 0;
        }
        since = since.wrapping_add(1);
        let made = match list {
            List::Reads => reading_round(store, rt, value)?,
            List::Together => store.reads_together(rt, value)?,
            List::Writes => writing_round(store, rt, value)?,
            List::Keeps | List::Locations(_) | List::Drawn(_) => return None,
        };
        calls = calls.wrapping_add(made);
    }
    Some(calls)
}

/// Which calls a round makes.
#[derive(Clone, Copy)]
pub(crate) enum List {
    /// A box is made, read twice and ended, and read once more.
    Reads,
    /// The same, under one lock.
    Together,
    /// An owner's boxes are made, written and pointed elsewhere, and end with the owner.
    Writes,
    /// A box is made, and stays.
    Keeps,
    /// A box that stays is read, at each of many locations in turn, and then at the last ones; with a
    /// checkpoint after the first turn, or with none.
    Locations(bool),
    /// Calls that are drawn from a number, which only a shared store has.
    Drawn(u64),
}

// 9 calls, 7 of which are steps: a view isn't one.
fn reading_round<S: Calls>(store: &mut S, rt: &impl Wait, value: u64) -> Option<u64> {
    let made = store.leak(rt, value)?;
    for _ in 0..2u64 {
        let guard = store.read(rt, made)?;
        let same = store.opens(rt, &guard, value);
        let known = store.release_read(rt, guard);
        if !(same && known) {
            return None;
        }
    }
    if !store.end(rt, made) {
        return None;
    }
    match store.read(rt, made) {
        Some(guard) => {
            store.release_read(rt, guard);
            None
        }
        None => Some(9),
    }
}

// Makes so many boxes, and then so many checkpoints, each followed by another box.
fn keep<S: Calls>(store: &mut S, rt: &impl Wait, boxes: u64, checkpoints: u64) -> Option<u64> {
    for value in 0..boxes {
        store.leak(rt, value)?;
    }
    for value in 0..checkpoints {
        if !store.checkpoint(rt) {
            return None;
        }
        store.leak(rt, value)?;
    }
    Some(boxes.wrapping_add(checkpoints))
}

// How many of the last locations calls are made at once each location has come.
const LATE: u64 = 500;

// Makes a box and reads it so many times, at so many locations. If the history is to forget them, a
// checkpoint comes once each location has come.
fn read_at_locations<S: Calls>(
    store: &mut S,
    rt: &impl Wait,
    rounds: u64,
    locations: u64,
    forgets: bool,
) -> Option<u64> {
    let made = store.leak(rt, 0)?;
    for round in 0..rounds {
        if forgets && round == locations && !store.checkpoint(rt) {
            return None;
        }
        store.move_to(location_of_round(round, locations.max(1)));
        let guard = store.read(rt, made)?;
        if !store.release_read(rt, guard) {
            return None;
        }
    }
    Some(rounds.wrapping_mul(2).wrapping_add(1))
}

// Where the calls of a round are made: at a location of its own, and once each has come at one of the last.
fn location_of_round(round: u64, locations: u64) -> Location
    requires { 0 < locations }
{
    let number = if round < locations {
        round
    } else {
        locations - 1 - round % locations.min(LATE)
    };
    let line = (number % 4_294_967_296) as u32;
    Location::new("locations.rs", line, 1)
}

// 12 calls, each of which is a step.
fn writing_round<S: Calls>(store: &mut S, rt: &impl Wait, value: u64) -> Option<u64> {
    let owner = store.owner(rt)?;
    let carried_out = write_owned(store, rt, &owner, value)
        && point_elsewhere(store, rt, &owner, value).is_some();
    if store.release_owner(rt, owner) && carried_out {
        Some(12)
    } else {
        None
    }
}

// Makes a box of the owner's and writes it.
fn write_owned<S: Calls>(store: &mut S, rt: &impl Wait, owner: &Owner, value: u64) -> bool {
    let Some(made) = store.insert(rt, owner, value) else {
        return false;
    };
    let Some(mut guard) = store.write(rt, made) else {
        return false;
    };
    guard.replace(value.wrapping_add(1));
    store.release_write(rt, guard)
}

// Makes a shared value of the owner's and another, and lets the first's reference lead to the other.
fn point_elsewhere<S: Calls>(
    store: &mut S,
    rt: &impl Wait,
    owner: &Owner,
    value: u64,
) -> Option<GenerationalBox<u64>> {
    let owned = store.insert_rc(rt, owner, value)?;
    let other = store.leak_rc(rt, value)?;
    let more = store.leak_reference(rt, other)?;
    let carried_out = store.point_to(rt, owned, other)
        && store.set(rt, owned, value)
        && store.end(rt, more)
        && store.end(rt, other);
    carried_out.then_some(owned)
}
