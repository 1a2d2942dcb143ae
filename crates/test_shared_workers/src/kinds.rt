//! Values of two kinds in one shared store.

use crate::judge::Judge;
use crate::places::{made, read, read_later};
use generational_box::GenerationalBox;
use generational_sync::{Count, SyncStorage, Tally};
use std::sync::Wait;

/// A number or a flag.
#[derive(Clone, Copy, Debug, PartialEq)]
pub enum Entry {
    /// A number.
    Number(u64),
    /// A flag.
    Flag(bool),
}

// The opposite of a flag. A number stays as it is.
fn opposite(given: Entry) -> Entry {
    match given {
        Entry::Number(number) => Entry::Number(number),
        Entry::Flag(on) => Entry::Flag(!on),
    }
}

// Makes a box.
fn leak<A: Count, B: Count, C: Count, D: Count>(
    rt: &(impl Wait + Judge),
    store: &SyncStorage<Entry, 7, A, B, C, D>,
    tally: &mut Tally<A, B, C, D>,
    value: Entry,
) -> GenerationalBox<Entry> {
    let answer = store.leak(rt, value, made(), tally);
    rt.expect(answer.map_err(|refusal| refusal.cause), "a box")
}

// Turns a flag under a write, and leaves a number as it is.
fn toggle<A: Count, B: Count, C: Count, D: Count>(
    rt: &(impl Wait + Judge),
    store: &SyncStorage<Entry, 7, A, B, C, D>,
    tally: &mut Tally<A, B, C, D>,
    asked: GenerationalBox<Entry>,
) {
    let mut guard = rt.expect(store.try_write(rt, asked, read(), tally), "a guard");
    let next = opposite(*guard.deref());
    *guard.deref_mut() = next;
    rt.compare(&store.release_write(rt, guard, tally), &Ok(()));
}

// Asserts that a box has this value.
fn assert_has<A: Count, B: Count, C: Count, D: Count>(
    rt: &(impl Wait + Judge),
    store: &SyncStorage<Entry, 7, A, B, C, D>,
    tally: &mut Tally<A, B, C, D>,
    asked: GenerationalBox<Entry>,
    value: Entry,
) {
    let guard = rt.expect(store.try_read(rt, asked, read_later(), tally), "a guard");
    rt.compare(&store.open(rt, &guard, |entry| *entry), &Some(value));
    rt.demand(store.release_read(rt, guard, tally), "an unknown reader");
}

/// Keeps a number and a flag in one store, and turns both: the flag is another, and the number
/// isn't.
pub fn turn<A: Count, B: Count, C: Count, D: Count>(
    rt: &(impl Wait + Judge),
    store: &SyncStorage<Entry, 7, A, B, C, D>,
    tally: &mut Tally<A, B, C, D>,
) {
    rt.compare(&store.number(), &7);
    let number = leak(rt, store, tally, Entry::Number(3));
    let flag = leak(rt, store, tally, Entry::Flag(false));
    toggle(rt, store, tally, number);
    toggle(rt, store, tally, flag);
    assert_has(rt, store, tally, number, Entry::Number(3));
    assert_has(rt, store, tally, flag, Entry::Flag(true));
}
