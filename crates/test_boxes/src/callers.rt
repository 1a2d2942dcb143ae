//! The proved callers of the crate `example_callers`, run.

use crate::expected::{assert_same, leak};
use crate::fresh::{
    Beginning, Kind, Life, Over, Scenario, live, play, run_over, run_over_oldest_first,
};
use crate::sessions::session_over;
use example_callers::conditions::{exchange, read_free, set_and_read, set_value};
use example_callers::kinds::{Entry, toggle};
use example_callers::owned::end_owned;
use example_callers::sessions::{ask_for_ended, carries_out, read_later};
use example_callers::shared::{outlived, written_through};
use example_callers::table::Table;
use example_callers::values::{
    read_value, replaced_value, shown_or, there_and_back, write_value, written_value,
};
use generational_box::{
    BorrowMutError, BoxAt, Call, GenerationalBox, Location, Reply, Session, Storage,
    ValueDroppedError,
};
use std::alloc::Global;
use std::process::Abort;

fn here() -> Location {
    Location::new("callers.rt", 13, 5)
}

/// A value is kept, written and replaced, each time read again.
fn value_by_itself<S: Storage<u64>>(store: &mut S) -> Option<(u64, (u64, u64))> {
    let made = GenerationalBox::leak(store, 3, here()).ok()?;
    write_value(store, made, 4, here()).ok()?;
    let written = written_value(store, made, 8, here()).ok()?;
    let replaced = replaced_value(store, made, 9, here()).ok()?;
    if shown_or(store, made, 0) == 9 {
        Some((written, replaced))
    } else {
        None
    }
}

/// A value is set and read, and then exchanged for another, under conditions.
fn value_under_conditions<S: Storage<u64>>(
    store: &mut S,
    made: GenerationalBox<u64>,
) -> Option<(u64, u64)> {
    if !set_value(store, made, 4) {
        return None;
    }
    let set = set_and_read(store, made, 5, here()).ok()??;
    let old = exchange(store, made, 6, here()).ok()??;
    Some((set, old))
}

/// Whether a value is neither set nor exchanged.
fn stays<S: Storage<u64>>(store: &mut S, made: GenerationalBox<u64>) -> bool {
    !set_value(store, made, 9) && matches!(exchange(store, made, 9, here()), Ok(None))
}

/// Whether a value stays while it is read; and the value that is read after that.
fn value_under_reader<S: Storage<u64>>(
    store: &mut S,
    made: GenerationalBox<u64>,
) -> Option<(bool, u64)> {
    let guard = made.try_read(store, here()).ok()?;
    let stayed = stays(store, made);
    guard.release(store);
    let seen = read_free(store, made, here()).ok()??;
    Some((stayed, seen))
}

/// Whether an owner's value can be read after the owner's release.
fn owned_value<S: Storage<u64>>(store: &mut S) -> Option<Option<u64>> {
    let ended = end_owned(store, 4, here()).ok()?;
    Some(read_value(store, ended, here()).ok())
}

/// A shared value, written through one reference, and outliving another.
fn shared_values<S: Storage<u64>>(store: &mut S) -> Option<(u64, u64)> {
    let written = written_through(store, 1, 2, here()).ok()?;
    let kept = outlived(store, 5, here()).ok()?;
    Some((written, kept))
}

/// What three rows of a new table have, and one that was never issued, after the middle one was removed
/// twice.
fn rows_of_table<S: Storage<u64> + Drop>(alloc: Global, store: S) -> Option<[Option<u64>; 4]> {
    let mut table = Table::new(alloc, store);
    rows_of(&mut table)
}

/// The same of a table.
fn rows_of<S: Storage<u64> + Drop>(table: &mut Table<u64, S>) -> Option<[Option<u64>; 4]> {
    let first = table.insert(3, here()).ok()?;
    let second = table.insert(4, here()).ok()?;
    let removed = table.remove(second);
    let third = table.insert(5, here()).ok()?;
    if !removed || table.remove(second) {
        return None;
    }
    let shown = table.get(first, here()).ok()?;
    let empty = table.get(second, here()).ok()?;
    let last = table.get(third, here()).ok()?;
    let past = table.get(9, here()).ok()?;
    Some([shown, empty, last, past])
}

/// Whether a flag that was off is on after it was turned.
fn turned_flag<S: Storage<Entry>>(store: &mut S) -> Option<bool> {
    let flag = GenerationalBox::leak(store, Entry::Flag(false), here()).ok()?;
    toggle(store, flag, here()).ok()?;
    let guard = flag.try_read(store, here()).ok()?;
    let on = match guard.deref(store).map(|view| *view) {
        Some(Entry::Flag(on)) => Some(on),
        _ => None,
    };
    guard.release(store);
    on
}

/// How many of the replies to a read and a write of the box at place 0 are errors.
fn errors_of_ended<S: Storage<u64>>(alloc: Global, session: &mut Session<u64, S>) -> Option<usize> {
    let replies = ask_for_ended(alloc, session, 0, here()).ok()?;
    Some(count_errors(&replies))
}

fn count_errors(replies: &[Reply<u64>]) -> usize {
    let mut found: usize = 0;
    for reply in replies {
        if matches!(reply, Reply::Error(_)) {
            found = found.saturating_add(1);
        }
    }
    found
}

/// The error of a read of the box at place 0 after another box was made.
fn error_told_later<S: Storage<u64>>(session: &mut Session<u64, S>) -> Option<BorrowMutError> {
    let later = Location::new("callers.rt", 14, 5);
    let (_made, read) = read_later(session, Call::Leak(7, later), 0, later).ok()?;
    match read {
        Some(Reply::Error(error)) => Some(error),
        _ => None,
    }
}

/// Asserts whether a call is carried out.
fn assert_carried_out<S: Storage<u64>>(
    rt: &impl Abort,
    session: &mut Session<u64, S>,
    call: Call<u64>,
    done: bool,
) {
    assert_same(rt, &carries_out(session, call).ok(), &Some(done));
}

/// A value is stored and read, can't be removed under its reader, and is removed after that; a call on
/// its box fails then, even after another call.
fn assert_calls<S: Storage<u64>>(rt: &impl Abort, alloc: Global, session: &mut Session<u64, S>) {
    assert_carried_out(rt, session, Call::Leak(6, here()), true);
    assert_carried_out(rt, session, Call::TryRead(BoxAt::Place(0), here()), true);
    assert_carried_out(rt, session, Call::ManuallyDrop(BoxAt::Place(0)), false);
    assert_carried_out(rt, session, Call::Release(1), true);
    assert_carried_out(rt, session, Call::ManuallyDrop(BoxAt::Place(0)), true);
    assert_same(rt, &errors_of_ended(alloc, session), &Some(2));
    let dropped = BorrowMutError::Dropped(ValueDroppedError::new(here()));
    assert_same(rt, &error_told_later(session), &Some(dropped));
}

struct CallsOfASession;

impl Life<u64> for CallsOfASession {
    fn live<R: Abort, S: Storage<u64> + Drop>(rt: &R, alloc: Global, store: S) {
        let mut session = session_over(rt, alloc, store);
        assert_calls(rt, alloc, &mut session);
        let _store = session.finish();
    }
}

struct Values;

impl Scenario<u64> for Values {
    fn play<R: Abort, S: Storage<u64>>(rt: &R, _: Global, store: &mut S) {
        assert_same(rt, &there_and_back(store, 7, here()).ok(), &Some(7));
        assert_same(rt, &value_by_itself(store), &Some((8, (8, 9))));
        assert_same(rt, &owned_value(store), &Some(None));
        assert_same(rt, &shared_values(store), &Some((2, 5)));
    }
}

struct Conditions;

impl Scenario<u64> for Conditions {
    fn play<R: Abort, S: Storage<u64>>(rt: &R, _: Global, store: &mut S) {
        let made = leak(rt, store, 3, here());
        assert_same(rt, &value_under_conditions(store, made), &Some((5, 5)));
        assert_same(rt, &value_under_reader(store, made), &Some((true, 6)));
    }
}

/// What the rows of a table show.
struct RowsOfATable;

impl<R: Abort> Over<u64, R> for RowsOfATable {
    type Answer = ();

    fn run<K: Kind<u64>>(rt: &R, alloc: Global, number: u64, beginning: Beginning) {
        let store = K::make(alloc, number, beginning);
        let rows = [Some(3), None, Some(5), None];
        assert_same(rt, &rows_of_table(alloc, store), &Some(rows));
    }
}

#[test]
fn tables_over_both_pools(rt: HostRuntime) {
    run_over::<u64, _, RowsOfATable>(&rt, rt.alloc(), 1, Beginning::First);
    run_over_oldest_first::<u64, _, RowsOfATable>(&rt, rt.alloc(), 1, Beginning::First);
}

struct AFlag;

impl Scenario<Entry> for AFlag {
    fn play<R: Abort, S: Storage<Entry>>(rt: &R, _: Global, store: &mut S) {
        assert_same(rt, &turned_flag(store), &Some(true));
    }
}

#[test]
fn values_and_kinds(rt: HostRuntime) {
    play::<u64, Values>(&rt, rt.alloc());
    play::<u64, Conditions>(&rt, rt.alloc());
    play::<Entry, AFlag>(&rt, rt.alloc());
}

#[test]
fn sessions(rt: HostRuntime) {
    live::<u64, CallsOfASession>(&rt, rt.alloc());
}
