//! Sessions that are logged in again from rows.

use crate::expected::assert_same;
use example_saving::{SessionRow, log_in_again};
use generational_box::{Location, UnsyncStorage};
use session_table::SessionTable;
use std::alloc::Global;
use std::process::Abort;

/// The row of a session with these values under their keys.
fn row_of(rt: &impl Abort, alloc: Global, id: u64, pairs: &[(u64, u64)]) -> SessionRow {
    let mut values = Vec::new(alloc);
    for pair in pairs {
        assert!(rt; values.push(*pair).is_ok());
    }
    SessionRow {
        id,
        used_at: 1000,
        values,
    }
}

/// What a key of a session reads once rows were logged in. None if they weren't.
fn value_after(alloc: Global, rows: &[SessionRow], id: u64, key: u64) -> Option<u64> {
    let store = UnsyncStorage::<u64>::new(alloc, 1);
    let mut table = SessionTable::<u64, u64, u64, _>::new(alloc, store);
    let is_whole = log_in_again(&mut table, rows, Location::new("logins.rt", 28, 27));
    let value = table.get_at(&id, &key).copied();
    drop(table.finish());
    if is_whole { value } else { None }
}

#[test]
fn rows_are_sessions_again(rt: HostRuntime) {
    let alloc = rt.alloc();
    let first = row_of(&rt, alloc, 7, &[(1, 10), (2, 20)]);
    let second = row_of(&rt, alloc, 8, &[(1, 30)]);
    let rows = [first, second];
    assert_same(&rt, &value_after(alloc, &rows, 7, 2), &Some(20));
    assert_same(&rt, &value_after(alloc, &rows, 8, 1), &Some(30));
    assert_same(&rt, &value_after(alloc, &rows, 8, 2), &None);
}

#[test]
fn an_id_in_two_rows_is_an_error(rt: HostRuntime) {
    let alloc = rt.alloc();
    let first = row_of(&rt, alloc, 7, &[(1, 10)]);
    let second = row_of(&rt, alloc, 7, &[]);
    assert_same(&rt, &value_after(alloc, &[first, second], 7, 1), &None);
}

#[test]
fn a_key_with_two_values_is_an_error(rt: HostRuntime) {
    let alloc = rt.alloc();
    let row = row_of(&rt, alloc, 7, &[(1, 10), (1, 20)]);
    assert_same(&rt, &value_after(alloc, &[row], 7, 1), &None);
}
