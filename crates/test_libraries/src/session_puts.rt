//! Calls of tables of sessions that put a value unless there is one, and calls that remove one.

use crate::expected::{answered, assert_same, given};
use crate::fresh::{Scene, play, play_both};
use crate::growth::ENTRIES;
use crate::session_acts::{put_at, sessions_over};
use crate::session_limits::{log_in, put};
use example_libraries::sessions::{entry_or_put, replaced, set_by_key, taken_from};
use generational_box::Storage;
use session_table::{PutError, SessionTable};
use std::alloc::Global;
use std::process::Abort;

/// A value that is put only if there is none, one that replaces it, and one that isn't put.
fn values_are_put_once<S: Storage<u64>>(
    rt: &impl Abort,
    table: &mut SessionTable<u64, u64, u64, S>,
) {
    log_in(rt, table, 1);
    let first = given(rt, table.get_or_put(&1, 7, 5, put_at(0)));
    assert_same(
        rt,
        &table.get_or_put(&1, 7, 6, put_at(1)).ok(),
        &Some(first),
    );
    assert_same(rt, &entry_or_put(table, (1, 7), 6, put_at(1)), &Some(first));
    assert_same(rt, &table.get(first).copied().ok(), &Some(5));
    assert_same(
        rt,
        &table.upsert(&1, 7, 9, put_at(2)).ok(),
        &Some((first, Some(5))),
    );
    assert_same(rt, &table.get(first).copied().ok(), &Some(9));
    assert_same(rt, &table.created_at(first), &Some(put_at(0)));
    assert_same(
        rt,
        &set_by_key(table, (1, 8), 3, put_at(3)),
        &Some((3, None)),
    );
    assert_same(
        rt,
        &set_by_key(table, (1, 8), 4, put_at(3)),
        &Some((4, Some(3))),
    );
    assert_same(rt, &replaced(table, first, 2), &Some(9));
    let none = answered(rt, table.get_or_put(&2, 7, 6, put_at(4)), &(7, 6));
    assert_same(rt, &none, &Err(PutError::NoSession));
    let none = answered(rt, table.upsert(&2, 7, 6, put_at(4)), &(7, 6));
    assert_same(rt, &none, &Err(PutError::NoSession));
}

/// Whether a session's entries have these keys, in this order.
fn has_keys<S: Storage<u64>>(table: &SessionTable<u64, u64, u64, S>, keys: &[u64]) -> bool {
    let Some(session) = table.session(&1) else {
        return false;
    };
    session
        .entries()
        .map(|(key, _)| *key)
        .eq(keys.iter().copied())
}

/// Values that are removed in order, and not.
fn values_are_removed<S: Storage<u64>>(
    rt: &impl Abort,
    table: &mut SessionTable<u64, u64, u64, S>,
) {
    for key in 9..12 {
        put(rt, table, (1, key), key);
    }
    assert!(rt; has_keys(table, &[7, 8, 9, 10, 11]));
    assert_same(rt, &table.remove(&1, &8), &Some(4));
    assert!(rt; has_keys(table, &[7, 11, 9, 10]));
    assert_same(rt, &table.shift_remove(&1, &7), &Some(2));
    assert!(rt; has_keys(table, &[11, 9, 10]));
    assert_same(rt, &taken_from(table, (1, 11), true), &Some(11));
    assert_same(rt, &taken_from(table, (1, 9), false), &Some(9));
    assert_same(rt, &table.remove(&1, &9), &None);
    assert_same(rt, &table.shift_remove(&2, &9), &None);
    assert!(rt; has_keys(table, &[10]));
}

/// Both, in one table.
struct PutsAndRemoves;

impl Scene<u64> for PutsAndRemoves {
    fn play<R: Abort, S: Storage<u64> + Drop>(&self, rt: &R, alloc: Global, store: S) {
        let mut table = sessions_over(rt, alloc, store);
        values_are_put_once(rt, &mut table);
        values_are_removed(rt, &mut table);
        let left = table.finish();
        assert!(rt; left.free() == left.slots());
    }
}

#[test]
fn values_are_put_unless_there_is_one(rt: HostRuntime) {
    play_both::<u64, PutsAndRemoves>(&rt, rt.alloc(), &PutsAndRemoves);
}

/// A session that puts and removes, again and again: it takes no more memory, and neither call walks its
/// entries.
struct PutAndRemove;

impl Scene<u64> for PutAndRemove {
    fn play<R: Abort, S: Storage<u64> + Drop>(&self, rt: &R, alloc: Global, store: S) {
        let mut table = sessions_over(rt, alloc, store);
        log_in(rt, &mut table, 1);
        for key in 0..ENTRIES {
            put(rt, &mut table, (1, key), key);
        }
        for key in 0..ENTRIES {
            assert!(rt; table.remove(&1, &key).is_some());
            put(rt, &mut table, (1, key), key);
        }
        let left = table.finish();
        assert!(rt; left.slots() as u64 == ENTRIES);
    }
}

#[test]
fn a_session_that_puts_and_removes_takes_no_more_memory(rt: HostRuntime) {
    play::<u64, PutAndRemove>(&rt, rt.alloc(), &PutAndRemove);
}
