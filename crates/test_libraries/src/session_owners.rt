//! Sessions that are found from their entries, after rows and entries have moved.

use crate::expected::{assert_same, given};
use crate::fresh::{Scene, play, play_both};
use crate::growth::MANY;
use crate::session_acts::{put_at, sessions_over, stale_of};
use crate::session_limits::{log_in, put};
use example_libraries::sessions::ended_by_entry;
use generational_box::Storage;
use session_table::{Entry, SessionTable};
use std::alloc::Global;
use std::process::Abort;

/// Asserts in which session an entry is.
fn is_of<S: Storage<u64>>(
    rt: &impl Abort,
    table: &SessionTable<u64, u64, u64, S>,
    entry: Entry<u64>,
    id: u64,
) {
    assert_same(rt, &table.session_of(entry).copied().ok(), &Some(id));
}

/// Three sessions, of which one ends, one gets another id, and one loses entries in either way.
struct RowsMove;

impl Scene<u64> for RowsMove {
    fn play<R: Abort, S: Storage<u64> + Drop>(&self, rt: &R, alloc: Global, store: S) {
        let mut table = sessions_over(rt, alloc, store);
        for id in 1..4 {
            log_in(rt, &mut table, id);
        }
        let first = put(rt, &mut table, (1, 1), 10);
        let second = put(rt, &mut table, (2, 1), 20);
        let third = put(rt, &mut table, (3, 1), 30);
        given(rt, table.rename(&2, 5));
        is_of(rt, &table, second, 5);
        // The last session takes the place of the one that ends.
        assert_same(rt, &ended_by_entry(&mut table, first), &Some(1));
        let gone = table.session_of(first).copied();
        assert_same(rt, &gone.err(), &Some(stale_of(3)));
        is_of(rt, &table, second, 5);
        is_of(rt, &table, third, 3);
        // A new session, and an entry in the slot of the one that is gone.
        log_in(rt, &mut table, 6);
        let fourth = put(rt, &mut table, (6, 1), 40);
        let fifth = put(rt, &mut table, (6, 2), 50);
        let sixth = put(rt, &mut table, (6, 3), 60);
        is_of(rt, &table, fourth, 6);
        assert_same(rt, &table.shift_remove(&6, &1), &Some(40));
        is_of(rt, &table, fifth, 6);
        is_of(rt, &table, sixth, 6);
        assert_same(rt, &table.remove(&6, &2), &Some(50));
        is_of(rt, &table, sixth, 6);
        assert!(rt; table.session_of(fifth).is_err());
        let _left = table.finish();
    }
}

#[test]
fn entries_find_their_sessions(rt: HostRuntime) {
    play_both::<u64, RowsMove>(&rt, rt.alloc(), &RowsMove);
}

/// Many sessions, of which a third ends, and that lose an entry each: no call looks at all of them.
struct FindMany;

impl Scene<u64> for FindMany {
    fn play<R: Abort, S: Storage<u64> + Drop>(&self, rt: &R, alloc: Global, store: S) {
        let mut table = sessions_over(rt, alloc, store);
        given(rt, table.reserve(20_000));
        for id in 0..MANY {
            log_in(rt, &mut table, id);
            put(rt, &mut table, (id, 1), id);
            put(rt, &mut table, (id, 2), id);
        }
        for id in 0..MANY {
            assert_same(rt, &table.remove(&id, &1), &Some(id));
            if id % 3 == 0 {
                assert!(rt; table.logout(&id));
            }
        }
        for id in 0..MANY {
            if let Some(entry) = table.entry(&id, &2) {
                is_of(rt, &table, entry, id);
            }
        }
        let _left = table.finish();
    }
}

#[test]
fn many_sessions_are_found(rt: HostRuntime) {
    play::<u64, FindMany>(&rt, rt.alloc(), &FindMany);
}

/// A table with room for sessions.
pub(crate) fn reserve_or_again<S: Storage<u64>>(
    rt: &impl Abort,
    table: &mut SessionTable<u64, u64, u64, S>,
    more: usize,
) {
    if table.reserve(more).is_err() {
        assert!(rt; table.is_empty());
        given(rt, table.reserve(more));
    }
}

/// A value that is put, or again if an allocation fails.
pub(crate) fn entry_or_again<S: Storage<u64>>(
    rt: &impl Abort,
    table: &mut SessionTable<u64, u64, u64, S>,
    id: u64,
    key: u64,
) -> Entry<u64> {
    match table.put(&id, key, key, put_at(0)) {
        Ok(entry) => entry,
        Err(_) => given(rt, table.put(&id, key, key, put_at(0))),
    }
}
