//! Tables where memory runs out. The test passes whichever allocation fails: what fails to allocate
//! changes nothing, and is tried a second time.

use crate::expected::{answered, assert_same, given};
use crate::fresh::{Scene, play_both};
use crate::session_acts::{put_at, sessions_over};
use generational_box::{Storage, StoreError};
use session_table::{LoginError, PutError, RenameError, SessionTable};
use std::alloc::Global;
use std::process::Abort;

/// How many sessions are begun, and how many values each keeps: more than the room that is found at
/// once.
const MANY: u64 = 10;

/// Begins a session. A login that fails to allocate leaves the table unchanged.
fn log_in_or_again<S: Storage<u64>>(
    rt: &impl Abort,
    table: &mut SessionTable<u64, u64, u64, S>,
    id: u64,
) {
    let before = table.len();
    if let Err(cause) = answered(rt, table.login(id, id), &id) {
        assert_same(rt, &cause, &LoginError::Store(StoreError::OutOfMemory));
        assert_same(rt, &table.len(), &before);
        given(rt, table.login(id, id));
    }
    assert!(rt; table.has(&id));
}

/// Puts a value. If an allocation fails, it comes back with its key, and the session is unchanged.
fn put_or_again<S: Storage<u64>>(
    rt: &impl Abort,
    table: &mut SessionTable<u64, u64, u64, S>,
    id: u64,
    value: u64,
) {
    let answer = table.put(&id, value, value, put_at(0));
    let cause = match answered(rt, answer, &(value, value)) {
        Ok(entry) => {
            assert!(rt; table.shows(entry));
            return;
        }
        Err(cause) => cause,
    };
    assert_same(rt, &cause, &PutError::Store(StoreError::OutOfMemory));
    given(rt, table.put(&id, value, value, put_at(0)));
}

/// Gives a session another id. A call that fails to allocate leaves it under its own.
fn rename_or_again<S: Storage<u64>>(
    rt: &impl Abort,
    table: &mut SessionTable<u64, u64, u64, S>,
    id: u64,
    to: u64,
) {
    if let Err(cause) = answered(rt, table.rename(&id, to), &to) {
        assert_same(rt, &cause, &RenameError::Store(StoreError::OutOfMemory));
        assert!(rt; table.has(&id) && !table.has(&to));
        given(rt, table.rename(&id, to));
    }
    assert!(rt; table.has(&to) && !table.has(&id));
}

/// Begins sessions that keep values, takes one out of each, which lacks no memory, gives each another
/// id, and ends half of them.
struct BeginMany;

impl Scene<u64> for BeginMany {
    fn play<R: Abort, S: Storage<u64> + Drop>(&self, rt: &R, alloc: Global, store: S) {
        let mut table = sessions_over(rt, alloc, store);
        for id in 0..MANY {
            log_in_or_again(rt, &mut table, id);
            for value in 0..MANY {
                put_or_again(rt, &mut table, id, value);
            }
            assert_same(rt, &table.remove(&id, &id), &Some(id));
            rename_or_again(rt, &mut table, id, id + MANY);
        }
        assert_same(rt, &table.expire(MANY / 2), &5);
        let left = table.finish();
        assert!(rt; left.free() == left.slots());
    }
}

#[test]
fn what_lacks_memory_changes_nothing(rt: HostRuntime) {
    play_both::<u64, BeginMany>(&rt, rt.alloc(), &BeginMany);
}
