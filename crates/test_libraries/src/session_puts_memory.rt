//! Values that are put unless there is one, with each allocation failing.

use crate::expected::{answered, assert_same, given};
use crate::fresh::{Scene, play_both};
use crate::session_acts::{put_at, sessions_over};
use generational_box::{Storage, StoreError};
use session_table::{PutError, SessionTable};
use std::alloc::Global;
use std::process::Abort;

/// Puts a value unless there is one. If an allocation fails, it comes back with its key.
fn put_or_again<S: Storage<u64>>(
    rt: &impl Abort,
    table: &mut SessionTable<u64, u64, u64, S>,
    key: u64,
) {
    if key % 2 == 0 {
        if let Err(cause) = answered(rt, table.get_or_put(&1, key, key, put_at(0)), &(key, key)) {
            assert_same(rt, &cause, &PutError::Store(StoreError::OutOfMemory));
            given(rt, table.get_or_put(&1, key, key, put_at(0)));
        }
        return;
    }
    if let Err(cause) = answered(rt, table.upsert(&1, key, key, put_at(0)), &(key, key)) {
        assert_same(rt, &cause, &PutError::Store(StoreError::OutOfMemory));
        given(rt, table.upsert(&1, key, key, put_at(0)));
    }
}

/// Puts values by either call. Those that are there allocate nothing.
struct PutMany;

impl Scene<u64> for PutMany {
    fn play<R: Abort, S: Storage<u64> + Drop>(&self, rt: &R, alloc: Global, store: S) {
        let mut table = sessions_over(rt, alloc, store);
        if table.login(1, 0).is_err() {
            given(rt, table.login(1, 0));
        }
        for key in 0..20 {
            put_or_again(rt, &mut table, key);
            given(rt, table.get_or_put(&1, key, 0, put_at(1)));
            given(rt, table.upsert(&1, key, key, put_at(1)));
            assert_same(rt, &table.get_at(&1, &key).copied(), &Some(key));
        }
        let _left = table.finish();
    }
}

#[test]
fn what_is_there_needs_no_memory(rt: HostRuntime) {
    play_both::<u64, PutMany>(&rt, rt.alloc(), &PutMany);
}
