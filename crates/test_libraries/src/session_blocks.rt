//! Expiries of tables with many sessions, which skip those of whole blocks.

use crate::expected::{assert_same, given};
use crate::fresh::{Scene, play, play_both};
use crate::growth::ENTRIES;
use crate::session_acts::sessions_over;
use generational_box::Storage;
use session_table::SessionTable;
use std::alloc::Global;
use std::process::Abort;

/// How many sessions there are: some blocks of 64, and a part of one.
const SESSIONS: u64 = 300;

/// How many sessions were last used before a time.
fn old_before<S: Storage<u64>>(table: &SessionTable<u64, u64, u64, S>, time: u64) -> usize {
    let mut old: usize = 0;
    for (_, session) in table.sessions() {
        if session.used_at() < time {
            old = old.wrapping_add(1);
        }
    }
    old
}

/// Ends the sessions that were last used before a time, twice. No other ends.
fn expire<S: Storage<u64>>(rt: &impl Abort, table: &mut SessionTable<u64, u64, u64, S>, time: u64) {
    let old = old_before(table, time);
    let count = table.len();
    assert_same(rt, &table.expire(time), &old);
    assert_same(rt, &table.len(), &count.saturating_sub(old));
    assert_same(rt, &old_before(table, time), &0);
    assert_same(rt, &table.expire(time), &0);
}

/// Uses that come in no order, sessions that move, and times that go back, between expiries.
struct ExpireInBlocks;

impl Scene<u64> for ExpireInBlocks {
    fn play<R: Abort, S: Storage<u64> + Drop>(&self, rt: &R, alloc: Global, store: S) {
        let mut table = sessions_over(rt, alloc, store);
        for id in 0..SESSIONS {
            given(rt, table.login(id, id * 37 % 101));
        }
        expire(rt, &mut table, 0);
        expire(rt, &mut table, 10);
        // The bounds were raised: a use that goes back lowers one again.
        assert!(rt; table.touch(&120, 3) == table.has(&120));
        assert!(rt; table.touch(&299, 4) == table.has(&299));
        expire(rt, &mut table, 5);
        // The last session moves into another block.
        for id in 0..64 {
            table.logout(&id);
        }
        expire(rt, &mut table, 30);
        let moved = table.sessions().map(|(id, _)| *id).max().unwrap_or(0);
        given(rt, table.rename(&moved, 1000));
        assert!(rt; table.touch(&1000, 31));
        expire(rt, &mut table, 60);
        for id in 2000..2100 {
            given(rt, table.login(id, id - 1950));
        }
        expire(rt, &mut table, 70);
        expire(rt, &mut table, 1000);
        assert!(rt; table.is_empty());
        let _left = table.finish();
    }
}

#[test]
fn expiries_end_what_is_old_in_each_block(rt: HostRuntime) {
    play_both::<u64, ExpireInBlocks>(&rt, rt.alloc(), &ExpireInBlocks);
}

/// Expiries of many sessions, each after one use: none ends, and after the first call none looks at all
/// sessions.
struct ExpireNone;

impl Scene<u64> for ExpireNone {
    fn play<R: Abort, S: Storage<u64> + Drop>(&self, rt: &R, alloc: Global, store: S) {
        let mut table = sessions_over(rt, alloc, store);
        for id in 0..ENTRIES {
            given(rt, table.login(id, 1));
        }
        for id in 0..200 {
            assert!(rt; table.touch(&id, 2));
            assert_same(rt, &table.expire(1), &0);
        }
        let _left = table.finish();
    }
}

#[test]
fn an_expiry_that_ends_nothing_looks_at_few_sessions(rt: HostRuntime) {
    play::<u64, ExpireNone>(&rt, rt.alloc(), &ExpireNone);
}
