//! Entries as keys of a map, and what errors print.

use crate::expected::{assert_prints, assert_same, given};
use crate::fresh::{Scene, SceneOfTwo, play, play_two};
use crate::session_acts::{sessions_over, stale_of};
use crate::session_limits::{log_in, put};
use generational_box::{Storage, StoreError};
use session_table::{Entry, HandedBack, LoginError, PutError, RenameError, SessionTable, Stale};
use std::alloc::Global;
use std::collections::HashMap;
use std::process::Abort;

/// Numbers under the handles of one table of which the first is stale, and what a handle of another
/// table finds among them.
struct HandlesAreKeys;

impl SceneOfTwo<u64, u64> for HandlesAreKeys {
    fn play<R: Abort, S: Storage<u64> + Drop, P: Storage<u64> + Drop>(
        &self,
        rt: &R,
        alloc: Global,
        store: S,
        parts: P,
    ) {
        let mut table = sessions_over(rt, alloc, store);
        let mut other = sessions_over(rt, alloc, parts);
        log_in(rt, &mut table, 1);
        let stale = put(rt, &mut table, (1, 1), 5);
        assert!(rt; table.logout(&1));
        log_in(rt, &mut table, 1);
        log_in(rt, &mut other, 1);
        let later = put(rt, &mut table, (1, 1), 6);
        let foreign = put(rt, &mut other, (1, 1), 7);
        found_by_handles(rt, alloc, stale, later, foreign);
        assert!(rt; !table.shows(stale) && table.shows(later) && !table.shows(foreign));
        is_refused(rt, &mut table, stale, stale_of(3));
        is_refused(rt, &mut table, foreign, Stale { created_at: None });
        let _left = table.finish();
        let _other = other.finish();
    }
}

/// Sees that each call on an entry fails.
fn is_refused<S: Storage<u64>>(
    rt: &impl Abort,
    table: &mut SessionTable<u64, u64, u64, S>,
    entry: Entry<u64>,
    stale: Stale,
) {
    assert_same(rt, &table.created_at(entry), &stale.created_at);
    assert_same(rt, &table.get(entry).err(), &Some(stale));
    let set = table.set(entry, 8).map_err(|refusal| refusal.cause);
    assert_same(rt, &set, &Err(stale));
    let updated = table.update(entry, |value: &mut u64| *value = 8);
    assert_same(rt, &updated, &Err(stale));
}

/// Looks handles up. A copy finds what its original does, and no other.
fn found_by_handles(
    rt: &impl Abort,
    alloc: Global,
    stale: Entry<u64>,
    later: Entry<u64>,
    foreign: Entry<u64>,
) {
    let mut numbers = HashMap::new(alloc);
    given(rt, numbers.insert(stale, 1));
    given(rt, numbers.insert(later, 2));
    let alias = later;
    assert_same(rt, &numbers.get(&stale).copied(), &Some(1));
    assert_same(rt, &numbers.get(&alias).copied(), &Some(2));
    assert_same(rt, &numbers.get(&foreign).copied(), &None);
    assert!(rt; alias == later && stale != later && foreign != later);
}

/// The texts of a table's errors.
struct RefusalsPrint;

impl Scene<u64> for RefusalsPrint {
    fn play<R: Abort, S: Storage<u64> + Drop>(&self, rt: &R, alloc: Global, store: S) {
        let mut table = sessions_over(rt, alloc, store);
        log_in(rt, &mut table, 1);
        let entry = put(rt, &mut table, (1, 1), 5);
        assert_prints(
            rt,
            alloc,
            &LoginError::IdInUse,
            "the id has a session already",
        );
        assert_prints(rt, alloc, &PutError::NoSession, "the id has no session");
        let text = "the new id has a session already";
        assert_prints(rt, alloc, &RenameError::IdInUse, text);
        let in_use = HandedBack {
            value: (1, 6),
            cause: PutError::KeyInUse,
        };
        let text = "the session has an entry under the key already";
        assert_prints(rt, alloc, &in_use, text);
        let short = StoreError::NumbersExhausted;
        assert_prints(rt, alloc, &LoginError::Store(short), "numbers exhausted");
        let stale = Stale {
            created_at: table.created_at(entry),
        };
        let text = "the value made at p.rs:3:1 is gone";
        assert_prints(rt, alloc, &stale, text);
        let _left = table.finish();
    }
}

#[test]
fn handles_are_keys_and_refusals_print(rt: HostRuntime) {
    play_two::<u64, u64, HandlesAreKeys>(&rt, rt.alloc(), &HandlesAreKeys);
    play::<u64, RefusalsPrint>(&rt, rt.alloc(), &RefusalsPrint);
}
