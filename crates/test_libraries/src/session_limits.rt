//! Tables of sessions whose store has given all its tickets, values that are dropped, and callers.

use crate::counted::{Counted, another, assert_count, new_counted};
use crate::expected::{assert_same, given};
use crate::fresh::{Scene, play, play_at_ticket};
use crate::session_acts::{put_at, sessions_over, stale_of};
use example_libraries::sessions::{
    found_by_key, greatest_key, latest_use, one_visit, seen_after_put, seen_beside, signed_in,
    told_after_logout,
};
use generational_box::Storage;
use session_table::{Entry, SessionTable};
use std::alloc::Global;
use std::process::Abort;

/// Begins a session.
pub(crate) fn log_in<T, S: Storage<T>>(
    rt: &impl Abort,
    table: &mut SessionTable<u64, u64, T, S>,
    id: u64,
) {
    given(rt, table.login(id, 0));
}

/// Puts a value into the session of an id, under a key.
pub(crate) fn put<T: Drop, S: Storage<T>>(
    rt: &impl Abort,
    table: &mut SessionTable<u64, u64, T, S>,
    at: (u64, u64),
    value: T,
) -> Entry<T> {
    given(rt, table.put(&at.0, at.1, value, put_at(3)))
}

/// Two sessions that begin, and a value that is looked at and set, without a ticket.
struct NoTicketIsUsed;

impl Scene<u64> for NoTicketIsUsed {
    fn play<R: Abort, S: Storage<u64> + Drop>(&self, rt: &R, alloc: Global, store: S) {
        let mut table = sessions_over(rt, alloc, store);
        log_in(rt, &mut table, 1);
        let entry = put(rt, &mut table, (1, 1), 5);
        log_in(rt, &mut table, 2);
        given(rt, table.set(entry, 6));
        assert_same(rt, &table.get(entry).copied().ok(), &Some(6));
        assert!(rt; table.logout(&1));
        assert!(rt; table.logout(&2));
        let _left = table.finish();
    }
}

/// Sets a value, which drops the old value.
fn set<S: Storage<Counted>>(
    rt: &impl Abort,
    table: &mut SessionTable<u64, u64, Counted, S>,
    entry: Entry<Counted>,
    value: Counted,
) {
    given(rt, table.set(entry, value));
}

/// Values of two sessions, which end with them.
fn values_go<S: Storage<Counted>>(
    rt: &impl Abort,
    table: &mut SessionTable<u64, u64, Counted, S>,
    first: &Counted,
    second: &Counted,
) {
    log_in(rt, table, 1);
    log_in(rt, table, 2);
    let entry = put(rt, table, (1, 1), another(rt, first));
    put(rt, table, (2, 1), another(rt, first));
    put(rt, table, (2, 2), another(rt, second));
    assert_count(rt, first, 3);
    set(rt, table, entry, another(rt, second));
    assert_count(rt, first, 2);
    let taken = table.remove(&2, &1);
    assert_count(rt, first, 2);
    assert!(rt; taken.is_some());
    put(rt, table, (2, 1), taken.expect(rt, "a value"));
    assert!(rt; table.logout(&1));
    assert_count(rt, second, 2);
    assert_count(rt, first, 2);
}

/// The same of values of which the test keeps a clone each. The table's end leaves no other.
struct ValuesEnd;

impl Scene<Counted> for ValuesEnd {
    fn play<R: Abort, S: Storage<Counted> + Drop>(&self, rt: &R, alloc: Global, store: S) {
        let mut table = sessions_over(rt, alloc, store);
        let first = new_counted(rt, alloc);
        let second = new_counted(rt, alloc);
        values_go(rt, &mut table, &first, &second);
        let _left = table.finish();
        assert_count(rt, &first, 1);
        assert_count(rt, &second, 1);
    }
}

#[test]
fn values_are_let_go_with_their_sessions(rt: HostRuntime) {
    play::<Counted, ValuesEnd>(&rt, rt.alloc(), &ValuesEnd);
}

/// Visits of ids with sessions and without.
fn visits_leave_no_session<S: Storage<u64>>(
    rt: &impl Abort,
    table: &mut SessionTable<u64, u64, u64, S>,
) {
    log_in(rt, table, 1);
    assert_same(rt, &one_visit(table, 2, 0, 7, put_at(6)), &Some(7));
    assert_same(rt, &one_visit(table, 1, 0, 7, put_at(6)), &None);
    assert_same(rt, &table.len(), &1);
    put(rt, table, (1, 4), 9);
    assert_same(rt, &found_by_key(table, 1, 4), &Some(9));
    assert_same(rt, &found_by_key(table, 1, 5), &None);
    let greatest = table.session(&1).map(|session| greatest_key(session));
    assert_same(rt, &greatest, &Some(4));
    assert!(rt; table.touch(&1, 8));
    assert_same(rt, &latest_use(table), &8);
}

/// Values of two sessions, of which one is logged out.
fn callers_are_told<S: Storage<u64>>(rt: &impl Abort, table: &mut SessionTable<u64, u64, u64, S>) {
    log_in(rt, table, 2);
    let first = match table.put(&1, 1, 5, put_at(3)) {
        Ok(entry) => entry,
        Err(_lacking) => rt.abort(),
    };
    let told = told_after_logout(table, 1, first, 2, 6, put_at(5));
    assert_same(rt, &told, &Err(stale_of(3)));
    let second = match table.put(&2, 2, 8, put_at(4)) {
        Ok(entry) => entry,
        Err(_lacking) => rt.abort(),
    };
    assert_same(rt, &seen_beside(table, 1, 2, second), &Ok(8));
    let third = match table.put(&2, 3, 9, put_at(6)) {
        Ok(entry) => entry,
        Err(_lacking) => rt.abort(),
    };
    let seen = seen_after_put(table, 1, 2, third, 7, put_at(7));
    assert_same(rt, &seen, &Ok(9));
    assert_same(rt, &table.remove(&2, &3), &Some(9));
    assert_same(rt, &table.get(third).copied(), &Err(stale_of(6)));
    assert_same(rt, &signed_in(table, 2, 4, 2), &Some(second));
    assert_same(rt, &signed_in(table, 2, 5, 2), &None);
}

/// Both, in one table.
struct CallersAnswer;

impl Scene<u64> for CallersAnswer {
    fn play<R: Abort, S: Storage<u64> + Drop>(&self, rt: &R, alloc: Global, store: S) {
        let mut table = sessions_over(rt, alloc, store);
        visits_leave_no_session(rt, &mut table);
        callers_are_told(rt, &mut table);
        let _left = table.finish();
    }
}

#[test]
fn sessions_take_no_ticket_and_callers(rt: HostRuntime) {
    play_at_ticket::<u64, NoTicketIsUsed>(&rt, rt.alloc(), u64::MAX, &NoTicketIsUsed);
    play::<u64, CallersAnswer>(&rt, rt.alloc(), &CallersAnswer);
}
