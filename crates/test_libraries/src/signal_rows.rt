//! Short histories of scopes and signals, with the results that they must have.

use crate::counted::{Counted, another, assert_count, new_counted};
use crate::expected::{assert_same, given};
use crate::fresh;
use crate::fresh::{Scene, play_both};
use crate::signal_calls::{
    alias, asked, double, end, end_hindered, first_made, is_gone, scope, second_made, sees, set,
    set_ended, signal, swap, update_ended, update_hindered,
};
use example_signals::scopes::{count_up, outlived, set_source, set_through_alias};
use generational_box::Storage;
use signals::{Scope, Signal};
use std::alloc::Global;
use std::process::Abort;

/// Plays a history in an empty store, once with each order of free slots.
fn play<H: Scene<u64>>(rt: &impl Abort, alloc: Global, history: &H) {
    play_both::<u64, H>(rt, alloc, history);
}

struct SourcesSwapped;

/// Two scopes, and an alias that outlives its signal's scope and is led elsewhere.
impl Scene<u64> for SourcesSwapped {
    fn play<R: Abort, S: Storage<u64> + Drop>(&self, rt: &R, _: Global, mut store: S) {
        let store = &mut store;
        let (old, new, third) = (1, 2, 3);
        let a = scope(rt, store);
        let s = signal(rt, store, &a, old, first_made());
        let b = scope(rt, store);
        let t = alias(rt, store, &b, s);
        let u = signal(rt, store, &b, new, second_made());
        end(rt, store, a);
        is_gone(rt, store, s, first_made());
        sees(rt, store, t, old);
        swap(rt, store, t, u);
        sees(rt, store, t, new);
        set(rt, store, t, third);
        sees(rt, store, u, third);
        end_both(rt, store, b, t, u);
    }
}

/// The end of the scope that is left, with two signals.
fn end_both<S: Storage<u64>>(
    rt: &impl Abort,
    store: &mut S,
    scope: Scope,
    first: Signal<u64>,
    second: Signal<u64>,
) {
    end(rt, store, scope);
    is_gone(rt, store, first, first_made());
    is_gone(rt, store, second, second_made());
    assert_same(rt, &store.slots(), &5);
    assert_same(rt, &store.free(), &5);
}

struct EndRefused;

/// A scope whose signal is read doesn't end, and comes back.
impl Scene<u64> for EndRefused {
    fn play<R: Abort, S: Storage<u64> + Drop>(&self, rt: &R, alloc: Global, mut store: S) {
        let store = &mut store;
        let b = scope(rt, store);
        let u = signal(rt, store, &b, 4, second_made());
        let guard = u.as_box().try_read(store, asked()).expect(rt, "a reader");
        update_hindered(rt, store, u, alloc);
        let b = end_hindered(rt, store, b, alloc);
        assert!(rt; guard.release(store));
        double(rt, store, u, 4);
        set(rt, store, u, 4);
        sees(rt, store, u, 4);
        end(rt, store, b);
        is_gone(rt, store, u, second_made());
    }
}

struct TicketsTaken;

/// Each read and set takes one ticket, and an update none; none leaves a borrow, and one that fails takes
/// no ticket.
impl Scene<u64> for TicketsTaken {
    fn play<R: Abort, S: Storage<u64> + Drop>(&self, rt: &R, _: Global, mut store: S) {
        let store = &mut store;
        let a = scope(rt, store);
        let s = signal(rt, store, &a, 6, first_made());
        let tickets = store.tickets_left();
        sees(rt, store, s, 6);
        set(rt, store, s, 7);
        double(rt, store, s, 7);
        assert_same(rt, &tickets.checked_sub(2), &Some(store.tickets_left()));
        assert!(rt; s.as_box().can_write(store));
        sees(rt, store, s, 14);
        end(rt, store, a);
        set_ended(rt, store, s, 8, first_made());
        update_ended(rt, store, s, first_made());
        assert_same(rt, &tickets.checked_sub(3), &Some(store.tickets_left()));
    }
}

struct CallersAnswer;

/// The results of the callers, and a scope that is leaked: its signals stay live.
impl Scene<u64> for CallersAnswer {
    fn play<R: Abort, S: Storage<u64> + Drop>(&self, rt: &R, _: Global, mut store: S) {
        let store = &mut store;
        assert_same(rt, &outlived(store, 4, asked()), &Some(4));
        let a = scope(rt, store);
        let s = signal(rt, store, &a, 6, first_made());
        let u = signal(rt, store, &a, 8, second_made());
        assert_same(rt, &set_through_alias(store, &a, s, 7, asked()), &Some(7));
        assert_same(rt, &set_source(store, s, u, 9, asked()).ok(), &Some(9));
        sees(rt, store, u, 9);
        assert_same(rt, &count_up(store, u, asked()).ok(), &Some(10));
        a.leak();
        sees(rt, store, s, 10);
    }
}

#[test]
fn scopes_and_their_signals(rt: HostRuntime) {
    play(&rt, rt.alloc(), &SourcesSwapped);
    play(&rt, rt.alloc(), &EndRefused);
    play(&rt, rt.alloc(), &TicketsTaken);
    play(&rt, rt.alloc(), &CallersAnswer);
}

/// Sets a signal's value, which drops the old value.
fn set_counted<S: Storage<Counted>>(
    rt: &impl Abort,
    store: &mut S,
    signal: Signal<Counted>,
    value: Counted,
) {
    given(rt, signal.set(store, value, asked()));
}

/// A signal whose value is set, and whose scope ends.
struct ValuesGo;

impl Scene<Counted> for ValuesGo {
    fn play<R: Abort, S: Storage<Counted> + Drop>(&self, rt: &R, alloc: Global, mut store: S) {
        let store = &mut store;
        let first = new_counted(rt, alloc);
        let second = new_counted(rt, alloc);
        let scope = scope(rt, store);
        let only = signal(rt, store, &scope, another(rt, &first), first_made());
        set_counted(rt, store, only, another(rt, &second));
        assert_count(rt, &first, 1);
        assert_count(rt, &second, 2);
        end(rt, store, scope);
        assert_count(rt, &second, 1);
    }
}

// A signal's old value goes when another is set, and the last one with the scope.
#[test]
fn a_signals_value(rt: HostRuntime) {
    fresh::play::<Counted, ValuesGo>(&rt, rt.alloc(), &ValuesGo);
}
