//! Scenarios with their own stores, which are made here once, for all of them.
//!
//! A function with a concrete store type, which makes or passes on such a store, is proved with all that
//! a storage must meet, which takes as long as ten others. So a store is made by its `Kind`, which its
//! user doesn't know, and `run_over` alone says which kind that is.

use crate::sessions::session_over;
use generational_box::{
    LastFirst, Numbers, OldestFirst, Session, SlotPool, Storage, Store, StoreError,
};
use std::alloc::Global;
use std::fmt::Debug;
use std::process::Abort;

/// Where a new store's numbers begin.
#[derive(Clone, Copy)]
pub(crate) enum Beginning {
    First,
    LastGeneration,
    Ticket(u64),
}

/// A kind of stores, by which one is made and has room made in it.
pub(crate) trait Kind<T> {
    type Made: Storage<T> + Debug + Drop;

    fn make(alloc: Global, number: u64, beginning: Beginning) -> Self::Made;

    fn reserve(store: &mut Self::Made, more: usize) -> Result<(), StoreError>;
}

impl<T: Drop, P: SlotPool + Drop> Kind<T> for P {
    type Made = Store<T, P>;

    fn make(alloc: Global, number: u64, beginning: Beginning) -> Store<T, P> {
        let (generation, ticket) = match beginning {
            Beginning::First => (1, 0),
            Beginning::LastGeneration => (u64::MAX, 0),
            Beginning::Ticket(ticket) => (1, ticket),
        };
        Store::new_at(alloc, number, Numbers { generation, ticket })
    }

    fn reserve(store: &mut Store<T, P>, more: usize) -> Result<(), StoreError> {
        store.reserve(more)
    }
}

/// What is done with stores of whatever kind, of a number and with a beginning that are passed in.
pub(crate) trait Over<T, R> {
    type Answer;

    fn run<K: Kind<T>>(rt: &R, alloc: Global, number: u64, beginning: Beginning) -> Self::Answer;
}

/// Does something with stores that take the slot that was freed last.
pub(crate) fn run_over<T: Drop, R, A: Over<T, R>>(
    rt: &R,
    alloc: Global,
    number: u64,
    beginning: Beginning,
) -> A::Answer {
    A::run::<LastFirst>(rt, alloc, number, beginning)
}

/// Does the same with stores that take the slot that has been free for the longest.
pub(crate) fn run_over_oldest_first<T: Drop, R, A: Over<T, R>>(
    rt: &R,
    alloc: Global,
    number: u64,
    beginning: Beginning,
) -> A::Answer {
    A::run::<OldestFirst>(rt, alloc, number, beginning)
}

/// What happens with a store that is dropped in the end.
pub(crate) trait Life<T> {
    fn live<R: Abort, S: Storage<T> + Drop>(rt: &R, alloc: Global, store: S);
}

/// A life, of a store that is made for it.
struct Lived<P>(P);

impl<T, R: Abort, P: Life<T>> Over<T, R> for Lived<P> {
    type Answer = ();

    fn run<K: Kind<T>>(rt: &R, alloc: Global, number: u64, beginning: Beginning) {
        P::live(rt, alloc, K::make(alloc, number, beginning));
    }
}

/// Runs a life over an empty store with these first numbers.
fn live_from<T: Drop, P: Life<T>>(rt: &impl Abort, alloc: Global, beginning: Beginning) {
    run_over::<T, _, Lived<P>>(rt, alloc, 7, beginning);
}

/// Runs a life over an empty store.
pub(crate) fn live<T: Drop, P: Life<T>>(rt: &impl Abort, alloc: Global) {
    live_from::<T, P>(rt, alloc, Beginning::First);
}

/// What happens in one store.
pub(crate) trait Scenario<T> {
    fn play<R: Abort, S: Storage<T>>(rt: &R, alloc: Global, store: &mut S);
}

/// A scenario, and then its store's end.
struct Played<P>(P);

impl<T, P: Scenario<T>> Life<T> for Played<P> {
    fn live<R: Abort, S: Storage<T> + Drop>(rt: &R, alloc: Global, mut store: S) {
        P::play(rt, alloc, &mut store);
    }
}

/// Plays a scenario in an empty store.
pub(crate) fn play<T: Drop, P: Scenario<T>>(rt: &impl Abort, alloc: Global) {
    live::<T, Played<P>>(rt, alloc);
}

/// Plays a scenario in an empty store whose slots have the last generation.
pub(crate) fn play_at_last_generation<T: Drop, P: Scenario<T>>(rt: &impl Abort, alloc: Global) {
    live_from::<T, Played<P>>(rt, alloc, Beginning::LastGeneration);
}

/// Plays a scenario in an empty store whose next ticket is this one.
pub(crate) fn play_at_ticket<T: Drop, P: Scenario<T>>(rt: &impl Abort, alloc: Global, ticket: u64) {
    live_from::<T, Played<P>>(rt, alloc, Beginning::Ticket(ticket));
}

/// What happens with two stores that go in the end.
pub(crate) trait LifeOfTwo<T> {
    fn live<R: Abort, S: Storage<T> + Drop>(rt: &R, alloc: Global, seven: S, other: S);
}

/// The life of two stores that are made for it.
struct LivedOfTwo<P>(P);

impl<T, R: Abort, P: LifeOfTwo<T>> Over<T, R> for LivedOfTwo<P> {
    type Answer = ();

    fn run<K: Kind<T>>(rt: &R, alloc: Global, number: u64, beginning: Beginning) {
        let seven = K::make(alloc, 7, beginning);
        P::live(rt, alloc, seven, K::make(alloc, number, beginning));
    }
}

/// Runs a life over two empty stores, of which one has the number 7 and the other this one.
fn live_with<T: Drop, P: LifeOfTwo<T>>(rt: &impl Abort, alloc: Global, number: u64) {
    run_over::<T, _, LivedOfTwo<P>>(rt, alloc, number, Beginning::First);
}

/// Runs a life over two empty stores, with the numbers 7 and 8.
pub(crate) fn live_in_two_stores<T: Drop, P: LifeOfTwo<T>>(rt: &impl Abort, alloc: Global) {
    live_with::<T, P>(rt, alloc, 8);
}

/// What happens in two stores.
pub(crate) trait TwoStoreScenario<T> {
    fn play<R: Abort, S: Storage<T>>(rt: &R, alloc: Global, seven: &mut S, eight: &mut S);
}

/// A scenario, and then the end of its two stores.
struct PlayedInTwo<P>(P);

impl<T, P: TwoStoreScenario<T>> LifeOfTwo<T> for PlayedInTwo<P> {
    fn live<R: Abort, S: Storage<T> + Drop>(rt: &R, alloc: Global, mut seven: S, mut other: S) {
        P::play(rt, alloc, &mut seven, &mut other);
    }
}

/// Plays a scenario in two empty stores, with the numbers 7 and 8.
pub(crate) fn play_in_two_stores<T: Drop, P: TwoStoreScenario<T>>(rt: &impl Abort, alloc: Global) {
    live_with::<T, PlayedInTwo<P>>(rt, alloc, 8);
}

/// Plays a scenario in two empty stores that both have the number 7.
pub(crate) fn play_in_twins<T: Drop, P: TwoStoreScenario<T>>(rt: &impl Abort, alloc: Global) {
    live_with::<T, PlayedInTwo<P>>(rt, alloc, 7);
}

/// What happens in a session.
pub(crate) trait SessionScenario {
    fn play<R: Abort, S: Storage<u32>>(rt: &R, alloc: Global, session: &mut Session<u32, S>);
}

/// A scenario, and then its session's end.
struct PlayedInSession<P>(P);

impl<P: SessionScenario> Life<u32> for PlayedInSession<P> {
    fn live<R: Abort, S: Storage<u32> + Drop>(rt: &R, alloc: Global, store: S) {
        let mut session = session_over(rt, alloc, store);
        P::play(rt, alloc, &mut session);
        let _store = session.finish();
    }
}

/// Plays a scenario in a session over an empty store.
pub(crate) fn play_in_session<P: SessionScenario>(rt: &impl Abort, alloc: Global) {
    live::<u32, PlayedInSession<P>>(rt, alloc);
}
