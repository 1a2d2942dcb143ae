//! Drawn lists where memory runs out. Each test passes whichever allocation fails: a list is run twice,
//! and all replies before the first call that fails are the same, with their ids.

use crate::expected::given;
use boxes_script::{fuzz_list, is_lacking, is_same};
use generational_box::{Call, LastFirst, OldestFirst, Reply, Session, SlotPool, Storage, Store};
use std::alloc::Global;
use std::process::Abort;

/// How many calls a list has.
const COUNT: usize = 200;

/// Draws a list. If an allocation fails, it is drawn again: smaller requests may fail too, a few times.
fn list_or_again(rt: &impl Abort, alloc: Global, seed: u64) -> Vec<Call<String>> {
    for _ in 0..9 {
        if let Ok(calls) = fuzz_list(alloc, seed, COUNT) {
            return calls;
        }
    }
    fuzz_list(alloc, seed, COUNT).expect(rt, "memory")
}

/// The replies to a list. One that finds no room for its places or replies is run again.
fn replies_or_again<S: Storage<String>>(
    rt: &impl Abort,
    session: &mut Session<String, S>,
    calls: Vec<Call<String>>,
) -> Vec<Reply<String>> {
    let ran = match session.run(calls) {
        Err(back) => session.run(back),
        ran => ran,
    };
    given(rt, ran)
}

/// The replies of a store to a drawn list.
fn answers<S: Storage<String> + Drop>(
    rt: &impl Abort,
    alloc: Global,
    store: S,
    seed: u64,
) -> Vec<Reply<String>> {
    assert!(rt; store.is_fresh());
    let mut session = Session::new(alloc, store);
    let replies = replies_or_again(rt, &mut session, list_or_again(rt, alloc, seed));
    let _store = session.finish();
    replies
}

/// Whether two replies name the same id or slot, where they name one.
fn names_same(one: &Reply<String>, other: &Reply<String>) -> bool {
    match (one, other) {
        (Reply::Box(one), Reply::Box(other)) => one.id() == other.id(),
        (Reply::Id(one), Reply::Id(other)) => one == other,
        (Reply::Slot(one), Reply::Slot(other)) => one == other,
        _ => true,
    }
}

/// Asserts that replies are the same up to the first one that says that memory ran out.
fn assert_same_before_refusal(rt: &impl Abort, ones: &[Reply<String>], others: &[Reply<String>]) {
    assert!(rt; ones.len() == COUNT && others.len() == COUNT);
    for (one, other) in ones.iter().zip(others) {
        if is_lacking(one) || is_lacking(other) {
            return;
        }
        assert!(rt; is_same(one, other) && names_same(one, other));
    }
}

/// Runs a drawn list over two stores of one kind.
fn assert_runs<S: Storage<String> + Drop>(
    rt: &impl Abort,
    alloc: Global,
    one: S,
    other: S,
    seed: u64,
) {
    let ones = answers(rt, alloc, one, seed);
    let others = answers(rt, alloc, other, seed);
    assert_same_before_refusal(rt, &ones, &others);
}

/// Runs the drawn lists of these seeds, each over two new stores.
fn assert_seeds<P: SlotPool + Drop>(rt: &impl Abort, alloc: Global, seeds: [u64; 2]) {
    for seed in seeds {
        let one: Store<String, P> = Store::new(alloc, 1);
        let other: Store<String, P> = Store::new(alloc, 1);
        assert_runs(rt, alloc, one, other, seed);
    }
}

// Over stores that take the slot that was freed last.
#[test]
fn the_first_list_and_the_third(rt: HostRuntime) {
    assert_seeds::<LastFirst>(&rt, rt.alloc(), [1, 3]);
}

// Over stores that take the slot that has been free for the longest.
#[test]
fn the_second_list_and_the_fourth(rt: HostRuntime) {
    assert_seeds::<OldestFirst>(&rt, rt.alloc(), [2, 4]);
}
