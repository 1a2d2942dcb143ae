//! Memory runs out at the last numbers, beside another store, and for values of other types. Each test
//! passes whichever allocation fails, and what may fail to allocate is tried a second time.

use crate::again_memory::{assert_borrowed, insert_or_again, leak_or_again, owner_or_again};
use crate::expected::{
    assert_kept, assert_opens, assert_released, assert_same, assert_unknown, assert_unread, begin,
    begin_write, counts_of, dropped, end, given, made, made_later, read, written,
};
use crate::fresh::{
    Scenario, TwoStoreScenario, play, play_at_last_generation, play_at_ticket, play_in_two_stores,
};
use crate::values::{Note, assert_value, clone_of};
use generational_box::{
    AlreadyBorrowedMutError, AnyStorage, BorrowError, GenerationalRef, Owner, Refused, Storage,
    StoreError,
};
use std::alloc::Global;
use std::process::Abort;

/// Asserts what a store counts: slots, free ones, retired ones, and the most live at once.
fn assert_counts<S: AnyStorage<u32>>(rt: &impl Abort, store: &S, counts: [usize; 4]) {
    let found = [
        store.slots(),
        store.free(),
        store.retired(),
        store.peak_live(),
    ];
    assert_same(rt, &found, &counts);
}

/// Values at the last generation, one after the other.
///
/// A slot whose generation was the last is retired, and another is made.
struct LastGeneration;

impl Scenario<u32> for LastGeneration {
    fn play<R: Abort, S: Storage<u32>>(rt: &R, _: Global, store: &mut S) {
        let first = leak_or_again(rt, store, 1);
        assert_same(rt, &first.raw_ptr(), &0);
        end(rt, store, first);
        assert_counts(rt, store, [1, 0, 1, 1]);
        let second = leak_or_again(rt, store, 2);
        assert_same(rt, &second.raw_ptr(), &1);
        assert_counts(rt, store, [2, 0, 1, 1]);
        assert_unread(rt, store, first, dropped(made()));
    }
}

/// Asserts that no ticket is left, so that no owner is given, nor a clone of one.
fn assert_exhausted(rt: &impl Abort, answer: Result<Owner, StoreError>) {
    match answer {
        Ok(given) => {
            given.leak();
            panic!(rt; "the owner was given");
        }
        Err(cause) => assert_same(rt, &cause, &StoreError::NumbersExhausted),
    }
}

/// A store without tickets gives none, for a read or for an owner.
///
/// If tickets are used up, that is the error even if an allocation would fail too.
struct NoTicket;

impl Scenario<u32> for NoTicket {
    fn play<R: Abort, S: Storage<u32>>(rt: &R, _: Global, store: &mut S) {
        assert_same(rt, &store.tickets_left(), &0);
        let only = leak_or_again(rt, store, 1);
        let exhausted = Refused::Store(StoreError::NumbersExhausted);
        assert_unread(rt, store, only, exhausted);
        assert_exhausted(rt, store.owner());
        assert!(rt; only.can_write(store));
    }
}

/// The last ticket goes to an owner, and none is left for its clone.
struct LastTicket;

impl Scenario<u32> for LastTicket {
    fn play<R: Abort, S: Storage<u32>>(rt: &R, _: Global, store: &mut S) {
        assert_same(rt, &store.tickets_left(), &1);
        let owner = owner_or_again(rt, store);
        assert_exhausted(rt, owner.clone(store));
        owner.leak();
    }
}

#[test]
fn at_the_last_generation_and_tickets(rt: HostRuntime) {
    play_at_last_generation::<u32, LastGeneration>(&rt, rt.alloc());
    play_at_ticket::<u32, NoTicket>(&rt, rt.alloc(), u64::MAX);
    play_at_ticket::<u32, LastTicket>(&rt, rt.alloc(), u64::MAX - 1);
}

struct Strangers;

impl TwoStoreScenario<u32> for Strangers {
    fn play<R: Abort, S: Storage<u32>>(rt: &R, _: Global, seven: &mut S, eight: &mut S) {
        let own_value = leak_or_again(rt, seven, 70);
        let foreign = leak_or_again(rt, eight, 80);
        let owner = owner_or_again(rt, eight);
        let before = counts_of(seven);
        assert_unread(rt, seven, foreign, dropped(made()));
        end(rt, seven, foreign);
        assert_unknown(rt, owner.insert(seven, 9, made_later()), 9);
        let unknown = Refused::Store(StoreError::UnknownOwner);
        assert_kept(rt, seven, owner, unknown).leak();
        let writer = begin_write(rt, eight, foreign, written());
        assert_same(rt, &writer.release(seven), &Err(80));
        assert_same(rt, &counts_of(seven), &before);
        let lent = BorrowError::AlreadyBorrowedMut(AlreadyBorrowedMutError::new(written()));
        assert_unread(rt, eight, foreign, Refused::Borrow(lent));
        let guard = begin(rt, seven, own_value, read());
        assert_opens(rt, seven, &guard, Some(70));
        assert_released(rt, seven, guard, true);
    }
}

// A box, an owner and a writer of store 8 change nothing in store 7, which makes no box by such an owner,
// and returns the values.
#[test]
fn beside_another_store(rt: HostRuntime) {
    play_in_two_stores::<u32, Strangers>(&rt, rt.alloc());
}

/// A text, the second time at the latest.
fn text(rt: &impl Abort, alloc: Global, letters: &str) -> String {
    match String::from_str(alloc, letters) {
        Ok(text) => text,
        Err(_) => String::from_str(alloc, letters).expect(rt, "memory"),
    }
}

/// A value that is read stays as it is while its owner makes another, of another kind.
struct Notes;

impl Scenario<Note> for Notes {
    fn play<R: Abort, S: Storage<Note>>(rt: &R, alloc: Global, store: &mut S) {
        let owner = owner_or_again(rt, store);
        let first = insert_or_again(
            rt,
            store,
            &owner,
            Note::Text(text(rt, alloc, "hello world")),
        );
        let guard = begin(rt, store, first, read());
        insert_or_again(rt, store, &owner, Note::Number(1));
        assert_value(
            rt,
            store,
            &guard,
            &Note::Text(text(rt, alloc, "hello world")),
        );
        assert_released(rt, store, guard, true);
        owner.leak();
    }
}

/// Asserts what the views of a pair give: a clone, the second part, and none.
fn assert_parts<S: Storage<(u32, u32)>>(
    rt: &impl Abort,
    store: &S,
    guard: &GenerationalRef<(u32, u32)>,
) {
    let whole = guard.deref(store).expect(rt, "a view");
    assert_same(rt, &whole.cloned(), &Ok((1, 2)));
    assert_same(rt, &*whole.map(|pair| &pair.1), &2);
    let other = guard.deref(store).expect(rt, "a view");
    assert!(rt; other.try_map(|_pair| None::<&u32>).is_none());
}

/// Views don't allocate, and the borrow outlives them.
struct Pairs;

impl Scenario<(u32, u32)> for Pairs {
    fn play<R: Abort, S: Storage<(u32, u32)>>(rt: &R, alloc: Global, store: &mut S) {
        let pair = leak_or_again(rt, store, (1, 2));
        let guard = begin(rt, store, pair, read());
        assert_parts(rt, store, &guard);
        assert_borrowed(rt, alloc, store, pair, &[read()]);
        assert_released(rt, store, guard, true);
    }
}

/// A clone that fails to allocate leaves nothing behind.
struct Texts;

impl Scenario<String> for Texts {
    fn play<R: Abort, S: Storage<String>>(rt: &R, alloc: Global, store: &mut S) {
        let only = leak_or_again(rt, store, text(rt, alloc, "hello world"));
        let guard = begin(rt, store, only, read());
        let clone = match clone_of(rt, store, &guard) {
            Err(StoreError::OutOfMemory) => clone_of(rt, store, &guard),
            answer => answer,
        };
        assert_same(rt, &given(rt, clone).as_str(), &"hello world");
        assert_released(rt, store, guard, true);
    }
}

#[test]
fn for_values_of_several_types(rt: HostRuntime) {
    play::<Note, Notes>(&rt, rt.alloc());
    play::<(u32, u32), Pairs>(&rt, rt.alloc());
    play::<String, Texts>(&rt, rt.alloc());
}
