//! What is dropped: values that are removed, that are replaced, and that a store still has when it is
//! dropped itself. Each is counted by what std's `Rc` counts.

use crate::expected::{
    assert_released, assert_same, begin, begin_write, end, given, insert, leak, made, new_owner,
    push, read, release, written,
};
use crate::fresh::{
    Life, LifeOfTwo, Scenario, TwoStoreScenario, live, live_in_two_stores, play,
    play_at_last_generation, play_in_two_stores,
};
use crate::sessions::{ask, session_over};
use crate::sharing::{insert_rc, insert_reference, leak_rc, leak_reference, point};
use crate::values::clone_of;
use generational_box::{
    BoxAt, Call, GenerationalBox, GenerationalRef, GenerationalRefMut, Owner, Refusal, Session,
    Storage,
};
use std::alloc::Global;
use std::process::Abort;
use std::rc::Rc;

/// A value that is counted.
type Counted = Rc<u32>;

/// A value of which the test keeps a clone.
fn counted(rt: &impl Abort, alloc: Global) -> Counted {
    Rc::new(alloc, 5).ok().expect(rt, "memory")
}

/// Another clone of a value.
fn another(rt: &impl Abort, value: &Counted) -> Counted {
    value.clone().expect(rt, "a clone")
}

/// Makes a box of another clone.
fn leak_clone<S: Storage<Counted>>(
    rt: &impl Abort,
    store: &mut S,
    value: &Counted,
) -> GenerationalBox<Counted> {
    leak(rt, store, another(rt, value), made())
}

/// Makes a box of another clone by an owner.
fn insert_clone<S: Storage<Counted>>(
    rt: &impl Abort,
    store: &mut S,
    owner: &Owner,
    value: &Counted,
) {
    insert(rt, store, owner, another(rt, value), made());
}

/// Makes a shared value of another clone.
fn share_clone<S: Storage<Counted>>(
    rt: &impl Abort,
    store: &mut S,
    value: &Counted,
) -> GenerationalBox<Counted> {
    leak_rc(rt, store, another(rt, value), made())
}

/// Asserts how many clones of a value there are.
fn assert_count(rt: &impl Abort, value: &Counted, count: usize) {
    assert_eq!(rt; Rc::strong_count(value), count);
}

struct Ends;

impl Scenario<Counted> for Ends {
    fn play<R: Abort, S: Storage<Counted>>(rt: &R, alloc: Global, store: &mut S) {
        let value = counted(rt, alloc);
        let first = leak_clone(rt, store, &value);
        let second = leak_clone(rt, store, &value);
        assert_count(rt, &value, 3);
        end(rt, store, first);
        assert_count(rt, &value, 2);
        end(rt, store, second);
        assert_count(rt, &value, 1);
    }
}

// Even if the slot retires with its value.
#[test]
fn an_ended_value(rt: HostRuntime) {
    play::<Counted, Ends>(&rt, rt.alloc());
    play_at_last_generation::<Counted, Ends>(&rt, rt.alloc());
}

/// Another owner value.
fn clone_owner<S: Storage<Counted>>(rt: &impl Abort, store: &mut S, owner: &Owner) -> Owner {
    owner.clone(store).expect(rt, "a clone")
}

struct Releases;

impl Scenario<Counted> for Releases {
    fn play<R: Abort, S: Storage<Counted>>(rt: &R, alloc: Global, store: &mut S) {
        let value = counted(rt, alloc);
        let owner = new_owner(rt, store);
        insert_clone(rt, store, &owner, &value);
        insert_clone(rt, store, &owner, &value);
        let other = clone_owner(rt, store, &owner);
        assert_count(rt, &value, 3);
        release(rt, store, other);
        assert_count(rt, &value, 3);
        release(rt, store, owner);
        assert_count(rt, &value, 1);
    }
}

#[test]
fn values_of_an_owner(rt: HostRuntime) {
    play::<Counted, Releases>(&rt, rt.alloc());
}

/// Replaces a writer's value, and drops the old one.
fn replace(guard: &mut GenerationalRefMut<Counted>, value: Counted) {
    let _old = guard.replace(value);
}

/// Ends a write.
fn put_back<S: Storage<Counted>>(
    rt: &impl Abort,
    store: &mut S,
    guard: GenerationalRefMut<Counted>,
) {
    given(rt, guard.release(store));
}

/// Replaces a writer's value through its view.
fn overwrite(guard: &mut GenerationalRefMut<Counted>, value: Counted) {
    *guard.deref_mut() = value;
}

/// A write drops the value that it replaces, and no other.
struct Writes;

impl Scenario<Counted> for Writes {
    fn play<R: Abort, S: Storage<Counted>>(rt: &R, alloc: Global, store: &mut S) {
        let first = counted(rt, alloc);
        let second = counted(rt, alloc);
        let only = leak_clone(rt, store, &first);
        let mut guard = begin_write(rt, store, only, written());
        replace(&mut guard, another(rt, &second));
        assert_count(rt, &first, 1);
        put_back(rt, store, guard);
        assert_count(rt, &second, 2);

        let mut guard = begin_write(rt, store, only, written());
        overwrite(&mut guard, another(rt, &first));
        assert_count(rt, &second, 1);
        put_back(rt, store, guard);
        assert_count(rt, &first, 2);
        end(rt, store, only);
        assert_count(rt, &first, 1);
    }
}

/// Sets a value that may be written, and drops the old value.
fn set<S: Storage<Counted>>(
    rt: &impl Abort,
    store: &mut S,
    asked: GenerationalBox<Counted>,
    value: Counted,
) {
    if asked.can_write(store) {
        asked.set(store, value);
    } else {
        assert!(rt; false, "the value is borrowed");
    }
}

/// Sets a value that may be written, and returns the old one.
fn exchange<S: Storage<Counted>>(
    rt: &impl Abort,
    store: &mut S,
    asked: GenerationalBox<Counted>,
    value: Counted,
) -> Counted {
    if asked.can_write(store) {
        store.replace_value(asked.pointer(), value)
    } else {
        panic!(rt; "the value is borrowed")
    }
}

/// A set drops the old value, an exchange returns it.
struct Sets;

impl Scenario<Counted> for Sets {
    fn play<R: Abort, S: Storage<Counted>>(rt: &R, alloc: Global, store: &mut S) {
        let first = counted(rt, alloc);
        let second = counted(rt, alloc);
        let only = leak_clone(rt, store, &first);
        set(rt, store, only, another(rt, &second));
        assert_count(rt, &first, 1);
        assert_count(rt, &second, 2);
        let old = exchange(rt, store, only, another(rt, &first));
        assert_count(rt, &second, 2);
        drop(old);
        assert_count(rt, &second, 1);
        end(rt, store, only);
        assert_count(rt, &first, 1);
    }
}

#[test]
fn a_value_that_is_replaced_or_set_away(rt: HostRuntime) {
    play::<Counted, Writes>(&rt, rt.alloc());
    play::<Counted, Sets>(&rt, rt.alloc());
}

/// Drops the value that a failed making returns.
fn assert_refused(
    rt: &impl Abort,
    made: Result<GenerationalBox<Counted>, Refusal<Counted>>,
    value: &Counted,
) {
    assert_count(rt, value, 2);
    assert!(rt; made.is_err());
    drop(made);
    assert_count(rt, value, 1);
}

/// Asserts that a store makes nothing by an owner of another store.
fn assert_nothing_made<S: Storage<Counted>>(
    rt: &impl Abort,
    store: &mut S,
    stranger: &Owner,
    value: &Counted,
) {
    let made_here = stranger.insert(store, another(rt, value), made());
    assert_refused(rt, made_here, value);
    let shared_here = stranger.insert_rc(store, another(rt, value), made());
    assert_refused(rt, shared_here, value);
}

/// Asserts that a store doesn't take what a writer of another store has.
fn assert_not_taken<S: Storage<Counted>>(
    rt: &impl Abort,
    store: &mut S,
    guard: GenerationalRefMut<Counted>,
    value: &Counted,
) {
    let back = guard.release(store);
    assert_count(rt, value, 2);
    assert!(rt; back.is_err());
    drop(back);
    assert_count(rt, value, 1);
}

/// The value of a failed making, and that of a writer of another store, comes back.
struct HandedBack;

impl TwoStoreScenario<Counted> for HandedBack {
    fn play<R: Abort, S: Storage<Counted>>(rt: &R, alloc: Global, seven: &mut S, eight: &mut S) {
        let value = counted(rt, alloc);
        let owner = new_owner(rt, eight);
        assert_nothing_made(rt, seven, &owner, &value);
        owner.leak();
        let own = leak_clone(rt, seven, &value);
        let guard = begin_write(rt, seven, own, written());
        assert_not_taken(rt, eight, guard, &value);
    }
}

/// Ends a read.
fn end_read<S: Storage<Counted>>(rt: &impl Abort, store: &mut S, guard: GenerationalRef<Counted>) {
    assert_released(rt, store, guard, true);
}

/// Removes a box and drops the value that it returns.
fn take_away<S: Storage<Counted>>(
    rt: &impl Abort,
    store: &mut S,
    asked: GenerationalBox<Counted>,
    value: &Counted,
) {
    let taken = asked.take(store).expect(rt, "a value");
    assert_count(rt, value, 2);
    assert!(rt; Rc::ptr_eq(&taken, value));
}

/// Asserts that a box returns nothing.
fn assert_none_taken<S: Storage<Counted>>(
    rt: &impl Abort,
    store: &mut S,
    asked: GenerationalBox<Counted>,
) {
    assert!(rt; asked.take(store).is_none());
}

/// It is the caller's alone. One that is read, or that is shared, isn't returned.
struct HandsOut;

impl Scenario<Counted> for HandsOut {
    fn play<R: Abort, S: Storage<Counted>>(rt: &R, alloc: Global, store: &mut S) {
        let value = counted(rt, alloc);
        let own = leak_clone(rt, store, &value);
        let guard = begin(rt, store, own, read());
        assert_none_taken(rt, store, own);
        end_read(rt, store, guard);
        take_away(rt, store, own, &value);
        assert_none_taken(rt, store, own);
        assert_count(rt, &value, 1);
        let shared = share_clone(rt, store, &value);
        assert_none_taken(rt, store, shared);
        assert_count(rt, &value, 2);
        end(rt, store, shared);
        assert_count(rt, &value, 1);
    }
}

#[test]
fn a_value_that_comes_back(rt: HostRuntime) {
    play_in_two_stores::<Counted, HandedBack>(&rt, rt.alloc());
    play::<Counted, HandsOut>(&rt, rt.alloc());
    play_at_last_generation::<Counted, HandsOut>(&rt, rt.alloc());
}

/// It is dropped once, with the last reference to it.
struct Shares;

impl Scenario<Counted> for Shares {
    fn play<R: Abort, S: Storage<Counted>>(rt: &R, alloc: Global, store: &mut S) {
        let value = counted(rt, alloc);
        let owner = new_owner(rt, store);
        let first = insert_rc(rt, store, &owner, another(rt, &value), made());
        let second = leak_reference(rt, store, first);
        insert_reference(rt, store, &owner, second);
        assert_count(rt, &value, 2);
        end(rt, store, first);
        assert_count(rt, &value, 2);
        release(rt, store, owner);
        assert_count(rt, &value, 2);
        end(rt, store, second);
        assert_count(rt, &value, 1);
    }
}

/// A reference that is pointed elsewhere drops the value if it was the last reference to it.
struct Turns;

impl Scenario<Counted> for Turns {
    fn play<R: Abort, S: Storage<Counted>>(rt: &R, alloc: Global, store: &mut S) {
        let old = counted(rt, alloc);
        let new = counted(rt, alloc);
        let reference = share_clone(rt, store, &old);
        let other = share_clone(rt, store, &new);
        point(rt, store, reference, other);
        assert_count(rt, &old, 1);
        end(rt, store, other);
        assert_count(rt, &new, 2);
        end(rt, store, reference);
        assert_count(rt, &new, 1);
    }
}

#[test]
fn a_value_with_references(rt: HostRuntime) {
    play::<Counted, Shares>(&rt, rt.alloc());
    play::<Counted, Turns>(&rt, rt.alloc());
}

struct Clones;

impl Scenario<Counted> for Clones {
    fn play<R: Abort, S: Storage<Counted>>(rt: &R, alloc: Global, store: &mut S) {
        let value = counted(rt, alloc);
        let only = leak_clone(rt, store, &value);
        let guard = begin(rt, store, only, read());
        let clone = clone_of(rt, store, &guard);
        assert_count(rt, &value, 3);
        drop(clone);
        assert_count(rt, &value, 2);
        assert_released(rt, store, guard, true);
        end(rt, store, only);
        assert_count(rt, &value, 1);
    }
}

// A view's clone is another one, which its holder drops.
#[test]
fn a_value_that_was_cloned(rt: HostRuntime) {
    play::<Counted, Clones>(&rt, rt.alloc());
}

/// Makes a box without an owner, one by an owner that is leaked, and a shared value with two references,
/// in a store that is dropped.
fn fill<S: Storage<Counted> + Drop>(rt: &impl Abort, mut store: S, value: &Counted) {
    leak_clone(rt, &mut store, value);
    let owner = new_owner(rt, &mut store);
    insert_clone(rt, &mut store, &owner, value);
    owner.leak();
    let shared = share_clone(rt, &mut store, value);
    leak_reference(rt, &mut store, shared);
    assert_count(rt, value, 4);
}

/// Begins a read and a write of two values, in a store that is dropped.
fn borrow_two<S: Storage<Counted> + Drop>(
    rt: &impl Abort,
    mut store: S,
    value: &Counted,
) -> (GenerationalRef<Counted>, GenerationalRefMut<Counted>) {
    let first = leak_clone(rt, &mut store, value);
    let second = leak_clone(rt, &mut store, value);
    let reader = begin(rt, &mut store, first, read());
    (reader, begin_write(rt, &mut store, second, written()))
}

/// Consumes guards whose store is gone: the reader's value went with it, the writer's is the guard's.
fn spend<S: Storage<Counted> + Drop>(
    rt: &impl Abort,
    mut store: S,
    (reader, writer): (GenerationalRef<Counted>, GenerationalRefMut<Counted>),
    value: &Counted,
) {
    assert_count(rt, value, 2);
    assert!(rt; !reader.release(&mut store));
    assert_count(rt, value, 2);
    assert!(rt; writer.release(&mut store).is_err());
    assert_count(rt, value, 1);
}

struct Filled;

impl Life<Counted> for Filled {
    fn live<R: Abort, S: Storage<Counted> + Drop>(rt: &R, alloc: Global, store: S) {
        let value = counted(rt, alloc);
        fill(rt, store, &value);
        assert_count(rt, &value, 1);
    }
}

struct OutlivedByGuards;

impl LifeOfTwo<Counted> for OutlivedByGuards {
    fn live<R: Abort, S: Storage<Counted> + Drop>(rt: &R, alloc: Global, store: S, other: S) {
        let value = counted(rt, alloc);
        let guards = borrow_two(rt, store, &value);
        spend(rt, other, guards, &value);
    }
}

// Live and shared values, values of leaked owners, and values that are read are dropped with the store.
// Values that are written are dropped with their guards.
#[test]
fn values_of_a_store(rt: HostRuntime) {
    live::<Counted, Filled>(&rt, rt.alloc());
    live_in_two_stores::<Counted, OutlivedByGuards>(&rt, rt.alloc());
}

/// The calls of the next tests, by their places. Those that take no value drop it.
fn call_at(place: usize, value: Counted) -> Call<Counted> {
    match place {
        0 => Call::Leak(value, made()),
        1 => Call::TryWrite(BoxAt::Place(0), written()),
        2 => Call::Replace(1, value),
        3 => Call::Replace(0, value),
        4 => Call::Set(BoxAt::Place(0), value),
        5 => Call::Release(1),
        6 => Call::Set(BoxAt::Place(0), value),
        7 => Call::ManuallyDrop(BoxAt::Place(0)),
        8 => Call::Set(BoxAt::Place(0), value),
        9 => Call::Insert(0, value, made()),
        10 => Call::InsertRc(0, value, made()),
        11 => Call::Owner,
        12 => Call::Insert(11, value, made()),
        13 => Call::InsertRc(11, value, made()),
        14 => Call::LeakReference(BoxAt::Place(13)),
        15 => Call::ReleaseOwner(11),
        16 => Call::ManuallyDrop(BoxAt::Place(14)),
        17 => Call::LeakRc(value, made()),
        18 => Call::LeakRc(value, made()),
        19 => Call::PointTo(BoxAt::Place(17), BoxAt::Place(18)),
        20 => Call::Leak(value, made()),
        21 => Call::TryWrite(BoxAt::Place(20), written()),
        _ => Call::TryRead(BoxAt::Place(18), read()),
    }
}

/// How many clones there are after each of these calls, the test's own among them.
const COUNTS: [usize; 23] = [
    2, 2, 2, 2, 2, 2, 2, 1, 1, 1, 1, 1, 2, 3, 3, 2, 1, 2, 3, 2, 3, 3, 3,
];

/// Ends a session, and then its store.
fn finish<S: Storage<Counted> + Drop>(
    rt: &impl Abort,
    session: Session<Counted, S>,
    value: &Counted,
) {
    assert_count(rt, value, 3);
    let store = session.finish();
    assert_count(rt, value, 3);
    drop(store);
    assert_count(rt, value, 1);
}

/// A session drops what it removes and what comes back in a reply, and keeps a writer's value until the
/// store is dropped.
struct Calls;

impl Life<Counted> for Calls {
    fn live<R: Abort, S: Storage<Counted> + Drop>(rt: &R, alloc: Global, store: S) {
        let mut session = session_over(rt, alloc, store);
        let value = counted(rt, alloc);
        for (place, count) in COUNTS.iter().enumerate() {
            ask(rt, &mut session, call_at(place, another(rt, &value)));
            assert_same(rt, &(place, Rc::strong_count(&value)), &(place, *count));
        }
        finish(rt, session, &value);
    }
}

/// Runs the calls as one list, and drops the replies.
fn run<S: Storage<Counted>>(
    rt: &impl Abort,
    alloc: Global,
    session: &mut Session<Counted, S>,
    value: &Counted,
) {
    let mut list = Vec::new(alloc);
    for place in 0..COUNTS.len() {
        let asked = call_at(place, another(rt, value));
        push(rt, &mut list, asked);
    }
    given(rt, session.run(list));
}

/// So does one that runs a list.
struct ListOfCalls;

impl Life<Counted> for ListOfCalls {
    fn live<R: Abort, S: Storage<Counted> + Drop>(rt: &R, alloc: Global, store: S) {
        let mut session = session_over(rt, alloc, store);
        let value = counted(rt, alloc);
        run(rt, alloc, &mut session, &value);
        finish(rt, session, &value);
    }
}

#[test]
fn values_of_a_session_and_of_a_list_of_calls(rt: HostRuntime) {
    live::<Counted, Calls>(&rt, rt.alloc());
    live::<Counted, ListOfCalls>(&rt, rt.alloc());
}
