//! The locations of the scenarios, and calls over any store, one a function, with the results that they
//! must have.

use generational_box::{
    AlreadyBorrowedError, AnyStorage, BorrowError, BorrowMutError, GenerationalBox,
    GenerationalRef, GenerationalRefMut, Location, Owner, Refusal, Refused, Storage, StoreError,
    ValueDroppedError,
};
use std::alloc::Global;
use std::fmt::{Debug, Display};
use std::process::Abort;

/// Where a value is made.
pub(crate) fn made() -> Location {
    Location::new("a.rs", 3, 5)
}

/// Where another value is made.
pub(crate) fn made_later() -> Location {
    Location::new("a.rs", 8, 9)
}

/// Where a value is read.
pub(crate) fn read() -> Location {
    Location::new("r.rs", 1, 2)
}

/// Where a value is written.
pub(crate) fn written() -> Location {
    Location::new("w.rs", 4, 6)
}

/// What a store counts now: its slots, the live ones, the free ones, the retired ones, the most that were
/// live at once, and the tickets that are left.
pub(crate) fn counts_of<T, S: AnyStorage<T>>(store: &S) -> [u64; 6] {
    [
        store.slots() as u64,
        store.len() as u64,
        store.free() as u64,
        store.retired() as u64,
        store.peak_live() as u64,
        store.tickets_left(),
    ]
}

/// The result of a call that must not fail. It is proved once, for all types: a closure that destructures
/// an error is proved at each use.
pub(crate) fn given<T, E: Drop>(rt: &impl Abort, answer: Result<T, E>) -> T {
    match answer {
        Ok(given) => given,
        Err(_) => panic!(rt; "it was refused"),
    }
}

/// Adds to a list.
pub(crate) fn push<T: Drop>(rt: &impl Abort, list: &mut Vec<T>, value: T) {
    given(rt, list.push(value));
}

/// Makes a box of a value.
pub(crate) fn leak<T: Drop, S: Storage<T>>(
    rt: &impl Abort,
    store: &mut S,
    value: T,
    made: Location,
) -> GenerationalBox<T> {
    given(rt, GenerationalBox::leak(store, value, made))
}

/// Begins a read.
pub(crate) fn begin<T, S: Storage<T>>(
    rt: &impl Abort,
    store: &mut S,
    asked: GenerationalBox<T>,
    began: Location,
) -> GenerationalRef<T> {
    asked.try_read(store, began).expect(rt, "a guard")
}

/// Begins a write.
pub(crate) fn begin_write<T, S: Storage<T>>(
    rt: &impl Abort,
    store: &mut S,
    asked: GenerationalBox<T>,
    began: Location,
) -> GenerationalRefMut<T> {
    asked.try_write(store, began).expect(rt, "a guard")
}

/// Makes an owner.
pub(crate) fn new_owner<T, S: AnyStorage<T>>(rt: &impl Abort, store: &mut S) -> Owner {
    store.owner().expect(rt, "an owner")
}

/// Makes a box of a value by an owner.
pub(crate) fn insert<T: Drop, S: Storage<T>>(
    rt: &impl Abort,
    store: &mut S,
    owner: &Owner,
    value: T,
    made: Location,
) -> GenerationalBox<T> {
    given(rt, owner.insert(store, value, made))
}

/// Releases an owner.
pub(crate) fn release<T, S: AnyStorage<T>>(rt: &impl Abort, store: &mut S, owner: Owner) {
    match owner.release(store) {
        Ok(()) => {}
        Err((back, refusal)) => {
            back.leak();
            assert!(rt; false, "the owner came back: {refusal}");
        }
    }
}

/// The owner that comes back from a release that fails so.
pub(crate) fn assert_kept<T, S: AnyStorage<T>>(
    rt: &impl Abort,
    store: &mut S,
    owner: Owner,
    refusal: Refused<BorrowMutError>,
) -> Owner {
    match owner.release(store) {
        Ok(()) => panic!(rt; "the owner was released"),
        Err((back, found)) => {
            assert_same(rt, &found, &refusal);
            back
        }
    }
}

/// The error of a read of a box that was made at a location.
pub(crate) fn dropped(made: Location) -> Refused<BorrowError> {
    Refused::Borrow(BorrowError::Dropped(ValueDroppedError::new(made)))
}

/// The error of an end while it is read by readers that began at these locations, in this order.
pub(crate) fn borrowed(
    rt: &impl Abort,
    alloc: Global,
    began: &[Location],
) -> Refused<BorrowMutError> {
    let began = began.to_vec(alloc).expect(rt, "memory");
    Refused::Borrow(BorrowMutError::AlreadyBorrowed(AlreadyBorrowedError::new(began)))
}

/// Asserts that a read gives this number.
pub(crate) fn assert_reads<S: Storage<u32>>(
    rt: &impl Abort,
    store: &mut S,
    asked: GenerationalBox<u32>,
    number: u32,
) {
    let guard = begin(rt, store, asked, read());
    assert_opens(rt, store, &guard, Some(number));
    assert_released(rt, store, guard, true);
}

/// The owner that comes back from a release while a reader that began at this location is active.
pub(crate) fn assert_kept_by_reader<T, S: AnyStorage<T>>(
    rt: &impl Abort,
    alloc: Global,
    store: &mut S,
    owner: Owner,
    began: Location,
) -> Owner {
    assert_kept(rt, store, owner, borrowed(rt, alloc, &[began]))
}

/// Asserts that a read fails so.
pub(crate) fn assert_unread<T: Drop, S: Storage<T>>(
    rt: &impl Abort,
    store: &mut S,
    asked: GenerationalBox<T>,
    refusal: Refused<BorrowError>,
) {
    match asked.try_read(store, read()) {
        Ok(guard) => {
            guard.release(store);
            assert!(rt; false, "the read was given");
        }
        Err(found) => assert_same(rt, &found, &refusal),
    }
}

/// Asserts that a making fails as its owner is unknown, and that this value comes back.
pub(crate) fn assert_unknown(
    rt: &impl Abort,
    answer: Result<GenerationalBox<u32>, Refusal<u32>>,
    value: u32,
) {
    match answer {
        Ok(_) => panic!(rt; "the box was made"),
        Err(refusal) => assert_same(
            rt,
            &(refusal.value, refusal.cause),
            &(value, StoreError::UnknownOwner),
        ),
    }
}

/// Asserts that a write fails so.
pub(crate) fn assert_unwritten<T: Drop, S: Storage<T>>(
    rt: &impl Abort,
    store: &mut S,
    asked: GenerationalBox<T>,
    refusal: Refused<BorrowMutError>,
) {
    match asked.try_write(store, written()) {
        Ok(_) => panic!(rt; "the write was given"),
        Err(found) => assert_same(rt, &found, &refusal),
    }
}

/// Asserts that a guard opens this number, or nothing.
pub(crate) fn assert_opens<S: Storage<u32>>(
    rt: &impl Abort,
    store: &S,
    guard: &GenerationalRef<u32>,
    number: Option<u32>,
) {
    assert_same(rt, &guard.deref(store).map(|view| *view), &number);
}

/// Ends a read that the store knows, or one that it doesn't.
pub(crate) fn assert_released<T, S: Storage<T>>(
    rt: &impl Abort,
    store: &mut S,
    guard: GenerationalRef<T>,
    is_known: bool,
) {
    assert_same(rt, &guard.release(store), &is_known);
}

/// Removes a box's cell.
pub(crate) fn end<T, S: Storage<T>>(rt: &impl Abort, store: &mut S, asked: GenerationalBox<T>) {
    given(rt, asked.manually_drop(store));
}

/// Asserts that the end of a box's cell fails so.
pub(crate) fn assert_stays<T, S: Storage<T>>(
    rt: &impl Abort,
    store: &mut S,
    asked: GenerationalBox<T>,
    refusal: Refused<BorrowMutError>,
) {
    assert_same(rt, &asked.manually_drop(store), &Err(refusal));
}

/// Asserts that a value is printed so.
pub(crate) fn assert_prints(rt: &impl Abort, alloc: Global, printed: &impl Display, text: &str) {
    let printed = format!(in alloc; "{printed}").expect(rt, "memory");
    assert_same(rt, &printed.as_str(), &text);
}

/// Asserts that a value is printed so to a developer.
pub(crate) fn assert_shows(rt: &impl Abort, alloc: Global, shown: &impl Debug, text: &str) {
    let shown = format!(in alloc; "{shown:?}").expect(rt, "memory");
    assert_same(rt, &shown.as_str(), &text);
}

/// Asserts that a value is what it should be. Other than `assert_eq`, whose texts are proved at each
/// use for the types there, it is proved once for all types.
pub(crate) fn assert_same<T: PartialEq + Debug>(rt: &impl Abort, found: &T, wanted: &T) {
    assert_eq!(rt; *found, *wanted);
}
