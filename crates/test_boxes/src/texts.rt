//! What is printed.

use crate::expected::{
    assert_prints, assert_released, assert_same, assert_shows, begin, begin_write, given, insert,
    leak, made, made_later, new_owner, read, written,
};
use crate::fresh::{Beginning, Kind, Over, Scenario, play, run_over};
use generational_box::{
    AlreadyBorrowedError, AlreadyBorrowedMutError, BorrowError, BorrowMutError, GenerationalBox,
    Location, Refused, Storage, StoreError, ValueDroppedError,
};
use std::alloc::Global;
use std::fmt::{Debug, Display};
use std::process::Abort;

const DROPPED: &str = "Failed to borrow because the value was dropped.created_at: a.rs:3:5";

const WRITTEN: &str =
    "Failed to borrow because the value was already borrowed mutably.borrowed_mut_at: w.rs:4:6";

const READ: &str =
    "Failed to borrow mutably because the value was already borrowed immutably.borrowed_at:\ta.rs:3:5\ta.rs:8:9";

const READ_BY_NOBODY: &str =
    "Failed to borrow mutably because the value was already borrowed immutably.borrowed_at:";

// An error prints the same alone and in each error that holds it, even after conversion to a write's
// error.
#[test]
fn errors_of_values_that_are_gone(rt: HostRuntime) {
    let alloc = rt.alloc();
    let gone = ValueDroppedError::new(made());
    assert_same(&rt, &gone.created_at(), &made());
    let held = BorrowError::Dropped(gone);
    assert_prints(&rt, alloc, &gone, DROPPED);
    assert_prints(&rt, alloc, &held, DROPPED);
    assert_prints(&rt, alloc, &BorrowMutError::Dropped(gone), DROPPED);
    assert_same(
        &rt,
        &BorrowMutError::from(held),
        &BorrowMutError::Dropped(gone),
    );
    let refused = Refused::Borrow(BorrowError::Dropped(gone));
    assert_prints(&rt, alloc, &refused, DROPPED);
}

#[test]
fn errors_of_values_that_are_written(rt: HostRuntime) {
    let alloc = rt.alloc();
    let written = AlreadyBorrowedMutError::new(Location::new("w.rs", 4, 6));
    let asked = BorrowError::AlreadyBorrowedMut(written);
    let held = BorrowMutError::AlreadyBorrowedMut(written);
    assert_prints(&rt, alloc, &written, WRITTEN);
    assert_prints(&rt, alloc, &asked, WRITTEN);
    assert_prints(&rt, alloc, &held, WRITTEN);
    assert_same(&rt, &BorrowMutError::from(asked), &held);
    let clone = given(&rt, held.clone());
    assert_prints(&rt, alloc, &Refused::Borrow(clone), WRITTEN);
}

/// An error of readers that began at these locations.
fn read_at(rt: &impl Abort, alloc: Global, began: &[Location]) -> AlreadyBorrowedError {
    AlreadyBorrowedError::new(given(rt, began.to_vec(alloc)))
}

/// Asserts what the error of two readers prints in the errors that hold it, and in their clones.
fn assert_held_prints(rt: &impl Abort, alloc: Global, read: AlreadyBorrowedError) {
    let held = BorrowMutError::AlreadyBorrowed(read);
    let clone = given(rt, held.clone());
    assert_prints(rt, alloc, &clone, READ);
    let refused = given(rt, Refused::Borrow(held).clone());
    assert_prints(rt, alloc, &refused, READ);
}

#[test]
fn errors_of_values_that_are_read(rt: HostRuntime) {
    let alloc = rt.alloc();
    let nobody = read_at(&rt, alloc, &[]);
    assert_prints(&rt, alloc, &nobody, READ_BY_NOBODY);
    let read = read_at(&rt, alloc, &[made(), made_later()]);
    assert_prints(&rt, alloc, &read, READ);
    assert!(rt; read != nobody);
    assert_held_prints(&rt, alloc, given(&rt, read.clone()));
}

#[test]
fn refusals_of_a_store(rt: HostRuntime) {
    for (error, text) in [
        (StoreError::OutOfMemory, "out of memory"),
        (StoreError::NumbersExhausted, "numbers exhausted"),
        (StoreError::UnknownOwner, "unknown owner"),
    ] {
        let refused: Refused<BorrowError> = Refused::Store(error);
        assert_prints(&rt, rt.alloc(), &error, text);
        assert_prints(&rt, rt.alloc(), &refused, text);
    }
}

/// Asserts what a location prints, and what it holds.
fn assert_location(
    rt: &impl Abort,
    alloc: Global,
    file: &'static str,
    place: (u32, u32),
    text: &str,
) {
    let (line, column) = place;
    let location = Location::new(file, line, column);
    assert_prints(rt, alloc, &location, text);
    assert_same(rt, &location.file(), &file);
    assert_same(rt, &(location.line(), location.column()), &place);
}

#[test]
fn locations(rt: HostRuntime) {
    assert_location(&rt, rt.alloc(), "a.rs", (3, 5), "a.rs:3:5");
    assert_location(&rt, rt.alloc(), "", (0, 10), ":0:10");
    let text = "src/\u{e9}.rs:4294967295:0";
    assert_location(&rt, rt.alloc(), "src/\u{e9}.rs", (u32::MAX, 0), text);
}

/// A box in slot 10.
fn tenth<S: Storage<u32>>(rt: &impl Abort, store: &mut S) -> GenerationalBox<u32> {
    for value in 0..10 {
        leak(rt, store, value, made());
    }
    leak(rt, store, 10, made())
}

/// Asserts what a box prints, and its pointer. A clone has the same pointer.
fn assert_box_shows(rt: &impl Abort, alloc: Global, shown: GenerationalBox<u32>, text: &str) {
    assert_shows(rt, alloc, &shown, text);
    assert_shows(rt, alloc, &shown.pointer(), text);
    let clone = shown.clone().expect(rt, "a clone");
    assert!(rt; shown.pointer() == clone.pointer());
}

struct TenthBox;

impl Scenario<u32> for TenthBox {
    fn play<R: Abort, S: Storage<u32>>(rt: &R, alloc: Global, store: &mut S) {
        let last = tenth(rt, store);
        assert_box_shows(rt, alloc, last, "10@1");
    }
}

// A box and its pointer print the slot and the generation, in decimal.
#[test]
fn boxes(rt: HostRuntime) {
    play::<u32, TenthBox>(&rt, rt.alloc());
}

/// Asserts that a value is printed so to a developer, over several lines.
fn assert_spreads(rt: &impl Abort, alloc: Global, shown: &impl Debug, text: &str) {
    let shown = format!(in alloc; "{shown:#?}").expect(rt, "memory");
    assert_same(rt, &shown.as_str(), &text);
}

const LOCATION: &str = "Location { file: \"a.rs\", line: 3, column: 5 }";

const LOCATION_SPREAD: &str = "\
Location {
    file: \"a.rs\",
    line: 3,
    column: 5,
}";

const GONE: &str = "\
Dropped(
    ValueDroppedError {
        created_at: Location {
            file: \"a.rs\",
            line: 3,
            column: 5,
        },
    },
)";

const STANDING: &str = "\
Borrow(
    AlreadyBorrowed(
        AlreadyBorrowedError {
            borrowed_at: [
                Location {
                    file: \"a.rs\",
                    line: 3,
                    column: 5,
                },
            ],
        },
    ),
)";

// To a developer, values are printed as Rust's derives print them.
#[test]
fn texts_for_developers(rt: HostRuntime) {
    let alloc = rt.alloc();
    assert_shows(&rt, alloc, &made(), LOCATION);
    assert_spreads(&rt, alloc, &made(), LOCATION_SPREAD);
    let gone = BorrowError::Dropped(ValueDroppedError::new(made()));
    assert_spreads(&rt, alloc, &gone, GONE);
    let read = read_at(&rt, alloc, &[made()]);
    let standing = Refused::Borrow(BorrowMutError::AlreadyBorrowed(read));
    assert_spreads(&rt, alloc, &standing, STANDING);
    let lacking: Refused<BorrowError> = Refused::Store(StoreError::OutOfMemory);
    assert_shows(&rt, alloc, &lacking, "Store(OutOfMemory)");
    let writer = AlreadyBorrowedMutError::new(made());
    let text = format!(in alloc; "AlreadyBorrowedMutError {{ borrowed_mut_at: {LOCATION} }}");
    assert_shows(&rt, alloc, &writer, given(&rt, text).as_str());
}

/// Asserts that a value is printed so, whatever the width.
fn assert_wide(rt: &impl Abort, alloc: Global, printed: &impl Display, text: &str) {
    let left = format!(in alloc; "{printed:200}").expect(rt, "memory");
    assert_same(rt, &left.as_str(), &text);
    let right = format!(in alloc; "{printed:*>200.3}").expect(rt, "memory");
    assert_same(rt, &right.as_str(), &text);
}

/// Asserts that a value is printed so to a developer, whatever the width, and on one line where
/// several are asked for.
fn assert_wide_for_developers(rt: &impl Abort, alloc: Global, shown: &impl Debug, text: &str) {
    let right = format!(in alloc; "{shown:*>200?}").expect(rt, "memory");
    assert_same(rt, &right.as_str(), &text);
    assert_spreads(rt, alloc, shown, text);
}

/// Asserts so of a store of eleven values, its last box, its owner and the guards of a value.
struct NamesWide;

impl<R: Abort> Over<u32, R> for NamesWide {
    type Answer = ();

    fn run<K: Kind<u32>>(rt: &R, alloc: Global, number: u64, beginning: Beginning) {
        let mut store = K::make(alloc, number, beginning);
        let last = tenth(rt, &mut store);
        assert_wide_for_developers(rt, alloc, &last, "10@1");
        assert_wide_for_developers(rt, alloc, &last.id(), "10@1");
        assert_wide_for_developers(rt, alloc, &store, "store 7: 11 slots, 0 free");
        let owner = new_owner(rt, &mut store);
        assert_wide_for_developers(rt, alloc, &owner, "owner 0 of store 7");
        let only = insert(rt, &mut store, &owner, 1, made());
        let guard = begin(rt, &mut store, only, read());
        assert_wide_for_developers(rt, alloc, &guard, "reader 1 of 11@1");
        assert_released(rt, &mut store, guard, true);
        let guard = begin_write(rt, &mut store, only, written());
        assert_wide_for_developers(rt, alloc, &guard, "writer 2 of 11@1");
        given(rt, guard.release(&mut store));
        owner.leak();
    }
}

/// Asserts so of errors and their parts.
fn assert_errors_wide(rt: &impl Abort, alloc: Global) {
    assert_wide(rt, alloc, &made(), "a.rs:3:5");
    assert_wide(rt, alloc, &StoreError::OutOfMemory, "out of memory");
    let gone = ValueDroppedError::new(made());
    assert_wide(rt, alloc, &gone, DROPPED);
    let refused = Refused::Borrow(BorrowError::Dropped(gone));
    assert_wide(rt, alloc, &refused, DROPPED);
    let written = AlreadyBorrowedMutError::new(Location::new("w.rs", 4, 6));
    assert_wide(rt, alloc, &written, WRITTEN);
    let read = read_at(rt, alloc, &[made(), made_later()]);
    assert_wide(rt, alloc, &read, READ);
}

// None of these texts is padded or cut, as none is in upstream.
#[test]
fn texts_with_a_width(rt: HostRuntime) {
    assert_errors_wide(&rt, rt.alloc());
    run_over::<u32, _, NamesWide>(&rt, rt.alloc(), 7, Beginning::First);
}
