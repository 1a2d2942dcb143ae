//! The rows of a store: of slots, cells, borrows and owners' records.

use crate::expected::{
    assert_released, begin, begin_write, end, given, insert, leak, made, made_later, new_owner,
    read, release, written,
};
use crate::fresh::{Scenario, play};
use crate::sharing::{insert_reference, leak_rc};
use generational_box::{AnyStorage, BaseRow, GenerationalBox, GenerationalBoxId, Storage};
use std::alloc::Global;
use std::process::Abort;

/// Asserts the rows of a store.
fn assert_rows<T, S: AnyStorage<T>>(rt: &impl Abort, store: &S, rows: &[BaseRow]) {
    let found = store.rows().expect(rt, "rows");
    assert!(rt; found.as_slice() == rows);
}

/// The id of what a reference names.
fn target<S: Storage<u32>>(
    rt: &impl Abort,
    store: &S,
    reference: GenerationalBox<u32>,
) -> GenerationalBoxId {
    store.target(reference.pointer()).expect(rt, "a reference")
}

/// An ended box has the row of its slot alone, and its name stays on its owner's list. Readers come after
/// the value that they read.
struct RowsOfEachKind;

impl Scenario<u32> for RowsOfEachKind {
    fn play<R: Abort, S: Storage<u32>>(rt: &R, _alloc: Global, store: &mut S) {
        assert_rows(rt, store, &[]);
        let owner = new_owner(rt, store);
        let ended = insert(rt, store, &owner, 1, made());
        let value = leak(rt, store, 2, made_later());
        let first = leak_rc(rt, store, 3, made());
        let second = insert_reference(rt, store, &owner, first);
        end(rt, store, ended);
        let writer = begin_write(rt, store, value, written());
        let reader = begin(rt, store, first, read());
        let beside = begin(rt, store, second, made_later());
        let shared = target(rt, store, first);
        let rows = [
            BaseRow::Slot(0, 1),
            BaseRow::Slot(1, 1),
            BaseRow::Value(value.id(), made_later()),
            BaseRow::Writer(value.id(), 1, written()),
            BaseRow::Slot(2, 1),
            BaseRow::Shared(shared, made()),
            BaseRow::Reader(shared, 2, read()),
            BaseRow::Reader(shared, 3, made_later()),
            BaseRow::Slot(3, 1),
            BaseRow::Ref(first.id(), shared, made()),
            BaseRow::Slot(4, 1),
            BaseRow::Ref(second.id(), shared, made()),
            BaseRow::Owner(0, 1),
            BaseRow::Owned(0, ended.id()),
            BaseRow::Owned(0, second.id()),
        ];
        assert_rows(rt, store, rows.as_slice());
        given(rt, writer.release(store));
        assert_released(rt, store, reader, true);
        assert_released(rt, store, beside, true);
        release(rt, store, owner);
    }
}

/// A record that came later stands where one was released, and its rows come last.
struct RecordsInOrder;

impl Scenario<u32> for RecordsInOrder {
    fn play<R: Abort, S: Storage<u32>>(rt: &R, _alloc: Global, store: &mut S) {
        let first = new_owner(rt, store);
        let second = new_owner(rt, store);
        release(rt, store, first);
        let third = new_owner(rt, store);
        let beside = third.clone(store).expect(rt, "an owner");
        assert_rows(rt, store, &[BaseRow::Owner(1, 1), BaseRow::Owner(2, 2)]);
        release(rt, store, second);
        assert_rows(rt, store, &[BaseRow::Owner(2, 2)]);
        release(rt, store, beside);
        release(rt, store, third);
        assert_rows(rt, store, &[]);
    }
}

#[test]
fn rows_of_each_kind_and_their_order(rt: HostRuntime) {
    play::<u32, RowsOfEachKind>(&rt, rt.alloc());
    play::<u32, RecordsInOrder>(&rt, rt.alloc());
}
