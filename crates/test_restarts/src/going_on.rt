//! Shared stores and states that go on from an image.

use crate::saving::{Saved, assert_image, leak, made_at, read_at};
use generational_box::{BaseRow, GenerationalBoxId};
use generational_sync::{Base, Count, SyncState, SyncStorage, Tally};
use std::process::Abort;
use std::sync::Wait;

// Asserts that no steps were trimmed, and that a base has one value, in the first of two slots.
fn assert_base(rt: &impl Abort, base: &Base, kept: GenerationalBoxId) {
    assert_eq!(rt; (base.trimmed(), base.number(), base.peak()), (0, 7, 2));
    let value = BaseRow::Value(kept, made_at());
    let rows = [BaseRow::Slot(0, 1), value, BaseRow::Slot(1, 1)];
    assert!(rt; base.rows() == rows.as_slice());
}

// Reads the saved box. These are two steps.
fn read<A: Count, B: Count, C: Count, D: Count>(
    rt: &(impl Abort + Wait),
    store: &SyncStorage<u64, 7, A, B, C, D>,
    kept: GenerationalBoxId,
    tally: &mut Tally<A, B, C, D>,
) -> Option<u64> {
    let found = store.find(rt, kept).expect(rt, "the saved box");
    let guard = store
        .read(rt, found, read_at(), tally)
        .expect(rt, "a guard");
    let value = store.open(rt, &guard, |value| *value);
    assert!(rt; store.release_read(rt, guard, tally));
    value
}

/// Asserts that a store which goes on has no steps, the saved value, and no box of the dropped one. The
/// next box takes the free slot, under a generation that it didn't have.
pub(crate) fn go_on<A: Count, B: Count, C: Count, D: Count>(
    rt: &(impl Abort + Wait),
    store: &SyncStorage<u64, 7, A, B, C, D>,
    tally: &mut Tally<A, B, C, D>,
    kept: GenerationalBoxId,
    gone: GenerationalBoxId,
) {
    assert!(rt; tally.is_whole());
    let (base, steps) = store.audit(rt, tally).expect(rt, "an audit");
    assert_eq!(rt; steps.len(), 0);
    assert_base(rt, &base, kept);
    assert!(rt; store.find(rt, gone).is_none());
    assert_eq!(rt; read(rt, store, kept, tally), Some(10));
    let next = leak(rt, store, 30, tally).id();
    assert_eq!(rt; (next.slot, next.generation), (1, 2));
    assert!(rt; store.find(rt, gone).is_none());
    assert!(rt; tally.is_whole());
    let (_, steps) = store.audit(rt, tally).expect(rt, "an audit");
    assert_eq!(rt; steps.len(), 3);
}

/// Asserts the same of a state, except for the calls, and saves it again.
pub(crate) fn save_again<A: Count, B: Count, C: Count, D: Count>(
    rt: &impl Abort,
    state: &mut SyncState<u64, 7, A, B, C, D>,
    tally: &mut Tally<A, B, C, D>,
    kept: GenerationalBoxId,
    gone: GenerationalBoxId,
) -> Saved {
    assert!(rt; tally.is_whole());
    let (base, steps) = state.audit(tally).expect(rt, "an audit");
    assert_eq!(rt; steps.len(), 0);
    assert_base(rt, &base, kept);
    assert!(rt; state.find(kept).is_some());
    assert!(rt; state.find(gone).is_none());
    let image = state.image().expect(rt, "an image");
    assert_image(rt, &image);
    Saved { image, kept, gone }
}
