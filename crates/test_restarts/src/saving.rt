//! A shared store that is saved.

use generational_box::{
    CellImage, GenerationalBox, GenerationalBoxId, Image, Location, SaveError, SlotImage,
};
use generational_sync::{Count, SyncStorage, Tally};
use std::process::Abort;
use std::sync::Wait;

/// An image, the id of a box that it has, and that of a box whose value was dropped before.
#[derive(Drop)]
pub(crate) struct Saved {
    pub(crate) image: Image<u64>,
    pub(crate) kept: GenerationalBoxId,
    pub(crate) gone: GenerationalBoxId,
}

/// Where all values are made.
pub(crate) fn made_at() -> Location {
    Location::new("a.rs", 3, 5)
}

/// Where all values are read.
pub(crate) fn read_at() -> Location {
    Location::new("r.rs", 1, 2)
}

/// A new box of a value.
pub(crate) fn leak<A: Count, B: Count, C: Count, D: Count>(
    rt: &(impl Abort + Wait),
    store: &SyncStorage<u64, 7, A, B, C, D>,
    value: u64,
    tally: &mut Tally<A, B, C, D>,
) -> GenerationalBox<u64> {
    match store.leak(rt, value, made_at(), tally) {
        Ok(made) => made,
        Err(_) => panic!(rt; "no box"),
    }
}

// Asserts that there is no image while a value is read, nor while the store has an owner's record.
// These are four steps.
fn assert_not_saved<A: Count, B: Count, C: Count, D: Count>(
    rt: &(impl Abort + Wait),
    store: &SyncStorage<u64, 7, A, B, C, D>,
    asked: GenerationalBox<u64>,
    tally: &mut Tally<A, B, C, D>,
) {
    let guard = store
        .read(rt, asked, read_at(), tally)
        .expect(rt, "a guard");
    let slot = asked.id().slot;
    assert_eq!(rt; store.image(rt).err(), Some(SaveError::Borrowed(slot)));
    assert!(rt; store.release_read(rt, guard, tally));
    let owner = store.owner(rt, tally).expect(rt, "an owner");
    assert_eq!(rt; store.image(rt).err(), Some(SaveError::Owned));
    if let Err((owner, _)) = store.release_owner(rt, owner, tally) {
        owner.leak();
        panic!(rt; "an owner that stays");
    }
}

// Asserts that a slot has this value, or none, at its first generation.
fn assert_slot(rt: &impl Abort, slot: Option<&SlotImage<u64>>, value: Option<u64>) {
    let slot = slot.expect(rt, "a slot");
    let found = match &slot.cell {
        CellImage::Value(found, location) => {
            assert_eq!(rt; *location, made_at());
            Some(*found)
        }
        CellImage::Empty => None,
        _ => panic!(rt; "a shared value"),
    };
    assert_eq!(rt; (slot.generation, found), (1, value));
}

/// Asserts that an image has the value 10 in slot 0, and that slot 1 is free.
pub(crate) fn assert_image(rt: &impl Abort, image: &Image<u64>) {
    assert_eq!(rt; (image.number, image.start), (7, 1));
    assert_eq!(rt; (image.peak, image.slots.len()), (2, 2));
    assert_slot(rt, image.slots.get(0), Some(10));
    assert_slot(rt, image.slots.get(1), None);
}

/// Makes two boxes in a new store, drops the value of the second, and saves. The history that comes
/// with the image has these seven steps.
pub(crate) fn save<A: Count, B: Count, C: Count, D: Count>(
    rt: &(impl Abort + Wait),
    store: &SyncStorage<u64, 7, A, B, C, D>,
    tally: &mut Tally<A, B, C, D>,
) -> Saved {
    let kept = leak(rt, store, 10, tally);
    let gone = leak(rt, store, 20, tally);
    assert!(rt; store.manually_drop(rt, gone, tally).is_ok());
    assert_not_saved(rt, store, kept, tally);
    assert!(rt; tally.is_whole());
    let (audited, base, steps) = store
        .audited_image(rt, tally)
        .expect(rt, "an audited image");
    assert_eq!(rt; (base.trimmed(), steps.len()), (0, 7));
    assert_image(rt, &audited);
    let image = store.image(rt).expect(rt, "an image");
    assert_image(rt, &image);
    Saved {
        image,
        kept: kept.id(),
        gone: gone.id(),
    }
}
