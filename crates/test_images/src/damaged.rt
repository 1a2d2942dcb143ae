//! Images that a store can have, and that none can.

use crate::expected::assert_same;
use crate::fresh::{Saves, Scene, play, play_oldest_first};
use crate::images::{Cell, Slot, assert_loads, image_of, text_of};
use Cell::{No, Own, Shared, To};
use generational_box::{ImageFault, LoadError, Storage};
use std::alloc::Global;
use std::process::Abort;

// A value at its second generation, a free slot, and a shared value with two references.
const SLOTS: [Slot; 5] = [
    (2, Own(12)),
    (1, No),
    (1, Shared(20)),
    (1, To(2, 1)),
    (1, To(2, 1)),
];

/// Images that are loaded and saved again.
struct Loads;

impl Scene<u64> for Loads {
    fn play<R: Abort, S: Storage<u64> + Saves<u64> + Drop>(
        &self,
        rt: &R,
        alloc: Global,
        _store: S,
    ) {
        assert_loads::<S>(rt, alloc, 1, 5, &SLOTS);
        // no slot, under any first generation
        assert_loads::<S>(rt, alloc, 0, 0, &[]);
        assert_loads::<S>(rt, alloc, u64::MAX, 0, &[]);
        // a retired slot needs no peak, a free and a live one do
        assert_loads::<S>(rt, alloc, 1, 0, &[(u64::MAX, No)]);
        assert_loads::<S>(rt, alloc, 1, 1, &[(u64::MAX, No), (u64::MAX - 1, No)]);
        assert_loads::<S>(rt, alloc, 1, 2, &[(u64::MAX, Own(1)), (u64::MAX, No)]);
        // a reference comes before its value, and values are at generation 0
        assert_loads::<S>(rt, alloc, 0, 2, &[(0, To(1, 0)), (0, Shared(5))]);
    }
}

#[test]
fn images_are_loaded_and_saved_again(rt: HostRuntime) {
    play::<u64, Loads>(&rt, rt.alloc(), 7, &Loads);
    play_oldest_first::<u64, Loads>(&rt, rt.alloc(), 7, &Loads);
}

/// Asserts that the image of these slots has a fault, and comes back unchanged.
fn assert_fault<S: Saves<u64> + Drop>(
    rt: &impl Abort,
    alloc: Global,
    start: u64,
    peak: usize,
    rows: &[Slot],
    fault: ImageFault,
) {
    let image = image_of(rt, alloc, start, peak, rows);
    let before = text_of(rt, alloc, &image);
    match S::load(alloc, image) {
        Ok(_) => panic!(rt; "the image was loaded"),
        Err(refusal) => {
            assert_same(rt, &refusal.cause, &LoadError::Unsound(fault));
            assert_same(rt, &text_of(rt, alloc, &refusal.image), &before);
        }
    }
}

/// Asserts that the five slots have a fault if the one at this index is another.
fn assert_fault_at<S: Saves<u64> + Drop>(
    rt: &impl Abort,
    alloc: Global,
    index: usize,
    slot: Slot,
    fault: ImageFault,
) {
    let mut slots = SLOTS;
    if index < 5 {
        slots[index] = slot;
    }
    assert_fault::<S>(rt, alloc, 1, 5, &slots, fault);
}

/// The five slots with other numbers, the first generation, the peak and the fault. Four cells are live,
/// and a slot is free.
const NUMBERS: [(u64, usize, ImageFault); 5] = [
    (2, 5, ImageFault::EarlyGeneration(1)),
    (1, 4, ImageFault::LowPeak),
    (1, 0, ImageFault::LowPeak),
    (1, 6, ImageFault::HighPeak),
    (1, usize::MAX, ImageFault::HighPeak),
];

/// Images with numbers that are too small or too great.
struct BadNumbers;

impl Scene<u64> for BadNumbers {
    fn play<R: Abort, S: Storage<u64> + Saves<u64> + Drop>(
        &self,
        rt: &R,
        alloc: Global,
        _store: S,
    ) {
        for (start, peak, fault) in NUMBERS {
            assert_fault::<S>(rt, alloc, start, peak, &SLOTS, fault);
        }
        assert_fault_at::<S>(rt, alloc, 4, (0, To(2, 1)), ImageFault::EarlyGeneration(4));
        // a free slot's generation counts too
        assert_fault_at::<S>(rt, alloc, 1, (0, No), ImageFault::EarlyGeneration(1));
        assert_fault::<S>(rt, alloc, 1, 1, &[], ImageFault::HighPeak);
    }
}

#[test]
fn numbers_are_too_small_or_too_great(rt: HostRuntime) {
    play::<u64, BadNumbers>(&rt, rt.alloc(), 7, &BadNumbers);
}

/// What a reference at slot 3 can't be to: no slot, a value, another generation, a reference, itself, a
/// free slot, and slots whose numbers have more than 32 bits.
const TARGETS: [(usize, u64); 9] = [
    (5, 1),
    (0, 2),
    (2, 2),
    (2, 0),
    (4, 1),
    (3, 1),
    (1, 1),
    (1 << 32 | 2, 1),
    (usize::MAX, 1),
];

/// References that are damaged.
struct BadReferences;

impl Scene<u64> for BadReferences {
    fn play<R: Abort, S: Storage<u64> + Saves<u64> + Drop>(
        &self,
        rt: &R,
        alloc: Global,
        _store: S,
    ) {
        let fault = ImageFault::DanglingReference(3);
        for (slot, generation) in TARGETS {
            assert_fault_at::<S>(rt, alloc, 3, (1, To(slot, generation)), fault);
        }
        // the shared value is a free slot, a value, or at its next generation
        for slot in [(1, No), (1, Own(20)), (2, Shared(20))] {
            assert_fault_at::<S>(rt, alloc, 2, slot, fault);
        }
    }
}

/// Shared values without a reference. The first fault is reported: generations before the peak, and
/// references after it.
struct BadValues;

impl Scene<u64> for BadValues {
    fn play<R: Abort, S: Storage<u64> + Saves<u64> + Drop>(
        &self,
        rt: &R,
        alloc: Global,
        _store: S,
    ) {
        let alone = (1, Shared(9));
        assert_fault_at::<S>(rt, alloc, 1, alone, ImageFault::UnreferencedValue(1));
        assert_fault::<S>(rt, alloc, 1, 1, &[alone], ImageFault::UnreferencedValue(0));
        let both = [(0, To(1, 1)), alone];
        assert_fault::<S>(rt, alloc, 1, 0, &both, ImageFault::EarlyGeneration(0));
        assert_fault::<S>(rt, alloc, 0, 0, &both, ImageFault::LowPeak);
        let dangling = [(0, To(1, 2)), alone];
        assert_fault::<S>(rt, alloc, 0, 2, &dangling, ImageFault::DanglingReference(0));
    }
}

#[test]
fn references_and_shared_values_are_damaged(rt: HostRuntime) {
    play::<u64, BadReferences>(&rt, rt.alloc(), 7, &BadReferences);
    play::<u64, BadValues>(&rt, rt.alloc(), 7, &BadValues);
}
