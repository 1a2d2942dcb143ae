//! Images as rows, and what is asserted of them.

use crate::expected::assert_same;
use crate::fresh::Saves;
use generational_box::{CellImage, Image, LoadRefusal, Location, SlotImage};
use std::alloc::Global;
use std::fmt::Debug;
use std::process::Abort;

/// What a row's slot has: nothing, a value, a shared value, or a reference to a slot's generation.
#[derive(Clone, Copy)]
pub(crate) enum Cell {
    No,
    Own(u64),
    Shared(u64),
    To(usize, u64),
}

/// A slot: its generation and what it has.
pub(crate) type Slot = (u64, Cell);

/// Where the cells of all rows were made.
pub(crate) fn made() -> Location {
    Location::new("a.rs", 3, 5)
}

fn cell_image(cell: Cell) -> CellImage<u64> {
    match cell {
        Cell::No => CellImage::Empty,
        Cell::Own(value) => CellImage::Value(value, made()),
        Cell::Shared(value) => CellImage::Shared(value, made()),
        Cell::To(slot, generation) => CellImage::Reference(slot, generation, made()),
    }
}

/// The image of store 7 with these slots, this peak and this first generation, whose next ticket is 3.
pub(crate) fn image_of(
    rt: &impl Abort,
    alloc: Global,
    start: u64,
    peak: usize,
    rows: &[Slot],
) -> Image<u64> {
    let mut slots = Vec::with_capacity(alloc, rows.len()).expect(rt, "memory");
    for (generation, cell) in rows {
        let slot = SlotImage {
            generation: *generation,
            cell: cell_image(*cell),
        };
        slots.push(slot).expect(rt, "memory");
    }
    Image {
        number: 7,
        start,
        next: 3,
        peak,
        slots,
    }
}

/// What is printed of a thing.
pub(crate) fn text_of(rt: &impl Abort, alloc: Global, shown: &impl Debug) -> String {
    format!(in alloc; "{shown:?}").expect(rt, "memory")
}

/// The store, which must have been loaded.
pub(crate) fn loaded<T: Drop, S>(rt: &impl Abort, answer: Result<S, LoadRefusal<T>>) -> S {
    match answer {
        Ok(store) => store,
        Err(_) => panic!(rt; "the image wasn't loaded"),
    }
}

/// The image of a store, which must have one.
pub(crate) fn saved<T, S: Saves<T> + Drop>(rt: &impl Abort, store: S) -> Image<T> {
    match store.save() {
        Ok(image) => image,
        Err(_) => panic!(rt; "the store wasn't saved"),
    }
}

/// Asserts that the image of these slots is loaded, and saved again unchanged.
pub(crate) fn assert_loads<S: Saves<u64> + Drop>(
    rt: &impl Abort,
    alloc: Global,
    start: u64,
    peak: usize,
    rows: &[Slot],
) {
    let image = image_of(rt, alloc, start, peak, rows);
    let before = text_of(rt, alloc, &image);
    let store: S = loaded(rt, S::load(alloc, image));
    let image = saved(rt, store);
    assert_same(rt, &text_of(rt, alloc, &image), &before);
}
