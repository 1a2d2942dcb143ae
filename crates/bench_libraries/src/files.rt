//! Files of a store of numbers, and what a plain copy of the same bytes costs.

use crate::laps::{Laps, mix};
use generational_box::{AnyStorage, GenerationalBox, Location, Storage, UnsyncStorage};
use saved_bytes::{read_image, write_image};
use std::alloc::Global;
use std::io::Write;
use std::time::Clock;
use store_images::{CellImage, Image};

/// Makes the operations over n values, and returns a sum of those that were loaded. None if a call wasn't
/// carried out.
pub(crate) fn run<R: Clock>(
    rt: &R,
    alloc: Global,
    laps: &mut Laps,
    store: &mut UnsyncStorage<u64>,
    order: &Vec<usize>,
) -> Option<u64> {
    fill(store, order)?;
    laps.begin(rt)?;
    let saved = image(store)?;
    laps.end(rt, "image")?;
    let file = save(alloc, &saved)?;
    laps.end(rt, "save")?;
    let copied = copy(alloc, file.as_slice())?;
    laps.end(rt, "copy")?;
    let loaded = load(alloc, copied.as_slice())?;
    laps.end(rt, "load")?;
    let seen = sum(&loaded);
    laps.begin(rt)?;
    make(alloc, loaded)?;
    laps.end(rt, "make")?;
    Some(seen)
}

fn here() -> Location {
    Location::new("files.rt", 9, 9)
}

// Stores the numbers in the drawn order.
fn fill(store: &mut UnsyncStorage<u64>, order: &Vec<usize>) -> Option<()> {
    for number in order {
        let _stored = GenerationalBox::leak(store, *number as u64, here()).ok()?;
    }
    Some(())
}

#[inline(never)]
fn image(store: &UnsyncStorage<u64>) -> Option<Image<u64>> {
    store.image().ok()
}

#[inline(never)]
fn save(alloc: Global, image: &Image<u64>) -> Option<Vec<u8>> {
    let mut file = Vec::new(alloc);
    write_image(alloc, image, &mut file).ok()?;
    Some(file)
}

// The same bytes, by the same writer.
#[inline(never)]
fn copy(alloc: Global, bytes: &[u8]) -> Option<Vec<u8>> {
    let mut file = Vec::new(alloc);
    file.write_all(bytes).ok()?;
    Some(file)
}

#[inline(never)]
fn load(alloc: Global, bytes: &[u8]) -> Option<Image<u64>> {
    let mut input = bytes;
    read_image(alloc, &mut input, &["files.rt"], here()).ok()
}

#[inline(never)]
fn make(alloc: Global, image: Image<u64>) -> Option<UnsyncStorage<u64>> {
    UnsyncStorage::from_image(alloc, image).ok()
}

// The values, in the order of the slots.
fn sum(image: &Image<u64>) -> u64 {
    let mut seen = 0;
    for slot in &image.slots {
        if let CellImage::Value(value, _) = &slot.cell {
            seen = mix(seen, *value);
        }
    }
    seen
}
