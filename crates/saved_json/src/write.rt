//! An image as JSON.

use generational_core::Location;
use serde::{Described, Serialize, Serializer};
use serde_json::Error;
use std::alloc::Global;
use store_images::{CellImage, Image, SlotImage};

#[derive(Clone, Copy)]
struct Written<'a, T>(&'a Image<T>);

impl<'a, T> Described for Written<'a, T> {}

impl<'a, T: Serialize> Serialize for Written<'a, T> {
    fn serialize<S: Serializer>(&self, out: &mut S) -> Result<(), S::Error> {
        let image = self.0;
        out.begin_map(Some(5))?;
        out.key("number")?;
        out.u64(image.number)?;
        out.key("start")?;
        out.u64(image.start)?;
        out.key("next")?;
        out.u64(image.next)?;
        out.key("peak")?;
        out.u64(image.peak as u64)?;
        out.key("slots")?;
        write_slots(image.slots.as_slice(), out)?;
        out.end_map()
    }
}

fn write_slots<T: Serialize, S: Serializer>(
    slots: &[SlotImage<T>],
    out: &mut S,
) -> Result<(), S::Error> {
    out.begin_seq(Some(slots.len()))?;
    for slot in slots {
        write_slot(slot, out)?;
    }
    out.end_seq()
}

fn write_slot<T: Serialize, S: Serializer>(
    slot: &SlotImage<T>,
    out: &mut S,
) -> Result<(), S::Error> {
    out.begin_map(None)?;
    out.key("generation")?;
    out.u64(slot.generation)?;
    match &slot.cell {
        CellImage::Empty => {}
        CellImage::Value(value, made) => {
            out.key("value")?;
            value.serialize(out)?;
            write_made(*made, out)?;
        }
        CellImage::Shared(value, made) => {
            out.key("shared")?;
            value.serialize(out)?;
            write_made(*made, out)?;
        }
        CellImage::Reference(target, generation, made) => {
            out.key("reference")?;
            (*target as u64, *generation).serialize(out)?;
            write_made(*made, out)?;
        }
    }
    out.end_map()
}

fn write_made<S: Serializer>(made: Location, out: &mut S) -> Result<(), S::Error> {
    out.key("made")?;
    (made.file(), made.line(), made.column()).serialize(out)
}

/// The JSON text of an image, on one line.
///
/// It is an object with the members `number`, `start`, `next`, `peak` and `slots`. A slot is an object
/// with its `generation`; a live one also has `value`, `shared`, or `reference` (the slot and the
/// generation that it refers to), and `made`, its location: the file, the line and the column.
///
/// # Errors
///
/// - That of a value's `serialize`.
/// - An error of memory if an allocation fails.
///
/// ```
/// let text = write_json(rt.alloc(), &store.image()?)?;
/// ```
pub fn write_json<T: Serialize>(alloc: Global, image: &Image<T>) -> Result<String, Error> {
    serde_json::to_string(alloc, &Written(image))
}
