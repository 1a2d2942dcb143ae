//! An image from JSON.

use generational_core::Location;
use serde::{Deserialize, DeserializeOwned, Deserializer, Format, Name};
use serde_json::Error;
use std::alloc::{AllocError, Global};
use store_images::{CellImage, Image, SlotImage};

// A location as it is in the text: the file, the line and the column.
type Made = (String, u32, u32);

// What a live slot has.
#[derive(Drop)]
enum Content<T> {
    Value(T),
    Shared(T),
    Reference(usize, u64),
}

// The members of a slot that were read so far.
#[derive(Drop)]
struct SlotText<T> {
    generation: Option<u64>,
    content: Option<Content<T>>,
    made: Option<Made>,
}

// The members of an image that were read so far.
#[derive(Drop)]
struct Members<T> {
    number: Option<u64>,
    start: Option<u64>,
    next: Option<u64>,
    peak: Option<usize>,
    slots: Option<Vec<SlotText<T>>>,
}

// All members of an image.
#[derive(Drop)]
struct ImageText<T> {
    number: u64,
    start: u64,
    next: u64,
    peak: usize,
    slots: Vec<SlotText<T>>,
}

// Sets a member that wasn't read before.
fn set<M: Drop, F: Format>(
    member: &mut Option<M>,
    value: M,
    from: &Deserializer<'_, '_, F>,
    name: &str,
) -> Result<(), F::Error> {
    match member.replace(value) {
        None => Ok(()),
        Some(_) => Err(from.duplicate(name)),
    }
}

// A member that must be there.
fn needed<M: Drop, F: Format>(
    member: Option<M>,
    from: &Deserializer<'_, '_, F>,
    name: &str,
) -> Result<M, F::Error> {
    match member {
        Some(value) => Ok(value),
        None => Err(from.missing(name)),
    }
}

impl<T: DeserializeOwned> SlotText<T> {
    // Reads the member whose name has this index.
    fn read_member<F: Format>(
        &mut self,
        alloc: Global,
        from: &mut Deserializer<'_, '_, F>,
        index: usize,
    ) -> Result<(), F::Error> {
        match index {
            0 => {
                let generation = u64::deserialize_owned(alloc, from)?;
                set(&mut self.generation, generation, from, "generation")
            }
            1 => {
                let made = Made::deserialize_owned(alloc, from)?;
                set(&mut self.made, made, from, "made")
            }
            2 => {
                let content = Content::Value(T::deserialize_owned(alloc, from)?);
                set(&mut self.content, content, from, "value")
            }
            3 => {
                let content = Content::Shared(T::deserialize_owned(alloc, from)?);
                set(&mut self.content, content, from, "shared")
            }
            4 => {
                let (slot, generation) = <(usize, u64)>::deserialize_owned(alloc, from)?;
                let content = Content::Reference(slot, generation);
                set(&mut self.content, content, from, "reference")
            }
            _ => Err(from.unknown_key()),
        }
    }
}

impl<T: DeserializeOwned> DeserializeOwned for SlotText<T> {
    fn deserialize_owned<F: Format>(
        alloc: Global,
        from: &mut Deserializer<'_, '_, F>,
    ) -> Result<SlotText<T>, F::Error> {
        let mut slot = SlotText {
            generation: None,
            content: None,
            made: None,
        };
        let names = [
            Name::exact("generation"),
            Name::exact("made"),
            Name::exact("value"),
            Name::exact("shared"),
            Name::exact("reference"),
        ];
        from.begin_map()?;
        for _ in 0..u64::MAX {
            match from.next_key(&names)? {
                Some(index) => slot.read_member(alloc, from, index)?,
                None => break,
            }
        }
        if slot.generation.is_none() {
            return Err(from.missing("generation"));
        }
        if slot.content.is_some() && slot.made.is_none() {
            return Err(from.missing("made"));
        }
        if slot.content.is_none() && slot.made.is_some() {
            return Err(from.missing("value"));
        }
        Ok(slot)
    }
}

impl<T: DeserializeOwned> Members<T> {
    // Reads the member whose name has this index.
    fn read_member<F: Format>(
        &mut self,
        alloc: Global,
        from: &mut Deserializer<'_, '_, F>,
        index: usize,
    ) -> Result<(), F::Error> {
        match index {
            0 => {
                let number = u64::deserialize_owned(alloc, from)?;
                set(&mut self.number, number, from, "number")
            }
            1 => {
                let start = u64::deserialize_owned(alloc, from)?;
                set(&mut self.start, start, from, "start")
            }
            2 => {
                let next = u64::deserialize_owned(alloc, from)?;
                set(&mut self.next, next, from, "next")
            }
            3 => {
                let peak = usize::deserialize_owned(alloc, from)?;
                set(&mut self.peak, peak, from, "peak")
            }
            4 => {
                let slots = Vec::<SlotText<T>>::deserialize_owned(alloc, from)?;
                set(&mut self.slots, slots, from, "slots")
            }
            _ => Err(from.unknown_key()),
        }
    }
}

impl<'de, T: DeserializeOwned> Deserialize<'de> for ImageText<T> {
    fn deserialize<F: Format>(
        alloc: Global,
        from: &mut Deserializer<'de, '_, F>,
    ) -> Result<ImageText<T>, F::Error> {
        let mut members = Members {
            number: None,
            start: None,
            next: None,
            peak: None,
            slots: None,
        };
        let names = [
            Name::exact("number"),
            Name::exact("start"),
            Name::exact("next"),
            Name::exact("peak"),
            Name::exact("slots"),
        ];
        from.begin_map()?;
        for _ in 0..u64::MAX {
            match from.next_key(&names)? {
                Some(index) => members.read_member(alloc, from, index)?,
                None => break,
            }
        }
        Ok(ImageText {
            number: needed(members.number, from, "number")?,
            start: needed(members.start, from, "start")?,
            next: needed(members.next, from, "next")?,
            peak: needed(members.peak, from, "peak")?,
            slots: needed(members.slots, from, "slots")?,
        })
    }
}

// The cell of a live slot, which was made at this location.
fn cell_of<T: Drop>(content: Content<T>, made: Location) -> CellImage<T> {
    match content {
        Content::Value(value) => CellImage::Value(value, made),
        Content::Shared(value) => CellImage::Shared(value, made),
        Content::Reference(slot, generation) => CellImage::Reference(slot, generation, made),
    }
}

// The location that a text has, or `here` if its file isn't among these.
fn location_of(made: &Made, files: &[&'static str], here: Location) -> Location {
    for file in files {
        if *file == made.0.as_str() {
            return Location::new(file, made.1, made.2);
        }
    }
    here
}

impl<T: Drop> SlotText<T> {
    fn into_slot(self, files: &[&'static str], here: Location) -> SlotImage<T> {
        let SlotText {
            generation,
            content,
            made,
        } = self;
        let cell = match (content, made) {
            (Some(content), Some(made)) => cell_of(content, location_of(&made, files, here)),
            _ => CellImage::Empty,
        };
        SlotImage {
            generation: generation.unwrap_or(0),
            cell,
        }
    }
}

// The slots of an image.
fn slots_of<T: Drop>(
    alloc: Global,
    texts: Vec<SlotText<T>>,
    files: &[&'static str],
    here: Location,
) -> Result<Vec<SlotImage<T>>, AllocError> {
    let mut slots = Vec::with_capacity(alloc, texts.len())?;
    for text in texts {
        slots.push(text.into_slot(files, here))?;
    }
    Ok(slots)
}

/// Reads the JSON text of an image. A location whose file isn't among `files` becomes `here`.
///
/// The members of an object may be in any order. The image needn't be one that a store can have:
/// `Store::from_image` checks that.
///
/// # Errors
///
/// - That of the text's first fault, with its line and column: text that is no JSON, a member that is
///   missing, unknown or there twice, a number that is out of range, or a cell without a location.
/// - That of a value's `deserialize`.
/// - An error of memory if an allocation fails.
///
/// ```
/// let image = read_json(rt.alloc(), text, &["main.rt"], here)?;
/// ```
pub fn read_json<T: DeserializeOwned>(
    alloc: Global,
    text: &str,
    files: &[&'static str],
    here: Location,
) -> Result<Image<T>, Error> {
    let image: ImageText<T> = serde_json::from_str(alloc, text)?;
    Ok(Image {
        number: image.number,
        start: image.start,
        next: image.next,
        peak: image.peak,
        slots: slots_of(alloc, image.slots, files, here)?,
    })
}
