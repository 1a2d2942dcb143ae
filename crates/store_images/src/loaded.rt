//! Ids that were saved with an image, in a store that is made of it under another number.

ghost use Rattle.std.specs.Prelude.{◌≡◌, IfOk, map as list_map};
ghost use Rattle.store_images.specs.Adopting.{adopted, live_generation};

use crate::image::{CellImage, Image, SlotImage};
use generational_core::GenerationalBoxId;
use generational_core::parts::id_at;
use std::alloc::{AllocError, Global};

/// What a load under another number knows of the image: its number, the store's, and which of its
/// cells were live. It turns ids that were saved with the image into ids of the store.
#[derive(Debug, Drop)]
pub struct Loaded {
    saved: u64,
    number: u64,
    // the generation of each slot's cell, if that was live
    generations: Vec<Option<u64>>,
}

impl Loaded {
    /// What is known of this image, for a store with this number. Allocates 16 bytes for each slot.
    pub fn of<T>(alloc: Global, image: &Image<T>, number: u64) -> Result<Loaded, AllocError>
        ensures saved { IfOk result (λ loaded. loaded.saved ≡ image.now.number) }
        ensures number { IfOk result (λ loaded. loaded.number ≡ number) }
        ensures live { IfOk result (λ loaded. loaded.generations.items
            ≡ list_map live_generation image.now.slots.items) }
    {
        let slots = image.slots.iter();
        let generations = slots.map(|slot| live_generation(slot)).collect(alloc)?;
        Ok(Loaded {
            saved: image.number,
            number,
            generations,
        })
    }

    /// The id in the store of the cell that has this id in the image. None if the id is of another store
    /// than the image, or if its cell wasn't live in it: such an id was issued after the image was made,
    /// or its cell was removed before. Different ids stay different.
    ///
    /// Doesn't allocate, and accesses no store: the id is that cell's forever, even after the cell was
    /// removed.
    ///
    /// Upstream has no such call.
    pub fn adopt(&self, id: GenerationalBoxId) -> Option<GenerationalBoxId>
        ensures { result ≡ adopted self.now id }
    {
        if id.store != self.saved {
            return None;
        }
        match self.generations.get(id.slot) {
            Some(Some(generation)) if *generation == id.generation => {
                Some(id_at(self.number, id.slot, id.generation))
            }
            _ => None,
        }
    }
}

// The generation of the slot's cell, if that is live.
fn live_generation<T>(slot: &SlotImage<T>) -> Option<u64>
    ensures { result ≡ live_generation slot.now }
{
    match &slot.cell {
        CellImage::Empty => None,
        _ => Some(slot.generation),
    }
}
