//! Stores that are made of an image, and images of stores.

ghost use Rattle.std.specs.Prelude.{◌≡◌, ℕ, None, IfOk, IfErr, IfSome, IfNone, length};
ghost use Rattle.std.specs.FinMap as map;
ghost use Rattle.generational_core.specs.Borrowing.{write_refusal};
ghost use Rattle.generational_core.specs.Names.{Name};
ghost use Rattle.generational_core.specs.State.{content_at};
ghost use Rattle.generational_core.specs.declared.boxes.GenerationalBoxId.{GenerationalBoxId};
ghost use Rattle.store_images.specs.Adopting.{adopted, id_adopted};
ghost use Rattle.store_images.specs.Images.{told, IsLoadError, IsWholeImage};
ghost use Rattle.store_images.specs.Saving.{IsSaveError, IsStateCopy};

use crate::unsync::Store;
use std::alloc::Global;
use store_images::{Image, LoadError, LoadRefusal, Loaded, SaveError, check_image};
use store_parts::owners::OwnerRecords;
use store_parts::pool::SlotPool;
use store_slots::slots::Room;

impl<T: Drop, P: SlotPool> Store<T, P> {
    /// The store as an image, with its values. The image determines the store's state: a store that is
    /// made of it has that state again.
    ///
    /// # Errors
    ///
    /// The store, unchanged, with `Owned` if it has an owner's record, `Borrowed` with the first slot
    /// whose value is borrowed, or `OutOfMemory`. Allocates the image's list of slots, before a value is
    /// moved. Takes O(n) for n slots and owners' records.
    ///
    /// Upstream has no such call.
    pub fn into_image(self) -> Result<Image<T>, (Self, SaveError)>
        ensures state { IfOk result (λ image. told image ≡ self.state) }
        ensures whole { IfOk result IsWholeImage }
        ensures back { IfErr result (λ error. error.0.state ≡ self.state) }
        ensures cause { IfErr result (λ error. IsSaveError self.state error.1) }
    {
        if let Some(cause) = self.save_error() {
            return Err((self, cause));
        }
        let Ok(images) = Vec::with_capacity(self.alloc, self.slots.counts().slots) else {
            return Err((self, SaveError::OutOfMemory));
        };
        let Store {
            alloc: _,
            number,
            next,
            slots,
            owners,
        } = self;
        drop(owners);
        Ok(slots.into_image(number, next, images))
    }

    /// An image of the store with a copy of each value. The store keeps its own.
    ///
    /// # Errors
    ///
    /// The same as those of `into_image`; `OutOfMemory` also if a value's `clone` fails. Allocates the
    /// image's list of slots, and what the copies allocate. Takes O(n) for n slots and places of owners'
    /// records.
    ///
    /// Upstream has no such call.
    pub fn image(&self) -> Result<Image<T>, SaveError>
    where
        T: Clone,
        ensures copy { IfOk result (λ image. IsStateCopy T.is_clone self.now.state (told image)) }
        ensures whole { IfOk result IsWholeImage }
        ensures cause { IfErr result (λ cause. IsSaveError self.now.state cause) }
    {
        if let Some(cause) = self.save_error() {
            return Err(cause);
        }
        match self.slots.image(self.alloc, self.number, self.next) {
            Ok(image) => Ok(image),
            Err(_) => Err(SaveError::OutOfMemory),
        }
    }

    // Why the store has no image now, memory aside.
    fn save_error(&self) -> Option<SaveError>
        ensures some { IfSome result (λ cause. IsSaveError self.now.state cause) }
        ensures owners { IfNone result (self.now.state.owners ≡ map.empty) }
        ensures free { IfNone result ((n : Name)
            → write_refusal (content_at self.now.state n) ≡ None) }
    {
        if !self.owners.is_empty() {
            return Some(SaveError::Owned);
        }
        match self.slots.find_borrowed() {
            Some(slot) => Some(SaveError::Borrowed(slot)),
            None => None,
        }
    }

    /// The store that the image describes: its cells, the names that it issued, its peak and the next
    /// ticket. It has no borrows and no owners. Any image may be passed in.
    ///
    /// Boxes that were issued before the image was made refer to the same cells again. Names that were
    /// issued after it aren't in it, so the loaded store may issue them again, for other values:
    /// `from_image_as` distinguishes these.
    ///
    /// # Errors
    ///
    /// The image, unchanged, with the image's fault if no store can be in that state, or `OutOfMemory`.
    /// Allocates for the check a byte for each slot, and all memory of the slots before a value is moved.
    /// Takes O(n) for n slots.
    ///
    /// Upstream has no such call.
    pub fn from_image(alloc: Global, image: Image<T>) -> Result<Self, LoadRefusal<T>>
        ensures state { IfOk result (λ store. store.state ≡ told image) }
        ensures back { IfErr result (λ refusal. refusal.image ≡ image) }
        ensures cause { IfErr result (λ refusal. IsLoadError image refusal.cause) }
    {
        match room_for(alloc, &image) {
            Ok(room) => Ok(Store::fill(alloc, room, image)),
            Err(cause) => Err(LoadRefusal { image, cause }),
        }
    }

    /// The same store as that of `from_image`, but under another number, and what is needed to turn ids
    /// that were saved with the image into its ids: `Loaded::adopt`. With a number that no store had yet,
    /// no id that was ever issued is one of the loaded store: so a handle that was issued after the image
    /// was made, and lost with its run, is treated like any other store's handle.
    ///
    /// # Errors
    ///
    /// The same as those of `from_image`. Allocates 16 bytes more for each slot.
    ///
    /// Upstream has no such call.
    pub fn from_image_as(
        alloc: Global,
        number: u64,
        image: Image<T>,
    ) -> Result<(Self, Loaded), LoadRefusal<T>>
        ensures state { IfOk result (λ loaded.
            loaded.0.state ≡ record (told image) { number = number }) }
        ensures adopts { IfOk result (λ loaded. (id : GenerationalBoxId)
            → adopted loaded.1 id ≡ id_adopted image number id) }
        ensures back { IfErr result (λ refusal. refusal.image ≡ image) }
        ensures cause { IfErr result (λ refusal. IsLoadError image refusal.cause) }
    {
        let room = match room_for(alloc, &image) {
            Ok(room) => room,
            Err(cause) => return Err(LoadRefusal { image, cause }),
        };
        match Loaded::of(alloc, &image, number) {
            Ok(loaded) => {
                let mut image = image;
                image.number = number;
                Ok((Store::fill(alloc, room, image), loaded))
            }
            Err(_) => Err(LoadRefusal {
                image,
                cause: LoadError::OutOfMemory,
            }),
        }
    }

    // The store of a whole image, for whose slots there is room.
    fn fill(alloc: Global, room: Room<T, P>, image: Image<T>) -> Self
        requires room { room ≡ length image.slots.items }
        requires whole { IsWholeImage image }
        ensures { result.state ≡ told image }
    {
        let number = image.number;
        let next = image.next;
        let slots = room.fill(image);
        slots.are_bounded();
        Store {
            alloc,
            number,
            next,
            slots,
            owners: OwnerRecords::new(alloc),
        }
    }
}

// Checks an image, and makes room for its slots.
fn room_for<T: Drop, P: SlotPool>(alloc: Global, image: &Image<T>) -> Result<Room<T, P>, LoadError>
    ensures whole { IfOk result (λ room. IsWholeImage image.now) }
    ensures room { IfOk result (λ room. room ≡ length image.now.slots.items) }
    ensures cause { IfErr result (λ cause. IsLoadError image.now cause) }
{
    check_image(alloc, image)?;
    match Room::new(alloc, image.slots.len()) {
        Ok(room) => Ok(room),
        Err(_) => Err(LoadError::OutOfMemory),
    }
}
