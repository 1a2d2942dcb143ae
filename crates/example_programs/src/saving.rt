//! Storages of numbers that can be saved, and loaded under a number that no store had.

use anyhow::Result;
use generational_box::{Image, Loaded, Storage, UnsyncStorage};
use std::alloc::Global;

/// A storage that is saved as an image.
pub trait SavedStorage: Storage<u32> + Drop {
    /// An image of the storage, which goes on.
    fn save(&self) -> Result<Image<u32>>;

    /// The storage of an image under another number, and what its ids have become.
    fn load(alloc: Global, number: u64, image: Image<u32>) -> Result<(Self, Loaded)>;
}

impl SavedStorage for UnsyncStorage<u32> {
    fn save(&self) -> Result<Image<u32>> {
        Ok(self.image()?)
    }

    fn load(alloc: Global, number: u64, image: Image<u32>) -> Result<(Self, Loaded)> {
        match UnsyncStorage::from_image_as(alloc, number, image) {
            Ok(both) => Ok(both),
            Err(refusal) => Err(refusal.cause.into()),
        }
    }
}
