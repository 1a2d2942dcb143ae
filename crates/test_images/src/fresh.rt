//! Stores of which nothing was made yet, made here once for all tests: a body is proved for any store, and
//! only here for one that there is.

use generational_box::{
    AnyStorage, Image, LastFirst, LoadRefusal, Loaded, OldestFirst, SaveError, SlotPool, Storage,
    Store,
};
use std::alloc::Global;
use std::process::Abort;

/// A store that is saved as an image, and loaded.
pub(crate) trait Saves<T> {
    /// The store as an image.
    fn save(self) -> Result<Image<T>, (Self, SaveError)>;

    /// An image of the store, with copies of its values.
    fn copy(&self) -> Result<Image<T>, SaveError>;

    /// The store of an image.
    fn load(alloc: Global, image: Image<T>) -> Result<Self, LoadRefusal<T>>;

    /// The store of an image, under another number.
    fn load_as(
        alloc: Global,
        number: u64,
        image: Image<T>,
    ) -> Result<(Self, Loaded), LoadRefusal<T>>;
}

impl<T: Clone + Drop, P: SlotPool> Saves<T> for Store<T, P> {
    fn save(self) -> Result<Image<T>, (Self, SaveError)> {
        self.into_image()
    }

    fn copy(&self) -> Result<Image<T>, SaveError> {
        self.image()
    }

    fn load(alloc: Global, image: Image<T>) -> Result<Self, LoadRefusal<T>> {
        Store::from_image(alloc, image)
    }

    fn load_as(
        alloc: Global,
        number: u64,
        image: Image<T>,
    ) -> Result<(Self, Loaded), LoadRefusal<T>> {
        Store::from_image_as(alloc, number, image)
    }
}

/// What is done over a new store.
pub(crate) trait Scene<T> {
    fn play<R: Abort, S: Storage<T> + Saves<T> + Drop>(&self, rt: &R, alloc: Global, store: S);
}

/// Plays a scene over a new store with a number.
pub(crate) fn play<T: Clone + Drop, P: Scene<T>>(
    rt: &impl Abort,
    alloc: Global,
    number: u64,
    scene: &P,
) {
    let store: Store<T, LastFirst> = Store::new(alloc, number);
    scene.play(rt, alloc, store);
}

/// Plays a scene over a new store that takes the slot that has been free for the longest.
pub(crate) fn play_oldest_first<T: Clone + Drop, P: Scene<T>>(
    rt: &impl Abort,
    alloc: Global,
    number: u64,
    scene: &P,
) {
    let store: Store<T, OldestFirst> = Store::new(alloc, number);
    scene.play(rt, alloc, store);
}
