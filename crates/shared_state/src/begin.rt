//! Why a shared store doesn't begin from an image, and what is returned then.

ghost use Rattle.std.specs.Prelude.{◌≡◌};
ghost use Rattle.shared_state.specs.declared.begin.BeginError.TheVariants as why;
ghost use Rattle.shared_state.specs.declared.begin.Unbegun.TheVariants as unbegun;
ghost use Rattle.store_images.specs.declared.image.LoadError.TheVariants as load;

use generational_box::{Image, LoadError, UnsyncStorage};
use std::error::Error;
use std::fmt;

/// Why a shared store doesn't begin from an image.
#[derive(Clone, Copy, Debug, PartialEq, Eq)]
pub enum BeginError {
    /// The image is of a store with another number.
    OtherNumber,
    /// The image's first generation isn't 1.
    OtherStart,
    /// The image isn't loaded.
    Load(LoadError),
}

impl fmt::Display for BeginError {
    fn fmt<W: fmt::Write>(&self, f: &mut fmt::Formatter<W>) -> fmt::Result {
        match self {
            BeginError::OtherNumber => f.write_str("the image is of a store with another number"),
            BeginError::OtherStart => f.write_str("the image's first generation isn't 1"),
            BeginError::Load(error) => write!(f, "{error}"),
        }
    }
}

impl Error for BeginError {}

/// What is returned if no shared store begins from an image.
#[derive(Drop)]
pub enum Unbegun<T> {
    /// The image, as it was passed in.
    Image(Image<T>),
    /// The sequential store that was made of the image, before memory ran out. Its `into_image` makes
    /// an image of it again.
    Store(UnsyncStorage<T>),
}

/// An image from which no shared store begins, and why.
#[derive(Drop)]
pub struct BeginRefusal<T> {
    /// The image, or the store that was made of it.
    pub back: Unbegun<T>,
    /// Why no store begins.
    pub cause: BeginError,
}

impl<T> BeginRefusal<T> {
    /// The error of an image, which comes back as it was passed in.
    pub fn of_image(image: Image<T>, cause: BeginError) -> BeginRefusal<T>
        ensures { result ≡ record { back = unbegun.Image image; cause = cause } }
    {
        let back = Unbegun::Image(image);
        BeginRefusal { back, cause }
    }

    // Memory ran out once the store was made.
    pub(crate) fn of_store(store: UnsyncStorage<T>) -> BeginRefusal<T>
        ensures { result ≡ record { back = unbegun.Store store; cause = why.Load load.OutOfMemory } }
    {
        BeginRefusal {
            back: Unbegun::Store(store),
            cause: BeginError::Load(LoadError::OutOfMemory),
        }
    }
}
