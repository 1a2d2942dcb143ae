//! Images: what a store has, as plain data.
//!
//! It is an internal part of `generational_box`; users import that.
#![tactic(auto)]

mod check;
mod image;
mod loaded;

pub use crate::check::check_image;
pub use crate::image::{
    CellImage, Image, ImageFault, LoadError, LoadRefusal, SaveError, SlotImage,
};
pub use crate::loaded::Loaded;
