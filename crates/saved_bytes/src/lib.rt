//! Values and images of stores as bytes, and back.
//!
//! A type can be saved if it implements `Saved`: integers, `bool`, `String`, `Option`, pairs, `Vec` and
//! the ids of cells do, and so does each type of yours for which you write `encode` and `decode`.
//! `write_image` writes an image of a store of such values to a file, and `read_image` reads it.
#![tactic(auto)]

mod checksum;
mod decode;
mod encode;
mod file;
mod file_names;
mod ids;
mod images;
mod lists;
mod numbers;
mod pieces;
mod saved;

pub use crate::decode::{DecodeError, Decoder, Fault};
pub use crate::encode::Encoder;
pub use crate::file::{ReadError, WriteError, read_image, write_image};
pub use crate::saved::Saved;
