//! Images of stores as JSON, and back.
//!
//! `write_json` writes an image of a store whose values implement `Serialize`, and `read_json` reads it.
//! That a text is read as the image that was written is tested, and not proved: `saved_bytes` proves it
//! of its files. Both are safe and return. What is read is checked by `Store::from_image`, like any
//! image.
#![tactic(auto)]

mod read;
mod write;

pub use crate::read::read_json;
pub use crate::write::write_json;
