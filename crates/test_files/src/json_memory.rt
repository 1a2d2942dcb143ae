//! Memory runs out while JSON is written or read. Each test passes if any one allocation fails, and a
//! call that failed because of that is tried again.

use crate::files::{FILES, here};
use crate::json::TEXT;
use saved_json::{read_json, write_json};
use std::alloc::Global;
use std::process::Abort;
use store_images::Image;

// How often a text is read or written.
const TRIES: u32 = 8;

/// The image that is read from the text, in one of the tries.
fn read_in_tries(rt: &impl Abort, alloc: Global) -> Image<u64> {
    for _ in 0..TRIES {
        if let Ok(image) = read_json(alloc, TEXT, &FILES, here()) {
            return image;
        }
    }
    panic!(rt; "the text wasn't read")
}

/// The text that is written of an image, in one of the tries.
fn written_in_tries(rt: &impl Abort, alloc: Global, image: &Image<u64>) -> String {
    for _ in 0..TRIES {
        if let Ok(text) = write_json(alloc, image) {
            return text;
        }
    }
    panic!(rt; "the text wasn't written")
}

#[test]
fn a_text_is_read_and_written(rt: HostRuntime) {
    let alloc = rt.alloc();
    let image = read_in_tries(&rt, alloc);
    let text = written_in_tries(&rt, alloc, &image);
    assert_eq!(rt; text.as_str(), TEXT);
}
