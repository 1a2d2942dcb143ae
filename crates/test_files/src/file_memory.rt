//! Memory runs out while a file is written or read. Each test passes if any one allocation fails, and a
//! call that failed because of that is tried again.

use crate::files::{FILES, read};
use crate::stored::STORED;
use saved_bytes::write_image;
use std::alloc::Global;
use std::process::Abort;
use store_images::Image;

// How often a file is read or written.
const TRIES: u32 = 8;

/// The image that is read from the stored file, in one of the tries.
fn read_in_tries(rt: &impl Abort, alloc: Global) -> Image<u64> {
    for _ in 0..TRIES {
        if let Ok(image) = read(alloc, &STORED, &FILES) {
            return image;
        }
    }
    panic!(rt; "the file wasn't read")
}

fn written(alloc: Global, image: &Image<u64>) -> Option<Vec<u8>> {
    let mut file = Vec::new(alloc);
    match write_image(alloc, image, &mut file) {
        Ok(()) => Some(file),
        Err(_) => None,
    }
}

/// The file that is written of an image, in one of the tries.
fn written_in_tries(rt: &impl Abort, alloc: Global, image: &Image<u64>) -> Vec<u8> {
    for _ in 0..TRIES {
        if let Some(file) = written(alloc, image) {
            return file;
        }
    }
    panic!(rt; "the file wasn't written")
}

#[test]
fn a_file_is_read_and_written(rt: HostRuntime) {
    let alloc = rt.alloc();
    let image = read_in_tries(&rt, alloc);
    let file = written_in_tries(&rt, alloc, &image);
    assert_eq!(rt; file.as_slice(), STORED.as_slice());
}
