//! Files of several pieces.

use crate::files::here;
use generational_core::Location;
use saved_bytes::{read_image, write_image};
use std::alloc::Global;
use std::io;
use std::io::Write;
use std::process::Abort;
use store_images::{CellImage, Image, SlotImage};

/// An image of values from 0 on.
fn numbered(rt: &impl Abort, alloc: Global, count: u64) -> Image<u64> {
    let mut slots = Vec::new(alloc);
    for value in 0..count {
        let cell = CellImage::Value(value, Location::new("a.rs", 3, 5));
        slots
            .push(SlotImage {
                generation: 1,
                cell,
            })
            .expect(rt, "memory");
    }
    Image {
        number: 7,
        start: 1,
        next: 3,
        peak: slots.len(),
        slots,
    }
}

fn written(rt: &impl Abort, alloc: Global, image: &Image<u64>) -> Vec<u8> {
    let mut file = Vec::new(alloc);
    write_image(alloc, image, &mut file).expect(rt, "written");
    file
}

/// What is printed of the result of reading these bytes.
fn text_of(rt: &impl Abort, alloc: Global, bytes: &[u8]) -> String {
    let mut input = bytes;
    let text = match read_image::<u64, _>(alloc, &mut input, &["a.rs"], here()) {
        Ok(image) => format!(in alloc; "{image:?}"),
        Err(error) => format!(in alloc; "{error}"),
    };
    text.expect(rt, "memory")
}

/// Asserts that an image of so many values is written in so many bytes, and read again.
fn assert_written(rt: &impl Abort, alloc: Global, count: u64, len: usize) {
    let image = numbered(rt, alloc, count);
    let file = written(rt, alloc, &image);
    assert_eq!(rt; file.len(), len);
    let wanted = format!(in alloc; "{image:?}").expect(rt, "memory");
    assert_eq!(rt;
        text_of(rt, alloc, file.as_slice()).as_str(),
        wanted.as_str()
    );
}

// A piece is a header of 28 bytes and 1024 slots of 29 bytes, after a table with one name in 20. The last
// one may have no slots, and then no names.
#[test]
fn large_images_are_written_in_pieces(rt: HostRuntime) {
    let alloc = rt.alloc();
    assert_written(&rt, alloc, 0, 68 + 36);
    assert_written(&rt, alloc, 1023, 68 + 48 + 1023 * 29);
    assert_written(&rt, alloc, 1024, 68 + 48 + 1024 * 29 + 36);
    assert_written(&rt, alloc, 2500, 68 + 3 * 48 + 2500 * 29);
}

/// Asserts the error if this byte of a file of two pieces of slots is another one.
fn assert_damaged(rt: &impl Abort, alloc: Global, index: usize, wanted: &str) {
    let mut file = written(rt, alloc, &numbered(rt, alloc, 1025));
    if let Some(byte) = file.get_mut(index) {
        *byte ^= 1;
    }
    assert_eq!(rt; text_of(rt, alloc, file.as_slice()).as_str(), wanted);
}

// The second piece of slots begins at 68 + 48 + 1024 * 29.
#[test]
fn damage_in_a_later_piece_is_found(rt: HostRuntime) {
    let alloc = rt.alloc();
    assert_damaged(
        &rt,
        alloc,
        29812,
        "at byte 29812: the file isn't one of saved values",
    );
    assert_damaged(
        &rt,
        alloc,
        29820,
        "at byte 29820: the file has another version",
    );
    assert_damaged(&rt, alloc, 29824, "at byte 29881: the bytes end too early");
    assert_damaged(
        &rt,
        alloc,
        29832,
        "at byte 29832: the bytes have another sum than the file says",
    );
    assert_damaged(
        &rt,
        alloc,
        29888,
        "at byte 29832: the bytes have another sum than the file says",
    );
}

/// A writer that keeps the length of the longest write.
#[derive(Drop)]
struct Widest {
    most: usize,
}

impl Write for Widest {
    fn write(&mut self, bytes: &[u8]) -> io::Result<usize> {
        self.most = self.most.max(bytes.len());
        Ok(bytes.len())
    }

    fn flush(&mut self) -> io::Result<()> {
        Ok(())
    }
}

#[test]
fn each_write_is_of_a_piece(rt: HostRuntime) {
    let alloc = rt.alloc();
    let mut out = Widest { most: 0 };
    write_image(alloc, &numbered(&rt, alloc, 5000), &mut out).expect(&rt, "written");
    assert_eq!(rt; out.most, 20 + 1024 * 29);
}
