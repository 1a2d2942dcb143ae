//! A stored file, and its image.

use crate::stored::{EARLIER, STORED};
use generational_core::Location;
use saved_bytes::{ReadError, read_image, write_image};
use std::alloc::Global;
use std::process::Abort;
use store_images::{CellImage, Image, SlotImage};

/// The files that a reader knows.
pub(crate) const FILES: [&'static str; 2] = ["b.rs", "a.rs"];

/// The location that replaces those in other files.
pub(crate) fn here() -> Location {
    Location::new("here.rs", 1, 2)
}

fn push(rt: &impl Abort, slots: &mut Vec<SlotImage<u64>>, generation: u64, cell: CellImage<u64>) {
    slots
        .push(SlotImage { generation, cell })
        .expect(rt, "memory");
}

/// The image of the stored file.
pub(crate) fn image(rt: &impl Abort, alloc: Global) -> Image<u64> {
    let a = Location::new("a.rs", 3, 5);
    let b = Location::new("b.rs", 8, 1);
    let mut slots = Vec::new(alloc);
    push(rt, &mut slots, 2, CellImage::Value(12, a));
    push(rt, &mut slots, 1, CellImage::Empty);
    push(rt, &mut slots, 1, CellImage::Shared(20, b));
    push(rt, &mut slots, 1, CellImage::Reference(2, 1, a));
    push(rt, &mut slots, 1, CellImage::Reference(2, 1, a));
    Image {
        number: 7,
        start: 1,
        next: 3,
        peak: 5,
        slots,
    }
}

/// Reads a file of these bytes.
pub(crate) fn read(
    alloc: Global,
    bytes: &[u8],
    files: &[&'static str],
) -> Result<Image<u64>, ReadError> {
    let mut input = bytes;
    read_image(alloc, &mut input, files, here())
}

/// What is printed of the result of a read.
pub(crate) fn text_of(
    rt: &impl Abort,
    alloc: Global,
    answer: &Result<Image<u64>, ReadError>,
) -> String {
    let text = match answer {
        Ok(image) => format!(in alloc; "{image:?}"),
        Err(error) => format!(in alloc; "{error}"),
    };
    text.expect(rt, "memory")
}

/// Asserts the result of reading these bytes.
pub(crate) fn assert_reads(rt: &impl Abort, alloc: Global, bytes: &[u8], wanted: &str) {
    let answer = read(alloc, bytes, &FILES);
    let text = text_of(rt, alloc, &answer);
    assert_eq!(rt; text.as_str(), wanted);
}

fn assert_written(rt: &impl Abort, alloc: Global, image: &Image<u64>, wanted: &[u8]) {
    let mut file = Vec::new(alloc);
    write_image(alloc, image, &mut file).expect(rt, "written");
    assert_eq!(rt; file.as_slice(), wanted);
}

fn assert_again(rt: &impl Abort, alloc: Global, bytes: &[u8], image: Image<u64>) {
    let wanted = format!(in alloc; "{image:?}").expect(rt, "memory");
    assert_reads(rt, alloc, bytes, wanted.as_str());
}

#[test]
fn a_stored_file_is_written_and_read(rt: HostRuntime) {
    let alloc = rt.alloc();
    assert_written(&rt, alloc, &image(&rt, alloc), &STORED);
    assert_again(&rt, alloc, &STORED, image(&rt, alloc));
}

#[test]
fn a_file_of_the_earlier_version_is_read(rt: HostRuntime) {
    let alloc = rt.alloc();
    assert_again(&rt, alloc, &EARLIER, image(&rt, alloc));
}

/// Asserts which of the image's files are found if the reader knows these.
fn assert_found(rt: &impl Abort, alloc: Global, files: &[&'static str], a: bool, b: bool) {
    let answer = read(alloc, &STORED, files);
    let text = text_of(rt, alloc, &answer);
    assert_eq!(rt; text.contains("\"a.rs\", line: 3, column: 5"), a);
    assert_eq!(rt; text.contains("\"b.rs\", line: 8, column: 1"), b);
    assert_eq!(rt; text.contains("\"here.rs\", line: 1, column: 2"), !(a && b));
}

#[test]
fn other_files_are_here(rt: HostRuntime) {
    let alloc = rt.alloc();
    assert_found(&rt, alloc, &["a.rs", "b.rs"], true, true);
    assert_found(&rt, alloc, &["a.r", "b.rs", "b.rs"], false, true);
    assert_found(&rt, alloc, &["a.rs", "b.rss"], true, false);
    assert_found(&rt, alloc, &[], false, false);
}
