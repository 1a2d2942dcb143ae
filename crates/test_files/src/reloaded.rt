//! What mutated files of tables, trees and documents have in common: the image of a store in one file, and
//! rows beside it.

use crate::files::here;
use crate::mutating::{Counts, Outcome, drawn, mutated, mutated_file};
use crate::room::Room;
use entity_table::CellFault;
use generational_box::{
    AnyStorage, CellImage, GenerationalBox, GenerationalBoxId, Image, LoadError, Loaded, Location,
    UnsyncStorage, box_id,
};
use saved_bytes::{DecodeError, Decoder, Encoder, ReadError, Saved, read_image, write_image};
use std::alloc::Global;
use std::process::Abort;
use std::rt;

/// A slot and a generation: the id of a cell, in the store of the image.
pub(crate) type SavedId = (u64, u64);

/// The number under which files are loaded: no store had it.
pub(crate) const NUMBER: u64 = 8;

// How many files of a kind are drawn.
const ROUNDS: u32 = 100_000;

/// A kind of files.
pub(crate) trait Kind {
    /// Loads files. What was loaded is what they say.
    fn load<R: Abort>(&self, rt: &R, alloc: Global, files: &Files) -> Result<(), Outcome>;
}

/// An image and rows, as bytes.
#[derive(Drop)]
pub(crate) struct Files {
    pub(crate) image: Vec<u8>,
    pub(crate) rows: Vec<u8>,
}

/// Where values are made: each at a line of its own.
pub(crate) fn made_at(line: u32) -> Location {
    Location::new("a.rs", line, 1)
}

/// What a call returns that must not fail.
pub(crate) fn given<T, E: Drop>(rt: &impl Abort, answer: Result<T, E>) -> T {
    match answer {
        Ok(given) => given,
        Err(_) => panic!(rt; "it failed"),
    }
}

/// The id of a cell, without its store's number.
pub(crate) fn saved_id(id: GenerationalBoxId) -> SavedId {
    (id.slot as u64, id.generation)
}

/// The files of a store and of rows.
pub(crate) fn files_of<T: Saved + Clone, R: Saved>(
    rt: &impl Abort,
    alloc: Global,
    store: &UnsyncStorage<T>,
    rows: &Vec<R>,
) -> Files {
    let mut image = Vec::new(alloc);
    given(
        rt,
        write_image(alloc, &given(rt, store.image()), &mut image),
    );
    let mut out = Encoder::new(alloc);
    given(rt, rows.encode(&mut out));
    let rows = given(rt, Vec::from_slice(alloc, out.bytes()));
    Files { image, rows }
}

/// The files of a store that no table and no tree has: it has a shared value. No rows are beside it.
pub(crate) fn shared_files(rt: &impl Abort, alloc: Global) -> Files {
    let mut store = UnsyncStorage::<u64>::new(alloc, 3);
    given(rt, GenerationalBox::leak(&mut store, 1, made_at(0)));
    let shared = given(rt, GenerationalBox::leak_rc(&mut store, 1, made_at(1)));
    given(rt, shared.leak_reference(&mut store));
    let rows: Vec<u64> = Vec::new(alloc);
    files_of(rt, alloc, &store, &rows)
}

/// The same, of a store of indexes that no document has.
pub(crate) fn shared_indexes(rt: &impl Abort, alloc: Global) -> Files {
    let mut store = UnsyncStorage::<u32>::new(alloc, 3);
    given(rt, GenerationalBox::leak(&mut store, 1, made_at(0)));
    let shared = given(rt, GenerationalBox::leak_rc(&mut store, 1, made_at(1)));
    given(rt, shared.leak_reference(&mut store));
    let rows: Vec<u64> = Vec::new(alloc);
    files_of(rt, alloc, &store, &rows)
}

/// The files with damage to the image, to the rows, or to both. One in eight is of the store with a
/// shared value.
fn mutated_files(
    rt: &impl Abort,
    alloc: Global,
    files: &Files,
    shared: &Files,
    state: &mut u64,
) -> Files {
    let kind = drawn(state) % 8;
    let files = if kind == 0 { shared } else { files };
    let (image, rows) = (files.image.as_slice(), files.rows.as_slice());
    let image = match kind {
        0..=4 => mutated_file(rt, alloc, image, state),
        _ => given(rt, Vec::from_slice(alloc, image)),
    };
    let rows = match kind {
        4..=7 => mutated(rt, alloc, rows, state),
        _ => given(rt, Vec::from_slice(alloc, rows)),
    };
    Files { image, rows }
}

/// The image that a file has. Memory suffices for each.
pub(crate) fn image_in<T: Saved>(
    rt: &impl Abort,
    alloc: Global,
    file: &[u8],
) -> Result<Image<T>, Outcome> {
    let mut input = file;
    match read_image(alloc, &mut input, &["a.rs"], here()) {
        Ok(image) => Ok(image),
        Err(ReadError::Decode(DecodeError::Damaged(at, _))) if at <= file.len() => Err(
            Outcome::File,
        ),
        Err(_) => panic!(rt; "the file wasn't read"),
    }
}

/// The rows that bytes have, to their end. Memory suffices for each.
pub(crate) fn rows_in<R: Saved>(
    rt: &impl Abort,
    alloc: Global,
    bytes: &[u8],
) -> Result<Vec<R>, Outcome> {
    let mut input = Decoder::new(alloc, bytes);
    match Vec::decode(&mut input) {
        Ok(rows) if input.is_empty() => Ok(rows),
        Ok(_) | Err(DecodeError::Damaged(_, _)) => Err(Outcome::Rows),
        Err(DecodeError::OutOfMemory) => panic!(rt; "memory"),
    }
}

/// The store of an image under the new number. Memory suffices for each.
pub(crate) fn store_of<T: Drop>(
    rt: &impl Abort,
    alloc: Global,
    image: Image<T>,
) -> Result<(UnsyncStorage<T>, Loaded), Outcome> {
    match UnsyncStorage::from_image_as(alloc, NUMBER, image) {
        Ok(both) => Ok(both),
        Err(refusal) => match refusal.cause {
            LoadError::Unsound(_) => Err(Outcome::Image),
            LoadError::OutOfMemory => panic!(rt; "memory"),
        },
    }
}

/// The outcome of cells that no table, no tree and no document has. Memory suffices for each.
pub(crate) fn outcome_of(rt: &impl Abort, fault: CellFault) -> Outcome {
    match fault {
        CellFault::OutOfMemory => panic!(rt; "memory"),
        CellFault::Shared(_) | CellFault::Borrowed(_) => Outcome::Cells,
    }
}

/// The id that a saved one has become.
pub(crate) fn adopted(
    loaded: &Loaded,
    number: u64,
    id: SavedId,
) -> Result<GenerationalBoxId, Outcome> {
    match loaded.adopt(box_id(number, id.0 as usize, id.1)) {
        Some(id) => Ok(id),
        None => Err(Outcome::Ids),
    }
}

/// A value with its location, under its slot and generation, that an image has.
pub(crate) type Cell<T> = (GenerationalBoxId, T, Location);

/// The values of an image, with their ids under the new number.
pub(crate) fn cells_in<T: Copy>(rt: &impl Abort, alloc: Global, image: &Image<T>) -> Vec<Cell<T>> {
    let mut cells = Vec::new(alloc);
    for (slot, it) in image.slots.iter().enumerate() {
        if let CellImage::Value(value, location) = &it.cell {
            let id = box_id(NUMBER, slot, it.generation);
            given(rt, cells.push((id, *value, *location)));
        }
    }
    cells
}

/// Asserts that files are loaded, and that each outcome is one of some mutated files.
pub(crate) fn assert_refused_or_loaded<R: rt::Files + AllocGlobal + Abort, K: Kind>(
    rt: &R,
    kind: &K,
    files: &Files,
    shared: &Files,
) {
    let alloc = rt.alloc();
    let room = Room::new(rt);
    assert!(rt; kind.load(rt, alloc, files).is_ok());
    let (mut state, mut counts) = (1, Counts::new());
    for _ in 0..ROUNDS {
        let mutated = mutated_files(rt, alloc, files, shared, &mut state);
        let outcome = kind.load(rt, alloc, &mutated).err();
        counts.add(outcome.unwrap_or(Outcome::Loaded));
    }
    counts.assert_all(rt);
    room.assert_little(rt);
}
