//! Images of stores as bytes.

ghost use Rattle.std.specs.Prelude.{◌≡◌, ℕ, List, OnOk, IfOk};
ghost use Rattle.std.specs.Borrow.{Bor};
ghost use Rattle.std.specs.List.{AllByRecursion};
ghost use Rattle.saved_bytes.specs.Forms.{Appends, items_form, unread, written};
ghost use Rattle.saved_bytes.specs.Images.{cell_form, front_form, image_form, location_in, named_slots_form, saved_cell_form, slot_form};
ghost use Rattle.saved_bytes.specs.Images.{AreNamed, IsCellRestored};
ghost use Rattle.saved_bytes.specs.Images.{IsCellNamed, IsImageAgain, IsImageNamed, IsSlotAgain, IsSlotNamed};
ghost use Rattle.saved_bytes.specs.FileNames.{IsFound, IsFileKnown, texts};
ghost use Rattle.saved_bytes.specs.Reading.{ArePairwise, ItemsReadAs, ReadsAgain, ReadsAs};

use crate::decode::{DecodeError, Decoder, Fault};
use crate::encode::Encoder;
use crate::file_names::{
    SavedLocation, add_name, decode_file_names, encode_file_names, encode_location, restored,
};
use crate::saved::Saved;
use generational_core::Location;
use std::alloc::{AllocError, Global};
use store_images::{CellImage, Image, SlotImage};

// How many bytes a slot takes at least: its generation, and which cell it has.
const LEAST: usize = 9;

// The location where the cell was made.
fn location_in<T>(cell: &CellImage<T>) -> Option<Location>
    ensures { result ≡ location_in cell.now }
{
    match cell {
        CellImage::Empty => None,
        CellImage::Value(_, location) => Some(*location),
        CellImage::Shared(_, location) => Some(*location),
        CellImage::Reference(_, _, location) => Some(*location),
    }
}

// Adds the name of the cell's file.
fn add_name_of<T>(names: &mut Vec<&'static str>, cell: &CellImage<T>) -> Result<(), AllocError>
    ensures there { OnOk result (IsCellNamed (texts names.new.items) cell.now) }
    ensures kept { (text : List ℕ) → IsFileKnown (texts names.old.items) text → IsFileKnown (texts names.new.items) text }
{
    match location_in(cell) {
        None => Ok(()),
        Some(location) => add_name(names, location.file()),
    }
}

/// The names of the files in which these slots' cells were made, each once.
pub fn names_in<T>(alloc: Global, slots: &[SlotImage<T>]) -> Result<Vec<&'static str>, AllocError>
    ensures { IfOk result (λ names. AllByRecursion (IsSlotNamed (texts names.items)) slots.now) }
{
    let mut names = Vec::new(alloc);
    for slot in slots {
        add_name_of(&mut names, &slot.cell)?;
    }
    Ok(names)
}

// Appends a slot's cell.
fn encode_cell<T: Saved>(
    cell: &CellImage<T>,
    names: &[&'static str],
    out: &mut Encoder,
) -> Result<(), AllocError>
    ensures { OnOk result (Appends (cell_form (texts names.now) T.form cell.now) (written out.old) (written out.new)) }
{
    match cell {
        CellImage::Empty => out.put_u8(0),
        CellImage::Value(value, location) => {
            out.put_u8(1)?;
            encode_location(*location, names, out)?;
            value.encode(out)
        }
        CellImage::Shared(value, location) => {
            out.put_u8(2)?;
            encode_location(*location, names, out)?;
            value.encode(out)
        }
        CellImage::Reference(slot, generation, location) => {
            out.put_u8(3)?;
            out.put_u64(*slot as u64)?;
            out.put_u64(*generation)?;
            encode_location(*location, names, out)
        }
    }
}

// Appends each slot, without their number.
fn encode_slots<T: Saved>(
    slots: &[SlotImage<T>],
    names: &[&'static str],
    out: &mut Encoder,
) -> Result<(), AllocError>
    ensures { OnOk result (Appends (items_form (slot_form (texts names.now) T.form) slots.now) (written out.old) (written out.new)) }
{
    for slot in slots {
        out.put_u64(slot.generation)?;
        encode_cell(&slot.cell, names, out)?;
    }
    Ok(())
}

/// Appends an image's numbers, and how many slots it has.
pub fn encode_front<T>(image: &Image<T>, out: &mut Encoder) -> Result<(), AllocError>
    ensures { OnOk result (Appends (front_form image.now) (written out.old) (written out.new)) }
{
    let numbers = (image.number, (image.start, (image.next, image.peak)));
    let slots = image.slots.as_slice();
    numbers.encode(out)?;
    out.put_u64(slots.len() as u64)
}

/// Appends the names of the files in which these slots' cells were made, and the slots.
pub fn encode_named_slots<T: Saved>(
    alloc: Global,
    slots: &[SlotImage<T>],
    out: &mut Encoder,
) -> Result<(), AllocError>
    ensures { OnOk result ((names : List (List ℕ)) × AllByRecursion (IsSlotNamed names) slots.now
        × Appends (named_slots_form names T.form slots.now) (written out.old) (written out.new)) }
{
    let names = names_in(alloc, slots)?;
    encode_file_names(names.as_slice(), out)?;
    encode_slots(slots, names.as_slice(), out)
}

// A cell in the form of a file: each location with the index of its file's name.
#[derive(Drop)]
enum SavedCell<T> {
    Empty,
    Value((SavedLocation, T)),
    Shared((SavedLocation, T)),
    Reference((usize, (u64, SavedLocation))),
}

// Reads a cell.
fn decode_cell<T: Saved>(input: &mut Decoder) -> Result<SavedCell<T>, DecodeError>
    ensures { ReadsAgain (saved_cell_form T.form) (unread input.old) result (unread input.new) }
{
    let fault = input.fault(Fault::Variant);
    match input.take_u8()? {
        0 => Ok(SavedCell::Empty),
        1 => {
            let value = <(SavedLocation, T)>::decode(input)?;
            Ok(SavedCell::Value(value))
        }
        2 => {
            let value = <(SavedLocation, T)>::decode(input)?;
            Ok(SavedCell::Shared(value))
        }
        3 => {
            let reference = <(usize, (u64, SavedLocation))>::decode(input)?;
            Ok(SavedCell::Reference(reference))
        }
        _ => Err(fault),
    }
}

// The cell with its location. None if the table of files is too short.
fn restored_cell<T: Drop>(
    cell: SavedCell<T>,
    found_files: &[Option<&'static str>],
    here: Location,
) -> Option<CellImage<T>>
    ensures { IsCellRestored found_files.now here cell result }
{
    match cell {
        SavedCell::Empty => Some(CellImage::Empty),
        SavedCell::Value((saved, value)) => {
            let location = restored(saved, found_files, here)?;
            Some(CellImage::Value(value, location))
        }
        SavedCell::Shared((saved, value)) => {
            let location = restored(saved, found_files, here)?;
            Some(CellImage::Shared(value, location))
        }
        SavedCell::Reference((slot, (generation, saved))) => {
            let location = restored(saved, found_files, here)?;
            Some(CellImage::Reference(slot, generation, location))
        }
    }
}

// Reads a slot.
fn decode_slot<T: Saved>(
    input: &mut Decoder,
    found_files: &[Option<&'static str>],
    here: Location,
) -> Result<SlotImage<T>, DecodeError>
    ensures { (files : List (Bor (List ℕ))) (names : List (List ℕ)) → ArePairwise (IsFound files) names found_files.now
        → ReadsAs (IsSlotNamed names) (slot_form names T.form) (IsSlotAgain files here T.form)
        (unread input.old) result (unread input.new) }
{
    let fault = input.fault(Fault::Place);
    let generation = input.take_u64()?;
    let saved = decode_cell(input)?;
    match restored_cell(saved, found_files, here) {
        Some(cell) => Ok(SlotImage { generation, cell }),
        None => Err(fault),
    }
}

// Reads this number of slots.
fn decode_slots<T: Saved>(
    input: &mut Decoder,
    count: u64,
    found_files: &[Option<&'static str>],
    here: Location,
) -> Result<Vec<SlotImage<T>>, DecodeError>
    ensures { (files : List (Bor (List ℕ))) (names : List (List ℕ)) → ArePairwise (IsFound files) names found_files.now
        → ItemsReadAs (IsSlotNamed names) (slot_form names T.form) (IsSlotAgain files here T.form) (λ v. v.items) count
        (unread input.old) result (unread input.new) }
{
    // A slot takes nine bytes at least, so a wrong count asks for no more room than the bytes could need.
    let room = (count as usize).min(input.rest().len() / LEAST);
    let mut slots = Vec::with_capacity(input.alloc(), room)?;
    for _ in 0..count {
        let slot = decode_slot(input, found_files, here)?;
        slots.push(slot)?;
    }
    Ok(slots)
}

/// Reads an image. A location whose file isn't among these becomes `here`.
pub fn decode_image<T: Saved>(
    input: &mut Decoder,
    files: &[&'static str],
    here: Location,
) -> Result<Image<T>, DecodeError>
    ensures { (names : List (List ℕ)) → ReadsAs (IsImageNamed names) (image_form names T.form) (IsImageAgain files.now here T.form)
        (unread input.old) result (unread input.new) }
{
    let found_files = decode_file_names(input, files)?;
    let numbers = <(u64, (u64, (u64, usize)))>::decode(input)?;
    let count = input.take_u64()?;
    let slots = decode_slots(input, count, found_files.as_slice(), here)?;
    let (number, (start, (next, peak))) = numbers;
    Ok(Image {
        number,
        start,
        next,
        peak,
        slots,
    })
}

/// Reads names of files, and this number of slots. A location whose file isn't among these becomes
/// `here`.
pub fn decode_named_slots<T: Saved>(
    input: &mut Decoder,
    count: u64,
    files: &[&'static str],
    here: Location,
) -> Result<Vec<SlotImage<T>>, DecodeError>
    ensures { (names : List (List ℕ)) → ReadsAs (AreNamed names count) (named_slots_form names T.form)
        (λ xs v. ArePairwise (IsSlotAgain files.now here T.form) xs v.items) (unread input.old) result (unread input.new) }
{
    let found_files = decode_file_names(input, files)?;
    decode_slots(input, count, found_files.as_slice(), here)
}
