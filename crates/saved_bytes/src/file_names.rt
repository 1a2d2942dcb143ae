//! The files of locations: a table of their names, and which of them a reader knows.

ghost use Rattle.std.specs.Prelude.{◌≡◌, ℕ, List, is_some, OnOk, IfSome, IsSomeAnd};
ghost use Rattle.std.specs.Borrow.{Bor};
ghost use Rattle.saved_bytes.specs.Forms.Form.{Text};
ghost use Rattle.saved_bytes.specs.Forms.{Appends, items_form, list_form, unread, written};
ghost use Rattle.saved_bytes.specs.FileNames.{is_listed, location_form, file_index, saved_location_form, texts};
ghost use Rattle.saved_bytes.specs.FileNames.{AreAnyNames, IsFound, IsFileKnown, IsAnyName, IsRelocated};
ghost use Rattle.saved_bytes.specs.Reading.{ArePairwise, ItemsReadAs, ReadsAs};

use crate::decode::{DecodeError, Decoder};
use crate::encode::Encoder;
use generational_core::Location;
use std::alloc::AllocError;

/// The index of the first of these names that equals this text, or their number if there is none.
pub fn file_index(names: &[&'static str], file: &str) -> usize
    ensures { result ≡ file_index (texts names.now) file.now }
{
    for (number, name) in names.iter().enumerate() {
        if *name == file {
            return number;
        }
    }
    names.len()
}

/// Adds a name, unless it is in the list.
pub fn add_name(names: &mut Vec<&'static str>, file: &'static str) -> Result<(), AllocError>
    ensures there { OnOk result (IsFileKnown (texts names.new.items) file.entry.now) }
    ensures kept { (text : List ℕ) → IsFileKnown (texts names.old.items) text → IsFileKnown (texts names.new.items) text }
{
    if file_index(names.as_slice(), file) == names.len() {
        names.push(file)?;
    }
    Ok(())
}

// Appends each name, without their number.
fn encode_names(names: &[&'static str], out: &mut Encoder) -> Result<(), AllocError>
    ensures { OnOk result (Appends (items_form Text (texts names.now)) (written out.old) (written out.new)) }
{
    for name in names {
        out.put_text(name)?;
    }
    Ok(())
}

/// Appends a table of these names.
pub fn encode_file_names(names: &[&'static str], out: &mut Encoder) -> Result<(), AllocError>
    ensures { OnOk result (Appends (list_form Text (texts names.now)) (written out.old) (written out.new)) }
{
    out.put_u64(names.len() as u64)?;
    encode_names(names, out)
}

/// Appends the index of the location's file among these names, its line and its column.
pub fn encode_location(
    location: Location,
    names: &[&'static str],
    out: &mut Encoder,
) -> Result<(), AllocError>
    ensures { OnOk result (Appends (location_form (texts names.now) location) (written out.old) (written out.new)) }
{
    let number = file_index(names, location.file());
    if number > u32::MAX as usize {
        return Err(AllocError);
    }
    out.put_u32(number as u32)?;
    out.put_u32(location.line())?;
    out.put_u32(location.column())
}

/// The first of these files that has this name.
pub fn find_file(name: &str, files: &[&'static str]) -> Option<&'static str>
    ensures listed { is_some result ≡ is_listed files.now name.now }
    ensures same { IfSome result (λ file. file.now ≡ name.now) }
{
    for file in files {
        if *file == name {
            return Some(*file);
        }
    }
    None
}

// Reads this number of names, and finds each among these files.
fn decode_names(
    input: &mut Decoder,
    count: u64,
    files: &[&'static str],
) -> Result<Vec<Option<&'static str>>, DecodeError>
    ensures { ItemsReadAs IsAnyName Text (IsFound files.now) (λ v. v.items) count (unread input.old) result (unread input.new) }
{
    let mut found_files = Vec::new(input.alloc());
    for _ in 0..count {
        let name = input.take_text()?;
        found_files.push(find_file(name, files))?;
    }
    Ok(found_files)
}

/// Reads a table of names, and finds each among these files.
pub fn decode_file_names(
    input: &mut Decoder,
    files: &[&'static str],
) -> Result<Vec<Option<&'static str>>, DecodeError>
    ensures { ReadsAs AreAnyNames (list_form Text) (λ names v. ArePairwise (IsFound files.now) names v.items)
        (unread input.old) result (unread input.new) }
{
    let count = input.take_u64()?;
    decode_names(input, count, files)
}

/// The index of a file's name, a line and a column.
pub type SavedLocation = (u32, (u32, u32));

/// The location that was saved, or `here` if its file isn't known. None if the table is too short.
pub fn restored(
    saved: SavedLocation,
    found_files: &[Option<&'static str>],
    here: Location,
) -> Option<Location>
    ensures { (files : List (Bor (List ℕ))) (names : List (List ℕ)) (l : Location) → ArePairwise (IsFound files) names found_files.now
        → IsFileKnown names l.file.now → saved_location_form saved ≡ location_form names l
        → IsSomeAnd result (IsRelocated files here l) }
{
    let (number, (line, column)) = saved;
    match found_files.get(number as usize) {
        None => None,
        Some(None) => Some(here),
        Some(Some(file)) => Some(Location::new(file, line, column)),
    }
}
