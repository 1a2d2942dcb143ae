//! Files of images.

ghost use Rattle.std.specs.Prelude.{◌≡◌, ◌/◌, ◌+◌, ◌++◌, [], ℕ, List, Some, OnOk, IfOk, IfErr, IfSome, length};
ghost use Rattle.std.specs.Io.KnownBytes.{Appends as Adds, Consumes};
ghost use Rattle.saved_bytes.specs.Files.{checksum, piece_of, pieces_of, ArePieces, IsFileOf, IsHeaderOf, IsNoDamage};
ghost use Rattle.saved_bytes.specs.Files.{IsPieceOf, IsWhole, IsWholeFileOf};
ghost use Rattle.saved_bytes.specs.Forms.{IsForm, spell};
ghost use Rattle.saved_bytes.specs.Images.{front_form, image_form, named_slots_form, saved_front_form, AreNamed};
ghost use Rattle.saved_bytes.specs.Images.{IsImageAgain, IsImageNamed, IsSlotAgain};
ghost use Rattle.saved_bytes.specs.Reading.{ArePairwise};
ghost use Rattle.saved_bytes.specs.declared.decode.DecodeError.TheVariants.{OutOfMemory};
ghost use Rattle.saved_bytes.specs.declared.pieces.TheConstants.{VERSION};
ghost use Rattle.store_images.specs.declared.image.Image.{Image};
ghost use Rattle.store_images.specs.declared.image.SlotImage.{SlotImage};

use crate::decode::{DecodeError, Decoder, Fault};
use crate::encode::Encoder;
use crate::images::{decode_image, decode_named_slots, encode_front, encode_named_slots};
use crate::pieces::{
    HEADER, Header, VERSION, check, expect_end, read_body, read_header, read_piece, write_piece,
};
use crate::saved::Saved;
use generational_core::Location;
use std::alloc::{AllocError, Global};
use std::error::Error;
use std::io::{Read, Write};
use std::{fmt, io};
use store_images::{Image, SlotImage};

// The earlier version of the format: one piece with the image.
const WHOLE: u32 = 1;

// How many slots a piece has, except for the last.
const PIECE: usize = 1024;

// An image's numbers in the order of its fields, and how many slots it has.
type Front = ((u64, (u64, (u64, usize))), u64);

/// Why a file can't be written.
#[derive(Debug, Drop)]
pub enum WriteError {
    /// The writer failed.
    Io(io::Error),
    /// Out of memory.
    OutOfMemory,
}

impl fmt::Display for WriteError {
    fn fmt<W: fmt::Write>(&self, f: &mut fmt::Formatter<W>) -> fmt::Result {
        match self {
            WriteError::Io(error) => write!(f, "{error}"),
            WriteError::OutOfMemory => f.write_str("out of memory"),
        }
    }
}

impl Error for WriteError {}

impl From<AllocError> for WriteError {
    fn from(_error: AllocError) -> WriteError {
        WriteError::OutOfMemory
    }
}

impl From<io::Error> for WriteError {
    fn from(error: io::Error) -> WriteError {
        WriteError::Io(error)
    }
}

/// Why a file can't be read.
#[derive(Debug, Drop)]
pub enum ReadError {
    /// The reader failed.
    Io(io::Error),
    /// The bytes aren't a file of such an image, or memory ran out.
    Decode(DecodeError),
}

impl fmt::Display for ReadError {
    fn fmt<W: fmt::Write>(&self, f: &mut fmt::Formatter<W>) -> fmt::Result {
        match self {
            ReadError::Io(error) => write!(f, "{error}"),
            ReadError::Decode(error) => write!(f, "{error}"),
        }
    }
}

impl Error for ReadError {}

impl From<io::Error> for ReadError {
    ghost from_gives = { λ _ e. IsNoDamage e };

    fn from(error: io::Error) -> ReadError {
        ReadError::Io(error)
    }
}

impl From<AllocError> for ReadError {
    ghost from_gives = { λ _ e. IsNoDamage e };

    fn from(_error: AllocError) -> ReadError {
        ReadError::Decode(DecodeError::OutOfMemory)
    }
}

// Writes a piece of these slots. `piece` and `head` are buffers for its bytes and its header.
fn write_named_slots<T: Saved, W: Write>(
    alloc: Global,
    slots: &[SlotImage<T>],
    piece: &mut Encoder,
    head: &mut Encoder,
    out: &mut W,
) -> Result<(), WriteError>
    ensures { OnOk result ((bytes : List ℕ) × IsPieceOf T.form slots.now bytes
        × Adds (W.contents out.old) (W.contents out.new) bytes) }
{
    piece.clear();
    encode_named_slots(alloc, slots, piece)?;
    write_piece(piece.bytes(), head, out)
}

// Writes pieces of these slots.
fn write_slots<T: Saved, W: Write>(
    alloc: Global,
    slots: &[SlotImage<T>],
    head: &mut Encoder,
    out: &mut W,
) -> Result<(), WriteError>
    ensures { OnOk result ((bytes : List ℕ) × ArePieces T.form (length slots.now / PIECE + 1) slots.now bytes
        × Adds (W.contents out.old) (W.contents out.new) bytes) }
{
    let mut piece = Encoder::new(alloc);
    let mut rest = slots;
    for _ in 0..slots.len() / PIECE + 1 {
        let (front, back) = rest.split_at(rest.len().min(PIECE));
        write_named_slots(alloc, front, &mut piece, head, out)?;
        rest = back;
    }
    Ok(())
}

/// Writes an image as a file: a piece with its numbers, and pieces of 1024 slots, each behind a header of
/// 28 bytes.
///
/// A piece is built in memory, and then written by two calls of `write_all`: pass a `BufWriter` or a
/// file. The next piece is built in the same buffer. O(n) for n slots and few files.
///
/// # Errors
///
/// `OutOfMemory`, or `Io` with the writer's error; in that case a part of the file may have been
/// written.
pub fn write_image<T: Saved, W: Write>(
    alloc: Global,
    image: &Image<T>,
    out: &mut W,
) -> Result<(), WriteError>
    ensures { OnOk result ((file : List ℕ) × IsFileOf T.form image.now file
        × Adds (W.contents out.old) (W.contents out.new) file) }
{
    let mut front = Encoder::new(alloc);
    encode_front(image, &mut front)?;
    let mut head = Encoder::new(alloc);
    write_piece(front.bytes(), &mut head, out)?;
    write_slots(alloc, image.slots.as_slice(), &mut head, out)
}

// The image in the bytes behind a file's header.
fn decode_whole<T: Saved>(
    header: Header,
    alloc: Global,
    bytes: &[u8],
    files: &[&'static str],
    here: Location,
) -> Result<Image<T>, DecodeError>
    ensures again { (names : List (List ℕ)) (image : Image T) → IsImageNamed names image → IsForm (image_form names T.form image)
        → IsHeaderOf header WHOLE bytes.now → bytes.now ≡ spell (image_form names T.form image) []
        → IfOk result (λ again. IsImageAgain files.now here T.form image again) × IfErr result (λ e. e ≡ OutOfMemory) }
    ensures only { OnOk result ((header.len ≡ length bytes.now) × (header.sum ≡ checksum header.version bytes.now)) }
{
    check(header, bytes, HEADER)?;
    let mut input = Decoder::at(alloc, bytes, HEADER);
    let image = decode_image(&mut input, files, here)?;
    if input.is_empty() {
        Ok(image)
    } else {
        Err(input.fault(Fault::Long))
    }
}

// Reads the rest of a file of the earlier version, behind its header.
fn read_whole<T: Saved, R: Read>(
    header: Header,
    alloc: Global,
    input: &mut R,
    files: &[&'static str],
    here: Location,
) -> Result<Image<T>, ReadError>
    ensures again { (names : List (List ℕ)) (image : Image T) → IsImageNamed names image → IsForm (image_form names T.form image)
        → IsHeaderOf header WHOLE (spell (image_form names T.form image) [])
        → R.remaining input.old ≡ Some (spell (image_form names T.form image) [])
        → IfOk result (λ again. IsImageAgain files.now here T.form image again) × IfErr result IsNoDamage }
    ensures only { OnOk result (IfSome (R.remaining input.old) (λ bytes. (header.len ≡ length bytes) × (header.sum ≡ checksum header.version bytes))) }
{
    let mut bytes = Vec::new(alloc);
    input.read_to_end(&mut bytes)?;
    match decode_whole(header, alloc, bytes.as_slice(), files, here) {
        Ok(image) => Ok(image),
        Err(error) => Err(ReadError::Decode(error)),
    }
}

// The numbers in a file's first piece. `at` is the index of the first byte.
fn decode_front(alloc: Global, bytes: &[u8], at: usize) -> Result<Front, DecodeError>
    ensures { (image : (ℕ × (ℕ × (ℕ × ℕ))) × ℕ) → IsForm (saved_front_form image) → bytes.now ≡ spell (saved_front_form image) []
        → IfOk result (λ front. saved_front_form front ≡ saved_front_form image) × IfErr result (λ e. e ≡ OutOfMemory) }
{
    let mut input = Decoder::at(alloc, bytes, at);
    let front = Front::decode(&mut input)?;
    if input.is_empty() {
        Ok(front)
    } else {
        Err(input.fault(Fault::Long))
    }
}

// This number of slots in a piece's bytes. `at` is the index of the first byte.
fn decode_piece<T: Saved>(
    alloc: Global,
    bytes: &[u8],
    at: usize,
    count: u64,
    files: &[&'static str],
    here: Location,
) -> Result<Vec<SlotImage<T>>, DecodeError>
    ensures { (names : List (List ℕ)) (slots : List (SlotImage T)) → AreNamed names count slots
        → IsForm (named_slots_form names T.form slots) → bytes.now ≡ spell (named_slots_form names T.form slots) []
        → IfOk result (λ again. ArePairwise (IsSlotAgain files.now here T.form) slots again.items)
        × IfErr result (λ e. e ≡ OutOfMemory) }
{
    let mut input = Decoder::at(alloc, bytes, at);
    let slots = decode_named_slots(&mut input, count, files, here)?;
    if input.is_empty() {
        Ok(slots)
    } else {
        Err(input.fault(Fault::Long))
    }
}

// Reads a piece of this number of slots. `bytes` is a buffer for it.
fn read_next<T: Saved, R: Read>(
    alloc: Global,
    input: &mut R,
    at: usize,
    bytes: &mut Vec<u8>,
    count: u64,
    files: &[&'static str],
    here: Location,
) -> Result<Vec<SlotImage<T>>, ReadError>
    ensures again { (slots : List (SlotImage T)) (first rest : List ℕ) → length slots ≡ count → IsPieceOf T.form slots first
        → R.remaining input.old ≡ Some (first ++ rest)
        → IfOk result (λ again. ArePairwise (IsSlotAgain files.now here T.form) slots again.items
        × (R.remaining input.new ≡ Some rest)) × IfErr result IsNoDamage }
    ensures only { OnOk result ((inner : List ℕ) × Consumes (R.remaining input.old) (R.remaining input.new) (piece_of VERSION inner)) }
{
    read_piece(alloc, input, at, bytes)?;
    match decode_piece(
        alloc,
        bytes.as_slice(),
        at.saturating_add(HEADER),
        count,
        files,
        here,
    ) {
        Ok(slots) => Ok(slots),
        Err(error) => Err(ReadError::Decode(error)),
    }
}

// Reads pieces of this number of slots together, to the input's end. `start` is the index of the first
// one.
fn read_slots<T: Saved, R: Read>(
    alloc: Global,
    input: &mut R,
    start: usize,
    count: u64,
    files: &[&'static str],
    here: Location,
) -> Result<Vec<SlotImage<T>>, ReadError>
    ensures again { (slots : List (SlotImage T)) (bytes : List ℕ) → length slots ≡ count
        → ArePieces T.form (count / PIECE + 1) slots bytes → R.remaining input.old ≡ Some bytes
        → IfOk result (λ again. ArePairwise (IsSlotAgain files.now here T.form) slots again.items) × IfErr result IsNoDamage }
    ensures only { OnOk result (IfSome (R.remaining input.old) (λ bytes. (pieces : List (List ℕ)) × (bytes ≡ pieces_of pieces))) }
{
    let mut bytes = Vec::new(alloc);
    let first = count.min(PIECE as u64);
    let mut slots = read_next(alloc, input, start, &mut bytes, first, files, here)?;
    let mut at = start.saturating_add(HEADER).saturating_add(bytes.len());
    for _ in 0..count / PIECE as u64 {
        let left = count.saturating_sub(slots.len() as u64);
        let most = left.min(PIECE as u64);
        let mut more = read_next(alloc, input, at, &mut bytes, most, files, here)?;
        slots.append(&mut more)?;
        at = at.saturating_add(HEADER).saturating_add(bytes.len());
    }
    expect_end(input, at, &mut bytes)?;
    Ok(slots)
}

// Reads the rest of a file, behind its first header.
fn read_in_pieces<T: Saved, R: Read>(
    header: Header,
    alloc: Global,
    input: &mut R,
    files: &[&'static str],
    here: Location,
) -> Result<Image<T>, ReadError>
    ensures again { (image : Image T) (bytes : List ℕ) → IsForm (front_form image)
        → IsHeaderOf header VERSION (spell (front_form image) [])
        → ArePieces T.form (length image.slots.items / PIECE + 1) image.slots.items bytes
        → R.remaining input.old ≡ Some (spell (front_form image) [] ++ bytes)
        → IfOk result (λ again. IsImageAgain files.now here T.form image again) × IfErr result IsNoDamage }
    ensures only { OnOk result (IfSome (R.remaining input.old) (λ bytes. (inner : List ℕ) × (pieces : List (List ℕ))
        × (header.len ≡ length inner) × (header.sum ≡ checksum header.version inner) × (bytes ≡ inner ++ pieces_of pieces))) }
{
    let mut bytes = Vec::new(alloc);
    read_body(header, input, HEADER, &mut bytes)?;
    let front = match decode_front(alloc, bytes.as_slice(), HEADER) {
        Ok(front) => front,
        Err(error) => return Err(ReadError::Decode(error)),
    };
    let ((number, (start, (next, peak))), count) = front;
    let at = HEADER.saturating_add(bytes.len());
    let slots = read_slots(alloc, input, at, count, files, here)?;
    Ok(Image {
        number,
        start,
        next,
        peak,
        slots,
    })
}

/// Reads a file of an image to the reader's end. A location whose file isn't among `files` becomes
/// `here`.
///
/// The input may be any bytes. A piece is read into memory at a time; what is allocated in addition is in
/// proportion to the values that are there, whatever lengths the file claims. A file of the earlier
/// version, 1, is one piece: all of it is read into memory. The image needn't be one that a store can
/// have: `Store::from_image` checks that.
///
/// # Errors
///
/// - `Io` with the reader's error.
/// - `Decode` with the first fault. Each piece is checked in this order: the header's length, magic and
///   version, the length and the checksum of what follows, and then the values from the first to the
///   last. After the last piece the file ends. A `Place` fault has the index of its slot's first byte.
/// - `Decode` with `OutOfMemory`.
pub fn read_image<T: Saved, R: Read>(
    alloc: Global,
    input: &mut R,
    files: &[&'static str],
    here: Location,
) -> Result<Image<T>, ReadError>
    ensures again { (image : Image T) (file : List ℕ) → IsFileOf T.form image file → R.remaining input.old ≡ Some file
        → IfOk result (λ again. IsImageAgain files.now here T.form image again) × IfErr result IsNoDamage }
    ensures earlier { (image : Image T) (file : List ℕ) → IsWholeFileOf T.form image file → R.remaining input.old ≡ Some file
        → IfOk result (λ again. IsImageAgain files.now here T.form image again) × IfErr result IsNoDamage }
    ensures whole { OnOk result (IfSome (R.remaining input.old) IsWhole) }
{
    let mut bytes = Vec::new(alloc);
    let header = read_header(alloc, input, 0, &mut bytes)?;
    if header.version == WHOLE {
        return read_whole(header, alloc, input, files, here);
    }
    if header.version == VERSION {
        return read_in_pieces(header, alloc, input, files, here);
    }
    Err(ReadError::Decode(DecodeError::Damaged(8, Fault::Version)))
}
