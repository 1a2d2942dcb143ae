//! The pieces of a file: bytes behind a header, which has their length and their checksum.

ghost use Rattle.std.specs.Prelude.{◌≡◌, ◌<◌, ◌≤◌, ◌++◌, [], ℕ, List, Some, IfOk, IfErr, IsOk, OnOk, length};
ghost use Rattle.std.specs.Io.KnownBytes.{Appends as Adds, Consumes, IsAtEnd};
ghost use Rattle.saved_bytes.specs.Files.{checksum, header, header_form, piece_of, IsHeaderOf, IsNoDamage};
ghost use Rattle.saved_bytes.specs.Forms.{Appends, IsForm, spell, written};
ghost use Rattle.saved_bytes.specs.declared.decode.DecodeError.TheVariants.{OutOfMemory};

use crate::checksum::checksum;
use crate::decode::{DecodeError, Decoder, Fault};
use crate::encode::Encoder;
use crate::file::{ReadError, WriteError};
use crate::saved::Saved;
use std::alloc::{AllocError, Global};
use std::io;
use std::io::{Read, Write};

/// The first eight bytes of a piece: `PoolSave`.
pub const MAGIC: u64 = 0x6576_6153_6c6f_6f50;

/// The version of the format, which follows.
pub const VERSION: u32 = 2;

/// How many bytes a header takes.
pub const HEADER: usize = 28;

// How many bytes are read at a time.
const PART: usize = 4096;

/// What a header says of the bytes behind it.
#[derive(Clone, Copy)]
pub struct Header {
    /// The version of the format.
    pub version: u32,
    /// How many bytes there are.
    pub len: u64,
    /// Their checksum.
    pub sum: u64,
}

// Appends the header of these bytes.
fn encode_header(bytes: &[u8], out: &mut Encoder) -> Result<(), AllocError>
    ensures { OnOk result (Appends (header VERSION bytes.now) (written out.old) (written out.new)) }
{
    let header = (
        MAGIC,
        (VERSION, (bytes.len() as u64, checksum(VERSION, bytes))),
    );
    header.encode(out)
}

/// Writes a piece. `head` is a buffer for its header.
pub fn write_piece<W: Write>(
    bytes: &[u8],
    head: &mut Encoder,
    out: &mut W,
) -> Result<(), WriteError>
    ensures { OnOk result (IsForm (header VERSION bytes.now)
        × Adds (W.contents out.old) (W.contents out.new) (piece_of VERSION bytes.now)) }
{
    head.clear();
    encode_header(bytes, head)?;
    out.write_all(head.bytes())?;
    out.write_all(bytes)?;
    Ok(())
}

/// Reads this many bytes, and replaces those in the buffer by them: fewer only if the input ends.
/// Allocates in proportion to the bytes that are there.
pub fn read_up_to<R: Read>(input: &mut R, len: usize, bytes: &mut Vec<u8>) -> Result<(), ReadError>
    ensures bytes { OnOk result (Consumes (R.remaining input.old) (R.remaining input.new) bytes.new.items) }
    ensures most { OnOk result (length bytes.new.items ≤ len) }
    ensures ended { OnOk result (length bytes.new.items < len → IsAtEnd (R.remaining input.new)) }
    ensures err { IfErr result IsNoDamage }
{
    bytes.clear();
    let mut part = [0; PART];
    for _ in 0..u64::MAX {
        let left = len.saturating_sub(bytes.len());
        if left == 0 {
            return Ok(());
        }
        let most = left.min(PART);
        match input.read(&mut part[..most]) {
            Ok(0) => return Ok(()),
            Ok(n) => {
                if bytes.extend_from_slice(&part[..n]).is_err() {
                    return Err(ReadError::Decode(DecodeError::OutOfMemory));
                }
            }
            Err(error) => {
                if error.kind() != io::ErrorKind::Interrupted {
                    return Err(ReadError::Io(error));
                }
            }
        }
    }
    Err(ReadError::Io(io::ErrorKind::Interrupted.into()))
}

// The header in a file's bytes from this index on.
fn decode_header(alloc: Global, bytes: &[u8], at: usize) -> Result<Header, DecodeError>
    ensures again { (version : ℕ) (inner : List ℕ) → IsForm (header version inner) → bytes.now ≡ spell (header version inner) []
        → IfOk result (λ h. IsHeaderOf h version inner) × IfErr result (λ e. e ≡ OutOfMemory) }
    ensures only { IfOk result (λ h. (rest : List ℕ) × (bytes.now ≡ spell (header_form h) rest)) }
{
    let mut input = Decoder::at(alloc, bytes, at);
    let (magic, (version, (len, sum))) = <(u64, (u32, (u64, u64)))>::decode(&mut input)?;
    if magic != MAGIC {
        return Err(DecodeError::Damaged(at, Fault::Magic));
    }
    Ok(Header { version, len, sum })
}

/// Reads a header at this index of a file. `bytes` is a buffer for it.
pub fn read_header<R: Read>(
    alloc: Global,
    input: &mut R,
    at: usize,
    bytes: &mut Vec<u8>,
) -> Result<Header, ReadError>
    ensures again { (version : ℕ) (inner rest : List ℕ) → IsForm (header version inner)
        → R.remaining input.old ≡ Some (spell (header version inner) rest)
        → IfOk result (λ h. IsHeaderOf h version inner × (R.remaining input.new ≡ Some rest)) × IfErr result IsNoDamage }
    ensures only { IfOk result (λ h. Consumes (R.remaining input.old) (R.remaining input.new) (spell (header_form h) [])) }
{
    read_up_to(input, HEADER, bytes)?;
    match decode_header(alloc, bytes.as_slice(), at) {
        Ok(header) => Ok(header),
        Err(error) => Err(ReadError::Decode(error)),
    }
}

/// Compares bytes with their header. `at` is the index of their first one in the file.
pub fn check(header: Header, bytes: &[u8], at: usize) -> Result<(), DecodeError>
    ensures again { header.len ≡ length bytes.now → header.sum ≡ checksum header.version bytes.now → IsOk result }
    ensures only { OnOk result ((header.len ≡ length bytes.now) × (header.sum ≡ checksum header.version bytes.now)) }
{
    let len = bytes.len() as u64;
    if len < header.len {
        let end = at.saturating_add(bytes.len());
        return Err(DecodeError::Damaged(end, Fault::Short));
    }
    if header.len < len {
        let end = at.saturating_add(header.len as usize);
        return Err(DecodeError::Damaged(end, Fault::Long));
    }
    if checksum(header.version, bytes) != header.sum {
        return Err(DecodeError::Damaged(at.saturating_sub(8), Fault::Sum));
    }
    Ok(())
}

/// Reads the bytes behind a header. `at` is the index of the first one in the file.
pub fn read_body<R: Read>(
    header: Header,
    input: &mut R,
    at: usize,
    bytes: &mut Vec<u8>,
) -> Result<(), ReadError>
    ensures again { (inner rest : List ℕ) → header.len ≡ length inner → header.sum ≡ checksum header.version inner
        → R.remaining input.old ≡ Some (inner ++ rest)
        → OnOk result ((bytes.new.items ≡ inner) × (R.remaining input.new ≡ Some rest)) × IfErr result IsNoDamage }
    ensures only { OnOk result (Consumes (R.remaining input.old) (R.remaining input.new) bytes.new.items
        × (header.len ≡ length bytes.new.items) × (header.sum ≡ checksum header.version bytes.new.items)) }
{
    read_up_to(input, header.len as usize, bytes)?;
    match check(header, bytes.as_slice(), at) {
        Ok(()) => Ok(()),
        Err(error) => Err(ReadError::Decode(error)),
    }
}

/// Reads a piece at this index of a file, and replaces the bytes in the buffer by its own.
pub fn read_piece<R: Read>(
    alloc: Global,
    input: &mut R,
    at: usize,
    bytes: &mut Vec<u8>,
) -> Result<(), ReadError>
    ensures again { (inner rest : List ℕ) → IsForm (header VERSION inner)
        → R.remaining input.old ≡ Some (piece_of VERSION inner ++ rest)
        → OnOk result ((bytes.new.items ≡ inner) × (R.remaining input.new ≡ Some rest)) × IfErr result IsNoDamage }
    ensures only { OnOk result (Consumes (R.remaining input.old) (R.remaining input.new) (piece_of VERSION bytes.new.items)) }
{
    let header = read_header(alloc, input, at, bytes)?;
    if header.version != VERSION {
        let version = at.saturating_add(8);
        return Err(ReadError::Decode(DecodeError::Damaged(version, Fault::Version)));
    }
    read_body(header, input, at.saturating_add(HEADER), bytes)
}

/// An error if the input goes on. `at` is the index of its next byte in the file.
pub fn expect_end<R: Read>(input: &mut R, at: usize, bytes: &mut Vec<u8>) -> Result<(), ReadError>
    ensures again { R.remaining input.old ≡ Some [] → IfErr result IsNoDamage }
    ensures only { OnOk result (Consumes (R.remaining input.old) (R.remaining input.new) [] × IsAtEnd (R.remaining input.new)) }
{
    read_up_to(input, 1, bytes)?;
    if bytes.as_slice().is_empty() {
        return Ok(());
    }
    Err(ReadError::Decode(DecodeError::Damaged(at, Fault::Long)))
}
