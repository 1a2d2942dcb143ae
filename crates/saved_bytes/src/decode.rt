//! Reading values from bytes.

ghost use Rattle.std.specs.Prelude.{◌≡◌, ◌==◌, length};
ghost use Rattle.std.specs.Int.{w8, w16, w32, w64};
ghost use Rattle.saved_bytes.specs.Forms.Form.{Number, Text};
ghost use Rattle.saved_bytes.specs.Forms.{unread};
ghost use Rattle.saved_bytes.specs.declared.decode.DecodeError.TheVariants.{OutOfMemory};
ghost use Rattle.saved_bytes.specs.Reading.{ReadsAgain, ReadsOnly, TextReadsAgain};

use std::alloc::{AllocError, AllocFailed, Global};
use std::error::Error;
use std::fmt;

/// Why bytes encode no value.
#[derive(Clone, Copy, Debug, PartialEq, Eq)]
pub enum Fault {
    /// They end within the value.
    Short,
    /// A byte for the variant has none of their numbers.
    Variant,
    /// A text isn't UTF-8.
    Text,
    /// A location's file isn't in the table of files.
    Place,
    /// The file isn't one of saved values.
    Magic,
    /// The file has another version than this one.
    Version,
    /// The bytes have another checksum than the file says.
    Sum,
    /// There are bytes after the values.
    Long,
}

impl fmt::Display for Fault {
    fn fmt<W: fmt::Write>(&self, f: &mut fmt::Formatter<W>) -> fmt::Result {
        match self {
            Fault::Short => f.write_str("the bytes end too early"),
            Fault::Variant => f.write_str("no variant has this number"),
            Fault::Text => f.write_str("the text isn't UTF-8"),
            Fault::Place => f.write_str("the location's file isn't in the table"),
            Fault::Magic => f.write_str("the file isn't one of saved values"),
            Fault::Version => f.write_str("the file has another version"),
            Fault::Sum => f.write_str("the bytes have another sum than the file says"),
            Fault::Long => f.write_str("bytes stand behind the values"),
        }
    }
}

impl Error for Fault {}

/// Why a value can't be read.
#[derive(Clone, Copy, Debug, PartialEq, Eq)]
pub enum DecodeError {
    /// Out of memory.
    OutOfMemory,
    /// The fault, and the index of the byte where it was found.
    Damaged(usize, Fault),
}

impl fmt::Display for DecodeError {
    fn fmt<W: fmt::Write>(&self, f: &mut fmt::Formatter<W>) -> fmt::Result {
        match self {
            DecodeError::OutOfMemory => f.write_str("out of memory"),
            DecodeError::Damaged(at, fault) => write!(f, "at byte {at}: {fault}"),
        }
    }
}

impl Error for DecodeError {}

impl From<AllocError> for DecodeError {
    ghost from_gives = { λ _ e. e ≡ OutOfMemory };

    fn from(_error: AllocError) -> DecodeError {
        DecodeError::OutOfMemory
    }
}

impl<T: Drop> From<AllocFailed<T>> for DecodeError {
    ghost from_gives = { λ _ e. e ≡ OutOfMemory };

    fn from(_error: AllocFailed<T>) -> DecodeError {
        DecodeError::OutOfMemory
    }
}

/// Bytes from which values are read one after the other. A call that fails may have consumed some.
#[derive(Debug, Drop)]
pub struct Decoder<'a> {
    alloc: Global,
    rest: &'a [u8],
    end: usize,
}

impl<'a> Decoder<'a> {
    /// Reads from these bytes. Values allocate from `alloc`.
    pub fn new(alloc: Global, bytes: &'a [u8]) -> Decoder<'a>
        ensures { unread result ≡ bytes.now }
    {
        Decoder::at(alloc, bytes, 0)
    }

    // Reads from these bytes of a file, the first of which has this index.
    pub(crate) fn at(alloc: Global, bytes: &'a [u8], start: usize) -> Decoder<'a>
        ensures { unread result ≡ bytes.now }
    {
        Decoder {
            alloc,
            rest: bytes,
            end: start.saturating_add(bytes.len()),
        }
    }

    /// The allocator of the values that are read.
    pub fn alloc(&self) -> Global {
        self.alloc
    }

    /// The index of the next byte.
    pub fn position(&self) -> usize {
        self.end.saturating_sub(self.rest.len())
    }

    /// The remaining bytes.
    pub fn rest(&self) -> &'a [u8]
        ensures { result.now ≡ unread self.now }
    {
        self.rest
    }

    /// Whether every byte has been read.
    pub fn is_empty(&self) -> bool
        ensures { result ≡ (length (unread self.now) == 0) }
    {
        self.rest.is_empty()
    }

    /// An error at the next byte.
    pub fn fault(&self, fault: Fault) -> DecodeError {
        DecodeError::Damaged(self.position(), fault)
    }

    /// Reads a byte.
    pub fn take_u8(&mut self) -> Result<u8, DecodeError>
        ensures again { ReadsAgain (λ n. Number w8 n) (unread self.old) result (unread self.new) }
        ensures only { ReadsOnly (λ n. Number w8 n) (unread self.old) result (unread self.new) }
    {
        if self.rest.is_empty() {
            return Err(self.fault(Fault::Short));
        }
        let (front, rest) = self.rest.split_at(1);
        self.rest = rest;
        Ok(u8::from_le_bytes([front[0]]))
    }

    /// Reads a number of two bytes.
    pub fn take_u16(&mut self) -> Result<u16, DecodeError>
        ensures again { ReadsAgain (λ n. Number w16 n) (unread self.old) result (unread self.new) }
        ensures only { ReadsOnly (λ n. Number w16 n) (unread self.old) result (unread self.new) }
    {
        if self.rest.len() < 2 {
            return Err(self.fault(Fault::Short));
        }
        let (front, rest) = self.rest.split_at(2);
        self.rest = rest;
        Ok(u16::from_le_bytes([front[0], front[1]]))
    }

    /// Reads a number of four bytes.
    pub fn take_u32(&mut self) -> Result<u32, DecodeError>
        ensures again { ReadsAgain (λ n. Number w32 n) (unread self.old) result (unread self.new) }
        ensures only { ReadsOnly (λ n. Number w32 n) (unread self.old) result (unread self.new) }
    {
        if self.rest.len() < 4 {
            return Err(self.fault(Fault::Short));
        }
        let (front, rest) = self.rest.split_at(4);
        self.rest = rest;
        let bytes = [front[0], front[1], front[2], front[3]];
        Ok(u32::from_le_bytes(bytes))
    }

    /// Reads a number of eight bytes.
    pub fn take_u64(&mut self) -> Result<u64, DecodeError>
        ensures again { ReadsAgain (λ n. Number w64 n) (unread self.old) result (unread self.new) }
        ensures only { ReadsOnly (λ n. Number w64 n) (unread self.old) result (unread self.new) }
    {
        if self.rest.len() < 8 {
            return Err(self.fault(Fault::Short));
        }
        let (front, rest) = self.rest.split_at(8);
        self.rest = rest;
        Ok(u64::from_le_bytes([
            front[0], front[1], front[2], front[3], front[4], front[5], front[6], front[7],
        ]))
    }

    /// Reads a text, which borrows from the bytes: it isn't copied.
    pub fn take_text(&mut self) -> Result<&'a str, DecodeError>
        ensures again { TextReadsAgain (λ text. text.now) (unread self.old) result (unread self.new) }
        ensures only { ReadsOnly (λ text. Text text.now) (unread self.old) result (unread self.new) }
    {
        let len = self.take_u64()? as usize;
        if self.rest.len() < len {
            return Err(self.fault(Fault::Short));
        }
        let (front, rest) = self.rest.split_at(len);
        match str::from_utf8(front) {
            Ok(text) => {
                self.rest = rest;
                Ok(text)
            }
            Err(_) => Err(self.fault(Fault::Text)),
        }
    }
}
