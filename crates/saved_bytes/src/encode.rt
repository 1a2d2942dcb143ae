//! Writing values as bytes.

ghost use Rattle.std.specs.Prelude.{◌≡◌, [], OnOk};
ghost use Rattle.std.specs.Int.{w8, w16, w32, w64};
ghost use Rattle.saved_bytes.specs.Forms.Form.{Number, Text};
ghost use Rattle.saved_bytes.specs.Forms.{Appends, written};

use std::alloc::{AllocError, Global};

/// A buffer to which values are written one after the other. If a call fails because memory ran out, a
/// part of the value may have been appended.
#[derive(Debug, Drop)]
pub struct Encoder {
    bytes: Vec<u8>,
}

impl Encoder {
    /// Creates an empty buffer. Doesn't allocate.
    pub fn new(alloc: Global) -> Encoder
        ensures { written result ≡ [] }
    {
        Encoder {
            bytes: Vec::new(alloc),
        }
    }

    /// The bytes written so far.
    pub fn bytes(&self) -> &[u8]
        ensures { result.now ≡ written self.now }
    {
        self.bytes.as_slice()
    }

    /// Drops the bytes written so far, and keeps the capacity.
    pub fn clear(&mut self)
        ensures { written self.new ≡ [] }
    {
        self.bytes.clear();
    }

    /// Appends a byte.
    pub fn put_u8(&mut self, number: u8) -> Result<(), AllocError>
        ensures { OnOk result (Appends (Number w8 number) (written self.old) (written self.new)) }
    {
        self.bytes.extend_from_slice(&number.to_le_bytes())
    }

    /// Appends the number's two bytes, little-endian.
    pub fn put_u16(&mut self, number: u16) -> Result<(), AllocError>
        ensures { OnOk result (Appends (Number w16 number) (written self.old) (written self.new)) }
    {
        self.bytes.extend_from_slice(&number.to_le_bytes())
    }

    /// Appends the number's four bytes, little-endian.
    pub fn put_u32(&mut self, number: u32) -> Result<(), AllocError>
        ensures { OnOk result (Appends (Number w32 number) (written self.old) (written self.new)) }
    {
        self.bytes.extend_from_slice(&number.to_le_bytes())
    }

    /// Appends the number's eight bytes, little-endian.
    pub fn put_u64(&mut self, number: u64) -> Result<(), AllocError>
        ensures { OnOk result (Appends (Number w64 number) (written self.old) (written self.new)) }
    {
        self.bytes.extend_from_slice(&number.to_le_bytes())
    }

    /// Appends the text's length in bytes, as eight bytes, and the text.
    pub fn put_text(&mut self, text: &str) -> Result<(), AllocError>
        ensures { OnOk result (Appends (Text text.now) (written self.old) (written self.new)) }
    {
        self.put_u64(text.len() as u64)?;
        self.bytes.extend_from_slice(text.as_bytes())
    }
}
