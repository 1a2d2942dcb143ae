//! Types whose values are written as bytes, and read back.

ghost use Rattle.std.specs.Prelude.{OnOk};
ghost use Rattle.saved_bytes.specs.Forms.{Appends, written, unread, Form};
ghost use Rattle.saved_bytes.specs.Reading.{ReadsAgain, ReadsOnly};

use crate::decode::{DecodeError, Decoder};
use crate::encode::Encoder;
use std::alloc::AllocError;

/// A type whose values are written as bytes, and read back.
///
/// A struct writes its fields one after the other, and reads them in the same order. `form` lists the
/// forms of its fields, and needs no proof:
///
/// ```rust
/// impl Saved for Hero {
///     ghost form = { λ it. Both (⟦<String as Saved>⟧.form it.name) (⟦<u64 as Saved>⟧.form it.strength) };
///
///     fn encode(&self, out: &mut Encoder) -> Result<(), AllocError> {
///         self.name.encode(out)?;
///         self.strength.encode(out)
///     }
///
///     fn decode(input: &mut Decoder) -> Result<Hero, DecodeError> {
///         let name = String::decode(input)?;
///         let strength = u64::decode(input)?;
///         Ok(Hero { name, strength })
///     }
/// }
/// ```
pub trait Saved: Drop {
    /// What is written of a value: its numbers and texts.
    ghost form: { Self → Form };

    /// Appends the value's bytes.
    ///
    /// # Errors
    ///
    /// `AllocError` if memory runs out; then a part of the bytes may have been appended.
    fn encode(&self, out: &mut Encoder) -> Result<(), AllocError>
        ensures { OnOk result (Appends (form self.now) (written out.old) (written out.new)) };

    /// Reads a value. If the bytes begin with those that `encode` appends for a value, it reads one with
    /// the same form, and leaves the bytes after it.
    ///
    /// # Errors
    ///
    /// - `Damaged` if the bytes don't begin with those of a value, with the index of the byte where this
    ///   was found.
    /// - `OutOfMemory`.
    ///
    /// Some bytes may have been consumed.
    fn decode(input: &mut Decoder) -> Result<Self, DecodeError>
        ensures again { ReadsAgain form (unread input.old) result (unread input.new) }
        ensures only { ReadsOnly form (unread input.old) result (unread input.new) };
}
