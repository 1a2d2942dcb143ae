//! Numbers, truth values and pairs.

ghost use Rattle.std.specs.Int.{w8, w16, w32, w64, cast_unsigned};
ghost use Rattle.saved_bytes.specs.Forms.Form.{Number, Both};
ghost use Rattle.saved_bytes.specs.Forms.{bool_tag, option_tag, option_fields, variant_form};

use crate::decode::{DecodeError, Decoder, Fault};
use crate::encode::Encoder;
use crate::saved::Saved;
use std::alloc::AllocError;

impl Saved for u8 {
    ghost form = { λ n. Number w8 n };

    fn encode(&self, out: &mut Encoder) -> Result<(), AllocError> {
        out.put_u8(*self)
    }

    fn decode(input: &mut Decoder) -> Result<u8, DecodeError> {
        input.take_u8()
    }
}

impl Saved for u16 {
    ghost form = { λ n. Number w16 n };

    fn encode(&self, out: &mut Encoder) -> Result<(), AllocError> {
        out.put_u16(*self)
    }

    fn decode(input: &mut Decoder) -> Result<u16, DecodeError> {
        input.take_u16()
    }
}

impl Saved for u32 {
    ghost form = { λ n. Number w32 n };

    fn encode(&self, out: &mut Encoder) -> Result<(), AllocError> {
        out.put_u32(*self)
    }

    fn decode(input: &mut Decoder) -> Result<u32, DecodeError> {
        input.take_u32()
    }
}

impl Saved for u64 {
    ghost form = { λ n. Number w64 n };

    fn encode(&self, out: &mut Encoder) -> Result<(), AllocError> {
        out.put_u64(*self)
    }

    fn decode(input: &mut Decoder) -> Result<u64, DecodeError> {
        input.take_u64()
    }
}

impl Saved for i8 {
    ghost form = { λ n. Number w8 (cast_unsigned w8 n) };

    fn encode(&self, out: &mut Encoder) -> Result<(), AllocError> {
        out.put_u8(self.cast_unsigned())
    }

    fn decode(input: &mut Decoder) -> Result<i8, DecodeError> {
        let number = input.take_u8()?;
        Ok(number.cast_signed())
    }
}

impl Saved for i16 {
    ghost form = { λ n. Number w16 (cast_unsigned w16 n) };

    fn encode(&self, out: &mut Encoder) -> Result<(), AllocError> {
        out.put_u16(self.cast_unsigned())
    }

    fn decode(input: &mut Decoder) -> Result<i16, DecodeError> {
        let number = input.take_u16()?;
        Ok(number.cast_signed())
    }
}

impl Saved for i32 {
    ghost form = { λ n. Number w32 (cast_unsigned w32 n) };

    fn encode(&self, out: &mut Encoder) -> Result<(), AllocError> {
        out.put_u32(self.cast_unsigned())
    }

    fn decode(input: &mut Decoder) -> Result<i32, DecodeError> {
        let number = input.take_u32()?;
        Ok(number.cast_signed())
    }
}

impl Saved for i64 {
    ghost form = { λ n. Number w64 (cast_unsigned w64 n) };

    fn encode(&self, out: &mut Encoder) -> Result<(), AllocError> {
        out.put_u64(self.cast_unsigned())
    }

    fn decode(input: &mut Decoder) -> Result<i64, DecodeError> {
        let number = input.take_u64()?;
        Ok(number.cast_signed())
    }
}

/// Eight bytes, like those of a `u64`.
impl Saved for usize {
    ghost form = { λ n. Number w64 n };

    fn encode(&self, out: &mut Encoder) -> Result<(), AllocError> {
        out.put_u64(*self as u64)
    }

    fn decode(input: &mut Decoder) -> Result<usize, DecodeError> {
        let number = input.take_u64()?;
        Ok(number as usize)
    }
}

/// A byte: 0 or 1.
impl Saved for bool {
    ghost form = { λ b. Number w8 (bool_tag b) };

    fn encode(&self, out: &mut Encoder) -> Result<(), AllocError> {
        out.put_u8(if *self { 1 } else { 0 })
    }

    fn decode(input: &mut Decoder) -> Result<bool, DecodeError> {
        let fault = input.fault(Fault::Variant);
        match input.take_u8()? {
            0 => Ok(false),
            1 => Ok(true),
            _ => Err(fault),
        }
    }
}

/// A byte: 0 for `None`, or 1 and the value.
impl<A: Saved> Saved for Option<A> {
    ghost form = { λ it. variant_form (option_tag A.form it) (option_fields A.form it) };

    fn encode(&self, out: &mut Encoder) -> Result<(), AllocError> {
        match self {
            None => out.put_u8(0),
            Some(value) => {
                out.put_u8(1)?;
                value.encode(out)
            }
        }
    }

    fn decode(input: &mut Decoder) -> Result<Option<A>, DecodeError> {
        let fault = input.fault(Fault::Variant);
        match input.take_u8()? {
            0 => Ok(None),
            1 => {
                let value = A::decode(input)?;
                Ok(Some(value))
            }
            _ => Err(fault),
        }
    }
}

impl<A: Saved, B: Saved> Saved for (A, B) {
    ghost form = { λ both. Both (A.form both.0) (B.form both.1) };

    fn encode(&self, out: &mut Encoder) -> Result<(), AllocError> {
        self.0.encode(out)?;
        self.1.encode(out)
    }

    fn decode(input: &mut Decoder) -> Result<(A, B), DecodeError> {
        let first = A::decode(input)?;
        let second = B::decode(input)?;
        Ok((first, second))
    }
}
