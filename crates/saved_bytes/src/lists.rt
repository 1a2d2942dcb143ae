//! Texts and lists.

ghost use Rattle.std.specs.Prelude.{◌≡◌, OnOk};
ghost use Rattle.std.specs.String.{string_bytes};
ghost use Rattle.saved_bytes.specs.Forms.Form.{Text};
ghost use Rattle.saved_bytes.specs.Forms.{Appends, list_form, items_form, unread, written};
ghost use Rattle.saved_bytes.specs.Reading.{ItemsReadAgain, ItemsReadOnly};

use crate::decode::{DecodeError, Decoder};
use crate::encode::Encoder;
use crate::saved::Saved;
use std::alloc::AllocError;

/// The length in bytes, as eight bytes, and the text.
impl Saved for String {
    ghost form = { λ text. Text (string_bytes text) };

    fn encode(&self, out: &mut Encoder) -> Result<(), AllocError> {
        out.put_text(self.as_str())
    }

    fn decode(input: &mut Decoder) -> Result<String, DecodeError> {
        let text = input.take_text()?;
        Ok(String::from_str(input.alloc(), text)?)
    }
}

/// The number of items, as eight bytes, and each item.
impl<T: Saved> Saved for Vec<T> {
    ghost form = { λ list. list_form T.form list.items };

    fn encode(&self, out: &mut Encoder) -> Result<(), AllocError> {
        out.put_u64(self.len() as u64)?;
        encode_items(self.as_slice(), out)
    }

    fn decode(input: &mut Decoder) -> Result<Vec<T>, DecodeError> {
        let count = input.take_u64()?;
        decode_items(input, count)
    }
}

/// Appends each item, without their number.
pub fn encode_items<T: Saved>(items: &[T], out: &mut Encoder) -> Result<(), AllocError>
    ensures { OnOk result (Appends (items_form T.form items.now) (written out.old) (written out.new)) }
{
    for item in items {
        item.encode(out)?;
    }
    Ok(())
}

/// Reads this number of items. A number that is too large for the bytes allocates no more than the items
/// that are there.
pub fn decode_items<T: Saved>(input: &mut Decoder, count: u64) -> Result<Vec<T>, DecodeError>
    ensures again { ItemsReadAgain T.form (λ v. v.items) count (unread input.old) result (unread input.new) }
    ensures only { ItemsReadOnly T.form (λ v. v.items) count (unread input.old) result (unread input.new) }
{
    let mut items = Vec::new(input.alloc());
    for _ in 0..count {
        let item = T::decode(input)?;
        items.push(item)?;
    }
    Ok(items)
}
