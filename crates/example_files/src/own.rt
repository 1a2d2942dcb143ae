//! A struct and an enum of one's own that can be saved.

ghost use Rattle.saved_bytes.specs.Forms.Form.{Both};
ghost use Rattle.saved_bytes.specs.Forms.{variant_form};
ghost use Rattle.example_files.specs.Own.{item_fields, item_tag};

use saved_bytes::{DecodeError, Decoder, Encoder, Fault, Saved};
use std::alloc::AllocError;

/// A struct is saved field by field.
#[derive(Debug, Drop)]
pub struct Hero {
    /// What the hero is called.
    pub name: String,
    /// How strong the hero is.
    pub strength: u64,
}

impl Saved for Hero {
    ghost form = { λ it. Both (⟦<String as Saved>⟧.form it.name) (⟦<u64 as Saved>⟧.form it.strength) };

    fn encode(&self, out: &mut Encoder) -> Result<(), AllocError> {
        self.name.encode(out)?;
        self.strength.encode(out)
    }

    fn decode(input: &mut Decoder) -> Result<Hero, DecodeError> {
        let name = String::decode(input)?;
        let strength = u64::decode(input)?;
        Ok(Hero { name, strength })
    }
}

/// An enum is saved as a byte for the variant, and the variant's fields.
#[derive(Debug, Drop)]
pub enum Item {
    /// A key that opens everything.
    Key,
    /// This many coins.
    Coins(u32),
    /// A potion, and what it heals.
    Potion((String, u32)),
}

impl Saved for Item {
    ghost form = { λ it. variant_form (item_tag it) (item_fields it) };

    fn encode(&self, out: &mut Encoder) -> Result<(), AllocError> {
        match self {
            Item::Key => out.put_u8(0),
            Item::Coins(coins) => {
                out.put_u8(1)?;
                coins.encode(out)
            }
            Item::Potion(potion) => {
                out.put_u8(2)?;
                potion.encode(out)
            }
        }
    }

    fn decode(input: &mut Decoder) -> Result<Item, DecodeError> {
        let fault = input.fault(Fault::Variant);
        match input.take_u8()? {
            0 => Ok(Item::Key),
            1 => {
                let coins = u32::decode(input)?;
                Ok(Item::Coins(coins))
            }
            2 => {
                let potion = <(String, u32)>::decode(input)?;
                Ok(Item::Potion(potion))
            }
            _ => Err(fault),
        }
    }
}
