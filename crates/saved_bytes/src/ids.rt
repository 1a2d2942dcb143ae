//! Ids of a store's cells.

ghost use Rattle.saved_bytes.specs.Forms.Form.{Both};

use crate::decode::{DecodeError, Decoder};
use crate::encode::Encoder;
use crate::saved::Saved;
use generational_core::GenerationalBoxId;
use generational_core::parts::id_at;
use std::alloc::AllocError;

/// The store's number, the slot and the generation, of eight bytes each. Any three numbers are read: they
/// needn't be those of an id that was issued.
impl Saved for GenerationalBoxId {
    ghost form = { λ id. Both (⟦<u64 as Saved>⟧.form id.store)
        (Both (⟦<usize as Saved>⟧.form id.slot) (⟦<u64 as Saved>⟧.form id.generation)) };

    fn encode(&self, out: &mut Encoder) -> Result<(), AllocError> {
        self.store.encode(out)?;
        self.slot.encode(out)?;
        self.generation.encode(out)
    }

    fn decode(input: &mut Decoder) -> Result<GenerationalBoxId, DecodeError> {
        let (store, (slot, generation)) = <(u64, (usize, u64))>::decode(input)?;
        Ok(id_at(store, slot, generation))
    }
}
