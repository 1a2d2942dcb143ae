//! A slot with its cell, in fewer bytes than their rows.

ghost use Rattle.std.specs.Prelude.{◌≡◌, ◌++◌, OnOk, drop};
ghost use Rattle.store_rows.specs.Packed.{unpack, whole_in};

use generational_core::parts::id_at;
use generational_core::{BaseRow, Location};
use std::alloc::AllocError;
use std::mem::size_of;
use store_room::push_more;

/// A slot with its cell and the cell's borrows. Its index in a list is the slot's number; where its cell
/// was made is stored next to it.
#[derive(Clone, Copy, Debug)]
pub enum PackedSlot {
    /// No live cell, but the generation of the last one.
    Free(u32),
    /// A live value that isn't shared and that nobody borrows: its generation.
    Value(u32),
    /// A live shared value that nobody borrows: the same.
    Shared(u32),
    /// Anything else: how many of the next whole rows are its own.
    Whole(u32),
}

// The memory of a slot in addition to its location; two rows take 160 bytes.
const _: () = prove!(size_of::<PackedSlot>() == 8);

/// Appends the rows that the slot with this number represents; its cell was made at this location.
/// `whole` is the list of the next whole rows.
pub fn unpack(
    rows: &mut Vec<BaseRow>,
    number: u64,
    whole: &[BaseRow],
    slot: usize,
    packed: PackedSlot,
    created_at: Location,
) -> Result<(), AllocError>
    ensures { OnOk result (rows.new.items
        ≡ rows.old.items ++ unpack number whole.now slot (packed, created_at)) }
{
    match packed {
        PackedSlot::Free(generation) => push_more(rows, BaseRow::Slot(slot, generation as u64)),
        PackedSlot::Value(generation) => {
            let id = id_at(number, slot, generation as u64);
            push_more(rows, BaseRow::Slot(slot, generation as u64))?;
            push_more(rows, BaseRow::Value(id, created_at))
        }
        PackedSlot::Shared(generation) => {
            let id = id_at(number, slot, generation as u64);
            push_more(rows, BaseRow::Slot(slot, generation as u64))?;
            push_more(rows, BaseRow::Shared(id, created_at))
        }
        PackedSlot::Whole(many) => {
            if many as usize <= whole.len() {
                return rows.extend_from_slice(&whole[..many as usize]);
            }
            rows.extend_from_slice(whole)
        }
    }
}

/// The whole rows after those of a slot.
pub fn after(whole: &[BaseRow], packed: PackedSlot) -> &[BaseRow]
    ensures { result.now ≡ drop (whole_in packed) whole.now }
{
    let PackedSlot::Whole(many) = packed else {
        return whole;
    };
    if many as usize <= whole.len() {
        return &whole[many as usize..];
    }
    &[]
}
