//! The names of cells in ids, and the ids and boxes of cells.

ghost use Rattle.std.specs.Prelude.{◌≡◌};
ghost use Rattle.generational_core.specs.Boxes.{box_of, id_of, name_in};
ghost use Rattle.store_parts.specs.CellNames.{name_of_cell};

use generational_core::parts::pointer_at;
use generational_core::{GenerationalBoxId, GenerationalPointer, Location};
use store_parts::names::CellName;

// The name in an id.
#[inline(always)]
pub(crate) fn cell_name(id: GenerationalBoxId) -> CellName
    ensures { name_of_cell result ≡ name_in id }
{
    CellName {
        slot: id.slot,
        generation: id.generation,
    }
}

// The id of a cell of the store with this number.
#[inline(always)]
pub(crate) fn id_in(number: u64, name: CellName) -> GenerationalBoxId
    ensures { result ≡ id_of number (name_of_cell name) }
{
    name.id(number)
}

// The box of a cell of the store with this number.
#[inline(always)]
pub(crate) fn pointer_in(number: u64, name: CellName, created_at: Location) -> GenerationalPointer
    ensures { result ≡ box_of number (name_of_cell name) created_at }
{
    pointer_at(number, name.slot, name.generation, created_at)
}
