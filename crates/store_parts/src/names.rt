//! The names of cells.

ghost use Rattle.std.specs.Prelude.{◌≡◌};
ghost use Rattle.generational_core.specs.Boxes.{id_of};
ghost use Rattle.store_parts.specs.CellNames.{name_of_cell};

use generational_core::GenerationalBoxId;
use generational_core::parts::id_at;

/// The name of a cell, without its store's number.
#[derive(Clone, Copy, PartialEq)]
pub struct CellName {
    pub slot: usize,
    pub generation: u64,
}

impl CellName {
    /// Its id in the store with this number.
    #[inline(always)]
    pub fn id(self, number: u64) -> GenerationalBoxId
        ensures { result ≡ id_of number (name_of_cell self) }
    {
        id_at(number, self.slot, self.generation)
    }
}
