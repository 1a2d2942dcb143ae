//! The borrow that began last, if it is noted outside the lists.

ghost use Rattle.std.specs.Prelude.{◌≡◌, ◌&&◌, if◌then◌else◌, nat_eq};
ghost use Rattle.store_cells.specs.Latest.{cleared, is_noted, is_noted_at, is_reader};
ghost use Rattle.store_cells.specs.Latest.{is_writer};
ghost use Rattle.store_cells.specs.declared.latest.Noted.TheVariants as noted;

use generational_core::Location;
use generational_core::parts::Borrow;
use store_parts::names::CellName;

/// Whose borrow is noted.
#[derive(Clone, Copy)]
pub enum Noted {
    Nobody,
    Reader,
    Writer,
}

/// The borrow that began last, while it is noted: its cell and itself.
#[derive(Clone, Copy)]
pub struct LastBorrow {
    pub noted: Noted,
    pub slot: usize,
    pub generation: u64,
    pub borrow: Borrow,
}

impl LastBorrow {
    /// No borrow is noted.
    pub fn nobody() -> LastBorrow
        ensures { result.noted ≡ noted.Nobody }
    {
        LastBorrow {
            noted: Noted::Nobody,
            slot: 0,
            generation: 0,
            borrow: Borrow {
                ticket: 0,
                location: Location::new("", 0, 0),
            },
        }
    }

    /// Notes a borrow of a cell, which replaces the noted one.
    #[inline(always)]
    pub fn note(&mut self, noted: Noted, name: CellName, borrow: Borrow)
        ensures { self.new ≡ record {
          noted = noted;
          slot = name.slot;
          generation = name.generation;
          borrow = borrow;
        } }
    {
        self.slot = name.slot;
        self.generation = name.generation;
        self.borrow.ticket = borrow.ticket;
        self.borrow.location = borrow.location;
        self.noted = noted;
    }

    /// Clears the note if it is of the slot's borrow.
    #[inline(always)]
    pub fn forget(&mut self, slot: usize)
        ensures { self.new ≡ if is_noted_at self.old slot then cleared self.old else self.old }
    {
        if self.is_at(slot) {
            self.noted = Noted::Nobody;
        }
    }

    /// Whether a borrow is noted.
    #[inline(always)]
    pub fn is_noted(&self) -> bool
        ensures { result ≡ is_noted self.now.noted }
    {
        !matches!(self.noted, Noted::Nobody)
    }

    /// Whether one of the slot's cell is.
    #[inline(always)]
    pub fn is_at(&self, slot: usize) -> bool
        ensures { result ≡ is_noted_at self.now slot }
    {
        self.is_noted() && self.slot == slot
    }

    /// Whether the slot's reader with this ticket is.
    #[inline(always)]
    pub fn is_reader_at(&self, slot: usize, ticket: u64) -> bool
        ensures { result ≡ (is_reader self.now.noted && nat_eq self.now.slot slot
            && nat_eq self.now.borrow.ticket ticket) }
    {
        matches!(self.noted, Noted::Reader) && self.slot == slot && self.borrow.ticket == ticket
    }

    /// Whether the slot's writer with this ticket is.
    #[inline(always)]
    pub fn is_writer_at(&self, slot: usize, ticket: u64) -> bool
        ensures { result ≡ (is_writer self.now.noted && nat_eq self.now.slot slot
            && nat_eq self.now.borrow.ticket ticket) }
    {
        matches!(self.noted, Noted::Writer) && self.slot == slot && self.borrow.ticket == ticket
    }
}
