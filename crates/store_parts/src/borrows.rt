//! The borrows of one cell.

ghost use Rattle.std.specs.Prelude.{◌≡◌, ◌∷◌, ◌++◌, [], IfOk, OnOk, OnErr, map, nat_eq};
ghost use Rattle.std.specs.Prelude.{slice_get, Some};
ghost use Rattle.std.specs.List.{list_any};
ghost use Rattle.generational_core.specs.Rows.{reader_row};
ghost use Rattle.store_parts.specs.Borrows.{AreTicketsBelow, IsRemoval};

use crate::queue::{Queue, reader_row};
use generational_core::parts::Borrow;
use generational_core::{BaseRow, GenerationalBoxId, Location};
use std::alloc::{AllocError, Global};
use std::marker::Model;
use store_room::push_more;

/// The borrows of one cell, at least one, in the order in which they began: so their tickets ascend.
/// Contracts model them as that list.
///
/// One borrow is stored in place, so that a cell's first borrow doesn't allocate. If there are more, all
/// are in a separate queue. Once one borrow remains, the queue's memory is freed.
#[derive(Drop)]
pub struct Borrows {
    standing: OneOrSeveral,
}

/// One borrow, or a queue of two at least.
#[derive(Drop)]
enum OneOrSeveral {
    One(Borrow),
    Several(Box<Queue>),
}

/// What became of a borrow that was to be removed: there was none, there are others, or it was the last.
#[derive(Drop)]
pub enum Removal {
    None,
    One,
    Last,
}

impl Model for Borrows {
    ghost use Rattle.std.specs.Prelude.{List};
    ghost use Rattle.generational_core.specs.declared.borrow.Borrow.{Borrow};
    ghost use Rattle.store_parts.specs.Borrows.{borrows_in, IsFilled};

    ghost Value = { List Borrow };

    ghost view = { λ b. borrows_in b.standing };

    ghost invariant = { λ b. IsFilled b.standing };
}

impl Borrows {
    /// One borrow. Doesn't allocate.
    #[inline(always)]
    pub fn new(borrow: Borrow) -> Borrows
        ensures { result ≡ borrow ∷ [] }
    {
        Borrows {
            standing: OneOrSeveral::One(borrow),
        }
    }

    /// The borrow that began first.
    #[inline(always)]
    pub fn first(&self) -> Borrow
        ensures { slice_get self.now 0 ≡ Some result }
    {
        match &self.standing {
            OneOrSeveral::One(borrow) => *borrow,
            OneOrSeveral::Several(queue) => queue.first(),
        }
    }

    /// Adds a borrow at the end. If memory runs out nothing changes.
    #[cold]
    #[inline(never)]
    pub fn push(&mut self, alloc: Global, borrow: Borrow) -> Result<(), AllocError>
        requires { AreTicketsBelow borrow.ticket self.old }
        ensures ok { OnOk result (self.new ≡ self.old ++ borrow ∷ []) }
        ensures err { OnErr result (self.new ≡ self.old) }
    {
        match &mut self.standing {
            OneOrSeveral::One(first) => {
                let queue = Queue::of_two(alloc, *first, borrow)?;
                self.standing = OneOrSeveral::Several(queue);
            }
            OneOrSeveral::Several(queue) => queue.push(borrow)?,
        }
        Ok(())
    }

    /// Whether a borrow has the ticket.
    #[cold]
    #[inline(never)]
    pub fn contains(&self, ticket: u64) -> bool
        ensures { result ≡ list_any (λ b. nat_eq b.ticket ticket) self.now }
    {
        match &self.standing {
            OneOrSeveral::One(borrow) => borrow.ticket == ticket,
            OneOrSeveral::Several(queue) => queue.contains(ticket),
        }
    }

    /// Removes the ticket's borrow, unless it is the last one: then the result says so, and it stays.
    #[inline(always)]
    pub fn remove(&mut self, ticket: u64) -> Removal
        ensures { IsRemoval ticket self.old self.new result }
    {
        match &mut self.standing {
            OneOrSeveral::One(borrow) => {
                if borrow.ticket == ticket {
                    return Removal::Last;
                }
                Removal::None
            }
            OneOrSeveral::Several(queue) => {
                if !queue.remove(ticket) {
                    return Removal::None;
                }
                if queue.len() == 1 {
                    self.standing = OneOrSeveral::One(queue.first());
                }
                Removal::One
            }
        }
    }

    /// Where the borrows began, in order.
    #[cold]
    #[inline(never)]
    pub fn locations(&self, alloc: Global) -> Result<Vec<Location>, AllocError>
        ensures { IfOk result (λ locations. locations.items ≡ map (λ b. b.location) self.now) }
    {
        match &self.standing {
            OneOrSeveral::One(borrow) => {
                let mut locations = Vec::with_capacity(alloc, 1)?;
                locations.push_reserved(borrow.location);
                Ok(locations)
            }
            OneOrSeveral::Several(queue) => queue.locations(alloc),
        }
    }

    /// Appends a row for each borrow in order, as a reader of the value with this id.
    pub fn push_readers(
        &self,
        id: GenerationalBoxId,
        rows: &mut Vec<BaseRow>,
    ) -> Result<(), AllocError>
        ensures { OnOk result (rows.new.items ≡ rows.old.items ++ map (reader_row id) self.now) }
    {
        match &self.standing {
            OneOrSeveral::One(borrow) => push_more(rows, reader_row(id, borrow)),
            OneOrSeveral::Several(queue) => queue.push_readers(id, rows),
        }
    }
}
