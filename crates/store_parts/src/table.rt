//! The table of all standing borrows of a store.

ghost use Rattle.std.specs.Prelude.{◌≡◌, ◌<◌, ◌≤◌, ◌∷◌, ◌++◌, [], false, length, not, nat_eq};
ghost use Rattle.std.specs.Prelude.{slice_get, slice_set, Some, IfErr, OnOk, OnErr};
ghost use Rattle.std.specs.List.{list_any, filter};
ghost use Rattle.std.specs.FinSet as set;
ghost use Rattle.generational_errors.specs.declared.error.StoreError.TheVariants.{OutOfMemory};
ghost use Rattle.store_parts.specs.Borrows.{AreTicketsBelow};
ghost use Rattle.store_parts.specs.Table.{list_at, put_list, IsClosed, IsUsed, IsVacant};
ghost use Rattle.store_parts.specs.Table.{Releases};

use crate::borrows::{Borrows, Removal};
use crate::indexes::FreeIndexes;
use crate::room::reserve_room;
use generational_core::StoreError;
use generational_core::parts::Borrow;
use std::alloc::{AllocError, Global};
use std::marker::Model;

/// The index of a cell without borrows.
pub const NO_INDEX: u32 = u32::MAX;

/// The active borrows of a store: at each index those of one cell. A freed index is reused.
#[derive(Drop)]
pub struct BorrowTable {
    alloc: Global,
    lists: Vec<Borrows>,
    // the indexes that were freed
    free: FreeIndexes,
}

impl Model for BorrowTable {
    ghost use Rattle.std.specs.Coded.{codes};
    ghost use Rattle.std.specs.FinMap as map;
    ghost use Rattle.std.specs.Prelude.{vec_capacity};
    ghost use Rattle.store_parts.specs.Pools.{members_of};
    ghost use Rattle.store_parts.specs.Table.{Table, IsTable};

    ghost Value = { Table };

    ghost coded = { Prim.hlevel (codes, map.code) };

    ghost view = { λ t. record {
      lists = t.lists.items;
      free = members_of t.free;
      rooms = t.free.rooms;
    } };

    ghost invariant = { λ t.
        IsTable t.lists.items (members_of t.free) t.free.rooms (vec_capacity t.lists) };
}

impl BorrowTable {
    /// No list. Doesn't allocate.
    #[inline(always)]
    pub fn new(alloc: Global) -> BorrowTable
        ensures lists { result.lists ≡ [] }
        ensures free { result.free ≡ set.empty }
        ensures rooms { result.rooms ≡ 0 }
    {
        BorrowTable {
            alloc,
            lists: Vec::new(alloc),
            free: FreeIndexes::new(alloc),
        }
    }

    /// Makes the buffer of the lists large enough for this many, without counting them as room. Fails
    /// only if an allocation fails.
    pub fn reserve(&mut self, room: usize) -> Result<(), StoreError>
        ensures same { self.new ≡ self.old }
        ensures cause { IfErr result (λ error. error ≡ OutOfMemory) }
    {
        reserve_room(&mut self.lists, self.alloc, room)
    }

    /// Shrinks the buffer of the lists to the room.
    pub fn give_back_room(&mut self)
        ensures { self.new ≡ self.old }
    {
        self.lists.shrink_to(self.free.room());
    }

    /// Reserves room for this many lists. Fails only if an allocation fails, with all lists unchanged.
    pub fn grow(&mut self, room: usize) -> Result<(), StoreError>
        ensures lists { self.new.lists ≡ self.old.lists }
        ensures free { self.new.free ≡ self.old.free }
        ensures rooms { self.old.rooms ≤ self.new.rooms }
        ensures ok { OnOk result (room ≤ self.new.rooms) }
        ensures cause { IfErr result (λ error. error ≡ OutOfMemory) }
    {
        reserve_room(&mut self.lists, self.alloc, room)?;
        self.free.reserve(self.alloc, room)
    }

    /// Starts a list with one borrow, at an index that wasn't in use. Doesn't allocate.
    #[inline(always)]
    pub fn open(&mut self, borrow: Borrow) -> u32
        requires room { self.old.free ≡ set.empty → length self.old.lists < self.old.rooms }
        requires small { length self.old.lists < 4294967295 }
        ensures vacant { IsVacant self.old result }
        ensures lists { self.new.lists ≡ put_list self.old.lists result (borrow ∷ []) }
        ensures free { self.new.free ≡ set.remove self.old.free result }
        ensures rooms { self.new.rooms ≡ self.old.rooms }
    {
        let list = Borrows::new(borrow);
        match self.free.take() {
            Some(index) => {
                self.lists[index as usize] = list;
                index
            }
            None => {
                let index = self.lists.len() as u32;
                self.lists.push_reserved(list);
                index
            }
        }
    }

    /// Frees an index. Its list has no meaning from then on.
    #[cold]
    #[inline(never)]
    pub fn close(&mut self, index: u32)
        requires within { index < length self.old.lists }
        requires used { set.contains self.old.free index ≡ false }
        ensures { IsClosed self.old self.new index }
    {
        self.free.put(index);
    }

    /// The borrows at an index.
    #[inline(always)]
    pub fn borrows_at(&self, index: u32) -> &Borrows
        requires { index < length self.now.lists }
        ensures { result.now ≡ list_at self.now.lists index }
    {
        &self.lists[index as usize]
    }

    /// The borrow that began first at an index.
    #[inline(always)]
    pub fn first(&self, index: u32) -> Borrow
        requires { index < length self.now.lists }
        ensures { slice_get (list_at self.now.lists index) 0 ≡ Some result }
    {
        self.lists[index as usize].first()
    }

    /// Whether a borrow at an index has the ticket.
    #[inline(always)]
    pub fn contains(&self, index: u32, ticket: u64) -> bool
        requires { index < length self.now.lists }
        ensures { result ≡ list_any (λ b. nat_eq b.ticket ticket) (list_at self.now.lists index) }
    {
        self.lists[index as usize].contains(ticket)
    }

    /// Adds a borrow at the end of a list. If an allocation fails, the lists are unchanged.
    #[inline(always)]
    pub fn push(&mut self, index: u32, borrow: Borrow) -> Result<(), AllocError>
        requires within { index < length self.old.lists }
        requires ascends { AreTicketsBelow borrow.ticket (list_at self.old.lists index) }
        ensures ok { OnOk result (self.new ≡ record self.old {
          lists = slice_set self.old.lists
              index (list_at self.old.lists index ++ borrow ∷ []);
        }) }
        ensures err { OnErr result (self.new ≡ self.old) }
    {
        self.lists[index as usize].push(self.alloc, borrow)
    }

    /// Removes the ticket's borrow from a list, and frees the index with the last one. Returns whether
    /// there was one, and the index of the others.
    #[inline(always)]
    pub fn release(&mut self, index: &mut u32, ticket: u64) -> bool
        requires { IsUsed self.old index.old }
        ensures known { result ≡ list_any (λ b. nat_eq b.ticket ticket)
            (list_at self.old.lists index.old) }
        ensures after { Releases self.old self.new index.old index.new
            (filter (λ b. not (nat_eq b.ticket ticket)) (list_at self.old.lists index.old)) }
    {
        let freed = *index;
        match self.lists[freed as usize].remove(ticket) {
            Removal::None => false,
            Removal::One => true,
            Removal::Last => {
                self.free.put(freed);
                *index = NO_INDEX;
                true
            }
        }
    }
}
