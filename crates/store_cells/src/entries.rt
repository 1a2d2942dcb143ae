//! The slots of a store, with the borrows of their cells.
#![tactic(auto, using(crate::proofs::states::Entries::entries_len))]

ghost use Rattle.std.specs.Prelude.{◌≡◌, ◌≢◌, ◌+◌, ◌-◌, ◌<◌, ◌≤◌, ◌∷◌, ◌++◌, ◌↔◌, [], true, false};
ghost use Rattle.std.specs.Prelude.{length, slice_get, slice_set, None, Some, Err, IsTrue, IfSome};
ghost use Rattle.std.specs.Prelude.{IfOk};
ghost use Rattle.std.specs.Prelude.{IfErr, OnOk, OnErr, is_some, is_none, is_ok, option_copied};
ghost use Rattle.std.specs.Prelude.{max, option_map, vec_capacity};
ghost use Rattle.std.specs.Borrow.{MutBor};
ghost use Rattle.std.specs.Fn.{FnOnceReturnsAtMut};
ghost use Rattle.generational_core.specs.Answers.{value_of};
ghost use Rattle.generational_core.specs.Borrowing.{leads_to, read_refusal, write_refusal};
ghost use Rattle.generational_core.specs.Borrowing.BorrowRefusal.{BeingWritten};
ghost use Rattle.generational_core.specs.Cells.{content_of, location_of};
ghost use Rattle.generational_core.specs.Cells.Content.{Here};
ghost use Rattle.generational_core.specs.Machine.{has_reader, has_writer};
ghost use Rattle.generational_core.specs.Rows.{content_rows};
ghost use Rattle.generational_core.specs.Slots.{last_generation};
ghost use Rattle.generational_core.specs.declared.rows.BaseRow.TheVariants as row;
ghost use Rattle.generational_errors.specs.declared.error.BorrowMutError.TheVariants as writes;
ghost use Rattle.generational_errors.specs.declared.error.Refused.TheVariants as refused;
ghost use Rattle.generational_errors.specs.declared.error.StoreError.TheVariants.{OutOfMemory};
ghost use Rattle.store_parts.specs.Borrows.{AreTicketsBelow};
ghost use Rattle.store_parts.specs.CellNames.{name_of_cell};
ghost use Rattle.store_parts.specs.Table.{no_index, list_at, IsClosed, IsUsed};
ghost use Rattle.store_cells.specs.Data.{data_in};
ghost use Rattle.store_cells.specs.Entries.{index_of, kept_data, listed_beside};
ghost use Rattle.store_cells.specs.Entries.{IsListable, IsListed, IsUnborrowed};
ghost use Rattle.store_cells.specs.Entry.{cell_under, cell_of, change_entry, content_in};
ghost use Rattle.store_cells.specs.Entry.{has_no_borrow, is_unborrowed_value, cell_kind_in};
ghost use Rattle.store_cells.specs.Entry.{lend_to, readers_of, referring, target_name_in};
ghost use Rattle.store_cells.specs.Entry.{value_for, with_reader, with_value};
ghost use Rattle.store_cells.specs.Entry.{without_reader_in, FoundBorrowed, FoundReaders};
ghost use Rattle.store_cells.specs.Entry.{IsAlone, IsReadable};
ghost use Rattle.store_cells.specs.Entry.Kept.{Empty};
ghost use Rattle.store_cells.specs.Latest.{cleared, is_noted};
ghost use Rattle.store_cells.specs.declared.entry.StorageEntryData.TheVariants as content;

use crate::entry::{CellKind, EntryDetails, StorageEntry, StorageEntryData};
use crate::latest::{LastBorrow, Noted};
use generational_core::parts::Borrow;
use generational_core::{
    AlreadyBorrowedError, AlreadyBorrowedMutError, BaseRow, BorrowMutError, BorrowMutResult,
    GenerationalBoxId, Location, Refused, StoreError,
};
use std::alloc::{AllocError, Global};
use std::marker::Model;
use std::mem;
use store_parts::names::CellName;
use store_parts::queue::reader_row;
use store_parts::room::reserve_room;
use store_parts::table::{BorrowTable, NO_INDEX};
use store_room::{halfway, push_more};

/// The slots of a store. Contracts model each as its generation and its cell with its borrows, and for
/// how many slots there is room.
///
/// What every call reads is together in `entries`. What is seldom read of a cell is stored separately,
/// and so are borrows, in a table of the size of the most that were active at once. The borrow that began
/// last is noted, until another begins. So a writer touches no list, and the only reader of a value
/// touches neither a list nor its slot; several readers of a value are all listed.
pub struct Entries<T> {
    alloc: Global,
    entries: Vec<StorageEntry<T>>,
    details: Vec<EntryDetails>,
    borrows: BorrowTable,
    last: LastBorrow,
    // for how many slots there is room in each of these
    room: usize,
}

impl<T> Model for Entries<T> {
    ghost use Rattle.std.specs.Prelude.{◌≡◌, ◌≤◌, length, vec_capacity};
    ghost use Rattle.store_cells.specs.Entries.{EntryList, entries_of, AreIndexed};
    ghost use Rattle.store_cells.specs.Entries.{AreRoomy};
    ghost use Rattle.store_cells.specs.Latest.{AreBorrowsNoted};

    ghost Value = { EntryList T };

    ghost view = { λ e. record {
      slots = entries_of e.last e.borrows.lists e.entries.items e.details.items;
      rooms = e.room;
    } };

    ghost invariant = { λ e. AreIndexed e.borrows e.entries.items
        × AreBorrowsNoted e.last e.borrows.lists e.entries.items
        × (length e.details.items ≡ length e.entries.items)
        × AreRoomy e.room (length e.entries.items) (vec_capacity e.entries)
        (vec_capacity e.details) e.borrows.rooms };
}

// The order in which the buffers are dropped decides how much of their memory glibc's malloc keeps for
// the next store, and how much it returns to the system: see `docs/PERFORMANCE.md`.
impl<T: Drop> Drop for Entries<T> {
    fn drop(self) {
        let Entries {
            alloc: _,
            entries,
            details,
            borrows,
            last: _,
            room: _,
        } = self;
        drop(entries);
        drop(borrows);
        drop(details);
    }
}

impl<T> Entries<T> {
    /// No slot. Doesn't allocate.
    pub fn new(alloc: Global) -> Entries<T>
        ensures { result ≡ record { slots = []; rooms = 0 } }
    {
        Entries {
            alloc,
            entries: Vec::new(alloc),
            details: Vec::new(alloc),
            borrows: BorrowTable::new(alloc),
            last: LastBorrow::nobody(),
            room: 0,
        }
    }

    /// How many slots were made.
    #[inline(always)]
    pub fn len(&self) -> usize
        ensures { result ≡ length self.now.slots }
    {
        self.entries.len()
    }

    /// For how many there is room.
    #[inline(always)]
    pub fn room(&self) -> usize
        ensures { result ≡ self.now.rooms }
    {
        self.room
    }

    /// What a box of this name refers to.
    #[inline(always)]
    pub fn reach(&self, name: CellName) -> Option<CellName>
        ensures { option_map name_of_cell result ≡ leads_to
            (cell_under self.now.slots (name_of_cell name)) (name_of_cell name) }
    {
        match self.entries.get(name.slot) {
            Some(entry) => entry.reach(name),
            None => None,
        }
    }

    /// Whose the value of this name is, even if it is being written.
    #[inline(always)]
    pub fn kind(&self, name: CellName) -> Option<CellKind>
        ensures { result ≡ cell_kind_in (cell_under self.now.slots (name_of_cell name)) }
    {
        match self.entries.get(name.slot) {
            Some(entry) => entry.kind(name.generation),
            None => None,
        }
    }

    /// The target of the reference of this name.
    #[inline(always)]
    pub fn target(&self, name: CellName) -> Option<CellName>
        ensures { option_map name_of_cell result
            ≡ target_name_in (cell_under self.now.slots (name_of_cell name)) }
    {
        match self.entries.get(name.slot) {
            Some(entry) => entry.target(name.generation),
            None => None,
        }
    }

    /// Where the slot's cell was made, and how many references it has.
    #[inline(always)]
    pub fn details(&self, slot: usize) -> EntryDetails
        requires { slot < length self.now.slots }
        ensures references { IfSome (slice_get self.now.slots slot)
            (λ e. result.references ≡ e.references) }
        ensures created { IfSome (slice_get self.now.slots slot)
            (λ e. IfSome (location_of (cell_of e.kept)) (λ l. result.created_at ≡ l)) }
    {
        self.details[slot]
    }

    /// A reference to a slot's cell.
    pub fn reference_to(&self, slot: usize) -> StorageEntryData<T>
        requires { slot < length self.now.slots }
        ensures { IfSome (slice_get self.now.slots slot)
            (λ e. result ≡ content.Reference slot e.generation) }
    {
        let generation = self.entries[slot].generation;
        StorageEntryData::Reference(slot as u32, generation)
    }

    /// The generation of the slot's last cell.
    #[inline(always)]
    pub fn generation(&self, slot: usize) -> u64
        requires { slot < length self.now.slots }
        ensures { IfSome (slice_get self.now.slots slot) (λ e. result ≡ e.generation) }
    {
        self.entries[slot].generation
    }

    /// Whether the cell of this name is a value, even one that is being written.
    #[inline(always)]
    pub fn holds(&self, name: CellName) -> bool
        ensures { result
            ≡ is_some (content_of (cell_under self.now.slots (name_of_cell name))) }
    {
        if self.last.is_at(name.slot) && self.last.generation == name.generation {
            return true;
        }
        self.kind(name).is_some()
    }

    /// Whether the cell of this name is a value that isn't shared and has no borrow.
    #[inline(always)]
    pub fn has_unborrowed_value(&self, name: CellName) -> bool
        ensures { result ≡ is_unborrowed_value (cell_under self.now.slots (name_of_cell name)) }
    {
        match self.entries.get(name.slot) {
            Some(entry) => {
                if !entry.has_unborrowed_value(name.generation) {
                    return false;
                }
                !self.last.is_at(name.slot)
            }
            None => false,
        }
    }

    /// The writer that is in the way of a read.
    #[inline(always)]
    pub fn borrow_error(&self, slot: usize) -> Option<AlreadyBorrowedMutError>
        requires { slot < length self.now.slots }
        ensures { IfSome (slice_get self.now.slots slot) (λ e. option_map
            (λ x. BeingWritten x.borrowed_mut_at) result ≡ read_refusal (content_in e.kept)) }
    {
        match &self.entries[slot].content {
            StorageEntryData::Lent(index, _) => {
                let writer = writer_at(&self.borrows, &self.last, *index);
                Some(AlreadyBorrowedMutError::new(writer.location))
            }
            _ => None,
        }
    }

    /// Whether the cell isn't borrowed.
    #[inline(always)]
    pub fn is_unborrowed(&self, slot: usize) -> bool
        requires { slot < length self.now.slots }
        ensures { IfSome (slice_get self.now.slots slot)
            (λ e. result ≡ is_none (write_refusal (content_in e.kept))) }
    {
        if self.last.is_at(slot) {
            return false;
        }
        match &self.entries[slot].content {
            StorageEntryData::Read(_, _) => false,
            StorageEntryData::SharedRead(_, _) => false,
            StorageEntryData::Lent(_, _) => false,
            _ => true,
        }
    }

    /// The borrows that are in the way of a write or a removal.
    #[inline(always)]
    pub fn borrow_mut_error(&self, slot: usize) -> BorrowMutResult<()>
        requires { slot < length self.now.slots }
        ensures { IfSome (slice_get self.now.slots slot)
            (λ e. FoundBorrowed (write_refusal (content_in e.kept)) result) }
    {
        match &self.entries[slot].content {
            StorageEntryData::Lent(index, _) => {
                Err(writer_error(writer_at(&self.borrows, &self.last, *index)))
            }
            StorageEntryData::Read(index, _) | StorageEntryData::SharedRead(index, _) => {
                Err(readers_error(&self.borrows, *index, self.alloc))
            }
            _ => {
                if self.last.is_at(slot) {
                    return Err(reader_error(self.last.borrow, self.alloc));
                }
                Ok(())
            }
        }
    }

    /// Appends a row for each borrow of the slot's value, in order, under the value's id.
    pub fn push_borrows(
        &self,
        slot: usize,
        id: GenerationalBoxId,
        rows: &mut Vec<BaseRow>,
    ) -> Result<(), AllocError>
        requires { slot < length self.now.slots }
        ensures { OnOk result (IfSome (slice_get self.now.slots slot)
            (λ e. rows.new.items ≡ rows.old.items ++ content_rows id (content_in e.kept))) }
    {
        match &self.entries[slot].content {
            StorageEntryData::Lent(index, _) => {
                push_writer(writer_at(&self.borrows, &self.last, *index), id, rows)
            }
            StorageEntryData::Read(index, _) | StorageEntryData::SharedRead(index, _) => {
                self.borrows.borrows_at(*index).push_readers(id, rows)
            }
            _ => {
                if self.last.is_at(slot) {
                    return push_more(rows, reader_row(id, &self.last.borrow));
                }
                Ok(())
            }
        }
    }

    /// Whether a borrow is noted apart from the lists.
    #[inline(always)]
    pub fn has_noted(&self) -> bool {
        self.last.is_noted()
    }

    /// The slot's value, unless a writer has it.
    #[inline(always)]
    pub fn peek(&self, slot: usize) -> Option<&T>
        requires { slot < length self.now.slots }
        ensures { IfSome (slice_get self.now.slots slot)
            (λ e. option_copied result ≡ value_of (content_in e.kept)) }
    {
        let content = &self.entries[slot].content;
        match content {
            StorageEntryData::Data(value) | StorageEntryData::Shared(value) => Some(value),
            StorageEntryData::Read(_, value) => Some(value),
            StorageEntryData::SharedRead(_, value) => Some(value),
            _ => None,
        }
    }

    /// The value, if it has this reader.
    #[inline(always)]
    pub fn open(&self, slot: usize, ticket: u64) -> Option<&T>
        requires { slot < length self.now.slots }
        ensures { IfSome (slice_get self.now.slots slot)
            (λ e. option_copied result ≡ value_for ticket (content_in e.kept)) }
    {
        let content = &self.entries[slot].content;
        if self.last.is_reader_at(slot, ticket) {
            return match content {
                StorageEntryData::Data(value) | StorageEntryData::Shared(value) => Some(value),
                _ => self.peek_slow(slot),
            };
        }
        match content {
            StorageEntryData::Read(index, value) | StorageEntryData::SharedRead(index, value) => {
                if self.borrows.contains(*index, ticket) {
                    return Some(value);
                }
                None
            }
            _ => None,
        }
    }

    // The value of a cell that has listed readers in addition to the noted one.
    #[cold]
    #[inline(never)]
    fn peek_slow(&self, slot: usize) -> Option<&T>
        requires { slot < length self.now.slots }
        ensures { IfSome (slice_get self.now.slots slot)
            (λ e. option_copied result ≡ value_of (content_in e.kept)) }
    {
        self.peek(slot)
    }
}

impl<T: Drop> Entries<T> {
    /// Reserves room for at least another slot, and for so many that few calls grow, as far as
    /// allocations succeed. Fails only if an allocation fails, or if the 32-bit indexes for slots'
    /// borrows are used up; the room is then unchanged.
    #[cold]
    #[inline(never)]
    pub fn grow(&mut self) -> Result<(), StoreError>
    where
        T: Drop,
        ensures slots { self.new.slots ≡ self.old.slots }
        ensures rooms { self.old.rooms ≤ self.new.rooms }
        ensures ok { OnOk result (self.old.rooms < self.new.rooms) }
        ensures few { OnOk result (self.new.rooms < no_index) }
        ensures cause { IfErr result (λ error. error ≡ OutOfMemory) }
    {
        let room = larger_room(self.room)?;
        self.grow_within(room)
    }

    /// Reserves room for this many slots in all, if there is less. Fails only if an allocation fails, or
    /// if the 32-bit indexes for slots' borrows are used up; the room is then unchanged.
    pub fn reserve(&mut self, room: usize) -> Result<(), StoreError>
    where
        T: Drop,
        ensures slots { self.new.slots ≡ self.old.slots }
        ensures rooms { self.old.rooms ≤ self.new.rooms }
        ensures ok { OnOk result (room ≤ self.new.rooms) }
        ensures most { self.new.rooms ≤ max self.old.rooms room }
        ensures err { OnErr result (self.new.rooms ≡ self.old.rooms) }
        ensures cause { IfErr result (λ error. error ≡ OutOfMemory) }
    {
        if room <= self.room {
            return Ok(());
        }
        if room >= NO_INDEX as usize {
            return Err(StoreError::OutOfMemory);
        }
        if let Err(cause) = self.reserve_all(room) {
            self.give_back_room();
            return Err(cause);
        }
        Ok(())
    }

    // Reserves room for this many slots in all. If an allocation fails, it reserves half of the
    // additional ones, then a quarter and so on, and at least one.
    fn grow_within(&mut self, room: usize) -> Result<(), StoreError>
    where
        T: Drop,
        requires more { self.old.rooms < room }
        requires few { room < no_index }
        ensures slots { self.new.slots ≡ self.old.slots }
        ensures rooms { self.old.rooms ≤ self.new.rooms }
        ensures ok { OnOk result (self.old.rooms < self.new.rooms) }
        ensures few { OnOk result (self.new.rooms < no_index) }
        ensures err { OnErr result (self.new.rooms ≡ self.old.rooms) }
        ensures cause { IfErr result (λ error. error ≡ OutOfMemory) }
    {
        match self.reserve(room) {
            Ok(()) => Ok(()),
            Err(cause) => match halfway(self.room, room) {
                Some(less) => self.grow_within(less),
                None => Err(cause),
            },
        }
    }

    // Shrinks the buffers to the room for slots.
    fn give_back_room(&mut self)
        ensures { self.new ≡ self.old }
    {
        self.entries.shrink_to(self.room);
        self.details.shrink_to(self.room);
        self.borrows.give_back_room();
    }

    // Reserves room for this many slots in all. The lists of borrows come first: their buffer, mostly the
    // largest, mostly has nothing to be moved. So few calls fail after slots were moved.
    fn reserve_all(&mut self, room: usize) -> Result<(), StoreError>
    where
        T: Drop,
        requires more { self.old.rooms ≤ room }
        requires few { room < no_index }
        ensures slots { self.new.slots ≡ self.old.slots }
        ensures ok { OnOk result (self.new.rooms ≡ room) }
        ensures err { OnErr result (self.new.rooms ≡ self.old.rooms) }
        ensures cause { IfErr result (λ error. error ≡ OutOfMemory) }
    {
        self.borrows.reserve(room)?;
        reserve_room(&mut self.entries, self.alloc, room)?;
        reserve_room(&mut self.details, self.alloc, room)?;
        self.borrows.grow(room)?;
        self.room = room;
        Ok(())
    }

    /// Lists the noted borrow, if there is one. Doesn't allocate.
    #[inline(always)]
    pub fn list_noted(&mut self)
        ensures { self.new ≡ self.old }
    {
        list_noted(&mut self.entries, &mut self.borrows, &mut self.last);
    }

    /// Adds a reader to a value that isn't being written. Fails only if the value has other readers and
    /// an allocation fails; nothing changes then. `is_unborrowed` says that the caller knows that there
    /// is no borrow.
    #[inline(always)]
    pub fn begin_read(
        &mut self,
        name: CellName,
        borrow: Borrow,
        is_unborrowed: bool,
    ) -> Result<(), AllocError>
        requires there { IsReadable name.generation (slice_get self.old.slots name.slot) }
        requires ascends { IfSome (slice_get self.old.slots name.slot)
            (λ e. AreTicketsBelow borrow.ticket (readers_of (content_in e.kept))) }
        requires alone { is_unborrowed ≡ true → IsAlone name.generation
            (slice_get self.old.slots name.slot) }
        ensures ok { OnOk result (self.new.slots ≡ change_entry self.old.slots name.slot
            (λ e. record e { kept = with_reader borrow e.kept })) }
        ensures err { OnErr result (self.new ≡ self.old) }
        ensures beside { OnErr result (IfSome (slice_get self.old.slots name.slot)
            (λ e. is_some (write_refusal (content_in e.kept)) ≡ true)) }
        ensures rooms { self.new.rooms ≡ self.old.rooms }
    {
        list_noted(&mut self.entries, &mut self.borrows, &mut self.last);
        if !is_unborrowed {
            list_beside(&self.entries[name.slot], &mut self.borrows, borrow)?;
        }
        self.last.note(Noted::Reader, name, borrow);
        Ok(())
    }

    /// Removes a reader. Returns whether there was one.
    #[inline(always)]
    pub fn release_read(&mut self, slot: usize, ticket: u64) -> bool
        requires { slot < length self.old.slots }
        ensures known { IfSome (slice_get self.old.slots slot)
            (λ e. result ≡ has_reader (content_in e.kept) ticket) }
        ensures after { self.new.slots ≡ change_entry self.old.slots slot
            (λ e. record e { kept = without_reader_in ticket e.kept }) }
        ensures rooms { self.new.rooms ≡ self.old.rooms }
    {
        if self.last.is_reader_at(slot, ticket) && self.entries[slot].content.is_unread() {
            self.last.noted = Noted::Nobody;
            return true;
        }
        self.release_listed(slot, ticket)
    }

    // Removes a reader that is listed, or that isn't there.
    #[cold]
    #[inline(never)]
    fn release_listed(&mut self, slot: usize, ticket: u64) -> bool
        requires { slot < length self.old.slots }
        ensures known { IfSome (slice_get self.old.slots slot)
            (λ e. result ≡ has_reader (content_in e.kept) ticket) }
        ensures after { self.new.slots ≡ change_entry self.old.slots slot
            (λ e. record e { kept = without_reader_in ticket e.kept }) }
        ensures rooms { self.new.rooms ≡ self.old.rooms }
    {
        list_noted(&mut self.entries, &mut self.borrows, &mut self.last);
        let content = &mut self.entries[slot].content;
        match content {
            StorageEntryData::Read(index, _) => {
                let known = self.borrows.release(index, ticket);
                if *index != NO_INDEX {
                    return known;
                }
                content.unlist();
                known
            }
            StorageEntryData::SharedRead(shared_index, _) => {
                let known = self.borrows.release(shared_index, ticket);
                if *shared_index != NO_INDEX {
                    return known;
                }
                content.unlist();
                known
            }
            _ => false,
        }
    }

    /// Moves the value of a cell without borrows to a writer.
    #[inline(always)]
    pub fn begin_write(&mut self, name: CellName, writer: Borrow) -> T
        requires free { IsAlone name.generation (slice_get self.old.slots name.slot) }
        ensures value { IfSome (slice_get self.old.slots name.slot)
            (λ e. content_in e.kept ≡ Some (Here result [])) }
        ensures after { self.new.slots ≡ change_entry self.old.slots name.slot
            (λ e. record e { kept = lend_to writer e.kept }) }
        ensures rooms { self.new.rooms ≡ self.old.rooms }
    {
        list_noted(&mut self.entries, &mut self.borrows, &mut self.last);
        let value = self.entries[name.slot].content.lend();
        self.last.note(Noted::Writer, name, writer);
        value
    }

    /// Puts a writer's value back, or returns it if there is no such writer, and changes nothing then.
    #[inline(always)]
    pub fn release_write(&mut self, slot: usize, ticket: u64, value: T) -> Result<(), T>
        requires { slot < length self.old.slots }
        ensures known { IfSome (slice_get self.old.slots slot)
            (λ e. IsTrue (is_ok result) ↔ (has_writer (content_in e.kept) ticket ≡ true)) }
        ensures ok { OnOk result (self.new.slots ≡ change_entry self.old.slots slot
            (λ e. record e { kept = with_value value e.kept })) }
        ensures err { IfErr result (λ back. (back ≡ value) × (self.new ≡ self.old)) }
        ensures rooms { self.new.rooms ≡ self.old.rooms }
    {
        if self.last.is_writer_at(slot, ticket) {
            self.last.noted = Noted::Nobody;
            self.entries[slot].content.put_back(value);
            return Ok(());
        }
        self.release_listed_writer(slot, ticket, value)
    }

    // Puts the value of a listed writer back, or returns it if there is no such writer.
    #[cold]
    #[inline(never)]
    fn release_listed_writer(&mut self, slot: usize, ticket: u64, value: T) -> Result<(), T>
        requires { slot < length self.old.slots }
        ensures known { IfSome (slice_get self.old.slots slot)
            (λ e. IsTrue (is_ok result) ↔ (has_writer (content_in e.kept) ticket ≡ true)) }
        ensures ok { OnOk result (self.new.slots ≡ change_entry self.old.slots slot
            (λ e. record e { kept = with_value value e.kept })) }
        ensures err { IfErr result (λ back. (back ≡ value) × (self.new ≡ self.old)) }
        ensures rooms { self.new.rooms ≡ self.old.rooms }
    {
        list_noted(&mut self.entries, &mut self.borrows, &mut self.last);
        let content = &mut self.entries[slot].content;
        match content {
            StorageEntryData::Lent(index, _) => {
                let index = *index;
                if self.borrows.first(index).ticket != ticket {
                    return Err(value);
                }
                content.put_back(value);
                self.borrows.close(index);
                Ok(())
            }
            _ => Err(value),
        }
    }

    /// Replaces the value of a cell without borrows, and returns the old one.
    #[inline(always)]
    pub fn replace(&mut self, slot: usize, value: T) -> T
        requires within { slot < length self.old.slots }
        requires free { IfSome (slice_get self.old.slots slot)
            (λ e. has_no_borrow (content_in e.kept) ≡ true) }
        ensures value { IfSome (slice_get self.old.slots slot)
            (λ e. content_in e.kept ≡ Some (Here result [])) }
        ensures after { self.new.slots ≡ change_entry self.old.slots slot
            (λ e. record e { kept = with_value value e.kept }) }
        ensures rooms { self.new.rooms ≡ self.old.rooms }
    {
        match &mut self.entries[slot].content {
            StorageEntryData::Data(kept) => mem::replace(kept, value),
            StorageEntryData::Shared(kept) => mem::replace(kept, value),
            _ => unreachable!(),
        }
    }

    /// Calls a closure once on the value of a cell without borrows, mutably, and returns the closure's
    /// result.
    #[inline(always)]
    pub fn change<R, F: FnOnce(&mut T) -> R>(&mut self, slot: usize, f: F) -> R
        requires within { slot < length self.old.slots }
        requires free { IfSome (slice_get self.old.slots slot)
            (λ e. has_no_borrow (content_in e.kept) ≡ true) }
        requires callable { (value : MutBor T) → IfSome (slice_get self.old.slots slot)
            (λ e. content_in e.kept ≡ Some (Here value.now [])) → F.pre f value }
        ensures changed { (old : T) × (new : T) × FnOnceReturnsAtMut F.FnOnce f old result new
            × IfSome (slice_get self.old.slots slot) (λ e. content_in e.kept ≡ Some (Here old []))
            × (self.new.slots ≡ change_entry self.old.slots slot
            (λ e. record e { kept = with_value new e.kept })) }
        ensures rooms { self.new.rooms ≡ self.old.rooms }
    {
        match &mut self.entries[slot].content {
            StorageEntryData::Data(kept) => f(kept),
            StorageEntryData::Shared(kept) => f(kept),
            _ => unreachable!(),
        }
    }

    /// Removes the slot's cell, with its borrows. `is_unborrowed` says that the caller knows that there
    /// is none.
    #[inline(always)]
    pub fn end(&mut self, slot: usize, is_unborrowed: bool)
        requires within { slot < length self.old.slots }
        requires alone { is_unborrowed ≡ true → IfSome (slice_get self.old.slots slot)
            (λ e. write_refusal (content_in e.kept) ≡ None) }
        ensures slots { self.new.slots ≡ change_entry self.old.slots slot
            (λ e. record e { kept = Empty }) }
        ensures rooms { self.new.rooms ≡ self.old.rooms }
    {
        let entry = &mut self.entries[slot];
        let index = entry.index();
        entry.content = StorageEntryData::Empty;
        if is_unborrowed {
            return;
        }
        self.last.forget(slot);
        give_back(&mut self.borrows, index);
    }

    /// Puts a cell without borrows into a slot that has no cell, under the next generation, which is
    /// returned. Nothing refers to it.
    #[inline(always)]
    pub fn refill(&mut self, slot: usize, content: StorageEntryData<T>, created_at: Location) -> u64
        requires within { slot < length self.old.slots }
        requires below { IfSome (slice_get self.old.slots slot)
            (λ e. e.generation < last_generation) }
        requires empty { IfSome (slice_get self.old.slots slot) (λ e. e.kept ≡ Empty) }
        requires unborrowed { IsUnborrowed (data_in content) }
        ensures generation { IfSome (slice_get self.old.slots slot)
            (λ e. result ≡ e.generation + 1) }
        ensures filled { self.new.slots ≡ slice_set self.old.slots slot (record
            { generation = result; kept = kept_data [] created_at (data_in content); references = 0 }) }
        ensures rooms { self.new.rooms ≡ self.old.rooms }
    {
        let generation = self.entries[slot].refill(content);
        self.details[slot] = EntryDetails {
            created_at,
            references: 0,
        };
        generation
    }

    /// Adds a slot with a cell without borrows, to which nothing refers. There must be room for it.
    #[inline(always)]
    pub fn push(&mut self, generation: u64, content: StorageEntryData<T>, created_at: Location)
        requires room { length self.old.slots < self.old.rooms }
        requires unborrowed { IsUnborrowed (data_in content) }
        ensures pushed { self.new.slots ≡ self.old.slots ++ (record
            { generation = generation; kept = kept_data [] created_at (data_in content); references = 0 })
            ∷ [] }
        ensures rooms { self.new.rooms ≡ self.old.rooms }
        ensures few { length self.old.slots < no_index }
    {
        self.entries.push_reserved(StorageEntry {
            generation,
            content,
        });
        self.details.push_reserved(EntryDetails {
            created_at,
            references: 0,
        });
    }

    /// Points the slot's reference to another cell.
    pub fn redirect(&mut self, slot: usize, target: usize)
        requires within { slot < length self.old.slots }
        requires target { target < length self.old.slots }
        requires refers { IfSome (slice_get self.old.slots slot)
            (λ e. is_some (target_name_in (cell_of e.kept)) ≡ true) }
        ensures slots { IfSome (slice_get self.old.slots target)
            (λ t. self.new.slots ≡ change_entry self.old.slots slot (λ e. record e {
              kept = referring (record { slot = target; generation = t.generation }) e.kept;
            })) }
        ensures rooms { self.new.rooms ≡ self.old.rooms }
    {
        let generation = self.entries[target].generation;
        let reference = StorageEntryData::Reference(target as u32, generation);
        // It was a reference, so there is nothing to drop.
        mem::forget(mem::replace(&mut self.entries[slot].content, reference));
    }

    /// Counts another reference to the slot's cell.
    #[inline(always)]
    pub fn count_up(&mut self, slot: usize)
        requires within { slot < length self.old.slots }
        requires few { IfSome (slice_get self.old.slots slot)
            (λ e. e.references < length self.old.slots) }
        ensures slots { self.new.slots ≡ change_entry self.old.slots slot
            (λ e. record e { references = e.references + 1 }) }
        ensures rooms { self.new.rooms ≡ self.old.rooms }
    {
        self.details[slot].references += 1;
    }

    /// One less does.
    #[inline(always)]
    pub fn count_down(&mut self, slot: usize)
        requires within { slot < length self.old.slots }
        requires some { IfSome (slice_get self.old.slots slot) (λ e. 0 < e.references) }
        ensures slots { self.new.slots ≡ change_entry self.old.slots slot
            (λ e. record e { references = e.references - 1 }) }
        ensures rooms { self.new.rooms ≡ self.old.rooms }
    {
        self.details[slot].references -= 1;
    }
}

// Lists the noted borrow, if there is one. Doesn't allocate.
#[inline(always)]
fn list_noted<T: Drop>(
    entries: &mut Vec<StorageEntry<T>>,
    borrows: &mut BorrowTable,
    last: &mut LastBorrow,
)
    requires { IsListable last.old borrows.old entries.old.items }
    ensures listed { IsListed last.old last.new borrows.old borrows.new entries.old.items
        entries.new.items }
    ensures capacity { vec_capacity entries.new ≡ vec_capacity entries.old }
    ensures nobody { is_noted last.new.noted ≡ false }
{
    if last.is_noted() {
        list_last(entries, borrows, last);
        last.noted = Noted::Nobody;
    }
}

// Lists the noted borrow, unless it is a reader that is listed.
#[cold]
#[inline(never)]
fn list_last<T: Drop>(
    entries: &mut Vec<StorageEntry<T>>,
    borrows: &mut BorrowTable,
    last: &LastBorrow,
)
    requires noted { is_noted last.now.noted ≡ true }
    requires fits { IsListable last.now borrows.old entries.old.items }
    ensures listed { IsListed last.now (cleared last.now) borrows.old borrows.new entries.old.items
        entries.new.items }
    ensures capacity { vec_capacity entries.new ≡ vec_capacity entries.old }
{
    let content = &mut entries[last.slot].content;
    match content {
        StorageEntryData::Data(_) => content.list(borrows.open(last.borrow)),
        StorageEntryData::Shared(_) => content.list(borrows.open(last.borrow)),
        StorageEntryData::Lent(index, _) => *index = borrows.open(last.borrow),
        _ => {}
    }
}

// Lists a reader of a value that others read. If memory runs out, nothing changes.
#[cold]
#[inline(never)]
fn list_beside<T>(
    entry: &StorageEntry<T>,
    borrows: &mut BorrowTable,
    reader: Borrow,
) -> Result<(), AllocError>
    requires within { index_of (data_in entry.now.content) ≢ no_index
        → index_of (data_in entry.now.content) < length borrows.old.lists }
    requires ascends { index_of (data_in entry.now.content) ≢ no_index → AreTicketsBelow reader.ticket
        (list_at borrows.old.lists (index_of (data_in entry.now.content))) }
    ensures ok { OnOk result (borrows.new
        ≡ listed_beside reader (index_of (data_in entry.now.content)) borrows.old) }
    ensures err { OnErr result (borrows.new ≡ borrows.old) }
    ensures beside { OnErr result (index_of (data_in entry.now.content) ≢ no_index) }
{
    let index = entry.index();
    if index == NO_INDEX {
        return Ok(());
    }
    borrows.push(index, reader)
}

// The writer of a value that is being written: the one that is listed at its index, or the noted one.
#[inline(always)]
fn writer_at(borrows: &BorrowTable, last: &LastBorrow, index: u32) -> Borrow
    requires { index ≢ no_index → index < length borrows.now.lists }
    ensures none { index ≡ no_index → result ≡ last.now.borrow }
    ensures some { index ≢ no_index → slice_get (list_at borrows.now.lists index) 0 ≡ Some result }
{
    if index == NO_INDEX {
        return last.borrow;
    }
    borrows.first(index)
}

// Frees the index of a slot's borrows, if there is one.
#[inline(always)]
fn give_back(borrows: &mut BorrowTable, index: u32)
    requires { index ≢ no_index → IsUsed borrows.old index }
    ensures none { index ≡ no_index → borrows.new ≡ borrows.old }
    ensures some { index ≢ no_index → IsClosed borrows.old borrows.new index }
{
    if index != NO_INDEX {
        borrows.close(index);
    }
}

// The next larger number of slots for which room is reserved.
fn larger_room(room: usize) -> Result<usize, StoreError>
    ensures more { IfOk result (λ more. (room < more) × (more < no_index)) }
    ensures cause { IfErr result (λ error. error ≡ OutOfMemory) }
{
    let most = NO_INDEX as usize - 1;
    if room >= most {
        return Err(StoreError::OutOfMemory);
    }
    Ok(most.min(room + more_room(room)))
}

// The capacity in slots at first, then, and later.
const FEW: usize = 4;

const MORE: usize = 64;

const MANY: usize = 1152;

// By how many slots the capacity grows: by large factors while it is small, so that a slot is seldom
// moved, and then to twice as many.
fn more_room(room: usize) -> usize
    ensures some { 0 < result }
    ensures most { result ≤ max room 1152 }
{
    if room < FEW {
        return FEW - room;
    }
    if room < MORE {
        return MORE - room;
    }
    if room < MANY {
        return MANY - room;
    }
    room
}

// The error of a write or a removal because of the readers at this index.
#[cold]
#[inline(never)]
fn readers_error(borrows: &BorrowTable, index: u32, alloc: Global) -> Refused<BorrowMutError>
    requires { index < length borrows.now.lists }
    ensures { FoundReaders (list_at borrows.now.lists index) result }
{
    match borrows.borrows_at(index).locations(alloc) {
        Ok(borrowed_at) => Refused::Borrow(BorrowMutError::AlreadyBorrowed(
            AlreadyBorrowedError::new(borrowed_at),
        )),
        Err(_) => Refused::Store(StoreError::OutOfMemory),
    }
}

// The error of a write or a removal because of one reader.
#[cold]
#[inline(never)]
fn reader_error(reader: Borrow, alloc: Global) -> Refused<BorrowMutError>
    ensures { FoundReaders (reader ∷ []) result }
{
    match Vec::with_capacity(alloc, 1) {
        Ok(mut borrowed_at) => {
            borrowed_at.push_reserved(reader.location);
            Refused::Borrow(BorrowMutError::AlreadyBorrowed(AlreadyBorrowedError::new(borrowed_at)))
        }
        Err(_) => Refused::Store(StoreError::OutOfMemory),
    }
}

// Appends the row of the writer of the value with this id.
fn push_writer(
    writer: Borrow,
    id: GenerationalBoxId,
    rows: &mut Vec<BaseRow>,
) -> Result<(), AllocError>
    ensures { OnOk result (rows.new.items
        ≡ rows.old.items ++ row.Writer id writer.ticket writer.location ∷ []) }
{
    push_more(rows, BaseRow::Writer(id, writer.ticket, writer.location))
}

// The error of a write or a removal because of a writer.
#[inline(always)]
fn writer_error(writer: Borrow) -> Refused<BorrowMutError>
    ensures { result ≡ refused.Borrow (writes.AlreadyBorrowedMut
        (record { borrowed_mut_at = writer.location })) }
{
    Refused::Borrow(BorrowMutError::AlreadyBorrowedMut(AlreadyBorrowedMutError::new(
        writer.location,
    )))
}
