//! The slots of a store with the pool of the free ones.

ghost use Rattle.std.specs.Prelude.{◌≡◌, ◌+◌, ◌-◌, ◌<◌, ◌≤◌, ◌∷◌, [], true, Some, None};
ghost use Rattle.std.specs.Prelude.{Err, IfSome, IfOk, IfErr, IsSome, OnOk, OnErr, IsTrue, ◌↔◌};
ghost use Rattle.std.specs.Prelude.{is_none, is_ok, option_copied, option_map, length, not};
ghost use Rattle.std.specs.Prelude.{IfNone, false, is_some};
ghost use Rattle.std.specs.Prelude.{map as list_map};
ghost use Rattle.std.specs.List.{IsDistinct, list_all};
ghost use Rattle.std.specs.FinMap as map;
ghost use Rattle.std.specs.Borrow.{MutBor};
ghost use Rattle.std.specs.Fn.{FnOnceReturnsAtMut};
ghost use Rattle.generational_core.specs.declared.boxes.GenerationalPointer.{GenerationalPointer};
ghost use Rattle.generational_errors.specs.declared.error.StoreError.TheVariants.{OutOfMemory};
ghost use Rattle.generational_core.specs.Answers.{refusal_of_read_error};
ghost use Rattle.generational_core.specs.Borrowing.{fill, read_refusal, write_refusal};
ghost use Rattle.generational_core.specs.Boxes.{box_of, name_of};
ghost use Rattle.generational_core.specs.Cells.{is_shared, location_of};
ghost use Rattle.generational_core.specs.Cells.Content.{Here, Lent};
ghost use Rattle.generational_core.specs.Cells.Cell.{Ref};
ghost use Rattle.generational_core.specs.Conditions.{fresh, IsFresh, IsLinked};
ghost use Rattle.generational_core.specs.State.{HasTargets};
ghost use Rattle.generational_core.specs.Ending.{close, hindrance_to};
ghost use Rattle.generational_core.specs.Machine.{has_reader, has_writer, point, turn};
ghost use Rattle.generational_core.specs.Machine.Action.{Point};
ghost use Rattle.generational_core.specs.Keeping.{boxed_at};
ghost use Rattle.generational_core.specs.Names.{is_name};
ghost use Rattle.generational_core.specs.Seeing.{unborrowed_value, value_reached};
ghost use Rattle.generational_core.specs.Slots.{slots, free, retired};
ghost use Rattle.generational_core.specs.State.{content_at, is_named};
ghost use Rattle.generational_core.specs.StepCalls.{is_hindered};
ghost use Rattle.store_cells.specs.declared.entry.StorageEntryData.TheVariants as content;
ghost use Rattle.store_parts.specs.Borrows.{AreTicketsBelow};
ghost use Rattle.store_cells.specs.Data.{data_in};
ghost use Rattle.store_cells.specs.Entries.{IsUnborrowed, kept_data, target_name_of};
ghost use Rattle.store_cells.specs.Entry.{FoundBorrowed, cell_of, has_no_borrow};
ghost use Rattle.store_cells.specs.Entry.{is_unborrowed_value};
ghost use Rattle.store_cells.specs.Entry.{less_read, one_read, readers_of};
ghost use Rattle.store_parts.specs.CellNames.{name_of_cell};
ghost use Rattle.store_cells.specs.Entry.{target_name_in, value_for};
ghost use Rattle.store_slots.specs.SlotsState.{change_content, content_reached, reached};
ghost use Rattle.store_slots.specs.SlotsState.{refusal_to_read_at, refusal_to_refer_at};
ghost use Rattle.store_slots.specs.SlotsState.{would_end, FindsCell, IsEndReply, IsMade, IsReadReply, IsWritable};
ghost use Rattle.store_slots.specs.SlotsState.{IsTurned};
ghost use Rattle.store_slots.specs.Removal.{live_target};
ghost use Rattle.store_rows.specs.Packed.{unpack_all};
ghost use Rattle.store_rows.specs.Past.{ArePastSlots};
ghost use Rattle.generational_core.specs.Plain.{plain};
ghost use Rattle.store_slots.specs.SlotRows.{all_slot_rows, ReadSlots};
ghost use Rattle.store_slots.specs.SlotsState.{with_records};

mod loading;
mod saving;

use crate::blocking_borrow::{
    are_unborrowed_values, find_blocking_borrow, find_blocking_value, would_end,
};
use crate::counts::{RetiredSlots, SlotCounts};
use crate::found::{Found, look};
use crate::packing::{pack_ahead, pack_slots};
use crate::references::{forget, is_boxed, refer};
use crate::refusals::{dropped, dropped_mut};
use generational_core::parts::Borrow;
use generational_core::{
    BaseRow, BorrowError, BorrowMutError, BorrowMutResult, Location, Refused, StoreError,
};
pub use loading::{Room, whole_images_are_sound};
use std::alloc::{AllocError, Global};
use std::marker::Model;
use store_cells::entries::Entries;
use store_cells::entry::{CellKind, StorageEntryData};
use store_parts::names::CellName;
use store_parts::pool::{SlotPool, grow_within};
use store_rows::PackedSlots;

/// The slots of a store. Contracts model them as the state of the abstract machine that they represent,
/// without a number, owners and tickets, and how many more cells don't need an allocation. `P` chooses
/// which free slot is taken.
#[derive(Drop)]
pub struct Slots<T, P: SlotPool> {
    // the first generation of a slot
    start: u64,
    counts: RetiredSlots,
    entries: Entries<T>,
    pool: P,
}

impl<T, P: SlotPool> Model for Slots<T, P> {
    ghost use Rattle.std.specs.Prelude.{◌≤◌, ◌+◌, ◌-◌, length};
    ghost use Rattle.std.specs.Coded.{codes};
    ghost use Rattle.std.specs.FinMap as map;
    ghost use Rattle.std.specs.FinSet as set;
    ghost use Rattle.store_slots.specs.SlotsState.{SlotsState, state_of, IsSlotTable, AreReferred};
    ghost use Rattle.store_slots.specs.SlotsState.{usable_count};

    ghost Value = { SlotsState T };

    ghost coded = { Prim.hlevel (codes, map.code) };

    ghost view = { λ s. record {
      state = state_of s.start (usable_count s.counts (length s.entries.slots)).peak s.entries.slots;
      spare = set.len (P.members s.pool) + (P.rooms s.pool - length s.entries.slots);
    } };

    ghost invariant = { λ s.
        IsSlotTable (record {
          free = P.members s.pool;
          rooms = P.rooms s.pool;
          start = s.start;
          counts = usable_count s.counts (length s.entries.slots);
          slots = s.entries.slots;
        })
        × (P.rooms s.pool ≤ s.entries.rooms) × AreReferred (λ m. 0) s.entries.slots
        × (s.counts.retired ≤ length s.entries.slots) };
}

impl<T, P: SlotPool> Slots<T, P> {
    /// No slot. Doesn't allocate.
    pub fn new(alloc: Global, start: u64) -> Self
        ensures state { result.state ≡ fresh 0 start 0 }
        ensures spare { result.spare ≡ 0 }
    {
        Slots {
            start,
            counts: RetiredSlots::new(),
            entries: Entries::new(alloc),
            pool: P::new(alloc),
        }
    }
}

impl<T: Drop, P: SlotPool> Slots<T, P> {
    /// Whether no slot was ever made.
    pub fn is_fresh(&self) -> bool
        ensures { IsTrue result ↔ IsFresh (with_records self.now.state 0 map.empty 0) }
    {
        self.entries.len() == 0
    }

    /// How many slots there are, of which kinds, and the peak number of live cells.
    pub fn counts(&self) -> SlotCounts
        ensures slots { result.slots ≡ slots self.now.state }
        ensures free { result.free ≡ free self.now.state }
        ensures retired { result.retired ≡ retired self.now.state }
        ensures peak { result.peak_live ≡ self.now.state.peak }
        ensures bounded { slots self.now.state
            ≤ self.now.state.peak + retired self.now.state }
    {
        let made = self.entries.len();
        SlotCounts {
            slots: made,
            free: self.pool.free(),
            retired: self.counts.retired(),
            peak_live: self.counts.peak(made),
        }
    }

    /// Packs the rows of the slots, ascending, with ids of the store with this number, over those of an
    /// earlier state and into a list of whole rows. Takes time for each slot, and allocates if there are
    /// more than then.
    pub fn pack_rows(
        &self,
        number: u64,
        slots: &mut PackedSlots,
        whole: &mut Vec<BaseRow>,
    ) -> Result<(), AllocError>
        requires past { ArePastSlots (plain self.now.state) slots.old }
        requires none { whole.old.items ≡ [] }
        ensures rows { OnOk result (unpack_all number whole.new.items 0 slots.new
            ≡ all_slot_rows number self.now.state) }
        ensures back { ReadSlots number self.now.state }
    {
        pack_slots(&self.entries, number, slots, whole)
    }

    /// Packs the slots from one on, up to another, ahead of the rest, into the place of those of an
    /// earlier state.
    pub fn pack_ahead(
        &self,
        slots: &mut PackedSlots,
        from: usize,
        to: usize,
    ) -> Result<(), AllocError>
        requires { ArePastSlots (plain self.now.state) slots.old }
        ensures { OnOk result (ArePastSlots (plain self.now.state) slots.new) }
    {
        pack_ahead(&self.entries, slots, from, to)
    }

    /// Where a cell was made.
    pub fn created_at(&self, name: CellName) -> Location
        requires { IsSome (map.get self.now.state.cells (name_of_cell name)) }
        ensures { location_of (map.get self.now.state.cells (name_of_cell name)) ≡ Some result }
    {
        self.entries.details(name.slot).created_at
    }

    /// Where the cell of this name was made, if that is live and has a box: a shared value has none.
    pub fn find(&self, name: CellName) -> Option<Location>
        ensures { result ≡ boxed_at (map.get self.now.state.cells (name_of_cell name)) }
    {
        if !is_boxed(&self.entries, name) {
            return None;
        }
        Some(self.created_at(name))
    }

    /// A reference to a cell.
    pub fn reference_to(&self, name: CellName) -> StorageEntryData<T>
        requires { IsSome (map.get self.now.state.cells (name_of_cell name)) }
        ensures { result ≡ content.Reference name.slot name.generation }
    {
        self.entries.reference_to(name.slot)
    }

    /// The value that a box of this name refers to, unless a writer has it.
    #[inline(always)]
    pub fn peek(&self, name: CellName) -> Option<&T>
        requires { IsLinked self.now.state.cells }
        ensures { option_copied result
            ≡ value_reached self.now.state (reached self.now.state (name_of_cell name)) }
    {
        match self.entries.reach(name) {
            Some(value) => self.entries.peek(value.slot),
            None => None,
        }
    }

    /// Whether a box of this name refers to a value.
    #[inline(always)]
    pub fn is_live(&self, name: CellName) -> bool
        ensures { result ≡ is_some (reached self.now.state (name_of_cell name)) }
    {
        self.entries.reach(name).is_some()
    }

    /// What a box of this name refers to, and its borrow.
    #[inline(always)]
    pub fn look(&self, name: CellName) -> Found
        requires { IsLinked self.now.state.cells }
        ensures { FindsCell self.now.state.cells (reached self.now.state (name_of_cell name)) result }
    {
        look(&self.entries, name)
    }

    /// Whether no borrow is in the way of pointing the reference of this name to another value.
    pub fn may_point(&self, name: CellName, new: CellName, shared: bool) -> bool
        requires linked { IsLinked self.now.state.cells }
        requires shared { shared
            ≡ is_shared (map.get self.now.state.cells (name_of_cell new)) }
        ensures { (a b : GenerationalPointer) → name_of a ≡ name_of_cell name
            → result ≡ not (is_hindered (Point a b) (point self.now.state a b
            (map.get self.now.state.cells (name_of_cell name)) (Some (name_of_cell new))
            (map.get self.now.state.cells (name_of_cell new))).0) }
    {
        let Some(old) = self.entries.target(name) else {
            return true;
        };
        if old == new || !shared {
            return true;
        }
        self.may_lose(name, Some(old))
    }

    /// The target of the reference of this name, if it is one.
    pub fn target(&self, name: CellName) -> Option<CellName>
        ensures { option_map name_of_cell result
            ≡ target_name_in (map.get self.now.state.cells (name_of_cell name)) }
    {
        self.entries.target(name)
    }

    /// The value that a box of this name refers to, unless a writer has it, and whether it is known to
    /// have no borrow. A value that isn't shared and has no borrow is checked for first. An error says
    /// where the box was made.
    #[inline(always)]
    pub fn readable(
        &self,
        name: CellName,
        created_at: Location,
    ) -> Result<(CellName, bool), BorrowError>
        requires { IsLinked self.now.state.cells }
        ensures { IsReadReply self.now.state (name_of_cell name) created_at result }
    {
        if self.entries.has_unborrowed_value(name) {
            return Ok((name, true));
        }
        self.find_readable(name, created_at)
    }

    // Does what `readable` promises, by a lookup. It is separate, so that the result of the lookup is
    // only stored here.
    #[inline(always)]
    fn find_readable(
        &self,
        name: CellName,
        created_at: Location,
    ) -> Result<(CellName, bool), BorrowError>
        requires { IsLinked self.now.state.cells }
        ensures { IsReadReply self.now.state (name_of_cell name) created_at result }
    {
        match self.look(name) {
            Found::Nothing => Err(dropped(created_at)),
            Found::Unborrowed(value) => Ok((value, true)),
            Found::Read(value) => Ok((value, false)),
            Found::Lent(writer) => Err(BorrowError::AlreadyBorrowedMut(writer)),
        }
    }

    /// The value that a box of this name refers to, unless a writer has it, and whether it is shared. An
    /// error says where the box was made.
    #[inline(always)]
    pub fn unlent(
        &self,
        name: CellName,
        created_at: Location,
    ) -> Result<(CellName, bool), BorrowError>
        requires { IsLinked self.now.state.cells }
        ensures ok { IfOk result (λ r.
            (reached self.now.state (name_of_cell name) ≡ Some (name_of_cell r.0))
            × (read_refusal (content_at self.now.state (name_of_cell r.0)) ≡ None)
            × (r.1 ≡ is_shared (map.get self.now.state.cells (name_of_cell r.0)))) }
        ensures err { IfErr result (λ e.
            refusal_to_read_at self.now.state (name_of_cell name) created_at
            ≡ Some (refusal_of_read_error e)) }
    {
        let (value, shared) = match self.entries.target(name) {
            Some(target) => (target, true),
            None => match self.entries.reach(name) {
                Some(own) => (own, false),
                None => return Err(dropped(created_at)),
            },
        };
        match self.entries.borrow_error(value.slot) {
            None => Ok((value, shared)),
            Some(writer) => Err(BorrowError::AlreadyBorrowedMut(writer)),
        }
    }

    /// The shared value that a box of this name refers to, unless a writer has it.
    #[inline(always)]
    pub fn shared(&self, name: CellName, created_at: Location) -> Result<CellName, BorrowError>
        requires { IsLinked self.now.state.cells }
        ensures ok { IfOk result (λ m.
            (reached self.now.state (name_of_cell name) ≡ Some (name_of_cell m))
            × (read_refusal (content_at self.now.state (name_of_cell m)) ≡ None)
            × (is_shared (map.get self.now.state.cells (name_of_cell m)) ≡ true)) }
        ensures err { IfErr result (λ e.
            refusal_to_refer_at self.now.state (name_of_cell name) created_at
            ≡ Some (refusal_of_read_error e)) }
    {
        let (value, shared) = match self.unlent(name, created_at) {
            Ok(found) => found,
            Err(error) => return Err(error),
        };
        if shared {
            return Ok(value);
        }
        Err(dropped(created_at))
    }

    /// The value that a box of this name refers to, unless it is borrowed. A value that isn't shared and
    /// has no borrow is checked for first. An error says where the box was made.
    #[inline(always)]
    pub fn writable(&self, name: CellName, created_at: Location) -> BorrowMutResult<CellName>
        requires { IsLinked self.now.state.cells }
        ensures { IsWritable self.now.state (name_of_cell name) created_at result }
    {
        if self.entries.has_unborrowed_value(name) {
            return Ok(name);
        }
        self.find_writable(name, created_at)
    }

    // What `writable` promises, by a look.
    #[inline(always)]
    fn find_writable(&self, name: CellName, created_at: Location) -> BorrowMutResult<CellName>
        requires { IsLinked self.now.state.cells }
        ensures { IsWritable self.now.state (name_of_cell name) created_at result }
    {
        match self.look(name) {
            Found::Nothing => Err(dropped_mut(created_at)),
            Found::Unborrowed(value) => Ok(value),
            Found::Read(value) => match self.entries.borrow_mut_error(value.slot) {
                Ok(()) => Ok(value),
                Err(refused) => Err(refused),
            },
            Found::Lent(writer) => {
                Err(Refused::Borrow(BorrowMutError::AlreadyBorrowedMut(writer)))
            }
        }
    }

    /// The value of this name, if it has this reader.
    #[inline(always)]
    pub fn open(&self, name: CellName, ticket: u64) -> Option<&T>
        ensures { option_copied result
            ≡ value_for ticket (content_at self.now.state (name_of_cell name)) }
    {
        if self.entries.holds(name) {
            return self.entries.open(name.slot, ticket);
        }
        None
    }

    /// Whether a borrow is noted apart from the lists.
    #[inline(always)]
    pub fn has_noted(&self) -> bool {
        self.entries.has_noted()
    }

    /// Moves the noted borrow, if there is one, to a list. Nothing that contracts model changes.
    #[inline(always)]
    pub fn list_noted(&mut self)
        ensures { self.new ≡ self.old }
    {
        self.entries.list_noted();
    }

    /// Adds a reader to a value that isn't being written. It may fail to allocate only if the value has
    /// another reader, and then nothing changes. The caller may know that the value has no borrow.
    #[inline(always)]
    pub fn begin_read(
        &mut self,
        name: CellName,
        borrow: Borrow,
        is_unborrowed: bool,
    ) -> Result<(), AllocError>
        requires there { IsSome (content_at self.old.state (name_of_cell name)) }
        requires free { read_refusal (content_at self.old.state (name_of_cell name)) ≡ None }
        requires alone { is_unborrowed ≡ true
            → write_refusal (content_at self.old.state (name_of_cell name)) ≡ None }
        requires ascends { AreTicketsBelow borrow.ticket
            (readers_of (content_at self.old.state (name_of_cell name))) }
        ensures ok { OnOk result (IfSome (content_at self.old.state (name_of_cell name))
            (λ c. self.new.state ≡ fill self.old.state (name_of_cell name) (one_read borrow c))) }
        ensures err { OnErr result (self.new.state ≡ self.old.state) }
        ensures beside { OnErr result (is_some
            (write_refusal (content_at self.old.state (name_of_cell name))) ≡ true) }
    {
        self.entries.begin_read(name, borrow, is_unborrowed)
    }

    /// Removes a reader. Returns whether there was one.
    #[inline(always)]
    pub fn release_read(&mut self, name: CellName, ticket: u64) -> bool
        ensures known { result ≡ has_reader (content_at self.old.state (name_of_cell name)) ticket }
        ensures after { self.new.state
            ≡ change_content self.old.state (name_of_cell name) (less_read ticket) }
    {
        self.entries.holds(name) && self.entries.release_read(name.slot, ticket)
    }

    /// Moves a value without borrows to a writer.
    #[inline(always)]
    pub fn begin_write(&mut self, name: CellName, writer: Borrow) -> T
        requires { has_no_borrow (content_at self.old.state (name_of_cell name)) ≡ true }
        ensures value { content_at self.old.state (name_of_cell name) ≡ Some (Here result []) }
        ensures after { self.new.state
            ≡ fill self.old.state (name_of_cell name) (Lent writer) }
    {
        self.entries.begin_write(name, writer)
    }

    /// Puts a writer's value back, or returns it if there is no such writer, and changes nothing then.
    #[inline(always)]
    pub fn release_write(&mut self, name: CellName, ticket: u64, value: T) -> Result<(), T>
        ensures known { IsTrue (is_ok result) ↔
            (has_writer (content_at self.old.state (name_of_cell name)) ticket ≡ true) }
        ensures ok { OnOk result
            (self.new.state ≡ fill self.old.state (name_of_cell name) (Here value [])) }
        ensures err { IfErr result (λ back. (back ≡ value) × (self.new.state ≡ self.old.state)) }
    {
        if self.entries.holds(name) {
            return self.entries.release_write(name.slot, ticket, value);
        }
        Err(value)
    }

    /// Replaces the value that a box of this name refers to, and that isn't borrowed, and returns the old
    /// one.
    #[inline(always)]
    pub fn replace(&mut self, name: CellName, value: T) -> T
        requires { has_no_borrow
            (content_reached self.old.state (reached self.old.state (name_of_cell name))) ≡ true }
        ensures value { IfSome (reached self.old.state (name_of_cell name))
            (λ m. content_at self.old.state m ≡ Some (Here result [])) }
        ensures after { IfSome (reached self.old.state (name_of_cell name))
            (λ m. self.new.state ≡ fill self.old.state m (Here value [])) }
    {
        let Some(reached) = self.entries.reach(name) else {
            unreachable!();
        };
        self.entries.replace(reached.slot, value)
    }

    /// Calls a closure once on the value that a box of this name refers to, mutably, if it isn't
    /// borrowed, and returns the closure's result.
    #[inline(always)]
    pub fn change<R, F: FnOnce(&mut T) -> R>(&mut self, name: CellName, f: F) -> R
        requires free { has_no_borrow
            (content_reached self.old.state (reached self.old.state (name_of_cell name))) ≡ true }
        requires callable { (value : MutBor T) →
            IfSome (reached self.old.state (name_of_cell name))
            (λ m. content_at self.old.state m ≡ Some (Here value.now [])) → F.pre f value }
        ensures { (old : T) × (new : T) × FnOnceReturnsAtMut F.FnOnce f old result new
            × IfSome (reached self.old.state (name_of_cell name))
            (λ m. content_at self.old.state m ≡ Some (Here old []))
            × IfSome (reached self.old.state (name_of_cell name))
            (λ m. self.new.state ≡ fill self.old.state m (Here new [])) }
    {
        let Some(reached) = self.entries.reach(name) else {
            unreachable!();
        };
        self.entries.change(reached.slot, f)
    }

    // For how many more cells there is room.
    #[inline(always)]
    fn spare(&self) -> usize
        ensures count { result ≡ self.now.spare }
        ensures free { free self.now.state ≤ result }
    {
        self.pool.free() + (self.pool.room() - self.entries.len())
    }

    // Reserves room for at least another cell. Fails only if an allocation fails. No slot changes.
    #[cold]
    #[inline(never)]
    fn grow(&mut self) -> Result<(), StoreError>
        ensures state { self.new.state ≡ self.old.state }
        ensures ok { OnOk result (self.old.spare < self.new.spare) }
        ensures cause { IfErr result (λ error. error ≡ OutOfMemory) }
    {
        if self.pool.room() == self.entries.room() {
            self.entries.grow()?;
        }
        grow_within(&mut self.pool, self.entries.room())
    }

    // Reserves room for another cell, if there is none.
    #[inline(always)]
    fn reserve_one(&mut self) -> Result<(), StoreError>
        ensures state { self.new.state ≡ self.old.state }
        ensures ok { OnOk result (0 < self.new.spare) }
        ensures more { OnOk result (self.old.spare ≤ self.new.spare) }
        ensures needed { OnErr result (self.old.spare ≡ 0) }
    {
        if self.spare() > 0 {
            return Ok(());
        }
        self.grow()
    }

    /// Reserves room for two more cells, if there isn't enough.
    pub fn reserve_two(&mut self) -> Result<(), StoreError>
        ensures state { self.new.state ≡ self.old.state }
        ensures ok { OnOk result (2 ≤ self.new.spare) }
        ensures cause { IfErr result (λ error. error ≡ OutOfMemory) }
        ensures needed { OnErr result (free self.old.state < 2) }
    {
        let spare = self.spare();
        if spare == 0 {
            self.grow()?;
        }
        if spare < 2 {
            self.grow()?;
        }
        Ok(())
    }

    /// Reserves exact room for this many more cells, if there isn't enough. Fails only if an allocation
    /// fails. No slot changes.
    pub fn reserve(&mut self, more: usize) -> Result<(), StoreError>
        ensures state { self.new.state ≡ self.old.state }
        ensures ok { OnOk result (more ≤ self.new.spare) }
        ensures spare { self.old.spare ≤ self.new.spare }
        ensures cause { IfErr result (λ error. error ≡ OutOfMemory) }
    {
        let spare = self.spare();
        if more <= spare {
            return Ok(());
        }
        let Some(room) = self.pool.room().checked_add(more - spare) else {
            return Err(StoreError::OutOfMemory);
        };
        self.entries.reserve(room)?;
        self.pool.grow(room)
    }

    /// Makes a cell without borrows. A reference is counted at its target from then on. On an error the
    /// content comes back, and nothing changes: there was no room for a cell, and an allocation failed.
    #[inline(always)]
    pub fn make(
        &mut self,
        content: StorageEntryData<T>,
        created_at: Location,
    ) -> Result<CellName, StorageEntryData<T>>
        requires unborrowed { IsUnborrowed (data_in content) }
        requires target { IfSome (target_name_of (data_in content))
            (λ m. is_shared (map.get self.old.state.cells m) ≡ true) }
        requires linked { HasTargets self.old.state.cells }
        ensures ok { IfOk result (λ n. IsMade self.old self.new
            (cell_of (kept_data [] created_at (data_in content))) (name_of_cell n)) }
        ensures err { OnErr result (self.new.state ≡ self.old.state) }
        ensures needed { OnErr result ((free self.old.state ≡ 0) × (self.old.spare ≡ 0)) }
        ensures back { IfErr result (λ back. back ≡ content) }
    {
        let Some(slot) = self.pool.take() else {
            if self.reserve_one().is_err() {
                return Err(content);
            }
            return Ok(self.extend(content, created_at));
        };
        let target = content.target();
        let generation = self.entries.refill(slot, content, created_at);
        refer(&mut self.entries, target);
        Ok(CellName { slot, generation })
    }

    // Makes a cell in a new slot, if none is free and there is room for one.
    #[inline(always)]
    fn extend(&mut self, content: StorageEntryData<T>, created_at: Location) -> CellName
        requires none { free self.old.state ≡ 0 }
        requires room { 0 < self.old.spare }
        requires unborrowed { IsUnborrowed (data_in content) }
        requires target { IfSome (target_name_of (data_in content))
            (λ m. is_shared (map.get self.old.state.cells m) ≡ true) }
        requires linked { HasTargets self.old.state.cells }
        ensures { IsMade self.old self.new (cell_of (kept_data [] created_at (data_in content)))
            (name_of_cell result) }
    {
        let name = CellName {
            slot: self.entries.len(),
            generation: self.start,
        };
        let target = content.target();
        self.entries.push(name.generation, content, created_at);
        refer(&mut self.entries, target);
        name
    }

    // Removes a cell. Its slot is free from then on, unless its generation is the last. The caller knows
    // the shared value that the cell refers to, if that is live, which no longer counts it; and it may
    // know that the cell isn't borrowed.
    #[inline(always)]
    fn remove(&mut self, name: CellName, named: Option<CellName>, is_unborrowed: bool)
        requires there { IsSome (map.get self.old.state.cells (name_of_cell name)) }
        requires named { option_map name_of_cell named ≡ live_target self.old.state.cells
            (map.get self.old.state.cells (name_of_cell name)) }
        requires alone { is_unborrowed ≡ true
            → write_refusal (content_at self.old.state (name_of_cell name)) ≡ None }
        ensures { self.new.state ≡ record self.old.state
            { cells = map.remove self.old.state.cells (name_of_cell name) } }
    {
        forget(&mut self.entries, named);
        self.entries.end(name.slot, is_unborrowed);
        if name.generation < u64::MAX {
            self.pool.put(name.slot);
        } else {
            self.counts.retire_one(self.entries.len());
        }
    }

    // The value that is removed with a name: its own, or its target, if it is the last reference to that.
    // The caller knows the target.
    #[inline(always)]
    fn would_end(&self, name: CellName, target: Option<CellName>) -> Option<CellName>
        requires linked { IsLinked self.now.state.cells }
        requires target { option_map name_of_cell target
            ≡ target_name_in (map.get self.now.state.cells (name_of_cell name)) }
        ensures { option_map name_of_cell result ≡ would_end
            (is_named (map.remove self.now.state.cells (name_of_cell name)))
            (map.get self.now.state.cells (name_of_cell name)) (name_of_cell name) }
    {
        would_end(&self.entries, name, target)
    }

    /// Whether no borrow is in the way of a name's removal.
    pub fn may_end(&self, name: CellName) -> bool
        requires { IsLinked self.now.state.cells }
        ensures { result ≡ is_none (hindrance_to self.now.state (name_of_cell name ∷ [])) }
    {
        let target = self.entries.target(name);
        self.may_lose(name, target)
    }

    // Whether the value that is removed with a name isn't borrowed.
    fn may_lose(&self, name: CellName, target: Option<CellName>) -> bool
        requires linked { IsLinked self.now.state.cells }
        requires target { option_map name_of_cell target
            ≡ target_name_in (map.get self.now.state.cells (name_of_cell name)) }
        ensures { result ≡ is_none (hindrance_to self.now.state (name_of_cell name ∷ [])) }
    {
        match self.would_end(name, target) {
            Some(ending) => self.entries.is_unborrowed(ending.slot),
            None => true,
        }
    }

    /// Removes a name, unless a borrow is in the way.
    #[inline(always)]
    pub fn end(&mut self, name: CellName) -> BorrowMutResult<()>
        requires { IsLinked self.old.state.cells }
        ensures { IsEndReply self.old.state self.new.state (name_of_cell name ∷ []) result }
    {
        if self.entries.has_unborrowed_value(name) {
            self.remove(name, None, true);
            return Ok(());
        }
        if self.end_slow(name) {
            return Ok(());
        }
        self.end_refused(name)
    }

    /// Removes a name and returns its value, exactly if that isn't shared and has no borrow. For that the
    /// value is moved to a writer, which is removed with the cell.
    pub fn take_value(&mut self, name: CellName) -> Option<T>
        requires { IsLinked self.old.state.cells }
        ensures value { result
            ≡ unborrowed_value (map.get self.old.state.cells (name_of_cell name)) }
        ensures free { IfSome result
            (λ value. hindrance_to self.old.state (name_of_cell name ∷ []) ≡ None) }
        ensures ended { IfSome result
            (λ value. self.new.state ≡ close self.old.state (name_of_cell name ∷ [])) }
        ensures none { IfNone result (self.new.state ≡ self.old.state) }
    {
        if !self.entries.has_unborrowed_value(name) {
            return None;
        }
        let location = self.entries.details(name.slot).created_at;
        let value = self.begin_write(
            name,
            Borrow {
                ticket: 0,
                location,
            },
        );
        self.remove(name, None, false);
        Some(value)
    }

    // Removes a name of any cell, unless a borrow is in the way. Returns whether it was removed: so no
    // stack space is needed for an error.
    #[cold]
    #[inline(never)]
    fn end_slow(&mut self, name: CellName) -> bool
        requires { IsLinked self.old.state.cells }
        ensures known { result
            ≡ is_none (hindrance_to self.old.state (name_of_cell name ∷ [])) }
        ensures ended { result ≡ true
            → self.new.state ≡ close self.old.state (name_of_cell name ∷ []) }
        ensures stays { result ≡ false → self.new.state ≡ self.old.state }
    {
        let target = self.entries.target(name);
        let ending = self.would_end(name, target);
        if let Some(value) = ending {
            if !self.entries.is_unborrowed(value.slot) {
                return false;
            }
        }
        self.take_away(name, target, ending);
        true
    }

    // Returns the borrows that block the removal of a name. It is separate from `end`, so that the
    // error's stack space is used only here.
    #[inline(always)]
    fn end_refused(&self, name: CellName) -> BorrowMutResult<()>
        requires { IsLinked self.now.state.cells }
        ensures { FoundBorrowed (hindrance_to self.now.state (name_of_cell name ∷ [])) result }
    {
        match self.find_blocking_borrow(name) {
            Ok(()) => Ok(()),
            Err(refused) => Err(refused),
        }
    }

    // The borrows that block the removal of a name.
    #[cold]
    #[inline(never)]
    fn find_blocking_borrow(&self, name: CellName) -> BorrowMutResult<()>
        requires { IsLinked self.now.state.cells }
        ensures { FoundBorrowed (hindrance_to self.now.state (name_of_cell name ∷ [])) result }
    {
        let target = self.entries.target(name);
        match self.would_end(name, target) {
            Some(value) => self.entries.borrow_mut_error(value.slot),
            None => Ok(()),
        }
    }

    // Removes a name, even if a borrow is in the way.
    #[inline(always)]
    fn close(&mut self, name: CellName)
        requires { IsLinked self.old.state.cells }
        ensures { self.new.state ≡ close self.old.state (name_of_cell name ∷ []) }
    {
        let target = self.entries.target(name);
        let ending = self.would_end(name, target);
        self.take_away(name, target, ending);
    }

    // Removes the cell of a name with the value that goes with it. If that is shared, its slot is freed
    // before the reference's, and the reference needn't be counted any more. The caller knows the cell's
    // target, and which value goes.
    #[inline(always)]
    fn take_away(&mut self, name: CellName, target: Option<CellName>, ending: Option<CellName>)
        requires linked { IsLinked self.old.state.cells }
        requires target { option_map name_of_cell target
            ≡ target_name_in (map.get self.old.state.cells (name_of_cell name)) }
        requires ending { option_map name_of_cell ending ≡ would_end
            (is_named (map.remove self.old.state.cells (name_of_cell name)))
            (map.get self.old.state.cells (name_of_cell name)) (name_of_cell name) }
        ensures { self.new.state ≡ close self.old.state (name_of_cell name ∷ []) }
    {
        let named = match ending {
            Some(value) => {
                self.remove(value, None, false);
                None
            }
            None => target,
        };
        if target.is_some() {
            self.remove(name, named, true);
        }
    }

    /// Points the reference of this name, whose box was made at a location, to another value, if that is
    /// shared. Its old target is removed if nothing refers to it then, unless a borrow is in the way.
    pub fn point(
        &mut self,
        name: CellName,
        created_at: Location,
        new: CellName,
        shared: bool,
    ) -> BorrowMutResult<()>
        requires linked { IsLinked self.old.state.cells }
        requires there { IsSome (content_at self.old.state (name_of_cell new)) }
        requires shared { shared
            ≡ is_shared (map.get self.old.state.cells (name_of_cell new)) }
        ensures { (b : GenerationalPointer) → IsTurned self.old.state self.new.state result
            (point self.old.state (box_of 0 (name_of_cell name) created_at) b
            (map.get self.old.state.cells (name_of_cell name)) (Some (name_of_cell new))
            (map.get self.old.state.cells (name_of_cell new))) }
    {
        let Some(old) = self.entries.target(name) else {
            if !self.entries.holds(name) {
                return Err(dropped_mut(created_at));
            }
            return Err(dropped_mut(self.entries.details(new.slot).created_at));
        };
        if !shared {
            return Err(dropped_mut(self.entries.details(new.slot).created_at));
        }
        self.turn(name, old, new)
    }

    // Points a reference from its old target to the new one, which is shared.
    fn turn(&mut self, name: CellName, old: CellName, new: CellName) -> BorrowMutResult<()>
        requires linked { IsLinked self.old.state.cells }
        requires refers { target_name_in (map.get self.old.state.cells (name_of_cell name))
            ≡ Some (name_of_cell old) }
        requires shared { is_shared (map.get self.old.state.cells (name_of_cell new)) ≡ true }
        ensures { IfSome (location_of (map.get self.old.state.cells (name_of_cell name)))
            (λ l. IsTurned self.old.state self.new.state result (turn self.old.state
            (name_of_cell name) (name_of_cell old) (name_of_cell new) l)) }
    {
        if old == new {
            return Ok(());
        }
        let Some(ending) = self.would_end(name, Some(old)) else {
            self.redirect(name, old, new);
            return Ok(());
        };
        match self.entries.borrow_mut_error(ending.slot) {
            Ok(()) => {}
            Err(refused) => return Err(refused),
        }
        self.redirect(name, old, new);
        self.remove(ending, None, false);
        Ok(())
    }

    // Points a reference to another shared value.
    fn redirect(&mut self, name: CellName, old: CellName, new: CellName)
        requires linked { IsLinked self.old.state.cells }
        requires refers { target_name_in (map.get self.old.state.cells (name_of_cell name))
            ≡ Some (name_of_cell old) }
        requires shared { is_shared (map.get self.old.state.cells (name_of_cell new)) ≡ true }
        ensures { IfSome (location_of (map.get self.old.state.cells (name_of_cell name)))
            (λ l. self.new.state ≡ record self.old.state {
              cells = map.insert self.old.state.cells
                  (name_of_cell name) (Ref (name_of_cell new) l);
            }) }
    {
        self.entries.count_down(old.slot);
        self.entries.redirect(name.slot, new.slot);
        refer(&mut self.entries, Some(new));
    }

    /// Whether no borrow is in the way of removing a list of names. Doesn't allocate.
    pub fn may_end_all(&self, names: &[CellName]) -> bool
        requires linked { IsLinked self.now.state.cells }
        requires apart { IsDistinct is_name (list_map name_of_cell names.now) }
        ensures { result ≡ is_none (hindrance_to self.now.state (list_map name_of_cell names.now)) }
    {
        are_unborrowed_values(&self.entries, names)
            || find_blocking_value(&self.entries, names).is_none()
    }

    /// Removes the names of a list, from the first to the last, or none of them if a borrow is in the
    /// way: then the error is that of the first name that is blocked.
    pub fn end_all(&mut self, names: &[CellName]) -> BorrowMutResult<()>
        requires linked { IsLinked self.old.state.cells }
        requires apart { IsDistinct is_name (list_map name_of_cell names.now) }
        ensures { IsEndReply self.old.state self.new.state (list_map name_of_cell names.now) result }
    {
        if are_unborrowed_values(&self.entries, names) {
            self.remove_all(names);
            return Ok(());
        }
        self.end_all_slow(names)
    }

    // Removes values that aren't shared and have no borrow.
    #[inline(always)]
    fn remove_all(&mut self, names: &[CellName])
        requires linked { IsLinked self.old.state.cells }
        requires apart { IsDistinct is_name (list_map name_of_cell names.now) }
        requires unborrowed { list_all (λ n. is_unborrowed_value
            (map.get self.old.state.cells (name_of_cell n))) names.now ≡ true }
        ensures { self.new.state ≡ close self.old.state (list_map name_of_cell names.now) }
    {
        for name in names {
            self.remove(*name, None, true);
        }
    }

    // Removes the names of any list, or none of them.
    #[cold]
    #[inline(never)]
    fn end_all_slow(&mut self, names: &[CellName]) -> BorrowMutResult<()>
        requires linked { IsLinked self.old.state.cells }
        requires apart { IsDistinct is_name (list_map name_of_cell names.now) }
        ensures { IsEndReply self.old.state self.new.state (list_map name_of_cell names.now) result }
    {
        match find_blocking_borrow(&self.entries, names) {
            Ok(()) => {}
            Err(refused) => return Err(refused),
        }
        for name in names {
            self.close(*name);
        }
        Ok(())
    }
}
