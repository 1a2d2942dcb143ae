//! The sequential store.
// These definitions of the machine are unfolded at each goal without a proof file.
#![tactic(auto, unfolding(generational_core::specs::Borrowing::reach, generational_core::specs::Borrowing::refusal_to_read, generational_core::specs::Borrowing::refusal_to_write, generational_core::specs::Ending::hindrance_to, generational_core::specs::Seeing::value_in, generational_core::specs::Seeing::value_to_take))]

ghost use Rattle.std.specs.Prelude.{◌≡◌, ◌<◌, IfSome, [], true};
ghost use Rattle.std.specs.FinMap as map;
ghost use Rattle.generational_core.specs.Cells.{is_shared};
ghost use Rattle.generational_core.specs.State.{IsSound};
ghost use Rattle.generational_core.specs.Conditions.{IsBounded};
ghost use Rattle.generational_core.specs.State.{HasTargets};
ghost use Rattle.generational_core.specs.Sound.{IsSound-prop, IsBounded-prop};
ghost use Rattle.store_parts.specs.CellNames.{name_of_cell};
ghost use Rattle.store_cells.specs.Data.{data_in};
ghost use Rattle.store_cells.specs.Entry.{cell_of};
ghost use Rattle.store_cells.specs.Entries.{IsUnborrowed, kept_data, target_name_of};
ghost use Rattle.store_slots.specs.SlotsState.{FindsCell, IsMade, with_records};

mod images;

use crate::ids::{cell_name, id_in, pointer_in};
use generational_core::parts::{
    Borrow, id_read, into_reader, into_writer, owner_at, reader_at, writer_at,
};
use generational_core::{
    AnyStorage, BaseRow, BorrowError, BorrowMutError, BorrowMutResult, BorrowResult,
    GenerationalBoxId, GenerationalPointer, GenerationalRef, GenerationalRefMut, Location, Owner,
    Refusal, Refused, StepCall, Storage, StoreError,
};
use std::alloc::Global;
use std::fmt;
use std::marker::Model;
use store_cells::entry::{CellKind, StorageEntryData};
use store_parts::names::CellName;
use store_parts::owners::{OwnerRecord, OwnerRecords};
use store_parts::pool::{LastFirst, SlotPool};
use store_rows::{PackedRows, PastRows, RowCounts};
use store_slots::found::Found;
use store_slots::refusals::{dropped, dropped_mut};
use store_slots::slots::Slots;

/// A store of values of one type in recycled slots. Contracts model it as the state of the abstract
/// machine, with the proofs that the state is sound and that its slots are bounded. `P` chooses which
/// free slot is taken.
///
/// It isn't `Clone`; its maker passes it to each call.
pub struct Store<T, P: SlotPool> {
    alloc: Global,
    number: u64,
    // the next ticket
    next: u64,
    slots: Slots<T, P>,
    owners: OwnerRecords,
    ghost sound: { IsSound (with_records slots.state number owners.owners next) } by { IsSound-prop (with_records slots.state number owners.owners next) },
    ghost bounded: { IsBounded (with_records slots.state number owners.owners next) } by { IsBounded-prop (with_records slots.state number owners.owners next) },
}

/// The store that reuses the slot that was freed last.
pub type UnsyncStorage<T> = Store<T, LastFirst>;

impl<T, P: SlotPool> Model for Store<T, P> {
    ghost use base.Stored.{coded_via};
    ghost use Rattle.std.specs.Coded.{codes};
    ghost use Rattle.std.specs.FinMap as map;
    ghost use Rattle.generational_core.specs.Sound.{SoundState, same_sound};
    ghost use Rattle.store_slots.specs.SlotsState.{with_records};
    ghost use Rattle.store_parts.specs.OwnerRecords.{AreOwnersCounted};

    ghost Value = { SoundState T };

    ghost coded = { coded_via (Prim.hlevel (codes, map.code)) (λ s. s.state) same_sound };

    ghost view = { λ s. record {
      state = with_records s.slots.state s.number s.owners.owners s.next;
      sound = s.sound;
      bounded = s.bounded;
    } };

    ghost invariant = { λ s. AreOwnersCounted s.next s.owners.owners };
}

// A store is dropped in a separate function: LLVM follows few uses of a local variable, and it knows
// something of a store only while these are few.
impl<T: Drop, P: SlotPool> Drop for Store<T, P> {
    #[cold]
    #[inline(never)]
    fn drop(self) {
        let Store {
            alloc: _,
            number: _,
            next: _,
            slots,
            owners,
        } = self;
        drop(slots);
        drop(owners);
    }
}

/// Where a store's numbers begin.
#[derive(Clone, Copy, Debug, PartialEq, Eq)]
pub struct Numbers {
    /// The generation of a slot's first cell.
    pub generation: u64,
    /// The first ticket.
    pub ticket: u64,
}

impl<T, P: SlotPool> Store<T, P> {
    ghost use Rattle.std.specs.Prelude.{◌≡◌, ◌≤◌};
    ghost use Rattle.generational_core.specs.Conditions.{fresh};

    /// An empty store with this number, which its maker chooses, and which tells its boxes from those of
    /// other stores. Generations begin at 1, and tickets at 0. Doesn't allocate.
    ///
    /// ```rust
    /// let mut store = UnsyncStorage::new(alloc, 1);
    /// ```
    // Not inlined, nor is a store's drop: see its `Drop`.
    #[inline(never)]
    pub fn new(alloc: Global, number: u64) -> Self
        ensures { result.state ≡ fresh number 1 0 }
    {
        Self::new_at(
            alloc,
            number,
            Numbers {
                generation: 1,
                ticket: 0,
            },
        )
    }

    /// An empty store with other first numbers, to test what happens when they are used up. Doesn't
    /// allocate.
    ///
    /// ```rust
    /// let numbers = Numbers {
    ///     generation: u64::MAX,
    ///     ticket: 0,
    /// };
    /// Store::new_at(alloc, 1, numbers)
    /// ```
    pub fn new_at(alloc: Global, number: u64, numbers: Numbers) -> Self
        requires { 1 ≤ numbers.generation }
        ensures { result.state ≡ fresh number numbers.generation numbers.ticket }
    {
        Store {
            alloc,
            number,
            next: numbers.ticket,
            slots: Slots::new(alloc, numbers.generation),
            owners: OwnerRecords::new(alloc),
        }
    }
}

impl<T: Drop, P: SlotPool> Store<T, P> {
    ghost use Rattle.std.specs.Prelude.{◌≡◌, IfErr, IfOk};
    ghost use Rattle.generational_core.specs.Plain.{plain};
    ghost use Rattle.generational_core.specs.Rows.{ReadBack, rows_of};
    ghost use Rattle.store_rows.specs.Past.{ArePast};
    ghost use Rattle.generational_errors.specs.declared.error.StoreError.TheVariants.{OutOfMemory};

    /// Reserves exact capacity for this many more cells, if there isn't enough. After it so many
    /// insertions without an owner don't allocate; a shared value counts as two cells. Their contracts
    /// don't say so, since they allow an error whenever no slot is free: it is proved of the underlying
    /// slots, and tested. Allocates if there isn't enough capacity, and then takes O(n) time for n slots,
    /// which are moved.
    ///
    /// # Errors
    ///
    /// `OutOfMemory` only. The state is unchanged in either case.
    ///
    /// Upstream has no such call.
    ///
    /// ```rust
    /// store.reserve(1).ok()?;
    /// ```
    pub fn reserve(&mut self, more: usize) -> Result<(), StoreError>
        ensures state { self.new.state ≡ self.old.state }
        ensures cause { IfErr result (λ error. error ≡ OutOfMemory) }
    {
        self.slots.reserve(more)
    }

    /// The rows of the store, packed: those that `rows` returns, in the same order. The shared store's
    /// checkpoint calls it with the rows of an earlier state: their memory is reused, and the entry of a
    /// free slot, or of a value that isn't borrowed, isn't written again if it is unchanged.
    ///
    /// It changes nothing, and takes time for each slot, each borrow, each record of an owner and each
    /// box of its list. Allocates for each of these for which there is no room.
    ///
    /// # Errors
    ///
    /// `OutOfMemory` only.
    pub fn pack_rows(&self, past: PackedRows) -> Result<PackedRows, StoreError>
        requires { ArePast (plain self.now.state) past }
        ensures rows { IfOk result (λ rows. rows ≡ rows_of self.now.state) }
        ensures back { IfOk result (λ rows. ReadBack self.now.state rows) }
        ensures cause { IfErr result (λ error. error ≡ OutOfMemory) }
    {
        let PastRows {
            mut slots,
            mut whole,
            owners,
        } = past.into_past();
        self.slots.pack_rows(self.number, &mut slots, &mut whole)?;
        let owners = self.owners.pack(owners)?;
        Ok(PackedRows::of(self.number, slots, whole, owners))
    }

    /// For how many slots, records of owners and names on their lists rows need room. Whole rows, which
    /// borrows and references have, aren't counted.
    pub fn row_counts(&self) -> RowCounts {
        let (owners, names) = self.owners.counts();
        RowCounts {
            slots: self.slots.counts().slots,
            whole: 0,
            owners,
            names,
        }
    }

    /// Packs a range of slots ahead of the rest, over rows that were packed in an earlier state. So
    /// `pack_rows` needn't write those of them that don't change until then. Returns such rows; which of
    /// them were packed, no clause says. Takes time for each of these slots, and allocates if they have
    /// no room.
    ///
    /// # Errors
    ///
    /// `OutOfMemory` only; the rows that were passed in are dropped then.
    pub fn pack_ahead(
        &self,
        past: PackedRows,
        from: usize,
        to: usize,
    ) -> Result<PackedRows, StoreError>
        requires { ArePast (plain self.now.state) past }
        ensures past { IfOk result (λ rows. ArePast (plain self.now.state) rows) }
        ensures cause { IfErr result (λ error. error ≡ OutOfMemory) }
    {
        let PastRows {
            mut slots,
            whole,
            owners,
        } = past.into_past();
        self.slots.pack_ahead(&mut slots, from, to)?;
        Ok(PackedRows::of(self.number, slots, whole, owners))
    }
}

/// Prints `store NUMBER: SLOTS slots, FREE free`.
impl<T: Drop, P: SlotPool> fmt::Debug for Store<T, P> {
    ghost use Rattle.std.specs.Prelude.{Some};
    ghost use Rattle.generational_core.specs.Texts.{store_text};

    ghost debug_output = { λ s. Some (store_text s.state) };

    fn fmt<W: fmt::Write>(&self, f: &mut fmt::Formatter<W>) -> fmt::Result {
        let counts = self.slots.counts();
        write!(
            f,
            "store {}: {} slots, {} free",
            self.number, counts.slots, counts.free
        )
    }
}

impl<T: Drop, P: SlotPool> AnyStorage<T> for Store<T, P> {
    ghost state = { λ s. s.state };

    ghost sound = { λ s. s.sound };

    ghost bounded = { λ s. s.bounded };

    #[inline(always)]
    fn number(&self) -> u64 {
        self.number
    }

    fn is_fresh(&self) -> bool {
        self.slots.is_fresh() && self.owners.is_empty()
    }

    fn slots(&self) -> usize {
        self.slots.counts().slots
    }

    fn free(&self) -> usize {
        self.slots.counts().free
    }

    fn len(&self) -> usize {
        let counts = self.slots.counts();
        counts.slots - counts.free - counts.retired
    }

    fn retired(&self) -> usize {
        self.slots.counts().retired
    }

    fn peak_live(&self) -> usize {
        self.slots.counts().peak_live
    }

    fn tickets_left(&self) -> u64 {
        u64::MAX - self.next
    }

    fn data_ptr(&self, pointer: GenerationalPointer) -> usize {
        pointer.id.slot
    }

    fn owner(&mut self) -> Result<Owner, StoreError> {
        let key = self.next;
        if key == u64::MAX {
            return Err(StoreError::NumbersExhausted);
        }
        match self.owners.add(self.alloc, key) {
            Ok(position) => {
                self.next = key + 1;
                Ok(owner_at(self.number, key, position))
            }
            Err(_) => Err(StoreError::OutOfMemory),
        }
    }

    fn clone_owner(&mut self, owner: &Owner) -> Result<Owner, StoreError> {
        let ticket = self.next;
        let position = match self.owners.find(self.number, owner) {
            Some((position, _)) => position,
            None => return Err(StoreError::UnknownOwner),
        };
        if ticket == u64::MAX {
            return Err(StoreError::NumbersExhausted);
        }
        self.owners.count_up(position);
        self.next = ticket + 1;
        Ok(owner_at(self.number, owner.id().key, position))
    }

    fn release_owner(&mut self, owner: Owner) -> Result<(), (Owner, Refused<BorrowMutError>)> {
        let (position, record) = match self.owners.find(self.number, &owner) {
            Some(found) => found,
            None => return Err((owner, Refused::Store(StoreError::UnknownOwner))),
        };
        if record.count() > 1 {
            self.owners.count_down(position);
            owner.leak();
            return Ok(());
        }
        if let Err(refused) = self.slots.end_all(record.boxes()) {
            return Err((owner, refused));
        }
        self.owners.remove(position);
        owner.leak();
        Ok(())
    }

    fn ready(&self, call: &StepCall) -> bool {
        match *call {
            StepCall::LeakReference(pointer) | StepCall::Read(pointer, _) => {
                self.may_read(pointer)
            }
            StepCall::InsertReference(owner, pointer) => {
                self.may_read(pointer) || self.owners.find_id(self.number, owner).is_none()
            }
            StepCall::Write(pointer, _) => self.may_write(pointer),
            StepCall::Set(pointer) => self.may_write(pointer),
            StepCall::ManuallyDrop(pointer) => self.may_end(pointer),
            StepCall::PointTo(pointer, other) => self.may_point(pointer, other),
            StepCall::ReleaseOwner(owner) => {
                let record = self.owners.find_id(self.number, owner);
                self.may_end_record(record)
            }
            _ => true,
        }
    }

    fn may_release(&self, owner: &Owner) -> bool {
        match self.owners.find(self.number, owner) {
            Some((_, record)) => self.may_end_record(Some(record)),
            None => true,
        }
    }

    fn target(&self, pointer: GenerationalPointer) -> Option<GenerationalBoxId> {
        let name = self.slots.target(self.own(pointer.id)?)?;
        Some(id_in(self.number, name))
    }

    fn find(&self, id: GenerationalBoxId) -> Option<GenerationalPointer> {
        let name = self.own(id)?;
        let created_at = self.slots.find(name)?;
        Some(pointer_in(self.number, name, created_at))
    }

    fn rows(&self) -> Result<Vec<BaseRow>, StoreError> {
        let packed = self.pack_rows(PackedRows::new(self.alloc))?;
        Ok(packed.to_vec(self.alloc)?)
    }

    #[inline(always)]
    fn can_read(&self, pointer: GenerationalPointer) -> bool {
        match self.look(pointer) {
            Found::Nothing => false,
            Found::Unborrowed(_) => true,
            Found::Read(_) => true,
            Found::Lent(_) => false,
        }
    }

    #[inline(always)]
    fn is_live(&self, pointer: GenerationalPointer) -> bool {
        match self.own(pointer.id) {
            Some(name) => self.slots.is_live(name),
            None => false,
        }
    }

    #[inline(always)]
    fn can_write(&self, pointer: GenerationalPointer) -> bool {
        match self.look(pointer) {
            Found::Nothing => false,
            Found::Unborrowed(_) => true,
            Found::Read(_) => false,
            Found::Lent(_) => false,
        }
    }

    #[inline(always)]
    fn recycle(&mut self, pointer: GenerationalPointer) -> BorrowMutResult<()> {
        match self.own(pointer.id) {
            Some(name) => self.slots.end(name),
            None => Ok(()),
        }
    }
}

impl<T: Drop, P: SlotPool> Storage<T> for Store<T, P> {
    ghost use Rattle.generational_core.specs.Machine.Action.{ReleaseReader, ReleaseWriter};
    ghost use Rattle.generational_core.specs.Machine.Answer.{Flag};
    ghost use Rattle.generational_core.specs.Steps.{Meets};
    ghost use Rattle.generational_core.specs.Answers.{back_answer};

    #[inline(always)]
    fn new(
        &mut self,
        value: T,
        location: Location,
        owner: Option<&Owner>,
    ) -> Result<GenerationalPointer, Refusal<T>> {
        let position = match self.owners.reserve(self.number, owner) {
            Ok(position) => position,
            Err(cause) => return Err(Refusal { value, cause }),
        };
        let content = StorageEntryData::Data(value);
        let name = match self.slots.make(content, location) {
            Ok(name) => name,
            Err(content) => {
                let (value, cause) = (content.into_value(), StoreError::OutOfMemory);
                return Err(Refusal { value, cause });
            }
        };
        self.owners.list(position, name);
        Ok(pointer_in(self.number, name, location))
    }

    fn new_rc(
        &mut self,
        value: T,
        location: Location,
        owner: Option<&Owner>,
    ) -> Result<GenerationalPointer, Refusal<T>> {
        let position = match self.owners.reserve(self.number, owner) {
            Ok(position) => position,
            Err(cause) => return Err(Refusal { value, cause }),
        };
        if let Err(cause) = self.slots.reserve_two() {
            return Err(Refusal { value, cause });
        }
        let content = StorageEntryData::Shared(value);
        let shared = make_reserved(&mut self.slots, content, location);
        let content = self.slots.reference_to(shared);
        let reference = make_reserved(&mut self.slots, content, location);
        self.owners.list(position, reference);
        Ok(pointer_in(self.number, reference, location))
    }

    fn new_reference(
        &mut self,
        inner: GenerationalPointer,
        owner: Option<&Owner>,
    ) -> BorrowResult<GenerationalPointer> {
        if !self.knows(owner) {
            return Err(Refused::Store(StoreError::UnknownOwner));
        }
        let Some(name) = self.own(inner.id) else {
            return Err(Refused::Borrow(dropped(inner.created_at)));
        };
        let shared = match self.slots.shared(name, inner.created_at) {
            Ok(shared) => shared,
            Err(error) => return Err(Refused::Borrow(error)),
        };
        let position = match self.owners.reserve(self.number, owner) {
            Ok(position) => position,
            Err(cause) => return Err(Refused::Store(cause)),
        };
        let created_at = self.slots.created_at(shared);
        let content = self.slots.reference_to(shared);
        let name = match self.slots.make(content, created_at) {
            Ok(name) => name,
            Err(_) => return Err(Refused::Store(StoreError::OutOfMemory)),
        };
        self.owners.list(position, name);
        // Read from the new cell, so that the location needn't be kept while the cell is made.
        Ok(pointer_in(self.number, name, self.slots.created_at(name)))
    }

    fn change_reference(
        &mut self,
        pointer: GenerationalPointer,
        other: GenerationalPointer,
    ) -> BorrowMutResult<()> {
        if pointer == other {
            return Ok(());
        }
        let Some(name) = self.own(other.id) else {
            return Err(dropped_mut(other.created_at));
        };
        let (new, shared) = match self.slots.unlent(name, other.created_at) {
            Ok(found) => found,
            Err(error) => return Err(Refused::Borrow(BorrowMutError::from(error))),
        };
        let Some(name) = self.own(pointer.id) else {
            return Err(dropped_mut(pointer.created_at));
        };
        self.slots.point(name, pointer.created_at, new, shared)
    }

    #[inline(always)]
    fn try_read(
        &mut self,
        pointer: GenerationalPointer,
        location: Location,
    ) -> BorrowResult<GenerationalRef<T>> {
        self.slots.list_noted();
        let Some(name) = self.own(pointer.id) else {
            return Err(Refused::Borrow(dropped(pointer.created_at)));
        };
        if self.next == u64::MAX {
            return Err(self.refusal_to_read(pointer));
        }
        match self.slots.readable(name, pointer.created_at) {
            Ok((name, is_unborrowed)) => self.begin_read(pointer, name, location, is_unborrowed),
            Err(error) => Err(Refused::Borrow(error)),
        }
    }

    #[inline(always)]
    fn try_write(
        &mut self,
        pointer: GenerationalPointer,
        location: Location,
    ) -> BorrowMutResult<GenerationalRefMut<T>> {
        self.list_noted();
        let Some(name) = self.own(pointer.id) else {
            return Err(dropped_mut(pointer.created_at));
        };
        match self.slots.writable(name, pointer.created_at) {
            Ok(name) => self.begin_write(pointer, name, location),
            Err(refused) => Err(refused),
        }
    }

    #[inline(always)]
    fn replace_value(&mut self, pointer: GenerationalPointer, value: T) -> T {
        self.slots.replace(cell_name(pointer.id), value)
    }

    #[inline(always)]
    fn change_value<R, F: FnOnce(&mut T) -> R>(&mut self, pointer: GenerationalPointer, f: F) -> R {
        self.slots.change(cell_name(pointer.id), f)
    }

    fn take_value(&mut self, pointer: GenerationalPointer) -> Option<T> {
        match self.own(pointer.id) {
            Some(name) => self.slots.take_value(name),
            None => None,
        }
    }

    #[inline(always)]
    fn release_write(&mut self, guard: GenerationalRefMut<T>) -> Result<(), T>
        ensures { Meets self.old.state (ReleaseWriter guard.guard guard.value)
            (back_answer result) self.new.state }
    {
        let (id, ticket, value) = into_writer(guard);
        match self.own(id) {
            Some(name) => self.slots.release_write(name, ticket, value),
            None => Err(value),
        }
    }

    #[inline(always)]
    fn peek(&self, pointer: GenerationalPointer) -> Option<&T> {
        match self.own(pointer.id) {
            Some(name) => self.slots.peek(name),
            None => None,
        }
    }

    #[inline(always)]
    fn open(&self, guard: &GenerationalRef<T>) -> Option<&T> {
        match self.own(id_read(guard)) {
            Some(name) => self.slots.open(name, guard.ticket()),
            None => None,
        }
    }

    #[inline(always)]
    fn release_read(&mut self, guard: GenerationalRef<T>) -> bool
        ensures { Meets self.old.state (ReleaseReader guard) (Flag result) self.new.state }
    {
        let (id, ticket) = into_reader(guard);
        match self.own(id) {
            Some(name) => self.slots.release_read(name, ticket),
            None => false,
        }
    }
}

// What the calls check and do.
impl<T: Drop, P: SlotPool> Store<T, P> {
    ghost use Rattle.std.specs.Prelude.{◌≡◌, ◌<◌, true, None, Some, option_copied};
    ghost use Rattle.std.specs.Prelude.{if◌then◌else◌, nat_eq, not, option_map};
    ghost use Rattle.std.specs.List.{IsDistinct};
    ghost use Rattle.generational_core.specs.Answers.{read_answer, read_refused, write_answer};
    ghost use Rattle.generational_core.specs.Boxes.{name_in};
    ghost use Rattle.generational_core.specs.Borrowing.{reach, read_refusal, write_refusal};
    ghost use Rattle.generational_core.specs.Borrowing.{refusal_to_read, refusal_to_write};
    ghost use Rattle.generational_core.specs.Cells.{content_of};
    ghost use Rattle.generational_core.specs.Ending.{hindrance_to};
    ghost use Rattle.generational_core.specs.Machine.{OwnerName, cell_at, is_known, own_name};
    ghost use Rattle.generational_core.specs.Machine.{ownership};
    ghost use Rattle.generational_core.specs.Machine.Action.{Point, Read, ReleaseOwner, Write};
    ghost use Rattle.generational_core.specs.Names.{is_name};
    ghost use Rattle.generational_core.specs.StepCalls.{meets_no_borrow, may_set, tells_of_borrow};
    ghost use Rattle.generational_core.specs.State.{content_at};
    ghost use Rattle.generational_core.specs.Steps.{Meets, last_ticket};
    ghost use Rattle.store_parts.specs.CellNames.{name_of_cell};

    // The name in an id, exactly if the id is of this store.
    #[inline(always)]
    fn own(&self, id: GenerationalBoxId) -> Option<CellName>
        ensures { option_map name_of_cell result
            ≡ (if nat_eq id.store self.now.state.number then Some (name_in id) else None) }
    {
        if id.store != self.number {
            return None;
        }
        Some(cell_name(id))
    }

    // What the box refers to, and its borrow.
    #[inline(always)]
    fn look(&self, pointer: GenerationalPointer) -> Found
        ensures { FindsCell self.now.state.cells (reach self.now.state pointer) result }
    {
        match self.own(pointer.id) {
            Some(name) => self.slots.look(name),
            None => Found::Nothing,
        }
    }

    // Whether the value that the box refers to, if any, isn't being written.
    fn may_read(&self, pointer: GenerationalPointer) -> bool
        ensures { result ≡ not (tells_of_borrow (refusal_to_read self.now.state pointer)) }
    {
        match self.look(pointer) {
            Found::Nothing => true,
            Found::Unborrowed(_) => true,
            Found::Read(_) => true,
            Found::Lent(_) => false,
        }
    }

    // Whether the value that the box refers to, if any, isn't borrowed.
    fn may_write(&self, pointer: GenerationalPointer) -> bool
        ensures write { result ≡ not (tells_of_borrow (refusal_to_write self.now.state pointer)) }
        ensures set { result ≡ may_set (reach self.now.state pointer)
            (content_of (cell_at self.now.state (reach self.now.state pointer))) }
    {
        match self.look(pointer) {
            Found::Nothing => true,
            Found::Unborrowed(_) => true,
            Found::Read(_) => false,
            Found::Lent(_) => false,
        }
    }

    // Whether no borrow is in the way of removing the box's cell.
    fn may_end(&self, pointer: GenerationalPointer) -> bool
        ensures { result
            ≡ not (tells_of_borrow (hindrance_to self.now.state (own_name self.now.state pointer))) }
    {
        match self.own(pointer.id) {
            Some(name) => self.slots.may_end(name),
            None => true,
        }
    }

    // Whether no borrow is in the way of pointing a box to what another refers to.
    fn may_point(&self, pointer: GenerationalPointer, other: GenerationalPointer) -> bool
        ensures { result ≡ meets_no_borrow self.now.state (Point pointer other) }
    {
        if pointer == other {
            return true;
        }
        let Some(name) = self.own(other.id) else {
            return true;
        };
        let (new, shared) = match self.slots.unlent(name, other.created_at) {
            Ok(found) => found,
            Err(BorrowError::AlreadyBorrowedMut(_)) => return false,
            Err(BorrowError::Dropped(_)) => return true,
        };
        let Some(name) = self.own(pointer.id) else {
            return true;
        };
        self.slots.may_point(name, new, shared)
    }

    // Whether no borrow is in the way of releasing an owner value of a record, if the store has it.
    fn may_end_record(&self, held: Option<&OwnerRecord>) -> bool
        requires { IfSome (option_copied held) (λ r. IsDistinct is_name r.ownership.names) }
        ensures { (o : OwnerName)
            → option_map (λ r. r.ownership) (option_copied held.entry) ≡ ownership self.now.state o
            → result ≡ meets_no_borrow self.now.state (ReleaseOwner o) }
    {
        match held {
            Some(record) if record.count() <= 1 => self.slots.may_end_all(record.boxes()),
            _ => true,
        }
    }

    // Whether the store knows the owner, if there is one.
    fn knows(&self, owner: Option<&Owner>) -> bool
        ensures { result ≡ is_known self.now.state (option_copied owner.entry) }
    {
        self.owners.permits(self.number, owner)
    }

    // Why a read fails if the tickets are used up.
    #[cold]
    #[inline(never)]
    fn refusal_to_read(&self, pointer: GenerationalPointer) -> Refused<BorrowError>
        requires { self.now.state.next ≡ last_ticket }
        ensures { (location : Location) → Meets self.now.state (Read pointer location)
            (read_refused result) self.now.state }
    {
        let Some(name) = self.own(pointer.id) else {
            return Refused::Borrow(dropped(pointer.created_at));
        };
        let found = self.slots.readable(name, pointer.created_at);
        match found {
            Ok(_) => Refused::Store(StoreError::NumbersExhausted),
            Err(error) => Refused::Borrow(error),
        }
    }

    // Begins a read of the value that the box refers to and that isn't being written.
    #[inline(always)]
    fn begin_read(
        &mut self,
        pointer: GenerationalPointer,
        name: CellName,
        location: Location,
        is_unborrowed: bool,
    ) -> BorrowResult<GenerationalRef<T>>
        requires to { reach self.old.state pointer ≡ Some (name_of_cell name) }
        requires left { self.old.state.next < last_ticket }
        requires free { read_refusal (content_at self.old.state (name_of_cell name)) ≡ None }
        requires alone { is_unborrowed ≡ true
            → write_refusal (content_at self.old.state (name_of_cell name)) ≡ None }
        ensures { Meets self.old.state (Read pointer location) (read_answer result) self.new.state }
    {
        let ticket = self.next;
        let borrow = Borrow { ticket, location };
        match self.slots.begin_read(name, borrow, is_unborrowed) {
            Ok(()) => {
                self.next = ticket + 1;
                Ok(reader_at(id_in(self.number, name), ticket))
            }
            Err(_) => Err(Refused::Store(StoreError::OutOfMemory)),
        }
    }

    // Moves the noted borrow, if there is one, to a list. Nothing that contracts model changes. The
    // number is written back afterwards: LLVM assumes that the holder of a part of the store may write
    // all of it, and would load the number again.
    #[inline(always)]
    fn list_noted(&mut self)
        ensures { self.new.state ≡ self.old.state }
    {
        if !self.slots.has_noted() {
            return;
        }
        let number = self.number;
        self.slots.list_noted();
        self.number = number;
    }

    // Begins a write of the value that the box refers to and that isn't borrowed.
    #[inline(always)]
    fn begin_write(
        &mut self,
        pointer: GenerationalPointer,
        name: CellName,
        location: Location,
    ) -> BorrowMutResult<GenerationalRefMut<T>>
        requires to { reach self.old.state pointer ≡ Some (name_of_cell name) }
        requires free { write_refusal (content_at self.old.state (name_of_cell name)) ≡ None }
        ensures { Meets self.old.state (Write pointer location) (write_answer result) self.new.state }
    {
        let ticket = self.next;
        if ticket == u64::MAX {
            return Err(Refused::Store(StoreError::NumbersExhausted));
        }
        let value = self.slots.begin_write(name, Borrow { ticket, location });
        self.next = ticket + 1;
        Ok(writer_at(id_in(self.number, name), ticket, value))
    }
}

// Makes a cell for which there is room.
fn make_reserved<T: Drop, P: SlotPool>(
    slots: &mut Slots<T, P>,
    content: StorageEntryData<T>,
    created_at: Location,
) -> CellName
    requires room { 0 < slots.old.spare }
    requires unborrowed { IsUnborrowed (data_in content) }
    requires target { IfSome (target_name_of (data_in content))
        (λ m. is_shared (map.get slots.old.state.cells m) ≡ true) }
    requires linked { HasTargets slots.old.state.cells }
    ensures { IsMade slots.old slots.new (cell_of (kept_data [] created_at (data_in content)))
        (name_of_cell result) }
{
    match slots.make(content, created_at) {
        Ok(name) => name,
        Err(_) => unreachable!(),
    }
}
