//! A store's records of owners.

ghost use Rattle.std.specs.Prelude.{◌≡◌, ℕ, ◌<◌, ◌↔◌, [], true};
ghost use Rattle.std.specs.Prelude.{Option, Some, None, IfSome, IfNone, IsTrue, IfErr, IfOk};
ghost use Rattle.std.specs.Prelude.{length, slice_get, OnOk, OnErr};
ghost use Rattle.std.specs.Prelude.{option_copied, option_map, is_some, map as list_map};
ghost use Rattle.std.specs.FinMap as map;
ghost use Rattle.generational_core.specs.State.{one_more, one_less, one_listed};
ghost use Rattle.generational_core.specs.StepCalls.{owner_of};
ghost use Rattle.generational_core.specs.Names.{change};
ghost use Rattle.store_parts.specs.CellNames.{name_of_cell};
ghost use Rattle.store_parts.specs.OwnerRecords.{knows, permits, record_of};
ghost use Rattle.store_parts.specs.OwnerRecords.{add_to_list_in, IsRefusal};
ghost use Rattle.store_parts.specs.KeptRecords.{with_ownership, with_rooms};
ghost use Rattle.store_parts.specs.KeptRecords.{change_ownership, change_record, owner_key_in, rooms_in};
ghost use Rattle.store_parts.specs.KeptRecords.{HasNameRoom, IsFilled, IsFilledWith, IsReserved};
ghost use Rattle.generational_core.specs.Machine.{OwnerName};
ghost use Rattle.store_parts.specs.KeptRecords.{owners_of};
ghost use Rattle.store_parts.specs.KeptRecords.{record_at, HasRecord};

mod packed;
mod rows;

use crate::names::CellName;
use crate::pool::{LastFirst, SlotPool, make_room};
use generational_core::parts::{number_of, place_of};
use generational_core::{Owner, OwnerId, StoreError};
pub use packed::PackedOwners;
use std::alloc::{AllocError, Global};
use std::marker::Model;
use store_room::reserve_more;

/// An owner's record: its boxes in order of insertion, and its number of owner values. Contracts model it
/// with its key.
#[derive(Drop)]
pub struct OwnerRecord {
    key: u64,
    boxes: Vec<CellName>,
    count: u64,
}

impl Model for OwnerRecord {
    ghost use Rattle.std.specs.Prelude.{map as list_map, vec_capacity};
    ghost use Rattle.store_parts.specs.KeptRecords.{KeyedOwnership};
    ghost use Rattle.store_parts.specs.CellNames.{name_of_cell};

    ghost Value = { KeyedOwnership };

    ghost view = { λ r. record {
      key = r.key;
      ownership = record { names = list_map name_of_cell r.boxes.items; count = r.count };
      rooms = vec_capacity r.boxes;
    } };
}

impl OwnerRecord {
    // A record without boxes, for one owner value. Doesn't allocate.
    fn new(alloc: Global, key: u64) -> OwnerRecord
        ensures key { result.key ≡ key }
        ensures held { result.ownership ≡ record { names = []; count = 1 } }
    {
        OwnerRecord {
            key,
            boxes: Vec::new(alloc),
            count: 1,
        }
    }

    // Its key.
    #[inline(always)]
    fn key(&self) -> u64
        ensures { result ≡ self.now.key }
    {
        self.key
    }

    /// Its number of owner values.
    #[inline(always)]
    pub fn count(&self) -> u64
        ensures { result ≡ self.now.ownership.count }
    {
        self.count
    }

    /// Its boxes.
    pub fn boxes(&self) -> &[CellName]
        ensures { list_map name_of_cell result.now ≡ self.now.ownership.names }
    {
        self.boxes.as_slice()
    }

    // Reserves room for another box on the list.
    #[inline(always)]
    fn reserve(&mut self) -> Result<(), AllocError>
        ensures same { self.new ≡ with_rooms self.new.rooms self.old }
        ensures ok { OnOk result (length self.new.ownership.names < self.new.rooms) }
    {
        reserve_more(&mut self.boxes, 1)
    }

    // Puts a box at the end of the list, which must have room.
    #[inline(always)]
    fn list(&mut self, name: CellName)
        requires { length self.old.ownership.names < self.old.rooms }
        ensures { self.new ≡ with_ownership (one_listed (name_of_cell name)) self.old }
    {
        self.boxes.push_reserved(name);
    }

    // Counts another owner value.
    fn count_up(&mut self)
        requires { self.old.ownership.count < 18446744073709551615 }
        ensures { self.new ≡ with_ownership one_more self.old }
    {
        self.count += 1;
    }

    // One owner value less.
    fn count_down(&mut self)
        requires { 0 < self.old.ownership.count }
        ensures { self.new ≡ with_ownership one_less self.old }
    {
        self.count -= 1;
    }
}

/// The records of a store's owners. Contracts model them as a map by their keys.
///
/// Each stays at its position until it is removed, and an owner carries that position as a hint. So an owner of
/// this very store is looked up in one step. All positions are searched only for an owner that another
/// store with the same number made, since the number is compared first.
#[derive(Drop)]
pub struct OwnerRecords {
    records: Vec<Option<OwnerRecord>>,
    // the positions without a record
    vacant: LastFirst,
}

impl Model for OwnerRecords {
    ghost use Rattle.std.specs.Coded.{codes};
    ghost use Rattle.std.specs.FinMap as map;
    ghost use Rattle.store_parts.specs.KeptRecords.{owners_of, AreSoundRecords, KeptOwners};
    ghost use Rattle.store_parts.specs.Pools.{members_of};

    ghost Value = { KeptOwners };

    ghost coded = { Prim.hlevel (codes, map.code) };

    ghost view = { λ r. record { owners = owners_of r.records.items; records = r.records.items } };

    ghost invariant = { λ r. AreSoundRecords (members_of r.vacant) r.vacant.rooms r.records.items };
}

impl OwnerRecords {
    /// No records. Doesn't allocate.
    pub fn new(alloc: Global) -> OwnerRecords
        ensures { result.owners ≡ map.empty }
    {
        OwnerRecords {
            records: Vec::new(alloc),
            vacant: LastFirst::new(alloc),
        }
    }

    /// Whether there is no record. Checks all positions.
    pub fn is_empty(&self) -> bool
        ensures { IsTrue result ↔ (self.now.owners ≡ map.empty) }
    {
        are_vacant(self.records.as_slice())
    }

    /// The position of the owner's record, and the record, if the owner is of a store with this number
    /// and these records.
    #[inline(always)]
    pub fn find(&self, number: u64, owner: &Owner) -> Option<(usize, &OwnerRecord)>
        ensures record { option_map (λ found. found.1.now.ownership) result
            ≡ record_of number self.now.owners owner.now }
        ensures position { IfSome result (λ found.
            slice_get self.now.records found.0 ≡ Some (Some found.1.now)) }
        ensures key { IfSome result (λ found. found.1.now.key ≡ owner.now.key) }
    {
        if number_of(owner) != number {
            return None;
        }
        let position = match find_position(&self.records, owner) {
            Some(position) => position,
            None => return None,
        };
        match &self.records[position] {
            Some(record) => Some((position, record)),
            None => unreachable!(),
        }
    }

    /// The record of an owner's id, if it is of a store with this number and these records. An id has no
    /// hint of its record's position, so all are searched.
    pub fn find_id(&self, number: u64, id: OwnerId) -> Option<&OwnerRecord>
        ensures { option_map (λ r. r.ownership) (option_copied result) ≡
            record_of number self.now.owners (owner_of id) }
    {
        if id.store != number {
            return None;
        }
        match search_position(&self.records, id.key) {
            Some(position) => self.records[position].as_ref(),
            None => None,
        }
    }

    /// Whether the owner is of a store with this number and these records.
    pub fn knows(&self, number: u64, owner: &Owner) -> bool
        ensures { result ≡ knows number self.now.owners owner.now }
    {
        self.find(number, owner).is_some()
    }

    /// Whether a call with this owner, or without one, may go on.
    #[inline(always)]
    pub fn permits(&self, number: u64, owner: Option<&Owner>) -> bool
        ensures { result ≡ permits number self.now.owners (option_copied owner.entry) }
    {
        match owner {
            None => true,
            Some(owner) => self.knows(number, owner),
        }
    }

    /// Reserves room for another box on the owner's list, if there is an owner. Returns the position of its
    /// record. No record changes.
    #[inline(always)]
    pub fn reserve(
        &mut self,
        number: u64,
        owner: Option<&Owner>,
    ) -> Result<Option<usize>, StoreError>
        ensures same { self.new.owners ≡ self.old.owners }
        ensures known { OnOk result (permits number self.old.owners (option_copied owner.entry)
            ≡ true) }
        ensures ok { IfOk result (λ position. IsReserved self.new (option_copied owner.entry) position) }
        ensures refused { IfErr result (λ cause. IsRefusal number self.old.owners
            (option_copied owner.entry) cause) }
    {
        match owner {
            None => Ok(None),
            Some(owner) => self.reserve_for(number, owner),
        }
    }

    // Reserves room for a name in the list of an owner, and returns the position of its record.
    fn reserve_for(&mut self, number: u64, owner: &Owner) -> Result<Option<usize>, StoreError>
        ensures same { self.new.owners ≡ self.old.owners }
        ensures known { OnOk result (knows number self.old.owners owner.now ≡ true) }
        ensures ok { IfOk result (λ position. IsReserved self.new (Some owner.now) position) }
        ensures refused { IfErr result (λ cause. IsRefusal number self.old.owners
            (Some owner.now) cause) }
    {
        let position = match self.find(number, owner) {
            Some((position, _)) => position,
            None => return Err(StoreError::UnknownOwner),
        };
        match reserve_at(&mut self.records, position) {
            Ok(()) => {}
            Err(_) => return Err(StoreError::OutOfMemory),
        }
        Ok(Some(position))
    }

    /// Puts a box at the end of the list of the record at a position, which must have room for it, if an
    /// position is passed.
    #[inline(always)]
    pub fn list(&mut self, position: Option<usize>, name: CellName)
        requires { IfSome position (λ i. HasNameRoom (slice_get self.old.records i)) }
        ensures { (o : Option OwnerName) → IsReserved self.old o position
            → self.new.owners ≡ add_to_list_in self.old.owners o (name_of_cell name) }
    {
        if let Some(position) = position {
            list_at(&mut self.records, position, name);
        }
    }

    /// Adds a record for one owner value under a key that has none, and returns its position. If an
    /// allocation fails, no record changes.
    pub fn add(&mut self, alloc: Global, key: u64) -> Result<usize, AllocError>
        requires { map.get self.old.owners key ≡ None }
        ensures ok { OnOk result (self.new.owners ≡ map.insert self.old.owners key
            (record { names = []; count = 1 })) }
        ensures position { IfOk result (λ position.
            HasRecord key (slice_get self.new.records position)) }
        ensures err { OnErr result (self.new.owners ≡ self.old.owners) }
    {
        let added = OwnerRecord::new(alloc, key);
        match self.vacant.take() {
            Some(position) => {
                self.records[position] = Some(added);
                Ok(position)
            }
            None => {
                match make_room(&mut self.records, &mut self.vacant) {
                    Ok(()) => {}
                    Err(_) => return Err(AllocError),
                }
                let position = self.records.len();
                self.records.push_reserved(Some(added));
                Ok(position)
            }
        }
    }

    /// Removes the record at a position, with its list. Doesn't allocate.
    pub fn remove(&mut self, position: usize)
        requires { IsFilled (slice_get self.old.records position) }
        ensures { self.new.owners
            ≡ map.remove self.old.owners (owner_key_in (slice_get self.old.records position)) }
    {
        self.records[position] = None;
        self.vacant.put(position);
    }

    /// Counts another owner value of the record at a position.
    pub fn count_up(&mut self, position: usize)
        requires { IsFilledWith (λ r. r.ownership.count < 18446744073709551615)
            (slice_get self.old.records position) }
        ensures { self.new.owners
            ≡ change self.old.owners (owner_key_in (slice_get self.old.records position)) one_more }
    {
        count_up_at(&mut self.records, position);
    }

    /// One owner value less of the record at a position.
    pub fn count_down(&mut self, position: usize)
        requires { IsFilledWith (λ r. 0 < r.ownership.count) (slice_get self.old.records position) }
        ensures { self.new.owners
            ≡ change self.old.owners (owner_key_in (slice_get self.old.records position)) one_less }
    {
        count_down_at(&mut self.records, position);
    }
}

// The position of the owner's record: the owner's hint, or another.
#[inline(always)]
fn find_position(records: &Vec<Option<OwnerRecord>>, owner: &Owner) -> Option<usize>
    ensures found { IfSome result (λ position.
        HasRecord owner.now.key (slice_get records.now.items position)) }
    ensures none { IfNone result ((position : ℕ) →
        record_at owner.now.key (slice_get records.now.items position) ≡ None) }
{
    let (key, position) = (owner.id().key, place_of(owner));
    if has_record(records, position, key) {
        return Some(position);
    }
    search_position(records, key)
}

// The position of the record under a key. Searches all.
#[cold]
#[inline(never)]
fn search_position(records: &Vec<Option<OwnerRecord>>, key: u64) -> Option<usize>
    ensures found { IfSome result (λ position. HasRecord key (slice_get records.now.items position)) }
    ensures none { IfNone result ((position : ℕ) →
        record_at key (slice_get records.now.items position) ≡ None) }
{
    for position in 0..records.len() {
        if has_record(records, position, key) {
            return Some(position);
        }
    }
    None
}

// Whether the record under a key is at a position.
#[inline(always)]
fn has_record(records: &Vec<Option<OwnerRecord>>, position: usize, key: u64) -> bool
    ensures { result ≡ is_some (record_at key (slice_get records.now.items position)) }
{
    match records.get(position) {
        Some(Some(found)) => key == found.key(),
        _ => false,
    }
}

// Whether there is no record at any position.
fn are_vacant(records: &[Option<OwnerRecord>]) -> bool
    ensures { IsTrue result ↔ (owners_of records.now ≡ map.empty) }
{
    for position in records {
        if position.is_some() {
            return false;
        }
    }
    true
}

// Reserves room for another box on the list of the record at a position.
#[inline(always)]
fn reserve_at(records: &mut Vec<Option<OwnerRecord>>, position: usize) -> Result<(), AllocError>
    requires { IsFilled (slice_get records.old.items position) }
    ensures same { records.new.items ≡ change_record records.old.items position
        (with_rooms (rooms_in (slice_get records.new.items position))) }
    ensures ok { OnOk result (HasNameRoom (slice_get records.new.items position)) }
{
    match &mut records[position] {
        Some(found) => found.reserve(),
        None => unreachable!(),
    }
}

// Puts a box at the end of the list of the record at a position, which must have room.
#[inline(always)]
fn list_at(records: &mut Vec<Option<OwnerRecord>>, position: usize, name: CellName)
    requires { HasNameRoom (slice_get records.old.items position) }
    ensures { records.new.items
        ≡ change_ownership records.old.items position (one_listed (name_of_cell name)) }
{
    match &mut records[position] {
        Some(found) => found.list(name),
        None => unreachable!(),
    }
}

// Counts another owner value of the record at a position.
fn count_up_at(records: &mut Vec<Option<OwnerRecord>>, position: usize)
    requires { IsFilledWith (λ r. r.ownership.count < 18446744073709551615)
        (slice_get records.old.items position) }
    ensures { records.new.items ≡ change_ownership records.old.items position one_more }
{
    match &mut records[position] {
        Some(found) => found.count_up(),
        None => unreachable!(),
    }
}

// One owner value less of the record at a position.
fn count_down_at(records: &mut Vec<Option<OwnerRecord>>, position: usize)
    requires { IsFilledWith (λ r. 0 < r.ownership.count) (slice_get records.old.items position) }
    ensures { records.new.items ≡ change_ownership records.old.items position one_less }
{
    match &mut records[position] {
        Some(found) => found.count_down(),
        None => unreachable!(),
    }
}
