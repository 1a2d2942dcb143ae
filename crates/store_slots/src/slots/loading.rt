//! Slots that are made of an image.

ghost use Rattle.std.specs.Prelude.{◌≡◌, ◌<◌, ◌≤◌, ◌++◌, ◌∷◌, [], ℕ, false, Some, IfOk, IfErr, IfSome};
ghost use Rattle.std.specs.Prelude.{if◌then◌else◌, length, slice_get, map as list_map};
ghost use Rattle.std.specs.FinMap as map;
ghost use Rattle.std.specs.FinSet as set;
ghost use Rattle.generational_errors.specs.declared.error.StoreError.TheVariants.{OutOfMemory};
ghost use Rattle.generational_core.specs.Conditions.{IsBounded};
ghost use Rattle.generational_core.specs.State.{IsSound, Owners};
ghost use Rattle.store_cells.specs.Entry.{cell_of, is_live};
ghost use Rattle.store_cells.specs.Entry.Kept.{Empty};
ghost use Rattle.store_images.specs.Images.{told, IsWholeImage};
ghost use Rattle.store_slots.specs.ImageSlots.{is_retired_entry, kept_told, slot_told};
ghost use Rattle.store_slots.specs.ImageSlots.{ArePooled, AreRecounted, HasSmallTarget};
ghost use Rattle.store_slots.specs.ImageSlots.{HaveSmallTargets, IsTargetWithin};
ghost use Rattle.store_slots.specs.SlotsState.{is_spent, with_records, AreReferred};

use crate::counts::RetiredSlots;
use crate::slots::Slots;
use generational_core::{Location, StoreError};
use std::alloc::Global;
use std::marker::Model;
use std::mem;
use store_cells::entries::Entries;
use store_cells::entry::StorageEntryData;
use store_images::{CellImage, Image, SlotImage};
use store_parts::names::CellName;
use store_parts::pool::SlotPool;

/// Room for the slots of an image: all memory that they need. Contracts model it as their number.
#[derive(Drop)]
pub struct Room<T, P: SlotPool> {
    entries: Entries<T>,
    pool: P,
}

impl<T, P: SlotPool> Model for Room<T, P> {
    ghost use Rattle.std.specs.Prelude.{◌≡◌, ◌<◌, ◌≤◌, [], ℕ};
    ghost use Rattle.std.specs.FinSet as set;

    ghost Value = { ℕ };

    ghost view = { λ r. P.rooms r.pool };

    ghost invariant = { λ r. (r.entries.slots ≡ []) × (P.members r.pool ≡ set.empty)
        × (P.rooms r.pool ≤ r.entries.rooms) × (P.rooms r.pool < 4294967295) };
}

impl<T: Drop, P: SlotPool> Room<T, P> {
    /// Room for this many slots.
    ///
    /// # Errors
    ///
    /// `OutOfMemory`, also if a slot would have no index of 32 bits.
    pub fn new(alloc: Global, slots: usize) -> Result<Room<T, P>, StoreError>
        ensures room { IfOk result (λ room. room ≡ slots) }
        ensures cause { IfErr result (λ error. error ≡ OutOfMemory) }
    {
        if slots >= u32::MAX as usize {
            return Err(StoreError::OutOfMemory);
        }
        let mut entries = Entries::new(alloc);
        entries.reserve(slots)?;
        let mut pool = P::new(alloc);
        pool.grow(slots)?;
        Ok(Room { entries, pool })
    }

    /// The slots of a whole image. Doesn't allocate.
    pub fn fill(self, image: Image<T>) -> Slots<T, P>
        requires room { self ≡ length image.slots.items }
        requires whole { IsWholeImage image }
        ensures { with_records result.state image.number map.empty image.next ≡ told image }
    {
        let Room {
            mut entries,
            mut pool,
        } = self;
        let Image {
            number: _,
            start,
            next: _,
            peak,
            slots,
        } = image;
        let retired = push_all(&mut entries, &mut pool, slots);
        count_references(&mut entries);
        Slots {
            start,
            counts: RetiredSlots::at(retired, peak),
            entries,
            pool,
        }
    }
}

// Adds the slots of an image to an empty list. Returns how many are retired.
fn push_all<T: Drop, P: SlotPool>(
    entries: &mut Entries<T>,
    pool: &mut P,
    slots: Vec<SlotImage<T>>,
) -> usize
    requires none { entries.old.slots ≡ [] }
    requires free { P.members pool.old ≡ set.empty }
    requires room { length slots.items ≤ entries.old.rooms }
    requires pool { length slots.items ≤ P.rooms pool.old }
    requires small { HaveSmallTargets slots.items }
    ensures slots { entries.new.slots ≡ list_map slot_told slots.items }
    ensures pooled { ArePooled entries.new.slots (P.members pool.new) result }
    ensures rooms { entries.new.rooms ≡ entries.old.rooms }
    ensures pool { P.rooms pool.new ≡ P.rooms pool.old }
{
    let mut slots = slots;
    let mut retired = 0;
    for slot in 0..slots.len() {
        let image = take_image(&mut slots, slot);
        if push_slot(entries, pool, image) {
            retired += 1;
        }
    }
    retired
}

// Takes the image of a slot out of a list.
fn take_image<T: Drop>(slots: &mut Vec<SlotImage<T>>, slot: usize) -> SlotImage<T>
    requires { slot < length slots.old.items }
    ensures taken { slice_get slots.old.items slot ≡ Some result }
    ensures rest { (k : ℕ) → slot < k → slice_get slots.new.items k ≡ slice_get slots.old.items k }
    ensures long { length slots.new.items ≡ length slots.old.items }
{
    let none = SlotImage {
        generation: 0,
        cell: CellImage::Empty,
    };
    mem::replace(&mut slots[slot], none)
}

// Adds a slot. Returns whether it is retired.
fn push_slot<T: Drop, P: SlotPool>(
    entries: &mut Entries<T>,
    pool: &mut P,
    image: SlotImage<T>,
) -> bool
    requires room { length entries.old.slots < entries.old.rooms }
    requires pool { length entries.old.slots < P.rooms pool.old }
    requires small { HasSmallTarget image.cell }
    requires pooled { set.contains (P.members pool.old) (length entries.old.slots) ≡ false }
    ensures pushed { entries.new.slots ≡ entries.old.slots ++ slot_told image ∷ [] }
    ensures rooms { entries.new.rooms ≡ entries.old.rooms }
    ensures pool { P.rooms pool.new ≡ P.rooms pool.old }
    ensures retired { result ≡ is_retired_entry (slot_told image) }
    ensures free { P.members pool.new ≡ (if is_spent (slot_told image)
        then set.insert (P.members pool.old) (length entries.old.slots)
        else P.members pool.old) }
{
    let SlotImage { generation, cell } = image;
    let slot = entries.len();
    if push_cell(entries, generation, cell) {
        return false;
    }
    if generation < u64::MAX {
        pool.put(slot);
        return false;
    }
    true
}

// Adds a slot. Returns whether it has a cell.
fn push_cell<T: Drop>(entries: &mut Entries<T>, generation: u64, cell: CellImage<T>) -> bool
    requires room { length entries.old.slots < entries.old.rooms }
    requires small { HasSmallTarget cell }
    ensures pushed { entries.new.slots
        ≡ entries.old.slots ++ slot_told (record { generation = generation; cell = cell }) ∷ [] }
    ensures rooms { entries.new.rooms ≡ entries.old.rooms }
    ensures live { result ≡ is_live (kept_told cell) }
{
    match cell {
        CellImage::Value(value, created_at) => {
            entries.push(generation, StorageEntryData::Data(value), created_at);
            true
        }
        CellImage::Shared(value, created_at) => {
            entries.push(generation, StorageEntryData::Shared(value), created_at);
            true
        }
        CellImage::Reference(slot, named, created_at) => {
            let content = StorageEntryData::Reference(slot as u32, named);
            entries.push(generation, content, created_at);
            true
        }
        CellImage::Empty => {
            push_empty(entries, generation);
            false
        }
    }
}

// Adds a slot without a cell: a cell is added, and removed.
fn push_empty<T: Drop>(entries: &mut Entries<T>, generation: u64)
    requires { length entries.old.slots < entries.old.rooms }
    ensures pushed { entries.new.slots ≡ entries.old.slots
        ++ record { generation = generation; kept = Empty; references = 0 } ∷ [] }
    ensures rooms { entries.new.rooms ≡ entries.old.rooms }
{
    let slot = entries.len();
    let content = StorageEntryData::Reference(0, 0);
    entries.push(generation, content, Location::new("", 0, 0));
    entries.end(slot, true);
}

// Counts each reference at its target, if none is counted yet.
fn count_references<T: Drop>(entries: &mut Entries<T>)
    requires none { (k : ℕ) → IfSome (slice_get entries.old.slots k) (λ e. e.references ≡ 0) }
    requires targets { (k : ℕ) → IfSome (slice_get entries.old.slots k)
        (λ e. IsTargetWithin entries.old.slots (cell_of e.kept)) }
    ensures slots { AreRecounted entries.old.slots entries.new.slots }
    ensures counted { AreReferred (λ m. 0) entries.new.slots }
    ensures rooms { entries.new.rooms ≡ entries.old.rooms }
{
    for slot in 0..entries.len() {
        let generation = entries.generation(slot);
        if let Some(target) = entries.target(CellName { slot, generation }) {
            entries.count_up(target.slot);
        }
    }
}

impl<T: Drop, P: SlotPool> Slots<T, P> {
    /// The slots of every store are bounded, for any number, owners and next ticket.
    pub fn are_bounded(&self)
        ensures { (number next : ℕ) (owners : Owners)
            → IsBounded (with_records self.now.state number owners next) }
    {
        let _ = self.entries.len();
    }
}

/// A whole image describes a sound state.
pub fn whole_images_are_sound<T>(image: &Image<T>)
    requires { IsWholeImage image.now }
    ensures { IsSound (told image.now) }
{}
