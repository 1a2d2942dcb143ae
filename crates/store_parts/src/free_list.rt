//! Slots in a list whose links are in a vector.

ghost use Rattle.std.specs.Prelude.{◌≡◌, ◌+◌, ◌<◌, ◌∷◌, ◌++◌, [], false, true, IfSome, IfErr};
ghost use Rattle.std.specs.Prelude.{OnOk, OnErr, drop, length, max, slice_get, ◌-◌, ◌≤◌};
ghost use Rattle.std.specs.Prelude.{if◌then◌else◌, is_ok, replicate, take, vec_len};
ghost use Rattle.std.specs.FinSet as set;
ghost use Rattle.generational_errors.specs.declared.error.StoreError.TheVariants.{OutOfMemory};
ghost use Rattle.store_parts.specs.Pools.{last_slot_of, members_of};

use generational_core::StoreError;
use std::alloc::{AllocError, Global};
use std::marker::Model;

/// Slots without repetition, in an order that the caller chooses by where it puts them. There is room for
/// as many as have a link. Contracts model it as the slots, the first one first, and the room.
#[derive(Drop)]
pub struct FreeList {
    // if a slot is in the list and isn't its last, its link is the next slot
    links: Vec<u32>,
    // if the list isn't empty, its first slot
    first: usize,
    count: usize,
}

impl Model for FreeList {
    ghost use Rattle.std.specs.Prelude.{◌≤◌, length};
    ghost use Rattle.store_parts.specs.Pools.{slot_chain, IsPool, Pool};

    ghost Value = { Pool };

    ghost view = { λ l. record {
      slots = slot_chain l.links.items l.first l.count;
      rooms = length l.links.items;
    } };

    ghost invariant = { λ l. IsPool (slot_chain l.links.items l.first l.count) (length l.links.items)
        × (length l.links.items ≤ 4294967295) };
}

impl FreeList {
    /// No slot and no room. Doesn't allocate.
    pub fn new(alloc: Global) -> FreeList
        ensures slots { result.slots ≡ [] }
        ensures rooms { result.rooms ≡ 0 }
    {
        FreeList {
            links: Vec::new(alloc),
            first: 0,
            count: 0,
        }
    }

    /// Reserves room for this many slots in all, if there is less. Fails only if an allocation fails,
    /// with nothing changed.
    #[cold]
    #[inline(never)]
    pub fn grow(&mut self, room: usize) -> Result<(), StoreError>
        ensures slots { self.new.slots ≡ self.old.slots }
        ensures ok { OnOk result (self.new.rooms ≡ max self.old.rooms room) }
        ensures err { OnErr result (self.new.rooms ≡ self.old.rooms) }
        ensures cause { IfErr result (λ error. error ≡ OutOfMemory) }
    {
        if room <= self.links.len() {
            return Ok(());
        }
        if room > u32::MAX as usize {
            return Err(StoreError::OutOfMemory);
        }
        match extend(&mut self.links, room) {
            Ok(()) => Ok(()),
            Err(_) => Err(StoreError::OutOfMemory),
        }
    }

    /// Removes and returns the first slot. Doesn't allocate.
    #[inline(always)]
    pub fn take(&mut self) -> Option<usize>
        ensures first { result ≡ slice_get self.old.slots 0 }
        ensures rest { self.new.slots ≡ drop 1 self.old.slots }
        ensures rooms { self.new.rooms ≡ self.old.rooms }
        ensures member { IfSome result (λ slot. set.contains (members_of self.old) slot ≡ true) }
        ensures taken { IfSome result (λ slot. members_of self.new
            ≡ set.remove (members_of self.old) slot) }
    {
        if self.count == 0 {
            return None;
        }
        let slot = self.first;
        if self.count > 1 {
            self.first = self.links[slot] as usize;
        }
        self.count -= 1;
        Some(slot)
    }

    /// Puts a slot before the others. Doesn't allocate. If there are no others, its link has no meaning
    /// and isn't written: most often the slot is the next that is taken.
    #[inline(always)]
    pub fn put_first(&mut self, slot: usize)
        requires room { slot < self.old.rooms }
        requires absent { set.contains (members_of self.old) slot ≡ false }
        ensures slots { self.new.slots ≡ slot ∷ self.old.slots }
        ensures rooms { self.new.rooms ≡ self.old.rooms }
    {
        let second = self.first;
        self.first = slot;
        self.count += 1;
        if self.count > 1 {
            self.links[slot] = second as u32;
        }
    }

    /// Puts a slot after the others; the caller passes the last of them. Doesn't allocate.
    #[inline(always)]
    pub fn put_last(&mut self, slot: usize, last: usize)
        requires room { slot < self.old.rooms }
        requires absent { set.contains (members_of self.old) slot ≡ false }
        requires last { last_slot_of last self.old.slots ≡ last }
        ensures slots { self.new.slots ≡ self.old.slots ++ slot ∷ [] }
        ensures rooms { self.new.rooms ≡ self.old.rooms }
        ensures added { members_of self.new ≡ set.insert (members_of self.old) slot }
    {
        if self.count == 0 {
            self.put_first(slot);
            return;
        }
        self.links[last] = slot as u32;
        self.count += 1;
    }

    /// For how many slots there is room.
    #[inline(always)]
    pub fn room(&self) -> usize
        ensures { result ≡ self.now.rooms }
    {
        self.links.len()
    }

    /// How many slots there are.
    #[inline(always)]
    pub fn count(&self) -> usize
        ensures { result ≡ set.len (members_of self.now) }
    {
        self.count
    }
}

// Extends the links to this many: the new ones point past the last slot. Allocates exactly what they
// need.
fn extend(links: &mut Vec<u32>, room: usize) -> Result<(), AllocError>
    requires more { vec_len links.old ≤ room }
    requires few { room ≤ 4294967295 }
    ensures items { links.new.items ≡ (if is_ok result
        then take room links.old.items ++ replicate (room - vec_len links.old) room
        else links.old.items) }
    ensures len { vec_len links.new ≡ (if is_ok result then room else vec_len links.old) }
{
    links.reserve_exact(room - links.len())?;
    links.resize(room, room as u32)
}
