//! Indexes that are free again.

ghost use Rattle.std.specs.Prelude.{◌≡◌, ◌<◌, ◌≤◌, false, true, IfSome, IfNone, IfErr, OnOk};
ghost use Rattle.std.specs.Prelude.{max, vec_capacity};
ghost use Rattle.std.specs.FinSet as set;
ghost use Rattle.generational_errors.specs.declared.error.StoreError.TheVariants.{OutOfMemory};
ghost use Rattle.store_parts.specs.Pools.{members_of};

use crate::room::reserve_room;
use generational_core::StoreError;
use std::alloc::Global;
use std::marker::Model;

/// Indexes without repetition; the one that was put last is taken first. Room is reserved for many at
/// once, and not touched before it is used. Contracts model it as the indexes, the last one first, and
/// the room.
#[derive(Drop)]
pub struct FreeIndexes {
    indexes: Vec<u32>,
    room: usize,
}

impl Model for FreeIndexes {
    ghost use Rattle.std.specs.Prelude.{◌≤◌, reverse, vec_capacity};
    ghost use Rattle.store_parts.specs.Pools.{Pool, IsPool};

    ghost Value = { Pool };

    ghost view = { λ f. record { slots = reverse f.indexes.items; rooms = f.room } };

    ghost invariant = { λ f.
        IsPool (reverse f.indexes.items) f.room × (f.room ≤ vec_capacity f.indexes) };
}

impl FreeIndexes {
    /// No index and no room. Doesn't allocate.
    #[inline(always)]
    pub fn new(alloc: Global) -> FreeIndexes
        ensures empty { members_of result ≡ set.empty }
        ensures rooms { result.rooms ≡ 0 }
    {
        FreeIndexes {
            indexes: Vec::new(alloc),
            room: 0,
        }
    }

    /// Reserves room for this many indexes in all. Fails only if an allocation fails: then no index is
    /// removed.
    pub fn reserve(&mut self, alloc: Global, room: usize) -> Result<(), StoreError>
        ensures indexes { self.new.slots ≡ self.old.slots }
        ensures rooms { self.old.rooms ≤ self.new.rooms }
        ensures ok { OnOk result (room ≤ self.new.rooms) }
        ensures most { self.new.rooms ≤ max self.old.rooms room }
        ensures cause { IfErr result (λ error. error ≡ OutOfMemory) }
    {
        if self.room < room {
            reserve_room(&mut self.indexes, alloc, room)?;
            self.room = room;
        }
        Ok(())
    }

    /// For how many there is room.
    pub fn room(&self) -> usize
        ensures { result ≡ self.now.rooms }
    {
        self.room
    }

    /// Removes and returns an index: None exactly if there is none. Doesn't allocate.
    #[inline(always)]
    pub fn take(&mut self) -> Option<u32>
        ensures rooms { self.new.rooms ≡ self.old.rooms }
        ensures member { IfSome result (λ i. set.contains (members_of self.old) i ≡ true) }
        ensures taken { IfSome result (λ i. members_of self.new
            ≡ set.remove (members_of self.old) i) }
        ensures none { IfNone result (members_of self.old ≡ set.empty) }
        ensures unchanged { IfNone result (members_of self.new ≡ members_of self.old) }
    {
        let index = self.indexes.pop()?;
        Some(index)
    }

    /// Adds an index that isn't there. There must be room for it. Doesn't allocate.
    #[inline(always)]
    pub fn put(&mut self, index: u32)
        requires room { index < self.old.rooms }
        requires absent { set.contains (members_of self.old) index ≡ false }
        ensures rooms { self.new.rooms ≡ self.old.rooms }
        ensures added { members_of self.new ≡ set.insert (members_of self.old) index }
    {
        self.indexes.push_reserved(index);
    }
}
