//! Free slots.

ghost use Rattle.std.specs.Prelude.{◌≡◌, ℕ, ◌+◌, ◌<◌, ◌≤◌, ◌∷◌, ◌++◌, [], true, false, drop, max, min};
ghost use Rattle.std.specs.Prelude.{slice_get, IfSome, IfNone, IfErr, OnOk, OnErr, vec_len};
ghost use Rattle.std.specs.Prelude.{vec_capacity};
ghost use Rattle.std.specs.Ordering.{nat_cmp};
ghost use Rattle.std.specs.FinSet as set;
ghost use Rattle.generational_errors.specs.declared.error.StoreError.TheVariants.{OutOfMemory};

use crate::free_list::FreeList;
use generational_core::StoreError;
use std::alloc::Global;
use std::marker::Model;
use store_room::{halfway, reserve_more};

/// The numbers of the free slots, without repetition. Which of them `take` takes is the pool's own
/// choice. The trait is implemented by this crate alone.
pub trait SlotPool: Drop {
    /// The free slots.
    ghost members: { Self → set.FinSet nat_cmp };

    /// For how many slots there is room.
    ghost rooms: { Self → ℕ };

    /// A pool without slots and without room. Doesn't allocate.
    fn new(alloc: Global) -> Self
        ensures empty { members result ≡ set.empty }
        ensures rooms { rooms result ≡ 0 };

    /// Reserves room for this many slots in all, if there is less. The only error is `OutOfMemory`, which
    /// changes nothing.
    fn grow(&mut self, room: usize) -> Result<(), StoreError>
        ensures same { members self.new ≡ members self.old }
        ensures ok { OnOk result (rooms self.new ≡ max (rooms self.old) room) }
        ensures err { OnErr result (rooms self.new ≡ rooms self.old) }
        ensures cause { IfErr result (λ error. error ≡ OutOfMemory) };

    /// Removes and returns a slot: None exactly if there is none. Doesn't allocate.
    fn take(&mut self) -> Option<usize>
        ensures rooms { rooms self.new ≡ rooms self.old }
        ensures member { IfSome result (λ slot. set.contains (members self.old) slot ≡ true) }
        ensures taken { IfSome result (λ slot. members self.new ≡ set.remove (members self.old)
            slot) }
        ensures none { IfNone result (members self.old ≡ set.empty) }
        ensures unchanged { IfNone result (members self.new ≡ members self.old) };

    /// Adds a slot that isn't there. There must be room for it. Doesn't allocate.
    fn put(&mut self, slot: usize)
        requires room { slot < rooms self.old }
        requires absent { set.contains (members self.old) slot ≡ false }
        ensures rooms { rooms self.new ≡ rooms self.old }
        ensures added { members self.new ≡ set.insert (members self.old) slot };

    /// For how many slots there is room.
    fn room(&self) -> usize
        ensures { result ≡ rooms self.now };

    /// How many free slots there are.
    fn free(&self) -> usize
        ensures { result ≡ set.len (members self.now) };
}

/// Takes the slot that was put last. Contracts model it as the slots, the last one first, and the room.
#[derive(Drop)]
pub struct LastFirst {
    list: FreeList,
}

impl Model for LastFirst {
    ghost use Rattle.store_parts.specs.Pools.{Pool};

    ghost Value = { Pool };

    ghost view = { λ p. p.list };
}

impl SlotPool for LastFirst {
    ghost use Rattle.std.specs.FinSet as set;
    ghost use Rattle.store_parts.specs.Pools.{members_of};

    ghost members = { members_of };

    ghost rooms = { λ p. p.rooms };

    fn new(alloc: Global) -> LastFirst {
        LastFirst {
            list: FreeList::new(alloc),
        }
    }

    #[inline(always)]
    fn grow(&mut self, room: usize) -> Result<(), StoreError> {
        self.list.grow(room)
    }

    #[inline(always)]
    fn take(&mut self) -> Option<usize>
        ensures first { result ≡ slice_get self.old.slots 0 }
        ensures rest { self.new.slots ≡ drop 1 self.old.slots }
        ensures rooms { self.new.rooms ≡ self.old.rooms }
        ensures member { IfSome result (λ slot. set.contains (members_of self.old) slot ≡ true) }
        ensures taken { IfSome result (λ slot. members_of self.new
            ≡ set.remove (members_of self.old) slot) }
        ensures none { IfNone result (members_of self.old ≡ set.empty) }
        ensures unchanged { IfNone result (members_of self.new ≡ members_of self.old) }
    {
        self.list.take()
    }

    #[inline(always)]
    fn put(&mut self, slot: usize)
        requires room { slot < self.old.rooms }
        requires absent { set.contains (members_of self.old) slot ≡ false }
        ensures first { self.new.slots ≡ slot ∷ self.old.slots }
        ensures rooms { self.new.rooms ≡ self.old.rooms }
        ensures added { members_of self.new ≡ set.insert (members_of self.old) slot }
    {
        self.list.put_first(slot);
    }

    #[inline(always)]
    fn room(&self) -> usize {
        self.list.room()
    }

    #[inline(always)]
    fn free(&self) -> usize {
        self.list.count()
    }
}

/// Takes the slot that was put first. Contracts model it as the slots, the first one first, and the room.
#[derive(Drop)]
pub struct OldestFirst {
    list: FreeList,
    // the last slot of the list, if there is one
    last: usize,
}

impl Model for OldestFirst {
    ghost use Rattle.std.specs.Prelude.{◌≡◌};
    ghost use Rattle.store_parts.specs.Pools.{last_slot_of, Pool};

    ghost Value = { Pool };

    ghost view = { λ p. p.list };

    ghost invariant = { λ p. last_slot_of p.last p.list.slots ≡ p.last };
}

impl SlotPool for OldestFirst {
    ghost use Rattle.std.specs.FinSet as set;
    ghost use Rattle.store_parts.specs.Pools.{members_of};

    ghost members = { members_of };

    ghost rooms = { λ p. p.rooms };

    fn new(alloc: Global) -> OldestFirst {
        OldestFirst {
            list: FreeList::new(alloc),
            last: 0,
        }
    }

    #[inline(always)]
    fn grow(&mut self, room: usize) -> Result<(), StoreError> {
        self.list.grow(room)
    }

    #[inline(always)]
    fn take(&mut self) -> Option<usize>
        ensures first { result ≡ slice_get self.old.slots 0 }
        ensures rest { self.new.slots ≡ drop 1 self.old.slots }
        ensures rooms { self.new.rooms ≡ self.old.rooms }
        ensures member { IfSome result (λ slot. set.contains (members_of self.old) slot ≡ true) }
        ensures taken { IfSome result (λ slot. members_of self.new
            ≡ set.remove (members_of self.old) slot) }
        ensures none { IfNone result (members_of self.old ≡ set.empty) }
        ensures unchanged { IfNone result (members_of self.new ≡ members_of self.old) }
    {
        self.list.take()
    }

    #[inline(always)]
    fn put(&mut self, slot: usize)
        requires room { slot < self.old.rooms }
        requires absent { set.contains (members_of self.old) slot ≡ false }
        ensures last { self.new.slots ≡ self.old.slots ++ slot ∷ [] }
        ensures rooms { self.new.rooms ≡ self.old.rooms }
        ensures added { members_of self.new ≡ set.insert (members_of self.old) slot }
    {
        self.list.put_last(slot, self.last);
        self.last = slot;
    }

    #[inline(always)]
    fn room(&self) -> usize {
        self.list.room()
    }

    #[inline(always)]
    fn free(&self) -> usize {
        self.list.count()
    }
}

/// Reserves room for another slot, and for its number among the free ones. If an allocation fails, no
/// slot changes.
#[inline(always)]
pub fn make_room<T, P: SlotPool>(slots: &mut Vec<T>, pool: &mut P) -> Result<(), StoreError>
    requires { vec_len slots.old ≤ P.rooms pool.old }
    ensures slots { slots.new.items ≡ slots.old.items }
    ensures pool { P.members pool.new ≡ P.members pool.old }
    ensures rooms { P.rooms pool.old ≤ P.rooms pool.new }
    ensures ok { OnOk result (vec_len slots.new < vec_capacity slots.new) }
    ensures grown { OnOk result (vec_len slots.new < P.rooms pool.new) }
{
    if slots.len() < slots.capacity() && slots.len() < pool.room() {
        return Ok(());
    }
    grow(slots, pool)
}

// Reserves room for at least another element, if there is none.
#[cold]
#[inline(never)]
fn grow<T, P: SlotPool>(slots: &mut Vec<T>, pool: &mut P) -> Result<(), StoreError>
    requires { vec_len slots.old ≤ P.rooms pool.old }
    ensures slots { slots.new.items ≡ slots.old.items }
    ensures pool { P.members pool.new ≡ P.members pool.old }
    ensures rooms { P.rooms pool.old ≤ P.rooms pool.new }
    ensures ok { OnOk result (vec_len slots.new < vec_capacity slots.new) }
    ensures grown { OnOk result (vec_len slots.new < P.rooms pool.new) }
{
    if reserve_more(slots, 1).is_err() {
        return Err(StoreError::OutOfMemory);
    }
    grow_within(pool, slots.capacity())
}

/// Reserves room for this many slots in all. If an allocation fails, it reserves half of the additional
/// ones, then a quarter and so on, and at least one. The only error is `OutOfMemory`, which changes
/// nothing.
pub fn grow_within<P: SlotPool>(pool: &mut P, room: usize) -> Result<(), StoreError>
    ensures same { P.members pool.new ≡ P.members pool.old }
    ensures ok { OnOk result (min room (P.rooms pool.old + 1) ≤ P.rooms pool.new) }
    ensures rooms { P.rooms pool.old ≤ P.rooms pool.new }
    ensures most { P.rooms pool.new ≤ max (P.rooms pool.old) room }
    ensures err { OnErr result (P.rooms pool.new ≡ P.rooms pool.old) }
    ensures cause { IfErr result (λ error. error ≡ OutOfMemory) }
{
    match pool.grow(room) {
        Ok(()) => Ok(()),
        Err(cause) => match halfway(pool.room(), room) {
            Some(less) => grow_within(pool, less),
            None => Err(cause),
        },
    }
}
