//! The order of free slots.

ghost use Rattle.std.specs.Prelude.{◌≡◌, ◌<◌, false, Some};
ghost use Rattle.std.specs.FinSet as set;
ghost use Rattle.generational_box.specs.Pools.{members_of};

use generational_box::{LastFirst, SlotPool};

/// Puts a slot into the pool and takes one out: it is the same slot, and the pool is unchanged.
pub fn put_and_take(pool: &mut LastFirst, slot: usize) -> Option<usize>
    requires room { slot < pool.old.rooms }
    requires absent { set.contains (members_of pool.old) slot ≡ false }
    ensures taken { result ≡ Some slot }
    ensures order { pool.new.slots ≡ pool.old.slots }
{
    pool.put(slot);
    pool.take()
}
