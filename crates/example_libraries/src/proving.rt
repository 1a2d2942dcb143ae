//! Proving your own code: what is removed from a stock, and that every other item stays.

ghost use Rattle.std.specs.Prelude.{◌≡◌, ◌↔◌, ℕ, All, None, Some, IfOk, IsErr, IsTrue, OnErr};
ghost use Rattle.entity_table.specs.Tables.{Entity, element_in};
ghost use Rattle.handles.specs.Handles.{IsOther};

use entity_table::{Entity, EntityTable, Stale, equal_entities_show_the_same};
use generational_box::{Location, Storage, UnsyncStorage};

pub fn main(rt: HostRuntime) -> anyhow::Result<()> {
    let store = UnsyncStorage::<u64>::new(rt.alloc(), 1);
    sell(&rt, &mut EntityTable::new(rt.alloc(), store))
}

// Puts two items into a stock, removes one, and tries to remove the other.
fn sell<R: Print, S: Storage<u64>>(rt: &R, stock: &mut EntityTable<u64, S>) -> anyhow::Result<()> {
    let tea = stock.spawn(0, Location::new("proving.rt", 18, 21))?;
    let salt = stock.spawn(5, Location::new("proving.rt", 19, 22))?;
    set_all(stock, &[tea], 3);
    let taken = remove(stock, tea)?;
    println!(rt; "{taken} taken out, {} left", stock.get(salt)?)?;
    let is_removed = remove_unless(stock, salt, salt);
    println!(rt; "taken out: {is_removed}, {} left", stock.get(salt)?)?;
    let is_copy = remove_copies(stock, salt, salt);
    println!(rt; "a copy: {is_copy}, still there: {}", stock.is_alive(salt))?;
    Ok(())
}

/// Removes an item from the stock, and returns how many there were of it. Fails if the item is gone, and
/// then nothing changes.
pub fn remove<S: Storage<u64>>(
    stock: &mut EntityTable<u64, S>,
    item: Entity<u64>,
) -> Result<u64, Stale>
    ensures count { IfOk result (λ count. element_in stock.old item ≡ Some count) }
    ensures gone { element_in stock.new item ≡ None }
    ensures others { (other : Entity ℕ) → IsOther item other →
        element_in stock.new other ≡ element_in stock.old other }
    ensures stale { IsErr result ↔ (element_in stock.old item ≡ None) }
    ensures unchanged { OnErr result (stock.new ≡ stock.old) }
{
    let count = *stock.get(item)?;
    stock.despawn(item)?;
    Ok(count)
}

/// Removes an item, unless it is the one that is kept. Returns whether it did.
pub fn remove_unless<S: Storage<u64>>(
    stock: &mut EntityTable<u64, S>,
    item: Entity<u64>,
    kept: Entity<u64>,
) -> bool
    ensures { element_in stock.new kept ≡ element_in stock.old kept }
{
    item != kept && remove(stock, item).is_ok()
}

/// Removes an item. Returns whether another handle is a copy of the same: then that is stale too.
pub fn remove_copies<S: Storage<u64>>(
    stock: &mut EntityTable<u64, S>,
    item: Entity<u64>,
    copy: Entity<u64>,
) -> bool
    ensures { IsTrue result → element_in stock.new copy ≡ None }
{
    equal_entities_show_the_same::<u64>();
    let _ = stock.despawn(item);
    copy == item
}

/// Sets the count of each item of a list. An item that isn't in the list keeps its own.
pub fn set_all<S: Storage<u64>>(stock: &mut EntityTable<u64, S>, items: &[Entity<u64>], count: u64)
    ensures others { (other : Entity ℕ) → All (λ item. IsOther item other) items.now →
        element_in stock.new other ≡ element_in stock.old other }
{
    for item in items {
        let _ = stock.set(*item, count);
    }
}
