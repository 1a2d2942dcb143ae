//! Values by their slots.

ghost use Rattle.std.specs.Prelude.{◌≡◌, ◌≢◌, ◌<◌, ℕ, [], None, Some, true, false, IsTrue, get_or, length};
ghost use Rattle.stamped_values.specs.Stamps.{stamped_at};
ghost use Rattle.stamped_values.specs.declared.values.Stamped.{Stamped};

use std::alloc::Global;
use std::marker::Model;

// A value, and the list's stamp when it was put there.
#[derive(Clone, Copy)]
struct Stamped<T> {
    stamp: u64,
    value: T,
}

/// Values of numbered slots. Contracts model it as a list that has each slot's value, if there is one.
///
/// Each slot up to the highest that had a value takes the memory of a value and 16 bytes.
#[derive(Drop)]
pub struct StampedValues<T> {
    rows: Vec<Option<Stamped<T>>>,
    stamp: u64,
}

impl<T> Model for StampedValues<T> {
    ghost use Rattle.std.specs.Prelude.{List, Option, map};
    ghost use Rattle.stamped_values.specs.Stamps.{AreStamped, value_by};

    ghost Value = { List (Option T) };

    ghost view = { λ v. map (value_by v.stamp) v.rows.items };

    ghost invariant = { λ v. AreStamped v.stamp v.rows.items };
}

// Reserves capacity for a slot's row. False if memory runs out.
fn reserve<T: Copy>(rows: &mut Vec<Option<Stamped<T>>>, slot: usize) -> bool
    ensures rows { (s : ℕ) → get_or rows.new.items s None ≡ get_or rows.old.items s None }
    ensures room { IsTrue result → slot < length rows.new.items }
{
    let Some(room) = slot.checked_add(1) else {
        return false;
    };
    if slot < rows.len() {
        return true;
    }
    rows.resize(room, None).is_ok()
}

impl<T: Copy> StampedValues<T> {
    /// No values. Doesn't allocate.
    pub fn new(alloc: Global) -> Self
        ensures { result ≡ [] }
    {
        StampedValues {
            rows: Vec::new(alloc),
            stamp: 0,
        }
    }

    /// A slot's value, if it has one. Doesn't allocate. O(1).
    pub fn get(&self, slot: usize) -> Option<T>
        ensures { result ≡ stamped_at self.now slot }
    {
        match self.rows.get(slot) {
            Some(Some(row)) if row.stamp == self.stamp => Some(row.value),
            _ => None,
        }
    }

    /// Gives a slot a value, or replaces the one that it has. Every other slot is unchanged. Amortised
    /// O(1) a slot. False if memory runs out: then every slot is unchanged.
    pub fn put(&mut self, slot: usize, value: T) -> bool
        ensures put { IsTrue result → stamped_at self.new slot ≡ Some value }
        ensures others { (s : ℕ) → s ≢ slot → stamped_at self.new s ≡ stamped_at self.old s }
        ensures failed { result ≡ false → (s : ℕ) → stamped_at self.new s ≡ stamped_at self.old s }
    {
        if !reserve(&mut self.rows, slot) {
            return false;
        }
        let stamp = self.stamp;
        self.rows[slot] = Some(Stamped { stamp, value });
        true
    }

    /// Removes all values. The slots keep their room. Doesn't allocate. O(1).
    pub fn clear(&mut self)
        ensures { (s : ℕ) → stamped_at self.new s ≡ None }
    {
        match self.stamp.checked_add(1) {
            Some(next) => self.stamp = next,
            None => self.rows.clear(),
        }
    }
}
