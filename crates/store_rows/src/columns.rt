//! Packed slots.

ghost use Rattle.std.specs.Prelude.{◌≡◌, ◌<◌, ◌≤◌, ◌+◌, ◌++◌, ◌∷◌, [], ℕ, IfOk, IfSome, OnOk};
ghost use Rattle.std.specs.Prelude.{length, slice_get, take, vec_capacity, vec_len};

use crate::packed::PackedSlot;
use generational_core::Location;
use std::alloc::{AllocError, Global};
use std::marker::Model;
use store_room::reserve_more;

/// Packed slots, each with where its cell was made. Contracts model them as pairs.
///
/// They are two lists, since a check whether a slot is unchanged needs no location.
#[derive(Drop)]
pub struct PackedSlots {
    slots: Vec<PackedSlot>,
    made_at: Vec<Location>,
}

impl Model for PackedSlots {
    ghost use Rattle.std.specs.Prelude.{◌≡◌, List, length};
    ghost use Rattle.std.specs.List.{zip};
    ghost use Rattle.generational_errors.specs.declared.error.Location.{Location};
    ghost use Rattle.store_rows.specs.declared.packed.PackedSlot.{PackedSlot};

    ghost Value = { List (PackedSlot × Location) };

    ghost view = { λ s. zip s.slots.items s.made_at.items };

    ghost invariant = { λ s. length s.slots.items ≡ length s.made_at.items };
}

impl PackedSlots {
    /// No slots. Doesn't allocate.
    pub fn new(alloc: Global) -> PackedSlots
        ensures { result ≡ [] }
    {
        PackedSlots {
            slots: Vec::new(alloc),
            made_at: Vec::new(alloc),
        }
    }

    /// No slots, with this capacity. Its memory isn't touched.
    pub fn with_room(alloc: Global, slots: usize) -> Result<PackedSlots, AllocError>
        ensures { IfOk result (λ slots. slots ≡ []) }
    {
        Ok(PackedSlots {
            slots: Vec::with_capacity(alloc, slots)?,
            made_at: Vec::with_capacity(alloc, slots)?,
        })
    }

    /// Whether the capacity is enough for so many.
    pub fn has_room(&self, slots: usize) -> bool {
        slots <= self.slots.capacity() && slots <= self.made_at.capacity()
    }

    /// How many there are.
    #[inline(always)]
    pub fn len(&self) -> usize
        ensures { result ≡ length self.now }
    {
        self.slots.len()
    }

    /// The slot with this number.
    #[inline(always)]
    pub fn slot(&self, slot: usize) -> PackedSlot
        requires { slot < length self.now }
        ensures { IfSome (slice_get self.now slot) (λ e. result ≡ e.0) }
    {
        self.slots[slot]
    }

    /// Where its cell was made.
    pub fn created_at(&self, slot: usize) -> Location
        requires { slot < length self.now }
        ensures { IfSome (slice_get self.now slot) (λ e. result ≡ e.1) }
    {
        self.made_at[slot]
    }

    /// Puts a slot into its place, or after the last one.
    #[inline(always)]
    pub fn put(
        &mut self,
        slot: usize,
        packed: PackedSlot,
        created_at: Location,
    ) -> Result<(), AllocError>
        requires { slot ≤ length self.old }
        ensures here { OnOk result
            (take (slot + 1) self.new ≡ take slot self.old ++ (packed, created_at) ∷ []) }
        ensures rest { OnOk result ((i : ℕ) → slot < i → slice_get self.new i ≡ slice_get self.old i) }
    {
        if slot < self.slots.len() {
            self.slots[slot] = packed;
            self.made_at[slot] = created_at;
            return Ok(());
        }
        self.push(packed, created_at)
    }

    // Appends a slot. Mostly there is room for it.
    #[inline(always)]
    fn push(&mut self, packed: PackedSlot, created_at: Location) -> Result<(), AllocError>
        ensures ok { OnOk result (self.new ≡ self.old ++ (packed, created_at) ∷ []) }
    {
        make_room(&mut self.slots)?;
        make_room(&mut self.made_at)?;
        self.slots.push_reserved(packed);
        self.made_at.push_reserved(created_at);
        Ok(())
    }

    /// Leaves so many slots.
    pub fn truncate(&mut self, slots: usize)
        ensures { self.new ≡ take slots self.old }
    {
        self.slots.truncate(slots);
        self.made_at.truncate(slots);
    }
}

// Reserves room for another element. Mostly there is room already.
#[inline(always)]
fn make_room<X>(items: &mut Vec<X>) -> Result<(), AllocError>
    ensures items { items.new.items ≡ items.old.items }
    ensures ok { OnOk result (vec_len items.new + 1 ≤ vec_capacity items.new) }
{
    if items.len() < items.capacity() {
        return Ok(());
    }
    reserve_more(items, 1)
}
