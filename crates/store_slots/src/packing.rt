//! The rows of slots, packed.

ghost use Rattle.std.specs.Prelude.{◌≡◌, ◌<◌, ◌≤◌, [], IfOk, IfSome, OnOk};
ghost use Rattle.std.specs.Prelude.{length, slice_get};
ghost use Rattle.std.specs.Bool.{OnTrue};
ghost use Rattle.store_slots.specs.Packing.{ArePacked, ArePastOf, AreRenewed, IsPacked, IsPastOf};
ghost use Rattle.store_slots.specs.Packing.{IsSmall, Packs, WasMadeIn};
ghost use Rattle.generational_errors.specs.declared.error.Location.{Location};

use crate::rows::push_slot;
use generational_core::{BaseRow, Location};
use std::alloc::AllocError;
use store_cells::entries::Entries;
use store_cells::entry::CellKind;
use store_parts::names::CellName;
use store_rows::{PackedSlot, PackedSlots};

/// Packs the rows of all slots, with ids of the store with this number, over slots that were packed in an
/// earlier state, and into a list of whole rows. A slot without whole rows that hasn't changed since
/// isn't written.
pub fn pack_slots<T: Drop>(
    entries: &Entries<T>,
    number: u64,
    slots: &mut PackedSlots,
    whole: &mut Vec<BaseRow>,
) -> Result<(), AllocError>
    requires past { ArePastOf entries.now.slots slots.old }
    requires none { whole.old.items ≡ [] }
    ensures { OnOk result
        (ArePacked number entries.now.slots whole.new.items slots.new) }
{
    for slot in 0..entries.len() {
        pack_slot(entries, number, slot, slots, whole)?;
    }
    slots.truncate(entries.len());
    Ok(())
}

/// Packs a range of slots ahead of the rest, over slots that were packed in an earlier state. So they
/// needn't be written when all are packed, unless they change until then. A slot without a small form is
/// skipped.
pub fn pack_ahead<T: Drop>(
    entries: &Entries<T>,
    slots: &mut PackedSlots,
    from: usize,
    to: usize,
) -> Result<(), AllocError>
    ensures { OnOk result (AreRenewed entries.now.slots slots.old slots.new) }
{
    for slot in from.min(slots.len())..to.min(entries.len()) {
        put_small(entries, slot, slots)?;
    }
    Ok(())
}

// Packs the next slot ahead.
#[inline(always)]
fn put_small<T: Drop>(
    entries: &Entries<T>,
    slot: usize,
    slots: &mut PackedSlots,
) -> Result<(), AllocError>
    requires within { slot < length entries.now.slots }
    requires next { slot ≤ length slots.old }
    ensures renewed { OnOk result (AreRenewed entries.now.slots slots.old slots.new) }
    ensures long { OnOk result (slot < length slots.new) }
{
    if slot < slots.len() && stays(entries, slot, slots.slot(slot)) {
        return Ok(());
    }
    let packed = small_slot(entries, slot).unwrap_or(PackedSlot::Whole(0));
    slots.put(slot, packed, entries.details(slot).created_at)
}

// Packs the rows of the next slot.
#[inline(always)]
fn pack_slot<T: Drop>(
    entries: &Entries<T>,
    number: u64,
    slot: usize,
    slots: &mut PackedSlots,
    whole: &mut Vec<BaseRow>,
) -> Result<(), AllocError>
    requires within { slot < length entries.now.slots }
    requires next { slot ≤ length slots.old }
    requires past { IfSome (slice_get entries.now.slots slot)
        (λ e. IfSome (slice_get slots.old slot) (λ p. IsPastOf e p)) }
    ensures { OnOk result (IfSome (slice_get entries.now.slots slot) (λ e.
        Packs number slot e whole.old.items slots.old whole.new.items slots.new)) }
{
    if slot < slots.len() && stays(entries, slot, slots.slot(slot)) {
        return Ok(());
    }
    let (packed, created_at) = packed_slot(entries, number, slot, whole)?;
    slots.put(slot, packed, created_at)
}

// A packed slot, for which whole rows may be appended, and where its cell was made.
fn packed_slot<T: Drop>(
    entries: &Entries<T>,
    number: u64,
    slot: usize,
    whole: &mut Vec<BaseRow>,
) -> Result<(PackedSlot, Location), AllocError>
    requires { slot < length entries.now.slots }
    ensures { IfOk result (λ p. IfSome (slice_get entries.now.slots slot)
        (λ e. IsPacked number slot e whole.old.items whole.new.items p)) }
{
    let created_at = entries.details(slot).created_at;
    if let Some(packed) = small_slot(entries, slot) {
        return Ok((packed, created_at));
    }
    let from = whole.len();
    push_slot(entries, number, slot, whole)?;
    // more rows don't fit into memory
    let Ok(many) = u32::try_from(whole.len() - from) else {
        return Err(AllocError);
    };
    Ok((PackedSlot::Whole(many), created_at))
}

// Whether a slot is unchanged since it was packed. The location needn't be compared: a name's cell always
// has the same.
#[inline(always)]
fn stays<T: Drop>(entries: &Entries<T>, slot: usize, past: PackedSlot) -> bool
    requires { slot < length entries.now.slots }
    ensures { OnTrue result (IfSome (slice_get entries.now.slots slot)
        (λ e. (l : Location) → IsPastOf e (past, l) → IsSmall slot (past, l) e)) }
{
    let name = CellName {
        slot,
        generation: entries.generation(slot),
    };
    match past {
        PackedSlot::Value(generation) => {
            generation as u64 == name.generation && entries.has_unborrowed_value(name)
        }
        PackedSlot::Free(generation) => {
            generation as u64 == name.generation
                && entries.kind(name).is_none()
                && entries.target(name).is_none()
        }
        PackedSlot::Shared(generation) => {
            generation as u64 == name.generation
                && matches!(entries.kind(name), Some(CellKind::Shared))
                && entries.is_unborrowed(slot)
        }
        PackedSlot::Whole(_) => false,
    }
}

// The last generation that fits.
const MOST: u64 = u32::MAX as u64;

// A slot in few bytes: one whose generation fits, and whose cell, if it is live, is a value that
// nobody borrows.
#[inline(always)]
fn small_slot<T: Drop>(entries: &Entries<T>, slot: usize) -> Option<PackedSlot>
    requires { slot < length entries.now.slots }
    ensures { IfSome result (λ p. IfSome (slice_get entries.now.slots slot)
        (λ e. (l : Location) → WasMadeIn e l → IsSmall slot (p, l) e)) }
{
    let name = CellName {
        slot,
        generation: entries.generation(slot),
    };
    if name.generation > MOST || !entries.is_unborrowed(slot) {
        return None;
    }
    match entries.kind(name) {
        Some(CellKind::Value) => Some(PackedSlot::Value(name.generation as u32)),
        Some(CellKind::Shared) => Some(PackedSlot::Shared(name.generation as u32)),
        None => match entries.target(name) {
            Some(_) => None,
            None => Some(PackedSlot::Free(name.generation as u32)),
        },
    }
}
