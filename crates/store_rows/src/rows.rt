//! The rows of a whole store, packed.

ghost use Rattle.std.specs.Prelude.{◌≡◌, ◌++◌, [], IfOk, OnOk};
ghost use Rattle.std.specs.FinMap as map;
ghost use Rattle.generational_core.specs.Rows.{owner_rows};
ghost use Rattle.store_parts.specs.KeptRecords.{owners_of};
ghost use Rattle.store_rows.specs.Packed.{unpack_all};
ghost use Rattle.store_rows.specs.Past.{AreSlotsOf};

use crate::columns::PackedSlots;
use crate::packed::{after, unpack};
use generational_core::BaseRow;
use std::alloc::{AllocError, Global};
use std::marker::Model;
use store_parts::owners::PackedOwners;
use store_parts::room::touched;

/// How many slots, whole rows, owners' records and names on their lists there are.
#[derive(Clone, Copy, Debug)]
pub struct RowCounts {
    pub slots: usize,
    pub whole: usize,
    pub owners: usize,
    pub names: usize,
}

/// The packed slots and owners of an earlier state, and an empty list with room for whole rows. A slot
/// that hasn't changed needn't be written again.
#[derive(Drop)]
pub struct PastRows {
    pub slots: PackedSlots,
    pub whole: Vec<BaseRow>,
    pub owners: PackedOwners,
    ghost no_whole: { whole.items ≡ [] },
}

/// The rows of what a store with this number has, packed. Contracts model it as the rows.
#[derive(Drop)]
pub struct PackedRows {
    number: u64,
    slots: PackedSlots,
    whole: Vec<BaseRow>,
    owners: PackedOwners,
}

impl Model for PackedRows {
    ghost use Rattle.std.specs.Prelude.{List, ◌++◌};
    ghost use Rattle.std.specs.FinMap as map;
    ghost use Rattle.generational_core.specs.Rows.{owner_rows};
    ghost use Rattle.generational_core.specs.declared.rows.BaseRow.{BaseRow};
    ghost use Rattle.store_parts.specs.KeptRecords.{owners_of};
    ghost use Rattle.store_rows.specs.Packed.{unpack_all};

    ghost Value = { List BaseRow };

    ghost view = { λ r. unpack_all r.number r.whole.items 0 r.slots
        ++ owner_rows r.number (map.entries (owners_of r.owners)) };
}

impl PackedRows {
    /// No rows. Doesn't allocate.
    pub fn new(alloc: Global) -> PackedRows
        ensures { result ≡ [] }
    {
        let slots = PackedSlots::new(alloc);
        PackedRows::of(0, slots, Vec::new(alloc), PackedOwners::new(alloc))
    }

    /// No rows, with room for so many of each, and, except for slots, some more. Their memory is touched.
    pub fn with_room(alloc: Global, counts: RowCounts) -> Result<PackedRows, AllocError>
        ensures { IfOk result (λ rows. rows ≡ []) }
    {
        let slots = PackedSlots::with_room(alloc, counts.slots)?;
        let whole = touched(alloc, counts.whole, BaseRow::Slot(1, 1))?;
        let owners = PackedOwners::with_room(alloc, counts.owners, counts.names)?;
        Ok(PackedRows::of(0, slots, whole, owners))
    }

    /// The rows of these slots, and those of the owners after them.
    pub fn of(
        number: u64,
        slots: PackedSlots,
        whole: Vec<BaseRow>,
        owners: PackedOwners,
    ) -> PackedRows
        ensures { result ≡ unpack_all number whole.items 0 slots
            ++ owner_rows number (map.entries (owners_of owners)) }
    {
        PackedRows {
            number,
            slots,
            whole,
            owners,
        }
    }

    /// How many whole rows there are.
    pub fn whole(&self) -> usize {
        self.whole.len()
    }

    /// Whether the capacity is enough for so many of each.
    pub fn has_room(&self, counts: RowCounts) -> bool {
        self.slots.has_room(counts.slots)
            && counts.whole <= self.whole.capacity()
            && self.owners.has_room(counts.owners, counts.names)
    }

    /// The slots and owners, for the next rows to be written over them.
    pub fn into_past(self) -> PastRows
        ensures { AreSlotsOf self result.slots }
    {
        let PackedRows {
            number: _,
            slots,
            mut whole,
            owners,
        } = self;
        whole.clear();
        PastRows {
            slots,
            whole,
            owners,
        }
    }

    /// The rows one by one.
    pub fn to_vec(&self, alloc: Global) -> Result<Vec<BaseRow>, AllocError>
        ensures { IfOk result (λ rows. rows.items ≡ self.now) }
    {
        let mut rows = Vec::new(alloc);
        unpack_all(&mut rows, self.number, self.whole.as_slice(), &self.slots)?;
        self.owners.push_rows(alloc, self.number, &mut rows)?;
        Ok(rows)
    }
}

// Appends the rows that these slots represent, in order; the first is slot 0.
fn unpack_all(
    rows: &mut Vec<BaseRow>,
    number: u64,
    whole: &[BaseRow],
    slots: &PackedSlots,
) -> Result<(), AllocError>
    ensures { OnOk result
        (rows.new.items ≡ rows.old.items ++ unpack_all number whole.now 0 slots.now) }
{
    let mut rest = whole;
    for slot in 0..slots.len() {
        let packed = slots.slot(slot);
        unpack(rows, number, rest, slot, packed, slots.created_at(slot))?;
        rest = after(rest, packed);
    }
    Ok(())
}
