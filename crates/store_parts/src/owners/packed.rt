//! The records of owners in few bytes.

ghost use Rattle.std.specs.Prelude.{◌≡◌, ◌++◌, ◌∷◌, [], IfOk, OnOk, drop, length};
ghost use Rattle.std.specs.FinMap as map;
ghost use Rattle.generational_core.specs.Rows.{owner_rows};
ghost use Rattle.store_parts.specs.KeptRecords.{HasDistinctKeys, owners_of};
ghost use Rattle.store_parts.specs.PackedOwners.{bare_record, bare_records, packed_names, packed_names_of};
ghost use Rattle.store_parts.specs.PackedOwners.{unpack_record, unpack_records};

use super::rows::push_rows_by_key;
use super::{OwnerRecord, OwnerRecords};
use crate::names::CellName;
use crate::room::touched;
use generational_core::BaseRow;
use std::alloc::{AllocError, Global};
use std::marker::Model;
use store_room::push_more;

/// The records of owners, position by position, in few bytes. Contracts model them as the records at their
/// positions, without room for more names.
#[derive(Drop)]
pub struct PackedOwners {
    records: Vec<Option<PackedRecord>>,
    // the names on their lists, one list after the other
    names: Vec<CellName>,
}

/// An owner's record, with how many of the next names are on its list.
#[derive(Clone, Copy)]
pub struct PackedRecord {
    pub key: u64,
    pub count: u64,
    pub names: usize,
}

impl Model for PackedOwners {
    ghost use Rattle.std.specs.Prelude.{List};
    ghost use Rattle.store_parts.specs.KeptRecords.{HasDistinctKeys, MaybeRecord};
    ghost use Rattle.store_parts.specs.PackedOwners.{unpack_records};

    ghost Value = { List MaybeRecord };

    ghost view = { λ p. unpack_records p.names.items p.records.items };

    ghost invariant = { λ p. HasDistinctKeys (unpack_records p.names.items p.records.items) };
}

impl OwnerRecords {
    /// The records, packed into the memory of others.
    pub fn pack(&self, past: PackedOwners) -> Result<PackedOwners, AllocError>
        ensures { IfOk result (λ packed. owners_of packed ≡ self.now.owners) }
    {
        let PackedOwners {
            mut records,
            mut names,
        } = past;
        records.clear();
        names.clear();
        for position in 0..self.records.len() {
            push_packed(&mut records, &mut names, &self.records[position])?;
        }
        Ok(PackedOwners { records, names })
    }

    /// How many positions there are, and how many names are on all lists.
    pub fn counts(&self) -> (usize, usize) {
        let mut names = 0usize;
        for position in 0..self.records.len() {
            if let Some(record) = &self.records[position] {
                names = names.saturating_add(record.boxes.len());
            }
        }
        (self.records.len(), names)
    }
}

impl PackedOwners {
    /// No positions. Doesn't allocate.
    pub fn new(alloc: Global) -> PackedOwners
        ensures { result ≡ [] }
    {
        PackedOwners {
            records: Vec::new(alloc),
            names: Vec::new(alloc),
        }
    }

    /// No records, with room for so many and for so many names, and some more of each. Their memory is
    /// touched.
    pub fn with_room(
        alloc: Global,
        records: usize,
        names: usize,
    ) -> Result<PackedOwners, AllocError>
        ensures { IfOk result (λ packed. packed ≡ []) }
    {
        let name = CellName {
            slot: 1,
            generation: 1,
        };
        Ok(PackedOwners {
            records: touched(alloc, records, None)?,
            names: touched(alloc, names, name)?,
        })
    }

    /// Whether the capacity is enough for so many records and names.
    pub fn has_room(&self, records: usize, names: usize) -> bool {
        records <= self.records.capacity() && names <= self.names.capacity()
    }

    /// Appends the rows of all records by their keys, with ids of the store with this number.
    pub fn push_rows(
        &self,
        alloc: Global,
        number: u64,
        rows: &mut Vec<BaseRow>,
    ) -> Result<(), AllocError>
        ensures { OnOk result (rows.new.items
            ≡ rows.old.items ++ owner_rows number (map.entries (owners_of self.now))) }
    {
        let records = self.unpack(alloc)?;
        push_rows_by_key(alloc, records.as_slice(), number, rows)
    }

    // The positions with their records.
    fn unpack(&self, alloc: Global) -> Result<Vec<Option<OwnerRecord>>, AllocError>
        ensures records { IfOk result (λ records. bare_records records.items ≡ self.now) }
        ensures apart { IfOk result (λ records. HasDistinctKeys records.items) }
    {
        let mut records = Vec::new(alloc);
        let mut rest = self.names.as_slice();
        for position in 0..self.records.len() {
            let (unpacked, after) = unpack_record(alloc, rest, self.records[position])?;
            records.push(unpacked)?;
            rest = after;
        }
        Ok(records)
    }
}

// Packs the next position.
fn push_packed(
    records: &mut Vec<Option<PackedRecord>>,
    names: &mut Vec<CellName>,
    position: &Option<OwnerRecord>,
) -> Result<(), AllocError>
    requires { packed_names_of records.old.items ≡ length names.old.items }
    ensures more { OnOk result (unpack_records names.new.items records.new.items
        ≡ unpack_records names.old.items records.old.items ++ bare_record position.now ∷ []) }
    ensures all { OnOk result (packed_names_of records.new.items ≡ length names.new.items) }
{
    let Some(record) = position else {
        return push_more(records, None);
    };
    let packed = PackedRecord {
        key: record.key,
        count: record.count,
        names: record.boxes.len(),
    };
    push_more(records, Some(packed))?;
    names.extend_from_slice(record.boxes.as_slice())
}

// The record that a packed one represents, if these are the next names, and the names after its own.
fn unpack_record<'a>(
    alloc: Global,
    names: &'a [CellName],
    packed: Option<PackedRecord>,
) -> Result<(Option<OwnerRecord>, &'a [CellName]), AllocError>
    ensures position { IfOk result (λ r. bare_record r.0 ≡ unpack_record names.now packed) }
    ensures rest { IfOk result (λ r. r.1.now ≡ drop (packed_names packed) names.now) }
{
    let Some(record) = packed else {
        return Ok((None, names));
    };
    let (own, rest) = if record.names <= names.len() {
        names.split_at(record.names)
    } else {
        (names, &names[names.len()..])
    };
    let mut boxes = Vec::new(alloc);
    boxes.extend_from_slice(own)?;
    let record = OwnerRecord {
        key: record.key,
        boxes,
        count: record.count,
    };
    Ok((Some(record), rest))
}
