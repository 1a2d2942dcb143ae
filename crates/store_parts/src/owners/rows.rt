//! The rows of owners' records.

ghost use Rattle.std.specs.Prelude.{◌≡◌, ℕ, ◌++◌, None, IfSome, IfNone, IfOk, OnOk, slice_get};
ghost use Rattle.std.specs.BTreeMap.{get};
ghost use Rattle.std.specs.FinMap as map;
ghost use Rattle.std.specs.Ordering.{nat_cmp};
ghost use Rattle.generational_core.specs.Rows.{owner_rows, record_rows};
ghost use Rattle.store_parts.specs.KeptRecords.{HasDistinctKeys, HasRecord, IsPositionOf, owners_of};
ghost use Rattle.store_parts.specs.KeptRecords.{rows_of_record};
ghost use Rattle.store_parts.specs.KeptRecords.{record_at};

use super::OwnerRecord;
use generational_core::BaseRow;
use std::alloc::{AllocError, Global};
use std::collections::BTreeMap;
use store_room::push_more;

// Appends the rows of the records at these positions by their keys.
pub(super) fn push_rows_by_key(
    alloc: Global,
    records: &[Option<OwnerRecord>],
    number: u64,
    rows: &mut Vec<BaseRow>,
) -> Result<(), AllocError>
    requires { HasDistinctKeys records.now }
    ensures { OnOk result (rows.new.items
        ≡ rows.old.items ++ owner_rows number (map.entries (owners_of records.now))) }
{
    let by_key = positions_by_key(alloc, records)?;
    for (_, position) in by_key.iter() {
        push_rows_at(records, *position, number, rows)?;
    }
    Ok(())
}

impl OwnerRecord {
    // Appends its rows.
    fn push_rows(&self, number: u64, rows: &mut Vec<BaseRow>) -> Result<(), AllocError>
        ensures { OnOk result (rows.new.items
            ≡ rows.old.items ++ record_rows number (self.now.key, self.now.ownership)) }
    {
        push_more(rows, BaseRow::Owner(self.key, self.count))?;
        for name in self.boxes.iter() {
            push_more(rows, BaseRow::Owned(self.key, name.id(number)))?;
        }
        Ok(())
    }
}

// The position of each record, by its key.
fn positions_by_key(
    alloc: Global,
    records: &[Option<OwnerRecord>],
) -> Result<BTreeMap<u64, usize>, AllocError>
    ensures { IfOk result (λ by_key. (key : ℕ) → IsPositionOf records.now key (get nat_cmp by_key key)) }
{
    let mut by_key = BTreeMap::new(alloc);
    for position in 0..records.len() {
        let Some(key) = key_at(records, position) else {
            continue;
        };
        if by_key.insert(key, position).is_err() {
            return Err(AllocError);
        }
    }
    Ok(by_key)
}

// The key of the record at a position, if there is one.
fn key_at(records: &[Option<OwnerRecord>], position: usize) -> Option<u64>
    ensures some { IfSome result (λ key. HasRecord key (slice_get records.now position)) }
    ensures none { IfNone result
        ((key : ℕ) → record_at key (slice_get records.now position) ≡ None) }
{
    match records.get(position) {
        Some(Some(record)) => Some(record.key),
        _ => None,
    }
}

// Appends the rows of the record at a position, if there is one.
fn push_rows_at(
    records: &[Option<OwnerRecord>],
    position: usize,
    number: u64,
    rows: &mut Vec<BaseRow>,
) -> Result<(), AllocError>
    ensures { OnOk result (rows.new.items
        ≡ rows.old.items ++ rows_of_record number (slice_get records.now position)) }
{
    let Some(found) = records.get(position) else {
        return Ok(());
    };
    match found {
        Some(record) => record.push_rows(number, rows),
        None => Ok(()),
    }
}
