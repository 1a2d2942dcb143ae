//! Tables that are taken apart and made again.

ghost use Rattle.std.specs.Prelude.{◌≡◌, ℕ, IfErr, IfOk, is_some, true};
ghost use Rattle.entity_table.specs.Components.{component_in};
ghost use Rattle.entity_table.specs.Tables.{Entity, element_in};
ghost use Rattle.entity_table.specs.declared.parts.RowFault.TheVariants.{OutOfMemory};

use entity_table::{ComponentTable, EntityTable, RowFault};
use generational_box::Storage;
use std::alloc::Global;

/// Takes a table and its components apart, and makes both again. Each entity has the same element, and each
/// live entity the same component.
///
/// # Errors
///
/// Only `OutOfMemory`.
pub fn made_again<S: Storage<u64> + Drop>(
    alloc: Global,
    table: EntityTable<u64, S>,
    names: ComponentTable<u64, u64>,
) -> Result<(EntityTable<u64, S>, ComponentTable<u64, u64>), RowFault>
    ensures elements { IfOk result (λ both. (e : Entity ℕ) → element_in both.0 e ≡ element_in table e) }
    ensures components { IfOk result (λ both. (e : Entity ℕ) → is_some (element_in table e) ≡ true →
        component_in both.1 e ≡ component_in names e) }
    ensures short { IfErr result (λ fault. fault ≡ OutOfMemory) }
{
    let mut names = names;
    names.sweep(&table);
    let Ok(rows) = names.into_parts(alloc) else {
        return Err(RowFault::OutOfMemory);
    };
    let Ok(table) = EntityTable::from_parts(alloc, table.into_parts()) else {
        return Err(RowFault::OutOfMemory);
    };
    match ComponentTable::from_parts(alloc, &table, rows) {
        Ok(names) => Ok((table, names)),
        Err(refusal) => Err(refusal.cause),
    }
}
