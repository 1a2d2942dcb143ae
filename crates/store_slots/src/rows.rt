//! The rows of slots.

ghost use Rattle.std.specs.Prelude.{◌≡◌, ◌<◌, ◌++◌, IfSome, OnOk, length, slice_get};
ghost use Rattle.generational_core.specs.Rows.{cell_rows};
ghost use Rattle.store_parts.specs.CellNames.{name_of_cell};
ghost use Rattle.store_cells.specs.Entry.{cell_under};
ghost use Rattle.store_slots.specs.SlotRows.{entry_rows};

use generational_core::BaseRow;
use std::alloc::AllocError;
use store_cells::entries::Entries;
use store_cells::entry::CellKind;
use store_parts::names::CellName;
use store_room::push_more;

/// Appends the rows of a slot: its own, and those of its live cell.
pub fn push_slot<T: Drop>(
    entries: &Entries<T>,
    number: u64,
    slot: usize,
    rows: &mut Vec<BaseRow>,
) -> Result<(), AllocError>
    requires { slot < length entries.now.slots }
    ensures { OnOk result (IfSome (slice_get entries.now.slots slot)
        (λ e. rows.new.items ≡ rows.old.items ++ entry_rows number slot e)) }
{
    let generation = entries.generation(slot);
    push_more(rows, BaseRow::Slot(slot, generation))?;
    push_cell(entries, number, CellName { slot, generation }, rows)
}

// Appends the rows of the cell of a name, if it is live: its own, and those of its borrows.
fn push_cell<T: Drop>(
    entries: &Entries<T>,
    number: u64,
    name: CellName,
    rows: &mut Vec<BaseRow>,
) -> Result<(), AllocError>
    requires { name.slot < length entries.now.slots }
    ensures { OnOk result (rows.new.items ≡ rows.old.items ++ cell_rows number
        (name_of_cell name) (cell_under entries.now.slots (name_of_cell name))) }
{
    let id = name.id(number);
    let created_at = entries.details(name.slot).created_at;
    if let Some(target) = entries.target(name) {
        return push_more(rows, BaseRow::Ref(id, target.id(number), created_at));
    }
    match entries.kind(name) {
        Some(CellKind::Value) => push_more(rows, BaseRow::Value(id, created_at))?,
        Some(CellKind::Shared) => push_more(rows, BaseRow::Shared(id, created_at))?,
        None => return Ok(()),
    }
    entries.push_borrows(name.slot, id, rows)
}
