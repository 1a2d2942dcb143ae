//! What a look at a box finds.

ghost use Rattle.std.specs.FinMap as map;
ghost use Rattle.generational_core.specs.Borrowing.{leads_to};
ghost use Rattle.generational_core.specs.Conditions.{IsLinked};
ghost use Rattle.store_parts.specs.CellNames.{name_of_cell};
ghost use Rattle.store_slots.specs.SlotsState.{cells_of, FindsCell};

use generational_core::AlreadyBorrowedMutError;
use store_cells::entries::Entries;
use store_parts::names::CellName;

/// What a box refers to, and its borrow.
#[derive(Clone, Copy)]
pub enum Found {
    /// The box refers to nothing.
    Nothing,
    /// A value without borrows.
    Unborrowed(CellName),
    /// A value that has readers.
    Read(CellName),
    /// A value that is being written, and where its writer began.
    Lent(AlreadyBorrowedMutError),
}

// What a box of this name refers to, and its borrow. It takes only the entries: LLVM assumes that the
// holder of the store may write all of it.
#[cold]
#[inline(never)]
pub(crate) fn look<T: Drop>(entries: &Entries<T>, name: CellName) -> Found
    requires { IsLinked (cells_of entries.now.slots) }
    ensures { let cells = cells_of entries.now.slots in
        FindsCell cells (leads_to (map.get cells (name_of_cell name)) (name_of_cell name)) result }
{
    let Some(value) = entries.reach(name) else {
        return Found::Nothing;
    };
    if entries.is_unborrowed(value.slot) {
        return Found::Unborrowed(value);
    }
    match entries.borrow_error(value.slot) {
        None => Found::Read(value),
        Some(writer) => Found::Lent(writer),
    }
}
