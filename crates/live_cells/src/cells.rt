//! The live cells of a store without references and borrows.

ghost use Rattle.std.specs.Prelude.{◌≡◌, ◌⊎◌, ℕ, None, Some, IfErr, IfOk, OnOk, is_some, slice_get, true};
ghost use Rattle.generational_core.specs.Keeping.{box_with};
ghost use Rattle.generational_core.specs.Seeing.{value_in};
ghost use Rattle.generational_core.specs.declared.boxes.GenerationalPointer.{GenerationalPointer};
ghost use Rattle.generational_laws.specs.PlainStores.{IsSimple};
ghost use Rattle.live_cells.specs.Cells.{IsCellFault, fault_of, first_fault, listed_cells};
ghost use Rattle.live_cells.specs.declared.cells.CellFault.TheVariants.{OutOfMemory};

use generational_core::parts::pointer_at;
use generational_core::{BaseRow, GenerationalBoxId, GenerationalPointer, Location, Storage};
use std::alloc::Global;
use std::error::Error;
use std::fmt;

/// Why a table or a tree can't be made of a store.
#[derive(Clone, Copy, Debug, PartialEq, Eq)]
pub enum CellFault {
    /// The value in this slot is borrowed.
    Borrowed(usize),
    /// This slot has a shared value, or a reference to one.
    Shared(usize),
    /// Out of memory.
    OutOfMemory,
}

/// Prints the fault and its slot.
impl fmt::Display for CellFault {
    fn fmt<W: fmt::Write>(&self, f: &mut fmt::Formatter<W>) -> fmt::Result {
        match self {
            CellFault::Borrowed(slot) => write!(f, "the value of slot {slot} is borrowed"),
            CellFault::Shared(slot) => write!(f, "slot {slot} has a shared value or a reference"),
            CellFault::OutOfMemory => f.write_str("out of memory"),
        }
    }
}

impl Error for CellFault {}

/// Returns the live cells of a store, each as its pointer with the location where it was made, in the
/// order of their slots. The store is unchanged. O(n) for n slots and records of owners. Allocates two
/// lists, of some 50 bytes for each slot.
///
/// # Errors
///
/// - `Shared` or `Borrowed`, for the first slot that has a shared value or a reference, or whose value
///   is borrowed.
/// - `OutOfMemory` if the lists can't be allocated.
pub fn plain_cells<T, S: Storage<T>>(
    alloc: Global,
    store: &S,
) -> Result<Vec<GenerationalPointer>, CellFault>
    ensures simple { OnOk result (IsSimple (S.state store.now)) }
    ensures live { IfOk result (λ cells. (k : ℕ) (b : GenerationalPointer) → slice_get cells.items k ≡ Some b →
        (box_with (S.state store.now) b.id ≡ Some b) × (is_some (value_in (S.state store.now) b) ≡ true)) }
    ensures every { IfOk result (λ cells. (b : GenerationalPointer) →
        is_some (value_in (S.state store.now) b) ≡ true →
        (k : ℕ) × (c : GenerationalPointer) × (slice_get cells.items k ≡ Some c) × (c.id ≡ b.id)) }
    ensures fault { IfErr result (IsCellFault (S.state store.now)) }
    ensures short { IsSimple (S.state store.now) → IfErr result (λ fault. fault ≡ OutOfMemory) }
{
    let Ok(rows) = store.rows() else {
        return Err(CellFault::OutOfMemory);
    };
    let cells = cells_in(alloc, rows.as_slice())?;
    Ok(cells)
}

// The cells that rows list, if no row has a fault.
fn cells_in(alloc: Global, rows: &[BaseRow]) -> Result<Vec<GenerationalPointer>, CellFault>
    ensures listed { IfOk result (λ cells. cells.items ≡ listed_cells rows.now) }
    ensures none { OnOk result (first_fault rows.now ≡ None) }
    ensures fault { IfErr result (λ fault. (fault ≡ OutOfMemory) ⊎ (first_fault rows.now ≡ Some fault)) }
{
    let mut cells = Vec::new(alloc);
    let mut left = rows;
    while let Some((row, rest)) = left.split_first() {
        if let Some(fault) = fault_in(*row) {
            return Err(fault);
        }
        if let BaseRow::Value(id, created_at) = *row {
            if cells.push(pointer(id, created_at)).is_err() {
                return Err(CellFault::OutOfMemory);
            }
        }
        left = rest;
    }
    Ok(cells)
}

// The fault of a row.
fn fault_in(row: BaseRow) -> Option<CellFault>
    ensures { result ≡ fault_of row }
{
    match row {
        BaseRow::Shared(id, _) => Some(CellFault::Shared(id.slot)),
        BaseRow::Ref(id, _, _) => Some(CellFault::Shared(id.slot)),
        BaseRow::Reader(id, _, _) => Some(CellFault::Borrowed(id.slot)),
        BaseRow::Writer(id, _, _) => Some(CellFault::Borrowed(id.slot)),
        _ => None,
    }
}

fn pointer(id: GenerationalBoxId, created_at: Location) -> GenerationalPointer
    ensures { result ≡ record { id = id; created_at = created_at } }
{
    pointer_at(id.store, id.slot, id.generation, created_at)
}
