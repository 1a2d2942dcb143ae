//! The borrows that block a removal.

ghost use Rattle.std.specs.Prelude.{◌≡◌, ◌&&◌, true, Some, IfSome, is_some, option_map};
ghost use Rattle.std.specs.Prelude.{count_by, map as list_map};
ghost use Rattle.std.specs.List.{IsDistinct, list_all};
ghost use Rattle.generational_core.specs.Cells.{is_shared, refers_to};
ghost use Rattle.generational_core.specs.Conditions.{IsLinked};
ghost use Rattle.generational_core.specs.Ending.{cells_after, first_hindrance, take_away};
ghost use Rattle.generational_core.specs.Names.{is_name};
ghost use Rattle.generational_core.specs.State.{is_named};
ghost use Rattle.store_cells.specs.Entry.{FoundBorrowed, cell_under, is_unborrowed_value};
ghost use Rattle.store_cells.specs.Entry.{target_name_in};
ghost use Rattle.store_parts.specs.CellNames.{name_of_cell};
ghost use Rattle.store_slots.specs.SlotsState.{AreReferred, cells_of, would_end, has_other_count};
ghost use Rattle.store_slots.specs.SlotsState.{borrowed_at, refusal_of};

use generational_core::BorrowMutResult;
use store_cells::entries::Entries;
use store_cells::entry::CellKind;
use store_parts::names::CellName;

/// The value that is removed with a name: its own, or the target's, if nothing else refers to that. The
/// caller knows the target.
#[inline(always)]
pub fn would_end<T: Drop>(
    entries: &Entries<T>,
    name: CellName,
    target: Option<CellName>,
) -> Option<CellName>
    requires linked { IsLinked (cells_of entries.now.slots) }
    requires target { option_map name_of_cell target
        ≡ target_name_in (cell_under entries.now.slots (name_of_cell name)) }
    ensures { option_map name_of_cell result ≡ would_end (has_other_count entries.now.slots 1)
        (cell_under entries.now.slots (name_of_cell name)) (name_of_cell name) }
{
    if let Some(target) = target {
        if entries.details(target.slot).references == 1 {
            return Some(target);
        }
        return None;
    }
    match entries.kind(name) {
        Some(CellKind::Value) => Some(name),
        _ => None,
    }
}

/// Whether each of the names is of a value that isn't shared and has no borrow.
#[inline(always)]
pub fn are_unborrowed_values<T: Drop>(entries: &Entries<T>, names: &[CellName]) -> bool
    ensures { result ≡ list_all
        (λ n. is_unborrowed_value (cell_under entries.now.slots (name_of_cell n))) names.now }
{
    names.iter().all(|name| entries.has_unborrowed_value(*name))
}

/// The borrows that block the removal of the names of a list, at the first name that has any. Only an
/// error's list of locations is allocated.
#[inline(always)]
pub fn find_blocking_borrow<T: Drop>(
    entries: &Entries<T>,
    names: &[CellName],
) -> BorrowMutResult<()>
    requires linked { IsLinked (cells_of entries.now.slots) }
    requires referred { AreReferred (λ m. 0) entries.now.slots }
    requires apart { IsDistinct is_name (list_map name_of_cell names.now) }
    ensures { FoundBorrowed (first_hindrance (cells_of entries.now.slots)
        (cells_after (cells_of entries.now.slots) (list_map name_of_cell names.now))
        (list_map name_of_cell names.now)) result }
{
    match find_blocking_value(entries, names) {
        Some(value) => entries.borrow_mut_error(value.slot),
        None => Ok(()),
    }
}

/// The borrowed value that blocks the removal of the names of a list: the first that a name refers to and
/// that would be removed. Doesn't allocate. A borrowed value that stays live is checked once for
/// consecutive names that refer to it: so the time is linear in the list, plus once more the list for
/// each change to another such value.
#[cold]
#[inline(never)]
pub fn find_blocking_value<T: Drop>(entries: &Entries<T>, names: &[CellName]) -> Option<CellName>
    requires linked { IsLinked (cells_of entries.now.slots) }
    requires referred { AreReferred (λ m. 0) entries.now.slots }
    requires apart { IsDistinct is_name (list_map name_of_cell names.now) }
    ensures hindrance { first_hindrance (cells_of entries.now.slots)
        (cells_after (cells_of entries.now.slots) (list_map name_of_cell names.now))
        (list_map name_of_cell names.now)
        ≡ refusal_of (cells_of entries.now.slots) (option_map name_of_cell result) }
    ensures borrowed { IfSome result (λ m.
        is_some (refusal_of (cells_of entries.now.slots) (Some (name_of_cell m))) ≡ true) }
{
    let mut spared = None;
    for name in names {
        let Some(value) = borrowed_value(entries, *name) else {
            continue;
        };
        if spared == Some(value) {
            continue;
        }
        if !lives_on(entries, names, value) {
            return Some(value);
        }
        spared = Some(value);
    }
    None
}

// The borrowed value that a name refers to: its own, or its reference's target.
#[inline(always)]
fn borrowed_value<T: Drop>(entries: &Entries<T>, name: CellName) -> Option<CellName>
    requires { IsLinked (cells_of entries.now.slots) }
    ensures { option_map name_of_cell result
        ≡ borrowed_at entries.now.slots (name_of_cell name) }
{
    if entries.has_unborrowed_value(name) {
        return None;
    }
    let Some(value) = entries.reach(name) else {
        return None;
    };
    if entries.is_unborrowed(value.slot) {
        return None;
    }
    Some(value)
}

// Whether a cell is a shared value with a reference other than those of a list.
fn lives_on<T: Drop>(entries: &Entries<T>, names: &[CellName], value: CellName) -> bool
    requires referred { AreReferred (λ m. 0) entries.now.slots }
    requires apart { IsDistinct is_name (list_map name_of_cell names.now) }
    ensures { result ≡ (is_shared (cell_under entries.now.slots (name_of_cell value))
        && is_named (take_away (cells_of entries.now.slots) (list_map name_of_cell names.now))
        (name_of_cell value)) }
{
    match entries.kind(value) {
        Some(CellKind::Shared) => {
            references_among(entries, names, value) < entries.details(value.slot).references
        }
        _ => false,
    }
}

// How many names of a list are of references to a cell.
fn references_among<T: Drop>(entries: &Entries<T>, names: &[CellName], target: CellName) -> usize
    ensures { result ≡ count_by (λ n. refers_to (name_of_cell target)
        (cell_under entries.now.slots (name_of_cell n))) names.now }
{
    names
        .iter()
        .filter(|name| refers_to(entries, **name, target))
        .count()
}

// Whether a name is that of a reference to a cell.
fn refers_to<T: Drop>(entries: &Entries<T>, name: CellName, target: CellName) -> bool
    ensures { result ≡ refers_to (name_of_cell target)
        (cell_under entries.now.slots (name_of_cell name)) }
{
    match entries.target(name) {
        Some(named) => named == target,
        None => false,
    }
}
