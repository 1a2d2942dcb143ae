//! What references refer to, and the counts of references at the slots of their targets.

ghost use Rattle.std.specs.Prelude.{◌≡◌, ◌<◌, IfSome, is_some, length, option_map, slice_get};
ghost use Rattle.generational_core.specs.Keeping.{boxed_at};
ghost use Rattle.store_parts.specs.CellNames.{name_of_cell};
ghost use Rattle.store_cells.specs.Entry.{cell_under};
ghost use Rattle.store_slots.specs.SlotsState.{count_less, count_more};

use store_cells::entries::Entries;
use store_cells::entry::CellKind;
use store_parts::names::CellName;

// Whether a live cell of this name has a box: a shared value has none.
pub(crate) fn is_boxed<T: Drop>(entries: &Entries<T>, name: CellName) -> bool
    ensures { result ≡ is_some (boxed_at (cell_under entries.now.slots (name_of_cell name))) }
{
    match entries.kind(name) {
        Some(kind) => matches!(kind, CellKind::Value),
        None => entries.target(name).is_some(),
    }
}

// Counts a new reference at the slot of its target.
#[inline(always)]
pub(crate) fn refer<T: Drop>(entries: &mut Entries<T>, target: Option<CellName>)
    requires within { IfSome target (λ m. m.slot < length entries.old.slots) }
    requires few { IfSome target (λ m. IfSome (slice_get entries.old.slots m.slot)
        (λ e. e.references < length entries.old.slots)) }
    ensures slots { entries.new.slots
        ≡ count_more entries.old.slots (option_map name_of_cell target) }
    ensures rooms { entries.new.rooms ≡ entries.old.rooms }
{
    if let Some(target) = target {
        entries.count_up(target.slot);
    }
}

// No longer counts a reference at the slot of its target.
#[inline(always)]
pub(crate) fn forget<T: Drop>(entries: &mut Entries<T>, named: Option<CellName>)
    requires within { IfSome named (λ m. m.slot < length entries.old.slots) }
    requires some { IfSome named (λ m. IfSome (slice_get entries.old.slots m.slot)
        (λ e. 0 < e.references)) }
    ensures slots { entries.new.slots
        ≡ count_less entries.old.slots (option_map name_of_cell named) }
    ensures rooms { entries.new.rooms ≡ entries.old.rooms }
{
    if let Some(named) = named {
        entries.count_down(named.slot);
    }
}
