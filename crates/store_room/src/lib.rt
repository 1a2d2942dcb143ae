//! Reserving capacity, with smaller requests if an allocation fails.
#![tactic(auto)]

ghost use Rattle.std.specs.Prelude.{◌≡◌, ◌+◌, ◌<◌, ◌≤◌, ◌++◌, ◌∷◌, [], IfSome, OnOk, OnErr};
ghost use Rattle.std.specs.Prelude.{vec_len, vec_capacity};

use std::alloc::AllocError;

/// Reserves capacity for this many more elements, like `reserve`: mostly it doubles the length, so that
/// few calls allocate. If an allocation fails, it requests half of what exceeds the need, then a quarter
/// and so on, and at last only what is needed. Fails only if that fails, with nothing changed.
#[inline(always)]
pub fn reserve_more<X>(items: &mut Vec<X>, more: usize) -> Result<(), AllocError>
    ensures items { items.new.items ≡ items.old.items }
    ensures ok { OnOk result (vec_len items.new + more ≤ vec_capacity items.new) }
    ensures capacity { vec_capacity items.old ≤ vec_capacity items.new }
    ensures err { OnErr result (vec_capacity items.new ≡ vec_capacity items.old) }
{
    if items.reserve(more).is_ok() {
        return Ok(());
    }
    let beside = items.len().saturating_sub(more) / 2;
    reserve_beside(items, more, beside)
}

// Reserves capacity for this many more elements, and for so many in addition, or for fewer in addition.
#[cold]
#[inline(never)]
fn reserve_beside<X>(items: &mut Vec<X>, more: usize, beside: usize) -> Result<(), AllocError>
    ensures items { items.new.items ≡ items.old.items }
    ensures ok { OnOk result (vec_len items.new + more ≤ vec_capacity items.new) }
    ensures capacity { vec_capacity items.old ≤ vec_capacity items.new }
    ensures err { OnErr result (vec_capacity items.new ≡ vec_capacity items.old) }
{
    if items.reserve_exact(more.saturating_add(beside)).is_ok() {
        return Ok(());
    }
    if beside == 0 {
        return Err(AllocError);
    }
    reserve_beside(items, more, beside / 2)
}

/// Appends an element, and reserves capacity for it as above. If that fails, no element changes.
#[inline(always)]
pub fn push_more<X: Copy>(items: &mut Vec<X>, item: X) -> Result<(), AllocError>
    ensures ok { OnOk result (items.new.items ≡ items.old.items ++ item ∷ []) }
    ensures err { OnErr result (items.new.items ≡ items.old.items) }
{
    reserve_more(items, 1)?;
    items.push_reserved(item);
    Ok(())
}

/// The capacity that adds half of what the requested one adds to this one: None if that is nothing.
pub fn halfway(room: usize, asked: usize) -> Option<usize>
    ensures { IfSome result (λ less. (room < less) × (less < asked)) }
{
    let step = asked.saturating_sub(room) / 2;
    if step == 0 {
        return None;
    }
    Some(room + step)
}
