//! Capacity of buffers.

ghost use Rattle.std.specs.Prelude.{◌≡◌, ◌≤◌, [], IfErr, IfOk, OnOk, vec_capacity};
ghost use Rattle.generational_errors.specs.declared.error.StoreError.TheVariants.{OutOfMemory};

use generational_core::StoreError;
use std::alloc::{AllocError, Global};

/// Makes a buffer large enough for this many in all. If memory runs out it is unchanged.
pub fn reserve_room<X: Drop>(
    items: &mut Vec<X>,
    alloc: Global,
    room: usize,
) -> Result<(), StoreError>
    ensures items { items.new.items ≡ items.old.items }
    ensures ok { OnOk result (room ≤ vec_capacity items.new) }
    ensures capacity { vec_capacity items.old ≤ vec_capacity items.new }
    ensures cause { IfErr result (λ error. error ≡ OutOfMemory) }
{
    if room <= items.capacity() {
        return Ok(());
    }
    // an empty buffer isn't copied
    if items.is_empty() {
        match Vec::with_capacity(alloc, room) {
            Ok(larger) => *items = larger,
            Err(_) => return Err(StoreError::OutOfMemory),
        }
        return Ok(());
    }
    if items.reserve_exact(room - items.len()).is_err() {
        return Err(StoreError::OutOfMemory);
    }
    Ok(())
}

/// An empty list with room for so many elements and some more, whose memory is touched.
pub fn touched<X: Copy>(alloc: Global, wanted: usize, some: X) -> Result<Vec<X>, AllocError>
    ensures { IfOk result (λ room. room.items ≡ []) }
{
    let mut room = Vec::new(alloc);
    room.resize(wanted.saturating_add(wanted / 8), some)?;
    room.clear();
    Ok(room)
}
