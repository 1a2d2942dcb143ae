//! The cells of handles.

ghost use Rattle.std.specs.Prelude.{◌≡◌, option_copied};
ghost use Rattle.generational_core.specs.Seeing.{value_in};
ghost use Rattle.handles.specs.Handles.{id_in, pointer_in};

use crate::handle::Handle;
use generational_core::parts::pointer_at;
use generational_core::{GenerationalPointer, Location, Storage};

/// The pointer to a handle's cell. Its location has no meaning.
#[inline(always)]
pub fn pointer_to<T, K>(handle: Handle<T, K>) -> GenerationalPointer
    ensures { result.id ≡ id_in handle }
{
    pointer_at(
        handle.store,
        handle.slot as usize,
        handle.generation,
        Location::new("", 0, 0),
    )
}

/// Borrows a handle's value. Doesn't allocate.
#[inline(always)]
pub fn peek<T, K, S: Storage<T>>(store: &S, handle: Handle<T, K>) -> Option<&T>
    ensures { option_copied result ≡ value_in (S.state store.now) (pointer_in handle) }
{
    store.peek(pointer_to(handle))
}
