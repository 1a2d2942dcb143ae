//! Writing through a writer's view.

ghost use Rattle.std.specs.Prelude.{◌≡◌};

use generational_box::GenerationalRefMut;

/// Sets the value of a writer's guard through the guard's view, and drops the old value.
pub fn overwrite<T: Drop>(guard: &mut GenerationalRefMut<T>, value: T)
    ensures { guard.new ≡ record guard.old { value = value } }
{
    *guard.deref_mut() = value;
}
