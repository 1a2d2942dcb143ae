//! Clones of boxes.

ghost use Rattle.std.specs.Prelude.{◌≡◌};

use generational_box::GenerationalBox;

/// The clone of a box, which never fails: it is the same box.
pub fn clone_of<T>(given: &GenerationalBox<T>) -> GenerationalBox<T>
    ensures { result ≡ given.now }
{
    match given.clone() {
        Ok(clone) => clone,
        Err(_) => unreachable!(),
    }
}
