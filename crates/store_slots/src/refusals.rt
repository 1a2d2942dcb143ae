//! The errors of calls on boxes that refer to nothing.

ghost use Rattle.std.specs.Prelude.{◌≡◌};
ghost use Rattle.generational_errors.specs.declared.error.Refused.TheVariants as refused;
ghost use Rattle.generational_errors.specs.declared.error.BorrowError.TheVariants as reads;
ghost use Rattle.generational_errors.specs.declared.error.BorrowMutError.TheVariants as writes;

use generational_core::{BorrowError, BorrowMutError, Location, Refused, ValueDroppedError};

/// The error of a read of a box that refers to nothing; the box or the value was made at a location.
pub fn dropped(created_at: Location) -> BorrowError
    ensures { result ≡ reads.Dropped (record { created_at = created_at }) }
{
    BorrowError::Dropped(ValueDroppedError::new(created_at))
}

/// The error of a write, a removal or a change of a target.
pub fn dropped_mut(created_at: Location) -> Refused<BorrowMutError>
    ensures { result ≡ refused.Borrow (writes.Dropped (record { created_at = created_at })) }
{
    Refused::Borrow(BorrowMutError::Dropped(ValueDroppedError::new(created_at)))
}
