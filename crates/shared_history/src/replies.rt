//! How the results of the sequential store are recorded.

ghost use Rattle.std.specs.Prelude.{◌≡◌, IfSome};
ghost use Rattle.generational_core.specs.Answers.{back_answer, end_refused, owner_answer};
ghost use Rattle.generational_core.specs.Answers.{read_refused};
ghost use Rattle.generational_core.specs.Machine.{Action};
ghost use Rattle.generational_core.specs.Machine.Answer.{Flag, Refused as refuses};
ghost use Rattle.generational_core.specs.State.{State};
ghost use Rattle.shared_history.specs.Replies.{recorded_reply};
ghost use Rattle.shared_records.specs.declared.step.StepReply.TheVariants as reply;

use generational_core::{BorrowError, BorrowMutError, Owner, Refused, StoreError};
use shared_records::StepReply;

/// How an error of the store is recorded.
pub fn store_reply<T>(error: StoreError) -> Option<StepReply>
    ensures reply { (R : State T) (call : Action T) → result ≡ recorded_reply R call (refuses error) }
{
    match error {
        StoreError::OutOfMemory => None,
        _ => Some(StepReply::Store(error)),
    }
}

/// How the error of a read is recorded.
pub fn read_refusal<T>(refused: &Refused<BorrowError>) -> Option<StepReply>
    ensures reply { (R : State T) (call : Action T)
        → result ≡ recorded_reply R call (read_refused refused.now) }
{
    match refused {
        Refused::Borrow(BorrowError::Dropped(error)) => Some(StepReply::Dropped(
            error.created_at(),
        )),
        Refused::Borrow(BorrowError::AlreadyBorrowedMut(_)) => None,
        Refused::Store(error) => store_reply::<T>(*error),
    }
}

/// How the error of a write or a removal is recorded.
pub fn end_refusal<T>(refused: &Refused<BorrowMutError>) -> Option<StepReply>
    ensures reply { (R : State T) (call : Action T)
        → result ≡ recorded_reply R call (end_refused refused.now) }
{
    match refused {
        Refused::Borrow(BorrowMutError::Dropped(error)) => Some(StepReply::Dropped(
            error.created_at(),
        )),
        Refused::Borrow(_) => None,
        Refused::Store(error) => store_reply::<T>(*error),
    }
}

/// How the result of a making of an owner is recorded.
pub fn owner_reply<T>(made: &Result<Owner, StoreError>) -> Option<StepReply>
    ensures reply { (R : State T) (call : Action T)
        → result ≡ recorded_reply R call (owner_answer made.now) }
{
    match made {
        Ok(owner) => Some(StepReply::Owner(owner.id())),
        Err(error) => store_reply::<T>(*error),
    }
}

/// How the end of a read is recorded.
pub fn flag_reply<T>(known: bool) -> Option<StepReply>
    ensures reply { (R : State T) (call : Action T) → result ≡ recorded_reply R call (Flag known) }
    ensures done { IfSome result (λ r. r ≡ reply.Done) }
{
    if known { Some(StepReply::Done) } else { None }
}

/// How the end of a write is recorded.
pub fn back_reply<T>(released: &Result<(), T>) -> Option<StepReply>
    ensures reply { (R : State T) (call : Action T)
        → result ≡ recorded_reply R call (back_answer released.now) }
    ensures done { IfSome result (λ r. r ≡ reply.Done) }
{
    match released {
        Ok(_) => Some(StepReply::Done),
        Err(_) => None,
    }
}
