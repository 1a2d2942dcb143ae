//! Two replies, compared.

ghost use Rattle.std.specs.Prelude.{◌≡◌, ◌↔◌, IsTrue, Some, option_map, string_bytes};
ghost use Rattle.generational_core.specs.Answers.{refusal_of_error};
ghost use Rattle.generational_errors.specs.declared.error.StoreError.TheVariants.{OutOfMemory};
ghost use Rattle.generational_sessions.specs.Numbered.{refusal_in};
ghost use Rattle.generational_sessions.specs.Places.{as_reply};
ghost use Rattle.boxes_script.specs.Told.{plain_location, reply_told, plain_refusal};

use generational_core::{BorrowMutError, Location, StoreError};
use generational_sessions::Reply;

/// Whether a call failed to allocate. Doesn't allocate.
pub fn is_lacking(reply: &Reply<String>) -> bool
    ensures { IsTrue result ↔ (refusal_in (as_reply reply.now) ≡ Some OutOfMemory) }
{
    matches!(
        reply,
        Reply::Store(StoreError::OutOfMemory) | Reply::Back(_, StoreError::OutOfMemory)
    )
}

/// Whether two replies say the same, ids and numbers of slots aside: both are of one kind, with the same
/// locations, flags, texts and errors. Doesn't allocate.
pub fn is_same(one: &Reply<String>, other: &Reply<String>) -> bool
    ensures { IsTrue result ↔ (reply_told one.now ≡ reply_told other.now) }
{
    match (one, other) {
        (Reply::Box(one), Reply::Box(other)) => {
            is_same_location(&one.created_at(), &other.created_at())
        }
        (Reply::Owner, Reply::Owner)
        | (Reply::Reader, Reply::Reader)
        | (Reply::Writer, Reply::Writer)
        | (Reply::Done, Reply::Done)
        | (Reply::Id(_), Reply::Id(_))
        | (Reply::Slot(_), Reply::Slot(_)) => true,
        (Reply::Old(one), Reply::Old(other)) => is_same_text(one, other),
        (Reply::Flag(one), Reply::Flag(other)) => one == other,
        (Reply::Created(one), Reply::Created(other)) => is_same_location(one, other),
        (Reply::Error(one), Reply::Error(other)) => is_same_error(one, other),
        (Reply::Store(one), Reply::Store(other)) => is_same_cause(one, other),
        (Reply::Back(one, cause), Reply::Back(other, other_cause)) => {
            is_same_text(one, other) && is_same_cause(cause, other_cause)
        }
        (Reply::Unready(one), Reply::Unready(other)) => is_same_back(one, other),
        (Reply::NoSuch(one), Reply::NoSuch(other)) => is_same_back(one, other),
        _ => false,
    }
}

// Whether two locations are the same.
fn is_same_location(one: &Location, other: &Location) -> bool
    ensures { IsTrue result ↔ (plain_location one.now ≡ plain_location other.now) }
{
    one == other
}

// Whether two texts are the same.
fn is_same_text(one: &String, other: &String) -> bool
    ensures { IsTrue result ↔ (string_bytes one.now ≡ string_bytes other.now) }
{
    one == other
}

// Whether two causes are the same.
fn is_same_cause(one: &StoreError, other: &StoreError) -> bool
    ensures { IsTrue result ↔ (one.now ≡ other.now) }
{
    one == other
}

// Whether two errors are of one kind, with the same locations in the same order.
#[tactic(auto, using(crate::proofs::Places::readers_decide))]
fn is_same_error(one: &BorrowMutError, other: &BorrowMutError) -> bool
    ensures { IsTrue result ↔
        (plain_refusal (refusal_of_error one.now) ≡ plain_refusal (refusal_of_error other.now)) }
{
    match (one, other) {
        (BorrowMutError::Dropped(one), BorrowMutError::Dropped(other)) => one == other,
        (BorrowMutError::AlreadyBorrowed(one), BorrowMutError::AlreadyBorrowed(other)) => {
            one == other
        }
        (BorrowMutError::AlreadyBorrowedMut(one), BorrowMutError::AlreadyBorrowedMut(other)) => {
            one == other
        }
        _ => false,
    }
}

// Whether two values that came back are the same, or none came back twice.
fn is_same_back(one: &Option<String>, other: &Option<String>) -> bool
    ensures { IsTrue result ↔
        (option_map string_bytes one.now ≡ option_map string_bytes other.now) }
{
    match (one, other) {
        (Some(one), Some(other)) => is_same_text(one, other),
        (None, None) => true,
        _ => false,
    }
}
