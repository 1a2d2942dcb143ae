//! Callers of sessions, proved from the clauses of `Session` alone, for every storage.

ghost use Rattle.std.specs.Prelude.{◌≡◌, ℕ, IfSome, IfNone, IfOk, IfErr, OnErr, IsFalse, Some, not};
ghost use Rattle.std.specs.Prelude.{[], ◌∷◌};
ghost use Rattle.std.specs.Prelude.{slice_get, map as list_map};
ghost use Rattle.generational_core.specs.declared.boxes.GenerationalPointer.{GenerationalPointer};
ghost use Rattle.generational_core.specs.Boxes.{name_of};
ghost use Rattle.generational_core.specs.Conditions.{IsFresh, IsEnded};
ghost use Rattle.generational_core.specs.Borrowing.BorrowRefusal.{Dropped};
ghost use Rattle.generational_sessions.specs.Session.{at_place, SessionReply, SessionState};
ghost use Rattle.generational_sessions.specs.Session.{SessionStep, Run};
ghost use Rattle.generational_sessions.specs.Session.Held.{Boxed};
ghost use Rattle.generational_sessions.specs.Session.SessionReply.{Error};
ghost use Rattle.generational_sessions.specs.Places.{as_reply, as_replies};
ghost use Rattle.generational_sessions.specs.Numbered.{answers, erase, refusal_in, empty_session};
ghost use Rattle.generational_sessions.specs.Replies.{tells_error};
ghost use Rattle.generational_sessions.specs.declared.calls.BoxAt.TheVariants.{Place};
ghost use Rattle.generational_sessions.specs.declared.calls.Call.TheVariants.{TryRead, TryWrite};
ghost use Rattle.example_callers.specs.Sessions.{session_over};

use generational_box::{BoxAt, Call, Location, Reply, Session, Storage};
use std::alloc::{AllocError, Global};

/// Runs a call, and then a read of the box at a place. The call comes back if its own place can't be
/// allocated, and then nothing changes; there is no reply to the read if the second place can't be.
pub fn read_later<S: Storage<u64>>(
    session: &mut Session<u64, S>,
    call: Call<u64>,
    place: usize,
    here: Location,
) -> Result<(Reply<u64>, Option<Reply<u64>>), Call<u64>>
    ensures steps { IfOk result (λ replies. (between : SessionState ℕ)
        × SessionStep session.old call (as_reply replies.0) between
        × IfSome replies.1 (λ read. SessionStep between
        (TryRead (Place place) here) (as_reply read) session.new)
        × IfNone replies.1 (session.new ≡ between)) }
    // A read of a box whose name had ended before fails with its own location.
    ensures ended { IfOk result (λ replies. (b : GenerationalPointer) →
        at_place session.old.table place ≡ Boxed b → IsEnded session.old.state (name_of b) →
        IfSome replies.1 (λ read. as_reply read ≡ Error (Dropped b.created_at))) }
    ensures back { IfErr result (λ back. back ≡ call) }
    ensures unchanged { OnErr result (session.new ≡ session.old) }
{
    let reply = session.call(call)?;
    let read = session.call(Call::TryRead(BoxAt::Place(place), here)).ok();
    Ok((reply, read))
}

/// Reads and writes a box of an earlier place, by one list of calls. Fails only if an allocation fails,
/// and then nothing changes. If the box's name has ended, both calls fail with the box's own location.
pub fn ask_for_ended<S: Storage<u64>>(
    alloc: Global,
    session: &mut Session<u64, S>,
    place: usize,
    here: Location,
) -> Result<Vec<Reply<u64>>, AllocError>
    ensures run { IfOk result (λ replies. Run session.old
        (TryRead (Place place) here ∷ TryWrite (Place place) here ∷ [])
        (as_replies replies.items) session.new) }
    ensures ended { IfOk result (λ replies. (b : GenerationalPointer) →
        at_place session.old.table place ≡ Boxed b → IsEnded session.old.state (name_of b) →
        (slice_get (as_replies replies.items) 0 ≡ Some (Error (Dropped b.created_at)))
        × (slice_get (as_replies replies.items) 1 ≡ Some (Error (Dropped b.created_at)))) }
    ensures unchanged { OnErr result (session.new ≡ session.old) }
{
    let read = Call::TryRead(BoxAt::Place(place), here);
    let write = Call::TryWrite(BoxAt::Place(place), here);
    let calls = vec![in alloc; read, write]?;
    match session.run(calls) {
        Ok(replies) => Ok(replies),
        Err(_) => Err(AllocError),
    }
}

/// Runs a call, and returns whether it succeeded. If it didn't, the store's state is unchanged. The call
/// comes back if its place can't be allocated, and then nothing changes.
pub fn carries_out<S: Storage<u64>>(
    session: &mut Session<u64, S>,
    call: Call<u64>,
) -> Result<bool, Call<u64>>
    ensures step { IfOk result (λ carried. (reply : SessionReply ℕ)
        × SessionStep session.old call reply session.new × (tells_error reply ≡ not carried)) }
    ensures refused { IfOk result (λ carried.
        IsFalse carried → session.new.state ≡ session.old.state) }
    ensures back { IfErr result (λ back. back ≡ call) }
    ensures unchanged { OnErr result (session.new ≡ session.old) }
{
    let reply = session.call(call)?;
    Ok(!is_refusal(&reply))
}

/// Whether a reply is an error.
pub fn is_refusal(reply: &Reply<u64>) -> bool
    ensures { result ≡ tells_error (as_reply reply.now) }
{
    match reply {
        Reply::Error(_) | Reply::Store(_) | Reply::Back(_, _) => true,
        Reply::Unready(_) | Reply::NoSuch(_) => true,
        _ => false,
    }
}

/// The replies to calls in a session over a fresh store. None if the session fails to allocate: then no
/// call was made.
pub fn replies_over<S: Storage<u64> + Drop>(
    alloc: Global,
    store: S,
    calls: Vec<Call<u64>>,
) -> Option<Vec<Reply<u64>>>
    requires { IsFresh (S.state store) }
    ensures run { IfSome result (λ replies. (after : SessionState ℕ)
        × Run (session_over (S.state store)) calls.items (as_replies replies.items) after) }
    // Ids aside they are those of a machine without slots in which the same calls fail.
    ensures same { IfSome result (λ replies.
        let list = as_replies replies.items in
        let empty = empty_session (S.state store).number in
        let own = answers empty calls.items (list_map refusal_in list) in
        list_map erase list ≡ list_map erase own) }
{
    let mut session = Session::new(alloc, store);
    let replies = session.run(calls).ok();
    session.finish();
    replies
}

/// The replies to the same calls over two stores of one number. None if a session fails to allocate.
pub fn replies_over_both<S: Storage<u64> + Drop, R: Storage<u64> + Drop>(
    alloc: Global,
    first: S,
    second: R,
    calls: Vec<Call<u64>>,
    again: Vec<Call<u64>>,
) -> Option<(Vec<Reply<u64>>, Vec<Reply<u64>>)>
    requires first { IsFresh (S.state first) }
    requires second { IsFresh (R.state second) }
    requires number { (S.state first).number ≡ (R.state second).number }
    requires calls { calls.items ≡ again.items }
    ensures run { IfSome result (λ both. (after : SessionState ℕ)
        × Run (session_over (S.state first)) calls.items (as_replies both.0.items) after) }
    ensures run_again { IfSome result (λ both. (after : SessionState ℕ)
        × Run (session_over (R.state second)) again.items (as_replies both.1.items) after) }
    // If the same calls failed for memory or for numbers, all replies are the same, ids aside.
    ensures same { IfSome result (λ both.
        let list = as_replies both.0.items in
        let list_again = as_replies both.1.items in
        list_map refusal_in list ≡ list_map refusal_in list_again →
        list_map erase list ≡ list_map erase list_again) }
{
    let replies = replies_over(alloc, first, calls)?;
    let replies_again = replies_over(alloc, second, again)?;
    Some((replies, replies_again))
}
