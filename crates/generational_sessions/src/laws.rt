//! Laws of sessions, each the contract of a function that does nothing, and the laws of all steps, from
//! `generational_laws`.

ghost use Rattle.std.specs.Prelude.{◌≡◌, ◌<◌, ◌+◌, ◌↔◌, true, false, ℕ, List, [], Some, is_some};
ghost use Rattle.std.specs.Prelude.{map as map_list};
ghost use Rattle.generational_core.specs.declared.boxes.GenerationalPointer.{GenerationalPointer};
ghost use Rattle.generational_core.specs.Names.{Name};
ghost use Rattle.generational_errors.specs.declared.error.Location.{Location};
ghost use Rattle.generational_core.specs.Cells.{is_shared};
ghost use Rattle.generational_core.specs.Cells.Cell.{Ref};
ghost use Rattle.generational_core.specs.State.{Ownership, IsSound};
ghost use Rattle.generational_core.specs.Conditions.{IsEnded, IsNamed, fresh, IsReleased};
ghost use Rattle.generational_core.specs.Conditions.{IsBounded};
ghost use Rattle.generational_core.specs.Boxes.{name_of};
ghost use Rattle.generational_core.specs.Borrowing.{reach};
ghost use Rattle.generational_core.specs.Machine.{OwnerName, ownership, is_known};
ghost use Rattle.generational_core.specs.Machine.Action.{ReleaseOwner};
ghost use Rattle.generational_sessions.specs.declared.calls.Call.{Call};
ghost use Rattle.generational_sessions.specs.Session.{SessionState, SessionReply, SessionStep, Run};
ghost use Rattle.generational_sessions.specs.Session.{at_place};
ghost use Rattle.generational_sessions.specs.Session.Held.{Boxed, Owning};
ghost use Rattle.generational_sessions.specs.Session.SessionReply.{IsDone};
ghost use Rattle.generational_sessions.specs.SoundSession.{IsSoundSession};
ghost use Rattle.generational_sessions.specs.Disturbance.{IsUndisturbed, Undisturbed};
ghost use Rattle.generational_core.specs.Answers.{value_at};
ghost use Rattle.generational_sessions.specs.Numbered.{Matches, AnswersAs, empty_session, erase};
ghost use Rattle.generational_sessions.specs.Numbered.{refusal_in};
ghost use Rattle.generational_laws.specs.ListedOnce.{AreListedOnce};
ghost use Rattle.std.specs.FinMap as map;
ghost use Rattle.std.specs.FinSet as set;
ghost use Rattle.generational_sessions.specs.declared.calls.Call.TheVariants as call;

pub use generational_laws::laws::{
    boxes_and_guards_are_new, boxes_are_told_apart_by_ids, calls_are_ready_where_no_borrow_is_told,
    calls_leave_the_rest, ended_boxes_see_nothing, ended_names_stay_ended, fresh_states_are_plain,
    guards_hold_what_boxes_see, made_boxes_see_their_values, owners_last_release_ends_its_boxes,
    owners_list_their_boxes, plain_states_step, shared_values_live_by_references,
    slots_are_bounded, slots_follow_from_names, steps_are_sound, steps_keep_the_store,
    unborrowed_boxes_are_free, undisturbed_values_stay,
};

/// What holds of every session: of one of a fresh store, after each call, and so after each run.
/// The store knows each owner that a place holds.
pub fn sessions_are_kept<T>()
    ensures fresh { (number start next : ℕ) →
        let s : SessionState T = record { state = fresh number start next; table = [] } in
        IsSoundSession s }
    ensures step { (s r : SessionState T) (c : Call T) (reply : SessionReply T) →
        IsSoundSession s → SessionStep s c reply r → IsSoundSession r }
    ensures run { (calls : List (Call T)) (replies : List (SessionReply T)) (s r : SessionState T) →
        IsSoundSession s → Run s calls replies r → IsSoundSession r }
    ensures owners { (s : SessionState T) (p : ℕ) (o : OwnerName) →
        IsSoundSession s → at_place s.table p ≡ Owning o → is_known s.state (Some o) ≡ true }
{}

/// The bound on slots holds after each call of a session, and after each run.
pub fn sessions_are_bounded<T>()
    ensures step { (s r : SessionState T) (c : Call T) (reply : SessionReply T) →
        IsSound s.state → IsBounded s.state → SessionStep s c reply r → IsBounded r.state }
    ensures run { (calls : List (Call T)) (replies : List (SessionReply T)) (s r : SessionState T) →
        IsSoundSession s → Run s calls replies r → IsBounded r.state }
{}

/// No call of a session makes an ended name live again, and no run does.
pub fn sessions_keep_names_ended<T>()
    ensures step { (s r : SessionState T) (c : Call T) (reply : SessionReply T) (n : Name) →
        SessionStep s c reply r → IsEnded s.state n → IsEnded r.state n }
    ensures run { (calls : List (Call T)) (replies : List (SessionReply T)) (s r : SessionState T)
        (n : Name) → Run s calls replies r → IsEnded s.state n → IsEnded r.state n }
{}

/// A value is unchanged while nothing disturbs it, in each call of a session and in each run.
pub fn sessions_keep_undisturbed_values<T>()
    ensures step { (s r : SessionState T) (c : Call T) (reply : SessionReply T)
        (b : GenerationalPointer) (m : Name) →
        IsSoundSession s → SessionStep s c reply r → IsUndisturbed b m s c r →
        value_at r.state m ≡ value_at s.state m }
    ensures run { (calls : List (Call T)) (replies : List (SessionReply T)) (s r : SessionState T)
        (b : GenerationalPointer) (m : Name) →
        IsSoundSession s → (run : Run s calls replies r) → Undisturbed b m s calls replies r run →
        value_at r.state m ≡ value_at s.state m }
{}

/// In every session a shared value is live exactly while a live Ref names it, and a box that a place holds
/// and whose cell is a Ref refers to a live shared value. The name of a box that a place holds is no shared
/// value's own.
pub fn sessions_keep_references_alive<T>()
    ensures named { (s : SessionState T) (m : Name) → IsSoundSession s →
        (is_shared (map.get s.state.cells m) ≡ true) ↔ IsNamed s.state.cells m }
    ensures reaches { (s : SessionState T) (p : ℕ) (b : GenerationalPointer) (m : Name)
        (l : Location) → IsSoundSession s → at_place s.table p ≡ Boxed b →
        map.get s.state.cells (name_of b) ≡ Some (Ref m l) →
        (reach s.state b ≡ Some m) × (is_shared (map.get s.state.cells m) ≡ true) }
    ensures boxed { (s : SessionState T) (p : ℕ) (b : GenerationalPointer) → IsSoundSession s →
        at_place s.table p ≡ Boxed b → is_shared (map.get s.state.cells (name_of b)) ≡ false }
{}

/// An owner's release with the reply `Done` is a release in the machine
/// (`owners_last_release_ends_its_boxes`).
pub fn sessions_release_owners<T>()
    ensures released { (s r : SessionState T) (p : ℕ) (o : OwnerName) (h : Ownership) →
        SessionStep s (call.ReleaseOwner p) IsDone r → at_place s.table p ≡ Owning o →
        ownership s.state o ≡ Some h → IsReleased s.state o h r.state }
{}

/// Each call of a session, and each run, keeps each name in at most one owner's list, and there at most
/// once.
pub fn sessions_list_names_once<T>()
    ensures step { (s r : SessionState T) (c : Call T) (reply : SessionReply T) →
        IsSound s.state → AreListedOnce s.state → SessionStep s c reply r →
        AreListedOnce r.state }
    ensures run { (calls : List (Call T)) (replies : List (SessionReply T)) (s r : SessionState T) →
        IsSoundSession s → AreListedOnce s.state → Run s calls replies r → AreListedOnce r.state }
{}

/// Ids aside, the replies of a run are those of the numbered machine, which has no choice: they depend on
/// the calls, and on which of them failed for memory or for numbers that were used up. Sessions that
/// match have issued equally many names, and the one has no owners that the other doesn't have.
pub fn replies_depend_on_calls<T>()
    ensures fresh { (number start next : ℕ) (calls : List (Call T))
        (replies : List (SessionReply T)) (r : SessionState T) →
        let s : SessionState T = record { state = fresh number start next; table = [] } in
        Run s calls replies r → AnswersAs (empty_session number) calls replies r }
    ensures run { (calls : List (Call T)) (replies : List (SessionReply T))
        (s r a : SessionState T) →
        Matches s a → IsSound s.state → Run s calls replies r → AnswersAs a calls replies r }
    ensures names { (s a : SessionState T) →
        Matches s a → set.len s.state.given ≡ set.len a.state.given }
    ensures owners { (s a : SessionState T) (key : ℕ) →
        Matches s a → is_some (map.get s.state.owners key) ≡ true →
        (k : ℕ) × (key + a.state.next ≡ k + s.state.next)
        × (is_some (map.get a.state.owners k) ≡ true) }
{}

/// Two sessions over fresh stores of the same number, of any two kinds and with any two first numbers,
/// give the same replies to the same calls, ids and slot numbers aside, if the same of them failed for
/// memory or for numbers that were used up.
pub fn sessions_answer_alike<T>()
    ensures { (number start next start_again next_again : ℕ) (calls : List (Call T))
        (replies again : List (SessionReply T)) (r r_again : SessionState T) →
        let s : SessionState T = record { state = fresh number start next; table = [] } in
        let s_again : SessionState T =
        record { state = fresh number start_again next_again; table = [] } in
        Run s calls replies r → Run s_again calls again r_again →
        map_list refusal_in replies ≡ map_list refusal_in again →
        map_list erase replies ≡ map_list erase again }
{}
