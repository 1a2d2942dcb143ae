//! Laws for code that stores boxes: what a call leaves unchanged, and which calls never fail. Each is the
//! contract of a function that does nothing.

ghost use Rattle.std.specs.Prelude.{◌≡◌, ◌≢◌, ◌≤◌, ◌<◌, ◌+◌, ℕ, true, false, Bool, Some, None, is_some};
ghost use Rattle.std.specs.Prelude.{Option, Result, IfOk, IsOk, OnOk, OnErr};
ghost use Rattle.std.specs.FinSet as set;
ghost use Rattle.generational_core.specs.declared.boxes.GenerationalBox.{GenerationalBox};
ghost use Rattle.generational_core.specs.declared.boxes.GenerationalPointer.{GenerationalPointer};
ghost use Rattle.generational_errors.specs.declared.error.BorrowError.{BorrowError};
ghost use Rattle.generational_errors.specs.declared.error.BorrowMutError.{BorrowMutError};
ghost use Rattle.generational_errors.specs.declared.error.Location.{Location};
ghost use Rattle.generational_errors.specs.declared.error.Refusal.{Refusal};
ghost use Rattle.generational_errors.specs.declared.error.Refused.{Refused};
ghost use Rattle.generational_errors.specs.declared.error.StoreError.{StoreError};
ghost use Rattle.generational_errors.specs.declared.error.StoreError.TheVariants.{OutOfMemory};
ghost use Rattle.generational_errors.specs.declared.error.StoreError.TheVariants.{NumbersExhausted};
ghost use Rattle.generational_core.specs.Names.{Name, among};
ghost use Rattle.generational_core.specs.Boxes.{name_of};
ghost use Rattle.generational_core.specs.State.{State, Ownership, IsSound, IsGiven};
ghost use Rattle.generational_core.specs.State.{IsBoxed};
ghost use Rattle.generational_core.specs.Borrowing.{Guard, reach, refusal_to_read, refusal_to_write};
ghost use Rattle.generational_core.specs.Borrowing.{can_read, can_write};
ghost use Rattle.generational_core.specs.Machine.{Action, Answer, OwnerName, ownership};
ghost use Rattle.generational_core.specs.Machine.{is_known, knows_reader, knows_writer};
ghost use Rattle.generational_core.specs.Machine.Action.{Make, MakeShared, Refer, NewOwner, ReleaseOwner};
ghost use Rattle.generational_core.specs.Machine.Action.{Read, Write, ReleaseReader};
ghost use Rattle.generational_core.specs.Machine.Action.{ReleaseWriter, End, Point};
ghost use Rattle.generational_core.specs.Machine.Answer.{Made, Reads, Writes, Flag};
ghost use Rattle.generational_core.specs.Steps.{Meets, last_ticket};
ghost use Rattle.generational_core.specs.Conditions.{fresh, IsEnded};
ghost use Rattle.generational_core.specs.State.{one_listed};
ghost use Rattle.generational_core.specs.Answers.{WriteGuard, value_behind, pointer_of};
ghost use Rattle.generational_core.specs.Answers.{box_answer, reference_box_answer, read_answer};
ghost use Rattle.generational_core.specs.Answers.{write_answer, back_answer, end_answer};
ghost use Rattle.generational_core.specs.Answers.{owner_answer, release_answer};
ghost use Rattle.generational_core.specs.Answers.{free_read_answer, free_write_answer};
ghost use Rattle.generational_core.specs.Seeing.{value_in, LeavesBox, LeavesValue};
ghost use Rattle.generational_core.specs.Leaving.{refuses, GivesOther, GivesOtherOwner};
ghost use Rattle.generational_core.specs.Leaving.{LeavesContent, IsUnchanged, IsSet, LeavesOwner};
ghost use Rattle.generational_core.specs.Leaving.{LeavesGuard, BeginsNoBorrow, HasNoBorrows};
ghost use Rattle.generational_core.specs.Leaving.{AreFree};
ghost use Rattle.generational_core.specs.Answers.{end_refused, read_refused};
ghost use Rattle.generational_core.specs.Slots.{free};
ghost use Rattle.generational_errors.specs.declared.error.Refused.TheVariants as refused;
ghost use Rattle.generational_laws.specs.Lacking.{IsReference, Lacks};
ghost use Rattle.generational_laws.specs.ListedOnce.{AreListedOnce};
ghost use Rattle.generational_laws.specs.PlainStores.{HasNoReferences, MakesNoReference};

/// A call that fails changes nothing, whatever the call: whether it fails because of a borrow or a
/// removed value, by an error of the store, or with its value, which comes back. The same holds of each
/// result that is an error. The release of a reader that the store doesn't know changes nothing either.
pub fn refused_calls_change_nothing<T>()
    ensures call { (S R : State T) (call : Action T) (answer : Answer T) →
        Meets S call answer R → refuses answer ≡ true → R ≡ S }
    ensures make { (S R : State T) (call : Action T) (r : Result (GenerationalBox T) (Refusal T)) →
        Meets S call (box_answer r) R → OnErr r (R ≡ S) }
    ensures refer { (S R : State T) (call : Action T)
        (r : Result (GenerationalBox T) (Refused BorrowError)) →
        Meets S call (reference_box_answer r) R → OnErr r (R ≡ S) }
    ensures read { (S R : State T) (call : Action T) (r : Result Guard (Refused BorrowError)) →
        Meets S call (read_answer r) R → OnErr r (R ≡ S) }
    ensures write { (S R : State T) (call : Action T)
        (r : Result (WriteGuard T) (Refused BorrowMutError)) →
        Meets S call (write_answer r) R → OnErr r (R ≡ S) }
    ensures free_read { (S R : State T) (call : Action T) (r : Result Guard StoreError) →
        Meets S call (free_read_answer r) R → OnErr r (R ≡ S) }
    ensures free_write { (S R : State T) (call : Action T) (r : Result (WriteGuard T) StoreError) →
        Meets S call (free_write_answer r) R → OnErr r (R ≡ S) }
    ensures back { (S R : State T) (call : Action T) (r : Result (Unit {0}) T) →
        Meets S call (back_answer r) R → OnErr r (R ≡ S) }
    ensures ends { (S R : State T) (call : Action T)
        (r : Result (Unit {0}) (Refused BorrowMutError)) →
        Meets S call (end_answer r) R → OnErr r (R ≡ S) }
    ensures owner { (S R : State T) (call : Action T) (r : Result OwnerName StoreError) →
        Meets S call (owner_answer r) R → OnErr r (R ≡ S) }
    ensures release { (S R : State T) (call : Action T)
        (r : Result (Unit {0}) (OwnerName × Refused BorrowMutError)) →
        Meets S call (release_answer r) R → OnErr r (R ≡ S) }
    ensures unknown { (S R : State T) (g : Guard) →
        Meets S (ReleaseReader g) (Flag false) R → R ≡ S }
{}

/// What each call leaves of boxes, as equations. A box refers to the same cell, unless the call removes
/// it, points it elsewhere, or returns it as a new one; it sees the same value, unless the call does one
/// of these, begins or ends a write of its value, or sets it; and the content there is the same, unless
/// the call also borrows it or ends its borrow. So a box that saw no value sees none, and an owner's
/// release leaves each box that isn't in its list. No call returns a box whose name was issued before. A
/// borrow of a box that a call leaves has the same result as before.
pub fn calls_leave_other_boxes<T>()
    ensures reach { (S R : State T) (call : Action T) (answer : Answer T) →
        IsSound S → Meets S call answer R → (b : GenerationalPointer) →
        LeavesBox S call b → GivesOther call answer b → reach R b ≡ reach S b }
    ensures seen { (S R : State T) (call : Action T) (answer : Answer T) →
        IsSound S → Meets S call answer R → (b : GenerationalPointer) →
        LeavesValue S call b → GivesOther call answer b → value_in R b ≡ value_in S b }
    ensures left { (S R : State T) (call : Action T) (answer : Answer T) →
        IsSound S → Meets S call answer R → (b : GenerationalPointer) →
        LeavesContent S call b → GivesOther call answer b → IsUnchanged S b R }
    ensures unowned { (S R : State T) (o : OwnerName) (answer : Answer T) →
        IsSound S → Meets S (ReleaseOwner o) answer R →
        (h : Ownership) → ownership S o ≡ Some h → (b : GenerationalPointer) →
        among h.names (name_of b) ≡ false → IsUnchanged S b R }
    ensures given { (S R : State T) (call : Action T) (answer : Answer T)
        (b : GenerationalPointer) → Meets S call answer R →
        IsGiven S (name_of b) → GivesOther call answer b }
    ensures borrows { (S R : State T) (b : GenerationalPointer) → IsUnchanged S b R →
        (refusal_to_read R b ≡ refusal_to_read S b) × (refusal_to_write R b ≡ refusal_to_write S b) }
{}

/// A store knows a guard until that very guard is released, and a reader's guard opens the same value,
/// which is live. The release of a known reader returns true, and that of a known writer returns Ok.
pub fn guards_stay_known<T>()
    ensures reader { (S R : State T) (call : Action T) (answer : Answer T) →
        IsSound S → Meets S call answer R → (g : Guard) →
        LeavesGuard call g → knows_reader S g ≡ true → knows_reader R g ≡ true }
    ensures writer { (S R : State T) (call : Action T) (answer : Answer T) →
        IsSound S → Meets S call answer R → (g : Guard) →
        LeavesGuard call g → knows_writer S g ≡ true → knows_writer R g ≡ true }
    ensures same { (S R : State T) (call : Action T) (answer : Answer T) →
        IsSound S → Meets S call answer R → (g : Guard) →
        LeavesGuard call g → knows_reader S g ≡ true → value_behind R g ≡ value_behind S g }
    ensures opens { (S : State T) (g : Guard) →
        knows_reader S g ≡ true → (v : T) × (value_behind S g ≡ Some v) }
    ensures read { (S R : State T) (b : GenerationalPointer) (l : Location)
        (r : Result Guard (Refused BorrowError)) → Meets S (Read b l) (read_answer r) R →
        IfOk r (λ g. (v : T) × (value_behind R g ≡ Some v) × (value_in S b ≡ Some v)) }
    ensures released { (S R : State T) (g : Guard) (known : Bool) →
        knows_reader S g ≡ true → Meets S (ReleaseReader g) (Flag known) R → known ≡ true }
    ensures returned { (S R : State T) (g : Guard) (v : T) (r : Result (Unit {0}) T) →
        knows_writer S g ≡ true → Meets S (ReleaseWriter g v) (back_answer r) R → IsOk r }
{}

/// A read and its release leave every box unchanged. A write and its release leave the state unchanged
/// except for the value and the next ticket (`IsSet`), and the release is Ok: each box that refers to the
/// same cell sees the value and may be written, and every other box and each owner's record is unchanged.
pub fn released_borrows_leave_the_rest<T>()
    ensures read { (S R Q : State T) (b : GenerationalPointer) (l : Location) (g : Guard)
        (known : Bool) → IsSound S → Meets S (Read b l) (Reads g) R →
        Meets R (ReleaseReader g) (Flag known) Q → (c : GenerationalPointer) → IsUnchanged S c Q }
    ensures written { (S R Q : State T) (b : GenerationalPointer) (l : Location) (g : Guard)
        (old v : T) (r : Result (Unit {0}) T) → Meets S (Write b l) (Writes g old) R →
        Meets R (ReleaseWriter g v) (back_answer r) Q → IsOk r × IsSet S b v Q }
    ensures seen { (S Q : State T) (b : GenerationalPointer) (v : T) → IsSet S b v Q →
        (c : GenerationalPointer) → reach S c ≡ reach S b → value_in Q c ≡ Some v }
    ensures free { (S Q : State T) (b : GenerationalPointer) (v : T) → IsSet S b v Q →
        (c : GenerationalPointer) → reach S c ≡ reach S b → can_write Q c ≡ true }
    ensures others { (S Q : State T) (b : GenerationalPointer) (v : T) → IsSet S b v Q →
        (c : GenerationalPointer) → reach S c ≢ reach S b → IsUnchanged S c Q }
    ensures owners { (S Q : State T) (b : GenerationalPointer) (v : T) → IsSet S b v Q →
        (o : OwnerName) → ownership Q o ≡ ownership S o }
{}

/// A box may be read exactly if it sees a value. In a store without borrows it may be written exactly
/// then, and a box that sees no value refers to no cell. A fresh store has no borrows; a store without
/// borrows has none after a call that begins none, or after a read or a write and its release. In such a
/// store no removal and no owner's release fails. Nor does an owner's release if nothing that would be
/// removed with its list is borrowed.
pub fn stores_without_borrows_refuse_no_end<T>()
    ensures reads { (S : State T) (b : GenerationalPointer) →
        IsSound S → can_read S b ≡ is_some (value_in S b) }
    ensures writes { (S : State T) → HasNoBorrows S → (b : GenerationalPointer) →
        IsSound S → can_write S b ≡ is_some (value_in S b) }
    ensures free { (S : State T) → HasNoBorrows S → (b : GenerationalPointer) (m : Name) →
        reach S b ≡ Some m → can_write S b ≡ true }
    ensures gone { (S : State T) → HasNoBorrows S → (b : GenerationalPointer) →
        IsSound S → value_in S b ≡ None → reach S b ≡ None }
    ensures fresh { (number start next : ℕ) → HasNoBorrows (fresh {T = T} number start next) }
    ensures stays { (S R : State T) (call : Action T) (answer : Answer T) →
        Meets S call answer R → BeginsNoBorrow call → HasNoBorrows S → HasNoBorrows R }
    ensures read { (S R Q : State T) (b : GenerationalPointer) (l : Location) (g : Guard)
        (known : Bool) → IsSound S → Meets S (Read b l) (Reads g) R →
        Meets R (ReleaseReader g) (Flag known) Q → HasNoBorrows S → HasNoBorrows Q }
    ensures written { (S Q : State T) (b : GenerationalPointer) (v : T) → IsSet S b v Q →
        HasNoBorrows S → HasNoBorrows Q }
    ensures ends { (S R : State T) (b : GenerationalPointer)
        (r : Result (Unit {0}) (Refused BorrowMutError)) → HasNoBorrows S →
        Meets S (End b) (end_answer r) R → IsOk r }
    ensures releases { (S R : State T) (o : OwnerName) (h : Ownership)
        (r : Result (Unit {0}) (OwnerName × Refused BorrowMutError)) →
        ownership S o ≡ Some h → HasNoBorrows S →
        Meets S (ReleaseOwner o) (release_answer r) R → IsOk r }
    ensures owned { (S R : State T) (o : OwnerName) (h : Ownership)
        (r : Result (Unit {0}) (OwnerName × Refused BorrowMutError)) →
        ownership S o ≡ Some h → AreFree S h.names →
        Meets S (ReleaseOwner o) (release_answer r) R → IsOk r }
{}

/// A call leaves each owner's record, except that of the owner it is called on and of an owner that it
/// returns; so the owners that a store knows keep theirs. The store didn't know a new owner before, which
/// has the store's number. A shared value's box, or a reference's, that an owner makes is at the end of
/// its list. A name that was never issued is in no list.
pub fn calls_leave_other_owners<T>()
    ensures records { (S R : State T) (call : Action T) (answer : Answer T) →
        Meets S call answer R → (o : OwnerName) →
        LeavesOwner call o → GivesOtherOwner call answer o → ownership R o ≡ ownership S o }
    ensures known { (S R : State T) (call : Action T) (answer : Answer T) →
        IsSound S → Meets S call answer R → (o : OwnerName) (h : Ownership) →
        LeavesOwner call o → ownership S o ≡ Some h → ownership R o ≡ Some h }
    ensures unknown { (S R : State T) (r : Result OwnerName StoreError) →
        IsSound S → Meets S NewOwner (owner_answer r) R → IfOk r (λ o. ownership S o ≡ None) }
    ensures number { (S R : State T) (r : Result OwnerName StoreError) →
        Meets S NewOwner (owner_answer r) R → IfOk r (λ o. o.store ≡ S.number) }
    ensures lists_shared { (S R : State T) (o : OwnerName) (v : T) (l : Location)
        (r : Result (GenerationalBox T) (Refusal T)) →
        Meets S (MakeShared (Some o) v l) (box_answer r) R →
        IfOk r (λ b. (h : Ownership) → ownership S o ≡ Some h →
        ownership R o ≡ Some (one_listed (name_of (pointer_of b)) h)) }
    ensures lists_reference { (S R : State T) (o : OwnerName) (c : GenerationalPointer)
        (r : Result (GenerationalBox T) (Refused BorrowError)) →
        Meets S (Refer (Some o) c) (reference_box_answer r) R →
        IfOk r (λ b. (h : Ownership) → ownership S o ≡ Some h →
        ownership R o ≡ Some (one_listed (name_of (pointer_of b)) h)) }
    ensures unlisted { (S : State T) (o : OwnerName) (h : Ownership) (n : Name) →
        IsSound S → ownership S o ≡ Some h → set.contains S.given n ≡ false →
        among h.names n ≡ false }
{}

/// No name is twice in an owner's list, nor in the lists of two owners: that holds in a fresh store, and
/// each call preserves it. So an owner's release, even if it fails, leaves each box of another owner's
/// list. That a state is sound doesn't imply this.
pub fn names_are_listed_once<T>()
    ensures fresh { (number start next : ℕ) → AreListedOnce (fresh {T = T} number start next) }
    ensures stays { (S R : State T) (call : Action T) (answer : Answer T) →
        IsSound S → Meets S call answer R → AreListedOnce S → AreListedOnce R }
    ensures released { (S R : State T) (o p : OwnerName) (h : Ownership) (answer : Answer T) →
        IsSound S → AreListedOnce S → Meets S (ReleaseOwner o) answer R → o ≢ p →
        ownership S p ≡ Some h → (b : GenerationalPointer) →
        among h.names (name_of b) ≡ true → IsUnchanged S b R }
{}

/// The name of a box was issued, and is no shared value's own: that holds of each box that a call
/// returns, stays so, and holds of each box that refers to a cell. Such a name is never live again
/// (`ended_names_stay_ended`) once its box was removed, and the same holds of each name of an owner's
/// list after its last release.
pub fn boxes_end_for_good<T>()
    ensures made { (S R : State T) (call : Action T) (b : GenerationalPointer) →
        Meets S call (Made b) R → IsBoxed R (name_of b) }
    ensures stays { (S R : State T) (call : Action T) (answer : Answer T) (n : Name) →
        IsSound S → Meets S call answer R → IsBoxed S n → IsBoxed R n }
    ensures reaches { (S : State T) (b : GenerationalPointer) (m : Name) → IsSound S →
        reach S b ≡ Some m → (b.id.store ≡ S.number) × IsBoxed S (name_of b) }
    ensures ends { (S R : State T) (b : GenerationalPointer)
        (r : Result (Unit {0}) (Refused BorrowMutError)) → Meets S (End b) (end_answer r) R →
        OnOk r (b.id.store ≡ S.number → IsBoxed S (name_of b) → IsEnded R (name_of b)) }
    ensures ends_owned { (S R : State T) (o : OwnerName)
        (r : Result (Unit {0}) (OwnerName × Refused BorrowMutError)) →
        IsSound S → Meets S (ReleaseOwner o) (release_answer r) R →
        OnOk r ((h : Ownership) (n : Name) → ownership S o ≡ Some h → h.count ≤ 1 →
        among h.names n ≡ true → IsEnded R n) }
{}

/// A box that was pointed to what another refers to sees the value that the other saw.
pub fn pointed_boxes_see_what_others_saw<T>()
    ensures { (S R : State T) (a b : GenerationalPointer)
        (r : Result (Unit {0}) (Refused BorrowMutError)) →
        IsSound S → Meets S (Point a b) (end_answer r) R →
        OnOk r (value_in R a ≡ value_in S b) }
{}

/// In a store without references a box refers to its own cell, if any, and so boxes that refer to the
/// same cell have the same name. A fresh store has none, and each call that makes no shared value and no
/// reference keeps it so. So only boxes of the same name see a value that is set there.
pub fn boxes_reach_their_own_cells<T>()
    ensures own { (S : State T) → HasNoReferences S → (b : GenerationalPointer) (m : Name) →
        reach S b ≡ Some m → m ≡ name_of b }
    ensures apart { (S : State T) → HasNoReferences S → (a b : GenerationalPointer) (m : Name) →
        reach S a ≡ Some m → reach S b ≡ reach S a → name_of a ≡ name_of b }
    ensures fresh { (number start next : ℕ) → HasNoReferences (fresh {T = T} number start next) }
    ensures stays { (S R : State T) (call : Action T) (answer : Answer T) →
        Meets S call answer R → MakesNoReference call → HasNoReferences S → HasNoReferences R }
{}

/// What a store lacks when a call fails without a borrow: memory, or a ticket, if all were issued. An
/// insertion lacks only memory, if its owner is known, and a read without other borrows only a ticket.
pub fn refusals_tell_what_lacks<T>()
    ensures owner { (S R : State T) (e : StoreError) →
        Meets S NewOwner (Answer.Refused e) R → Lacks S e }
    ensures read { (S R : State T) (b : GenerationalPointer) (l : Location) (e : StoreError) →
        Meets S (Read b l) (Answer.Refused e) R → Lacks S e }
    ensures write { (S R : State T) (b : GenerationalPointer) (l : Location) (e : StoreError) →
        Meets S (Write b l) (Answer.Refused e) R → Lacks S e }
    ensures make { (S R : State T) (o : Option OwnerName) (v : T) (l : Location) (e : StoreError) →
        is_known S o ≡ true → Meets S (Make o v l) (Answer.Refused e) R → e ≡ OutOfMemory }
    ensures free_read { (S R : State T) (b : GenerationalPointer) (l : Location) (e : StoreError) →
        can_write S b ≡ true → Meets S (Read b l) (Answer.Refused e) R →
        (e ≡ NumbersExhausted) × (S.next ≡ last_ticket) }
{}

/// How many slots and tickets the calls of new boxes take. An insertion without an owner fails only if no
/// slot is free, or, of a shared value, if fewer than two are. The latter takes at most two and no
/// ticket, and returns the box of a reference; no box whose name was issued before refers to the same
/// cell. A reference to a value that isn't being written fails only if no slot is free, and takes no
/// ticket; if the value may be written, it may be written through the new box. A write, and a read
/// without other borrows, fail only if all tickets were issued.
pub fn new_boxes_take_slots_and_tickets<T>()
    ensures make { (S R : State T) (v : T) (l : Location) (e : StoreError) →
        Meets S (Make None v l) (Answer.Refused e) R → (e ≡ OutOfMemory) × (free S ≡ 0) }
    ensures share { (S R : State T) (v : T) (l : Location) (e : StoreError) →
        Meets S (MakeShared None v l) (Answer.Refused e) R → (e ≡ OutOfMemory) × (free S < 2) }
    ensures shared { (S R : State T) (v : T) (l : Location) (b : GenerationalPointer) →
        Meets S (MakeShared None v l) (Made b) R →
        (free S ≤ free R + 2) × (R.next ≡ S.next) × IsReference R b }
    ensures shared_apart { (S R : State T) (v : T) (l : Location) (b : GenerationalPointer) →
        IsSound S → Meets S (MakeShared None v l) (Made b) R → (c : GenerationalPointer) →
        IsGiven S (name_of c) → reach R b ≢ reach R c }
    ensures refer { (S R : State T) (b : GenerationalPointer) (e : Refused BorrowError) →
        IsSound S → IsReference S b → can_read S b ≡ true →
        Meets S (Refer None b) (read_refused e) R →
        (e ≡ refused.Store OutOfMemory) × (free S ≡ 0) }
    ensures referred { (S R : State T) (b : GenerationalPointer) (answer : Answer T) →
        Meets S (Refer None b) answer R → R.next ≡ S.next }
    ensures referred_free { (S R : State T) (o : Option OwnerName) (c : GenerationalPointer)
        (b : GenerationalBox T) → IsSound S → Meets S (Refer o c) (Made (pointer_of b)) R →
        can_write S c ≡ true → can_write R (pointer_of b) ≡ true }
    ensures write { (S R : State T) (b : GenerationalPointer) (l : Location)
        (e : Refused BorrowMutError) → IsSound S → can_write S b ≡ true →
        Meets S (Write b l) (end_refused e) R →
        (e ≡ refused.Store NumbersExhausted) × (S.next ≡ last_ticket) }
    ensures read { (S R : State T) (b : GenerationalPointer) (l : Location)
        (e : Refused BorrowError) → IsSound S → can_write S b ≡ true →
        Meets S (Read b l) (read_refused e) R →
        (e ≡ refused.Store NumbersExhausted) × (S.next ≡ last_ticket) }
{}
