//! Laws of the machine, each the contract of a function that does nothing.

ghost use Rattle.std.specs.Prelude.{◌≡◌, ◌≢◌, ◌≤◌, ◌<◌, ◌+◌, ◌↔◌, true, false, ℕ, List, [], ◌∷◌};
ghost use Rattle.std.specs.Prelude.{Some};
ghost use Rattle.std.specs.Prelude.{None};
ghost use Rattle.std.specs.FinMap as map;
ghost use Rattle.std.specs.FinSet as set;
ghost use Rattle.generational_core.specs.declared.boxes.GenerationalPointer.{GenerationalPointer};
ghost use Rattle.generational_core.specs.Names.{Name, Names, name_cmp, among};
ghost use Rattle.generational_errors.specs.declared.error.Location.{Location};
ghost use Rattle.generational_core.specs.Cells.{is_shared};
ghost use Rattle.generational_core.specs.Cells.Cell.{Ref};
ghost use Rattle.generational_core.specs.State.{State, Ownership, IsSound};
ghost use Rattle.generational_core.specs.Conditions.{IsLive, IsEnded, IsNamed};
ghost use Rattle.generational_core.specs.Conditions.{fresh};
ghost use Rattle.generational_core.specs.Boxes.{name_of, has_same_id};
ghost use Rattle.generational_core.specs.Borrowing.{reach, refusal_to_read, refusal_to_write};
ghost use Rattle.generational_core.specs.Borrowing.{can_read, can_write};
ghost use Rattle.generational_core.specs.Borrowing.BorrowRefusal.{Dropped};
ghost use Rattle.generational_core.specs.Machine.{Action, Answer, NewNames, OwnerName, act, ownership};
ghost use Rattle.generational_core.specs.Machine.Action.{ReleaseOwner, LeakOwner};
ghost use Rattle.generational_core.specs.Machine.Answer.{Done};
ghost use Rattle.generational_core.specs.State.{one_less};
ghost use Rattle.generational_core.specs.Conditions.{IsReleased};
ghost use Rattle.generational_core.specs.Steps.{Meets};
ghost use Rattle.generational_core.specs.Slots.{slots, free, retired, lasts};
ghost use Rattle.generational_core.specs.Conditions.{IsBounded};
ghost use Rattle.generational_core.specs.Keeping.{Sets, IsUnwritten};
ghost use Rattle.generational_core.specs.Answers.{value_at};
ghost use Rattle.generational_core.specs.Keeping.{location_at};
ghost use Rattle.generational_core.specs.Seeing.{value_in, LeavesBox, LeavesValue};
ghost use Rattle.generational_core.specs.Seeing.{LeavesUnborrowed};
ghost use Rattle.generational_laws.specs.History.{plain, plain_call, plain_answer};
ghost use Rattle.std.specs.Prelude.{not};
ghost use Rattle.generational_core.specs.declared.steps.StepCall.{StepCall};
ghost use Rattle.generational_core.specs.Borrowing.{Guard};
ghost use Rattle.generational_core.specs.Machine.{knows_reader, knows_writer};
ghost use Rattle.generational_core.specs.Machine.Answer.{Made, Reads, Writes};
ghost use Rattle.generational_core.specs.State.{IsGiven};
ghost use Rattle.generational_core.specs.StepCalls.{is_ready};
ghost use Rattle.generational_core.specs.StepCalls.{recorded_as, is_hindered};
ghost use Rattle.std.specs.Prelude.{Bool, Option, Result, IfOk, OnOk, IsOk, IsErr, ◌++◌};
ghost use Rattle.generational_core.specs.declared.boxes.GenerationalBox.{GenerationalBox};
ghost use Rattle.generational_errors.specs.declared.error.BorrowError.{BorrowError};
ghost use Rattle.generational_errors.specs.declared.error.BorrowMutError.{BorrowMutError};
ghost use Rattle.generational_errors.specs.declared.error.Refusal.{Refusal};
ghost use Rattle.generational_errors.specs.declared.error.Refused.{Refused};
ghost use Rattle.generational_errors.specs.declared.error.StoreError.{StoreError};
ghost use Rattle.generational_core.specs.Machine.Action.{Make, MakeShared, Refer, NewOwner, Read};
ghost use Rattle.generational_core.specs.Machine.Action.{Write, ReleaseWriter, SetValue, End};
ghost use Rattle.generational_core.specs.Machine.Action.{Point};
ghost use Rattle.generational_core.specs.Machine.Action.{ReleaseReader};
ghost use Rattle.generational_core.specs.Machine.Answer.{Old, Flag};
ghost use Rattle.generational_core.specs.Answers.{WriteGuard, value_behind, pointer_of};
ghost use Rattle.generational_core.specs.Answers.{box_answer, reference_box_answer, read_answer};
ghost use Rattle.generational_core.specs.Answers.{write_answer, back_answer, end_answer};
ghost use Rattle.generational_core.specs.Answers.{owner_answer, release_answer};
ghost use Rattle.generational_core.specs.Answers.{free_read_answer, free_write_answer};
ghost use Rattle.generational_core.specs.State.{one_listed};
ghost use Rattle.std.specs.List.{AllByRecursion};

/// A state in which nothing was made is sound, and each call leads from a sound state to a sound
/// one.
pub fn steps_are_sound<T>()
    ensures fresh { (number start next : ℕ) → IsSound (fresh {T = T} number start next) }
    ensures step { (S R : State T) (call : Action T) (answer : Answer T) →
        IsSound S → Meets S call answer R → IsSound R }
{}

/// A name that has ended is never live again, and a read and a write of a box of such a name fail with
/// `Dropped`, with the box's own location.
pub fn ended_names_stay_ended<T>()
    ensures step { (S R : State T) (call : Action T) (answer : Answer T) (n : Name) →
        Meets S call answer R → IsEnded S n → IsEnded R n }
    ensures read { (S : State T) (b : GenerationalPointer) →
        IsEnded S (name_of b) → refusal_to_read S b ≡ Some (Dropped b.created_at) }
    ensures write { (S : State T) (b : GenerationalPointer) →
        IsEnded S (name_of b) → refusal_to_write S b ≡ Some (Dropped b.created_at) }
{}

/// In a sound state, a shared value is live exactly while a live Ref names it, and a box whose cell is a
/// Ref refers to a live shared value.
pub fn shared_values_live_by_references<T>()
    ensures named { (S : State T) (m : Name) →
        IsSound S → is_shared (map.get S.cells m) ≡ true → IsNamed S.cells m }
    ensures live { (S : State T) (m : Name) →
        IsSound S → IsNamed S.cells m → is_shared (map.get S.cells m) ≡ true }
    ensures reaches { (S : State T) (b : GenerationalPointer) (m : Name) (l : Location) →
        IsSound S → b.id.store ≡ S.number → map.get S.cells (name_of b) ≡ Some (Ref m l) →
        (reach S b ≡ Some m) × (is_shared (map.get S.cells m) ≡ true) }
{}

/// The last release of an owner removes all boxes of its list, and then the shared values without a live
/// Ref. Nothing else is removed or changes, except that the owner's record is removed. A release that
/// isn't the last only takes away one owner value. A release that fails changes nothing, nor does a leak.
pub fn owners_last_release_ends_its_boxes<T>()
    ensures boxes { (S R : State T) (o : OwnerName) (h : Ownership) (n : Name) →
        IsSound S → IsReleased S o h R → h.count ≤ 1 →
        among h.names n ≡ true → map.get R.cells n ≡ None }
    ensures others { (S R : State T) (o : OwnerName) (h : Ownership) (n : Name) →
        IsReleased S o h R → h.count ≤ 1 →
        among h.names n ≡ false → is_shared (map.get S.cells n) ≡ false →
        map.get R.cells n ≡ map.get S.cells n }
    ensures unnamed { (S R : State T) (o : OwnerName) (h : Ownership) (n : Name) →
        IsReleased S o h R → h.count ≤ 1 →
        is_shared (map.get S.cells n) ≡ true → (IsNamed R.cells n → ⊥) →
        map.get R.cells n ≡ None }
    ensures named { (S R : State T) (o : OwnerName) (h : Ownership) (n : Name) →
        IsReleased S o h R → h.count ≤ 1 →
        is_shared (map.get S.cells n) ≡ true → IsNamed R.cells n →
        map.get R.cells n ≡ map.get S.cells n }
    ensures gone { (S R : State T) (o : OwnerName) (h : Ownership) →
        IsReleased S o h R → h.count ≤ 1 → map.get R.owners o.key ≡ None }
    ensures earlier { (S R : State T) (o : OwnerName) (h : Ownership) →
        IsReleased S o h R → 1 < h.count → R.cells ≡ S.cells }
    ensures counted { (S R : State T) (o : OwnerName) (h : Ownership) →
        IsReleased S o h R → 1 < h.count → map.get R.owners o.key ≡ Some (one_less h) }
    ensures records { (S R : State T) (o : OwnerName) (h : Ownership) (k : ℕ) →
        IsReleased S o h R → k ≢ o.key → map.get R.owners k ≡ map.get S.owners k }
    ensures rest { (S R : State T) (o : OwnerName) (h : Ownership) →
        IsReleased S o h R → R ≡ record S { cells = R.cells; owners = R.owners } }
    ensures refused { (S R : State T) (o : OwnerName) (answer : Answer T) →
        Meets S (ReleaseOwner o) answer R → answer ≢ Done → R ≡ S }
    ensures leak { (S R : State T) (o : OwnerName) (answer : Answer T) →
        Meets S (LeakOwner o) answer R → R ≡ S }
{}

/// The number of slots of a store is at most the peak number of live cells plus the number of slots whose
/// generations are used up. Each is live, free or used up.
pub fn slots_are_bounded<T>()
    ensures fresh { (number start next : ℕ) → IsBounded (fresh {T = T} number start next) }
    ensures step { (S R : State T) (call : Action T) (answer : Answer T) →
        IsSound S → IsBounded S → Meets S call answer R → IsBounded R }
    ensures few { (S : State T) → IsBounded S → slots S ≤ S.peak + retired S }
    ensures counted { (S : State T) → IsSound S → IsBounded S →
        slots S ≡ map.len S.cells + free S + retired S }
{}

/// A value is unchanged while nothing disturbs it: while the box is live and isn't pointed elsewhere, no
/// writer has the value, and no call sets it. A cell's location stays with the cell.
pub fn undisturbed_values_stay<T>()
    ensures step { (S R : State T) (call : Action T) (answer : Answer T)
        (b : GenerationalPointer) (m : Name) →
        IsSound S → Meets S call answer R →
        IsUnwritten b m S → IsUnwritten b m R → (Sets S call m → ⊥) →
        value_at R m ≡ value_at S m }
    ensures location { (S R : State T) (call : Action T) (answer : Answer T) (m : Name) →
        IsSound S → Meets S call answer R → IsLive S m → IsLive R m →
        location_at R m ≡ location_at S m }
{}

/// A box sees the value that a read of it would return: that of the cell which it refers to, unless a
/// writer has it. A box that was inserted sees the value that was passed in; one of a reference refers to
/// the same cell, and sees the same value, as the box from which it was made. No box that saw a value
/// before has the name of a new one. A reference that was pointed elsewhere refers to what the other box
/// refers to.
pub fn made_boxes_see_their_values<T>()
    ensures made { (S R : State T) (o : Option OwnerName) (v : T) (l : Location)
        (r : Result (GenerationalBox T) (Refusal T)) → Meets S (Make o v l) (box_answer r) R →
        IfOk r (λ b. value_in R (pointer_of b) ≡ Some v) }
    ensures made_shared { (S R : State T) (o : Option OwnerName) (v : T) (l : Location)
        (r : Result (GenerationalBox T) (Refusal T)) → Meets S (MakeShared o v l) (box_answer r) R →
        IfOk r (λ b. value_in R (pointer_of b) ≡ Some v) }
    ensures referred { (S R : State T) (o : Option OwnerName) (c : GenerationalPointer)
        (r : Result (GenerationalBox T) (Refused BorrowError)) →
        IsSound S → Meets S (Refer o c) (reference_box_answer r) R →
        IfOk r (λ b. value_in R (pointer_of b) ≡ value_in S c) }
    ensures referred_reach { (S R : State T) (o : Option OwnerName) (c : GenerationalPointer)
        (r : Result (GenerationalBox T) (Refused BorrowError)) →
        Meets S (Refer o c) (reference_box_answer r) R →
        IfOk r (λ b. reach R (pointer_of b) ≡ reach S c) }
    ensures referred_together { (S R : State T) (o : Option OwnerName) (c : GenerationalPointer)
        (r : Result (GenerationalBox T) (Refused BorrowError)) →
        IsSound S → Meets S (Refer o c) (reference_box_answer r) R →
        IfOk r (λ b. reach R (pointer_of b) ≡ reach R c) }
    ensures made_apart { (S R : State T) (o : Option OwnerName) (v : T) (l : Location)
        (r : Result (GenerationalBox T) (Refusal T)) →
        IsSound S → Meets S (Make o v l) (box_answer r) R →
        IfOk r (λ b. (c : GenerationalPointer) (w : T) →
        value_in S c ≡ Some w → name_of (pointer_of b) ≢ name_of c) }
    ensures referred_apart { (S R : State T) (o : Option OwnerName) (c : GenerationalPointer)
        (r : Result (GenerationalBox T) (Refused BorrowError)) →
        IsSound S → Meets S (Refer o c) (reference_box_answer r) R →
        IfOk r (λ b. (d : GenerationalPointer) (w : T) →
        value_in S d ≡ Some w → name_of (pointer_of b) ≢ name_of d) }
    ensures points { (S R : State T) (a b : GenerationalPointer)
        (r : Result (Unit {0}) (Refused BorrowMutError)) → Meets S (Point a b) (end_answer r) R →
        OnOk r (reach R a ≡ reach S b) }
{}

/// A reader's guard opens the value that its box sees, and a writer's has it, whether the borrow was
/// begun with a condition or without. A write doesn't change what boxes refer to. When a writer's guard
/// is released, each box that refers to its cell sees the guard's value. A set returns the value that its
/// box saw. It doesn't change what boxes refer to, and each box that refers to the same cell sees the
/// value that was passed in.
pub fn guards_hold_what_boxes_see<T>()
    ensures opens { (S R : State T) (b : GenerationalPointer) (l : Location)
        (r : Result Guard (Refused BorrowError)) → Meets S (Read b l) (read_answer r) R →
        IfOk r (λ g. value_behind R g ≡ value_in S b) }
    ensures lends { (S R : State T) (b : GenerationalPointer) (l : Location)
        (r : Result (WriteGuard T) (Refused BorrowMutError)) →
        Meets S (Write b l) (write_answer r) R → IfOk r (λ w. value_in S b ≡ Some w.value) }
    ensures lends_at { (S R : State T) (b : GenerationalPointer) (l : Location)
        (r : Result (WriteGuard T) (Refused BorrowMutError)) →
        Meets S (Write b l) (write_answer r) R →
        IfOk r (λ w. (reach S b ≡ Some w.guard.cell) ×
        ((c : GenerationalPointer) → reach R c ≡ reach S c)) }
    ensures opens_free { (S R : State T) (b : GenerationalPointer) (l : Location)
        (r : Result Guard StoreError) → Meets S (Read b l) (free_read_answer r) R →
        IfOk r (λ g. value_behind R g ≡ value_in S b) }
    ensures lends_free { (S R : State T) (b : GenerationalPointer) (l : Location)
        (r : Result (WriteGuard T) StoreError) → Meets S (Write b l) (free_write_answer r) R →
        IfOk r (λ w. (reach S b ≡ Some w.guard.cell) × (value_in S b ≡ Some w.value)
        × ((c : GenerationalPointer) → reach R c ≡ reach S c)) }
    ensures sets { (S R : State T) (b : GenerationalPointer) (v old : T) →
        Meets S (SetValue b v) (Old old) R →
        (value_in S b ≡ Some old) × ((c : GenerationalPointer) → reach R c ≡ reach S c)
        × ((c : GenerationalPointer) → reach S c ≡ reach S b → value_in R c ≡ Some v) }
    ensures puts_back { (S R : State T) (g : Guard) (v : T) (r : Result (Unit {0}) T) →
        Meets S (ReleaseWriter g v) (back_answer r) R →
        OnOk r ((b : GenerationalPointer) → reach S b ≡ Some g.cell → value_in R b ≡ Some v) }
{}

/// A box that may be written refers to a value that isn't borrowed. It sees that value, and may be read;
/// its removal never fails. That holds of each box that was inserted, and stays so, unless a call removes
/// the box, points it elsewhere, or begins a borrow of what it refers to (`LeavesUnborrowed`). A read and
/// its release leave the state unchanged except for the next ticket.
pub fn unborrowed_boxes_are_free<T>()
    ensures made { (S R : State T) (o : Option OwnerName) (v : T) (l : Location)
        (r : Result (GenerationalBox T) (Refusal T)) → Meets S (Make o v l) (box_answer r) R →
        IfOk r (λ b. can_write R (pointer_of b) ≡ true) }
    ensures made_shared { (S R : State T) (o : Option OwnerName) (v : T) (l : Location)
        (r : Result (GenerationalBox T) (Refusal T)) → Meets S (MakeShared o v l) (box_answer r) R →
        IfOk r (λ b. can_write R (pointer_of b) ≡ true) }
    ensures sees { (S : State T) (b : GenerationalPointer) →
        IsSound S → can_write S b ≡ true → (v : T) × (value_in S b ≡ Some v) }
    ensures reads { (S : State T) (b : GenerationalPointer) →
        can_write S b ≡ true → can_read S b ≡ true }
    ensures ends { (S R : State T) (b : GenerationalPointer)
        (r : Result (Unit {0}) (Refused BorrowMutError)) → Meets S (End b) (end_answer r) R →
        can_write S b ≡ true → IsOk r }
    ensures stays { (S R : State T) (call : Action T) (answer : Answer T) →
        IsSound S → Meets S call answer R → (b : GenerationalPointer) →
        LeavesUnborrowed S call b → can_write S b ≡ true → can_write R b ≡ true }
    ensures released { (S R Q : State T) (b : GenerationalPointer) (l : Location) (g : Guard)
        (known : Bool) → IsSound S → Meets S (Read b l) (Reads g) R →
        Meets R (ReleaseReader g) (Flag known) Q → Q ≡ record S { next = S.next + 1 } }
{}

/// A box that was removed refers to no cell, and nor do the boxes of an owner's list after its last
/// release. A box that refers to no cell sees no value, and can't be read.
pub fn ended_boxes_see_nothing<T>()
    ensures ends { (S R : State T) (b : GenerationalPointer)
        (r : Result (Unit {0}) (Refused BorrowMutError)) → Meets S (End b) (end_answer r) R →
        OnOk r (reach R b ≡ None) }
    ensures ends_owned { (S R : State T) (o : OwnerName)
        (r : Result (Unit {0}) (OwnerName × Refused BorrowMutError)) →
        Meets S (ReleaseOwner o) (release_answer r) R →
        OnOk r ((h : Ownership) (b : GenerationalPointer) →
        ownership S o ≡ Some h → h.count ≤ 1 → among h.names (name_of b) ≡ true →
        reach R b ≡ None) }
    ensures unseen { (S : State T) (b : GenerationalPointer) →
        reach S b ≡ None → value_in S b ≡ None }
    ensures unread { (S R : State T) (b : GenerationalPointer) (l : Location)
        (r : Result Guard (Refused BorrowError)) →
        Meets S (Read b l) (read_answer r) R → reach S b ≡ None → IsErr r }
{}

/// A new owner has a record without boxes and of one owner value. A box that is made by an owner is at
/// the end of its record's list.
pub fn owners_list_their_boxes<T>()
    ensures owned { (S R : State T) (r : Result OwnerName StoreError) →
        Meets S NewOwner (owner_answer r) R →
        IfOk r (λ o. ownership R o ≡ Some (record { names = []; count = 1 })) }
    ensures lists { (S R : State T) (o : OwnerName) (v : T) (l : Location)
        (r : Result (GenerationalBox T) (Refusal T)) →
        Meets S (Make (Some o) v l) (box_answer r) R →
        IfOk r (λ b. (h : Ownership) → ownership S o ≡ Some h →
        ownership R o ≡ Some (one_listed (name_of (pointer_of b)) h)) }
    ensures last { (names : List Name) (n : Name) → among (names ++ n ∷ []) n ≡ true }
{}

/// What each call leaves unchanged. A box refers to the same cell, unless the call removes it or points
/// it elsewhere (`LeavesBox`). It sees the same value, unless the call does either, begins or ends a
/// write of that value, or sets it (`LeavesValue`). When an owner is released, both hold of each box that
/// isn't in its list.
pub fn calls_leave_the_rest<T>()
    ensures reach { (S R : State T) (call : Action T) (answer : Answer T) →
        IsSound S → Meets S call answer R → (b : GenerationalPointer) (m : Name) →
        LeavesBox S call b → reach S b ≡ Some m → reach R b ≡ Some m }
    ensures seen { (S R : State T) (call : Action T) (answer : Answer T) →
        IsSound S → Meets S call answer R → (b : GenerationalPointer) (v : T) →
        LeavesValue S call b → value_in S b ≡ Some v → value_in R b ≡ Some v }
    ensures unowned { (S R : State T) (o : OwnerName) (answer : Answer T) →
        IsSound S → Meets S (ReleaseOwner o) answer R →
        (h : Ownership) → ownership S o ≡ Some h → (b : GenerationalPointer) (v : T) →
        AllByRecursion (λ n. n ≢ name_of b) h.names →
        value_in S b ≡ Some v → value_in R b ≡ Some v }
{}

/// The machine without values takes the very same steps: its answers, and the states after them, are
/// those of the machine with values, without the values.
pub fn plain_states_step<T>()
    ensures step { (S : State T) (call : Action T) (new : NewNames) →
        act (plain S) (plain_call call) new
        ≡ (plain_answer (act S call new).0, plain (act S call new).1) }
    ensures meets { (S R : State T) (call : Action T) (answer : Answer T) →
        Meets S call answer R →
        Meets (plain S) (plain_call call) (plain_answer answer) (plain R) }
{}

/// Ids identify boxes: what `ptr_eq` returns is an equivalence, and it is true exactly if the ids are
/// equal.
pub fn boxes_are_told_apart_by_ids()
    ensures itself { (a : GenerationalPointer) → has_same_id a a ≡ true }
    ensures turned { (a b : GenerationalPointer) → has_same_id a b ≡ has_same_id b a }
    ensures onward { (a b c : GenerationalPointer) →
        has_same_id a b ≡ true → has_same_id b c ≡ true → has_same_id a c ≡ true }
    ensures ids { (a b : GenerationalPointer) → (has_same_id a b ≡ true) ↔ (a.id ≡ b.id) }
{}

/// A recorded call is ready exactly if the machine's answer isn't an error of a borrow, neither of
/// readers nor of a writer; a release by a ticket is the release of any guard with that ticket. So a call
/// that is ready never fails because of a borrow.
pub fn calls_are_ready_where_no_borrow_is_told<T>()
    ensures answer { (S : State T) (call : Action T) (step : StepCall) (new : NewNames) →
        recorded_as call ≡ Some step →
        is_ready S step ≡ not (is_hindered call (act S call new).0) }
    ensures ready { (S R : State T) (call : Action T) (step : StepCall) (answer : Answer T) →
        recorded_as call ≡ Some step → is_ready S step ≡ true → Meets S call answer R →
        is_hindered call answer ≡ false }
{}

/// No call changes the store's number or the first generation of its slots. Tickets never decrease, and a
/// name that was issued stays issued.
pub fn steps_keep_the_store<T>()
    ensures number { (S R : State T) (call : Action T) (answer : Answer T) →
        Meets S call answer R → R.number ≡ S.number }
    ensures start { (S R : State T) (call : Action T) (answer : Answer T) →
        Meets S call answer R → R.start ≡ S.start }
    ensures next { (S R : State T) (call : Action T) (answer : Answer T) →
        Meets S call answer R → S.next ≤ R.next }
    ensures given { (S R : State T) (call : Action T) (answer : Answer T) (n : Name) →
        Meets S call answer R → IsGiven S n → IsGiven R n }
{}

/// A box that a call returns is of the store; its name was never issued before, and is issued from then
/// on. A guard that a call returns is of the store, which knows it; its ticket is the next one.
pub fn boxes_and_guards_are_new<T>()
    ensures made { (S R : State T) (call : Action T) (b : GenerationalPointer) →
        Meets S call (Made b) R → b.id.store ≡ S.number }
    ensures name { (S R : State T) (call : Action T) (b : GenerationalPointer) →
        Meets S call (Made b) R → set.contains S.given (name_of b) ≡ false }
    ensures given { (S R : State T) (call : Action T) (b : GenerationalPointer) →
        Meets S call (Made b) R → IsGiven R (name_of b) }
    ensures guard { (S R : State T) (call : Action T) (g : Guard) →
        Meets S call (Reads g) R → g.store ≡ S.number }
    ensures reader { (S R : State T) (call : Action T) (g : Guard) →
        Meets S call (Reads g) R → knows_reader R g ≡ true }
    ensures reader_ticket { (S R : State T) (call : Action T) (g : Guard) →
        Meets S call (Reads g) R → g.ticket ≡ S.next }
    ensures writer { (S R : State T) (call : Action T) (g : Guard) (v : T) →
        Meets S call (Writes g v) R → knows_writer R g ≡ true }
    ensures writer_ticket { (S R : State T) (call : Action T) (g : Guard) (v : T) →
        Meets S call (Writes g v) R → g.ticket ≡ S.next }
{}

/// A fresh state without its values is the fresh state of the machine without values.
pub fn fresh_states_are_plain<T>()
    ensures { (number start next : ℕ) →
        plain (fresh {T = T} number start next) ≡ fresh number start next }
{}

/// The set of issued names determines the slots, whatever their order: each slot has its greatest
/// generation, and adding a name is the same as issuing it last.
pub fn slots_follow_from_names()
    ensures none { lasts (set.items (set.empty {R = name_cmp})) ≡ lasts [] }
    ensures more { (given : Names) (n : Name) →
        lasts (set.items (set.insert given n)) ≡ lasts (n ∷ set.items given) }
{}
