//! Laws of histories, each the contract of a function that does nothing.

ghost use Rattle.std.specs.Prelude.{◌≡◌, ℕ, Bool, true, false, List, ◌∷◌, ◌++◌, Some, Result};
ghost use Rattle.std.specs.Result.{is_ok};
ghost use Rattle.generational_errors.specs.declared.error.StoreError.{StoreError};
ghost use Rattle.generational_errors.specs.declared.error.StoreError.TheVariants.{OutOfMemory};
ghost use Rattle.generational_core.specs.Answers.{back_answer};
ghost use Rattle.generational_core.specs.Borrowing.{Guard};
ghost use Rattle.generational_core.specs.State.{State, IsSound};
ghost use Rattle.generational_core.specs.Conditions.{fresh};
ghost use Rattle.generational_core.specs.declared.steps.StepCall.{StepCall};
ghost use Rattle.generational_core.specs.Machine.{Action, Answer, knows_reader, knows_writer};
ghost use Rattle.generational_core.specs.Machine.Action.{ReleaseReader, ReleaseWriter};
ghost use Rattle.generational_core.specs.Machine.Answer.{Flag, Refused};
ghost use Rattle.generational_core.specs.Steps.{Meets};
ghost use Rattle.generational_core.specs.StepCalls.{is_ready, recorded_as};
ghost use Rattle.shared_state.specs.Answering.{MayAnswer, TakesTicket, needs_owner};
ghost use Rattle.shared_state.specs.Shared.{IsStep, SharedState};
ghost use Rattle.generational_laws.specs.History.{plain};
ghost use Rattle.shared_records.specs.declared.step.Step.{Step};
ghost use Rattle.shared_records.specs.declared.step.StepReply.{StepReply};
ghost use Rattle.shared_history.specs.Bases.{BaseState, plain_of};
ghost use Rattle.shared_history.specs.Counts.{Counts};
ghost use Rattle.shared_history.specs.Replies.{recorded_reply};
ghost use Rattle.shared_history.specs.History.{Plain, IsTaken, LeadsOver, plain_step, start};
ghost use Rattle.shared_history.specs.History.{replay_from};

use generational_box::laws;

/// Each recorded step of a history that replays is the machine's step of this very call, taken without
/// values in the state to which the steps before it led. No borrow was in its way there, the machine's
/// answer is the recorded reply, and the names that it issued were never issued before and fit. The steps
/// after it continue from the state that it led to. Boxes are compared by their ids and locations, and
/// locations by text, line and column.
pub fn recorded_steps_are_taken()
    ensures step { (P Q : Plain) (call : StepCall) (reply : StepReply) →
        plain_step P call reply ≡ Some Q → IsTaken P call reply Q }
    ensures history { (P R : Plain) (before : List Step) (x : Step) (after : List Step) →
        replay_from P (before ++ x ∷ after) ≡ Some R → LeadsOver P before x after R }
{}

/// A call of a store whose answer is recorded is a lawful step: taken without values, it leads from
/// the store's state before it to that after it. A history starts where an empty store does.
pub fn recorded_calls_are_lawful<T>()
    ensures start { (number : ℕ) → start number ≡ plain (fresh {T = T} number 1 0) }
    ensures step { (S R : State T) (action : Action T) (call : StepCall) (answer : Answer T)
        (reply : StepReply) →
        IsSound (plain S) → recorded_as action ≡ Some call → Meets S action answer R →
        recorded_reply R action answer ≡ Some reply → plain_step (plain S) call reply ≡ Some (plain R) }
{
    laws::fresh_states_are_plain::<T>();
    laws::plain_states_step::<T>();
    laws::calls_are_ready_where_no_borrow_is_told::<()>();
}

/// A history that replays from a sound state leads to a sound state, in which a ticket identifies a
/// reader, and to one of the store with the same number, whose slots have the same first generation. The
/// state of an empty store is sound.
pub fn histories_lead_to_sound_states()
    ensures start { (number : ℕ) → IsSound (start number) }
    ensures sound { (P : Plain) (steps : List Step) (Q : Plain) →
        IsSound P → replay_from P steps ≡ Some Q → IsSound Q }
    ensures number { (P : Plain) (steps : List Step) (Q : Plain) →
        IsSound P → replay_from P steps ≡ Some Q → Q.number ≡ P.number }
    ensures store { (base : BaseState) (steps : List Step) (Q : Plain) →
        IsSound (plain_of base) → replay_from (plain_of base) steps ≡ Some Q →
        Q.number ≡ base.number }
    ensures generation { (P : Plain) (steps : List Step) (Q : Plain) →
        IsSound P → replay_from P steps ≡ Some Q → Q.start ≡ P.start }
{
    laws::steps_are_sound::<()>();
    laws::steps_keep_the_store::<()>();
}

/// A call that no borrow hinders succeeds only if the owner, the boxes and the guard that are passed to
/// it are of this store, and so is what it returns. If it fails, then with `Dropped`, for the last
/// ticket, for an owner that the store doesn't know, or if memory runs out; each only if such a call may
/// fail so.
pub fn free_calls_are_answered_so<T>()
    ensures { (S R : State T) (action : Action T) (call : StepCall) (answer : Answer T) →
        recorded_as action ≡ Some call → is_ready S call ≡ true → Meets S action answer R →
        MayAnswer S.number action answer }
{
    laws::calls_are_ready_where_no_borrow_is_told::<T>();
}

/// The release of a guard does the machine's step, and returns whether the state knew the guard.
pub fn releases_tell_of_guards<T>()
    ensures reader { (number : ℕ) (old new : SharedState T) (counts raised : Counts) (g : Guard)
        (known : Bool) → IsStep number old counts (ReleaseReader g) (Flag known) new raised →
        Meets old.state (ReleaseReader g) (Flag known) new.state
        × (known ≡ knows_reader old.state g) }
    ensures writer { (number : ℕ) (old new : SharedState T) (counts raised : Counts) (g : Guard)
        (v : T) (released : Result (Unit {0}) T) →
        IsStep number old counts (ReleaseWriter g v) (back_answer released) new raised →
        Meets old.state (ReleaseWriter g v) (back_answer released) new.state
        × (is_ok released ≡ knows_writer old.state g) }
{}

/// A call that takes no ticket and no owner fails with an error of the store only if memory runs out.
pub fn memory_alone_may_lack<T>()
    ensures { (number : ℕ) (action : Action T) (cause : StoreError) →
        (TakesTicket number action → ⊥) → needs_owner action ≡ false →
        MayAnswer number action (Refused cause) → cause ≡ OutOfMemory }
{}
