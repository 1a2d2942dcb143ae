//! Sessions: calls by their places, and runs of them.

ghost use Rattle.std.specs.Prelude.{◌≡◌};
ghost use Rattle.generational_core.specs.declared.boxes.GenerationalPointer.{GenerationalPointer};

use crate::calls::{Call, Reply};
use crate::places::{Thing, answer, let_go};
use generational_core::Storage;
use std::alloc::Global;
use std::marker::Model;
use store_room::reserve_more;

/// A store, and what its calls returned. Contracts model it as the machine's state and a table of what
/// each place holds.
///
/// It has no `Drop`: `finish` must consume it.
pub struct Session<T, S: Storage<T>> {
    alloc: Global,
    store: S,
    things: Vec<Thing<T>>,
}

impl<T, S: Storage<T>> Model for Session<T, S> {
    ghost use Rattle.std.specs.Coded.{codes};
    ghost use Rattle.std.specs.FinMap as map;
    ghost use Rattle.std.specs.Prelude.{map as list_map};
    ghost use Rattle.generational_sessions.specs.Session.{SessionState};
    ghost use Rattle.generational_sessions.specs.SoundSession.{IsSoundSession};
    ghost use Rattle.generational_sessions.specs.Places.{as_held};

    ghost Value = { SessionState T };

    ghost coded = { Prim.hlevel (codes, map.code) };

    ghost view = { λ s.
        record { state = S.state s.store; table = list_map as_held s.things.items } };

    ghost invariant = { λ s. IsSoundSession
        (record { state = S.state s.store; table = list_map as_held s.things.items }) };
}

impl<T: Drop, S: Storage<T>> Session<T, S> {
    ghost use Rattle.std.specs.Prelude.{◌≡◌, ◌≤◌, ◌+◌, [], ◌∷◌, IfOk, IfErr, OnErr};
    ghost use Rattle.std.specs.Prelude.{option_copied};
    ghost use Rattle.generational_core.specs.Names.{Name};
    ghost use Rattle.generational_core.specs.Conditions.{IsFresh, IsEnded};
    ghost use Rattle.generational_sessions.specs.Session.{SessionState, SessionStep, Run, loan_at};
    ghost use Rattle.generational_sessions.specs.Session.{release_all};
    ghost use Rattle.generational_sessions.specs.SoundSession.{IsSoundSession};
    ghost use Rattle.generational_core.specs.Answers.{value_at};
    ghost use Rattle.generational_sessions.specs.Disturbance.{IsUndisturbed, Undisturbed};
    ghost use Rattle.generational_sessions.specs.Places.{as_reply, as_replies};
    ghost use Rattle.generational_core.specs.Slots.{slots, retired};
    ghost use Rattle.generational_sessions.specs.Numbered.{Matches, AnswersAs, empty_session};
    ghost use Rattle.generational_sessions.specs.Replies.{TellsEnds, GivesNewBox, EndsOwned};
    ghost use Rattle.generational_sessions.specs.Replies.{KeepBoxes, GiveBoxesApart};
    ghost use Rattle.generational_sessions.specs.Replies.{AllKeepPromises, AllTellEnds};
    ghost use Rattle.generational_sessions.specs.Replies.{TellsLack, TellsExhaustion};
    ghost use Rattle.generational_sessions.specs.Replies.{RefusalLeavesAll};

    /// A session over a fresh store (see `is_fresh`). Doesn't allocate.
    ///
    /// ```rust
    /// let mut session = Session::new(alloc, store);
    /// ```
    pub fn new(alloc: Global, store: S) -> Session<T, S>
        requires { IsFresh (S.state store) }
        ensures session { result ≡ record { state = S.state store; table = [] } }
        // It matches the machine whose names are plain numbers, before any call.
        ensures matches { Matches result (empty_session (S.state store).number) }
    {
        Session {
            alloc,
            store,
            things: Vec::new(alloc),
        }
    }

    /// Runs a call, and gives it the next place, whatever the reply.
    ///
    /// # Errors
    ///
    /// The call, if its place can't be allocated: then it has no place, and nothing changes.
    ///
    /// ```rust
    /// let made = session.call(Call::Leak(7, made()));
    /// let found = session.call(Call::Id(BoxAt::Place(0)));
    /// ```
    pub fn call(&mut self, call: Call<T>) -> Result<Reply<T>, Call<T>>
        // The call is a step of the machine on what the places hold.
        ensures step { IfOk result (λ reply. SessionStep self.old call (as_reply reply) self.new) }
        ensures back { IfErr result (λ back. back ≡ call) }
        ensures unchanged { OnErr result (self.new ≡ self.old) }

        // Ids aside, the reply is the numbered machine's, which has no slots: it depends on the calls,
        // and on which of them failed for memory or for numbers that were used up.
        ensures same_answer { IfOk result (λ reply. (a : SessionState T) → Matches self.old a →
            AnswersAs a (call ∷ []) (as_reply reply ∷ []) self.new) }

        // A read or a write of a box whose name has ended fails with that, and so does a making of a
        // reference from it without an owner; a call with a condition has the reply that it doesn't hold.
        // A box in a reply was never issued before, and a place keeps its box. The last release of an
        // owner removes the boxes of its list if the reply is `Done`.
        ensures tells_ends { IfOk result (λ reply. TellsEnds self.old call (as_reply reply)) }
        ensures new_box { IfOk result (λ reply. GivesNewBox self.old (as_reply reply)) }
        ensures keep_boxes { KeepBoxes self.old self.new }
        ensures ends_owned { IfOk result (λ reply.
            EndsOwned self.old call (as_reply reply) self.new) }

        // The reply is `OutOfMemory` only if the call needs something of the machine that may have to be
        // allocated. It is that the numbers are used up exactly if the call needs a ticket, and the next
        // ticket is the last number. A call that fails changes nothing, and its place holds nothing.
        ensures tells_lack { IfOk result (λ reply. TellsLack self.old call (as_reply reply)) }
        ensures tells_exhaustion { IfOk result (λ reply.
            TellsExhaustion self.old call (as_reply reply)) }
        ensures refusal_leaves_all { IfOk result (λ reply.
            RefusalLeavesAll self.old (as_reply reply) self.new) }

        // The state is sound, boxes at different places have different ids, and the store knows
        // the held guards and owners. There are no more slots than the peak and the retired ones.
        // A name that has ended is never live again. A value that nothing disturbs stays.
        ensures kept { IsSoundSession self.new }
        ensures bounded { slots self.new.state ≤ self.new.state.peak + retired self.new.state }
        ensures ended { (n : Name) → IsEnded self.old.state n → IsEnded self.new.state n }
        ensures kept_value { (b : GenerationalPointer) (m : Name) →
            IsUndisturbed b m self.old call self.new →
            value_at self.new.state m ≡ value_at self.old.state m }
    {
        if reserve_more(&mut self.things, 1).is_err() {
            return Err(call);
        }
        let (reply, thing) = answer(&mut self.store, &mut self.things, call);
        self.things.push_reserved(thing);
        Ok(reply)
    }

    /// Runs calls in order, each like `call`.
    ///
    /// # Errors
    ///
    /// All calls, if the replies or the places can't be allocated: then none has a place, and nothing
    /// changes.
    ///
    /// ```rust
    /// let leak = Call::Leak(7, made());
    /// let read = Call::TryRead(BoxAt::Place(0), read());
    /// let calls = vec![in alloc; leak, read].ok()?;
    /// let mut session = Session::new(alloc, store);
    /// let replies = session.run(calls).ok();
    /// ```
    pub fn run(&mut self, mut calls: Vec<Call<T>>) -> Result<Vec<Reply<T>>, Vec<Call<T>>>
        // The calls and their replies are a run of the machine.
        ensures run { IfOk result (λ replies.
            Run self.old calls.items (as_replies replies.items) self.new) }
        ensures back { IfErr result (λ back. back.items ≡ calls.items) }
        ensures unchanged { OnErr result (self.new ≡ self.old) }

        // Ids aside, the replies are the numbered machine's, which has no slots: they depend on the
        // calls, and on which of them failed for memory or for numbers that were used up.
        ensures same_answers { IfOk result (λ replies. (a : SessionState T) → Matches self.old a →
            AnswersAs a calls.items (as_replies replies.items) self.new) }

        // What `call` promises of a call holds of each call of the run: what is removed, what is
        // returned, what fails and that an error changes nothing, and that the state after it is sound,
        // with no more slots than the peak and the retired ones. A read or a write of a box whose name
        // had ended before the run fails with that, wherever it is in the run, and so does a making of a
        // reference from it without an owner; a call with a condition has the reply that it doesn't hold.
        // No two replies have boxes with the same id.
        ensures promises { IfOk result (λ replies.
            let list = as_replies replies.items in
            (run : Run self.old calls.items list self.new) →
            AllKeepPromises self.old calls.items list self.new run) }
        ensures tell_ends { IfOk result (λ replies.
            AllTellEnds self.old calls.items (as_replies replies.items)) }
        ensures keep_boxes { KeepBoxes self.old self.new }
        ensures boxes_apart { IfOk result (λ replies.
            GiveBoxesApart (as_replies replies.items)) }

        // What `call` keeps, each run keeps.
        ensures kept { IsSoundSession self.new }
        ensures bounded { slots self.new.state ≤ self.new.state.peak + retired self.new.state }
        ensures ended { (n : Name) → IsEnded self.old.state n → IsEnded self.new.state n }
        ensures kept_value { IfOk result (λ replies.
            let list = as_replies replies.items in
            (b : GenerationalPointer) (m : Name) (run : Run self.old calls.items list self.new) →
            Undisturbed b m self.old calls.items list self.new run →
            value_at self.new.state m ≡ value_at self.old.state m) }
    {
        let count = calls.len();
        if reserve_more(&mut self.things, count).is_err() {
            return Err(calls);
        }
        let mut replies = match Vec::with_capacity(self.alloc, count) {
            Ok(replies) => replies,
            Err(_) => return Err(calls),
        };
        calls.reverse();
        while let Some(call) = calls.pop() {
            let (reply, thing) = answer(&mut self.store, &mut self.things, call);
            self.things.push_reserved(thing);
            replies.push_reserved(reply);
        }
        calls.destroy_empty();
        Ok(replies)
    }

    /// The value of the guard at a place, a reader's or a writer's. None if the place holds no guard.
    /// Doesn't allocate.
    ///
    /// ```rust
    /// let seen = session.view(1).copied();
    /// ```
    pub fn view(&self, place: usize) -> Option<&T>
        ensures { option_copied result ≡ loan_at self.now place }
    {
        match self.things.get(place) {
            Some(Thing::Reader(guard)) => self.store.open(guard),
            Some(Thing::Writer(guard)) => Some(guard.deref()),
            _ => None,
        }
    }

    /// The store. Doesn't allocate.
    pub fn store(&self) -> &S
        ensures { S.state result.now ≡ self.now.state }
    {
        &self.store
    }

    /// Releases the held guards in order of place, which puts back the values of writers, leaks the held
    /// owners, and returns the store. Doesn't allocate.
    ///
    /// ```rust
    /// let store = session.finish();
    /// ```
    pub fn finish(self) -> S
        ensures { S.state result ≡ release_all self.state self.table }
    {
        let Session {
            alloc: _,
            mut store,
            mut things,
        } = self;
        things.reverse();
        while let Some(thing) = things.pop() {
            let_go(&mut store, thing);
        }
        things.destroy_empty();
        store
    }
}
