//! The nodes of a store.

ghost use Rattle.std.specs.Prelude.{◌≡◌, ◌≢◌, ◌<◌, ◌+◌, ◌^◌, ℕ, List, Option, Some, None, IfSome, IfNone, option_copied, take, IsTrue};
ghost use Rattle.std.specs.Prelude.{[], ◌∷◌, true, false, is_some, Ok, IsOk, IfOk, IfErr, OnOk, OnErr};
ghost use Rattle.std.specs.Prelude.{map as list_map};
ghost use Rattle.std.specs.Vec.{vec_items};
ghost use Rattle.generational_core.specs.Slots.{free};
ghost use Rattle.generational_laws.specs.PlainStores.{IsSimple};
ghost use Rattle.generational_errors.specs.declared.error.StoreError.TheVariants.{NumbersExhausted, OutOfMemory};
ghost use Rattle.reactive.specs.declared.fault.Fault.TheVariants as fault;
ghost use Rattle.reactive.specs.declared.key.Key.{Key};
ghost use Rattle.reactive.specs.declared.node.Node.{Node};
ghost use Rattle.reactive.specs.Blaming.{AreBlamed, AreTrue};
ghost use Rattle.reactive.specs.Changing.{IsChanged, IsResetTo};
ghost use Rattle.reactive.specs.Chains.{GoesOn, IsOn};
ghost use Rattle.reactive.specs.Ending.{AreForgotten, AreSpared, HasLostKeys};
ghost use Rattle.reactive.specs.Watching.{AreDirtied};
ghost use Rattle.reactive.specs.Links.{IsRelinked, Keeps, Owns, known_at, knows};
ghost use Rattle.reactive.specs.Graphs.{IsRuleless, kinds_of};
ghost use Rattle.reactive.specs.Asking.{asked_by};
ghost use Rattle.reactive.specs.Looks.{RunFinds, IsFoundBy, Looked, Verified};
ghost use Rattle.reactive.specs.Meaning.{Graph};
ghost use Rattle.reactive.specs.Plans.{Asked, Ran};
ghost use Rattle.reactive.specs.Refreshing.{IsAdvanced, IsOnTheWay, Refreshed, Went};
ghost use Rattle.reactive.specs.declared.look.Frame.{Frame};
ghost use Rattle.reactive.specs.declared.look.Found.TheVariants as found;
ghost use Rattle.reactive.specs.declared.look.Look.TheVariants as look;
ghost use Rattle.reactive.specs.declared.look.Step.TheVariants as step;
ghost use Rattle.reactive.specs.Settling.{IsLearned, IsLeft, IsNodeSettled, Lasts};
ghost use Rattle.reactive.specs.Tables.{AllStand, AreKnown, IsPut, IsSound, book, known_by, known_of, nodes_in, shown_from};

use crate::blame::{Blame, keep_fault, kept_fault};
use crate::fault::Fault;
use crate::key::Key;
use crate::links::{Links, Marks};
use crate::look::{Found, Frame, Look, Run, Step, Verdict};
use crate::node::Node;
use crate::reader::{Questions, Reader};
use crate::rule::Rule;
use dirty_slots::DirtySlots;
use generational_core::parts::pointer_at;
use generational_core::{GenerationalBox, Location, Refusal, Storage, StoreError};
use reactive_values::Value;
use stamped_values::StampedValues;
use std::alloc::Global;
use std::marker::PhantomData;

/// Nodes in a store.
#[derive(Drop)]
pub struct Nodes<T, R, S: Storage<Node<T, R>>> {
    pub(crate) alloc: Global,
    pub(crate) store: S,
    // how often a source was set, a rule was set, or nodes were removed
    pub(crate) revision: u64,
    // how often a rule has computed a value
    pub(crate) runs: u64,
    pub(crate) links: Links,
    pub(crate) marker: PhantomData<(T, R)>,
}

/// The node of a key. Where its box was made doesn't matter to a look.
pub(crate) fn node_of<T, R, S: Storage<Node<T, R>>>(store: &S, key: Key) -> Option<&Node<T, R>>
    ensures { option_copied result ≡ nodes_in (S.state store.now) key }
{
    let id = key.id;
    let nowhere = Location::new("", 0, 0);
    store.peek(pointer_at(id.store, id.slot, id.generation, nowhere))
}

/// The value of a key's node, if it is known to be what the node means.
pub(crate) fn known_value<'a, T: 'a, R: 'a, S: Storage<Node<T, R>>>(
    store: &'a S,
    marks: &Marks,
    key: Key,
) -> Option<&'a T>
    ensures { option_copied result ≡ shown_from (nodes_in (S.state store.now)) marks.now.known.items key }
{
    match node_of(store, key) {
        Some(node) => node.known(marks.knows(key)),
        None => None,
    }
}

// The result of a run that computed a value.
fn value_found<'a, T: Drop>(value: T, questions: Questions<'a>, is_kept: bool) -> Found<T>
    ensures { IsFoundBy value (asked_by questions.entry) questions.entry.kept.now is_kept result }
{
    if is_kept && questions.listed.is_empty() && questions.same == questions.kept.len() {
        return Found::Again(value);
    }
    let mut questions = questions;
    match questions.list() {
        Ok(()) => Found::New(value, questions.listed),
        Err(_) => Found::Full,
    }
}

impl<T: Value + Drop, R: Rule<T>, S: Storage<Node<T, R>>> Nodes<T, R, S> {
    // Calls a closure on a key's node, mutably. None if there is no such node: the closure isn't called
    // then.
    fn change<U, F: FnOnce(&mut Node<T, R>) -> U>(&mut self, key: Key, f: F) -> Option<U>
        requires simple { IsSimple (S.state self.old.store) }
        requires callable { F.IsAlwaysCallable f }
        ensures simple { IsSimple (S.state self.new.store) }
        ensures changed { IfSome result (λ u. IsChanged F.FnOnce f (nodes_in (S.state self.old.store)) key u
            (nodes_in (S.state self.new.store))) }
        ensures none { IfNone result (nodes_in (S.state self.old.store) key ≡ None) }
        ensures refused { IfNone result (S.state self.new.store ≡ S.state self.old.store) }
        ensures links { self.new.links ≡ self.old.links }
        ensures revision { self.new.revision ≡ self.old.revision }
    {
        let Some(pointer) = self.store.find(key.id) else {
            return None;
        };
        if self.store.peek(pointer).is_none() {
            return None;
        }
        Some(self.store.change_value(pointer, f))
    }

    // Records that what is cached of a key's node was found to be right. False if memory runs out.
    fn confirm(&mut self, key: Key) -> bool
        requires simple { IsSimple (S.state self.old.store) }
        ensures simple { IsSimple (S.state self.new.store) }
        ensures confirmed { IsTrue result → (old : Node T R) → nodes_in (S.state self.old.store) key ≡ Some old →
            IsPut (nodes_in (S.state self.old.store)) key (record old { checked = self.old.revision }) (nodes_in (S.state self.new.store)) }
        ensures learned { IsTrue result → IsLearned (book (S.state self.old.store) self.old.links) key (book (S.state self.new.store) self.new.links) }
        ensures failed { result ≡ false → IsLeft (book (S.state self.old.store) self.old.links) (book (S.state self.new.store) self.new.links) }
        ensures web { self.new.links.web ≡ self.old.links.web }
        ensures kinds { kinds_of (nodes_in (S.state self.new.store)) ≡ kinds_of (nodes_in (S.state self.old.store)) }
        ensures revision { self.new.revision ≡ self.old.revision }
    {
        if !self.links.marks.reserve(key.id.slot) {
            return false;
        }
        let revision = self.revision;
        let Some(()) = self.change(key, |node: &mut Node<T, R>| node.confirm(revision)) else {
            return false;
        };
        self.links.marks.learn(key);
        true
    }

    // Caches what a key's node was found to mean, and the reads that it came from. False if memory runs
    // out. Inlined, it would make each other step dearer.
    #[inline(never)]
    fn keep(&mut self, key: Key, value: T, reads: Vec<Key>) -> bool
        requires simple { IsSimple (S.state self.old.store) }
        ensures simple { IsSimple (S.state self.new.store) }
        ensures kept { IsTrue result → (old : Node T R) → nodes_in (S.state self.old.store) key ≡ Some old →
            (new : Node T R) × IsNodeSettled old value reads self.old.revision new
            × IsPut (nodes_in (S.state self.old.store)) key new (nodes_in (S.state self.new.store)) }
        ensures learned { IsTrue result → IsLearned (book (S.state self.old.store) self.old.links) key (book (S.state self.new.store) self.new.links) }
        ensures relinked { IsTrue result → IsRelinked self.old.links.web key reads.items self.new.links.web }
        ensures failed { result ≡ false → nodes_in (S.state self.old.store) key ≢ None → IsLeft (book (S.state self.old.store) self.old.links) (book (S.state self.new.store) self.new.links) }
        ensures kinds { kinds_of (nodes_in (S.state self.new.store)) ≡ kinds_of (nodes_in (S.state self.old.store)) }
        ensures revision { self.new.revision ≡ self.old.revision }
    {
        if !self.links.marks.reserve(key.id.slot) {
            return false;
        }
        if !self.links.web.relink(key, &reads) {
            return false;
        }
        let revision = self.revision;
        let Some(()) = self.change(key, |node: &mut Node<T, R>| {
            node.settle(value, reads, revision)
        }) else {
            return false;
        };
        self.links.marks.learn(key);
        self.runs = self.runs.wrapping_add(1);
        true
    }

    // Caches what a key's node was found to mean by the same reads as before. False if memory runs out.
    fn keep_again(&mut self, key: Key, value: T) -> bool
        requires simple { IsSimple (S.state self.old.store) }
        ensures simple { IsSimple (S.state self.new.store) }
        ensures kept { IsTrue result → (old : Node T R) → nodes_in (S.state self.old.store) key ≡ Some old →
            (new : Node T R) × IsNodeSettled old value old.reads self.old.revision new
            × IsPut (nodes_in (S.state self.old.store)) key new (nodes_in (S.state self.new.store)) }
        ensures learned { IsTrue result → IsLearned (book (S.state self.old.store) self.old.links) key (book (S.state self.new.store) self.new.links) }
        ensures failed { result ≡ false → IsLeft (book (S.state self.old.store) self.old.links) (book (S.state self.new.store) self.new.links) }
        ensures web { self.new.links.web ≡ self.old.links.web }
        ensures kinds { kinds_of (nodes_in (S.state self.new.store)) ≡ kinds_of (nodes_in (S.state self.old.store)) }
        ensures revision { self.new.revision ≡ self.old.revision }
    {
        if !self.links.marks.reserve(key.id.slot) {
            return false;
        }
        let revision = self.revision;
        let Some(()) = self.change(key, |node: &mut Node<T, R>| {
            node.settle_again(value, revision)
        }) else {
            return false;
        };
        self.links.marks.learn(key);
        self.runs = self.runs.wrapping_add(1);
        true
    }

    // Whether these reads have the same results as in a revision, from an index on.
    fn verify(&self, reads: &[Key], since: u64, from: usize) -> Verdict
        ensures { (answers : List (Asked T)) → list_map (λ a. a.key) answers ≡ reads.now →
            AllStand (nodes_in (S.state self.now.store)) since answers →
            AreKnown (book (S.state self.now.store) self.now.links) (take from answers) →
            Verified (book (S.state self.now.store) self.now.links) answers result }
    {
        for place in from..reads.len() {
            let key = reads[place];
            let Some(node) = node_of(&self.store, key) else {
                return Verdict::Gone(key);
            };
            if !node.is_known(self.links.marks.knows(key)) {
                return Verdict::Unknown(key, place);
            }
            if node.changed > since {
                return Verdict::Changed;
            }
        }
        Verdict::Same
    }

    // Runs a rule over what is known, and counts along the cached reads.
    fn run<'a>(&'a self, rule: &R, kept: &'a [Key]) -> Run<'a, T>
        ensures { (answers : List (Asked T)) × (list_map (λ a. a.key) answers ≡ asked_by result.questions)
            × (result.questions.kept.now ≡ kept.now)
            × (result.is_full ≡ false → Ran (R.plan rule.now) answers result.lacks result.result)
            × AreKnown (book (S.state self.now.store) self.now.links) answers }
    {
        let mut reader = Reader {
            store: &self.store,
            marks: &self.links.marks,
            questions: Questions {
                kept,
                same: 0,
                listed: Vec::new(self.alloc),
            },
            lacks: None,
            is_full: false,
            marker: PhantomData,
        };
        let result = rule.compute(&mut reader);
        let Reader {
            store: _,
            marks: _,
            questions,
            lacks,
            is_full,
            marker: _,
        } = reader;
        Run {
            result,
            questions,
            lacks,
            is_full,
        }
    }

    // The result of running a key's rule.
    fn rerun(&self, key: Key) -> Found<T>
        ensures finds { (G : Graph T) (n : Node T R) (r : R) →
            IsSound R.plan G self.now.revision (book (S.state self.now.store) self.now.links) →
            nodes_in (S.state self.now.store) key ≡ Some n → n.rule ≡ Some r →
            RunFinds G self.now.revision (book (S.state self.now.store) self.now.links) key result }
        ensures owned { (v : T) → result ≡ found.Again v → Owns self.now.links.web key }
    {
        let Some(node) = node_of(&self.store, key) else {
            return Found::Gone(key);
        };
        let Some(rule) = &node.rule else {
            return Found::NoValue;
        };
        let Run {
            result,
            questions,
            lacks,
            is_full,
        } = self.run(rule, &node.reads);
        if is_full {
            return Found::Full;
        }
        match lacks {
            Some(other) => match node_of(&self.store, other) {
                Some(_) => Found::Needs(other),
                None => Found::Gone(other),
            },
            None => match result {
                Some(value) => value_found(value, questions, self.is_kept(key, node)),
                None => Found::NoValue,
            },
        }
    }

    // Whether a node has a cached value, and its links are its own.
    fn is_kept(&self, key: Key, node: &Node<T, R>) -> bool
        ensures value { IsTrue result → is_some node.now.value ≡ true }
        ensures owned { IsTrue result → Owns self.now.links.web key }
    {
        match self.links.web.owners.get(key.id.slot) {
            Some(owner) => node.value.is_some() && owner.generation == Some(key.id.generation),
            None => false,
        }
    }

    // Checks a node. Without a place its rule must be run, if it has one: then it isn't asked whether it is
    // known.
    fn judge(&self, key: Key, node: &Node<T, R>, place: Option<usize>) -> Look
        ensures looked { (G : Graph T) →
            IsSound R.plan G self.now.revision (book (S.state self.now.store) self.now.links) →
            nodes_in (S.state self.now.store) key ≡ Some node.now →
            GoesOn G self.now.revision (book (S.state self.now.store) self.now.links) key place →
            Looked G self.now.revision (book (S.state self.now.store) self.now.links) key result }
        ensures known { is_some (known_by (knows (known_at self.now.links.marks.known.items) key) (Some node.now)) ≡ true →
            place ≢ None → result ≡ look.Known }
        ensures owned { result ≡ look.Right → Owns self.now.links.web key }
    {
        if node.is_known(false) {
            return Look::Known;
        }
        if node.rule.is_none() {
            return Look::NoValue;
        }
        let Some(from) = place else {
            return Look::Stale;
        };
        if node.is_known(self.links.marks.knows(key)) {
            return Look::Known;
        }
        if !self.is_kept(key, node) {
            return Look::Stale;
        }
        match self.verify(&node.reads, node.checked, from) {
            Verdict::Same => Look::Right,
            Verdict::Unknown(other, at) => Look::Needs(other, at),
            Verdict::Gone(other) => Look::Gone(other),
            Verdict::Changed => Look::Stale,
        }
    }

    // Checks a key's node, from an index of its cached reads on.
    fn look(&self, key: Key, place: Option<usize>) -> Look
        ensures looked { (G : Graph T) →
            IsSound R.plan G self.now.revision (book (S.state self.now.store) self.now.links) →
            GoesOn G self.now.revision (book (S.state self.now.store) self.now.links) key place →
            Looked G self.now.revision (book (S.state self.now.store) self.now.links) key result }
        ensures known { is_some (known_of (book (S.state self.now.store) self.now.links) key) ≡ true →
            place ≢ None → result ≡ look.Known }
        ensures owned { result ≡ look.Right → Owns self.now.links.web key }
    {
        match node_of(&self.store, key) {
            Some(node) => self.judge(key, node, place),
            None => Look::Gone(key),
        }
    }

    // Runs a key's rule, and caches the result.
    fn renew(&mut self, key: Key) -> Step
        requires simple { IsSimple (S.state self.old.store) }
        ensures simple { IsSimple (S.state self.new.store) }
        ensures revision { self.new.revision ≡ self.old.revision }
        ensures advanced { (G : Graph T) (n : Node T R) (r : R) →
            IsSound R.plan G self.old.revision (book (S.state self.old.store) self.old.links) →
            nodes_in (S.state self.old.store) key ≡ Some n → n.rule ≡ Some r →
            IsAdvanced R.plan G self.old.revision (book (S.state self.old.store) self.old.links) key result
            (book (S.state self.new.store) self.new.links) }
        ensures kinds { kinds_of (nodes_in (S.state self.new.store)) ≡ kinds_of (nodes_in (S.state self.old.store)) }
    {
        match self.rerun(key) {
            Found::Again(value) => {
                if self.keep_again(key, value) {
                    Step::Settled
                } else {
                    Step::Full
                }
            }
            Found::New(value, reads) => {
                if self.keep(key, value, reads) {
                    Step::Settled
                } else {
                    Step::Full
                }
            }
            Found::Needs(other) => Step::Needs(other, None),
            Found::Gone(other) => Step::Gone(other),
            Found::NoValue => Step::NoValue,
            Found::Full => Step::Full,
        }
    }

    // Checks a key's node, and caches the result.
    pub(crate) fn advance(&mut self, key: Key, place: Option<usize>) -> Step
        requires simple { IsSimple (S.state self.old.store) }
        ensures simple { IsSimple (S.state self.new.store) }
        ensures revision { self.new.revision ≡ self.old.revision }
        ensures advanced { (G : Graph T) →
            IsSound R.plan G self.old.revision (book (S.state self.old.store) self.old.links) →
            GoesOn G self.old.revision (book (S.state self.old.store) self.old.links) key place →
            IsAdvanced R.plan G self.old.revision (book (S.state self.old.store) self.old.links) key result
            (book (S.state self.new.store) self.new.links) }
        ensures kinds { kinds_of (nodes_in (S.state self.new.store)) ≡ kinds_of (nodes_in (S.state self.old.store)) }
        ensures known { is_some (known_of (book (S.state self.old.store) self.old.links) key) ≡ true →
            place ≢ None → result ≡ step.Settled }
    {
        match self.look(key, place) {
            Look::Known => Step::Settled,
            Look::Right => {
                if self.confirm(key) {
                    Step::Settled
                } else {
                    Step::Full
                }
            }
            Look::Stale => self.renew(key),
            Look::Needs(other, at) => Step::Needs(other, Some(at)),
            Look::Gone(other) => Step::Gone(other),
            Look::NoValue => Step::NoValue,
        }
    }

    // Records a node's index on a path, to find cycles at once. False if memory runs out.
    fn note(&mut self, key: Key, place: usize) -> bool
        ensures store { self.new.store ≡ self.old.store }
        ensures left { IsLeft (book (S.state self.old.store) self.old.links) (book (S.state self.new.store) self.new.links) }
        ensures revision { self.new.revision ≡ self.old.revision }
    {
        self.links.marks.note(key.id.slot, place)
    }

    // Whether a node is recorded to be on a path, and is.
    fn is_on(&self, path: &Vec<Frame>, key: Key) -> bool
        ensures { IsTrue result → IsOn path.now.items key }
    {
        let place = self.links.marks.noted(key.id.slot);
        match path.get(place) {
            Some(frame) => frame.key == key,
            None => false,
        }
    }

    // Makes one step: back to the node that needs this one, or on to one that it needs. None if the
    // first node is known. A node that read one whose value has changed loses its place: its rule is run at
    // once. Its later reads aren't checked first, since the rule may not make them again.
    fn go_on(
        &mut self,
        path: &mut Vec<Frame>,
        top: Frame,
        faults: &StampedValues<Blame>,
    ) -> Result<Option<Frame>, Fault>
        requires simple { IsSimple (S.state self.old.store) }
        ensures simple { IsSimple (S.state self.new.store) }
        ensures revision { self.new.revision ≡ self.old.revision }
        ensures went { (G : Graph T) (start : Key) →
            IsOnTheWay R.plan G self.old.revision (book (S.state self.old.store) self.old.links) start
            path.old.items top →
            Went R.plan G self.old.revision (book (S.state self.new.store) self.new.links) start
            path.new.items result }
        ensures blamed { (G : Graph T) (start : Key) →
            IsOnTheWay R.plan G self.old.revision (book (S.state self.old.store) self.old.links) start path.old.items top →
            AreTrue G (kinds_of (nodes_in (S.state self.old.store))) faults.now →
            IfErr result (AreBlamed G (kinds_of (nodes_in (S.state self.old.store))) start path.new.items top.key) }
        ensures kinds { kinds_of (nodes_in (S.state self.new.store)) ≡ kinds_of (nodes_in (S.state self.old.store)) }
        ensures lasts { (G : Graph T) (start : Key) →
            IsOnTheWay R.plan G self.old.revision (book (S.state self.old.store) self.old.links) start path.old.items top → Lasts (book (S.state self.old.store) self.old.links) (book (S.state self.new.store) self.new.links) }
        ensures known { is_some (known_of (book (S.state self.old.store) self.old.links) top.key) ≡ true →
            top.place ≢ None → path.old.items ≡ [] → result ≡ Ok None }
    {
        match self.advance(top.key, top.place) {
            Step::Settled => match path.pop() {
                Some(below) => match node_of(&self.store, top.key) {
                    Some(node) if node.changed == self.revision => Ok(Some(Frame {
                        key: below.key,
                        place: None,
                    })),
                    _ => Ok(Some(below)),
                },
                None => Ok(None),
            },
            Step::Needs(next, place) => {
                let key = top.key;
                if let Some(fault) = kept_fault(faults, next) {
                    return Err(fault);
                }
                if !self.note(key, path.len()) {
                    return Err(Fault::Store(StoreError::OutOfMemory));
                }
                match path.push(Frame { key, place }) {
                    Ok(()) => {}
                    Err(_) => return Err(Fault::Store(StoreError::OutOfMemory)),
                }
                if self.is_on(path, next) {
                    return Err(Fault::Cycle(next));
                }
                let place = Some(0);
                Ok(Some(Frame { key: next, place }))
            }
            Step::Gone(other) => Err(Fault::Gone(other)),
            Step::NoValue => Err(Fault::NoValue(top.key)),
            Step::Full => Err(Fault::Store(StoreError::OutOfMemory)),
        }
    }

    // Brings a node up to date, and those that it needs. A fault is kept of those that it is true of.
    pub(crate) fn refresh(
        &mut self,
        key: Key,
        faults: &mut StampedValues<Blame>,
    ) -> Result<(), Fault>
        requires simple { IsSimple (S.state self.old.store) }
        ensures simple { IsSimple (S.state self.new.store) }
        ensures revision { self.new.revision ≡ self.old.revision }
        ensures sound { (G : Graph T) →
            IsSound R.plan G self.old.revision (book (S.state self.old.store) self.old.links) →
            IsSound R.plan G self.old.revision (book (S.state self.new.store) self.new.links) }
        ensures refreshed { (G : Graph T) →
            IsSound R.plan G self.old.revision (book (S.state self.old.store) self.old.links) →
            AreTrue G (kinds_of (nodes_in (S.state self.old.store))) faults.old →
            Refreshed G (book (S.state self.new.store) self.new.links) key result }
        ensures blamed { (G : Graph T) →
            IsSound R.plan G self.old.revision (book (S.state self.old.store) self.old.links) →
            AreTrue G (kinds_of (nodes_in (S.state self.old.store))) faults.old →
            AreTrue G (kinds_of (nodes_in (S.state self.old.store))) faults.new }
        ensures kinds { kinds_of (nodes_in (S.state self.new.store)) ≡ kinds_of (nodes_in (S.state self.old.store)) }
        ensures lasts { (G : Graph T) → IsSound R.plan G self.old.revision (book (S.state self.old.store) self.old.links) → Lasts (book (S.state self.old.store) self.old.links) (book (S.state self.new.store) self.new.links) }
        ensures known { (G : Graph T) →
            IsSound R.plan G self.old.revision (book (S.state self.old.store) self.old.links) →
            AreTrue G (kinds_of (nodes_in (S.state self.old.store))) faults.old →
            is_some (known_of (book (S.state self.old.store) self.old.links) key) ≡ true → IsOk result }
    {
        if let Some(fault) = kept_fault(faults, key) {
            return Err(fault);
        }
        let mut path: Vec<Frame> = Vec::new(self.alloc);
        let place = Some(0);
        let mut top = Frame { key, place };
        for _step in 0..u64::MAX {
            match self.go_on(&mut path, top, faults) {
                Ok(Some(next)) => top = next,
                Ok(None) => return Ok(()),
                Err(fault) => {
                    keep_fault(faults, &path, top.key, fault);
                    return Err(fault);
                }
            }
        }
        Err(Fault::Store(StoreError::NumbersExhausted))
    }

    // Makes a node. It comes back if memory runs out.
    pub(crate) fn insert(
        &mut self,
        node: Node<T, R>,
        here: Location,
        dirty: &mut DirtySlots,
    ) -> Result<Key, Refusal<Node<T, R>>>
        requires simple { IsSimple (S.state self.old.store) }
        ensures simple { IsSimple (S.state self.new.store) }
        ensures put { IfOk result (λ key. (nodes_in (S.state self.old.store) key ≡ None)
            × IsPut (nodes_in (S.state self.old.store)) key node (nodes_in (S.state self.new.store))) }
        ensures forgotten { OnOk result (AreForgotten (book (S.state self.old.store) self.old.links) (book (S.state self.new.store) self.new.links)) }
        ensures dirtied { OnOk result (AreDirtied (book (S.state self.old.store) self.old.links) dirty.old (book (S.state self.new.store) self.new.links) dirty.new) }
        ensures dirty { OnErr result (dirty.new ≡ dirty.old) }
        ensures refused { OnErr result (S.state self.new.store ≡ S.state self.old.store) }
        ensures links { OnErr result ((self.new.links.marks.known.items ≡ self.old.links.marks.known.items)
            × (self.new.links.web ≡ self.old.links.web)) }
        ensures back { IfErr result (λ refusal. refusal.value ≡ node) }
        ensures cause { IfErr result (λ refusal. refusal.cause ≡ OutOfMemory) }
        ensures short { OnErr result (free (S.state self.old.store) ≡ 0) }
        ensures revision { self.new.revision ≡ self.old.revision }
    {
        match GenerationalBox::leak(&mut self.store, node, here) {
            Ok(raw) => {
                let key = Key { id: raw.id() };
                self.links.marks.forget(&self.links.web, dirty, key.id.slot);
                Ok(key)
            }
            Err(refusal) => Err(refusal),
        }
    }

    // Removes a node, unless it was removed already.
    fn remove(&mut self, key: Key, dirty: &mut DirtySlots)
        requires simple { IsSimple (S.state self.old.store) }
        ensures simple { IsSimple (S.state self.new.store) }
        ensures ended { nodes_in (S.state self.new.store) key ≡ None }
        ensures others { (j : Key) → j ≢ key →
            nodes_in (S.state self.new.store) j ≡ nodes_in (S.state self.old.store) j }
        ensures forgotten { AreForgotten (book (S.state self.old.store) self.old.links) (book (S.state self.new.store) self.new.links) }
        ensures spared { AreSpared (book (S.state self.old.store) self.old.links) (key ∷ []) (book (S.state self.new.store) self.new.links) }
        ensures dirtied { AreDirtied (book (S.state self.old.store) self.old.links) dirty.old (book (S.state self.new.store) self.new.links) dirty.new }
        ensures revision { self.new.revision ≡ self.old.revision }
    {
        let Some(pointer) = self.store.find(key.id) else {
            return;
        };
        if !self.store.can_write(pointer) {
            return;
        }
        match self.store.recycle(pointer) {
            Ok(()) => {}
            Err(_) => unreachable!(),
        }
        self.links.marks.forget(&self.links.web, dirty, key.id.slot);
    }

    // Sets the rule or the value of a key's node, in a new revision.
    pub(crate) fn reset(
        &mut self,
        key: Key,
        rule: Option<R>,
        value: Option<T>,
        dirty: &mut DirtySlots,
    ) -> Result<(), Fault>
        requires simple { IsSimple (S.state self.old.store) }
        ensures simple { IsSimple (S.state self.new.store) }
        ensures put { OnOk result ((n : Node T R) × IsResetTo rule value self.new.revision n
            × (self.old.revision < self.new.revision)
            × IsPut (nodes_in (S.state self.old.store)) key n (nodes_in (S.state self.new.store))) }
        ensures live { OnOk result (nodes_in (S.state self.old.store) key ≢ None) }
        ensures forgotten { OnOk result (AreForgotten (book (S.state self.old.store) self.old.links) (book (S.state self.new.store) self.new.links)) }
        ensures spared { OnOk result (AreSpared (book (S.state self.old.store) self.old.links) (key ∷ []) (book (S.state self.new.store) self.new.links)) }
        ensures dirtied { OnOk result (AreDirtied (book (S.state self.old.store) self.old.links) dirty.old (book (S.state self.new.store) self.new.links) dirty.new) }
        ensures dirty { OnErr result (dirty.new ≡ dirty.old) }
        ensures refused { OnErr result ((S.state self.new.store ≡ S.state self.old.store)
            × (self.new.revision ≡ self.old.revision)
            × (self.new.links.marks.known.items ≡ self.old.links.marks.known.items)
            × (self.new.links.web ≡ self.old.links.web)) }
        ensures cause { IfErr result (IsRuleless (kinds_of (nodes_in (S.state self.old.store))) self.old.revision key) }
    {
        let Some(next) = self.revision.checked_add(1) else {
            return Err(Fault::Store(StoreError::NumbersExhausted));
        };
        let reads = Vec::new(self.alloc);
        let Some(()) = self.change(key, |node: &mut Node<T, R>| {
            node.reset(rule, value, reads, next)
        }) else {
            return Err(Fault::Gone(key));
        };
        self.links.marks.forget(&self.links.web, dirty, key.id.slot);
        self.revision = next;
        Ok(())
    }

    // Removes nodes, in a new revision.
    pub(crate) fn remove_all(&mut self, keys: &[Key], dirty: &mut DirtySlots) -> Result<(), Fault>
        requires simple { IsSimple (S.state self.old.store) }
        ensures simple { IsSimple (S.state self.new.store) }
        ensures lost { OnOk result (HasLostKeys (nodes_in (S.state self.old.store)) keys.now
            (nodes_in (S.state self.new.store))) }
        ensures later { OnOk result (self.old.revision < self.new.revision) }
        ensures forgotten { OnOk result (AreForgotten (book (S.state self.old.store) self.old.links) (book (S.state self.new.store) self.new.links)) }
        ensures spared { OnOk result (AreSpared (book (S.state self.old.store) self.old.links) keys.now (book (S.state self.new.store) self.new.links)) }
        ensures dirtied { OnOk result (AreDirtied (book (S.state self.old.store) self.old.links) dirty.old (book (S.state self.new.store) self.new.links) dirty.new) }
        ensures dirty { OnErr result (dirty.new ≡ dirty.old) }
        ensures refused { OnErr result ((S.state self.new.store ≡ S.state self.old.store)
            × (self.new.revision ≡ self.old.revision)
            × (self.new.links.marks.known.items ≡ self.old.links.marks.known.items)
            × (self.new.links.web ≡ self.old.links.web)) }
        ensures cause { IfErr result (λ f. (f ≡ fault.Store NumbersExhausted) × (self.old.revision + 1 ≡ 2 ^ 64)) }
    {
        let Some(next) = self.revision.checked_add(1) else {
            return Err(Fault::Store(StoreError::NumbersExhausted));
        };
        for key in keys {
            self.remove(*key, dirty);
        }
        self.revision = next;
        Ok(())
    }
}
