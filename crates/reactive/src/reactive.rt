//! Graphs of sources and memos.

ghost use Rattle.std.specs.Prelude.{◌≡◌, ◌≢◌, ◌<◌, ◌≤◌, ◌+◌, ◌*◌, ◌^◌, ◌++◌, ◌⊎◌, ℕ, List, [], length, Option, Some, None};
ghost use Rattle.std.specs.Prelude.{false, IsOk, IfOk, IfErr, IfSome, IfNone, OnOk, OnErr, IsTrue, option_copied};
ghost use Rattle.generational_core.specs.Conditions.{IsFresh};
ghost use Rattle.generational_core.specs.Slots.{free};
ghost use Rattle.reactive.specs.declared.fault.Fault.TheVariants as fault;
ghost use Rattle.reactive.specs.declared.key.Key.{Key};
ghost use Rattle.reactive.specs.declared.node.Node.{Node};
ghost use Rattle.reactive.specs.declared.effects.Effect.{Effect};
ghost use Rattle.reactive.specs.declared.effects.Told.{Told};
ghost use Rattle.reactive.specs.Ending.{IsKeyAmong};
ghost use Rattle.reactive.specs.Flushing.{HasListened};
ghost use Rattle.reactive.specs.Graphs.{HasKind, HasPlan, HasSameNodes, IsLast, IsUnruled, IsUnset, IsUnwatched};
ghost use Rattle.reactive.specs.Graphs.{kind_in, lives, plans_in, shown_in};
ghost use Rattle.reactive.specs.Hearing.{AllHear, IsTrueOf, effect_named, named_key};
ghost use Rattle.dirty_slots.specs.Blocks.{IsIn};
ghost use Rattle.reactive.specs.Watching.{effect_at};
ghost use Rattle.reactive.specs.Graphs.Kind.{NoNode, Source, Memo};
ghost use Rattle.generational_errors.specs.declared.error.StoreError.TheVariants.{NumbersExhausted, OutOfMemory};
ghost use Rattle.reactive.specs.Meaning.{Means, Reaches};
ghost use Rattle.reactive.specs.Plans.{Give, Stop};
ghost use Rattle.reactive.specs.Reading.{CameFrom};
ghost use Rattle.reactive.specs.Refreshing.{Answers, Blames, HasRunOut};

use crate::blame::Blame;
use crate::effects::{Effects, Told, hear_end, hear_fault, hear_value, remove, shortage};
use crate::fault::Fault;
use crate::key::Key;
use crate::links::{Links, Marks, Web};
use crate::node::Node;
use crate::nodes::{Nodes, known_value, node_of};
use crate::rule::Rule;
use dirty_slots::block_end;
use generational_core::{Location, Storage, StoreError};
use reactive_values::Value;
use stamped_values::StampedValues;
use std::alloc::Global;
use std::marker::{Model, PhantomData};

/// Sources and memos over a store. Contracts model it as the machine's state, and with it the plan of
/// each node: a source's yields its value, a memo's is its rule's, and that of a removed node fails.
///
/// A node *means* what its plan yields (`Meaning.antt`): at once, or by what the node that it reads
/// means. What is cached of a memo isn't part of that.
#[derive(Drop)]
pub struct Reactive<T: Value + Drop, R: Rule<T>, S: Storage<Node<T, R>>> {
    nodes: Nodes<T, R, S>,
    effects: Effects<T>,
    // why nodes mean nothing, as far as that was found out since the last change
    faults: StampedValues<Blame>,
}

impl<T: Value + Drop, R: Rule<T>, S: Storage<Node<T, R>>> Model for Reactive<T, R, S> {
    ghost use Rattle.std.specs.Coded.{codes};
    ghost use Rattle.std.specs.FinMap as map;
    ghost use Rattle.reactive.specs.Blaming.{IsGraphWhole};
    ghost use Rattle.reactive.specs.Graphs.{GraphState};

    ghost Value = { GraphState T R };

    ghost coded = { Prim.hlevel (codes, map.code) };

    ghost view = { λ g. record {
      state = S.state g.nodes.store;
      revision = g.nodes.revision;
      known = g.nodes.links.marks.known.items;
      effects = g.effects.rows.items;
    } };

    ghost invariant = { λ g. IsGraphWhole R.plan
        (record {
          state = S.state g.nodes.store;
          revision = g.nodes.revision;
          known = g.nodes.links.marks.known.items;
          effects = g.effects.rows.items;
        }) g.effects.dirty g.nodes.links.web g.faults };
}

impl<T: Value + Drop, R: Rule<T>, S: Storage<Node<T, R>>> Reactive<T, R, S> {
    /// Creates a graph without nodes, over a fresh store (see `is_fresh`). Doesn't allocate.
    ///
    /// ```rust
    /// let store = UnsyncStorage::<Node<u64, Formula>>::new(rt.alloc(), 1);
    /// let mut graph = Reactive::new(rt.alloc(), store);
    /// ```
    pub fn new(alloc: Global, store: S) -> Self
        requires { IsFresh (S.state store) }
        ensures plans { (k : Key) → plans_in R.plan result k ≡ Stop }
        ensures effects { result.effects ≡ [] }
    {
        let marks = Marks {
            known: Vec::new(alloc),
            first: 0,
            left: 0,
        };
        let web = Web {
            alloc,
            owners: Vec::new(alloc),
            readers: Vec::new(alloc),
            number: 1,
        };
        Reactive {
            nodes: Nodes {
                alloc,
                store,
                revision: 1,
                runs: 0,
                links: Links { marks, web },
                marker: PhantomData,
            },
            effects: Effects::new(alloc),
            faults: StampedValues::new(alloc),
        }
    }

    /// How often a rule has computed a value, modulo 2^64: a test can use it to see what was computed.
    /// Doesn't allocate.
    ///
    /// ```rust
    /// println!(rt; "total {}, {} runs", graph.get(total)?, graph.runs())?;
    /// ```
    pub fn runs(&self) -> u64 {
        self.nodes.runs
    }

    /// Adds a source with a value, and returns its key, which was never issued before. Every other
    /// node's plan is unchanged. Amortised O(1).
    ///
    /// # Errors
    ///
    /// `OutOfMemory` is the only possible error. The graph is unchanged then.
    ///
    /// ```rust
    /// let pieces = graph.source(3, here)?;
    /// let price = graph.source(20, here)?;
    /// ```
    pub fn source(&mut self, value: T, here: Location) -> Result<Key, StoreError>
        ensures plan { IfOk result (λ key. HasPlan R.plan self.old key (Give value) self.new) }
        ensures kind { IfOk result (λ key. HasKind self.old key Source self.new) }
        ensures new { IfOk result (λ key. kind_in self.old key ≡ NoNode) }
        ensures refused { OnErr result (self.new ≡ self.old) }
        ensures cause { IfErr result (λ cause. cause ≡ OutOfMemory) }
        ensures effects { self.new.effects ≡ self.old.effects }
        ensures short { OnErr result (free self.old.state ≡ 0) }
    {
        let node = Node {
            rule: None,
            value: Some(value),
            reads: Vec::new(self.nodes.alloc),
            changed: self.nodes.revision,
            checked: 0,
        };
        self.faults.clear();
        match self.nodes.insert(node, here, &mut self.effects.dirty) {
            Ok(key) => Ok(key),
            Err(refusal) => Err(refusal.cause),
        }
    }

    /// Adds a memo with a rule, which is run when the memo is first read, and returns its key, which was
    /// never issued before. Every other node's plan is unchanged. Amortised O(1).
    ///
    /// # Errors
    ///
    /// `OutOfMemory` is the only possible error. The graph is unchanged then.
    ///
    /// ```rust
    /// let goods = graph.memo(Formula::Product(pieces, price), here)?;
    /// let total = graph.memo(Formula::Sum(goods, postage), here)?;
    /// ```
    pub fn memo(&mut self, rule: R, here: Location) -> Result<Key, StoreError>
        ensures plan { IfOk result (λ key. HasPlan R.plan self.old key (R.plan rule) self.new) }
        ensures kind { IfOk result (λ key. HasKind self.old key Memo self.new) }
        ensures new { IfOk result (λ key. kind_in self.old key ≡ NoNode) }
        ensures refused { OnErr result (self.new ≡ self.old) }
        ensures cause { IfErr result (λ cause. cause ≡ OutOfMemory) }
        ensures effects { self.new.effects ≡ self.old.effects }
        ensures short { OnErr result (free self.old.state ≡ 0) }
    {
        let node = Node {
            rule: Some(rule),
            value: None,
            reads: Vec::new(self.nodes.alloc),
            changed: self.nodes.revision,
            checked: 0,
        };
        self.faults.clear();
        match self.nodes.insert(node, here, &mut self.effects.dirty) {
            Ok(key) => Ok(key),
            Err(refusal) => Err(refusal.cause),
        }
    }

    /// Brings a node up to date: its value, if it means one, is known from then on until something is
    /// set. No node's plan changes, and so no node's meaning. A node that is known already, like every
    /// source, is O(1) and never fails.
    ///
    /// A rule is run only if something that it read has changed since its last run. The time is linear
    /// in the reads of the nodes that are checked, none of which is known. Allocates for a path of them,
    /// and for links of those that read other nodes than before.
    ///
    /// # Errors
    ///
    /// The first three mean that the node has no value.
    ///
    /// - `Gone` if it or a node that it needs was removed.
    /// - `Cycle` if one of them needs itself.
    /// - `NoValue` if a rule returns none.
    /// - `Store` of `OutOfMemory`, or of `NumbersExhausted` after 2^64 steps.
    ///
    /// Such a fault is kept until something is added, set or removed, for the node and for each between it
    /// and the one at fault: a later call for one of them returns it in O(1). After `Store` it starts again.
    ///
    /// ```rust
    /// graph.refresh(key)?;
    /// match graph.peek(key) {
    ///     Some(value) => Ok(*value),
    ///     None => unreachable!(),
    /// }
    /// ```
    pub fn refresh(&mut self, key: Key) -> Result<(), Fault>
        ensures shown { OnOk result ((v : T) × (shown_in self.new key ≡ Some v)
            × Means (plans_in R.plan self.old) key v) }
        ensures blames { IfErr result (Blames (plans_in R.plan self.old) (kind_in self.old) key) }
        ensures plans { plans_in R.plan self.new ≡ plans_in R.plan self.old }
        ensures kinds { kind_in self.new ≡ kind_in self.old }
        ensures lasts { (k : Key) (v : T) → shown_in self.old k ≡ Some v → shown_in self.new k ≡ Some v }
        ensures effects { self.new.effects ≡ self.old.effects }
        ensures known { shown_in self.old key ≢ None → IsOk result }
    {
        self.nodes.refresh(key, &mut self.faults)
    }

    /// Borrows the value of a node, if it is known without a step, like every source's: what the node
    /// means. A memo is known from a call that returned its value until something that it needs is
    /// changed. Doesn't allocate, and is O(1).
    ///
    /// ```rust
    /// match graph.peek(key) {
    ///     Some(value) => Ok(*value),
    ///     None => unreachable!(),
    /// }
    /// ```
    pub fn peek(&self, key: Key) -> Option<&T>
        ensures shown { option_copied result ≡ shown_in self.now key }
        ensures means { IfSome result (λ v. Means (plans_in R.plan self.now) key v.now) }
    {
        known_value(&self.nodes.store, &self.nodes.links.marks, key)
    }

    /// The nodes that a node's value came from, if it is known without a step: what its rule read, in
    /// order, a node as often as it was read. A source's value came from none. Doesn't allocate. O(1).
    ///
    /// ```rust
    /// graph.refresh(memo)?;
    /// match graph.reads(memo) {
    ///     Some(parts) => Ok(parts),
    ///     None => unreachable!(),
    /// }
    /// ```
    pub fn reads(&self, key: Key) -> Option<&[Key]>
        ensures reads { IfSome result (λ keys. (v : T) × (shown_in self.now key ≡ Some v)
            × CameFrom (plans_in R.plan self.now) key keys.now v) }
        ensures unknown { IfNone result (shown_in self.now key ≡ None) }
    {
        match node_of(&self.nodes.store, key) {
            Some(node) => {
                if node.is_known(self.nodes.links.marks.knows(key)) {
                    Some(node.reads.as_slice())
                } else {
                    None
                }
            }
            None => None,
        }
    }

    /// Brings a node up to date, and returns a copy of what it means now. No node's meaning changes.
    ///
    /// # Errors
    ///
    /// Those of `refresh`, and `Store` of `OutOfMemory` for the copy. So for a node that is known, like
    /// every source, it never fails if copies don't allocate.
    ///
    /// ```rust
    /// let twice = scope.memo(graph, Formula::Add(source, source), here)?;
    /// graph.get(twice)
    /// ```
    pub fn get(&mut self, key: Key) -> Result<T, Fault>
        ensures answer { Answers (plans_in R.plan self.old) (kind_in self.old) key result }
        ensures plans { plans_in R.plan self.new ≡ plans_in R.plan self.old }
        ensures kinds { kind_in self.new ≡ kind_in self.old }
        ensures shown { IfOk result (λ v. shown_in self.new key ≡ Some v) }
        ensures lasts { (k : Key) (v : T) → shown_in self.old k ≡ Some v → shown_in self.new k ≡ Some v }
        ensures effects { self.new.effects ≡ self.old.effects }
        ensures known { ((v : T) → T.is_plain v) → shown_in self.old key ≢ None → IsOk result }
    {
        match self.refresh(key) {
            Ok(()) => {}
            Err(fault) => return Err(fault),
        }
        match self.peek(key) {
            Some(value) => match value.copy() {
                Ok(copy) => Ok(copy),
                Err(_) => Err(Fault::Store(StoreError::OutOfMemory)),
            },
            None => Err(Fault::Store(StoreError::OutOfMemory)),
        }
    }

    /// Sets a source, unless it has the value already. No rule is run: several sets are a batch. The
    /// memos that need the source are no longer known, in time linear in the links between those that
    /// were; every other node is unchanged. Doesn't allocate.
    ///
    /// # Errors
    ///
    /// - `Gone` if the node was removed, or belongs to another graph.
    /// - `NoSource` if it has a rule.
    /// - `Store` of `NumbersExhausted`, after 2^64 sets.
    ///
    /// The graph is unchanged then.
    ///
    /// ```rust
    /// graph.set(pieces, 4)?;
    /// graph.set(price, 18)?;
    /// ```
    pub fn set(&mut self, key: Key, value: T) -> Result<(), Fault>
        ensures set { OnOk result (HasPlan R.plan self.old key (Give value) self.new) }
        ensures kind { OnOk result (HasKind self.old key Source self.new) }
        ensures source { OnOk result (kind_in self.old key ≡ Source) }
        ensures unaffected { (k : Key) → (Reaches (plans_in R.plan self.old) k key → ⊥) → shown_in self.new k ≡ shown_in self.old k }
        ensures refused { OnErr result (self.new ≡ self.old) }
        ensures effects { self.new.effects ≡ self.old.effects }
        ensures cause { IfErr result (IsUnset self.old key) }
    {
        match self.is_set(key, &value) {
            Ok(true) => Ok(()),
            Ok(false) => {
                self.faults.clear();
                let dirty = &mut self.effects.dirty;
                self.nodes.reset(key, None, Some(value), dirty)
            }
            Err(fault) => Err(fault),
        }
    }

    // Whether a source has a value.
    fn is_set(&self, key: Key, value: &T) -> Result<bool, Fault>
        ensures is { IfOk result (λ is. IsTrue is → plans_in R.plan self.now key ≡ Give value.now) }
        ensures source { OnOk result (kind_in self.now key ≡ Source) }
        ensures cause { IfErr result (IsUnset self.now key) }
    {
        let Some(node) = node_of(&self.nodes.store, key) else {
            return Err(Fault::Gone(key));
        };
        if node.rule.is_some() {
            return Err(Fault::NoSource(key));
        }
        match &node.value {
            Some(kept) => Ok(kept.same(value)),
            None => Ok(false),
        }
    }

    /// Replaces a memo's rule, or makes a source a memo. No rule is run; what needs the node is no
    /// longer known, like after `set`, and every other node is unchanged. Doesn't allocate.
    ///
    /// # Errors
    ///
    /// - `Store` of `NumbersExhausted`, after 2^64 sets.
    /// - `Gone` if the node was removed, or belongs to another graph.
    ///
    /// The graph is unchanged then.
    ///
    /// ```rust
    /// graph.set_rule(node, Formula::Same(to))
    /// ```
    pub fn set_rule(&mut self, key: Key, rule: R) -> Result<(), Fault>
        ensures set { OnOk result (HasPlan R.plan self.old key (R.plan rule) self.new) }
        ensures kind { OnOk result (HasKind self.old key Memo self.new) }
        ensures live { OnOk result (kind_in self.old key ≢ NoNode) }
        ensures unaffected { (k : Key) → (Reaches (plans_in R.plan self.old) k key → ⊥) → shown_in self.new k ≡ shown_in self.old k }
        ensures refused { OnErr result (self.new ≡ self.old) }
        ensures effects { self.new.effects ≡ self.old.effects }
        ensures cause { IfErr result (IsUnruled self.old key) }
    {
        self.faults.clear();
        self.nodes
            .reset(key, Some(rule), None, &mut self.effects.dirty)
    }

    /// Removes the nodes of these keys, except those that were removed already, and no others. What
    /// needs one of them means nothing from then on, and its errors name the removed node. It is no
    /// longer known, like after `set`, and every other node is unchanged. O(n), and linear in the links
    /// of what is no longer known. Doesn't allocate.
    ///
    /// # Errors
    ///
    /// `NumbersExhausted` is the only possible error, after 2^64 sets. The graph is unchanged then.
    ///
    /// ```rust
    /// graph.end_all(&[price])?;
    /// if let Err(fault) = graph.get(total) {
    ///     println!(rt; "{fault}")?;
    /// }
    /// ```
    pub fn end_all(&mut self, keys: &[Key]) -> Result<(), Fault>
        ensures ended { OnOk result ((k : Key) → IsKeyAmong k keys.now → plans_in R.plan self.new k ≡ Stop) }
        ensures gone { OnOk result ((k : Key) → IsKeyAmong k keys.now → kind_in self.new k ≡ NoNode) }
        ensures others { (k : Key) → (IsKeyAmong k keys.now → ⊥) →
            plans_in R.plan self.new k ≡ plans_in R.plan self.old k }
        ensures kept { (k : Key) → (IsKeyAmong k keys.now → ⊥) → kind_in self.new k ≡ kind_in self.old k }
        ensures unaffected { (k : Key) → ((j : Key) → IsKeyAmong j keys.now → Reaches (plans_in R.plan self.old) k j → ⊥) →
            shown_in self.new k ≡ shown_in self.old k }
        ensures refused { OnErr result (self.new ≡ self.old) }
        ensures effects { self.new.effects ≡ self.old.effects }
        ensures cause { IfErr result (λ f. (f ≡ fault.Store NumbersExhausted) × IsLast self.old) }
    {
        self.faults.clear();
        self.nodes.remove_all(keys, &mut self.effects.dirty)
    }

    /// Whether a node is in the graph: false of one that was removed, and of another graph's. Doesn't
    /// allocate. O(1).
    pub fn is_live(&self, key: Key) -> bool
        ensures { result ≡ lives (kind_in self.now key) }
    {
        node_of(&self.nodes.store, key).is_some()
    }

    /// Watches a node, with a number of yours: the next flush reports what it means, and each later one
    /// what it means if that has changed. A node has at most one effect.
    ///
    /// Returns the node and the number of the effect that this one replaces, if there is one: of the same
    /// node, or of a removed one that had the same slot, and whose end no flush has reported. Every other
    /// effect is unchanged. Amortised O(1) a slot.
    ///
    /// # Errors
    ///
    /// - `Gone` if the node was removed, or belongs to another graph.
    /// - `Store` of `OutOfMemory`.
    ///
    /// Every effect is unchanged then.
    ///
    /// ```rust
    /// graph.watch(total, 7)?;
    /// graph.flush(&mut told)?;
    /// ```
    pub fn watch(&mut self, key: Key, tag: u64) -> Result<Option<(Key, u64)>, Fault>
        ensures watched { OnOk result (effect_at self.new.effects key.id.slot ≡ Some (record {
          key = key;
          tag = tag;
          told = None;
        })) }
        ensures replaced { IfOk result (λ before. before ≡ effect_named (effect_at self.old.effects key.id.slot)) }
        ensures others { (s : ℕ) → s ≢ key.id.slot → effect_at self.new.effects s ≡ effect_at self.old.effects s }
        ensures live { OnOk result (kind_in self.old key ≢ NoNode) }
        ensures nodes { HasSameNodes self.old self.new }
        ensures refused { OnErr result ((s : ℕ) → effect_at self.new.effects s ≡ effect_at self.old.effects s) }
        ensures cause { IfErr result (IsUnwatched self.old key) }
    {
        if !self.is_live(key) {
            return Err(Fault::Gone(key));
        }
        match self.effects.put(key, tag) {
            Ok(before) => Ok(before),
            Err(_) => Err(Fault::Store(StoreError::OutOfMemory)),
        }
    }

    /// Whether a node is watched. Doesn't allocate. O(1).
    pub fn is_watched(&self, key: Key) -> bool
        ensures yes { IsTrue result → named_key (effect_at self.now.effects key.id.slot) ≡ Some key }
        ensures no { result ≡ false → named_key (effect_at self.now.effects key.id.slot) ≢ Some key }
    {
        match self.effects.at(key.id.slot) {
            Some((watched, _)) => watched == key,
            None => false,
        }
    }

    /// Stops watching a node, if it is watched. Every other effect is unchanged. Doesn't allocate. O(1).
    ///
    /// ```rust
    /// graph.unwatch(total);
    /// ```
    pub fn unwatch(&mut self, key: Key)
        ensures gone { named_key (effect_at self.new.effects key.id.slot) ≢ Some key }
        ensures kept { named_key (effect_at self.old.effects key.id.slot) ≢ Some key → self.new ≡ self.old }
        ensures others { (s : ℕ) → s ≢ key.id.slot → effect_at self.new.effects s ≡ effect_at self.old.effects s }
        ensures nodes { HasSameNodes self.old self.new }
    {
        if self.is_watched(key) {
            remove(&mut self.effects.rows[key.id.slot]);
        }
    }

    // The node that a slot's effect watches.
    fn watched_at(&self, slot: usize) -> Option<Key>
        ensures some { IfSome result (λ k. named_key (effect_at self.now.effects slot) ≡ Some k) }
        ensures none { IfNone result (HasListened T.is_same R.plan self.now slot self.now []) }
    {
        match self.effects.at(slot) {
            Some((key, _)) => Some(key),
            None => None,
        }
    }

    // Reports the known value of a slot's watched node, unless it is the one that was last reported.
    fn hear_value(
        &mut self,
        slot: usize,
        key: Key,
        told: &mut Vec<Told<T>>,
    ) -> Result<(), StoreError>
        requires shown { shown_in self.old key ≢ None }
        requires watched { named_key (effect_at self.old.effects slot) ≡ Some key }
        ensures heard { OnOk result ((news : List (Told T)) × (told.new.items ≡ told.old.items ++ news)
            × HasListened T.is_same R.plan self.old slot self.new news) }
        ensures plans { plans_in R.plan self.new ≡ plans_in R.plan self.old }
        ensures kinds { kind_in self.new ≡ kind_in self.old }
        ensures shown { shown_in self.new ≡ shown_in self.old }
        ensures cause { IfErr result HasRunOut }
        ensures kept { OnErr result (self.new.effects ≡ self.old.effects) }
        ensures untold { OnErr result (told.new.items ≡ told.old.items) }
    {
        let marks = &self.nodes.links.marks;
        let Some(value) = known_value(&self.nodes.store, marks, key) else {
            unreachable!();
        };
        hear_value(&mut self.effects.rows[slot], value, told)?;
        self.effects.dirty.clean(slot);
        Ok(())
    }

    // Reports why a slot's watched node has no value, unless that it has none was last reported.
    fn hear_fault(
        &mut self,
        slot: usize,
        key: Key,
        fault: Fault,
        told: &mut Vec<Told<T>>,
    ) -> Result<(), StoreError>
        requires true_of { IsTrueOf (plans_in R.plan self.old) (kind_in self.old) key fault }
        requires live { kind_in self.old key ≢ NoNode }
        requires watched { named_key (effect_at self.old.effects slot) ≡ Some key }
        ensures heard { OnOk result ((news : List (Told T)) × (told.new.items ≡ told.old.items ++ news)
            × HasListened T.is_same R.plan self.old slot self.new news) }
        ensures plans { plans_in R.plan self.new ≡ plans_in R.plan self.old }
        ensures kinds { kind_in self.new ≡ kind_in self.old }
        ensures shown { shown_in self.new ≡ shown_in self.old }
        ensures cause { IfErr result HasRunOut }
        ensures kept { OnErr result (self.new.effects ≡ self.old.effects) }
        ensures untold { OnErr result (told.new.items ≡ told.old.items) }
    {
        hear_fault(&mut self.effects.rows[slot], fault, told)?;
        self.effects.dirty.flag(slot);
        Ok(())
    }

    // Reports that a slot's watched node was removed, and removes the effect.
    fn hear_end(&mut self, slot: usize, key: Key, told: &mut Vec<Told<T>>) -> Result<(), StoreError>
        requires ended { kind_in self.old key ≡ NoNode }
        requires watched { named_key (effect_at self.old.effects slot) ≡ Some key }
        ensures heard { OnOk result ((news : List (Told T)) × (told.new.items ≡ told.old.items ++ news)
            × HasListened T.is_same R.plan self.old slot self.new news) }
        ensures plans { plans_in R.plan self.new ≡ plans_in R.plan self.old }
        ensures kinds { kind_in self.new ≡ kind_in self.old }
        ensures shown { shown_in self.new ≡ shown_in self.old }
        ensures cause { IfErr result HasRunOut }
        ensures kept { OnErr result (self.new.effects ≡ self.old.effects) }
        ensures untold { OnErr result (told.new.items ≡ told.old.items) }
    {
        hear_end(&mut self.effects.rows[slot], told)?;
        self.effects.dirty.flag(slot);
        Ok(())
    }

    // Brings a slot's watched node up to date, and reports what it means, unless that was last reported.
    fn hear(&mut self, slot: usize, told: &mut Vec<Told<T>>) -> Result<(), StoreError>
        ensures heard { OnOk result ((news : List (Told T)) × (told.new.items ≡ told.old.items ++ news)
            × HasListened T.is_same R.plan self.old slot self.new news) }
        ensures plans { plans_in R.plan self.new ≡ plans_in R.plan self.old }
        ensures kinds { kind_in self.new ≡ kind_in self.old }
        ensures lasts { (k : Key) (v : T) → shown_in self.old k ≡ Some v → shown_in self.new k ≡ Some v }
        ensures cause { IfErr result HasRunOut }
        ensures kept { OnErr result (self.new.effects ≡ self.old.effects) }
        ensures untold { OnErr result (told.new.items ≡ told.old.items) }
    {
        if self.is_heard(slot) {
            return Ok(());
        }
        let Some(key) = self.watched_at(slot) else {
            return Ok(());
        };
        match self.refresh(key) {
            Ok(()) => self.hear_value(slot, key, told),
            Err(fault) => self.hear_refusal(slot, key, fault, told),
        }
    }

    // Reports why a slot's watched node couldn't be brought up to date. A lack of memory or numbers is
    // passed on.
    fn hear_refusal(
        &mut self,
        slot: usize,
        key: Key,
        fault: Fault,
        told: &mut Vec<Told<T>>,
    ) -> Result<(), StoreError>
        requires blames { Blames (plans_in R.plan self.old) (kind_in self.old) key fault }
        requires watched { named_key (effect_at self.old.effects slot) ≡ Some key }
        ensures heard { OnOk result ((news : List (Told T)) × (told.new.items ≡ told.old.items ++ news)
            × HasListened T.is_same R.plan self.old slot self.new news) }
        ensures plans { plans_in R.plan self.new ≡ plans_in R.plan self.old }
        ensures kinds { kind_in self.new ≡ kind_in self.old }
        ensures shown { shown_in self.new ≡ shown_in self.old }
        ensures cause { IfErr result HasRunOut }
        ensures kept { OnErr result (self.new.effects ≡ self.old.effects) }
        ensures untold { OnErr result (told.new.items ≡ told.old.items) }
    {
        if let Some(cause) = shortage(fault) {
            return Err(cause);
        }
        if self.is_live(key) {
            self.hear_fault(slot, key, fault, told)
        } else {
            self.hear_end(slot, key, told)
        }
    }

    // Whether a slot has nothing to report.
    fn is_heard(&self, slot: usize) -> bool
        ensures { IsTrue result → HasListened T.is_same R.plan self.now slot self.now [] }
    {
        self.effects.dirty.is_clean(slot)
    }

    // Whether no slot of a block has anything to report.
    fn is_quiet(&self, block: usize) -> bool
        ensures { IsTrue result → (s : ℕ) → IsIn s block → HasListened T.is_same R.plan self.now s self.now [] }
    {
        !self.effects.dirty.is_flagged(block)
    }

    // Takes a block's flag away, if no slot of it has anything to report.
    fn quiet(&mut self, block: usize)
        requires { 64 * block ≤ length self.old.effects }
        ensures { self.new ≡ self.old }
    {
        let many = self.slots();
        let first = block * 64;
        for slot in first..block_end(first, many) {
            if !self.effects.is_settled(slot) {
                return;
            }
        }
        self.effects.dirty.clear(block);
    }

    // How many slots have room for an effect.
    fn slots(&self) -> usize
        ensures many { result ≡ length self.now.effects }
        ensures low { result < 2 ^ 64 }
    {
        self.effects.rows.len()
    }

    // Reports what the watched nodes of a block's slots mean, if that has changed.
    fn flush_block(&mut self, block: usize, told: &mut Vec<Told<T>>) -> Result<(), StoreError>
        requires { 64 * block ≤ length self.old.effects }
        ensures told { (before : List (Option (Effect T))) (earlier : List (Told T)) →
            AllHear T.is_same (plans_in R.plan self.old) (kind_in self.old) (64 * block) before self.old.effects earlier →
            (n : ℕ) × (news : List (Told T)) × (told.new.items ≡ told.old.items ++ news)
            × AllHear T.is_same (plans_in R.plan self.old) (kind_in self.old) n before self.new.effects (earlier ++ news)
            × (OnOk result ((n ≡ 64 * block + 64) ⊎ ((n ≡ length before) × (length before < 64 * block + 64)))) }
        ensures cause { IfErr result HasRunOut }
        ensures plans { plans_in R.plan self.new ≡ plans_in R.plan self.old }
        ensures kinds { kind_in self.new ≡ kind_in self.old }
        ensures lasts { (k : Key) (v : T) → shown_in self.old k ≡ Some v → shown_in self.new k ≡ Some v }
    {
        if self.is_quiet(block) {
            return Ok(());
        }
        let many = self.slots();
        let first = block * 64;
        let end = block_end(first, many);
        for slot in first..end {
            self.hear(slot, told)?;
        }
        self.quiet(block);
        Ok(())
    }

    /// Brings the watched nodes up to date, in the order of their slots, and pushes one entry for each that
    /// means another value than was last reported, or that no longer means one. No node's meaning changes.
    ///
    /// If a node means nothing, since it needs itself or a removed node, or a rule returns no value, the
    /// fault is reported once, and nothing more until the node means something. If it was removed itself,
    /// this is reported, and its effect is removed.
    ///
    /// Takes the time of a `refresh` of each watched node that a change came to since its last report, or
    /// that meant nothing then, and a step for each 64 slots. Allocates for what is reported.
    ///
    /// # Errors
    ///
    /// `OutOfMemory`, or after 2^64 steps `NumbersExhausted`. The entries that were pushed by then are
    /// right, and a later flush reports the rest.
    ///
    /// ```rust
    /// graph.set(postage, 0)?;
    /// graph.flush(&mut told)?;
    /// for change in told.iter() {
    ///     println!(rt; "told {}: {:?}", change.tag, change.answer)?;
    /// }
    /// ```
    pub fn flush(&mut self, told: &mut Vec<Told<T>>) -> Result<(), StoreError>
        ensures told { (n : ℕ) × (news : List (Told T)) × (told.new.items ≡ told.old.items ++ news)
            × AllHear T.is_same (plans_in R.plan self.old) (kind_in self.old) n self.old.effects self.new.effects news
            × (OnOk result (n ≡ length self.old.effects)) }
        ensures cause { IfErr result HasRunOut }
        ensures plans { plans_in R.plan self.new ≡ plans_in R.plan self.old }
        ensures kinds { kind_in self.new ≡ kind_in self.old }
        ensures lasts { (k : Key) (v : T) → shown_in self.old k ≡ Some v → shown_in self.new k ≡ Some v }
    {
        let blocks = self.slots() / 64 + 1;
        for block in 0..blocks {
            self.flush_block(block, told)?;
        }
        Ok(())
    }
}
