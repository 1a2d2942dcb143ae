//! Scopes of nodes.

ghost use Rattle.std.specs.Prelude.{◌≡◌, [], ◌∷◌, ◌++◌, IfOk, IfErr, OnOk, OnErr};
ghost use Rattle.reactive.specs.declared.key.Key.{Key};
ghost use Rattle.reactive.specs.Ending.{IsKeyAmong};
ghost use Rattle.reactive.specs.Graphs.{HasKind, HasPlan, IsLast, kind_in, plans_in};
ghost use Rattle.reactive.specs.Graphs.Kind.{NoNode, Source, Memo};
ghost use Rattle.reactive.specs.declared.fault.Fault.TheVariants as fault;
ghost use Rattle.generational_errors.specs.declared.error.StoreError.TheVariants.{NumbersExhausted, OutOfMemory};
ghost use Rattle.reactive.specs.Plans.{Give, Stop};

use crate::fault::Fault;
use crate::key::Key;
use crate::node::Node;
use crate::reactive::Reactive;
use crate::rule::Rule;
use generational_core::{Location, Storage, StoreError};
use reactive_values::Value;
use std::alloc::Global;
use std::marker::Model;

/// Nodes that are removed together. Contracts model it as their keys, in the order in which they were
/// made.
///
/// It has no `Drop`: `end` or `leak` must consume it.
pub struct Scope {
    keys: Vec<Key>,
}

impl Model for Scope {
    ghost use Rattle.std.specs.Prelude.{List};
    ghost use Rattle.reactive.specs.declared.key.Key.{Key};

    ghost Value = { List Key };

    ghost view = { λ s. s.keys.items };
}

impl Scope {
    /// Creates a scope without nodes. Doesn't allocate.
    ///
    /// ```rust
    /// let mut scope = Scope::new(alloc);
    ///
    /// match scope.end(graph) {
    ///     Ok(()) => {}
    ///     Err((scope, _)) => scope.leak(),
    /// }
    /// ```
    pub fn new(alloc: Global) -> Scope
        ensures { result ≡ [] }
    {
        Scope {
            keys: Vec::new(alloc),
        }
    }

    /// Adds a source like `Reactive::source`, which is removed with the scope.
    ///
    /// # Errors
    ///
    /// `OutOfMemory` is the only possible error. The graph and the scope are unchanged then.
    ///
    /// ```rust
    /// let source = scope.source(graph, number, here)?;
    /// ```
    pub fn source<T: Value + Drop, R: Rule<T>, S: Storage<Node<T, R>>>(
        &mut self,
        graph: &mut Reactive<T, R, S>,
        value: T,
        here: Location,
    ) -> Result<Key, StoreError>
        ensures plan { IfOk result (λ key. HasPlan R.plan graph.old key (Give value) graph.new) }
        ensures kind { IfOk result (λ key. HasKind graph.old key Source graph.new) }
        ensures new { IfOk result (λ key. kind_in graph.old key ≡ NoNode) }
        ensures listed { IfOk result (λ key. self.new ≡ self.old ++ key ∷ []) }
        ensures refused { OnErr result (graph.new ≡ graph.old) }
        ensures effects { graph.new.effects ≡ graph.old.effects }
        ensures unlisted { OnErr result (self.new ≡ self.old) }
        ensures cause { IfErr result (λ cause. cause ≡ OutOfMemory) }
    {
        if self.keys.reserve(1).is_err() {
            return Err(StoreError::OutOfMemory);
        }
        match graph.source(value, here) {
            Ok(key) => {
                self.keys.push_reserved(key);
                Ok(key)
            }
            Err(cause) => Err(cause),
        }
    }

    /// Adds a memo like `Reactive::memo`, which is removed with the scope.
    ///
    /// # Errors
    ///
    /// `OutOfMemory` is the only possible error. The graph and the scope are unchanged then.
    ///
    /// ```rust
    /// let twice = scope.memo(graph, Formula::Add(source, source), here)?;
    /// ```
    pub fn memo<T: Value + Drop, R: Rule<T>, S: Storage<Node<T, R>>>(
        &mut self,
        graph: &mut Reactive<T, R, S>,
        rule: R,
        here: Location,
    ) -> Result<Key, StoreError>
        ensures plan { IfOk result (λ key. HasPlan R.plan graph.old key (R.plan rule) graph.new) }
        ensures kind { IfOk result (λ key. HasKind graph.old key Memo graph.new) }
        ensures new { IfOk result (λ key. kind_in graph.old key ≡ NoNode) }
        ensures listed { IfOk result (λ key. self.new ≡ self.old ++ key ∷ []) }
        ensures refused { OnErr result (graph.new ≡ graph.old) }
        ensures effects { graph.new.effects ≡ graph.old.effects }
        ensures unlisted { OnErr result (self.new ≡ self.old) }
        ensures cause { IfErr result (λ cause. cause ≡ OutOfMemory) }
    {
        if self.keys.reserve(1).is_err() {
            return Err(StoreError::OutOfMemory);
        }
        match graph.memo(rule, here) {
            Ok(key) => {
                self.keys.push_reserved(key);
                Ok(key)
            }
            Err(cause) => Err(cause),
        }
    }

    /// Ends the scope: removes its nodes, and no others. Takes time like `Reactive::end_all`.
    ///
    /// # Errors
    ///
    /// `NumbersExhausted` is the only possible error, after 2^64 sets. The scope comes back, and the
    /// graph is unchanged.
    ///
    /// ```rust
    /// match scope.end(graph) {
    ///     Ok(()) => {}
    ///     Err((scope, _)) => scope.leak(),
    /// }
    /// ```
    pub fn end<T: Value + Drop, R: Rule<T>, S: Storage<Node<T, R>>>(
        self,
        graph: &mut Reactive<T, R, S>,
    ) -> Result<(), (Scope, Fault)>
        ensures ended { OnOk result ((k : Key) → IsKeyAmong k self → plans_in R.plan graph.new k ≡ Stop) }
        ensures gone { OnOk result ((k : Key) → IsKeyAmong k self → kind_in graph.new k ≡ NoNode) }
        ensures others { (k : Key) → (IsKeyAmong k self → ⊥) →
            plans_in R.plan graph.new k ≡ plans_in R.plan graph.old k }
        ensures kept { (k : Key) → (IsKeyAmong k self → ⊥) → kind_in graph.new k ≡ kind_in graph.old k }
        ensures refused { OnErr result (graph.new ≡ graph.old) }
        ensures effects { graph.new.effects ≡ graph.old.effects }
        ensures back { IfErr result (λ refusal. refusal.0 ≡ self) }
        ensures cause { IfErr result (λ refusal. (refusal.1 ≡ fault.Store NumbersExhausted) × IsLast graph.old) }
    {
        match graph.end_all(&self.keys) {
            Ok(()) => {
                self.leak();
                Ok(())
            }
            Err(fault) => Err((self, fault)),
        }
    }

    /// Consumes the scope, and leaves its nodes unchanged.
    ///
    /// ```rust
    /// match scope.end(graph) {
    ///     Ok(()) => {}
    ///     Err((scope, _)) => scope.leak(),
    /// }
    /// ```
    pub fn leak(self) {
        let Scope { keys: _ } = self;
    }
}
