//! Sources, memos and effects.

ghost use Rattle.std.specs.Prelude.{◌≡◌, ◌≢◌, ℕ, ◌+◌, ◌%◌, ◌^◌, ◌<◌, [], ◌∷◌, IfOk, IsTrue, List, OnOk, Result, Some, true};
ghost use Rattle.std.specs.List.{Contains};
ghost use Rattle.example_libraries.specs.Formulas.{plan_of};
ghost use Rattle.reactive.specs.declared.fault.Fault.{Fault};
ghost use Rattle.reactive.specs.declared.key.Key.{Key};
ghost use Rattle.reactive.specs.Hearing.{Says, named_key};
ghost use Rattle.reactive.specs.Graphs.{kind_in, plans_in};
ghost use Rattle.reactive.specs.Ending.{IsKeyAmong};
ghost use Rattle.reactive.specs.Graphs.Kind.{NoNode, Source};
ghost use Rattle.reactive.specs.Meaning.{Means, Reaches};
ghost use Rattle.reactive.specs.Plans.{Ask, Give};
ghost use Rattle.reactive.specs.Reading.{CameFrom};
ghost use Rattle.reactive.specs.Watching.{effect_at};

use generational_box::{Location, Storage, StoreError};
use reactive::laws::{flushes_tell_what_is_meant, nodes_mean_one_value, sets_show_in_memos};
use reactive::{Fault, Key, Node, Reactive, Reads, Rule, Scope, Told};
use std::alloc::Global;

/// What a memo computes of other nodes.
#[derive(Clone, Copy)]
pub enum Formula {
    /// Nothing.
    Blank,
    /// What a node shows.
    Same(Key),
    /// Whether a number is odd.
    Odd(Key),
    /// A sum, which wraps at 2^64.
    Add(Key, Key),
    /// The second node's number, where the first's is other than zero, or else the third's.
    Pick(Key, Key, Key),
}

impl Rule<u64> for Formula {
    ghost plan = { plan_of };

    fn compute<D: Reads<u64>>(&self, reader: &mut D) -> Option<u64> {
        match *self {
            Formula::Blank => None,
            Formula::Same(a) => reader.get(a),
            Formula::Odd(a) => {
                let x = reader.get(a)?;
                Some(x % 2)
            }
            Formula::Add(a, b) => {
                let x = reader.get(a)?;
                let y = reader.get(b)?;
                Some(x.wrapping_add(y))
            }
            Formula::Pick(test, a, b) => {
                if reader.get(test)? != 0 {
                    reader.get(a)
                } else {
                    reader.get(b)
                }
            }
        }
    }
}

/// Sets a source, and gets a memo of it: if both calls succeed, the result is what the memo's rule makes
/// of what was set.
pub fn odd_after_set<S: Storage<Node<u64, Formula>>>(
    graph: &mut Reactive<u64, Formula, S>,
    source: Key,
    odd: Key,
    x: u64,
) -> Result<u64, Fault>
    requires memo { plans_in plan_of graph.old odd ≡ Ask source (λ x. Give (x % 2)) }
    requires apart { odd ≢ source }
    ensures { IfOk result (λ v. v ≡ x % 2) }
{
    sets_show_in_memos::<u64, Formula>();
    graph.set(source, x)?;
    let shown = graph.get(odd)?;
    Ok(shown)
}

/// Sets two sources, and gets a memo of their sum: that of the values that were set.
pub fn sum_after_sets<S: Storage<Node<u64, Formula>>>(
    graph: &mut Reactive<u64, Formula, S>,
    one: Key,
    other: Key,
    sum: Key,
    x: u64,
    y: u64,
) -> Result<u64, Fault>
    requires memo { plans_in plan_of graph.old sum ≡ Ask one (λ x. Ask other (λ y. Give ((x + y) % 2 ^ 64))) }
    requires sources { one ≢ other }
    requires first { sum ≢ one }
    requires second { sum ≢ other }
    ensures { IfOk result (λ v. v ≡ (x + y) % 2 ^ 64) }
{
    sets_show_in_memos::<u64, Formula>();
    graph.set(one, x)?;
    graph.set(other, y)?;
    let total = graph.get(sum)?;
    Ok(total)
}

/// Sets two sources in one graph, and in the other order in another graph of the same plans: every memo
/// means the same in both.
pub fn same_in_both_orders<S: Storage<Node<u64, Formula>>>(
    left: &mut Reactive<u64, Formula, S>,
    right: &mut Reactive<u64, Formula, S>,
    one: Key,
    other: Key,
    memo: Key,
    x: u64,
    y: u64,
) -> Result<(u64, u64), Fault>
    requires alike { plans_in plan_of left.old ≡ plans_in plan_of right.old }
    requires apart { one ≢ other }
    ensures { IfOk result (λ both. both.0 ≡ both.1) }
{
    sets_show_in_memos::<u64, Formula>();
    left.set(one, x)?;
    left.set(other, y)?;
    right.set(other, y)?;
    right.set(one, x)?;
    let a = left.get(memo)?;
    let b = right.get(memo)?;
    Ok((a, b))
}

/// Brings two nodes up to date, and looks at the first: it is known still.
pub fn known_still<S: Storage<Node<u64, Formula>>>(
    graph: &mut Reactive<u64, Formula, S>,
    one: Key,
    other: Key,
) -> Result<u64, Fault>
    ensures { IfOk result (λ v. Means (plans_in plan_of graph.old) one v) }
{
    graph.refresh(one)?;
    graph.refresh(other)?;
    match graph.peek(one) {
        Some(value) => Ok(*value),
        None => unreachable!(),
    }
}

/// Brings a memo up to date, and sets a source that it doesn't come to: it is known still.
pub fn unaffected_still<S: Storage<Node<u64, Formula>>>(
    graph: &mut Reactive<u64, Formula, S>,
    memo: Key,
    source: Key,
    x: u64,
) -> Result<u64, Fault>
    requires apart { Reaches (plans_in plan_of graph.old) memo source → ⊥ }
    ensures { IfOk result (λ v. Means (plans_in plan_of graph.old) memo v) }
{
    graph.refresh(memo)?;
    graph.set(source, x)?;
    match graph.peek(memo) {
        Some(value) => Ok(*value),
        None => unreachable!(),
    }
}

/// Sets a live source, which succeeds.
pub fn set_live<S: Storage<Node<u64, Formula>>>(
    graph: &mut Reactive<u64, Formula, S>,
    source: Key,
    x: u64,
)
    requires live { kind_in graph.old source ≡ Source }
    requires room { graph.old.revision + 1 < 2 ^ 64 }
    ensures { plans_in plan_of graph.new source ≡ Give x }
{
    match graph.set(source, x) {
        Ok(()) => {}
        Err(Fault::Gone(_) | Fault::NoSource(_) | Fault::Store(_)) => unreachable!(),
        Err(Fault::Cycle(_) | Fault::NoValue(_)) => unreachable!(),
    }
}

/// Gets two memos of one plan: if both calls succeed, the values are the same.
pub fn shown_by_both<S: Storage<Node<u64, Formula>>>(
    graph: &mut Reactive<u64, Formula, S>,
    one: Key,
    other: Key,
) -> Result<(u64, u64), Fault>
    requires { plans_in plan_of graph.old one ≡ plans_in plan_of graph.old other }
    ensures { IfOk result (λ both. both.0 ≡ both.1) }
{
    nodes_mean_one_value::<u64>();
    let a = match graph.get(one) {
        Ok(a) => a,
        Err(fault) => return Err(fault),
    };
    match graph.get(other) {
        Ok(b) => Ok((a, b)),
        Err(fault) => Err(fault),
    }
}

/// Watches a node, and flushes: if that succeeds, it reports what the node means, with the number.
pub fn told_at_first<S: Storage<Node<u64, Formula>>>(
    graph: &mut Reactive<u64, Formula, S>,
    key: Key,
    tag: u64,
    alloc: Global,
) -> Result<Vec<Told<u64>>, Fault>
    ensures { IfOk result (λ told. (a : Result ℕ Fault)
        × Says (plans_in plan_of graph.old) (kind_in graph.old) key a
        × Contains told.items (record { key = key; tag = tag; answer = a })) }
{
    flushes_tell_what_is_meant::<u64>();
    let mut told = Vec::new(alloc);
    graph.watch(key, tag)?;
    graph.flush(&mut told)?;
    Ok(told)
}

/// Watches a node, unless it is watched already.
pub fn watched_once<S: Storage<Node<u64, Formula>>>(
    graph: &mut Reactive<u64, Formula, S>,
    key: Key,
    tag: u64,
) -> Result<(), Fault>
    ensures { OnOk result (named_key (effect_at graph.new.effects key.id.slot) ≡ Some key) }
{
    if !graph.is_watched(key) {
        graph.watch(key, tag)?;
    }
    Ok(())
}

/// Stops watching a node. Every node's plan is unchanged.
pub fn unwatched<S: Storage<Node<u64, Formula>>>(graph: &mut Reactive<u64, Formula, S>, key: Key)
    ensures gone { named_key (effect_at graph.new.effects key.id.slot) ≢ Some key }
    ensures plans { plans_in plan_of graph.new ≡ plans_in plan_of graph.old }
{
    graph.unwatch(key);
}

/// Whether a node that a source was made for is in the graph: it is.
pub fn is_live_at_first<S: Storage<Node<u64, Formula>>>(
    graph: &mut Reactive<u64, Formula, S>,
    value: u64,
    here: Location,
) -> Result<bool, StoreError>
    ensures { IfOk result (λ is_live. is_live ≡ true) }
{
    let key = graph.source(value, here)?;
    Ok(graph.is_live(key))
}

/// The nodes that a memo's value came from: those that its plan reads, in order.
pub fn parts<'a, S: Storage<Node<u64, Formula>>>(
    graph: &'a mut Reactive<u64, Formula, S>,
    memo: Key,
) -> Result<&'a [Key], Fault>
    ensures { IfOk result (λ parts. (v : ℕ) × CameFrom (plans_in plan_of graph.old) memo parts.now v) }
{
    graph.refresh(memo)?;
    match graph.reads(memo) {
        Some(parts) => Ok(parts),
        None => unreachable!(),
    }
}

/// Whether a node's value came from another: false also if it isn't known.
pub fn is_reader<S: Storage<Node<u64, Formula>>>(
    graph: &Reactive<u64, Formula, S>,
    node: Key,
    read: Key,
) -> bool
    ensures { IsTrue result → (parts : List Key) × (v : ℕ)
        × CameFrom (plans_in plan_of graph.now) node parts v × Contains parts read }
{
    match graph.reads(node) {
        Some(parts) => parts.iter().any(|part: &Key| *part == read),
        None => false,
    }
}

/// What a node means, read in place: nothing is copied for it.
pub fn seen_in_place<S: Storage<Node<u64, Formula>>>(
    graph: &mut Reactive<u64, Formula, S>,
    key: Key,
) -> Result<u64, Fault>
    ensures { IfOk result (λ v. Means (plans_in plan_of graph.old) key v) }
{
    graph.refresh(key)?;
    match graph.peek(key) {
        Some(value) => Ok(*value),
        None => unreachable!(),
    }
}

/// Makes a node show what another does, whatever it was before.
pub fn redirect<S: Storage<Node<u64, Formula>>>(
    graph: &mut Reactive<u64, Formula, S>,
    node: Key,
    to: Key,
) -> Result<(), Fault>
    ensures { OnOk result (plans_in plan_of graph.new node ≡ Ask to (λ x. Give x)) }
{
    graph.set_rule(node, Formula::Same(to))
}

/// Twice a number, by two nodes that end with their scope. No node that lived before has another plan
/// afterwards.
pub fn doubled<S: Storage<Node<u64, Formula>>>(
    graph: &mut Reactive<u64, Formula, S>,
    alloc: Global,
    number: u64,
) -> Result<u64, Fault>
    ensures { (k : Key) → kind_in graph.old k ≢ NoNode →
        plans_in plan_of graph.new k ≡ plans_in plan_of graph.old k }
{
    let mut scope = Scope::new(alloc);
    let twice = double_in(graph, &mut scope, number);
    match scope.end(graph) {
        Ok(()) => {}
        Err((scope, _)) => scope.leak(),
    }
    twice
}

// Twice a number, by two nodes of a scope that has none.
fn double_in<S: Storage<Node<u64, Formula>>>(
    graph: &mut Reactive<u64, Formula, S>,
    scope: &mut Scope,
    number: u64,
) -> Result<u64, Fault>
    requires { scope.old ≡ [] }
    ensures others { (k : Key) → kind_in graph.old k ≢ NoNode →
        plans_in plan_of graph.new k ≡ plans_in plan_of graph.old k }
    ensures new { (k : Key) → kind_in graph.old k ≢ NoNode → IsKeyAmong k scope.new → ⊥ }
{
    let here = Location::new("memos.rt", 217, 16);
    let source = scope.source(graph, number, here)?;
    let twice = scope.memo(graph, Formula::Add(source, source), here)?;
    graph.get(twice)
}
