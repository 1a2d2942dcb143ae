//! Memos: ten rounds of each change, with all that is read after it.

ghost use Rattle.std.specs.Prelude.{◌≡◌, ℕ, List, ◌++◌, Option, None};
ghost use Rattle.reactive.specs.declared.key.Key.{Key};
ghost use Rattle.reactive.specs.Plans.{Asked, Ran};
ghost use Rattle.bench_libraries.specs.Formulas.{plan_of, sum_plan};

use crate::laps::{Laps, mix};
use generational_box::{Location, Storage};
use reactive::{Key, Node, Reactive, Reads, Rule, Told};
use std::alloc::Global;
use std::time::Clock;

// The rounds of each operation.
const ROUNDS: u64 = 10;

// The operands of a wide rule.
const OPERANDS: usize = 200;

// The sources of a tree of sums.
const LEAVES: usize = 1000;

/// What a memo computes.
#[derive(Drop)]
pub(crate) enum Formula {
    Next(Key),
    Half(Key),
    High(Key),
    Both(Key, Key),
    Sum(Vec<Key>),
}

impl Rule<u64> for Formula {
    ghost plan = { plan_of };

    fn compute<D: Reads<u64>>(&self, reader: &mut D) -> Option<u64> {
        match self {
            Formula::Next(a) => {
                let x = reader.get(*a)?;
                Some(x.wrapping_add(1))
            }
            Formula::Half(a) => {
                let x = reader.get(*a)?;
                Some(x >> 1)
            }
            Formula::High(a) => {
                let x = reader.get(*a)?;
                Some(x >> 40)
            }
            Formula::Both(a, b) => {
                let x = reader.get(*a)?;
                let y = reader.get(*b)?;
                Some(x.wrapping_add(y))
            }
            Formula::Sum(keys) => sum_of(reader, keys.as_slice(), 0),
        }
    }
}

// A sum, and the numbers of these nodes added to it.
fn sum_of<D: Reads<u64>>(reader: &mut D, keys: &[Key], sum: u64) -> Option<u64>
    requires lacks { D.lacks reader.old ≡ None }
    ensures ran { (made : List (Asked ℕ)) × (D.asked reader.new ≡ D.asked reader.old ++ made)
        × Ran (sum_plan keys.now sum) made (D.lacks reader.new) result }
    ensures right { (shown : Key → Option ℕ) (kept : List Key) →
        D.is_right reader.old shown kept → D.is_right reader.new shown kept }
{
    match keys.split_first() {
        None => Some(sum),
        Some((key, rest)) => {
            let x = reader.get(*key)?;
            sum_of(reader, rest, sum.wrapping_add(x))
        }
    }
}

/// A change, and what is read after it.
#[derive(Clone, Copy, PartialEq, Eq)]
pub(crate) enum Work {
    /// The source of a chain is set, its last node read.
    Chain,
    /// Another source is set, and the last node of a chain read.
    Unrelated,
    /// The source of watched memos is set, and they are flushed.
    Fan,
    /// A watched source is set, beside watched memos of other sources.
    Watched,
    /// The source of a ladder of diamonds is set, its last node read.
    Ladder,
    /// A source is set, and the chain over a memo read whose value stays the same.
    Unchanged,
    /// The last operand of each wide rule changes.
    Last,
    /// The first operand of each wide rule changes.
    First,
    /// A source of each tree of sums is set.
    Sums,
}

impl Work {
    /// The work of a word.
    pub(crate) fn named(word: &str) -> Option<Work> {
        match word {
            "memo-chain" => Some(Work::Chain),
            "memo-unrelated" => Some(Work::Unrelated),
            "memo-fan" => Some(Work::Fan),
            "memo-watched" => Some(Work::Watched),
            "memo-ladder" => Some(Work::Ladder),
            "memo-unchanged" => Some(Work::Unchanged),
            "memo-last" => Some(Work::Last),
            "memo-first" => Some(Work::First),
            "memo-sums" => Some(Work::Sums),
            _ => None,
        }
    }
}

/// The sources that each round sets, and the nodes that it reads; watched nodes are flushed.
#[derive(Drop)]
pub(crate) struct Round {
    sources: Vec<Key>,
    read: Vec<Key>,
}

fn here() -> Location {
    Location::new("memos.rt", 1, 1)
}

fn source<S: Storage<Node<u64, Formula>>>(graph: &mut Reactive<u64, Formula, S>) -> Option<Key> {
    graph.source(1, here()).ok()
}

fn memo<S: Storage<Node<u64, Formula>>>(
    graph: &mut Reactive<u64, Formula, S>,
    rule: Formula,
) -> Option<Key> {
    graph.memo(rule, here()).ok()
}

// The last node of a chain over this one.
fn chain<S: Storage<Node<u64, Formula>>>(
    graph: &mut Reactive<u64, Formula, S>,
    first: Key,
    n: usize,
) -> Option<Key> {
    let mut last = first;
    for _ in 0..n {
        last = memo(graph, Formula::Next(last))?;
    }
    Some(last)
}

// The last node of a ladder of diamonds over this one.
fn ladder<S: Storage<Node<u64, Formula>>>(
    graph: &mut Reactive<u64, Formula, S>,
    first: Key,
    rungs: usize,
) -> Option<Key> {
    let mut last = first;
    for _ in 0..rungs {
        let one = memo(graph, Formula::Next(last))?;
        let other = memo(graph, Formula::Half(last))?;
        last = memo(graph, Formula::Both(one, other))?;
    }
    Some(last)
}

// Watches so many memos, of one source or each of a source of its own.
fn watch_memos<S: Storage<Node<u64, Formula>>>(
    graph: &mut Reactive<u64, Formula, S>,
    shared: Option<Key>,
    n: usize,
) -> Option<()> {
    for i in 0..n {
        let of = match shared {
            Some(key) => key,
            None => source(graph)?,
        };
        let key = memo(graph, Formula::Next(of))?;
        graph.watch(key, i as u64).ok()?;
    }
    Some(())
}

// A wide rule over memos of sources, and the first or the last source.
fn wide<S: Storage<Node<u64, Formula>>>(
    alloc: Global,
    graph: &mut Reactive<u64, Formula, S>,
    is_first: bool,
) -> Option<(Key, Key)> {
    let mut operands = Vec::new(alloc);
    let changed = source(graph)?;
    for i in 0..OPERANDS {
        let is_changed = if is_first { i == 0 } else { i + 1 == OPERANDS };
        let of = if is_changed { changed } else { source(graph)? };
        operands.push(memo(graph, Formula::Next(of))?).ok()?;
    }
    Some((changed, memo(graph, Formula::Sum(operands))?))
}

// The sums of pairs of these nodes.
fn sums_of_pairs<S: Storage<Node<u64, Formula>>>(
    alloc: Global,
    graph: &mut Reactive<u64, Formula, S>,
    keys: &[Key],
) -> Option<Vec<Key>> {
    let mut sums = Vec::new(alloc);
    for pair in keys.chunks(2) {
        let sum = match pair {
            [one, other] => memo(graph, Formula::Both(*one, *other))?,
            [one] => *one,
            _ => return None,
        };
        sums.push(sum).ok()?;
    }
    Some(sums)
}

// A source of a tree of sums, and the tree's root.
fn tree<S: Storage<Node<u64, Formula>>>(
    alloc: Global,
    graph: &mut Reactive<u64, Formula, S>,
) -> Option<(Key, Key)> {
    let mut keys = Vec::new(alloc);
    for _ in 0..LEAVES {
        keys.push(source(graph)?).ok()?;
    }
    let first = *keys.first()?;
    for _ in 0..10 {
        keys = sums_of_pairs(alloc, graph, keys.as_slice())?;
    }
    Some((first, *keys.first()?))
}

// The sources and the results of so many wide rules or trees.
fn many<S: Storage<Node<u64, Formula>>>(
    alloc: Global,
    graph: &mut Reactive<u64, Formula, S>,
    work: Work,
    count: usize,
) -> Option<Round> {
    let mut round = Round {
        sources: Vec::new(alloc),
        read: Vec::new(alloc),
    };
    for _ in 0..count {
        let (source, result) = match work {
            Work::Sums => tree(alloc, graph)?,
            _ => wide(alloc, graph, work == Work::First)?,
        };
        round.sources.push(source).ok()?;
        round.read.push(result).ok()?;
    }
    Some(round)
}

// The nodes of a work over one source.
fn single<S: Storage<Node<u64, Formula>>>(
    alloc: Global,
    graph: &mut Reactive<u64, Formula, S>,
    work: Work,
    n: usize,
) -> Option<Round> {
    let first = source(graph)?;
    let mut round = Round {
        sources: Vec::new(alloc),
        read: Vec::new(alloc),
    };
    let mut set = first;
    match work {
        Work::Fan => watch_memos(graph, Some(first), n)?,
        Work::Watched => {
            graph.watch(first, 0).ok()?;
            watch_memos(graph, None, n)?;
        }
        Work::Ladder => round.read.push(ladder(graph, first, n / 3)?).ok()?,
        Work::Unchanged => {
            let high = memo(graph, Formula::High(first))?;
            round.read.push(chain(graph, high, n)?).ok()?;
        }
        _ => {
            round.read.push(chain(graph, first, n)?).ok()?;
            if work == Work::Unrelated {
                set = source(graph)?;
            }
        }
    }
    round.sources.push(set).ok()?;
    Some(round)
}

fn round_of<S: Storage<Node<u64, Formula>>>(
    alloc: Global,
    graph: &mut Reactive<u64, Formula, S>,
    work: Work,
    n: usize,
) -> Option<Round> {
    match work {
        Work::Last | Work::First => many(alloc, graph, work, n / OPERANDS),
        Work::Sums => many(alloc, graph, work, n / LEAVES),
        _ => single(alloc, graph, work, n),
    }
}

// Reads the nodes of a round, and flushes what is watched.
fn look<S: Storage<Node<u64, Formula>>>(
    alloc: Global,
    graph: &mut Reactive<u64, Formula, S>,
    round: &Round,
    start: u64,
) -> Option<u64> {
    let mut seen = start;
    for key in round.read.as_slice() {
        seen = mix(seen, graph.get(*key).ok()?);
    }
    let mut told: Vec<Told<u64>> = Vec::new(alloc);
    graph.flush(&mut told).ok()?;
    let mut sum: u64 = 0;
    for report in told.as_slice() {
        match &report.answer {
            Ok(value) => sum = sum.wrapping_add(*value),
            Err(_) => return None,
        }
    }
    Some(mix(seen, sum))
}

#[inline(never)]
fn rounds<S: Storage<Node<u64, Formula>>>(
    alloc: Global,
    graph: &mut Reactive<u64, Formula, S>,
    round: &Round,
    start: u64,
) -> Option<u64> {
    let mut seen = start;
    for i in 0..ROUNDS {
        for source in round.sources.as_slice() {
            graph.set(*source, i.wrapping_add(2)).ok()?;
        }
        seen = look(alloc, graph, round, seen)?;
    }
    Some(seen)
}

/// Makes the rounds of a work over n nodes of an empty graph, and returns what was seen. None if a call
/// wasn't carried out.
pub(crate) fn run<R: Clock, S: Storage<Node<u64, Formula>>>(
    rt: &R,
    alloc: Global,
    laps: &mut Laps,
    graph: &mut Reactive<u64, Formula, S>,
    work: Work,
    n: usize,
) -> Option<u64> {
    let round = round_of(alloc, graph, work, n)?;
    let seen = look(alloc, graph, &round, 0)?;
    laps.begin(rt)?;
    let seen = rounds(alloc, graph, &round, seen)?;
    laps.end(rt, "rounds")?;
    Some(seen)
}
