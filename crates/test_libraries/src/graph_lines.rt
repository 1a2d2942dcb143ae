//! Tests as data: lines that say what is done with a graph, and the results.

use crate::expected::assert_prints;
use crate::fresh::{Scene, play_both};
use crate::graph_calls::{Graph, Tested};
use crate::graph_plain::Plain;
use example_libraries::memos::Formula;
use generational_box::{Storage, StoreError};
use reactive::{Fault, Key, Node, Reactive, Scope, Told};
use std::alloc::Global;
use std::mem;
use std::process::Abort;

/// How often a line is tried that fails to allocate.
const TRIES: u64 = 1000;

const SHORT: Fault = Fault::Store(StoreError::OutOfMemory);

/// The result of a call. Nodes are identified by their numbers, in the order in which they were made.
#[derive(Clone, Copy)]
pub(crate) enum Answer {
    Value(u64),
    Gone(usize),
    NoValue(usize),
    NoSource(usize),
    Cycle(usize),
    /// Some node needs itself.
    AnyCycle,
    /// Any error except for memory.
    AnyFault,
    /// An allocation failed. A line with this result is tried again, so this is only for texts.
    Short,
}

/// What is done with a graph, and with one scope.
#[derive(Clone, Copy)]
pub(crate) enum Line<'a> {
    Source(u64),
    Memo(Plain),
    /// Makes them in the scope.
    SourceIn(u64),
    MemoIn(Plain),
    /// Makes so many memos after a node, of which each adds the second node to the one before.
    Chain(usize, usize, u64),
    /// Makes so many pairs of memos over a node, of which each adds both nodes of the pair below.
    Ladder(usize, u64),
    /// Makes so many memos that read a node, and watches them.
    Watchers(usize, u64),
    Set(usize, u64),
    SetRule(usize, Plain),
    End(usize),
    EndScope,
    /// A set or a rule fails so.
    Unset(usize, Answer),
    Unruled(usize, Answer),
    /// This node shows this value, for which so many rules come to a value.
    Shows(usize, u64, u64),
    /// So many rules have come to a value in all.
    Ran(u64),
    /// A `get` has this result.
    Answers(usize, Answer),
    /// This node is known without a step.
    Known(usize),
    /// This node isn't known without a step.
    Unknown(usize),
    Watch(usize),
    /// Watches a node, whose effect replaces another's.
    WatchFor(usize, usize),
    Unwatch(usize),
    /// A flush. What it tells is kept.
    Flush,
    /// A flush tells this of these nodes.
    Tells(&'a [(usize, Answer)]),
    /// An error has this text.
    Prints(Answer, &'a str),
}

/// A graph, the nodes that lines name, and what they share.
pub(crate) struct Table<G> {
    alloc: Global,
    graph: G,
    keys: Vec<Key>,
    scope: Scope,
    told: Vec<Told<u64>>,
    // how often a rule had come to a value before the line
    runs: u64,
    // how often a line failed to allocate
    refused: u64,
}

impl<G: Graph> Table<G> {
    /// Runs a line, which must have the result that it says. One that fails to allocate is tried again.
    pub(crate) fn carry_out(&mut self, rt: &impl Abort, place: usize, line: Line<'_>) {
        self.runs = self.graph.runs();
        for _ in 0..TRIES {
            if let Some(is_right) = self.is_right(rt, line) {
                assert!(rt; is_right, "line {place}");
                return;
            }
            self.refused = self.refused.saturating_add(1);
        }
        rt.abort()
    }

    /// How many rules came to a value for the last line.
    pub(crate) fn ran(&self) -> u64 {
        self.graph.runs().wrapping_sub(self.runs)
    }

    /// What flushes have told since this was asked.
    pub(crate) fn take_told(&mut self) -> Vec<Told<u64>> {
        mem::replace(&mut self.told, Vec::new(self.alloc))
    }

    /// The key of a node.
    pub(crate) fn key(&self, rt: &impl Abort, node: usize) -> Key {
        *self.keys.get(node).expect(rt, "a key")
    }

    /// Whether a line has the result that it says. None if it fails to allocate.
    fn is_right(&mut self, rt: &impl Abort, line: Line<'_>) -> Option<bool> {
        if let Some(made) = self.made(line) {
            let key = made.ok()?;
            return Some(self.keep(key) && self.is_idle());
        }
        if self.is_built(rt, line) || self.is_changed(rt, line) {
            return Some(self.is_idle());
        }
        self.is_answered(rt, line)
    }

    /// Whether no rule has come to a value for the line: what makes or changes nodes runs none.
    fn is_idle(&self) -> bool {
        self.graph.runs() == self.runs
    }

    /// Keeps the key of a new node.
    fn keep(&mut self, key: Key) -> bool {
        self.keys.push(key).is_ok() || self.keys.push(key).is_ok()
    }

    /// Makes a node, if a line says so.
    fn made(&mut self, line: Line<'_>) -> Option<Result<Key, StoreError>> {
        match line {
            Line::Source(value) => Some(self.graph.source(value)),
            Line::SourceIn(value) => Some(self.graph.source_in(&mut self.scope, value)),
            Line::Memo(plain) => Some(self.graph.memo(plain.rule(&self.keys)?)),
            Line::MemoIn(plain) => {
                let rule = plain.rule(&self.keys)?;
                Some(self.graph.memo_in(&mut self.scope, rule))
            }
            _ => None,
        }
    }

    /// Makes a sum of two nodes.
    fn sum(&mut self, rt: &impl Abort, a: Key, b: Key) -> Key {
        let key = self
            .graph
            .memo(Formula::Add(a, b))
            .ok()
            .expect(rt, "a memo");
        assert!(rt; self.keep(key));
        key
    }

    fn chain(&mut self, rt: &impl Abort, first: Key, other: Key, count: u64) {
        let mut last = first;
        for _ in 0..count {
            last = self.sum(rt, last, other);
        }
    }

    fn ladder(&mut self, rt: &impl Abort, foot: Key, count: u64) {
        let (mut left, mut right) = (foot, foot);
        for _ in 0..count {
            let sum = self.sum(rt, left, right);
            right = self.sum(rt, right, left);
            left = sum;
        }
    }

    fn watchers(&mut self, rt: &impl Abort, read: Key, count: u64) {
        for tag in 0..count {
            let key = self
                .graph
                .memo(Formula::Same(read))
                .ok()
                .expect(rt, "a memo");
            assert!(rt; self.keep(key));
            assert!(rt; self.graph.watch(key, tag) == Ok(None));
        }
    }

    /// Makes many nodes, if a line says so.
    fn is_built(&mut self, rt: &impl Abort, line: Line<'_>) -> bool {
        match line {
            Line::Chain(first, other, count) => {
                let (first, other) = (self.key(rt, first), self.key(rt, other));
                self.chain(rt, first, other, count);
                true
            }
            Line::Ladder(foot, count) => {
                let foot = self.key(rt, foot);
                self.ladder(rt, foot, count);
                true
            }
            Line::Watchers(read, count) => {
                let read = self.key(rt, read);
                self.watchers(rt, read, count);
                true
            }
            _ => false,
        }
    }

    /// Changes nodes, if a line says so; whether that has the result that it says.
    fn is_changed(&mut self, rt: &impl Abort, line: Line<'_>) -> bool {
        match line {
            Line::Set(node, value) => {
                let key = self.key(rt, node);
                self.graph.set(key, value).is_ok()
            }
            Line::SetRule(node, plain) => {
                let key = self.key(rt, node);
                let rule = plain.rule(&self.keys).expect(rt, "a rule");
                self.graph.set_rule(key, rule).is_ok()
            }
            Line::Unset(node, wanted) => {
                let key = self.key(rt, node);
                let answer = self.graph.set(key, 1);
                answer == Err(self.fault(rt, wanted))
            }
            Line::Unruled(node, wanted) => {
                let key = self.key(rt, node);
                let answer = self.graph.set_rule(key, Formula::Blank);
                answer == Err(self.fault(rt, wanted))
            }
            Line::End(node) => {
                let key = self.key(rt, node);
                self.graph.end(key).is_ok()
            }
            Line::EndScope => {
                let ended = mem::replace(&mut self.scope, Scope::new(self.alloc));
                self.graph.end_scope(ended).is_ok()
            }
            _ => false,
        }
    }

    /// Gets a node, if a line says so; whether that has the result that it says. None if it fails to
    /// allocate.
    fn is_answered(&mut self, rt: &impl Abort, line: Line<'_>) -> Option<bool> {
        match line {
            Line::Shows(node, value, runs) => {
                let key = self.key(rt, node);
                let answer = self.answer(key)?;
                let is_right = answer == Ok(value)
                    && self.ran() == runs
                    && self.graph.seen(key) == answer;
                Some(is_right)
            }
            Line::Ran(count) => Some(self.graph.runs() == count),
            Line::Answers(node, wanted) => {
                let key = self.key(rt, node);
                let answer = self.answer(key)?;
                Some(self.is(rt, answer, wanted))
            }
            Line::Known(node) => Some(self.graph.is_known(self.key(rt, node))),
            Line::Unknown(node) => Some(!self.graph.is_known(self.key(rt, node))),
            Line::Prints(answer, text) => {
                assert_prints(rt, self.alloc, &self.fault(rt, answer), text);
                Some(true)
            }
            _ => self.is_of_effects(rt, line),
        }
    }

    /// Watches nodes or flushes, if a line says so; whether that has the result that it says. None if it
    /// fails to allocate.
    fn is_of_effects(&mut self, rt: &impl Abort, line: Line<'_>) -> Option<bool> {
        match line {
            Line::Watch(node) => {
                let key = self.key(rt, node);
                self.is_watched(key, node, None)
            }
            Line::WatchFor(node, other) => {
                let key = self.key(rt, node);
                let before = (self.key(rt, other), other as u64);
                self.is_watched(key, node, Some(before))
            }
            Line::Unwatch(node) => {
                let key = self.key(rt, node);
                self.graph.unwatch(key);
                Some(true)
            }
            Line::Flush => {
                self.graph.flush(&mut self.told).ok()?;
                Some(true)
            }
            Line::Tells(wanted) => {
                self.graph.flush(&mut self.told).ok()?;
                Some(self.has_told(rt, wanted))
            }
            _ => Some(false),
        }
    }

    /// Watches a node, and returns whether this takes the place of that effect. None if it fails to allocate.
    fn is_watched(&mut self, key: Key, node: usize, wanted: Option<(Key, u64)>) -> Option<bool> {
        match self.graph.watch(key, node as u64) {
            Ok(before) => Some(before == wanted),
            Err(fault) if fault == SHORT => None,
            Err(_) => Some(false),
        }
    }

    /// The result of a `get`. None if it fails to allocate.
    fn answer(&mut self, key: Key) -> Option<Result<u64, Fault>> {
        let answer = self.graph.get(key);
        if answer == Err(SHORT) {
            return None;
        }
        Some(answer)
    }

    /// Whether a result is the expected one.
    fn is(&self, rt: &impl Abort, given: Result<u64, Fault>, wanted: Answer) -> bool {
        match wanted {
            Answer::Value(value) => given == Ok(value),
            Answer::AnyCycle => matches!(given, Err(Fault::Cycle(_))),
            Answer::AnyFault => given.is_err(),
            _ => given == Err(self.fault(rt, wanted)),
        }
    }

    /// The expected error.
    fn fault(&self, rt: &impl Abort, wanted: Answer) -> Fault {
        match wanted {
            Answer::Gone(node) => Fault::Gone(self.key(rt, node)),
            Answer::NoValue(node) => Fault::NoValue(self.key(rt, node)),
            Answer::NoSource(node) => Fault::NoSource(self.key(rt, node)),
            Answer::Cycle(node) => Fault::Cycle(self.key(rt, node)),
            _ => SHORT,
        }
    }

    /// Whether flushes have told this, and nothing else.
    fn has_told(&mut self, rt: &impl Abort, wanted: &[(usize, Answer)]) -> bool {
        let told = self.take_told();
        if told.len() != wanted.len() {
            return false;
        }
        for (change, row) in told.iter().zip(wanted.iter()) {
            if change.key != self.key(rt, row.0)
                || change.tag != row.0 as u64
                || !self.is(rt, change.answer, row.1)
            {
                return false;
            }
        }
        true
    }
}

/// What is done over a new graph.
pub(crate) trait Course {
    fn take<R: Abort, G: Graph>(&self, rt: &R, table: &mut Table<G>);
}

/// Lines that are carried out in turn.
#[derive(Clone, Copy)]
pub(crate) struct Lines<'a>(pub(crate) &'a [Line<'a>]);

impl<'a> Course for Lines<'a> {
    fn take<R: Abort, G: Graph>(&self, rt: &R, table: &mut Table<G>) {
        for (place, line) in self.0.iter().enumerate() {
            table.carry_out(rt, place, *line);
        }
    }
}

/// A course over a new graph.
#[derive(Clone, Copy)]
struct OverGraph<'a, P> {
    course: &'a P,
    // whether allocations may fail
    may_lack: bool,
}

impl<'a, P: Course> Scene<Node<u64, Formula>> for OverGraph<'a, P> {
    fn play<R: Abort, S: Storage<Node<u64, Formula>> + Drop>(
        &self,
        rt: &R,
        alloc: Global,
        store: S,
    ) {
        assert!(rt; store.is_fresh());
        let mut table = Table {
            alloc,
            graph: Tested(Reactive::new(alloc, store)),
            keys: Vec::new(alloc),
            scope: Scope::new(alloc),
            told: Vec::new(alloc),
            runs: 0,
            refused: 0,
        };
        self.course.take(rt, &mut table);
        let Table {
            alloc: _,
            graph: _,
            keys: _,
            scope,
            told: _,
            runs: _,
            refused,
        } = table;
        scope.leak();
        assert!(rt; self.may_lack || refused == 0);
    }
}

/// Takes a course over a new graph, once with each order of free slots.
pub(crate) fn take<P: Course + Copy>(rt: &impl Abort, alloc: Global, course: &P) {
    let may_lack = true;
    play_both(rt, alloc, &OverGraph { course, may_lack });
}

/// Takes a course in which no call fails to allocate.
pub(crate) fn take_whole<P: Course + Copy>(rt: &impl Abort, alloc: Global, course: &P) {
    let may_lack = false;
    play_both(rt, alloc, &OverGraph { course, may_lack });
}
