//! Drawn graphs beside a plain recomputation.

use crate::graph_calls::Graph;
use crate::graph_lines::Answer::{AnyFault, Gone, NoSource, Value};
use crate::graph_lines::{Course, Line, Table, take_whole};
use crate::graph_plain::{Plain, node_at, value_at};
use crate::graph_runs::{NODES, Runs};
use reactive::Fault;
use std::process::Abort;

/// The places of these nodes.
const PLACES: [usize; NODES] = [0, 1, 2, 3, 4, 5, 6, 7, 8, 9, 10, 11];

/// So many drawn calls.
#[derive(Clone, Copy)]
pub(crate) struct Calls {
    pub(crate) seed: u64,
    pub(crate) count: u64,
}

/// What is known of a graph: which nodes it has, what each is, by its place among them, what was last
/// told of it, and what it came to.
#[derive(Drop)]
struct World {
    numbers: [usize; NODES],
    plains: [Plain; NODES],
    seen: [Option<Option<u64>>; NODES],
    runs: Runs,
    // how many nodes were made, and how many lines carried out
    made: usize,
    lines: usize,
    // from which numbers are drawn
    state: u64,
}

impl World {
    fn below(&mut self, limit: u64) -> u64 {
        self.state = self
            .state
            .wrapping_mul(6_364_136_223_846_793_005)
            .wrapping_add(1_442_695_040_888_963_407);
        (self.state >> 33).checked_rem(limit).unwrap_or(0)
    }

    fn place(&mut self) -> usize {
        usize::try_from(self.below(12)).unwrap_or(0)
    }

    fn plain(&self, place: usize) -> Plain {
        self.plains.get(place).copied().unwrap_or(Plain::Ended)
    }

    fn put(&mut self, place: usize, plain: Plain) {
        if let Some(kept) = self.plains.get_mut(place) {
            *kept = plain;
        }
    }

    fn carry_out(&mut self, rt: &impl Abort, table: &mut Table<impl Graph>, line: Line<'_>) {
        self.lines = self.lines.wrapping_add(1);
        table.carry_out(rt, self.lines, line);
    }

    /// What each node means: as many rounds as there are nodes, each over the round before.
    fn recomputed(&self) -> [Option<u64>; NODES] {
        let mut values = [None; NODES];
        for _ in 0..NODES {
            values = self.plains.map(|plain| plain.given(&values));
        }
        values
    }

    fn drawn_rule(&mut self) -> Plain {
        let (a, b, c) = (self.place(), self.place(), self.place());
        match self.below(8) {
            0 => Plain::Blank,
            1 => Plain::Same(a),
            2 => Plain::Odd(a),
            3 | 4 => Plain::Pick(a, b, c),
            _ => Plain::Add(a, b),
        }
    }

    /// Gives a node a drawn rule, which fails only for a removed one.
    fn redirect(&mut self, rt: &impl Abort, table: &mut Table<impl Graph>, place: usize) {
        let plain = self.drawn_rule();
        let node = node_at(&self.numbers, place);
        if let Plain::Ended = self.plain(place) {
            self.carry_out(rt, table, Line::Unruled(node, Gone(node)));
            return;
        }
        let rule = plain.of(&self.numbers);
        self.carry_out(rt, table, Line::SetRule(node, rule));
        self.put(place, plain);
        self.runs.reset(place);
    }

    fn end(&mut self, rt: &impl Abort, table: &mut Table<impl Graph>, place: usize) {
        let node = node_at(&self.numbers, place);
        self.carry_out(rt, table, Line::End(node));
        self.put(place, Plain::Ended);
    }

    /// Replaces a node by a new source. What needed the old one needs a removed node from then on.
    fn replace(&mut self, rt: &impl Abort, table: &mut Table<impl Graph>, place: usize) {
        let (old, node) = (node_at(&self.numbers, place), self.made);
        self.end(rt, table, place);
        let value = self.below(3);
        self.carry_out(rt, table, Line::Source(value));
        self.carry_out(rt, table, Line::Answers(old, Gone(old)));
        self.carry_out(rt, table, Line::Unwatch(old));
        self.carry_out(rt, table, Line::Watch(node));
        self.made = node.wrapping_add(1);
        self.plains = self.plains.map(|plain| plain.of(&gone(place)));
        self.put(place, Plain::Value(value));
        self.runs.reset(place);
        if let (Some(number), Some(seen)) = (
            self.numbers.get_mut(place),
            self.seen.get_mut(place),
        ) {
            *number = node;
            *seen = None;
        }
    }

    /// Sets a node, which only a source lets.
    fn set(&mut self, rt: &impl Abort, table: &mut Table<impl Graph>, place: usize) {
        let node = node_at(&self.numbers, place);
        let value = self.below(3);
        match self.plain(place) {
            Plain::Value(before) => {
                self.carry_out(rt, table, Line::Set(node, value));
                self.put(place, Plain::Value(value));
                if before != value {
                    self.runs.reset(place);
                }
            }
            Plain::Ended => self.carry_out(rt, table, Line::Unset(node, Gone(node))),
            _ => self.carry_out(rt, table, Line::Unset(node, NoSource(node))),
        }
    }

    /// Whether as many rules were run for these nodes as a plain recomputation has to run.
    fn has_run(&mut self, table: &Table<impl Graph>, wanted: [bool; NODES]) -> bool {
        let values = self.recomputed();
        self.runs.settle(&self.plains, &values, &wanted) == table.ran()
    }

    /// Asks for a node.
    fn ask(&mut self, rt: &impl Abort, table: &mut Table<impl Graph>, place: usize) {
        let wanted = value_at(&self.recomputed(), place).map_or(AnyFault, Value);
        let node = node_at(&self.numbers, place);
        self.carry_out(rt, table, Line::Answers(node, wanted));
        let asked = PLACES.map(|other| other == place);
        assert!(rt; self.has_run(table, asked));
    }

    /// Flushes: what each watched node meant at the last flush, and what was reported since, is what it
    /// means.
    fn flush(&mut self, rt: &impl Abort, table: &mut Table<impl Graph>) {
        self.carry_out(rt, table, Line::Flush);
        let told = table.take_told();
        for change in told.iter() {
            for (number, seen) in self.numbers.iter().zip(self.seen.iter_mut()) {
                if table.key(rt, *number) == change.key {
                    let value = change.answer.ok();
                    let has_ended = change.answer == Err(Fault::Gone(change.key));
                    assert!(rt; has_ended || *seen != Some(value));
                    *seen = Some(value);
                }
            }
        }
        let values = self.recomputed().map(Some);
        assert!(rt; self.seen == values);
        assert!(rt; self.has_run(table, [true; NODES]));
    }

    /// One drawn call on both, and a comparison of one node.
    fn call(&mut self, rt: &impl Abort, table: &mut Table<impl Graph>) {
        let place = self.place();
        match self.below(12) {
            0 | 1 => self.redirect(rt, table, place),
            2 => self.end(rt, table, place),
            3 => {
                // removed nodes are reported first: no effect of one is left in a slot that is taken again
                self.flush(rt, table);
                self.replace(rt, table, place);
            }
            4 | 5 | 6 => self.set(rt, table, place),
            7 => self.flush(rt, table),
            _ => {}
        }
        let asked = self.place();
        self.ask(rt, table, asked);
    }
}

/// The places of these nodes, and of one that was removed for ever: that of a node, and of all that were.
fn gone(place: usize) -> [usize; 13] {
    let mut places = [0, 1, 2, 3, 4, 5, 6, 7, 8, 9, 10, 11, 12];
    if let Some(removed) = places.get_mut(place) {
        *removed = NODES;
    }
    places
}

impl Course for Calls {
    fn take<R: Abort, G: Graph>(&self, rt: &R, table: &mut Table<G>) {
        let mut world = World {
            numbers: [0; NODES],
            plains: [Plain::Value(1); NODES],
            seen: [None; NODES],
            runs: Runs::new(),
            made: 1,
            lines: 0,
            state: self.seed,
        };
        world.carry_out(rt, table, Line::Source(1));
        for place in 0..NODES {
            world.replace(rt, table, place);
        }
        for _ in 0..self.count {
            world.call(rt, table);
        }
    }
}

#[test]
fn drawn_graphs_answer_as_a_recomputation_does(rt: HostRuntime) {
    let calls = Calls {
        seed: 20,
        count: 2_000,
    };
    take_whole(&rt, rt.alloc(), &calls);
}
