//! Sheets: cells by their names, each a memo of the parts that its formula is made of.

use crate::formula::Formula;
use anyhow::{Result, anyhow, bail, ensure};
use generational_box::{Location, Storage};
use reactive::{Fault, Key, Node, Reactive};
use std::alloc::Global;
use std::collections::BTreeMap;
use std::fmt::Write;
use std::{io, mem};

/// A cell: its node, and those of its formula's parts that are no cells.
#[derive(Drop)]
struct Cell {
    key: Key,
    parts: Vec<Key>,
}

/// Cells, and the graph of their nodes.
#[derive(Drop)]
pub struct Sheet<G> {
    graph: G,
    cells: BTreeMap<String, Cell>,
    // those of the formula that is being read
    parts: Vec<Key>,
    alloc: Global,
}

impl<S: Storage<Node<u64, Formula>>> Sheet<Reactive<u64, Formula, S>> {
    /// A sheet without cells, over a graph without nodes.
    pub fn new(alloc: Global, graph: Reactive<u64, Formula, S>) -> Self {
        Sheet {
            graph,
            cells: BTreeMap::new(alloc),
            parts: Vec::new(alloc),
            alloc,
        }
    }

    /// Runs a line, and prints each watched cell that has changed.
    pub fn carry_out(&mut self, rt: &impl Print, line: &str) -> Result<()> {
        match (line.split_once('='), line.split_once(' ')) {
            (Some((name, formula)), _) => self.put(name.trim(), Some(formula.trim()))?,
            (_, Some(("show", name))) => {
                let key = self.cell(name)?;
                let answer = self.graph.get(key);
                self.tell(rt, "is", key, answer)?;
            }
            (_, Some(("watch", name))) => {
                let key = self.cell(name)?;
                self.graph.watch(key, 0)?;
            }
            (_, Some(("clear", name))) => self.put(name, None)?,
            _ => bail!("not understood"),
        }
        let mut told = Vec::new(self.alloc);
        self.graph.flush(&mut told)?;
        for change in told.iter() {
            self.tell(rt, "becomes", change.key, change.answer)?;
        }
        Ok(())
    }

    // Prints a cell's value, or why it has none.
    fn tell(
        &self,
        rt: &impl Print,
        verb: &str,
        key: Key,
        answer: Result<u64, Fault>,
    ) -> io::Result<()> {
        let name = self.name_of(key);
        let (at, why) = match answer {
            Ok(value) => return println!(rt; "{name} {verb} {value}"),
            Err(Fault::Cycle(at)) => (at, "needs itself"),
            Err(Fault::NoValue(at)) => (at, "has none"),
            Err(fault) => return println!(rt; "{name} has no value: {fault}"),
        };
        println!(rt; "{name} has no value: {} {why}", self.name_of(at))
    }

    // The name of the cell that has a node.
    fn name_of(&self, key: Key) -> &str {
        let mut cells = self.cells.iter();
        match cells.find(|(_, cell)| cell.key == key || cell.parts.contains(&key)) {
            Some((name, _)) => name.as_str(),
            None => "?",
        }
    }

    // The node of a cell. One that is new is blank.
    fn cell(&mut self, name: &str) -> Result<Key> {
        if let Some(cell) = self.cells.get(name) {
            return Ok(cell.key);
        }
        row_of(name)?;
        let owned = String::from_str(self.alloc, name)?;
        let key = self.graph.memo(Formula::Blank, here())?;
        let parts = Vec::new(self.alloc);
        self.cells.insert(owned, Cell { key, parts })?;
        Ok(key)
    }

    // Sets a cell's formula, or none: then it is blank.
    fn put(&mut self, name: &str, formula: Option<&str>) -> Result<()> {
        let key = self.cell(name)?;
        let rule = self.rule(formula);
        if let (Ok(rule), Some(cell)) = (&rule, self.cells.get_mut(name)) {
            self.graph.set_rule(key, *rule)?;
            mem::swap(&mut cell.parts, &mut self.parts);
        }
        // the parts of the old formula, or of one that failed
        self.graph.end_all(&self.parts)?;
        self.parts.clear();
        rule.map(|_| ())
    }

    fn rule(&mut self, formula: Option<&str>) -> Result<Formula> {
        let Some(words) = formula else {
            return Ok(Formula::Blank);
        };
        match words.strip_prefix("sum ") {
            Some(range) => self.sum(range_of(self.alloc, range)?.as_str()),
            None => self.sum(words),
        }
    }

    // A sum of products.
    fn sum(&mut self, words: &str) -> Result<Formula> {
        let mut sum = Formula::Blank;
        for product in words.split('+') {
            let mut rule = Formula::Blank;
            for word in product.split('*') {
                let key = self.operand(word.trim())?;
                rule = match rule {
                    Formula::Blank => Formula::Same(key),
                    before => Formula::Mul(self.node(before)?, key),
                };
            }
            sum = match sum {
                Formula::Blank => rule,
                before => Formula::Add(self.node(before)?, self.node(rule)?),
            };
        }
        Ok(sum)
    }

    // A number is a source, and any other word is a cell's name.
    fn operand(&mut self, word: &str) -> Result<Key> {
        let Ok(number) = word.parse() else {
            return self.cell(word);
        };
        self.parts.reserve(1)?;
        let key = self.graph.source(number, here())?;
        self.parts.push_reserved(key);
        Ok(key)
    }

    // The node of a part: the one that it refers to, or a new memo.
    fn node(&mut self, part: Formula) -> Result<Key> {
        if let Formula::Same(key) = part {
            return Ok(key);
        }
        self.parts.reserve(1)?;
        let key = self.graph.memo(part, here())?;
        self.parts.push_reserved(key);
        Ok(key)
    }
}

// The sum of a column's cells from one to another, for example `A1 A9`.
fn range_of(alloc: Global, words: &str) -> Result<String> {
    let (first, last) = words.split_once(' ').unwrap_or(("", ""));
    let ((column, from), (other, to)) = (row_of(first)?, row_of(last)?);
    ensure!(column == other, "not understood");
    let mut sum = String::new(alloc);
    for row in from..=to {
        write!(sum, "{}{column}{row}", if row == from { "" } else { "+" })?;
    }
    Ok(sum)
}

// The column and the row of a cell's name, for example A12.
fn row_of(name: &str) -> Result<(char, u16)> {
    let mut letters = name.chars();
    match (letters.next(), letters.as_str().parse()) {
        (Some(column @ 'A'..='Z'), Ok(row)) => Ok((column, row)),
        _ => Err(anyhow!("not understood")),
    }
}

fn here() -> Location {
    Location::new("sheet.rt", 1, 1)
}
