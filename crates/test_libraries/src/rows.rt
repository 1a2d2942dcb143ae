//! Histories as text: each row has a command, its reply, and what there is afterwards.
//!
//! A row is `COMMAND -> REPLY | STATE`. A command is a word and numbers. What a command makes is named by
//! its number, in the order in which all of them were made, from 0. A reply is `ok`, what a call returned,
//! or the text of its error. `tree_acts`, `document_acts`, `entity_acts` and `session_acts` say which
//! commands there are, and how a state is written.

use crate::expected::{assert_same, given};
use handles::Handle;
use std::alloc::Global;
use std::fmt::{Display, Write};
use std::process::Abort;

/// A history's name, and its rows.
pub(crate) type History = (&'static str, &'static [&'static str]);

/// The words of a command that aren't read yet.
#[derive(Drop)]
pub(crate) struct Words<'a>(&'a str);

impl<'a> Words<'a> {
    /// Reads the next word, which is empty if there is none.
    pub(crate) fn word(&mut self) -> &'a str {
        let (word, rest) = self.0.split_once(' ').unwrap_or((self.0, ""));
        self.0 = rest;
        word
    }

    /// Reads a number.
    pub(crate) fn number(&mut self, rt: &impl Abort) -> u64 {
        given(rt, self.word().parse::<u64>())
    }

    /// Reads an index, or the number of what was made.
    pub(crate) fn index(&mut self, rt: &impl Abort) -> usize {
        given(rt, self.word().parse::<usize>())
    }
}

/// The handles of what commands made, in order.
#[derive(Drop)]
pub(crate) struct Made<T, K> {
    handles: Vec<Handle<T, K>>,
}

impl<T, K> Made<T, K> {
    /// None yet.
    pub(crate) fn new(alloc: Global) -> Made<T, K> {
        Made {
            handles: Vec::new(alloc),
        }
    }

    /// The number of the next one.
    pub(crate) fn next(&self) -> usize {
        self.handles.len()
    }

    /// Adds a handle.
    pub(crate) fn add(&mut self, rt: &impl Abort, handle: Handle<T, K>) {
        given(rt, self.handles.push(handle));
    }

    /// All of them.
    pub(crate) fn all(&self) -> &[Handle<T, K>] {
        self.handles.as_slice()
    }

    /// The handle with a number.
    pub(crate) fn at(&self, rt: &impl Abort, number: usize) -> Handle<T, K> {
        self.handles.get(number).copied().expect(rt, "a number")
    }

    /// The handle that a command names.
    pub(crate) fn named(&self, rt: &impl Abort, words: &mut Words<'_>) -> Handle<T, K> {
        self.at(rt, words.index(rt))
    }

    /// The number of a handle, by its id.
    pub(crate) fn number_of(&self, rt: &impl Abort, handle: Handle<T, K>) -> usize {
        for (number, other) in self.handles.iter().enumerate() {
            if other.id() == handle.id() {
                return number;
            }
        }
        panic!(rt; "no command made it")
    }
}

/// What commands are carried out on, with what they made.
pub(crate) trait Subject {
    /// Carries out a command, and writes its reply.
    fn carry_out<R: Abort>(&mut self, rt: &R, words: &mut Words<'_>, text: &mut String);

    /// Writes the state, each part after a space, and asserts what no row says of it.
    fn show<R: Abort>(&mut self, rt: &R, text: &mut String);
}

/// Writes a text.
pub(crate) fn write_text<T: Display>(rt: &impl Abort, text: &mut String, shown: &T) {
    given(rt, write!(text, "{shown}"));
}

/// Writes the reply of a call: `ok`, or the text of its error.
pub(crate) fn write_reply<E: Display + Drop>(
    rt: &impl Abort,
    text: &mut String,
    answer: Result<(), E>,
) {
    match answer {
        Ok(()) => write_text(rt, text, &"ok"),
        Err(error) => write_text(rt, text, &error),
    }
}

/// Writes numbers in brackets. Writes nothing if there are none.
pub(crate) fn write_numbers(rt: &impl Abort, text: &mut String, numbers: &[usize]) {
    if numbers.is_empty() {
        return;
    }
    let mut before = "(";
    for number in numbers {
        given(rt, write!(text, "{before}{number}"));
        before = " ";
    }
    write_text(rt, text, &")");
}

/// Carries out a row's command, and compares what comes of it with the row.
fn carry_out<C: Subject>(rt: &impl Abort, alloc: Global, subject: &mut C, name: &str, row: &str) {
    let (command, wanted) = row.split_once(" -> ").unwrap_or((row, ""));
    let mut words = Words(command);
    let mut text = String::new(alloc);
    subject.carry_out(rt, &mut words, &mut text);
    assert_same(rt, &(command, words.0), &(command, ""));
    write_text(rt, &mut text, &" |");
    subject.show(rt, &mut text);
    assert_same(
        rt,
        &(name, command, text.as_str()),
        &(name, command, wanted),
    );
}

/// Carries out the rows of a history in turn.
pub(crate) fn carry_out_all<C: Subject>(
    rt: &impl Abort,
    alloc: Global,
    subject: &mut C,
    name: &str,
    rows: &[&str],
) {
    for row in rows {
        carry_out(rt, alloc, subject, name, row);
    }
}
