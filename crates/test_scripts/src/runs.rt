//! Whole runs of the program, and scripts of commands with their replies.

use crate::expected::{assert_same, given, push};
use boxes_script::boxes_run;
use std::alloc::Global;
use std::io::{Read, Write};
use std::process::Abort;
use std::str;

/// A run's status, and what it wrote.
#[derive(Drop)]
pub(crate) struct Outcome {
    pub(crate) status: u8,
    pub(crate) output: Vec<u8>,
    pub(crate) faults: Vec<u8>,
}

/// Runs the program with these words after its name.
pub(crate) fn run_words<R: Read>(alloc: Global, words: &[String], input: &mut R) -> Outcome {
    let mut output = Vec::new(alloc);
    let mut faults = Vec::new(alloc);
    let status = boxes_run(alloc, words, input, &mut output, &mut faults);
    Outcome {
        status,
        output,
        faults,
    }
}

/// Words, each a text of its own.
pub(crate) fn texts(rt: &impl Abort, alloc: Global, words: &[&str]) -> Vec<String> {
    let mut texts = Vec::new(alloc);
    for word in words {
        push(rt, &mut texts, given(rt, String::from_str(alloc, word)));
    }
    texts
}

/// Runs the program.
pub(crate) fn run<R: Read>(alloc: Global, input: &mut R) -> Outcome {
    run_words(alloc, &[], input)
}

/// The text of what was written.
pub(crate) fn text(bytes: &Vec<u8>) -> &str {
    str::from_utf8(bytes.as_slice()).unwrap_or("bytes that are not UTF-8")
}

/// Asserts how a run ended and what it wrote.
pub(crate) fn assert_ended(
    rt: &impl Abort,
    outcome: &Outcome,
    status: u8,
    output: &str,
    faults: &str,
) {
    assert_same(rt, &text(&outcome.output), &output);
    assert_same(rt, &text(&outcome.faults), &faults);
    assert_same(rt, &outcome.status, &status);
}

/// The texts of errors, and the words for them in a script.
const ERRORS: [(&str, &str); 3] = [
    (
        "dropped: ",
        "error: Failed to borrow because the value was dropped.created_at: ",
    ),
    (
        "written: ",
        "error: Failed to borrow because the value was already borrowed mutably.borrowed_mut_at: ",
    ),
    (
        "read:",
        "error: Failed to borrow mutably because the value was already borrowed immutably.borrowed_at:",
    ),
];

/// Writes a reply of a script, with the whole text of an error.
fn write_reply(rt: &impl Abort, output: &mut Vec<u8>, reply: &str) {
    for (word, error) in ERRORS {
        if let Some(places) = reply.strip_prefix(word) {
            writeln!(output, "{error}{places}").expect(rt, "memory");
            return;
        }
    }
    writeln!(output, "{reply}").expect(rt, "memory");
}

/// A script's name, and its lines: each has a command, an arrow and the reply.
pub(crate) type Script = (&'static str, &'static [&'static str]);

/// The command and the reply of a line.
pub(crate) fn parts(line: &str) -> (&str, &str) {
    line.split_once(" -> ").unwrap_or((line, ""))
}

/// The replies of a script, a line each.
pub(crate) fn replies_of(rt: &impl Abort, alloc: Global, lines: &[&str]) -> Vec<u8> {
    let mut replies = Vec::new(alloc);
    for line in lines {
        write_reply(rt, &mut replies, parts(line).1);
    }
    replies
}

/// The commands of a script, a line each.
fn commands_of(rt: &impl Abort, alloc: Global, lines: &[&str]) -> Vec<u8> {
    let mut commands = Vec::new(alloc);
    for line in lines {
        writeln!(&mut commands, "{}", parts(line).0).expect(rt, "memory");
    }
    commands
}

/// Asserts that the program prints the replies beside the commands of each script, and that its run ends
/// well.
pub(crate) fn assert_replies(rt: &impl Abort, alloc: Global, scripts: &[Script]) {
    for (name, lines) in scripts {
        let commands = commands_of(rt, alloc, lines);
        let outcome = run(alloc, &mut commands.as_slice());
        assert_written(rt, name, &outcome.output, &replies_of(rt, alloc, lines));
        let ended = (*name, outcome.status, text(&outcome.faults));
        assert_same(rt, &ended, &(*name, 0, ""));
    }
}

/// Asserts that what a script's run wrote is its replies.
pub(crate) fn assert_written(rt: &impl Abort, name: &str, written: &Vec<u8>, replies: &Vec<u8>) {
    assert_same(rt, &(name, text(written)), &(name, text(replies)));
}
