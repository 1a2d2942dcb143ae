//! `boxes` reads a script of calls over boxes from standard input, a command a line, and prints one reply
//! a line. `boxes fuzz SEED COUNT` draws a list of calls, and compares the replies of two stores.
//!
//! `docs/script.md` at the repository's root describes the commands, the replies, the statuses and the
//! output of `fuzz`.
#![tactic(auto)]

use boxes_script::{ScriptFault, boxes_run, report};
use std::env;
use std::io::{ErrorKind, Read, Write};
use std::process::ExitCode;
use std::rt::Env;

fn main(rt: HostRuntime) -> ExitCode {
    let status = run(&rt, &mut rt.stdin(), &mut rt.stdout(), &mut rt.stderr());
    ExitCode::from(status)
}

// Runs the program over its streams: the exit status.
fn run<R: Env + AllocGlobal, I: Read, O: Write, E: Write>(
    rt: &R,
    input: &mut I,
    output: &mut O,
    faults: &mut E,
) -> u8 {
    match words(rt) {
        Ok(words) => boxes_run(rt.alloc(), words.as_slice(), input, output, faults),
        Err(fault) => report(fault, faults),
    }
}

// The words after the program's name. One that is not UTF-8 is unknown to the program.
fn words<R: Env + AllocGlobal>(rt: &R) -> Result<Vec<String>, ScriptFault> {
    match env::args(rt) {
        Ok(words) => words
            .skip(1)
            .collect(rt.alloc())
            .map_err(|_| ScriptFault::Memory),
        Err(error) if error.kind() == ErrorKind::OutOfMemory => Err(ScriptFault::Memory),
        Err(_) => Err(ScriptFault::Usage),
    }
}
