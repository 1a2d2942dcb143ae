//! Runs of a script: its streams, its faults and its exit status.

ghost use Rattle.generational_core.specs.Conditions.{IsFresh};

use crate::Verdict;
use crate::fault::ScriptFault;
use crate::fuzz::{Pair, compare_drawn, fuzz_pair};
use crate::lines::Lines;
use crate::numbers::MOST_LINES;
use crate::script::Script;
use generational_box::{Storage, UnsyncStorage};
use std::alloc::Global;
use std::io::{BufWriter, Read, Write};

/// The most calls of a drawn list.
const MOST_CALLS: usize = 100_000;

/// Runs the program: without words the script on `input`, with a reply a line on `output`; with the words
/// `fuzz SEED COUNT` a list of COUNT calls that is drawn from SEED, over two stores, with one line on
/// `output`: `same`, `differs at N` or `refused at N`. SEED is a decimal number of 64 bits and COUNT one
/// up to 100000, both without sign or leading zeros.
///
/// `words` are the words after the program's name. Returns the exit status: 0 at the end of the input, or
/// if the stores' replies are the same; 4 if they differ. Otherwise a fault ended the run, and its text
/// is written to `faults`; a write to `faults` that fails changes no status.
///
/// Faults of a script are found in this order: the words, the memory of the buffers, and then for each
/// line the limit, at the line's first byte, errors of reading it, its memory, and the writing of its
/// reply. The replies to all lines before a fault were written, unless writing failed. Those of a drawn
/// list are found in this order: the words, the memory of its lists, the writing of its line, and then a
/// call that failed to allocate.
pub fn boxes_run<R: Read, W: Write, E: Write>(
    alloc: Global,
    words: &[String],
    input: &mut R,
    output: &mut W,
    faults: &mut E,
) -> u8 {
    if words.is_empty() {
        let ended = run(alloc, UnsyncStorage::new(alloc, 1), input, output);
        return status_of(ended, faults);
    }
    fuzz_run(alloc, words, fuzz_pair(alloc), output, faults)
}

/// Runs the program over another pair of stores, if there are words: `boxes_run` uses those of
/// `fuzz_pair`.
pub fn fuzz_run<W: Write, E: Write>(
    alloc: Global,
    words: &[String],
    pair: Pair,
    output: &mut W,
    faults: &mut E,
) -> u8
    requires one { IsFresh pair.one.state }
    requires other { IsFresh pair.other.state }
{
    let Pair { one, other } = pair;
    let ended = run_fuzz(alloc, words, one, other, output);
    status_of(ended, faults)
}

// The exit status of a run that ended so.
fn status_of<E: Write>(ended: Result<u8, ScriptFault>, faults: &mut E) -> u8 {
    match ended {
        Ok(status) => status,
        Err(fault) => report(fault, faults),
    }
}

/// Writes a fault's text. Returns the exit status.
pub fn report<E: Write>(fault: ScriptFault, faults: &mut E) -> u8 {
    let _ = writeln!(faults, "{fault}");
    let _ = faults.flush();
    fault.status()
}

// Runs the script over a fresh store.
fn run<S: Storage<String> + Drop, R: Read, W: Write>(
    alloc: Global,
    store: S,
    input: &mut R,
    output: &mut W,
) -> Result<u8, ScriptFault>
    requires { IsFresh (S.state store) }
{
    let mut lines = Lines::new(alloc, input)?;
    let mut replies = BufWriter::new(alloc, output).map_err(|_| ScriptFault::Memory)?;
    let mut script = Script::new(alloc, store);
    let answered = answer_lines(&mut script, &mut lines, &mut replies);
    let _store = script.finish();
    end_replies(answered, replies)?;
    Ok(0)
}

// Runs a drawn list over two stores, or finds the fault in the words.
fn run_fuzz<S: Storage<String> + Drop, R: Storage<String> + Drop, W: Write>(
    alloc: Global,
    words: &[String],
    one: S,
    other: R,
    output: &mut W,
) -> Result<u8, ScriptFault>
    requires one { IsFresh (S.state one) }
    requires other { IsFresh (R.state other) }
{
    let (seed, count) = seed_and_count(words).ok_or(ScriptFault::Usage)?;
    let verdict = compare_drawn(alloc, seed, count, one, other);
    let verdict = verdict.map_err(|_| ScriptFault::Memory)?;
    writeln!(output, "{verdict}").map_err(|_| ScriptFault::Output)?;
    output.flush().map_err(|_| ScriptFault::Output)?;
    match verdict {
        Verdict::Same => Ok(0),
        Verdict::Differs(_) => Ok(4),
        Verdict::Refused(_) => Err(ScriptFault::Memory),
    }
}

// The numbers of the words `fuzz SEED COUNT`.
fn seed_and_count(words: &[String]) -> Option<(u64, usize)> {
    let [word, seed, count] = words else {
        return None;
    };
    if word.as_str() != "fuzz" {
        return None;
    }
    let seed = decimal(seed)?;
    let count = decimal(count)? as usize;
    (count <= MOST_CALLS).then_some((seed, count))
}

// A decimal number without sign or leading zeros.
fn decimal(word: &str) -> Option<u64> {
    let is_plain = word.bytes().all(|byte| byte.is_ascii_digit());
    let is_padded = word.len() > 1 && word.starts_with('0');
    if !is_plain || is_padded {
        return None;
    }
    word.parse::<u64>().ok()
}

// Runs the lines up to the input's end or the first fault.
fn answer_lines<S: Storage<String>, R: Read + Drop, W: Write>(
    script: &mut Script<S>,
    lines: &mut Lines<R>,
    replies: &mut W,
) -> Result<(), ScriptFault> {
    for number in 1..=MOST_LINES {
        let Some(line) = lines.next_line()? else {
            return Ok(());
        };
        script.answer(number, line, replies)?;
        // A caller that writes a line at a time gets its reply before the next line is read.
        if lines.is_drained() {
            replies.flush().map_err(|_| ScriptFault::Output)?;
        }
    }
    if lines.has_more()? {
        return Err(ScriptFault::TooManyLines);
    }
    Ok(())
}

// Writes the replies that are still buffered. After a write that failed nothing more is written.
fn end_replies<W: Write + Drop>(
    answered: Result<(), ScriptFault>,
    mut replies: BufWriter<W>,
) -> Result<(), ScriptFault> {
    let written = match answered {
        Err(ScriptFault::Output) => Err(ScriptFault::Output),
        _ => replies.flush().map_err(|_| ScriptFault::Output),
    };
    let _unwritten = replies.into_parts();
    written.and(answered)
}
