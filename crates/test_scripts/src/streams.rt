//! Whole runs of the program, over streams in memory and streams that fail.

use crate::expected::assert_same;
use crate::runs::{assert_ended, run, run_words, text, texts};
use boxes_script::boxes_run;
use std::alloc::Global;
use std::io;
use std::io::{Error, ErrorKind, Read, Write, repeat};
use std::process::Abort;

/// Gives a line a read, and fails once no read is left.
#[derive(Drop)]
struct LineByLine<'a> {
    script: &'a [u8],
    reads_left: usize,
}

impl Read for LineByLine<'_> {
    fn read(&mut self, buf: &mut [u8]) -> io::Result<usize> {
        if self.reads_left == 0 {
            return Err(Error::from(ErrorKind::ConnectionReset));
        }
        self.reads_left -= 1;
        let end = self.script.iter().position(|byte| *byte == b'\n');
        let line = end.map_or(self.script.len(), |end| end + 1);
        let most = line.min(buf.len());
        self.script.read(&mut buf[..most])
    }
}

/// Gives a byte a read, and is interrupted before each.
#[derive(Drop)]
struct Trickle<'a> {
    script: &'a [u8],
    is_interrupted: bool,
}

impl Read for Trickle<'_> {
    fn read(&mut self, buf: &mut [u8]) -> io::Result<usize> {
        self.is_interrupted = !self.is_interrupted;
        if self.is_interrupted {
            return Err(Error::from(ErrorKind::Interrupted));
        }
        let most = buf.len().min(1);
        self.script.read(&mut buf[..most])
    }
}

/// Takes so many bytes, and fails from then on. It may fail to flush, too.
#[derive(Drop)]
struct Narrow {
    taken: Vec<u8>,
    room: usize,
    can_flush: bool,
}

impl Narrow {
    fn new(alloc: Global, room: usize, can_flush: bool) -> Narrow {
        Narrow {
            taken: Vec::new(alloc),
            room,
            can_flush,
        }
    }
}

impl Write for Narrow {
    fn write(&mut self, buf: &[u8]) -> io::Result<usize> {
        let most = buf.len().min(self.room);
        if most == 0 {
            return Err(Error::from(ErrorKind::BrokenPipe));
        }
        self.taken.extend_from_slice(&buf[..most])?;
        self.room -= most;
        Ok(most)
    }

    fn flush(&mut self) -> io::Result<()> {
        if self.can_flush {
            Ok(())
        } else {
            Err(Error::from(ErrorKind::StorageFull))
        }
    }
}

const SIX_LINES: &str = "leak hello world\ntry_read 1\nshow 2\nrelease 2\nend 1\ntry_read 1\n";

const SIX_REPLIES: &str =
    "box 0@1\nreader\nvalue hello world\nok\nok\nerror: Failed to borrow because the value was dropped.created_at: script:1:1\n";

#[test]
fn no_input_and_no_fault(rt: HostRuntime) {
    assert_ended(&rt, &run(rt.alloc(), &mut "".as_bytes()), 0, "", "");
}

#[test]
fn any_argument_is_a_fault(rt: HostRuntime) {
    let usage = "boxes: usage: boxes or boxes fuzz SEED COUNT\n";
    for word in ["", "script", "fuzz"] {
        let words = texts(&rt, rt.alloc(), &[word]);
        let outcome = run_words(rt.alloc(), &words, &mut SIX_LINES.as_bytes());
        assert_ended(&rt, &outcome, 2, "", usage);
    }
}

// Lines of no form.
const BAD_LINES: [&str; 32] = [
    "",
    " ",
    "leak",
    " leak a",
    "Leak a",
    "leak\ta",
    "try_read",
    "try_read ",
    "try_read 0",
    "try_read 01",
    "try_read +1",
    "try_read -1",
    "try_read  1",
    "try_read 1 ",
    "try_read 1\r",
    "try_read 1x",
    "try_read 1 1",
    "try_read 1000001",
    "try_read 4294967297",
    "try_write",
    "try_write ",
    "try_write 01",
    "replace",
    "replace ",
    "replace 1",
    "replace 01 b",
    "replace  1 b",
    "replace b",
    "show",
    "release",
    "end one",
    "end 1.",
];

// Lines that name what isn't there.
const LINES_OF_NOTHING: [&str; 8] = [
    "try_read 2",
    "try_write 2",
    "replace 1 b",
    "replace 2 b",
    "show 1",
    "release 1",
    "end 1000000",
    "end 2",
];

#[test]
fn forms_of_lines(rt: HostRuntime) {
    for line in BAD_LINES {
        assert_line(&rt, rt.alloc(), line, "bad line\n");
    }
    for line in LINES_OF_NOTHING {
        assert_line(&rt, rt.alloc(), line, "no such\n");
    }
}

/// Asserts the reply to a line after a box.
fn assert_line(rt: &impl Abort, alloc: Global, line: &str, reply: &str) {
    let mut first: &[u8] = b"leak a\n";
    let mut input = first
        .by_ref()
        .chain(line.as_bytes())
        .chain(b"\n".as_slice());
    let outcome = run(alloc, &mut input);
    let replies = text(&outcome.output);
    assert_eq!(rt;
        replies.strip_prefix("box 0@1\n"),
        Some(reply),
        "at {line:?}"
    );
    assert_same(rt, &outcome.status, &0);
}

#[test]
fn bytes_are_content(rt: HostRuntime) {
    let mut script: &[u8] =
        b"leak a\r\nleak \0b\n\nleak \xff\n\xc3\nleak \nleak  \xc3\xa4\ntry_read 1\ntry_read 2\ntry_read 6\ntry_read 7\nshow 8\nshow 9\nshow 10\nshow 11\n\nleak last";
    let replies =
        "box 0@1\nbox 1@1\nbad line\nbad line\nbad line\nbox 2@1\nbox 3@1\nreader\nreader\nreader\nreader\nvalue a\r\nvalue \0b\nvalue \nvalue  \u{e4}\nbad line\nbox 4@1\n";
    assert_ended(&rt, &run(rt.alloc(), &mut script), 0, replies, "");
}

#[test]
fn a_byte_a_read(rt: HostRuntime) {
    let mut input = Trickle {
        script: b"leak \xc3\xa4\ntry_read 1\nshow 2",
        is_interrupted: false,
    };
    let replies = "box 0@1\nreader\nvalue \u{e4}\n";
    assert_ended(&rt, &run(rt.alloc(), &mut input), 0, replies, "");
}

/// The beginning of a text that has so many lines.
fn first_lines(text: &str, count: usize) -> &str {
    let mut rest = text;
    for _ in 0..count {
        rest = rest.split_once('\n').map_or("", |(_, after)| after);
    }
    text.strip_suffix(rest).unwrap_or("")
}

#[test]
fn a_read_that_fails(rt: HostRuntime) {
    for reads_left in 0..=6 {
        let mut input = LineByLine {
            script: SIX_LINES.as_bytes(),
            reads_left,
        };
        let outcome = run(rt.alloc(), &mut input);
        let replies = first_lines(SIX_REPLIES, reads_left);
        assert_ended(&rt, &outcome, 1, replies, "boxes: input failed\n");
    }
}

#[test]
fn the_rest_of_a_line_that_fails(rt: HostRuntime) {
    let mut input = LineByLine {
        script: b"leak a\nleak b",
        reads_left: 2,
    };
    let outcome = run(rt.alloc(), &mut input);
    assert_ended(&rt, &outcome, 1, "box 0@1\n", "boxes: input failed\n");
}

#[test]
fn the_end_is_read_once(rt: HostRuntime) {
    let mut input = LineByLine {
        script: b"leek\nleak a",
        reads_left: 3,
    };
    let outcome = run(rt.alloc(), &mut input);
    assert_ended(&rt, &outcome, 0, "bad line\nbox 0@1\n", "");
}

/// Runs the program over an output that fails, which it tells.
fn assert_output_fails<R: Read>(
    rt: &impl Abort,
    alloc: Global,
    input: &mut R,
    output: &mut Narrow,
) {
    let mut faults = Vec::new(alloc);
    let status = boxes_run(alloc, &[], input, output, &mut faults);
    assert_same(rt, &status, &1);
    assert_same(rt, &text(&faults), &"boxes: output failed\n");
}

#[test]
fn a_write_that_fails(rt: HostRuntime) {
    let whole = SIX_REPLIES.as_bytes();
    for room in 0..whole.len() {
        let mut output = Narrow::new(rt.alloc(), room, true);
        assert_output_fails(&rt, rt.alloc(), &mut SIX_LINES.as_bytes(), &mut output);
        assert!(rt; whole.starts_with(output.taken.as_slice()), "at {room}");
    }
}

#[test]
fn a_flush_that_fails(rt: HostRuntime) {
    for script in [SIX_LINES, ""] {
        let mut output = Narrow::new(rt.alloc(), 1000, false);
        assert_output_fails(&rt, rt.alloc(), &mut script.as_bytes(), &mut output);
    }
}

#[test]
fn the_earlier_fault_is_told(rt: HostRuntime) {
    let mut input = LineByLine {
        script: SIX_LINES.as_bytes(),
        reads_left: 2,
    };
    let mut output = Narrow::new(rt.alloc(), 0, true);
    assert_output_fails(&rt, rt.alloc(), &mut input, &mut output);
}

/// Asserts with which status a run ends whose fault can't be told.
fn assert_untold<R: Read>(
    rt: &impl Abort,
    alloc: Global,
    words: &[String],
    input: &mut R,
    status: u8,
) {
    let mut faults = Narrow::new(alloc, 0, false);
    let mut output = Vec::new(alloc);
    let found = boxes_run(alloc, words, input, &mut output, &mut faults);
    assert_same(rt, &found, &status);
}

#[test]
fn faults_that_cannot_be_told(rt: HostRuntime) {
    let words = texts(&rt, rt.alloc(), &["fuzz"]);
    assert_untold(&rt, rt.alloc(), &words, &mut SIX_LINES.as_bytes(), 2);
    let mut broken = LineByLine {
        script: b"",
        reads_left: 0,
    };
    assert_untold(&rt, rt.alloc(), &[], &mut broken, 1);
}

#[test]
fn a_million_lines(rt: HostRuntime) {
    let outcome = run(rt.alloc(), &mut repeat(b'\n').take(1_000_000));
    assert_same(&rt, &outcome.status, &0);
    assert_same(&rt, &outcome.output.len(), &9_000_000);
    assert_same(&rt, &outcome.faults.len(), &0);
}

#[test]
fn a_line_past_the_limit(rt: HostRuntime) {
    let broken = LineByLine {
        script: b"x",
        reads_left: 1,
    };
    let mut input = repeat(b'\n').take(1_000_000).chain(broken);
    let outcome = run(rt.alloc(), &mut input);
    assert_same(&rt, &outcome.status, &2);
    assert_same(&rt, &text(&outcome.faults), &"boxes: too many lines\n");
    assert_same(&rt, &outcome.output.len(), &9_000_000);
}

#[test]
fn a_very_long_line(rt: HostRuntime) {
    let mut input = b"leak "
        .as_slice()
        .chain(repeat(b'y').take(100_000))
        .chain(b"\ntry_read 1\nshow 2\n".as_slice())
        .chain(repeat(b'z').take(100_000));
    let outcome = run(rt.alloc(), &mut input);
    let replies = text(&outcome.output);
    let value = replies.strip_prefix("box 0@1\nreader\nvalue ");
    let value = value.and_then(|rest| rest.strip_suffix("\nbad line\n"));
    assert!(rt; value.is_some_and(|y| y.len() == 100_000));
    assert!(rt; value.is_some_and(|y| y.bytes().all(|byte| byte == b'y')));
    assert_same(&rt, &outcome.status, &0);
}
