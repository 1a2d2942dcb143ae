//! When allocations fail: each test passes whichever allocation fails, and those after it that ask for
//! less: what fails changes nothing, and is tried again.

use crate::graph_drawn::Calls;
use crate::graph_lines::Answer::{AnyCycle, Cycle, Gone, NoValue, Value};
use crate::graph_lines::Line::{
    Answers, End, EndScope, Memo, MemoIn, Set, SetRule, Shows, Source, SourceIn, Tells, Watch,
    WatchFor,
};
use crate::graph_lines::{Lines, take};
use crate::graph_plain::Plain::{Add, Blank, Same};

#[test]
fn what_is_refused_memory_is_as_it_was(rt: HostRuntime) {
    // more nodes than the room that is found at once
    let lines = Lines(&[
        SourceIn(1),
        MemoIn(Add(0, 0)),
        MemoIn(Add(1, 0)),
        MemoIn(Add(2, 0)),
        MemoIn(Add(3, 0)),
        MemoIn(Add(4, 0)),
        MemoIn(Add(5, 0)),
        MemoIn(Add(6, 0)),
        MemoIn(Add(7, 0)),
        MemoIn(Add(8, 0)),
        MemoIn(Add(9, 0)),
        MemoIn(Add(10, 0)),
        MemoIn(Add(11, 0)),
        Watch(12),
        Shows(12, 13, 12),
        Set(0, 2),
        Tells(&[(12, Value(26))]),
        SetRule(0, Same(12)),
        Answers(12, Cycle(12)),
        EndScope,
        Tells(&[(12, Gone(12))]),
    ]);
    take(&rt, rt.alloc(), &lines);
}

#[test]
fn a_watch_or_a_flush_that_lacks_memory_is_made_again(rt: HostRuntime) {
    let lines = Lines(&[
        Source(3),
        Memo(Same(0)),
        Watch(1),
        Watch(0),
        Tells(&[(0, Value(3)), (1, Value(3))]),
        WatchFor(1, 1),
        Set(0, 4),
        Tells(&[(0, Value(4)), (1, Value(4))]),
        // its slot is taken again before a flush
        End(1),
        Source(5),
        WatchFor(2, 1),
        Tells(&[(2, Value(5))]),
        // and left to a node that isn't watched
        End(2),
        Source(6),
        Tells(&[(2, Gone(2))]),
        Tells(&[]),
    ]);
    take(&rt, rt.alloc(), &lines);
}

#[test]
fn a_broken_cycle_shows_values_whichever_call_was_refused(rt: HostRuntime) {
    let lines = Lines(&[
        Source(1),
        Memo(Same(0)),
        Memo(Same(1)),
        Memo(Add(2, 1)),
        Memo(Same(3)),
        Watch(4),
        Tells(&[(4, Value(2))]),
        // memory runs out at some node of the cycle, or of those that need it
        SetRule(0, Same(3)),
        Answers(4, AnyCycle),
        Answers(2, AnyCycle),
        Tells(&[(4, AnyCycle)]),
        Answers(1, AnyCycle),
        // what one of them needs comes to nothing, and then the cycle is broken
        SetRule(2, Blank),
        Answers(4, NoValue(2)),
        Answers(1, NoValue(2)),
        Source(7),
        SetRule(2, Same(5)),
        Answers(4, AnyCycle),
        SetRule(0, Same(5)),
        Answers(1, Value(7)),
        Tells(&[(4, Value(14))]),
    ]);
    take(&rt, rt.alloc(), &lines);
}

#[test]
fn drawn_calls_that_lack_memory_are_made_again(rt: HostRuntime) {
    let calls = Calls { seed: 7, count: 40 };
    take(&rt, rt.alloc(), &calls);
}
