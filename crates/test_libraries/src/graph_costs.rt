//! How often rules are run.

use crate::graph_lines::Answer::{AnyCycle, AnyFault};
use crate::graph_lines::Line::{
    Answers, Chain, End, Known, Ladder, Memo, Ran, Set, SetRule, Shows, Source, Unknown,
};
use crate::graph_lines::{Lines, take_whole};
use crate::graph_plain::Plain::{Add, Blank, Odd, Pick, Same};

#[test]
fn what_is_fresh_runs_no_rule(rt: HostRuntime) {
    let lines = Lines(&[
        Source(1),
        Memo(Add(0, 0)),
        Shows(1, 2, 1),
        Shows(1, 2, 0),
        // a new node leaves what is fresh
        Memo(Same(1)),
        Shows(1, 2, 0),
        Shows(2, 2, 1),
        // so does a set to the value that a source has
        Set(0, 1),
        Shows(2, 2, 0),
    ]);
    take_whole(&rt, rt.alloc(), &lines);
}

#[test]
fn a_diamond_runs_its_foot_once(rt: HostRuntime) {
    let lines = Lines(&[
        Source(1),
        Memo(Same(0)),
        Memo(Add(0, 0)),
        Memo(Add(1, 2)),
        Shows(3, 3, 3),
        Set(0, 5),
        Shows(3, 15, 3),
        Shows(1, 5, 0),
        // two sets are one batch
        Set(0, 6),
        Set(0, 7),
        Shows(3, 21, 3),
    ]);
    take_whole(&rt, rt.alloc(), &lines);
}

#[test]
fn what_reads_a_value_that_stays_is_not_run(rt: HostRuntime) {
    let lines = Lines(&[
        Source(3),
        Source(100),
        Memo(Odd(0)),
        Memo(Add(2, 1)),
        Shows(3, 101, 2),
        Set(0, 5),
        Shows(3, 101, 1),
        Set(0, 6),
        Shows(3, 100, 2),
    ]);
    take_whole(&rt, rt.alloc(), &lines);
}

#[test]
fn what_a_change_does_not_reach_stays_known(rt: HostRuntime) {
    let lines = Lines(&[
        Source(1),
        Source(10),
        Memo(Same(0)),
        Memo(Same(1)),
        Memo(Add(2, 3)),
        Memo(Same(3)),
        Shows(4, 11, 3),
        Shows(5, 10, 1),
        Set(0, 2),
        Known(3),
        Known(5),
        Unknown(2),
        Unknown(4),
        Shows(4, 12, 2),
        Known(2),
        // a rule that is put, and a node that ends, reach what reads them
        SetRule(2, Add(0, 0)),
        Known(5),
        Unknown(2),
        Unknown(4),
        Shows(4, 14, 2),
        End(3),
        Known(2),
        Unknown(4),
        Unknown(5),
        // a new node leaves what is known, also in the slot of one that has ended
        Memo(Same(2)),
        Unknown(6),
        Known(2),
        Shows(6, 4, 1),
        Set(0, 3),
        Unknown(6),
        Shows(6, 6, 2),
    ]);
    take_whole(&rt, rt.alloc(), &lines);
}

#[test]
fn what_is_read_no_longer_marks_nothing(rt: HostRuntime) {
    let lines = Lines(&[
        Source(1),
        Source(10),
        Source(20),
        Memo(Pick(0, 1, 2)),
        Shows(3, 10, 1),
        Set(2, 21),
        Known(3),
        Set(0, 0),
        Shows(3, 21, 1),
        Set(1, 11),
        Known(3),
        Set(2, 22),
        Unknown(3),
        Shows(3, 22, 1),
    ]);
    take_whole(&rt, rt.alloc(), &lines);
}

#[test]
fn what_was_not_read_runs_nothing(rt: HostRuntime) {
    let lines = Lines(&[
        Source(1),
        Source(10),
        Source(20),
        Memo(Pick(0, 1, 2)),
        Shows(3, 10, 1),
        Set(2, 21),
        Shows(3, 10, 0),
        Set(0, 0),
        Shows(3, 21, 1),
        Set(1, 11),
        Shows(3, 21, 0),
    ]);
    take_whole(&rt, rt.alloc(), &lines);
}

#[test]
fn many_paths_run_each_rule_once(rt: HostRuntime) {
    // each rung of a ladder reads both nodes of the one below it; node 79 is the last one's first
    let lines = Lines(&[
        Source(1),
        Ladder(0, 40),
        Shows(79, 1 << 40, 79),
        Set(0, 2),
        Shows(79, 2 << 40, 79),
        Ran(158),
        // a rule that is put is run, and what reads it means nothing
        SetRule(0, Odd(0)),
        Answers(79, AnyFault),
        SetRule(0, Blank),
        Answers(79, AnyFault),
    ]);
    take_whole(&rt, rt.alloc(), &lines);
}

#[test]
fn a_long_chain_is_no_recursion(rt: HostRuntime) {
    let lines = Lines(&[
        Source(1),
        Source(0),
        Chain(0, 1, 100_000),
        Shows(100_001, 1, 100_000),
        Set(0, 2),
        Shows(100_001, 2, 100_000),
        // closed to a ring, it means nothing
        SetRule(0, Same(100_001)),
        Answers(100_001, AnyCycle),
        SetRule(0, Same(1)),
        Shows(100_001, 0, 100_001),
        Ran(300_001),
    ]);
    take_whole(&rt, rt.alloc(), &lines);
}
