//! The errors of nodes that mean nothing, which comes first, and its text.

use crate::graph_lines::Answer::{AnyCycle, Cycle, Gone, NoSource, NoValue, Short, Value};
use crate::graph_lines::Line::{
    Answers, EndScope, Memo, Prints, Set, SetRule, Shows, Source, SourceIn, Unknown, Unruled, Unset,
};
use crate::graph_lines::{Lines, take_whole};
use crate::graph_plain::Plain::{Add, Blank, Pick, Same};

#[test]
fn what_has_ended_is_told_by_name(rt: HostRuntime) {
    let lines = Lines(&[
        Source(1),
        SourceIn(2),
        Memo(Add(0, 1)),
        Memo(Same(2)),
        Shows(3, 3, 2),
        // the scope ends, and another node takes the slot of the one that ended
        EndScope,
        Answers(3, Gone(1)),
        Source(70),
        Unknown(1),
        Answers(1, Gone(1)),
        Answers(3, Gone(1)),
        Unset(1, Gone(1)),
        Unruled(1, Gone(1)),
        Shows(4, 70, 0),
        SetRule(2, Add(0, 4)),
        Shows(3, 71, 2),
        Unset(2, NoSource(2)),
        Shows(3, 71, 0),
    ]);
    take_whole(&rt, rt.alloc(), &lines);
}

#[test]
fn cycles_are_told_and_can_be_broken(rt: HostRuntime) {
    let lines = Lines(&[
        Source(1),
        Source(2),
        Memo(Add(0, 1)),
        Memo(Same(2)),
        Shows(3, 3, 2),
        // a source that is made a memo closes a cycle, and one that needs it isn't on it
        SetRule(0, Same(2)),
        Answers(3, AnyCycle),
        Answers(0, AnyCycle),
        Shows(1, 2, 0),
        // a node that needs itself
        SetRule(1, Same(1)),
        Answers(1, Cycle(1)),
        // the cycle is broken
        SetRule(1, Blank),
        SetRule(0, Blank),
        Answers(3, NoValue(0)),
        Source(4),
        SetRule(0, Same(4)),
        SetRule(1, Same(4)),
        Shows(3, 8, 4),
    ]);
    take_whole(&rt, rt.alloc(), &lines);
}

#[test]
fn a_fault_lasts_until_its_cause_goes(rt: HostRuntime) {
    let lines = Lines(&[
        Source(0),
        Source(5),
        SourceIn(6),
        Memo(Pick(0, 1, 2)),
        Memo(Same(3)),
        Shows(4, 6, 2),
        EndScope,
        Answers(4, Gone(2)),
        Answers(3, Gone(2)),
        // by a set
        Set(0, 1),
        Shows(4, 5, 2),
        Set(0, 0),
        Answers(4, Gone(2)),
        // by a rule
        SetRule(3, Blank),
        Answers(4, NoValue(3)),
        SetRule(3, Same(4)),
        Answers(4, AnyCycle),
        Answers(3, AnyCycle),
        SetRule(3, Same(1)),
        Answers(4, Value(5)),
        // and not by a new node in the slot of the one that ended
        Memo(Same(2)),
        Answers(5, Gone(2)),
        Source(9),
        Answers(5, Gone(2)),
        Shows(6, 9, 0),
    ]);
    take_whole(&rt, rt.alloc(), &lines);
}

#[test]
fn faults_name_their_nodes(rt: HostRuntime) {
    let lines = Lines(&[
        Source(3),
        Memo(Same(0)),
        Prints(Gone(0), "node 0@1 is gone"),
        Prints(Cycle(1), "node 1@1 needs itself"),
        Prints(NoValue(1), "the rule of node 1@1 gives no value"),
        Prints(NoSource(1), "node 1@1 has a rule, and can't be set"),
        Prints(Short, "out of memory"),
    ]);
    take_whole(&rt, rt.alloc(), &lines);
}
