//! Effects: what a flush tells.

use crate::graph_lines::Answer::{Gone, NoValue, Value};
use crate::graph_lines::Line::{
    Chain, End, Memo, Set, SetRule, Shows, Source, Tells, Unwatch, Watch, WatchFor,
};
use crate::graph_lines::{Lines, take_whole};
use crate::graph_plain::Plain::{Add, Blank, Odd, Same};

#[test]
fn a_flush_tells_what_has_changed_once(rt: HostRuntime) {
    let lines = Lines(&[
        Source(3),
        Source(10),
        Memo(Odd(0)),
        Memo(Add(2, 1)),
        Watch(2),
        Watch(3),
        Tells(&[(2, Value(1)), (3, Value(11))]),
        Tells(&[]),
        // what is set, and leaves the values
        Set(0, 5),
        Tells(&[]),
        // several sets, and one value that is the old one in the end
        Set(0, 4),
        Set(1, 12),
        Tells(&[(2, Value(0)), (3, Value(12))]),
        Set(0, 7),
        Shows(3, 13, 2),
        Set(0, 8),
        Tells(&[]),
        // one that is watched later is reported alone
        Watch(1),
        Tells(&[(1, Value(12))]),
        Unwatch(3),
        Set(1, 1),
        Tells(&[(1, Value(1))]),
    ]);
    take_whole(&rt, rt.alloc(), &lines);
}

#[test]
fn a_node_that_means_nothing_is_told_once(rt: HostRuntime) {
    let lines = Lines(&[
        Source(3),
        Memo(Same(0)),
        Watch(1),
        Tells(&[(1, Value(3))]),
        // it means nothing, and for another reason still
        SetRule(0, Blank),
        Tells(&[(1, NoValue(0))]),
        SetRule(0, Same(0)),
        Tells(&[]),
        // the value that it had before
        Source(3),
        SetRule(0, Same(2)),
        Tells(&[(1, Value(3))]),
        // it ends, and another node takes its slot
        End(1),
        Tells(&[(1, Gone(1))]),
        Source(9),
        Shows(3, 9, 0),
        Tells(&[]),
    ]);
    take_whole(&rt, rt.alloc(), &lines);
}

#[test]
fn a_node_has_one_effect_and_what_has_ended_none(rt: HostRuntime) {
    let lines = Lines(&[
        Source(3),
        Memo(Same(0)),
        Watch(1),
        Tells(&[(1, Value(3))]),
        // watched again, it is reported again
        WatchFor(1, 1),
        Tells(&[(1, Value(3))]),
        Tells(&[]),
        // its removal is reported once, though it was reported before that it means nothing
        SetRule(1, Blank),
        Tells(&[(1, NoValue(1))]),
        End(1),
        Tells(&[(1, Gone(1))]),
        Tells(&[]),
        // the effect of a node that takes a slot replaces the one that wasn't reported
        Source(4),
        Watch(2),
        End(2),
        Source(5),
        WatchFor(3, 2),
        Tells(&[(3, Value(5))]),
    ]);
    take_whole(&rt, rt.alloc(), &lines);
}

#[test]
fn effects_of_many_slots_are_told_in_their_order(rt: HostRuntime) {
    let lines = Lines(&[
        Source(1),
        Source(0),
        Chain(0, 1, 200),
        Source(7),
        Watch(200),
        Watch(2),
        Watch(65),
        Watch(202),
        Watch(0),
        Tells(&[
            (0, Value(1)),
            (2, Value(1)),
            (65, Value(1)),
            (200, Value(1)),
            (202, Value(7)),
        ]),
        Set(202, 8),
        Tells(&[(202, Value(8))]),
        Set(0, 2),
        Tells(&[
            (0, Value(2)),
            (2, Value(2)),
            (65, Value(2)),
            (200, Value(2)),
        ]),
        Unwatch(65),
        Set(1, 1),
        Tells(&[(2, Value(3)), (200, Value(201))]),
        Tells(&[]),
    ]);
    take_whole(&rt, rt.alloc(), &lines);
}
