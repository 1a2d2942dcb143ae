//! That each waiting call returns once no borrow is in its way.

use crate::stages::plays;
use std::test::*;
use test_shared_workers::{Freeing, Scenario};

#[test]
fn a_history_is_trimmed_while_a_call_waits(rt: HostRuntime) {
    plays(&rt, rt.alloc(), 2, Scenario::TrimBeside);
}

#[test]
fn a_readers_release_wakes(rt: HostRuntime) {
    plays(&rt, rt.alloc(), 3, Scenario::Wake(Freeing::ReaderReleased));
}

#[test]
fn a_writers_release_wakes(rt: HostRuntime) {
    plays(&rt, rt.alloc(), 3, Scenario::Wake(Freeing::WriterReleased));
}

#[test]
fn an_end_wakes(rt: HostRuntime) {
    plays(&rt, rt.alloc(), 3, Scenario::Wake(Freeing::BoxEnded));
}

#[test]
fn an_owners_release_wakes(rt: HostRuntime) {
    plays(&rt, rt.alloc(), 3, Scenario::Wake(Freeing::OwnerReleased));
}

#[test]
fn a_box_pointed_elsewhere_wakes(rt: HostRuntime) {
    plays(
        &rt,
        rt.alloc(),
        3,
        Scenario::Wake(Freeing::PointedElsewhere),
    );
}

#[test]
fn a_reference_wakes(rt: HostRuntime) {
    plays(&rt, rt.alloc(), 3, Scenario::Wake(Freeing::ReferenceMade));
}

#[test]
fn an_owners_reference_wakes(rt: HostRuntime) {
    plays(
        &rt,
        rt.alloc(),
        3,
        Scenario::Wake(Freeing::ReferenceInserted),
    );
}

#[test]
fn a_release_wakes_all_that_wait(rt: HostRuntime) {
    plays(&rt, rt.alloc(), 3, Scenario::WakeAll);
}

/// Each step that frees a call, under a lock of several calls: they are woken at its end.
#[test]
fn what_is_done_together_wakes(rt: HostRuntime) {
    for step in [
        Freeing::ReaderReleased,
        Freeing::WriterReleased,
        Freeing::BoxEnded,
        Freeing::OwnerReleased,
        Freeing::PointedElsewhere,
        Freeing::ReferenceMade,
        Freeing::ReferenceInserted,
    ] {
        plays(&rt, rt.alloc(), 3, Scenario::WakeTogether(step));
    }
}
