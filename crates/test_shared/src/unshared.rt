//! What lies under the lock, called without threads.

ghost use Rattle.std.specs.Prelude.{◌≡◌};

use crate::judging::Judging;
use generational_sync::{Count, SyncState};
use std::alloc::Global;
use std::marker::Brand;
use std::process::Abort;
use std::sync::ledger::Blank;
use std::test::*;
use test_shared_workers::{call_each, live, trim};

// What the worker does.
#[derive(Clone, Copy)]
enum Course {
    Live,
    Trim,
    Each,
}

// One worker calls what lies under the lock, and nothing waits.
fn one_by_one<A: Count, B: Count, C: Count, D: Count>(
    rt: &impl Abort,
    alloc: Global,
    course: Course,
    made: Blank,
    lent: Blank,
    changed: Blank,
    refused: Blank,
)
    requires made { (made.name ≡ A.name) × (made.parts ≡ A.parts) × (made.parts ≡ 1) ×
        (A.workers ≡ 1) }
    requires lent { (lent.name ≡ B.name) × (lent.parts ≡ B.parts) × (lent.parts ≡ 1) ×
        (B.workers ≡ 1) }
    requires changed { (changed.name ≡ C.name) × (changed.parts ≡ C.parts) × (changed.parts ≡ 1) ×
        (C.workers ≡ 1) }
    requires refused { (refused.name ≡ D.name) × (refused.parts ≡ D.parts) × (refused.parts ≡ 1) ×
        (D.workers ≡ 1) }
{
    let state = SyncState::<String, 7, A, B, C, D>::new(alloc, 1, made, lent, changed, refused);
    let (mut state, mut tallies) = state.expect(rt, "a store");
    let mut tally = tallies.pop().expect(rt, "a tally");
    match course {
        Course::Live => live(&Judging(rt), alloc, &mut state, &mut tally),
        Course::Trim => trim(&Judging(rt), alloc, &mut state, &mut tally),
        Course::Each => call_each(&Judging(rt), alloc, &mut state, &mut tally),
    }
    assert_eq!(rt; tally.worker(), 0);
    assert!(rt; tally.is_whole());
}

// One worker whose ledgers are named here.
fn without_threads(rt: &impl Abort, alloc: Global, course: Course) {
    one_by_one::<Brand, Brand, Brand, Brand>(
        rt,
        alloc,
        course,
        Blank::new(1),
        Blank::new(1),
        Blank::new(1),
        Blank::new(1),
    );
}

#[test]
fn calls_without_threads(rt: HostRuntime) {
    without_threads(&rt, rt.alloc(), Course::Live);
}

#[test]
fn a_checkpoint_without_threads(rt: HostRuntime) {
    without_threads(&rt, rt.alloc(), Course::Trim);
}

#[test]
fn each_call_without_threads(rt: HostRuntime) {
    without_threads(&rt, rt.alloc(), Course::Each);
}
