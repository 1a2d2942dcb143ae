//! Several calls under one lock.

ghost use Rattle.std.specs.Prelude.{◌≡◌};

use crate::judging::Judging;
use generational_sync::{Count, SyncStorage};
use std::alloc::Global;
use std::marker::Brand;
use std::process::Abort;
use std::sync::Wait;
use std::sync::ledger::Blank;
use std::test::*;
use test_shared_workers::live;

// One worker makes a box, reads it twice and ends it under one lock: six steps.
fn live_under_one_lock<A: Count, B: Count, C: Count, D: Count>(
    rt: &(impl Abort + Wait),
    alloc: Global,
    made: Blank,
    lent: Blank,
    changed: Blank,
    refused: Blank,
)
    requires made { (made.name ≡ A.name) × (made.parts ≡ A.parts) × (made.parts ≡ 1) ×
        (A.workers ≡ 1) }
    requires lent { (lent.name ≡ B.name) × (lent.parts ≡ B.parts) × (lent.parts ≡ 1) ×
        (B.workers ≡ 1) }
    requires changed { (changed.name ≡ C.name) × (changed.parts ≡ C.parts) × (changed.parts ≡ 1) ×
        (C.workers ≡ 1) }
    requires refused { (refused.name ≡ D.name) × (refused.parts ≡ D.parts) × (refused.parts ≡ 1) ×
        (D.workers ≡ 1) }
{
    let store = SyncStorage::<String, 7, A, B, C, D>::new(alloc, 1, made, lent, changed, refused);
    let (store, mut tallies) = store.expect(rt, "a store");
    let mut tally = tallies.pop().expect(rt, "a tally");
    let worker = store.together().run(rt, |state| {
        live(&Judging(rt), alloc, state, &mut tally);
        tally.worker()
    });
    assert_eq!(rt; worker, 0);
    assert!(rt; tally.is_whole());
    let (_, steps) = store.audit(rt, &mut tally).expect(rt, "an audit");
    assert_eq!(rt; steps.len(), 6);
}

#[test]
fn calls_under_one_lock(rt: HostRuntime) {
    live_under_one_lock::<Brand, Brand, Brand, Brand>(
        &rt,
        rt.alloc(),
        Blank::new(1),
        Blank::new(1),
        Blank::new(1),
        Blank::new(1),
    );
}
