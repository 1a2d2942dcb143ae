//! Values of two kinds in one shared store.

ghost use Rattle.std.specs.Prelude.{◌≡◌};

use crate::judging::Judging;
use generational_sync::{Count, SyncStorage};
use std::alloc::Global;
use std::marker::Brand;
use std::process::Abort;
use std::sync::Wait;
use std::sync::ledger::Blank;
use std::test::*;
use test_shared_workers::{Entry, turn};

// One worker of a new store turns what it keeps.
fn turns<A: Count, B: Count, C: Count, D: Count>(
    rt: &(impl Wait + Abort),
    alloc: Global,
    made: Blank,
    lent: Blank,
    changed: Blank,
    refused: Blank,
)
    requires made { (made.name ≡ A.name) × (made.parts ≡ A.parts) × (made.parts ≡ 1) ×
        (A.workers ≡ 1) }
    requires lent { (lent.name ≡ B.name) × (lent.parts ≡ B.parts) × (lent.parts ≡ 1) ×
        (B.workers ≡ 1) }
    requires changed { (changed.name ≡ C.name) × (changed.parts ≡ C.parts) × (changed.parts ≡ 1) ×
        (C.workers ≡ 1) }
    requires refused { (refused.name ≡ D.name) × (refused.parts ≡ D.parts) × (refused.parts ≡ 1) ×
        (D.workers ≡ 1) }
{
    let store = SyncStorage::<Entry, 7, A, B, C, D>::new(alloc, 1, made, lent, changed, refused);
    let (store, mut tallies) = store.expect(rt, "a store");
    let mut tally = tallies.pop().expect(rt, "a tally");
    turn(&Judging(rt), &store, &mut tally);
}

#[test]
fn two_kinds_in_one_store(rt: HostRuntime) {
    turns::<Brand, Brand, Brand, Brand>(
        &rt,
        rt.alloc(),
        Blank::new(1),
        Blank::new(1),
        Blank::new(1),
        Blank::new(1),
    );
}
