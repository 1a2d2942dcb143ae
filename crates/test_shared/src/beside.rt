//! Several workers of one store, in threads.

use crate::stages::plays;
use std::test::*;
use test_shared_workers::Scenario;

#[test]
fn a_crowd_of_workers(rt: HostRuntime) {
    plays(&rt, rt.alloc(), 8, Scenario::Crowd);
}

#[test]
fn two_readers(rt: HostRuntime) {
    plays(&rt, rt.alloc(), 2, Scenario::ReadBeside);
}

#[test]
fn a_reader_waits_for_a_writer(rt: HostRuntime) {
    plays(&rt, rt.alloc(), 2, Scenario::WriteBeside);
}
