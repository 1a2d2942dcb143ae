//! What fails to allocate leaves no step. Each test passes whichever allocation fails: what fails to
//! allocate is called a second time.

use crate::stages::plays_with_little_memory;
use std::test::*;
use test_shared_workers::Scenario;

#[test]
fn for_steps_boxes_and_owners(rt: HostRuntime) {
    plays_with_little_memory(&rt, rt.alloc(), Scenario::MemoryLacks);
}

#[test]
fn for_checkpoints(rt: HostRuntime) {
    plays_with_little_memory(&rt, rt.alloc(), Scenario::HistoryIsTrimmed);
}
