//! The calls of one worker on a new store, and their results.

use crate::stages::plays;
use std::test::*;
use test_shared_workers::Scenario;

#[test]
fn an_owners_box_ends_with_the_last_owner(rt: HostRuntime) {
    plays(&rt, rt.alloc(), 1, Scenario::OwnersEnd);
}

#[test]
fn a_reference_is_pointed_elsewhere(rt: HostRuntime) {
    plays(&rt, rt.alloc(), 1, Scenario::ReferencesTurn);
}

#[test]
fn a_value_of_an_owner_is_read(rt: HostRuntime) {
    plays(&rt, rt.alloc(), 1, Scenario::ValueIsRead);
}

#[test]
fn a_value_outlives_an_owner_that_leaks(rt: HostRuntime) {
    plays(&rt, rt.alloc(), 1, Scenario::OwnerLeaks);
}

#[test]
fn a_value_ends_with_its_owner(rt: HostRuntime) {
    plays(&rt, rt.alloc(), 1, Scenario::ValueEnds);
}

#[test]
fn a_slot_is_used_again(rt: HostRuntime) {
    plays(&rt, rt.alloc(), 1, Scenario::SlotIsReused);
}

#[test]
fn references_are_counted(rt: HostRuntime) {
    plays(&rt, rt.alloc(), 1, Scenario::ReferencesCount);
}

#[test]
fn a_reference_reads_what_it_was_pointed_to(rt: HostRuntime) {
    plays(&rt, rt.alloc(), 1, Scenario::ReferenceMoves);
}

#[test]
fn a_value_is_made_beside_a_reader(rt: HostRuntime) {
    plays(&rt, rt.alloc(), 1, Scenario::ValueIsMadeBeside);
}

#[test]
fn borrows_stand_in_bases(rt: HostRuntime) {
    plays(&rt, rt.alloc(), 1, Scenario::BasesHaveBorrows);
}

#[test]
fn a_history_is_trimmed(rt: HostRuntime) {
    plays(&rt, rt.alloc(), 1, Scenario::HistoryIsTrimmed);
}

#[test]
fn strangers_are_unknown(rt: HostRuntime) {
    plays(&rt, rt.alloc(), 1, Scenario::StrangersCome);
}

#[test]
fn a_strange_owner_is_unknown(rt: HostRuntime) {
    plays(&rt, rt.alloc(), 1, Scenario::StrangeOwnerComes);
}
