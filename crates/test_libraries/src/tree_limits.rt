//! Trees of values that are dropped, trees whose store has given all its tickets, and callers of trees.

use crate::counted::{Counted, another, assert_count, let_go, new_counted};
use crate::expected::{assert_same, given};
use crate::fresh::{Scene, play, play_at_ticket};
use crate::tree_acts::{made_at, stale_of, tree_over};
use example_libraries::trees::{greatest_root, greatest_value, moved_round, taken_out, told_after};
use generational_box::Storage;
use scene_tree::{Node, SceneTree, TreeError};
use std::alloc::Global;
use std::process::Abort;

/// A root with a value.
fn root<T: Drop, S: Storage<T>>(rt: &impl Abort, tree: &mut SceneTree<T, S>, value: T) -> Node<T> {
    given(rt, tree.add_root(value, made_at(0)))
}

/// A child with a value.
fn child<T: Drop, S: Storage<T>>(
    rt: &impl Abort,
    tree: &mut SceneTree<T, S>,
    parent: Node<T>,
    value: T,
) -> Node<T> {
    given(rt, tree.add_child(parent, value, made_at(1)))
}

/// Removes a node with all below it.
fn remove<S: Storage<Counted>>(
    rt: &impl Abort,
    tree: &mut SceneTree<Counted, S>,
    node: Node<Counted>,
) {
    given(rt, tree.remove_subtree(node));
}

/// Sets a node's value, which drops the old value.
fn set<S: Storage<Counted>>(
    rt: &impl Abort,
    tree: &mut SceneTree<Counted, S>,
    node: Node<Counted>,
    value: Counted,
) {
    given(rt, tree.set(node, value));
}

/// A root that is taken with its value: those of the nodes below go at once.
struct AValueComesBack;

impl Scene<Counted> for AValueComesBack {
    fn play<R: Abort, S: Storage<Counted> + Drop>(&self, rt: &R, alloc: Global, store: S) {
        let value = new_counted(rt, alloc);
        let others = new_counted(rt, alloc);
        let mut tree = tree_over(rt, alloc, store);
        let top = root(rt, &mut tree, another(rt, &value));
        let below = child(rt, &mut tree, top, another(rt, &others));
        child(rt, &mut tree, below, another(rt, &others));
        let taken = tree.take(top).expect(rt, "a value");
        assert_count(rt, &value, 2);
        assert_count(rt, &others, 1);
        let_go(taken);
        assert_count(rt, &value, 1);
        assert!(rt; tree.take(top).is_err());
        assert_same(rt, &tree.len(), &0);
    }
}

/// Values of a root and its children, which a removal drops.
struct ValuesGo;

impl Scene<Counted> for ValuesGo {
    fn play<R: Abort, S: Storage<Counted> + Drop>(&self, rt: &R, alloc: Global, store: S) {
        let value = new_counted(rt, alloc);
        let mut tree = tree_over(rt, alloc, store);
        let top = root(rt, &mut tree, another(rt, &value));
        let below = child(rt, &mut tree, top, another(rt, &value));
        child(rt, &mut tree, below, another(rt, &value));
        child(rt, &mut tree, top, another(rt, &value));
        assert_count(rt, &value, 5);
        set(rt, &mut tree, top, another(rt, &value));
        assert_count(rt, &value, 5);
        remove(rt, &mut tree, below);
        assert_count(rt, &value, 3);
        remove(rt, &mut tree, top);
        assert_count(rt, &value, 1);
    }
}

#[test]
fn values_of_nodes_are_let_go_once(rt: HostRuntime) {
    play::<Counted, AValueComesBack>(&rt, rt.alloc(), &AValueComesBack);
    play::<Counted, ValuesGo>(&rt, rt.alloc(), &ValuesGo);
}

/// A node that goes, and one that comes.
fn stale_is_told<S: Storage<u64>>(rt: &impl Abort, tree: &mut SceneTree<u64, S>) {
    let first = match tree.add_root(0, made_at(3)) {
        Ok(node) => node,
        Err(_lacking) => rt.abort(),
    };
    let told = Err(TreeError::Stale(stale_of(3)));
    assert_same(rt, &told_after(tree, first, 4, made_at(4)), &told);
}

/// Two nodes, each of which is to be below the other.
fn no_cycle_is_made<S: Storage<u64>>(rt: &impl Abort, tree: &mut SceneTree<u64, S>) {
    let first = root(rt, tree, 1);
    let second = root(rt, tree, 2);
    let moved = moved_round(tree, first, second);
    assert_same(rt, &moved, &Err(TreeError::Cycle));
    assert_same(rt, &taken_out(tree, second), &Some(2));
    assert_same(rt, &taken_out(tree, second), &None);
}

/// A root whose child shows more than any root.
fn all_are_met<S: Storage<u64>>(rt: &impl Abort, tree: &mut SceneTree<u64, S>) {
    let top = root(rt, tree, 5);
    given(rt, tree.add_child(top, 9, made_at(5)));
    assert_same(rt, &greatest_value(tree), &9);
    assert_same(rt, &greatest_root(tree), &5);
}

/// All of them, in one tree.
struct CallersAreTold;

impl Scene<u64> for CallersAreTold {
    fn play<R: Abort, S: Storage<u64> + Drop>(&self, rt: &R, alloc: Global, store: S) {
        let mut tree = tree_over(rt, alloc, store);
        stale_is_told(rt, &mut tree);
        no_cycle_is_made(rt, &mut tree);
        all_are_met(rt, &mut tree);
    }
}

/// A node that is looked at, set and removed, if the tickets are used up.
struct ANodeGoes;

impl Scene<u64> for ANodeGoes {
    fn play<R: Abort, S: Storage<u64> + Drop>(&self, rt: &R, alloc: Global, store: S) {
        let mut tree = tree_over(rt, alloc, store);
        let node = root(rt, &mut tree, 0);
        given(rt, tree.set(node, 5));
        assert_same(rt, &tree.get(node).copied().ok(), &Some(5));
        given(rt, tree.remove_subtree(node));
    }
}

#[test]
fn callers_of_trees_are_told_and_take_no_ticket(rt: HostRuntime) {
    play::<u64, CallersAreTold>(&rt, rt.alloc(), &CallersAreTold);
    play_at_ticket::<u64, ANodeGoes>(&rt, rt.alloc(), u64::MAX, &ANodeGoes);
}
