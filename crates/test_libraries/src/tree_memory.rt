//! Trees where memory runs out. The test passes whichever allocation fails: what fails to allocate
//! changes nothing, and is tried again.

use crate::expected::{assert_same, given};
use crate::fresh::{Scene, play};
use crate::tree_acts::{made_at, tree_over};
use generational_box::{Storage, StoreError};
use scene_tree::{Node, SceneTree, Spot, TreeError};
use std::alloc::Global;
use std::process::Abort;

/// How many children are made: more than the room that is found at once.
const MANY: u64 = 12;

/// The error of a call that fails to allocate.
const LACKING: TreeError = TreeError::Store(StoreError::OutOfMemory);

/// Makes a root. One that fails to allocate leaves the tree unchanged.
pub(crate) fn root_or_again<S: Storage<u64>>(
    rt: &impl Abort,
    tree: &mut SceneTree<u64, S>,
) -> Node<u64> {
    let made = match tree.add_root(0, made_at(0)) {
        Ok(root) => Ok(root),
        Err(refusal) => {
            assert_same(rt, &refusal.value, &0);
            tree.add_root(refusal.value, made_at(0))
        }
    };
    given(rt, made)
}

/// Makes a child. One that fails to allocate leaves as many nodes as there were.
pub(crate) fn child_or_again<S: Storage<u64>>(
    rt: &impl Abort,
    tree: &mut SceneTree<u64, S>,
    parent: Node<u64>,
    value: u64,
) -> Node<u64> {
    let before = tree.len();
    let made = match tree.add_child(parent, value, made_at(1)) {
        Ok(child) => Ok(child),
        Err(refusal) => {
            assert_same(rt, &refusal.value, &value);
            assert_same(rt, &refusal.cause, &LACKING);
            assert_same(rt, &tree.len(), &before);
            tree.add_child(parent, value, made_at(1))
        }
    };
    given(rt, made)
}

/// Makes a child at a spot. One that fails to allocate leaves as many nodes as there were.
fn child_at_or_again<S: Storage<u64>>(
    rt: &impl Abort,
    tree: &mut SceneTree<u64, S>,
    spot: Spot<u64>,
    value: u64,
) -> Node<u64> {
    let before = tree.len();
    let made = match tree.add_at(spot, value, made_at(1)) {
        Ok(child) => Ok(child),
        Err(refusal) => {
            assert_same(rt, &refusal.cause, &LACKING);
            assert_same(rt, &tree.len(), &before);
            tree.add_at(spot, refusal.value, made_at(1))
        }
    };
    given(rt, made)
}

/// How many children a node has.
fn count_of<S: Storage<u64>>(rt: &impl Abort, tree: &SceneTree<u64, S>, node: Node<u64>) -> usize {
    let mut count: usize = 0;
    for _ in tree.children(node).expect(rt, "a live node") {
        count = count.wrapping_add(1);
    }
    count
}

/// How many nodes and how many roots a tree has, counted by iterators: neither allocates.
fn counts_of<S: Storage<u64>>(tree: &SceneTree<u64, S>) -> (usize, usize) {
    let mut counts: (usize, usize) = (0, 0);
    for _ in tree.nodes() {
        counts.0 = counts.0.wrapping_add(1);
    }
    for _ in tree.roots() {
        counts.1 = counts.1.wrapping_add(1);
    }
    counts
}

/// Removes a subtree. A removal that fails to allocate leaves it, and is tried again: its list begins
/// with little room, and may fail to allocate for that too.
pub(crate) fn remove_or_again<S: Storage<u64>>(
    rt: &impl Abort,
    tree: &mut SceneTree<u64, S>,
    node: Node<u64>,
) -> Vec<Node<u64>> {
    for _ in 0..3 {
        match tree.remove_subtree(node) {
            Ok(list) => return list,
            Err(error) => {
                assert_same(rt, &error, &LACKING);
                assert!(rt; tree.is_alive(node));
            }
        }
    }
    panic!(rt; "the nodes aren't removed")
}

/// Takes a node. A call that fails to allocate leaves it, and is made again.
fn take_or_again<S: Storage<u64>>(
    rt: &impl Abort,
    tree: &mut SceneTree<u64, S>,
    node: Node<u64>,
) -> u64 {
    for _ in 0..3 {
        match tree.take(node) {
            Ok(value) => return value,
            Err(error) => {
                assert_same(rt, &error, &LACKING);
                assert!(rt; tree.is_alive(node));
            }
        }
    }
    panic!(rt; "the node isn't taken")
}

/// Makes children, moves them all below one of them, and removes that.
struct GrowAndCut;

impl Scene<u64> for GrowAndCut {
    fn play<R: Abort, S: Storage<u64> + Drop>(&self, rt: &R, alloc: Global, store: S) {
        let mut tree = tree_over(rt, alloc, store);
        let root = root_or_again(rt, &mut tree);
        let first = child_or_again(rt, &mut tree, root, 0);
        for value in 1..MANY {
            let child = child_or_again(rt, &mut tree, root, value);
            given(rt, tree.move_to(child, first));
        }
        let mut children = tree.children(root).expect(rt, "a live node");
        assert_same(rt, &children.next().map(Node::id), &Some(first.id()));
        assert!(rt; children.next().is_none());
        let list = remove_or_again(rt, &mut tree, first);
        assert_same(rt, &(list.len() as u64), &MANY);
        assert_same(rt, &count_of(rt, &tree, root), &0);
        assert_same(rt, &counts_of(&tree), &(1, 1));
    }
}

/// Makes children before one of a root's, moves them all below it, each before the others, and takes the
/// root.
struct GrowBefore;

impl Scene<u64> for GrowBefore {
    fn play<R: Abort, S: Storage<u64> + Drop>(&self, rt: &R, alloc: Global, store: S) {
        let mut tree = tree_over(rt, alloc, store);
        let root = root_or_again(rt, &mut tree);
        let last = child_or_again(rt, &mut tree, root, 0);
        for value in 1..MANY {
            let spot = Spot::Before(last);
            let child = child_at_or_again(rt, &mut tree, spot, value);
            given(rt, tree.move_at(child, Spot::FirstOf(last)));
        }
        assert_same(rt, &count_of(rt, &tree, root), &1);
        assert_same(rt, &(count_of(rt, &tree, last) as u64), &(MANY - 1));
        assert_same(rt, &counts_of(&tree), &(tree.len(), 1));
        assert_same(rt, &take_or_again(rt, &mut tree, root), &0);
        assert_same(rt, &tree.len(), &0);
    }
}

#[test]
fn trees_and_spots_that_lack_memory_stay(rt: HostRuntime) {
    play::<u64, GrowAndCut>(&rt, rt.alloc(), &GrowAndCut);
    play::<u64, GrowBefore>(&rt, rt.alloc(), &GrowBefore);
}
