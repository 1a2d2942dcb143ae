//! Handles of nodes: the ways up from them, what errors print, and maps that have them as keys.

use crate::expected::{assert_same, given};
use crate::fresh::{Scene, SceneOfTwo, play, play_two};
use crate::tree_acts::{are_nodes, made_at, node_at, stale_of, tree_over};
use crate::tree_memory::{child_or_again, root_or_again};
use example_libraries::trees::root_of;
use generational_box::{Storage, StoreError};
use scene_tree::{Node, SceneTree, Spot, Stale, TreeError};
use std::alloc::Global;
use std::collections::HashSet;
use std::process::Abort;

/// Sees the nodes above a node, and how many they are.
fn is_below<S: Storage<u64>>(
    rt: &impl Abort,
    alloc: Global,
    tree: &SceneTree<u64, S>,
    node: Node<u64>,
    above: &[Node<u64>],
    numbers: &[usize],
) {
    let mut found = Vec::new(alloc);
    for up in tree.ancestors(node).expect(rt, "a live node") {
        given(rt, found.push(up));
    }
    are_nodes(rt, above, found.as_slice(), numbers);
    assert_same(rt, &tree.depth(node), &Ok(numbers.len()));
}

/// A chain of four nodes, of which one is moved, made a root and removed.
struct WaysUp;

impl Scene<u64> for WaysUp {
    fn play<R: Abort, S: Storage<u64> + Drop>(&self, rt: &R, alloc: Global, store: S) {
        let mut tree = tree_over(rt, alloc, store);
        let root = root_or_again(rt, &mut tree);
        let first = child_or_again(rt, &mut tree, root, 1);
        let second = child_or_again(rt, &mut tree, first, 2);
        let leaf = child_or_again(rt, &mut tree, second, 3);
        let nodes = [root, first, second, leaf];
        is_below(rt, alloc, &tree, root, &nodes, &[]);
        is_below(rt, alloc, &tree, leaf, &nodes, &[2, 1, 0]);
        given(rt, tree.move_to(second, root));
        is_below(rt, alloc, &tree, leaf, &nodes, &[2, 0]);
        given(rt, tree.detach(second));
        is_below(rt, alloc, &tree, leaf, &nodes, &[2]);
        assert_same(
            rt,
            &root_of(&tree, leaf).map(|node| node.id()),
            &Ok(second.id()),
        );
        given(rt, tree.remove_subtree(second));
        assert_same(rt, &tree.ancestors(leaf).err(), &Some(stale_of(1)));
    }
}

/// Sees the rows of a node's outline: how deep each is, and which node it is.
fn reads<S: Storage<u64>>(
    rt: &impl Abort,
    tree: &SceneTree<u64, S>,
    nodes: &[Node<u64>],
    limit: usize,
    rows: &[(usize, usize)],
) {
    let mut rest = rows;
    let root = node_at(rt, nodes, 0);
    for (depth, node) in tree.outline(root, limit).expect(rt, "a live node") {
        let Some(((deep, number), others)) = rest.split_first() else {
            assert!(rt; false);
            return;
        };
        assert_same(rt, &depth, deep);
        assert_same(rt, &node.id(), &node_at(rt, nodes, *number).id());
        rest = others;
    }
    assert!(rt; rest.is_empty());
}

/// A root with two children, of which the first has two of its own, read with several limits, after a
/// move, and after a removal.
struct ReadInOrder;

impl Scene<u64> for ReadInOrder {
    fn play<R: Abort, S: Storage<u64> + Drop>(&self, rt: &R, alloc: Global, store: S) {
        let mut tree = tree_over(rt, alloc, store);
        let root = root_or_again(rt, &mut tree);
        let first = child_or_again(rt, &mut tree, root, 1);
        let second = child_or_again(rt, &mut tree, root, 2);
        let third = child_or_again(rt, &mut tree, first, 3);
        let fourth = child_or_again(rt, &mut tree, first, 4);
        let nodes = [root, first, second, third, fourth];
        reads(rt, &tree, &nodes, 0, &[]);
        reads(rt, &tree, &nodes, 3, &[(0, 0), (1, 1), (2, 3)]);
        reads(
            rt,
            &tree,
            &nodes,
            9,
            &[(0, 0), (1, 1), (2, 3), (2, 4), (1, 2)],
        );
        given(rt, tree.move_at(fourth, Spot::FirstOf(second)));
        reads(
            rt,
            &tree,
            &nodes,
            9,
            &[(0, 0), (1, 1), (2, 3), (1, 2), (2, 4)],
        );
        given(rt, tree.move_at(second, Spot::Before(third)));
        reads(
            rt,
            &tree,
            &nodes,
            9,
            &[(0, 0), (1, 1), (2, 2), (3, 4), (2, 3)],
        );
        given(rt, tree.remove_subtree(second));
        reads(rt, &tree, &nodes, 9, &[(0, 0), (1, 1), (2, 3)]);
        assert!(rt; tree.outline(fourth, 9).is_err());
    }
}

/// Sees which node was found, by its number.
fn is_found(
    rt: &impl Abort,
    nodes: &[Node<u64>],
    found: Result<Option<Node<u64>>, Stale>,
    number: Option<usize>,
) {
    let found = found.expect(rt, "a live node");
    match (found, number) {
        (Some(node), Some(number)) => assert_same(rt, &node.id(), &node_at(rt, nodes, number).id()),
        (None, None) => {}
        _ => assert!(rt; false),
    }
}

/// Sees a node's first and last child, and the siblings right before and right behind it.
fn is_beside<S: Storage<u64>>(
    rt: &impl Abort,
    tree: &SceneTree<u64, S>,
    nodes: &[Node<u64>],
    number: usize,
    wanted: (Option<usize>, Option<usize>, Option<usize>, Option<usize>),
) {
    let node = node_at(rt, nodes, number);
    let (first, last, previous, next) = wanted;
    is_found(rt, nodes, tree.first_child(node), first);
    is_found(rt, nodes, tree.last_child(node), last);
    is_found(rt, nodes, tree.previous_sibling(node), previous);
    is_found(rt, nodes, tree.next_sibling(node), next);
}

/// Sees a node's children, in order and from the last to the first.
fn has_children<S: Storage<u64>>(
    rt: &impl Abort,
    alloc: Global,
    tree: &SceneTree<u64, S>,
    nodes: &[Node<u64>],
    number: usize,
    wanted: (&[usize], &[usize]),
) {
    let node = node_at(rt, nodes, number);
    let (numbers, backwards) = wanted;
    let mut found = Vec::new(alloc);
    for child in tree.children(node).expect(rt, "a live node") {
        given(rt, found.push(child));
    }
    are_nodes(rt, nodes, found.as_slice(), numbers);
    let mut found = Vec::new(alloc);
    for child in tree.children_backwards(node).expect(rt, "a live node") {
        given(rt, found.push(child));
    }
    are_nodes(rt, nodes, found.as_slice(), backwards);
}

/// A root with three children, of which one is moved, one is removed, and one is made a root.
struct BesideEachOther;

impl Scene<u64> for BesideEachOther {
    fn play<R: Abort, S: Storage<u64> + Drop>(&self, rt: &R, alloc: Global, store: S) {
        let mut tree = tree_over(rt, alloc, store);
        let root = root_or_again(rt, &mut tree);
        let first = child_or_again(rt, &mut tree, root, 1);
        let second = child_or_again(rt, &mut tree, root, 2);
        let third = child_or_again(rt, &mut tree, root, 3);
        let nodes = [root, first, second, third];
        is_beside(rt, &tree, &nodes, 0, (Some(1), Some(3), None, None));
        is_beside(rt, &tree, &nodes, 1, (None, None, None, Some(2)));
        is_beside(rt, &tree, &nodes, 2, (None, None, Some(1), Some(3)));
        is_beside(rt, &tree, &nodes, 3, (None, None, Some(2), None));
        has_children(rt, alloc, &tree, &nodes, 0, (&[1, 2, 3], &[3, 2, 1]));
        has_children(rt, alloc, &tree, &nodes, 1, (&[], &[]));
        given(rt, tree.move_at(first, Spot::After(third)));
        is_beside(rt, &tree, &nodes, 0, (Some(2), Some(1), None, None));
        is_beside(rt, &tree, &nodes, 3, (None, None, Some(2), Some(1)));
        has_children(rt, alloc, &tree, &nodes, 0, (&[2, 3, 1], &[1, 3, 2]));
        given(rt, tree.remove_subtree(third));
        is_beside(rt, &tree, &nodes, 2, (None, None, None, Some(1)));
        has_children(rt, alloc, &tree, &nodes, 0, (&[2, 1], &[1, 2]));
        given(rt, tree.detach(first));
        is_beside(rt, &tree, &nodes, 1, (None, None, None, None));
        is_beside(rt, &tree, &nodes, 0, (Some(2), Some(2), None, None));
    }
}

/// Sees what an error prints.
fn prints(rt: &impl Abort, alloc: Global, error: TreeError, text: &str) {
    let printed = format!(in alloc; "{error}").expect(rt, "memory");
    assert_same(rt, &printed.as_str(), &text);
}

#[test]
fn errors_of_trees_print_their_causes(rt: HostRuntime) {
    let alloc = rt.alloc();
    let rows = [
        (
            TreeError::Stale(stale_of(7)),
            "the value made at t.rs:7:1 is gone",
        ),
        (TreeError::Stale(FOREIGN), "the handle is of another table"),
        (
            TreeError::NoParent(Some(made_at(7))),
            "the node made at t.rs:7:1 has no parent",
        ),
        (TreeError::NoParent(None), "the node has no parent"),
        (TreeError::Cycle, "the node would be below itself"),
        (TreeError::Store(StoreError::OutOfMemory), "out of memory"),
    ];
    for (error, text) in rows {
        prints(&rt, alloc, error, text);
    }
}

/// Nodes as keys: a handle that is copied is one key, a later node of a slot another.
struct Keys;

impl Scene<u64> for Keys {
    fn play<R: Abort, S: Storage<u64> + Drop>(&self, rt: &R, alloc: Global, store: S) {
        let mut tree = tree_over(rt, alloc, store);
        let first = root_or_again(rt, &mut tree);
        let copied = first;
        let mut keys = HashSet::new(alloc);
        assert_same(rt, &keys.insert(first).ok(), &Some(true));
        assert_same(rt, &keys.insert(copied).ok(), &Some(false));
        given(rt, tree.remove_subtree(first));
        let next = root_or_again(rt, &mut tree);
        assert!(rt; !keys.contains(&next));
        assert_same(rt, &keys.insert(next).ok(), &Some(true));
        assert!(rt; keys.contains(&first));
        assert!(rt; first != next);
    }
}

/// How a call on another tree's node fails.
const FOREIGN: Stale = Stale { created_at: None };

/// Sees that each call that reads fails on a node.
fn is_unknown<S: Storage<u64>>(
    rt: &impl Abort,
    tree: &SceneTree<u64, S>,
    node: Node<u64>,
    stale: Stale,
) {
    assert_same(rt, &tree.created_at(node), &stale.created_at);
    assert!(rt; !tree.is_alive(node));
    assert_same(rt, &tree.get(node).err(), &Some(stale));
    assert_same(rt, &tree.parent(node).err(), &Some(stale));
    assert_same(rt, &tree.children(node).err(), &Some(stale));
    assert_same(rt, &tree.children_backwards(node).err(), &Some(stale));
    assert_same(rt, &tree.ancestors(node).err(), &Some(stale));
    assert_same(rt, &tree.outline(node, 9).err(), &Some(stale));
    assert_same(rt, &tree.depth(node), &Err(stale));
    assert_same(rt, &tree.first_child(node).err(), &Some(stale));
    assert_same(rt, &tree.last_child(node).err(), &Some(stale));
    assert_same(rt, &tree.next_sibling(node).err(), &Some(stale));
    assert_same(rt, &tree.previous_sibling(node).err(), &Some(stale));
    let error = TreeError::Stale(stale);
    assert_same(rt, &tree.subtree(node).err(), &Some(error));
}

/// Sees that each call that changes the tree fails on a node, beside one that is live.
fn is_refused<S: Storage<u64>>(
    rt: &impl Abort,
    tree: &mut SceneTree<u64, S>,
    live: Node<u64>,
    node: Node<u64>,
    stale: Stale,
) {
    let error = TreeError::Stale(stale);
    let set = tree.set(node, 8).map_err(|refusal| refusal.cause);
    assert_same(rt, &set, &Err(stale));
    let updated = tree.update(node, |value: &mut u64| *value = 8);
    assert_same(rt, &updated, &Err(stale));
    assert_same(rt, &tree.detach(node), &Err(stale));
    assert_same(rt, &tree.move_to(node, live), &Err(error));
    assert_same(rt, &tree.move_to(live, node), &Err(error));
    assert_same(rt, &tree.move_at(live, Spot::Before(node)), &Err(error));
    let added = tree.add_child(node, 8, made_at(8)).err();
    assert_same(rt, &added.map(|refusal| refusal.cause), &Some(error));
    let beside = tree.add_at(Spot::After(node), 8, made_at(8)).err();
    assert_same(rt, &beside.map(|refusal| refusal.cause), &Some(error));
    assert_same(rt, &tree.remove_subtree(node).err(), &Some(error));
    assert_same(rt, &tree.take(node), &Err(error));
    assert_same(rt, &tree.len(), &1);
}

/// A node that is gone, whose slot another has, and one of another tree.
struct GoneAndForeign;

impl SceneOfTwo<u64, u64> for GoneAndForeign {
    fn play<R: Abort, S: Storage<u64> + Drop, P: Storage<u64> + Drop>(
        &self,
        rt: &R,
        alloc: Global,
        store: S,
        others: P,
    ) {
        let mut tree = tree_over(rt, alloc, store);
        let mut other = tree_over(rt, alloc, others);
        let gone = root_or_again(rt, &mut tree);
        given(rt, tree.remove_subtree(gone));
        let live = root_or_again(rt, &mut tree);
        let foreign = root_or_again(rt, &mut other);
        is_unknown(rt, &tree, gone, stale_of(0));
        is_refused(rt, &mut tree, live, gone, stale_of(0));
        is_unknown(rt, &tree, foreign, FOREIGN);
        is_refused(rt, &mut tree, live, foreign, FOREIGN);
        assert_same(rt, &other.created_at(foreign), &Some(made_at(0)));
    }
}

#[test]
fn gone_and_foreign_nodes_are_refused_by_each_call(rt: HostRuntime) {
    play_two::<u64, u64, GoneAndForeign>(&rt, rt.alloc(), &GoneAndForeign);
}

#[test]
fn ways_up_outlines_and_keys(rt: HostRuntime) {
    play::<u64, WaysUp>(&rt, rt.alloc(), &WaysUp);
    play::<u64, ReadInOrder>(&rt, rt.alloc(), &ReadInOrder);
    play::<u64, BesideEachOther>(&rt, rt.alloc(), &BesideEachOther);
    play::<u64, Keys>(&rt, rt.alloc(), &Keys);
}
