//! Trees.

use crate::laps::{Laps, mix};
use generational_box::{Location, Storage};
use scene_tree::{Node, SceneTree};
use std::alloc::Global;
use std::time::Clock;

/// Makes the operations over n nodes of a tree, and returns a sum of what was seen. None if a call wasn't
/// carried out.
pub(crate) fn run<R: Clock, S: Storage<u64>>(
    rt: &R,
    alloc: Global,
    laps: &mut Laps,
    tree: &mut SceneTree<u64, S>,
    order: &Vec<usize>,
) -> Option<u64> {
    let mut nodes = Vec::new(alloc);
    let mut seen: u64 = 0;
    laps.begin(rt)?;
    let top = add(tree, &mut nodes, order.len())?;
    laps.end(rt, "add")?;
    for _ in 0..10 {
        seen = get(tree, &nodes, order, seen)?;
    }
    laps.end(rt, "get")?;
    for _ in 0..5 {
        seen = children(tree, &nodes, order, seen)?;
    }
    laps.end(rt, "children")?;
    seen = ancestors(tree, &nodes, order, seen)?;
    laps.end(rt, "ancestors")?;
    for _ in 0..10 {
        seen = outline(tree, top, seen)?;
    }
    laps.end(rt, "outline")?;
    seen = move_to(tree, &nodes, order, seen)?;
    laps.end(rt, "move_to")?;
    seen = remove_subtree(tree, top, seen)?;
    laps.end(rt, "remove_subtree")?;
    Some(seen)
}

/// Where nodes are made.
#[inline(always)]
fn here() -> Location {
    Location::new("trees.rt", 9, 5)
}

#[inline(never)]
fn add<S: Storage<u64>>(
    tree: &mut SceneTree<u64, S>,
    nodes: &mut Vec<Node<u64>>,
    n: usize,
) -> Option<Node<u64>> {
    let top = tree.add_root(0, here()).ok()?;
    nodes.push(top).ok()?;
    for i in 1..n {
        let parent = *nodes.get(i / 4)?;
        nodes
            .push(tree.add_child(parent, i as u64, here()).ok()?)
            .ok()?;
    }
    Some(top)
}

#[inline(never)]
fn get<S: Storage<u64>>(
    tree: &SceneTree<u64, S>,
    nodes: &Vec<Node<u64>>,
    order: &Vec<usize>,
    start: u64,
) -> Option<u64> {
    let mut seen = start;
    for i in order {
        seen = mix(seen, *tree.get(*nodes.get(*i)?).ok()?);
    }
    Some(seen)
}

#[inline(never)]
fn children<S: Storage<u64>>(
    tree: &SceneTree<u64, S>,
    nodes: &Vec<Node<u64>>,
    order: &Vec<usize>,
    start: u64,
) -> Option<u64> {
    let mut seen = start;
    for i in order {
        for node in tree.children(*nodes.get(*i)?).ok()? {
            seen = mix(seen, *tree.get(node).ok()?);
        }
    }
    Some(seen)
}

#[inline(never)]
fn ancestors<S: Storage<u64>>(
    tree: &SceneTree<u64, S>,
    nodes: &Vec<Node<u64>>,
    order: &Vec<usize>,
    start: u64,
) -> Option<u64> {
    let mut seen = start;
    for i in order {
        for _ in tree.ancestors(*nodes.get(*i)?).ok()? {
            seen = seen.wrapping_add(1);
        }
    }
    Some(seen)
}

#[inline(never)]
fn outline<S: Storage<u64>>(tree: &SceneTree<u64, S>, top: Node<u64>, start: u64) -> Option<u64> {
    let mut seen = start;
    for (_, node) in tree.outline(top, tree.len()).ok()? {
        seen = mix(seen, *tree.get(node).ok()?);
    }
    Some(seen)
}

#[inline(never)]
fn move_to<S: Storage<u64>>(
    tree: &mut SceneTree<u64, S>,
    nodes: &Vec<Node<u64>>,
    order: &Vec<usize>,
    start: u64,
) -> Option<u64> {
    let mut seen = start;
    for (i, j) in order.iter().zip(order.iter().rev()) {
        let node = *nodes.get(*i)?;
        let parent = *nodes.get(*j / 2)?;
        if tree.move_to(node, parent).is_ok() {
            seen = seen.wrapping_add(1);
        }
    }
    Some(seen)
}

#[inline(never)]
fn remove_subtree<S: Storage<u64>>(
    tree: &mut SceneTree<u64, S>,
    top: Node<u64>,
    seen: u64,
) -> Option<u64> {
    Some(mix(seen, tree.remove_subtree(top).ok()?.len() as u64))
}
