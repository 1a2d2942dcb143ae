//! Trees that are taken apart and made again while memory runs out. The test passes whichever allocation
//! fails: what fails to allocate changes nothing, and is tried again.

use crate::expected::assert_same;
use crate::fresh::{Saves, Scene, play};
use crate::images::made;
use crate::trees::tree_over;
use generational_box::{AnyStorage, Storage};
use scene_tree::{CellFault, HandedBack, Node, PartsFault, SceneTree, TreeParts};
use std::alloc::Global;
use std::process::Abort;

// How often a call is tried.
const TRIES: u32 = 8;

fn child_or_again<S: Storage<u64>>(
    rt: &impl Abort,
    tree: &mut SceneTree<u64, S>,
    parent: Option<Node<u64>>,
) -> Node<u64> {
    for _ in 0..TRIES {
        let added = match parent {
            Some(parent) => tree.add_child(parent, 1, made()).ok(),
            None => tree.add_root(1, made()).ok(),
        };
        if let Some(node) = added {
            return node;
        }
    }
    panic!(rt; "memory")
}

/// The tree's parts. If that fails, the tree is unchanged.
fn apart_or_again<S: Storage<u64> + Drop>(
    rt: &impl Abort,
    tree: SceneTree<u64, S>,
) -> TreeParts<S> {
    let nodes = tree.len();
    let mut tree = tree;
    for _ in 0..TRIES {
        match tree.into_parts() {
            Ok(parts) => return parts,
            Err(back) => {
                assert_same(rt, &back.len(), &nodes);
                tree = back;
            }
        }
    }
    panic!(rt; "memory")
}

/// The tree of parts. If that fails, they come back.
fn made_or_again<S: Storage<u64> + Drop>(
    rt: &impl Abort,
    alloc: Global,
    parts: TreeParts<S>,
) -> SceneTree<u64, S> {
    let rows = parts.rows.len();
    let mut parts = parts;
    for _ in 0..TRIES {
        match SceneTree::from_parts(alloc, parts) {
            Ok(tree) => return tree,
            Err(HandedBack { value, cause }) => {
                assert_same(rt, &cause, &PartsFault::Cell(CellFault::OutOfMemory));
                assert_same(rt, &value.rows.len(), &rows);
                parts = value;
            }
        }
    }
    panic!(rt; "memory")
}

/// Asserts that a tree has its nodes, and finds the last one, at its depth.
fn assert_whole<S: Storage<u64>>(rt: &impl Abort, tree: &SceneTree<u64, S>, last: Node<u64>) {
    assert_same(rt, &tree.len(), &41);
    assert_same(rt, &tree.depth(last).ok(), &Some(20));
    assert!(rt; tree.find(last.id()) == Some(last));
}

struct MadeAgain;

impl Scene<u64> for MadeAgain {
    fn play<R: Abort, S: Storage<u64> + Saves<u64> + Drop>(&self, rt: &R, alloc: Global, store: S) {
        let mut tree = tree_over(rt, alloc, store);
        let root = child_or_again(rt, &mut tree, None);
        let mut last = root;
        for _ in 0..20 {
            let _ = child_or_again(rt, &mut tree, Some(root));
            last = child_or_again(rt, &mut tree, Some(last));
        }
        let parts = apart_or_again(rt, tree);
        let tree = made_or_again(rt, alloc, parts);
        assert_whole(rt, &tree, last);
    }
}

#[test]
fn trees_that_lack_memory_stay_or_come_back(rt: HostRuntime) {
    play::<u64, MadeAgain>(&rt, rt.alloc(), 3, &MadeAgain);
}
