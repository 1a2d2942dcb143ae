//! Mutated files of trees: each is an error, or is loaded as its own image and rows say.

use crate::mutating::Outcome;
use crate::reloaded::{
    Cell, Files, Kind, SavedId, adopted, assert_refused_or_loaded, cells_in, files_of, given,
    image_in, made_at, outcome_of, rows_in, saved_id, shared_files, store_of,
};
use generational_box::{AnyStorage, UnsyncStorage};
use scene_tree::{ChildRow, PartsFault, SceneTree, Sites, TreeParts};
use std::alloc::Global;
use std::process::Abort;

type Kept = UnsyncStorage<u64>;

type Row = (SavedId, SavedId);

type Tree = SceneTree<u64, Kept>;

/// The files of a tree with three nodes below a root, and one below one of them. The root has the slot of
/// a node that is gone.
fn saved(rt: &impl Abort, alloc: Global) -> Files {
    let mut tree = SceneTree::new(alloc, Kept::new(alloc, 3));
    let gone = given(rt, tree.add_root(9, made_at(9)));
    let first = given(rt, tree.add_root(1, made_at(1)));
    given(rt, tree.add_child(first, 4, made_at(4)));
    given(rt, tree.remove_subtree(gone));
    let root = given(rt, tree.add_root(0, made_at(8)));
    given(rt, tree.add_child(root, 2, made_at(2)));
    given(rt, tree.move_to(first, root));
    given(rt, tree.add_child(root, 3, made_at(3)));
    let rows = given(rt, tree.rows());
    let rows = rows
        .iter()
        .map(|row| (saved_id(row.child), saved_id(row.parent)));
    let rows: Vec<Row> = given(rt, rows.collect(alloc));
    files_of(rt, alloc, tree.store(), &rows)
}

/// Asserts that a tree has exactly these cells, and parents and children in the order of these rows.
fn assert_has(rt: &impl Abort, tree: &Tree, cells: &[Cell<u64>], rows: &[ChildRow]) {
    assert!(rt; tree.len() == cells.len());
    for (id, value, location) in cells {
        let node = tree.find(*id).expect(rt, "a node");
        assert!(rt; tree.get(node).ok() == Some(value));
        assert!(rt; tree.created_at(node) == Some(*location));
    }
    let mut nodes = rows.len();
    for _ in tree.roots() {
        nodes = nodes.wrapping_add(1);
    }
    assert!(rt; nodes == tree.len());
    for (at, row) in rows.iter().enumerate() {
        let parent = tree.find(row.parent).expect(rt, "a node");
        let before = rows.iter().take(at).filter(|it| it.parent == row.parent);
        let child = given(rt, tree.children(parent)).nth(before.count());
        assert!(rt; child.map(|child| child.id()) == Some(row.child));
    }
}

/// Loads files. What was loaded is what they say.
fn loaded(rt: &impl Abort, alloc: Global, files: &Files) -> Result<(), Outcome> {
    let image = image_in(rt, alloc, files.image.as_slice())?;
    let saved: Vec<Row> = rows_in(rt, alloc, files.rows.as_slice())?;
    let (number, cells) = (image.number, cells_in(rt, alloc, &image));
    let (store, ids) = store_of(rt, alloc, image)?;
    let mut rows = Vec::new(alloc);
    for (child, parent) in saved {
        let child = adopted(&ids, number, child)?;
        let parent = adopted(&ids, number, parent)?;
        given(rt, rows.push(ChildRow { child, parent }));
    }
    let copy = given(rt, Vec::from_slice(alloc, rows.as_slice()));
    let sites = Sites::new(alloc);
    match SceneTree::from_parts(alloc, TreeParts { store, sites, rows }) {
        Ok(tree) => {
            assert_has(rt, &tree, cells.as_slice(), copy.as_slice());
            Ok(())
        }
        Err(refusal) => match refusal.cause {
            PartsFault::Cell(fault) => Err(outcome_of(rt, fault)),
            PartsFault::Stale(_) | PartsFault::Order(_) => Err(Outcome::Ids),
        },
    }
}

struct Trees;

impl Kind for Trees {
    fn load<R: Abort>(&self, rt: &R, alloc: Global, files: &Files) -> Result<(), Outcome> {
        loaded(rt, alloc, files)
    }
}

#[test]
fn mutated_trees_are_refused_or_loaded(rt: HostRuntime) {
    let alloc = rt.alloc();
    let (files, shared) = (saved(&rt, alloc), shared_files(&rt, alloc));
    assert_refused_or_loaded(&rt, &Trees, &files, &shared);
}
