//! Trees that are taken apart and made again, and stores and rows of which no tree can be made.

use crate::expected::{assert_prints, assert_same, drawn, drawn_below, ok};
use crate::fresh::{Saves, Scene, play};
use crate::scene::{begin_read, leak, leak_rc};
use example_saving::tree_again;
use generational_box::{AnyStorage, GenerationalBoxId, Image, Loaded, Location, Storage, box_id};
use saved_bytes::{Decoder, Encoder, Saved, read_image, write_image};
use scene_tree::{
    CellFault, ChildRow, HandedBack, Node, PartsFault, SceneTree, Sites, Spot, TreeParts,
};
use std::alloc::Global;
use std::fmt::Write;
use std::process::Abort;

/// Where a node is made: each at a line of its own.
fn made_at(line: u32) -> Location {
    Location::new("t.rs", line, 1)
}

/// Writes a node and all below it, each with its depth and its value.
fn write_outline<S: Storage<u64>>(
    rt: &impl Abort,
    tree: &SceneTree<u64, S>,
    root: Node<u64>,
    text: &mut String,
) {
    for (depth, node) in ok(rt, tree.outline(root, tree.len())) {
        let value = value_of(rt, tree, node);
        ok(rt, write!(text, "{depth}:{value} "));
    }
}

/// A tree's roots and all below them, each with its depth and its value, one after the other.
fn outlines_of<S: Storage<u64>>(
    rt: &impl Abort,
    alloc: Global,
    tree: &SceneTree<u64, S>,
) -> String {
    let mut text = String::new(alloc);
    for root in tree.roots() {
        write_outline(rt, tree, root, &mut text);
    }
    text
}

/// A live node's value.
fn value_of<S: Storage<u64>>(rt: &impl Abort, tree: &SceneTree<u64, S>, node: Node<u64>) -> u64 {
    *ok(rt, tree.get(node))
}

/// A tree over a new store.
pub(crate) fn tree_over<S: Storage<u64>>(
    rt: &impl Abort,
    alloc: Global,
    store: S,
) -> SceneTree<u64, S> {
    assert!(rt; store.is_fresh());
    SceneTree::new(alloc, store)
}

/// Makes a root. A node with the value N is made at line N.
fn add_root<S: Storage<u64>>(
    rt: &impl Abort,
    tree: &mut SceneTree<u64, S>,
    value: u32,
) -> Node<u64> {
    ok(rt, tree.add_root(u64::from(value), made_at(value)))
}

/// Makes a child.
fn add_child<S: Storage<u64>>(
    rt: &impl Abort,
    tree: &mut SceneTree<u64, S>,
    parent: Node<u64>,
    value: u32,
) -> Node<u64> {
    ok(rt, tree.add_child(parent, u64::from(value), made_at(value)))
}

/// Removes a node with all below it.
fn remove<S: Storage<u64>>(rt: &impl Abort, tree: &mut SceneTree<u64, S>, node: Node<u64>) {
    ok(rt, tree.remove_subtree(node));
}

/// Moves a node below another, behind its children.
fn move_below<S: Storage<u64>>(
    rt: &impl Abort,
    tree: &mut SceneTree<u64, S>,
    node: Node<u64>,
    parent: Node<u64>,
) {
    ok(rt, tree.move_to(node, parent));
}

/// Moves a node below another, before its children.
fn move_first<S: Storage<u64>>(
    rt: &impl Abort,
    tree: &mut SceneTree<u64, S>,
    node: Node<u64>,
    parent: Node<u64>,
) {
    ok(rt, tree.move_at(node, Spot::FirstOf(parent)));
}

/// The nodes of a filled tree that tests name.
#[derive(Clone, Copy)]
struct Named {
    gone: Node<u64>,
    first: Node<u64>,
    third: Node<u64>,
    root: Node<u64>,
}

/// Fills a tree: the nodes 1, 2, 3 and 5 are below 0, and 4 is below 3. Node 1 has taken the slot of a node
/// that is gone, and the root has the last slot.
fn fill<S: Storage<u64>>(rt: &impl Abort, tree: &mut SceneTree<u64, S>) -> Named {
    let gone = add_root(rt, tree, 9);
    let third = add_root(rt, tree, 3);
    let second = add_child(rt, tree, third, 2);
    add_child(rt, tree, third, 4);
    remove(rt, tree, gone);
    let first = add_root(rt, tree, 1);
    let root = add_root(rt, tree, 0);
    move_below(rt, tree, third, root);
    move_first(rt, tree, second, root);
    move_first(rt, tree, first, root);
    add_child(rt, tree, root, 5);
    Named {
        gone,
        first,
        third,
        root,
    }
}

/// The parts of a filled tree over a new store.
fn filled_parts<S: Storage<u64> + Drop>(rt: &impl Abort, alloc: Global, store: S) -> TreeParts<S> {
    let mut tree = tree_over(rt, alloc, store);
    fill(rt, &mut tree);
    ok(rt, tree.into_parts())
}

const OUTLINE: &str = "0:0 1:1 1:2 1:3 2:4 1:5 ";

/// Asserts what a walk over a tree reads.
fn assert_outlines<S: Storage<u64>>(
    rt: &impl Abort,
    alloc: Global,
    tree: &SceneTree<u64, S>,
    wanted: &str,
) {
    assert_eq!(rt; outlines_of(rt, alloc, tree).as_str(), wanted);
}

/// Asserts what a node reads, if a value.
fn assert_value<S: Storage<u64>>(
    rt: &impl Abort,
    tree: &SceneTree<u64, S>,
    node: Node<u64>,
    value: Option<u64>,
) {
    assert_same(rt, &tree.is_alive(node), &value.is_some());
    assert_same(rt, &tree.get(node).ok().copied(), &value);
}

fn assert_parent<S: Storage<u64>>(
    rt: &impl Abort,
    tree: &SceneTree<u64, S>,
    node: Node<u64>,
    parent: Node<u64>,
) {
    assert!(rt; tree.parent(node).ok() == Some(Some(parent)));
}

/// Asserts where a node was made.
fn assert_made_at<S: Storage<u64>>(
    rt: &impl Abort,
    tree: &SceneTree<u64, S>,
    node: Node<u64>,
    line: u32,
) {
    assert_same(rt, &tree.created_at(node), &Some(made_at(line)));
}

/// Asserts which node is found by an id.
fn assert_found<S: Storage<u64>>(
    rt: &impl Abort,
    tree: &SceneTree<u64, S>,
    id: GenerationalBoxId,
    node: Option<Node<u64>>,
) {
    assert!(rt; tree.find(id) == node);
}

/// Asserts that each node of a tree is found by its id, and was made at the line of its value.
fn assert_nodes<S: Storage<u64>>(rt: &impl Abort, tree: &SceneTree<u64, S>) {
    for node in tree.nodes() {
        let line = (value_of(rt, tree, node) % 100) as u32;
        assert_made_at(rt, tree, node, line);
        assert_found(rt, tree, node.id(), Some(node));
    }
}

/// The tree that is made again of a tree's parts.
fn again<S: Storage<u64> + Drop>(
    rt: &impl Abort,
    alloc: Global,
    tree: SceneTree<u64, S>,
) -> SceneTree<u64, S> {
    ok(rt, tree_again(alloc, tree))
}

struct MadeAgain;

impl Scene<u64> for MadeAgain {
    fn play<R: Abort, S: Storage<u64> + Saves<u64> + Drop>(&self, rt: &R, alloc: Global, store: S) {
        let mut tree = tree_over(rt, alloc, store);
        let named = fill(rt, &mut tree);
        let tree = again(rt, alloc, tree);
        assert_outlines(rt, alloc, &tree, OUTLINE);
        assert_value(rt, &tree, named.gone, None);
        assert_value(rt, &tree, named.first, Some(1));
        assert_parent(rt, &tree, named.third, named.root);
        assert_made_at(rt, &tree, named.gone, 9);
        assert_made_at(rt, &tree, named.third, 3);
        // handles of the tree that was made again have the locations too
        assert_nodes(rt, &tree);
        assert_found(rt, &tree, named.gone.id(), None);
    }
}

#[test]
fn a_tree_that_was_taken_apart_is_made_again(rt: HostRuntime) {
    play::<u64, MadeAgain>(&rt, rt.alloc(), 3, &MadeAgain);
}

/// Writes the rows of a tree.
fn rows_text<S: Storage<u64>>(rt: &impl Abort, alloc: Global, tree: &SceneTree<u64, S>) -> String {
    let rows = ok(rt, tree.rows());
    let mut text = String::new(alloc);
    for row in rows.iter() {
        ok(rt, write!(text, "{:?} of {:?}, ", row.child, row.parent));
    }
    text
}

struct RowsOfATree;

impl Scene<u64> for RowsOfATree {
    fn play<R: Abort, S: Storage<u64> + Saves<u64> + Drop>(&self, rt: &R, alloc: Global, store: S) {
        let mut tree = tree_over(rt, alloc, store);
        fill(rt, &mut tree);
        // node 1 has slot 0 at generation 2, 3, 2 and 4 have the next three, the root slot 4, and 5 slot 5
        assert_eq!(rt;
            rows_text(rt, alloc, &tree).as_str(),
            "0@2 of 4@1, 2@1 of 4@1, 1@1 of 4@1, 5@1 of 4@1, 3@1 of 1@1, "
        );
    }
}

#[test]
fn rows_name_parents_before_what_is_below_them(rt: HostRuntime) {
    play::<u64, RowsOfATree>(&rt, rt.alloc(), 3, &RowsOfATree);
}

/// Asserts that no tree is made of parts, and returns them.
fn comes_back<S: Storage<u64> + Drop>(
    rt: &impl Abort,
    alloc: Global,
    parts: TreeParts<S>,
    fault: PartsFault,
) -> TreeParts<S> {
    let live = parts.store.len();
    let copy = Vec::from_slice(alloc, parts.rows.as_slice()).expect(rt, "memory");
    let Err(HandedBack { value, cause }) = SceneTree::from_parts(alloc, parts) else {
        panic!(rt; "a tree was made")
    };
    assert_same(rt, &cause, &fault);
    assert_same(rt, &value.store.len(), &live);
    assert!(rt; value.rows.as_slice() == copy.as_slice());
    value
}

fn parts_of<S: Storage<u64>>(alloc: Global, store: S) -> TreeParts<S> {
    TreeParts {
        store,
        sites: Sites::new(alloc),
        rows: Vec::new(alloc),
    }
}

/// A value at slot 0, and a shared value.
struct ASharedValue;

impl Scene<u64> for ASharedValue {
    fn play<R: Abort, S: Storage<u64> + Saves<u64> + Drop>(&self, rt: &R, alloc: Global, store: S) {
        let mut store = store;
        leak(rt, &mut store, 1);
        leak_rc(rt, &mut store, 2);
        let fault = PartsFault::Cell(CellFault::Shared(1));
        comes_back(rt, alloc, parts_of(alloc, store), fault);
    }
}

/// A value that is read.
struct AValueThatIsRead;

impl Scene<u64> for AValueThatIsRead {
    fn play<R: Abort, S: Storage<u64> + Saves<u64> + Drop>(&self, rt: &R, alloc: Global, store: S) {
        let mut store = store;
        let only = leak(rt, &mut store, 1);
        let guard = begin_read(rt, &mut store, only);
        let fault = PartsFault::Cell(CellFault::Borrowed(0));
        let mut parts = comes_back(rt, alloc, parts_of(alloc, store), fault);
        assert!(rt; guard.release(&mut parts.store));
    }
}

#[test]
fn stores_that_no_tree_has_come_back(rt: HostRuntime) {
    let alloc = rt.alloc();
    play::<u64, ASharedValue>(&rt, alloc, 1, &ASharedValue);
    play::<u64, AValueThatIsRead>(&rt, alloc, 1, &AValueThatIsRead);
    let fault = PartsFault::Cell(CellFault::Borrowed(0));
    assert_prints(&rt, alloc, &fault, "the value of slot 0 is borrowed");
}

/// The id of a store's cell: the store's number, the slot and the generation.
type Id = (u64, usize, u64);

const OLD: Id = (3, 0, 1);

const FIRST: Id = (3, 0, 2);

const THIRD: Id = (3, 1, 1);

const SECOND: Id = (3, 2, 1);

const ROOT: Id = (3, 4, 1);

/// Children with their parents.
type Pairs = &'static [(Id, Id)];

/// Rows that no tree over a filled tree's store has, and their faults.
const FAULTY: [(Pairs, PartsFault); 9] = [
    (&[(OLD, ROOT)], PartsFault::Stale(0)),
    (&[(THIRD, ROOT), (SECOND, OLD)], PartsFault::Stale(1)),
    (&[((9, 1, 1), ROOT)], PartsFault::Stale(0)),
    (&[((3, 6, 1), ROOT)], PartsFault::Stale(0)),
    (&[(FIRST, (3, usize::MAX, 1))], PartsFault::Stale(0)),
    // a node below itself, a child twice, a child after its own child, and two nodes below each other
    (&[(ROOT, ROOT)], PartsFault::Order(0)),
    (&[(THIRD, ROOT), (THIRD, SECOND)], PartsFault::Order(1)),
    (&[(SECOND, THIRD), (THIRD, ROOT)], PartsFault::Order(1)),
    (&[(THIRD, ROOT), (ROOT, THIRD)], PartsFault::Order(1)),
];

fn id_of(id: Id) -> GenerationalBoxId {
    box_id(id.0, id.1, id.2)
}

fn rows_of(rt: &impl Abort, alloc: Global, pairs: &[(Id, Id)]) -> Vec<ChildRow> {
    let mut rows = Vec::new(alloc);
    for pair in pairs {
        let child = id_of(pair.0);
        let parent = id_of(pair.1);
        ok(rt, rows.push(ChildRow { child, parent }));
    }
    rows
}

/// Asserts that no tree is made of a filled tree's store and faulty rows.
struct FaultyRows;

impl Scene<u64> for FaultyRows {
    fn play<R: Abort, S: Storage<u64> + Saves<u64> + Drop>(&self, rt: &R, alloc: Global, store: S) {
        let mut parts = filled_parts(rt, alloc, store);
        for (pairs, fault) in FAULTY {
            let rows = rows_of(rt, alloc, pairs);
            parts = comes_back(rt, alloc, TreeParts { rows, ..parts }, fault);
        }
    }
}

#[test]
fn rows_that_no_tree_has_come_back(rt: HostRuntime) {
    let alloc = rt.alloc();
    play::<u64, FaultyRows>(&rt, alloc, 3, &FaultyRows);
    assert_prints(
        &rt,
        alloc,
        &PartsFault::Stale(1),
        "row 1 has the id of no live node",
    );
    assert_prints(
        &rt,
        alloc,
        &PartsFault::Order(2),
        "the child of row 2 is in an earlier row",
    );
}

/// A small id, which is now and then a node's.
fn drawn_id(state: &mut u64) -> GenerationalBoxId {
    let number = 3 + drawn(state) % 16 / 15;
    let generation = 1 + drawn(state) % 16 / 15;
    box_id(number, (drawn(state) % 6) as usize, generation)
}

/// Up to four rows of small ids.
fn drawn_rows(rt: &impl Abort, alloc: Global, state: &mut u64) -> Vec<ChildRow> {
    let mut rows = Vec::new(alloc);
    for _ in 0..drawn(state) % 5 {
        let child = drawn_id(state);
        let parent = drawn_id(state);
        ok(rt, rows.push(ChildRow { child, parent }));
    }
    rows
}

/// The last child of a node, by its id.
fn last_child<S: Storage<u64>>(
    tree: &SceneTree<u64, S>,
    parent: GenerationalBoxId,
) -> Option<GenerationalBoxId> {
    let node = tree.find(parent)?;
    Some(tree.children(node).ok()?.last()?.id())
}

/// Asserts that a row's child has the row's parent.
fn assert_row<S: Storage<u64>>(rt: &impl Abort, tree: &SceneTree<u64, S>, row: ChildRow) {
    let child = tree.find(row.child).expect(rt, "a node");
    let parent = ok(rt, tree.parent(child)).expect(rt, "a parent");
    assert_same(rt, &parent.id(), &row.parent);
}

/// Asserts that a tree has the parents of rows, and the last child of the last row.
fn assert_has<S: Storage<u64>>(rt: &impl Abort, tree: &SceneTree<u64, S>, rows: &[ChildRow]) {
    let mut nodes = rows.len();
    for _ in tree.roots() {
        nodes = nodes.wrapping_add(1);
    }
    assert_same(rt, &nodes, &tree.len());
    for row in rows {
        assert_row(rt, tree, *row);
    }
    if let Some(last) = rows.last() {
        assert_same(rt, &last_child(tree, last.parent), &Some(last.child));
    }
}

/// The parts of a tree that is made of parts, which are counted then, or the parts that come back.
fn parts_again<S: Storage<u64> + Drop>(
    rt: &impl Abort,
    alloc: Global,
    parts: TreeParts<S>,
    made: &mut u32,
) -> TreeParts<S> {
    let rows = Vec::from_slice(alloc, parts.rows.as_slice()).expect(rt, "memory");
    match SceneTree::from_parts(alloc, parts) {
        Ok(tree) => {
            *made = made.wrapping_add(1);
            assert_has(rt, &tree, rows.as_slice());
            ok(rt, tree.into_parts())
        }
        Err(HandedBack { value, cause: _ }) => {
            assert!(rt; value.rows.as_slice() == rows.as_slice());
            value
        }
    }
}

struct DrawnRows;

impl Scene<u64> for DrawnRows {
    fn play<R: Abort, S: Storage<u64> + Saves<u64> + Drop>(&self, rt: &R, alloc: Global, store: S) {
        let mut parts = filled_parts(rt, alloc, store);
        let mut state = 1;
        let mut made: u32 = 0;
        for _ in 0..20_000 {
            let rows = drawn_rows(rt, alloc, &mut state);
            parts = parts_again(rt, alloc, TreeParts { rows, ..parts }, &mut made);
        }
        assert!(rt; made > 2000 && made < 18_000);
    }
}

#[test]
fn drawn_rows_make_a_tree_or_come_back(rt: HostRuntime) {
    play::<u64, DrawnRows>(&rt, rt.alloc(), 3, &DrawnRows);
}

/// A drawn node. None if it's past the last one.
fn drawn_node<S: Storage<u64>>(tree: &SceneTree<u64, S>, state: &mut u64) -> Option<Node<u64>> {
    let at = drawn_below(state, tree.len().wrapping_add(1));
    tree.nodes().nth(at)
}

/// Moves a node beside another, if that has a parent and is not below it.
fn move_beside<S: Storage<u64>>(tree: &mut SceneTree<u64, S>, node: Node<u64>, other: Node<u64>) {
    let _ = tree.move_at(node, Spot::Before(other));
}

/// Moves a node below another, if that isn't below it.
fn try_move<S: Storage<u64>>(tree: &mut SceneTree<u64, S>, node: Node<u64>, other: Node<u64>) {
    let _ = tree.move_to(node, other);
}

/// Adds, moves and removes nodes as they are drawn.
fn change<S: Storage<u64>>(rt: &impl Abort, tree: &mut SceneTree<u64, S>, state: &mut u64) {
    let node = drawn_node(tree, state);
    let other = drawn_node(tree, state);
    let value = (drawn(state) % 100) as u32;
    let Some(node) = node else {
        add_root(rt, tree, value);
        return;
    };
    let Some(other) = other else {
        add_child(rt, tree, node, value);
        return;
    };
    match drawn(state) % 8 {
        0 => remove(rt, tree, node),
        1 | 2 => try_move(tree, node, other),
        3 => move_beside(tree, node, other),
        _ => {
            add_child(rt, tree, node, value);
        }
    }
}

struct DrawnTrees;

impl Scene<u64> for DrawnTrees {
    fn play<R: Abort, S: Storage<u64> + Saves<u64> + Drop>(&self, rt: &R, alloc: Global, store: S) {
        let mut state = 5;
        let mut tree = tree_over(rt, alloc, store);
        for _ in 0..400 {
            for _ in 0..10 {
                change(rt, &mut tree, &mut state);
            }
            let before = outlines_of(rt, alloc, &tree);
            tree = again(rt, alloc, tree);
            assert_outlines(rt, alloc, &tree, before.as_str());
        }
    }
}

#[test]
fn drawn_trees_are_made_again(rt: HostRuntime) {
    play::<u64, DrawnTrees>(&rt, rt.alloc(), 3, &DrawnTrees);
}

type Numbers = (u64, u64);

fn numbers_of(id: GenerationalBoxId) -> Numbers {
    (id.slot as u64, id.generation)
}

/// A file with the image of a tree's store.
fn image_file(rt: &impl Abort, alloc: Global, image: &Image<u64>) -> Vec<u8> {
    let mut file = Vec::new(alloc);
    write_image(alloc, image, &mut file).expect(rt, "written");
    file
}

/// A file with a tree's rows, as slots and generations.
fn rows_file(rt: &impl Abort, alloc: Global, rows: &[ChildRow]) -> Vec<u8> {
    let rows = rows
        .iter()
        .map(|row| (numbers_of(row.child), numbers_of(row.parent)));
    let rows: Vec<(Numbers, Numbers)> = rows.collect(alloc).expect(rt, "memory");
    let mut out = Encoder::new(alloc);
    rows.encode(&mut out).expect(rt, "memory");
    Vec::from_slice(alloc, out.bytes()).expect(rt, "memory")
}

/// The store that is loaded under a number, from a file with its image.
fn loaded_under<S: Saves<u64>>(
    rt: &impl Abort,
    alloc: Global,
    number: u64,
    file: &[u8],
) -> (S, Loaded) {
    let mut input = file;
    let image: Image<u64> = read_image(alloc, &mut input, &["t.rs"], made_at(0)).expect(rt, "read");
    ok(rt, S::load_as(alloc, number, image))
}

/// The id of a saved cell, under the new number.
fn adopted(rt: &impl Abort, loaded: &Loaded, numbers: Numbers) -> GenerationalBoxId {
    let saved = box_id(3, numbers.0 as usize, numbers.1);
    loaded.adopt(saved).expect(rt, "a node")
}

/// The rows of a file, under the new number.
fn adopted_rows(rt: &impl Abort, alloc: Global, loaded: &Loaded, file: &[u8]) -> Vec<ChildRow> {
    let mut input = Decoder::new(alloc, file);
    let numbers: Vec<(Numbers, Numbers)> = Vec::decode(&mut input).expect(rt, "read");
    let mut rows = Vec::new(alloc);
    for (child, parent) in numbers {
        let child = adopted(rt, loaded, child);
        let parent = adopted(rt, loaded, parent);
        ok(rt, rows.push(ChildRow { child, parent }));
    }
    rows
}

/// The tree of a store and rows.
fn tree_of<S: Storage<u64> + Drop>(
    rt: &impl Abort,
    alloc: Global,
    store: S,
    rows: Vec<ChildRow>,
) -> SceneTree<u64, S> {
    let sites = Sites::new(alloc);
    ok(
        rt,
        SceneTree::from_parts(alloc, TreeParts { store, sites, rows }),
    )
}

/// Asserts that a loaded tree has the nodes that were saved, under its own number.
fn assert_loaded<S: Storage<u64>>(
    rt: &impl Abort,
    tree: &SceneTree<u64, S>,
    loaded: &Loaded,
    named: Named,
    lost: Node<u64>,
) {
    assert_value(rt, tree, named.root, None);
    assert_value(rt, tree, lost, None);
    assert!(rt; loaded.adopt(lost.id()).is_none());
    let kept = loaded.adopt(named.third.id()).expect(rt, "an id");
    let kept = tree.find(kept).expect(rt, "a node");
    assert_value(rt, tree, kept, Some(3));
    assert_made_at(rt, tree, kept, 3);
}

/// A tree that is saved, and loaded under a number of its own while the first one goes on, and is lost.
struct ATreeInFiles;

impl Scene<u64> for ATreeInFiles {
    fn play<R: Abort, S: Storage<u64> + Saves<u64> + Drop>(&self, rt: &R, alloc: Global, store: S) {
        let mut tree = tree_over(rt, alloc, store);
        let named = fill(rt, &mut tree);
        let image = image_file(rt, alloc, &ok(rt, tree.store().copy()));
        let rows = rows_file(rt, alloc, ok(rt, tree.rows()).as_slice());
        let lost = add_child(rt, &mut tree, named.first, 7);
        let (store, loaded): (S, Loaded) = loaded_under(rt, alloc, 8, image.as_slice());
        let rows = adopted_rows(rt, alloc, &loaded, rows.as_slice());
        let tree = tree_of(rt, alloc, store, rows);
        assert_outlines(rt, alloc, &tree, OUTLINE);
        assert_loaded(rt, &tree, &loaded, named, lost);
    }
}

#[test]
fn a_tree_in_files_is_loaded_under_a_new_number(rt: HostRuntime) {
    play::<u64, ATreeInFiles>(&rt, rt.alloc(), 3, &ATreeInFiles);
}
