//! The commands of histories of trees, each named like the call that it makes.
//!
//! | command                                               | reply, if not an error      |
//! |-------------------------------------------------------|-----------------------------|
//! | `add_root VALUE`, `add_child NODE VALUE`               | `ok`                        |
//! | `add_at SPOT VALUE`                                   | `ok`                        |
//! | `set NODE VALUE`, `update NODE MORE`                  | `ok`                        |
//! | `move_to NODE PARENT`, `move_at NODE SPOT`            | `ok`                        |
//! | `detach NODE`                                         | `ok`                        |
//! | `remove_subtree NODE`                                 | `removed NODE ..`, in order |
//!
//! A SPOT is `first_of NODE`, `last_of NODE`, `before NODE` or `after NODE`. `update` adds to a value. The
//! state has each live node, in the order in which they were made, as `NODE=VALUE<PARENT(CHILD ..)`,
//! without `<PARENT` for a root, and without the brackets if there is no child.

use crate::expected::{answered, assert_same, given};
use crate::rows::{Made, Subject, Words, write_numbers, write_reply, write_text};
use generational_box::{Location, Storage};
use scene_tree::{Node, NodeKind, SceneTree, Spot, Stale, TreeError};
use std::alloc::Global;
use std::fmt::Write;
use std::process::Abort;

/// Where a node is made: each at a line of its own, by its number.
pub(crate) fn made_at(number: usize) -> Location {
    Location::new("t.rs", u32::try_from(number).unwrap_or(0), 1)
}

/// How a call on a node that is gone fails, by its number.
pub(crate) fn stale_of(number: usize) -> Stale {
    Stale {
        created_at: Some(made_at(number)),
    }
}

/// A tree over a new store.
pub(crate) fn tree_over<T, S: Storage<T>>(
    rt: &impl Abort,
    alloc: Global,
    store: S,
) -> SceneTree<T, S> {
    assert!(rt; store.is_fresh());
    SceneTree::new(alloc, store)
}

/// A node by its number.
pub(crate) fn node_at(rt: &impl Abort, nodes: &[Node<u64>], number: usize) -> Node<u64> {
    nodes.get(number).copied().expect(rt, "a node")
}

/// Asserts which nodes are in a list.
pub(crate) fn are_nodes(
    rt: &impl Abort,
    nodes: &[Node<u64>],
    list: &[Node<u64>],
    numbers: &[usize],
) {
    assert_same(rt, &list.len(), &numbers.len());
    for (node, number) in list.iter().zip(numbers) {
        assert_same(rt, &node.id(), &node_at(rt, nodes, *number).id());
    }
}

/// A tree, and the nodes that were made.
#[derive(Drop)]
pub(crate) struct Grove<S: Storage<u64>> {
    alloc: Global,
    tree: SceneTree<u64, S>,
    nodes: Made<u64, NodeKind>,
}

impl<S: Storage<u64>> Grove<S> {
    /// A tree over a new store.
    pub(crate) fn new(rt: &impl Abort, alloc: Global, store: S) -> Grove<S> {
        Grove {
            alloc,
            tree: tree_over(rt, alloc, store),
            nodes: Made::new(alloc),
        }
    }

    // The spot that a command names.
    fn spot(&self, rt: &impl Abort, words: &mut Words<'_>) -> Spot<u64> {
        let side = words.word();
        let node = self.nodes.named(rt, words);
        match side {
            "first_of" => Spot::FirstOf(node),
            "last_of" => Spot::LastOf(node),
            "before" => Spot::Before(node),
            "after" => Spot::After(node),
            _ => panic!(rt; "no such spot"),
        }
    }

    // Keeps a new node.
    fn keep(
        &mut self,
        rt: &impl Abort,
        made: Result<Node<u64>, TreeError>,
    ) -> Result<(), TreeError> {
        let node = made?;
        self.nodes.add(rt, node);
        Ok(())
    }

    fn add_root(&mut self, rt: &impl Abort, words: &mut Words<'_>) -> Result<(), TreeError> {
        let root = self
            .tree
            .add_root(words.number(rt), made_at(self.nodes.next()));
        self.nodes.add(rt, given(rt, root));
        Ok(())
    }

    // Makes a child. Its value comes back if that fails.
    fn add_child(&mut self, rt: &impl Abort, words: &mut Words<'_>) -> Result<(), TreeError> {
        let parent = self.nodes.named(rt, words);
        let value = words.number(rt);
        let answer = self
            .tree
            .add_child(parent, value, made_at(self.nodes.next()));
        let made = answered(rt, answer, &value);
        self.keep(rt, made)
    }

    // Makes a child at a spot. Its value comes back if that fails.
    fn add_at(&mut self, rt: &impl Abort, words: &mut Words<'_>) -> Result<(), TreeError> {
        let spot = self.spot(rt, words);
        let value = words.number(rt);
        let answer = self.tree.add_at(spot, value, made_at(self.nodes.next()));
        let made = answered(rt, answer, &value);
        self.keep(rt, made)
    }

    // Sets a value. It comes back if that fails.
    fn set(&mut self, rt: &impl Abort, words: &mut Words<'_>) -> Result<(), TreeError> {
        let node = self.nodes.named(rt, words);
        let value = words.number(rt);
        let answer = answered(rt, self.tree.set(node, value), &value);
        answer.map_err(TreeError::from)
    }

    fn update(&mut self, rt: &impl Abort, words: &mut Words<'_>) -> Result<(), TreeError> {
        let node = self.nodes.named(rt, words);
        let more = words.number(rt);
        self.tree.update(node, |value: &mut u64| {
            *value = value.wrapping_add(more);
        })?;
        Ok(())
    }

    fn move_to(&mut self, rt: &impl Abort, words: &mut Words<'_>) -> Result<(), TreeError> {
        let node = self.nodes.named(rt, words);
        let parent = self.nodes.named(rt, words);
        self.tree.move_to(node, parent)
    }

    fn move_at(&mut self, rt: &impl Abort, words: &mut Words<'_>) -> Result<(), TreeError> {
        let node = self.nodes.named(rt, words);
        let spot = self.spot(rt, words);
        self.tree.move_at(node, spot)
    }

    fn detach(&mut self, rt: &impl Abort, words: &mut Words<'_>) -> Result<(), TreeError> {
        let node = self.nodes.named(rt, words);
        self.tree.detach(node)?;
        Ok(())
    }

    // Carries out a command that replies `ok`.
    fn answer(
        &mut self,
        rt: &impl Abort,
        word: &str,
        words: &mut Words<'_>,
    ) -> Result<(), TreeError> {
        match word {
            "add_root" => self.add_root(rt, words),
            "add_child" => self.add_child(rt, words),
            "add_at" => self.add_at(rt, words),
            "set" => self.set(rt, words),
            "update" => self.update(rt, words),
            "move_to" => self.move_to(rt, words),
            "move_at" => self.move_at(rt, words),
            "detach" => self.detach(rt, words),
            _ => panic!(rt; "no such command"),
        }
    }

    // Removes a node with all below it, and writes which nodes were removed.
    fn remove(&mut self, rt: &impl Abort, words: &mut Words<'_>, text: &mut String) {
        let node = self.nodes.named(rt, words);
        match self.tree.remove_subtree(node) {
            Ok(list) => {
                write_text(rt, text, &"removed");
                for node in list.as_slice() {
                    let number = self.nodes.number_of(rt, *node);
                    given(rt, write!(text, " {number}"));
                }
            }
            Err(error) => write_text(rt, text, &error),
        }
    }
}

impl<S: Storage<u64>> Subject for Grove<S> {
    fn carry_out<R: Abort>(&mut self, rt: &R, words: &mut Words<'_>, text: &mut String) {
        match words.word() {
            "remove_subtree" => self.remove(rt, words, text),
            word => {
                let answer = self.answer(rt, word, words);
                write_reply(rt, text, answer);
            }
        }
    }

    fn show<R: Abort>(&mut self, rt: &R, text: &mut String) {
        for number in 0..self.nodes.next() {
            let node = self.nodes.at(rt, number);
            if self.tree.is_alive(node) {
                write_node(rt, self.alloc, &self.tree, &self.nodes, number, text);
            } else {
                is_gone(rt, &mut self.tree, node, number);
            }
        }
        are_walked(rt, &self.tree, self.nodes.all());
    }
}

/// Writes a live node's value, parent and children.
fn write_node<S: Storage<u64>>(
    rt: &impl Abort,
    alloc: Global,
    tree: &SceneTree<u64, S>,
    nodes: &Made<u64, NodeKind>,
    number: usize,
    text: &mut String,
) {
    let node = nodes.at(rt, number);
    let value = given(rt, tree.get(node).copied());
    given(rt, write!(text, " {number}={value}"));
    if let Some(parent) = given(rt, tree.parent(node)) {
        given(rt, write!(text, "<{}", nodes.number_of(rt, parent)));
    }
    let mut children = Vec::new(alloc);
    for child in given(rt, tree.children(node)) {
        given(rt, children.push(nodes.number_of(rt, child)));
    }
    write_numbers(rt, text, children.as_slice());
}

/// Sees that a walk over all nodes gives those that are live, each once, and one over the roots those
/// of them that have no parent.
fn are_walked<S: Storage<u64>>(rt: &impl Abort, tree: &SceneTree<u64, S>, nodes: &[Node<u64>]) {
    let mut live: usize = 0;
    for node in nodes {
        let mut met: usize = 0;
        for other in tree.nodes() {
            met = met.wrapping_add(usize::from(other == *node));
        }
        assert_same(rt, &met, &usize::from(tree.is_alive(*node)));
        live = live.wrapping_add(met);
        met = 0;
        for root in tree.roots() {
            met = met.wrapping_add(usize::from(root == *node));
        }
        let is_root = tree.parent(*node) == Ok(None);
        assert_same(rt, &met, &usize::from(is_root));
    }
    let mut count: usize = 0;
    for _ in tree.nodes() {
        count = count.wrapping_add(1);
    }
    assert_same(rt, &count, &live);
    assert_same(rt, &tree.len(), &live);
}

/// Asserts that a node is gone: the error of each call on it says where it was made.
fn is_gone<S: Storage<u64>>(
    rt: &impl Abort,
    tree: &mut SceneTree<u64, S>,
    node: Node<u64>,
    number: usize,
) {
    let stale = stale_of(number);
    let error = TreeError::Stale(stale);
    assert!(rt; !tree.is_alive(node));
    assert_same(rt, &tree.get(node).copied(), &Err(stale));
    assert_same(rt, &tree.parent(node).err(), &Some(stale));
    assert_same(rt, &tree.children(node).err(), &Some(stale));
    assert_same(rt, &tree.subtree(node).err(), &Some(error));
    assert_same(rt, &tree.depth(node), &Err(stale));
    assert_same(rt, &tree.detach(node), &Err(stale));
    assert_same(rt, &tree.created_at(node), &stale.created_at);
}
