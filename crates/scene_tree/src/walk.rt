//! Iterators from a node to its root, over its children in both directions, and over its subtree.

ghost use Rattle.std.specs.Prelude.{◌≡◌, ◌<◌, ◌∷◌, [], length, reverse, Option, ℕ};
ghost use Rattle.handles.specs.Handles.{slot_in};
ghost use Rattle.std.specs.Iterator.{YieldsFirst, item_count};
ghost use Rattle.scene_tree.specs.Families.{IsForest, AreChildrenLinked, children_at, families};
ghost use Rattle.scene_tree.specs.Walking.{IsNodeWithin, way_up};
ghost use Rattle.scene_tree.specs.Rows.{IsRow, rows, waiting};

use crate::links::{next_row, parent_at};
use crate::node::Node;
use crate::packed::Links;
use handles::parts::slot_of;
use std::iter::FusedIterator;
use std::marker::Model;

/// The nodes above a node, from its parent to its root: the iterator of
/// [`SceneTree::ancestors`](crate::SceneTree::ancestors). Contracts model it as the list of the
/// remaining ones.
#[derive(Drop)]
pub struct Ancestors<'a, T> {
    links: &'a Links<T>,
    next: Option<Node<T>>,
}

impl<'a, T> Model for Ancestors<'a, T> {
    ghost use Rattle.std.specs.Prelude.{List, length};
    ghost use Rattle.scene_tree.specs.Nodes.{Node};
    ghost use Rattle.scene_tree.specs.Families.{IsForest, families};
    ghost use Rattle.scene_tree.specs.Walking.{IsNodeWithin, way_up};

    ghost Value = { List (Node T) };

    ghost view = { λ it. way_up (families it.links.now.items)
        (length (families it.links.now.items)) it.next };

    ghost invariant = { λ it. IsForest (families it.links.now.items)
        × IsNodeWithin (families it.links.now.items) it.next };
}

impl<'a, T> Ancestors<'a, T> {
    pub(crate) fn new(links: &'a Links<T>, next: Option<Node<T>>) -> Self
        requires forest { IsForest (families links.now.items) }
        requires within { IsNodeWithin (families links.now.items) next }
        ensures { result ≡ way_up (families links.now.items)
            (length (families links.now.items)) next }
    {
        Ancestors { links, next }
    }
}

impl<'a, T> Iterator for Ancestors<'a, T> {
    type Item = Node<T>;

    ghost next_gives = { YieldsFirst (λ left. left) };

    ghost remaining = { item_count (λ left. left) };

    fn next(&mut self) -> Option<Node<T>> {
        let node = self.next?;
        self.next = parent_at(self.links, slot_of(node));
        Some(node)
    }
}

impl<'a, T> FusedIterator for Ancestors<'a, T> {}

/// The children of a node, in order: the iterator of
/// [`SceneTree::children`](crate::SceneTree::children). Contracts model it as the list of the remaining
/// ones.
#[derive(Drop)]
pub struct Children<'a, T> {
    links: &'a Links<T>,
    next: Option<usize>,
}

impl<'a, T> Model for Children<'a, T> {
    ghost use Rattle.std.specs.Prelude.{List, length};
    ghost use Rattle.scene_tree.specs.Nodes.{Node};
    ghost use Rattle.scene_tree.specs.Chains.{chain};
    ghost use Rattle.scene_tree.specs.Walking.{IsRest};

    ghost Value = { List (Node T) };

    ghost view = { λ it. chain it.links.now.items (length it.links.now.items) it.next };

    ghost invariant = { λ it. IsRest it.links.now.items it.next };
}

impl<'a, T> Children<'a, T> {
    pub(crate) fn new(links: &'a Links<T>, slot: usize) -> Self
        requires linked { AreChildrenLinked links.now.items }
        requires within { slot < length links.now.items }
        ensures { result ≡ children_at (families links.now.items) slot }
    {
        let next = links.at(slot).first;
        Children { links, next }
    }
}

impl<'a, T> Iterator for Children<'a, T> {
    type Item = Node<T>;

    ghost next_gives = { YieldsFirst (λ left. left) };

    ghost remaining = { item_count (λ left. left) };

    fn next(&mut self) -> Option<Node<T>> {
        let slot = self.next?;
        let link = self.links.at(slot);
        self.next = link.after;
        Some(link.node)
    }
}

impl<'a, T> FusedIterator for Children<'a, T> {}

/// The children of a node, from the last to the first: the iterator of
/// [`SceneTree::children_backwards`](crate::SceneTree::children_backwards). Contracts model it as the
/// list of the remaining ones.
#[derive(Drop)]
pub struct ChildrenBackwards<'a, T> {
    links: &'a Links<T>,
    next: Option<usize>,
}

impl<'a, T> Model for ChildrenBackwards<'a, T> {
    ghost use Rattle.std.specs.Prelude.{List, length};
    ghost use Rattle.scene_tree.specs.Nodes.{Node};
    ghost use Rattle.scene_tree.specs.Chains.{chain, turned};
    ghost use Rattle.scene_tree.specs.Walking.{IsRest};

    ghost Value = { List (Node T) };

    ghost view = { λ it. chain (turned it.links.now.items) (length (turned it.links.now.items)) it.next };

    ghost invariant = { λ it. IsRest (turned it.links.now.items) it.next };
}

impl<'a, T> ChildrenBackwards<'a, T> {
    #[tactic(auto, using(crate::proofs::Backwards::turned_rest, crate::proofs::Backwards::turned_walk))]
    pub(crate) fn new(links: &'a Links<T>, slot: usize) -> Self
        requires linked { AreChildrenLinked links.now.items }
        requires within { slot < length links.now.items }
        ensures { result ≡ reverse (children_at (families links.now.items) slot) }
    {
        let next = links.at(slot).last;
        ChildrenBackwards { links, next }
    }
}

impl<'a, T> Iterator for ChildrenBackwards<'a, T> {
    type Item = Node<T>;

    ghost next_gives = { YieldsFirst (λ left. left) };

    ghost remaining = { item_count (λ left. left) };

    fn next(&mut self) -> Option<Node<T>> {
        let slot = self.next?;
        let link = self.links.at(slot);
        self.next = link.before;
        Some(link.node)
    }
}

impl<'a, T> FusedIterator for ChildrenBackwards<'a, T> {}

/// A node and those below it, each before its children, with its depth below the first: the iterator of
/// [`SceneTree::outline`](crate::SceneTree::outline). Contracts model it as the list of the remaining
/// ones.
#[derive(Drop)]
pub struct Outline<'a, T> {
    links: &'a Links<T>,
    left: usize,
    next: Option<(usize, Node<T>)>,
}

impl<'a, T> Model for Outline<'a, T> {
    ghost use Rattle.std.specs.Prelude.{List, ℕ};
    ghost use Rattle.scene_tree.specs.Nodes.{Node};
    ghost use Rattle.scene_tree.specs.Families.{IsForest, AreChildrenLinked, families};
    ghost use Rattle.scene_tree.specs.Rows.{IsRow, rows, waiting};

    ghost Value = { List (ℕ × Node T) };

    ghost view = { λ it. rows (families it.links.now.items) it.left
        (waiting it.links.now.items it.next) };

    ghost invariant = { λ it. AreChildrenLinked it.links.now.items
        × IsForest (families it.links.now.items)
        × IsRow it.links.now.items it.next };
}

impl<'a, T> Outline<'a, T> {
    pub(crate) fn new(links: &'a Links<T>, node: Node<T>, limit: usize) -> Self
        requires linked { AreChildrenLinked links.now.items }
        requires forest { IsForest (families links.now.items) }
        requires within { slot_in node < length links.now.items }
        ensures { result ≡ rows (families links.now.items) limit ((0, node) ∷ []) }
    {
        Outline {
            links,
            left: limit,
            next: Some((0, node)),
        }
    }
}

impl<'a, T> Iterator for Outline<'a, T> {
    type Item = (usize, Node<T>);

    ghost next_gives = { YieldsFirst (λ left. left) };

    ghost remaining = { item_count (λ left. left) };

    fn next(&mut self) -> Option<(usize, Node<T>)> {
        if self.left == 0 {
            return None;
        }
        let (depth, node) = self.next?;
        self.left -= 1;
        self.next = next_row(self.links, depth, slot_of(node));
        Some((depth, node))
    }
}

impl<'a, T> FusedIterator for Outline<'a, T> {}
