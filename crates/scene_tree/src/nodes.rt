//! Iterators over all nodes of a tree, and over its roots.

ghost use Rattle.std.specs.Prelude.{◌≡◌, ◌∷◌, [], drop, length, IfSome, IfNone, Some};
ghost use Rattle.std.specs.Iterator.{UpTo, YieldsFirst, item_count};
ghost use Rattle.std.specs.Iterator.SizeHint.{IsWithinCount};
ghost use Rattle.scene_tree.specs.Meeting.{is_met, met};
ghost use Rattle.scene_tree.specs.Trees.{AreAll, AreRoots, live_count};

use crate::links::Link;
use crate::node::Node;
use crate::packed::Links;
use crate::tree::SceneTree;
use generational_core::Storage;
use handles::parts::peek;
use std::iter::FusedIterator;
use std::marker::Model;

impl<T, S: Storage<T>> SceneTree<T, S> {
    /// Iterates over all nodes, each once, in an unspecified order. The iterator knows how many are left, at
    /// first `len`. Doesn't allocate; the whole iteration is O(n), where n is the peak number of nodes.
    ///
    /// ```rust
    /// for node in tree.nodes() {
    ///     println!(rt; "{}", tree.get(node)?)?;
    /// }
    /// ```
    pub fn nodes(&self) -> Nodes<'_, T, S>
        ensures all { AreAll self.now result }
        ensures count { length result ≡ live_count self.now }
    {
        Nodes {
            links: &self.links,
            store: &self.store,
            next: 0,
            left: self.store.len(),
        }
    }

    /// Iterates over the nodes without a parent, each once, in the order of `nodes`. Doesn't allocate;
    /// the whole iteration is O(n), where n is the peak number of nodes.
    ///
    /// ```rust
    /// for root in tree.roots() {
    ///     for (depth, node) in tree.outline(root, 100)? {
    ///         println!(rt; "depth {depth}: {}", tree.get(node)?)?;
    ///     }
    /// }
    /// ```
    pub fn roots(&self) -> Roots<'_, T, S>
        ensures { AreRoots self.now result }
    {
        Roots {
            links: &self.links,
            store: &self.store,
            next: 0,
        }
    }
}

/// The nodes of a tree: the iterator of [`SceneTree::nodes`](crate::SceneTree::nodes). Contracts model
/// it as the list of the remaining ones.
#[derive(Drop)]
pub struct Nodes<'a, T, S: Storage<T>> {
    links: &'a Links<T>,
    store: &'a S,
    next: usize,
    left: usize,
}

impl<'a, T, S: Storage<T>> Model for Nodes<'a, T, S> {
    ghost use Rattle.std.specs.Prelude.{◌≡◌, List, drop, false, length};
    ghost use Rattle.scene_tree.specs.Nodes.{Node};
    ghost use Rattle.scene_tree.specs.Meeting.{met};

    ghost Value = { List (Node T) };

    ghost view = { λ it. met (S.state it.store.now) false (drop it.next it.links.now.items) };

    ghost invariant = { λ it. it.left
        ≡ length (met (S.state it.store.now) false (drop it.next it.links.now.items)) };
}

impl<'a, T, S: Storage<T>> Iterator for Nodes<'a, T, S> {
    type Item = Node<T>;

    ghost next_gives = { YieldsFirst (λ left. left) };

    ghost remaining = { item_count (λ left. left) };

    fn next(&mut self) -> Option<Node<T>> {
        let (node, next) = next_met(self.links, self.store, false, self.next)?;
        self.next = next;
        self.left -= 1;
        Some(node)
    }

    fn size_hint(&self) -> (usize, Option<usize>)
        ensures lower { IsWithinCount result.0 (item_count (λ left. left) self.now) }
        ensures upper { IfSome result.1 (UpTo (item_count (λ left. left) self.now)) }
        ensures exact { result ≡ (length self.now, Some (length self.now)) }
    {
        (self.left, Some(self.left))
    }
}

impl<'a, T, S: Storage<T>> ExactSizeIterator for Nodes<'a, T, S> {
    fn len(&self) -> usize {
        self.left
    }
}

impl<'a, T, S: Storage<T>> FusedIterator for Nodes<'a, T, S> {}

/// The nodes of a tree without a parent: the iterator of [`SceneTree::roots`](crate::SceneTree::roots).
/// Contracts model it as the list of the remaining ones.
#[derive(Drop)]
pub struct Roots<'a, T, S: Storage<T>> {
    links: &'a Links<T>,
    store: &'a S,
    next: usize,
}

impl<'a, T, S: Storage<T>> Model for Roots<'a, T, S> {
    ghost use Rattle.std.specs.Prelude.{List, drop, true};
    ghost use Rattle.scene_tree.specs.Nodes.{Node};
    ghost use Rattle.scene_tree.specs.Meeting.{met};

    ghost Value = { List (Node T) };

    ghost view = { λ it. met (S.state it.store.now) true (drop it.next it.links.now.items) };
}

impl<'a, T, S: Storage<T>> Iterator for Roots<'a, T, S> {
    type Item = Node<T>;

    ghost next_gives = { YieldsFirst (λ left. left) };

    ghost remaining = { item_count (λ left. left) };

    fn next(&mut self) -> Option<Node<T>> {
        let (node, next) = next_met(self.links, self.store, true, self.next)?;
        self.next = next;
        Some(node)
    }
}

impl<'a, T, S: Storage<T>> FusedIterator for Roots<'a, T, S> {}

/// Whether the iterator yields a link's node: it is live, and if only roots are yielded, it has no
/// parent.
pub(crate) fn is_met<T, S: Storage<T>>(store: &S, only_roots: bool, link: &Link<T>) -> bool
    ensures { result ≡ is_met (S.state store.now) only_roots link.now }
{
    peek(store, link.node).is_some() && !(only_roots && link.parent.is_some())
}

// The first node that is yielded from a slot on, and the slot after its own.
fn next_met<T, S: Storage<T>>(
    links: &Links<T>,
    store: &S,
    only_roots: bool,
    from: usize,
) -> Option<(Node<T>, usize)>
    ensures found { IfSome result (λ at. met (S.state store.now) only_roots (drop from links.now.items)
        ≡ at.0 ∷ met (S.state store.now) only_roots (drop at.1 links.now.items)) }
    ensures none { IfNone result
        (met (S.state store.now) only_roots (drop from links.now.items) ≡ []) }
{
    let mut slot = from;
    while slot < links.len() {
        let link = links.at(slot);
        slot += 1;
        if is_met(store, only_roots, &link) {
            return Some((link.node, slot));
        }
    }
    None
}
