//! A node's first and last child, and its neighbours among its siblings.

ghost use Rattle.std.specs.Prelude.{◌≡◌, ◌↔◌, ◌<◌, ℕ, None, Some, IfOk, IfErr, IsErr, length, slice_get};
ghost use Rattle.std.specs.List.{last_or};
ghost use Rattle.handles.specs.Handles.{slot_in};
ghost use Rattle.scene_tree.specs.Families.{IsAmong, AreChildrenLinked, above, children_at, families, parent_at};
ghost use Rattle.scene_tree.specs.Siblings.{next_in, node_at, previous_in, siblings_at, siblings_of};
ghost use Rattle.scene_tree.specs.Trees.{children_of, created_at, value_of};

use crate::links::{parent_at, sides_at};
use crate::node::Node;
use crate::packed::Links;
use crate::tree::SceneTree;
use generational_core::Storage;
use handles::Stale;
use handles::parts::slot_of;

impl<T, S: Storage<T>> SceneTree<T, S> {
    /// Returns a node's first child, if it has children. Doesn't allocate, and is O(1).
    ///
    /// # Errors
    ///
    /// `Stale` if the node was removed, or is of a store with another number.
    ///
    /// ```rust
    /// let first = tree.first_child(root)?;
    /// ```
    pub fn first_child(&self, node: Node<T>) -> Result<Option<Node<T>>, Stale>
        ensures child { IfOk result (λ child. child ≡ slice_get (children_of self.now node) 0) }
        ensures stale { IsErr result ↔ value_of self.now node ≡ None }
        ensures told { IfErr result (λ stale. stale.created_at ≡ created_at self.now node) }
    {
        Ok(self.children(node)?.next())
    }

    /// Returns a node's last child, if it has children. Doesn't allocate, and is O(1).
    ///
    /// # Errors
    ///
    /// `Stale` if the node was removed, or is of a store with another number.
    ///
    /// ```rust
    /// let last = tree.last_child(root)?;
    /// ```
    pub fn last_child(&self, node: Node<T>) -> Result<Option<Node<T>>, Stale>
        ensures child { IfOk result (λ child. child ≡ last_or None (children_of self.now node)) }
        ensures stale { IsErr result ↔ value_of self.now node ≡ None }
        ensures told { IfErr result (λ stale. stale.created_at ≡ created_at self.now node) }
    {
        Ok(self.children_backwards(node)?.next())
    }

    /// Returns the sibling right behind a node, if there is one: None of a last child, and of a root.
    /// Doesn't allocate, and is O(1).
    ///
    /// # Errors
    ///
    /// `Stale` if the node was removed, or is of a store with another number.
    ///
    /// ```rust
    /// let next = tree.next_sibling(node)?;
    /// ```
    pub fn next_sibling(&self, node: Node<T>) -> Result<Option<Node<T>>, Stale>
        ensures next { IfOk result (λ next. next ≡ next_in node (siblings_of self.now node)) }
        ensures stale { IsErr result ↔ value_of self.now node ≡ None }
        ensures told { IfErr result (λ stale. stale.created_at ≡ created_at self.now node) }
    {
        if !self.is_alive(node) {
            return Err(self.stale(node));
        }
        Ok(node_at(&self.links, sides_of(&self.links, node).1))
    }

    /// Returns the sibling right before a node, if there is one: None of a first child, and of a root.
    /// Doesn't allocate, and is O(1).
    ///
    /// # Errors
    ///
    /// `Stale` if the node was removed, or is of a store with another number.
    ///
    /// ```rust
    /// let previous = tree.previous_sibling(node)?;
    /// ```
    pub fn previous_sibling(&self, node: Node<T>) -> Result<Option<Node<T>>, Stale>
        ensures previous { IfOk result (λ previous. previous ≡ previous_in node (siblings_of self.now node)) }
        ensures stale { IsErr result ↔ value_of self.now node ≡ None }
        ensures told { IfErr result (λ stale. stale.created_at ≡ created_at self.now node) }
    {
        if !self.is_alive(node) {
            return Err(self.stale(node));
        }
        Ok(node_at(&self.links, sides_of(&self.links, node).0))
    }
}

// The node that is noted at a slot, if there is a slot.
fn node_at<T>(links: &Links<T>, slot: Option<usize>) -> Option<Node<T>>
    ensures { result ≡ node_at links.now.items slot }
{
    let slot = slot?;
    if slot >= links.len() {
        return None;
    }
    Some(links.at(slot).node)
}

// The slots of the siblings before and after a node: none of a root.
fn sides_of<T>(links: &Links<T>, node: Node<T>) -> (Option<usize>, Option<usize>)
    requires linked { AreChildrenLinked links.now.items }
    requires within { slot_in node < length links.now.items }
    requires among { (up : ℕ) → above (families links.now.items) (slot_in node) ≡ Some up →
        IsAmong (children_at (families links.now.items) up) node }
    ensures previous { node_at links.now.items result.0 ≡ previous_in node
        (siblings_at (families links.now.items) (above (families links.now.items) (slot_in node))) }
    ensures next { node_at links.now.items result.1 ≡ next_in node
        (siblings_at (families links.now.items) (above (families links.now.items) (slot_in node))) }
{
    let slot = slot_of(node);
    match parent_at(links, slot) {
        Some(_) => sides_at(links, slot),
        None => (None, None),
    }
}
