//! Spots among the children of a node.

ghost use Rattle.std.specs.Prelude.{◌≡◌};
ghost use Rattle.scene_tree.specs.Spots.{named};

use crate::node::Node;
use std::alloc::AllocError;

/// A position among the children of a node.
pub enum Spot<T> {
    /// Before all children of this node.
    FirstOf(Node<T>),
    /// After all children of this node.
    LastOf(Node<T>),
    /// Right before this node, as a child of its parent.
    Before(Node<T>),
    /// Right after this node, as a child of its parent.
    After(Node<T>),
}

/// Never fails, and doesn't allocate.
impl<T> Clone for Spot<T> {
    ghost use Rattle.std.specs.Prelude.{⊤};

    ghost is_clone = { λ a b. b ≡ a };

    ghost is_infallible = { λ _. ⊤ };

    fn clone(&self) -> Result<Self, AllocError> {
        Ok(*self)
    }
}

impl<T> Copy for Spot<T> {}

impl<T> Spot<T> {
    /// The spot's node: the parent, or the sibling.
    ///
    /// ```rust
    /// let sibling = Spot::Before(child).node();
    /// ```
    pub fn node(self) -> Node<T>
        ensures { result ≡ named self }
    {
        match self {
            Spot::FirstOf(parent) => parent,
            Spot::LastOf(parent) => parent,
            Spot::Before(sibling) => sibling,
            Spot::After(sibling) => sibling,
        }
    }
}
