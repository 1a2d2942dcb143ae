//! Handles of nodes, and why a call on a tree fails.

use generational_core::{Location, StoreError};
use handles::{Handle, Stale};
use std::error::Error;
use std::fmt;

/// What marks a handle as a node's.
pub enum NodeKind {}

/// A handle of a node. It is `Copy`, owns nothing, and may outlive its node: it never refers to a later
/// one.
pub type Node<T> = Handle<T, NodeKind>;

/// Why a call on a tree fails.
#[derive(Clone, Copy, Debug, PartialEq, Eq)]
pub enum TreeError {
    /// The node was removed, or belongs to another tree.
    Stale(Stale),
    /// The spot's node has no parent, so it can have no sibling; it was made here.
    NoParent(Option<Location>),
    /// The node would be its own child or sibling, or below itself.
    Cycle,
    /// The store failed, or memory ran out.
    Store(StoreError),
}

/// Prints the text of `Stale`, `the node made at FILE:LINE:COLUMN has no parent`, `the node would be below
/// itself`, or the text of the `StoreError`.
impl fmt::Display for TreeError {
    ghost use Rattle.std.specs.Prelude.{Some};
    ghost use Rattle.scene_tree.specs.Texts.{tree_error_text};

    ghost output = { λ it. Some (tree_error_text it) };

    fn fmt<W: fmt::Write>(&self, f: &mut fmt::Formatter<W>) -> fmt::Result {
        match self {
            TreeError::Stale(stale) => write!(f, "{stale}"),
            TreeError::NoParent(Some(created_at)) => {
                write!(f, "the node made at {created_at} has no parent")
            }
            TreeError::NoParent(None) => write!(f, "the node has no parent"),
            TreeError::Cycle => write!(f, "the node would be below itself"),
            TreeError::Store(cause) => write!(f, "{cause}"),
        }
    }
}

impl Error for TreeError {}

/// Converts with `?`, and keeps where the node was made. Doesn't allocate.
impl From<Stale> for TreeError {
    ghost use Rattle.std.specs.Prelude.{◌≡◌};
    ghost use Rattle.scene_tree.specs.declared.node.TreeError.TheVariants as error;

    ghost from_gives = { λ stale r. r ≡ error.Stale stale };

    fn from(stale: Stale) -> TreeError {
        TreeError::Stale(stale)
    }
}
