//! Trees, built on boxes: nodes with a parent and ordered children, and `Copy` handles that may outlive
//! their nodes.
//!
//! A [`Node`] is a handle of 24 bytes. A [`SceneTree`] has a store of the values, and each node's parent
//! and children, by their slots. It is a tree after each call: a node is once in its parent's list of
//! children and in no other, and going from parent to parent reaches a root. A call with a stale handle
//! fails with [`Stale`], which says where the node was made, even if its slot was reused.
#![tactic(auto)]

mod links;
mod listing;
mod node;
mod nodes;
mod packed;
mod parts;
mod rebuilding;
mod siblings;
mod spot;
mod tree;
mod walk;

pub use crate::node::{Node, NodeKind, TreeError};
pub use crate::nodes::{Nodes, Roots};
pub use crate::parts::{ChildRow, PartsFault, TreeParts};
pub use crate::spot::Spot;
pub use crate::tree::SceneTree;
pub use crate::walk::{Ancestors, Children, ChildrenBackwards, Outline};
pub use generational_core::HandedBack;
pub use handles::{Handle, Sites, Stale};
pub use live_cells::CellFault;
