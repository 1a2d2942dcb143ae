//! Pictures: Graphviz text (DOT) of what a store or a library holds.
//!
//! `write_store`, `write_tree`, `write_document`, `write_sessions` and `write_entities` write to any
//! `Write`; the command `dot -Tsvg` of Graphviz draws what they wrote. Each takes a closure that makes
//! the label of a value, and escapes what the closure wrote. A [`Graph`] writes nodes and edges of your
//! own.
//!
//! What is gone is drawn dashed: a free slot, a stale handle, and the end of an edge that a limit left out.
#![tactic(auto)]

mod document;
mod entities;
mod escape;
mod graph;
mod sessions;
mod store;
mod tree;

pub use crate::document::write_document;
pub use crate::entities::write_entities;
pub use crate::graph::{Flow, Graph, Line, Look};
pub use crate::sessions::write_sessions;
pub use crate::store::write_store;
pub use crate::tree::write_tree;
