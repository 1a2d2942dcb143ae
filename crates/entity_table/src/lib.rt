//! Entity tables, built on boxes: `Copy` handles that may outlive their entities, iteration over the
//! live entities, and tables of components.
//!
//! An [`Entity`] is a handle of 24 bytes. An [`EntityTable`] has a store of the entities' elements, and
//! the generation and the site of each live entity by its slot. A call with a stale handle fails with
//! [`Stale`], which says where the entity was made, even if its slot was reused. Each call's contract
//! says which element every entity has afterwards.
#![tactic(auto)]

mod component_set;
mod components;
mod entity;
mod laws;
mod pair;
mod parts;
mod sparse;
mod table;
mod walk;

pub use crate::component_set::ComponentSet;
pub use crate::components::{AttachError, ComponentTable};
pub use crate::entity::{Entity, EntityKind};
pub use crate::laws::{
    changed_components, changed_elements, changed_pairs, equal_entities_show_the_same,
};
pub use crate::pair::PairError;
pub use crate::parts::{EntityParts, RowFault};
pub use crate::sparse::{SparseIter, SparseJoin, SparseJoinWith, SparseTable};
pub use crate::table::EntityTable;
pub use crate::walk::{ComponentIter, Iter, Join};
pub use generational_core::HandedBack;
pub use handles::{Handle, HandleIter, Sites, Stale};
pub use live_cells::CellFault;
