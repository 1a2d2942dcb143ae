//! The containers of a store of generational boxes, none of which knows a store: the borrows of one cell
//! and a table of their lists, pools of free slots and indexes, and the records of owners.
//!
//! It is an internal part of `generational_box`; users import that. Its items are `pub` for the crates
//! that depend on it, and may change with them.
#![tactic(auto)]

pub mod borrows;
pub mod free_list;
pub mod indexes;
pub mod names;
pub mod owners;
pub mod pool;
pub mod queue;
pub mod room;
pub mod table;
