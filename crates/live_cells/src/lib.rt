//! The live cells of a store that was loaded.
//!
//! A table or a tree that is made of a store with values has to find them: [`plain_cells`] lists them,
//! if the store has no references and no borrows. The libraries that are built on boxes use it, and pass
//! on [`CellFault`], the only item that their users need.
#![tactic(auto)]

mod cells;

pub use crate::cells::{CellFault, plain_cells};
