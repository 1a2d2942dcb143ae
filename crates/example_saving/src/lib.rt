//! Tables, trees, documents and sessions that are taken apart and made again.
#![tactic(auto)]

mod documents;
mod moved;
mod sessions;
mod tables;
mod trees;

pub use crate::documents::document_again;
pub use crate::moved::{adopt_rows, tree_under};
pub use crate::sessions::{SessionRow, log_in_again, session_rows, sessions_again};
pub use crate::tables::made_again;
pub use crate::trees::tree_again;
