//! Types that can be saved, an image that is saved and read back, and rows with their store's image in one
//! file.
#![tactic(auto)]

mod again;
mod own;
mod rows;

pub use crate::again::{NotAgain, hero_again, id_again, number_again, saved_again, value_again};
pub use crate::own::{Hero, Item};
pub use crate::rows::{read_rows, rows_again, write_rows};
