//! Scripts of calls over boxes: their commands, their replies, and whole runs of them.
//!
//! The program `boxes` runs one script over its standard streams; its page says what the commands are. A
//! [`Script`] runs a line at a time, over any store of texts. `boxes fuzz` draws a list of calls,
//! [`fuzz_list`], and compares the replies of two stores, [`fuzz_pair`]: whether they agree, ids and
//! numbers of slots aside, and whether each keeps the bound on its slots.
#![tactic(auto)]

mod bound;
mod drawing;
mod fault;
mod fuzz;
mod lines;
pub mod numbers;
mod replies;
mod run;
mod script;
mod verdict;
mod words;

pub use crate::bound::is_bounded;
pub use crate::drawing::fuzz_calls;
pub use crate::fault::ScriptFault;
pub use crate::fuzz::{Pair, compare_stores, fuzz_list, fuzz_pair};
pub use crate::replies::{is_lacking, is_same};
pub use crate::run::{boxes_run, fuzz_run, report};
pub use crate::script::{Script, write_reply};
pub use crate::verdict::{Verdict, compare};
pub use crate::words::fuzz_words;
