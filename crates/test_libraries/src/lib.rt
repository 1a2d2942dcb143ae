//! Tests of the libraries built on boxes: signals, tables of entities, of components and of sessions,
//! trees, documents, and graphs of sources and memos, over stores of either order of free slots. The
//! expected rows are worked out by hand.
#![tactic(auto)]

#[cfg(test)]
mod adding;
#[cfg(test)]
mod counted;
#[cfg(test)]
mod document_acts;
#[cfg(test)]
mod document_counts;
#[cfg(test)]
mod document_counts_memory;
#[cfg(test)]
mod document_histories;
#[cfg(test)]
mod document_limits;
#[cfg(test)]
mod document_memory;
#[cfg(test)]
mod entity_acts;
#[cfg(test)]
mod entity_histories;
#[cfg(test)]
mod entity_limits;
#[cfg(test)]
mod entity_memory;
#[cfg(test)]
mod entity_sets;
#[cfg(test)]
mod entity_sparse;
#[cfg(test)]
mod entity_sparse_memory;
#[cfg(test)]
mod expected;
#[cfg(test)]
mod fresh;
#[cfg(test)]
mod gauge;
#[cfg(test)]
mod graph_calls;
#[cfg(test)]
mod graph_costs;
#[cfg(test)]
mod graph_drawn;
#[cfg(test)]
mod graph_effects;
#[cfg(test)]
mod graph_faults;
#[cfg(test)]
mod graph_lines;
#[cfg(test)]
mod graph_memory;
#[cfg(test)]
mod graph_plain;
#[cfg(test)]
mod graph_runs;
#[cfg(test)]
mod graph_texts;
#[cfg(test)]
mod growth;
#[cfg(test)]
mod leaps;
#[cfg(test)]
mod let_go;
#[cfg(test)]
mod rows;
#[cfg(test)]
mod session_acts;
#[cfg(test)]
mod session_blocks;
#[cfg(test)]
mod session_finds;
#[cfg(test)]
mod session_handles;
#[cfg(test)]
mod session_histories;
#[cfg(test)]
mod session_limits;
#[cfg(test)]
mod session_memory;
#[cfg(test)]
mod session_owners;
#[cfg(test)]
mod session_owners_memory;
#[cfg(test)]
mod session_puts;
#[cfg(test)]
mod session_puts_memory;
#[cfg(test)]
mod signal_calls;
#[cfg(test)]
mod signal_rows;
#[cfg(test)]
mod steps;
#[cfg(test)]
mod tree_acts;
#[cfg(test)]
mod tree_handles;
#[cfg(test)]
mod tree_histories;
#[cfg(test)]
mod tree_limits;
#[cfg(test)]
mod tree_memory;
