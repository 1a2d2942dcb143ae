//! Tables of sessions.

use crate::graph::{Flow, Graph, Line, Look};
use generational_core::Storage;
use session_table::{Session, SessionTable};
use std::alloc::{AllocError, Global};
use std::hash::Hash;
use std::io;
use std::io::Write;

/// Writes the first sessions of a table as DOT, at most `limit` of them, in the order of
/// [`SessionTable::sessions`] from left to right: each with the label that the first closure writes of its
/// id and the time of its last use, and an edge to each of its entries, with the label that the second
/// closure writes.
///
/// Allocates buffers for a line. O(n) for n sessions and their entries, not counting the closures.
///
/// # Errors
///
/// The writer's error, or one of kind `OutOfMemory`. A part of the text may have been written then.
pub fn write_sessions<I: Eq + Hash, K: Eq + Hash, T, S: Storage<T>, W: Write, F, G>(
    alloc: Global,
    table: &SessionTable<I, K, T, S>,
    limit: usize,
    out: &mut W,
    session_label: F,
    entry_label: G,
) -> io::Result<()>
where
    F: Fn(&I, u64, &mut String) -> Result<(), AllocError>,
    G: Fn(&K, &T, &mut String) -> Result<(), AllocError>,
    requires sessions { F.IsAlwaysCallable session_label }
    requires entries { G.IsAlwaysCallable entry_label }
{
    let mut graph = Graph::begin(alloc, out, Flow::Down)?;
    for (index, (id, session)) in (0..limit).zip(table.sessions()) {
        draw_session(index, id, session.used_at(), &mut graph, &session_label)?;
        draw_entries(table, index, session, &mut graph, &entry_label)?;
    }
    graph.end()
}

// Writes a session.
fn draw_session<I, W: Write, F>(
    index: usize,
    id: &I,
    used_at: u64,
    graph: &mut Graph<'_, W>,
    label: &F,
) -> io::Result<()>
where
    F: Fn(&I, u64, &mut String) -> Result<(), AllocError>,
    requires { F.IsAlwaysCallable label.now }
{
    graph.begin_node(format_args!("session {index}"), Look::Round)?;
    label(id, used_at, &mut graph.text)?;
    graph.end_node()
}

// Writes the entries of a session, and the edges to them.
fn draw_entries<I: Eq + Hash, K: Eq + Hash, T, S: Storage<T>, W: Write, G>(
    table: &SessionTable<I, K, T, S>,
    index: usize,
    session: &Session<K, T>,
    graph: &mut Graph<'_, W>,
    label: &G,
) -> io::Result<()>
where
    G: Fn(&K, &T, &mut String) -> Result<(), AllocError>,
    requires { G.IsAlwaysCallable label.now }
{
    for (key, entry) in session.entries() {
        if let Ok(value) = table.get(entry) {
            graph.begin_node(entry, Look::Box)?;
            label(key, value, &mut graph.text)?;
            graph.end_node()?;
        }
        graph.edge(format_args!("session {index}"), entry, Line::Solid)?;
    }
    Ok(())
}
