//! Stores.

use crate::graph::{Flow, Graph, Line, Look};
use generational_core::{BaseRow, GenerationalBoxId, Location, Storage};
use std::alloc::{AllocError, Global};
use std::io;
use std::io::{ErrorKind, Write};

/// Writes a store as DOT: its slots below `limit`, and its owners. A live cell has its id, and the label
/// that the closure writes of its value; a free slot is dashed. A reference has an edge to its shared
/// value, an owner one to each box of its list, and a reader or a writer a dotted one to its value. The
/// closure isn't called on a value that is being written.
///
/// Allocates the store's rows, and buffers for a line. O(r) for r rows, and O(r) for each shared value
/// below the limit, not counting the closure.
///
/// # Errors
///
/// The writer's error, or one of kind `OutOfMemory`. A part of the text may have been written then.
pub fn write_store<T, S: Storage<T>, W: Write, F>(
    alloc: Global,
    store: &S,
    limit: usize,
    out: &mut W,
    label: F,
) -> io::Result<()>
where
    F: Fn(GenerationalBoxId, &T, &mut String) -> Result<(), AllocError>,
    requires { F.IsAlwaysCallable label }
{
    let Ok(rows) = store.rows() else {
        return Err(io::Error::from(ErrorKind::OutOfMemory));
    };
    let mut graph = Graph::begin(alloc, out, Flow::Right)?;
    let mut rest = rows.as_slice();
    while let Some((row, after)) = rest.split_first() {
        if is_within(row, limit) {
            draw_row(
                store,
                rows.as_slice(),
                row,
                after.first(),
                &mut graph,
                &label,
            )?;
        }
        rest = after;
    }
    graph.end()
}

// Whether a row is drawn if the slots below a limit are.
fn is_within(row: &BaseRow, limit: usize) -> bool {
    match row {
        BaseRow::Slot(slot, _) => *slot < limit,
        BaseRow::Value(id, _) | BaseRow::Shared(id, _) | BaseRow::Ref(id, _, _) => id.slot < limit,
        BaseRow::Reader(id, _, _) | BaseRow::Writer(id, _, _) => id.slot < limit,
        BaseRow::Owned(_, id) => id.slot < limit,
        BaseRow::Owner(_, _) => true,
    }
}

// Writes what a row says, which another row follows.
fn draw_row<T, S: Storage<T>, W: Write, F>(
    store: &S,
    rows: &[BaseRow],
    row: &BaseRow,
    after: Option<&BaseRow>,
    graph: &mut Graph<'_, W>,
    label: &F,
) -> io::Result<()>
where
    F: Fn(GenerationalBoxId, &T, &mut String) -> Result<(), AllocError>,
    requires { F.IsAlwaysCallable label.now }
{
    match *row {
        BaseRow::Slot(slot, generation) => draw_slot(slot, generation, after, graph),
        BaseRow::Value(id, _) => draw_value(store, id, id, graph, label),
        BaseRow::Shared(id, _) => draw_value(store, id, named_by(rows, id), graph, label),
        BaseRow::Ref(id, target, _) => draw_reference(id, target, graph),
        BaseRow::Reader(id, ticket, location) => draw_borrow("reader", id, ticket, location, graph),
        BaseRow::Writer(id, ticket, location) => draw_borrow("writer", id, ticket, location, graph),
        BaseRow::Owner(key, count) => draw_owner(key, count, graph),
        BaseRow::Owned(key, id) => graph.edge(
            format_args!("owner {key}"),
            format_args!("{id:?}"),
            Line::Solid,
        ),
    }
}

// Writes a slot without a live cell. The row after a slot's is that of its cell, if it has one.
fn draw_slot<W: Write>(
    slot: usize,
    generation: u64,
    after: Option<&BaseRow>,
    graph: &mut Graph<'_, W>,
) -> io::Result<()> {
    let state = match after {
        Some(BaseRow::Value(_, _) | BaseRow::Shared(_, _) | BaseRow::Ref(_, _, _)) => return Ok(()),
        _ if generation == u64::MAX => "retired",
        _ => "free",
    };
    graph.node(
        format_args!("{slot}@{generation}"),
        Look::Dashed,
        format_args!("{slot}@{generation}\n{state}"),
    )
}

// The id of the first reference to a shared value.
fn named_by(rows: &[BaseRow], id: GenerationalBoxId) -> GenerationalBoxId {
    for row in rows {
        match *row {
            BaseRow::Ref(name, target, _) if target == id => return name,
            _ => {}
        }
    }
    id
}

// Writes a value, which has an id, and which another id finds.
fn draw_value<T, S: Storage<T>, W: Write, F>(
    store: &S,
    id: GenerationalBoxId,
    name: GenerationalBoxId,
    graph: &mut Graph<'_, W>,
    label: &F,
) -> io::Result<()>
where
    F: Fn(GenerationalBoxId, &T, &mut String) -> Result<(), AllocError>,
    requires { F.IsAlwaysCallable label.now }
{
    graph.begin_node(format_args!("{id:?}"), Look::Box)?;
    match value_at(store, name) {
        Some(value) => put_value(id, value, label, &mut graph.text)?,
        None => write!(graph.text, "{id:?}\nbeing written")?,
    }
    graph.end_node()
}

// The value that an id finds, unless it is being written.
fn value_at<T, S: Storage<T>>(store: &S, id: GenerationalBoxId) -> Option<&T> {
    let pointer = store.find(id)?;
    store.peek(pointer)
}

// Writes the label of a value.
fn put_value<T, F>(
    id: GenerationalBoxId,
    value: &T,
    label: &F,
    text: &mut String,
) -> Result<(), AllocError>
where
    F: Fn(GenerationalBoxId, &T, &mut String) -> Result<(), AllocError>,
    requires { F.IsAlwaysCallable label.now }
{
    write!(text, "{id:?}\n")?;
    label(id, value, text)
}

// Writes a reference, and the edge to its shared value.
fn draw_reference<W: Write>(
    id: GenerationalBoxId,
    target: GenerationalBoxId,
    graph: &mut Graph<'_, W>,
) -> io::Result<()> {
    graph.node(format_args!("{id:?}"), Look::Box, format_args!("{id:?}"))?;
    graph.edge(
        format_args!("{id:?}"),
        format_args!("{target:?}"),
        Line::Solid,
    )
}

// Writes a reader or a writer, and the edge to its value.
fn draw_borrow<W: Write>(
    kind: &str,
    id: GenerationalBoxId,
    ticket: u64,
    location: Location,
    graph: &mut Graph<'_, W>,
) -> io::Result<()> {
    graph.node(
        format_args!("{kind} {ticket}"),
        Look::Round,
        format_args!("{kind} {ticket}\n{location}"),
    )?;
    graph.edge(
        format_args!("{kind} {ticket}"),
        format_args!("{id:?}"),
        Line::Dotted,
    )
}

// Writes an owner.
fn draw_owner<W: Write>(key: u64, count: u64, graph: &mut Graph<'_, W>) -> io::Result<()> {
    graph.node(
        format_args!("owner {key}"),
        Look::Round,
        format_args!("owner {key}\ncount {count}"),
    )
}
