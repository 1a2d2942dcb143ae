//! Tables of entities.

use crate::graph::{Flow, Graph, Look};
use entity_table::{Entity, EntityTable};
use generational_core::Storage;
use std::alloc::{AllocError, Global};
use std::io;
use std::io::Write;

/// Writes the first entities of a table as DOT, at most `limit` of them, in the order of
/// [`EntityTable::iter`] from left to right: each with the label that the closure writes. The closure may
/// write components too, each on a line.
///
/// Allocates buffers for a line. O(n) for n slots, not counting the closure.
///
/// # Errors
///
/// The writer's error, or one of kind `OutOfMemory`. A part of the text may have been written then.
pub fn write_entities<T, S: Storage<T>, W: Write, F>(
    alloc: Global,
    table: &EntityTable<T, S>,
    limit: usize,
    out: &mut W,
    label: F,
) -> io::Result<()>
where
    F: Fn(Entity<T>, &T, &mut String) -> Result<(), AllocError>,
    requires { F.IsAlwaysCallable label }
{
    let mut graph = Graph::begin(alloc, out, Flow::Down)?;
    for (_, (entity, element)) in (0..limit).zip(table.iter()) {
        draw_entity(entity, element, &mut graph, &label)?;
    }
    graph.end()
}

// Writes an entity.
fn draw_entity<T, W: Write, F>(
    entity: Entity<T>,
    element: &T,
    graph: &mut Graph<'_, W>,
    label: &F,
) -> io::Result<()>
where
    F: Fn(Entity<T>, &T, &mut String) -> Result<(), AllocError>,
    requires { F.IsAlwaysCallable label.now }
{
    graph.begin_node(entity, Look::Box)?;
    label(entity, element, &mut graph.text)?;
    graph.end_node()
}
