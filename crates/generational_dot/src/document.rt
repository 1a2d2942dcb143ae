//! Documents.

use crate::graph::{Flow, Graph, Line, Look};
use document_tree::{Document, Place};
use generational_core::Storage;
use indexmap::IndexSet;
use std::alloc::{AllocError, Global};
use std::io;
use std::io::Write;

/// Writes a place of a document and those below it as DOT, each once, level by level, at most `limit` of
/// them: each with the label that the closure writes, and an edge to each of its children, from left to
/// right. So a place that several parts list has several edges to it, and a cycle is drawn as one. A
/// stale place, and one that the limit left out, is drawn dashed.
///
/// Allocates a list of the places, and buffers for a line. O(n) for n places and their children, not
/// counting the closure.
///
/// # Errors
///
/// The writer's error, or one of kind `OutOfMemory`. A part of the text may have been written then.
pub fn write_document<T, S: Storage<u32>, W: Write, F>(
    alloc: Global,
    document: &Document<T, S>,
    place: Place,
    limit: usize,
    out: &mut W,
    label: F,
) -> io::Result<()>
where
    F: Fn(Place, &T, &mut String) -> Result<(), AllocError>,
    requires { F.IsAlwaysCallable label }
{
    let mut graph = Graph::begin(alloc, out, Flow::Down)?;
    let mut places = IndexSet::new(alloc);
    places.insert(place)?;
    let mut next = 0;
    while next < limit {
        let Some(place) = places.get_index(next).copied() else {
            break;
        };
        draw_place(document, place, &mut graph, &label)?;
        draw_children(document, place, &mut places, &mut graph)?;
        next += 1;
    }
    graph.end()
}

// Writes a place.
fn draw_place<T, S: Storage<u32>, W: Write, F>(
    document: &Document<T, S>,
    place: Place,
    graph: &mut Graph<'_, W>,
    label: &F,
) -> io::Result<()>
where
    F: Fn(Place, &T, &mut String) -> Result<(), AllocError>,
    requires { F.IsAlwaysCallable label.now }
{
    let Ok(content) = document.get(place) else {
        return graph.node(place, Look::Dashed, format_args!("{place}\nstale"));
    };
    graph.begin_node(place, Look::Box)?;
    label(place, content, &mut graph.text)?;
    graph.end_node()
}

// Writes the edges from a place to its children, which it adds to the list.
fn draw_children<T, S: Storage<u32>, W: Write>(
    document: &Document<T, S>,
    place: Place,
    places: &mut IndexSet<Place>,
    graph: &mut Graph<'_, W>,
) -> io::Result<()> {
    let Ok(children) = document.children(place) else {
        return Ok(());
    };
    for child in children {
        graph.edge(place, *child, Line::Solid)?;
        places.insert(*child)?;
    }
    Ok(())
}
