//! Trees.

use crate::graph::{Flow, Graph, Line, Look};
use generational_core::Storage;
use scene_tree::{Node, SceneTree};
use std::alloc::{AllocError, Global};
use std::io;
use std::io::Write;

/// Writes a node of a tree and those below it as DOT, depth-first, at most `limit` of them: each with
/// the label that the closure writes, and an edge to each child, from left to right. A stale node is
/// drawn dashed.
///
/// Allocates buffers for a line. O(k) for k nodes, not counting the closure.
///
/// # Errors
///
/// The writer's error, or one of kind `OutOfMemory`. A part of the text may have been written then.
pub fn write_tree<T, S: Storage<T>, W: Write, F>(
    alloc: Global,
    tree: &SceneTree<T, S>,
    node: Node<T>,
    limit: usize,
    out: &mut W,
    label: F,
) -> io::Result<()>
where
    F: Fn(Node<T>, &T, &mut String) -> Result<(), AllocError>,
    requires { F.IsAlwaysCallable label }
{
    let mut graph = Graph::begin(alloc, out, Flow::Down)?;
    let Ok(rows) = tree.outline(node, limit) else {
        graph.node(node, Look::Dashed, format_args!("{node}\nstale"))?;
        return graph.end();
    };
    for (depth, below) in rows {
        draw_node(tree, below, &mut graph, &label)?;
        if depth > 0 {
            draw_edge(tree, below, &mut graph)?;
        }
    }
    graph.end()
}

// Writes a node.
fn draw_node<T, S: Storage<T>, W: Write, F>(
    tree: &SceneTree<T, S>,
    node: Node<T>,
    graph: &mut Graph<'_, W>,
    label: &F,
) -> io::Result<()>
where
    F: Fn(Node<T>, &T, &mut String) -> Result<(), AllocError>,
    requires { F.IsAlwaysCallable label.now }
{
    let Ok(value) = tree.get(node) else {
        return Ok(());
    };
    graph.begin_node(node, Look::Box)?;
    label(node, value, &mut graph.text)?;
    graph.end_node()
}

// Writes the edge from a node's parent to it.
fn draw_edge<T, S: Storage<T>, W: Write>(
    tree: &SceneTree<T, S>,
    node: Node<T>,
    graph: &mut Graph<'_, W>,
) -> io::Result<()> {
    match tree.parent(node) {
        Ok(Some(parent)) => graph.edge(parent, node, Line::Solid),
        _ => Ok(()),
    }
}
