//! What is written of stores, tables, trees and documents as DOT, by any writer.

use document_tree::{Document, Place};
use entity_table::{Entity, EntityTable};
use generational_core::{GenerationalBoxId, Storage};
use generational_dot::{
    Flow, Graph, Line, Look, write_document, write_entities, write_sessions, write_store,
    write_tree,
};
use scene_tree::{Node, SceneTree};
use session_table::SessionTable;
use std::alloc::{AllocError, Global};
use std::fmt::Display;
use std::io;
use std::io::{Error, ErrorKind, Write};
use std::process::Abort;

/// Something of which a picture is written.
pub(crate) trait Picture {
    fn draw<W: Write>(&self, alloc: Global, out: &mut W) -> io::Result<()>;
}

/// A store, of which the slots below a limit are drawn.
#[derive(Drop)]
pub(crate) struct OfStore<S> {
    pub(crate) store: S,
    pub(crate) limit: usize,
}

/// A node of a tree with those below it, as many as a limit allows.
#[derive(Drop)]
pub(crate) struct OfTree<S: Storage<u64>> {
    pub(crate) tree: SceneTree<u64, S>,
    pub(crate) node: Node<u64>,
    pub(crate) limit: usize,
}

/// A place of a document with those below it, as many as a limit allows.
#[derive(Drop)]
pub(crate) struct OfDocument<S: Storage<u32>> {
    pub(crate) document: Document<u64, S>,
    pub(crate) place: Place,
    pub(crate) limit: usize,
}

/// The first sessions of a table.
pub(crate) struct OfSessions<S: Storage<u64>> {
    pub(crate) table: SessionTable<u64, u64, u64, S>,
    pub(crate) limit: usize,
}

/// The first entities of a table.
#[derive(Drop)]
pub(crate) struct OfEntities<S: Storage<u64>> {
    pub(crate) table: EntityTable<u64, S>,
    pub(crate) limit: usize,
}

/// A node and its own edge, of any text.
#[derive(Drop)]
pub(crate) struct OfText(pub(crate) &'static str);

// Writes a label.
fn put<D: Display>(value: &D, label: &mut String) -> Result<(), AllocError> {
    write!(label, "{value}")
}

impl<S: Storage<u64>> Picture for OfStore<S> {
    fn draw<W: Write>(&self, alloc: Global, out: &mut W) -> io::Result<()> {
        write_store(
            alloc,
            &self.store,
            self.limit,
            out,
            |_: GenerationalBoxId, value: &u64, label: &mut String| put(value, label),
        )
    }
}

impl<S: Storage<u64>> Picture for OfTree<S> {
    fn draw<W: Write>(&self, alloc: Global, out: &mut W) -> io::Result<()> {
        write_tree(
            alloc,
            &self.tree,
            self.node,
            self.limit,
            out,
            |_: Node<u64>, value: &u64, label: &mut String| put(value, label),
        )
    }
}

impl<S: Storage<u32>> Picture for OfDocument<S> {
    fn draw<W: Write>(&self, alloc: Global, out: &mut W) -> io::Result<()> {
        write_document(
            alloc,
            &self.document,
            self.place,
            self.limit,
            out,
            |_: Place, content: &u64, label: &mut String| put(content, label),
        )
    }
}

impl<S: Storage<u64>> Picture for OfSessions<S> {
    fn draw<W: Write>(&self, alloc: Global, out: &mut W) -> io::Result<()> {
        write_sessions(
            alloc,
            &self.table,
            self.limit,
            out,
            |id: &u64, _: u64, label: &mut String| put(id, label),
            |_: &u64, value: &u64, label: &mut String| put(value, label),
        )
    }
}

impl<S: Storage<u64>> Picture for OfEntities<S> {
    fn draw<W: Write>(&self, alloc: Global, out: &mut W) -> io::Result<()> {
        write_entities(
            alloc,
            &self.table,
            self.limit,
            out,
            |_: Entity<u64>, element: &u64, label: &mut String| put(element, label),
        )
    }
}

impl Picture for OfText {
    fn draw<W: Write>(&self, alloc: Global, out: &mut W) -> io::Result<()> {
        let mut graph = Graph::begin(alloc, out, Flow::Right)?;
        graph.node(self.0, Look::Dashed, self.0)?;
        graph.edge(self.0, self.0, Line::Dotted)?;
        graph.end()
    }
}

// A writer that takes so many bytes, and then fails.
#[derive(Drop)]
struct Narrow {
    taken: Vec<u8>,
    room: usize,
}

impl Write for Narrow {
    fn write(&mut self, buf: &[u8]) -> io::Result<usize> {
        let most = buf.len().min(self.room);
        if most == 0 {
            return Err(Error::from(ErrorKind::StorageFull));
        }
        self.taken.extend_from_slice(&buf[..most])?;
        self.room -= most;
        Ok(most)
    }

    fn flush(&mut self) -> io::Result<()> {
        Ok(())
    }
}

/// Asserts what is written of a picture: all of it, or as much of it as the writer has room for, and then
/// the writer's error.
pub(crate) fn assert_drawn<P: Picture>(rt: &impl Abort, alloc: Global, picture: &P, wanted: &str) {
    for room in 0..=wanted.len() {
        let mut out = Narrow {
            taken: Vec::new(alloc),
            room,
        };
        let cause = picture
            .draw(alloc, &mut out)
            .err()
            .map(|error| error.kind());
        let is_whole = room == wanted.len();
        assert_eq!(rt;
            cause,
            if is_whole {
                None
            } else {
                Some(ErrorKind::StorageFull)
            }
        );
        assert_eq!(rt; out.taken.as_slice(), &wanted.as_bytes()[..room]);
    }
}
