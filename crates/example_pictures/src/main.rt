//! Small examples, written as DOT: the page of pictures has the pictures that `dot` draws of them.
#![tactic(auto)]

ghost use Rattle.std.specs.Io.KnownBytes.{Appends};
ghost use Rattle.std.specs.Prelude.{OnOk};
ghost use Rattle.generational_dot.specs.declared.graph.Look.TheVariants as look;
ghost use Rattle.generational_dot.specs.Graphs.{bytes_held};
ghost use Rattle.generational_dot.specs.Texts.{node_text};

use anyhow::Result;
use document_tree::{Document, Place};
use entity_table::{ComponentTable, Entity, EntityTable};
use generational_box::{GenerationalBox, Location, Owner, Storage, UnsyncStorage};
use generational_dot::{
    Flow, Graph, Line, Look, write_document, write_entities, write_sessions, write_store,
    write_tree,
};
use scene_tree::{Node, SceneTree};
use session_table::SessionTable;
use std::alloc::{AllocError, Global};
use std::io;
use std::io::Write;

fn main(rt: HostRuntime) -> Result<()> {
    let alloc = rt.alloc();
    draw_store(&rt, alloc, &mut UnsyncStorage::<u64>::new(alloc, 1))?;
    let store = UnsyncStorage::<u64>::new(alloc, 2);
    draw_tree(&rt, alloc, &mut SceneTree::new(alloc, store))?;
    let store = UnsyncStorage::<u32>::new(alloc, 3);
    draw_document(&rt, alloc, &mut Document::new(alloc, store))?;
    let store = UnsyncStorage::<u64>::new(alloc, 4);
    draw_entities(&rt, alloc, &mut EntityTable::new(alloc, store))?;
    draw_graph(&rt, alloc)?;

    let store = UnsyncStorage::<u64>::new(alloc, 5);
    let mut table = SessionTable::new(alloc, store);
    let drawn = draw_sessions(&rt, alloc, &mut table);
    let _ = table.finish();
    drawn
}

fn at(line: u32) -> Location {
    Location::new("main.rt", line, 16)
}

fn draw_store<R: Print, S: Storage<u64>>(rt: &R, alloc: Global, store: &mut S) -> Result<()> {
    let owner = store.owner()?;
    let drawn = draw_owned(rt, alloc, store, &owner);
    owner.leak();
    drawn
}

// An owner's boxes: a value that is read, a shared value with two references, and a box whose value was
// dropped.
fn draw_owned<R: Print, S: Storage<u64>>(
    rt: &R,
    alloc: Global,
    store: &mut S,
    owner: &Owner,
) -> Result<()> {
    let plain = owner.insert(store, 5, at(61))?;
    let shared = owner.insert_rc(store, 7, at(62))?;
    shared.leak_reference(store)?;
    owner.insert(store, 9, at(64))?.manually_drop(store)?;
    draw_read(rt, alloc, store, plain)
}

fn draw_read<R: Print, S: Storage<u64>>(
    rt: &R,
    alloc: Global,
    store: &mut S,
    read: GenerationalBox<u64>,
) -> Result<()> {
    let guard = read.try_read(store, at(74))?;
    let mut out = io::writer(rt);
    let drawn = write_store(
        alloc,
        store,
        100,
        &mut out,
        |_, value: &u64, label: &mut String| { write!(label, "{value}") },
    );
    guard.release(store);
    drawn?;
    Ok(())
}

fn draw_tree<R: Print, S: Storage<u64>>(
    rt: &R,
    alloc: Global,
    tree: &mut SceneTree<u64, S>,
) -> Result<()> {
    let window = tree.add_root(1, at(93))?;
    let menu = tree.add_child(window, 2, at(94))?;
    let list = tree.add_child(window, 3, at(95))?;
    tree.add_child(menu, 4, at(96))?;
    tree.add_child(list, 5, at(97))?;
    tree.add_child(list, 6, at(98))?;
    let mut out = io::writer(rt);
    write_tree(
        alloc,
        tree,
        window,
        100,
        &mut out,
        |node: Node<u64>, value: &u64, label: &mut String| {
            write!(label, "{node}\nvalue {value}")
        },
    )?;
    Ok(())
}

fn draw_document<R: Print, S: Storage<u32>>(
    rt: &R,
    alloc: Global,
    document: &mut Document<u64, S>,
) -> Result<()> {
    let book = document.add(0, at(118))?;
    let first = document.add(1, at(119))?;
    let second = document.add(2, at(120))?;
    let heading = document.add(10, at(121))?;
    let note = document.add(20, at(122))?;
    for (parent, child) in [
        (book, first),
        (book, second),
        (first, heading),
        (second, heading),
        (second, note),
    ] {
        document.append(parent, child)?;
    }
    document.remove(note)?;
    let mut out = io::writer(rt);
    write_document(
        alloc,
        document,
        book,
        100,
        &mut out,
        |place: Place, content: &u64, label: &mut String| {
            write!(label, "{place}\npart {content}")
        },
    )?;
    Ok(())
}

fn draw_entities<R: Print, S: Storage<u64>>(
    rt: &R,
    alloc: Global,
    table: &mut EntityTable<u64, S>,
) -> Result<()> {
    let mut speeds = ComponentTable::<u64, u64>::new(alloc, table);
    let hero = table.spawn(10, at(153))?;
    table.spawn(20, at(154))?;
    speeds.insert(hero, 3)?;
    let mut out = io::writer(rt);
    write_entities(
        alloc,
        table,
        100,
        &mut out,
        |entity: Entity<u64>, place: &u64, label: &mut String| {
            write!(label, "{entity}\nplace {place}")?;
            match speeds.get(entity) {
                Some(speed) => write!(label, "\nspeed {speed}"),
                None => Ok(()),
            }
        },
    )?;
    Ok(())
}

// Two sources and a memo of both.
fn draw_graph<R: Print>(rt: &R, alloc: Global) -> Result<()> {
    let mut out = io::writer(rt);
    let mut graph = Graph::begin(alloc, &mut out, Flow::Right)?;
    put_source(&mut graph, "price")?;
    put_source(&mut graph, "count")?;
    graph.node("total", Look::Round, "price * count")?;
    graph.edge("price", "total", Line::Solid)?;
    graph.edge("count", "total", Line::Solid)?;
    graph.end()?;
    Ok(())
}

// Writes a box with its name as its label.
fn put_source<W: Write>(graph: &mut Graph<'_, W>, name: &str) -> io::Result<()>
    ensures { OnOk result (Appends (bytes_held W.contents graph.old) (bytes_held W.contents graph.new)
        (node_text look.Box name.now name.now)) }
{
    graph.node(name, Look::Box, name)
}

fn draw_sessions<R: Print, S: Storage<u64>>(
    rt: &R,
    alloc: Global,
    table: &mut SessionTable<u64, u64, u64, S>,
) -> Result<()> {
    for id in [7, 8] {
        table.login(id, 1000)?;
        table.put(&id, 1, 42, at(201))?;
    }
    table.put(&8, 2, 43, at(203))?;
    let mut out = io::writer(rt);
    write_sessions(
        alloc,
        table,
        100,
        &mut out,
        |id: &u64, used_at: u64, label: &mut String| {
            write!(label, "user {id}\nused at {used_at}")
        },
        |key: &u64, value: &u64, label: &mut String| write!(label, "{key}: {value}"),
    )?;
    Ok(())
}
