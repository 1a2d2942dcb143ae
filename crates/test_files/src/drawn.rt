//! The exact text of each picture.

ghost use Rattle.std.specs.Prelude.{◌≤◌};

use crate::pictures::{OfDocument, OfEntities, OfSessions, OfStore, OfText, OfTree, assert_drawn};
use document_tree::Document;
use entity_table::EntityTable;
use generational_box::{LastFirst, Numbers, Store};
use generational_core::{GenerationalBox, Location, Storage};
use scene_tree::SceneTree;
use session_table::SessionTable;
use std::alloc::Global;
use std::process::Abort;

pub(crate) const DOWN: &str =
    "digraph {\n    ordering=out;\n    node [shape=box, style=dashed, fontname=\"sans-serif\"];\n";

pub(crate) const RIGHT: &str =
    "digraph {\n    rankdir=LR;\n    node [shape=box, style=dashed, fontname=\"sans-serif\"];\n";

/// What is drawn of a new store.
pub(crate) trait Scene<T> {
    fn play<R: Abort, S: Storage<T> + Drop>(&self, rt: &R, alloc: Global, store: S);
}

/// Plays a scene over a new store whose slots begin with this generation.
pub(crate) fn play<T: Drop, P: Scene<T>>(rt: &impl Abort, alloc: Global, generation: u64, scene: &P)
    requires { 1 ≤ generation }
{
    let numbers = Numbers {
        generation,
        ticket: 0,
    };
    let store: Store<T, LastFirst> = Store::new_at(alloc, 1, numbers);
    scene.play(rt, alloc, store);
}

/// Where all is made.
pub(crate) fn here() -> Location {
    Location::new("here \"\\.rs", 3, 5)
}

/// What a call returns that doesn't fail.
fn given<T, E: Drop>(rt: &impl Abort, answer: Result<T, E>) -> T {
    match answer {
        Ok(given) => given,
        Err(_) => panic!(rt; "it failed"),
    }
}

/// The text of a picture.
fn text(rt: &impl Abort, alloc: Global, begin: &str, lines: &[&str]) -> String {
    let mut text = given(rt, String::from_str(alloc, begin));
    for line in lines {
        given(rt, write!(text, "    {line};\n"));
    }
    given(rt, text.push_str("}\n"));
    text
}

const STORE: [&str; 19] = [
    "\"0@1\" [style=solid, label=\"0@1\\n5\"]",
    "\"reader 1\" [shape=ellipse, style=solid, label=\"reader 1\\nhere \\\"\\\\.rs:3:5\"]",
    "\"reader 1\" -> \"0@1\" [style=dotted]",
    "\"reader 2\" [shape=ellipse, style=solid, label=\"reader 2\\nhere \\\"\\\\.rs:3:5\"]",
    "\"reader 2\" -> \"0@1\" [style=dotted]",
    "\"1@1\" [style=solid, label=\"1@1\\n7\"]",
    "\"2@1\" [style=solid, label=\"2@1\"]",
    "\"2@1\" -> \"1@1\"",
    "\"3@1\" [style=solid, label=\"3@1\"]",
    "\"3@1\" -> \"1@1\"",
    "\"4@1\" [label=\"4@1\\nfree\"]",
    "\"5@1\" [style=solid, label=\"5@1\\nbeing written\"]",
    "\"writer 3\" [shape=ellipse, style=solid, label=\"writer 3\\nhere \\\"\\\\.rs:3:5\"]",
    "\"writer 3\" -> \"5@1\" [style=dotted]",
    "\"owner 0\" [shape=ellipse, style=solid, label=\"owner 0\\ncount 1\"]",
    "\"owner 0\" -> \"0@1\"",
    "\"owner 0\" -> \"2@1\"",
    "\"owner 0\" -> \"4@1\"",
    "\"owner 0\" -> \"5@1\"",
];

/// A store with everything that a store can have.
struct OfAll;

impl Scene<u64> for OfAll {
    fn play<R: Abort, S: Storage<u64> + Drop>(&self, rt: &R, alloc: Global, mut store: S) {
        let owner = given(rt, store.owner());
        let read = given(rt, owner.insert(&mut store, 5, here()));
        let shared = given(rt, owner.insert_rc(&mut store, 7, here()));
        given(rt, shared.leak_reference(&mut store));
        let gone = given(rt, owner.insert(&mut store, 9, here()));
        let written = given(rt, owner.insert(&mut store, 11, here()));
        given(rt, gone.manually_drop(&mut store));
        owner.leak();
        let first = given(rt, read.try_read(&mut store, here()));
        let second = given(rt, read.try_read(&mut store, here()));
        let writer = given(rt, written.try_write(&mut store, here()));
        let mut picture = OfStore { store, limit: 6 };
        let wanted = text(rt, alloc, RIGHT, &STORE);
        assert_drawn(rt, alloc, &picture, wanted.as_str());
        first.release(&mut picture.store);
        second.release(&mut picture.store);
        given(rt, writer.release(&mut picture.store));
    }
}

#[test]
fn a_store(rt: HostRuntime) {
    play(&rt, rt.alloc(), 1, &OfAll);
}

/// A store of which a slot is retired, and a reference's target is past the limit.
struct OfSome;

impl Scene<u64> for OfSome {
    fn play<R: Abort, S: Storage<u64> + Drop>(&self, rt: &R, alloc: Global, mut store: S) {
        let gone = given(rt, GenerationalBox::leak(&mut store, 5, here()));
        given(rt, gone.manually_drop(&mut store));
        given(rt, GenerationalBox::leak(&mut store, 6, here()));
        let retired = "\"0@18446744073709551615\" [label=\"0@18446744073709551615\\nretired\"]";
        let wanted = text(rt, alloc, RIGHT, &[retired]);
        assert_drawn(rt, alloc, &OfStore { store, limit: 1 }, wanted.as_str());
    }
}

#[test]
fn a_retired_slot_and_a_limit(rt: HostRuntime) {
    play(&rt, rt.alloc(), u64::MAX, &OfSome);
}

const TREE: [&str; 5] = [
    "\"0@1\" [style=solid, label=\"1\"]",
    "\"2@1\" [style=solid, label=\"3\"]",
    "\"0@1\" -> \"2@1\"",
    "\"1@1\" [style=solid, label=\"2\"]",
    "\"2@1\" -> \"1@1\"",
];

/// A tree of which a limit leaves out a node, and then a node that was removed.
struct OfNodes;

impl Scene<u64> for OfNodes {
    fn play<R: Abort, S: Storage<u64> + Drop>(&self, rt: &R, alloc: Global, store: S) {
        assert!(rt; store.is_fresh());
        let mut tree = SceneTree::new(alloc, store);
        let node = given(rt, tree.add_root(1, here()));
        let low = given(rt, tree.add_root(2, here()));
        let middle = given(rt, tree.add_child(node, 3, here()));
        given(rt, tree.add_child(node, 4, here()));
        given(rt, tree.move_to(low, middle));
        let mut picture = OfTree {
            tree,
            node,
            limit: 3,
        };
        let wanted = text(rt, alloc, DOWN, &TREE);
        assert_drawn(rt, alloc, &picture, wanted.as_str());
        given(rt, picture.tree.remove_subtree(node));
        let wanted = text(rt, alloc, DOWN, &["\"0@1\" [label=\"0@1\\nstale\"]"]);
        assert_drawn(rt, alloc, &picture, wanted.as_str());
    }
}

#[test]
fn a_tree(rt: HostRuntime) {
    play(&rt, rt.alloc(), 1, &OfNodes);
}

const DOCUMENT: [&str; 9] = [
    "\"0@1\" [style=solid, label=\"1\"]",
    "\"0@1\" -> \"1@1\"",
    "\"0@1\" -> \"2@1\"",
    "\"0@1\" -> \"1@1\"",
    "\"1@1\" [style=solid, label=\"2\"]",
    "\"1@1\" -> \"3@1\"",
    "\"1@1\" -> \"0@1\"",
    "\"2@1\" [label=\"2@1\\nstale\"]",
    "\"3@1\" [style=solid, label=\"4\"]",
];

/// A document with a cycle, a place that a part lists twice, a place that was removed, and two places
/// of a part, of which the limit leaves out one.
struct OfPlaces;

impl Scene<u32> for OfPlaces {
    fn play<R: Abort, S: Storage<u32> + Drop>(&self, rt: &R, alloc: Global, store: S) {
        assert!(rt; store.is_fresh());
        let mut document = Document::new(alloc, store);
        let place = given(rt, document.add(1, here()));
        let first = given(rt, document.add(2, here()));
        let gone = given(rt, document.add(3, here()));
        let last = given(rt, document.add(4, here()));
        let children = [
            (place, first),
            (place, gone),
            (place, first),
            (first, last),
            (first, place),
        ];
        for (parent, child) in children {
            given(rt, document.append(parent, child));
        }
        given(rt, document.remove(gone));
        let picture = OfDocument {
            document,
            place,
            limit: 4,
        };
        let wanted = text(rt, alloc, DOWN, &DOCUMENT);
        assert_drawn(rt, alloc, &picture, wanted.as_str());
    }
}

#[test]
fn a_document(rt: HostRuntime) {
    play(&rt, rt.alloc(), 1, &OfPlaces);
}

const SESSIONS: [&str; 6] = [
    "\"session 0\" [shape=ellipse, style=solid, label=\"7\"]",
    "\"0@1\" [style=solid, label=\"42\"]",
    "\"session 0\" -> \"0@1\"",
    "\"1@1\" [style=solid, label=\"43\"]",
    "\"session 0\" -> \"1@1\"",
    "\"session 1\" [shape=ellipse, style=solid, label=\"8\"]",
];

/// A table of three sessions, of which the limit leaves out one.
struct OfUsers;

impl Scene<u64> for OfUsers {
    fn play<R: Abort, S: Storage<u64> + Drop>(&self, rt: &R, alloc: Global, store: S) {
        assert!(rt; store.is_fresh());
        let mut table = SessionTable::new(alloc, store);
        for id in 7..10 {
            given(rt, table.login(id, 0));
        }
        given(rt, table.put(&7, 1, 42, here()));
        given(rt, table.put(&7, 2, 43, here()));
        let picture = OfSessions { table, limit: 2 };
        let wanted = text(rt, alloc, DOWN, &SESSIONS);
        assert_drawn(rt, alloc, &picture, wanted.as_str());
        let OfSessions { table, limit: _ } = picture;
        let _ = table.finish();
    }
}

#[test]
fn sessions(rt: HostRuntime) {
    play(&rt, rt.alloc(), 1, &OfUsers);
}

const ENTITIES: [&str; 2] = [
    "\"0@1\" [style=solid, label=\"10\"]",
    "\"2@1\" [style=solid, label=\"30\"]",
];

/// A table of three entities, of which the limit leaves out one, and one that was removed.
struct OfElements;

impl Scene<u64> for OfElements {
    fn play<R: Abort, S: Storage<u64> + Drop>(&self, rt: &R, alloc: Global, store: S) {
        assert!(rt; store.is_fresh());
        let mut table = EntityTable::new(alloc, store);
        given(rt, table.spawn(10, here()));
        let gone = given(rt, table.spawn(20, here()));
        given(rt, table.spawn(30, here()));
        given(rt, table.spawn(40, here()));
        given(rt, table.despawn(gone));
        let wanted = text(rt, alloc, DOWN, &ENTITIES);
        assert_drawn(rt, alloc, &OfEntities { table, limit: 2 }, wanted.as_str());
    }
}

#[test]
fn entities(rt: HostRuntime) {
    play(&rt, rt.alloc(), 1, &OfElements);
}

/// Texts, and what is written of each between quotes.
const TEXTS: [(&str, &str); 6] = [
    ("", ""),
    ("plain, é and 🦀", "plain, é and 🦀"),
    ("\"", "\\\""),
    ("\\\\n\\", "\\\\\\\\n\\\\"),
    ("a & b &amp; <c>", "a &amp; b &amp;amp; <c>"),
    ("one\ntwo\r\nthree\t\0\u{7f}", "one\\ntwo \\nthree   "),
];

#[test]
fn any_text_is_escaped(rt: HostRuntime) {
    let alloc = rt.alloc();
    for (plain, escaped) in TEXTS {
        let node = format!(in alloc; "\"{escaped}\" [label=\"{escaped}\"]").expect(&rt, "memory");
        let edge = format!(in alloc; "\"{escaped}\" -> \"{escaped}\" [style=dotted]");
        let edge = edge.expect(&rt, "memory");
        let wanted = text(&rt, alloc, RIGHT, &[node.as_str(), edge.as_str()]);
        assert_drawn(&rt, alloc, &OfText(plain), wanted.as_str());
    }
}
