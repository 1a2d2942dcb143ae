//! Memory runs out while a picture is written. Each test passes if any one allocation fails: the error is
//! one of kind `OutOfMemory`, and the picture that is drawn next is whole.

use crate::drawn::{DOWN, RIGHT, Scene, here, play};
use crate::pictures::{OfDocument, OfStore, OfText, Picture};
use document_tree::{Document, Place};
use generational_core::{GenerationalBox, Storage};
use std::alloc::Global;
use std::io::ErrorKind;
use std::process::Abort;

// How often something is made or written.
const TRIES: u32 = 8;

/// Asserts what is written of a picture in one of the tries.
fn assert_drawn_in_tries<P: Picture>(
    rt: &impl Abort,
    alloc: Global,
    picture: &P,
    begin: &str,
    end: &str,
) {
    for _ in 0..TRIES {
        let mut out = Vec::new(alloc);
        match picture.draw(alloc, &mut out) {
            Ok(()) => {
                assert!(rt; out.as_slice().starts_with(begin.as_bytes()));
                assert!(rt; out.as_slice().ends_with(end.as_bytes()));
                return;
            }
            Err(error) => assert_eq!(rt; error.kind(), ErrorKind::OutOfMemory),
        }
    }
    panic!(rt; "the picture wasn't written")
}

/// A store with a value.
struct OfValue;

impl Scene<u64> for OfValue {
    fn play<R: Abort, S: Storage<u64> + Drop>(&self, rt: &R, alloc: Global, mut store: S) {
        for _ in 0..TRIES {
            if GenerationalBox::leak(&mut store, 5, here()).is_ok() {
                break;
            }
        }
        let picture = OfStore { store, limit: 1 };
        let end = "    \"0@1\" [style=solid, label=\"0@1\\n5\"];\n}\n";
        assert_drawn_in_tries(rt, alloc, &picture, RIGHT, end);
    }
}

#[test]
fn a_store_is_drawn(rt: HostRuntime) {
    play(&rt, rt.alloc(), 1, &OfValue);
}

/// A document with a part.
struct OfPart;

/// The place of a part that is added in one of the tries.
fn added<S: Storage<u32>>(rt: &impl Abort, document: &mut Document<u64, S>) -> Place {
    for _ in 0..TRIES {
        if let Ok(place) = document.add(1, here()) {
            return place;
        }
    }
    panic!(rt; "the part wasn't added")
}

impl Scene<u32> for OfPart {
    fn play<R: Abort, S: Storage<u32> + Drop>(&self, rt: &R, alloc: Global, store: S) {
        assert!(rt; store.is_fresh());
        let mut document = Document::new(alloc, store);
        let place = added(rt, &mut document);
        let picture = OfDocument {
            document,
            place,
            limit: 9,
        };
        let end = "    \"0@1\" [style=solid, label=\"1\"];\n}\n";
        assert_drawn_in_tries(rt, alloc, &picture, DOWN, end);
    }
}

#[test]
fn a_document_is_drawn(rt: HostRuntime) {
    play(&rt, rt.alloc(), 1, &OfPart);
}

#[test]
fn a_graph_is_drawn(rt: HostRuntime) {
    let end = "    \"a long name with \\\"\" -> \"a long name with \\\"\" [style=dotted];\n}\n";
    assert_drawn_in_tries(&rt, rt.alloc(), &OfText("a long name with \""), RIGHT, end);
}
