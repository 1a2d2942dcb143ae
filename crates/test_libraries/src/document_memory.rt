//! Documents where memory runs out. The test passes whichever allocation fails: what fails to allocate
//! changes nothing, and is tried a second time.

use crate::document_acts::{add, added_at, document_over, has_content};
use crate::expected::{assert_same, given};
use crate::fresh::{Scene, play};
use document_tree::{Document, Place, PlaceError};
use generational_box::Storage;
use std::alloc::Global;
use std::process::Abort;

/// How many children are appended: more than the room that is found at once.
const MANY: u64 = 9;

/// Adds a part, which shows its content.
pub(crate) fn add_or_again<S: Storage<u32>>(
    rt: &impl Abort,
    document: &mut Document<u64, S>,
    content: u64,
) -> Place {
    let place = match document.add(content, added_at(1)) {
        Ok(place) => place,
        Err(refusal) => {
            assert_same(rt, &refusal.value, &content);
            add(rt, document, content)
        }
    };
    has_content(rt, document, place, Some(content));
    place
}

/// Makes another place of a part.
pub(crate) fn repeat_or_again<S: Storage<u32>>(
    rt: &impl Abort,
    document: &mut Document<u64, S>,
    place: Place,
) -> Place {
    match document.repeat(place) {
        Ok(other) => other,
        Err(error) => {
            assert_same(rt, &error, &PlaceError::OutOfMemory);
            document.repeat(place).expect(rt, "a place")
        }
    }
}

/// Appends a child. If an allocation fails, the children are what they were.
pub(crate) fn append_or_again<S: Storage<u32>>(
    rt: &impl Abort,
    document: &mut Document<u64, S>,
    parent: Place,
    child: Place,
) {
    let before = count(rt, document, parent);
    if let Err(error) = document.append(parent, child) {
        assert_same(rt, &error, &PlaceError::OutOfMemory);
        assert_same(rt, &count(rt, document, parent), &before);
        given(rt, document.append(parent, child));
    }
    assert_same(rt, &count(rt, document, parent), &before.wrapping_add(1));
}

/// Inserts a child before the others. If an allocation fails, the children are what they were.
fn insert_or_again<S: Storage<u32>>(
    rt: &impl Abort,
    document: &mut Document<u64, S>,
    parent: Place,
    child: Place,
) {
    let before = count(rt, document, parent);
    if let Err(error) = document.insert(parent, 0, child) {
        assert_same(rt, &error, &PlaceError::OutOfMemory);
        assert_same(rt, &count(rt, document, parent), &before);
        given(rt, document.insert(parent, 0, child));
    }
    assert_same(rt, &count(rt, document, parent), &before.wrapping_add(1));
}

/// How many children a place has.
fn count<S: Storage<u32>>(rt: &impl Abort, document: &Document<u64, S>, place: Place) -> usize {
    match document.children(place) {
        Ok(children) => children.len(),
        Err(_) => panic!(rt; "a place is gone"),
    }
}

/// A page with many places of one part.
struct AppendMany;

impl Scene<u32> for AppendMany {
    fn play<R: Abort, S: Storage<u32> + Drop>(&self, rt: &R, alloc: Global, store: S) {
        let mut document = document_over(rt, alloc, store);
        let page = add_or_again(rt, &mut document, 0);
        let symbol = add_or_again(rt, &mut document, 1);
        for _ in 0..MANY {
            let place = repeat_or_again(rt, &mut document, symbol);
            append_or_again(rt, &mut document, page, place);
            insert_or_again(rt, &mut document, symbol, place);
        }
    }
}

#[test]
fn what_lacks_memory_changes_no_place(rt: HostRuntime) {
    play::<u32, AppendMany>(&rt, rt.alloc(), &AppendMany);
}
