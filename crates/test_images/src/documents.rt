//! Documents that are taken apart and made again, and stores and parts of which no document can be made.

use crate::expected::{assert_prints, assert_same, ok};
use crate::fresh::{Saves, Scene, play};
use crate::scene::{begin_read, leak, leak_rc};
use document_tree::{
    CellFault, Document, DocumentPart, DocumentParts, HandedBack, PartsFault, Place, Sites,
    place_of,
};
use example_saving::document_again;
use generational_box::{AnyStorage, GenerationalBox, GenerationalBoxId, Location, Storage, box_id};
use std::alloc::Global;
use std::fmt::Write;
use std::process::Abort;

/// Where a part is added: each at a line of its own.
fn made_at(line: u32) -> Location {
    Location::new("d.rs", line, 1)
}

/// Writes a depth and a content. A place that was removed is a `-`.
fn write_place<S: Storage<u32>>(
    rt: &impl Abort,
    pages: &Document<u64, S>,
    depth: usize,
    place: Place,
    text: &mut String,
) {
    match pages.get(place) {
        Ok(content) => ok(rt, write!(text, "{depth}:{} ", *content)),
        Err(_) => ok(rt, write!(text, "{depth}:- ")),
    }
}

/// Asserts what is read of a document from a place on: each depth with a content, one after the other.
fn assert_outline<S: Storage<u32>>(
    rt: &impl Abort,
    alloc: Global,
    pages: &Document<u64, S>,
    top: Place,
    wanted: &str,
) {
    let mut text = String::new(alloc);
    for (depth, place) in ok(rt, pages.outline_with_depth(top, 20)) {
        write_place(rt, pages, depth, place, &mut text);
    }
    assert_eq!(rt; text.as_str(), wanted);
}

/// A document over a new store.
pub(crate) fn document_over<S: Storage<u32>>(
    rt: &impl Abort,
    alloc: Global,
    store: S,
) -> Document<u64, S> {
    assert!(rt; store.is_fresh());
    Document::new(alloc, store)
}

/// Adds a part. One with the content N is added at line N.
fn add<S: Storage<u32>>(rt: &impl Abort, pages: &mut Document<u64, S>, content: u32) -> Place {
    ok(rt, pages.add(u64::from(content), made_at(content)))
}

fn repeat<S: Storage<u32>>(rt: &impl Abort, pages: &mut Document<u64, S>, place: Place) -> Place {
    ok(rt, pages.repeat(place))
}

fn append<S: Storage<u32>>(
    rt: &impl Abort,
    pages: &mut Document<u64, S>,
    parent: Place,
    child: Place,
) {
    ok(rt, pages.append(parent, child));
}

fn set<S: Storage<u32>>(rt: &impl Abort, pages: &mut Document<u64, S>, place: Place, content: u64) {
    ok(rt, pages.set(place, content));
}

fn remove<S: Storage<u32>>(rt: &impl Abort, pages: &mut Document<u64, S>, place: Place) {
    ok(rt, pages.remove(place));
}

/// Asserts what a place reads, if a content.
fn assert_content<S: Storage<u32>>(
    rt: &impl Abort,
    pages: &Document<u64, S>,
    place: Place,
    content: Option<u64>,
) {
    assert_same(rt, &pages.is_alive(place), &content.is_some());
    assert_same(rt, &pages.get(place).ok().copied(), &content);
}

/// Asserts where a place was made.
fn assert_made_at<S: Storage<u32>>(
    rt: &impl Abort,
    pages: &Document<u64, S>,
    place: Place,
    line: u32,
) {
    assert_same(rt, &pages.created_at(place), &Some(made_at(line)));
}

/// The place of an id.
fn found<S: Storage<u32>>(
    rt: &impl Abort,
    pages: &Document<u64, S>,
    id: GenerationalBoxId,
) -> Place {
    pages.find(id).expect(rt, "a place")
}

/// Asserts that no place is found by the id of one that is gone.
fn assert_lost<S: Storage<u32>>(rt: &impl Abort, pages: &Document<u64, S>, place: Place) {
    assert!(rt; pages.find(place.id()).is_none());
}

/// The parts of a document.
fn parts_of<S: Storage<u32> + Drop>(
    rt: &impl Abort,
    pages: Document<u64, S>,
) -> DocumentParts<u64, S> {
    ok(rt, pages.into_parts())
}

/// The places of a filled document that tests name.
#[derive(Clone, Copy)]
struct Named {
    gone: Place,
    first: Place,
    second: Place,
    heading: Place,
    again: Place,
}

/// Fills a document with two pages that share a heading, at a place each, and with a note under it. The
/// key of a part that is gone lies below the heading's, and a place that is gone is among the first page's
/// children.
fn fill<S: Storage<u32>>(rt: &impl Abort, pages: &mut Document<u64, S>) -> Named {
    let first = add(rt, pages, 1);
    let gone = add(rt, pages, 9);
    let second = add(rt, pages, 2);
    let heading = add(rt, pages, 10);
    let again = repeat(rt, pages, heading);
    let note = add(rt, pages, 20);
    append(rt, pages, heading, note);
    append(rt, pages, first, gone);
    append(rt, pages, first, heading);
    append(rt, pages, second, again);
    append(rt, pages, second, first);
    remove(rt, pages, gone);
    Named {
        gone,
        first,
        second,
        heading,
        again,
    }
}

const OUTLINE: &str = "0:2 1:10 2:20 1:1 2:- 2:10 3:20 ";

/// The document that is made again of a document's parts.
fn again<S: Storage<u32> + Drop>(
    rt: &impl Abort,
    alloc: Global,
    pages: Document<u64, S>,
) -> Document<u64, S> {
    ok(rt, document_again(alloc, pages))
}

/// Asserts that the heading has its two places still, and no other.
fn assert_shared<S: Storage<u32>>(rt: &impl Abort, pages: &mut Document<u64, S>, named: Named) {
    set(rt, pages, named.again, 11);
    assert_content(rt, pages, named.heading, Some(11));
    remove(rt, pages, named.heading);
    assert_content(rt, pages, named.again, Some(11));
}

/// Asserts which places are found by their ids, and where they were made.
fn assert_places<S: Storage<u32>>(rt: &impl Abort, pages: &Document<u64, S>, named: Named) {
    assert_made_at(rt, pages, named.gone, 9);
    assert_made_at(rt, pages, named.first, 1);
    assert_lost(rt, pages, named.gone);
    assert_lost(rt, pages, named.heading);
    let found = found(rt, pages, named.again.id());
    assert!(rt; found == named.again);
    assert_made_at(rt, pages, found, 10);
}

struct MadeAgain;

impl Scene<u32> for MadeAgain {
    fn play<R: Abort, S: Storage<u32> + Saves<u32> + Drop>(&self, rt: &R, alloc: Global, store: S) {
        let mut pages = document_over(rt, alloc, store);
        let named = fill(rt, &mut pages);
        let mut pages = again(rt, alloc, pages);
        assert_outline(rt, alloc, &pages, named.second, OUTLINE);
        assert_shared(rt, &mut pages, named);
        assert_places(rt, &pages, named);
        // a new place is none of those of before
        let new = add(rt, &mut pages, 30);
        assert!(rt; new != named.gone && new != named.heading);
        assert!(rt; new != named.again && new != named.first);
    }
}

#[test]
fn a_document_that_was_taken_apart_is_made_again(rt: HostRuntime) {
    play::<u32, MadeAgain>(&rt, rt.alloc(), 3, &MadeAgain);
}

/// Writes a row of parts. An index without a part is `none`.
fn write_row(rt: &impl Abort, row: &Option<DocumentPart<u64>>, text: &mut String) {
    match row {
        Some(part) => {
            let line = part.created_at.line();
            ok(rt, write!(text, "{} at {line} with ", part.content));
            for child in part.children.iter() {
                ok(rt, write!(text, "{child} "));
            }
        }
        None => ok(rt, write!(text, "none ")),
    }
}

struct TakenApart;

impl Scene<u32> for TakenApart {
    fn play<R: Abort, S: Storage<u32> + Saves<u32> + Drop>(&self, rt: &R, alloc: Global, store: S) {
        let mut pages = document_over(rt, alloc, store);
        let named = fill(rt, &mut pages);
        let parts = parts_of(rt, pages);
        let mut text = String::new(alloc);
        for row in parts.parts.iter() {
            write_row(rt, row, &mut text);
        }
        assert_eq!(rt;
            text.as_str(),
            "1 at 1 with 1@1 3@1 none 2 at 2 with 4@1 0@1 10 at 10 with 5@1 20 at 20 with "
        );
        assert_same(rt, &parts.store.len(), &5);
        assert!(rt; GenerationalBox::find(&parts.store, named.gone.id()).is_none());
    }
}

#[test]
fn the_parts_of_a_document_are_by_their_indexes(rt: HostRuntime) {
    play::<u32, TakenApart>(&rt, rt.alloc(), 3, &TakenApart);
}

/// Asserts that no document is made of parts, and returns them.
fn comes_back<S: Storage<u32> + Drop>(
    rt: &impl Abort,
    alloc: Global,
    parts: DocumentParts<u64, S>,
    fault: PartsFault,
) -> DocumentParts<u64, S> {
    let live = parts.store.len();
    let rows = parts.parts.len();
    let Err(HandedBack { value, cause }) = Document::from_parts(alloc, parts) else {
        panic!(rt; "a document was made")
    };
    assert_same(rt, &cause, &fault);
    assert_same(rt, &value.store.len(), &live);
    assert_same(rt, &value.parts.len(), &rows);
    value
}

/// Adds a part to rows, or an index without one.
fn push_part(
    rt: &impl Abort,
    alloc: Global,
    rows: &mut Vec<Option<DocumentPart<u64>>>,
    content: Option<u32>,
) {
    let part = match content {
        Some(content) => Some(DocumentPart {
            content: u64::from(content),
            children: Vec::new(alloc),
            created_at: made_at(content),
        }),
        None => None,
    };
    rows.push(part).ok().expect(rt, "memory");
}

/// A store whose values are the indexes 1, 0 and 1, and the parts 0 and 1.
fn shared<S: Storage<u32>>(rt: &impl Abort, alloc: Global, store: S) -> DocumentParts<u64, S> {
    let mut store = store;
    for index in [1u32, 0, 1] {
        leak(rt, &mut store, index);
    }
    let mut parts = Vec::new(alloc);
    for content in [100, 101] {
        push_part(rt, alloc, &mut parts, Some(content));
    }
    DocumentParts {
        store,
        sites: Sites::new(alloc),
        parts,
    }
}

/// Adds a child to the second part.
fn push_child(rt: &impl Abort, rows: &mut Vec<Option<DocumentPart<u64>>>, child: Place) {
    if let Some(Some(part)) = rows.get_mut(1) {
        ok(rt, part.children.push(child));
    }
}

/// The document of parts.
fn made_of<S: Storage<u32> + Drop>(
    rt: &impl Abort,
    alloc: Global,
    parts: DocumentParts<u64, S>,
) -> Document<u64, S> {
    ok(rt, Document::from_parts(alloc, parts))
}

/// The content of the last part that places refer to.
fn last_content(rows: &Vec<Option<DocumentPart<u64>>>) -> Option<u64> {
    let left = rows.iter().flatten();
    left.map(|part| part.content).last()
}

/// A part with two places: it is dropped with the second.
struct MadeOfParts;

impl Scene<u32> for MadeOfParts {
    fn play<R: Abort, S: Storage<u32> + Saves<u32> + Drop>(&self, rt: &R, alloc: Global, store: S) {
        let mut parts = shared(rt, alloc, store);
        let child = place_of(box_id(3, 1, 1)).expect(rt, "a place");
        push_child(rt, &mut parts.parts, child);
        let mut pages = made_of(rt, alloc, parts);
        let top = found(rt, &pages, box_id(3, 0, 1));
        let other = found(rt, &pages, box_id(3, 2, 1));
        assert_outline(rt, alloc, &pages, top, "0:101 1:100 ");
        assert_made_at(rt, &pages, other, 101);
        set(rt, &mut pages, top, 7);
        assert_content(rt, &pages, other, Some(7));
        remove(rt, &mut pages, top);
        assert_content(rt, &pages, other, Some(7));
        remove(rt, &mut pages, other);
        let parts = parts_of(rt, pages);
        assert_same(rt, &last_content(&parts.parts), &Some(100));
    }
}

#[test]
fn a_document_is_made_of_a_store_and_parts(rt: HostRuntime) {
    play::<u32, MadeOfParts>(&rt, rt.alloc(), 3, &MadeOfParts);
}

/// A part that no place refers to, an index without a part, and one past the list.
struct BadParts;

impl Scene<u32> for BadParts {
    fn play<R: Abort, S: Storage<u32> + Saves<u32> + Drop>(&self, rt: &R, alloc: Global, store: S) {
        let mut parts = shared(rt, alloc, store);
        push_part(rt, alloc, &mut parts.parts, Some(102));
        let mut parts = comes_back(rt, alloc, parts, PartsFault::Unused(2));
        let _ = parts.parts.pop();
        push_part(rt, alloc, &mut parts.parts, None);
        leak(rt, &mut parts.store, 2);
        let mut parts = comes_back(rt, alloc, parts, PartsFault::NoPart(3));
        let _ = parts.parts.pop();
        comes_back(rt, alloc, parts, PartsFault::NoPart(3));
    }
}

#[test]
fn stores_and_parts_that_no_document_has_come_back(rt: HostRuntime) {
    let alloc = rt.alloc();
    play::<u32, BadParts>(&rt, alloc, 3, &BadParts);
    let fault = PartsFault::Unused(2);
    assert_prints(&rt, alloc, &fault, "no place refers to part 2");
    let fault = PartsFault::NoPart(3);
    let text = "the value of slot 3 is the index of no part";
    assert_prints(&rt, alloc, &fault, text);
}

/// A shared value. An index without a part is found after the cells.
struct ASharedValue;

impl Scene<u32> for ASharedValue {
    fn play<R: Abort, S: Storage<u32> + Saves<u32> + Drop>(&self, rt: &R, alloc: Global, store: S) {
        let mut parts = shared(rt, alloc, store);
        leak(rt, &mut parts.store, 2);
        leak_rc(rt, &mut parts.store, 0);
        comes_back(rt, alloc, parts, PartsFault::Cell(CellFault::Shared(4)));
    }
}

/// A value that is read. A document is made of the parts once it isn't any more.
struct AValueThatIsRead;

impl Scene<u32> for AValueThatIsRead {
    fn play<R: Abort, S: Storage<u32> + Saves<u32> + Drop>(&self, rt: &R, alloc: Global, store: S) {
        let mut parts = shared(rt, alloc, store);
        let only = leak(rt, &mut parts.store, 0);
        let guard = begin_read(rt, &mut parts.store, only);
        let fault = PartsFault::Cell(CellFault::Borrowed(3));
        let mut parts = comes_back(rt, alloc, parts, fault);
        assert!(rt; guard.release(&mut parts.store));
        made_of(rt, alloc, parts);
    }
}

#[test]
fn stores_with_cells_that_no_document_has_come_back(rt: HostRuntime) {
    let alloc = rt.alloc();
    play::<u32, ASharedValue>(&rt, alloc, 3, &ASharedValue);
    play::<u32, AValueThatIsRead>(&rt, alloc, 3, &AValueThatIsRead);
    let fault = PartsFault::Cell(CellFault::Shared(4));
    let text = "slot 4 has a shared value or a reference";
    assert_prints(&rt, alloc, &fault, text);
}

#[test]
fn places_are_made_of_ids(rt: HostRuntime) {
    let id = box_id(3, u32::MAX as usize, 7);
    let place = place_of(id).expect(&rt, "a place");
    assert!(&rt; place.id() == id);
    assert!(&rt; place_of(box_id(3, 1 << 32, 7)).is_none());
}
