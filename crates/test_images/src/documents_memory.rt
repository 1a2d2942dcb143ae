//! Documents that are taken apart and made again while memory runs out. The test passes whichever
//! allocation fails: what fails to allocate changes nothing, and is tried again.

use crate::documents::document_over;
use crate::expected::assert_same;
use crate::fresh::{Saves, Scene, play};
use crate::images::made;
use document_tree::{CellFault, Document, DocumentParts, HandedBack, PartsFault, Place};
use generational_box::{AnyStorage, Storage};
use std::alloc::Global;
use std::process::Abort;

// How often a call is tried.
const TRIES: u32 = 8;

fn part_or_again<S: Storage<u32>>(
    rt: &impl Abort,
    pages: &mut Document<u64, S>,
    content: u64,
) -> Place {
    for _ in 0..TRIES {
        if let Ok(place) = pages.add(content, made()) {
            return place;
        }
    }
    panic!(rt; "memory")
}

fn repeat_or_again<S: Storage<u32>>(
    rt: &impl Abort,
    pages: &mut Document<u64, S>,
    place: Place,
) -> Place {
    for _ in 0..TRIES {
        if let Ok(again) = pages.repeat(place) {
            return again;
        }
    }
    panic!(rt; "memory")
}

fn append_or_again<S: Storage<u32>>(
    rt: &impl Abort,
    pages: &mut Document<u64, S>,
    place: Place,
    child: Place,
) {
    for _ in 0..TRIES {
        if pages.append(place, child).is_ok() {
            return;
        }
    }
    panic!(rt; "memory")
}

/// Another place of a place's part, as a child of it.
fn below_or_again<S: Storage<u32>>(
    rt: &impl Abort,
    pages: &mut Document<u64, S>,
    place: Place,
) -> Place {
    let child = repeat_or_again(rt, pages, place);
    append_or_again(rt, pages, place, child);
    child
}

/// The document's parts. If that fails, the document is unchanged.
fn apart_or_again<S: Storage<u32> + Drop>(
    rt: &impl Abort,
    pages: Document<u64, S>,
) -> DocumentParts<u64, S> {
    let places = pages.store().len();
    let mut pages = pages;
    for _ in 0..TRIES {
        match pages.into_parts() {
            Ok(parts) => return parts,
            Err(back) => {
                assert_same(rt, &back.store().len(), &places);
                pages = back;
            }
        }
    }
    panic!(rt; "memory")
}

/// The document of parts. If that fails, they come back.
fn made_or_again<S: Storage<u32> + Drop>(
    rt: &impl Abort,
    alloc: Global,
    parts: DocumentParts<u64, S>,
) -> Document<u64, S> {
    let rows = parts.parts.len();
    let mut parts = parts;
    for _ in 0..TRIES {
        match Document::from_parts(alloc, parts) {
            Ok(pages) => return pages,
            Err(HandedBack { value, cause }) => {
                assert_same(rt, &cause, &PartsFault::Cell(CellFault::OutOfMemory));
                assert_same(rt, &value.parts.len(), &rows);
                parts = value;
            }
        }
    }
    panic!(rt; "memory")
}

/// Asserts that a document has its places, and finds the last one, with its content.
fn assert_whole<S: Storage<u32>>(rt: &impl Abort, pages: &Document<u64, S>, last: Place) {
    assert_same(rt, &pages.store().len(), &39);
    assert_same(rt, &pages.get(last).ok().copied(), &Some(19));
    assert!(rt; pages.find(last.id()) == Some(last));
}

struct MadeAgain;

impl Scene<u32> for MadeAgain {
    fn play<R: Abort, S: Storage<u32> + Saves<u32> + Drop>(&self, rt: &R, alloc: Global, store: S) {
        let mut pages = document_over(rt, alloc, store);
        let mut last = part_or_again(rt, &mut pages, 0);
        for content in 1..20u64 {
            let part = part_or_again(rt, &mut pages, content);
            last = below_or_again(rt, &mut pages, part);
        }
        let parts = apart_or_again(rt, pages);
        let pages = made_or_again(rt, alloc, parts);
        assert_whole(rt, &pages, last);
    }
}

#[test]
fn documents_that_lack_memory_stay_or_come_back(rt: HostRuntime) {
    play::<u32, MadeAgain>(&rt, rt.alloc(), 3, &MadeAgain);
}
