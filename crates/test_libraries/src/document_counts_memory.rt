//! Outlines that list each part once, and removal of what is below no page, whichever allocation fails.

use crate::document_acts::document_over;
use crate::document_memory::{add_or_again, append_or_again, repeat_or_again};
use crate::expected::assert_same;
use crate::fresh::{Scene, play};
use document_tree::{Document, Place};
use generational_box::Storage;
use std::alloc::Global;
use std::process::Abort;

/// How many children the page has, of which each is at two places of it.
const MANY: u64 = 20;

/// How often the parts are listed.
const TRIES: u32 = 8;

/// A page of many parts.
struct ListMany;

impl Scene<u32> for ListMany {
    fn play<R: Abort, S: Storage<u32> + Drop>(&self, rt: &R, alloc: Global, store: S) {
        let mut document = document_over(rt, alloc, store);
        let page = add_or_again(rt, &mut document, 0);
        for content in 0..MANY {
            let first = add_or_again(rt, &mut document, content);
            let second = repeat_or_again(rt, &mut document, first);
            append_or_again(rt, &mut document, page, first);
            append_or_again(rt, &mut document, page, second);
        }
        let listed = list_in_tries(rt, &document, page);
        assert_same(rt, &listed, &document.part_count());
        assert_same(rt, &places_in_tries(rt, &document), &document.len());
    }
}

/// How many parts are at a place or below it, as one of the tries says: what a try asks for first may be
/// less than what the one before lacked, so it may lack that too.
fn list_in_tries<S: Storage<u32>>(
    rt: &impl Abort,
    document: &Document<u64, S>,
    place: Place,
) -> usize {
    for _ in 0..TRIES {
        if let Ok(listed) = document.outline_once(place) {
            return listed.len();
        }
    }
    panic!(rt; "the parts weren't listed")
}

/// How many places are live, as one of the tries to list them says.
fn places_in_tries<S: Storage<u32>>(rt: &impl Abort, document: &Document<u64, S>) -> usize {
    for _ in 0..TRIES {
        if let Ok(places) = document.places() {
            return places.len();
        }
    }
    panic!(rt; "the places weren't listed")
}

/// A page of many parts, and as many that are on no page.
struct RetainMany;

impl Scene<u32> for RetainMany {
    fn play<R: Abort, S: Storage<u32> + Drop>(&self, rt: &R, alloc: Global, store: S) {
        let mut document = document_over(rt, alloc, store);
        let page = add_or_again(rt, &mut document, 0);
        for content in 0..MANY {
            let first = add_or_again(rt, &mut document, content);
            let loose = add_or_again(rt, &mut document, content);
            append_or_again(rt, &mut document, page, first);
            append_or_again(rt, &mut document, loose, loose);
        }
        let kept = retain_in_tries(rt, &mut document, page);
        assert_same(rt, &kept, &(MANY as usize + 1));
    }
}

/// How many places are left, as one of the tries says. One that fails removes none.
fn retain_in_tries<S: Storage<u32>>(
    rt: &impl Abort,
    document: &mut Document<u64, S>,
    place: Place,
) -> usize {
    let all = document.len();
    for _ in 0..TRIES {
        if document.retain_below(place).is_ok() {
            return document.len();
        }
        assert_same(rt, &document.len(), &all);
    }
    panic!(rt; "nothing was removed")
}

#[test]
fn an_outline_that_lacks_memory_is_made_again(rt: HostRuntime) {
    play::<u32, ListMany>(&rt, rt.alloc(), &ListMany);
}

#[test]
fn a_removal_that_fails_is_made_again(rt: HostRuntime) {
    play::<u32, RetainMany>(&rt, rt.alloc(), &RetainMany);
}
