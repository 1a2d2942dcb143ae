//! How many places and parts a document has, and outlines that list each part once.

use crate::document_acts::{add, document_over};
use crate::expected::{assert_same, given};
use crate::fresh::{Scene, play_both};
use document_tree::{Document, Place};
use example_libraries::documents::{
    blank_without, left_without, parts_up_to, removed_if_alone, repeats, taken_off,
};
use generational_box::Storage;
use std::alloc::Global;
use std::process::Abort;

/// A page with a heading at two places, which is above itself.
struct PartsAreListedOnce;

impl Scene<u32> for PartsAreListedOnce {
    fn play<R: Abort, S: Storage<u32> + Drop>(&self, rt: &R, alloc: Global, store: S) {
        let mut document = document_over(rt, alloc, store);
        let page = add(rt, &mut document, 0);
        let heading = add(rt, &mut document, 1);
        let text = add(rt, &mut document, 2);
        let last = add(rt, &mut document, 3);
        let again = given(rt, document.repeat(heading));
        append(rt, &mut document, page, heading);
        append(rt, &mut document, page, again);
        append(rt, &mut document, page, last);
        append(rt, &mut document, heading, text);
        append(rt, &mut document, text, again);
        // What is below a child is read before the next child.
        lists(rt, &document, page, &[page, heading, text, last]);
        lists(rt, &document, again, &[again, text]);
        lists(rt, &document, text, &[text, again]);
        given(rt, document.remove(heading));
        // The page still has the removed place as a child.
        lists(rt, &document, page, &[page, again, text, last]);
        lists(rt, &document, heading, &[]);
        assert!(rt; given(rt, parts_up_to(&document, page, 3)).is_none());
        assert!(rt; given(rt, parts_up_to(&document, page, 4)).is_some());
    }
}

/// A heading at two places, of which each is counted.
struct PlacesAreCounted;

impl Scene<u32> for PlacesAreCounted {
    fn play<R: Abort, S: Storage<u32> + Drop>(&self, rt: &R, alloc: Global, store: S) {
        let mut document = document_over(rt, alloc, store);
        assert!(rt; document.is_empty());
        has(rt, &document, 0, 0);
        let page = add(rt, &mut document, 0);
        let heading = add(rt, &mut document, 1);
        let again = given(rt, document.repeat(heading));
        has(rt, &document, 3, 2);
        assert_same(rt, &repeats(&document), &1);
        assert_same(rt, &document.place_count(again), &Ok(2));
        assert_same(rt, &removed_if_alone(&mut document, heading), &Ok(false));
        assert_same(rt, &left_without(&mut document, heading), &Ok(2));
        has(rt, &document, 2, 2);
        assert_same(rt, &document.place_count(again), &Ok(1));
        assert!(rt; document.place_count(heading).is_err());
        assert_same(rt, &removed_if_alone(&mut document, again), &Ok(true));
        has(rt, &document, 1, 1);
        assert!(rt; blank_without(&mut document, page));
        has(rt, &document, 0, 0);
    }
}

/// A page with a child at two indexes.
struct ChildrenAreRemoved;

impl Scene<u32> for ChildrenAreRemoved {
    fn play<R: Abort, S: Storage<u32> + Drop>(&self, rt: &R, alloc: Global, store: S) {
        let mut document = document_over(rt, alloc, store);
        let page = add(rt, &mut document, 0);
        let heading = add(rt, &mut document, 1);
        let again = given(rt, document.repeat(heading));
        append(rt, &mut document, page, heading);
        append(rt, &mut document, page, again);
        append(rt, &mut document, page, again);
        // The child is found by its handle, and not by its part.
        assert_same(rt, &document.remove_child(page, again), &Ok(Some(1)));
        lists_children(rt, &document, page, &[heading, again]);
        assert_same(rt, &taken_off(&mut document, page, again), &Ok(true));
        assert_same(rt, &taken_off(&mut document, page, again), &Ok(false));
        lists_children(rt, &document, page, &[heading]);
        // A removed place is found too.
        given(rt, document.remove(heading));
        assert_same(rt, &document.remove_child(page, heading), &Ok(Some(0)));
        assert!(rt; document.remove_child(heading, page).is_err());
    }
}

/// Sees how many places and parts there are, and that so many places are listed.
fn has<S: Storage<u32>>(rt: &impl Abort, document: &Document<u64, S>, places: usize, parts: usize) {
    assert_same(rt, &document.len(), &places);
    assert_same(rt, &document.part_count(), &parts);
    assert_same(rt, &given(rt, document.places()).len(), &places);
}

/// Adds a last child.
fn append<S: Storage<u32>>(
    rt: &impl Abort,
    document: &mut Document<u64, S>,
    parent: Place,
    child: Place,
) {
    given(rt, document.append(parent, child));
}

/// Sees a place of each part that is at a place or below it.
fn lists<S: Storage<u32>>(
    rt: &impl Abort,
    document: &Document<u64, S>,
    place: Place,
    wanted: &[Place],
) {
    let listed = given(rt, document.outline_once(place));
    assert!(rt; listed.iter().eq(wanted.iter()));
}

/// Sees the children of a place.
fn lists_children<S: Storage<u32>>(
    rt: &impl Abort,
    document: &Document<u64, S>,
    place: Place,
    wanted: &[Place],
) {
    assert!(rt; given(rt, document.children(place)).iter().eq(wanted.iter()));
}

#[test]
fn an_outline_lists_each_part_once(rt: HostRuntime) {
    play_both::<u32, PartsAreListedOnce>(&rt, rt.alloc(), &PartsAreListedOnce);
}

#[test]
fn places_and_parts_are_counted(rt: HostRuntime) {
    play_both::<u32, PlacesAreCounted>(&rt, rt.alloc(), &PlacesAreCounted);
}

#[test]
fn a_child_is_removed_by_its_handle(rt: HostRuntime) {
    play_both::<u32, ChildrenAreRemoved>(&rt, rt.alloc(), &ChildrenAreRemoved);
}
