//! Errors of places that are gone, and outlines, even if the tickets are used up.

use crate::document_acts::{add, added_at, document_over, has_content};
use crate::document_memory::{add_or_again, append_or_again, repeat_or_again};
use crate::expected::{answered, assert_same, given};
use crate::fresh::{Scene, play, play_at_generation, play_at_ticket};
use document_tree::{Document, Place, PlaceError, Stale};
use example_libraries::documents::{change_heading, count_up, told_after};
use generational_box::{LastFirst, Storage, Store};
use std::alloc::Global;
use std::process::Abort;

/// A heading that gets another part, and goes. No ticket is left.
struct HeadingGoes;

impl Scene<u32> for HeadingGoes {
    fn play<R: Abort, S: Storage<u32> + Drop>(&self, rt: &R, alloc: Global, store: S) {
        let mut document = document_over(rt, alloc, store);
        let Ok(heading) = document.add(3, added_at(8)) else {
            panic!(rt; "a heading");
        };
        given(rt, document.set(heading, 4));
        given(rt, change_heading(&mut document, heading, 5, added_at(9)));
        has_content(rt, &document, heading, Some(5));
        given(rt, document.remove(heading));
        let stale = Stale {
            created_at: Some(added_at(8)),
        };
        is_stale(rt, &mut document, heading, stale);
    }
}

/// Sees that each call fails with a place.
fn is_stale<S: Storage<u32>>(
    rt: &impl Abort,
    document: &mut Document<u64, S>,
    place: Place,
    stale: Stale,
) {
    let refused = Err(PlaceError::Stale(stale));
    let page = add(rt, document, 1);
    assert!(rt; !document.is_alive(place));
    assert_same(rt, &document.created_at(place), &stale.created_at);
    assert_same(rt, &document.get(place).copied(), &Err(stale));
    assert!(rt; document.children(place).is_err());
    assert_same(rt, &answered(rt, document.set(place, 6), &6), &Err(stale));
    assert_same(rt, &count_up(document, place), &Err(stale));
    assert_same(rt, &document.repeat(place), &Err(PlaceError::Stale(stale)));
    assert_same(rt, &document.append(place, page), &refused);
    assert_same(rt, &document.append(page, place), &refused);
    assert_same(rt, &document.insert(place, 0, page), &refused);
    assert_same(rt, &document.insert(page, 0, place), &refused);
    assert_same(
        rt,
        &document.take_child(place, 0),
        &Err(PlaceError::Stale(stale)),
    );
    assert_same(rt, &document.clear_gone(place), &Err(stale));
    assert_same(rt, &document.exchange(place, page), &Err(stale));
    assert_same(rt, &document.exchange(page, place), &Err(stale));
    assert_same(rt, &document.remove(place), &Err(stale));
    has_content(rt, document, page, Some(1));
    given(rt, document.remove(page));
}

/// A place that goes, and one that comes.
struct StaleIsTold;

impl Scene<u32> for StaleIsTold {
    fn play<R: Abort, S: Storage<u32> + Drop>(&self, rt: &R, alloc: Global, store: S) {
        let mut document = document_over(rt, alloc, store);
        let first = match document.add(5, added_at(3)) {
            Ok(place) => place,
            Err(_lacking) => rt.abort(),
        };
        let stale = Stale {
            created_at: Some(added_at(3)),
        };
        let told = told_after(&mut document, first, 6, added_at(4));
        assert_same(rt, &told, &Err(stale));
    }
}

/// A place of another document, in whose slot there is a place here too.
struct AForeignPlaceShowsNothing;

impl Scene<u32> for AForeignPlaceShowsNothing {
    fn play<R: Abort, S: Storage<u32> + Drop>(&self, rt: &R, alloc: Global, store: S) {
        let mut document = document_over(rt, alloc, store);
        let others: Store<u32, LastFirst> = Store::new(alloc, 7);
        let mut others: Document<u64, Store<u32, LastFirst>> = document_over(rt, alloc, others);
        let own = add(rt, &mut document, 5);
        let foreign = add(rt, &mut others, 6);
        is_stale(rt, &mut document, foreign, Stale { created_at: None });
        has_content(rt, &document, own, Some(5));
        has_content(rt, &others, foreign, Some(6));
        assert_same(rt, &others.created_at(foreign), &Some(added_at(1)));
    }
}

/// A place whose slot has another place for each later generation that there is.
struct ALastGenerationIsNotUsedAgain;

impl Scene<u32> for ALastGenerationIsNotUsedAgain {
    fn play<R: Abort, S: Storage<u32> + Drop>(&self, rt: &R, alloc: Global, store: S) {
        let mut document = document_over(rt, alloc, store);
        let first = add(rt, &mut document, 5);
        given(rt, document.remove(first));
        let second = add(rt, &mut document, 6);
        given(rt, document.remove(second));
        let third = add(rt, &mut document, 7);
        let stale = Stale {
            created_at: Some(added_at(1)),
        };
        is_stale(rt, &mut document, first, stale);
        is_stale(rt, &mut document, second, stale);
        has_content(rt, &document, third, Some(7));
    }
}

/// Sees the contents of an outline.
fn reads<S: Storage<u32>>(
    rt: &impl Abort,
    document: &Document<u64, S>,
    top: Place,
    limit: usize,
    contents: &[u64],
) {
    let places = document.outline(top, limit).expect(rt, "an outline");
    assert_same(rt, &places.len(), &contents.len());
    for (place, content) in places.iter().zip(contents) {
        has_content(rt, document, *place, Some(*content));
    }
}

/// A page with a part in two places, below which the page is in the end.
struct PageIsRead;

impl Scene<u32> for PageIsRead {
    fn play<R: Abort, S: Storage<u32> + Drop>(&self, rt: &R, alloc: Global, store: S) {
        let mut document = document_over(rt, alloc, store);
        let page = add_or_again(rt, &mut document, 0);
        let first = add_or_again(rt, &mut document, 1);
        let second = repeat_or_again(rt, &mut document, first);
        let leaf = add_or_again(rt, &mut document, 2);
        append_or_again(rt, &mut document, page, first);
        append_or_again(rt, &mut document, page, second);
        append_or_again(rt, &mut document, second, leaf);
        reads(rt, &document, page, 9, &[0, 1, 2, 1, 2]);
        append_or_again(rt, &mut document, leaf, page);
        reads(rt, &document, page, 5, &[0, 1, 2, 0, 1]);
    }
}

#[test]
fn places_that_are_gone_and_outlines(rt: HostRuntime) {
    play_at_ticket::<u32, HeadingGoes>(&rt, rt.alloc(), u64::MAX, &HeadingGoes);
    play::<u32, PageIsRead>(&rt, rt.alloc(), &PageIsRead);
}

#[test]
fn stale_places_and_foreign_ones(rt: HostRuntime) {
    play::<u32, StaleIsTold>(&rt, rt.alloc(), &StaleIsTold);
    play::<u32, AForeignPlaceShowsNothing>(&rt, rt.alloc(), &AForeignPlaceShowsNothing);
    play_at_generation::<u32, ALastGenerationIsNotUsedAgain>(
        &rt,
        rt.alloc(),
        u64::MAX - 1,
        &ALastGenerationIsNotUsedAgain,
    );
}
