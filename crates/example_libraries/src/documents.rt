//! Documents in which one part is in several places.

ghost use Rattle.std.specs.Prelude.{◌≡◌, ◌≢◌, ◌<◌, ◌≤◌, ◌+◌, ◌↔◌, ◌∷◌, ℕ, List, None, Some, IfErr, IfNone, IfOk, IfSome, IsErr, IsOk, IsTrue, OnOk};
ghost use Rattle.std.specs.Prelude.{false, is_some, length, true};
ghost use Rattle.std.specs.List.{All, AllPairs, Contains};
ghost use Rattle.document_tree.specs.Counting.{HasParts, HasPlaces};
ghost use Rattle.document_tree.specs.Documents.{Place, content_shown, created_at, is_site, part_in, shown_in, with_children, EndsPart, Leaves, WasPlaced};
ghost use Rattle.document_tree.specs.Outlines.{IsBelowPlace, children_in};
ghost use Rattle.document_tree.specs.Parts.{is_full, too_many};
ghost use Rattle.generational_core.specs.Slots.{free, slots};
ghost use Rattle.generational_errors.specs.declared.error.Location.{Location};
ghost use Rattle.handles.specs.Handles.{IsOther, is_same};

use document_tree::{Document, Place, PlaceError, Stale};
use generational_box::{Location, Refusal, Storage};
use std::alloc::AllocError;

/// Gives a heading a new part, at each page that lists it, and drops its old part if no other place
/// refers to it. Every other place is unchanged in each case.
pub fn change_heading<S: Storage<u32>>(
    document: &mut Document<u64, S>,
    heading: Place,
    content: u64,
    here: Location,
) -> Result<(), PlaceError>
    requires { WasPlaced document.old heading }
    ensures shown { OnOk result (
        content_shown (shown_in document.new heading) ≡ Some content) }
    ensures others { (q : Place) → WasPlaced document.old q → IsOther heading q →
        Leaves document.old q document.new }
{
    let Ok(next) = document.add(content, here) else {
        return Err(PlaceError::OutOfMemory);
    };
    let exchanged = document.exchange(heading, next);
    let _ = document.remove(next);
    Ok(exchanged?)
}

/// Puts a heading before all that a page lists, at each place of the page. Every place that leads to
/// another part is left.
pub fn head_page<S: Storage<u32>>(
    document: &mut Document<u64, S>,
    page: Place,
    heading: Place,
) -> Result<(), PlaceError>
    ensures { OnOk result (
        shown_in document.new page
        ≡ with_children (λ list. heading ∷ list) (shown_in document.old page)) }
{
    document.insert(page, 0, heading)
}

/// Adds to the number that a part has, which all its places show then.
pub fn count_up<S: Storage<u32>>(document: &mut Document<u64, S>, place: Place) -> Result<(), Stale>
    ensures { (q : Place) → part_in document.old q ≢ part_in document.old place →
        Leaves document.old q document.new }
{
    document.update(place, |count: &mut u64| *count = count.wrapping_add(1))
}

/// Clears a page of what is gone, and then of its first child, if there is one.
pub fn behead_page<S: Storage<u32>>(
    document: &mut Document<u64, S>,
    page: Place,
) -> Result<Place, PlaceError>
    ensures { (q : Place) → part_in document.old q ≢ part_in document.old page →
        Leaves document.old q document.new }
{
    document.clear_gone(page)?;
    document.take_child(page, 0)
}

/// Takes a child off a page, and returns whether the page listed it: it lists one child fewer then. Every
/// place that leads to another part is left.
pub fn taken_off<S: Storage<u32>>(
    document: &mut Document<u64, S>,
    page: Place,
    child: Place,
) -> Result<bool, Stale>
    ensures fewer { IfOk result (λ was. was ≡ true →
        length (children_in document.new page) + 1 ≡ length (children_in document.old page)) }
    ensures none { IfOk result (λ was. was ≡ false →
        All (λ p. is_same p child ≡ false) (children_in document.old page)) }
    ensures others { (q : Place) → part_in document.old q ≢ part_in document.old page →
        Leaves document.old q document.new }
{
    let index = document.remove_child(page, child)?;
    Ok(index.is_some())
}

/// Removes a heading, and returns whether it was there. It is stale then.
pub fn closed<S: Storage<u32>>(document: &mut Document<u64, S>, heading: Place) -> bool
    ensures stood { result ≡ is_some (shown_in document.old heading) }
    ensures gone { shown_in document.new heading ≡ None }
{
    if !document.is_alive(heading) {
        return false;
    }
    let _ = document.remove(heading);
    true
}

/// Removes a place, adds a part, and looks at the place: that fails, and the error says where the place's
/// part was added, whichever slot the new place took.
pub fn told_after<S: Storage<u32>>(
    document: &mut Document<u64, S>,
    place: Place,
    content: u64,
    here: Location,
) -> Result<u64, Stale>
    requires { WasPlaced document.old place }
    ensures gone { IsErr result }
    ensures told { (l : Location) → created_at document.old place ≡ Some l →
        IfErr result (λ stale. stale.created_at ≡ Some l) }
{
    let _ = document.remove(place);
    let _ = document.add(content, here);
    document.get(place).copied()
}

/// Adds a part to a document that has room for it: a slot is free, a dropped part's key is vacant, and a part
/// was added at this location before. That never fails.
pub fn refill<S: Storage<u32>>(
    document: &mut Document<u64, S>,
    content: u64,
    here: Location,
) -> Result<Place, Refusal<u64>>
    requires slot { free document.old.state ≢ 0 }
    requires few_slots { slots document.old.state < too_many }
    requires key { is_full document.old.parts ≡ false }
    requires few_keys { document.old.next < too_many }
    requires told { is_site document.old here ≡ true }
    ensures { IsOk result }
{
    document.add(content, here)
}

/// Removes a place, and returns whether the document is blank then: no place refers to a part.
pub fn blank_without<S: Storage<u32>>(document: &mut Document<u64, S>, place: Place) -> bool
    ensures { IsTrue result ↔ ((q : Place) → shown_in document.new q ≡ None) }
{
    let _ = document.remove(place);
    document.is_empty()
}

/// Removes a place, and returns how many are left: there was one more before.
pub fn left_without<S: Storage<u32>>(
    document: &mut Document<u64, S>,
    place: Place,
) -> Result<usize, Stale>
    ensures { IfOk result (λ left. HasPlaces document.old (left + 1)) }
{
    document.remove(place)?;
    Ok(document.len())
}

/// How many places there are beyond one for each part.
pub fn repeats<S: Storage<u32>>(document: &Document<u64, S>) -> usize
    ensures { (parts : ℕ) × HasParts document.now parts × HasPlaces document.now (parts + result) }
{
    let parts = document.part_count();
    document.len() - parts
}

/// Removes a place if no other refers to its part, which is dropped with it. Returns whether it was so.
pub fn removed_if_alone<S: Storage<u32>>(
    document: &mut Document<u64, S>,
    place: Place,
) -> Result<bool, Stale>
    ensures alone { IfOk result (λ alone. alone ≡ true → EndsPart document.old place document.new) }
    ensures shared { IfOk result (λ alone. alone ≡ false →
        (q : Place) × IsOther place q × (part_in document.new q ≡ part_in document.new place)) }
{
    if document.place_count(place)? > 1 {
        return Ok(false);
    }
    document.remove(place)?;
    Ok(true)
}

/// A place of each part that is on a page or below, if there are at most so many.
pub fn parts_up_to<S: Storage<u32>>(
    document: &Document<u64, S>,
    page: Place,
    most: usize,
) -> Result<Option<Vec<Place>>, AllocError>
    ensures every { IfOk result (λ found. IfSome found (λ places. (q : Place) → IsBelowPlace document.now page q →
        is_some (shown_in document.now q) ≡ true →
        (p : Place) × Contains places.items p × (part_in document.now p ≡ part_in document.now q))) }
    ensures few { IfOk result (λ found. IfSome found (λ places. length places.items ≤ most)) }
    ensures many { IfOk result (λ found. IfNone found ((places : List Place) × (most < length places)
        × All (IsBelowPlace document.now page) places
        × AllPairs (λ p q. part_in document.now p ≢ part_in document.now q) places)) }
{
    let places = document.outline_once(page)?;
    if places.len() > most {
        return Ok(None);
    }
    Ok(Some(places))
}

/// Removes what is neither a book nor below it. Returns whether a place is still there.
pub fn survives<S: Storage<u32>>(
    document: &mut Document<u64, S>,
    book: Place,
    place: Place,
) -> Result<bool, PlaceError>
    ensures below { IfOk result (λ survives. IsBelowPlace document.old book place →
        survives ≡ is_some (shown_in document.old place)) }
    ensures other { IfOk result (λ survives.
        ((p : Place) → IsBelowPlace document.old book p → IsOther p place) → survives ≡ false) }
{
    document.retain_below(book)?;
    Ok(document.is_alive(place))
}

/// A live place, if there is one.
pub fn some_place<S: Storage<u32>>(document: &Document<u64, S>) -> Result<Option<Place>, AllocError>
    ensures live { IfOk result (λ found. IfSome found (λ p. is_some (shown_in document.now p) ≡ true)) }
    ensures none { IfOk result (λ found. IfNone found ((q : Place) → shown_in document.now q ≡ None)) }
{
    Ok(document.places()?.first().copied())
}
