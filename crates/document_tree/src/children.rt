//! The children of parts.

ghost use Rattle.std.specs.Prelude.{◌≡◌, ◌≢◌, ◌↔◌, ◌⊎◌, ◌++◌, ◌∷◌, ◌<◌, ◌≤◌, [], ℕ, None, Some, is_some, length, slice_get, true};
ghost use Rattle.std.specs.Prelude.{Err, IfErr, IfNone, IfOk, IfSome, IsErr, IsFalse, IsTrue, List, OnErr, OnOk};
ghost use Rattle.std.specs.List.{insert, position, remove};
ghost use Rattle.handles.specs.Handles.{is_same};
ghost use Rattle.document_tree.specs.Documents.{ChangesPart, Leaves, Place, WasPlaced, children_shown, created_at, first_gone, live_among};
ghost use Rattle.document_tree.specs.Documents.{part_in, shown_by, shown_in, with_child, with_children};
ghost use Rattle.document_tree.specs.Outlines.{children_in};
ghost use Rattle.document_tree.specs.declared.place.PlaceError.TheVariants as errors;

use crate::document::Document;
use crate::part::{Part, change_part};
use crate::place::{Place, PlaceError};
use generational_core::Storage;
use handles::Stale;
use handles::parts::peek;
use std::mem;
use store_room::reserve_more;

impl<T, S: Storage<u32>> Document<T, S> {
    /// Adds the child as the last child of the parent's part. Places that refer to other parts are
    /// unchanged.
    ///
    /// The child may already be a child of any part, even of this one. A document may have cycles: a
    /// part may be below itself.
    ///
    /// Amortised O(1).
    ///
    /// # Errors
    ///
    /// - `Stale` if the parent was removed, or belongs to another document; then the same for the child.
    /// - `OutOfMemory`.
    ///
    /// Every place is unchanged then.
    ///
    /// ```rust
    /// document.append(page, heading)?;
    /// ```
    pub fn append(&mut self, parent: Place, child: Place) -> Result<(), PlaceError>
    where
        T: Drop,
        ensures shown { OnOk result ((q : Place) →
            part_in self.old q ≡ part_in self.old parent →
            shown_in self.new q ≡ with_child child (shown_in self.old parent)) }
        ensures others { (q : Place) → part_in self.old q ≢ part_in self.old parent →
            Leaves self.old q self.new }
        ensures parts { (q : Place) → part_in self.new q ≡ part_in self.old q }
        ensures tells { (q : Place) → created_at self.new q ≡ created_at self.old q }
        ensures kept { (q : Place) → WasPlaced self.old q → WasPlaced self.new q }
        ensures refused { OnErr result ((q : Place) → Leaves self.old q self.new) }
        ensures gone { (shown_in self.old parent ≡ None) ⊎ (shown_in self.old child ≡ None) →
            result ≡ Err (errors.Stale (record {
              created_at = created_at self.old (first_gone (shown_in self.old parent) parent child);
            })) }
        ensures cause { IfErr result (λ error. (error ≡ errors.OutOfMemory)
            ⊎ (shown_in self.old parent ≡ None) ⊎ (shown_in self.old child ≡ None)) }
    {
        let key = self.key_of(parent)?;
        self.key_of(child)?;
        let mut children = self.swap_children(key, Vec::new(self.alloc));
        let pushed = push_place(&mut children, child);
        self.swap_children(key, children);
        if !pushed {
            return Err(PlaceError::OutOfMemory);
        }
        Ok(())
    }

    /// Adds the child as a child of the parent's part at an index: those after it move up by one. Places
    /// that refer to other parts are unchanged.
    ///
    /// O(c) for c children after it.
    ///
    /// # Errors
    ///
    /// - `Stale` if the parent was removed, or belongs to another document; then the same for the child.
    /// - `OutOfRange` if the part has fewer children than the index.
    /// - `OutOfMemory`.
    ///
    /// Every place is unchanged then.
    ///
    /// ```rust
    /// document.insert(page, 0, again)?;
    /// ```
    pub fn insert(&mut self, parent: Place, index: usize, child: Place) -> Result<(), PlaceError>
    where
        T: Drop,
        ensures shown { OnOk result ((q : Place) →
            part_in self.old q ≡ part_in self.old parent →
            shown_in self.new q
            ≡ with_children (λ list. insert list index child) (shown_in self.old parent)) }
        ensures others { (q : Place) → part_in self.old q ≢ part_in self.old parent →
            Leaves self.old q self.new }
        ensures parts { (q : Place) → part_in self.new q ≡ part_in self.old q }
        ensures tells { (q : Place) → created_at self.new q ≡ created_at self.old q }
        ensures kept { (q : Place) → WasPlaced self.old q → WasPlaced self.new q }
        ensures refused { OnErr result ((q : Place) → Leaves self.old q self.new) }
        ensures gone { (shown_in self.old parent ≡ None) ⊎ (shown_in self.old child ≡ None) →
            result ≡ Err (errors.Stale (record {
              created_at = created_at self.old (first_gone (shown_in self.old parent) parent child);
            })) }
        ensures range { is_some (shown_in self.old child) ≡ true →
            ((list : List Place) → children_shown (shown_in self.old parent) ≡ Some list →
            length list < index → result ≡ Err errors.OutOfRange) }
        ensures cause { IfErr result (λ error. (error ≡ errors.OutOfMemory)
            ⊎ (shown_in self.old parent ≡ None) ⊎ (shown_in self.old child ≡ None)
            ⊎ ((list : List Place) → children_shown (shown_in self.old parent) ≡ Some list →
            length list < index)) }
    {
        let key = self.key_of(parent)?;
        let count = self.children(parent)?.len();
        self.key_of(child)?;
        if count < index {
            return Err(PlaceError::OutOfRange);
        }
        let mut children = self.swap_children(key, Vec::new(self.alloc));
        let inserted = insert_place(&mut children, index, child);
        self.swap_children(key, children);
        if !inserted {
            return Err(PlaceError::OutOfMemory);
        }
        Ok(())
    }

    /// Removes the child at an index from the children of the parent's part, and returns it: those after
    /// it move down by one. The child still refers to its part, and places that refer to other parts than
    /// the parent's are unchanged.
    ///
    /// Doesn't allocate, and is O(c) for c children after it.
    ///
    /// # Errors
    ///
    /// - `Stale` if the parent was removed, or belongs to another document.
    /// - `OutOfRange` if the part has no child at the index.
    ///
    /// The document is unchanged then.
    ///
    /// ```rust
    /// let taken = document.take_child(page, 0)?;
    /// ```
    pub fn take_child(&mut self, parent: Place, index: usize) -> Result<Place, PlaceError>
        ensures taken { IfOk result (λ child. (list : List Place) →
            children_shown (shown_in self.old parent) ≡ Some list →
            slice_get list index ≡ Some child) }
        ensures shown { OnOk result ((q : Place) →
            part_in self.old q ≡ part_in self.old parent →
            shown_in self.new q
            ≡ with_children (λ list. remove list index) (shown_in self.old parent)) }
        ensures others { (q : Place) → part_in self.old q ≢ part_in self.old parent →
            Leaves self.old q self.new }
        ensures parts { (q : Place) → part_in self.new q ≡ part_in self.old q }
        ensures tells { (q : Place) → created_at self.new q ≡ created_at self.old q }
        ensures kept { (q : Place) → WasPlaced self.old q → WasPlaced self.new q }
        ensures refused { OnErr result (self.new ≡ self.old) }
        ensures gone { shown_in self.old parent ≡ None →
            result ≡ Err (errors.Stale (record { created_at = created_at self.old parent })) }
        ensures range { (list : List Place) → children_shown (shown_in self.old parent) ≡ Some list →
            length list ≤ index → result ≡ Err errors.OutOfRange }
        ensures cause { OnErr result ((shown_in self.old parent ≡ None)
            ⊎ ((list : List Place) → children_shown (shown_in self.old parent) ≡ Some list →
            length list ≤ index)) }
    {
        let key = self.key_of(parent)?;
        if self.children(parent)?.len() <= index {
            return Err(PlaceError::OutOfRange);
        }
        match change_part(
            &mut self.parts,
            key as usize,
            |part: &mut Part<T>| remove_at(part, index),
        ) {
            Some(child) => Ok(child),
            None => unreachable!(),
        }
    }

    /// Removes a child from the children of the parent's part, at the first index where it is, and returns
    /// the index: those after it move down by one. None if the part has no such child. The child still
    /// refers to its part, and places that refer to other parts than the parent's are unchanged.
    ///
    /// Doesn't allocate, and is O(c) for c children.
    ///
    /// # Errors
    ///
    /// `Stale` if the parent was removed, or belongs to another document. The document is unchanged then.
    ///
    /// ```rust
    /// let index = document.remove_child(page, heading)?;
    /// ```
    pub fn remove_child(&mut self, parent: Place, child: Place) -> Result<Option<usize>, Stale>
        ensures index { IfOk result (λ index. index
            ≡ position (λ p. is_same p child) (children_in self.old parent)) }
        ensures shown { IfOk result (λ index. IfSome index (λ at. (q : Place) →
            part_in self.old q ≡ part_in self.old parent →
            shown_in self.new q ≡ with_children (λ list. remove list at) (shown_in self.old parent))) }
        ensures none { IfOk result (λ index. IfNone index (self.new ≡ self.old)) }
        ensures others { (q : Place) → part_in self.old q ≢ part_in self.old parent →
            Leaves self.old q self.new }
        ensures parts { (q : Place) → part_in self.new q ≡ part_in self.old q }
        ensures tells { (q : Place) → created_at self.new q ≡ created_at self.old q }
        ensures kept { (q : Place) → WasPlaced self.old q → WasPlaced self.new q }
        ensures refused { OnErr result (self.new ≡ self.old) }
        ensures gone { IsErr result ↔ shown_in self.old parent ≡ None }
        ensures told { IfErr result (λ stale. stale.created_at ≡ created_at self.old parent) }
    {
        let children = self.children(parent)?;
        let Some(index) = index_of(children, child) else {
            return Ok(None);
        };
        match self.take_child(parent, index) {
            Ok(_) => Ok(Some(index)),
            Err(_) => unreachable!(),
        }
    }

    /// Removes the removed places from the children of the parent's part. The other children keep their
    /// order, and places that refer to other parts are unchanged.
    ///
    /// Doesn't allocate, and is O(c) for c children.
    ///
    /// # Errors
    ///
    /// `Stale` if the parent was removed, or belongs to another document. The document is unchanged
    /// then.
    ///
    /// ```rust
    /// document.clear_gone(page)?;
    /// ```
    pub fn clear_gone(&mut self, parent: Place) -> Result<(), Stale>
    where
        T: Drop,
        ensures shown { OnOk result ((q : Place) →
            part_in self.old q ≡ part_in self.old parent →
            shown_in self.new q
            ≡ with_children (λ list. live_among self.old list) (shown_in self.old parent)) }
        ensures others { (q : Place) → part_in self.old q ≢ part_in self.old parent →
            Leaves self.old q self.new }
        ensures parts { (q : Place) → part_in self.new q ≡ part_in self.old q }
        ensures tells { (q : Place) → created_at self.new q ≡ created_at self.old q }
        ensures kept { (q : Place) → WasPlaced self.old q → WasPlaced self.new q }
        ensures refused { OnErr result (self.new ≡ self.old) }
        ensures gone { IsErr result ↔ shown_in self.old parent ≡ None }
        ensures told { IfErr result (λ stale. stale.created_at ≡ created_at self.old parent) }
    {
        let key = self.key_of(parent)?;
        let mut children = self.swap_children(key, Vec::new(self.alloc));
        self.retain_live(&mut children);
        self.swap_children(key, children);
        Ok(())
    }

    // Removes from a list those that refer to no part.
    fn retain_live(&self, places: &mut Vec<Place>)
        ensures { places.new.items ≡ live_among self.now places.old.items }
    {
        places.retain(|place| peek(&self.store, *place).is_some());
    }

    // Replaces a part's children, and returns the old ones.
    fn swap_children(&mut self, key: u32, children: Vec<Place>) -> Vec<Place>
        requires { (place : Place) × (part_in self.old place ≡ Some key) }
        ensures old { (place : Place) → part_in self.old place ≡ Some key →
            children_shown (shown_in self.old place) ≡ Some result.items }
        ensures changed { (place : Place) → part_in self.old place ≡ Some key → ChangesPart self.old place
            (with_children (λ list. children.items) (shown_in self.old place)) self.new }
        ensures tells { (q : Place) → created_at self.new q ≡ created_at self.old q }
    {
        change_part(&mut self.parts, key as usize, |part: &mut Part<T>| {
            replace_children(part, children)
        })
    }
}

// Appends a place to a list. Whether there was capacity.
fn push_place(places: &mut Vec<Place>, place: Place) -> bool
    ensures pushed { IsTrue result → places.new.items ≡ places.old.items ++ place ∷ [] }
    ensures same { IsFalse result → places.new.items ≡ places.old.items }
{
    if reserve_more(places, 1).is_err() {
        return false;
    }
    places.push_reserved(place);
    true
}

// Inserts a place at an index of a list. Whether there was capacity.
fn insert_place(places: &mut Vec<Place>, index: usize, place: Place) -> bool
    requires { index ≤ length places.old.items }
    ensures inserted { IsTrue result → places.new.items ≡ insert places.old.items index place }
    ensures same { IsFalse result → places.new.items ≡ places.old.items }
{
    reserve_more(places, 1).is_ok() && places.insert(index, place).is_ok()
}

// The first index of a list at which a place is.
fn index_of(places: &[Place], place: Place) -> Option<usize>
    ensures index { result ≡ position (λ p. is_same p place) places.now }
    ensures within { IfSome result (λ index. index < length places.now) }
{
    places.iter().position(|other| *other == place)
}

// Removes the child at an index of a part, if there is one.
fn remove_at<T>(part: &mut Part<T>, index: usize) -> Option<Place>
    ensures removed { IfSome result (λ child.
        (slice_get part.old.children.items index ≡ Some child)
        × (shown_by part.new ≡ with_children (λ list. remove list index) (shown_by part.old))) }
    ensures none { IfNone result (length part.old.children.items ≤ index) }
    ensures places { part.new.places ≡ part.old.places }
    ensures site { part.new.site ≡ part.old.site }
{
    if part.children.len() <= index {
        return None;
    }
    Some(part.children.remove(index))
}

// Replaces a part's children, and returns the old ones.
fn replace_children<T>(part: &mut Part<T>, children: Vec<Place>) -> Vec<Place>
    ensures old { result ≡ part.old.children }
    ensures shown { shown_by part.new
        ≡ with_children (λ list. children.items) (shown_by part.old) }
    ensures places { part.new.places ≡ part.old.places }
    ensures site { part.new.site ≡ part.old.site }
{
    mem::replace(&mut part.children, children)
}
