//! Outlines: the places below a place, in the order in which a document is read.

ghost use Rattle.std.specs.Prelude.{◌≡◌, ◌≢◌, ◌⊎◌, ◌<◌, ◌++◌, ◌∷◌, ◌+◌, ℕ, [], IfNone, IfOk, IfSome, IsFalse, IsTrue, OnOk, Some};
ghost use Rattle.std.specs.Prelude.{is_some, length, map, reverse, slice_get, true};
ghost use Rattle.std.specs.List.{All, AllPairs, Contains};
ghost use Rattle.document_tree.specs.Documents.{Place, part_in, shown_in};
ghost use Rattle.document_tree.specs.Outlines.{IsBelowPlace, children_in, deep_outline_of, outline_places};
ghost use Rattle.document_tree.specs.Marks.{IsPassed, MarksFirst};

use crate::document::Document;
use crate::laying::end_of;
use crate::place::Place;
use generational_core::Storage;
use handles::parts::peek;
use std::alloc::AllocError;

impl<T, S: Storage<u32>> Document<T, S> {
    /// Returns a list of the place and those below it, depth-first: each before its children, and these
    /// in their order. A part is listed at each place that refers to it, and a removed place is listed
    /// without children.
    ///
    /// Lists at most `limit` places, even if the document has a cycle. Allocates the list, and one of
    /// the pending places. O(n) for n listed places and their children.
    ///
    /// # Errors
    ///
    /// If memory runs out.
    ///
    /// ```rust
    /// for place in document.outline(page, 100)?.iter() {
    ///     println!(rt; "{}", document.get(*place)?)?;
    /// }
    /// ```
    pub fn outline(&self, place: Place, limit: usize) -> Result<Vec<Place>, AllocError>
        ensures { IfOk result (λ places. places.items ≡ outline_places self.now limit (place ∷ [])) }
    {
        let mut places = Vec::new(self.alloc);
        let mut waiting = vec![in self.alloc; place]?;
        while places.len() < limit {
            let Some(next) = waiting.pop() else {
                break;
            };
            places.push(next)?;
            self.put_children(&mut waiting, next)?;
        }
        Ok(places)
    }

    /// Returns the places of `outline`, each with its depth below the first: 0 for the first, 1 for its
    /// children. Allocates and takes time like `outline`.
    ///
    /// # Errors
    ///
    /// If memory runs out.
    ///
    /// ```rust
    /// for (depth, place) in document.outline_with_depth(page, 100)?.iter() {
    ///     println!(rt; "depth {depth}: {}", document.get(*place)?)?;
    /// }
    /// ```
    pub fn outline_with_depth(
        &self,
        place: Place,
        limit: usize,
    ) -> Result<Vec<(usize, Place)>, AllocError>
        ensures { IfOk result (λ places.
            places.items ≡ deep_outline_of self.now limit ((0, place) ∷ [])) }
    {
        let mut places = Vec::new(self.alloc);
        let mut waiting = vec![in self.alloc; (0, place)]?;
        while places.len() < limit {
            let Some((depth, next)) = waiting.pop() else {
                break;
            };
            places.push((depth, next))?;
            self.put_children_at(&mut waiting, depth + 1, next)?;
        }
        Ok(places)
    }

    /// Returns a list that has each part once that is at the place or below it: a place of each. The place
    /// itself is the first, if it is live. A removed place isn't listed. A document may have cycles.
    ///
    /// Allocates the list, one of the pending places, and a byte for each part of the document. O(n) for n
    /// listed places and their children, and for the parts of the document.
    ///
    /// # Errors
    ///
    /// If memory runs out.
    ///
    /// ```rust
    /// for place in document.outline_once(page)?.iter() {
    ///     println!(rt; "{}", document.get(*place)?)?;
    /// }
    /// ```
    pub fn outline_once(&self, place: Place) -> Result<Vec<Place>, AllocError>
        ensures first { IfOk result (λ places. is_some (shown_in self.now place) ≡ true →
            slice_get places.items 0 ≡ Some place) }
        ensures live { IfOk result (λ places. All (λ p. is_some (shown_in self.now p) ≡ true) places.items) }
        ensures below { IfOk result (λ places. All (IsBelowPlace self.now place) places.items) }
        ensures once { IfOk result (λ places.
            AllPairs (λ p q. part_in self.now p ≢ part_in self.now q) places.items) }
        ensures every { IfOk result (λ places. (q : Place) → IsBelowPlace self.now place q →
            is_some (shown_in self.now q) ≡ true →
            (p : Place) × Contains places.items p × (part_in self.now p ≡ part_in self.now q)) }
    {
        let Some(end) = end_of(&self.parts) else {
            return Err(AllocError);
        };
        let mut places = Vec::new(self.alloc);
        let mut marks = vec![in self.alloc; false; end]?;
        let mut waiting = vec![in self.alloc; place]?;
        while let Some(next) = self.next_unmarked(&mut waiting, &mut marks) {
            places.push(next)?;
            self.put_children(&mut waiting, next)?;
        }
        Ok(places)
    }

    // The last place of a list whose part isn't marked: that is marked then. The place and those after it are
    // removed from the list.
    fn next_unmarked(&self, waiting: &mut Vec<Place>, marks: &mut Vec<bool>) -> Option<Place>
        requires { (p : Place) (key : ℕ) → part_in self.now p ≡ Some key → key < length marks.old.items }
        ensures found { IfSome result (λ p. Contains waiting.old.items p
            × MarksFirst self.now p marks.old.items marks.new.items) }
        ensures none { IfNone result (length waiting.new.items ≡ 0) }
        ensures same { IfNone result (marks.new.items ≡ marks.old.items) }
        ensures left { (q : Place) → Contains waiting.new.items q → Contains waiting.old.items q }
        ensures passed { (q : Place) → Contains waiting.old.items q →
            Contains waiting.new.items q ⊎ IsPassed self.now marks.new.items q }
    {
        while let Some(next) = waiting.pop() {
            if self.mark(next, marks) {
                return Some(next);
            }
        }
        None
    }

    // Marks the part of a place. Whether it has one that wasn't marked.
    fn mark(&self, place: Place, marks: &mut Vec<bool>) -> bool
        requires { (key : ℕ) → part_in self.now place ≡ Some key → key < length marks.old.items }
        ensures first { IsTrue result → MarksFirst self.now place marks.old.items marks.new.items }
        ensures passed { IsFalse result → IsPassed self.now marks.old.items place }
        ensures same { IsFalse result → marks.new.items ≡ marks.old.items }
    {
        let Some(key) = peek(&self.store, place) else {
            return false;
        };
        let key = *key as usize;
        if marks[key] {
            return false;
        }
        marks[key] = true;
        true
    }

    // Appends the children of a place to a list, the first one last.
    fn put_children(&self, places: &mut Vec<Place>, place: Place) -> Result<(), AllocError>
        ensures { OnOk result (
            places.new.items ≡ places.old.items ++ reverse (children_in self.now place)) }
    {
        match self.children(place) {
            Ok(children) => places.extend(children.iter().rev().copied()),
            Err(_) => Ok(()),
        }
    }

    // Appends the children of a place to a list, each with a depth, the first one last.
    fn put_children_at(
        &self,
        places: &mut Vec<(usize, Place)>,
        depth: usize,
        place: Place,
    ) -> Result<(), AllocError>
        ensures { OnOk result (places.new.items
            ≡ places.old.items ++ map (λ q. (depth, q)) (reverse (children_in self.now place))) }
    {
        match self.children(place) {
            Ok(children) => places.extend(children.iter().rev().map(|child| (depth, *child))),
            Err(_) => Ok(()),
        }
    }
}
