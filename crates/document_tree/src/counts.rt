//! How much is in a document.

ghost use Rattle.std.specs.Prelude.{◌≡◌, ◌↔◌, None, IfErr, IfOk, IsErr, IsTrue, count_by, is_some};
ghost use Rattle.document_tree.specs.Counting.{HasParts, HasPlaces, PartHasPlaces};
ghost use Rattle.document_tree.specs.Documents.{Place, created_at, shown_in};

use crate::document::Document;
use crate::part::Part;
use crate::place::Place;
use generational_core::Storage;
use handles::Stale;

impl<T, S: Storage<u32>> Document<T, S> {
    /// How many places are live. Doesn't allocate, and is O(1).
    ///
    /// ```rust
    /// println!(rt; "{} places", document.len())?;
    /// ```
    pub fn len(&self) -> usize
        ensures { HasPlaces self.now result }
    {
        self.store.len()
    }

    /// Whether no place is live. Doesn't allocate, and is O(1).
    ///
    /// ```rust
    /// let is_blank = document.is_empty();
    /// ```
    pub fn is_empty(&self) -> bool
        ensures count { IsTrue result ↔ HasPlaces self.now 0 }
        ensures none { IsTrue result ↔ ((p : Place) → shown_in self.now p ≡ None) }
    {
        // The proof takes what holds of the document from this borrow.
        let _ = &self.store;
        self.len() == 0
    }

    /// How many parts there are: each has at least one place. Doesn't allocate, and is O(1).
    ///
    /// ```rust
    /// println!(rt; "{} parts", document.part_count())?;
    /// ```
    pub fn part_count(&self) -> usize
        ensures count { result ≡ count_by is_some self.now.parts }
        ensures used { HasParts self.now result }
    {
        self.parts.len()
    }

    /// How many places refer to a place's part, with the place itself. Doesn't allocate, and is O(1).
    ///
    /// # Errors
    ///
    /// `Stale` if the place was removed, or belongs to another document.
    ///
    /// ```rust
    /// let is_shared = document.place_count(heading)? > 1;
    /// ```
    pub fn place_count(&self, place: Place) -> Result<usize, Stale>
        ensures count { IfOk result (λ n. PartHasPlaces self.now place n) }
        ensures gone { IsErr result ↔ shown_in self.now place ≡ None }
        ensures told { IfErr result (λ stale. stale.created_at ≡ created_at self.now place) }
    {
        // The proof takes what holds of the document from this borrow.
        let _ = &self.store;
        match self.part(place) {
            Some(part) => Ok(count_of(part)),
            None => Err(self.stale(place)),
        }
    }
}

// How many places refer to a part.
fn count_of<T>(part: &Part<T>) -> usize
    ensures { result ≡ part.now.places }
{
    part.places as usize
}
