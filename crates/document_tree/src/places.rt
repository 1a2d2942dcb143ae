//! All places of a document.

ghost use Rattle.std.specs.Prelude.{◌≡◌, ◌<◌, ℕ, IfOk, OnOk, is_some, length, true};
ghost use Rattle.std.specs.List.{All, AllPairs, Contains};
ghost use Rattle.handles.specs.Handles.{IsOther, IsSame, id_in};
ghost use Rattle.document_tree.specs.Documents.{Place, shown_in};
ghost use Rattle.document_tree.specs.Flagging.{AreListed, IsFlagged};

use crate::document::Document;
use crate::place::Place;
use generational_core::{GenerationalBoxId, Storage};
use live_cells::plain_cells;
use std::alloc::AllocError;

impl<T, S: Storage<u32>> Document<T, S> {
    /// Returns a list of all live places, each once.
    ///
    /// Allocates the list, and temporarily a byte for each slot, and two lists of the slots, of some 50
    /// bytes each. O(n) for n slots.
    ///
    /// # Errors
    ///
    /// If memory runs out.
    ///
    /// ```rust
    /// for place in document.places()?.iter() {
    ///     println!(rt; "{}", document.get(*place)?)?;
    /// }
    /// ```
    pub fn places(&self) -> Result<Vec<Place>, AllocError>
        ensures live { IfOk result (λ places. All (λ p. is_some (shown_in self.now p) ≡ true) places.items) }
        ensures once { IfOk result (λ places. AllPairs IsOther places.items) }
        ensures every { IfOk result (λ places. (q : Place) → is_some (shown_in self.now q) ≡ true →
            (p : Place) × Contains places.items p × IsSame p q) }
    {
        let Ok(cells) = plain_cells(self.alloc, &self.store) else {
            return Err(AllocError);
        };
        let mut flags = vec![in self.alloc; false; self.store.slots()]?;
        let mut places = Vec::new(self.alloc);
        for at in 0..cells.len() {
            self.list(&mut places, &mut flags, cells[at].id)?;
        }
        Ok(places)
    }

    // Adds the place with an id to a list, and flags its slot, unless that is flagged.
    fn list(
        &self,
        places: &mut Vec<Place>,
        flags: &mut Vec<bool>,
        id: GenerationalBoxId,
    ) -> Result<(), AllocError>
        requires within { id.slot < length flags.old.items }
        requires listed { AreListed self.now places.old.items flags.old.items }
        ensures listed { OnOk result (AreListed self.now places.new.items flags.new.items) }
        ensures length { length flags.new.items ≡ length flags.old.items }
        ensures kept { (slot : ℕ) → IsFlagged flags.old.items slot → IsFlagged flags.new.items slot }
        ensures here { OnOk result ((p : Place) → id_in p ≡ id → is_some (shown_in self.now p) ≡ true →
            IsFlagged flags.new.items id.slot) }
    {
        // The proof takes what holds of the document from this borrow.
        let _ = &self.store;
        if flags[id.slot] {
            return Ok(());
        }
        if let Some(place) = self.find(id) {
            flags[id.slot] = true;
            places.push(place)?;
        }
        Ok(())
    }
}
