//! Removal of all places except one and those below it.

ghost use Rattle.std.specs.Prelude.{◌≡◌, ◌≢◌, ◌⊎◌, Err, IfErr, IfOk, None, OnErr, OnOk, length};
ghost use Rattle.std.specs.List.{Contains};
ghost use Rattle.generational_core.specs.Slots.{slots};
ghost use Rattle.handles.specs.Handles.{IsOther, id_in};
ghost use Rattle.document_tree.specs.Documents.{Leaves, Place, WasPlaced, created_at, part_in, shown_in};
ghost use Rattle.document_tree.specs.Outlines.{IsBelowPlace, children_in};
ghost use Rattle.document_tree.specs.Flagging.{AreFlagged, Flags};
ghost use Rattle.document_tree.specs.declared.place.PlaceError.TheVariants as errors;

use crate::document::Document;
use crate::place::{Place, PlaceError};
use generational_core::{GenerationalBoxId, Storage};
use handles::parts::{peek, slot_of};
use live_cells::plain_cells;
use std::alloc::AllocError;

impl<T, S: Storage<u32>> Document<T, S> {
    /// Removes each place that is neither this one nor below it, also those of a cycle, and drops the
    /// parts that no place refers to then. The place and those below it are unchanged.
    ///
    /// Allocates temporarily what `outline_once` does, a byte for each slot, and two lists of the slots, of
    /// some 50 bytes each. O(n) for n slots, parts and children, except for dropping parts.
    ///
    /// # Errors
    ///
    /// - `Stale` if the place was removed, or belongs to another document.
    /// - `OutOfMemory`.
    ///
    /// The document is unchanged then.
    ///
    /// ```rust
    /// document.remove(page)?;
    /// document.retain_below(book)?;
    /// ```
    pub fn retain_below(&mut self, place: Place) -> Result<(), PlaceError>
    where
        T: Drop,
        ensures below { (q : Place) → IsBelowPlace self.old place q → Leaves self.old q self.new }
        ensures others { OnOk result ((q : Place) →
            ((p : Place) → IsBelowPlace self.old place p → IsOther p q) → part_in self.new q ≡ None) }
        ensures tells { (q : Place) → created_at self.new q ≡ created_at self.old q }
        ensures kept { (q : Place) → WasPlaced self.old q → WasPlaced self.new q }
        ensures refused { OnErr result (self.new ≡ self.old) }
        ensures gone { shown_in self.old place ≡ None →
            result ≡ Err (errors.Stale (record { created_at = created_at self.old place })) }
        ensures cause { IfErr result (λ error.
            (shown_in self.old place ≡ None) ⊎ (error ≡ errors.OutOfMemory)) }
    {
        self.key_of(place)?;
        let Ok(flags) = self.slots_below(place) else {
            return Err(PlaceError::OutOfMemory);
        };
        let Ok(cells) = plain_cells(self.alloc, &self.store) else {
            return Err(PlaceError::OutOfMemory);
        };
        for at in 0..cells.len() {
            let id = cells[at].id;
            if !flags[id.slot] {
                self.remove_by_id(id);
            }
        }
        Ok(())
    }

    // Removes the place with an id, if it is live.
    fn remove_by_id(&mut self, id: GenerationalBoxId)
    where
        T: Drop,
        ensures here { (q : Place) → id_in q ≡ id → part_in self.new q ≡ None }
        ensures others { (q : Place) → id_in q ≢ id → Leaves self.old q self.new }
        ensures tells { (q : Place) → created_at self.new q ≡ created_at self.old q }
        ensures kept { (q : Place) → WasPlaced self.old q → WasPlaced self.new q }
    {
        // The proof takes what holds of the document from this borrow.
        let _ = &self.store;
        if let Some(place) = self.find(id) {
            let _ = self.remove(place);
        }
    }

    // For each slot whether its place is this one, or below it.
    fn slots_below(&self, place: Place) -> Result<Vec<bool>, AllocError>
        ensures flagged { IfOk result (λ flags. AreFlagged self.now (IsBelowPlace self.now place) flags.items) }
        ensures length { IfOk result (λ flags. length flags.items ≡ slots self.now.state) }
    {
        let places = self.outline_once(place)?;
        let mut flags = vec![in self.alloc; false; self.store.slots()]?;
        self.flag(&mut flags, place);
        for at in 0..places.len() {
            self.flag_children(&mut flags, places[at]);
        }
        Ok(flags)
    }

    // Flags the slots of a place's children that are live.
    fn flag_children(&self, flags: &mut Vec<bool>, place: Place)
        requires { length flags.old.items ≡ slots self.now.state }
        ensures { Flags self.now (Contains (children_in self.now place)) flags.old.items flags.new.items }
    {
        let Ok(children) = self.children(place) else {
            return;
        };
        for at in 0..children.len() {
            self.flag(flags, children[at]);
        }
    }

    // Flags the slot of a place, if it is live.
    fn flag(&self, flags: &mut Vec<bool>, place: Place)
        requires { length flags.old.items ≡ slots self.now.state }
        ensures { Flags self.now (λ p. p ≡ place) flags.old.items flags.new.items }
    {
        let Some(_) = peek(&self.store, place) else {
            return;
        };
        flags[slot_of(place)] = true;
    }
}
