//! The parts of documents: taking documents apart, and making them of a store with places and of parts.

ghost use Rattle.std.specs.Prelude.{◌≡◌, ◌↔◌, IfErr, IfNone, IfOk, IfSome, OnOk, None, Some, is_some, true};
ghost use Rattle.generational_errors.specs.declared.error.Location.{Location};
ghost use Rattle.generational_laws.specs.PlainStores.{IsSimple};
ghost use Rattle.generational_core.specs.Boxes.{name_of};
ghost use Rattle.generational_core.specs.Seeing.{value_in};
ghost use Rattle.generational_core.specs.State.{IsGiven};
ghost use Rattle.handles.specs.Handles.{id_in, pointer_in};
ghost use Rattle.handles.specs.Sites.{TellsLocation, told_at, told_in};
ghost use Rattle.live_cells.specs.declared.cells.CellFault.TheVariants.{OutOfMemory};
ghost use Rattle.document_tree.specs.Documents.{Place, WasPlaced, added_in, created_at, part_in, shown_in};
ghost use Rattle.document_tree.specs.Taking.{AreParts, IsPartsFault, row_told, shown_told};
ghost use Rattle.document_tree.specs.declared.parts.DocumentPart.{DocumentPart};
ghost use Rattle.document_tree.specs.declared.parts.PartsFault.TheVariants as faults;

use crate::building::{Plan, fill, lead_all, planned};
use crate::document::{Document, LIMIT};
use crate::laying::{end_of, lay_all};
use crate::place::Place;
use generational_core::{GenerationalBoxId, HandedBack, Location, Storage};
use handles::Sites;
use handles::parts::handle_at;
use live_cells::CellFault;
use std::alloc::Global;
use std::error::Error;
use std::fmt;

/// A part of a document that was taken apart.
#[derive(Drop)]
pub struct DocumentPart<T> {
    /// The content.
    pub content: T,
    /// The places of the children, in order.
    pub children: Vec<Place>,
    /// Where the part was added.
    pub created_at: Location,
}

/// The parts of a document.
#[derive(Drop)]
pub struct DocumentParts<T, S> {
    /// The store, which has for each place the index of its part.
    pub store: S,
    /// The locations that the document's places refer to. `Sites::new` has none: it is for a store that
    /// doesn't come from a document.
    pub sites: Sites,
    /// The parts by their indexes. `None` for an index that no place has.
    pub parts: Vec<Option<DocumentPart<T>>>,
}

/// Why parts don't make a document.
#[derive(Clone, Copy, Debug, PartialEq, Eq)]
pub enum PartsFault {
    /// The store has a cell that no document can have, or memory ran out.
    Cell(CellFault),
    /// The value in this slot isn't the index of a part.
    NoPart(usize),
    /// No place refers to the part with this index.
    Unused(usize),
}

/// Prints the text of the `CellFault`, or the fault and its slot or index.
impl fmt::Display for PartsFault {
    fn fmt<W: fmt::Write>(&self, f: &mut fmt::Formatter<W>) -> fmt::Result {
        match self {
            PartsFault::Cell(fault) => write!(f, "{fault}"),
            PartsFault::NoPart(slot) => write!(
                f,
                "the value of slot {slot} is the index of no part"
            ),
            PartsFault::Unused(index) => write!(f, "no place refers to part {index}"),
        }
    }
}

impl Error for PartsFault {}

impl<T, S: Storage<u32>> Document<T, S> {
    /// Borrows the document's store, for example to make an image of it. Doesn't allocate.
    ///
    /// ```rust
    /// let image = document.store().image()?;
    /// ```
    pub fn store(&self) -> &S
        ensures { S.state result.now ≡ self.now.state }
    {
        &self.store
    }

    /// Takes the document apart: its store has for each place the index of its part, and the list has the
    /// parts. Two places of one part have the same index. Allocates the list, and is O(n) for n indexes.
    ///
    /// # Errors
    ///
    /// The document comes back unchanged if memory runs out.
    ///
    /// ```rust
    /// let parts = document.into_parts().ok()?;
    /// ```
    pub fn into_parts(self) -> Result<DocumentParts<T, S>, Self>
    where
        T: Drop,
        ensures state { IfOk result (λ parts. S.state parts.store ≡ self.state) }
        ensures simple { IsSimple self.state }
        ensures sites { IfOk result (λ parts. told_in parts.sites ≡ self.sites) }
        ensures shown { IfOk result (λ parts. (p : Place) →
            shown_told self.state parts.parts.items p ≡ shown_in self p) }
        ensures added { IfOk result (λ parts. (p : Place) (r : DocumentPart T) →
            row_told parts.parts.items (part_in self p) ≡ Some r → added_in self p ≡ Some r.created_at) }
        ensures fits { IfOk result (λ parts. AreParts self.state parts.parts.items) }
        ensures back { IfErr result (λ document. document ≡ self) }
    {
        let Some(end) = end_of(&self.parts) else {
            return Err(self);
        };
        let Ok(mut rows) = Vec::with_capacity(self.alloc, end) else {
            return Err(self);
        };
        let Document {
            store,
            mut parts,
            sites,
            ..
        } = self;
        lay_all(&mut rows, &mut parts, &sites, end);
        Ok(DocumentParts {
            store,
            sites,
            parts: rows,
        })
    }

    /// Creates the document of a store's places and of parts: each live value is a place with its id, and
    /// refers to the part whose index the value is. Any store and any parts may be passed in. Earlier
    /// places, of a document with the same parts, have the same content and children as before. O(n) for n
    /// slots and parts. Allocates the list of parts; temporarily three lists of the slots, of some 50 bytes
    /// each, and 12 bytes for each part.
    ///
    /// # Errors
    ///
    /// All parts come back unchanged, with
    ///
    /// - `Cell` for a slot that has a shared value or a reference, or whose value is borrowed, or if
    ///   memory runs out.
    /// - `NoPart` for a slot whose value isn't the index of a part.
    /// - `Unused` for a part to which no place refers.
    ///
    /// ```rust
    /// let sites = Sites::new(rt.alloc());
    /// let parts = DocumentParts { store, sites, parts };
    /// let document = Document::from_parts(rt.alloc(), parts).ok()?;
    /// ```
    pub fn from_parts(
        alloc: Global,
        parts: DocumentParts<T, S>,
    ) -> Result<Self, HandedBack<DocumentParts<T, S>, PartsFault>>
    where
        T: Drop,
        ensures number { IfOk result (λ document. document.state.number ≡ (S.state parts.store).number) }
        ensures shown { IfOk result (λ document. (p : Place) →
            shown_in document p ≡ shown_told (S.state parts.store) parts.parts.items p) }
        ensures same { IfOk result (λ document. (p q : Place) → part_in document p ≡ part_in document q
            ↔ value_in (S.state parts.store) (pointer_in p) ≡ value_in (S.state parts.store) (pointer_in q)) }
        ensures made { IfOk result (λ document. (p : Place) →
            IsGiven (S.state parts.store) (name_of (pointer_in p)) → WasPlaced document p) }
        ensures here { IfOk result (λ document. (p : Place) (r : DocumentPart T) →
            row_told parts.parts.items (value_in (S.state parts.store) (pointer_in p)) ≡ Some r →
            TellsLocation (added_in document p) r.created_at) }
        ensures tells { IfOk result (λ document. (p : Place) (l : Location) →
            told_at (S.state parts.store).number (told_in parts.sites) p ≡ Some l → created_at document p ≡ Some l) }
        ensures fits { OnOk result (AreParts (S.state parts.store) parts.parts.items) }
        ensures store { IfErr result (λ refusal. refusal.value.store ≡ parts.store) }
        ensures sites { IfErr result (λ refusal. told_in refusal.value.sites ≡ told_in parts.sites) }
        ensures parts { IfErr result (λ refusal. refusal.value.parts ≡ parts.parts) }
        ensures fault { IfErr result (λ refusal.
            IsPartsFault (S.state parts.store) parts.parts.items refusal.cause) }
        ensures short { IsSimple (S.state parts.store) → AreParts (S.state parts.store) parts.parts.items →
            IfErr result (λ refusal. refusal.cause ≡ faults.Cell OutOfMemory) }
    {
        let DocumentParts {
            mut store,
            mut sites,
            parts: rows,
        } = parts;
        let plan = match planned(alloc, &store, &mut sites, rows.as_slice()) {
            Ok(plan) => plan,
            Err(cause) => {
                let value = DocumentParts {
                    store,
                    sites,
                    parts: rows,
                };
                return Err(HandedBack { value, cause });
            }
        };
        let Plan {
            spots,
            counts,
            sites: noted,
            mut parts,
            mut keys,
        } = plan;
        sites.tell_all();
        fill(
            &mut parts,
            &mut keys,
            rows,
            counts.as_slice(),
            noted.as_slice(),
        );
        lead_all(&mut store, spots.as_slice(), keys.as_slice());
        Ok(Document {
            store,
            parts,
            sites,
            alloc,
        })
    }

    /// The place with an id, if it is live, with the location where the part was added that it refers to.
    /// None if the place was removed, or belongs to another document. Doesn't allocate, and is O(1).
    ///
    /// ```rust
    /// let place = document.find(id)?;
    /// ```
    pub fn find(&self, id: GenerationalBoxId) -> Option<Place>
        ensures found { IfSome result (λ p. id_in p ≡ id) }
        ensures live { IfSome result (λ p. is_some (shown_in self.now p) ≡ true) }
        ensures here { IfSome result (λ p. created_at self.now p ≡ added_in self.now p) }
        ensures none { IfNone result ((p : Place) → id_in p ≡ id → shown_in self.now p ≡ None) }
    {
        // The proof takes what holds of the store from this borrow.
        let _ = &self.store;
        if id.slot >= LIMIT {
            return None;
        }
        let Ok((_, site)) = self.find_added(handle_at(id, 0)) else {
            return None;
        };
        Some(handle_at(id, site))
    }
}
