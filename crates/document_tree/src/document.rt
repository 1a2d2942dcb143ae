//! Documents.

ghost use Rattle.std.specs.Prelude.{◌≡◌, ◌≢◌, ◌↔◌, ◌⊎◌, ◌≤◌, [], None, Some, Err, false, true, is_some, option_copied, slice_get};
ghost use Rattle.std.specs.Prelude.{IfErr, IfOk, IsErr, OnErr, OnOk};
ghost use Rattle.std.specs.Borrow.{MutBor};
ghost use Rattle.std.specs.Fn.{FnOnceReturnsAtMut};
ghost use Rattle.generational_core.specs.Slots.{free, slots};
ghost use Rattle.generational_core.specs.Conditions.{IsFresh};
ghost use Rattle.generational_errors.specs.declared.error.Location.{Location};
ghost use Rattle.generational_errors.specs.declared.error.StoreError.TheVariants.{OutOfMemory};
ghost use Rattle.handles.specs.Handles.{IsOther, IsSame};
ghost use Rattle.handles.specs.Sites.{TellsLocation};
ghost use Rattle.document_tree.specs.Documents.{Place, shown_by, shown_in, shown_of, part_at, part_in, content_shown, children_shown};
ghost use Rattle.document_tree.specs.Documents.{with_new_content, WasPlaced, Leaves};
ghost use Rattle.document_tree.specs.Documents.{added_in, created_at, first_gone, is_site, ChangesContent, EndsPart, IsOnlyPlace, KeepsPartLocations};
ghost use Rattle.document_tree.specs.declared.place.PlaceError.TheVariants as errors;
ghost use Rattle.document_tree.specs.Parts.{is_full, too_many};

use crate::part::{Part, change_part, leave, make_room, meet};
use crate::place::{Place, PlaceError};
use generational_core::{HandedBack, Location, Refusal, Storage, StoreError};
use handles::Stale;
use handles::parts::{Sites, handle_at, number_of, peek, pointer_to, site_of};
use slab::Slab;
use std::alloc::Global;
use std::marker::Model;

// Places have lower slots than this, and parts lower keys.
pub(crate) const LIMIT: usize = 4294967295;

/// A document. Contracts model it as the machine's state, which says which part each place refers to,
/// the parts, and the locations where they were added.
#[derive(Drop)]
pub struct Document<T, S: Storage<u32>> {
    // the key of the part of each place
    pub(crate) store: S,
    pub(crate) parts: Slab<Part<T>>,
    pub(crate) sites: Sites,
    pub(crate) alloc: Global,
}

impl<T, S: Storage<u32>> Model for Document<T, S> {
    ghost use Rattle.std.specs.Coded.{codes};
    ghost use Rattle.std.specs.FinMap as map;
    ghost use Rattle.handles.specs.Sites.{told_in};
    ghost use Rattle.document_tree.specs.Documents.{DocumentState};
    ghost use Rattle.document_tree.specs.Keeping.{IsDocumentKept};

    ghost Value = { DocumentState T };

    ghost coded = { Prim.hlevel (codes, map.code) };

    ghost view = { λ d. record {
      state = S.state d.store;
      parts = d.parts.slots;
      next = d.parts.vacant_key;
      sites = told_in d.sites;
    } };

    ghost invariant = { λ d. IsDocumentKept (S.state d.store) d.parts.slots (told_in d.sites) };
}

impl<T, S: Storage<u32>> Document<T, S> {
    /// Creates a document without parts, over a fresh store (see `is_fresh`). Doesn't allocate.
    ///
    /// ```rust
    /// let store = UnsyncStorage::<u32>::new(rt.alloc(), 1);
    /// let mut document = Document::new(rt.alloc(), store);
    /// ```
    pub fn new(alloc: Global, store: S) -> Self
        requires { IsFresh (S.state store) }
        ensures document { result ≡ record { state = S.state store; parts = []; next = 0; sites = [] } }
        ensures none { (p : Place) → shown_in result p ≡ None }
    {
        Document {
            store,
            parts: Slab::new(alloc),
            sites: Sites::new(alloc),
            alloc,
        }
    }

    /// The number of the document's store, which is part of its places. Doesn't allocate.
    ///
    /// ```rust
    /// let number = document.number();
    /// ```
    pub fn number(&self) -> u64
        ensures { result ≡ self.now.state.number }
    {
        self.store.number()
    }

    /// Adds a part with this content and without children, and returns its first place, which was never
    /// issued before. No other place refers to the new part, and every other place is unchanged. The
    /// document says for its whole lifetime where the part was added. Amortised O(1).
    ///
    /// # Errors
    ///
    /// `OutOfMemory` is the only possible error: only if no slot is free, no dropped part's key is
    /// vacant, no part was added at this location yet, or there are too many places or parts
    /// (4294967295). The content comes back, and the document is unchanged.
    ///
    /// ```rust
    /// let page = document.add(1, here)?;
    /// let heading = document.add(10, here)?;
    /// ```
    pub fn add(&mut self, content: T, here: Location) -> Result<Place, Refusal<T>>
        ensures shown { IfOk result (λ p. shown_in self.new p ≡
            Some (record { content = content; children = [] })) }
        ensures others { IfOk result (λ p. (q : Place) → IsOther p q →
            Leaves self.old q self.new) }
        ensures left { (q : Place) → WasPlaced self.old q → Leaves self.old q self.new }
        ensures alone { IfOk result (λ p. (q : Place) → WasPlaced self.old q →
            part_in self.new p ≢ part_in self.new q) }
        ensures new { IfOk result (λ p. (q : Place) → WasPlaced self.old q → IsOther p q) }
        ensures made { IfOk result (λ p. WasPlaced self.new p) }
        ensures key { IfOk result (λ p. part_in self.new p ≡ Some self.old.next) }
        ensures here { IfOk result (λ p. TellsLocation (created_at self.new p) here) }
        ensures added { IfOk result (λ p. added_in self.new p ≡ created_at self.new p) }
        ensures tells { KeepsPartLocations self.old self.new }
        ensures kept { (q : Place) → WasPlaced self.old q → WasPlaced self.new q }
        ensures refused { OnErr result (self.new ≡ self.old) }
        ensures back { IfErr result (λ refusal. refusal.value ≡ content) }
        ensures cause { IfErr result (λ refusal. refusal.cause ≡ OutOfMemory) }
        ensures short { OnErr result ((free self.old.state ≡ 0) ⊎ (is_full self.old.parts ≡ true)
            ⊎ (is_site self.old here ≡ false)
            ⊎ (too_many ≤ slots self.old.state) ⊎ (too_many ≤ self.old.next)) }
    {
        let key = self.parts.vacant_key();
        if key >= LIMIT || self.store.slots() >= LIMIT || !make_room(&mut self.parts) {
            return Err(lacking(content));
        }
        let Ok(site) = self.sites.find_or_add(here) else {
            return Err(lacking(content));
        };
        let raw = match self.store.new(key as u32, here, None) {
            Ok(raw) => raw,
            Err(_) => return Err(lacking(content)),
        };
        let place = handle_at(raw.id, site);
        self.sites.tell(site);
        let children = Vec::new(self.alloc);
        self.parts.insert_reserved(Part {
            content,
            children,
            places: 1,
            site,
        });
        Ok(place)
    }

    /// Returns another place that refers to the same part, with the location where that was added. It
    /// was never issued before, and every other place is unchanged. Amortised O(1). Allocates only if no
    /// slot is free.
    ///
    /// # Errors
    ///
    /// - `Stale` if the place was removed, or belongs to another document.
    /// - `OutOfMemory`, only if no slot is free, or there are too many places (4294967295).
    ///
    /// The document is unchanged then.
    ///
    /// ```rust
    /// let again = document.repeat(heading)?;
    /// ```
    pub fn repeat(&mut self, place: Place) -> Result<Place, PlaceError>
        ensures part { IfOk result (λ p. part_in self.new p ≡ part_in self.old place) }
        ensures shown { IfOk result (λ p. shown_in self.new p ≡ shown_in self.old place) }
        ensures here { IfOk result (λ p. (l : Location)
            × (added_in self.old place ≡ Some l) × (created_at self.new p ≡ Some l)) }
        ensures others { IfOk result (λ p. (q : Place) → IsOther p q →
            Leaves self.old q self.new) }
        ensures left { (q : Place) → WasPlaced self.old q → Leaves self.old q self.new }
        ensures new { IfOk result (λ p. (q : Place) → WasPlaced self.old q → IsOther p q) }
        ensures made { IfOk result (λ p. WasPlaced self.new p) }
        ensures tells { (q : Place) → created_at self.new q ≡ created_at self.old q }
        ensures kept { (q : Place) → WasPlaced self.old q → WasPlaced self.new q }
        ensures refused { OnErr result (self.new ≡ self.old) }
        ensures gone { shown_in self.old place ≡ None →
            result ≡ Err (errors.Stale (record { created_at = created_at self.old place })) }
        ensures cause { IfErr result (λ error. (shown_in self.old place ≡ None)
            ⊎ ((error ≡ errors.OutOfMemory)
            × ((free self.old.state ≡ 0) ⊎ (too_many ≤ slots self.old.state)))) }
    {
        let (key, site) = self.find_added(place)?;
        if self.store.slots() >= LIMIT {
            return Err(PlaceError::OutOfMemory);
        }
        let raw = match self.store.new(key, Location::new("", 0, 0), None) {
            Ok(raw) => raw,
            Err(_) => return Err(PlaceError::OutOfMemory),
        };
        meet(&mut self.parts, key as usize);
        Ok(handle_at(raw.id, site))
    }

    /// Borrows the content of a place's part. Doesn't allocate, and is O(1).
    ///
    /// # Errors
    ///
    /// `Stale` if the place was removed, or belongs to another document.
    ///
    /// ```rust
    /// let content = *document.get(heading)?;
    /// ```
    pub fn get(&self, place: Place) -> Result<&T, Stale>
        ensures seen { IfOk result (λ content.
            content_shown (shown_in self.now place) ≡ Some content.now) }
        ensures gone { IsErr result ↔ shown_in self.now place ≡ None }
        ensures told { IfErr result (λ stale. stale.created_at ≡ created_at self.now place) }
    {
        match self.part(place) {
            Some(part) => Ok(&part.content),
            None => Err(self.stale(place)),
        }
    }

    /// Whether a place refers to a part: false if it was removed, or if it is of another document whose
    /// store has another number. Doesn't allocate, and is O(1).
    ///
    /// ```rust
    /// let is_there = document.is_alive(heading);
    /// ```
    #[inline(always)]
    pub fn is_alive(&self, place: Place) -> bool
        ensures { result ≡ is_some (shown_in self.now place) }
    {
        peek(&self.store, place).is_some()
    }

    /// Borrows the children of a place's part, in order. Doesn't allocate, and is O(1).
    ///
    /// # Errors
    ///
    /// `Stale` if the place was removed, or belongs to another document.
    ///
    /// ```rust
    /// for child in document.children(page)?.iter() {
    ///     println!(rt; "{}", document.get(*child)?)?;
    /// }
    /// ```
    pub fn children(&self, place: Place) -> Result<&[Place], Stale>
        ensures seen { IfOk result (λ children.
            children_shown (shown_in self.now place) ≡ Some children.now) }
        ensures gone { IsErr result ↔ shown_in self.now place ≡ None }
        ensures told { IfErr result (λ stale. stale.created_at ≡ created_at self.now place) }
    {
        match self.part(place) {
            Some(part) => Ok(part.children.as_slice()),
            None => Err(self.stale(place)),
        }
    }

    /// Replaces the content of a place's part, and drops the old one. The part keeps its children;
    /// places that refer to other parts are unchanged. Doesn't allocate, and is O(1) except for dropping
    /// the old content.
    ///
    /// # Errors
    ///
    /// `Stale` if the place was removed, or belongs to another document. The content comes back, and the
    /// document is unchanged.
    ///
    /// ```rust
    /// if let Err(refusal) = document.set(heading, 11) {
    ///     println!(rt; "{refusal}, and {} comes back", refusal.value)?;
    /// }
    /// ```
    pub fn set(&mut self, place: Place, content: T) -> Result<(), HandedBack<T, Stale>>
    where
        T: Drop,
        ensures shown { OnOk result ((q : Place) →
            part_in self.old q ≡ part_in self.old place →
            shown_in self.new q ≡ with_new_content content (shown_in self.old place)) }
        ensures others { (q : Place) → part_in self.old q ≢ part_in self.old place →
            Leaves self.old q self.new }
        ensures parts { (q : Place) → part_in self.new q ≡ part_in self.old q }
        ensures tells { (q : Place) → created_at self.new q ≡ created_at self.old q }
        ensures kept { (q : Place) → WasPlaced self.old q → WasPlaced self.new q }
        ensures gone { IsErr result ↔ shown_in self.old place ≡ None }
        ensures told { IfErr result (λ refusal. refusal.cause.created_at ≡ created_at self.old place) }
        ensures back { IfErr result (λ refusal. refusal.value ≡ content) }
        ensures refused { OnErr result (self.new ≡ self.old) }
    {
        let key = match self.key_of(place) {
            Ok(key) => key,
            Err(cause) => {
                return Err(HandedBack {
                    value: content,
                    cause,
                });
            }
        };
        change_part(
            &mut self.parts,
            key as usize,
            |part: &mut Part<T>| put_content(part, content),
        );
        Ok(())
    }

    /// Calls a closure once on the content of a place's part, mutably, and returns the closure's result.
    /// The part keeps its children; places that refer to other parts are unchanged. Doesn't allocate
    /// itself, and is O(1) except for the closure.
    ///
    /// # Errors
    ///
    /// `Stale` if the place was removed, or belongs to another document. The closure isn't called then,
    /// and the document is unchanged.
    ///
    /// ```rust
    /// document.update(
    ///     heading,
    ///     |content: &mut u64| *content = content.wrapping_add(1),
    /// )?;
    /// ```
    pub fn update<R, F: FnOnce(&mut T) -> R>(&mut self, place: Place, f: F) -> Result<R, Stale>
        requires { (content : MutBor T) →
            content_shown (shown_in self.old place) ≡ Some content.now → F.pre f content }
        ensures changed { IfOk result (λ answer. (old : T) × (changed : T) ×
            (content_shown (shown_in self.old place) ≡ Some old) ×
            FnOnceReturnsAtMut F.FnOnce f old answer changed ×
            ((q : Place) → part_in self.old q ≡ part_in self.old place →
            shown_in self.new q ≡ with_new_content changed (shown_in self.old place))) }
        ensures others { (q : Place) → part_in self.old q ≢ part_in self.old place →
            Leaves self.old q self.new }
        ensures parts { (q : Place) → part_in self.new q ≡ part_in self.old q }
        ensures tells { (q : Place) → created_at self.new q ≡ created_at self.old q }
        ensures kept { (q : Place) → WasPlaced self.old q → WasPlaced self.new q }
        ensures gone { IsErr result ↔ shown_in self.old place ≡ None }
        ensures told { IfErr result (λ stale. stale.created_at ≡ created_at self.old place) }
        ensures refused { OnErr result (self.new ≡ self.old) }
    {
        let key = self.key_of(place)?;
        Ok(change_part(
            &mut self.parts,
            key as usize,
            |part: &mut Part<T>| change_content(part, f),
        ))
    }

    /// Makes a place refer to another place's part, in every list of children that has it. Every other
    /// place is unchanged. The old part is dropped if no other place refers to it. Doesn't allocate, and is
    /// O(1) except for dropping the old part.
    ///
    /// # Errors
    ///
    /// `Stale` if the place was removed, or belongs to another document; then the same for the other
    /// place. The document is unchanged then.
    ///
    /// ```rust
    /// let other = document.add(20, here)?;
    /// document.exchange(heading, other)?;
    /// ```
    pub fn exchange(&mut self, place: Place, other: Place) -> Result<(), Stale>
    where
        T: Drop,
        ensures part { OnOk result ((q : Place) → IsSame place q →
            part_in self.new q ≡ part_in self.old other) }
        ensures shown { OnOk result ((q : Place) → IsSame place q →
            shown_in self.new q ≡ shown_in self.old other) }
        ensures others { (q : Place) → IsOther place q → Leaves self.old q self.new }
        ensures ends { OnOk result (IsOther place other → IsOnlyPlace self.old place →
            EndsPart self.old place self.new) }
        ensures tells { (q : Place) → created_at self.new q ≡ created_at self.old q }
        ensures kept { (q : Place) → WasPlaced self.old q → WasPlaced self.new q }
        ensures gone { IsErr result ↔
            (shown_in self.old place ≡ None) ⊎ (shown_in self.old other ≡ None) }
        ensures told { IfErr result (λ stale.
            stale.created_at ≡ created_at self.old (first_gone (shown_in self.old place) place other)) }
        ensures refused { OnErr result (self.new ≡ self.old) }
    {
        let old = self.key_of(place)?;
        let new = self.key_of(other)?;
        self.lead(place, old, new);
        Ok(())
    }

    /// Removes a place, and drops its part if no other place refers to it. Every other place is
    /// unchanged. Doesn't allocate, and is O(1) except for dropping the part.
    ///
    /// # Errors
    ///
    /// `Stale` if the place was removed, or belongs to another document. The document is unchanged then.
    ///
    /// ```rust
    /// document.remove(heading)?;
    /// ```
    pub fn remove(&mut self, place: Place) -> Result<(), Stale>
    where
        T: Drop,
        ensures parted { (q : Place) → IsSame place q → part_in self.new q ≡ None }
        ensures others { (q : Place) → IsOther place q → Leaves self.old q self.new }
        ensures ends { OnOk result (IsOnlyPlace self.old place →
            EndsPart self.old place self.new) }
        ensures tells { (q : Place) → created_at self.new q ≡ created_at self.old q }
        ensures kept { (q : Place) → WasPlaced self.old q → WasPlaced self.new q }
        ensures gone { IsErr result ↔ shown_in self.old place ≡ None }
        ensures told { IfErr result (λ stale. stale.created_at ≡ created_at self.old place) }
        ensures refused { OnErr result (self.new ≡ self.old) }
    {
        let key = self.key_of(place)?;
        match self.store.recycle(pointer_to(place)) {
            Ok(()) => {}
            Err(_) => unreachable!(),
        }
        leave(&mut self.parts, key as usize);
        Ok(())
    }

    // Makes a place refer to another part.
    fn lead(&mut self, place: Place, old: u32, new: u32)
    where
        T: Drop,
        requires old { part_in self.old place ≡ Some old }
        requires new { (other : Place) × (part_in self.old other ≡ Some new) }
        ensures part { (q : Place) → IsSame place q → part_in self.new q ≡ Some new }
        ensures shown { shown_of (part_at self.new.parts (Some new)) ≡ shown_of (part_at self.old.parts (Some new)) }
        ensures others { (q : Place) → IsOther place q → Leaves self.old q self.new }
        ensures ends { old ≢ new → IsOnlyPlace self.old place → EndsPart self.old place self.new }
        ensures tells { (q : Place) → created_at self.new q ≡ created_at self.old q }
        ensures kept { (q : Place) → WasPlaced self.old q → WasPlaced self.new q }
    {
        if old != new {
            self.store.replace_value(pointer_to(place), new);
            meet(&mut self.parts, new as usize);
            leave(&mut self.parts, old as usize);
        }
    }

    // The part of a place.
    #[inline(always)]
    pub(crate) fn part(&self, place: Place) -> Option<&Part<T>>
        ensures { option_copied result ≡ part_at self.now.parts (part_in self.now place) }
    {
        let key = peek(&self.store, place)?;
        self.parts.get(*key as usize)
    }

    // The key of a place's part.
    #[inline(always)]
    pub(crate) fn key_of(&self, place: Place) -> Result<u32, Stale>
        ensures key { IfOk result (λ key. part_in self.now place ≡ Some key) }
        ensures none { IsErr result → part_in self.now place ≡ None }
        ensures gone { IsErr result ↔ shown_in self.now place ≡ None }
        ensures told { IfErr result (λ stale. stale.created_at ≡ created_at self.now place) }
    {
        match peek(&self.store, place) {
            Some(key) => Ok(*key),
            None => Err(self.stale(place)),
        }
    }

    // The key of a place's part, and the site where that was added.
    pub(crate) fn find_added(&self, place: Place) -> Result<(u32, u32), Stale>
        ensures key { IfOk result (λ found. part_in self.now place ≡ Some found.0) }
        ensures site { IfOk result (λ found. added_in self.now place ≡ slice_get self.now.sites found.1) }
        ensures gone { IsErr result ↔ shown_in self.now place ≡ None }
        ensures told { IfErr result (λ stale. stale.created_at ≡ created_at self.now place) }
    {
        let key = self.key_of(place)?;
        match self.parts.get(key as usize) {
            Some(part) => Ok((key, part.site)),
            None => unreachable!(),
        }
    }

    /// Where the part was added that a place was made for, even after the place was removed; None for a
    /// place of another document. An exchange doesn't change it: it is about the first part that the
    /// place referred to. Doesn't allocate, and is O(1).
    ///
    /// ```rust
    /// if let Some(created_at) = document.created_at(heading) {
    ///     println!(rt; "added at {created_at}")?;
    /// }
    /// ```
    pub fn created_at(&self, place: Place) -> Option<Location>
        ensures { result ≡ created_at self.now place }
    {
        if number_of(place) != self.number() {
            return None;
        }
        self.sites.get(site_of(place))
    }

    // The error for a removed place, with the location where its part was added.
    #[cold]
    #[inline(never)]
    pub(crate) fn stale(&self, place: Place) -> Stale
        ensures { result.created_at ≡ created_at self.now place }
    {
        Stale {
            created_at: self.created_at(place),
        }
    }
}

// The error for a content that couldn't be stored because memory ran out.
fn lacking<T>(content: T) -> Refusal<T>
    ensures value { result.value ≡ content }
    ensures cause { result.cause ≡ OutOfMemory }
{
    Refusal {
        value: content,
        cause: StoreError::OutOfMemory,
    }
}

// Replaces a part's content.
fn put_content<T: Drop>(part: &mut Part<T>, content: T)
    ensures shown { shown_by part.new ≡ with_new_content content (shown_by part.old) }
    ensures places { part.new.places ≡ part.old.places }
    ensures site { part.new.site ≡ part.old.site }
{
    part.content = content;
}

// Calls a closure once on the content of a part, mutably.
fn change_content<T, R, F: FnOnce(&mut T) -> R>(part: &mut Part<T>, f: F) -> R
    requires { (content : MutBor T) → part.old.content ≡ content.now → F.pre f content }
    ensures changed { ChangesContent F.FnOnce f part.old result part.new }
    ensures places { part.new.places ≡ part.old.places }
    ensures site { part.new.site ≡ part.old.site }
{
    f(&mut part.content)
}
