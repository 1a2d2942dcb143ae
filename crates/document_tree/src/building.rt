//! The places of a store and a list of parts, as a document has them.

ghost use Rattle.std.specs.Prelude.{◌≡◌, ◌⊎◌, ◌≤◌, ◌<◌, ◌+◌, ℕ, [], IfErr, IfNone, IfOk, IfSome, IsFalse, IsTrue, OnOk, Some, None};
ghost use Rattle.std.specs.Prelude.{false, is_some, length, slice_get, slice_index_or, slice_set, true, vec_capacity};
ghost use Rattle.generational_core.specs.Names.{Name};
ghost use Rattle.generational_core.specs.Seeing.{value_in};
ghost use Rattle.generational_core.specs.Slots.{slots};
ghost use Rattle.generational_core.specs.State.{IsGiven};
ghost use Rattle.generational_core.specs.declared.boxes.GenerationalBoxId.{GenerationalBoxId};
ghost use Rattle.generational_errors.specs.declared.error.Location.{Location};
ghost use Rattle.generational_laws.specs.PlainStores.{IsSimple};
ghost use Rattle.handles.specs.Sites.{told_in};
ghost use Rattle.live_cells.specs.declared.cells.CellFault.TheVariants.{OutOfMemory};
ghost use Rattle.location_list.specs.Locations.{IsAt};
ghost use Rattle.slab.specs.Slab.{HasRoomFor, slab_len};
ghost use Rattle.document_tree.specs.Building.{HaveOwnPlaces, AreSpotsCounted, HaveParts, ArePlacesNoted, ArePut, AreSited, AreSpots, AreUsed, IsPartPut};
ghost use Rattle.document_tree.specs.Keeping.{key_in};
ghost use Rattle.document_tree.specs.Parts.{too_many};
ghost use Rattle.document_tree.specs.Taking.{AreParts, IsPartsFault};
ghost use Rattle.document_tree.specs.declared.building.Spot.{Spot};
ghost use Rattle.document_tree.specs.declared.parts.DocumentPart.{DocumentPart};
ghost use Rattle.document_tree.specs.declared.parts.PartsFault.TheVariants as faults;

use crate::document::LIMIT;
use crate::part::Part;
use crate::parts::{DocumentPart, PartsFault};
use generational_core::{GenerationalPointer, Storage};
use handles::Sites;
use live_cells::{CellFault, plain_cells};
use slab::Slab;
use std::alloc::Global;
use std::mem;

/// A place, and the index of its part.
#[derive(Clone, Copy)]
pub(crate) struct Spot {
    pub(crate) place: GenerationalPointer,
    pub(crate) part: u32,
}

/// What a document is made of, beside its store and parts: the places; for each index the number of its
/// places and its site; and capacity for the parts and their keys.
#[derive(Drop)]
pub(crate) struct Plan<T> {
    pub(crate) spots: Vec<Spot>,
    pub(crate) counts: Vec<u32>,
    pub(crate) sites: Vec<u32>,
    pub(crate) parts: Slab<Part<T>>,
    pub(crate) keys: Vec<u32>,
}

const LACKING: PartsFault = PartsFault::Cell(CellFault::OutOfMemory);

/// The plan of a store's places and of parts. Adds the locations where the parts were added.
pub(crate) fn planned<T: Drop, S: Storage<u32>>(
    alloc: Global,
    store: &S,
    sites: &mut Sites,
    rows: &[Option<DocumentPart<T>>],
) -> Result<Plan<T>, PartsFault>
    ensures simple { OnOk result (IsSimple (S.state store.now)) }
    ensures small { OnOk result (slots (S.state store.now) ≤ too_many) }
    ensures spots { IfOk result (λ plan. AreSpots (S.state store.now) plan.spots.items) }
    ensures listed { IfOk result (λ plan. HaveParts rows.now plan.spots.items) }
    ensures counted { IfOk result (λ plan. AreSpotsCounted plan.spots.items (length plan.spots.items) plan.counts.items) }
    ensures counts { IfOk result (λ plan. length plan.counts.items ≡ length rows.now) }
    ensures used { IfOk result (λ plan. AreUsed rows.now plan.counts.items (length rows.now)) }
    ensures sited { IfOk result (λ plan. AreSited sites.new.all rows.now plan.sites.items (length rows.now)) }
    ensures sites { IfOk result (λ plan. length plan.sites.items ≡ length rows.now) }
    ensures empty { IfOk result (λ plan. plan.parts.slots ≡ []) }
    ensures parts { IfOk result (λ plan. length rows.now ≤ plan.parts.capacity) }
    ensures bound { IfOk result (λ plan. plan.parts.capacity ≤ too_many) }
    ensures none { IfOk result (λ plan. plan.keys.items ≡ []) }
    ensures keys { IfOk result (λ plan. length rows.now ≤ vec_capacity plan.keys) }
    ensures told { told_in sites.new ≡ told_in sites.old }
    ensures all { (site : ℕ) (l : Location) → slice_get sites.old.all site ≡ Some l →
        slice_get sites.new.all site ≡ Some l }
    ensures fits { OnOk result (AreParts (S.state store.now) rows.now) }
    ensures fault { IfErr result (IsPartsFault (S.state store.now) rows.now) }
    ensures short { IsSimple (S.state store.now) → AreParts (S.state store.now) rows.now →
        IfErr result (λ fault. fault ≡ faults.Cell OutOfMemory) }
{
    let spots = spots_of(alloc, store, rows)?;
    let Some(counts) = counts_of(alloc, spots.as_slice(), rows.len()) else {
        return Err(LACKING);
    };
    let noted = sites_of(alloc, sites, rows, counts.as_slice())?;
    let Ok(parts) = Slab::with_capacity(alloc, rows.len()) else {
        return Err(LACKING);
    };
    let Ok(keys) = Vec::with_capacity(alloc, rows.len()) else {
        return Err(LACKING);
    };
    if parts.capacity() > LIMIT {
        return Err(LACKING);
    }
    Ok(Plan {
        spots,
        counts,
        sites: noted,
        parts,
        keys,
    })
}

// The places of a store, each once, with the index of a part.
fn spots_of<T, S: Storage<u32>>(
    alloc: Global,
    store: &S,
    rows: &[Option<DocumentPart<T>>],
) -> Result<Vec<Spot>, PartsFault>
    ensures simple { OnOk result (IsSimple (S.state store.now)) }
    ensures small { OnOk result (slots (S.state store.now) ≤ too_many) }
    ensures spots { IfOk result (λ spots. AreSpots (S.state store.now) spots.items) }
    ensures listed { IfOk result (λ spots. HaveParts rows.now spots.items) }
    ensures fault { IfErr result (IsPartsFault (S.state store.now) rows.now) }
    ensures short { IsSimple (S.state store.now) → AreParts (S.state store.now) rows.now →
        IfErr result (λ fault. fault ≡ faults.Cell OutOfMemory) }
{
    let cells = match plain_cells(alloc, store) {
        Ok(cells) => cells,
        Err(fault) => return Err(PartsFault::Cell(fault)),
    };
    let count = store.slots();
    let Some(mut seen) = unseen(alloc, count) else {
        return Err(LACKING);
    };
    let mut spots = Vec::new(alloc);
    for at in 0..cells.len() {
        if let Some(fault) = note(&mut spots, &mut seen, store, rows, cells[at]) {
            return Err(fault);
        }
    }
    Ok(spots)
}

// A list of so many flags, none of which is set. None if memory runs out, or if they are too many.
fn unseen(alloc: Global, count: usize) -> Option<Vec<bool>>
    ensures length { IfSome result (λ seen. length seen.items ≡ count) }
    ensures none { IfSome result (λ seen. (k : ℕ) → slice_index_or seen.items k false ≡ false) }
    ensures small { IfSome result (λ seen. count ≤ too_many) }
{
    if count > LIMIT {
        return None;
    }
    let mut seen = Vec::new(alloc);
    seen.resize(count, false).ok()?;
    Some(seen)
}

// Adds a place with the index of its part, unless it was added before.
fn note<T, S: Storage<u32>>(
    spots: &mut Vec<Spot>,
    seen: &mut Vec<bool>,
    store: &S,
    rows: &[Option<DocumentPart<T>>],
    cell: GenerationalPointer,
) -> Option<PartsFault>
    requires within { cell.id.slot < length seen.old.items }
    requires live { is_some (value_in (S.state store.now) cell) ≡ true }
    requires noted { ArePlacesNoted (S.state store.now) spots.old.items seen.old.items }
    requires listed { HaveParts rows.now spots.old.items }
    ensures noted { IfNone result (ArePlacesNoted (S.state store.now) spots.new.items seen.new.items) }
    ensures listed { IfNone result (HaveParts rows.now spots.new.items) }
    ensures here { IfNone result (slice_index_or seen.new.items cell.id.slot false ≡ true) }
    ensures kept { IfNone result ((slot : ℕ) → slice_index_or seen.old.items slot false ≡ true →
        slice_index_or seen.new.items slot false ≡ true) }
    ensures length { length seen.new.items ≡ length seen.old.items }
    ensures fault { IfSome result (IsPartsFault (S.state store.now) rows.now) }
    ensures short { AreParts (S.state store.now) rows.now →
        IfSome result (λ fault. fault ≡ faults.Cell OutOfMemory) }
{
    let slot = cell.id.slot;
    if seen[slot] {
        return None;
    }
    let Some(part) = store.peek(cell) else {
        unreachable!()
    };
    let part = *part;
    if !has_part(rows, part as usize) {
        return Some(PartsFault::NoPart(slot));
    }
    if spots.push(Spot { place: cell, part }).is_err() {
        return Some(LACKING);
    }
    seen[slot] = true;
    None
}

// Whether there is a part with an index.
fn has_part<T>(rows: &[Option<DocumentPart<T>>], index: usize) -> bool
    ensures { result ≡ is_some (slice_index_or rows.now index None) }
{
    match rows.get(index) {
        Some(row) => row.is_some(),
        None => false,
    }
}

// How many places refer to each part. None if memory runs out, or if they are too many.
fn counts_of(alloc: Global, spots: &[Spot], count: usize) -> Option<Vec<u32>>
    requires within { (k : ℕ) (m : Spot) → slice_get spots.now k ≡ Some m → m.part < count }
    requires apart { HaveOwnPlaces spots.now }
    ensures counted { IfSome result (λ counts. AreSpotsCounted spots.now (length spots.now) counts.items) }
    ensures length { IfSome result (λ counts. length counts.items ≡ count) }
{
    let mut counts = Vec::new(alloc);
    counts.resize(count, 0u32).ok()?;
    for at in 0..spots.len() {
        if !count_up(&mut counts, spots[at].part as usize) {
            return None;
        }
    }
    Some(counts)
}

// Adds one to a count. False if it can't be higher.
fn count_up(counts: &mut Vec<u32>, part: usize) -> bool
    requires { part < length counts.old.items }
    ensures counted { IsTrue result → counts.new.items
        ≡ slice_set counts.old.items part (slice_index_or counts.old.items part 0 + 1) }
{
    let count = counts[part];
    if count == u32::MAX {
        return false;
    }
    counts[part] = count + 1;
    true
}

// The site of each part, each of which has a place.
fn sites_of<T>(
    alloc: Global,
    sites: &mut Sites,
    rows: &[Option<DocumentPart<T>>],
    counts: &[u32],
) -> Result<Vec<u32>, PartsFault>
    requires { length counts.now ≡ length rows.now }
    ensures used { OnOk result (AreUsed rows.now counts.now (length rows.now)) }
    ensures sited { IfOk result (λ noted. AreSited sites.new.all rows.now noted.items (length rows.now)) }
    ensures length { IfOk result (λ noted. length noted.items ≡ length rows.now) }
    ensures told { told_in sites.new ≡ told_in sites.old }
    ensures all { (site : ℕ) (l : Location) → slice_get sites.old.all site ≡ Some l →
        slice_get sites.new.all site ≡ Some l }
    ensures fault { IfErr result (λ fault. (fault ≡ faults.Cell OutOfMemory)
        ⊎ ((index : ℕ) × (r : DocumentPart T) × (fault ≡ faults.Unused index)
        × (slice_index_or rows.now index None ≡ Some r) × (slice_index_or counts.now index 0 ≡ 0))) }
{
    let Ok(mut noted) = Vec::with_capacity(alloc, rows.len()) else {
        return Err(LACKING);
    };
    for index in 0..rows.len() {
        if is_unused(&rows[index], counts[index]) {
            return Err(PartsFault::Unused(index));
        }
        let Some(site) = site_of(sites, &rows[index]) else {
            return Err(LACKING);
        };
        noted.push_reserved(site);
    }
    Ok(noted)
}

// Whether a part has no place.
fn is_unused<T>(row: &Option<DocumentPart<T>>, count: u32) -> bool
    ensures unused { IsTrue result → (r : DocumentPart T) × (row.now ≡ Some r) × (count ≡ 0) }
    ensures used { IsFalse result → (r : DocumentPart T) → row.now ≡ Some r → 0 < count }
{
    match row {
        Some(_) => count == 0,
        None => false,
    }
}

// The site of the location where a part was added. None if memory runs out.
fn site_of<T>(sites: &mut Sites, row: &Option<DocumentPart<T>>) -> Option<u32>
    ensures site { IfSome result (λ site. (r : DocumentPart T) → row.now ≡ Some r →
        IsAt sites.new.all site r.created_at) }
    ensures told { told_in sites.new ≡ told_in sites.old }
    ensures all { (site : ℕ) (l : Location) → slice_get sites.old.all site ≡ Some l →
        slice_get sites.new.all site ≡ Some l }
{
    match row {
        Some(part) => sites.find_or_add(part.created_at).ok(),
        None => Some(0),
    }
}

/// Moves parts to keys of their own, and lists the keys by the parts' indexes.
pub(crate) fn fill<T: Drop>(
    parts: &mut Slab<Part<T>>,
    keys: &mut Vec<u32>,
    rows: Vec<Option<DocumentPart<T>>>,
    counts: &[u32],
    sites: &[u32],
)
    requires empty { parts.old.slots ≡ [] }
    requires parts { length rows.items ≤ parts.old.capacity }
    requires bound { parts.old.capacity ≤ too_many }
    requires none { keys.old.items ≡ [] }
    requires keys { length rows.items ≤ vec_capacity keys.old }
    requires counts { length counts.now ≡ length rows.items }
    requires sites { length sites.now ≡ length rows.items }
    ensures put { ArePut rows.items counts.now sites.now keys.new.items parts.new.slots (length rows.items) }
    ensures keys { length keys.new.items ≡ length rows.items }
{
    let mut rows = rows;
    for index in 0..rows.len() {
        let row = mem::replace(&mut rows[index], None);
        keys.push_reserved(put(parts, row, counts[index], sites[index]));
    }
}

// Moves a part to a key of its own.
fn put<T>(parts: &mut Slab<Part<T>>, row: Option<DocumentPart<T>>, places: u32, site: u32) -> u32
    requires room { HasRoomFor parts.old 1 }
    requires bound { parts.old.capacity ≤ too_many }
    ensures capacity { parts.new.capacity ≡ parts.old.capacity }
    ensures len { slab_len parts.new ≤ slab_len parts.old + 1 }
    ensures put { IsPartPut parts.old.slots row places site result parts.new.slots }
{
    match row {
        Some(
            DocumentPart {
                content,
                children,
                ..
            },
        ) => {
            let part = Part {
                content,
                children,
                places,
                site,
            };
            parts.insert_reserved(part) as u32
        }
        None => 0,
    }
}

/// Makes each place refer to the key of its part.
pub(crate) fn lead_all<S: Storage<u32>>(store: &mut S, spots: &[Spot], keys: &[u32])
    requires simple { IsSimple (S.state store.old) }
    requires spots { AreSpots (S.state store.old) spots.now }
    requires within { (k : ℕ) (m : Spot) → slice_get spots.now k ≡ Some m → m.part < length keys.now }
    ensures simple { IsSimple (S.state store.new) }
    ensures number { (S.state store.new).number ≡ (S.state store.old).number }
    ensures given { (n : Name) → IsGiven (S.state store.old) n → IsGiven (S.state store.new) n }
    ensures led { (k : ℕ) (m : Spot) → slice_get spots.now k ≡ Some m →
        key_in (S.state store.new) m.place.id ≡ Some (slice_index_or keys.now m.part 0) }
    ensures none { (id : GenerationalBoxId) → key_in (S.state store.old) id ≡ None →
        key_in (S.state store.new) id ≡ None }
{
    for at in 0..spots.len() {
        let Spot { place, part } = spots[at];
        let _old = store.replace_value(place, keys[part as usize]);
    }
}
