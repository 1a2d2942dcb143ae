//! The parts of tables: taking tables apart, and making them of a store with values or of rows.

ghost use Rattle.std.specs.Prelude.{◌≡◌, ◌≢◌, ◌<◌, ℕ, None, Some, IfErr, IfNone, IfOk, IfSome, IsTrue, OnOk};
ghost use Rattle.std.specs.Prelude.{is_some, length, map as list_map, slice_get, true};
ghost use Rattle.std.specs.List.Sorted.{IsStrictlyIncreasing};
ghost use Rattle.generational_core.specs.Keeping.{box_with};
ghost use Rattle.generational_core.specs.declared.boxes.GenerationalPointer.{GenerationalPointer};
ghost use Rattle.generational_errors.specs.declared.error.Location.{Location};
ghost use Rattle.handles.specs.declared.map.Row.TheVariants.{Held};
ghost use Rattle.handles.specs.Handles.{id_in, slot_in};
ghost use Rattle.handles.specs.Maps.{row_at, value_of};
ghost use Rattle.handles.specs.Sites.{TellsLocation, told_at, told_in};
ghost use Rattle.generational_core.specs.declared.boxes.GenerationalBoxId.{GenerationalBoxId};
ghost use Rattle.generational_laws.specs.PlainStores.{IsSimple};
ghost use Rattle.live_cells.specs.Cells.{IsCellFault};
ghost use Rattle.live_cells.specs.declared.cells.CellFault.TheVariants as cell;
ghost use Rattle.location_list.specs.Locations.{IsAt};
ghost use Rattle.entity_table.specs.declared.entity.EntityKind.{EntityKind};
ghost use Rattle.entity_table.specs.Components.{component_in};
ghost use Rattle.entity_table.specs.Keeping.{IsTableKept};
ghost use Rattle.entity_table.specs.Parts.{AreRows, AreEntitiesSited, IsRowFault, component_told};
ghost use Rattle.entity_table.specs.Tables.{Entity, created_at, element_in};
ghost use Rattle.entity_table.specs.declared.parts.RowFault.TheVariants as row;

use crate::components::ComponentTable;
use crate::entity::{Entity, EntityKind};
use crate::table::EntityTable;
use generational_core::{GenerationalBoxId, GenerationalPointer, HandedBack, Storage};
use handles::Sites;
use handles::parts::{HandleMap, handle_at};
use live_cells::{CellFault, plain_cells};
use std::alloc::Global;
use std::error::Error;
use std::fmt;

/// The parts of a table of entities.
#[derive(Drop)]
pub struct EntityParts<S> {
    /// The store, which has the elements of the live entities.
    pub store: S,
    /// The locations that the table's handles refer to. `Sites::new` has none: it is for a store that
    /// doesn't come from a table.
    pub sites: Sites,
}

/// Why rows don't make a table of components.
#[derive(Clone, Copy, Debug, PartialEq, Eq)]
pub enum RowFault {
    /// This row's id isn't that of a live entity of the table.
    Stale(usize),
    /// This row's slot isn't above the slot of the row before.
    Order(usize),
    /// Out of memory.
    OutOfMemory,
}

/// Prints the fault and its row.
impl fmt::Display for RowFault {
    fn fmt<W: fmt::Write>(&self, f: &mut fmt::Formatter<W>) -> fmt::Result {
        match self {
            RowFault::Stale(row) => write!(f, "row {row} is of no live entity"),
            RowFault::Order(row) => write!(f, "row {row} isn't above the row before"),
            RowFault::OutOfMemory => f.write_str("out of memory"),
        }
    }
}

impl Error for RowFault {}

impl<T, S: Storage<T>> EntityTable<T, S> {
    /// Borrows the table's store, for example to make an image of it, which is all that a file needs.
    /// Doesn't allocate.
    ///
    /// ```rust
    /// let image = table.store().image()?;
    /// ```
    pub fn store(&self) -> &S
        ensures { S.state result.now ≡ self.now.state }
    {
        &self.store
    }

    /// Takes the table apart: its store has the elements. Never fails. Doesn't allocate, and is O(n) for
    /// n slots.
    ///
    /// ```rust
    /// let store = table.into_parts().store;
    /// ```
    pub fn into_parts(self) -> EntityParts<S>
        ensures state { S.state result.store ≡ self.state }
        ensures simple { IsSimple self.state }
        ensures sites { told_in result.sites ≡ self.sites }
    {
        let EntityTable { store, sites, .. } = self;
        EntityParts { store, sites }
    }

    /// Creates the table of a store's entities: each live value is the element of an entity with its id,
    /// made where its cell was made. Any store may be passed in. Earlier handles, of a table whose store
    /// was in the same state, have the same elements as before. O(n) for n slots. Allocates two
    /// temporary lists of the slots, of some 50 bytes each, and a row for each slot.
    ///
    /// # Errors
    ///
    /// The parts come back unchanged, with the first slot that has a shared value or a reference, or
    /// whose value is borrowed; or with `OutOfMemory`.
    ///
    /// ```rust
    /// let sites = Sites::new(rt.alloc());
    /// let table = EntityTable::from_parts(rt.alloc(), EntityParts { store, sites }).ok()?;
    /// ```
    pub fn from_parts(
        alloc: Global,
        parts: EntityParts<S>,
    ) -> Result<Self, HandedBack<EntityParts<S>, CellFault>>
        ensures state { IfOk result (λ table. table.state ≡ S.state parts.store) }
        ensures tells { IfOk result (λ table. (e : Entity T) (l : Location) →
            told_at (S.state parts.store).number (told_in parts.sites) e ≡ Some l → created_at table e ≡ Some l) }
        ensures here { IfOk result (λ table. (row : ℕ) (e : Entity T) (b : GenerationalPointer) →
            slice_get table.rows row ≡ Some e → box_with table.state (id_in e) ≡ Some b →
            TellsLocation (created_at table e) b.created_at) }
        ensures store { IfErr result (λ refusal. refusal.value.store ≡ parts.store) }
        ensures sites { IfErr result (λ refusal. told_in refusal.value.sites ≡ told_in parts.sites) }
        ensures fault { IfErr result (λ refusal. IsCellFault (S.state parts.store) refusal.cause) }
        ensures short { IsSimple (S.state parts.store) → IfErr result (λ refusal. refusal.cause ≡ cell.OutOfMemory) }
    {
        let EntityParts { store, mut sites } = parts;
        match live_rows(alloc, &store, &mut sites) {
            Ok(rows) => {
                sites.tell_all();
                Ok(EntityTable { store, rows, sites })
            }
            Err(cause) => Err(HandedBack {
                value: EntityParts { store, sites },
                cause,
            }),
        }
    }

    /// The handle of the live entity with an id, with the location where the entity was made. None if
    /// the entity was removed, or belongs to another table. Doesn't allocate, and is O(1).
    ///
    /// ```rust
    /// let entity = table.find(id)?;
    /// ```
    pub fn find(&self, id: GenerationalBoxId) -> Option<Entity<T>>
        ensures found { IfSome result (λ e. id_in e ≡ id) }
        ensures own { IfSome result (λ e. e.store ≡ self.now.state.number) }
        ensures live { IfSome result (λ e. is_some (element_in self.now e) ≡ true) }
        ensures listed { IfSome result (λ e. (row : ℕ) × (slice_get self.now.rows row ≡ Some e)) }
        ensures none { IfNone result ((e : Entity T) → id_in e ≡ id → element_in self.now e ≡ None) }
    {
        let entity = self.rows.at(id.slot)?;
        if entity.id() != id {
            return None;
        }
        Some(entity)
    }
}

// The rows of a store's live entities, each with the site where its cell was made. Adds no site.
fn live_rows<T, S: Storage<T>>(
    alloc: Global,
    store: &S,
    sites: &mut Sites,
) -> Result<HandleMap<T, EntityKind, ()>, CellFault>
    ensures kept { IfOk result (λ rows. IsTableKept {T = T} (S.state store.now) rows) }
    ensures sited { IfOk result (λ rows. AreEntitiesSited (S.state store.now) sites.new.all rows) }
    ensures told { told_in sites.new ≡ told_in sites.old }
    ensures all { (site : ℕ) (l : Location) → slice_get sites.old.all site ≡ Some l →
        slice_get sites.new.all site ≡ Some l }
    ensures fault { IfErr result (IsCellFault (S.state store.now)) }
    ensures short { IsSimple (S.state store.now) → IfErr result (λ fault. fault ≡ cell.OutOfMemory) }
{
    let cells = plain_cells(alloc, store)?;
    let mut rows = HandleMap::new(alloc, store.number());
    for at in 0..cells.len() {
        if !put_cell(&mut rows, sites, cells[at]) {
            return Err(CellFault::OutOfMemory);
        }
    }
    Ok(rows)
}

// Makes a cell's row, with the site where the cell was made. False if memory runs out.
fn put_cell<T>(
    rows: &mut HandleMap<T, EntityKind, ()>,
    sites: &mut Sites,
    cell: GenerationalPointer,
) -> bool
    ensures number { rows.new.number ≡ rows.old.number }
    ensures put { IsTrue result → (site : ℕ)
        × (row_at rows.new.rows cell.id.slot ≡ Held site cell.id.generation tt)
        × IsAt sites.new.all site cell.created_at }
    ensures others { (slot : ℕ) → slot ≢ cell.id.slot → row_at rows.new.rows slot ≡ row_at rows.old.rows slot }
    ensures told { told_in sites.new ≡ told_in sites.old }
    ensures all { (site : ℕ) (l : Location) → slice_get sites.old.all site ≡ Some l →
        slice_get sites.new.all site ≡ Some l }
{
    if !rows.reserve(cell.id.slot) {
        return false;
    }
    let Ok(site) = sites.find_or_add(cell.created_at) else {
        return false;
    };
    rows.put(handle_at(cell.id, site), ());
    true
}

impl<T, C: Drop> ComponentTable<T, C> {
    /// Removes all components and returns them, each with its entity's id, in the order of the entities'
    /// slots. Those of removed entities are among them: call `sweep` first to drop these. Allocates a
    /// list for them, and is O(n) for n slots.
    ///
    /// # Errors
    ///
    /// The table comes back unchanged if memory runs out.
    ///
    /// ```rust
    /// names.sweep(table);
    /// let rows = names.into_parts(rt.alloc()).ok()?;
    /// ```
    pub fn into_parts(self, alloc: Global) -> Result<Vec<(GenerationalBoxId, C)>, Self>
        ensures shown { IfOk result (λ rows. (e : Entity T) →
            component_told rows.items e ≡ component_in self e) }
        ensures each { IfOk result (λ rows. (row : ℕ) (r : GenerationalBoxId × C) →
            slice_get rows.items row ≡ Some r →
            (e : Entity T) × (id_in e ≡ r.0) × (component_in self e ≡ Some r.1)) }
        ensures ordered { IfOk result (λ rows.
            IsStrictlyIncreasing (list_map (λ r. r.0.slot) rows.items)) }
        ensures back { IfErr result (λ table. table ≡ self) }
    {
        match self.map.into_values(alloc) {
            Ok(rows) => Ok(rows),
            Err(map) => Err(ComponentTable { map }),
        }
    }

    /// Creates the table of the components that rows list, each with the id of its entity in a table.
    /// Any rows may be passed in. O(n) for n slots of that table. Allocates a row for each slot of the
    /// table, before it moves a component.
    ///
    /// # Errors
    ///
    /// The rows come back unchanged, with the first row that isn't of a live entity of the table, or
    /// whose slot isn't above that of the row before; or with `OutOfMemory`.
    ///
    /// ```rust
    /// let names = ComponentTable::from_parts(rt.alloc(), table, rows).ok()?;
    /// ```
    pub fn from_parts<E: Storage<T>>(
        alloc: Global,
        table: &EntityTable<T, E>,
        rows: Vec<(GenerationalBoxId, C)>,
    ) -> Result<Self, HandedBack<Vec<(GenerationalBoxId, C)>, RowFault>>
        ensures number { IfOk result (λ names. names.number ≡ table.now.state.number) }
        ensures shown { IfOk result (λ names. (e : Entity T) →
            component_in names e ≡ component_told rows.items e) }
        ensures fits { OnOk result (AreRows table.now rows.items) }
        ensures back { IfErr result (λ refusal. refusal.value ≡ rows) }
        ensures fault { IfErr result (λ refusal. IsRowFault table.now rows.items refusal.cause) }
        ensures short { AreRows table.now rows.items → IfErr result (λ refusal. refusal.cause ≡ row.OutOfMemory) }
    {
        if let Some(cause) = fault_in(table, rows.as_slice()) {
            return Err(HandedBack { value: rows, cause });
        }
        let mut map = HandleMap::new(alloc, table.number());
        if !map.reserve(table.slots()) {
            let cause = RowFault::OutOfMemory;
            return Err(HandedBack { value: rows, cause });
        }
        fill(&mut map, table, rows);
        Ok(ComponentTable { map })
    }
}

// The first fault of rows of components.
fn fault_in<T, C, E: Storage<T>>(
    table: &EntityTable<T, E>,
    rows: &[(GenerationalBoxId, C)],
) -> Option<RowFault>
    ensures fits { IfNone result (AreRows table.now rows.now) }
    ensures fault { IfSome result (IsRowFault table.now rows.now) }
    ensures none { AreRows table.now rows.now → result ≡ None }
{
    for row in 0..rows.len() {
        let id = rows[row].0;
        if table.find(id).is_none() {
            return Some(RowFault::Stale(row));
        }
        if row > 0 && id.slot <= rows[row - 1].0.slot {
            return Some(RowFault::Order(row));
        }
    }
    None
}

// Puts the components of rows into a map, which has a row for each slot.
fn fill<T, C: Drop, E: Storage<T>>(
    map: &mut HandleMap<T, EntityKind, C>,
    table: &EntityTable<T, E>,
    rows: Vec<(GenerationalBoxId, C)>,
)
    requires number { map.old.number ≡ table.now.state.number }
    requires none { (e : Entity T) → value_of map.old e ≡ None }
    requires room { (e : Entity T) → is_some (element_in table.now e) ≡ true → slot_in e < length map.old.rows }
    requires fits { AreRows table.now rows.items }
    ensures number { map.new.number ≡ map.old.number }
    ensures shown { (e : Entity T) → value_of map.new e ≡ component_told rows.items e }
{
    let mut rows = rows;
    while let Some((id, component)) = rows.pop() {
        match table.find(id) {
            Some(entity) => map.put(entity, component),
            None => unreachable!(),
        }
    }
}
