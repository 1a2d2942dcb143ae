//! The links of a store's cells and of rows.

ghost use Rattle.std.specs.Prelude.{◌≡◌, ◌≢◌, ◌<◌, ◌+◌, ◌↔◌, [], IfErr, IfNone, IfOk, IfSome, IsTrue, None, Some, length, slice_get, take, ℕ};
ghost use Rattle.generational_core.specs.Seeing.{value_in};
ghost use Rattle.generational_errors.specs.declared.error.Location.{Location};
ghost use Rattle.generational_laws.specs.PlainStores.{IsSimple};
ghost use Rattle.handles.specs.Handles.{id_in, pointer_in, slot_in};
ghost use Rattle.handles.specs.Sites.{told_in};
ghost use Rattle.live_cells.specs.Cells.{IsCellFault};
ghost use Rattle.live_cells.specs.declared.cells.CellFault.TheVariants.{OutOfMemory};
ghost use Rattle.scene_tree.specs.Building.{AreLone, AreRowsOf};
ghost use Rattle.scene_tree.specs.Chains.{noted};
ghost use Rattle.scene_tree.specs.Families.{AreChildrenLinked, alone, families, family_at};
ghost use Rattle.scene_tree.specs.Keeping.{AreNodesNoted, IsTreeKept, IsLiveIn};
ghost use Rattle.scene_tree.specs.Nodes.{Node};
ghost use Rattle.scene_tree.specs.Parts.{AreChildRows, IsTreeFault};
ghost use Rattle.scene_tree.specs.declared.parts.PartsFault.TheVariants as faults;

use crate::links::{attach, open_slot};
use crate::node::Node;
use crate::packed::Links;
use crate::parts::{ChildRow, PartsFault};
use crate::spot::Spot;
use generational_core::parts::id_at;
use generational_core::{GenerationalBoxId, GenerationalPointer, Storage};
use handles::Sites;
use handles::parts::{handle_at, peek, slot_of};
use live_cells::{CellFault, plain_cells};
use std::alloc::Global;

/// The live node with an id.
pub(crate) fn find<T, S: Storage<T>>(
    store: &S,
    links: &Links<T>,
    id: GenerationalBoxId,
) -> Option<Node<T>>
    requires { AreNodesNoted (S.state store.now) links.now.items }
    ensures found { IfSome result (λ n. id_in n ≡ id) }
    ensures live { IfSome result (λ n. IsLiveIn (S.state store.now) n) }
    ensures none { IfNone result ((n : Node T) → id_in n ≡ id →
        value_in (S.state store.now) (pointer_in n) ≡ None) }
{
    if id.slot >= links.len() {
        return None;
    }
    let node = links.at(id.slot).node;
    if node.id() != id || peek(store, node).is_none() {
        return None;
    }
    Some(node)
}

/// The links of a store's values and of rows. Adds the locations where the cells were made.
pub(crate) fn built<T, S: Storage<T>>(
    alloc: Global,
    store: &S,
    sites: &mut Sites,
    rows: &[ChildRow],
) -> Result<Links<T>, PartsFault>
    ensures kept { IfOk result (λ links. IsTreeKept (S.state store.now) (families links.items)) }
    ensures linked { IfOk result (λ links. AreChildrenLinked links.items) }
    ensures noted { IfOk result (λ links. AreNodesNoted (S.state store.now) links.items) }
    ensures number { IfOk result (λ links. links.number ≡ (S.state store.now).number) }
    ensures rows { IfOk result (λ links. AreRowsOf (S.state store.now) (families links.items) rows.now) }
    ensures told { told_in sites.new ≡ told_in sites.old }
    ensures all { (site : ℕ) (l : Location) → slice_get sites.old.all site ≡ Some l →
        slice_get sites.new.all site ≡ Some l }
    ensures fault { IfErr result (IsTreeFault (S.state store.now) rows.now) }
    ensures short { IsSimple (S.state store.now) → AreChildRows (S.state store.now) rows.now →
        IfErr result (λ fault. fault ≡ faults.Cell OutOfMemory) }
{
    let mut links = match lone_links(alloc, store, sites) {
        Ok(links) => links,
        Err(fault) => return Err(PartsFault::Cell(fault)),
    };
    for row in 0..rows.len() {
        if let Some(fault) = link_row(&mut links, store, rows, row) {
            return Err(fault);
        }
    }
    Ok(links)
}

// Makes the node of a row a child, if it fits the rows before.
fn link_row<T, S: Storage<T>>(
    links: &mut Links<T>,
    store: &S,
    rows: &[ChildRow],
    at: usize,
) -> Option<PartsFault>
    requires within { at < length rows.now }
    requires kept { IsTreeKept (S.state store.now) (families links.old.items) }
    requires linked { AreChildrenLinked links.old.items }
    requires noted { AreNodesNoted (S.state store.now) links.old.items }
    requires number { links.old.number ≡ (S.state store.now).number }
    requires rows { AreRowsOf (S.state store.now) (families links.old.items) (take at rows.now) }
    ensures kept { IfNone result (IsTreeKept (S.state store.now) (families links.new.items)) }
    ensures linked { IfNone result (AreChildrenLinked links.new.items) }
    ensures noted { IfNone result (AreNodesNoted (S.state store.now) links.new.items) }
    ensures number { IfNone result (links.new.number ≡ (S.state store.now).number) }
    ensures rows { IfNone result
        (AreRowsOf (S.state store.now) (families links.new.items) (take (at + 1) rows.now)) }
    ensures fault { IfSome result (IsTreeFault (S.state store.now) rows.now) }
    ensures none { AreChildRows (S.state store.now) rows.now → result ≡ None }
{
    let row = rows[at];
    let Some(child) = find(store, links, row.child) else {
        return Some(PartsFault::Stale(at));
    };
    let Some(parent) = find(store, links, row.parent) else {
        return Some(PartsFault::Stale(at));
    };
    if row.parent == row.child || !is_lone(links, slot_of(child)) {
        return Some(PartsFault::Order(at));
    }
    attach(links, parent, Spot::LastOf(parent), child);
    None
}

// Whether a slot's node has neither a parent nor children.
fn is_lone<T>(links: &Links<T>, slot: usize) -> bool
    requires linked { AreChildrenLinked links.now.items }
    requires within { slot < length links.now.items }
    ensures { IsTrue result ↔ family_at (families links.now.items) slot ≡ alone }
{
    let link = links.at(slot);
    link.parent.is_none() && link.first.is_none()
}

// The links of a store's live cells, all of which are roots. Adds the locations where they were made.
fn lone_links<T, S: Storage<T>>(
    alloc: Global,
    store: &S,
    sites: &mut Sites,
) -> Result<Links<T>, CellFault>
    ensures lone { IfOk result (λ links. AreLone links.items) }
    ensures kept { IfOk result (λ links. IsTreeKept (S.state store.now) (families links.items)) }
    ensures noted { IfOk result (λ links. AreNodesNoted (S.state store.now) links.items) }
    ensures number { IfOk result (λ links. links.number ≡ (S.state store.now).number) }
    ensures told { told_in sites.new ≡ told_in sites.old }
    ensures all { (site : ℕ) (l : Location) → slice_get sites.old.all site ≡ Some l →
        slice_get sites.new.all site ≡ Some l }
    ensures fault { IfErr result (IsCellFault (S.state store.now)) }
    ensures short { IsSimple (S.state store.now) → IfErr result (λ fault. fault ≡ OutOfMemory) }
{
    let cells = plain_cells(alloc, store)?;
    let mut links = Links::new(alloc, store.number());
    if !open_all(&mut links, store.slots()) {
        return Err(CellFault::OutOfMemory);
    }
    for at in 0..cells.len() {
        if !note_cell(&mut links, sites, cells[at]) {
            return Err(CellFault::OutOfMemory);
        }
    }
    Ok(links)
}

// Opens the first slots, each with a node that is alone. False if memory runs out.
fn open_all<T>(links: &mut Links<T>, slots: usize) -> bool
    requires { links.old.items ≡ [] }
    ensures number { links.new.number ≡ links.old.number }
    ensures lone { AreLone links.new.items }
    ensures count { IsTrue result → length links.new.items ≡ slots }
{
    let number = links.number();
    for slot in 0..slots {
        if !links.reserve() {
            return false;
        }
        open_slot(links, handle_at(id_at(number, slot, 0), 0));
    }
    true
}

// Records a cell at its slot, with the site where it was made. False if memory runs out.
fn note_cell<T>(links: &mut Links<T>, sites: &mut Sites, cell: GenerationalPointer) -> bool
    requires within { cell.id.slot < length links.old.items }
    requires number { cell.id.store ≡ links.old.number }
    requires lone { AreLone links.old.items }
    ensures number { links.new.number ≡ links.old.number }
    ensures lone { AreLone links.new.items }
    ensures count { length links.new.items ≡ length links.old.items }
    ensures noted { IsTrue result → (h : Node T) × (noted links.new.items cell.id.slot ≡ Some h)
        × (id_in h ≡ cell.id) }
    ensures others { (s : ℕ) → s ≢ cell.id.slot → noted links.new.items s ≡ noted links.old.items s }
    ensures told { told_in sites.new ≡ told_in sites.old }
    ensures all { (site : ℕ) (l : Location) → slice_get sites.old.all site ≡ Some l →
        slice_get sites.new.all site ≡ Some l }
{
    let Ok(site) = sites.find_or_add(cell.created_at) else {
        return false;
    };
    if cell.id.slot >= links.len() {
        unreachable!()
    }
    links.set_node(handle_at(cell.id, site));
    true
}
