//! The parts of trees: taking trees apart, and making them of a store with values and of rows.

ghost use Rattle.std.specs.Prelude.{◌≡◌, IfErr, IfNone, IfOk, IfSome, OnOk, Some, is_some, map as list_map, true};
ghost use Rattle.std.specs.Option.{option_map};
ghost use Rattle.generational_errors.specs.declared.error.Location.{Location};
ghost use Rattle.generational_laws.specs.PlainStores.{IsSimple};
ghost use Rattle.handles.specs.Handles.{id_in};
ghost use Rattle.handles.specs.Sites.{told_at, told_in};
ghost use Rattle.live_cells.specs.declared.cells.CellFault.TheVariants.{OutOfMemory};
ghost use Rattle.scene_tree.specs.Nodes.{Node};
ghost use Rattle.scene_tree.specs.Parts.{AreChildRows, IsTreeFault, children_told, parent_told};
ghost use Rattle.scene_tree.specs.Trees.{children_of, created_at, is_live, parent_of, value_of};
ghost use Rattle.scene_tree.specs.declared.parts.PartsFault.TheVariants as faults;

use crate::listing::rows_of;
use crate::node::Node;
use crate::rebuilding::{built, find};
use crate::tree::SceneTree;
use generational_core::{GenerationalBoxId, HandedBack, Storage};
use handles::Sites;
use live_cells::CellFault;
use std::alloc::{AllocError, Global};
use std::error::Error;
use std::fmt;

/// A node that has a parent, and that parent, by their ids.
#[derive(Clone, Copy, Debug, PartialEq, Eq)]
pub struct ChildRow {
    /// The id of the node.
    pub child: GenerationalBoxId,
    /// The id of its parent.
    pub parent: GenerationalBoxId,
}

/// The parts of a tree.
#[derive(Drop)]
pub struct TreeParts<S> {
    /// The store, which has the values of the live nodes.
    pub store: S,
    /// The locations that the tree's handles refer to. `Sites::new` has none: it is for a store that
    /// doesn't come from a tree.
    pub sites: Sites,
    /// A row for each node that has a parent.
    pub rows: Vec<ChildRow>,
}

/// Why parts don't make a tree.
#[derive(Clone, Copy, Debug, PartialEq, Eq)]
pub enum PartsFault {
    /// The store has a cell that no tree can have, or memory ran out.
    Cell(CellFault),
    /// An id of this row isn't that of a live node.
    Stale(usize),
    /// The child of this row is in an earlier row, or is its own parent.
    Order(usize),
}

/// Prints the text of the `CellFault`, or the fault and its row.
impl fmt::Display for PartsFault {
    fn fmt<W: fmt::Write>(&self, f: &mut fmt::Formatter<W>) -> fmt::Result {
        match self {
            PartsFault::Cell(fault) => write!(f, "{fault}"),
            PartsFault::Stale(row) => write!(f, "row {row} has the id of no live node"),
            PartsFault::Order(row) => write!(f, "the child of row {row} is in an earlier row"),
        }
    }
}

impl Error for PartsFault {}

impl<T, S: Storage<T>> SceneTree<T, S> {
    /// Borrows the tree's store, for example to make an image of it. Doesn't allocate.
    ///
    /// ```rust
    /// let image = tree.store().image()?;
    /// ```
    pub fn store(&self) -> &S
        ensures { S.state result.now ≡ self.now.state }
    {
        &self.store
    }

    /// Lists each node that has a parent, with that parent, by their ids. The children of a node are in
    /// order, and come after the row of the node itself. Allocates the list, and is O(n) for n slots.
    ///
    /// # Errors
    ///
    /// `AllocError` if memory runs out.
    ///
    /// ```rust
    /// let rows = tree.rows()?;
    /// ```
    pub fn rows(&self) -> Result<Vec<ChildRow>, AllocError>
        ensures parents { IfOk result (λ rows. (n : Node T) →
            parent_told rows.items (id_in n) ≡ option_map id_in (parent_of self.now n)) }
        ensures children { IfOk result (λ rows. (n : Node T) →
            children_told rows.items (id_in n) ≡ list_map id_in (children_of self.now n)) }
        ensures fits { IfOk result (λ rows. AreChildRows self.now.state rows.items) }
    {
        let rows = rows_of(self.alloc, &self.store, &self.links)?;
        Ok(rows)
    }

    /// Takes the tree apart: its store has the values, and its rows the parents and the children, like
    /// those of `rows`. Allocates the rows, and is O(n) for n slots.
    ///
    /// # Errors
    ///
    /// The tree comes back unchanged if memory runs out.
    ///
    /// ```rust
    /// let parts = tree.into_parts().ok()?;
    /// ```
    pub fn into_parts(self) -> Result<TreeParts<S>, Self>
        ensures state { IfOk result (λ parts. S.state parts.store ≡ self.state) }
        ensures simple { IsSimple self.state }
        ensures sites { IfOk result (λ parts. told_in parts.sites ≡ self.sites) }
        ensures parents { IfOk result (λ parts. (n : Node T) →
            parent_told parts.rows.items (id_in n) ≡ option_map id_in (parent_of self n)) }
        ensures children { IfOk result (λ parts. (n : Node T) →
            children_told parts.rows.items (id_in n) ≡ list_map id_in (children_of self n)) }
        ensures fits { IfOk result (λ parts. AreChildRows self.state parts.rows.items) }
        ensures back { IfErr result (λ tree. tree ≡ self) }
    {
        let Ok(rows) = self.rows() else {
            return Err(self);
        };
        let SceneTree { store, sites, .. } = self;
        Ok(TreeParts { store, sites, rows })
    }

    /// Creates the tree of a store's values: each live value is a node with its id, made where its cell
    /// was made. The rows list the parents and the children; a node that is no row's child is a root.
    /// Any store and any rows may be passed in. Earlier handles, of a tree with the same parts, refer to
    /// the same nodes as before. O(n) for n slots and rows. Allocates two temporary lists of the slots,
    /// of some 50 bytes each, and the links, 48 bytes for each slot.
    ///
    /// # Errors
    ///
    /// All parts come back unchanged, with
    ///
    /// - `Cell` for the first slot that has a shared value or a reference, or whose value is borrowed,
    ///   or if memory runs out.
    /// - `Stale` or `Order` for the first row with an id that isn't a live node's, or whose child is in
    ///   an earlier row, as a child or as a parent, or is its own parent.
    ///
    /// ```rust
    /// let sites = Sites::new(rt.alloc());
    /// let tree = SceneTree::from_parts(rt.alloc(), TreeParts { store, sites, rows }).ok()?;
    /// ```
    pub fn from_parts(
        alloc: Global,
        parts: TreeParts<S>,
    ) -> Result<Self, HandedBack<TreeParts<S>, PartsFault>>
        ensures state { IfOk result (λ tree. tree.state ≡ S.state parts.store) }
        ensures parents { IfOk result (λ tree. (n : Node T) →
            parent_told parts.rows.items (id_in n) ≡ option_map id_in (parent_of tree n)) }
        ensures children { IfOk result (λ tree. (n : Node T) →
            children_told parts.rows.items (id_in n) ≡ list_map id_in (children_of tree n)) }
        ensures tells { IfOk result (λ tree. (n : Node T) (l : Location) →
            told_at (S.state parts.store).number (told_in parts.sites) n ≡ Some l → created_at tree n ≡ Some l) }
        ensures fits { OnOk result (AreChildRows (S.state parts.store) parts.rows.items) }
        ensures store { IfErr result (λ refusal. refusal.value.store ≡ parts.store) }
        ensures sites { IfErr result (λ refusal. told_in refusal.value.sites ≡ told_in parts.sites) }
        ensures rows { IfErr result (λ refusal. refusal.value.rows ≡ parts.rows) }
        ensures fault { IfErr result (λ refusal.
            IsTreeFault (S.state parts.store) parts.rows.items refusal.cause) }
        ensures short { IsSimple (S.state parts.store) → AreChildRows (S.state parts.store) parts.rows.items →
            IfErr result (λ refusal. refusal.cause ≡ faults.Cell OutOfMemory) }
    {
        let TreeParts {
            store,
            mut sites,
            rows,
        } = parts;
        match built(alloc, &store, &mut sites, rows.as_slice()) {
            Ok(links) => {
                sites.tell_all();
                Ok(SceneTree {
                    alloc,
                    store,
                    links,
                    sites,
                })
            }
            Err(cause) => Err(HandedBack {
                value: TreeParts { store, sites, rows },
                cause,
            }),
        }
    }

    /// The handle of the live node with an id, with the location where the node was made. None if the
    /// node was removed, or is of another tree. Doesn't allocate, and is O(1).
    ///
    /// ```rust
    /// let node = tree.find(id)?;
    /// ```
    pub fn find(&self, id: GenerationalBoxId) -> Option<Node<T>>
        ensures found { IfSome result (λ n. id_in n ≡ id) }
        ensures live { IfSome result (λ n. is_live self.now n ≡ true) }
        ensures none { IfNone result ((n : Node T) → id_in n ≡ id → value_of self.now n ≡ None) }
    {
        find(&self.store, &self.links, id)
    }
}
