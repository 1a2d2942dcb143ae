//! The rows of the children in links.

ghost use Rattle.std.specs.Prelude.{◌≡◌, ◌<◌, ◌++◌, IfOk, OnOk, length, map};
ghost use Rattle.handles.specs.Handles.{id_in};
ghost use Rattle.scene_tree.specs.Building.{AreRowsOf};
ghost use Rattle.scene_tree.specs.Families.{AreChildrenLinked, children_at, families};
ghost use Rattle.scene_tree.specs.Keeping.{AreNodesNoted, IsTreeKept};
ghost use Rattle.scene_tree.specs.Nodes.{Node};

use crate::nodes::is_met;
use crate::packed::Links;
use crate::parts::ChildRow;
use crate::walk::Children;
use generational_core::{GenerationalBoxId, Storage};
use std::alloc::{AllocError, Global};

/// The rows of all children: of each root those of its children, then those of their children, and so
/// on, in the order of the rows.
pub(crate) fn rows_of<T, S: Storage<T>>(
    alloc: Global,
    store: &S,
    links: &Links<T>,
) -> Result<Vec<ChildRow>, AllocError>
    requires kept { IsTreeKept (S.state store.now) (families links.now.items) }
    requires linked { AreChildrenLinked links.now.items }
    requires noted { AreNodesNoted (S.state store.now) links.now.items }
    ensures { IfOk result (λ rows. AreRowsOf (S.state store.now) (families links.now.items) rows.items) }
{
    let mut rows = Vec::new(alloc);
    for slot in 0..links.len() {
        let root = links.at(slot);
        if !is_met(store, true, &root) {
            continue;
        }
        let mut next = rows.len();
        push_rows(&mut rows, links, root.node.id())?;
        while next < rows.len() {
            let child = rows[next].child;
            push_rows(&mut rows, links, child)?;
            next += 1;
        }
    }
    Ok(rows)
}

// Appends the rows of the children of a node.
fn push_rows<T>(
    rows: &mut Vec<ChildRow>,
    links: &Links<T>,
    parent: GenerationalBoxId,
) -> Result<(), AllocError>
    requires linked { AreChildrenLinked links.now.items }
    requires within { parent.slot < length links.now.items }
    ensures { OnOk result (rows.new.items ≡ rows.old.items
        ++ map (λ (c : Node T). record { child = id_in c; parent = parent })
        (children_at (families links.now.items) parent.slot)) }
{
    for node in Children::new(links, parent.slot) {
        rows.push(ChildRow {
            child: node.id(),
            parent,
        })?;
    }
    Ok(())
}
