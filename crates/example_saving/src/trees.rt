//! Trees that are taken apart and made again.

ghost use Rattle.std.specs.Prelude.{◌≡◌, ℕ, IfErr, IfOk, map};
ghost use Rattle.std.specs.Option.{option_map};
ghost use Rattle.handles.specs.Handles.{id_in};
ghost use Rattle.live_cells.specs.declared.cells.CellFault.TheVariants.{OutOfMemory};
ghost use Rattle.scene_tree.specs.Nodes.{Node};
ghost use Rattle.scene_tree.specs.Trees.{children_of, parent_of, value_of};
ghost use Rattle.scene_tree.specs.declared.parts.PartsFault.TheVariants.{Cell};

use generational_box::Storage;
use scene_tree::{CellFault, PartsFault, SceneTree};
use std::alloc::Global;

/// Takes a tree apart, and makes it again. Each node has the same value, the same parent, and the same
/// children in the same order.
///
/// # Errors
///
/// Only `Cell` of `OutOfMemory`.
pub fn tree_again<S: Storage<u64> + Drop>(
    alloc: Global,
    tree: SceneTree<u64, S>,
) -> Result<SceneTree<u64, S>, PartsFault>
    ensures values { IfOk result (λ again. (n : Node ℕ) → value_of again n ≡ value_of tree n) }
    ensures parents { IfOk result (λ again. (n : Node ℕ) →
        option_map id_in (parent_of again n) ≡ option_map id_in (parent_of tree n)) }
    ensures children { IfOk result (λ again. (n : Node ℕ) →
        map id_in (children_of again n) ≡ map id_in (children_of tree n)) }
    ensures short { IfErr result (λ fault. fault ≡ Cell OutOfMemory) }
{
    let Ok(parts) = tree.into_parts() else {
        return Err(PartsFault::Cell(CellFault::OutOfMemory));
    };
    match SceneTree::from_parts(alloc, parts) {
        Ok(tree) => Ok(tree),
        Err(refusal) => Err(refusal.cause),
    }
}
