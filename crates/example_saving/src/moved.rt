//! Trees that are loaded under a number that no store had.

ghost use Rattle.std.specs.Prelude.{◌≡◌, IfSome, Some, map as list_map, ℕ};
ghost use Rattle.std.specs.Option.{option_map};
ghost use Rattle.generational_core.specs.declared.boxes.GenerationalBoxId.{GenerationalBoxId};
ghost use Rattle.handles.specs.Handles.{id_in};
ghost use Rattle.scene_tree.specs.Nodes.{Node};
ghost use Rattle.scene_tree.specs.Parts.{children_told};
ghost use Rattle.scene_tree.specs.Trees.{children_of};
ghost use Rattle.store_images.specs.Adopting.{adopted, id_adopted};
ghost use Rattle.store_images.specs.Images.{told};
ghost use Rattle.example_saving.specs.Moving.{AreAdopted, IsAdopted};

use generational_box::{Image, Loaded, UnsyncStorage};
use scene_tree::{ChildRow, SceneTree, Sites, TreeParts};
use std::alloc::Global;

/// The rows of a saved tree, with the ids of the store that was loaded. None if an id is of no cell that
/// was live in the image, or if memory runs out.
pub fn adopt_rows(alloc: Global, loaded: &Loaded, rows: &[ChildRow]) -> Option<Vec<ChildRow>>
    ensures { IfSome result (λ moved. AreAdopted loaded.now rows.now moved.items) }
{
    let mut moved = Vec::new(alloc);
    let mut left = rows;
    while let Some((row, rest)) = left.split_first() {
        let row = adopt_row(loaded, *row)?;
        if moved.push(row).is_err() {
            return None;
        }
        left = rest;
    }
    Some(moved)
}

// A row, with the ids of the store that was loaded.
fn adopt_row(loaded: &Loaded, row: ChildRow) -> Option<ChildRow>
    ensures { IfSome result (IsAdopted loaded.now row) }
{
    let child = loaded.adopt(row.child)?;
    let parent = loaded.adopt(row.parent)?;
    Some(ChildRow { child, parent })
}

/// Loads a saved tree, of the image of its store and its rows, under a number that no store had. The
/// saved ids are adopted by what comes with it: each of a live node has that node's value, and its
/// children, adopted, in order. None if the parts don't fit, or if memory runs out.
pub fn tree_under(
    alloc: Global,
    number: u64,
    image: Image<u64>,
    rows: &[ChildRow],
) -> Option<(SceneTree<u64, UnsyncStorage<u64>>, Loaded)>
    ensures state { IfSome result (λ it. it.0.state ≡ record (told image) { number = number }) }
    ensures adopts { IfSome result (λ it. (id : GenerationalBoxId) →
        adopted it.1 id ≡ id_adopted image number id) }
    ensures children { IfSome result (λ it. (n : Node ℕ) (id : GenerationalBoxId) →
        adopted it.1 id ≡ Some (id_in n) →
        list_map Some (list_map id_in (children_of it.0 n)) ≡ list_map (adopted it.1) (children_told rows.now id)) }
{
    let Ok((store, loaded)) = UnsyncStorage::from_image_as(alloc, number, image) else {
        return None;
    };
    let rows = adopt_rows(alloc, &loaded, rows)?;
    let sites = Sites::new(alloc);
    match SceneTree::from_parts(alloc, TreeParts { store, sites, rows }) {
        Ok(tree) => Some((tree, loaded)),
        Err(_) => None,
    }
}
