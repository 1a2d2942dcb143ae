//! Many things, added to tables, trees and documents. No call may fail, and none but a call of these asks
//! for memory.

use crate::document_acts::added_at;
use crate::entity_acts::{give, spawn};
use crate::expected::given;
use crate::tree_acts::made_at;
use document_tree::{Document, Place};
use entity_table::{ComponentTable, EntityTable};
use generational_box::Storage;
use scene_tree::{SceneTree, Spot};
use std::process::Abort;

/// Spawns entities, each with a component.
pub(crate) fn spawn_all<S: Storage<u64>>(
    rt: &impl Abort,
    entities: &mut EntityTable<u64, S>,
    components: &mut ComponentTable<u64, u64>,
    count: u64,
) {
    for component in 0..count {
        let entity = spawn(rt, entities, 0);
        give(rt, components, entity, component);
    }
}

/// Makes roots, each with a first child.
pub(crate) fn root_all<S: Storage<u64>>(rt: &impl Abort, tree: &mut SceneTree<u64, S>, count: u64) {
    for value in 0..count {
        let root = given(rt, tree.add_root(value, made_at(0)));
        given(rt, tree.add_at(Spot::FirstOf(root), value, made_at(1)));
    }
}

/// Adds a page, and a part that stands nowhere yet.
pub(crate) fn page_and_part<S: Storage<u32>>(
    rt: &impl Abort,
    document: &mut Document<u64, S>,
) -> (Place, Place) {
    let page = given(rt, document.add(0, added_at(1)));
    (page, given(rt, document.add(1, added_at(2))))
}

/// Appends one place to a page, again and again.
pub(crate) fn append_all<S: Storage<u32>>(
    rt: &impl Abort,
    document: &mut Document<u64, S>,
    (page, part): (Place, Place),
    count: usize,
) {
    for _ in 0..count {
        given(rt, document.append(page, part));
    }
}

/// Inserts one place behind the children of a page, of which there are so many, again and again.
pub(crate) fn insert_all<S: Storage<u32>>(
    rt: &impl Abort,
    document: &mut Document<u64, S>,
    (page, part): (Place, Place),
    from: usize,
    count: usize,
) {
    for more in 0..count {
        given(rt, document.insert(page, from.saturating_add(more), part));
    }
}
