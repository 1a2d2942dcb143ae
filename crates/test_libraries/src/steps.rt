//! Lists that grow where a step fails: a smaller one follows, so that each call is carried out, whichever
//! allocation fails.

use crate::adding::{append_all, insert_all, root_all, spawn_all};
use crate::document_acts::document_over;
use crate::document_memory::add_or_again;
use crate::entity_acts::entities_over;
use crate::entity_memory::spawn_or_again;
use crate::fresh::{Scene, SceneOfTwo, play, play_two};
use crate::tree_acts::tree_over;
use crate::tree_memory::root_or_again;
use entity_table::ComponentTable;
use generational_box::Storage;
use std::alloc::Global;
use std::process::Abort;

/// Spawns some entities with components.
struct SpawnSome;

impl Scene<u64> for SpawnSome {
    fn play<R: Abort, S: Storage<u64> + Drop>(&self, rt: &R, alloc: Global, store: S) {
        let mut entities = entities_over(rt, alloc, store);
        let mut components = ComponentTable::new(alloc, &entities);
        // The location is kept in an index map, whose first step is its smallest.
        spawn_or_again(rt, &mut entities, 0);
        spawn_all(rt, &mut entities, &mut components, 20);
    }
}

#[test]
fn rows_and_components(rt: HostRuntime) {
    play::<u64, SpawnSome>(&rt, rt.alloc(), &SpawnSome);
}

/// Adds some nodes to a tree, and some children to a document's page.
struct AddSome;

impl SceneOfTwo<u64, u32> for AddSome {
    fn play<R: Abort, S: Storage<u64> + Drop, P: Storage<u32> + Drop>(
        &self,
        rt: &R,
        alloc: Global,
        store: S,
        parts: P,
    ) {
        let mut tree = tree_over(rt, alloc, store);
        // Locations are kept in an index map, whose first step is its smallest.
        root_or_again(rt, &mut tree);
        root_all(rt, &mut tree, 20);
        let mut document = document_over(rt, alloc, parts);
        let page = add_or_again(rt, &mut document, 0);
        let part = add_or_again(rt, &mut document, 1);
        append_all(rt, &mut document, (page, part), 20);
        insert_all(rt, &mut document, (part, page), 0, 20);
    }
}

#[test]
fn links_and_children(rt: HostRuntime) {
    play_two::<u64, u32, AddSome>(&rt, rt.alloc(), &AddSome);
}
