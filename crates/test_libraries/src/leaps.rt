//! Each list of a library grows by leaps: the mapped memory is looked at a hundred times while it grows, and
//! changes seldom.

use crate::adding::{append_all, insert_all, page_and_part, root_all, spawn_all};
use crate::document_acts::document_over;
use crate::entity_acts::entities_over;
use crate::gauge::Gauge;
use crate::tree_acts::tree_over;
use entity_table::ComponentTable;
use generational_box::{LastFirst, Storage, Store};
use std::alloc::Global;
use std::process::Abort;
use std::rt::Files;

/// What grows over two new stores.
trait Growing<T, C> {
    fn grow<R: Files + AllocGlobal + Abort, S: Storage<T> + Drop, P: Storage<C> + Drop>(
        rt: &R,
        alloc: Global,
        store: S,
        parts: P,
    );
}

/// Lets something grow over two new stores.
fn grow<T: Drop, C: Drop, G: Growing<T, C>, R: Files + AllocGlobal + Abort>(rt: &R) {
    let alloc = rt.alloc();
    let store: Store<T, LastFirst> = Store::new(alloc, 1);
    let parts: Store<C, LastFirst> = Store::new(alloc, 2);
    G::grow(rt, alloc, store, parts);
}

/// Lets the rows of entities and of components grow, over a new store.
fn grow_tables<R: Files + AllocGlobal + Abort, S: Storage<u64> + Drop>(rt: &R, store: S) {
    let mut entities = entities_over(rt, rt.alloc(), store);
    let mut components = ComponentTable::new(rt.alloc(), &entities);
    let mut gauge = Gauge::new(rt);
    for _ in 0..100 {
        spawn_all(rt, &mut entities, &mut components, 1_000);
        gauge.look(rt);
    }
    gauge.assert_few(rt);
}

#[test]
fn tables(rt: HostRuntime) {
    let store: Store<u64, LastFirst> = Store::new(rt.alloc(), 1);
    grow_tables(&rt, store);
}

/// The links of a tree, the children of a part to which they are appended, and those of one into which
/// they are inserted.
struct GrowTrees;

impl Growing<u64, u32> for GrowTrees {
    fn grow<R: Files + AllocGlobal + Abort, S: Storage<u64> + Drop, P: Storage<u32> + Drop>(
        rt: &R,
        alloc: Global,
        store: S,
        parts: P,
    ) {
        let mut tree = tree_over(rt, alloc, store);
        let mut gauge = Gauge::new(rt);
        for _ in 0..100 {
            root_all(rt, &mut tree, 500);
            gauge.look(rt);
        }
        gauge.assert_few(rt);
        let mut document = document_over(rt, alloc, parts);
        let (page, part) = page_and_part(rt, &mut document);
        for batch in 0..100 {
            append_all(rt, &mut document, (page, part), 1_000);
            insert_all(rt, &mut document, (part, page), batch * 1_000, 1_000);
            gauge.look(rt);
        }
        gauge.assert_few(rt);
    }
}

#[test]
fn trees(rt: HostRuntime) {
    grow::<u64, u32, GrowTrees, _>(&rt);
}
