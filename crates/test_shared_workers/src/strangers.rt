//! What another store gives out: its boxes, guards and owners are strangers to a scenario's store.

use crate::judge::Judge;
use crate::places::{made_later, read};
use crate::recorder::text;
use generational_box::{
    GenerationalBox, GenerationalRef, GenerationalRefMut, Owner, Storage, UnsyncStorage,
};
use std::alloc::Global;

/// A box and a reader at it, and a writer at another box.
pub(crate) struct Strangers {
    pub(crate) asked: GenerationalBox<String>,
    pub(crate) reader: GenerationalRef<String>,
    pub(crate) writer: GenerationalRefMut<String>,
}

/// The strangers of a new store with number 8.
pub(crate) fn new_strangers(rt: &impl Judge, alloc: Global) -> Strangers {
    strangers_of(rt, alloc, &mut UnsyncStorage::new(alloc, 8))
}

/// A box of a new store with number 8.
pub(crate) fn strange_box(rt: &impl Judge, alloc: Global) -> GenerationalBox<String> {
    leak_into(rt, alloc, &mut UnsyncStorage::new(alloc, 8))
}

/// The first owner of a new store with number 8.
pub(crate) fn strange_owner(rt: &impl Judge, alloc: Global) -> Owner {
    owner_of(rt, &mut UnsyncStorage::new(alloc, 8))
}

fn strangers_of<S: Storage<String>>(rt: &impl Judge, alloc: Global, store: &mut S) -> Strangers {
    let asked = leak_into(rt, alloc, store);
    let reader = rt.expect(asked.try_read(store, read()), "a guard");
    let written = leak_into(rt, alloc, store);
    let writer = rt.expect(written.try_write(store, read()), "a guard");
    Strangers {
        asked,
        reader,
        writer,
    }
}

fn leak_into<S: Storage<String>>(
    rt: &impl Judge,
    alloc: Global,
    store: &mut S,
) -> GenerationalBox<String> {
    let value = text(rt, alloc, "strange");
    let made = GenerationalBox::leak(store, value, made_later());
    rt.expect(made.map_err(|refusal| refusal.cause), "a box")
}

fn owner_of<S: Storage<String>>(rt: &impl Judge, store: &mut S) -> Owner {
    rt.expect(store.owner(), "an owner")
}
