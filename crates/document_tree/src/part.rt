//! Parts of documents, each under a key.

ghost use Rattle.std.specs.Prelude.{◌≡◌, ◌<◌, IsFalse, IsTrue, Some, is_some, true};
ghost use Rattle.std.specs.Borrow.{MutBor};
ghost use Rattle.std.specs.Fn.{FnOnceReturnsAtMut};
ghost use Rattle.slab.specs.Slab.{get, HasRoomFor, Updates};
ghost use Rattle.document_tree.specs.Parts.{is_full, left, met};

use crate::place::Place;
use slab::Slab;

/// A part of a document: its content, and the children in order.
#[derive(Drop)]
pub struct Part<T> {
    pub(crate) content: T,
    pub(crate) children: Vec<Place>,
    // how many places refer to it
    pub(crate) places: u32,
    // where it was added, in the document's list of locations
    pub(crate) site: u32,
}

// Reserves capacity for a part. False if memory runs out and each key has a part. No part changes.
pub(crate) fn make_room<T>(parts: &mut Slab<Part<T>>) -> bool
    ensures room { IsTrue result → HasRoomFor parts.new 1 }
    ensures slots { parts.new.slots ≡ parts.old.slots }
    ensures key { parts.new.vacant_key ≡ parts.old.vacant_key }
    ensures full { IsFalse result → is_full parts.old.slots ≡ true }
{
    parts.len() < parts.capacity() || parts.reserve(1).is_ok() || parts.reserve_exact(1).is_ok()
}

// Calls a closure once on the part under a key, mutably.
pub(crate) fn change_part<T, R, F: FnOnce(&mut Part<T>) -> R>(
    parts: &mut Slab<Part<T>>,
    key: usize,
    f: F,
) -> R
    requires there { is_some (get parts.old key) ≡ true }
    requires callable { (part : MutBor (Part T)) → get parts.old key ≡ Some part.now → F.pre f part }
    ensures { (old : Part T) × (new : Part T) × (get parts.old key ≡ Some old)
        × FnOnceReturnsAtMut F.FnOnce f old result new × Updates parts.old parts.new key (Some new) }
{
    match parts.get_mut(key) {
        Some(part) => f(part),
        None => unreachable!(),
    }
}

// Adds one to the number of places that refer to the part under a key.
pub(crate) fn meet<T>(parts: &mut Slab<Part<T>>, key: usize)
    requires there { is_some (get parts.old key) ≡ true }
    requires fits { (part : Part T) → get parts.old key ≡ Some part → part.places < 4294967295 }
    ensures { (part : Part T) → get parts.old key ≡ Some part →
        Updates parts.old parts.new key (Some (met part)) }
{
    match parts.get_mut(key) {
        Some(part) => part.places += 1,
        None => unreachable!(),
    }
}

// Subtracts one from the number of places that refer to the part under a key, and drops the part at 0.
pub(crate) fn leave<T: Drop>(parts: &mut Slab<Part<T>>, key: usize)
    requires there { is_some (get parts.old key) ≡ true }
    ensures { (part : Part T) → get parts.old key ≡ Some part →
        Updates parts.old parts.new key (left part) }
{
    match parts.get_mut(key) {
        Some(part) if 1 < part.places => part.places -= 1,
        _ => {
            let _part = parts.remove(key);
        }
    }
}
