//! Memos by the items of a list, which stay when the list is ordered otherwise.

ghost use Rattle.std.specs.BTreeMap.{IsEmpty, get};
ghost use Rattle.std.specs.Ordering.{nat_cmp};
ghost use Rattle.std.specs.Prelude.{◌≡◌, IfOk, Ok, Some};
ghost use Rattle.reactive.specs.declared.key.Key.{Key};

use crate::memos::Formula;
use generational_box::{Location, Storage, StoreError};
use reactive::{Key, Node, Reactive};
use std::alloc::Global;
use std::collections::BTreeMap;

/// The memo of each item, by the item's number.
#[derive(Drop)]
pub struct Keyed {
    memos: BTreeMap<u64, Key>,
}

impl Keyed {
    /// No items yet. Doesn't allocate.
    pub fn new(alloc: Global) -> Keyed
        ensures { IsEmpty result.memos }
    {
        Keyed {
            memos: BTreeMap::new(alloc),
        }
    }

    /// The memo of an item: the one that it has, at any place of the list; or a new one of a source.
    pub fn memo<S: Storage<Node<u64, Formula>>>(
        &mut self,
        graph: &mut Reactive<u64, Formula, S>,
        item: u64,
        source: Key,
        here: Location,
    ) -> Result<Key, StoreError>
        ensures kept { (memo : Key) → get nat_cmp self.old.memos item ≡ Some memo → result ≡ Ok memo }
        ensures same { (memo : Key) → get nat_cmp self.old.memos item ≡ Some memo → graph.new ≡ graph.old }
        ensures found { IfOk result (λ memo. get nat_cmp self.new.memos item ≡ Some memo) }
    {
        if let Some(memo) = self.memos.get(&item) {
            return Ok(*memo);
        }
        let memo = graph.memo(Formula::Odd(source), here)?;
        match self.memos.insert(item, memo) {
            Ok(_) => Ok(memo),
            Err(_) => {
                let _ = graph.end_all(&[memo]);
                Err(StoreError::OutOfMemory)
            }
        }
    }
}
