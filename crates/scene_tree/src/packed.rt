//! Links, each in 48 bytes.

ghost use Rattle.std.specs.Prelude.{◌≡◌, ◌<◌, ◌++◌, ◌∷◌, ◌^◌, ◌-◌, ℕ, [], length, None, Some, IsTrue, slice_get};
ghost use Rattle.handles.specs.Handles.{slot_in};
ghost use Rattle.scene_tree.specs.Chains.{alone_at, changed};
ghost use Rattle.scene_tree.specs.Nodes.{number_in};
ghost use Rattle.scene_tree.specs.Packing.{parent_in, slot_named};

use crate::links::Link;
use crate::node::Node;
use generational_core::parts::id_at;
use handles::parts::{handle_at, site_of, slot_of};
use std::alloc::Global;
use std::marker::{Model, PhantomData};
use store_room::reserve_more;

/// The code for no slot. There are at most as many links, so no slot has this number.
const NONE: u32 = 4294967295;

/// A link without what all links of a tree have in common: its node's generation and site, its parent's
/// slot, generation and site, and the codes of the other slots.
#[derive(Drop)]
pub(crate) struct PackedLink {
    generation: u64,
    up_generation: u64,
    site: u32,
    up_site: u32,
    up: u32,
    first: u32,
    last: u32,
    before: u32,
    after: u32,
}

impl PackedLink {
    // The parent, if there is one.
    #[inline(always)]
    fn parent<T>(&self, number: u64) -> Option<Node<T>>
        ensures { result ≡ parent_in number self.now }
    {
        let slot = named(self.up)?;
        Some(handle_at(id_at(number, slot, self.up_generation), self.up_site))
    }
}

// The slot of a code.
#[inline(always)]
fn named(code: u32) -> Option<usize>
    ensures { result ≡ slot_named code }
{
    if code == NONE {
        None
    } else {
        Some(code as usize)
    }
}

// The code of a slot.
#[inline(always)]
fn code(slot: Option<usize>) -> u32
    requires { (s : ℕ) → slot ≡ Some s → s < 2 ^ 32 - 1 }
    ensures { slot_named result ≡ slot }
{
    match slot {
        Some(slot) => slot as u32,
        None => NONE,
    }
}

/// The links of a tree's slots, for nodes of the store with this number. Contracts model it as the
/// number, the links, and the capacity.
#[derive(Drop)]
pub(crate) struct Links<T> {
    number: u64,
    packed: Vec<PackedLink>,
    marker: PhantomData<T>,
}

impl<T> Model for Links<T> {
    ghost use Rattle.std.specs.Prelude.{◌<◌, ◌^◌, length};
    ghost use Rattle.std.specs.Vec.{vec_capacity};
    ghost use Rattle.scene_tree.specs.Chains.{LinkState};
    ghost use Rattle.scene_tree.specs.Packing.{unpacked_from};

    ghost Value = { LinkState T };

    ghost view = { λ l. record {
      number = l.number;
      items = unpacked_from l.number 0 l.packed.items;
      room = vec_capacity l.packed;
    } };

    ghost invariant = { λ l. length l.packed.items < 2 ^ 32 };
}

impl<T> Links<T> {
    /// Creates an empty list of links. Doesn't allocate.
    pub(crate) fn new(alloc: Global, number: u64) -> Self
        ensures number { result.number ≡ number }
        ensures items { result.items ≡ [] }
    {
        Links {
            number,
            packed: Vec::new(alloc),
            marker: PhantomData,
        }
    }

    /// The number of the store.
    #[inline(always)]
    pub(crate) fn number(&self) -> u64
        ensures { result ≡ self.now.number }
    {
        self.number
    }

    /// How many links there are.
    #[inline(always)]
    pub(crate) fn len(&self) -> usize
        ensures count { result ≡ length self.now.items }
        ensures most { length self.now.items < 2 ^ 32 }
    {
        self.packed.len()
    }

    /// Reserves capacity for another link, and usually for many. False if memory runs out, or if there
    /// are too many links.
    #[inline(always)]
    pub(crate) fn reserve(&mut self) -> bool
        ensures number { self.new.number ≡ self.old.number }
        ensures same { self.new.items ≡ self.old.items }
        ensures room { IsTrue result → length self.new.items < self.new.room }
        ensures fits { IsTrue result → length self.new.items < 2 ^ 32 - 1 }
    {
        self.packed.len() < NONE as usize && reserve_more(&mut self.packed, 1).is_ok()
    }

    /// The link of a slot.
    #[inline(always)]
    pub(crate) fn at(&self, slot: usize) -> Link<T>
        requires { slot < length self.now.items }
        ensures link { slice_get self.now.items slot ≡ Some result }
        ensures most { length self.now.items < 2 ^ 32 }
    {
        let packed = &self.packed[slot];
        Link {
            node: handle_at(id_at(self.number, slot, packed.generation), packed.site),
            parent: packed.parent(self.number),
            first: named(packed.first),
            last: named(packed.last),
            before: named(packed.before),
            after: named(packed.after),
        }
    }

    /// Adds the link of a node without parent and children. There must be capacity for it.
    pub(crate) fn push(&mut self, node: Node<T>)
        requires room { length self.old.items < self.old.room }
        requires fits { length self.old.items < 2 ^ 32 - 1 }
        requires number { number_in node ≡ self.old.number }
        requires next { slot_in node ≡ length self.old.items }
        ensures number { self.new.number ≡ self.old.number }
        ensures items { self.new.items ≡ self.old.items ++ alone_at node ∷ [] }
    {
        self.packed.push_reserved(PackedLink {
            generation: node.id().generation,
            up_generation: 0,
            site: site_of(node),
            up_site: 0,
            up: NONE,
            first: NONE,
            last: NONE,
            before: NONE,
            after: NONE,
        });
    }

    /// Records a node at its slot.
    pub(crate) fn set_node(&mut self, node: Node<T>)
        requires within { slot_in node < length self.old.items }
        requires number { number_in node ≡ self.old.number }
        ensures number { self.new.number ≡ self.old.number }
        ensures items { self.new.items
            ≡ changed self.old.items (slot_in node) (λ l. record l { node = node }) }
    {
        let packed = &mut self.packed[slot_of(node)];
        packed.generation = node.id().generation;
        packed.site = site_of(node);
    }

    /// Sets the parent of a slot's node.
    pub(crate) fn set_parent(&mut self, slot: usize, parent: Node<T>)
        requires within { slot < length self.old.items }
        requires parent { slot_in parent < length self.old.items }
        requires number { number_in parent ≡ self.old.number }
        ensures number { self.new.number ≡ self.old.number }
        ensures items { self.new.items
            ≡ changed self.old.items slot (λ l. record l { parent = Some parent }) }
    {
        let packed = &mut self.packed[slot];
        packed.up = code(Some(slot_of(parent)));
        packed.up_generation = parent.id().generation;
        packed.up_site = site_of(parent);
    }

    /// Clears the parent of a slot's node.
    pub(crate) fn remove_parent(&mut self, slot: usize)
        requires within { slot < length self.old.items }
        ensures number { self.new.number ≡ self.old.number }
        ensures items { self.new.items ≡ changed self.old.items slot (λ l. record l { parent = None }) }
    {
        let packed = &mut self.packed[slot];
        packed.up = NONE;
    }

    /// Sets the slot of the first child.
    pub(crate) fn set_first(&mut self, slot: usize, first: Option<usize>)
        requires within { slot < length self.old.items }
        requires first { (s : ℕ) → first ≡ Some s → s < length self.old.items }
        ensures number { self.new.number ≡ self.old.number }
        ensures items { self.new.items ≡ changed self.old.items slot (λ l. record l { first = first }) }
    {
        let packed = &mut self.packed[slot];
        packed.first = code(first);
    }

    /// Sets the slot of the last child.
    pub(crate) fn set_last(&mut self, slot: usize, last: Option<usize>)
        requires within { slot < length self.old.items }
        requires last { (s : ℕ) → last ≡ Some s → s < length self.old.items }
        ensures number { self.new.number ≡ self.old.number }
        ensures items { self.new.items ≡ changed self.old.items slot (λ l. record l { last = last }) }
    {
        let packed = &mut self.packed[slot];
        packed.last = code(last);
    }

    /// Sets the slot of the sibling before.
    pub(crate) fn set_before(&mut self, slot: usize, before: Option<usize>)
        requires within { slot < length self.old.items }
        requires before { (s : ℕ) → before ≡ Some s → s < length self.old.items }
        ensures number { self.new.number ≡ self.old.number }
        ensures items { self.new.items ≡ changed self.old.items slot (λ l. record l { before = before }) }
    {
        let packed = &mut self.packed[slot];
        packed.before = code(before);
    }

    /// Sets the slot of the sibling after.
    pub(crate) fn set_after(&mut self, slot: usize, after: Option<usize>)
        requires within { slot < length self.old.items }
        requires after { (s : ℕ) → after ≡ Some s → s < length self.old.items }
        ensures number { self.new.number ≡ self.old.number }
        ensures items { self.new.items ≡ changed self.old.items slot (λ l. record l { after = after }) }
    {
        let packed = &mut self.packed[slot];
        packed.after = code(after);
    }
}
