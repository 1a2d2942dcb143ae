//! Handles of cells.

ghost use Rattle.std.specs.Prelude.{◌≡◌, ◌<◌, ◌^◌};
ghost use Rattle.generational_core.specs.declared.boxes.GenerationalBoxId.{GenerationalBoxId};
ghost use Rattle.handles.specs.Handles.{at_slot, id_in};

use generational_core::GenerationalBoxId;
use generational_core::parts::id_at;
use std::alloc::AllocError;
use std::cmp::Ordering;
use std::fmt;
use std::hash::{Hash, Hasher};
use std::marker::PhantomData;

/// A handle of a value of type `T` in a table of kind `K`. It is `Copy`, owns nothing, and may outlive
/// its value: it never refers to a later one.
pub struct Handle<T, K> {
    pub(crate) store: u64,
    pub(crate) generation: u64,
    pub(crate) slot: u32,
    pub(crate) site: u32,
    marker: PhantomData<(T, K)>,
}

/// Never fails. Doesn't allocate.
impl<T, K> Clone for Handle<T, K> {
    ghost use Rattle.std.specs.Prelude.{⊤};

    ghost is_clone = { λ a b. b ≡ a };

    ghost is_infallible = { λ _. ⊤ };

    fn clone(&self) -> Result<Self, AllocError> {
        Ok(*self)
    }
}

impl<T, K> Copy for Handle<T, K> {}

/// Equal if both are of the same value: if their ids are equal.
impl<T, K> PartialEq for Handle<T, K> {
    ghost use Rattle.std.proofs.Common.{rules};
    ghost use Rattle.std.specs.Cmp.Rules.{comparing};
    ghost use Rattle.handles.specs.Handles.{is_same};

    ghost eq = { is_same };

    ghost laws = { Prim.search (comparing, rules) };

    fn eq(&self, other: &Self) -> bool {
        self.store == other.store && self.slot == other.slot && self.generation == other.generation
    }
}

impl<T, K> Eq for Handle<T, K> {
    ghost use Rattle.std.proofs.Common.{rules};
    ghost use Rattle.std.specs.Cmp.Rules.{comparing};

    ghost laws = { Prim.search (comparing, rules) };
}

/// Ordered by their ids: by the number of the store, then the slot, then the generation.
impl<T, K> Ord for Handle<T, K> {
    ghost use Rattle.std.proofs.Common.{rules};
    ghost use Rattle.std.specs.Cmp.Rules.{comparing};
    ghost use Rattle.handles.specs.Handles.{by_id};

    ghost cmp = { by_id };

    ghost total = { Prim.search (comparing, rules) };

    ghost matches_partial_cmp = { Prim.search (comparing, rules) };

    ghost matches_eq = { Prim.search (comparing, rules) };

    fn cmp(&self, other: &Self) -> Ordering {
        let by_slot = self.slot.cmp(&other.slot);
        let by_generation = self.generation.cmp(&other.generation);
        self.store
            .cmp(&other.store)
            .then(by_slot.then(by_generation))
    }
}

impl<T, K> PartialOrd for Handle<T, K> {
    ghost use Rattle.std.proofs.Common.{rules};
    ghost use Rattle.std.specs.Cmp.{partial_order_from_own_ties};
    ghost use Rattle.std.specs.Cmp.Rules.{comparing};
    ghost use Rattle.std.specs.Ordering.{as_partial_cmp};
    ghost use Rattle.handles.specs.Handles.{by_id};

    ghost partial_cmp = { as_partial_cmp by_id };

    ghost laws = { partial_order_from_own_ties (Prim.search (comparing, rules)) (Prim.search (comparing, rules)) };

    fn partial_cmp(&self, other: &Self) -> Option<Ordering> {
        Some(self.cmp(other))
    }
}

/// Hashes the id.
impl<T, K> Hash for Handle<T, K> {
    ghost use Rattle.std.proofs.Common.{rules};
    ghost use Rattle.std.specs.Cmp.Rules.{hashing};
    ghost use Rattle.handles.specs.Handles.{hashed_handle};

    ghost hash_input = { hashed_handle };

    ghost respects_eq = { Prim.search (hashing, rules) };

    fn hash<H: Hasher>(&self, state: &mut H) {
        self.id().hash(state);
    }
}

/// Prints the id, as `slot@generation`.
impl<T, K> fmt::Debug for Handle<T, K> {
    ghost use Rattle.std.specs.Prelude.{Some};
    ghost use Rattle.generational_core.specs.Texts.{id_text};

    ghost debug_output = { λ it. Some (id_text (id_in it)) };

    fn fmt<W: fmt::Write>(&self, f: &mut fmt::Formatter<W>) -> fmt::Result {
        write!(f, "{:?}", self.id())
    }
}

/// Prints the id, as `slot@generation`.
impl<T, K> fmt::Display for Handle<T, K> {
    ghost use Rattle.std.specs.Prelude.{Some};
    ghost use Rattle.generational_core.specs.Texts.{id_text};

    ghost output = { λ it. Some (id_text (id_in it)) };

    fn fmt<W: fmt::Write>(&self, f: &mut fmt::Formatter<W>) -> fmt::Result {
        write!(f, "{:?}", self.id())
    }
}

impl<T, K> Handle<T, K> {
    // The handle of a slot of a table, at a site.
    #[inline(always)]
    pub(crate) fn at(store: u64, slot: u32, site: u32, generation: u64) -> Self
        ensures { result ≡ at_slot store slot site generation }
    {
        Handle {
            store,
            generation,
            slot,
            site,
            marker: PhantomData,
        }
    }

    /// The id of the value's cell, which no other ever has. Handles of one value have one id.
    ///
    /// ```rust
    /// let id = entity.id();
    /// ```
    #[inline(always)]
    pub fn id(self) -> GenerationalBoxId
        ensures { result ≡ id_in self }
    {
        id_at(self.store, self.slot as usize, self.generation)
    }
}

/// The handle of an id, made at a site of its table.
#[inline(always)]
pub fn handle_at<T, K>(id: GenerationalBoxId, site: u32) -> Handle<T, K>
    requires { id.slot < 2 ^ 32 }
    ensures id { id_in result ≡ id }
    ensures site { result.site ≡ site }
{
    Handle::at(id.store, id.slot as u32, site, id.generation)
}

/// The number of the store of a handle's table.
#[inline(always)]
pub fn number_of<T, K>(handle: Handle<T, K>) -> u64
    ensures { result ≡ handle.store }
{
    handle.store
}

/// The slot of a handle's cell.
#[inline(always)]
pub fn slot_of<T, K>(handle: Handle<T, K>) -> usize
    ensures { result ≡ handle.slot }
{
    handle.slot as usize
}

/// The site at which a handle was made.
#[inline(always)]
pub fn site_of<T, K>(handle: Handle<T, K>) -> u32
    ensures { result ≡ handle.site }
{
    handle.site
}
