//! Values by handles.

ghost use Rattle.std.specs.Prelude.{◌≡◌, ◌<◌, ◌≤◌, ◌+◌, ◌^◌, ℕ, [], Some, IsFalse, IsTrue, IfSome, IfNone};
ghost use Rattle.std.specs.Prelude.{IfErr, IfOk, ◌++◌, map as list_map};
ghost use Rattle.handles.specs.Handles.{id_in};
ghost use Rattle.std.specs.Prelude.{◌∷◌, length, option_copied, slice_set, vec_capacity};
ghost use Rattle.std.specs.Borrow.{MutBor};
ghost use Rattle.std.specs.Fn.{FnOnceReturnsAtMut};
ghost use Rattle.handles.specs.declared.map.Row.TheVariants.{Held, Vacant};
ghost use Rattle.handles.specs.Handles.{slot_in};
ghost use Rattle.handles.specs.Maps.{both, both_held, count, handle_of, held, listed, listed_from, refilled, row_at, value_of};
ghost use Rattle.handles.specs.Visits.{AreChanged, CalledOn, CalledOnBoth};

use crate::handle::Handle;
use crate::walk::HandleIter;
use generational_core::GenerationalBoxId;
use generational_core::parts::id_at;
use std::alloc::Global;
use std::marker::{Model, PhantomData};
use std::mem;
use store_room::reserve_more;

/// How many slots there may be: a handle has 32 bits for its slot.
const SLOTS: usize = 4294967296;

/// How many rows are made at once, so that few calls make any.
const AT_ONCE: usize = 64;

/// What a slot holds: nothing, or the value of a handle, with its site and its generation.
#[derive(Drop)]
pub enum Row<V> {
    /// Nothing.
    Vacant,
    /// A site, a generation and a value.
    Held(u32, u64, V),
}

impl<V> Row<V> {
    // The value of a generation.
    #[inline(always)]
    fn value(&self, generation: u64) -> Option<&V>
        ensures { option_copied result ≡ held self.now generation }
    {
        match self {
            Row::Held(_, own, value) if *own == generation => Some(value),
            _ => None,
        }
    }

    // The handle of the value.
    #[inline(always)]
    fn handle<T, K>(&self, number: u64, slot: usize) -> Option<Handle<T, K>>
        requires { slot < 2 ^ 32 }
        ensures { result ≡ handle_of number slot self.now }
    {
        match self {
            Row::Held(site, generation, _) => {
                Some(Handle::at(number, slot as u32, *site, *generation))
            }
            Row::Vacant => None,
        }
    }

    // Changes the value of a generation in place.
    #[inline(always)]
    fn change<R, F: FnOnce(&mut V) -> R>(&mut self, generation: u64, f: F) -> Option<R>
        requires { (value : MutBor V) → held self.old generation ≡ Some value.now → F.pre f value }
        ensures changed { IfSome result (λ answer. (old : V) × (new : V)
            × (held self.old generation ≡ Some old) × FnOnceReturnsAtMut F.FnOnce f old answer new
            × (self.new ≡ refilled self.old new)) }
        ensures none { IfNone result ((held self.old generation ≡ None) × (self.new ≡ self.old)) }
    {
        match self {
            Row::Held(_, own, value) if *own == generation => Some(f(value)),
            _ => None,
        }
    }

    // Calls a closure on the row's handle and value, if it holds one.
    #[inline(always)]
    fn visit<T, K, F: FnMut(Handle<T, K>, &mut V)>(&mut self, number: u64, slot: usize, f: &mut F)
        requires callable { F.IsAlwaysCallable f.old }
        requires fits { slot < 2 ^ 32 }
        ensures callable { F.IsAlwaysCallable f.new }
        ensures changed { AreChanged (CalledOn F.FnMut) f.old (listed_from number slot (self.old ∷ []))
            (listed_from number slot (self.new ∷ [])) f.new }
    {
        if let Row::Held(site, generation, value) = self {
            f(Handle::at(number, slot as u32, *site, *generation), value);
        }
    }

    // Calls a closure on the row's handle and the values of this row and another, if they hold values of one
    // generation.
    #[inline(always)]
    fn visit_both<T, K, W, F: FnMut(Handle<T, K>, &mut V, &mut W)>(
        &mut self,
        other: &mut Row<W>,
        number: u64,
        slot: usize,
        f: &mut F,
    )
        requires callable { F.IsAlwaysCallable f.old }
        requires fits { slot < 2 ^ 32 }
        ensures callable { F.IsAlwaysCallable f.new }
        ensures changed { AreChanged (CalledOnBoth F.FnMut) f.old (both_held {T = T} {K = K} number slot self.old other.old)
            (both_held {T = T} {K = K} number slot self.new other.new) f.new }
        ensures first { (g : ℕ) → held other.old g ≡ None → held self.new g ≡ held self.old g }
        ensures second { (g : ℕ) → held self.old g ≡ None → held other.new g ≡ held other.old g }
        ensures counts { (count (self.new ∷ []) ≡ count (self.old ∷ []))
            × (count (other.new ∷ []) ≡ count (other.old ∷ [])) }
    {
        let Row::Held(site, generation, value) = self else {
            return;
        };
        let Row::Held(_, own, with) = other else {
            return;
        };
        if *generation == *own {
            f(
                Handle::at(number, slot as u32, *site, *generation),
                value,
                with,
            );
        }
    }
}

/// Values by the handles of one table, with a row for each slot up to the highest that ever had one.
/// Contracts model it as the table's number and the rows.
#[derive(Drop)]
pub struct HandleMap<T, K, V> {
    number: u64,
    rows: Vec<Row<V>>,
    live: usize,
    marker: PhantomData<(T, K)>,
}

impl<T, K, V> Model for HandleMap<T, K, V> {
    ghost use Rattle.std.specs.Prelude.{◌≡◌, ◌≤◌, ◌^◌, length};
    ghost use Rattle.handles.specs.Maps.{both, both_held, count, MapState};

    ghost Value = { MapState V };

    ghost view = { λ m. record { number = m.number; rows = m.rows.items } };

    ghost invariant = { λ m. (m.live ≡ count m.rows.items) × (length m.rows.items ≤ 2 ^ 32) };
}

impl<T, K, V> HandleMap<T, K, V> {
    /// No values, for the handles of the table with this number. Doesn't allocate.
    pub fn new(alloc: Global, number: u64) -> Self
        ensures { result ≡ record { number = number; rows = [] } }
    {
        HandleMap {
            number,
            rows: Vec::new(alloc),
            live: 0,
            marker: PhantomData,
        }
    }

    /// The number of the table. Doesn't allocate.
    pub fn number(&self) -> u64
        ensures { result ≡ self.now.number }
    {
        self.number
    }

    /// How many values there are. Doesn't allocate, and is O(1).
    pub fn len(&self) -> usize
        ensures { result ≡ count self.now.rows }
    {
        self.live
    }

    /// How many rows there are. Doesn't allocate, and is O(1).
    pub fn slots(&self) -> usize
        ensures count { result ≡ length self.now.rows }
        ensures most { length self.now.rows ≤ 2 ^ 32 }
    {
        self.rows.len()
    }

    /// The value of a handle. Doesn't allocate, and is O(1).
    #[inline(always)]
    pub fn get(&self, handle: Handle<T, K>) -> Option<&V>
        ensures { option_copied result ≡ value_of self.now handle }
    {
        if handle.store != self.number {
            return None;
        }
        let row = self.rows.get(handle.slot as usize)?;
        row.value(handle.generation)
    }

    /// The handle whose value a slot's row holds. Doesn't allocate, and is O(1).
    #[inline(always)]
    pub fn at(&self, slot: usize) -> Option<Handle<T, K>>
        ensures { result ≡ handle_of self.now.number slot (row_at self.now.rows slot) }
    {
        let row = self.rows.get(slot)?;
        row.handle(self.number, slot)
    }

    /// Makes a row for a slot. False if an allocation fails, or if there are too many slots. Each row is
    /// unchanged in either case. Amortised O(1) if slots come in order, and O(n) for n new rows.
    #[inline(always)]
    pub fn reserve(&mut self, slot: usize) -> bool
        ensures number { self.new.number ≡ self.old.number }
        ensures within { IsTrue result → (slot < length self.new.rows) × (slot < 2 ^ 32) }
        ensures same { (at : ℕ) → row_at self.new.rows at ≡ row_at self.old.rows at }
        ensures short { IsFalse result → row_at self.old.rows slot ≡ Vacant }
    {
        slot < self.rows.len() || self.grow(slot)
    }

    // Makes a row for a slot past the last one.
    #[cold]
    #[inline(never)]
    #[tactic(auto, using(crate::proofs::Maps::past))]
    fn grow(&mut self, slot: usize) -> bool
        ensures number { self.new.number ≡ self.old.number }
        ensures within { IsTrue result → (slot < length self.new.rows) × (slot < 2 ^ 32) }
        ensures same { (at : ℕ) → row_at self.new.rows at ≡ row_at self.old.rows at }
        ensures short { IsFalse result → row_at self.old.rows slot ≡ Vacant }
    {
        let len = self.rows.len();
        if slot >= SLOTS || slot < len {
            return slot < len;
        }
        if reserve_more(&mut self.rows, slot + 1 - len).is_err() {
            return false;
        }
        let room = self.rows.capacity().min(SLOTS);
        fill(&mut self.rows, room.min(slot.saturating_add(AT_ONCE)));
        true
    }

    /// Sets a handle's value, which replaces what its row holds. There must be such a row.
    #[inline(always)]
    pub fn put(&mut self, handle: Handle<T, K>, value: V)
    where
        V: Drop,
        requires { slot_in handle < length self.old.rows }
        ensures number { self.new.number ≡ self.old.number }
        ensures rows { self.new.rows ≡ slice_set self.old.rows (slot_in handle)
            (Held handle.site handle.generation value) }
    {
        let row = Row::Held(handle.site, handle.generation, value);
        match mem::replace(&mut self.rows[handle.slot as usize], row) {
            Row::Vacant => self.live += 1,
            Row::Held(_, _, _) => {}
        }
    }

    /// Removes and returns a handle's value. None if it has none, and nothing changes. Doesn't allocate,
    /// and is O(1).
    #[inline(always)]
    pub fn take(&mut self, handle: Handle<T, K>) -> Option<V>
        ensures taken { result ≡ value_of self.old handle }
        ensures rows { IfSome result (λ _. self.new ≡ record self.old {
          rows = slice_set self.old.rows (slot_in handle) Vacant;
        }) }
        ensures none { IfNone result (self.new ≡ self.old) }
    {
        if self.get(handle).is_none() {
            return None;
        }
        match mem::replace(&mut self.rows[handle.slot as usize], Row::Vacant) {
            Row::Held(_, _, value) => {
                self.live -= 1;
                Some(value)
            }
            Row::Vacant => unreachable!(),
        }
    }

    /// Calls a closure once on a handle's value, mutably, and returns the closure's result. None if it
    /// has none: the closure isn't called, and nothing changes.
    #[inline(always)]
    pub fn change<R, F: FnOnce(&mut V) -> R>(&mut self, handle: Handle<T, K>, f: F) -> Option<R>
        requires { (value : MutBor V) → value_of self.old handle ≡ Some value.now → F.pre f value }
        ensures changed { IfSome result (λ answer. (old : V) × (new : V)
            × (value_of self.old handle ≡ Some old) × FnOnceReturnsAtMut F.FnOnce f old answer new
            × (self.new ≡ record self.old {
              rows = slice_set self.old.rows (slot_in handle)
                  (refilled (row_at self.old.rows (slot_in handle)) new);
            })) }
        ensures none { IfNone result ((value_of self.old handle ≡ None) × (self.new ≡ self.old)) }
    {
        if self.get(handle).is_none() {
            return None;
        }
        self.rows[handle.slot as usize].change(handle.generation, f)
    }

    /// Calls a closure once on each handle that has a value and on that value, which it may change, in the
    /// order of their slots. Doesn't allocate itself.
    pub fn for_each_mut<F: FnMut(Handle<T, K>, &mut V)>(&mut self, mut f: F)
        requires { F.IsAlwaysCallable f }
        ensures number { self.new.number ≡ self.old.number }
        ensures visited { (last : F) × AreChanged (CalledOn F.FnMut) f (listed self.old) (listed self.new) last }
    {
        let number = self.number;
        for slot in 0..self.rows.len() {
            self.rows[slot].visit(number, slot, &mut f);
        }
    }

    /// Calls a closure once on each handle that has a value in this map and in another, and on both values,
    /// which it may change, in the order of their slots. Doesn't allocate itself.
    pub fn for_each2_mut<W, F: FnMut(Handle<T, K>, &mut V, &mut W)>(
        &mut self,
        other: &mut HandleMap<T, K, W>,
        mut f: F,
    )
        requires { F.IsAlwaysCallable f }
        ensures numbers { (self.new.number ≡ self.old.number) × (other.new.number ≡ other.old.number) }
        ensures visited { (last : F) × AreChanged (CalledOnBoth F.FnMut) f (both {T = T} {K = K} self.old other.old)
            (both {T = T} {K = K} self.new other.new) last }
        ensures first { (h : Handle T K) → value_of other.old h ≡ None →
            value_of self.new h ≡ value_of self.old h }
        ensures second { (h : Handle T K) → value_of self.old h ≡ None →
            value_of other.new h ≡ value_of other.old h }
    {
        if self.number != other.number {
            return;
        }
        let number = self.number;
        for slot in 0..self.rows.len().min(other.rows.len()) {
            self.rows[slot].visit_both(&mut other.rows[slot], number, slot, &mut f);
        }
    }

    /// Drops all values. Doesn't allocate, and is O(n) for n rows.
    pub fn clear(&mut self)
    where
        V: Drop,
        ensures { self.new ≡ record { number = self.old.number; rows = [] } }
    {
        self.rows.clear();
        self.live = 0;
    }

    /// All values with the ids of their handles, in the order of their slots. Allocates a list for them, and
    /// is O(n) for n rows.
    ///
    /// # Errors
    ///
    /// The map, unchanged, if memory runs out.
    pub fn into_values(self, alloc: Global) -> Result<Vec<(GenerationalBoxId, V)>, Self>
    where
        V: Drop,
        ensures values { IfOk result (λ all. all.items ≡ list_map (λ p. (id_in p.0, p.1)) (listed {T = T} {K = K} self)) }
        ensures back { IfErr result (λ map. map ≡ self) }
    {
        let Ok(all) = Vec::with_capacity(alloc, self.live) else {
            return Err(self);
        };
        let HandleMap { number, rows, .. } = self;
        Ok(values_of::<T, K, V>(number, rows, all))
    }

    /// The handles that have a value, with it, in the order of their slots. Doesn't allocate, and is O(1).
    pub fn iter(&self) -> HandleIter<'_, T, K, V>
        ensures { result ≡ listed self.now }
    {
        HandleIter::new(self.number, self.rows.as_slice(), self.live)
    }
}

// Adds vacant rows up to a length for which there is room.
fn fill<V>(rows: &mut Vec<Row<V>>, len: usize)
    requires { len ≤ vec_capacity rows.old }
    ensures within { len ≤ length rows.new.items }
    ensures most { (n : ℕ) → len ≤ n → length rows.old.items ≤ n → length rows.new.items ≤ n }
    ensures count { count rows.new.items ≡ count rows.old.items }
    ensures same { (at : ℕ) → row_at rows.new.items at ≡ row_at rows.old.items at }
{
    while rows.len() < len {
        rows.push_reserved(Row::Vacant);
    }
}

// The values of rows with the ids of their handles, in a list that has room for them.
fn values_of<T, K, V: Drop>(
    number: u64,
    mut rows: Vec<Row<V>>,
    mut all: Vec<(GenerationalBoxId, V)>,
) -> Vec<(GenerationalBoxId, V)>
    requires none { all.items ≡ [] }
    requires room { count rows.items ≤ vec_capacity all }
    ensures { result.items ≡ list_map (λ p. (id_in p.0, p.1)) (listed_from {T = T} {K = K} number 0 rows.items) }
{
    for slot in 0..rows.len() {
        let row = mem::replace(&mut rows[slot], Row::Vacant);
        push_value::<T, K, V>(&mut all, number, slot, row);
    }
    all
}

// Adds the value of a slot's row with its handle's id, if the row holds one. There is room for it.
fn push_value<T, K, V: Drop>(
    all: &mut Vec<(GenerationalBoxId, V)>,
    number: u64,
    slot: usize,
    row: Row<V>,
)
    requires { length all.old.items + count (row ∷ []) ≤ vec_capacity all.old }
    ensures pushed { all.new.items ≡ all.old.items
        ++ list_map (λ p. (id_in p.0, p.1)) (listed_from {T = T} {K = K} number slot (row ∷ [])) }
    ensures room { vec_capacity all.new ≡ vec_capacity all.old }
{
    if let Row::Held(_, generation, value) = row {
        all.push_reserved((id_at(number, slot, generation), value));
    }
}
