//! Tables of entities.

ghost use Rattle.std.specs.Prelude.{◌≡◌, ◌↔◌, ◌<◌, ◌+◌, [], ℕ, true, length, None, Some, is_some};
ghost use Rattle.std.specs.Prelude.{IfOk, OnOk, IfErr, OnErr, IsErr, IfSome, IsSomeAnd, IsTrue, slice_get};
ghost use Rattle.std.specs.Prelude.{map as list_map};
ghost use Rattle.std.specs.Borrow.{MutBor};
ghost use Rattle.std.specs.Fn.{FnReturnsAt, FnOnceReturnsAtMut};
ghost use Rattle.generational_core.specs.Conditions.{IsFresh};
ghost use Rattle.generational_errors.specs.declared.error.StoreError.TheVariants.{OutOfMemory};
ghost use Rattle.handles.specs.Handles.{slot_in, IsOther, IsSame};
ghost use Rattle.handles.specs.Sites.{TellsLocation};
ghost use Rattle.handles.specs.Visits.{AreChanged, CalledOn};
ghost use Rattle.entity_table.specs.Tables.{Entity, TableState, created_at, element_in, elements_in};
ghost use Rattle.entity_table.specs.Tables.{IsDense, IsSifted, KeepsEntityLocations, Sifts, WasSpawned};

use crate::component_set::ComponentSet;
use crate::entity::{Entity, EntityKind};
use crate::walk::Iter;
use generational_core::{HandedBack, Location, Refusal, Storage, StoreError};
use handles::Stale;
use handles::parts::{HandleMap, Sites, handle_at, number_of, peek, pointer_to, site_of};
use std::alloc::Global;
use std::marker::Model;

/// Entities, each with an element. Contracts model it as the machine's state, which says which element
/// each entity has, the live entities in the order of their slots, and the locations where entities were
/// made.
#[derive(Drop)]
pub struct EntityTable<T, S: Storage<T>> {
    pub(crate) store: S,
    // the generation and the site of each live entity, by its slot
    pub(crate) rows: HandleMap<T, EntityKind, ()>,
    pub(crate) sites: Sites,
}

impl<T, S: Storage<T>> Model for EntityTable<T, S> {
    ghost use Rattle.std.specs.Coded.{codes};
    ghost use Rattle.std.specs.FinMap as map;
    ghost use Rattle.std.specs.Prelude.{map as list_map};
    ghost use Rattle.handles.specs.Maps.{listed};
    ghost use Rattle.handles.specs.Sites.{told_in};
    ghost use Rattle.entity_table.specs.Tables.{TableState};
    ghost use Rattle.entity_table.specs.Keeping.{IsTableKept};

    ghost Value = { TableState T };

    ghost coded = { Prim.hlevel (codes, map.code) };

    ghost view = { λ t. record {
      state = S.state t.store;
      rows = list_map (λ p. p.0) (listed t.rows);
      sites = told_in t.sites;
    } };

    ghost invariant = { λ t. IsTableKept (S.state t.store) t.rows };
}

impl<T, S: Storage<T>> EntityTable<T, S> {
    /// Creates a table without entities, over a fresh store (see `is_fresh`). Doesn't allocate.
    ///
    /// ```rust
    /// let store = UnsyncStorage::<u64>::new(rt.alloc(), 1);
    /// let mut table = EntityTable::new(rt.alloc(), store);
    /// ```
    pub fn new(alloc: Global, store: S) -> Self
        requires { IsFresh (S.state store) }
        ensures table { result ≡ record { state = S.state store; rows = []; sites = [] } }
        ensures none { (e : Entity T) → element_in result e ≡ None }
    {
        let number = store.number();
        EntityTable {
            store,
            rows: HandleMap::new(alloc, number),
            sites: Sites::new(alloc),
        }
    }

    /// The number of the table's store, which is part of its handles. Doesn't allocate.
    ///
    /// ```rust
    /// let number = table.number();
    /// ```
    pub fn number(&self) -> u64
        ensures { result ≡ self.now.state.number }
    {
        self.rows.number()
    }

    /// Makes room for more entities in the table's own list: the next `additional` calls of `spawn` don't
    /// allocate there, only in the store, or for a location from which no entity came yet. Every entity is
    /// unchanged. O(additional).
    ///
    /// # Errors
    ///
    /// `OutOfMemory` is the only possible error.
    ///
    /// ```rust
    /// table.reserve(100)?;
    /// ```
    pub fn reserve(&mut self, additional: usize) -> Result<(), StoreError>
        ensures same { self.new ≡ self.old }
        ensures short { IfErr result (λ cause. cause ≡ OutOfMemory) }
    {
        if additional == 0 {
            return Ok(());
        }
        let last = self.store.slots().saturating_add(additional - 1);
        if self.rows.reserve(last) {
            Ok(())
        } else {
            Err(StoreError::OutOfMemory)
        }
    }

    /// Adds an entity with this element, and returns its handle, which was never issued before. Every
    /// other entity is unchanged. The table says for its whole lifetime where the entity was made.
    /// Amortised O(1). Allocates only if no slot is free, or for a location from which no entity came
    /// yet.
    ///
    /// # Errors
    ///
    /// `OutOfMemory` is the only possible error. The element comes back, and the table is unchanged.
    ///
    /// ```rust
    /// let entity = table.spawn(7, here)?;
    /// ```
    #[inline(always)]
    pub fn spawn(&mut self, element: T, here: Location) -> Result<Entity<T>, Refusal<T>>
        ensures shown { IfOk result (λ e. element_in self.new e ≡ Some element) }
        ensures others { IfOk result (λ e. (f : Entity T) → IsOther e f →
            element_in self.new f ≡ element_in self.old f) }
        ensures left { (f : Entity T) → WasSpawned self.old f →
            element_in self.new f ≡ element_in self.old f }
        ensures new { IfOk result (λ e. WasSpawned self.old e → ⊥) }
        ensures spawned { IfOk result (λ e. WasSpawned self.new e) }
        ensures here { IfOk result (λ e. TellsLocation (created_at self.new e) here) }
        ensures tells { KeepsEntityLocations self.old self.new }
        ensures rows { OnOk result (length self.new.rows ≡ length self.old.rows + 1) }
        ensures kept { (f : Entity T) → WasSpawned self.old f → WasSpawned self.new f }
        ensures refused { OnErr result (self.new ≡ self.old) }
        ensures back { IfErr result (λ refusal. refusal.value ≡ element) }
        ensures cause { IfErr result (λ refusal. refusal.cause ≡ OutOfMemory) }
    {
        let slots = self.store.slots();
        if !self.rows.reserve(slots) {
            return Err(lacking(element));
        }
        let Ok(site) = self.sites.find_or_add(here) else {
            return Err(lacking(element));
        };
        let raw = self.store.new(element, here, None)?;
        let entity = handle_at(raw.id, site);
        self.sites.tell(site);
        self.rows.put(entity, ());
        Ok(entity)
    }

    /// Removes an entity and drops its element. The handle is stale from then on, and never refers to a
    /// later entity. Every other entity is unchanged. Doesn't allocate, and is O(1).
    ///
    /// # Errors
    ///
    /// `Stale` if the entity was removed, or belongs to another table. The table is unchanged then.
    ///
    /// ```rust
    /// table.despawn(entity)?;
    /// ```
    #[inline(always)]
    pub fn despawn(&mut self, entity: Entity<T>) -> Result<(), Stale>
        ensures gone { element_in self.new entity ≡ None }
        ensures others { (f : Entity T) → IsOther entity f →
            element_in self.new f ≡ element_in self.old f }
        ensures rows { OnOk result (length self.new.rows + 1 ≡ length self.old.rows) }
        ensures kept { (f : Entity T) → WasSpawned self.old f → WasSpawned self.new f }
        ensures tells { (f : Entity T) → created_at self.new f ≡ created_at self.old f }
        ensures stale { IsErr result ↔ element_in self.old entity ≡ None }
        ensures told { IfErr result (λ stale. stale.created_at ≡ created_at self.old entity) }
        ensures refused { OnErr result (self.new ≡ self.old) }
    {
        if self.rows.take(entity).is_none() {
            return Err(self.stale(entity));
        }
        match self.store.recycle(pointer_to(entity)) {
            Ok(()) => Ok(()),
            Err(_) => unreachable!(),
        }
    }

    /// Removes an entity like [`EntityTable::despawn`], and drops its components in a set of component
    /// tables: one, or a tuple of them. Every other component is unchanged. Doesn't allocate, and is O(k)
    /// for k tables.
    ///
    /// # Errors
    ///
    /// `Stale` if the entity was removed, or belongs to another table. The table and the component tables
    /// are unchanged then.
    ///
    /// ```rust
    /// let mut components = (names, scores);
    /// table.despawn_with(entity, &mut components)?;
    /// ```
    pub fn despawn_with<C: ComponentSet<T>>(
        &mut self,
        entity: Entity<T>,
        components: &mut C,
    ) -> Result<(), Stale>
        ensures gone { element_in self.new entity ≡ None }
        ensures others { (f : Entity T) → IsOther entity f →
            element_in self.new f ≡ element_in self.old f }
        ensures dropped { OnOk result (C.has_none components.new entity) }
        ensures beside { OnOk result ((f : Entity T) → IsOther entity f →
            C.has_same components.old components.new f) }
        ensures rows { OnOk result (length self.new.rows + 1 ≡ length self.old.rows) }
        ensures kept { (f : Entity T) → WasSpawned self.old f → WasSpawned self.new f }
        ensures tells { (f : Entity T) → created_at self.new f ≡ created_at self.old f }
        ensures stale { IsErr result ↔ element_in self.old entity ≡ None }
        ensures told { IfErr result (λ stale. stale.created_at ≡ created_at self.old entity) }
        ensures refused { OnErr result (self.new ≡ self.old) }
        ensures refused_components { OnErr result (components.new ≡ components.old) }
    {
        self.despawn(entity)?;
        components.remove_in_all(entity);
        Ok(())
    }

    /// Removes an entity and returns its element. The handle is stale from then on, and never refers to
    /// a later entity. Every other entity is unchanged. Doesn't allocate, and is O(1).
    ///
    /// # Errors
    ///
    /// `Stale` if the entity was removed, or belongs to another table. The table is unchanged then.
    ///
    /// ```rust
    /// let element = table.take(entity).ok()?;
    /// ```
    pub fn take(&mut self, entity: Entity<T>) -> Result<T, Stale>
        ensures taken { IfOk result (λ element. element_in self.old entity ≡ Some element) }
        ensures gone { element_in self.new entity ≡ None }
        ensures others { (f : Entity T) → IsOther entity f →
            element_in self.new f ≡ element_in self.old f }
        ensures rows { OnOk result (length self.new.rows + 1 ≡ length self.old.rows) }
        ensures kept { (f : Entity T) → WasSpawned self.old f → WasSpawned self.new f }
        ensures tells { (f : Entity T) → created_at self.new f ≡ created_at self.old f }
        ensures stale { IsErr result ↔ element_in self.old entity ≡ None }
        ensures told { IfErr result (λ stale. stale.created_at ≡ created_at self.old entity) }
        ensures refused { OnErr result (self.new ≡ self.old) }
    {
        if self.rows.take(entity).is_none() {
            return Err(self.stale(entity));
        }
        match self.store.take_value(pointer_to(entity)) {
            Some(element) => Ok(element),
            None => unreachable!(),
        }
    }

    /// Replaces an entity's element, and drops the old one. Every other entity is unchanged. Doesn't
    /// allocate, and is O(1) except for dropping the old element.
    ///
    /// # Errors
    ///
    /// `Stale` if the entity was removed, or belongs to another table. The element comes back, and the
    /// table is unchanged.
    ///
    /// ```rust
    /// if let Err(refusal) = table.set(entity, 9) {
    ///     println!(rt; "{refusal}, and {} comes back", refusal.value)?;
    /// }
    /// ```
    pub fn set(&mut self, entity: Entity<T>, element: T) -> Result<(), HandedBack<T, Stale>>
    where
        T: Drop,
        ensures shown { OnOk result (element_in self.new entity ≡ Some element) }
        ensures others { (f : Entity T) → IsOther entity f →
            element_in self.new f ≡ element_in self.old f }
        ensures rows { self.new.rows ≡ self.old.rows }
        ensures kept { (f : Entity T) → WasSpawned self.old f → WasSpawned self.new f }
        ensures tells { (f : Entity T) → created_at self.new f ≡ created_at self.old f }
        ensures stale { IsErr result ↔ element_in self.old entity ≡ None }
        ensures told { IfErr result (λ refusal. refusal.cause.created_at ≡ created_at self.old entity) }
        ensures back { IfErr result (λ refusal. refusal.value ≡ element) }
        ensures refused { OnErr result (self.new ≡ self.old) }
    {
        if !self.is_alive(entity) {
            let cause = self.stale(entity);
            return Err(HandedBack {
                value: element,
                cause,
            });
        }
        self.store.replace_value(pointer_to(entity), element);
        Ok(())
    }

    /// Calls a closure once on an entity's element, mutably, and returns the closure's result. Every
    /// other entity is unchanged. Doesn't allocate itself, and is O(1) except for the closure.
    ///
    /// # Errors
    ///
    /// `Stale` if the entity was removed, or belongs to another table. The closure isn't called then,
    /// and the table is unchanged.
    ///
    /// ```rust
    /// let doubled = table.update(entity, |element: &mut u64| {
    ///     *element = element.wrapping_mul(2);
    ///     *element
    /// })?;
    /// ```
    pub fn update<R, F: FnOnce(&mut T) -> R>(&mut self, entity: Entity<T>, f: F) -> Result<R, Stale>
        requires { (element : MutBor T) →
            element_in self.old entity ≡ Some element.now → F.pre f element }
        ensures changed { IfOk result (λ answer. (old : T) × (new : T)
            × (element_in self.old entity ≡ Some old)
            × FnOnceReturnsAtMut F.FnOnce f old answer new
            × (element_in self.new entity ≡ Some new)) }
        ensures others { (e : Entity T) → IsOther entity e →
            element_in self.new e ≡ element_in self.old e }
        ensures rows { self.new.rows ≡ self.old.rows }
        ensures kept { (e : Entity T) → WasSpawned self.old e → WasSpawned self.new e }
        ensures tells { (e : Entity T) → created_at self.new e ≡ created_at self.old e }
        ensures stale { IsErr result ↔ element_in self.old entity ≡ None }
        ensures told { IfErr result (λ stale. stale.created_at ≡ created_at self.old entity) }
        ensures refused { OnErr result (self.new ≡ self.old) }
    {
        if !self.is_alive(entity) {
            return Err(self.stale(entity));
        }
        Ok(self.store.change_value(pointer_to(entity), f))
    }

    /// Calls a closure once on each live entity and its element, in the order of their slots: those that
    /// [`EntityTable::iter`] yields. The closure changes an element in place, and may change what it
    /// captures. Never fails. Doesn't allocate itself, and is O(n) for n slots, not counting the
    /// closure.
    ///
    /// ```rust
    /// table.for_each_mut(|_, element: &mut u64| *element = element.wrapping_add(1));
    /// ```
    pub fn for_each_mut<F: FnMut(Entity<T>, &mut T)>(&mut self, mut f: F)
        requires { F.IsAlwaysCallable f }
        ensures visited { (last : F) × AreChanged (CalledOn F.FnMut) f (elements_in self.old)
            (elements_in self.new) last }
        ensures rows { self.new.rows ≡ self.old.rows }
        ensures kept { (e : Entity T) → WasSpawned self.old e → WasSpawned self.new e }
        ensures tells { (e : Entity T) → created_at self.new e ≡ created_at self.old e }
    {
        let mut rows = self.rows.iter();
        while let Some((entity, _)) = rows.next() {
            f = self.store.change_value(
                pointer_to(entity),
                move |element: &mut T|
                    requires { F.IsAlwaysCallable f }
                    ensures callable { F.IsAlwaysCallable result }
                    ensures called { CalledOn F.FnMut f entity element.old element.new result }
                { called(f, entity, element) },
            );
        }
    }

    /// Iterates over the live entities with their elements, each once, in the order of their slots.
    /// Doesn't allocate, and is O(1); the whole iteration is O(n) for n slots.
    ///
    /// ```rust
    /// for (entity, element) in table.iter() {
    ///     println!(rt; "{entity:?} has {element}")?;
    /// }
    /// ```
    pub fn iter(&self) -> Iter<'_, T, S>
        ensures rows { list_map (λ p. p.0) result ≡ self.now.rows }
        ensures shown { (row : ℕ) (e : Entity T) (v : T) →
            slice_get result row ≡ Some (e, v) → element_in self.now e ≡ Some v }
        ensures dense { IsDense self.now }
    {
        Iter {
            store: &self.store,
            rows: self.rows.iter(),
        }
    }

    /// Borrows an entity's element. Doesn't allocate, and is O(1).
    ///
    /// # Errors
    ///
    /// `Stale` if the entity was removed, or belongs to another table.
    ///
    /// ```rust
    /// let element = *table.get(entity)?;
    /// ```
    #[inline(always)]
    pub fn get(&self, entity: Entity<T>) -> Result<&T, Stale>
        ensures seen { IfOk result (λ element. element_in self.now entity ≡ Some element.now) }
        ensures stale { IsErr result ↔ element_in self.now entity ≡ None }
        ensures told { IfErr result (λ stale. stale.created_at ≡ created_at self.now entity) }
    {
        match peek(&self.store, entity) {
            Some(element) => Ok(element),
            None => Err(self.stale(entity)),
        }
    }

    /// Where an entity was made, even after it was removed; None for an entity of another table. Doesn't
    /// allocate, and is O(1).
    ///
    /// ```rust
    /// if let Some(created_at) = table.created_at(entity) {
    ///     println!(rt; "made at {created_at}")?;
    /// }
    /// ```
    pub fn created_at(&self, entity: Entity<T>) -> Option<Location>
        ensures { result ≡ created_at self.now entity }
    {
        if number_of(entity) != self.rows.number() {
            return None;
        }
        self.sites.get(site_of(entity))
    }

    // The error for a stale handle, with the location where its entity was made.
    #[cold]
    #[inline(never)]
    fn stale(&self, entity: Entity<T>) -> Stale
        ensures { result.created_at ≡ created_at self.now entity }
    {
        Stale {
            created_at: self.created_at(entity),
        }
    }

    /// Whether an entity is live: false if it was removed, or if it is of another table whose store has
    /// another number. Doesn't allocate, and is O(1).
    ///
    /// ```rust
    /// let is_there = table.is_alive(entity);
    /// ```
    #[inline(always)]
    pub fn is_alive(&self, entity: Entity<T>) -> bool
        ensures { result ≡ is_some (element_in self.now entity) }
    {
        peek(&self.store, entity).is_some()
    }

    // Whether an entity is live. If so, no other live entity has its slot.
    #[inline(always)]
    pub(crate) fn has_slot(&self, entity: Entity<T>) -> bool
        ensures live { result ≡ is_some (element_in self.now entity) }
        ensures alone { IsTrue result → (e : Entity T) →
            is_some (element_in self.now e) ≡ true → slot_in entity ≡ slot_in e → IsSame entity e }
    {
        self.rows.get(entity).is_some()
    }

    /// How many entities are live. Doesn't allocate, and is O(1).
    ///
    /// ```rust
    /// println!(rt; "{} are live", table.len())?;
    /// ```
    pub fn len(&self) -> usize
        ensures { result ≡ length self.now.rows }
    {
        self.rows.len()
    }

    /// Whether no entity is live. Doesn't allocate, and is O(1).
    ///
    /// ```rust
    /// let is_over = table.is_empty();
    /// ```
    pub fn is_empty(&self) -> bool
        ensures { IsTrue result ↔ self.now.rows ≡ [] }
    {
        self.rows.len() == 0
    }

    /// How many slots there are: the slot of each live entity is lower. A loop that changes the table
    /// counts slots and calls [`EntityTable::at`], since an iterator keeps the table borrowed. Doesn't
    /// allocate, and is O(1).
    ///
    /// ```rust
    /// for slot in 0..table.slots() {
    ///     if let Some(entity) = table.at(slot) {
    ///         table.set(entity, 0)?;
    ///     }
    /// }
    /// ```
    pub fn slots(&self) -> usize
        ensures { (e : Entity T) → is_some (element_in self.now e) ≡ true → slot_in e < result }
    {
        self.rows.slots()
    }

    /// The live entity of a slot, if it has one. Doesn't allocate, and is O(1).
    ///
    /// ```rust
    /// let first = table.at(0);
    /// ```
    #[inline(always)]
    pub fn at(&self, slot: usize) -> Option<Entity<T>>
        ensures live { IfSome result (λ e. (slot_in e ≡ slot)
            × (is_some (element_in self.now e) ≡ true)) }
        ensures every { (f : Entity T) → is_some (element_in self.now f) ≡ true → slot_in f ≡ slot →
            IsSomeAnd result (λ e. IsSame e f) }
    {
        self.rows.at(slot)
    }

    /// Removes each entity whose element fails a test, in the order of their slots. Every other entity
    /// is unchanged. Never fails. Doesn't allocate, and is O(n) for n slots.
    ///
    /// ```rust
    /// table.retain(|element| *element < 100);
    /// ```
    pub fn retain<F: Fn(&T) -> bool>(&mut self, test: F)
        requires { F.IsAlwaysCallable test }
        ensures sifted { (e : Entity T) (v : T) → element_in self.old e ≡ Some v →
            IsSifted (FnReturnsAt F.Fn test) v (element_in self.new e) }
        ensures none { (e : Entity T) → element_in self.old e ≡ None →
            element_in self.new e ≡ None }
        ensures kept { (f : Entity T) → WasSpawned self.old f → WasSpawned self.new f }
        ensures tells { (f : Entity T) → created_at self.new f ≡ created_at self.old f }
    {
        for slot in 0..self.slots() {
            self.sift_slot(slot, &test);
        }
    }

    // Removes the entity of a slot if it fails a test. The slots before it were tested.
    fn sift_slot<F: Fn(&T) -> bool>(&mut self, slot: usize, test: &F)
        requires { F.IsAlwaysCallable test.now }
        ensures { (first : TableState T) →
            Sifts (FnReturnsAt F.Fn test.now) first self.old slot →
            Sifts (FnReturnsAt F.Fn test.now) first self.new (slot + 1) }
    {
        let Some(entity) = self.at(slot) else {
            return;
        };
        if self.passes(entity, test) {
            return;
        }
        match self.despawn(entity) {
            Ok(()) => {}
            Err(_) => unreachable!(),
        }
    }

    // Whether a live entity passes a test.
    fn passes<F: Fn(&T) -> bool>(&self, entity: Entity<T>, test: &F) -> bool
        requires callable { F.IsAlwaysCallable test.now }
        requires live { is_some (element_in self.now entity) ≡ true }
        ensures { (v : T) × (element_in self.now entity ≡ Some v)
            × FnReturnsAt F.Fn test.now v result }
    {
        match self.get(entity) {
            Ok(element) => test(element),
            Err(_) => unreachable!(),
        }
    }

    /// Removes all entities and drops their elements, in the order of their slots. Never fails. Doesn't
    /// allocate, and is O(n) for n slots.
    ///
    /// ```rust
    /// table.clear();
    /// ```
    pub fn clear(&mut self)
        ensures gone { (e : Entity T) → element_in self.new e ≡ None }
        ensures rows { self.new.rows ≡ [] }
        ensures kept { (f : Entity T) → WasSpawned self.old f → WasSpawned self.new f }
        ensures tells { (f : Entity T) → created_at self.new f ≡ created_at self.old f }
    {
        for slot in 0..self.slots() {
            self.clear_slot(slot);
        }
        // There are no rows if there are no entities.
        let _ = self.iter();
    }

    // Removes the entity of a slot, if it has one.
    fn clear_slot(&mut self, slot: usize)
        ensures gone { (e : Entity T) → slot_in e ≡ slot → element_in self.new e ≡ None }
        ensures none { (e : Entity T) → element_in self.old e ≡ None → element_in self.new e ≡ None }
        ensures kept { (f : Entity T) → WasSpawned self.old f → WasSpawned self.new f }
        ensures tells { (f : Entity T) → created_at self.new f ≡ created_at self.old f }
    {
        if let Some(entity) = self.at(slot) {
            let _ = self.despawn(entity);
        }
    }
}

// A closure after a call on an entity and its element.
#[inline(always)]
fn called<T, F: FnMut(Entity<T>, &mut T)>(mut f: F, entity: Entity<T>, element: &mut T) -> F
    requires { F.IsAlwaysCallable f }
    ensures callable { F.IsAlwaysCallable result }
    ensures called { CalledOn F.FnMut f entity element.old element.new result }
{
    f(entity, element);
    f
}

// The error for an element that couldn't be stored because memory ran out.
fn lacking<T>(element: T) -> Refusal<T>
    ensures value { result.value ≡ element }
    ensures cause { result.cause ≡ OutOfMemory }
{
    Refusal {
        value: element,
        cause: StoreError::OutOfMemory,
    }
}
