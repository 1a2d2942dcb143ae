//! Tables of components, in addition to a table of entities.

ghost use Rattle.std.specs.Prelude.{◌≡◌, ◌≢◌, ◌↔◌, ◌<◌, ◌+◌, ℕ, None, Some, is_some, option_copied, true};
ghost use Rattle.std.specs.Prelude.{OnOk, IfErr, OnErr, IsErrAnd, IfSome, IfNone, IsTrue, slice_get, length};
ghost use Rattle.std.specs.Prelude.{map as list_map};
ghost use Rattle.std.specs.Borrow.{MutBor};
ghost use Rattle.std.specs.Fn.{FnReturnsAt, FnOnceReturnsAtMut};
ghost use Rattle.std.specs.List.Sorted.{IsStrictlyIncreasing};
ghost use Rattle.generational_errors.specs.declared.error.StoreError.TheVariants.{OutOfMemory};
ghost use Rattle.handles.specs.declared.map.Row.TheVariants.{Vacant};
ghost use Rattle.handles.specs.Handles.{slot_in, IsOther, IsSame};
ghost use Rattle.handles.specs.Maps.{MapState, both, count, listed, row_at};
ghost use Rattle.handles.specs.Visits.{AreChanged, CalledOn, CalledOnBoth};
ghost use Rattle.entity_table.specs.declared.entity.EntityKind.{EntityKind};
ghost use Rattle.entity_table.specs.declared.components.AttachError.TheVariants as attach;
ghost use Rattle.entity_table.specs.Components.{component_in};
ghost use Rattle.entity_table.specs.Sweeping.{SiftsComponents, Sweeps};
ghost use Rattle.entity_table.specs.Tables.{Entity, IsSifted, created_at, element_in};

use crate::entity::{Entity, EntityKind};
use crate::table::EntityTable;
use crate::walk::{ComponentIter, Join};
use generational_core::{HandedBack, Storage, StoreError};
use handles::Stale;
use handles::parts::{HandleMap, number_of, slot_of};
use std::alloc::Global;
use std::error::Error;
use std::fmt;
use std::marker::Model;

/// Why a component can't be attached.
#[derive(Clone, Copy, Debug, PartialEq, Eq)]
pub enum AttachError {
    /// The entity was removed, or belongs to another table.
    Stale(Stale),
    /// Out of memory.
    Store(StoreError),
}

/// Prints the text of what it holds.
impl fmt::Display for AttachError {
    ghost use Rattle.std.specs.Prelude.{Some};
    ghost use Rattle.entity_table.specs.Texts.{attach_error_text};

    ghost output = { λ it. Some (attach_error_text it) };

    fn fmt<W: fmt::Write>(&self, f: &mut fmt::Formatter<W>) -> fmt::Result {
        match self {
            AttachError::Stale(stale) => write!(f, "{stale}"),
            AttachError::Store(cause) => write!(f, "{cause}"),
        }
    }
}

impl Error for AttachError {}

/// Components of one type, at most one for each entity of one [`EntityTable`]. Contracts model it as the
/// number of that table, and the component of each slot.
///
/// A removed entity keeps its component until the component is removed or swept, or until a later entity
/// of the same slot gets one.
#[derive(Drop)]
pub struct ComponentTable<T, C> {
    pub(crate) map: HandleMap<T, EntityKind, C>,
}

impl<T, C> Model for ComponentTable<T, C> {
    ghost use Rattle.handles.specs.Maps.{MapState};

    ghost Value = { MapState C };

    ghost view = { λ t. t.map };
}

impl<T, C> ComponentTable<T, C> {
    /// Creates a table without components, for the entities of a table. Doesn't allocate.
    ///
    /// ```rust
    /// let mut names = ComponentTable::new(rt.alloc(), &table);
    /// ```
    pub fn new<E: Storage<T>>(alloc: Global, table: &EntityTable<T, E>) -> Self
        ensures number { result.number ≡ table.now.state.number }
        ensures none { (e : Entity T) → component_in result e ≡ None }
    {
        ComponentTable {
            map: HandleMap::new(alloc, table.number()),
        }
    }

    /// Makes room for the components of entities whose slots are lower than a number, such as
    /// [`EntityTable::slots`]: inserting those doesn't allocate. Every component is unchanged. O(slots).
    ///
    /// # Errors
    ///
    /// `OutOfMemory` is the only possible error.
    ///
    /// ```rust
    /// names.reserve(table.slots())?;
    /// ```
    pub fn reserve(&mut self, slots: usize) -> Result<(), StoreError>
        ensures same { (e : Entity T) → component_in self.new e ≡ component_in self.old e }
        ensures number { self.new.number ≡ self.old.number }
        ensures short { IfErr result (λ cause. cause ≡ OutOfMemory) }
    {
        if slots == 0 || self.map.reserve(slots - 1) {
            Ok(())
        } else {
            Err(StoreError::OutOfMemory)
        }
    }

    /// Sets an entity's component, and drops the one that its slot had. The components of other slots
    /// are unchanged; any other entity of this slot loses its component. If `entity` is stale, that is
    /// the slot's current entity: `attach` checks for it. Amortised O(1) if slots come in order, and
    /// O(n) if the table grows by n slots.
    ///
    /// # Errors
    ///
    /// - `Stale` without a location if the entity belongs to another table.
    /// - `Store` of `OutOfMemory`, only if the slot has no component yet.
    ///
    /// The component comes back then, and every component is unchanged.
    ///
    /// ```rust
    /// names.insert(entity, 200)?;
    /// ```
    #[inline(always)]
    pub fn insert(
        &mut self,
        entity: Entity<T>,
        component: C,
    ) -> Result<(), HandedBack<C, AttachError>>
    where
        C: Drop,
        ensures shown { OnOk result (component_in self.new entity ≡ Some component) }
        ensures others { (e : Entity T) → slot_in entity ≢ slot_in e →
            component_in self.new e ≡ component_in self.old e }
        ensures lost { OnOk result ((e : Entity T) → slot_in entity ≡ slot_in e →
            IsOther entity e → component_in self.new e ≡ None) }
        ensures foreign { entity.store ≢ self.old.number → IsErrAnd result (λ refusal.
            refusal.cause ≡ attach.Stale (record { created_at = None })) }
        ensures short { entity.store ≡ self.old.number → IfErr result (λ refusal.
            (refusal.cause ≡ attach.Store OutOfMemory)
            × (row_at self.old.rows (slot_in entity) ≡ Vacant)) }
        ensures refused { OnErr result ((e : Entity T) →
            component_in self.new e ≡ component_in self.old e) }
        ensures back { IfErr result (λ refusal. refusal.value ≡ component) }
        ensures number { self.new.number ≡ self.old.number }
    {
        if number_of(entity) != self.map.number() {
            let cause = AttachError::Stale(Stale { created_at: None });
            return Err(HandedBack {
                value: component,
                cause,
            });
        }
        if !self.map.reserve(slot_of(entity)) {
            let cause = AttachError::Store(StoreError::OutOfMemory);
            return Err(HandedBack {
                value: component,
                cause,
            });
        }
        self.map.put(entity, component);
        Ok(())
    }

    /// Sets a live entity's component, and drops the one that it had. The component of every other live
    /// entity of that table is unchanged, and so is that of every other slot; an earlier entity of this
    /// slot loses its component. Amortised O(1) if slots come in order, and O(n) if the table grows by n
    /// slots.
    ///
    /// # Errors
    ///
    /// - `Stale` if the entity was removed, or belongs to another table, with the location where it was
    ///   made if the table has it.
    /// - `Stale` without a location if the components are those of another table.
    /// - `Store` of `OutOfMemory`, only if the slot has no component yet.
    ///
    /// The component comes back then, and every component is unchanged.
    ///
    /// ```rust
    /// names.attach(table, entity, 100)?;
    /// ```
    pub fn attach<E: Storage<T>>(
        &mut self,
        table: &EntityTable<T, E>,
        entity: Entity<T>,
        component: C,
    ) -> Result<(), HandedBack<C, AttachError>>
    where
        C: Drop,
        ensures shown { OnOk result (component_in self.new entity ≡ Some component) }
        ensures kept { (e : Entity T) → is_some (element_in table.now e) ≡ true →
            IsOther entity e → component_in self.new e ≡ component_in self.old e }
        ensures others { (e : Entity T) → slot_in entity ≢ slot_in e →
            component_in self.new e ≡ component_in self.old e }
        ensures lost { OnOk result ((e : Entity T) → slot_in entity ≡ slot_in e →
            IsOther entity e → component_in self.new e ≡ None) }
        ensures stale { element_in table.now entity ≡ None → IsErrAnd result (λ refusal.
            refusal.cause ≡ attach.Stale (record { created_at = created_at table.now entity })) }
        ensures foreign { is_some (element_in table.now entity) ≡ true →
            entity.store ≢ self.old.number → IsErrAnd result (λ refusal.
            refusal.cause ≡ attach.Stale (record { created_at = None })) }
        ensures short { is_some (element_in table.now entity) ≡ true →
            entity.store ≡ self.old.number → IfErr result (λ refusal.
            (refusal.cause ≡ attach.Store OutOfMemory)
            × (row_at self.old.rows (slot_in entity) ≡ Vacant)) }
        ensures refused { OnErr result ((e : Entity T) →
            component_in self.new e ≡ component_in self.old e) }
        ensures back { IfErr result (λ refusal. refusal.value ≡ component) }
        ensures number { self.new.number ≡ self.old.number }
    {
        if !table.has_slot(entity) {
            let created_at = table.created_at(entity);
            return Err(HandedBack {
                value: component,
                cause: AttachError::Stale(Stale { created_at }),
            });
        }
        self.insert(entity, component)
    }

    /// Borrows an entity's component; None if it has none. Doesn't allocate, and is O(1).
    ///
    /// ```rust
    /// if let Some(name) = names.get(entity) {
    ///     println!(rt; "{entity:?} is named {name}")?;
    /// }
    /// ```
    #[inline(always)]
    pub fn get(&self, entity: Entity<T>) -> Option<&C>
        ensures { option_copied result ≡ component_in self.now entity }
    {
        self.map.get(entity)
    }

    /// Calls a closure once on an entity's component, mutably, and returns the closure's result. Every
    /// other component is unchanged. Doesn't allocate itself, and is O(1) except for the closure.
    ///
    /// None if the entity has no component: the closure isn't called, and the table is unchanged.
    ///
    /// ```rust
    /// names.update(entity, |name: &mut u64| *name = name.wrapping_add(1));
    /// ```
    #[inline(always)]
    pub fn update<R, F: FnOnce(&mut C) -> R>(&mut self, entity: Entity<T>, f: F) -> Option<R>
        requires { (component : MutBor C) →
            component_in self.old entity ≡ Some component.now → F.pre f component }
        ensures changed { IfSome result (λ answer. (old : C) × (new : C)
            × (component_in self.old entity ≡ Some old)
            × FnOnceReturnsAtMut F.FnOnce f old answer new
            × (component_in self.new entity ≡ Some new)) }
        ensures had { is_some result ≡ is_some (component_in self.old entity) }
        ensures others { (e : Entity T) → IsOther entity e →
            component_in self.new e ≡ component_in self.old e }
        ensures none { IfNone result (self.new ≡ self.old) }
        ensures number { self.new.number ≡ self.old.number }
    {
        self.map.change(entity, f)
    }

    /// Calls a closure once on each component with its entity, in the order of the entities' slots:
    /// those that [`ComponentTable::iter`] yields. The closure changes a component in place, and may
    /// change what it captures. Never fails. Doesn't allocate itself, and is O(n) for n slots, not
    /// counting the closure.
    ///
    /// ```rust
    /// names.for_each_mut(|_, name: &mut u64| *name = name.wrapping_add(1));
    /// ```
    pub fn for_each_mut<F: FnMut(Entity<T>, &mut C)>(&mut self, f: F)
        requires { F.IsAlwaysCallable f }
        ensures visited { (last : F) × AreChanged (CalledOn F.FnMut) f (listed {T = T} {K = EntityKind} self.old)
            (listed {T = T} {K = EntityKind} self.new) last }
        ensures number { self.new.number ≡ self.old.number }
    {
        self.map.for_each_mut(f);
    }

    /// Calls a closure once on each entity that has a component in this table and in another, with both
    /// components, in the order of the entities' slots. The closure changes components in place, and may
    /// change what it captures. A component without a partner in the other table is unchanged. Never
    /// fails; if the two tables are of different entity tables, it calls nothing. Doesn't allocate
    /// itself, and is O(n), where n is the smaller number of slots, not counting the closure.
    ///
    /// ```rust
    /// places.for_each2_mut(&mut speeds, |_, place: &mut u64, speed: &mut u64| {
    ///     *place = place.wrapping_add(*speed);
    /// });
    /// ```
    pub fn for_each2_mut<D, F: FnMut(Entity<T>, &mut C, &mut D)>(
        &mut self,
        other: &mut ComponentTable<T, D>,
        f: F,
    )
        requires { F.IsAlwaysCallable f }
        ensures visited { (last : F) × AreChanged (CalledOnBoth F.FnMut) f
            (both {T = T} {K = EntityKind} self.old other.old)
            (both {T = T} {K = EntityKind} self.new other.new) last }
        ensures first { (e : Entity T) → component_in other.old e ≡ None →
            component_in self.new e ≡ component_in self.old e }
        ensures second { (e : Entity T) → component_in self.old e ≡ None →
            component_in other.new e ≡ component_in other.old e }
        ensures numbers { (self.new.number ≡ self.old.number) × (other.new.number ≡ other.old.number) }
    {
        self.map.for_each2_mut(&mut other.map, f);
    }

    /// Iterates over the components with their entities, in the order of the entities' slots, each once.
    /// Doesn't allocate, and is O(1); the whole iteration is O(n) for n slots.
    ///
    /// ```rust
    /// for (entity, name) in names.iter() {
    ///     println!(rt; "{entity:?} is named {name}")?;
    /// }
    /// ```
    pub fn iter(&self) -> ComponentIter<'_, T, C>
        ensures shown { (i : ℕ) (e : Entity T) (c : C) → slice_get result i ≡ Some (e, c) →
            component_in self.now e ≡ Some c }
        ensures every { (e : Entity T) (c : C) → component_in self.now e ≡ Some c →
            (i : ℕ) × (f : Entity T) × (slice_get result i ≡ Some (f, c)) × IsSame f e }
        ensures ordered { IsStrictlyIncreasing (list_map (λ p. slot_in p.0) result) }
        ensures count { length result ≡ count self.now.rows }
    {
        self.map.iter()
    }

    /// Iterates over the live entities of a table that have a component, each once with its element and
    /// its component, in the order of the entities' slots. Doesn't allocate, and is O(1); the whole
    /// iteration is O(n) for n slots.
    ///
    /// ```rust
    /// for (entity, element, name) in names.join(table) {
    ///     println!(rt; "{entity:?} has {element}, and is named {name}")?;
    /// }
    /// ```
    pub fn join<'a, E: Storage<T>>(&'a self, table: &'a EntityTable<T, E>) -> Join<'a, T, C, E>
        ensures shown { (i : ℕ) (e : Entity T) (v : T) (c : C) → slice_get result i ≡ Some (e, v, c) →
            (element_in table.now e ≡ Some v) × (component_in self.now e ≡ Some c) }
        ensures every { (e : Entity T) (v : T) (c : C) → element_in table.now e ≡ Some v →
            component_in self.now e ≡ Some c → (i : ℕ) × (f : Entity T)
            × (slice_get result i ≡ Some (f, v, c)) × IsSame f e }
        ensures ordered { IsStrictlyIncreasing (list_map (λ p. slot_in p.0) result) }
    {
        Join {
            components: self.iter(),
            table,
        }
    }

    /// How many components there are, including those of removed entities. Doesn't allocate, and is
    /// O(1).
    ///
    /// ```rust
    /// println!(rt; "{} names", names.len())?;
    /// ```
    pub fn len(&self) -> usize
        ensures { result ≡ count self.now.rows }
    {
        self.map.len()
    }

    /// Whether there is no component, not even one of a removed entity. Doesn't allocate, and is O(1).
    ///
    /// ```rust
    /// let is_unnamed = names.is_empty();
    /// ```
    pub fn is_empty(&self) -> bool
        ensures { IsTrue result ↔ count self.now.rows ≡ 0 }
    {
        self.map.len() == 0
    }

    /// Drops all components, in the order of their entities' slots. Never fails. Doesn't allocate, and is
    /// O(n) for n slots.
    ///
    /// ```rust
    /// names.clear();
    /// ```
    pub fn clear(&mut self)
    where
        C: Drop,
        ensures none { (e : Entity T) → component_in self.new e ≡ None }
        ensures count { count self.new.rows ≡ 0 }
        ensures number { self.new.number ≡ self.old.number }
    {
        self.map.clear();
    }

    /// Drops an entity's component, and returns whether it had one. Every other component is unchanged.
    /// Never fails. Doesn't allocate, and is O(1).
    ///
    /// ```rust
    /// let had_one = names.remove(entity);
    /// ```
    #[inline(always)]
    pub fn remove(&mut self, entity: Entity<T>) -> bool
    where
        C: Drop,
        ensures had { result ≡ is_some (component_in self.old entity) }
        ensures gone { component_in self.new entity ≡ None }
        ensures others { (e : Entity T) → IsOther entity e →
            component_in self.new e ≡ component_in self.old e }
        ensures number { self.new.number ≡ self.old.number }
    {
        self.map.take(entity).is_some()
    }

    /// Removes and returns an entity's component; None if it has none, and nothing changes then. Every
    /// other component is unchanged. Never fails. Doesn't allocate, and is O(1).
    ///
    /// ```rust
    /// let name = names.take(entity)?;
    /// ```
    #[inline(always)]
    pub fn take(&mut self, entity: Entity<T>) -> Option<C>
        ensures taken { result ≡ component_in self.old entity }
        ensures gone { component_in self.new entity ≡ None }
        ensures others { (e : Entity T) → IsOther entity e →
            component_in self.new e ≡ component_in self.old e }
        ensures none { IfNone result (self.new ≡ self.old) }
        ensures number { self.new.number ≡ self.old.number }
    {
        self.map.take(entity)
    }

    /// Drops each component that fails a test, in the order of the entities' slots. Every other component
    /// is unchanged. Never fails. Doesn't allocate, and is O(n) for n slots.
    ///
    /// ```rust
    /// names.retain(|name| *name < 100);
    /// ```
    pub fn retain<F: Fn(&C) -> bool>(&mut self, test: F)
    where
        C: Drop,
        requires { F.IsAlwaysCallable test }
        ensures sifted { (e : Entity T) (c : C) → component_in self.old e ≡ Some c →
            IsSifted (FnReturnsAt F.Fn test) c (component_in self.new e) }
        ensures none { (e : Entity T) → component_in self.old e ≡ None →
            component_in self.new e ≡ None }
        ensures number { self.new.number ≡ self.old.number }
    {
        for slot in 0..self.map.slots() {
            self.sift_slot(slot, &test);
        }
    }

    // Drops the component of a slot if it fails a test. The slots before it were tested.
    fn sift_slot<F: Fn(&C) -> bool>(&mut self, slot: usize, test: &F)
    where
        C: Drop,
        requires { F.IsAlwaysCallable test.now }
        ensures sifted { (first : MapState C) →
            SiftsComponents T (FnReturnsAt F.Fn test.now) first self.old slot →
            SiftsComponents T (FnReturnsAt F.Fn test.now) first self.new (slot + 1) }
        ensures number { self.new.number ≡ self.old.number }
    {
        let Some(entity) = self.map.at(slot) else {
            return;
        };
        let Some(component) = self.map.get(entity) else {
            unreachable!();
        };
        if !test(component) {
            self.remove(entity);
        }
    }

    /// Drops the components of all entities that aren't live in a table: those of entities removed since
    /// the last sweep. The components of live entities are unchanged. Never fails. Doesn't allocate, and
    /// is O(n) for n slots.
    ///
    /// ```rust
    /// names.sweep(table);
    /// ```
    pub fn sweep<E: Storage<T>>(&mut self, table: &EntityTable<T, E>)
    where
        C: Drop,
        ensures gone { (e : Entity T) → element_in table.now e ≡ None →
            component_in self.new e ≡ None }
        ensures kept { (e : Entity T) → is_some (element_in table.now e) ≡ true →
            component_in self.new e ≡ component_in self.old e }
        ensures number { self.new.number ≡ self.old.number }
    {
        for slot in 0..self.map.slots() {
            self.sweep_slot(table, slot);
        }
    }

    // Drops the component of a slot if its entity isn't live. The slots before it were swept.
    #[inline(always)]
    fn sweep_slot<E: Storage<T>>(&mut self, table: &EntityTable<T, E>, slot: usize)
    where
        C: Drop,
        ensures swept { (first : MapState C) →
            Sweeps {T = T} table.now first self.old slot → Sweeps {T = T} table.now first self.new (slot + 1) }
        ensures number { self.new.number ≡ self.old.number }
    {
        let Some(entity) = self.map.at(slot) else {
            return;
        };
        if !table.is_alive(entity) {
            self.remove(entity);
        }
    }

    /// Whether an entity has a component. Doesn't allocate, and is O(1).
    ///
    /// ```rust
    /// let is_named = names.contains(entity);
    /// ```
    #[inline(always)]
    pub fn contains(&self, entity: Entity<T>) -> bool
        ensures { result ≡ is_some (component_in self.now entity) }
    {
        self.map.get(entity).is_some()
    }
}
