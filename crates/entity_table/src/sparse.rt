//! Tables of components that few entities have.

ghost use Rattle.std.specs.Prelude.{◌≡◌, ◌+◌, ◌↔◌, [], ℕ, None, Some, is_some, length, option_copied, slice_get, if◌then◌else◌};
ghost use Rattle.std.specs.Prelude.{OnOk, OnErr, IfOk, IfErr, IfNone, IfSome, IsErrAnd, IsTrue, true};
ghost use Rattle.std.specs.Prelude.{map as list_map};
ghost use Rattle.std.specs.Borrow.{MutBor};
ghost use Rattle.std.specs.Fn.{FnOnceReturnsAtMut};
ghost use Rattle.std.specs.Iterator.{UpTo, YieldsFirstBy, item_count};
ghost use Rattle.std.specs.Iterator.SizeHint.{IsWithinCount};
ghost use Rattle.std.specs.List.{IsDistinct};
ghost use Rattle.generational_errors.specs.declared.error.StoreError.TheVariants.{OutOfMemory};
ghost use Rattle.handles.specs.Handles.{IsOther, IsSame, is_same};
ghost use Rattle.entity_table.specs.declared.components.AttachError.TheVariants as attach;
ghost use Rattle.entity_table.specs.Components.{component_in, sparse_in};
ghost use Rattle.entity_table.specs.Tables.{Entity, created_at, element_in};
ghost use Rattle.entity_table.specs.Walking.{joined_rows};

use crate::component_set::ComponentSet;
use crate::components::{AttachError, ComponentTable};
use crate::entity::Entity;
use crate::table::EntityTable;
use generational_core::{HandedBack, Storage, StoreError};
use handles::Stale;
use indexmap::{IndexMap, map};
use std::alloc::Global;
use std::iter::FusedIterator;
use std::marker::Model;

/// Components of one type that few entities have: its memory is that of its components, not of all slots.
/// Contracts model it as the list of the entities with their components, in the order of iteration.
///
/// A removed entity keeps its component until the component is removed, also if a later entity of the
/// same slot gets one: [`EntityTable::despawn_with`](crate::EntityTable::despawn_with) drops it at once.
#[derive(Drop)]
pub struct SparseTable<T, C> {
    map: IndexMap<Entity<T>, C>,
}

impl<T, C> Model for SparseTable<T, C> {
    ghost use Rattle.std.specs.Prelude.{List};
    ghost use Rattle.entity_table.specs.Tables.{Entity};

    ghost Value = { List (Entity T × C) };

    ghost view = { λ t. t.map.entries };
}

impl<T, C> SparseTable<T, C> {
    /// Creates a table without components. Doesn't allocate.
    ///
    /// ```rust
    /// let mut burning = SparseTable::new(rt.alloc());
    /// ```
    pub fn new(alloc: Global) -> Self
        ensures { result ≡ [] }
    {
        SparseTable {
            map: IndexMap::new(alloc),
        }
    }

    /// Makes room for more components: the next `additional` ones that are inserted don't allocate. Every
    /// component is unchanged. O(n + additional) for n components.
    ///
    /// # Errors
    ///
    /// `OutOfMemory` is the only possible error.
    ///
    /// ```rust
    /// burning.reserve(100)?;
    /// ```
    pub fn reserve(&mut self, additional: usize) -> Result<(), StoreError>
        ensures same { self.new ≡ self.old }
        ensures short { IfErr result (λ cause. cause ≡ OutOfMemory) }
    {
        match self.map.reserve(additional) {
            Ok(()) => Ok(()),
            Err(_) => Err(StoreError::OutOfMemory),
        }
    }

    /// Sets an entity's component, and returns the one that it had, if there was one. Every other component
    /// is unchanged. It isn't checked that the entity is live: `attach` does. Amortised O(1), expected.
    ///
    /// # Errors
    ///
    /// `OutOfMemory`, only if the entity has no component yet. The component comes back then, and the table
    /// is unchanged.
    ///
    /// ```rust
    /// burning.insert(entity, 3)?;
    /// ```
    pub fn insert(
        &mut self,
        entity: Entity<T>,
        component: C,
    ) -> Result<Option<C>, HandedBack<C, StoreError>>
    where
        C: Drop,
        ensures before { IfOk result (λ before. before ≡ sparse_in self.old entity) }
        ensures shown { OnOk result (sparse_in self.new entity ≡ Some component) }
        ensures others { (e : Entity T) → IsOther entity e →
            sparse_in self.new e ≡ sparse_in self.old e }
        ensures count { IfOk result (λ before. length self.new
            ≡ length self.old + (if is_some before then 0 else 1)) }
        ensures short { IfErr result (λ refusal. (refusal.cause ≡ OutOfMemory)
            × (sparse_in self.old entity ≡ None)) }
        ensures back { IfErr result (λ refusal. refusal.value ≡ component) }
        ensures refused { OnErr result (self.new ≡ self.old) }
    {
        let refusal = match self.map.insert(entity, component) {
            Ok(before) => return Ok(before),
            Err(refusal) => refusal,
        };
        let (_, value) = refusal.value;
        let cause = StoreError::OutOfMemory;
        Err(HandedBack { value, cause })
    }

    /// Sets a live entity's component, like [`SparseTable::insert`].
    ///
    /// # Errors
    ///
    /// - `Stale` if the entity was removed, or belongs to another table, with the location where it was
    ///   made if the table has it.
    /// - `Store` of `OutOfMemory`, only if the entity has no component yet.
    ///
    /// The component comes back then, and the table is unchanged.
    ///
    /// ```rust
    /// burning.attach(table, entity, 3)?;
    /// ```
    pub fn attach<E: Storage<T>>(
        &mut self,
        table: &EntityTable<T, E>,
        entity: Entity<T>,
        component: C,
    ) -> Result<Option<C>, HandedBack<C, AttachError>>
    where
        C: Drop,
        ensures before { IfOk result (λ before. before ≡ sparse_in self.old entity) }
        ensures shown { OnOk result (sparse_in self.new entity ≡ Some component) }
        ensures others { (e : Entity T) → IsOther entity e →
            sparse_in self.new e ≡ sparse_in self.old e }
        ensures stale { element_in table.now entity ≡ None → IsErrAnd result (λ refusal.
            refusal.cause ≡ attach.Stale (record { created_at = created_at table.now entity })) }
        ensures short { is_some (element_in table.now entity) ≡ true → IfErr result (λ refusal.
            (refusal.cause ≡ attach.Store OutOfMemory) × (sparse_in self.old entity ≡ None)) }
        ensures back { IfErr result (λ refusal. refusal.value ≡ component) }
        ensures refused { OnErr result (self.new ≡ self.old) }
    {
        if !table.is_alive(entity) {
            let created_at = table.created_at(entity);
            return Err(HandedBack {
                value: component,
                cause: AttachError::Stale(Stale { created_at }),
            });
        }
        match self.insert(entity, component) {
            Ok(before) => Ok(before),
            Err(HandedBack { value, cause }) => Err(HandedBack {
                value,
                cause: AttachError::Store(cause),
            }),
        }
    }

    /// Borrows an entity's component; None if it has none. Doesn't allocate, and is O(1), expected.
    ///
    /// ```rust
    /// if let Some(turns) = burning.get(entity) {
    ///     println!(rt; "{entity:?} burns for {turns} turns")?;
    /// }
    /// ```
    pub fn get(&self, entity: Entity<T>) -> Option<&C>
        ensures { option_copied result ≡ sparse_in self.now entity }
    {
        self.map.get(&entity)
    }

    /// Whether an entity has a component. Doesn't allocate, and is O(1), expected.
    ///
    /// ```rust
    /// let burns = burning.contains(entity);
    /// ```
    pub fn contains(&self, entity: Entity<T>) -> bool
        ensures { result ≡ is_some (sparse_in self.now entity) }
    {
        self.map.contains_key(&entity)
    }

    /// Removes and returns an entity's component. The last component takes its place in the order of
    /// iteration. None if it has none: the table is unchanged then. Doesn't allocate, and is O(1), expected.
    ///
    /// ```rust
    /// let left = burning.remove(entity);
    /// ```
    pub fn remove(&mut self, entity: Entity<T>) -> Option<C>
        ensures taken { result ≡ sparse_in self.old entity }
        ensures gone { sparse_in self.new entity ≡ None }
        ensures others { (e : Entity T) → IsOther entity e →
            sparse_in self.new e ≡ sparse_in self.old e }
        ensures count { length self.new + (if is_some result then 1 else 0) ≡ length self.old }
    {
        self.map.swap_remove(&entity)
    }

    /// Iterates over the components with their entities, each once. Doesn't allocate, and is O(1); the whole
    /// iteration is O(n) for n components.
    ///
    /// ```rust
    /// for (entity, turns) in burning.iter() {
    ///     println!(rt; "{entity:?} burns for {turns} turns")?;
    /// }
    /// ```
    pub fn iter(&self) -> SparseIter<'_, T, C>
        ensures all { result ≡ self.now }
        ensures once { IsDistinct is_same (list_map (λ p. p.0) result) }
    {
        SparseIter {
            pairs: self.map.iter(),
        }
    }

    /// Iterates over the live entities of a table that have a component, each once with its element and its
    /// component. Doesn't allocate, and is O(1); the whole iteration is O(n) for n components.
    ///
    /// ```rust
    /// for (entity, element, turns) in burning.join(table) {
    ///     println!(rt; "{entity:?} has {element}, and burns for {turns} turns")?;
    /// }
    /// ```
    pub fn join<'a, E: Storage<T>>(
        &'a self,
        table: &'a EntityTable<T, E>,
    ) -> SparseJoin<'a, T, C, E>
        ensures shown { (i : ℕ) (e : Entity T) (v : T) (c : C) → slice_get result i ≡ Some (e, v, c) →
            (element_in table.now e ≡ Some v) × (sparse_in self.now e ≡ Some c) }
        ensures every { (e : Entity T) (v : T) (c : C) → element_in table.now e ≡ Some v →
            sparse_in self.now e ≡ Some c → (i : ℕ) × (f : Entity T)
            × (slice_get result i ≡ Some (f, v, c)) × IsSame f e }
        ensures once { IsDistinct is_same (list_map (λ q. q.0) result) }
    {
        SparseJoin {
            components: self.iter(),
            table,
        }
    }

    /// Iterates over the entities that have a component here and in a [`ComponentTable`], each once with
    /// that component and this one. Doesn't allocate, and is O(1); the whole iteration is O(n) for n
    /// components of this table.
    ///
    /// ```rust
    /// for (entity, name, turns) in burning.join_with(names) {
    ///     println!(rt; "{entity:?} is named {name}, and burns for {turns} turns")?;
    /// }
    /// ```
    pub fn join_with<'a, D>(
        &'a self,
        others: &'a ComponentTable<T, D>,
    ) -> SparseJoinWith<'a, T, C, D>
        ensures shown { (i : ℕ) (e : Entity T) (d : D) (c : C) → slice_get result i ≡ Some (e, d, c) →
            (component_in others.now e ≡ Some d) × (sparse_in self.now e ≡ Some c) }
        ensures every { (e : Entity T) (d : D) (c : C) → component_in others.now e ≡ Some d →
            sparse_in self.now e ≡ Some c → (i : ℕ) × (f : Entity T)
            × (slice_get result i ≡ Some (f, d, c)) × IsSame f e }
        ensures once { IsDistinct is_same (list_map (λ q. q.0) result) }
    {
        SparseJoinWith {
            components: self.iter(),
            others,
        }
    }

    /// How many components there are, including those of removed entities. Doesn't allocate, and is O(1).
    ///
    /// ```rust
    /// println!(rt; "{} burn", burning.len())?;
    /// ```
    pub fn len(&self) -> usize
        ensures { result ≡ length self.now }
    {
        self.map.len()
    }

    /// Whether there is no component. Doesn't allocate, and is O(1).
    ///
    /// ```rust
    /// let is_safe = burning.is_empty();
    /// ```
    pub fn is_empty(&self) -> bool
        ensures { IsTrue result ↔ length self.now ≡ 0 }
    {
        self.map.len() == 0
    }

    /// Drops all components. Doesn't allocate, and is O(n) for n components.
    ///
    /// ```rust
    /// burning.clear();
    /// ```
    pub fn clear(&mut self)
    where
        C: Drop,
        ensures { self.new ≡ [] }
    {
        self.map.clear();
    }
}

impl<T, C: Drop> ComponentSet<T> for SparseTable<T, C> {
    ghost has_none = { λ t e. sparse_in t e ≡ None };

    ghost has_same = { λ t u e. sparse_in u e ≡ sparse_in t e };

    fn remove_in_all(&mut self, entity: Entity<T>)
        ensures gone { sparse_in self.new entity ≡ None }
        ensures others { (e : Entity T) → IsOther entity e → sparse_in self.new e ≡ sparse_in self.old e }
    {
        self.remove(entity);
    }
}

/// The components of a table with their entities: the iterator of [`SparseTable::iter`]. Contracts model
/// it as the list of the remaining ones.
#[derive(Drop)]
pub struct SparseIter<'a, T, C> {
    pairs: map::Iter<'a, Entity<T>, C>,
}

impl<'a, T, C> Model for SparseIter<'a, T, C> {
    ghost use Rattle.std.specs.Prelude.{List};
    ghost use Rattle.entity_table.specs.Tables.{Entity};

    ghost Value = { List (Entity T × C) };

    ghost view = { λ it. it.pairs };
}

impl<'a, T, C> Iterator for SparseIter<'a, T, C> {
    type Item = (Entity<T>, &'a C);

    ghost next_gives = { YieldsFirstBy (λ item. (item.0, item.1.now)) (λ left. left) };

    ghost remaining = { item_count (λ left. left) };

    fn next(&mut self) -> Option<(Entity<T>, &'a C)> {
        let (entity, component) = self.pairs.next()?;
        Some((*entity, component))
    }

    fn size_hint(&self) -> (usize, Option<usize>)
        ensures lower { IsWithinCount result.0 (item_count (λ left. left) self.now) }
        ensures upper { IfSome result.1 (UpTo (item_count (λ left. left) self.now)) }
        ensures exact { result ≡ (length self.now, Some (length self.now)) }
    {
        let left = self.pairs.len();
        (left, Some(left))
    }
}

impl<'a, T, C> FusedIterator for SparseIter<'a, T, C> {}

/// The live entities of a table that have a component in a [`SparseTable`], each with its element and its
/// component: the iterator of [`SparseTable::join`]. Contracts model it as the list of the remaining ones.
#[derive(Drop)]
pub struct SparseJoin<'a, T, C, E: Storage<T>> {
    components: SparseIter<'a, T, C>,
    table: &'a EntityTable<T, E>,
}

impl<'a, T, C, E: Storage<T>> Model for SparseJoin<'a, T, C, E> {
    ghost use Rattle.std.specs.Prelude.{List};
    ghost use Rattle.entity_table.specs.Tables.{Entity, element_in};
    ghost use Rattle.entity_table.specs.Walking.{joined_rows};

    ghost Value = { List (Entity T × T × C) };

    ghost view = { λ it. joined_rows (element_in it.table.now) it.components };
}

impl<'a, T, C, E: Storage<T>> Iterator for SparseJoin<'a, T, C, E> {
    type Item = (Entity<T>, &'a T, &'a C);

    ghost next_gives = { YieldsFirstBy (λ item. (item.0, item.1.now, item.2.now)) (λ left. left) };

    ghost remaining = { item_count (λ left. left) };

    fn next(&mut self) -> Option<(Entity<T>, &'a T, &'a C)> {
        first_live(&mut self.components, self.table)
    }
}

impl<'a, T, C, E: Storage<T>> FusedIterator for SparseJoin<'a, T, C, E> {}

/// The entities that have a component in a [`SparseTable`] and in a [`ComponentTable`], each with the
/// latter and the former: the iterator of [`SparseTable::join_with`]. Contracts model it as the list of
/// the remaining ones.
#[derive(Drop)]
pub struct SparseJoinWith<'a, T, C, D> {
    components: SparseIter<'a, T, C>,
    others: &'a ComponentTable<T, D>,
}

impl<'a, T, C, D> Model for SparseJoinWith<'a, T, C, D> {
    ghost use Rattle.std.specs.Prelude.{List};
    ghost use Rattle.entity_table.specs.Components.{component_in};
    ghost use Rattle.entity_table.specs.Tables.{Entity};
    ghost use Rattle.entity_table.specs.Walking.{joined_rows};

    ghost Value = { List (Entity T × D × C) };

    ghost view = { λ it. joined_rows (component_in it.others.now) it.components };
}

impl<'a, T, C, D> Iterator for SparseJoinWith<'a, T, C, D> {
    type Item = (Entity<T>, &'a D, &'a C);

    ghost next_gives = { YieldsFirstBy (λ item. (item.0, item.1.now, item.2.now)) (λ left. left) };

    ghost remaining = { item_count (λ left. left) };

    fn next(&mut self) -> Option<(Entity<T>, &'a D, &'a C)> {
        first_with(&mut self.components, self.others)
    }
}

impl<'a, T, C, D> FusedIterator for SparseJoinWith<'a, T, C, D> {}

// The first component whose entity is live, with its element. It and those before it are consumed.
fn first_live<'a, T, C, E: Storage<T>>(
    components: &mut SparseIter<'a, T, C>,
    table: &'a EntityTable<T, E>,
) -> Option<(Entity<T>, &'a T, &'a C)>
    ensures { YieldsFirstBy (λ item. (item.0, item.1.now, item.2.now)) (joined_rows (element_in table.now))
        components.old result components.new }
{
    while let Some((entity, component)) = components.next() {
        if let Ok(element) = table.get(entity) {
            return Some((entity, element, component));
        }
    }
    None
}

// The first component whose entity has one in another table, with that. It and those before it are
// consumed.
fn first_with<'a, T, C, D>(
    components: &mut SparseIter<'a, T, C>,
    others: &'a ComponentTable<T, D>,
) -> Option<(Entity<T>, &'a D, &'a C)>
    ensures { YieldsFirstBy (λ item. (item.0, item.1.now, item.2.now)) (joined_rows (component_in others.now))
        components.old result components.new }
{
    while let Some((entity, component)) = components.next() {
        if let Some(other) = others.get(entity) {
            return Some((entity, other, component));
        }
    }
    None
}
