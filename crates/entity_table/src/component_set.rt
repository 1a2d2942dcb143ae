//! Sets of component tables, in which an entity's components are dropped together.

ghost use Rattle.std.specs.Prelude.{◌≡◌, None};
ghost use Rattle.handles.specs.Handles.{IsOther};
ghost use Rattle.entity_table.specs.Components.{component_in};
ghost use Rattle.entity_table.specs.Tables.{Entity};

use crate::components::ComponentTable;
use crate::entity::Entity;

/// Tables of components for the entities of one table: a [`ComponentTable`], a
/// [`SparseTable`](crate::SparseTable), or a tuple of two to five sets, which may be tuples in turn.
/// [`EntityTable::despawn_with`](crate::EntityTable::despawn_with) drops an entity's components in all of
/// them. A struct of tables can implement it too, by calling
/// `remove_in_all` of each.
pub trait ComponentSet<T> {
    /// No table has a component of an entity.
    ghost has_none: { Self → Entity T → Type 0 };

    /// From one state to another, each table has the same component of an entity, or still none.
    ghost has_same: { Self → Self → Entity T → Type 0 };

    /// Drops an entity's component in each table that has one. Every other component is unchanged. Never
    /// fails. Doesn't allocate, and is O(k) for k tables.
    fn remove_in_all(&mut self, entity: Entity<T>)
        ensures gone { has_none self.new entity }
        ensures others { (e : Entity T) → IsOther entity e → has_same self.old self.new e };
}

impl<T, C: Drop> ComponentSet<T> for ComponentTable<T, C> {
    ghost has_none = { λ t e. component_in t e ≡ None };

    ghost has_same = { λ t u e. component_in u e ≡ component_in t e };

    #[inline(always)]
    fn remove_in_all(&mut self, entity: Entity<T>)
        ensures gone { component_in self.new entity ≡ None }
        ensures others { (e : Entity T) → IsOther entity e →
            component_in self.new e ≡ component_in self.old e }
    {
        self.remove(entity);
    }
}

impl<T, A: ComponentSet<T>, B: ComponentSet<T>> ComponentSet<T> for (A, B) {
    ghost has_none = { λ t e. A.has_none t.0 e × B.has_none t.1 e };

    ghost has_same = { λ t u e. A.has_same t.0 u.0 e × B.has_same t.1 u.1 e };

    fn remove_in_all(&mut self, entity: Entity<T>)
        ensures gone { A.has_none self.new.0 entity × B.has_none self.new.1 entity }
        ensures others { (e : Entity T) → IsOther entity e →
            A.has_same self.old.0 self.new.0 e × B.has_same self.old.1 self.new.1 e }
    {
        self.0.remove_in_all(entity);
        self.1.remove_in_all(entity);
    }
}

impl<T, A: ComponentSet<T>, B: ComponentSet<T>, C: ComponentSet<T>> ComponentSet<T> for (A, B, C) {
    ghost has_none = { λ t e. A.has_none t.0 e × B.has_none t.1 e × C.has_none t.2 e };

    ghost has_same = { λ t u e. A.has_same t.0 u.0 e × B.has_same t.1 u.1 e × C.has_same t.2 u.2 e };

    fn remove_in_all(&mut self, entity: Entity<T>)
        ensures gone { A.has_none self.new.0 entity × B.has_none self.new.1 entity
            × C.has_none self.new.2 entity }
        ensures others { (e : Entity T) → IsOther entity e →
            A.has_same self.old.0 self.new.0 e × B.has_same self.old.1 self.new.1 e
            × C.has_same self.old.2 self.new.2 e }
    {
        self.0.remove_in_all(entity);
        self.1.remove_in_all(entity);
        self.2.remove_in_all(entity);
    }
}

impl<
    T,
    A: ComponentSet<T>,
    B: ComponentSet<T>,
    C: ComponentSet<T>,
    D: ComponentSet<T>,
> ComponentSet<T> for (A, B, C, D) {
    ghost has_none = { λ t e. A.has_none t.0 e × B.has_none t.1 e × C.has_none t.2 e
        × D.has_none t.3 e };

    ghost has_same = { λ t u e. A.has_same t.0 u.0 e × B.has_same t.1 u.1 e × C.has_same t.2 u.2 e
        × D.has_same t.3 u.3 e };

    fn remove_in_all(&mut self, entity: Entity<T>)
        ensures gone { A.has_none self.new.0 entity × B.has_none self.new.1 entity
            × C.has_none self.new.2 entity × D.has_none self.new.3 entity }
        ensures others { (e : Entity T) → IsOther entity e →
            A.has_same self.old.0 self.new.0 e × B.has_same self.old.1 self.new.1 e
            × C.has_same self.old.2 self.new.2 e × D.has_same self.old.3 self.new.3 e }
    {
        self.0.remove_in_all(entity);
        self.1.remove_in_all(entity);
        self.2.remove_in_all(entity);
        self.3.remove_in_all(entity);
    }
}

impl<
    T,
    A: ComponentSet<T>,
    B: ComponentSet<T>,
    C: ComponentSet<T>,
    D: ComponentSet<T>,
    E: ComponentSet<T>,
> ComponentSet<T> for (A, B, C, D, E) {
    ghost has_none = { λ t e. A.has_none t.0 e × B.has_none t.1 e × C.has_none t.2 e
        × D.has_none t.3 e × E.has_none t.4 e };

    ghost has_same = { λ t u e. A.has_same t.0 u.0 e × B.has_same t.1 u.1 e × C.has_same t.2 u.2 e
        × D.has_same t.3 u.3 e × E.has_same t.4 u.4 e };

    fn remove_in_all(&mut self, entity: Entity<T>)
        ensures gone { A.has_none self.new.0 entity × B.has_none self.new.1 entity
            × C.has_none self.new.2 entity × D.has_none self.new.3 entity
            × E.has_none self.new.4 entity }
        ensures others { (e : Entity T) → IsOther entity e →
            A.has_same self.old.0 self.new.0 e × B.has_same self.old.1 self.new.1 e
            × C.has_same self.old.2 self.new.2 e × D.has_same self.old.3 self.new.3 e
            × E.has_same self.old.4 self.new.4 e }
    {
        self.0.remove_in_all(entity);
        self.1.remove_in_all(entity);
        self.2.remove_in_all(entity);
        self.3.remove_in_all(entity);
        self.4.remove_in_all(entity);
    }
}
