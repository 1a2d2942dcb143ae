//! Laws of entities' handles. Each is the contract of a function that does nothing.

ghost use Rattle.std.specs.Prelude.{◌≡◌, ◌↔◌, None, Some, true};
ghost use Rattle.handles.specs.Handles.{is_same, IsSame};
ghost use Rattle.handles.specs.Maps.{MapState, both, listed};
ghost use Rattle.handles.specs.Visits.{AreChanged, CalledOn, CalledOnBoth};
ghost use Rattle.entity_table.specs.Components.{component_in};
ghost use Rattle.entity_table.specs.Tables.{Entity, IsDense, TableState, element_in, elements_in};
ghost use Rattle.entity_table.specs.declared.entity.EntityKind.{EntityKind};

use crate::components::ComponentTable;
use crate::entity::Entity;
use crate::table::EntityTable;
use generational_core::Storage;

/// Handles that are equal are of one entity, and have the same element.
pub fn equal_entities_show_the_same<T>()
    ensures equal { (a b : Entity T) → (is_same a b ≡ true) ↔ IsSame a b }
    ensures shown { (t : TableState T) (a b : Entity T) → IsSame a b →
        element_in t a ≡ element_in t b }
{}

/// What [`EntityTable::for_each_mut`] does to a live entity: its new element is the result of one call
/// of the closure.
pub fn changed_elements<T, S: Storage<T>, F: FnMut(Entity<T>, &mut T)>(
    _table: &EntityTable<T, S>,
    _visit: &F,
)
    ensures { (f last : F) (old new : TableState T) → IsDense old →
        AreChanged (CalledOn F.FnMut) f (elements_in old) (elements_in new) last →
        (e : Entity T) (v : T) → element_in old e ≡ Some v → (p q : F) × (a : Entity T) × (w : T)
        × IsSame a e × CalledOn F.FnMut p a v w q × (element_in new e ≡ Some w) }
{}

/// What [`ComponentTable::for_each_mut`] does to components: each is the result of one call of the
/// closure, and no entity gets or loses one.
pub fn changed_components<T, C, F: FnMut(Entity<T>, &mut C)>(
    _table: &ComponentTable<T, C>,
    _visit: &F,
)
    ensures each { (f last : F) (old new : MapState C) → AreChanged (CalledOn F.FnMut) f
        (listed {T = T} {K = EntityKind} old) (listed {T = T} {K = EntityKind} new) last →
        (e : Entity T) (c : C) → component_in old e ≡ Some c → (p q : F) × (a : Entity T) × (d : C)
        × IsSame a e × CalledOn F.FnMut p a c d q × (component_in new e ≡ Some d) }
    ensures none { (f last : F) (old new : MapState C) → AreChanged (CalledOn F.FnMut) f
        (listed {T = T} {K = EntityKind} old) (listed {T = T} {K = EntityKind} new) last →
        (e : Entity T) → component_in old e ≡ None → component_in new e ≡ None }
{}

/// What [`ComponentTable::for_each2_mut`] does to an entity that has a component in each of two tables:
/// both are the result of one call of the closure.
pub fn changed_pairs<T, C, D, F: FnMut(Entity<T>, &mut C, &mut D)>(
    _table: &ComponentTable<T, C>,
    _other: &ComponentTable<T, D>,
    _visit: &F,
)
    ensures { (f last : F) (old new : MapState C) (was is : MapState D) →
        AreChanged (CalledOnBoth F.FnMut) f (both {T = T} {K = EntityKind} old was)
        (both {T = T} {K = EntityKind} new is) last →
        (e : Entity T) (c : C) (d : D) → component_in old e ≡ Some c → component_in was e ≡ Some d →
        (p q : F) × (a : Entity T) × (after : C × D) × IsSame a e
        × CalledOnBoth F.FnMut p a (c, d) after q
        × (component_in new e ≡ Some after.0) × (component_in is e ≡ Some after.1) }
{}
