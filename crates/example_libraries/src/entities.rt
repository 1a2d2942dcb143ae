//! Entities, and their handles.

ghost use Rattle.std.specs.Prelude.{◌≡◌, ◌≤◌, ◌<◌, ◌+◌, ◌%◌, ◌^◌, ℕ, None, Some, IsErr, IfErr, OnOk, true, false};
ghost use Rattle.std.specs.Prelude.{IfOk, IfSome, IsFalse, IsTrue, OnErr, is_some, slice_get};
ghost use Rattle.entity_table.specs.Components.{component_in, sparse_in};
ghost use Rattle.entity_table.specs.Tables.{Entity, created_at, element_in, WasSpawned};
ghost use Rattle.generational_errors.specs.declared.error.Location.{Location};
ghost use Rattle.handles.specs.Handles.{IsOther, IsSame, is_same};
ghost use Rattle.std.specs.List.{IsDistinct};

use entity_table::{
    AttachError, ComponentTable, Entity, EntityTable, PairError, SparseTable, Stale,
    changed_components, changed_elements, changed_pairs, equal_entities_show_the_same,
};
use generational_box::{Location, Storage};
use std::alloc::{AllocError, Global};

/// Despawns an entity, spawns another, and looks at the first: that fails, and the error says where the
/// first was made, whichever slot the second took.
pub fn told_after<S: Storage<u64>>(
    table: &mut EntityTable<u64, S>,
    first: Entity<u64>,
    next: u64,
    here: Location,
) -> Result<u64, Stale>
    requires { WasSpawned table.old first }
    ensures gone { IsErr result }
    ensures told { (l : Location) → created_at table.old first ≡ Some l →
        IfErr result (λ stale. stale.created_at ≡ Some l) }
{
    let _ = table.despawn(first);
    let _ = table.spawn(next, here);
    table.get(first).copied()
}

/// Removes an entity with its components in two tables, and returns whether one of them still has one:
/// none has, and every other component is unchanged.
pub fn gone_with_all<S: Storage<u64>>(
    table: &mut EntityTable<u64, S>,
    components: &mut (ComponentTable<u64, u64>, ComponentTable<u64, bool>),
    entity: Entity<u64>,
) -> Result<bool, Stale>
    ensures none { IfOk result (λ any. any ≡ false) }
    ensures others { (e : Entity ℕ) → IsOther entity e →
        component_in components.new.0 e ≡ component_in components.old.0 e }
{
    table.despawn_with(entity, components)?;
    Ok(components.0.contains(entity) || components.1.contains(entity))
}

/// Drops the components above a limit. None is above it then.
pub fn dropped_above(components: &mut ComponentTable<u64, u64>, limit: u64)
    ensures { (e : Entity ℕ) (c : ℕ) → component_in components.new e ≡ Some c → c ≤ limit }
{
    components.retain(|component: &u64| *component <= limit);
}

/// The greatest element of the live entities, or 0 if none is live.
pub fn greatest<S: Storage<u64>>(table: &EntityTable<u64, S>) -> u64
    ensures { (e : Entity ℕ) (v : ℕ) → element_in table.now e ≡ Some v → v ≤ result }
{
    equal_entities_show_the_same::<u64>();
    let mut most = 0;
    'rows: for (_, element) in table.iter() {
        if *element > most {
            most = *element;
        }
    }
    most
}

/// Gives an entity a component by a handle whose entity may be gone: whichever entity has its slot by
/// now keeps its own then.
pub fn renamed<E: Storage<u64>>(
    table: &EntityTable<u64, E>,
    names: &mut ComponentTable<u64, u64>,
    entity: Entity<u64>,
    name: u64,
) -> Result<(), AttachError>
    ensures named { OnOk result (component_in names.new entity ≡ Some name) }
    ensures others { element_in table.now entity ≡ None → (e : Entity ℕ) →
        component_in names.new e ≡ component_in names.old e }
{
    names
        .attach(table, entity, name)
        .map_err(|refusal| refusal.cause)
}

/// Whether no live entity's component is greater than its element.
pub fn within_limits<E: Storage<u64>>(
    limits: &EntityTable<u64, E>,
    uses: &ComponentTable<u64, u64>,
) -> bool
    ensures { IsTrue result → (e : Entity ℕ) (limit used : ℕ) → element_in limits.now e ≡ Some limit →
        component_in uses.now e ≡ Some used → used ≤ limit }
{
    'walk: for (_, limit, used) in uses.join(limits) {
        if *used > *limit {
            return false;
        }
    }
    true
}

/// Whether no live entity's component is greater than its element, if few entities have one.
pub fn rare_within_limits<E: Storage<u64>>(
    limits: &EntityTable<u64, E>,
    uses: &SparseTable<u64, u64>,
) -> bool
    ensures { IsTrue result → (e : Entity ℕ) (limit used : ℕ) → element_in limits.now e ≡ Some limit →
        sparse_in uses.now e ≡ Some used → used ≤ limit }
{
    'walk: for (_, limit, used) in uses.join(limits) {
        if *used > *limit {
            return false;
        }
    }
    true
}

/// Whether no entity's component in a table for few is greater than the one that it has in another.
pub fn rare_within<T>(uses: &SparseTable<T, u64>, limits: &ComponentTable<T, u64>) -> bool
    ensures { IsTrue result → (e : Entity T) (limit used : ℕ) → component_in limits.now e ≡ Some limit →
        sparse_in uses.now e ≡ Some used → used ≤ limit }
{
    'walk: for (_, limit, used) in uses.join_with(limits) {
        if *used > *limit {
            return false;
        }
    }
    true
}

/// The live entities that have a component that few have: each of them, and none twice.
pub fn all_with_rare<S: Storage<u64>>(
    alloc: Global,
    table: &EntityTable<u64, S>,
    rare: &SparseTable<u64, u64>,
) -> Result<Vec<Entity<u64>>, AllocError>
    ensures only { IfOk result (λ list. (i : ℕ) (e : Entity ℕ) → slice_get list.items i ≡ Some e →
        (is_some (element_in table.now e) ≡ true) × (is_some (sparse_in rare.now e) ≡ true)) }
    ensures all { IfOk result (λ list. (e : Entity ℕ) (v c : ℕ) → element_in table.now e ≡ Some v →
        sparse_in rare.now e ≡ Some c → (i : ℕ) × (f : Entity ℕ) × (slice_get list.items i ≡ Some f) × IsSame f e) }
    ensures once { IfOk result (λ list. IsDistinct is_same list.items) }
{
    let mut list = Vec::new(alloc);
    'walk: for (entity, _, _) in rare.join(table) {
        list.push(entity)?;
    }
    Ok(list)
}

/// The entities that have a component in a table for few and in another: each of them, and none twice.
pub fn all_with_both<T>(
    alloc: Global,
    rare: &SparseTable<T, u64>,
    others: &ComponentTable<T, u64>,
) -> Result<Vec<Entity<T>>, AllocError>
    ensures only { IfOk result (λ list. (i : ℕ) (e : Entity T) → slice_get list.items i ≡ Some e →
        (is_some (component_in others.now e) ≡ true) × (is_some (sparse_in rare.now e) ≡ true)) }
    ensures all { IfOk result (λ list. (e : Entity T) (v c : ℕ) → component_in others.now e ≡ Some v →
        sparse_in rare.now e ≡ Some c → (i : ℕ) × (f : Entity T) × (slice_get list.items i ≡ Some f) × IsSame f e) }
    ensures once { IfOk result (λ list. IsDistinct is_same list.items) }
{
    let mut list = Vec::new(alloc);
    'walk: for (entity, _, _) in rare.join_with(others) {
        list.push(entity)?;
    }
    Ok(list)
}

/// Gives a live entity a component that few have, and removes the entity with it.
pub fn gone_with_rare<S: Storage<u64>>(
    table: &mut EntityTable<u64, S>,
    rare: &mut SparseTable<u64, u64>,
    entity: Entity<u64>,
    component: u64,
) -> Option<u64>
    ensures had { IfSome result (λ seen. seen ≡ component) }
    ensures gone { IfSome result (λ _. sparse_in rare.new entity ≡ None) }
    ensures others { (e : Entity ℕ) → IsOther entity e → sparse_in rare.new e ≡ sparse_in rare.old e }
{
    rare.attach(table, entity, component).ok()?;
    let seen = rare.get(entity).copied();
    let Ok(()) = table.despawn_with(entity, rare) else {
        return None;
    };
    seen
}

/// Makes room for more entities, and for their components, and returns whether there was memory for it:
/// every entity and every component is unchanged.
pub fn has_room_for<S: Storage<u64>>(
    table: &mut EntityTable<u64, S>,
    components: &mut ComponentTable<u64, u64>,
    more: usize,
) -> bool
    ensures same { table.new ≡ table.old }
    ensures components { (e : Entity ℕ) →
        component_in components.new e ≡ component_in components.old e }
{
    let slots = table.slots().saturating_add(more);
    table.reserve(more).is_ok() && components.reserve(slots).is_ok()
}

/// Adds to an entity's element in place, and returns the sum.
pub fn grown<S: Storage<u64>>(
    table: &mut EntityTable<u64, S>,
    entity: Entity<u64>,
    more: u64,
) -> Result<u64, Stale>
    requires { IfSome (element_in table.old entity) (λ v. v + more < 2 ^ 64) }
    ensures grown { IfOk result (λ now. (before : ℕ)
        × (element_in table.old entity ≡ Some before) × (now ≡ before + more)
        × (element_in table.new entity ≡ Some now)) }
    ensures others { (e : Entity ℕ) → IsOther entity e →
        element_in table.new e ≡ element_in table.old e }
    ensures refused { OnErr result (table.new ≡ table.old) }
{
    table.update(entity, |element: &mut u64| {
        *element += more;
        *element
    })
}

/// Exchanges the components of two entities.
pub fn exchanged(
    components: &mut ComponentTable<u64, u64>,
    first: Entity<u64>,
    second: Entity<u64>,
) -> Result<(), PairError>
    ensures exchanged { OnOk result ((component_in components.new first ≡ component_in components.old second)
        × (component_in components.new second ≡ component_in components.old first)) }
    ensures others { (e : Entity ℕ) → IsOther first e → IsOther second e →
        component_in components.new e ≡ component_in components.old e }
{
    components.update2(first, second, |one: &mut u64, other: &mut u64| {
        let before = *one;
        *one = *other;
        *other = before;
    })
}

/// Counts an entity's component up in place, and returns the count before.
pub fn raised(counts: &mut ComponentTable<u64, u64>, entity: Entity<u64>) -> Option<u64>
    ensures before { IfSome result (λ n. component_in counts.old entity ≡ Some n) }
    ensures had { is_some result ≡ is_some (component_in counts.old entity) }
    ensures others { (e : Entity ℕ) → IsOther entity e →
        component_in counts.new e ≡ component_in counts.old e }
{
    counts.update(entity, |count: &mut u64| {
        let before = *count;
        *count = before.wrapping_add(1);
        before
    })
}

/// Despawns an entity, and drops the components of all that are gone, its own too. Those of live ones
/// stay in each case.
pub fn despawned_bare<E: Storage<u64>>(
    table: &mut EntityTable<u64, E>,
    names: &mut ComponentTable<u64, u64>,
    entity: Entity<u64>,
) -> Result<(), Stale>
    ensures bare { component_in names.new entity ≡ None }
    ensures kept { (e : Entity ℕ) → is_some (element_in table.new e) ≡ true →
        component_in names.new e ≡ component_in names.old e }
{
    let ended = table.despawn(entity);
    names.sweep(table);
    ended
}

/// Removes an entity with its element from a table, and reads it again: that fails. Returns the element
/// that it had.
pub fn taken_out<S: Storage<u64>>(
    table: &mut EntityTable<u64, S>,
    entity: Entity<u64>,
) -> Option<u64>
    ensures { result ≡ element_in table.old entity }
{
    let element = table.take(entity).ok()?;
    match table.get(entity) {
        Ok(_) => None,
        Err(_) => Some(element),
    }
}

/// Hands one entity's component to another, which shows it from then on.
pub fn handed_over(coats: &mut ComponentTable<u64, u64>, from: Entity<u64>, to: Entity<u64>) -> bool
    ensures { IsTrue result → (coat : ℕ) × (component_in coats.old from ≡ Some coat)
        × (component_in coats.new to ≡ Some coat) }
{
    match coats.take(from) {
        Some(coat) => coats.insert(to, coat).is_ok(),
        None => false,
    }
}

/// Despawns the remaining entities, and returns whether there was one.
pub fn swept_out<S: Storage<u64>>(table: &mut EntityTable<u64, S>) -> bool
    ensures none { IsFalse result → (e : Entity ℕ) → element_in table.old e ≡ None }
    ensures gone { (e : Entity ℕ) → element_in table.new e ≡ None }
{
    if table.is_empty() {
        // The rows have all live entities.
        let _ = table.iter();
        return false;
    }
    table.clear();
    true
}

/// Adds one to every score, in one call: no entity gets or loses a score.
pub fn raise_all(scores: &mut ComponentTable<u64, u64>)
    ensures raised { (e : Entity ℕ) (c : ℕ) → component_in scores.old e ≡ Some c →
        component_in scores.new e ≡ Some ((c + 1) % 2 ^ 64) }
    ensures none { (e : Entity ℕ) → component_in scores.old e ≡ None →
        component_in scores.new e ≡ None }
{
    let raise = |_: Entity<u64>, score: &mut u64| *score = score.wrapping_add(1);
    changed_components(scores, &raise);
    scores.for_each_mut(raise);
}

/// Moves everything that has a place and a speed, in one call: what has no speed stays where it is.
pub fn move_all(places: &mut ComponentTable<u64, u64>, speeds: &mut ComponentTable<u64, u64>)
    ensures moved { (e : Entity ℕ) (at by : ℕ) → component_in places.old e ≡ Some at →
        component_in speeds.old e ≡ Some by → component_in places.new e ≡ Some ((at + by) % 2 ^ 64) }
    ensures still { (e : Entity ℕ) → component_in speeds.old e ≡ None →
        component_in places.new e ≡ component_in places.old e }
{
    let step = |_: Entity<u64>, place: &mut u64, speed: &mut u64| {
        *place = place.wrapping_add(*speed);
    };
    changed_pairs(places, speeds, &step);
    places.for_each2_mut(speeds, step);
}

/// Makes every entity older by one, in one call.
pub fn age_all<S: Storage<u64>>(table: &mut EntityTable<u64, S>)
    ensures aged { (e : Entity ℕ) (v : ℕ) → element_in table.old e ≡ Some v →
        element_in table.new e ≡ Some ((v + 1) % 2 ^ 64) }
{
    let age = |_: Entity<u64>, years: &mut u64| *years = years.wrapping_add(1);
    changed_elements(table, &age);
    // A walk says that the table has a row for each live entity.
    let _ = table.iter();
    table.for_each_mut(age);
}
