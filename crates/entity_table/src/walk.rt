//! Iterators over the live entities with their elements, and over components with their entities.

ghost use Rattle.std.specs.Prelude.{◌≡◌, IfSome, Some, is_some, length, true};
ghost use Rattle.std.specs.Iterator.{UpTo, YieldsFirstBy, item_count};
ghost use Rattle.std.specs.Iterator.SizeHint.{IsWithinCount};
ghost use Rattle.handles.specs.Handles.{pointer_in};
ghost use Rattle.entity_table.specs.Tables.{element_in};
ghost use Rattle.entity_table.specs.Walking.{AreSeen, joined_rows, shown_rows};

use crate::entity::{Entity, EntityKind};
use crate::table::EntityTable;
use generational_core::Storage;
use handles::HandleIter;
use handles::parts::peek;
use std::iter::FusedIterator;
use std::marker::Model;

/// The live entities of a table with their elements, in the order of their slots: the iterator of
/// [`EntityTable::iter`](crate::EntityTable::iter). Contracts model it as the list of the remaining
/// ones.
#[derive(Drop)]
pub struct Iter<'a, T: 'a, S: Storage<T>> {
    pub(crate) store: &'a S,
    pub(crate) rows: HandleIter<'a, T, EntityKind, ()>,
}

impl<'a, T: 'a, S: Storage<T>> Model for Iter<'a, T, S> {
    ghost use Rattle.std.specs.Prelude.{List};
    ghost use Rattle.handles.specs.Handles.{pointer_in};
    ghost use Rattle.entity_table.specs.Tables.{Entity};
    ghost use Rattle.entity_table.specs.Walking.{AreSeen, shown_rows};

    ghost Value = { List (Entity T × T) };

    ghost view = { λ it. shown_rows (λ p. p.0) (λ p. pointer_in p.0) (S.state it.store.now) it.rows };

    ghost invariant = { λ it. AreSeen (λ p. pointer_in p.0) (S.state it.store.now) it.rows };
}

impl<'a, T: 'a, S: Storage<T>> Iterator for Iter<'a, T, S> {
    type Item = (Entity<T>, &'a T);

    ghost next_gives = { YieldsFirstBy (λ item. (item.0, item.1.now)) (λ left. left) };

    ghost remaining = { item_count (λ left. left) };

    #[inline(always)]
    fn next(&mut self) -> Option<(Entity<T>, &'a T)> {
        let (entity, _) = self.rows.next()?;
        match peek(self.store, entity) {
            Some(element) => Some((entity, element)),
            None => unreachable!(),
        }
    }

    fn size_hint(&self) -> (usize, Option<usize>)
        ensures lower { IsWithinCount result.0 (item_count (λ left. left) self.now) }
        ensures upper { IfSome result.1 (UpTo (item_count (λ left. left) self.now)) }
        ensures exact { result ≡ (length self.now, Some (length self.now)) }
    {
        let left = self.rows.len();
        (left, Some(left))
    }
}

impl<'a, T: 'a, S: Storage<T>> ExactSizeIterator for Iter<'a, T, S> {
    fn len(&self) -> usize {
        self.rows.len()
    }
}

impl<'a, T: 'a, S: Storage<T>> FusedIterator for Iter<'a, T, S> {}

/// The components of a table with their entities, in the order of the entities' slots: the iterator of
/// [`ComponentTable::iter`](crate::ComponentTable::iter). Contracts model it as the list of the
/// remaining ones, and `len` is their number.
pub type ComponentIter<'a, T, C> = HandleIter<'a, T, EntityKind, C>;

/// The live entities of a table that have a component, each with its element and its component, in the
/// order of the entities' slots: the iterator of [`ComponentTable::join`](crate::ComponentTable::join).
/// Contracts model it as the list of the remaining ones.
#[derive(Drop)]
pub struct Join<'a, T, C, E: Storage<T>> {
    pub(crate) components: ComponentIter<'a, T, C>,
    pub(crate) table: &'a EntityTable<T, E>,
}

impl<'a, T, C, E: Storage<T>> Model for Join<'a, T, C, E> {
    ghost use Rattle.std.specs.Prelude.{List};
    ghost use Rattle.entity_table.specs.Tables.{Entity, element_in};
    ghost use Rattle.entity_table.specs.Walking.{joined_rows};

    ghost Value = { List (Entity T × T × C) };

    ghost view = { λ it. joined_rows (element_in it.table.now) it.components };
}

impl<'a, T, C, E: Storage<T>> Iterator for Join<'a, T, C, E> {
    type Item = (Entity<T>, &'a T, &'a C);

    ghost next_gives = { YieldsFirstBy (λ item. (item.0, item.1.now, item.2.now)) (λ left. left) };

    ghost remaining = { item_count (λ left. left) };

    #[inline(always)]
    fn next(&mut self) -> Option<(Entity<T>, &'a T, &'a C)> {
        first_joined(&mut self.components, self.table)
    }

    // At most as many as there are components.
    fn size_hint(&self) -> (usize, Option<usize>)
        ensures lower { IsWithinCount result.0 (item_count (λ left. left) self.now) }
        ensures upper { IfSome result.1 (UpTo (item_count (λ left. left) self.now)) }
        ensures bounded { is_some result.1 ≡ true }
    {
        (0, Some(self.components.len()))
    }
}

impl<'a, T, C, E: Storage<T>> FusedIterator for Join<'a, T, C, E> {}

// The first component whose entity is live, with its element. It and those before it are consumed.
#[inline(always)]
fn first_joined<'a, T, C, E: Storage<T>>(
    components: &mut ComponentIter<'a, T, C>,
    table: &'a EntityTable<T, E>,
) -> Option<(Entity<T>, &'a T, &'a C)>
    ensures { YieldsFirstBy (λ item. (item.0, item.1.now, item.2.now)) (joined_rows (element_in table.now))
        components.old result components.new }
{
    while let Some((entity, component)) = components.next() {
        if let Ok(element) = table.get(entity) {
            return Some((entity, element, component));
        }
    }
    None
}
