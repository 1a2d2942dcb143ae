//! Walks over the sessions of a table, and over the entries of a session.

ghost use Rattle.std.specs.Prelude.{◌≡◌, IfSome, Some, length};
ghost use Rattle.std.specs.Iterator.{UpTo, YieldsFirstBy, item_count};
ghost use Rattle.std.specs.Iterator.SizeHint.{IsWithinCount};
ghost use Rattle.session_table.specs.Tables.{live};

use crate::entry::Entry;
use crate::session::Session;
use indexmap::map;
use std::hash::Hash;
use std::iter::FusedIterator;
use std::marker::Model;

/// The iterator over the sessions of a table with their ids, returned by
/// [`SessionTable::sessions`](crate::SessionTable::sessions). Contracts model it as the list of those
/// that remain.
#[derive(Drop)]
pub struct Sessions<'a, I, K: Eq + Hash, T> {
    pub(crate) rows: map::Iter<'a, I, Session<K, T>>,
}

impl<'a, I, K: Eq + Hash, T> Model for Sessions<'a, I, K, T> {
    ghost use Rattle.std.specs.Prelude.{List};
    ghost use Rattle.std.specs.Prelude.{map as list_map};
    ghost use Rattle.session_table.specs.Sessions.{LiveSession};
    ghost use Rattle.session_table.specs.Tables.{live_row};

    ghost Value = { List (I × LiveSession K T) };

    ghost view = { λ it. list_map live_row it.rows };
}

impl<'a, I, K: Eq + Hash, T> Iterator for Sessions<'a, I, K, T> {
    type Item = (&'a I, &'a Session<K, T>);

    ghost next_gives = { YieldsFirstBy (λ item. (item.0.now, live item.1.now)) (λ left. left) };

    ghost remaining = { item_count (λ left. left) };

    fn next(&mut self) -> Option<(&'a I, &'a Session<K, T>)> {
        self.rows.next()
    }

    fn size_hint(&self) -> (usize, Option<usize>)
        ensures lower { IsWithinCount result.0 (item_count (λ left. left) self.now) }
        ensures upper { IfSome result.1 (UpTo (item_count (λ left. left) self.now)) }
        ensures exact { result ≡ (length self.now, Some (length self.now)) }
    {
        let left = self.rows.len();
        (left, Some(left))
    }
}

impl<'a, I, K: Eq + Hash, T> ExactSizeIterator for Sessions<'a, I, K, T> {
    fn len(&self) -> usize {
        self.rows.len()
    }
}

impl<'a, I, K: Eq + Hash, T> FusedIterator for Sessions<'a, I, K, T> {}

/// The iterator over the entries of a session with their keys, in the order in which they were put,
/// returned by [`Session::entries`](crate::Session::entries). Contracts model it as the list of those
/// that remain.
#[derive(Drop)]
pub struct Entries<'a, K, T> {
    pub(crate) pairs: map::Iter<'a, K, Entry<T>>,
}

impl<'a, K, T> Model for Entries<'a, K, T> {
    ghost use Rattle.std.specs.Prelude.{List};
    ghost use Rattle.session_table.specs.Sessions.{Entry};

    ghost Value = { List (K × Entry T) };

    ghost view = { λ it. it.pairs };
}

impl<'a, K, T> Iterator for Entries<'a, K, T> {
    type Item = (&'a K, Entry<T>);

    ghost next_gives = { YieldsFirstBy (λ item. (item.0.now, item.1)) (λ left. left) };

    ghost remaining = { item_count (λ left. left) };

    fn next(&mut self) -> Option<(&'a K, Entry<T>)> {
        let (key, entry) = self.pairs.next()?;
        Some((key, *entry))
    }

    fn size_hint(&self) -> (usize, Option<usize>)
        ensures lower { IsWithinCount result.0 (item_count (λ left. left) self.now) }
        ensures upper { IfSome result.1 (UpTo (item_count (λ left. left) self.now)) }
        ensures exact { result ≡ (length self.now, Some (length self.now)) }
    {
        let left = self.pairs.len();
        (left, Some(left))
    }
}

impl<'a, K, T> ExactSizeIterator for Entries<'a, K, T> {
    fn len(&self) -> usize {
        self.pairs.len()
    }
}

impl<'a, K, T> FusedIterator for Entries<'a, K, T> {}
