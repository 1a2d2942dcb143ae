//! Walks over the handles of a map.

ghost use Rattle.std.specs.Prelude.{◌≡◌, ◌≤◌, ◌+◌, ◌^◌, ◌∷◌, ℕ, IfSome, List, Some, length};
ghost use Rattle.std.specs.Iterator.{UpTo, YieldsFirstBy, item_count};
ghost use Rattle.std.specs.Iterator.SizeHint.{IsWithinCount};
ghost use Rattle.handles.specs.declared.map.Row.{Row};
ghost use Rattle.handles.specs.declared.map.Row.TheVariants.{Vacant};
ghost use Rattle.handles.specs.Maps.{count, listed_from};

use crate::handle::Handle;
use crate::map::Row;
use std::iter::FusedIterator;
use std::marker::{Model, PhantomData};

/// The handles of a table that have a value, with it, in the order of their slots. Contracts model it as
/// the list of those that remain. All steps together are O(n) for n slots.
#[derive(Drop)]
pub struct HandleIter<'a, T, K, V> {
    number: u64,
    slot: usize,
    rows: &'a [Row<V>],
    left: usize,
    marker: PhantomData<(T, K)>,
}

impl<'a, T, K, V> Model for HandleIter<'a, T, K, V> {
    ghost use Rattle.std.specs.Prelude.{◌≡◌, ◌≤◌, ◌+◌, ◌^◌, List, length};
    ghost use Rattle.handles.specs.declared.handle.Handle.{Handle};
    ghost use Rattle.handles.specs.Maps.{count, listed_from};

    ghost Value = { List (Handle T K × V) };

    ghost view = { λ it. listed_from it.number it.slot it.rows.now };

    ghost invariant = { λ it. (it.left ≡ count it.rows.now) × (it.slot + length it.rows.now ≤ 2 ^ 32) };
}

impl<'a, T, K, V> HandleIter<'a, T, K, V> {
    pub(crate) fn new(number: u64, rows: &'a [Row<V>], left: usize) -> Self
        requires counted { left ≡ count rows.now }
        requires within { length rows.now ≤ 2 ^ 32 }
        ensures { result ≡ listed_from number 0 rows.now }
    {
        HandleIter {
            number,
            slot: 0,
            rows,
            left,
            marker: PhantomData,
        }
    }
}

impl<'a, T, K, V> Iterator for HandleIter<'a, T, K, V> {
    type Item = (Handle<T, K>, &'a V);

    ghost next_gives = { YieldsFirstBy (λ item. (item.0, item.1.now)) (λ left. left) };

    ghost remaining = { item_count (λ left. left) };

    #[inline(always)]
    fn next(&mut self) -> Option<(Handle<T, K>, &'a V)> {
        let (slot, rows) = first_held::<T, K, V>(self.slot, self.rows);
        let (first, rest) = rows.split_first()?;
        match first {
            Row::Held(site, generation, value) => {
                self.slot = slot + 1;
                self.rows = rest;
                self.left -= 1;
                let handle = Handle::at(self.number, slot as u32, *site, *generation);
                Some((handle, value))
            }
            Row::Vacant => unreachable!(),
        }
    }

    fn size_hint(&self) -> (usize, Option<usize>)
        ensures lower { IsWithinCount result.0 (item_count (λ left. left) self.now) }
        ensures upper { IfSome result.1 (UpTo (item_count (λ left. left) self.now)) }
        ensures exact { result ≡ (length self.now, Some (length self.now)) }
    {
        (self.left, Some(self.left))
    }
}

impl<'a, T, K, V> ExactSizeIterator for HandleIter<'a, T, K, V> {
    fn len(&self) -> usize {
        self.left
    }
}

impl<'a, T, K, V> FusedIterator for HandleIter<'a, T, K, V> {}

// The first slot, from one on, whose row holds a value, and the rows from there on; None if no row does.
#[inline(always)]
fn first_held<T, K, V>(slot: usize, rows: &[Row<V>]) -> (usize, &[Row<V>])
    requires { slot + length rows.now ≤ 2 ^ 32 }
    ensures same { (number : ℕ) →
        listed_from {T = T} {K = K} number result.0 result.1.now ≡ listed_from number slot rows.now }
    ensures count { count result.1.now ≡ count rows.now }
    ensures within { result.0 + length result.1.now ≤ 2 ^ 32 }
    ensures held { (rest : List (Row V)) → result.1.now ≡ Vacant ∷ rest → ⊥ }
{
    let mut at = slot;
    let mut left = rows;
    while let Some((first, rest)) = left.split_first() {
        if let Row::Held(_, _, _) = first {
            return (at, left);
        }
        at += 1;
        left = rest;
    }
    (at, left)
}
