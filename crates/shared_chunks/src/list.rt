//! The list.

ghost use Rattle.std.specs.Prelude.{◌≡◌, ◌+◌, ◌<◌, ◌≤◌, ◌^◌, [], ◌∷◌, ◌++◌, IfOk, IfSome, OnOk};
ghost use Rattle.std.specs.Prelude.{OnErr, length, max, vec_len, vec_capacity};
ghost use Rattle.shared_chunks.specs.Listed.{AreLarge};

use std::alloc::{AllocError, Global};
use std::marker::Model;
use std::mem;
use store_room::reserve_more;

// The smallest and the largest chunk, in items, unless room for more is requested at once.
const LEAST: usize = 16;

const MOST: usize = 1024;

// The most emptied chunks that are kept for later.
const FREE: usize = 128;

/// A list in chunks. Contracts model it as its items, and for how many more there is room.
///
/// The items are in chunks that are full, and after these in the last one. There may be an empty spare
/// one, which becomes the last one when that is full. Each chunk has twice the room of the one before, up
/// to 1024 items; of items with 8 bytes that is less than what the C library gets from the system block
/// by block. Up to 128 chunks of that size that `empty` frees are kept, and reused as spare ones.
#[derive(Drop)]
pub struct Chunks<X> {
    // the fields that each append writes are adjacent
    last: Vec<X>,
    spare: Vec<X>,
    full: Vec<Vec<X>>,
    // how many items the full chunks have
    full_len: usize,
    free: Vec<Vec<X>>,
    alloc: Global,
}

impl<X> Model for Chunks<X> {
    ghost use Rattle.std.specs.Prelude.{◌≡◌, ◌+◌, ◌-◌, ◌^◌, ◌<◌, ◌++◌, [], length, vec_len};
    ghost use Rattle.std.specs.Prelude.{vec_capacity};
    ghost use Rattle.shared_chunks.specs.Listed.{Listed, joined_chunks};

    ghost Value = { Listed X };

    ghost view = { λ c. record {
      items = joined_chunks c.full.items ++ c.last.items;
      room = (vec_capacity c.last - vec_len c.last) + vec_capacity c.spare;
    } };

    ghost invariant = { λ c. (c.spare.items ≡ [])
        × (0 < vec_capacity c.spare → vec_len c.full < vec_capacity c.full)
        × (c.full_len ≡ length (joined_chunks c.full.items))
        × ((c.full_len + vec_len c.last) + ((vec_capacity c.last - vec_len c.last)
        + vec_capacity c.spare) < 2 ^ 64) };
}

impl<X: Copy> Chunks<X> {
    /// A list of nothing. Doesn't allocate.
    pub fn new(alloc: Global) -> Self
        ensures { result ≡ record { items = []; room = 0 } }
    {
        Chunks {
            alloc,
            full: Vec::new(alloc),
            last: Vec::new(alloc),
            spare: Vec::new(alloc),
            free: Vec::new(alloc),
            full_len: 0,
        }
    }

    /// Reserves room for this many more items. If there isn't enough yet, it mostly reserves twice as
    /// much as is needed, so that few calls allocate. Fails only if the needed room alone can't be
    /// allocated, and changes nothing then.
    #[inline(always)]
    pub fn reserve(&mut self, more: usize) -> Result<(), AllocError>
        ensures items { self.new.items ≡ self.old.items }
        ensures room { self.old.room ≤ self.new.room }
        ensures ok { OnOk result (more ≤ self.new.room) }
        ensures err { OnErr result (self.new ≡ self.old) }
    {
        if more <= self.last.capacity() - self.last.len() {
            return Ok(());
        }
        self.grow(more)
    }

    // Reserves room for this many more items, which the last chunk doesn't have: with a larger spare
    // chunk if that is needed, a free one if there is one that is large enough.
    #[cold]
    #[inline(never)]
    fn grow(&mut self, more: usize) -> Result<(), AllocError>
        ensures items { self.new.items ≡ self.old.items }
        ensures room { self.old.room ≤ self.new.room }
        ensures ok { OnOk result (more ≤ self.new.room) }
        ensures err { OnErr result (self.new ≡ self.old) }
    {
        let here = self.last.capacity() - self.last.len();
        if more <= here + self.spare.capacity() {
            return Ok(());
        }
        let needed = more - here;
        let most = usize::MAX - self.len() - here;
        if most < needed {
            return Err(AllocError);
        }
        let usual = self.last.capacity().saturating_mul(2).clamp(LEAST, MOST);
        let wanted = usual.max(more.saturating_mul(2)).min(most);
        reserve_more(&mut self.full, 1)?;
        if let Some(chunk) = take_free(&mut self.free, needed, most) {
            self.spare = chunk;
            return Ok(());
        }
        self.spare = new_chunk(self.alloc, needed, wanted - needed)?;
        Ok(())
    }

    /// Appends an item, for which there is room. Doesn't allocate, moves no item, and is O(1).
    #[tactic(auto, using(crate::proofs::Lists::joined_snoc))]
    #[inline(always)]
    pub fn push(&mut self, item: X)
        requires { 0 < self.old.room }
        ensures items { self.new.items ≡ self.old.items ++ item ∷ [] }
        ensures room { self.new.room + 1 ≡ self.old.room }
        ensures bounded { length self.new.items + self.new.room < 2 ^ 64 }
    {
        if self.last.len() < self.last.capacity() {
            self.last.push_reserved(item);
            return;
        }
        self.full_len += self.last.len();
        turn(self.alloc, &mut self.full, &mut self.last, &mut self.spare);
        self.last.push_reserved(item);
    }

    /// How many items there are. Doesn't allocate, and is O(1).
    pub fn len(&self) -> usize
        ensures { result ≡ length self.now.items }
    {
        self.full_len + self.last.len()
    }

    /// For how many items more there is room. Doesn't allocate, and is O(1).
    pub fn room(&self) -> usize
        ensures { result ≡ self.now.room }
    {
        self.last.capacity() - self.last.len() + self.spare.capacity()
    }

    /// A copy of the items, in one piece.
    #[tactic(auto, using(crate::proofs::Lists::joined_take))]
    pub fn to_vec(&self) -> Result<Vec<X>, AllocError>
        ensures { IfOk result (λ all. all.items ≡ self.now.items) }
    {
        let mut all = Vec::with_capacity(self.alloc, self.len())?;
        for chunk in self.full.iter() {
            all.extend_from_slice(chunk.as_slice())?;
        }
        all.extend_from_slice(self.last.as_slice())?;
        Ok(all)
    }

    /// Removes all items, and keeps the room and up to 128 of the full chunks for later. Returns the
    /// others, so that the holder of a lock can drop them after releasing it. Later full chunks are
    /// stored in `anew`, which is empty and has room for one.
    pub fn empty(&mut self, anew: Vec<Vec<X>>) -> Vec<Vec<X>>
        requires none { anew.items ≡ [] }
        requires room { 0 < vec_capacity anew }
        ensures items { self.new.items ≡ [] }
        ensures room { self.old.room ≤ self.new.room }
    {
        let mut full = mem::replace(&mut self.full, anew);
        self.last.clear();
        self.full_len = 0;
        keep_free(&mut self.free, &mut full);
        full
    }
}

// A chunk among the free ones whose room is within these bounds, emptied.
fn take_free<X: Copy>(free: &mut Vec<Vec<X>>, least: usize, most: usize) -> Option<Vec<X>>
    ensures items { IfSome result (λ chunk. chunk.items ≡ []) }
    ensures least { IfSome result (λ chunk. least ≤ vec_capacity chunk) }
    ensures most { IfSome result (λ chunk. vec_capacity chunk ≤ most) }
{
    let mut chunk = free.pop()?;
    chunk.clear();
    if least <= chunk.capacity() && chunk.capacity() <= most {
        Some(chunk)
    } else {
        None
    }
}

// Moves the largest chunks to the free ones, as long as these aren't too many and no allocation fails. If
// all free chunks were of the largest size, or larger, they still are.
#[tactic(auto, using(crate::proofs::Lists::large_snoc))]
fn keep_free<X: Copy>(free: &mut Vec<Vec<X>>, chunks: &mut Vec<Vec<X>>)
    ensures large { AreLarge free.old.items → AreLarge free.new.items }
    ensures few { length free.new.items ≤ max 128 (length free.old.items) }
{
    for _ in free.len()..FREE {
        let Some(chunk) = chunks.pop() else {
            return;
        };
        if chunk.capacity() < MOST || free.push(chunk).is_err() {
            return;
        }
    }
}

// An empty chunk with room for as many items as are needed, and for so many in addition; or, if that
// can't be allocated, for half as many in addition, for a quarter and so on.
fn new_chunk<X>(alloc: Global, needed: usize, beside: usize) -> Result<Vec<X>, AllocError>
    requires { needed + beside < 2 ^ 64 }
    ensures items { IfOk result (λ chunk. chunk.items ≡ []) }
    ensures least { IfOk result (λ chunk. needed ≤ vec_capacity chunk) }
    ensures most { IfOk result (λ chunk. vec_capacity chunk ≤ needed + beside) }
{
    if let Ok(chunk) = Vec::with_capacity(alloc, needed + beside) {
        return Ok(chunk);
    }
    if beside == 0 {
        return Err(AllocError);
    }
    new_chunk(alloc, needed, beside / 2)
}

// Moves the last chunk, which is full, to the full ones; the spare one becomes the last.
#[cold]
#[inline(never)]
fn turn<X: Copy>(alloc: Global, full: &mut Vec<Vec<X>>, last: &mut Vec<X>, spare: &mut Vec<X>)
    requires { vec_len full.old < vec_capacity full.old }
    ensures full { full.new.items ≡ full.old.items ++ last.old ∷ [] }
    ensures last { last.new ≡ spare.old }
    ensures spare { (spare.new.items ≡ []) × (vec_capacity spare.new ≡ 0) }
{
    let next = mem::replace(spare, Vec::new(alloc));
    let done = mem::replace(last, next);
    full.push_reserved(done);
}
