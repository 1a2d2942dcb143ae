//! Which nodes read which, and which memos are known.

ghost use Rattle.std.specs.Prelude.{◌≡◌, ◌≢◌, ◌<◌, ◌≤◌, ◌+◌, ◌⊎◌, ◌++◌, ◌∷◌, [], ℕ, List, Option, None, Some, Bool, true, false, length, is_some, IsTrue, ◌||◌};
ghost use Rattle.std.specs.List.{Contains, filter};
ghost use Rattle.dirty_slots.specs.Blocks.{AreDoubted, clean_at};
ghost use Rattle.reactive.specs.declared.key.Key.{Key};
ghost use Rattle.reactive.specs.declared.links.Edge.{Edge};
ghost use Rattle.reactive.specs.Links.{HasForgotten, IsRelinked, Keeps, Leans, edges_at, generation_of, is_current, is_same, known_at, knows, owner_at};
ghost use Rattle.reactive.specs.Visiting.{AreToVisit, Drops, HaveRoom, IsDropped, count_known, next_of};

use crate::key::Key;
use dirty_slots::DirtySlots;
use smallvec::SmallVec;
use std::alloc::Global;

/// A node that reads another: its slot, and the number of its links at that time.
#[derive(Clone, Copy, Default)]
pub(crate) struct Edge {
    pub(crate) slot: usize,
    pub(crate) number: u64,
}

/// The owner of a slot's links, and their number. Edges with other numbers are old.
#[derive(Clone, Copy)]
pub(crate) struct Owner {
    pub(crate) generation: Option<u64>,
    pub(crate) number: u64,
}

/// Each slot's owner of its links, and the nodes that read its node.
#[derive(Drop)]
pub(crate) struct Web {
    pub(crate) alloc: Global,
    pub(crate) owners: Vec<Owner>,
    pub(crate) readers: Vec<SmallVec<Edge, 1>>,
    // the number of the next links: no links have had it, or a higher one
    pub(crate) number: u64,
}

/// What is known of a slot's memo.
#[derive(Clone, Copy)]
pub(crate) enum Mark {
    // what the memo of this generation means
    Known(u64),
    // nothing. The slot that is visited after this one, if both are to be; or the index on a path that was
    // recorded last
    Unknown(usize),
}

/// Each slot's mark. The slots that are to be visited are a linked list through the marks.
#[derive(Drop)]
pub(crate) struct Marks {
    pub(crate) known: Vec<Mark>,
    // the first of them, and how many they are
    pub(crate) first: usize,
    pub(crate) left: usize,
}

/// The links of nodes.
#[derive(Drop)]
pub(crate) struct Links {
    pub(crate) marks: Marks,
    pub(crate) web: Web,
}

// Whether an edge isn't old.
fn is_current(owners: &Vec<Owner>, edge: Edge) -> bool
    ensures { result ≡ is_current owners.now.items edge }
{
    match owners.get(edge.slot) {
        Some(owner) => owner.number == edge.number,
        None => 0 == edge.number,
    }
}

// Adds a reader. False if memory runs out.
fn add(owners: &Vec<Owner>, edges: &mut SmallVec<Edge, 1>, edge: Edge) -> bool
    ensures kept { (e : Edge) → Contains edges.old.items e →
        (is_current owners.now.items e ≡ true) ⊎ (e ≡ edge) → Contains edges.new.items e }
    ensures only { (e : Edge) → Contains edges.new.items e → Contains edges.old.items e ⊎ (e ≡ edge) }
    ensures added { IsTrue result → Contains edges.new.items edge }
{
    make_room(owners, edges, edge) && edges.push(edge).is_ok()
}

// Reserves capacity for a reader. Old ones are removed before the list grows. False if memory runs out.
fn make_room(owners: &Vec<Owner>, edges: &mut SmallVec<Edge, 1>, edge: Edge) -> bool
    ensures kept { (e : Edge) → Contains edges.old.items e →
        (is_current owners.now.items e ≡ true) ⊎ (e ≡ edge) → Contains edges.new.items e }
    ensures only { (e : Edge) → Contains edges.new.items e → Contains edges.old.items e }
{
    if edges.len() < edges.capacity() {
        return true;
    }
    clean(owners, edges, edge);
    let more = edges.len().saturating_add(1);
    edges.reserve_exact(more).is_ok()
}

// Removes old edges, except for those that are the same as this one.
fn clean(owners: &Vec<Owner>, edges: &mut SmallVec<Edge, 1>, edge: Edge)
    ensures { edges.new.items
        ≡ filter (λ e. is_current owners.now.items e || is_same e edge) edges.old.items }
{
    edges.retain(|old: &mut Edge| is_current(owners, *old) || is_same(*old, edge));
}

// Whether two edges are the same.
fn is_same(edge: Edge, other: Edge) -> bool
    ensures { result ≡ is_same edge other }
{
    edge.slot == other.slot && edge.number == other.number
}

impl Web {
    // Reserves capacity for a slot's owner. False if memory runs out.
    fn reserve(&mut self, slot: usize) -> bool
        ensures owners { (s : ℕ) → owner_at self.new.owners.items s ≡ owner_at self.old.owners.items s }
        ensures readers { self.new.readers ≡ self.old.readers }
        ensures number { self.new.number ≡ self.old.number }
        ensures room { IsTrue result → slot < length self.new.owners.items }
    {
        if slot < self.owners.len() {
            return true;
        }
        let Some(room) = slot.checked_add(1) else {
            return false;
        };
        let nobody = Owner {
            generation: None,
            number: 0,
        };
        self.owners.resize(room, nobody).is_ok()
    }

    // Reserves capacity for a slot's readers. False if memory runs out.
    fn reserve_readers(&mut self, slot: usize) -> bool
        ensures owners { self.new.owners ≡ self.old.owners }
        ensures number { self.new.number ≡ self.old.number }
        ensures readers { (s : ℕ) → edges_at self.new s ≡ edges_at self.old s }
        ensures room { IsTrue result → slot < length self.new.readers.items }
    {
        while self.readers.len() <= slot {
            if self.readers.push(SmallVec::new(self.alloc)).is_err() {
                return false;
            }
        }
        true
    }

    // Adds a reader of a slot. False if memory runs out.
    fn link(&mut self, to: usize, edge: Edge) -> bool
        ensures owners { self.new.owners ≡ self.old.owners }
        ensures number { self.new.number ≡ self.old.number }
        ensures kept { (s : ℕ) (e : Edge) → Contains (edges_at self.old s) e →
            (is_current self.old.owners.items e ≡ true) ⊎ (e ≡ edge) → Contains (edges_at self.new s) e }
        ensures only { (s : ℕ) (e : Edge) → Contains (edges_at self.new s) e →
            Contains (edges_at self.old s) e ⊎ ((e ≡ edge) × (s ≡ to)) }
        ensures added { IsTrue result → Contains (edges_at self.new to) edge }
    {
        if !self.reserve_readers(to) {
            return false;
        }
        add(&self.owners, &mut self.readers[to], edge)
    }

    // Makes the links of its slot a node's, which reads these. False if memory or numbers run out: then
    // no link is lost.
    pub(crate) fn relink(&mut self, key: Key, reads: &[Key]) -> bool
        ensures relinked { IsTrue result → IsRelinked self.old key reads.now self.new }
        ensures failed { result ≡ false → Keeps self.old self.new }
    {
        let slot = key.id.slot;
        let number = self.number;
        let Some(next) = number.checked_add(1) else {
            return false;
        };
        if !self.reserve(slot) {
            return false;
        }
        self.number = next;
        for read in reads {
            if !self.link(read.id.slot, Edge { slot, number }) {
                return false;
            }
        }
        self.owners[slot] = Owner {
            generation: Some(key.id.generation),
            number,
        };
        true
    }
}

impl Mark {
    // Whether anything is known.
    fn is_known(self) -> bool
        ensures { result ≡ is_some (generation_of self) }
    {
        match self {
            Mark::Known(_) => true,
            Mark::Unknown(_) => false,
        }
    }

    // The slot that is visited after this one, or the index on a path.
    fn next(self) -> usize
        ensures { result ≡ next_of self }
    {
        match self {
            Mark::Known(_) => 0,
            Mark::Unknown(next) => next,
        }
    }
}

impl Marks {
    // Whether it is known what a memo means.
    pub(crate) fn knows(&self, key: Key) -> bool
        ensures { result ≡ knows (known_at self.now.known.items) key }
    {
        match self.known.get(key.id.slot) {
            Some(Mark::Known(generation)) => *generation == key.id.generation,
            _ => false,
        }
    }

    // Forgets the reader of an edge, unless the edge is old, and lists it to be visited.
    fn drop_reader(&mut self, web: &Web, edge: Edge)
        requires room { HaveRoom self.old }
        ensures room { HaveRoom self.new }
        ensures dropped { IsDropped web.now edge self.old self.new }
    {
        if !is_current(&web.owners, edge) {
            return;
        }
        if edge.slot >= self.known.len() {
            return;
        }
        if !self.known[edge.slot].is_known() {
            return;
        }
        self.known[edge.slot] = Mark::Unknown(self.first);
        self.first = edge.slot;
        self.left += 1;
    }

    // Forgets the readers of a slot, and lists them to be visited.
    fn drop_readers(&mut self, web: &Web, slot: usize)
        requires room { HaveRoom self.old }
        ensures room { HaveRoom self.new }
        ensures fewer { count_known self.new.known.items + count_known self.new.known.items + self.new.left
            ≤ count_known self.old.known.items + count_known self.old.known.items + self.old.left }
        ensures dropped { (before : List ℕ) → AreToVisit self.old before → (list : List ℕ) × AreToVisit self.new list
            × Drops web.now self.old.known.items before slot self.new.known.items list }
    {
        let Some(edges) = web.readers.get(slot) else {
            return;
        };
        for edge in edges.as_slice() {
            self.drop_reader(web, *edge);
        }
    }

    // Forgets a slot. Nothing is to be visited yet.
    fn begin(&mut self, slot: usize)
        ensures here { known_at self.new.known.items slot ≡ None }
        ensures others { (s : ℕ) → s ≢ slot →
            known_at self.new.known.items s ≡ known_at self.old.known.items s }
        ensures left { self.new.left ≡ 0 }
        ensures room { HaveRoom self.new }
    {
        self.left = 0;
        if slot < self.known.len() {
            self.known[slot] = Mark::Unknown(0);
        }
    }

    // Forgets what the memo of a slot means, and what those mean that read it, directly or by others. What
    // was reported of them is doubted.
    pub(crate) fn forget(&mut self, web: &Web, dirty: &mut DirtySlots, slot: usize)
        ensures forgotten { HasForgotten web.now self.old.known.items slot self.new.known.items }
        ensures spared { (s : ℕ) → (known_at self.new.known.items s ≡ known_at self.old.known.items s)
            ⊎ Leans web.now (known_at self.old.known.items) s slot }
        ensures doubted { AreDoubted dirty.old dirty.new }
        ensures trusted { (s : ℕ) → clean_at dirty.new.clean.items s ≡ true →
            (s ≢ slot) × (known_at self.new.known.items s ≡ known_at self.old.known.items s) }
    {
        dirty.doubt(slot);
        self.begin(slot);
        self.drop_readers(web, slot);
        while self.left > 0 {
            let next = self.first;
            self.first = self.known[next].next();
            self.left -= 1;
            dirty.doubt(next);
            self.drop_readers(web, next);
        }
    }

    // Reserves capacity to record that a memo is known. False if memory runs out, or if another node has
    // the slot.
    pub(crate) fn reserve(&mut self, slot: usize) -> bool
        ensures same { (s : ℕ) → known_at self.new.known.items s ≡ known_at self.old.known.items s }
        ensures room { IsTrue result → slot < length self.new.known.items }
        ensures free { IsTrue result → known_at self.new.known.items slot ≡ None }
    {
        if slot < self.known.len() {
            return !self.known[slot].is_known();
        }
        let Some(room) = slot.checked_add(1) else {
            return false;
        };
        self.known.resize(room, Mark::Unknown(0)).is_ok()
    }

    // Records a slot's index on a path, unless something is known of it. False if memory runs out.
    pub(crate) fn note(&mut self, slot: usize, place: usize) -> bool
        ensures { (s : ℕ) → known_at self.new.known.items s ≡ known_at self.old.known.items s }
    {
        if !self.reserve(slot) {
            return false;
        }
        self.known[slot] = Mark::Unknown(place);
        true
    }

    // The index that was recorded for a slot. It is only a hint: the slot may have been visited since.
    pub(crate) fn noted(&self, slot: usize) -> usize {
        match self.known.get(slot) {
            Some(mark) => mark.next(),
            None => 0,
        }
    }

    // Records that it is known what a memo means. There must be capacity for it.
    pub(crate) fn learn(&mut self, key: Key)
        requires { key.id.slot < length self.old.known.items }
        ensures here { known_at self.new.known.items key.id.slot ≡ Some key.id.generation }
        ensures others { (s : ℕ) → s ≢ key.id.slot →
            known_at self.new.known.items s ≡ known_at self.old.known.items s }
    {
        self.known[key.id.slot] = Mark::Known(key.id.generation);
    }
}
