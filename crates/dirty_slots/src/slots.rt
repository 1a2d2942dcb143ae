//! Slots by their numbers, each clean or dirty.

ghost use Rattle.std.specs.Prelude.{◌≡◌, ◌≢◌, ◌<◌, ◌≤◌, ◌+◌, ◌⊎◌, ℕ, true, false, [], length, IsTrue};
ghost use Rattle.dirty_slots.specs.Blocks.{AreDoubted, IsIn, flag_at, clean_at};

use std::alloc::Global;

/// Of each slot whether it is clean, and of each block of 64 slots whether it is flagged: a block without
/// a flag needn't be searched for dirty slots. A slot without room is dirty, and its block flagged.
#[derive(Drop)]
pub struct DirtySlots {
    pub clean: Vec<bool>,
    pub blocks: Vec<bool>,
}

/// The end of the block that begins at a slot, if there are so many slots. Doesn't allocate. O(1).
pub fn block_end(first: usize, many: usize) -> usize
    requires { first ≤ many }
    ensures within { first ≤ result }
    ensures low { result ≤ many }
    ensures end { (result ≡ first + 64) ⊎ ((result ≡ many) × (many < first + 64)) }
{
    if many - first < 64 { many } else { first + 64 }
}

impl DirtySlots {
    /// No slot has room. Doesn't allocate.
    pub fn new(alloc: Global) -> Self
        ensures clean { result.clean.items ≡ [] }
        ensures blocks { result.blocks.items ≡ [] }
    {
        DirtySlots {
            clean: Vec::new(alloc),
            blocks: Vec::new(alloc),
        }
    }

    /// Makes room for a slot, and for those before it, without a change of any. False if memory runs out.
    /// Amortised O(1) a slot.
    pub fn reserve(&mut self, slot: usize) -> bool
        ensures clean { (s : ℕ) → clean_at self.new.clean.items s ≡ clean_at self.old.clean.items s }
        ensures flags { (b : ℕ) → flag_at self.new.blocks.items b ≡ flag_at self.old.blocks.items b }
        ensures room { IsTrue result → slot < length self.new.clean.items }
    {
        let Some(room) = slot.checked_add(1) else {
            return false;
        };
        let blocks = slot / 64 + 1;
        if blocks > self.blocks.len() && self.blocks.resize(blocks, true).is_err() {
            return false;
        }
        if room <= self.clean.len() {
            return true;
        }
        self.clean.resize(room, false).is_ok()
    }

    /// Makes a slot dirty, and flags its block. Doesn't allocate. O(1).
    pub fn flag(&mut self, slot: usize)
        ensures here { clean_at self.new.clean.items slot ≡ false }
        ensures others { (s : ℕ) → s ≢ slot → clean_at self.new.clean.items s ≡ clean_at self.old.clean.items s }
        ensures flagged { (b : ℕ) → IsIn slot b → flag_at self.new.blocks.items b ≡ true }
        ensures kept { (b : ℕ) → flag_at self.old.blocks.items b ≡ true → flag_at self.new.blocks.items b ≡ true }
    {
        if slot < self.clean.len() {
            self.clean[slot] = false;
        }
        let block = slot / 64;
        if block < self.blocks.len() {
            self.blocks[block] = true;
        }
    }

    /// Makes a slot dirty, and flags its block if the slot was clean. Doesn't allocate. O(1).
    pub fn doubt(&mut self, slot: usize)
        ensures here { clean_at self.new.clean.items slot ≡ false }
        ensures doubted { AreDoubted self.old self.new }
    {
        if self.is_clean(slot) {
            self.flag(slot);
        }
    }

    /// Whether a slot is clean. Doesn't allocate. O(1).
    pub fn is_clean(&self, slot: usize) -> bool
        ensures { result ≡ clean_at self.now.clean.items slot }
    {
        match self.clean.get(slot) {
            Some(clean) => *clean,
            None => false,
        }
    }

    /// Makes a slot clean, if it has room. Its block keeps its flag. Doesn't allocate. O(1).
    pub fn clean(&mut self, slot: usize)
        ensures here { slot < length self.old.clean.items → clean_at self.new.clean.items slot ≡ true }
        ensures others { (s : ℕ) → s ≢ slot → clean_at self.new.clean.items s ≡ clean_at self.old.clean.items s }
        ensures more { (s : ℕ) → clean_at self.new.clean.items s ≡ false → clean_at self.old.clean.items s ≡ false }
        ensures flags { self.new.blocks ≡ self.old.blocks }
    {
        if slot < self.clean.len() {
            self.clean[slot] = true;
        }
    }

    /// Whether a block is flagged. Doesn't allocate. O(1).
    pub fn is_flagged(&self, block: usize) -> bool
        ensures { result ≡ flag_at self.now.blocks.items block }
    {
        match self.blocks.get(block) {
            Some(flag) => *flag,
            None => true,
        }
    }

    /// Takes a block's flag away, if it has room. Every slot is unchanged. Doesn't allocate. O(1).
    pub fn clear(&mut self, block: usize)
        ensures here { block < length self.old.blocks.items → flag_at self.new.blocks.items block ≡ false }
        ensures clean { self.new.clean ≡ self.old.clean }
        ensures others { (b : ℕ) → b ≢ block → flag_at self.new.blocks.items b ≡ flag_at self.old.blocks.items b }
    {
        if block < self.blocks.len() {
            self.blocks[block] = false;
        }
    }
}
