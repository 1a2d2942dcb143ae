//! How many slots a store has, and how many of them were retired.

ghost use Rattle.std.specs.Prelude.{◌≡◌, ◌+◌, ◌<◌, ◌≤◌};
ghost use Rattle.store_slots.specs.SlotsState.{usable_count};

use std::marker::Model;

/// How many slots a store has.
#[derive(Clone, Copy)]
pub struct SlotCounts {
    /// All that were ever made.
    pub slots: usize,
    /// Those that are free.
    pub free: usize,
    /// Those that are never reused.
    pub retired: usize,
    /// The peak number of live cells.
    pub peak_live: usize,
}

/// How many slots of a store were retired, and the most that were usable at once before the last of them
/// was. A slot is usable while it is live or free. Another slot is only made if none is free, so the most
/// usable slots are also the peak number of live cells.
#[derive(Drop)]
pub struct RetiredSlots {
    retired: usize,
    // the most before a slot was last retired
    before: usize,
}

impl Model for RetiredSlots {
    ghost use Rattle.store_slots.specs.SlotsState.{Retirements};

    ghost Value = { Retirements };

    ghost view = { λ c. record { retired = c.retired; before = c.before } };
}

impl RetiredSlots {
    /// None.
    #[inline(always)]
    pub fn new() -> RetiredSlots
        ensures { result ≡ record { retired = 0; before = 0 } }
    {
        RetiredSlots {
            retired: 0,
            before: 0,
        }
    }

    /// So many were retired, and so many were usable at once before the last of them was.
    pub fn at(retired: usize, before: usize) -> RetiredSlots
        ensures { result ≡ record { retired = retired; before = before } }
    {
        RetiredSlots { retired, before }
    }

    /// How many were retired.
    #[inline(always)]
    pub fn retired(&self) -> usize
        ensures { result ≡ self.now.retired }
    {
        self.retired
    }

    /// The most that were usable at once, if so many were made.
    #[inline(always)]
    pub fn peak(&self, made: usize) -> usize
        requires { self.now.retired ≤ made }
        ensures { result ≡ (usable_count self.now made).peak }
    {
        self.before.max(made - self.retired)
    }

    /// Another one of those that were made is retired.
    #[inline(always)]
    pub fn retire_one(&mut self, made: usize)
        requires { self.old.retired < made }
        ensures retired { self.new.retired ≡ self.old.retired + 1 }
        ensures before { self.new.before ≡ (usable_count self.old made).peak }
    {
        self.before = self.peak(made);
        self.retired += 1;
    }
}
