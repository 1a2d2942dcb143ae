//! For each block of rows, a time before which none of its sessions was last used.

ghost use Rattle.std.specs.Prelude.{◌≡◌, ◌≤◌, ◌/◌, ◌≢◌, [], ℕ};
ghost use Rattle.session_table.specs.Bounds.{bound_at};

use std::alloc::Global;
use std::marker::Model;

/// How many rows a block has.
pub(crate) const ROWS: usize = 64;

/// A bound for each block of rows: none of its sessions was last used before that time. An expiry skips
/// blocks by them. A block without a bound has 0, so that memory that runs out costs only time.
#[derive(Drop)]
pub(crate) struct Bounds {
    list: Vec<u64>,
}

impl Model for Bounds {
    ghost use Rattle.std.specs.Prelude.{List, ℕ};

    ghost Value = { List ℕ };

    ghost view = { λ t. t.list.items };
}

impl Bounds {
    /// No bounds. Doesn't allocate.
    pub(crate) fn new(alloc: Global) -> Self
        ensures { result ≡ [] }
    {
        Bounds {
            list: Vec::new(alloc),
        }
    }

    /// The bound of a row's block.
    pub(crate) fn at(&self, row: usize) -> u64
        ensures { result ≡ bound_at self.now row }
    {
        self.list.get(row / ROWS).copied().unwrap_or(0)
    }

    /// Makes room for the bounds of more rows, unless memory runs out. No bound changes.
    pub(crate) fn reserve(&mut self, additional: usize)
        ensures { self.new ≡ self.old }
    {
        let _ = self.list.reserve(additional / ROWS + 1);
    }

    /// Makes room for the bound of a row's block, unless memory runs out. No bound changes.
    pub(crate) fn cover(&mut self, row: usize)
        ensures { (at : ℕ) → bound_at self.new at ≡ bound_at self.old at }
    {
        if self.list.len() <= row / ROWS {
            let _ = self.list.push(0);
        }
    }

    /// Lowers the bound of a row's block to a time, unless it is lower already.
    pub(crate) fn lower(&mut self, row: usize, time: u64)
        ensures here { bound_at self.new row ≤ time }
        ensures others { (at : ℕ) → bound_at self.new at ≤ bound_at self.old at }
    {
        if time < self.at(row) {
            self.set(row, time);
        }
    }

    /// Sets the bound of a row's block, if it has one.
    pub(crate) fn set(&mut self, row: usize, time: u64)
        ensures here { (at : ℕ) → at / 64 ≡ row / 64 → bound_at self.new at ≤ time }
        ensures others { (at : ℕ) → at / 64 ≢ row / 64 →
            bound_at self.new at ≡ bound_at self.old at }
    {
        let block = row / ROWS;
        if block < self.list.len() {
            self.list[block] = time;
        }
    }
}
