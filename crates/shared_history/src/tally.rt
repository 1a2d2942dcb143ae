//! What workers count of their steps.

ghost use Rattle.std.specs.Prelude.{◌≡◌, ◌+◌, ◌↔◌, ◌<◌, ◌≤◌, IsTrue, MatchResult, IfOk, IfErr};
ghost use Rattle.generational_errors.specs.declared.error.StoreError.TheVariants.{OutOfMemory};
ghost use Rattle.shared_history.specs.Counts.{Counts, merged, new_tallies};

use generational_core::StoreError;
use std::alloc::Global;
use std::marker::{Brand, Model, PhantomData};
use std::sync::ledger::{Ledger, Share};

/// A ledger of std's `sync::ledger`, with the number of workers that its parts are for.
///
/// A ledger's name is the store's: what is counted in it comes from that store alone.
pub trait Count: Ledger {
    ghost use Rattle.std.specs.Prelude.{ℕ};

    ghost workers: { ℕ };
}

impl Count for Brand {
    ghost workers = { 0 };
}

/// Says that the ledger has a part for each worker. No other field may refer to the ledger's parts.
#[derive(Drop)]
pub struct Parted<M: Count> {
    marker: PhantomData<M>,
    ghost same: { M.parts ≡ M.workers },
}

impl<M: Count> Parted<M> {
    fn new() -> Self
        requires { M.parts ≡ M.workers }
    {
        Parted {
            marker: PhantomData,
        }
    }

    // Proves it.
    pub fn shown(&self)
        ensures { M.parts ≡ M.workers }
    {
        let _ = &self.marker;
    }
}

/// What a worker has counted: for each kind, how many steps it took. Only contracts know the numbers.
///
/// `M`, `L`, `C` and `R` are the ledgers of the kinds made, lent, changed and refused. They also identify
/// the store: no tally of another store has their types. A tally that is dropped is lost, and without it
/// no tally is whole.
#[derive(Drop)]
pub struct Tally<M: Count, L: Count, C: Count, R: Count> {
    worker: u32,
    parts: u64,
    workers: u64,
    pub made: Share<M>,
    pub lent: Share<L>,
    pub changed: Share<C>,
    pub refused: Share<R>,
    pub made_parted: Parted<M>,
    pub lent_parted: Parted<L>,
    pub changed_parted: Parted<C>,
    pub refused_parted: Parted<R>,
}

impl<M: Count, L: Count, C: Count, R: Count> Model for Tally<M, L, C, R> {
    ghost use Rattle.std.specs.Prelude.{◌≡◌, ◌<◌, ◌≤◌};
    ghost use Rattle.shared_history.specs.Counts.{Counts};

    ghost Value = { Counts };

    ghost view = { λ t. record {
      worker = t.worker;
      parts = t.parts;
      made = t.made.amount;
      lent = t.lent.amount;
      changed = t.changed.amount;
      refused = t.refused.amount;
    } };

    ghost invariant = { λ t. (0 < t.parts) × (t.parts ≤ t.workers)
        × (t.made.parts ≡ t.parts) × (t.lent.parts ≡ t.parts)
        × (t.changed.parts ≡ t.parts) × (t.refused.parts ≡ t.parts)
        × (t.workers ≡ M.workers) × (t.workers ≡ L.workers)
        × (t.workers ≡ C.workers) × (t.workers ≡ R.workers) };
}

impl<M: Count, L: Count, C: Count, R: Count> Tally<M, L, C, R> {
    /// The worker's number, from 0. Doesn't allocate.
    pub fn worker(&self) -> usize
        ensures { result ≡ self.now.worker }
    {
        self.worker as usize
    }

    // The worker's number in 32 bits, which it fits.
    #[inline(always)]
    pub fn number(&self) -> u32
        ensures { result ≡ self.now.worker }
    {
        self.worker
    }

    /// Whether the tallies of all workers are merged in it. Doesn't allocate.
    pub fn is_whole(&self) -> bool
        ensures { IsTrue result ↔ (self.now.parts ≡ M.workers) }
    {
        self.parts == self.workers
    }

    /// Adds another tally's counts and parts. The worker stays. Doesn't allocate.
    ///
    /// The other one comes back, and nothing changes, if both together would have more parts than the
    /// store has workers. No two tallies of one store do.
    pub fn merge(&mut self, other: Tally<M, L, C, R>) -> Result<(), Tally<M, L, C, R>>
        ensures { MatchResult result
            (λ _. self.new ≡ merged self.old other)
            (λ back. (back ≡ other) × (self.new ≡ self.old)
            × (M.workers < self.old.parts + other.parts)) }
    {
        if other.parts > self.workers - self.parts {
            return Err(other);
        }
        let Tally {
            worker: _,
            parts,
            workers: _,
            made,
            lent,
            changed,
            refused,
            made_parted: _,
            lent_parted: _,
            changed_parted: _,
            refused_parted: _,
        } = other;
        self.parts += parts;
        self.made.merge(made);
        self.lent.merge(lent);
        self.changed.merge(changed);
        self.refused.merge(refused);
        Ok(())
    }
}

// Cuts the whole shares into a tally for each worker. A worker's number has 32 bits in stored steps, so
// the call fails for more workers.
pub fn tallies<M: Count, L: Count, C: Count, R: Count>(
    alloc: Global,
    workers: usize,
    mut made: Share<M>,
    mut lent: Share<L>,
    mut changed: Share<C>,
    mut refused: Share<R>,
) -> Result<Vec<Tally<M, L, C, R>>, StoreError>
    requires made { (made.parts ≡ workers) × (made.amount ≡ 0) × (M.parts ≡ workers) ×
        (M.workers ≡ workers) }
    requires lent { (lent.parts ≡ workers) × (lent.amount ≡ 0) × (L.parts ≡ workers) ×
        (L.workers ≡ workers) }
    requires changed { (changed.parts ≡ workers) × (changed.amount ≡ 0) × (C.parts ≡ workers)
        × (C.workers ≡ workers) }
    requires refused { (refused.parts ≡ workers) × (refused.amount ≡ 0) × (R.parts ≡ workers)
        × (R.workers ≡ workers) }
    ensures tallies { IfOk result (λ v. v.items ≡ new_tallies workers) }
    ensures err { IfErr result (λ e. e ≡ OutOfMemory) }
{
    let Ok(workers) = u32::try_from(workers) else {
        return Err(StoreError::OutOfMemory);
    };
    let mut all = Vec::new(alloc);
    for worker in 0..workers {
        let tally = Tally {
            worker,
            parts: 1,
            workers: u64::from(workers),
            made: made.split_off(1, 0),
            lent: lent.split_off(1, 0),
            changed: changed.split_off(1, 0),
            refused: refused.split_off(1, 0),
            made_parted: Parted::new(),
            lent_parted: Parted::new(),
            changed_parted: Parted::new(),
            refused_parted: Parted::new(),
        };
        if all.push(tally).is_err() {
            return Err(StoreError::OutOfMemory);
        }
    }
    Ok(all)
}
