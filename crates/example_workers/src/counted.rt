//! Workers whose results are proved to agree with the history of their store.

ghost use Rattle.std.specs.Prelude.{◌≡◌, ◌+◌, true, false, IfOk, length, sum};
ghost use Rattle.shared_history.specs.Bases.{trimmed_of};
ghost use Rattle.shared_records.specs.Kinds.{count_of_kind};
ghost use Rattle.shared_records.specs.declared.step.Kind.TheVariants.{Made};

use generational_box::{Location, StoreError};
use generational_workers::{Base, Job, Service, Step, Worker, run_alone, run_workers};
use std::alloc::Global;
use std::sync::Wait;
use std::thread::Threads;

/// Each worker stores this many numbers.
#[derive(Drop)]
struct Filling {
    each: u32,
}

impl Job<u64> for Filling {
    type Shared = ();

    type Answer = u32;

    ghost serves = { λ _ _ old stored new. new.made ≡ old.made + stored };

    // Stores the numbers, and returns how many of them the store had room for.
    fn serve<W: Worker<u64>>(&self, worker: &mut W, _shared: ()) -> u32
        ensures serves { (W.counts worker.new).made ≡ (W.counts worker.old).made + result }
    {
        let mut stored = 0;
        for number in 0..self.each {
            if store_number(worker, u64::from(number)) {
                stored += 1;
            }
        }
        stored
    }
}

// Stores one number, and returns whether there was room.
fn store_number<W: Worker<u64>>(worker: &mut W, number: u64) -> bool
    ensures stored { result ≡ true → (W.counts worker.new).made ≡ (W.counts worker.old).made + 1 }
    ensures full { result ≡ false → (W.counts worker.new).made ≡ (W.counts worker.old).made }
{
    match worker.leak(number, Location::new("counted.rt", 44, 18)) {
        Ok(_) => true,
        Err(_) => false,
    }
}

impl Service<u64> for Filling {
    type End = ();

    type Error = StoreError;

    ghost begins = { λ _ old _ new. new.made ≡ old.made };

    ghost ends = { λ _ _ old _ new. new.made ≡ old.made };

    fn begin<W: Worker<u64>>(&self, worker: &mut W) -> Result<(), StoreError> {
        let _ = worker;
        Ok(())
    }

    fn end<W: Worker<u64>>(&self, worker: &mut W, _shared: ()) -> Result<(), StoreError> {
        let _ = worker;
        Ok(())
    }
}

/// Runs this many workers that store numbers, and returns how many were stored, with the history, which
/// has as many steps that create a box.
pub fn fill<H: Threads + Wait + Sync>(
    rt: &H,
    alloc: Global,
    workers: u32,
    each: u32,
) -> Result<(u64, Base, Vec<Step>), StoreError>
    ensures { IfOk result (λ r. r.0 ≡ trimmed_of Made r.1 + count_of_kind Made r.2.items) }
{
    let served = run_workers::<u64, Filling, H>(rt, alloc, workers, &Filling { each })?;
    let stored = total(workers, served.answers);
    Ok((stored, served.base, served.steps))
}

/// The same without threads: the workers store numbers one after another.
pub fn fill_alone(
    alloc: Global,
    workers: u32,
    each: u32,
) -> Result<(u64, Base, Vec<Step>), StoreError>
    ensures { IfOk result (λ r. r.0 ≡ trimmed_of Made r.1 + count_of_kind Made r.2.items) }
{
    let run = run_alone::<u64, Filling>(alloc, workers, &Filling { each });
    let served = run.outcome?;
    let stored = total(workers, served.answers);
    Ok((stored, served.base, served.steps))
}

// The sum of all workers' results.
fn total(workers: u32, answers: Vec<u32>) -> u64
    requires { length answers.items ≡ workers }
    ensures { result ≡ sum answers.items }
{
    let _ = workers;
    let mut total = 0u64;
    for stored in answers {
        total += u64::from(stored);
    }
    total
}
