//! A worker that makes checkpoints, so that the history stays short.

use anyhow::Result;
use generational_box::Location;
use generational_workers::{Job, Service, Worker, run_workers};
use std::sync::Wait;
use std::thread::Threads;

pub fn main<H: Threads + Wait + Print + AllocGlobal + Sync>(rt: &H) -> Result<()> {
    let served = run_workers::<u64, Steady, H>(rt, rt.alloc(), 1, &Steady)?;
    for answer in served.answers {
        answer?;
    }
    println!(rt; "{} of 375 steps are left", served.steps.len())?;
    Ok(())
}

struct Steady;

impl Job<u64> for Steady {
    const CHECKPOINT_EVERY: u64 = 100;

    type Shared = ();

    type Answer = Result<()>;

    // Stores 125 values, and reads each: 250 calls that are counted, and 125 releases.
    fn serve<W: Worker<u64>>(&self, worker: &mut W, _shared: ()) -> Result<()> {
        let here = Location::new("steady.rt", 29, 20);
        for number in 0..125 {
            let stored = worker.leak(number, here)?;
            worker.with(stored, here, |value| *value)?;
        }
        Ok(())
    }
}

impl Service<u64> for Steady {
    type End = ();

    type Error = anyhow::Error;

    fn begin<W: Worker<u64>>(&self, _worker: &mut W) -> Result<()> {
        Ok(())
    }

    fn end<W: Worker<u64>>(&self, _worker: &mut W, _shared: ()) -> Result<()> {
        Ok(())
    }
}
