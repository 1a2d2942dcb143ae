//! Workers: sessions of a server, in a store that four workers share.

use anyhow::Result;
use generational_box::{GenerationalBox, Location, Owner};
use generational_workers::{Job, Service, Worker, run_workers};
use std::sync::Wait;
use std::thread::Threads;

// How many clients each worker serves.
const CLIENTS: u64 = 25;

pub fn main<H: Threads + Wait + Print + AllocGlobal + Sync>(rt: &H) -> Result<()> {
    let served = run_workers::<u64, Server, H>(rt, rt.alloc(), 4, &Server)?;
    for answer in served.answers {
        answer?;
    }
    let steps = served.steps.len();
    println!(rt; "total {}, {steps} steps audited", served.end)?;
    Ok(())
}

pub struct Server;

impl Job<u64> for Server {
    type Shared = GenerationalBox<u64>;

    type Answer = Result<()>;

    // Serves clients one by one. Each has a session, whose values are dropped with it.
    fn serve<W: Worker<u64>>(&self, worker: &mut W, total: GenerationalBox<u64>) -> Result<()> {
        for client in 0..CLIENTS {
            worker.with_owner(|worker, session| serve_client(worker, session, client, total))??;
        }
        Ok(())
    }
}

impl Service<u64> for Server {
    type End = u64;

    type Error = anyhow::Error;

    // Makes the total that the workers share.
    fn begin<W: Worker<u64>>(&self, worker: &mut W) -> Result<GenerationalBox<u64>> {
        Ok(worker.leak(0, Location::new("workers.rt", 45, 19))?)
    }

    // Reads the total.
    fn end<W: Worker<u64>>(&self, worker: &mut W, total: GenerationalBox<u64>) -> Result<u64> {
        let here = Location::new("workers.rt", 50, 20);
        Ok(worker.with(total, here, |sum| *sum)?)
    }
}

// Stores a value in the session, reads it, and adds it to the total. The write waits while another
// worker writes the total.
fn serve_client<W: Worker<u64>>(
    worker: &mut W,
    session: &Owner,
    value: u64,
    total: GenerationalBox<u64>,
) -> Result<()> {
    let here = Location::new("workers.rt", 63, 16);
    let kept = worker.insert(session, value, here)?;
    let seen = worker.with(kept, here, |value| *value)?;
    worker.with_mut(total, here, |sum| *sum = (*sum).wrapping_add(seen))?;
    Ok(())
}
