//! Sessions shared by threads: the same over a store that workers share.

use anyhow::Result;
use generational_box::{Location, Owner};
use generational_workers::{Job, Service, Worker, run_workers};
use std::sync::Wait;
use std::thread::Threads;

pub fn main<H: Threads + Wait + Print + AllocGlobal + Sync>(rt: &H) -> Result<()> {
    let served = run_workers::<u64, Sessions, H>(rt, rt.alloc(), 4, &Sessions)?;
    let (left, steps) = (served.answers.len(), served.steps.len());
    for answer in served.answers {
        answer?;
    }
    println!(rt; "{left} sessions are left, {steps} steps audited")?;
    Ok(())
}

struct Sessions;

impl Job<u64> for Sessions {
    type Shared = ();

    type Answer = Result<()>;

    // Each client has a session, which stores a value and changes it; all but the last log out.
    fn serve<W: Worker<u64>>(&self, worker: &mut W, _shared: ()) -> Result<()> {
        for client in 0..24 {
            worker.with_owner(|worker, session| visit(worker, session, client))??;
        }
        let session = worker.owner()?;
        let visited = visit(worker, &session, 24);
        session.leak();
        visited
    }
}

impl Service<u64> for Sessions {
    type End = ();

    type Error = anyhow::Error;

    fn begin<W: Worker<u64>>(&self, _worker: &mut W) -> Result<()> {
        Ok(())
    }

    fn end<W: Worker<u64>>(&self, _worker: &mut W, _shared: ()) -> Result<()> {
        Ok(())
    }
}

fn visit<W: Worker<u64>>(worker: &mut W, session: &Owner, client: u64) -> Result<()> {
    let basket = worker.insert(session, client, Location::new("sessions.rt", 53, 25))?;
    let changed = worker.set(basket, client.wrapping_add(1));
    Ok(changed.map_err(|back| back.1)?)
}
