//! Threads: sessions of a server, in a store that four workers share.

ghost use Rattle.shared_state.specs.Shared.{IsBlank};

use anyhow::{Result, anyhow};
use generational_box::{GenerationalBox, Location, Owner};
use generational_sync::{Count, SyncStorage, Tally};
use std::alloc::Global;
use std::marker::Brand;
use std::sync::Wait;
use std::sync::ledger::Blank;
use std::thread;
use std::thread::Threads;

// How many workers share the store.
const WORKERS: usize = 4;

// How many clients each of them serves.
const CLIENTS: u64 = 25;

pub fn main<H: Threads + Wait + Print + AllocGlobal + Sync>(rt: &H) -> Result<()> {
    let parts = WORKERS as u64;
    let (total, steps) = serve_all::<Brand, Brand, Brand, Brand, H>(
        rt,
        rt.alloc(),
        Blank::new(parts),
        Blank::new(parts),
        Blank::new(parts),
        Blank::new(parts),
    )?;
    println!(rt; "total {total}, {steps} steps audited")?;
    Ok(())
}

/// What a worker has of the store: a handle, and the tally of its own steps.
#[derive(Drop)]
struct Worker<M: Count, L: Count, C: Count, R: Count> {
    store: SyncStorage<u64, 7, M, L, C, R>,
    tally: Tally<M, L, C, R>,
}

// Makes the store, starts a thread for each worker, and audits what they did. Returns what
// they added up, and how many steps the store took.
fn serve_all<
    M: Count + Send + Sync,
    L: Count + Send + Sync,
    C: Count + Send + Sync,
    R: Count + Send + Sync,
    H: Threads + Wait + Sync,
>(
    rt: &H,
    alloc: Global,
    made: Blank,
    lent: Blank,
    changed: Blank,
    refused: Blank,
) -> Result<(u64, usize)>
    requires made { IsBlank 4 made M.name M.parts M.workers }
    requires lent { IsBlank 4 lent L.name L.parts L.workers }
    requires changed { IsBlank 4 changed C.name C.parts C.workers }
    requires refused { IsBlank 4 refused R.name R.parts R.workers }
{
    let (store, tallies) = SyncStorage::<u64, 7, M, L, C, R>::new(
        alloc, WORKERS, made, lent, changed, refused,
    )?;
    let mut workers = Vec::new(alloc);
    for tally in tallies {
        let store = store.try_clone()?;
        workers.push(Worker { store, tally })?;
    }
    let Some(first) = workers.first_mut() else {
        return Err(anyhow!("no worker"));
    };
    let here = Location::new("threads.rt", 74, 16);
    let total = first.store.leak(rt, 0, here, &mut first.tally)?;
    let served = thread::map_vec(
        rt,
        workers,
        &|mut worker: Worker<M, L, C, R>| {
            let served = worker.serve_clients(rt, total);
            (worker.tally, served)
        },
    )?;
    let mut whole = gather(served)?;
    let reader = store.read(rt, total, here, &mut whole)?;
    let sum = store.open(rt, &reader, |value| *value);
    store.release_read(rt, reader, &mut whole);
    if !whole.is_whole() {
        return Err(anyhow!("a tally is missing"));
    }
    let (_, steps) = store.audit(rt, &mut whole)?;
    Ok((sum.unwrap_or(0), steps.len()))
}

impl<M: Count, L: Count, C: Count, R: Count> Worker<M, L, C, R> {
    // Serves clients one by one. Each has a session, whose values end with it.
    fn serve_clients(&mut self, rt: &impl Wait, total: GenerationalBox<u64>) -> Result<()> {
        for client in 0..CLIENTS {
            let session = self.store.owner(rt, &mut self.tally)?;
            let served = self.serve(rt, &session, client, total);
            if let Err((session, _)) = self.store.release_owner(rt, session, &mut self.tally) {
                session.leak();
            }
            served?;
        }
        Ok(())
    }

    // Keeps a value in the session, reads it, and adds it to the total. A write waits while another
    // worker has the total.
    fn serve(
        &mut self,
        rt: &impl Wait,
        session: &Owner,
        value: u64,
        total: GenerationalBox<u64>,
    ) -> Result<()> {
        let here = Location::new("threads.rt", 118, 20);
        let kept = self
            .store
            .insert(rt, session, value, here, &mut self.tally)?;
        let reader = self.store.read(rt, kept, here, &mut self.tally)?;
        let seen = self.store.open(rt, &reader, |value| *value);
        self.store.release_read(rt, reader, &mut self.tally);
        let mut writer = self.store.write(rt, total, here, &mut self.tally)?;
        let sum = (*writer.deref()).wrapping_add(seen.unwrap_or(0));
        *writer.deref_mut() = sum;
        let _ = self.store.release_write(rt, writer, &mut self.tally);
        Ok(())
    }
}

// All tallies in one: the store is audited with it.
fn gather<M: Count, L: Count, C: Count, R: Count>(
    mut served: Vec<(Tally<M, L, C, R>, Result<()>)>,
) -> Result<Tally<M, L, C, R>> {
    let Some((mut whole, first)) = served.pop() else {
        return Err(anyhow!("no worker"));
    };
    first?;
    for (tally, each) in served {
        each?;
        if whole.merge(tally).is_err() {
            return Err(anyhow!("a tally of another store"));
        }
    }
    Ok(whole)
}
