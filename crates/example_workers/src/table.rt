//! Sessions shared by threads: a table of sessions behind one lock.

use anyhow::Result;
use generational_box::{Location, UnsyncStorage};
use session_table::SessionTable;
use std::sync::{Mutex, Wait};
use std::thread;
use std::thread::Threads;

type Sessions = SessionTable<u64, u64, u64, UnsyncStorage<u64>>;

pub fn main<H: Threads + Wait + Print + AllocGlobal + Sync>(rt: &H) -> Result<()> {
    let table = Mutex::new(Sessions::new(rt.alloc(), UnsyncStorage::new(rt.alloc(), 1)));
    let shared = &table;
    let served = thread::map_indices(rt, rt.alloc(), 4, &|worker| serve(rt, shared, worker));
    let sessions = table.into_inner();
    let left = sessions.len();
    drop(sessions.finish());
    for answer in served? {
        answer?;
    }
    println!(rt; "{left} sessions are left")?;
    Ok(())
}

// Each client logs in, stores a value and changes it; all but the last log out.
fn serve(rt: &impl Wait, shared: &Mutex<Sessions>, worker: usize) -> Result<()> {
    for client in 0..25u64 {
        let id = (worker as u64).wrapping_mul(100).wrapping_add(client);
        shared.lock(rt).login(id, client)?;
        let here = Location::new("table.rt", 32, 38);
        let basket = shared.lock(rt).put(&id, 1, client, here)?;
        shared.lock(rt).update(basket, |v| *v = v.wrapping_add(1))?;
        if client < 24 {
            shared.lock(rt).logout(&id);
        }
    }
    Ok(())
}
