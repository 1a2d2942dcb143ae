//! Getting started: a value that must be consumed is made, borrowed and consumed.

use anyhow::Result;
use generational_box::{Location, Storage, UnsyncStorage};
use session_table::SessionTable;

/// The keys of a session's values.
#[derive(Clone, Copy, PartialEq, Eq, Hash)]
pub enum Key {
    Basket,
}

pub fn main(rt: HostRuntime) -> Result<()> {
    // The table is linear: it must reach `finish()`, so don't return early (no `?`) between these lines.
    let store = UnsyncStorage::<u64>::new(rt.alloc(), 1);
    let mut table = SessionTable::new(rt.alloc(), store);
    let visited = visit(&rt, &mut table);
    let _ = table.finish();
    visited
}

// The table is only borrowed here, so each `?` may end the function.
fn visit<R: Print, S: Storage<u64>>(
    rt: &R,
    table: &mut SessionTable<u64, Key, u64, S>,
) -> Result<()> {
    table.login(7, 1000)?;
    let basket = table.put(&7, Key::Basket, 42, Location::new("started.rt", 28, 24))?;
    println!(rt; "session 7 keeps {}", table.get(basket)?)?;
    table.logout(&7);
    match table.get(basket) {
        Ok(_) => println!(rt; "it is still there")?,
        Err(stale) => println!(rt; "{stale}")?,
    }
    Ok(())
}
