//! A spreadsheet read from standard input: `A1 = 3`, `B1 = A1 + A2 * 2`, `C1 = sum A1 A9`, `show B1`,
//! `watch B1`, `clear A1`. After each line it prints which watched cells have changed.
#![tactic(auto)]

mod formula;
mod sheet;

use crate::sheet::Sheet;
use anyhow::Result;
use generational_box::UnsyncStorage;
use reactive::Reactive;

fn main(rt: HostRuntime) -> Result<()> {
    let store = UnsyncStorage::new(rt.alloc(), 1);
    let mut sheet = Sheet::new(rt.alloc(), Reactive::new(rt.alloc(), store));
    for line in rt.lines(rt.alloc()) {
        let line = line?;
        if let Err(refused) = sheet.carry_out(&rt, line.trim()) {
            println!(rt; "{refused}: {line}")?;
        }
    }
    Ok(())
}
