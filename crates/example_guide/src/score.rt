//! A box in a few lines: a value is stored, changed in place, read by a copy of the box, and dropped.

use anyhow::Result;
use generational_box::{GenerationalBox, Location, Storage, UnsyncStorage};

pub fn main(rt: HostRuntime) -> Result<()> {
    let mut store = UnsyncStorage::<u64>::new(rt.alloc(), 1);
    visit(&rt, &mut store)
}

fn visit<R: Print, S: Storage<u64>>(rt: &R, store: &mut S) -> Result<()> {
    let score = GenerationalBox::leak(store, 7, Location::new("score.rt", 12, 17))?;
    let copy = score;
    score.with_mut(store, |value| *value = 8);
    println!(rt; "{copy:?}: {:?}", copy.peek(store).map(|value| *value))?;
    score.manually_drop(store)?;
    println!(rt; "{copy:?}: {:?}", copy.peek(store).map(|value| *value))?;
    if let Err(refused) = raise(store, copy) {
        println!(rt; "{refused}")?;
    }
    Ok(())
}

fn raise<S: Storage<u64>>(store: &mut S, score: GenerationalBox<u64>) -> Result<()> {
    let mut writer = score.try_write(store, Location::new("score.rt", 25, 22))?;
    *writer.deref_mut() = 9;
    let _ = writer.release(store);
    Ok(())
}
