//! Boxes: a value is stored, read, written (which fails while it is read), and dropped with its owner.

use anyhow::Result;
use generational_box::{GenerationalBox, Location, Owner, Storage, UnsyncStorage};

pub fn main(rt: HostRuntime) -> Result<()> {
    let mut store = UnsyncStorage::<u64>::new(rt.alloc(), 1);
    visit(&rt, &mut store)
}

// Creates an owner, passes a reference to it, then releases it, dropping everything it owns.
fn visit<R: Print, S: Storage<u64>>(rt: &R, store: &mut S) -> Result<()> {
    let owner = store.owner()?;
    let seen = keep(rt, store, &owner);
    if let Err((owner, _)) = owner.release(store) {
        owner.leak();
    }
    let kept = seen?;
    println!(rt; "live: {}", kept.is_live(store))?;
    Ok(())
}

// Stores 7 by an owner, reads it, and makes it 8.
fn keep<R: Print, S: Storage<u64>>(
    rt: &R,
    store: &mut S,
    owner: &Owner,
) -> Result<GenerationalBox<u64>> {
    let kept = owner.insert(store, 7, line(29))?;
    let reader = kept.try_read(store, line(30))?;
    let refused = write(store, kept, 9);
    let value = reader.deref(store).map(|view| *view);
    reader.release(store);
    if let (Some(value), Err(refusal)) = (value, refused) {
        println!(rt; "{value}; {refusal}")?;
    }
    // It isn't borrowed any more, so a closure changes it in place.
    kept.with_mut(store, |value| *value = 8);
    if let Some(value) = kept.peek(store) {
        println!(rt; "{kept:?} is {value}")?;
    }
    Ok(kept)
}

// Writes a value in place. It fails while the value is read or written elsewhere.
fn write<S: Storage<u64>>(store: &mut S, kept: GenerationalBox<u64>, value: u64) -> Result<()> {
    let mut writer = kept.try_write(store, line(47))?;
    *writer.deref_mut() = value;
    let _ = writer.release(store);
    Ok(())
}

// Where a call is made: errors say it.
fn line(line: u32) -> Location {
    Location::new("values.rt", line, 5)
}
