//! When memory runs out: an insertion that fails returns its value, and the store can be used on.

use anyhow::Result;
use generational_box::{GenerationalBox, Location, Refusal, Storage, UnsyncStorage};

pub fn main(rt: HostRuntime) -> Result<()> {
    let mut store = UnsyncStorage::<u64>::new(rt.alloc(), 1);
    // Room for a thousand values is reserved before the work begins.
    store.reserve(1000)?;
    // No store has room for so many: it fails, and nothing changes.
    if let Err(cause) = store.reserve(usize::MAX) {
        println!(rt; "{cause}")?;
    }
    keep(&rt, &mut store)
}

fn keep<R: Print, S: Storage<u64>>(rt: &R, store: &mut S) -> Result<()> {
    match GenerationalBox::leak(store, 7, Location::new("memory.rt", 18, 11)) {
        Ok(kept) => println!(rt; "kept {:?}", kept.peek(store))?,
        Err(Refusal { value, cause }) => println!(rt; "{value} comes back: {cause}")?,
    }
    Ok(())
}
