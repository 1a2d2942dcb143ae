//! What a Rust programmer writes in another form here.

use anyhow::Result;
use generational_box::{AnyStorage, GenerationalBox, Location, Owner, Storage, UnsyncStorage};

pub fn main(rt: HostRuntime) -> Result<()> {
    // What allocates takes an allocator, and can fail.
    let name = "ada".to_string(rt.alloc())?;
    println!(rt; "{name} {}", "=".repeat(rt.alloc(), 3)?)?;
    let mut store = UnsyncStorage::<u64>::new(rt.alloc(), 1);
    // An owner is linear: no `?` until it is released.
    let owner = store.owner()?;
    let stored = store_one(&mut store, &owner);
    if let Err((owner, _)) = owner.release(&mut store) {
        owner.leak();
    }
    println!(rt; "live: {}", stored?.is_live(&store))?;
    Ok(())
}

// A function, since a `const` can't call one.
fn here() -> Location {
    Location::new("idioms.rt", 23, 5)
}

fn store_one<S: Storage<u64>>(store: &mut S, owner: &Owner) -> Result<GenerationalBox<u64>> {
    let stored = owner.insert(store, 5, here())?;
    // A guard is linear too: match on the result, and release the guard.
    match stored.try_read(store, here()) {
        Ok(guard) => {
            let _ = guard.release(store);
            Ok(stored)
        }
        Err(refused) => Err(refused.into()),
    }
}
