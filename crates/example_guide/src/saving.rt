//! A game that is saved, goes on, and is loaded from the older save: under a new number.

use anyhow::Result;
use generational_box::{GenerationalBox, GenerationalBoxId, Location, Storage, UnsyncStorage};

pub fn main(rt: HostRuntime) -> Result<()> {
    let here = Location::new("saving.rt", 7, 16);
    let mut store = UnsyncStorage::<u64>::new(rt.alloc(), 1);
    let hero = GenerationalBox::leak(&mut store, 100, here)?.id();
    let save = store.image()?;
    // The game goes on: a monster gets an id that the save doesn't know.
    let monster = GenerationalBox::leak(&mut store, 7, here)?.id();
    // The older save is loaded, as store 2. Its next value has the monster's slot and generation.
    let (mut store, loaded) = match UnsyncStorage::from_image_as(rt.alloc(), 2, save) {
        Ok(both) => both,
        Err(refusal) => return Err(refusal.cause.into()),
    };
    let friend = GenerationalBox::leak(&mut store, 8, here)?.id();
    println!(rt; "the monster was {monster:?}, the friend is {friend:?}")?;
    println!(rt; "hero: {:?}", strength_of(&store, loaded.adopt(hero)))?;
    println!(rt; "monster: {:?}", strength_of(&store, loaded.adopt(monster)))?;
    println!(rt;
        "the monster's id: {:?}",
        strength_of(&store, Some(monster))
    )?;
    Ok(())
}

fn strength_of<S: Storage<u64>>(store: &S, id: Option<GenerationalBoxId>) -> Option<u64> {
    GenerationalBox::find(store, id?)?.peek(store).copied()
}
