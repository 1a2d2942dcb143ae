//! Entities: actors with a strength each, and some with a score beside.

use anyhow::Result;
use entity_table::{ComponentTable, Entity, EntityTable};
use generational_box::{Location, Storage, UnsyncStorage};

pub fn main(rt: HostRuntime) -> Result<()> {
    let strengths = UnsyncStorage::<u64>::new(rt.alloc(), 1);
    let mut actors = EntityTable::new(rt.alloc(), strengths);
    let mut scores = ComponentTable::new(rt.alloc(), &actors);
    play(&rt, &mut actors, &mut scores)
}

fn play<R: Print, A: Storage<u64>>(
    rt: &R,
    actors: &mut EntityTable<u64, A>,
    scores: &mut ComponentTable<u64, u64>,
) -> Result<()> {
    let dog = begin(actors, scores)?;
    // The dog is removed: its handle is stale, even if its slot is reused.
    actors.despawn(dog)?;
    scores.sweep(actors);
    show(rt, actors, scores)?;
    if let Err(stale) = actors.get(dog) {
        println!(rt; "{stale}")?;
    }
    Ok(())
}

// Spawns a cat with a score, and a dog, and trains them. Returns the dog.
fn begin<A: Storage<u64>>(
    actors: &mut EntityTable<u64, A>,
    scores: &mut ComponentTable<u64, u64>,
) -> Result<Entity<u64>> {
    let here = Location::new("actors.rt", 35, 16);
    let cat = actors.spawn(9, here)?;
    let dog = actors.spawn(7, here)?;
    scores.attach(actors, cat, 100)?;
    train(actors, scores);
    Ok(dog)
}

// Adds to the strength of each actor that has a score.
fn train<A: Storage<u64>>(actors: &mut EntityTable<u64, A>, scores: &ComponentTable<u64, u64>) {
    actors.for_each_mut(|actor: Entity<u64>, strength: &mut u64| {
        if let Some(score) = scores.get(actor) {
            *strength = strength.wrapping_add(*score / 100);
        }
    });
}

fn show<R: Print, A: Storage<u64>>(
    rt: &R,
    actors: &EntityTable<u64, A>,
    scores: &ComponentTable<u64, u64>,
) -> Result<()> {
    for (actor, strength) in actors.iter() {
        let score = scores.get(actor).copied();
        println!(rt; "{actor:?}: strength {strength}, score {score:?}")?;
    }
    Ok(())
}
