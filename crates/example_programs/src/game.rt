//! A game: ships that sail and sink, saved as bytes, and loaded again under a number that no store had.

ghost use Rattle.std.specs.Prelude.{◌≡◌, ℕ, None};
ghost use Rattle.entity_table.specs.Components.{component_in};
ghost use Rattle.entity_table.specs.Tables.{Entity};
ghost use Rattle.handles.specs.Handles.{IsOther};

use crate::saving::SavedStorage;
use anyhow::{Result, bail};
use entity_table::{ComponentSet, ComponentTable, Entity, EntityParts, EntityTable, Sites};
use example_files::{read_rows, write_rows};
use generational_box::{GenerationalBoxId, Loaded, Location, Storage, UnsyncStorage};
use std::alloc::Global;

/// The ships, each with the number of hits that it bears, and the player's.
#[derive(Drop)]
struct Game<S: Storage<u32>> {
    ships: EntityTable<u32, S>,
    gear: Gear,
    player: Entity<u32>,
}

/// What a ship may have.
#[derive(Drop)]
struct Gear {
    // How far east it is.
    places: ComponentTable<u32, u64>,
    // How far it sails in an hour: a buoy has no speed.
    speeds: ComponentTable<u32, u64>,
}

impl ComponentSet<u32> for Gear {
    ghost has_none = { λ g e. (component_in g.places e ≡ None) × (component_in g.speeds e ≡ None) };

    ghost has_same = { λ g h e. (component_in h.places e ≡ component_in g.places e)
        × (component_in h.speeds e ≡ component_in g.speeds e) };

    fn remove_in_all(&mut self, ship: Entity<u32>)
        ensures gone { (component_in self.new.places ship ≡ None)
            × (component_in self.new.speeds ship ≡ None) }
        ensures others { (e : Entity ℕ) → IsOther ship e →
            (component_in self.new.places e ≡ component_in self.old.places e)
            × (component_in self.new.speeds e ≡ component_in self.old.speeds e) }
    {
        self.places.remove(ship);
        self.speeds.remove(ship);
    }
}

pub fn main(rt: &HostRuntime) -> Result<()> {
    let alloc = rt.alloc();
    run(
        rt,
        alloc,
        EntityTable::new(alloc, UnsyncStorage::new(alloc, 1)),
    )
}

fn run<R: Print, S: SavedStorage>(rt: &R, alloc: Global, ships: EntityTable<u32, S>) -> Result<()> {
    let mut game = begin(alloc, ships)?;
    play(rt, &mut game)?;
    let bytes = save_game(alloc, &game)?;
    let lost = lose(rt, &mut game)?;
    let mut game: Game<S> = load_game(alloc, 2, &bytes)?;
    resume(rt, &mut game, lost)
}

// A game in which the player has a ship.
fn begin<S: Storage<u32> + Drop>(alloc: Global, mut ships: EntityTable<u32, S>) -> Result<Game<S>> {
    let player = ships.spawn(9, Location::new("game.rt", 70, 33))?;
    let gear = Gear {
        places: ComponentTable::new(alloc, &ships),
        speeds: ComponentTable::new(alloc, &ships),
    };
    Ok(Game {
        ships,
        gear,
        player,
    })
}

// The player meets a raider, which sinks.
fn play<R: Print, S: Storage<u32>>(rt: &R, game: &mut Game<S>) -> Result<()> {
    let raider = fill(game)?;
    game.sail();
    println!(rt; "{raider} sinks: {}", game.hit(raider)?)?;
    game.show(rt, "saved")
}

// Gives the player's ship its gear, and launches a buoy and a raider. Returns the raider.
fn fill<S: Storage<u32>>(game: &mut Game<S>) -> Result<Entity<u32>> {
    game.gear.places.attach(&game.ships, game.player, 0)?;
    game.gear.speeds.attach(&game.ships, game.player, 3)?;
    game.launch(5, 20)?;
    game.launch(2, 7)
}

// The run that is lost: a ship is launched after the save.
fn lose<R: Print, S: Storage<u32>>(rt: &R, game: &mut Game<S>) -> Result<Entity<u32>> {
    let lost = game.launch(4, 30)?;
    game.sail();
    game.show(rt, "lost")?;
    Ok(lost)
}

// The game that was loaded goes on.
fn resume<R: Print, S: Storage<u32>>(rt: &R, game: &mut Game<S>, lost: Entity<u32>) -> Result<()> {
    game.show(rt, "loaded")?;
    println!(rt; "the player bears {}", game.ships.get(game.player)?)?;
    go_on(rt, game)?;
    show_stale(rt, game, lost)
}

// The next ship has the slot and the generation of the lost one.
fn go_on<R: Print, S: Storage<u32>>(rt: &R, game: &mut Game<S>) -> Result<()> {
    game.launch(6, 40)?;
    game.sail();
    game.show(rt, "next")
}

fn show_stale<R: Print, S: Storage<u32>>(rt: &R, game: &Game<S>, ship: Entity<u32>) -> Result<()> {
    if let Err(stale) = game.ships.get(ship) {
        println!(rt; "lost {ship}: {stale}")?;
    }
    Ok(())
}

impl<S: Storage<u32>> Game<S> {
    // Launches a ship without a speed.
    fn launch(&mut self, hits: u32, place: u64) -> Result<Entity<u32>> {
        let ship = self.ships.spawn(hits, Location::new("game.rt", 131, 43))?;
        self.gear.places.attach(&self.ships, ship, place)?;
        Ok(ship)
    }

    // An hour passes: each ship that has a speed has sailed, and each bears a hit less.
    fn sail(&mut self) {
        let step = |_: Entity<u32>, place: &mut u64, speed: &mut u64| {
            *place = place.wrapping_add(*speed);
        };
        self.gear.places.for_each2_mut(&mut self.gear.speeds, step);
        self.ships.for_each_mut(|_: Entity<u32>, hits: &mut u32| {
            *hits = hits.saturating_sub(1);
        });
    }

    // Hits a ship. Returns whether it sinks, with all that it has.
    fn hit(&mut self, ship: Entity<u32>) -> Result<bool> {
        let left = self.ships.update(ship, |hits: &mut u32| {
            *hits = hits.saturating_sub(1);
            *hits
        })?;
        if left == 0 {
            self.ships.despawn_with(ship, &mut self.gear)?;
        }
        Ok(left == 0)
    }

    fn show<R: Print>(&self, rt: &R, when: &str) -> Result<()> {
        for (ship, hits, place) in self.gear.places.join(&self.ships) {
            let speed = self.gear.speeds.get(ship).copied();
            println!(rt; "{when} {ship}: bears {hits}, at {place}, speed {speed:?}")?;
        }
        Ok(())
    }
}

// The components of a table, each with the id of its ship.
type Rows = Vec<(GenerationalBoxId, u64)>;

// What a save has beside the image of the store: the player's ship, the places and the speeds.
type Save = (GenerationalBoxId, (Rows, Rows));

// Saves a game that goes on.
fn save_game<S: SavedStorage>(alloc: Global, game: &Game<S>) -> Result<Vec<u8>> {
    let places = rows_of(alloc, &game.gear.places)?;
    let speeds = rows_of(alloc, &game.gear.speeds)?;
    let save: Save = (game.player.id(), (places, speeds));
    let image = game.ships.store().save()?;
    Ok(write_rows(alloc, &save, &image)?)
}

fn rows_of(alloc: Global, table: &ComponentTable<u32, u64>) -> Result<Rows> {
    let mut rows = Vec::with_capacity(alloc, table.len())?;
    for (ship, component) in table.iter() {
        rows.push((ship.id(), *component))?;
    }
    Ok(rows)
}

// Loads a game under a number that no store had.
fn load_game<S: SavedStorage>(alloc: Global, number: u64, bytes: &[u8]) -> Result<Game<S>> {
    let here = Location::new("game.rt", 193, 16);
    let (save, image) = read_rows::<Save, u32>(alloc, bytes, &["game.rt"], here)?;
    let (store, loaded) = S::load(alloc, number, image)?;
    game_of(alloc, store, &loaded, save)
}

// The game of a store that was loaded.
fn game_of<S: Storage<u32> + Drop>(
    alloc: Global,
    store: S,
    loaded: &Loaded,
    save: Save,
) -> Result<Game<S>> {
    let (player, (places, speeds)) = save;
    let ships = ships_of(alloc, store)?;
    let gear = Gear {
        places: table_of(alloc, &ships, loaded, places)?,
        speeds: table_of(alloc, &ships, loaded, speeds)?,
    };
    match loaded.adopt(player).and_then(|id| ships.find(id)) {
        Some(player) => Ok(Game {
            ships,
            gear,
            player,
        }),
        None => bail!("the player has no ship"),
    }
}

fn ships_of<S: Storage<u32> + Drop>(alloc: Global, store: S) -> Result<EntityTable<u32, S>> {
    let sites = Sites::new(alloc);
    Ok(EntityTable::from_parts(alloc, EntityParts { store, sites })?)
}

fn table_of<S: Storage<u32>>(
    alloc: Global,
    ships: &EntityTable<u32, S>,
    loaded: &Loaded,
    mut rows: Rows,
) -> Result<ComponentTable<u32, u64>> {
    adopt(loaded, &mut rows);
    Ok(ComponentTable::from_parts(alloc, ships, rows)?)
}

// Makes the ids of rows those of the loaded ships. An id of none stays, and makes no table.
fn adopt(loaded: &Loaded, rows: &mut Rows) {
    for row in rows.iter_mut() {
        if let Some(id) = loaded.adopt(row.0) {
            row.0 = id;
        }
    }
}
