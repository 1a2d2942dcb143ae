//! Stores that are saved and loaded again.

ghost use Rattle.std.specs.Prelude.{◌≡◌, ◌≢◌, Some, None, IfOk, IfErr, IfSome};
ghost use Rattle.generational_core.specs.Texts.{id_text};
ghost use Rattle.generational_core.specs.declared.boxes.GenerationalBoxId.{GenerationalBoxId};
ghost use Rattle.generational_box.specs.Images.{told, IsStateCopy, IsWholeImage};
ghost use Rattle.generational_box.specs.Images.{adopted};

use generational_box::{
    GenerationalBoxId, Image, LoadError, Loaded, SlotPool, Store, box_id, parse_box_id,
};
use std::alloc::Global;

/// Saves a store and loads it again: the same state. If it can't be saved, it is returned unchanged; if
/// an allocation fails in the load, its image is returned, which can be loaded later.
pub fn load_again<T: Drop, P: SlotPool>(
    alloc: Global,
    store: Store<T, P>,
) -> Result<Store<T, P>, Image<T>>
    ensures same { IfOk result (λ again. again.state ≡ store.state) }
    ensures kept { IfErr result (λ image. told image ≡ store.state) }
    ensures whole { IfErr result IsWholeImage }
{
    let image = match store.into_image() {
        Ok(image) => image,
        Err((store, _)) => return Ok(store),
    };
    match Store::from_image(alloc, image) {
        Ok(again) => Ok(again),
        Err(refusal) => Err(refusal.image),
    }
}

/// A copy of a store, with the same state: each value is a clone, which is equal.
pub fn copy_of<P: SlotPool>(alloc: Global, store: &Store<u64, P>) -> Option<Store<u64, P>>
    ensures { IfSome result (λ copy. copy.state ≡ store.now.state) }
{
    let Ok(image) = store.image() else {
        return None;
    };
    match Store::from_image(alloc, image) {
        Ok(copy) => Some(copy),
        Err(_) => None,
    }
}

/// Loads an image that is known to be whole. Only an allocation may fail.
pub fn load_whole<T: Drop, P: SlotPool>(
    alloc: Global,
    image: Image<T>,
) -> Result<Store<T, P>, Image<T>>
    requires { IsWholeImage image }
    ensures loaded { IfOk result (λ store. store.state ≡ told image) }
    ensures back { IfErr result (λ back. back ≡ image) }
{
    match Store::from_image(alloc, image) {
        Ok(store) => Ok(store),
        Err(refusal) => match refusal.cause {
            LoadError::OutOfMemory => Err(refusal.image),
            LoadError::Unsound(_) => unreachable!(),
        },
    }
}

/// Two ids of an image, under the number of the store that was loaded. They stay apart.
pub fn adopted_apart(
    loaded: &Loaded,
    one: GenerationalBoxId,
    other: GenerationalBoxId,
) -> Option<(GenerationalBoxId, GenerationalBoxId)>
    requires { one ≢ other }
    ensures ids { IfSome result (λ both.
        (adopted loaded.now one ≡ Some both.0) × (adopted loaded.now other ≡ Some both.1)) }
    ensures apart { IfSome result (λ both. both.0 ≢ both.1) }
{
    let one = loaded.adopt(one)?;
    let other = loaded.adopt(other)?;
    Some((one, other))
}

/// The id of three numbers, found by the text that it prints: the same id.
pub fn parsed_again(
    store: u64,
    slot: usize,
    generation: u64,
    text: &str,
) -> (GenerationalBoxId, Option<GenerationalBoxId>)
    requires { text.now
        ≡ id_text (record { store = store; slot = slot; generation = generation }) }
    ensures { result.1 ≡ Some result.0 }
{
    (box_id(store, slot, generation), parse_box_id(store, text))
}
