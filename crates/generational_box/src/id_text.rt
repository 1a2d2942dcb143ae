//! Ids from numbers, and from texts.

ghost use Rattle.std.specs.Prelude.{◌≡◌, ◌<◌, ◌^◌, ◌↔◌, ◌⊎◌, ℕ, Some, IsTrue, length, slice_index};
ghost use Rattle.std.specs.Fmt.{decimal};
ghost use Rattle.generational_core.specs.declared.boxes.GenerationalBoxId.{GenerationalBoxId};
ghost use Rattle.generational_box.specs.IdTexts.{IsIdText};

use generational_core::GenerationalBoxId;
use generational_core::parts::id_at;

/// The id of this slot of the store with this number, under this generation. It needn't be one that was
/// issued: `GenerationalBox::find` returns a box only if its cell is live.
///
/// Upstream has no such call.
pub fn box_id(store: u64, slot: usize, generation: u64) -> GenerationalBoxId
    ensures { result ≡ record { store = store; slot = slot; generation = generation } }
{
    id_at(store, slot, generation)
}

/// The id of the store with this number that prints as this text: `slot@generation`, both decimal,
/// without a sign or leading zeros. None for any other text. Doesn't allocate. It needn't be an id that
/// was issued.
///
/// Upstream has no such call.
pub fn parse_box_id(number: u64, text: &str) -> Option<GenerationalBoxId>
    ensures { (id : GenerationalBoxId) → (result ≡ Some id) ↔ IsIdText number text.now id }
{
    let (slot, generation) = text.split_once('@')?;
    let slot = parse_number(slot)?;
    let generation = parse_number(generation)?;
    Some(box_id(number, slot as usize, generation))
}

// The number of 64 bits of which this is the decimal text.
fn parse_number(word: &str) -> Option<u64>
    ensures { (n : ℕ) → (result ≡ Some n) ↔ ((n < 2 ^ 64) × (word.now ≡ decimal n)) }
{
    if !may_be_decimal(word) {
        return None;
    }
    match word.parse::<u64>() {
        Ok(number) => Some(number),
        Err(_) => None,
    }
}

// Whether it has one byte, or begins above '0': so it has no leading zero, and no sign before digits.
fn may_be_decimal(word: &str) -> bool
    ensures { IsTrue result ↔ ((length word.now ≡ 1) ⊎ (48 < slice_index word.now 0)) }
{
    match word.as_bytes() {
        [_] => true,
        [first, ..] => *first > b'0',
        [] => false,
    }
}
