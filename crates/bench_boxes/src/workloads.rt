//! The workloads, each over an empty store.

ghost use Rattle.std.specs.Prelude.{◌+◌, ◌*◌, ◌<◌, ◌≡◌, ◌≤◌, IfOk, OnOk, length, vec_capacity};
ghost use Rattle.std.specs.Prelude.{vec_len};

use crate::calls::{
    Stopped, end, insert, make, make_shared, new_owner, point, read, read_three, read_two, refer,
    release, write,
};
use crate::element::Element;
use crate::random::Random;
use generational_box::{GenerationalBox, Owner, Storage};
use std::alloc::Global;

// A checksum before any value was seen.
const START: u64 = 0xcbf2_9ce4_8422_2325;

// The number that each step of a checksum multiplies by.
const FACTOR: u64 = 0x100_0000_01b3;

// How many values an owner makes.
const VALUES: usize = 100;

// How many references a shared value has at first.
const REFERENCES: usize = 10;

/// The number that a workload returns: its checksum, or 1 if it couldn't go on.
pub fn answer(outcome: Result<u64, Stopped>) -> u64 {
    outcome.unwrap_or(1)
}

/// w1: values are made, read once in a shuffled order, and ended.
#[inline(always)]
pub fn insert_and_read<E: Element, S: Storage<E> + Drop>(
    alloc: Global,
    mut store: S,
    n: u64,
    seed: u64,
) -> Result<u64, Stopped> {
    let n = count(n)?;
    let mut random = Random::new(seed);
    let mut keys = make_many(alloc, &mut store, &mut random, n)?;
    shuffle(&mut random, &mut keys);
    let checksum = read_each(&mut store, &keys)?;
    end_each(&mut store, &keys)?;
    Ok(checksum)
}

/// w2: values are made; 10n times one is ended and another takes its slot; each is read, and ended.
#[inline(always)]
pub fn churn<E: Element, S: Storage<E> + Drop>(
    alloc: Global,
    mut store: S,
    n: u64,
    seed: u64,
) -> Result<u64, Stopped> {
    let n = count(n)?;
    let mut random = Random::new(seed);
    let mut keys = make_many(alloc, &mut store, &mut random, n)?;
    for _round in 0..10 {
        replace_some(alloc, &mut store, &mut random, &mut keys)?;
    }
    let checksum = read_each(&mut store, &keys)?;
    end_each(&mut store, &keys)?;
    Ok(checksum)
}

/// w3: values are made; 10n times one is read; each is ended.
#[inline(always)]
pub fn read_often<E: Element, S: Storage<E> + Drop>(
    alloc: Global,
    mut store: S,
    n: u64,
    seed: u64,
) -> Result<u64, Stopped> {
    let n = count(n)?;
    let mut random = Random::new(seed);
    let keys = make_many(alloc, &mut store, &mut random, n)?;
    let mut checksum = START;
    for _round in 0..10 {
        checksum = read_some(&mut store, &mut random, &keys, checksum)?;
    }
    end_each(&mut store, &keys)?;
    Ok(checksum)
}

/// w4: values are made; 10n times one is replaced by another; each is ended.
#[inline(always)]
pub fn write_often<E: Element, S: Storage<E> + Drop>(
    alloc: Global,
    mut store: S,
    n: u64,
    seed: u64,
) -> Result<u64, Stopped> {
    let n = count(n)?;
    let mut random = Random::new(seed);
    let keys = make_many(alloc, &mut store, &mut random, n)?;
    let mut checksum = START;
    for _round in 0..10 {
        checksum = write_some(alloc, &mut store, &mut random, &keys, checksum)?;
    }
    end_each(&mut store, &keys)?;
    Ok(checksum)
}

/// w5: ten times, owners make a hundred values each, of which the last is read, and are released.
#[inline(always)]
pub fn own_and_release<E: Element, S: Storage<E> + Drop>(
    alloc: Global,
    mut store: S,
    n: u64,
    seed: u64,
) -> Result<u64, Stopped> {
    let n = count(n)?;
    let mut random = Random::new(seed);
    let mut checksum = START;
    for _round in 0..10 {
        let mut owners = Vec::with_capacity(alloc, n / VALUES)?;
        let made = own_many(
            alloc,
            &mut store,
            &mut random,
            &mut owners,
            n / VALUES,
            checksum,
        );
        let released = release_each(&mut store, owners);
        checksum = made?;
        released?;
    }
    Ok(checksum)
}

/// w6: n / 10 shared values are made, with ten references each; as many times as there are
/// references, one is pointed at the value of another and read; each is ended.
#[inline(always)]
pub fn point_often<E: Element, S: Storage<E> + Drop>(
    alloc: Global,
    mut store: S,
    n: u64,
    seed: u64,
) -> Result<u64, Stopped> {
    let n = count(n)?;
    let mut random = Random::new(seed);
    let keys = share_many(alloc, &mut store, &mut random, n / REFERENCES)?;
    let checksum = point_some(&mut store, &mut random, &keys)?;
    end_each(&mut store, &keys)?;
    Ok(checksum)
}

/// w8: values are made; as many times as there are, two are read that are borrowed at once, and then
/// three; each is ended.
#[inline(always)]
pub fn read_together<E: Element, S: Storage<E> + Drop>(
    alloc: Global,
    mut store: S,
    n: u64,
    seed: u64,
) -> Result<u64, Stopped> {
    let n = count(n)?;
    let mut random = Random::new(seed);
    let keys = make_many(alloc, &mut store, &mut random, n)?;
    let pairs = read_pairs(&mut store, &mut random, &keys)?;
    let checksum = read_triples(&mut store, &mut random, &keys, pairs)?;
    end_each(&mut store, &keys)?;
    Ok(checksum)
}

// How many values there are to be. For more than so many no memory would be found.
fn count(n: u64) -> Result<usize, Stopped>
    ensures { IfOk result (λ count. count < 4294967296) }
{
    match u32::try_from(n) {
        Ok(few) => Ok(few as usize),
        Err(_) => Err(Stopped),
    }
}

// The checksum after one more value was seen.
#[inline(always)]
fn mix(checksum: u64, digest: u64) -> u64 {
    (checksum ^ digest).wrapping_mul(FACTOR)
}

// Boxes of `n` values, in the order of making.
#[inline(always)]
fn make_many<E: Element, S: Storage<E>>(
    alloc: Global,
    store: &mut S,
    random: &mut Random,
    n: usize,
) -> Result<Vec<GenerationalBox<E>>, Stopped>
    ensures { IfOk result (λ keys. vec_len keys ≡ n) }
{
    let mut keys = Vec::with_capacity(alloc, n)?;
    for _made in 0..n {
        let value = E::of_word(alloc, random.word())?;
        keys.push_reserved(make(store, value)?);
    }
    Ok(keys)
}

// References to shared values, in the order of making.
#[inline(always)]
fn share_many<E: Element, S: Storage<E>>(
    alloc: Global,
    store: &mut S,
    random: &mut Random,
    values: usize,
) -> Result<Vec<GenerationalBox<E>>, Stopped>
    requires { 10 * values < 4294967296 }
    ensures { IfOk result (λ keys. vec_len keys ≡ 10 * values) }
{
    let mut keys = Vec::with_capacity(alloc, REFERENCES * values)?;
    for _made in 0..values {
        let value = E::of_word(alloc, random.word())?;
        share(store, &mut keys, value)?;
    }
    Ok(keys)
}

// Makes a shared value with its references, at the end of the keys.
#[inline(always)]
fn share<E: Element, S: Storage<E>>(
    store: &mut S,
    keys: &mut Vec<GenerationalBox<E>>,
    value: E,
) -> Result<(), Stopped>
    requires room { vec_len keys.old + 10 ≤ vec_capacity keys.old }
    ensures more { OnOk result (vec_len keys.new ≡ vec_len keys.old + 10) }
    ensures capacity { vec_capacity keys.new ≡ vec_capacity keys.old }
{
    let first = make_shared(store, value)?;
    keys.push_reserved(first);
    for _referred in 1..REFERENCES {
        keys.push_reserved(refer(store, first)?);
    }
    Ok(())
}

// Puts the keys into an order that is drawn.
#[inline(always)]
fn shuffle<K>(random: &mut Random, keys: &mut [K])
    requires { length keys.old < 4294967296 }
{
    for i in (1..keys.len()).rev() {
        let other = random.below(i + 1);
        keys.swap(i, other);
    }
}

// Reads each value, in the order of the keys.
#[inline(always)]
fn read_each<E: Element, S: Storage<E>>(
    store: &mut S,
    keys: &[GenerationalBox<E>],
) -> Result<u64, Stopped> {
    let mut checksum = START;
    for key in keys {
        checksum = mix(checksum, read(store, *key)?);
    }
    Ok(checksum)
}

// Reads values that are drawn, as many as there are keys.
#[inline(always)]
fn read_some<E: Element, S: Storage<E>>(
    store: &mut S,
    random: &mut Random,
    keys: &[GenerationalBox<E>],
    checksum: u64,
) -> Result<u64, Stopped>
    requires { length keys.now < 4294967296 }
{
    let mut checksum = checksum;
    for _read in 0..keys.len() {
        let key = keys[random.below(keys.len())];
        checksum = mix(checksum, read(store, key)?);
    }
    Ok(checksum)
}

// Reads two values that are drawn, with both borrowed at once, as often as there are keys.
#[inline(always)]
fn read_pairs<E: Element, S: Storage<E>>(
    store: &mut S,
    random: &mut Random,
    keys: &[GenerationalBox<E>],
) -> Result<u64, Stopped>
    requires { length keys.now < 4294967296 }
{
    let mut checksum = START;
    for _read in 0..keys.len() {
        let first = keys[random.below(keys.len())];
        let second = keys[random.below(keys.len())];
        let seen = read_two(store, (first, second))?;
        checksum = mix(mix(checksum, seen.0), seen.1);
    }
    Ok(checksum)
}

// Reads three values that are drawn, with all borrowed at once, as often as there are keys.
#[inline(always)]
fn read_triples<E: Element, S: Storage<E>>(
    store: &mut S,
    random: &mut Random,
    keys: &[GenerationalBox<E>],
    checksum: u64,
) -> Result<u64, Stopped>
    requires { length keys.now < 4294967296 }
{
    let mut checksum = checksum;
    for _read in 0..keys.len() {
        let first = keys[random.below(keys.len())];
        let second = keys[random.below(keys.len())];
        let third = keys[random.below(keys.len())];
        let seen = read_three(store, first, (second, third))?;
        checksum = mix(mix(mix(checksum, seen.0), seen.1), seen.2);
    }
    Ok(checksum)
}

// Points references that are drawn at the values of others, as many as there are keys, and reads
// each.
#[inline(always)]
fn point_some<E: Element, S: Storage<E>>(
    store: &mut S,
    random: &mut Random,
    keys: &[GenerationalBox<E>],
) -> Result<u64, Stopped>
    requires { length keys.now < 4294967296 }
{
    let mut checksum = START;
    for _pointed in 0..keys.len() {
        let from = keys[random.below(keys.len())];
        let to = keys[random.below(keys.len())];
        point(store, from, to)?;
        checksum = mix(checksum, read(store, from)?);
    }
    Ok(checksum)
}

// Replaces values that are drawn by others, as many as there are keys.
#[inline(always)]
fn write_some<E: Element, S: Storage<E>>(
    alloc: Global,
    store: &mut S,
    random: &mut Random,
    keys: &[GenerationalBox<E>],
    checksum: u64,
) -> Result<u64, Stopped>
    requires { length keys.now < 4294967296 }
{
    let mut checksum = checksum;
    for _written in 0..keys.len() {
        let key = keys[random.below(keys.len())];
        let value = E::of_word(alloc, random.word())?;
        checksum = mix(checksum, write(store, key, value)?);
    }
    Ok(checksum)
}

// Ends values that are drawn, as many as there are keys, and makes others in their place.
#[inline(always)]
fn replace_some<E: Element, S: Storage<E>>(
    alloc: Global,
    store: &mut S,
    random: &mut Random,
    keys: &mut [GenerationalBox<E>],
) -> Result<(), Stopped>
    requires { length keys.old < 4294967296 }
{
    for _replaced in 0..keys.len() {
        let i = random.below(keys.len());
        end(store, keys[i])?;
        let value = E::of_word(alloc, random.word())?;
        keys[i] = make(store, value)?;
    }
    Ok(())
}

// Ends each value, in the order of the keys.
#[inline(always)]
fn end_each<E: Element, S: Storage<E>>(
    store: &mut S,
    keys: &[GenerationalBox<E>],
) -> Result<(), Stopped> {
    for key in keys {
        end(store, *key)?;
    }
    Ok(())
}

// Makes owners of values, and reads the last value of each.
#[inline(always)]
fn own_many<E: Element, S: Storage<E>>(
    alloc: Global,
    store: &mut S,
    random: &mut Random,
    owners: &mut Vec<Owner>,
    many: usize,
    checksum: u64,
) -> Result<u64, Stopped>
    requires room { vec_len owners.old + many ≤ vec_capacity owners.old }
{
    let mut checksum = checksum;
    for _made in 0..many {
        let owner = new_owner(store)?;
        let last = insert_many(alloc, store, random, &owner);
        owners.push_reserved(owner);
        checksum = mix(checksum, read(store, last?)?);
    }
    Ok(checksum)
}

// Makes an owner's values. Returns the box of the last one.
#[inline(always)]
fn insert_many<E: Element, S: Storage<E>>(
    alloc: Global,
    store: &mut S,
    random: &mut Random,
    owner: &Owner,
) -> Result<GenerationalBox<E>, Stopped> {
    let first = E::of_word(alloc, random.word())?;
    let mut last = insert(store, owner, first)?;
    for _more in 1..VALUES {
        let value = E::of_word(alloc, random.word())?;
        last = insert(store, owner, value)?;
    }
    Ok(last)
}

// Releases each owner, in the order of the vector, also those after one that fails.
#[inline(always)]
fn release_each<E: Element, S: Storage<E>>(
    store: &mut S,
    owners: Vec<Owner>,
) -> Result<(), Stopped> {
    let mut owners = owners;
    let mut outcome = Ok(());
    owners.reverse();
    while let Some(owner) = owners.pop() {
        if release(store, owner).is_err() {
            outcome = Err(Stopped);
        }
    }
    owners.destroy_empty();
    outcome
}
