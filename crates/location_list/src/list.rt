//! Locations by their numbers.

ghost use Rattle.std.specs.Prelude.{◌≡◌, ◌+◌, ◌≤◌, false, length, map, slice_get, [], OnOk, OnErr, IfOk};
ghost use Rattle.std.specs.Bool.{OnTrue};
ghost use Rattle.generational_errors.specs.Texts.{same_location};
ghost use Rattle.location_list.specs.Locations.{IsAt, is_among, key_location, with_location};
ghost use Rattle.location_list.specs.declared.list.LocationKey.{LocationKey};

use generational_errors::Location;
use indexmap::IndexSet;
use std::alloc::{AllocError, Global};
use std::marker::Model;

/// Locations with the numbers from 0 to at most `LAST`, in the order in which they were added. Contracts
/// model it as the list in that order. A location with the same letters, line and column isn't added
/// again.
///
/// Each takes 40 to 80 bytes, and is found in the same time however many there are.
#[derive(Drop)]
pub struct LocationList<const LAST: u32> {
    kept: IndexSet<LocationKey>,
    // where a location is looked for first, by its line and column; a guess may be wrong
    guesses: [u32; 64],
}

// A location's parts.
#[derive(Clone, Copy, PartialEq, Eq, Hash, Drop)]
struct LocationKey {
    file: &'static str,
    line: u32,
    column: u32,
}

impl<const LAST: u32> Model for LocationList<LAST> {
    ghost use Rattle.std.specs.Prelude.{List, ◌+◌, ◌≤◌, length, map};
    ghost use Rattle.generational_errors.specs.declared.error.Location.{Location};

    ghost Value = { List Location };

    ghost use Rattle.location_list.specs.Locations.{key_location};

    ghost view = { λ l. map key_location l.kept.keys };

    ghost invariant = { λ l. length l.kept.keys ≤ LAST + 1 };
}

impl<const LAST: u32> LocationList<LAST> {
    /// No locations. Doesn't allocate.
    pub fn new(alloc: Global) -> Self
        ensures { result ≡ [] }
    {
        LocationList {
            kept: IndexSet::new(alloc),
            guesses: [0; 64],
        }
    }

    /// How many there are. Doesn't allocate.
    pub fn len(&self) -> usize
        ensures length { result ≡ length self.now }
        ensures most { length self.now ≤ LAST + 1 }
    {
        self.kept.len()
    }

    /// The location with a number, if there is one. Doesn't allocate.
    #[inline(always)]
    pub fn get(&self, number: u32) -> Option<Location>
        ensures { result ≡ slice_get self.now number }
    {
        let key = self.kept.as_slice().get(number as usize)?;
        Some(key.location())
    }

    /// A copy of the locations, in order.
    pub fn to_vec(&self, alloc: Global) -> Result<Vec<Location>, AllocError>
        ensures { IfOk result (λ all. all.items ≡ self.now) }
    {
        let keys = self.kept.as_slice();
        let mut all = Vec::with_capacity(alloc, keys.len())?;
        for key in keys.iter() {
            all.push(key.location())?;
        }
        Ok(all)
    }

    /// The number of a location with the same letters, line and column. If there is none, this one is
    /// added at the end.
    ///
    /// # Errors
    ///
    /// `AllocError` if an allocation fails, or if all numbers are used. The list is unchanged then, and
    /// the call never fails for a location that it has.
    #[inline(always)]
    pub fn find_or_add(&mut self, at: Location) -> Result<u32, AllocError>
        ensures added { OnOk result (self.new ≡ with_location self.old at) }
        ensures found { IfOk result (λ number. IsAt self.new number at) }
        ensures fits { IfOk result (λ number. number ≤ LAST) }
        ensures err { OnErr result (self.new ≡ self.old) }
        ensures absent { OnErr result (is_among self.old at ≡ false) }
    {
        let bucket = ((at.line() ^ at.column()) & 63) as usize;
        let guess = &mut self.guesses[bucket];
        if is_at(self.kept.as_slice(), *guess, at) {
            return Ok(*guess);
        }
        find_or_add::<LAST>(&mut self.kept, guess, at)
    }
}

impl LocationKey {
    // The parts of a location.
    #[inline(always)]
    fn of(at: Location) -> LocationKey
        ensures { key_location result ≡ at }
    {
        LocationKey {
            file: at.file(),
            line: at.line(),
            column: at.column(),
        }
    }

    // The location of these parts.
    #[inline(always)]
    fn location(&self) -> Location
        ensures { result ≡ key_location self.now }
    {
        Location::new(self.file, self.line, self.column)
    }
}

// Whether the location with this number is this one by its letters.
#[inline(always)]
fn is_at(kept: &[LocationKey], number: u32, at: Location) -> bool
    ensures { OnTrue result (IsAt (map key_location kept.now) number at) }
{
    match kept.get(number as usize) {
        Some(key) => is_same(at, key.location()),
        None => false,
    }
}

// Whether two locations are the same by their letters, as `==` says. The numbers are compared first,
// without a call.
#[inline(always)]
fn is_same(one: Location, other: Location) -> bool
    ensures { result ≡ same_location one other }
{
    one.line() == other.line() && one.column() == other.column() && one.file() == other.file()
}

// The number of such a location, which is added if there is none. It is the guess from then on.
#[cold]
#[inline(never)]
fn find_or_add<const LAST: u32>(
    kept: &mut IndexSet<LocationKey>,
    guess: &mut u32,
    at: Location,
) -> Result<u32, AllocError>
    requires { length kept.old.keys ≤ LAST + 1 }
    ensures most { length kept.new.keys ≤ LAST + 1 }
    ensures added { OnOk result
        (map key_location kept.new.keys ≡ with_location (map key_location kept.old.keys) at) }
    ensures found { IfOk result (λ number. IsAt (map key_location kept.new.keys) number at) }
    ensures fits { IfOk result (λ number. number ≤ LAST) }
    ensures guessed { IfOk result (λ number. guess.new ≡ number) }
    ensures err { OnErr result (kept.new.keys ≡ kept.old.keys) }
    ensures absent { OnErr result (is_among (map key_location kept.old.keys) at ≡ false) }
{
    let number = number_of::<LAST>(kept, at)?;
    *guess = number;
    Ok(number)
}

// The number of such a location, which is added if there is none.
fn number_of<const LAST: u32>(
    kept: &mut IndexSet<LocationKey>,
    at: Location,
) -> Result<u32, AllocError>
    requires { length kept.old.keys ≤ LAST + 1 }
    ensures most { length kept.new.keys ≤ LAST + 1 }
    ensures added { OnOk result
        (map key_location kept.new.keys ≡ with_location (map key_location kept.old.keys) at) }
    ensures found { IfOk result (λ number. IsAt (map key_location kept.new.keys) number at) }
    ensures fits { IfOk result (λ number. number ≤ LAST) }
    ensures err { OnErr result (kept.new.keys ≡ kept.old.keys) }
    ensures absent { OnErr result (is_among (map key_location kept.old.keys) at ≡ false) }
{
    let key = LocationKey::of(at);
    if let Some(number) = kept.get_index_of(&key) {
        return Ok(number as u32);
    }
    if kept.len() > LAST as usize {
        return Err(AllocError);
    }
    match kept.insert_full(key) {
        Ok((number, _)) => Ok(number as u32),
        Err(_) => Err(AllocError),
    }
}
