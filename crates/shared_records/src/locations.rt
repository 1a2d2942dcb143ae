//! Locations by numbers that fit into a step's record.

ghost use Rattle.std.specs.Prelude.{◌≡◌, ◌∷◌, ◌++◌, [], IfOk, IfSome, List, length, option_to_list};
ghost use Rattle.generational_errors.specs.Texts.{same_location};
ghost use Rattle.generational_errors.specs.declared.error.Location.{Location};
ghost use Rattle.shared_records.specs.Decoding.{Extends, IsNumberOf};

use generational_core::Location;
use location_list::LocationList;
use std::alloc::{AllocError, Global};
use std::marker::Model;

/// A table of locations; a step is stored with their numbers.
pub trait LocationTable {
    ghost locations: { Self → List Location };

    /// The number of a location with the same letters, line and column. It is added if there is none.
    /// None if there is no room for it.
    fn find_or_add(&mut self, at: Location) -> Option<u16>
        ensures extends { Extends (Self.locations self.old) (Self.locations self.new) }
        ensures found { IfSome result (λ i. IsNumberOf (Self.locations self.new) i at) };
}

/// Locations, each with its number from 0 to 65535. Contracts model it as the list in order. A location
/// with the same letters, line and column isn't added again.
#[derive(Drop)]
pub struct NumberedLocations {
    list: LocationList<65535>,
}

impl Model for NumberedLocations {
    ghost use Rattle.std.specs.Prelude.{List};
    ghost use Rattle.generational_errors.specs.declared.error.Location.{Location};

    ghost Value = { List Location };

    ghost view = { λ p. p.list };
}

impl NumberedLocations {
    /// No locations. Doesn't allocate.
    pub fn new(alloc: Global) -> NumberedLocations
        ensures { result ≡ [] }
    {
        NumberedLocations {
            list: LocationList::new(alloc),
        }
    }

    /// How many there are.
    pub fn len(&self) -> usize
        ensures { result ≡ length self.now }
    {
        self.list.len()
    }

    /// A copy of the locations, in order.
    pub fn to_vec(&self, alloc: Global) -> Result<Vec<Location>, AllocError>
        ensures { IfOk result (λ all. all.items ≡ self.now) }
    {
        self.list.to_vec(alloc)
    }
}

impl LocationTable for NumberedLocations {
    ghost locations = { λ p. p };

    // None if an allocation fails, or if there are 65536 locations.
    #[tactic(auto, using(crate::proofs::Decodes::found_location))]
    #[inline(always)]
    fn find_or_add(&mut self, at: Location) -> Option<u16> {
        let Ok(number) = self.list.find_or_add(at) else {
            return None;
        };
        Some(number as u16)
    }
}

/// At most two locations: a step's own table. Contracts model it as the list in order.
#[derive(Drop)]
pub struct OwnLocations {
    pub first: Option<Location>,
    pub second: Option<Location>,
}

impl Model for OwnLocations {
    ghost use Rattle.std.specs.Prelude.{List, ◌++◌, option_to_list};
    ghost use Rattle.generational_errors.specs.declared.error.Location.{Location};

    ghost Value = { List Location };

    ghost view = { λ p. option_to_list p.first ++ option_to_list p.second };
}

impl LocationTable for OwnLocations {
    ghost locations = { λ p. p };

    // None if there are two.
    #[tactic(auto, using(crate::proofs::Decodes::extends_none))]
    fn find_or_add(&mut self, at: Location) -> Option<u16> {
        match (self.first, self.second) {
            (None, None) => {
                self.first = Some(at);
                Some(0)
            }
            (Some(_), None) => {
                self.second = Some(at);
                Some(1)
            }
            (_, Some(_)) => None,
        }
    }
}

/// Whether two locations are the same by their letters, as `==` says. The numbers are compared first,
/// without a call.
#[inline(always)]
pub(crate) fn is_same(one: Location, other: Location) -> bool
    ensures { result ≡ same_location one other }
{
    one.line() == other.line() && one.column() == other.column() && one.file() == other.file()
}
