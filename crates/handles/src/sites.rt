//! The locations that were passed to a table.

ghost use Rattle.std.specs.Prelude.{◌≡◌, ◌≤◌, ◌<◌, [], false, OnErr, OnOk, IfOk, length, slice_get};
ghost use Rattle.location_list.specs.Locations.{IsAt, is_among, with_location};
ghost use Rattle.handles.specs.Sites.{SiteState, told_in};

use generational_core::Location;
use location_list::LocationList;
use std::alloc::{AllocError, Global};
use std::marker::Model;

/// Locations, each at a site. The first few are published; the others wait for a handle.
///
/// Each location is stored once, however many handles are made there: it takes 40 to 80 bytes, and is
/// found in the same time however many there are.
#[derive(Drop)]
pub struct Sites {
    list: LocationList<4294967295>,
    told: usize,
}

impl Model for Sites {
    ghost use Rattle.std.specs.Prelude.{◌≤◌, length};
    ghost use Rattle.handles.specs.Sites.{SiteState};

    ghost Value = { SiteState };

    ghost view = { λ s. record { all = s.list; told = s.told } };

    ghost invariant = { λ s. s.told ≤ length s.list };
}

impl Sites {
    /// No sites. Doesn't allocate.
    pub fn new(alloc: Global) -> Self
        ensures { result ≡ record { all = []; told = 0 } }
    {
        Sites {
            list: LocationList::new(alloc),
            told: 0,
        }
    }

    /// The site of a location, which isn't published before [`Sites::tell`].
    ///
    /// # Errors
    ///
    /// `AllocError` if an allocation fails. Nothing changes then, and the call never fails for a location
    /// that is already there.
    #[inline(always)]
    #[tactic(auto, using(crate::proofs::Told::take_with))]
    pub fn find_or_add(&mut self, here: Location) -> Result<u32, AllocError>
        ensures all { OnOk result (self.new.all ≡ with_location self.old.all here) }
        ensures told { told_in self.new ≡ told_in self.old }
        ensures found { IfOk result (λ site. IsAt self.new.all site here) }
        ensures err { OnErr result (self.new ≡ self.old) }
        ensures absent { OnErr result (is_among self.old.all here ≡ false) }
    {
        self.list.find_or_add(here)
    }

    /// Publishes a site, and those before it.
    #[inline(always)]
    pub fn tell(&mut self, site: u32)
        requires { site < length self.old.all }
        ensures all { self.new.all ≡ self.old.all }
        ensures told { site < self.new.told }
        ensures kept { self.old.told ≤ self.new.told }
    {
        if site as usize >= self.told {
            self.told = site as usize + 1;
        }
    }

    /// Publishes all sites.
    pub fn tell_all(&mut self)
        ensures all { self.new.all ≡ self.old.all }
        ensures told { self.new.told ≡ length self.old.all }
    {
        self.told = self.list.len();
    }

    /// The location of a site, if it is published. Doesn't allocate.
    pub fn get(&self, site: u32) -> Option<Location>
        ensures { result ≡ slice_get (told_in self.now) site }
    {
        if site as usize >= self.told {
            return None;
        }
        self.list.get(site)
    }
}
