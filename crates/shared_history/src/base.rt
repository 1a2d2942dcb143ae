//! The base of a history: the state from which it goes on, without values.

ghost use Rattle.std.specs.Prelude.{◌≡◌, ◌+◌, ◌<◌, ◌^◌};
ghost use Rattle.shared_history.specs.Bases.{all_trimmed, trimmed_of};

use generational_core::BaseRow;
use shared_records::Kind;
use std::marker::Model;

/// Where a stored history begins: the state of the store at its last checkpoint, without values, and how
/// many steps of each kind were trimmed until then. A new store's base has no rows, and all its numbers
/// except the store's own are 0.
///
/// The rows, the store's number, the next ticket and the peak determine that state: the definition is
/// `plain_of` in this crate's `specs/Bases.antt`.
#[derive(Debug, Drop)]
pub struct Base {
    number: u64,
    next: u64,
    peak: usize,
    trimmed: TrimmedSteps,
    rows: Vec<BaseRow>,
}

/// How many steps of each kind were trimmed.
#[derive(Clone, Copy, Debug)]
pub struct TrimmedSteps {
    pub made: u64,
    pub lent: u64,
    pub changed: u64,
    pub refused: u64,
}

impl Model for Base {
    ghost use Rattle.std.specs.Prelude.{◌+◌, ◌<◌, ◌^◌};
    ghost use Rattle.shared_history.specs.Bases.{BaseState};

    ghost Value = { BaseState };

    ghost view = { λ b. record {
      number = b.number;
      next = b.next;
      peak = b.peak;
      made = b.trimmed.made;
      lent = b.trimmed.lent;
      changed = b.trimmed.changed;
      refused = b.trimmed.refused;
      rows = b.rows.items;
    } };

    ghost invariant = { λ b.
        b.trimmed.made + b.trimmed.lent + b.trimmed.changed + b.trimmed.refused < 2 ^ 64 };
}

impl Base {
    // The base of these parts, whose counts together are below 2 ^ 64.
    pub fn of(
        number: u64,
        next: u64,
        peak: usize,
        trimmed: TrimmedSteps,
        rows: Vec<BaseRow>,
    ) -> Base
        requires { trimmed.made + trimmed.lent + trimmed.changed + trimmed.refused < 2 ^ 64 }
        ensures { result ≡ record {
          number = number;
          next = next;
          peak = peak;
          made = trimmed.made;
          lent = trimmed.lent;
          changed = trimmed.changed;
          refused = trimmed.refused;
          rows = rows.items;
        } }
    {
        Base {
            number,
            next,
            peak,
            trimmed,
            rows,
        }
    }

    /// The store's number. Doesn't allocate.
    pub fn number(&self) -> u64
        ensures { result ≡ self.now.number }
    {
        self.number
    }

    /// The next ticket, of a borrow or as an owner's key. Doesn't allocate.
    pub fn next(&self) -> u64
        ensures { result ≡ self.now.next }
    {
        self.next
    }

    /// How many steps were ever trimmed: of all kinds together. Doesn't allocate.
    pub fn trimmed(&self) -> u64
        ensures { result ≡ all_trimmed self.now }
    {
        let kinds = self.trimmed;
        kinds.made + kinds.lent + kinds.changed + kinds.refused
    }

    /// The peak number of live cells. Doesn't allocate.
    pub fn peak(&self) -> usize
        ensures { result ≡ self.now.peak }
    {
        self.peak
    }

    /// The rows, in the order of a storage's `rows`. Doesn't allocate.
    pub fn rows(&self) -> &[BaseRow]
        ensures { result.now ≡ self.now.rows }
    {
        self.rows.as_slice()
    }

    /// How many steps of a kind were trimmed. Doesn't allocate.
    pub fn count(&self, kind: Kind) -> u64
        ensures { result ≡ trimmed_of kind self.now }
    {
        match kind {
            Kind::Made => self.trimmed.made,
            Kind::Lent => self.trimmed.lent,
            Kind::Changed => self.trimmed.changed,
            Kind::Refused => self.trimmed.refused,
        }
    }
}
