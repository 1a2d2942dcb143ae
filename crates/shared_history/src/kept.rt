//! The base of a history as a store stores it.

ghost use Rattle.std.specs.Prelude.{◌≡◌, ◌+◌, ◌<◌, ◌^◌, IfOk};
ghost use Rattle.shared_history.specs.Bases.{all_trimmed, new_base, trimmed_of};

use crate::base::{Base, TrimmedSteps};
use shared_records::Kind;
use std::alloc::{AllocError, Global};
use std::marker::Model;
use store_rows::PackedRows;

/// A base whose rows are packed. Contracts model it as the [`Base`] that an audit returns.
#[derive(Drop)]
pub struct KeptBase {
    number: u64,
    next: u64,
    peak: usize,
    trimmed: TrimmedSteps,
    rows: PackedRows,
}

impl Model for KeptBase {
    ghost use Rattle.std.specs.Prelude.{◌+◌, ◌<◌, ◌^◌};
    ghost use Rattle.shared_history.specs.Bases.{BaseState};

    ghost Value = { BaseState };

    ghost view = { λ b. record {
      number = b.number;
      next = b.next;
      peak = b.peak;
      made = b.trimmed.made;
      lent = b.trimmed.lent;
      changed = b.trimmed.changed;
      refused = b.trimmed.refused;
      rows = b.rows;
    } };

    ghost invariant = { λ b.
        b.trimmed.made + b.trimmed.lent + b.trimmed.changed + b.trimmed.refused < 2 ^ 64 };
}

impl KeptBase {
    // The base of a new store with this number. Doesn't allocate.
    pub fn new(alloc: Global, number: u64) -> KeptBase
        ensures { result ≡ new_base number }
    {
        let trimmed = TrimmedSteps {
            made: 0,
            lent: 0,
            changed: 0,
            refused: 0,
        };
        KeptBase::of(number, 0, 0, trimmed, PackedRows::new(alloc))
    }

    // The base of these parts, whose counts together are below 2 ^ 64.
    pub fn of(
        number: u64,
        next: u64,
        peak: usize,
        trimmed: TrimmedSteps,
        rows: PackedRows,
    ) -> KeptBase
        requires { trimmed.made + trimmed.lent + trimmed.changed + trimmed.refused < 2 ^ 64 }
        ensures { result ≡ record {
          number = number;
          next = next;
          peak = peak;
          made = trimmed.made;
          lent = trimmed.lent;
          changed = trimmed.changed;
          refused = trimmed.refused;
          rows = rows;
        } }
    {
        KeptBase {
            number,
            next,
            peak,
            trimmed,
            rows,
        }
    }

    // The base with its rows one by one.
    pub fn unpacked(&self, alloc: Global) -> Result<Base, AllocError>
        ensures { IfOk result (λ base. base ≡ self.now) }
    {
        let rows = self.rows.to_vec(alloc)?;
        Ok(Base::of(self.number, self.next, self.peak, self.trimmed, rows))
    }

    // The next ticket.
    pub fn next(&self) -> u64
        ensures { result ≡ self.now.next }
    {
        self.next
    }

    // How many steps were ever trimmed: of all kinds together.
    pub fn trimmed(&self) -> u64
        ensures { result ≡ all_trimmed self.now }
    {
        let kinds = self.trimmed;
        kinds.made + kinds.lent + kinds.changed + kinds.refused
    }

    // How many steps of a kind were trimmed.
    pub fn count(&self, kind: Kind) -> u64
        ensures { result ≡ trimmed_of kind self.now }
    {
        match kind {
            Kind::Made => self.trimmed.made,
            Kind::Lent => self.trimmed.lent,
            Kind::Changed => self.trimmed.changed,
            Kind::Refused => self.trimmed.refused,
        }
    }

    // How many whole rows there are.
    pub fn whole_rows(&self) -> usize {
        self.rows.whole()
    }

    // Its rows.
    pub fn into_rows(self) -> PackedRows
        ensures { result ≡ self.rows }
    {
        self.rows
    }
}
