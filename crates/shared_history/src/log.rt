//! The history of a store, with its books.

ghost use Rattle.std.specs.Prelude.{◌≡◌, ◌+◌, ◌^◌, ◌<◌, ◌≤◌, [], IfOk, IfSome, OnOk};
ghost use Rattle.std.specs.Prelude.{OnErr, OnSome, IfNone, length};
ghost use Rattle.std.specs.Bool.{OnFalse, OnTrue};
ghost use Rattle.shared_history.specs.Bases.{IsTallied, Trims, all_trimmed, counts_of, new_base};
ghost use Rattle.shared_history.specs.Counts.{raised};
ghost use Rattle.shared_records.specs.Kinds.{count_of_kind, step_kind, step_of};
ghost use Rattle.shared_records.specs.declared.step.Kind.TheVariants.{Made, Lent, Changed, Refused};
ghost use Rattle.shared_records.specs.Letters.{AppendsStep};
ghost use Rattle.shared_history.specs.Standing.{lent_by};

use crate::base::{Base, TrimmedSteps};
use crate::kept::KeptBase;
use crate::tally::{Count, Tally};
use shared_records::{Kind, OldSteps, Step, StepEntry, StepList, StepReply};
use std::alloc::{AllocError, Global};
use std::marker::Model;
use std::mem;
use std::sync::ledger::Book;
use store_rows::{PackedRows, RowCounts};

/// A base and the steps from there in order, room for a release of each active borrow, and for each kind
/// how many steps there are and a book. Contracts model it as the base, the steps and the room.
///
/// The steps are those of the store with this number.
#[derive(Drop)]
pub struct Log<const NUMBER: u64, M: Count, L: Count, C: Count, R: Count> {
    // the fields that each step writes are adjacent up to the beginning of the history
    standing: usize,
    made_steps: u64,
    lent_steps: u64,
    changed_steps: u64,
    refused_steps: u64,
    history: StepList<NUMBER>,
    base: KeptBase,
    // the rows of the base before it, into which those of the next one are packed
    past: PackedRows,
    alloc: Global,
    made: Book<M>,
    lent: Book<L>,
    changed: Book<C>,
    refused: Book<R>,
}

impl<const NUMBER: u64, M: Count, L: Count, C: Count, R: Count> Model for Log<NUMBER, M, L, C, R> {
    ghost use Rattle.std.specs.Prelude.{◌≡◌, ◌+◌, ◌-◌, ◌≤◌};
    ghost use Rattle.std.specs.Coded.{codes};
    ghost use Rattle.std.specs.FinMap as finite;
    ghost use Rattle.shared_records.specs.Kinds.{count_of_kind};
    ghost use Rattle.shared_history.specs.Logs.{LogState};
    ghost use Rattle.shared_records.specs.declared.step.Kind.TheVariants.{Made, Lent, Changed};
    ghost use Rattle.shared_records.specs.declared.step.Kind.TheVariants.{Refused};

    ghost Value = { LogState };

    ghost coded = { Prim.hlevel (codes, finite.code) };

    ghost view = { λ l. record {
      bases = record { base = l.base; past = l.past };
      steps = l.history.steps;
      standing = l.standing;
      room = l.history.room - l.standing;
    } };

    ghost invariant = { λ l. (l.made_steps ≡ count_of_kind Made l.history.steps)
        × (l.lent_steps ≡ count_of_kind Lent l.history.steps)
        × (l.changed_steps ≡ count_of_kind Changed l.history.steps)
        × (l.refused_steps ≡ count_of_kind Refused l.history.steps)
        × (l.made.total ≡ l.base.made + l.made_steps)
        × (l.lent.total ≡ l.base.lent + l.lent_steps)
        × (l.changed.total ≡ l.base.changed + l.changed_steps)
        × (l.refused.total ≡ l.base.refused + l.refused_steps)
        × (l.standing ≤ l.history.room) };
}

impl<const NUMBER: u64, M: Count, L: Count, C: Count, R: Count> Log<NUMBER, M, L, C, R> {
    // An empty history.
    pub fn new(
        alloc: Global,
        made: Book<M>,
        lent: Book<L>,
        changed: Book<C>,
        refused: Book<R>,
    ) -> Self
        requires { (made.total ≡ 0) × (lent.total ≡ 0) × (changed.total ≡ 0) × (refused.total ≡ 0) }
        ensures { result ≡ record {
          bases = record { base = new_base NUMBER; past = [] };
          steps = [];
          standing = 0;
          room = result.room;
        } }
    {
        Log {
            alloc,
            base: KeptBase::new(alloc, NUMBER),
            past: PackedRows::new(alloc),
            history: StepList::new(alloc),
            standing: 0,
            made_steps: 0,
            lent_steps: 0,
            changed_steps: 0,
            refused_steps: 0,
            made,
            lent,
            changed,
            refused,
        }
    }

    // Reserves room for this many steps in addition to the releases of the active borrows.
    #[inline(always)]
    pub fn reserve(&mut self, steps: usize) -> Result<(), AllocError>
        requires { steps ≤ 2 }
        ensures bases { self.new.bases ≡ self.old.bases }
        ensures steps { self.new.steps ≡ self.old.steps }
        ensures standing { self.new.standing ≡ self.old.standing }
        ensures ok { OnOk result (steps ≤ self.new.room) }
    {
        self.history.room_is_bounded();
        self.history.reserve(self.standing + steps)
    }

    // Appends a step of the tally's worker, for which there is room.
    #[tactic(auto, using(crate::proofs::Appending::one_more, crate::proofs::Appending::few, std::proofs::lemmas::Grind::common_steps))]
    #[inline(always)]
    fn append<E: StepEntry>(&mut self, entry: E, tally: &mut Tally<M, L, C, R>)
        requires room { 0 < self.old.room }
        ensures bases { self.new.bases ≡ self.old.bases }
        ensures steps { AppendsStep self.old.steps
            (step_of tally.old.worker (E.as_call entry) (E.as_reply entry)) self.new.steps }
        ensures standing { self.new.standing ≡ self.old.standing }
        ensures room { self.old.room ≤ self.new.room + 1 }
        ensures bounded { self.new.standing + self.new.room < 2 ^ 64 }
        ensures tally { tally.new ≡ raised (step_kind (E.as_reply entry)) tally.old }
    {
        self.history.append(tally.number(), entry);
        match kind_of(entry) {
            Kind::Made => {
                self.made.add(&mut tally.made, 1);
                self.made_steps += 1;
            }
            Kind::Lent => {
                self.lent.add(&mut tally.lent, 1);
                self.lent_steps += 1;
            }
            Kind::Changed => {
                self.changed.add(&mut tally.changed, 1);
                self.changed_steps += 1;
            }
            Kind::Refused => {
                self.refused.add(&mut tally.refused, 1);
                self.refused_steps += 1;
            }
        }
    }

    // Appends the step of the tally's worker. If it begins a borrow, that is active from then on.
    #[inline(always)]
    pub fn add_step<E: StepEntry>(&mut self, entry: E, tally: &mut Tally<M, L, C, R>)
        requires room { 1 < self.old.room }
        ensures bases { self.new.bases ≡ self.old.bases }
        ensures steps { AppendsStep self.old.steps
            (step_of tally.old.worker (E.as_call entry) (E.as_reply entry)) self.new.steps }
        ensures standing { self.new.standing ≡ self.old.standing + lent_by (E.as_reply entry) }
        ensures tally { tally.new ≡ raised (step_kind (E.as_reply entry)) tally.old }
    {
        self.append(entry, tally);
        if begins_borrow(entry) {
            self.borrow_begins();
        }
    }

    // Appends the step of a borrow's end, and counts it, if there is an active borrow. It has room since
    // the borrow began. Whether there is one is checked here, which is cheaper than a proof by each
    // caller.
    #[inline(always)]
    pub fn add_end<E: StepEntry>(&mut self, entry: E, tally: &mut Tally<M, L, C, R>)
        ensures bases { self.new.bases ≡ self.old.bases }
        ensures steps { 0 < self.old.standing → AppendsStep self.old.steps
            (step_of tally.old.worker (E.as_call entry) (E.as_reply entry)) self.new.steps }
        ensures standing { 0 < self.old.standing → self.new.standing + 1 ≡ self.old.standing }
        ensures tally { 0 < self.old.standing
            → tally.new ≡ raised (step_kind (E.as_reply entry)) tally.old }
        ensures none { self.old.standing ≡ 0 → (self.new ≡ self.old) × (tally.new ≡ tally.old) }
    {
        if self.standing == 0 {
            return;
        }
        self.standing -= 1;
        self.append(entry, tally);
    }

    // Counts another active borrow, for whose release there is room.
    #[inline(always)]
    fn borrow_begins(&mut self)
        requires room { 0 < self.old.room }
        requires bounded { self.old.standing + self.old.room < 2 ^ 64 }
        ensures bases { self.new.bases ≡ self.old.bases }
        ensures steps { self.new.steps ≡ self.old.steps }
        ensures standing { self.new.standing ≡ self.old.standing + 1 }
    {
        self.standing += 1;
    }

    // How many steps of each kind are trimmed when the history begins again. None if they would be too
    // many together.
    #[tactic(auto, using(crate::proofs::Appending::all_kinds))]
    pub fn trimmed_steps(&self) -> Option<TrimmedSteps>
        ensures counts { IfSome result (λ t. t ≡ counts_of self.now.bases.base self.now.steps) }
        ensures within { OnSome result
            (all_trimmed self.now.bases.base + length self.now.steps < 2 ^ 64) }
        ensures none { IfNone result (2 ^ 64 ≤ all_trimmed self.now.bases.base + length self.now.steps) }
    {
        self.base
            .trimmed()
            .checked_add(self.made_steps)?
            .checked_add(self.lent_steps)?
            .checked_add(self.changed_steps)?
            .checked_add(self.refused_steps)?;
        Some(TrimmedSteps {
            made: self.base.count(Kind::Made) + self.made_steps,
            lent: self.base.count(Kind::Lent) + self.lent_steps,
            changed: self.base.count(Kind::Changed) + self.changed_steps,
            refused: self.base.count(Kind::Refused) + self.refused_steps,
        })
    }

    // The log's allocator.
    pub fn alloc(&self) -> Global {
        self.alloc
    }

    // For how many rows room must be reserved before these are packed: for twice as many slots, since
    // more may be added meanwhile. None if there is room for half as many more.
    pub fn wanted_rows(&self, now: RowCounts) -> Option<RowCounts> {
        let mut counts = now;
        counts.whole = self.base.whole_rows();
        counts.slots = now.slots.saturating_add(now.slots / 2);
        if self.past.has_room(counts) {
            return None;
        }
        counts.slots = now.slots.saturating_mul(2);
        Some(counts)
    }

    // Takes the rows of the base before the last, and leaves none.
    pub fn take_past(&mut self) -> PackedRows
        ensures past { result ≡ self.old.bases.past }
        ensures left { self.new ≡ record self.old {
          bases = record {
            base = self.old.bases.base;
            past = [];
          };
        } }
    {
        let none = PackedRows::new(self.alloc);
        self.replace_past(none)
    }

    // Replaces the rows of the base before the last, and returns the old ones.
    pub fn replace_past(&mut self, rows: PackedRows) -> PackedRows
        ensures past { result ≡ self.old.bases.past }
        ensures put { self.new ≡ record self.old {
          bases = record {
            base = self.old.bases.base;
            past = rows;
          };
        } }
    {
        mem::replace(&mut self.past, rows)
    }

    // Begins the history again at a base that counts all steps so far as trimmed. Returns what is no
    // longer needed, so that the holder of a lock can drop it after releasing it. If an allocation fails,
    // nothing changes.
    pub fn rebase(&mut self, base: KeptBase) -> Result<Outdated, AllocError>
        requires { Trims self.old.bases.base self.old.steps base }
        ensures bases { OnOk result
            (self.new.bases ≡ record { base = base; past = self.old.bases.base.rows }) }
        ensures steps { OnOk result (self.new.steps ≡ []) }
        ensures standing { self.new.standing ≡ self.old.standing }
        ensures room { self.old.room ≤ self.new.room }
        ensures err { OnErr result (self.new ≡ self.old) }
    {
        let steps = self.history.empty(base.next())?;
        let before = mem::replace(&mut self.base, base);
        let rows = mem::replace(&mut self.past, before.into_rows());
        self.made_steps = 0;
        self.lent_steps = 0;
        self.changed_steps = 0;
        self.refused_steps = 0;
        Ok(Outdated { steps, rows })
    }

    // A copy of the base and of the steps, which a whole tally has counted by their kinds.
    pub fn audit(&mut self, whole: &mut Tally<M, L, C, R>) -> Result<(Base, Vec<Step>), AllocError>
        requires { whole.old.parts ≡ M.workers }
        ensures base { IfOk result (λ r. r.0 ≡ self.old.bases.base) }
        ensures steps { IfOk result (λ r. r.1.items ≡ self.old.steps) }
        ensures counts { IsTallied whole.old self.old.bases.base self.old.steps }
        ensures log { self.new ≡ self.old }
        ensures tally { whole.new ≡ whole.old }
    {
        whole.made_parted.shown();
        whole.lent_parted.shown();
        whole.changed_parted.shown();
        whole.refused_parted.shown();
        self.made.audit(&mut whole.made);
        self.lent.audit(&mut whole.lent);
        self.changed.audit(&mut whole.changed);
        self.refused.audit(&mut whole.refused);
        self.copies()
    }

    // A copy of the base and of the steps.
    fn copies(&self) -> Result<(Base, Vec<Step>), AllocError>
        ensures base { IfOk result (λ r. r.0 ≡ self.now.bases.base) }
        ensures steps { IfOk result (λ r. r.1.items ≡ self.now.steps) }
    {
        let steps = self.history.to_vec()?;
        let base = self.base.unpacked(self.alloc)?;
        Ok((base, steps))
    }
}

// The kind of a step.
#[inline(always)]
fn kind_of<E: StepEntry>(entry: E) -> Kind
    ensures { result ≡ step_kind (E.as_reply entry) }
{
    entry.reply().kind()
}

// Whether a step begins a borrow.
#[inline(always)]
fn begins_borrow<E: StepEntry>(entry: E) -> bool
    ensures begins { OnTrue result (lent_by (E.as_reply entry) ≡ 1) }
    ensures none { OnFalse result (lent_by (E.as_reply entry) ≡ 0) }
{
    matches!(entry.reply(), StepReply::Reader(_) | StepReply::Writer(_))
}

/// Steps and rows that are no longer needed.
#[derive(Drop)]
pub struct Outdated {
    steps: OldSteps,
    rows: PackedRows,
}
