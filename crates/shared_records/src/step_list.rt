//! The list of a history's steps.

ghost use Rattle.std.specs.Prelude.{◌≡◌, ◌+◌, ◌<◌, ◌≤◌, ◌^◌, [], ◌∷◌, ◌++◌, IfOk, OnOk, OnErr};
ghost use Rattle.std.specs.Prelude.{IfSome, length};
ghost use Rattle.shared_records.specs.Decoding.{AreOwn, AreShort, AreItemsWithin, Extends, IsApart, IsNaming};
ghost use Rattle.shared_records.specs.Decoding.{StandsFor, decode, name_items};
ghost use Rattle.shared_records.specs.Decoding.{naming_all, next_after, reached_by, reached_first, tables};
ghost use Rattle.shared_records.specs.declared.short.Short.{Short};
ghost use Rattle.shared_records.specs.declared.shorten.ItemNames.TheVariants as names;
ghost use Rattle.shared_records.specs.Kinds.{step_of};
ghost use Rattle.shared_records.specs.Letters.{AppendsStep};

use crate::entry::StepEntry;
use crate::locations::NumberedLocations;
use crate::short::{FarStep, Reached, Short, ShortName, decode_all, step};
use crate::shorten::{ItemNames, Taken, far_form};
use crate::step::{Step, StepReply};
use generational_core::StepCall;
use shared_chunks::Chunks;
use std::alloc::{AllocError, Global};
use std::marker::Model;
use std::mem;

// The most locations with which the next history begins: half of those that can be numbered.
const MANY_LOCATIONS: usize = 32768;

// The most long steps, and the most far ones: as many as their items can number.
const MOST_LONG: usize = 281474976710656;

/// Steps of the store with this number, in 8 bytes each if they have a short form, with 8 more for a
/// cell's name, in 64 if such a form lacks only a location's number, and in 216 otherwise. Contracts
/// model it as the steps, and for how many more there is room.
///
/// A location's text is stored once: a step comes back with the same letters, which may be elsewhere in
/// memory.
#[derive(Drop)]
pub struct StepList<const NUMBER: u64> {
    // for how many more steps there is room
    room: usize,
    // the state of decoding after the last step; the fields that an append writes are adjacent up to
    // here, and at the beginning of the short steps
    reached: Reached,
    short: Chunks<Short>,
    // the next ticket at the first step
    start: u64,
    locations: NumberedLocations,
    long: Chunks<Step>,
    far: Chunks<FarStep>,
    alloc: Global,
}

impl<const NUMBER: u64> Model for StepList<NUMBER> {
    ghost use Rattle.std.specs.Prelude.{◌≡◌, ◌+◌, ◌≤◌, ◌^◌, length};
    ghost use Rattle.shared_records.specs.Decoding.{AreOwn, AreItemsWithin, decode, reached_by, reached_first};
    ghost use Rattle.shared_records.specs.Decoding.{tables};
    ghost use Rattle.shared_records.specs.Lists.{StepsState};

    ghost Value = { StepsState };

    ghost view = { λ l. record {
      steps = decode NUMBER (tables l.locations l.long.items l.far.items)
          (reached_first l.start) l.short.items;
      room = l.room;
    } };

    ghost invariant = { λ l.
        (AreItemsWithin (tables l.locations l.long.items l.far.items) l.short.items)
        × (AreOwn l.far.items)
        × (l.reached ≡ reached_by NUMBER (tables l.locations l.long.items l.far.items)
        (reached_first l.start) l.short.items)
        × (l.room + l.room + l.room ≤ l.short.room)
        × (l.room ≤ l.long.room) × (length l.long.items + l.room ≤ 2 ^ 48)
        × (l.room ≤ l.far.room) × (length l.far.items + l.room ≤ 2 ^ 48) };
}

impl<const NUMBER: u64> StepList<NUMBER> {
    /// A list of no steps. Doesn't allocate.
    pub fn new(alloc: Global) -> Self
        ensures { result ≡ record { steps = []; room = 0 } }
    {
        StepList {
            alloc,
            room: 0,
            start: 0,
            reached: Reached::first(0),
            locations: NumberedLocations::new(alloc),
            short: Chunks::new(alloc),
            long: Chunks::new(alloc),
            far: Chunks::new(alloc),
        }
    }

    /// Does nothing. Its contract says that there is never room for more steps than long ones can be
    /// numbered. A caller's proof cites it.
    #[inline(always)]
    pub fn room_is_bounded(&self)
        ensures { self.now.room ≤ 2 ^ 48 }
    {
        let _ = &self.room;
    }

    /// Reserves room for this many more steps.
    #[inline(always)]
    pub fn reserve(&mut self, more: usize) -> Result<(), AllocError>
        ensures steps { self.new.steps ≡ self.old.steps }
        ensures room { self.old.room ≤ self.new.room }
        ensures ok { OnOk result (more ≤ self.new.room) }
    {
        if more <= self.room {
            return Ok(());
        }
        self.grow(more)
    }

    // Reserves room for this many more steps, if there isn't enough: three items, a long step and a far
    // one for each. A longer list reserves more of these, so that this is seldom called.
    #[cold]
    #[inline(never)]
    fn grow(&mut self, more: usize) -> Result<(), AllocError>
        requires { self.old.room ≤ more }
        ensures steps { self.new.steps ≡ self.old.steps }
        ensures room { self.old.room ≤ self.new.room }
        ensures ok { OnOk result (more ≤ self.new.room) }
    {
        let Some(items) = more.checked_mul(3) else {
            return Err(AllocError);
        };
        let left = MOST_LONG.saturating_sub(self.long.len().max(self.far.len()));
        if left < more {
            return Err(AllocError);
        }
        self.short.reserve(items)?;
        let usual = self.short.len().min(1024) / 8;
        if self.long.reserve(more.max(usual)).is_err() {
            self.long.reserve(more)?;
        }
        if self.far.reserve(more.max(usual)).is_err() {
            self.far.reserve(more)?;
        }
        let kept = self.long.room().min(self.far.room());
        self.room = kept.min(self.short.room() / 3).min(left);
        Ok(())
    }

    /// Appends a worker's step, for which there is room. Allocates only for a location that isn't stored
    /// yet; if that fails, the step is stored in more bytes.
    #[tactic(auto, using(crate::proofs::Decodes::decode_length))]
    #[inline(always)]
    pub fn append<E: StepEntry>(&mut self, worker: u32, entry: E)
        requires room { 0 < self.old.room }
        ensures steps { AppendsStep self.old.steps
            (step_of worker (E.as_call entry) (E.as_reply entry)) self.new.steps }
        ensures room { self.new.room + 1 ≡ self.old.room }
        ensures bounded { length self.new.steps + self.new.room < 2 ^ 64 }
    {
        self.room -= 1;
        keep::<NUMBER, E>(
            worker,
            self.start,
            &mut self.reached,
            &mut self.locations,
            &mut self.short,
            &mut self.long,
            &mut self.far,
            entry,
        );
    }

    /// The steps in order.
    pub fn to_vec(&self) -> Result<Vec<Step>, AllocError>
        ensures { IfOk result (λ all. all.items ≡ self.now.steps) }
    {
        let long = self.long.to_vec()?;
        let far = self.far.to_vec()?;
        let short = self.short.to_vec()?;
        let locations = self.locations.to_vec(self.alloc)?;
        let names = short
            .iter()
            .filter(|item| matches!(item, Short::Name(_, _, _)))
            .count();
        let mut all = Vec::with_capacity(self.alloc, short.len().saturating_sub(names))?;
        decode_all(
            &mut all,
            NUMBER,
            locations.as_slice(),
            long.as_slice(),
            far.as_slice(),
            Reached::first(self.start),
            short.as_slice(),
        )?;
        Ok(all)
    }

    /// Removes all steps, where `next` is the next ticket, and keeps the room, and the locations unless
    /// there are more than 32,768. Returns what is no longer needed, so that the holder of a lock can
    /// drop it after releasing it. If an allocation fails, nothing changes.
    pub fn empty(&mut self, next: u64) -> Result<OldSteps, AllocError>
        ensures steps { OnOk result (self.new.steps ≡ []) }
        ensures room { OnOk result (self.old.room ≤ self.new.room) }
        ensures err { OnErr result (self.new ≡ self.old) }
    {
        let no_short = Vec::with_capacity(self.alloc, 1)?;
        let no_long = Vec::with_capacity(self.alloc, 1)?;
        let no_far = Vec::with_capacity(self.alloc, 1)?;
        let short = self.short.empty(no_short);
        let long = self.long.empty(no_long);
        let far = self.far.empty(no_far);
        self.start = next;
        self.reached = Reached::first(next);
        let locations = forget_many(&mut self.locations, self.alloc);
        Ok(OldSteps {
            short,
            long,
            far,
            locations,
        })
    }
}

/// Steps that are no longer needed.
#[derive(Drop)]
pub struct OldSteps {
    short: Vec<Vec<Short>>,
    long: Vec<Vec<Step>>,
    far: Vec<Vec<FarStep>>,
    locations: NumberedLocations,
}

// Removes the locations if there are many, and returns them.
fn forget_many(locations: &mut NumberedLocations, alloc: Global) -> NumberedLocations
    ensures few { length locations.old ≤ 32768 → locations.new ≡ locations.old }
    ensures many { 32768 < length locations.old → locations.new ≡ [] }
    ensures old { 32768 < length locations.old → result ≡ locations.old }
{
    let none = NumberedLocations::new(alloc);
    if locations.len() > MANY_LOCATIONS {
        mem::replace(locations, none)
    } else {
        none
    }
}

// Appends a worker's step to the items; decoding begins at `start` and has come to `reached`. That is
// changed in place, so that a step which leaves it unchanged doesn't write it.
#[inline(always)]
fn keep<const NUMBER: u64, E: StepEntry>(
    worker: u32,
    start: u64,
    reached: &mut Reached,
    locations: &mut NumberedLocations,
    list: &mut Chunks<Short>,
    long: &mut Chunks<Step>,
    far: &mut Chunks<FarStep>,
    entry: E,
)
    requires within { AreItemsWithin (tables locations.old long.old.items far.old.items) list.old.items }
    requires own { AreOwn far.old.items }
    requires reached { reached.old ≡ reached_by NUMBER
        (tables locations.old long.old.items far.old.items) (reached_first start) list.old.items }
    requires room { (2 < list.old.room) × (0 < long.old.room) × (0 < far.old.room) }
    requires numbered { (length long.old.items < 2 ^ 48) × (length far.old.items < 2 ^ 48) }
    ensures within { AreItemsWithin (tables locations.new long.new.items far.new.items) list.new.items }
    ensures own { AreOwn far.new.items }
    ensures reached { reached.new ≡ reached_by NUMBER
        (tables locations.new long.new.items far.new.items) (reached_first start) list.new.items }
    ensures steps { AppendsStep
        (decode NUMBER (tables locations.old long.old.items far.old.items) (reached_first start)
        list.old.items)
        (step_of worker (E.as_call entry) (E.as_reply entry))
        (decode NUMBER (tables locations.new long.new.items far.new.items) (reached_first start)
        list.new.items) }
    ensures room { list.old.room ≤ list.new.room + 3 }
    ensures bounded { length list.new.items + list.new.room < 2 ^ 64 }
    ensures long_room { long.old.room ≤ long.new.room + 1 }
    ensures few_long { length long.new.items ≤ length long.old.items + 1 }
    ensures far_room { far.old.room ≤ far.new.room + 1 }
    ensures few_far { length far.new.items ≤ length far.old.items + 1 }
{
    match shortened::<NUMBER, E>(worker, reached, locations, list, entry) {
        Some(short) => {
            list.push(short);
            advance(reached, entry);
        }
        None => {
            keep_apart::<NUMBER, E>(worker, *reached, list, long, far, entry);
            advance(reached, entry);
        }
    }
}

// Names the step's cells, if their numbers fit, and returns the step's item, if it has one.
#[inline(always)]
fn shortened<const NUMBER: u64, E: StepEntry>(
    worker: u32,
    reached: &mut Reached,
    locations: &mut NumberedLocations,
    list: &mut Chunks<Short>,
    entry: E,
) -> Option<Short>
    requires room { 1 < list.old.room }
    ensures extends { Extends locations.old locations.new }
    ensures names { IsNaming list.old.items list.new.items reached.old reached.new }
    ensures room { list.old.room ≤ list.new.room + 2 }
    ensures form { IfSome result (StandsFor NUMBER locations.new reached.new
        (step_of worker (E.as_call entry) (E.as_reply entry))) }
{
    let taken = Taken {
        number: NUMBER,
        reached: *reached,
        worker,
    };
    let names = entry.names(taken)?;
    name_cells(names, reached, list);
    let taken = Taken {
        number: NUMBER,
        reached: *reached,
        worker,
    };
    entry.form(taken, locations)
}

// Appends a step that has no short form: with its own table, if it has a form then, or whole. It is a
// separate function that is inlined, so that the other function's arguments are written to memory here,
// and not where a short step is stored.
#[inline(always)]
fn keep_apart<const NUMBER: u64, E: StepEntry>(
    worker: u32,
    reached: Reached,
    list: &mut Chunks<Short>,
    long: &mut Chunks<Step>,
    far: &mut Chunks<FarStep>,
    entry: E,
)
    requires numbered { (length long.old.items < 2 ^ 48) × (length far.old.items < 2 ^ 48) }
    requires room { (0 < list.old.room) × (0 < long.old.room) × (0 < far.old.room) }
    ensures kept { (x : Short) × (list.new.items ≡ list.old.items ++ x ∷ [])
        × IsApart NUMBER reached
        (step_of worker (E.as_call entry) (E.as_reply entry))
        long.old.items long.new.items far.old.items far.new.items x }
    ensures own { AreOwn far.old.items → AreOwn far.new.items }
    ensures room { list.new.room + 1 ≡ list.old.room }
    ensures bounded { length list.new.items + list.new.room < 2 ^ 64 }
    ensures long_room { long.old.room ≤ long.new.room + 1 }
    ensures few_long { length long.new.items ≤ length long.old.items + 1 }
    ensures far_room { far.old.room ≤ far.new.room + 1 }
    ensures few_far { length far.new.items ≤ length far.old.items + 1 }
{
    let taken = Taken {
        number: NUMBER,
        reached,
        worker,
    };
    push_apart(taken, list, long, far, entry);
}

#[cold]
#[inline(never)]
fn push_apart<E: StepEntry>(
    taken: Taken,
    list: &mut Chunks<Short>,
    long: &mut Chunks<Step>,
    far: &mut Chunks<FarStep>,
    entry: E,
)
    requires numbered { (length long.old.items < 2 ^ 48) × (length far.old.items < 2 ^ 48) }
    requires room { (0 < list.old.room) × (0 < long.old.room) × (0 < far.old.room) }
    ensures kept { (x : Short) × (list.new.items ≡ list.old.items ++ x ∷ [])
        × IsApart taken.number taken.reached
        (step_of taken.worker (E.as_call entry) (E.as_reply entry))
        long.old.items long.new.items far.old.items far.new.items x }
    ensures own { AreOwn far.old.items → AreOwn far.new.items }
    ensures room { list.new.room + 1 ≡ list.old.room }
    ensures bounded { length list.new.items + list.new.room < 2 ^ 64 }
    ensures long_room { long.old.room ≤ long.new.room + 1 }
    ensures few_long { length long.new.items ≤ length long.old.items + 1 }
    ensures far_room { far.old.room ≤ far.new.room + 1 }
    ensures few_far { length far.new.items ≤ length far.old.items + 1 }
{
    match far_form(taken, entry) {
        Some(step) => {
            let at = far.len();
            far.push(step);
            list.push(Short::Far((at / 4294967296) as u16, (at % 4294967296) as u32));
        }
        None => {
            let at = long.len();
            long.push(step(taken.worker, entry.call(), entry.reply()));
            list.push(Short::Long((at / 4294967296) as u16, (at % 4294967296) as u32));
        }
    }
}

// Appends the names before a step.
#[inline(always)]
fn name_cells(names: ItemNames, reached: &mut Reached, list: &mut Chunks<Short>)
    requires short { AreShort names }
    requires room { 1 < list.old.room }
    ensures list { list.new.items ≡ list.old.items ++ name_items names }
    ensures reached { reached.new ≡ naming_all reached.old names }
    ensures room { list.old.room ≤ list.new.room + 2 }
{
    match names {
        ItemNames::None => {}
        ItemNames::One(name) => {
            list.push(name.item());
            *reached = reached.naming(name);
        }
        ItemNames::Two(first, second) => name_two_cells(first, second, reached, list),
    }
}

// Appends two names. It isn't `inline(always)`, since the function into which a step's form is inlined
// would be too large to be inlined itself.
#[inline]
fn name_two_cells(
    first: ShortName,
    second: ShortName,
    reached: &mut Reached,
    list: &mut Chunks<Short>,
)
    requires short { (first.slot < 16777216) × (second.slot < 16777216) }
    requires room { 1 < list.old.room }
    ensures list { list.new.items ≡ list.old.items ++ name_items (names.Two first second) }
    ensures reached { reached.new ≡ naming_all reached.old (names.Two first second) }
    ensures room { list.new.room + 2 ≡ list.old.room }
{
    list.push(first.item());
    list.push(second.item());
    *reached = reached.naming(first).naming(second);
}

// Moves decoding past the step.
#[inline(always)]
fn advance<E: StepEntry>(reached: &mut Reached, entry: E)
    ensures { reached.new ≡ record reached.old { next = next_after reached.old.next (E.as_reply entry) } }
{
    *reached = reached.after(entry.reply());
}
