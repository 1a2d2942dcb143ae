//! Steps in 8 bytes, and the steps that they represent.

ghost use Rattle.std.specs.Prelude.{◌≡◌, ◌<◌, ◌++◌, OnOk, length, option_to_list};
ghost use Rattle.shared_records.specs.Decoding.{AreOwn, AreItemsWithin, HasLocationsWithin, IsItemWithin, advanced, pointer_made_at};
ghost use Rattle.shared_records.specs.Decoding.{decode, item_step, tables};
ghost use Rattle.shared_records.specs.Decoding.{name_item, reached_named, naming, next_after, owner_id};
ghost use Rattle.shared_records.specs.Decoding.{reached_first, step_at};
ghost use Rattle.shared_records.specs.Kinds.{step_of};

use crate::step::{Step, StepReply};
use generational_core::parts::{id_at, owner_at, pointer_at};
use generational_core::{GenerationalPointer, Location, OwnerId, StepCall};
use std::alloc::AllocError;
use std::mem::size_of;

/// A step: its worker, and its locations by their numbers. The items before it name the cells of its
/// boxes. The ticket of a borrow that begins, and the key of a new owner, isn't stored: it is the next
/// ticket; another ticket is stored as the difference to that. Every box is of the store whose history it
/// is.
#[derive(Clone, Copy)]
pub enum Short {
    /// No step, but the name of a cell for what comes next: the slot in two parts, of which the first is
    /// multiplied by 65536, and the generation. The cell that was named before it is remembered too.
    Name(u8, u16, u32),
    /// Any step that has no other form: the one with this number among the long ones, in two parts, of
    /// which the first counts 2^32 each.
    Long(u16, u32),
    /// A step at a location without a number: the one with this number among those that have a table of
    /// locations of their own, in two parts likewise.
    Far(u16, u32),
    /// A box of the named cell was made: worker, location.
    Leak(u16, u16),
    /// An owner's box of the named cell was made: worker, location, by how much the owner's key is less
    /// than the next ticket.
    Insert(u16, u16, u16),
    /// A shared value was made, whose cell is the one named before, and a box: worker, location.
    LeakRc(u16, u16),
    /// An owner's shared value was made likewise: worker, location, by how much the owner's key is less
    /// than the next ticket.
    InsertRc(u16, u16, u16),
    /// A reference of the named cell was made by a box of the one before: worker, where that box was
    /// made, where the reference was.
    LeakReference(u16, u16, u16),
    /// An owner was made: worker.
    Owner(u32),
    /// An owner was released: worker, by how much its key is less than the next ticket.
    ReleaseOwner(u16, u32),
    /// A read began: worker, where the box was made, where it is read.
    Read(u16, u16, u16),
    /// A write began: the same.
    Write(u16, u16, u16),
    /// A read failed with where the box was made, since that referred to nothing: the same.
    ReadDropped(u16, u16, u16),
    /// A value was set: worker, where the box was made.
    Set(u16, u16),
    /// A box was removed: the same.
    End(u16, u16),
    /// A box of the named cell was pointed at one of the cell before: worker, where the one was made,
    /// where the other was.
    PointTo(u16, u16, u16),
    /// A reader was released: worker, by how much its ticket is less than the next.
    ReleaseRead(u16, u32),
    /// A writer was released: the same.
    ReleaseWrite(u16, u32),
}

/// A step with its own table, for locations that have no number: the short one that it is over these two
/// locations.
#[derive(Clone, Copy)]
pub struct FarStep {
    pub short: Short,
    pub first: Location,
    pub second: Location,
}

/// The name of a cell: its slot, below 2^24, and its generation.
#[derive(Clone, Copy)]
pub struct ShortName {
    pub slot: u32,
    pub generation: u32,
}

impl ShortName {
    /// The item that names the cell.
    #[inline(always)]
    pub fn item(self) -> Short
        requires { self.slot < 16777216 }
        ensures { result ≡ name_item self }
    {
        let high = (self.slot / 65536) as u8;
        Short::Name(high, (self.slot % 65536) as u16, self.generation)
    }
}

/// The state of decoding: the next ticket, the cell that was named last, and the one before it.
#[derive(Clone, Copy)]
pub struct Reached {
    pub next: u64,
    pub last: ShortName,
    pub before: ShortName,
}

impl Reached {
    /// The initial state of decoding, with this next ticket.
    pub fn first(next: u64) -> Reached
        ensures { result ≡ reached_first next }
    {
        let none = ShortName {
            slot: 0,
            generation: 0,
        };
        Reached {
            next,
            last: none,
            before: none,
        }
    }

    /// The state of decoding after this name.
    #[inline(always)]
    pub fn naming(self, name: ShortName) -> Reached
        ensures { result ≡ naming self name }
    {
        Reached {
            next: self.next,
            last: name,
            before: self.last,
        }
    }

    /// The state of decoding after a step with this reply.
    #[inline(always)]
    pub fn after(self, reply: StepReply) -> Reached
        ensures { result ≡ record self { next = next_after self.next reply } }
    {
        Reached {
            next: next_after(self.next, reply),
            last: self.last,
            before: self.before,
        }
    }
}

// The size of an item, and of a step with its own table.
const _: () = prove!(size_of::<Short>() == 8);

const _: () = prove!(size_of::<FarStep>() == 56);

// A worker's step.
pub(crate) fn step(worker: u32, call: StepCall, reply: StepReply) -> Step
    ensures { result ≡ step_of worker call reply }
{
    let worker = worker as usize;
    Step {
        worker,
        call,
        reply,
    }
}

/// The step that an item represents, in this state of decoding; None for a name.
pub fn step_at(
    number: u64,
    locations: &[Location],
    long: &[Step],
    far: &[FarStep],
    reached: Reached,
    short: Short,
) -> Option<Step>
    requires within { IsItemWithin (tables locations.now long.now far.now) short }
    requires own { AreOwn far.now }
    ensures { result ≡ step_at number (tables locations.now long.now far.now) reached short }
{
    match short {
        Short::Long(high, low) => Some(long[(high as usize) * 4294967296 + low as usize]),
        Short::Far(high, low) => {
            let step = far[(high as usize) * 4294967296 + low as usize];
            let own = [step.first, step.second];
            item_step(number, &own, reached, step.short)
        }
        _ => item_step(number, locations, reached, short),
    }
}

// The step that an item represents if the step isn't stored elsewhere; None otherwise.
fn item_step(number: u64, locations: &[Location], reached: Reached, short: Short) -> Option<Step>
    requires { HasLocationsWithin (length locations.now) short }
    ensures { result ≡ item_step number locations.now reached short }
{
    let Reached { next, last, before } = reached;
    match short {
        Short::Name(_, _, _) | Short::Long(_, _) | Short::Far(_, _) => None,
        Short::Leak(worker, there) => {
            let call = StepCall::Leak(locations[there as usize]);
            let made = pointer_made_at(number, locations, there, last);
            Some(step(worker as u32, call, StepReply::Made(made)))
        }
        Short::Insert(worker, there, back) => {
            let owner = owner_id(number, next.saturating_sub(back as u64));
            let call = StepCall::Insert(owner, locations[there as usize]);
            let made = pointer_made_at(number, locations, there, last);
            Some(step(worker as u32, call, StepReply::Made(made)))
        }
        Short::LeakRc(worker, there) => {
            let call = StepCall::LeakRc(locations[there as usize]);
            let cell = id_at(number, before.slot as usize, before.generation as u64);
            let made = pointer_made_at(number, locations, there, last);
            Some(step(worker as u32, call, StepReply::MadeShared(cell, made)))
        }
        Short::InsertRc(worker, there, back) => {
            let owner = owner_id(number, next.saturating_sub(back as u64));
            let call = StepCall::InsertRc(owner, locations[there as usize]);
            let cell = id_at(number, before.slot as usize, before.generation as u64);
            let made = pointer_made_at(number, locations, there, last);
            Some(step(worker as u32, call, StepReply::MadeShared(cell, made)))
        }
        Short::LeakReference(worker, asked, there) => {
            let call = StepCall::LeakReference(pointer_made_at(number, locations, asked, before));
            let made = pointer_made_at(number, locations, there, last);
            Some(step(worker as u32, call, StepReply::Made(made)))
        }
        Short::Owner(worker) => {
            let reply = StepReply::Owner(owner_id(number, next));
            Some(step(worker, StepCall::Owner, reply))
        }
        Short::ReleaseOwner(worker, back) => {
            let owner = owner_id(number, next.saturating_sub(back as u64));
            let call = StepCall::ReleaseOwner(owner);
            Some(step(worker as u32, call, StepReply::Done))
        }
        Short::Read(worker, made, read) => {
            let asked = pointer_made_at(number, locations, made, last);
            let call = StepCall::Read(asked, locations[read as usize]);
            Some(step(worker as u32, call, StepReply::Reader(next)))
        }
        Short::Write(worker, made, written) => {
            let asked = pointer_made_at(number, locations, made, last);
            let call = StepCall::Write(asked, locations[written as usize]);
            Some(step(worker as u32, call, StepReply::Writer(next)))
        }
        Short::ReadDropped(worker, made, read) => {
            let asked = pointer_made_at(number, locations, made, last);
            let call = StepCall::Read(asked, locations[read as usize]);
            Some(step(worker as u32, call, StepReply::Dropped(asked.created_at)))
        }
        Short::Set(worker, made) => {
            let call = StepCall::Set(pointer_made_at(number, locations, made, last));
            Some(step(worker as u32, call, StepReply::Done))
        }
        Short::End(worker, made) => {
            let call = StepCall::ManuallyDrop(pointer_made_at(number, locations, made, last));
            Some(step(worker as u32, call, StepReply::Done))
        }
        Short::PointTo(worker, made, target) => {
            let asked = pointer_made_at(number, locations, made, last);
            let other = pointer_made_at(number, locations, target, before);
            let call = StepCall::PointTo(asked, other);
            Some(step(worker as u32, call, StepReply::Done))
        }
        Short::ReleaseRead(worker, back) => {
            let call = StepCall::ReleaseRead(next.saturating_sub(back as u64));
            Some(step(worker as u32, call, StepReply::Done))
        }
        Short::ReleaseWrite(worker, back) => {
            let call = StepCall::ReleaseWrite(next.saturating_sub(back as u64));
            Some(step(worker as u32, call, StepReply::Done))
        }
    }
}

// The box of a cell that was made at the location with this number.
fn pointer_made_at(
    number: u64,
    locations: &[Location],
    there: u16,
    name: ShortName,
) -> GenerationalPointer
    requires { there < length locations.now }
    ensures { result ≡ pointer_made_at number locations.now there name }
{
    pointer_at(
        number,
        name.slot as usize,
        name.generation as u64,
        locations[there as usize],
    )
}

// The id of the owner with this key.
fn owner_id(number: u64, key: u64) -> OwnerId
    ensures { result ≡ owner_id number key }
{
    let owner = owner_at(number, key, 0);
    let id = owner.id();
    owner.leak();
    id
}

// The next ticket after a step with this reply.
#[inline(always)]
fn next_after(next: u64, reply: StepReply) -> u64
    ensures { result ≡ next_after next reply }
{
    match reply {
        StepReply::Reader(ticket) => ticket.wrapping_add(1),
        StepReply::Writer(ticket) => ticket.wrapping_add(1),
        StepReply::Owner(_) => next.wrapping_add(1),
        _ => next,
    }
}

// The state of decoding after an item, and after the step that it represents, if any.
fn go_on(reached: Reached, short: Short, step: Option<Step>) -> Reached
    ensures { result ≡ advanced (reached_named reached short) step }
{
    let reached = match short {
        Short::Name(high, low, generation) => reached.naming(ShortName {
            slot: (high as u32) * 65536 + low as u32,
            generation,
        }),
        _ => reached,
    };
    match step {
        Some(step) => reached.after(step.reply),
        None => reached,
    }
}

// Appends a step, if there is one.
fn push_some(all: &mut Vec<Step>, step: Option<Step>) -> Result<(), AllocError>
    ensures { OnOk result (all.new.items ≡ all.old.items ++ option_to_list step) }
{
    if let Some(step) = step {
        all.push(step)?;
    }
    Ok(())
}

/// Appends the steps that items represent, in order; decoding begins at `start`.
pub fn decode_all(
    all: &mut Vec<Step>,
    number: u64,
    locations: &[Location],
    long: &[Step],
    far: &[FarStep],
    start: Reached,
    short: &[Short],
) -> Result<(), AllocError>
    requires within { AreItemsWithin (tables locations.now long.now far.now) short.now }
    requires own { AreOwn far.now }
    ensures { OnOk result (all.new.items ≡ all.old.items
        ++ decode number (tables locations.now long.now far.now) start short.now) }
{
    let mut reached = start;
    for item in short.iter() {
        let step = step_at(number, locations, long, far, reached, *item);
        reached = go_on(reached, *item, step);
        push_some(all, step)?;
    }
    Ok(())
}
