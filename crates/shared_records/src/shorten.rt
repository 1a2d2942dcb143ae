//! How steps are stored in 8 bytes.

ghost use Rattle.std.specs.Prelude.{◌≡◌, ◌-◌, ◌<◌, IfSome, None, Some};
ghost use Rattle.std.specs.Bool.{OnTrue};
ghost use Rattle.generational_core.specs.declared.steps.StepCall.TheVariants as call;
ghost use Rattle.generational_core.specs.Boxes.{id_of};
ghost use Rattle.shared_records.specs.declared.step.StepReply.TheVariants as reply;
ghost use Rattle.shared_records.specs.Decoding.{AreNamed, AreShort, Extends, IsNumberOf, StandsFor};
ghost use Rattle.shared_records.specs.Decoding.{full, naming_all, own_locations, owner_id};
ghost use Rattle.shared_records.specs.Kinds.{step_of};

use crate::entry::StepEntry;
use crate::locations::{LocationTable, OwnLocations, is_same};
use crate::short::{FarStep, Reached, Short, ShortName};
use generational_core::{GenerationalBoxId, GenerationalPointer, Location, OwnerId};

/// Where a step is taken: the store's number, the state of decoding before it, and the worker.
#[derive(Clone, Copy)]
pub struct Taken {
    pub number: u64,
    pub reached: Reached,
    pub worker: u32,
}

/// The names before a step's item, in order.
#[derive(Clone, Copy)]
pub enum ItemNames {
    None,
    One(ShortName),
    Two(ShortName, ShortName),
}

/// A step with its own table of locations, if it has a form then, and the names of its cells before it.
#[cold]
#[inline(never)]
pub fn far_form<E: StepEntry>(taken: Taken, entry: E) -> Option<FarStep>
    ensures { IfSome result (λ f. StandsFor taken.number (own_locations f) taken.reached
        (step_of taken.worker (E.as_call entry) (E.as_reply entry)) f.short) }
{
    let Some(ItemNames::None) = entry.names(taken) else {
        return None;
    };
    let mut own = OwnLocations {
        first: None,
        second: None,
    };
    let short = entry.form(taken, &mut own)?;
    let first = own.first?;
    Some(FarStep {
        short,
        first,
        second: own.second.unwrap_or(first),
    })
}

// The name of a cell of the store, if its numbers fit.
#[inline(always)]
fn short_name(taken: Taken, id: GenerationalBoxId) -> Option<ShortName>
    ensures { IfSome result (λ n. (id ≡ id_of taken.number (full n)) × (n.slot < 16777216)) }
{
    if id.store != taken.number || id.slot >= 16777216 || id.generation >= 4294967296 {
        return None;
    }
    Some(ShortName {
        slot: id.slot as u32,
        generation: id.generation as u32,
    })
}

// Whether the cell with this id is the one that was named last.
#[inline(always)]
fn is_last(taken: Taken, id: GenerationalBoxId) -> bool
    ensures { OnTrue result (id ≡ id_of taken.number (full taken.reached.last)) }
{
    let last = taken.reached.last;
    id.slot == last.slot as usize
        && id.generation == last.generation as u64
        && id.store == taken.number
}

/// The name that makes the cell with this id the last one, if it fits. Mostly it is that already.
#[inline(always)]
pub fn name_one(taken: Taken, id: GenerationalBoxId) -> Option<ItemNames>
    ensures short { IfSome result AreShort }
    ensures named { IfSome result
        (λ names. AreNamed taken.number (naming_all taken.reached names) None (Some id)) }
{
    if is_last(taken, id) {
        return Some(ItemNames::None);
    }
    Some(ItemNames::One(short_name(taken, id)?))
}

/// The names that make two cells the last one and the one before it, if they fit.
#[inline(always)]
pub fn name_two(
    taken: Taken,
    before: GenerationalBoxId,
    last: GenerationalBoxId,
) -> Option<ItemNames>
    ensures short { IfSome result AreShort }
    ensures named { IfSome result
        (λ names. AreNamed taken.number (naming_all taken.reached names) (Some before) (Some last)) }
{
    let second = short_name(taken, last)?;
    if is_last(taken, before) {
        return Some(ItemNames::One(second));
    }
    Some(ItemNames::Two(short_name(taken, before)?, second))
}

/// The worker's number, if it fits.
#[inline(always)]
pub fn worker_of(taken: Taken) -> Option<u16>
    ensures { IfSome result (λ worker. worker ≡ taken.worker) }
{
    u16::try_from(taken.worker).ok()
}

#[inline(always)]
pub fn leak<P: LocationTable>(
    taken: Taken,
    locations: &mut P,
    at: Location,
    made: GenerationalPointer,
) -> Option<Short>
    requires { made.id ≡ id_of taken.number (full taken.reached.last) }
    ensures extends { Extends (P.locations locations.old) (P.locations locations.new) }
    ensures form { IfSome result (StandsFor taken.number (P.locations locations.new) taken.reached
        (step_of taken.worker (call.Leak at) (reply.Made made))) }
{
    if !is_same(made.created_at, at) {
        return None;
    }
    let worker = worker_of(taken)?;
    let there = locations.find_or_add(at)?;
    Some(Short::Leak(worker, there))
}

#[inline(always)]
pub fn insert<P: LocationTable>(
    taken: Taken,
    locations: &mut P,
    owner: OwnerId,
    at: Location,
    made: GenerationalPointer,
) -> Option<Short>
    requires { made.id ≡ id_of taken.number (full taken.reached.last) }
    ensures extends { Extends (P.locations locations.old) (P.locations locations.new) }
    ensures form { IfSome result (StandsFor taken.number (P.locations locations.new) taken.reached
        (step_of taken.worker (call.Insert owner at) (reply.Made made))) }
{
    if !is_same(made.created_at, at) {
        return None;
    }
    let worker = worker_of(taken)?;
    let back = back_to_owner(taken, owner)?;
    let there = locations.find_or_add(at)?;
    Some(Short::Insert(worker, there, back))
}

#[inline(always)]
pub fn read<P: LocationTable>(
    taken: Taken,
    locations: &mut P,
    asked: GenerationalPointer,
    at: Location,
    ticket: u64,
) -> Option<Short>
    requires { asked.id ≡ id_of taken.number (full taken.reached.last) }
    ensures extends { Extends (P.locations locations.old) (P.locations locations.new) }
    ensures form { IfSome result (StandsFor taken.number (P.locations locations.new) taken.reached
        (step_of taken.worker (call.Read asked at) (reply.Reader ticket))) }
{
    if !is_next(taken, ticket) {
        return None;
    }
    let worker = worker_of(taken)?;
    let (made, there) = find_two(locations, asked.created_at, at)?;
    Some(Short::Read(worker, made, there))
}

#[inline(always)]
pub fn write<P: LocationTable>(
    taken: Taken,
    locations: &mut P,
    asked: GenerationalPointer,
    at: Location,
    ticket: u64,
) -> Option<Short>
    requires { asked.id ≡ id_of taken.number (full taken.reached.last) }
    ensures extends { Extends (P.locations locations.old) (P.locations locations.new) }
    ensures form { IfSome result (StandsFor taken.number (P.locations locations.new) taken.reached
        (step_of taken.worker (call.Write asked at) (reply.Writer ticket))) }
{
    if !is_next(taken, ticket) {
        return None;
    }
    let worker = worker_of(taken)?;
    let (made, there) = find_two(locations, asked.created_at, at)?;
    Some(Short::Write(worker, made, there))
}

#[inline(always)]
pub fn read_dropped<P: LocationTable>(
    taken: Taken,
    locations: &mut P,
    asked: GenerationalPointer,
    at: Location,
) -> Option<Short>
    requires { asked.id ≡ id_of taken.number (full taken.reached.last) }
    ensures extends { Extends (P.locations locations.old) (P.locations locations.new) }
    ensures form { IfSome result (StandsFor taken.number (P.locations locations.new) taken.reached
        (step_of taken.worker (call.Read asked at) (reply.Dropped asked.created_at))) }
{
    let worker = worker_of(taken)?;
    let (made, there) = find_two(locations, asked.created_at, at)?;
    Some(Short::ReadDropped(worker, made, there))
}

#[inline(always)]
pub fn leak_rc<P: LocationTable>(
    taken: Taken,
    locations: &mut P,
    at: Location,
    cell: GenerationalBoxId,
    made: GenerationalPointer,
) -> Option<Short>
    requires { AreNamed taken.number taken.reached (Some cell) (Some made.id) }
    ensures extends { Extends (P.locations locations.old) (P.locations locations.new) }
    ensures form { IfSome result (StandsFor taken.number (P.locations locations.new) taken.reached
        (step_of taken.worker (call.LeakRc at) (reply.MadeShared cell made))) }
{
    if !is_same(made.created_at, at) {
        return None;
    }
    let worker = worker_of(taken)?;
    let there = locations.find_or_add(at)?;
    Some(Short::LeakRc(worker, there))
}

#[inline(always)]
pub fn insert_rc<P: LocationTable>(
    taken: Taken,
    locations: &mut P,
    owner: OwnerId,
    at: Location,
    cell: GenerationalBoxId,
    made: GenerationalPointer,
) -> Option<Short>
    requires { AreNamed taken.number taken.reached (Some cell) (Some made.id) }
    ensures extends { Extends (P.locations locations.old) (P.locations locations.new) }
    ensures form { IfSome result (StandsFor taken.number (P.locations locations.new) taken.reached
        (step_of taken.worker (call.InsertRc owner at) (reply.MadeShared cell made))) }
{
    if !is_same(made.created_at, at) {
        return None;
    }
    let worker = worker_of(taken)?;
    let back = back_to_owner(taken, owner)?;
    let there = locations.find_or_add(at)?;
    Some(Short::InsertRc(worker, there, back))
}

#[inline(always)]
pub fn leak_reference<P: LocationTable>(
    taken: Taken,
    locations: &mut P,
    asked: GenerationalPointer,
    made: GenerationalPointer,
) -> Option<Short>
    requires { AreNamed taken.number taken.reached (Some asked.id) (Some made.id) }
    ensures extends { Extends (P.locations locations.old) (P.locations locations.new) }
    ensures form { IfSome result (StandsFor taken.number (P.locations locations.new) taken.reached
        (step_of taken.worker (call.LeakReference asked) (reply.Made made))) }
{
    let worker = worker_of(taken)?;
    let (at, there) = find_two(locations, asked.created_at, made.created_at)?;
    Some(Short::LeakReference(worker, at, there))
}

#[inline(always)]
pub fn point_to<P: LocationTable>(
    taken: Taken,
    locations: &mut P,
    asked: GenerationalPointer,
    other: GenerationalPointer,
) -> Option<Short>
    requires { AreNamed taken.number taken.reached (Some other.id) (Some asked.id) }
    ensures extends { Extends (P.locations locations.old) (P.locations locations.new) }
    ensures form { IfSome result (StandsFor taken.number (P.locations locations.new) taken.reached
        (step_of taken.worker (call.PointTo asked other) (reply.Done))) }
{
    let worker = worker_of(taken)?;
    let (made, target) = find_two(locations, asked.created_at, other.created_at)?;
    Some(Short::PointTo(worker, made, target))
}

/// Whether a ticket is the next one of decoding.
#[inline(always)]
pub fn is_next(taken: Taken, ticket: u64) -> bool
    ensures { OnTrue result (ticket ≡ taken.reached.next) }
{
    ticket == taken.reached.next
}

/// By how much a ticket or an owner's key is less than the next ticket, if that fits.
#[inline(always)]
pub fn back_to(taken: Taken, ticket: u64) -> Option<u32>
    ensures { IfSome result (λ back. ticket ≡ taken.reached.next - back) }
{
    let back = taken.reached.next.checked_sub(ticket)?;
    u32::try_from(back).ok()
}

// The numbers of two locations.
#[inline(always)]
fn find_two<P: LocationTable>(locations: &mut P, one: Location, two: Location) -> Option<(u16, u16)>
    ensures extends { Extends (P.locations locations.old) (P.locations locations.new) }
    ensures found { IfSome result (λ r. IsNumberOf (P.locations locations.new) r.0 one
        × IsNumberOf (P.locations locations.new) r.1 two) }
{
    let first = locations.find_or_add(one)?;
    let second = locations.find_or_add(two)?;
    Some((first, second))
}

// By how much the key of an owner of the store is less than the next ticket, if that fits.
#[inline(always)]
fn back_to_owner(taken: Taken, owner: OwnerId) -> Option<u16>
    ensures { IfSome result (λ back. owner ≡ owner_id taken.number (taken.reached.next - back)) }
{
    if owner.store != taken.number {
        return None;
    }
    let back = taken.reached.next.checked_sub(owner.key)?;
    u16::try_from(back).ok()
}
