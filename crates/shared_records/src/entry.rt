//! Calls with their replies, as they are passed to a list of steps.

ghost use Rattle.std.specs.Prelude.{◌≡◌, IfSome, None, Option, Some};
ghost use Rattle.generational_core.specs.declared.boxes.GenerationalBoxId.{GenerationalBoxId};
ghost use Rattle.generational_core.specs.declared.steps.StepCall.{StepCall};
ghost use Rattle.generational_core.specs.declared.steps.StepCall.TheVariants as call;
ghost use Rattle.shared_records.specs.declared.step.StepReply.{StepReply};
ghost use Rattle.shared_records.specs.declared.step.StepReply.TheVariants as reply;
ghost use Rattle.shared_records.specs.Decoding.{AreNamed, AreShort, Extends, StandsFor};
ghost use Rattle.shared_records.specs.Decoding.{naming_all};
ghost use Rattle.shared_records.specs.Kinds.{made_by, referred_by, shared_by, step_of};

use crate::locations::LocationTable;
use crate::short::Short;
use crate::shorten::{
    ItemNames, Taken, back_to, insert, insert_rc, is_next, leak, leak_rc, leak_reference, name_one,
    name_two, point_to, read, read_dropped, worker_of, write,
};
use crate::step::StepReply;
use generational_core::{GenerationalBoxId, GenerationalPointer, Location, OwnerId, StepCall};

/// A call with its reply, in the form that the caller has. Each frequent call has its own type, so that
/// no `StepCall` is built and destructured on its way into the list.
pub trait StepEntry: Copy {
    ghost as_call: { Self → StepCall };

    ghost as_reply: { Self → StepReply };

    /// The cells of its boxes: the one that its item expects to be named last, and the one before it.
    ghost last: { Self → Option GenerationalBoxId };

    ghost before: { Self → Option GenerationalBoxId };

    /// The names of the step's cells before its item; None if one isn't of the store, a number doesn't
    /// fit, or the step has no short form.
    fn names(self, taken: Taken) -> Option<ItemNames>
        ensures short { IfSome result AreShort }
        ensures named { IfSome result (λ names. AreNamed taken.number
            (naming_all taken.reached names) (Self.before self) (Self.last self)) };

    /// The step in 8 bytes, if its cells are named; None if it has no such form or a number doesn't fit.
    fn form<P: LocationTable>(self, taken: Taken, locations: &mut P) -> Option<Short>
        requires { AreNamed taken.number taken.reached (Self.before self) (Self.last self) }
        ensures extends { Extends (P.locations locations.old) (P.locations locations.new) }
        ensures form { IfSome result (StandsFor taken.number (P.locations locations.new) taken.reached
            (step_of taken.worker (Self.as_call self) (Self.as_reply self))) };

    /// The call.
    fn call(self) -> StepCall
        ensures { result ≡ Self.as_call self };

    /// Its reply.
    fn reply(self) -> StepReply
        ensures { result ≡ Self.as_reply self };
}

/// Any call with its reply, which has no short form.
#[derive(Clone, Copy)]
pub struct AnyEntry {
    pub call: StepCall,
    pub reply: StepReply,
}

impl StepEntry for AnyEntry {
    ghost as_call = { λ e. e.call };

    ghost as_reply = { λ e. e.reply };

    ghost last = { λ _. None };

    ghost before = { λ _. None };

    #[inline(always)]
    fn names(self, _taken: Taken) -> Option<ItemNames> {
        None
    }

    #[inline(always)]
    fn form<P: LocationTable>(self, _taken: Taken, _locations: &mut P) -> Option<Short> {
        None
    }

    #[inline(always)]
    fn call(self) -> StepCall {
        self.call
    }

    #[inline(always)]
    fn reply(self) -> StepReply {
        self.reply
    }
}

/// The call that makes a box there, on an owner's list if there is one.
#[inline(always)]
pub fn making(owner: Option<OwnerId>, at: Location) -> StepCall
    ensures { result ≡ made_by owner at }
{
    match owner {
        None => StepCall::Leak(at),
        Some(owner) => StepCall::Insert(owner, at),
    }
}

/// The call that makes a shared value there, on an owner's list if there is one.
#[inline(always)]
pub fn making_shared(owner: Option<OwnerId>, at: Location) -> StepCall
    ensures { result ≡ shared_by owner at }
{
    match owner {
        None => StepCall::LeakRc(at),
        Some(owner) => StepCall::InsertRc(owner, at),
    }
}

/// The call that makes a reference, on an owner's list if there is one.
#[inline(always)]
pub fn making_reference(owner: Option<OwnerId>, asked: GenerationalPointer) -> StepCall
    ensures { result ≡ referred_by owner asked }
{
    match owner {
        None => StepCall::LeakReference(asked),
        Some(owner) => StepCall::InsertReference(owner, asked),
    }
}

/// A box of a value was made, on an owner's list if there is one.
#[derive(Clone, Copy)]
pub struct BoxMade {
    pub owner: Option<OwnerId>,
    pub at: Location,
    pub made: GenerationalPointer,
}

impl StepEntry for BoxMade {
    ghost as_call = { λ e. made_by e.owner e.at };

    ghost as_reply = { λ e. reply.Made e.made };

    ghost last = { λ e. Some e.made.id };

    ghost before = { λ _. None };

    #[inline(always)]
    fn names(self, taken: Taken) -> Option<ItemNames> {
        name_one(taken, self.made.id)
    }

    #[inline(always)]
    fn form<P: LocationTable>(self, taken: Taken, locations: &mut P) -> Option<Short> {
        match self.owner {
            None => leak(taken, locations, self.at, self.made),
            Some(owner) => insert(taken, locations, owner, self.at, self.made),
        }
    }

    #[inline(always)]
    fn call(self) -> StepCall {
        making(self.owner, self.at)
    }

    #[inline(always)]
    fn reply(self) -> StepReply {
        StepReply::Made(self.made)
    }
}

/// A read began, with this ticket.
#[derive(Clone, Copy)]
pub struct ReadBegun {
    pub asked: GenerationalPointer,
    pub at: Location,
    pub ticket: u64,
}

impl StepEntry for ReadBegun {
    ghost as_call = { λ e. call.Read e.asked e.at };

    ghost as_reply = { λ e. reply.Reader e.ticket };

    ghost last = { λ e. Some e.asked.id };

    ghost before = { λ _. None };

    #[inline(always)]
    fn names(self, taken: Taken) -> Option<ItemNames> {
        name_one(taken, self.asked.id)
    }

    #[inline(always)]
    fn form<P: LocationTable>(self, taken: Taken, locations: &mut P) -> Option<Short> {
        read(taken, locations, self.asked, self.at, self.ticket)
    }

    #[inline(always)]
    fn call(self) -> StepCall {
        StepCall::Read(self.asked, self.at)
    }

    #[inline(always)]
    fn reply(self) -> StepReply {
        StepReply::Reader(self.ticket)
    }
}

/// A read failed with the box's own location, since its value was removed.
#[derive(Clone, Copy)]
pub struct ReadDropped {
    pub asked: GenerationalPointer,
    pub at: Location,
}

impl StepEntry for ReadDropped {
    ghost as_call = { λ e. call.Read e.asked e.at };

    ghost as_reply = { λ e. reply.Dropped e.asked.created_at };

    ghost last = { λ e. Some e.asked.id };

    ghost before = { λ _. None };

    #[inline(always)]
    fn names(self, taken: Taken) -> Option<ItemNames> {
        name_one(taken, self.asked.id)
    }

    #[inline(always)]
    fn form<P: LocationTable>(self, taken: Taken, locations: &mut P) -> Option<Short> {
        read_dropped(taken, locations, self.asked, self.at)
    }

    #[inline(always)]
    fn call(self) -> StepCall {
        StepCall::Read(self.asked, self.at)
    }

    #[inline(always)]
    fn reply(self) -> StepReply {
        StepReply::Dropped(self.asked.created_at)
    }
}

/// A write began, with this ticket.
#[derive(Clone, Copy)]
pub struct WriteBegun {
    pub asked: GenerationalPointer,
    pub at: Location,
    pub ticket: u64,
}

impl StepEntry for WriteBegun {
    ghost as_call = { λ e. call.Write e.asked e.at };

    ghost as_reply = { λ e. reply.Writer e.ticket };

    ghost last = { λ e. Some e.asked.id };

    ghost before = { λ _. None };

    #[inline(always)]
    fn names(self, taken: Taken) -> Option<ItemNames> {
        name_one(taken, self.asked.id)
    }

    #[inline(always)]
    fn form<P: LocationTable>(self, taken: Taken, locations: &mut P) -> Option<Short> {
        write(taken, locations, self.asked, self.at, self.ticket)
    }

    #[inline(always)]
    fn call(self) -> StepCall {
        StepCall::Write(self.asked, self.at)
    }

    #[inline(always)]
    fn reply(self) -> StepReply {
        StepReply::Writer(self.ticket)
    }
}

/// A box was removed.
#[derive(Clone, Copy)]
pub struct BoxEnded {
    pub asked: GenerationalPointer,
}

impl StepEntry for BoxEnded {
    ghost as_call = { λ e. call.ManuallyDrop e.asked };

    ghost as_reply = { λ _. reply.Done };

    ghost last = { λ e. Some e.asked.id };

    ghost before = { λ _. None };

    #[inline(always)]
    fn names(self, taken: Taken) -> Option<ItemNames> {
        name_one(taken, self.asked.id)
    }

    #[inline(always)]
    fn form<P: LocationTable>(self, taken: Taken, locations: &mut P) -> Option<Short> {
        let worker = worker_of(taken)?;
        let made = locations.find_or_add(self.asked.created_at)?;
        Some(Short::End(worker, made))
    }

    #[inline(always)]
    fn call(self) -> StepCall {
        StepCall::ManuallyDrop(self.asked)
    }

    #[inline(always)]
    fn reply(self) -> StepReply {
        StepReply::Done
    }
}

/// A reader was released.
#[derive(Clone, Copy)]
pub struct ReadEnded {
    pub ticket: u64,
}

impl StepEntry for ReadEnded {
    ghost as_call = { λ e. call.ReleaseRead e.ticket };

    ghost as_reply = { λ _. reply.Done };

    ghost last = { λ _. None };

    ghost before = { λ _. None };

    #[inline(always)]
    fn names(self, _taken: Taken) -> Option<ItemNames> {
        Some(ItemNames::None)
    }

    #[inline(always)]
    fn form<P: LocationTable>(self, taken: Taken, _locations: &mut P) -> Option<Short> {
        let worker = worker_of(taken)?;
        let back = back_to(taken, self.ticket)?;
        Some(Short::ReleaseRead(worker, back))
    }

    #[inline(always)]
    fn call(self) -> StepCall {
        StepCall::ReleaseRead(self.ticket)
    }

    #[inline(always)]
    fn reply(self) -> StepReply {
        StepReply::Done
    }
}

/// A writer was released.
#[derive(Clone, Copy)]
pub struct WriteEnded {
    pub ticket: u64,
}

impl StepEntry for WriteEnded {
    ghost as_call = { λ e. call.ReleaseWrite e.ticket };

    ghost as_reply = { λ _. reply.Done };

    ghost last = { λ _. None };

    ghost before = { λ _. None };

    #[inline(always)]
    fn names(self, _taken: Taken) -> Option<ItemNames> {
        Some(ItemNames::None)
    }

    #[inline(always)]
    fn form<P: LocationTable>(self, taken: Taken, _locations: &mut P) -> Option<Short> {
        let worker = worker_of(taken)?;
        let back = back_to(taken, self.ticket)?;
        Some(Short::ReleaseWrite(worker, back))
    }

    #[inline(always)]
    fn call(self) -> StepCall {
        StepCall::ReleaseWrite(self.ticket)
    }

    #[inline(always)]
    fn reply(self) -> StepReply {
        StepReply::Done
    }
}

/// A shared value was made, whose cell has this id, with a first reference on an owner's list if there
/// is one.
#[derive(Clone, Copy)]
pub struct SharedMade {
    pub owner: Option<OwnerId>,
    pub at: Location,
    pub cell: GenerationalBoxId,
    pub made: GenerationalPointer,
}

impl StepEntry for SharedMade {
    ghost as_call = { λ e. shared_by e.owner e.at };

    ghost as_reply = { λ e. reply.MadeShared e.cell e.made };

    ghost last = { λ e. Some e.made.id };

    ghost before = { λ e. Some e.cell };

    #[inline(always)]
    fn names(self, taken: Taken) -> Option<ItemNames> {
        name_two(taken, self.cell, self.made.id)
    }

    #[inline(always)]
    fn form<P: LocationTable>(self, taken: Taken, locations: &mut P) -> Option<Short> {
        match self.owner {
            None => leak_rc(taken, locations, self.at, self.cell, self.made),
            Some(owner) => insert_rc(taken, locations, owner, self.at, self.cell, self.made),
        }
    }

    #[inline(always)]
    fn call(self) -> StepCall {
        making_shared(self.owner, self.at)
    }

    #[inline(always)]
    fn reply(self) -> StepReply {
        StepReply::MadeShared(self.cell, self.made)
    }
}

/// A reference was made, on an owner's list if there is one. It has no short form there.
#[derive(Clone, Copy)]
pub struct ReferenceMade {
    pub owner: Option<OwnerId>,
    pub asked: GenerationalPointer,
    pub made: GenerationalPointer,
}

impl StepEntry for ReferenceMade {
    ghost as_call = { λ e. referred_by e.owner e.asked };

    ghost as_reply = { λ e. reply.Made e.made };

    ghost last = { λ e. Some e.made.id };

    ghost before = { λ e. Some e.asked.id };

    #[inline(always)]
    fn names(self, taken: Taken) -> Option<ItemNames> {
        match self.owner {
            None => name_two(taken, self.asked.id, self.made.id),
            Some(_) => None,
        }
    }

    #[inline(always)]
    fn form<P: LocationTable>(self, taken: Taken, locations: &mut P) -> Option<Short> {
        match self.owner {
            None => leak_reference(taken, locations, self.asked, self.made),
            Some(_) => None,
        }
    }

    #[inline(always)]
    fn call(self) -> StepCall {
        making_reference(self.owner, self.asked)
    }

    #[inline(always)]
    fn reply(self) -> StepReply {
        StepReply::Made(self.made)
    }
}

/// An owner was made.
#[derive(Clone, Copy)]
pub struct OwnerMade {
    pub owner: OwnerId,
}

impl StepEntry for OwnerMade {
    ghost as_call = { λ _. call.Owner };

    ghost as_reply = { λ e. reply.Owner e.owner };

    ghost last = { λ _. None };

    ghost before = { λ _. None };

    #[inline(always)]
    fn names(self, _taken: Taken) -> Option<ItemNames> {
        Some(ItemNames::None)
    }

    #[inline(always)]
    fn form<P: LocationTable>(self, taken: Taken, _locations: &mut P) -> Option<Short> {
        if self.owner.store != taken.number || !is_next(taken, self.owner.key) {
            return None;
        }
        Some(Short::Owner(taken.worker))
    }

    #[inline(always)]
    fn call(self) -> StepCall {
        StepCall::Owner
    }

    #[inline(always)]
    fn reply(self) -> StepReply {
        StepReply::Owner(self.owner)
    }
}

/// A value was set.
#[derive(Clone, Copy)]
pub struct ValueSet {
    pub asked: GenerationalPointer,
}

impl StepEntry for ValueSet {
    ghost as_call = { λ e. call.Set e.asked };

    ghost as_reply = { λ _. reply.Done };

    ghost last = { λ e. Some e.asked.id };

    ghost before = { λ _. None };

    #[inline(always)]
    fn names(self, taken: Taken) -> Option<ItemNames> {
        name_one(taken, self.asked.id)
    }

    #[inline(always)]
    fn form<P: LocationTable>(self, taken: Taken, locations: &mut P) -> Option<Short> {
        let worker = worker_of(taken)?;
        let made = locations.find_or_add(self.asked.created_at)?;
        Some(Short::Set(worker, made))
    }

    #[inline(always)]
    fn call(self) -> StepCall {
        StepCall::Set(self.asked)
    }

    #[inline(always)]
    fn reply(self) -> StepReply {
        StepReply::Done
    }
}

/// A box was pointed at another.
#[derive(Clone, Copy)]
pub struct BoxPointed {
    pub asked: GenerationalPointer,
    pub other: GenerationalPointer,
}

impl StepEntry for BoxPointed {
    ghost as_call = { λ e. call.PointTo e.asked e.other };

    ghost as_reply = { λ _. reply.Done };

    ghost last = { λ e. Some e.asked.id };

    ghost before = { λ e. Some e.other.id };

    #[inline(always)]
    fn names(self, taken: Taken) -> Option<ItemNames> {
        name_two(taken, self.other.id, self.asked.id)
    }

    #[inline(always)]
    fn form<P: LocationTable>(self, taken: Taken, locations: &mut P) -> Option<Short> {
        point_to(taken, locations, self.asked, self.other)
    }

    #[inline(always)]
    fn call(self) -> StepCall {
        StepCall::PointTo(self.asked, self.other)
    }

    #[inline(always)]
    fn reply(self) -> StepReply {
        StepReply::Done
    }
}

/// An owner was released.
#[derive(Clone, Copy)]
pub struct OwnerEnded {
    pub owner: OwnerId,
}

impl StepEntry for OwnerEnded {
    ghost as_call = { λ e. call.ReleaseOwner e.owner };

    ghost as_reply = { λ _. reply.Done };

    ghost last = { λ _. None };

    ghost before = { λ _. None };

    #[inline(always)]
    fn names(self, _taken: Taken) -> Option<ItemNames> {
        Some(ItemNames::None)
    }

    #[inline(always)]
    fn form<P: LocationTable>(self, taken: Taken, _locations: &mut P) -> Option<Short> {
        if self.owner.store != taken.number {
            return None;
        }
        let worker = worker_of(taken)?;
        let back = back_to(taken, self.owner.key)?;
        Some(Short::ReleaseOwner(worker, back))
    }

    #[inline(always)]
    fn call(self) -> StepCall {
        StepCall::ReleaseOwner(self.owner)
    }

    #[inline(always)]
    fn reply(self) -> StepReply {
        StepReply::Done
    }
}
