//! Steps and their kinds.

ghost use Rattle.std.specs.Prelude.{◌≡◌};
ghost use Rattle.shared_records.specs.Kinds.{step_kind};

use generational_core::{
    GenerationalBoxId, GenerationalPointer, Location, OwnerId, StepCall, StoreError,
};

/// The reply of a step.
#[derive(Clone, Copy, Debug, PartialEq)]
pub enum StepReply {
    /// A box was made.
    Made(GenerationalPointer),
    /// A shared value was made, whose cell has this id, and the box of its first reference.
    MadeShared(GenerationalBoxId, GenerationalPointer),
    /// An owner was made.
    Owner(OwnerId),
    /// A read began, with this ticket.
    Reader(u64),
    /// A write began, with this ticket.
    Writer(u64),
    /// The call was carried out.
    Done,
    /// The call failed with `Dropped`, with this location: the box's own, which refers to no value, or to
    /// none that is shared if a reference is made. For `point_to` it may also be that of the other box,
    /// or of the value that the other refers to.
    Dropped(Location),
    /// The call failed with an error of the store. It is never `OutOfMemory`: such a call is no step.
    Store(StoreError),
}

/// One step of a shared store: the worker, its call, and the reply.
#[derive(Clone, Copy, Debug, PartialEq)]
pub struct Step {
    /// The worker's number, from 0.
    pub worker: usize,
    /// The call, without a value that was passed in.
    pub call: StepCall,
    /// The reply.
    pub reply: StepReply,
}

/// The kind of a step, by its reply.
#[derive(Clone, Copy, Debug, PartialEq, Eq)]
pub enum Kind {
    /// A box or an owner was made.
    Made,
    /// A borrow began.
    Lent,
    /// A value was set, a box was removed or pointed elsewhere, or a guard or an owner was released. The
    /// removal of a box that referred to nothing counts too.
    Changed,
    /// `Dropped`, or an error of the store other than `OutOfMemory`.
    Refused,
}

impl StepReply {
    /// The kind of a step with this reply. Doesn't allocate.
    #[inline(always)]
    pub fn kind(&self) -> Kind
        ensures { result ≡ step_kind self.now }
    {
        match self {
            StepReply::Made(_) | StepReply::MadeShared(_, _) | StepReply::Owner(_) => Kind::Made,
            StepReply::Reader(_) | StepReply::Writer(_) => Kind::Lent,
            StepReply::Done => Kind::Changed,
            StepReply::Dropped(_) | StepReply::Store(_) => Kind::Refused,
        }
    }
}

impl Step {
    /// The step's kind. Doesn't allocate.
    pub fn kind(&self) -> Kind
        ensures { result ≡ step_kind self.now.reply }
    {
        self.reply.kind()
    }
}
