//! Calls without their values, as a history records them.

use crate::boxes::GenerationalPointer;
use crate::owner::OwnerId;
use generational_errors::Location;

/// A call of a store, without the value that was passed in. A guard is identified by its ticket, and an
/// owner by its id.
#[derive(Clone, Copy, Debug, PartialEq)]
pub enum StepCall {
    /// An insertion of a value, at a location.
    Leak(Location),
    /// An insertion of a shared value and its first reference, at a location.
    LeakRc(Location),
    /// An insertion of a reference to what a box refers to.
    LeakReference(GenerationalPointer),
    /// A new owner.
    Owner,
    /// Another owner value of a record.
    CloneOwner(OwnerId),
    /// An insertion of a value by an owner, at a location.
    Insert(OwnerId, Location),
    /// An insertion of a shared value and its first reference by an owner, at a location.
    InsertRc(OwnerId, Location),
    /// An insertion of a reference by an owner, to what a box refers to.
    InsertReference(OwnerId, GenerationalPointer),
    /// A read of a box, at a location.
    Read(GenerationalPointer, Location),
    /// A write of a box, at a location.
    Write(GenerationalPointer, Location),
    /// Another value for a box.
    Set(GenerationalPointer),
    /// A removal of a box's cell.
    ManuallyDrop(GenerationalPointer),
    /// A reference that is pointed to what another box refers to.
    PointTo(GenerationalPointer, GenerationalPointer),
    /// The release of the reader with this ticket.
    ReleaseRead(u64),
    /// The release of the writer with this ticket.
    ReleaseWrite(u64),
    /// The release of an owner value.
    ReleaseOwner(OwnerId),
}
