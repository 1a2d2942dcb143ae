//! The calls of a session, and their replies.

use generational_core::{BorrowMutError, GenerationalBox, GenerationalBoxId, Location, StoreError};

/// A box in a call.
#[derive(Debug, Drop)]
pub enum BoxAt<T> {
    /// The box that the call of this place gave.
    Place(usize),
    /// A box of a store with another number.
    Foreign(GenerationalBox<T>),
}

/// A call of a session. Places count the session's calls from 0.
#[derive(Debug, Drop)]
pub enum Call<T> {
    /// Makes a box of the value.
    Leak(T, Location),
    /// Makes a shared value, and a box that is its first reference.
    LeakRc(T, Location),
    /// Adds a reference to the shared value that the box refers to.
    LeakReference(BoxAt<T>),
    /// Makes a box of the value, which is removed with the owner of this place.
    Insert(usize, T, Location),
    /// Makes a shared value, and a box that is its first reference and is removed with the owner of this
    /// place.
    InsertRc(usize, T, Location),
    /// Adds a reference to the shared value that the box refers to, which is removed with the owner of
    /// this place.
    InsertReference(usize, BoxAt<T>),
    /// Makes an owner.
    Owner,
    /// Makes another owner value of the record of this place's owner.
    CloneOwner(usize),
    /// Releases the owner of this place.
    ReleaseOwner(usize),
    /// Consumes the owner of this place, and leaves its boxes unchanged.
    LeakOwner(usize),
    /// Begins a read.
    TryRead(BoxAt<T>, Location),
    /// Begins a write.
    TryWrite(BoxAt<T>, Location),
    /// Begins a read of a value that may be read.
    Read(BoxAt<T>, Location),
    /// Begins a write of a value that may be written.
    Write(BoxAt<T>, Location),
    /// Sets a value that may be written.
    Set(BoxAt<T>, T),
    /// Whether a value may be read.
    CanRead(BoxAt<T>),
    /// Whether a value may be written.
    CanWrite(BoxAt<T>),
    /// Replaces the value that the writer of this place owns.
    Replace(usize, T),
    /// Releases the guard that the call of this place gave.
    Release(usize),
    /// Removes the box's cell.
    ManuallyDrop(BoxAt<T>),
    /// Points the first box, which is a reference, to the shared value that the second refers to.
    PointTo(BoxAt<T>, BoxAt<T>),
    /// Whether two boxes have the same id.
    PtrEq(BoxAt<T>, BoxAt<T>),
    /// The box's id.
    Id(BoxAt<T>),
    /// The number of the box's slot.
    RawPtr(BoxAt<T>),
    /// The location at which the box was made.
    CreatedAt(BoxAt<T>),
}

/// The reply to a call.
#[derive(Debug, Drop)]
pub enum Reply<T> {
    /// A box was made.
    Box(GenerationalBox<T>),
    /// An owner was made: the place holds it.
    Owner,
    /// A read has begun: the place holds its guard.
    Reader,
    /// A write has begun: the place holds its guard, which owns the value.
    Writer,
    /// The call was carried out.
    Done,
    /// The value that a writer owned before.
    Old(T),
    /// Whether it is so.
    Flag(bool),
    /// An id.
    Id(GenerationalBoxId),
    /// The number of a slot.
    Slot(usize),
    /// The location at which a box was made.
    Created(Location),
    /// A borrow error. Nothing has changed: an owner whose release fails stays held.
    Error(BorrowMutError),
    /// An error of the store, if no value was passed in. Nothing has changed.
    Store(StoreError),
    /// An error of the store, with the value that was passed in. Nothing has changed.
    Back(T, StoreError),
    /// A `Read`, a `Write` or a `Set` of a value that may not be read, or written. A value that was
    /// passed in comes back. Nothing has changed.
    Unready(Option<T>),
    /// A place that has no such thing, or whose guard or owner was consumed; a foreign box with this
    /// store's number. A value that was passed in comes back. Nothing has changed.
    NoSuch(Option<T>),
}
