//! Owners.

ghost use Rattle.std.specs.Prelude.{◌≡◌, Some, IfErr};
ghost use Rattle.generational_core.specs.Texts.{owner_text};

use crate::boxes::{GenerationalBox, box_at};
use crate::storage::{AnyStorage, Storage};
use generational_errors::{BorrowMutError, BorrowResult, Location, Refusal, Refused, StoreError};
use std::fmt;
use std::marker::Model;

/// The name of an owner's record: its store's number, and its key, which a store never issues twice.
#[derive(Clone, Copy, Debug, PartialEq, Eq, PartialOrd, Ord, Hash)]
#[non_exhaustive]
pub struct OwnerId {
    /// The number of the store.
    pub store: u64,
    /// The key.
    pub key: u64,
}

/// An owner of boxes. Contracts model it as its store's number and its key.
///
/// It refers to a record in its store and holds no reference. It has no `Drop`: `release` or `leak` must
/// consume it.
pub struct Owner {
    store: u64,
    key: u64,
    // the index at which the store looks for the record first: a hint that contracts leave out
    place: usize,
}

impl Model for Owner {
    ghost use Rattle.generational_core.specs.Machine.{OwnerName};

    ghost Value = { OwnerName };

    ghost view = { λ o. record { store = o.store; key = o.key } };
}

/// Prints `owner KEY of store NUMBER`.
impl fmt::Debug for Owner {
    ghost debug_output = { λ o. Some (owner_text o) };

    fn fmt<W: fmt::Write>(&self, f: &mut fmt::Formatter<W>) -> fmt::Result {
        write!(f, "owner {} of store {}", self.key, self.store)
    }
}

impl Owner {
    ghost use Rattle.generational_core.specs.Machine.Action.{Make, MakeShared, Refer, CloneOwner};
    ghost use Rattle.generational_core.specs.Machine.Action.{ReleaseOwner};
    ghost use Rattle.generational_core.specs.Steps.{Meets};
    ghost use Rattle.generational_core.specs.Answers.{box_answer, owner_answer, release_answer};
    ghost use Rattle.generational_core.specs.Answers.{pointer_of, reference_box_answer};
    ghost use Rattle.generational_core.specs.StepCalls.{id_of_owner};

    /// The id of the owner's record. Doesn't allocate.
    ///
    /// ```rust
    /// let have_one_record = owner.id() == other.id();
    /// ```
    pub fn id(&self) -> OwnerId
        ensures { result ≡ id_of_owner self.now }
    {
        OwnerId {
            store: self.store,
            key: self.key,
        }
    }

    /// Stores a value, and returns its box. The value is removed when the last owner value of this record
    /// is released. The box's id was never issued before, and is added at the end of the record's list.
    ///
    /// # Errors
    ///
    /// - `UnknownOwner` if the store has no record of the owner.
    /// - `OutOfMemory` if room for a slot or in the list can't be allocated.
    ///
    /// The value comes back then, and the store is unchanged.
    ///
    /// Upstream's `insert_with_caller`: its `insert` takes the caller's location.
    ///
    /// ```rust
    /// let Ok(kept) = owner.insert(&mut store, 7, line(45)) else {
    ///     owner.leak();
    ///     return None;
    /// };
    /// ```
    #[inline(always)]
    pub fn insert<T, S: Storage<T>>(
        &self,
        store: &mut S,
        value: T,
        location: Location,
    ) -> Result<GenerationalBox<T>, Refusal<T>>
        ensures step { Meets (S.state store.old) (Make (Some self.now) value location)
            (box_answer result) (S.state store.new) }
        ensures back { IfErr result (λ refusal. refusal.value ≡ value) }
    {
        let raw = store.new(value, location, Some(self))?;
        Ok(box_at(raw))
    }

    /// Stores a shared value with a first reference to it, and returns the reference's box. The reference
    /// is removed when the last owner value of this record is released. Its id was never issued before,
    /// and is added at the end of the record's list. Amortised O(1).
    ///
    /// The value lives exactly as long as there is a live reference to it; the returned box is the first
    /// one. So it may outlive the owner.
    ///
    /// # Errors
    ///
    /// - `UnknownOwner` if the store has no record of the owner.
    /// - `OutOfMemory` if room for two slots or in the list can't be allocated.
    ///
    /// The value comes back then, and the store is unchanged.
    ///
    /// Upstream's `insert_rc_with_caller`: its `insert_rc` takes the caller's location.
    ///
    /// ```rust
    /// let first = owner.insert_rc(store, 1, made()).ok()?;
    /// let second = owner.insert_reference(store, first).ok()?;
    /// ```
    #[inline(always)]
    pub fn insert_rc<T, S: Storage<T>>(
        &self,
        store: &mut S,
        value: T,
        location: Location,
    ) -> Result<GenerationalBox<T>, Refusal<T>>
        ensures step { Meets (S.state store.old) (MakeShared (Some self.now) value location)
            (box_answer result) (S.state store.new) }
        ensures back { IfErr result (λ refusal. refusal.value ≡ value) }
    {
        let raw = store.new_rc(value, location, Some(self))?;
        Ok(box_at(raw))
    }

    /// Adds a reference to the shared value that a box refers to, and returns its box. It is removed when
    /// the last owner value of this record is released, and keeps the value alive until then. Its id was
    /// never issued before, and is added at the end of the record's list. Amortised O(1).
    ///
    /// The reference refers to the shared value itself, and has that value's location. So chains of
    /// references are flat, and the new one stays live when the one that it came from is removed.
    ///
    /// # Errors
    ///
    /// - `UnknownOwner` if the store has no record of the owner.
    /// - `Dropped` with the box's own creation location if its cell was removed or belongs to another
    ///   store.
    /// - `AlreadyBorrowedMut` with the writer's location if the value is being written.
    /// - `Dropped` with the box's own creation location if its value isn't shared.
    /// - `OutOfMemory` if room for a slot or in the list can't be allocated.
    ///
    /// A call that fails leaves the store unchanged.
    ///
    /// Upstream's `insert_reference`.
    ///
    /// ```rust
    /// let second = owner.insert_reference(store, first).ok()?;
    /// ```
    #[inline(always)]
    pub fn insert_reference<T, S: Storage<T>>(
        &self,
        store: &mut S,
        other: GenerationalBox<T>,
    ) -> BorrowResult<GenerationalBox<T>>
        ensures { Meets (S.state store.old) (Refer (Some self.now) (pointer_of other))
            (reference_box_answer result) (S.state store.new) }
    {
        let raw = store.new_reference(other.pointer(), Some(self))?;
        Ok(box_at(raw))
    }

    /// Returns another owner value of the same record: its boxes live until both are released. Doesn't
    /// allocate.
    ///
    /// # Errors
    ///
    /// - `UnknownOwner` if the store has no record of the owner.
    /// - `NumbersExhausted` if the tickets are used up.
    ///
    /// Upstream's `Clone`.
    ///
    /// ```rust
    /// let Ok(other) = owner.clone(store) else {
    ///     owner.leak();
    ///     return Ok(false);
    /// };
    /// ```
    pub fn clone<T, S: AnyStorage<T>>(&self, store: &mut S) -> Result<Owner, StoreError>
        ensures { Meets (S.state store.old) (CloneOwner self.now) (owner_answer result)
            (S.state store.new) }
    {
        store.clone_owner(self)
    }

    /// Consumes the owner value. The last one of its record removes all live boxes of the list, and each
    /// shared value without other references; or the call fails and removes nothing.
    ///
    /// # Errors
    ///
    /// - `UnknownOwner` if the store has no record of the owner.
    /// - The error of a write of the first box of the list, in order of insertion, that refers to a value
    ///   which would be dropped and is borrowed: `AlreadyBorrowedMut`; or `AlreadyBorrowed`, or
    ///   `OutOfMemory` instead if its list of locations can't be allocated.
    ///
    /// The owner comes back then, and the store is unchanged.
    ///
    /// Upstream's owners remove their boxes in their Drop.
    ///
    /// ```rust
    /// match other.release(store) {
    ///     Ok(()) => Ok(have_one_record),
    ///     Err((other, _borrowed)) => {
    ///         other.leak();
    ///         Ok(false)
    ///     }
    /// }
    /// ```
    pub fn release<T, S: AnyStorage<T>>(
        self,
        store: &mut S,
    ) -> Result<(), (Owner, Refused<BorrowMutError>)>
        ensures step { Meets (S.state store.old) (ReleaseOwner self) (release_answer result)
            (S.state store.new) }
        ensures back { IfErr result (λ refusal. refusal.0 ≡ self) }
    {
        store.release_owner(self)
    }

    /// Consumes the owner value and leaves its record unchanged: no owner ever removes the record's boxes
    /// from then on.
    ///
    /// ```rust
    /// let Ok(other) = owner.clone(store) else {
    ///     owner.leak();
    ///     return Ok(false);
    /// };
    /// ```
    pub fn leak(self) {
        let Owner {
            store: _,
            key: _,
            place: _,
        } = self;
    }
}

/// The owner whose record has this key in the store with this number. The place is a hint: the
/// store may look for the record there first, and nothing else depends on it.
pub fn owner_at(store: u64, key: u64, place: usize) -> Owner
    ensures { result ≡ record { store = store; key = key } }
{
    Owner { store, key, place }
}

/// The number of the owner's store.
pub fn number_of(owner: &Owner) -> u64
    ensures { result ≡ owner.now.store }
{
    owner.store
}

/// The index that the owner's maker passed as a hint.
pub fn place_of(owner: &Owner) -> usize {
    owner.place
}
