//! Ids, pointers and boxes.

ghost use Rattle.std.specs.Prelude.{◌≡◌, Some, ⊤};
ghost use Rattle.generational_errors.specs.declared.error.StoreError.TheVariants.{NumbersExhausted};
ghost use Rattle.generational_core.specs.Boxes.{box_of};
ghost use Rattle.generational_core.specs.Answers.{pointer_of};
ghost use Rattle.generational_core.specs.Texts.{id_text};

use crate::references::{GenerationalRef, GenerationalRefMut};
use crate::storage::Storage;
use generational_errors::{BorrowMutResult, BorrowResult, Location, Refusal, Refused, StoreError};
use std::alloc::AllocError;
use std::fmt;
use std::hash::{Hash, Hasher};
use std::marker::PhantomData;

/// The name of a cell: its store's number, its slot, and the slot's generation when it was made.
///
/// Two ids are equal if all three are, and ordered by the store, then the slot, then the generation. A
/// name is never issued twice, so an id refers to the same cell forever, even after the cell was removed.
#[derive(Clone, Copy, PartialEq, Eq, PartialOrd, Ord, Hash)]
#[non_exhaustive]
pub struct GenerationalBoxId {
    /// The number of the store.
    pub store: u64,
    /// The slot.
    pub slot: usize,
    /// The slot's generation when the cell was made.
    pub generation: u64,
}

/// The id of a slot of a store at a generation.
#[inline(always)]
pub fn id_at(store: u64, slot: usize, generation: u64) -> GenerationalBoxId
    ensures { result ≡ record { store = store; slot = slot; generation = generation } }
{
    GenerationalBoxId {
        store,
        slot,
        generation,
    }
}

/// Prints `slot@generation`, both in decimal.
impl fmt::Debug for GenerationalBoxId {
    ghost debug_output = { λ id. Some (id_text id) };

    fn fmt<W: fmt::Write>(&self, f: &mut fmt::Formatter<W>) -> fmt::Result {
        write!(f, "{}@{}", self.slot, self.generation)
    }
}

/// A box without its element type: an id, and the location at which its cell was made.
///
/// The location takes no part in equality.
#[derive(Clone, Copy)]
#[non_exhaustive]
pub struct GenerationalPointer {
    /// The id.
    pub id: GenerationalBoxId,
    /// Where the cell was made.
    pub created_at: Location,
}

/// The pointer to a slot of a store at a generation.
#[inline(always)]
pub fn pointer_at(
    store: u64,
    slot: usize,
    generation: u64,
    created_at: Location,
) -> GenerationalPointer
    ensures { result ≡ box_of store (record { slot = slot; generation = generation }) created_at }
{
    GenerationalPointer {
        id: id_at(store, slot, generation),
        created_at,
    }
}

/// Equal if the ids are, whatever the locations.
impl PartialEq for GenerationalPointer {
    ghost use Rattle.std.proofs.Common.{rules};
    ghost use Rattle.std.specs.Cmp.Rules.{comparing};
    ghost use Rattle.generational_core.specs.Boxes.{has_same_id};

    ghost eq = { has_same_id };

    ghost laws = { Prim.search (comparing, rules) };

    fn eq(&self, other: &GenerationalPointer) -> bool {
        self.id == other.id
    }
}

impl Eq for GenerationalPointer {
    ghost use Rattle.std.proofs.Common.{rules};
    ghost use Rattle.std.specs.Cmp.Rules.{comparing};

    ghost laws = { Prim.search (comparing, rules) };
}

/// Hashes the id.
impl Hash for GenerationalPointer {
    ghost use Rattle.std.proofs.Common.{rules};
    ghost use Rattle.std.specs.Cmp.Rules.{hashing};
    ghost use Rattle.generational_core.specs.Boxes.{hashed_id};

    ghost hash_input = { hashed_id };

    ghost respects_eq = { Prim.search (hashing, rules) };

    fn hash<H: Hasher>(&self, state: &mut H) {
        self.id.hash(state);
    }
}

/// Prints the id.
impl fmt::Debug for GenerationalPointer {
    ghost debug_output = { λ it. Some (id_text it.id) };

    fn fmt<W: fmt::Write>(&self, f: &mut fmt::Formatter<W>) -> fmt::Result {
        write!(f, "{:?}", self.id)
    }
}

/// A box: a name that is `Copy` for every element type.
///
/// A box owns nothing and keeps nothing alive: a shared value is kept alive by the cells of its
/// references, and not by the boxes that refer to them. It is Send if `T` is.
pub struct GenerationalBox<T> {
    pub(crate) raw: GenerationalPointer,
    marker: PhantomData<T>,
}

/// Never fails, and doesn't allocate.
impl<T> Clone for GenerationalBox<T> {
    ghost is_clone = { λ a b. b ≡ a };

    ghost is_infallible = { λ _. ⊤ };

    fn clone(&self) -> Result<Self, AllocError> {
        Ok(*self)
    }
}

impl<T> Copy for GenerationalBox<T> {}

/// Equal if the ids are, like `ptr_eq`.
impl<T> PartialEq for GenerationalBox<T> {
    ghost use Rattle.std.proofs.Common.{rules};
    ghost use Rattle.std.specs.Cmp.Rules.{comparing};
    ghost use Rattle.std.specs.Ordering.{on};
    ghost use Rattle.generational_core.specs.Boxes.{has_same_id};

    ghost eq = { on (λ b. b.raw) has_same_id };

    ghost laws = { Prim.search (comparing, rules) };

    fn eq(&self, other: &Self) -> bool {
        self.ptr_eq(other)
    }
}

impl<T> Eq for GenerationalBox<T> {
    ghost use Rattle.std.proofs.Common.{rules};
    ghost use Rattle.std.specs.Cmp.Rules.{comparing};

    ghost laws = { Prim.search (comparing, rules) };
}

/// Hashes the id.
impl<T> Hash for GenerationalBox<T> {
    ghost use Rattle.std.proofs.Common.{rules};
    ghost use Rattle.std.specs.Cmp.Rules.{hashing};
    ghost use Rattle.generational_core.specs.Boxes.{hashed_id};

    ghost hash_input = { λ b. hashed_id b.raw };

    ghost respects_eq = { Prim.search (hashing, rules) };

    fn hash<H: Hasher>(&self, state: &mut H) {
        self.raw.hash(state);
    }
}

/// Prints the id.
impl<T> fmt::Debug for GenerationalBox<T> {
    ghost debug_output = { λ it. Some (id_text it.raw.id) };

    fn fmt<W: fmt::Write>(&self, f: &mut fmt::Formatter<W>) -> fmt::Result {
        write!(f, "{:?}", self.raw)
    }
}

impl<T> GenerationalBox<T> {
    ghost use Rattle.std.specs.Prelude.{◌≡◌};
    ghost use Rattle.generational_core.specs.Answers.{pointer_of};
    ghost use Rattle.generational_core.specs.Boxes.{has_same_id};

    /// The box without its element type, as recorded calls store it.
    ///
    /// ```rust
    /// store.target(one.pointer()).is_some()
    /// ```
    pub fn pointer(&self) -> GenerationalPointer
        ensures { result ≡ pointer_of self.now }
    {
        self.raw
    }

    /// The box's id, which outlives its cell. Accesses no store, and doesn't allocate.
    ///
    /// ```rust
    /// let have_one_id = one.id() == other.id();
    /// ```
    pub fn id(&self) -> GenerationalBoxId
        ensures { result ≡ (pointer_of self.now).id }
    {
        self.raw.id
    }

    /// The number of the box's slot in its store. Accesses no store, and doesn't allocate.
    ///
    /// Slots are reused: earlier and later boxes may have this slot, so only the whole id identifies a
    /// box.
    ///
    /// ```rust
    /// is_same == have_one_id && one.raw_ptr() != other.raw_ptr()
    /// ```
    pub fn raw_ptr(&self) -> usize
        ensures { result ≡ (pointer_of self.now).id.slot }
    {
        self.raw.id.slot
    }

    /// Whether both boxes have the same id, whatever the locations. Accesses no store, so it also
    /// compares boxes whose cells were removed. Doesn't allocate.
    ///
    /// ```rust
    /// let is_same = one.ptr_eq(&other);
    /// ```
    pub fn ptr_eq(&self, other: &Self) -> bool
        ensures { result ≡ has_same_id (pointer_of self.now) (pointer_of other.now) }
    {
        self.raw == other.raw
    }

    /// The location at which the box's cell was made; a reference has that of its shared value. Accesses
    /// no store, and doesn't allocate.
    ///
    /// ```rust
    /// Some(tell(value, second) && value.created_at() == first.created_at())
    /// ```
    pub fn created_at(&self) -> Location
        ensures { result ≡ (pointer_of self.now).created_at }
    {
        self.raw.created_at
    }
}

impl<T> GenerationalBox<T> {
    ghost use Rattle.std.specs.Prelude.{◌≡◌, true, IfErr, IfSome, IfNone, None, Some, is_some};
    ghost use Rattle.std.specs.Prelude.{option_copied, option_map};
    ghost use Rattle.std.specs.Borrow.{MutBor};
    ghost use Rattle.generational_core.specs.Answers.{pointer_of};
    ghost use Rattle.generational_core.specs.Borrowing.{can_read, can_write, reach};
    ghost use Rattle.generational_core.specs.Changing.{Changes};
    ghost use Rattle.generational_core.specs.Keeping.{box_with};
    ghost use Rattle.generational_core.specs.Seeing.{value_in, value_to_take};
    ghost use Rattle.generational_core.specs.Machine.Action.{Make, MakeShared, Refer, Read, Write};
    ghost use Rattle.generational_core.specs.Machine.Action.{End, Point, SetValue};
    ghost use Rattle.generational_core.specs.Machine.Answer.{Done, Old};
    ghost use Rattle.generational_core.specs.Steps.{Meets};
    ghost use Rattle.generational_core.specs.Answers.{box_answer, read_answer, write_answer};
    ghost use Rattle.generational_core.specs.Answers.{reference_box_answer, end_answer};
    ghost use Rattle.generational_core.specs.Answers.{free_read_answer, free_write_answer};

    /// Stores a value, and returns its box. The value lives until it is removed manually. The box's id
    /// was never issued before. If a slot is free, the call doesn't allocate.
    ///
    /// # Errors
    ///
    /// `OutOfMemory`, only if no slot is free: the value comes back, and the store is unchanged.
    ///
    /// ```rust
    /// let value = GenerationalBox::leak(store, 7, made()).ok()?;
    /// ```
    #[inline(always)]
    pub fn leak<S: Storage<T>>(
        store: &mut S,
        value: T,
        location: Location,
    ) -> Result<GenerationalBox<T>, Refusal<T>>
        ensures step { Meets (S.state store.old) (Make None value location) (box_answer result)
            (S.state store.new) }
        ensures back { IfErr result (λ refusal. refusal.value ≡ value) }
    {
        let raw = store.new(value, location, None)?;
        Ok(box_at(raw))
    }

    /// Stores a shared value with a first reference to it, and returns the reference's box. Its id was
    /// never issued before.
    ///
    /// The value lives exactly as long as there is a live reference to it; the returned box is the first
    /// one. Each reference lives until it is removed manually or by an owner. If two slots are free, the
    /// call doesn't allocate. Amortised O(1).
    ///
    /// # Errors
    ///
    /// `OutOfMemory`, only if fewer than two slots are free: the value comes back, and the store is
    /// unchanged.
    ///
    /// Upstream's `leak_rc`.
    ///
    /// ```rust
    /// let first = GenerationalBox::leak_rc(store, 8, made()).ok()?;
    /// let second = first.leak_reference(store).ok()?;
    /// ```
    #[inline(always)]
    pub fn leak_rc<S: Storage<T>>(
        store: &mut S,
        value: T,
        location: Location,
    ) -> Result<GenerationalBox<T>, Refusal<T>>
        ensures step { Meets (S.state store.old) (MakeShared None value location)
            (box_answer result) (S.state store.new) }
        ensures back { IfErr result (λ refusal. refusal.value ≡ value) }
    {
        let raw = store.new_rc(value, location, None)?;
        Ok(box_at(raw))
    }

    /// Adds a reference to the shared value that the box refers to, and returns its box. It lives until
    /// it is removed manually, and keeps the value alive. Its id was never issued before. If a slot is
    /// free, the call doesn't allocate. Amortised O(1).
    ///
    /// The reference refers to the shared value itself, and has that value's location. So chains of
    /// references are flat, and the new one stays live when the one that it came from is removed.
    ///
    /// # Errors
    ///
    /// - `Dropped` with the box's own creation location if its cell was removed or belongs to another
    ///   store.
    /// - `AlreadyBorrowedMut` with the writer's location if the value is being written.
    /// - `Dropped` with the box's own creation location if its value isn't shared.
    /// - `OutOfMemory` only if no slot is free.
    ///
    /// A call that fails leaves the store unchanged.
    ///
    /// Upstream's `leak_reference`.
    ///
    /// ```rust
    /// let second = first.leak_reference(store)?;
    /// first.manually_drop(store)?;
    /// let kept = read_value(store, second, here)?;
    /// ```
    #[inline(always)]
    pub fn leak_reference<S: Storage<T>>(self, store: &mut S) -> BorrowResult<GenerationalBox<T>>
        ensures { Meets (S.state store.old) (Refer None (pointer_of self))
            (reference_box_answer result) (S.state store.new) }
    {
        let raw = store.new_reference(self.raw, None)?;
        Ok(box_at(raw))
    }

    /// The box of an id that was stored, with the location where the box was made, exactly if a live box
    /// of this store has the id. None if its cell was removed, or belongs to another store; no other box
    /// ever gets the id. A shared value has no box itself, but its references have. Doesn't allocate, and
    /// is O(1).
    ///
    /// Upstream has no such call.
    ///
    /// ```rust
    /// let found = GenerationalBox::find(store, kept.id());
    /// ```
    pub fn find<S: Storage<T>>(store: &S, id: GenerationalBoxId) -> Option<GenerationalBox<T>>
        ensures { option_map pointer_of result ≡ box_with (S.state store.now) id }
    {
        let raw = store.find(id)?;
        Some(box_at(raw))
    }

    /// Points the box, which is a reference, to the shared value that another box refers to. The value
    /// that it referred to before is dropped if this was the last live reference to it. The box keeps its
    /// id and its location.
    ///
    /// The result, in the order in which it is found:
    /// 1. Ok if both boxes have the same id, even if its cell was removed: nothing changes.
    /// 2. `Dropped` with the other box's own creation location if its cell was removed or belongs to
    ///    another store; `AlreadyBorrowedMut` with the writer's location if its value is being written.
    /// 3. `Dropped` with this box's own creation location if its cell was removed or belongs to another
    ///    store.
    /// 4. `Dropped` with the location at which the other box's value was made, if this box is no
    ///    reference or that value isn't shared.
    /// 5. Ok if this box refers to that value already: nothing changes.
    /// 6. `AlreadyBorrowedMut` with the writer's location, or `AlreadyBorrowed` with the readers'
    ///    locations in the order in which they began, if the value that this box referred to would be
    ///    dropped and is borrowed; `OutOfMemory` instead of `AlreadyBorrowed` if that list can't be
    ///    allocated.
    /// 7. Ok: this box refers to the other value from then on.
    ///
    /// A call that fails leaves the store unchanged. Nothing else allocates. The call is O(1) except for
    /// the list of locations.
    ///
    /// Upstream's `point_to`.
    ///
    /// ```rust
    /// let other = GenerationalBox::leak_rc(store, 2, made()).ok()?;
    /// second.point_to(store, other).ok()?;
    /// ```
    #[inline(always)]
    pub fn point_to<S: Storage<T>>(
        self,
        store: &mut S,
        other: GenerationalBox<T>,
    ) -> BorrowMutResult<()>
        ensures { Meets (S.state store.old) (Point (pointer_of self) (pointer_of other))
            (end_answer result) (S.state store.new) }
    {
        store.change_reference(self.raw, other.raw)
    }

    /// Begins a read of the value, for a caller at a location. The guard must be released; its `deref`
    /// gives access to the value.
    ///
    /// # Errors
    ///
    /// - `Dropped` with the box's own creation location if its cell was removed or belongs to another
    ///   store.
    /// - `AlreadyBorrowedMut` with the writer's location if the value is being written.
    /// - `NumbersExhausted` if the tickets are used up.
    /// - `OutOfMemory` only if the value has another reader.
    ///
    /// A call that fails leaves the store unchanged.
    ///
    /// ```rust
    /// let guard = made.try_read(&mut store, here).ok()?;
    /// let length = guard.deref(&store).map(|view| view.len());
    /// guard.release(&mut store);
    /// ```
    #[inline(always)]
    pub fn try_read<S: Storage<T>>(
        self,
        store: &mut S,
        location: Location,
    ) -> BorrowResult<GenerationalRef<T>>
        ensures { Meets (S.state store.old) (Read (pointer_of self) location) (read_answer result)
            (S.state store.new) }
    {
        store.try_read(self.raw, location)
    }

    /// Begins a write of the value, for a caller at a location. The guard owns the value until it is
    /// released.
    ///
    /// # Errors
    ///
    /// - `Dropped` with the box's own creation location if its cell was removed or belongs to another
    ///   store.
    /// - `AlreadyBorrowedMut` with the writer's location if the value is being written.
    /// - `AlreadyBorrowed` with the readers' locations, in the order in which they began, if the value is
    ///   being read; or `OutOfMemory` instead if that list can't be allocated.
    /// - `NumbersExhausted` if the tickets are used up.
    ///
    /// A call that fails leaves the store unchanged. Nothing else allocates.
    ///
    /// ```rust
    /// let mut writer = kept.try_write(store, line(34))?;
    /// *writer.deref_mut() = 8;
    /// let _ = writer.release(store);
    /// ```
    #[inline(always)]
    pub fn try_write<S: Storage<T>>(
        self,
        store: &mut S,
        location: Location,
    ) -> BorrowMutResult<GenerationalRefMut<T>>
        ensures { Meets (S.state store.old) (Write (pointer_of self) location) (write_answer result)
            (S.state store.new) }
    {
        store.try_write(self.raw, location)
    }

    /// Borrows the value without a guard, a ticket or a location. The store is borrowed meanwhile. None
    /// if the box's cell was removed or belongs to another store, or the value is being written. Doesn't
    /// allocate, and is O(1).
    ///
    /// ```rust
    /// let shown = kept.peek(&store).copied();
    /// ```
    #[inline(always)]
    pub fn peek<S: Storage<T>>(self, store: &S) -> Option<&T>
        ensures { option_copied result ≡ value_in (S.state store.now) (pointer_of self) }
    {
        store.peek(self.raw)
    }

    /// Whether the value is live, even while it is being written: false if the box's cell was removed or
    /// belongs to another store. Doesn't allocate, and is O(1).
    ///
    /// ```rust
    /// if kept.is_live(store) && kept.can_write(store) {
    ///     kept.set(store, 8);
    /// }
    /// ```
    #[inline(always)]
    pub fn is_live<S: Storage<T>>(self, store: &S) -> bool
        ensures { result ≡ is_some (reach (S.state store.now) (pointer_of self)) }
    {
        store.is_live(self.raw)
    }

    /// Whether the value may be read: false if the box's cell was removed or belongs to another store, or
    /// the value is being written. Other readers don't matter. Doesn't allocate, and is O(1).
    ///
    /// ```rust
    /// if !kept.can_read(store) {
    ///     return Ok(None);
    /// }
    /// let guard = kept.read(store, read())?;
    /// ```
    #[inline(always)]
    pub fn can_read<S: Storage<T>>(self, store: &S) -> bool
        ensures { result ≡ can_read (S.state store.now) (pointer_of self) }
    {
        store.can_read(self.raw)
    }

    /// Whether the value may be written: false if the box's cell was removed or belongs to another store,
    /// or the value is borrowed. Doesn't allocate, and is O(1).
    ///
    /// ```rust
    /// if !target.can_write(store) {
    ///     return false;
    /// }
    /// target.set(store, value);
    /// ```
    #[inline(always)]
    pub fn can_write<S: Storage<T>>(self, store: &S) -> bool
        ensures { result ≡ can_write (S.state store.now) (pointer_of self) }
    {
        store.can_write(self.raw)
    }

    /// Begins a read of a value that may be read (see `can_read`), for a caller at a location. The guard
    /// must be released; its `deref` gives access to the value. Amortised O(1).
    ///
    /// # Errors
    ///
    /// - `NumbersExhausted` if the tickets are used up.
    /// - `OutOfMemory` only if the value has another reader.
    ///
    /// A call that fails leaves the store unchanged.
    ///
    /// Upstream's `read`, which panics if the value may not be read.
    ///
    /// ```rust
    /// let guard = kept.read(store, read())?;
    /// let seen = guard.deref(store).map(|view| *view);
    /// guard.release(store);
    /// ```
    #[inline(always)]
    pub fn read<S: Storage<T>>(
        self,
        store: &mut S,
        location: Location,
    ) -> Result<GenerationalRef<T>, StoreError>
        requires { can_read (S.state store.old) (pointer_of self) ≡ true }
        ensures { Meets (S.state store.old) (Read (pointer_of self) location)
            (free_read_answer result) (S.state store.new) }
    {
        match store.try_read(self.raw, location) {
            Ok(reader) => Ok(reader),
            Err(Refused::Store(cause)) => Err(cause),
            Err(Refused::Borrow(_)) => unreachable!(),
        }
    }

    /// Begins a write of a value that may be written (see `can_write`), for a caller at a location. The
    /// guard owns the value until it is released. Doesn't allocate, and is O(1).
    ///
    /// # Errors
    ///
    /// `NumbersExhausted`, only if the tickets are used up: the store is unchanged.
    ///
    /// Upstream's `write`, which panics if the value may not be written.
    ///
    /// ```rust
    /// let mut guard = kept.write(store, written())?;
    /// let old = guard.replace(value);
    /// let _ = guard.release(store);
    /// ```
    #[inline(always)]
    pub fn write<S: Storage<T>>(
        self,
        store: &mut S,
        location: Location,
    ) -> Result<GenerationalRefMut<T>, StoreError>
        requires { can_write (S.state store.old) (pointer_of self) ≡ true }
        ensures step { Meets (S.state store.old) (Write (pointer_of self) location)
            (free_write_answer result) (S.state store.new) }
        ensures cause { IfErr result (λ error. error ≡ NumbersExhausted) }
    {
        match store.try_write(self.raw, location) {
            Ok(writer) => Ok(writer),
            Err(Refused::Store(cause)) => Err(cause),
            Err(Refused::Borrow(_)) => unreachable!(),
        }
    }

    /// Sets a value that may be written (see `can_write`), and drops the old one. Every box that refers
    /// to the value refers to the new one from then on. No ticket is used. Never fails; doesn't allocate,
    /// and is O(1) except for dropping the old value.
    ///
    /// Upstream's `set`, which panics if the value may not be written.
    ///
    /// ```rust
    /// if !target.can_write(store) {
    ///     return false;
    /// }
    /// target.set(store, value);
    /// ```
    #[inline(always)]
    pub fn set<S: Storage<T>>(self, store: &mut S, value: T)
    where
        T: Drop,
        requires { can_write (S.state store.old) (pointer_of self) ≡ true }
        ensures { (old : T) × Meets (S.state store.old) (SetValue (pointer_of self) value) (Old old)
            (S.state store.new) }
    {
        store.replace_value(self.raw, value);
    }

    /// Calls a closure once on the value, mutably, and returns the closure's result. Every box that
    /// refers to the value refers to the changed value from then on, and nothing else changes. No ticket
    /// is used, no location is stored, and the value isn't moved.
    ///
    /// None if the box's cell was removed or belongs to another store, or the value is borrowed: the
    /// closure isn't called, and the store is unchanged. Doesn't allocate itself, and is O(1) except for
    /// the closure.
    ///
    /// Upstream has no such call: there you take a write's guard.
    ///
    /// ```rust
    /// counter.with_mut(store, |count: &mut u64| {
    ///     let before = *count;
    ///     *count += 1;
    ///     before
    /// })
    /// ```
    #[inline(always)]
    pub fn with_mut<S: Storage<T>, R, F: FnOnce(&mut T) -> R>(
        self,
        store: &mut S,
        f: F,
    ) -> Option<R>
        requires { (value : MutBor T) →
            value_in (S.state store.old) (pointer_of self) ≡ Some value.now → F.pre f value }
        ensures changed { IfSome result (λ answer.
            Changes F.FnOnce f (S.state store.old) (pointer_of self) answer (S.state store.new)) }
        ensures free { is_some result ≡ can_write (S.state store.old) (pointer_of self) }
        ensures none { IfNone result (S.state store.new ≡ S.state store.old) }
    {
        if !store.can_write(self.raw) {
            return None;
        }
        Some(store.change_value(self.raw, f))
    }

    /// Removes the box's cell, and drops the value. Reads, writes and new references of a box of this id
    /// fail with `Dropped` from then on, and no box ever has the id again. A shared value is dropped only
    /// with its last reference. For a box whose cell was removed or belongs to another store, the call
    /// returns Ok and changes nothing.
    ///
    /// # Errors
    ///
    /// If the value would be dropped and is borrowed: `AlreadyBorrowedMut` with the writer's location; or
    /// `AlreadyBorrowed` with the readers' locations, in the order in which they began, or `OutOfMemory`
    /// instead if that list can't be allocated. The store is unchanged then. Nothing else allocates.
    ///
    /// ```rust
    /// made.manually_drop(&mut store).ok()?;
    /// ```
    #[inline(always)]
    pub fn manually_drop<S: Storage<T>>(self, store: &mut S) -> BorrowMutResult<()>
        ensures { Meets (S.state store.old) (End (pointer_of self)) (end_answer result)
            (S.state store.new) }
    {
        store.recycle(self.raw)
    }

    /// Removes the box's cell and returns its value, exactly if the value isn't shared and isn't
    /// borrowed.
    ///
    /// `None` otherwise, and the store is unchanged: if the box's cell was removed or belongs to another
    /// store, if the value is borrowed, and for a reference, even the last one to its shared value:
    /// `manually_drop` removes that. Doesn't allocate, and is O(1).
    ///
    /// Upstream has no such call: there a value that is removed is always dropped.
    ///
    /// ```rust
    /// let name: String = made.take(&mut store)?;
    /// ```
    #[inline(always)]
    pub fn take<S: Storage<T>>(self, store: &mut S) -> Option<T>
        ensures value { result ≡ value_to_take (S.state store.old) (pointer_of self) }
        ensures ended { IfSome result (λ value. Meets (S.state store.old) (End (pointer_of self)) Done
            (S.state store.new)) }
        ensures none { IfNone result (S.state store.new ≡ S.state store.old) }
    {
        store.take_value(self.raw)
    }
}

/// The box of a pointer. It makes no cell: like every box, it refers to the cell of its name.
#[inline(always)]
pub fn box_at<T>(raw: GenerationalPointer) -> GenerationalBox<T>
    ensures { pointer_of result ≡ raw }
{
    GenerationalBox {
        raw,
        marker: PhantomData,
    }
}
