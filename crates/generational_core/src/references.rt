//! Guards and views.

ghost use Rattle.std.specs.Prelude.{◌≡◌, Some};
ghost use Rattle.std.specs.Borrow.{sem};
ghost use Rattle.generational_core.specs.Boxes.{name_in};
ghost use Rattle.generational_core.specs.Texts.{reader_text, writer_text};

use crate::boxes::GenerationalBoxId;
use crate::storage::Storage;
use generational_errors::StoreError;
use std::marker::{Model, PhantomData};
use std::ops::{Deref, DerefMut};
use std::{fmt, mem};

/// A reader's guard. Contracts model it as its store's number, its cell's name and its ticket.
///
/// It refers to a borrow and holds no reference, so the store may be used while the borrow is active. It
/// has no `Drop`: `release` must consume it.
pub struct GenerationalRef<T> {
    id: GenerationalBoxId,
    ticket: u64,
    marker: PhantomData<T>,
}

impl<T> Model for GenerationalRef<T> {
    ghost use Rattle.generational_core.specs.Borrowing.{Guard};
    ghost use Rattle.generational_core.specs.Boxes.{name_in};

    ghost Value = { Guard };

    ghost view = { λ g. record { store = g.id.store; cell = name_in g.id; ticket = g.ticket } };
}

impl<T> GenerationalRef<T> {
    ghost use Rattle.generational_core.specs.Answers.{value_behind};
    ghost use Rattle.generational_core.specs.Machine.Action.{ReleaseReader};
    ghost use Rattle.generational_core.specs.Machine.Answer.{Flag};
    ghost use Rattle.generational_core.specs.Steps.{Meets};

    /// The number of the borrow, by which a recorded release identifies it.
    #[inline(always)]
    pub fn ticket(&self) -> u64
        ensures { result ≡ self.now.ticket }
    {
        self.ticket
    }

    /// A view of the value, exactly if the store knows the guard: if the store's number is the guard's,
    /// and its cell has a reader with its ticket. Doesn't allocate.
    ///
    /// ```rust
    /// let length = guard.deref(&store).map(|view| view.len());
    /// ```
    #[inline(always)]
    pub fn deref<'a, S: Storage<T>>(&self, store: &'a S) -> Option<Ref<'a, T>>
        ensures { result ≡ value_behind (S.state store.now) self.now }
    {
        let value = store.open(self)?;
        Some(Ref { value })
    }

    /// Ends the read. Returns whether the store knew the guard; if it didn't, the guard is consumed and
    /// the store is unchanged. Doesn't allocate.
    ///
    /// Upstream's guards end the borrow in their Drop.
    ///
    /// ```rust
    /// guard.release(&mut store);
    /// ```
    #[inline(always)]
    pub fn release<S: Storage<T>>(self, store: &mut S) -> bool
        ensures { Meets (S.state store.old) (ReleaseReader self) (Flag result) (S.state store.new) }
    {
        store.release_read(self)
    }
}

/// Prints `reader TICKET of SLOT@GENERATION`.
impl<T> fmt::Debug for GenerationalRef<T> {
    ghost debug_output = { λ g. Some (reader_text g) };

    fn fmt<W: fmt::Write>(&self, f: &mut fmt::Formatter<W>) -> fmt::Result {
        write!(f, "reader {} of {:?}", self.ticket, self.id)
    }
}

/// The guard of a reader of a cell.
#[inline(always)]
pub fn reader_at<T>(id: GenerationalBoxId, ticket: u64) -> GenerationalRef<T>
    ensures { result ≡ record { store = id.store; cell = name_in id; ticket = ticket } }
{
    GenerationalRef {
        id,
        ticket,
        marker: PhantomData,
    }
}

/// The cell that a guard reads.
#[inline(always)]
pub fn id_read<T>(guard: &GenerationalRef<T>) -> GenerationalBoxId
    ensures { guard.now ≡ record
        { store = result.store; cell = name_in result; ticket = guard.now.ticket } }
{
    guard.id
}

/// The cell and the ticket of a reader's guard, which is consumed.
#[inline(always)]
pub fn into_reader<T>(guard: GenerationalRef<T>) -> (GenerationalBoxId, u64)
    ensures { guard ≡ record
        { store = result.0.store; cell = name_in result.0; ticket = result.1 } }
{
    let GenerationalRef {
        id,
        ticket,
        marker: _,
    } = guard;
    (id, ticket)
}

/// The guard of a writer of a cell, which owns the value.
#[inline(always)]
pub fn writer_at<T>(id: GenerationalBoxId, ticket: u64, value: T) -> GenerationalRefMut<T>
    ensures guard { result.guard ≡ record
        { store = id.store; cell = name_in id; ticket = ticket } }
    ensures value { result.value ≡ value }
{
    GenerationalRefMut { id, ticket, value }
}

/// The cell, the ticket and the value of a writer's guard, which is consumed.
#[inline(always)]
pub fn into_writer<T>(guard: GenerationalRefMut<T>) -> (GenerationalBoxId, u64, T)
    ensures guard { guard.guard ≡ record
        { store = result.0.store; cell = name_in result.0; ticket = result.1 } }
    ensures value { guard.value ≡ result.2 }
{
    let GenerationalRefMut { id, ticket, value } = guard;
    (id, ticket, value)
}

/// A view of a value that is being read. It may be dropped at any time: its guard's borrow lasts until
/// the guard is released.
#[derive(Drop)]
pub struct Ref<'a, T> {
    value: &'a T,
}

impl<'a, T> Model for Ref<'a, T> {
    ghost Value = { T };

    ghost coded = { T.code };

    ghost view = { λ r. r.value.now };
}

impl<'a, T> Deref for Ref<'a, T> {
    type Target = T;

    ghost deref_gives = { λ r x. x ≡ r };

    #[inline(always)]
    fn deref(&self) -> &T {
        self.value
    }
}

impl<'a, T> Ref<'a, T> {
    ghost use Rattle.std.specs.Prelude.{◌≡◌, IfOk, IfErr, option_copied};
    ghost use Rattle.std.specs.Fn.{FnOnceReturnsAt};
    ghost use Rattle.generational_errors.specs.declared.error.StoreError.TheVariants.{OutOfMemory};

    /// A view of the part of the value that the closure returns. The closure is called once. Doesn't
    /// allocate itself.
    ///
    /// Upstream's `AnyStorage::map`.
    #[inline(always)]
    pub fn map<U, F: FnOnce(&T) -> &U>(self, part: F) -> Ref<'a, U>
        requires { F.IsAlwaysCallable part }
        ensures { (found : _) × FnOnceReturnsAt F.FnOnce part self.entry found
            × (result ≡ found.now) }
    {
        Ref {
            value: part(self.value),
        }
    }

    /// A view of a part of the value, if there is such a part: None exactly if the closure returns None.
    /// Only this view is dropped then, and the borrow lasts until its guard is released.
    ///
    /// Upstream's `AnyStorage::try_map`.
    #[inline(always)]
    pub fn try_map<U, F: FnOnce(&T) -> Option<&U>>(self, part: F) -> Option<Ref<'a, U>>
        requires { F.IsAlwaysCallable part }
        ensures { (found : _) × FnOnceReturnsAt F.FnOnce part self.entry found
            × (result ≡ option_copied found) }
    {
        let value = part(self.value)?;
        Some(Ref { value })
    }

    /// A clone of the value, by its type's `Clone`. Allocates what that allocates.
    ///
    /// # Errors
    ///
    /// `OutOfMemory` if the clone fails.
    ///
    /// Upstream's `cloned` of a reader's guard.
    pub fn cloned(&self) -> Result<T, StoreError>
    where
        T: Clone,
        ensures ok { IfOk result (λ clone. T.is_clone self.now clone) }
        ensures cause { IfErr result (λ error. error ≡ OutOfMemory) }
    {
        match self.value.clone() {
            Ok(clone) => Ok(clone),
            Err(_) => Err(StoreError::OutOfMemory),
        }
    }
}

/// Prints the value.
impl<'a, T: fmt::Debug> fmt::Debug for Ref<'a, T> {
    ghost debug_output = { T.debug_output };

    fn fmt<W: fmt::Write>(&self, f: &mut fmt::Formatter<W>) -> fmt::Result {
        self.value.fmt(f)
    }
}

/// Prints the value.
impl<'a, T: fmt::Display> fmt::Display for Ref<'a, T> {
    ghost output = { T.output };

    fn fmt<W: fmt::Write>(&self, f: &mut fmt::Formatter<W>) -> fmt::Result {
        self.value.fmt(f)
    }
}

/// A writer's guard, which owns the value during the borrow. Contracts model it as a guard and the value.
///
/// The value is read and written without the store. The guard has no `Drop`: `release` must consume it,
/// which puts the value back.
pub struct GenerationalRefMut<T> {
    id: GenerationalBoxId,
    ticket: u64,
    value: T,
}

impl<T> Model for GenerationalRefMut<T> {
    ghost use Rattle.generational_core.specs.Answers.{WriteGuard};
    ghost use Rattle.generational_core.specs.Boxes.{name_in};

    ghost Value = { WriteGuard T };

    ghost view = { λ g. record {
      guard = record
          { store = g.id.store; cell = name_in g.id; ticket = g.ticket };
      value = g.value;
    } };
}

impl<T> GenerationalRefMut<T> {
    ghost use Rattle.std.specs.Prelude.{◌≡◌};
    ghost use Rattle.std.specs.Borrow.{sem};
    ghost use Rattle.generational_core.specs.Boxes.{name_in};
    ghost use Rattle.generational_core.specs.Loans.{LendsValue};
    ghost use Rattle.generational_core.specs.Machine.Action.{ReleaseWriter};
    ghost use Rattle.generational_core.specs.Answers.{back_answer};
    ghost use Rattle.generational_core.specs.Steps.{Meets};

    /// The number of the borrow, by which a recorded release identifies it.
    #[inline(always)]
    pub fn ticket(&self) -> u64
        ensures { result ≡ self.now.guard.ticket }
    {
        self.ticket
    }

    /// The value. Doesn't allocate.
    #[inline(always)]
    pub fn deref(&self) -> &T
        ensures { result.now ≡ self.now.value }
    {
        &self.value
    }

    /// A mutable view of the value: what is written through it is the guard's value from then on. Doesn't
    /// allocate.
    ///
    /// ```rust
    /// *writer.deref_mut() = 8;
    /// ```
    #[inline(always)]
    pub fn deref_mut(&mut self) -> Mut<'_, T>
        ensures same_guard { result.guard.ghost_name ≡ self.entry.ghost_name }
        ensures unchanged { result.guard.now ≡ self.old }
    {
        Mut { guard: self }
    }

    // The value for writing.
    #[inline(always)]
    fn value_mut(&mut self) -> &mut T
        ensures* writes_back { sem 𝓛 (LendsValue T.row self.entry result) }
        ensures value { result.now ≡ self.old.value }
    {
        &mut self.value
    }

    /// Replaces the guard's value, and returns the old one. Doesn't allocate.
    ///
    /// ```rust
    /// let old = guard.replace(value);
    /// ```
    #[inline(always)]
    pub fn replace(&mut self, value: T) -> T
        ensures old { result ≡ self.old.value }
        ensures after { self.new ≡ record self.old { value = value } }
    {
        mem::replace(&mut self.value, value)
    }

    /// Ends the write, and puts the value back into the cell. A store that doesn't know the guard returns
    /// the value and is unchanged; the guard is consumed anyway, and its own cell stays borrowed. Doesn't
    /// allocate.
    ///
    /// ```rust
    /// match guard.release(store) {
    ///     Ok(()) => Ok(()),
    ///     Err(_) => unreachable!(),
    /// }
    /// ```
    #[inline(always)]
    pub fn release<S: Storage<T>>(self, store: &mut S) -> Result<(), T>
        ensures { Meets (S.state store.old) (ReleaseWriter self.guard self.value)
            (back_answer result) (S.state store.new) }
    {
        store.release_write(self)
    }
}

/// Prints `writer TICKET of SLOT@GENERATION`.
impl<T> fmt::Debug for GenerationalRefMut<T> {
    ghost debug_output = { λ g. Some (writer_text g.guard) };

    fn fmt<W: fmt::Write>(&self, f: &mut fmt::Formatter<W>) -> fmt::Result {
        write!(f, "writer {} of {:?}", self.ticket, self.id)
    }
}

/// A view of a value that is written. It borrows the value's guard.
#[derive(Drop)]
pub struct Mut<'a, T> {
    guard: &'a mut GenerationalRefMut<T>,
}

impl<'a, T> Deref for Mut<'a, T> {
    type Target = T;

    ghost deref_gives = { λ m x. x ≡ m.guard.now.value };

    #[inline(always)]
    fn deref(&self) -> &T {
        let guard: &GenerationalRefMut<T> = &*self.guard;
        guard.deref()
    }
}

// `named 1` is the guard's lifetime: the second in the signature of `deref_mut`.
impl<'a, T> DerefMut for Mut<'a, T> {
    ghost use Rattle.std.specs.Prelude.{[]};
    ghost use Rattle.std.specs.Borrow.{sem, follows};
    ghost use mir.Syntax.{named};
    ghost use Rattle.generational_core.specs.Loans.{writes_through};
    ghost use Rattle.generational_core.specs.contracts.references.Mut.{the_row};

    ghost deref_mut_gives = { λ m x. x ≡ m.guard.now.value };

    #[inline(always)]
    fn deref_mut(&mut self) -> &mut T
        ensures* writes_back { sem 𝓛 (follows (the_row (record { mir = named 1; lft = [] }) T.row)
            T.row self.entry.ghost_name result.ghost_name (writes_through self.old)) }
        ensures value { result.now ≡ self.old.guard.now.value }
    {
        self.guard.value_mut()
    }
}

impl<'a, T> Mut<'a, T> {
    /// A mutable view of the part of the value that the closure returns. The closure is called once.
    /// Doesn't allocate itself.
    ///
    /// Upstream's `AnyStorage::map_mut`.
    #[inline(always)]
    pub fn map_mut<U, F: FnOnce(&mut T) -> &mut U>(self, part: F) -> MutPart<'a, U>
        requires { F.IsAlwaysCallable part }
    {
        let Mut { guard } = self;
        MutPart {
            value: part(guard.value_mut()),
        }
    }

    /// A mutable view of a part of the value, if there is such a part: None if the closure returns None.
    /// Only this view is dropped then, and the guard stays.
    ///
    /// Upstream's `AnyStorage::try_map_mut`.
    #[inline(always)]
    pub fn try_map_mut<U, F: FnOnce(&mut T) -> Option<&mut U>>(
        self,
        part: F,
    ) -> Option<MutPart<'a, U>>
        requires { F.IsAlwaysCallable part }
    {
        let Mut { guard } = self;
        let value = part(guard.value_mut())?;
        Some(MutPart { value })
    }
}

/// A view of a part of a value that is written. It borrows the value's guard.
#[derive(Drop)]
pub struct MutPart<'a, T> {
    value: &'a mut T,
}

impl<'a, T> Deref for MutPart<'a, T> {
    type Target = T;

    ghost deref_gives = { λ m x. x ≡ m.value.now };

    #[inline(always)]
    fn deref(&self) -> &T {
        &*self.value
    }
}

impl<'a, T> DerefMut for MutPart<'a, T> {
    ghost deref_mut_gives = { λ m x. x ≡ m.value.now };

    #[inline(always)]
    fn deref_mut(&mut self) -> &mut T {
        &mut *self.value
    }
}

impl<'a, T> MutPart<'a, T> {
    /// A mutable view of a part of this part, like `Mut::map_mut`.
    #[inline(always)]
    pub fn map_mut<U, F: FnOnce(&mut T) -> &mut U>(self, part: F) -> MutPart<'a, U>
        requires { F.IsAlwaysCallable part }
    {
        let MutPart { value } = self;
        MutPart { value: part(value) }
    }

    /// A mutable view of a part of this part, if there is one, like `Mut::try_map_mut`.
    #[inline(always)]
    pub fn try_map_mut<U, F: FnOnce(&mut T) -> Option<&mut U>>(
        self,
        part: F,
    ) -> Option<MutPart<'a, U>>
        requires { F.IsAlwaysCallable part }
    {
        let MutPart { value } = self;
        let value = part(value)?;
        Some(MutPart { value })
    }
}
