//! What every store does.

ghost use Rattle.std.specs.Prelude.{◌≡◌, ◌≤◌, ◌+◌, ◌-◌, ◌↔◌, true, IsTrue, IfOk, IfErr};
ghost use Rattle.std.specs.Prelude.{IfNone, IfSome, is_some, option_copied, Some};
ghost use Rattle.generational_core.specs.State.{State, IsSound};
ghost use Rattle.std.specs.FinMap as map;
ghost use Rattle.std.specs.Borrow.{MutBor};
ghost use Rattle.generational_core.specs.Changing.{Changes};
ghost use Rattle.generational_core.specs.Conditions.{IsBounded, IsFresh};
ghost use Rattle.generational_core.specs.Keeping.{box_with};
ghost use Rattle.generational_core.specs.Seeing.{value_in, value_to_take};
ghost use Rattle.generational_core.specs.Slots.{slots, free, retired};
ghost use Rattle.generational_core.specs.Machine.Action.{Make, NewOwner, CloneOwner, ReleaseOwner};
ghost use Rattle.generational_core.specs.Machine.Action.{Read, Write, ReleaseReader, ReleaseWriter};
ghost use Rattle.generational_core.specs.Machine.Action.{End, MakeShared, Refer, Point, SetValue};
ghost use Rattle.generational_core.specs.Machine.Answer.{Done, Flag, Old};
ghost use Rattle.generational_core.specs.Borrowing.{can_read, can_write, reach};
ghost use Rattle.generational_core.specs.Rows.{ReadBack, rows_of};
ghost use Rattle.generational_core.specs.Steps.{Meets, last_ticket};
ghost use Rattle.generational_core.specs.StepCalls.{meets_no_borrow, is_ready, target_of};
ghost use Rattle.generational_core.specs.Answers.{make_answer, owner_answer, release_answer};
ghost use Rattle.generational_core.specs.Answers.{read_answer, write_answer, back_answer};
ghost use Rattle.generational_core.specs.Answers.{reference_answer, end_answer, value_behind};
ghost use Rattle.generational_errors.specs.declared.error.StoreError.TheVariants.{OutOfMemory};

use crate::boxes::{GenerationalBoxId, GenerationalPointer};
use crate::owner::Owner;
use crate::references::{GenerationalRef, GenerationalRefMut};
use crate::rows::BaseRow;
use crate::steps::StepCall;
use generational_errors::{
    BorrowMutError, BorrowMutResult, BorrowResult, Location, Refusal, Refused, StoreError,
};

/// A store of values of one type: the calls that don't depend on how it keeps the values.
///
/// Every clause is about the abstract state alone, and states that the call is a step of the machine
/// (`docs/machine.md`). The sequential stores of `generational_box` implement it.
pub trait AnyStorage<T> {
    /// The state of the abstract machine that the store represents.
    ghost state: { Self → State T };

    /// The number that the store's maker chose.
    fn number(&self) -> u64
        ensures { result ≡ (state self.now).number };

    /// Whether the store is like a new one, except for its numbers: no slot was made, and there is no
    /// owner's record. A store without slots is so again once all its owners are released. Doesn't
    /// allocate.
    fn is_fresh(&self) -> bool
        ensures { IsTrue result ↔ IsFresh (state self.now) };

    /// How many slots were ever made: each is live, free or retired. That is never more than the peak
    /// number of live cells plus the number of retired slots. Doesn't allocate.
    fn slots(&self) -> usize
        ensures count { result ≡ slots (state self.now) }
        ensures bounded { slots (state self.now)
            ≤ (state self.now).peak + retired (state self.now) };

    /// How many slots have no live cell and may be reused. Doesn't allocate.
    fn free(&self) -> usize
        ensures { result ≡ free (state self.now) };

    /// How many slots are never reused, since their last cell had the last generation and was removed.
    /// Doesn't allocate.
    fn retired(&self) -> usize
        ensures { result ≡ retired (state self.now) };

    /// How many cells are live: values, shared values and references. Doesn't allocate.
    fn len(&self) -> usize
        ensures { result ≡ map.len (state self.now).cells };

    /// The peak number of live cells. Doesn't allocate.
    fn peak_live(&self) -> usize
        ensures { result ≡ (state self.now).peak };

    /// How many tickets remain: each owner, each owner's clone and each borrow takes one. Doesn't
    /// allocate.
    fn tickets_left(&self) -> u64
        ensures count { result ≡ last_ticket - (state self.now).next }
        ensures bounded { (state self.now).next ≤ last_ticket };

    /// The number of the pointer's slot. Accesses no slot: the cell may have been removed, or belong to
    /// another store. Doesn't allocate.
    fn data_ptr(&self, pointer: GenerationalPointer) -> usize
        ensures { result ≡ pointer.id.slot };

    /// The pointer with an id, with the location where its box was made, exactly if a live box of this
    /// store has the id. Doesn't allocate.
    fn find(&self, id: GenerationalBoxId) -> Option<GenerationalPointer>
        ensures { result ≡ box_with (state self.now) id };

    /// Whether the value that the pointer refers to may be read: whether there is one, and it isn't being
    /// written. Doesn't allocate.
    fn can_read(&self, pointer: GenerationalPointer) -> bool
        ensures { result ≡ can_read (state self.now) pointer };

    /// Whether the pointer refers to a value, even if the value is being written. Doesn't allocate.
    fn is_live(&self, pointer: GenerationalPointer) -> bool
        ensures { result ≡ is_some (reach (state self.now) pointer) };

    /// Whether the value that the pointer refers to may be written: whether there is one, and it isn't
    /// borrowed. Doesn't allocate.
    fn can_write(&self, pointer: GenerationalPointer) -> bool
        ensures { result ≡ can_write (state self.now) pointer };

    /// Returns an owner without boxes, of a new record.
    ///
    /// # Errors
    ///
    /// - `NumbersExhausted` if the tickets are used up.
    /// - `OutOfMemory`.
    ///
    /// A call that fails changes nothing.
    fn owner(&mut self) -> Result<Owner, StoreError>
        ensures { Meets (state self.old) NewOwner (owner_answer result) (state self.new) };

    /// Returns another owner value of the same record.
    ///
    /// # Errors
    ///
    /// - `UnknownOwner` if the store has no record of the owner.
    /// - `NumbersExhausted` if the tickets are used up.
    ///
    /// A call that fails changes nothing, and the call never allocates.
    fn clone_owner(&mut self, owner: &Owner) -> Result<Owner, StoreError>
        ensures { Meets (state self.old) (CloneOwner owner.now) (owner_answer result)
            (state self.new) };

    /// Consumes an owner value. The last one of its record removes all live boxes of the list, and each
    /// shared value without other references; or the call fails and removes nothing.
    ///
    /// # Errors
    ///
    /// - `UnknownOwner` if the store has no record of the owner.
    /// - The error of a write of the first box of the list, in order of insertion, that refers to a value
    ///   which would be dropped and is borrowed, or `OutOfMemory` instead if the list of its readers'
    ///   locations can't be allocated.
    ///
    /// A borrow of a value that keeps a reference isn't an error. With each error the owner comes back,
    /// and nothing changes.
    fn release_owner(&mut self, owner: Owner) -> Result<(), (Owner, Refused<BorrowMutError>)>
        ensures step { Meets (state self.old) (ReleaseOwner owner) (release_answer result)
            (state self.new) }
        ensures back { IfErr result (λ refusal. refusal.0 ≡ owner) };

    /// Removes the pointer's cell, and frees its slot; a slot whose cell had the last generation is
    /// retired instead. The last reference to a shared value removes the value too, and frees or retires
    /// its slot. For a pointer without a live cell of this store, the call returns Ok and changes
    /// nothing.
    ///
    /// # Errors
    ///
    /// If the value would be removed and is borrowed: `AlreadyBorrowedMut` with the writer's location, or
    /// `AlreadyBorrowed` with the readers' locations in order, or `OutOfMemory` instead if that list
    /// can't be allocated. So a borrow of a shared value matters only for the removal of its last
    /// reference.
    ///
    /// A call that fails changes nothing, and nothing else allocates.
    fn recycle(&mut self, pointer: GenerationalPointer) -> BorrowMutResult<()>
        ensures { Meets (state self.old) (End pointer) (end_answer result) (state self.new) };

    // ---- What only the shared store calls.

    /// Whether no borrow would make the call fail. A read, or an insertion of a reference, needs that
    /// there is no writer; a write, or a `set`, that there is no borrow; a removal of a box or of an
    /// owner's boxes, and a reference that is pointed elsewhere, that no value which would be dropped is
    /// borrowed. Doesn't allocate.
    fn ready(&self, call: &StepCall) -> bool
        ensures { result ≡ is_ready (state self.now) call.now };

    /// Whether no borrow would make the owner's release fail. The owner's hint finds its record at once;
    /// `ready` has to search all records. Doesn't allocate.
    fn may_release(&self, owner: &Owner) -> bool
        ensures { result ≡ meets_no_borrow (state self.now) (ReleaseOwner owner.now) };

    /// What the pointer's own cell refers to, exactly if that is a live reference of this store. Doesn't
    /// allocate.
    fn target(&self, pointer: GenerationalPointer) -> Option<GenerationalBoxId>
        ensures { result ≡ target_of (state self.now) pointer };

    /// What the store has, without values, in rows: its slots, ascending, and after each slot its live
    /// cell, with that cell's borrows in the order in which they began; then the records of owners by
    /// their keys, and after each the boxes of its list in order of insertion. If generations begin at 1,
    /// the rows, the number, the next ticket and the peak determine the store's state without values.
    ///
    /// It changes nothing, and takes time and memory for each slot, each borrow, each record of an owner
    /// and each box of these lists. The only possible error is `OutOfMemory`.
    fn rows(&self) -> Result<Vec<BaseRow>, StoreError>
        ensures rows { IfOk result (λ rows. rows.items ≡ rows_of (state self.now)) }
        ensures back { IfOk result (λ rows. ReadBack (state self.now) rows.items) }
        ensures refusal { IfErr result (λ error. error ≡ OutOfMemory) };

    /// The state of a store is sound at any time.
    ghost sound: { (s : Self) → IsSound (state s) };

    /// The number of slots is at most the peak number of live cells plus the number of retired slots, and
    /// each live name is the last of its slot. So each slot is live, free or retired.
    ghost bounded: { (s : Self) → IsBounded (state s) };
}

/// What a store of values of one type does with values.
pub trait Storage<T>: AnyStorage<T> {
    /// Makes a cell of a value, under a name that was never issued before. With an owner, the name is
    /// added at the end of the owner's list.
    ///
    /// # Errors
    ///
    /// - `UnknownOwner` if the store has no record of the owner.
    /// - `OutOfMemory` only if no slot is free or the owner's list has no room.
    ///
    /// With each error the value comes back, and nothing changes.
    fn new(
        &mut self,
        value: T,
        location: Location,
        owner: Option<&Owner>,
    ) -> Result<GenerationalPointer, Refusal<T>>
        ensures step { Meets (Self.state self.old) (Make (option_copied owner.entry) value location)
            (make_answer result) (Self.state self.new) }
        ensures back { IfErr result (λ refusal. refusal.value ≡ value) };

    /// Makes a shared value, and a first reference to it, each under a name that was never issued before,
    /// and returns the reference's pointer. With an owner, the reference's name is added at the end of
    /// the owner's list. The value takes a slot, and the reference takes another. A shared value lives as
    /// long as there is a live reference to it.
    ///
    /// # Errors
    ///
    /// - `UnknownOwner` if the store has no record of the owner.
    /// - `OutOfMemory` only if fewer than two slots are free or the owner's list has no room.
    ///
    /// With each error the value comes back, and nothing changes.
    fn new_rc(
        &mut self,
        value: T,
        location: Location,
        owner: Option<&Owner>,
    ) -> Result<GenerationalPointer, Refusal<T>>
        ensures step { Meets (Self.state self.old)
            (MakeShared (option_copied owner.entry) value location) (make_answer result)
            (Self.state self.new) }
        ensures back { IfErr result (λ refusal. refusal.value ≡ value) };

    /// Makes a reference to the shared value that a pointer refers to, under a name that was never issued
    /// before, with the value's location. It refers to the value itself, never to another reference. With
    /// an owner, its name is added at the end of the owner's list.
    ///
    /// # Errors
    ///
    /// - `UnknownOwner` if the store has no record of the owner.
    /// - `Dropped` with the pointer's own location if it refers to no value.
    /// - `AlreadyBorrowedMut` with the writer's location if the value is being written.
    /// - `Dropped` with the pointer's own location if it refers to a value that isn't shared.
    /// - `OutOfMemory` only if no slot is free or the owner's list has no room.
    ///
    /// A call that fails changes nothing.
    fn new_reference(
        &mut self,
        inner: GenerationalPointer,
        owner: Option<&Owner>,
    ) -> BorrowResult<GenerationalPointer>
        ensures { Meets (Self.state self.old) (Refer (option_copied owner.entry) inner)
            (reference_answer result) (Self.state self.new) };

    /// Points a reference to the shared value that another pointer refers to. The value that it referred
    /// to before is removed if this was the last live reference to it. The reference keeps its name and
    /// its location.
    ///
    /// The result, in the order in which it is found:
    /// 1. Ok if both pointers have the same id, even if its cell was removed: nothing changes.
    /// 2. `Dropped` with the other's own location if that refers to no value; `AlreadyBorrowedMut` with
    ///    the writer's location if the value that it refers to is being written.
    /// 3. `Dropped` with the pointer's own location if it has no live cell of this store.
    /// 4. `Dropped` with the location of the value that the other refers to, if the pointer is no
    ///    reference's or that value isn't shared.
    /// 5. Ok if the reference refers to that value already: nothing changes.
    /// 6. `AlreadyBorrowedMut` with the writer's location, or `AlreadyBorrowed` with the readers'
    ///    locations in order, if the value that it referred to would be removed and is borrowed;
    ///    `OutOfMemory` instead of `AlreadyBorrowed` if that list can't be allocated.
    /// 7. Ok: the reference refers to the other value from then on.
    ///
    /// A call that fails changes nothing, and nothing else allocates.
    fn change_reference(
        &mut self,
        pointer: GenerationalPointer,
        other: GenerationalPointer,
    ) -> BorrowMutResult<()>
        ensures { Meets (Self.state self.old) (Point pointer other) (end_answer result)
            (Self.state self.new) };

    /// Borrows the value that a pointer refers to, without a guard, a ticket or a location. None if there
    /// is no such value, or it is being written. Doesn't allocate.
    fn peek(&self, pointer: GenerationalPointer) -> Option<&T>
        ensures { option_copied result ≡ value_in (Self.state self.now) pointer };

    /// Begins a read of the value that a pointer refers to: its own, or a reference's shared value.
    ///
    /// # Errors
    ///
    /// - `Dropped` with the pointer's own location if it refers to no value.
    /// - `AlreadyBorrowedMut` with the writer's location if the value is being written.
    /// - `NumbersExhausted` if the tickets are used up.
    /// - `OutOfMemory` only if the value has another reader.
    ///
    /// A call that fails changes nothing.
    fn try_read(
        &mut self,
        pointer: GenerationalPointer,
        location: Location,
    ) -> BorrowResult<GenerationalRef<T>>
        ensures { Meets (Self.state self.old) (Read pointer location) (read_answer result)
            (Self.state self.new) };

    /// The value of a reader's guard, exactly if the store knows the guard.
    fn open(&self, guard: &GenerationalRef<T>) -> Option<&T>
        ensures { option_copied result ≡ value_behind (Self.state self.now) guard.now };

    /// Begins a write of the value that a pointer refers to: its own, or a reference's shared value. The
    /// value moves from its cell into the guard.
    ///
    /// # Errors
    ///
    /// - `Dropped` with the pointer's own location if it refers to no value.
    /// - `AlreadyBorrowedMut` with the writer's location if the value is being written.
    /// - `AlreadyBorrowed` with the readers' locations, in the order in which they began, if the value is
    ///   being read; or `OutOfMemory` instead if that list can't be allocated.
    /// - `NumbersExhausted` if the tickets are used up.
    ///
    /// A call that fails changes nothing, and nothing else allocates.
    fn try_write(
        &mut self,
        pointer: GenerationalPointer,
        location: Location,
    ) -> BorrowMutResult<GenerationalRefMut<T>>
        ensures { Meets (Self.state self.old) (Write pointer location) (write_answer result)
            (Self.state self.new) };

    /// Ends a write, and puts the guard's value back into the cell. If the store doesn't know the guard,
    /// the value comes back and nothing changes. Doesn't allocate.
    fn release_write(&mut self, guard: GenerationalRefMut<T>) -> Result<(), T>
        ensures { Meets (Self.state self.old) (ReleaseWriter guard.guard guard.value)
            (back_answer result) (Self.state self.new) };

    /// Replaces the value that the pointer refers to, which isn't borrowed (see `can_write`), and returns
    /// the old one. No ticket is used. Doesn't allocate.
    fn replace_value(&mut self, pointer: GenerationalPointer, value: T) -> T
        requires { can_write (Self.state self.old) pointer ≡ true }
        ensures { Meets (Self.state self.old) (SetValue pointer value) (Old result)
            (Self.state self.new) };

    /// Calls a closure once on the value that the pointer refers to, mutably; the value isn't borrowed
    /// (see `can_write`). Returns the closure's result. No ticket is used, and the value isn't moved.
    /// Doesn't allocate itself.
    fn change_value<R, F: FnOnce(&mut T) -> R>(&mut self, pointer: GenerationalPointer, f: F) -> R
        requires free { can_write (Self.state self.old) pointer ≡ true }
        requires callable { (value : MutBor T) →
            value_in (Self.state self.old) pointer ≡ Some value.now → F.pre f value }
        ensures { Changes F.FnOnce f (Self.state self.old) pointer result (Self.state self.new) };

    /// Removes the pointer's cell and returns its value, exactly if that value isn't shared and isn't
    /// borrowed. `None` otherwise, and nothing changes. Doesn't allocate.
    fn take_value(&mut self, pointer: GenerationalPointer) -> Option<T>
        ensures value { result ≡ value_to_take (Self.state self.old) pointer }
        ensures ended { IfSome result (λ value. Meets (Self.state self.old) (End pointer) Done
            (Self.state self.new)) }
        ensures none { IfNone result (Self.state self.new ≡ Self.state self.old) };

    /// Ends a read. Returns whether the store knew the guard; if it didn't, nothing changes. Doesn't
    /// allocate.
    fn release_read(&mut self, guard: GenerationalRef<T>) -> bool
        ensures { Meets (Self.state self.old) (ReleaseReader guard) (Flag result)
            (Self.state self.new) };
}
