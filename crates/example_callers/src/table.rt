//! A user's own table, over a store of boxes.

ghost use Rattle.std.specs.Prelude.{◌≡◌, ◌≤◌, ◌+◌, ◌-◌, [], ◌∷◌, ◌++◌, length, None, Some, is_some};
ghost use Rattle.std.specs.Prelude.{IfOk, OnOk, IfErr, OnErr, slice_index_or, slice_set};
ghost use Rattle.generational_core.specs.Steps.{last_ticket};
ghost use Rattle.generational_errors.specs.declared.error.StoreError.TheVariants.{NumbersExhausted};
ghost use Rattle.generational_errors.specs.declared.error.StoreError.TheVariants.{OutOfMemory};

use generational_box::{GenerationalBox, Location, Refusal, Storage, StoreError};
use std::alloc::Global;
use std::marker::Model;

/// Values in numbered rows, in a store. Contracts model it as the list of the rows, each with its value,
/// or none once it was removed; and how many more values can surely be read.
#[derive(Drop)]
pub struct Table<T, S: Storage<T>> {
    store: S,
    rows: Vec<Option<GenerationalBox<T>>>,
}

impl<T, S: Storage<T>> Model for Table<T, S> {
    ghost use Rattle.std.specs.Prelude.{◌-◌};
    ghost use Rattle.generational_core.specs.Steps.{last_ticket};
    ghost use Rattle.generational_laws.specs.BoxRows.{values_in, AreRowsKept};
    ghost use Rattle.example_callers.specs.Table.{RowsState};

    ghost Value = { RowsState T };

    ghost view = { λ t. record {
      rows = values_in (S.state t.store) t.rows.items;
      looks = last_ticket - (S.state t.store).next;
    } };

    ghost invariant = { λ t. AreRowsKept (S.state t.store) t.rows.items };
}

impl<T, S: Storage<T>> Table<T, S> {
    /// A table without rows, over a store.
    pub fn new(alloc: Global, store: S) -> Self
        ensures rows { result.rows ≡ [] }
        ensures looks { result.looks ≡ last_ticket - (S.state store).next }
    {
        Table {
            store,
            rows: Vec::new(alloc),
        }
    }

    /// Stores a value in a new row at the end, and returns the row's number.
    ///
    /// # Errors
    ///
    /// `OutOfMemory` only: the value comes back, and the table is unchanged.
    pub fn insert(&mut self, value: T, here: Location) -> Result<usize, Refusal<T>>
        ensures row { IfOk result (λ row. row ≡ length self.old.rows) }
        ensures ok { OnOk result
            (self.new ≡ record self.old { rows = self.old.rows ++ Some value ∷ [] }) }
        ensures err { OnErr result (self.new ≡ self.old) }
        ensures back { IfErr result (λ refusal. refusal.value ≡ value) }
        ensures cause { IfErr result (λ refusal. refusal.cause ≡ OutOfMemory) }
    {
        if self.rows.reserve(1).is_err() {
            let cause = StoreError::OutOfMemory;
            return Err(Refusal { value, cause });
        }
        let made = GenerationalBox::leak(&mut self.store, value, here)?;
        let row = self.rows.len();
        self.rows.push_reserved(Some(made));
        Ok(row)
    }

    /// A copy of a row's value. None if the row is empty or was never issued. The rows are unchanged in
    /// each case, and at most one look is used.
    ///
    /// # Errors
    ///
    /// `NumbersExhausted` only, if the looks are used up; the table is unchanged then.
    pub fn get(&mut self, row: usize, here: Location) -> Result<Option<T>, StoreError>
    where
        T: Copy,
        ensures value { IfOk result (λ seen. seen ≡ slice_index_or self.old.rows row None) }
        ensures same { self.new.rows ≡ self.old.rows }
        ensures looks { self.old.looks ≤ self.new.looks + 1 }
        ensures cause { IfErr result (λ cause. cause ≡ NumbersExhausted) }
        ensures err { OnErr result ((self.old.looks ≡ 0) × (self.new ≡ self.old)) }
    {
        let Some(target) = box_in(&self.rows, row) else {
            return Ok(None);
        };
        let guard = match target.read(&mut self.store, here) {
            Ok(guard) => guard,
            Err(cause) => return Err(cause),
        };
        let seen = guard.deref(&self.store).map(|view| *view);
        guard.release(&mut self.store);
        Ok(seen)
    }

    /// Drops a row's value, and empties the row. Returns whether it had a value. Never fails: no borrow
    /// outlives a call of the table.
    pub fn remove(&mut self, row: usize) -> bool
        ensures had { result ≡ is_some (slice_index_or self.old.rows row None) }
        ensures removed { self.new ≡ record self.old { rows = slice_set self.old.rows row None } }
    {
        let Some(target) = box_in(&self.rows, row) else {
            return false;
        };
        match target.manually_drop(&mut self.store) {
            Ok(()) => self.rows[row] = None,
            Err(_) => unreachable!(),
        }
        true
    }
}

// The box of a row, if it has one.
fn box_in<T>(rows: &Vec<Option<GenerationalBox<T>>>, row: usize) -> Option<GenerationalBox<T>>
    ensures { result ≡ slice_index_or rows.now.items row None }
{
    match rows.get(row) {
        Some(found) => *found,
        None => None,
    }
}
