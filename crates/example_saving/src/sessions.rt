//! Sessions that are saved as rows, and logged in again from them.

ghost use Rattle.std.specs.Prelude.{◌≡◌, ◌∷◌, [], ℕ, false, None, Some, IfOk, IsTrue, nat_eq, option_map, map as list_map};
ghost use Rattle.std.specs.Map.{lookup};
ghost use Rattle.example_saving.specs.Logins.{AllPut, seen_at, seen_rows, told_row, values_of_entries, with_values};

use generational_box::{Location, Storage};
use session_table::{Session, SessionTable};
use std::alloc::{AllocError, Global};

/// A session as plain data: its id, the time of its last use, and its values with their keys.
#[derive(Drop)]
pub struct SessionRow {
    /// The id.
    pub id: u64,
    /// The time of its last use.
    pub used_at: u64,
    /// Its values with their keys, in the order of its entries.
    pub values: Vec<(u64, u64)>,
}

/// The sessions of a table as rows, in order.
///
/// # Errors
///
/// Fails if memory runs out.
pub fn session_rows<S: Storage<u64>>(
    alloc: Global,
    table: &SessionTable<u64, u64, u64, S>,
) -> Result<Vec<SessionRow>, AllocError>
    ensures { IfOk result (λ rows. list_map told_row rows.items ≡ seen_rows table.now) }
{
    let mut rows = Vec::new(alloc);
    for (id, session) in table.sessions() {
        let values = session_values(alloc, table, session)?;
        rows.push(SessionRow {
            id: *id,
            used_at: session.used_at(),
            values,
        })?;
    }
    Ok(rows)
}

// The values of a session with their keys.
fn session_values<S: Storage<u64>>(
    alloc: Global,
    table: &SessionTable<u64, u64, u64, S>,
    session: &Session<u64, u64>,
) -> Result<Vec<(u64, u64)>, AllocError>
    ensures { IfOk result (λ values. values.items ≡ values_of_entries table.now session.now.entries.entries) }
{
    let mut values = Vec::new(alloc);
    for (key, entry) in session.entries() {
        if let Ok(value) = table.get(entry) {
            values.push((*key, *value))?;
        }
    }
    Ok(values)
}

/// Starts the sessions of rows in a table without sessions, and puts their values. Each session is as its
/// row says. False if two rows have the same id, if a row has two values under one key, or if memory runs
/// out.
pub fn log_in_again<S: Storage<u64>>(
    table: &mut SessionTable<u64, u64, u64, S>,
    rows: &[SessionRow],
    here: Location,
) -> bool
    requires { table.old.sessions ≡ [] }
    ensures { IsTrue result → (id : ℕ) →
        seen_at nat_eq table.new id ≡ lookup (nat_eq id) (list_map told_row rows.now) }
{
    let mut left = rows;
    while let Some((row, rest)) = left.split_first() {
        if !log_in(table, row, here) {
            return false;
        }
        left = rest;
    }
    true
}

// Puts values into a session. False if one's key is in use, or if memory runs out.
fn put_values<S: Storage<u64>>(
    table: &mut SessionTable<u64, u64, u64, S>,
    id: u64,
    values: &[(u64, u64)],
    here: Location,
) -> bool
    requires own { AllPut nat_eq table.old }
    ensures own { AllPut nat_eq table.new }
    ensures put { IsTrue result → seen_at nat_eq table.new id
        ≡ option_map (with_values values.now) (seen_at nat_eq table.old id) }
    ensures others { (other : ℕ) → nat_eq id other ≡ false →
        seen_at nat_eq table.new other ≡ seen_at nat_eq table.old other }
{
    let mut left = values;
    while let Some((pair, rest)) = left.split_first() {
        let (key, value) = *pair;
        if !put_value(table, id, key, value, here) {
            return false;
        }
        left = rest;
    }
    true
}

// Puts a value into a session. False if its key is in use, or if memory runs out.
fn put_value<S: Storage<u64>>(
    table: &mut SessionTable<u64, u64, u64, S>,
    id: u64,
    key: u64,
    value: u64,
    here: Location,
) -> bool
    requires own { AllPut nat_eq table.old }
    ensures own { AllPut nat_eq table.new }
    ensures put { IsTrue result → seen_at nat_eq table.new id
        ≡ option_map (with_values ((key, value) ∷ [])) (seen_at nat_eq table.old id) }
    ensures others { (other : ℕ) → nat_eq id other ≡ false →
        seen_at nat_eq table.new other ≡ seen_at nat_eq table.old other }
{
    match table.put(&id, key, value, here) {
        Ok(_) => true,
        Err(_) => false,
    }
}

// Starts a session, and puts its values. False if the id has a session, if two values have the same key,
// or if memory runs out.
fn log_in<S: Storage<u64>>(
    table: &mut SessionTable<u64, u64, u64, S>,
    row: &SessionRow,
    here: Location,
) -> bool
    requires own { AllPut nat_eq table.old }
    ensures own { AllPut nat_eq table.new }
    ensures none { IsTrue result → seen_at nat_eq table.old row.now.id ≡ None }
    ensures here { IsTrue result → seen_at nat_eq table.new row.now.id
        ≡ Some (row.now.used_at, row.now.values.items) }
    ensures others { (other : ℕ) → nat_eq row.now.id other ≡ false →
        seen_at nat_eq table.new other ≡ seen_at nat_eq table.old other }
{
    match table.login(row.id, row.used_at) {
        Ok(()) => put_values(table, row.id, &row.values, here),
        Err(_) => false,
    }
}

/// Saves the sessions of a table as rows, and logs them in again in another that has none. Each id has a
/// session as before: with the time of its last use, and with its values under their keys.
pub fn sessions_again<S: Storage<u64>>(
    alloc: Global,
    table: &SessionTable<u64, u64, u64, S>,
    other: &mut SessionTable<u64, u64, u64, S>,
    here: Location,
) -> bool
    requires { other.old.sessions ≡ [] }
    ensures { IsTrue result → (id : ℕ) → seen_at nat_eq other.new id ≡ seen_at nat_eq table.now id }
{
    match session_rows(alloc, table) {
        Ok(rows) => log_in_again(other, &rows, here),
        Err(_) => false,
    }
}
