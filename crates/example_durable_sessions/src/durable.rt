//! Sessions in memory and in a file.

ghost use Rattle.std.specs.Prelude.{◌≡◌, ◌∷◌, [], ℕ, pos, false, None, Some, IfOk, IsTrue, OnOk, is_some, not, nat_eq, option_map};
ghost use Rattle.std.specs.Prelude.{map as list_map};
ghost use Rattle.std.specs.Map.{lookup};
ghost use Rattle.example_durable_sessions.specs.Files.{HasRun, IsAtomic, KeepsOthers, session_of};
ghost use Rattle.example_durable_sessions.specs.Files.{login_text, logout_text, put_text, touch_text};
ghost use Rattle.example_saving.specs.Logins.{seen_at, told_row};
ghost use Rattle.generational_core.specs.Conditions.{IsFresh};
ghost use Rattle.session_table.specs.Sessions.{begun, used};
ghost use Rattle.session_table.specs.Tables.{value_under};
ghost use Rattle.sqlite.specs.declared.types.Value.TheVariants.{Int};

use crate::statements::{
    delete_session, insert_entry, insert_session, make_tables, read_sessions, update_session,
};
use anyhow::{Result, bail};
use example_saving::{SessionRow, log_in_again, session_rows};
use generational_box::{Location, Storage};
use session_table::SessionTable;
use sqlite::{Alter, Connection};
use std::alloc::{AllocError, Global};

/// Sessions under ids, with their values under keys. A call that returns `Ok` has been committed to the
/// file. After an error, open the file again: it may have what the sessions in memory lack.
///
/// It has no `Drop`: `close` must consume it.
pub struct DurableSessions<D: Alter, S: Storage<u64>> {
    conn: Connection<D>,
    table: SessionTable<u64, u64, u64, S>,
}

// Where values are put, as their handles say.
fn here() -> Location {
    Location::new("durable.rt", 1, 1)
}

// Stores a value in memory. Fails if the id has no session, if the key is in use, or if memory runs out.
#[tactic(auto, using(crate::proofs::Storing::value_stored))]
fn keep<S: Storage<u64>>(
    table: &mut SessionTable<u64, u64, u64, S>,
    id: u64,
    key: u64,
    value: u64,
) -> Result<()>
    ensures stored { OnOk result (value_under (nat_eq id) (nat_eq key) table.new ≡ Some value) }
    ensures others { KeepsOthers id table.old table.new }
{
    match table.put(&id, key, value, here()) {
        Ok(_) => Ok(()),
        Err(refusal) => Err(refusal.into()),
    }
}

// The sessions of rows, with new handles. Fails if memory runs out, or if an id or a key is there twice.
fn logged_in<S: Storage<u64> + Drop>(
    alloc: Global,
    store: S,
    rows: &[SessionRow],
) -> Result<SessionTable<u64, u64, u64, S>>
    requires { IsFresh (S.state store) }
    ensures { IfOk result (λ table. (id : ℕ) →
        seen_at nat_eq table id ≡ lookup (nat_eq id) (list_map told_row rows.now)) }
{
    let mut table = SessionTable::new(alloc, store);
    if log_in_again(&mut table, rows, here()) {
        return Ok(table);
    }
    drop(table.finish());
    bail!("the sessions of the file can't be logged in again")
}

// The sessions of a database, which has its tables then.
fn load<D: Alter, S: Storage<u64> + Drop>(
    alloc: Global,
    conn: &mut Connection<D>,
    store: S,
) -> Result<SessionTable<u64, u64, u64, S>>
    requires { IsFresh (S.state store) }
{
    make_tables(conn)?;
    let rows = read_sessions(alloc, conn)?;
    logged_in(alloc, store, &rows)
}

impl<D: Alter, S: Storage<u64> + Drop> DurableSessions<D, S> {
    /// The sessions that a database has, over a fresh store. Each value has a new handle.
    ///
    /// # Errors
    ///
    /// Fails if the database can't be read or written, or if memory runs out. The connection comes back.
    pub fn open(
        alloc: Global,
        mut conn: Connection<D>,
        store: S,
    ) -> Result<Self, (anyhow::Error, Connection<D>)>
        requires { IsFresh (S.state store) }
    {
        match load(alloc, &mut conn, store) {
            Ok(table) => Ok(DurableSessions { conn, table }),
            Err(error) => Err((error, conn)),
        }
    }

    /// Drops the sessions in memory, and returns the connection.
    pub fn close(self) -> Connection<D> {
        let DurableSessions { conn, table } = self;
        drop(table.finish());
        conn
    }
}

impl<D: Alter, S: Storage<u64>> DurableSessions<D, S> {
    /// Starts an empty session for an id, last used at `now`. Returns false if the id has a session: nothing
    /// changes then.
    pub fn login(&mut self, id: u32, now: u32) -> Result<bool>
        ensures written { IfOk result (λ is_done. IsTrue is_done →
            HasRun D.Store login_text (Int (pos id) ∷ Int (pos now) ∷ []) self.old.conn self.new.conn) }
        ensures atomic { IsAtomic D.Store login_text (Int (pos id) ∷ Int (pos now) ∷ []) self.old.conn self.new.conn }
        ensures new { IfOk result (λ is_done. is_done ≡ not (is_some (session_of self.old.table id))) }
        ensures began { IfOk result (λ is_done. IsTrue is_done → session_of self.new.table id ≡ Some (begun now)) }
        ensures others { KeepsOthers id self.old.table self.new.table }
        ensures unchanged { IfOk result (λ is_done. is_done ≡ false → self.new ≡ self.old) }
    {
        if self.table.has(&u64::from(id)) {
            return Ok(false);
        }
        insert_session(&mut self.conn, id, now)?;
        self.table.login(u64::from(id), u64::from(now))?;
        Ok(true)
    }

    /// Stores a value under a key in an id's session. Returns false if the id has no session, or if it has a
    /// value under the key: nothing changes then.
    pub fn put(&mut self, id: u32, key: u32, value: u32) -> Result<bool>
        ensures written { IfOk result (λ is_done. IsTrue is_done →
            HasRun D.Store put_text (Int (pos id) ∷ Int (pos key) ∷ Int (pos value) ∷ []) self.old.conn self.new.conn) }
        ensures atomic { IsAtomic D.Store put_text (Int (pos id) ∷ Int (pos key) ∷ Int (pos value) ∷ []) self.old.conn self.new.conn }
        ensures stored { IfOk result (λ is_done. IsTrue is_done →
            value_under (nat_eq id) (nat_eq key) self.new.table ≡ Some value) }
        ensures others { KeepsOthers id self.old.table self.new.table }
        ensures unchanged { IfOk result (λ is_done. is_done ≡ false → self.new ≡ self.old) }
    {
        if !self.table.has(&u64::from(id)) || self.get(id, key).is_some() {
            return Ok(false);
        }
        insert_entry(&mut self.conn, id, key, value)?;
        keep(
            &mut self.table,
            u64::from(id),
            u64::from(key),
            u64::from(value),
        )?;
        Ok(true)
    }

    /// The value that an id's session has under a key, if it has one.
    pub fn get(&self, id: u32, key: u32) -> Option<u64>
        ensures { result ≡ value_under (nat_eq id) (nat_eq key) self.now.table }
    {
        self.table.get_at(&u64::from(id), &u64::from(key)).copied()
    }

    /// Sets the time of a session's last use. Returns false if the id has no session: nothing changes then.
    pub fn touch(&mut self, id: u32, now: u32) -> Result<bool>
        ensures written { IfOk result (λ is_done. IsTrue is_done →
            HasRun D.Store touch_text (Int (pos id) ∷ Int (pos now) ∷ []) self.old.conn self.new.conn) }
        ensures atomic { IsAtomic D.Store touch_text (Int (pos id) ∷ Int (pos now) ∷ []) self.old.conn self.new.conn }
        ensures had { IfOk result (λ is_done. is_done ≡ is_some (session_of self.old.table id)) }
        ensures used { OnOk result (session_of self.new.table id ≡ option_map (used now) (session_of self.old.table id)) }
        ensures others { KeepsOthers id self.old.table self.new.table }
        ensures unchanged { IfOk result (λ is_done. is_done ≡ false → self.new ≡ self.old) }
    {
        if !self.table.has(&u64::from(id)) {
            return Ok(false);
        }
        update_session(&mut self.conn, id, now)?;
        Ok(self.table.touch(&u64::from(id), u64::from(now)))
    }

    /// Ends an id's session, with its values. Returns false if the id has no session: nothing changes then.
    pub fn logout(&mut self, id: u32) -> Result<bool>
        ensures written { IfOk result (λ is_done. IsTrue is_done →
            HasRun D.Store logout_text (Int (pos id) ∷ []) self.old.conn self.new.conn) }
        ensures atomic { IsAtomic D.Store logout_text (Int (pos id) ∷ []) self.old.conn self.new.conn }
        ensures had { IfOk result (λ is_done. is_done ≡ is_some (session_of self.old.table id)) }
        ensures ended { OnOk result (session_of self.new.table id ≡ None) }
        ensures others { KeepsOthers id self.old.table self.new.table }
        ensures unchanged { IfOk result (λ is_done. is_done ≡ false → self.new ≡ self.old) }
    {
        if !self.table.has(&u64::from(id)) {
            return Ok(false);
        }
        delete_session(&mut self.conn, id)?;
        Ok(self.table.logout(&u64::from(id)))
    }

    /// The sessions as rows.
    pub fn rows(&self, alloc: Global) -> Result<Vec<SessionRow>, AllocError> {
        session_rows(alloc, &self.table)
    }
}
