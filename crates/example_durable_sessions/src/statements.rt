//! The statements on the file: each function runs one, which is committed when it returns.

ghost use Rattle.std.specs.Prelude.{pos, [], ◌∷◌};
ghost use Rattle.example_durable_sessions.specs.Files.{login_text, logout_text, put_text, touch_text};
ghost use Rattle.sqlite.specs.Held.{state};
ghost use Rattle.sqlite.specs.State.{CommitsBy, Executes, HasCleanDisk, Survives};
ghost use Rattle.sqlite.specs.declared.types.Value.TheVariants.{Int};

use anyhow::Result;
use example_saving::SessionRow;
use sqlite::{Alter, Connection, Error, Row, params};
use std::alloc::Global;

const SESSIONS: &str =
    "CREATE TABLE IF NOT EXISTS session (id INTEGER PRIMARY KEY, used_at INTEGER NOT NULL) STRICT";

const ENTRIES: &str =
    "CREATE TABLE IF NOT EXISTS entry (session INTEGER NOT NULL REFERENCES session (id) ON DELETE CASCADE, key INTEGER NOT NULL, value INTEGER NOT NULL, PRIMARY KEY (session, key)) STRICT";

/// Makes the tables that the file lacks.
pub fn make_tables<D: Alter>(conn: &mut Connection<D>) -> Result<(), Error> {
    conn.execute(SESSIONS, &[])?;
    conn.execute(ENTRIES, &[])?;
    Ok(())
}

/// The sessions in the file, with their values in the order in which they were put.
pub fn read_sessions<D: Alter>(alloc: Global, conn: &mut Connection<D>) -> Result<Vec<SessionRow>> {
    let mut rows = Vec::new(alloc);
    for row in &conn.query_all("SELECT id, used_at FROM session ORDER BY id", &[])? {
        rows.push(read_session(alloc, conn, row)?)?;
    }
    Ok(rows)
}

fn read_session<D: Alter>(
    alloc: Global,
    conn: &mut Connection<D>,
    row: &Row,
) -> Result<SessionRow> {
    let id: u32 = row.get(0)?;
    Ok(SessionRow {
        id: u64::from(id),
        used_at: row.get(1)?,
        values: read_values(alloc, conn, id)?,
    })
}

fn read_values<D: Alter>(
    alloc: Global,
    conn: &mut Connection<D>,
    id: u32,
) -> Result<Vec<(u64, u64)>> {
    let mut values = Vec::new(alloc);
    for row in &conn.query_all(
        "SELECT key, value FROM entry WHERE session = ?1 ORDER BY rowid",
        params![id],
    )? {
        values.push((row.get(0)?, row.get(1)?))?;
    }
    Ok(values)
}

/// Adds a session.
pub fn insert_session<D: Alter>(
    conn: &mut Connection<D>,
    id: u32,
    used_at: u32,
) -> Result<usize, Error>
    ensures runs { HasCleanDisk (state D.Store conn.new) →
        Executes login_text (Int (pos id) ∷ Int (pos used_at) ∷ []) (state D.Store conn.old) (state D.Store conn.new) result }
    ensures survives { Survives (state D.Store conn.old) (state D.Store conn.new)
        (CommitsBy login_text (Int (pos id) ∷ Int (pos used_at) ∷ []) (state D.Store conn.old)) }
{
    conn.execute(
        "INSERT INTO session (id, used_at) VALUES (?1, ?2)",
        params![id, used_at],
    )
}

/// Adds a value to a session.
pub fn insert_entry<D: Alter>(
    conn: &mut Connection<D>,
    id: u32,
    key: u32,
    value: u32,
) -> Result<usize, Error>
    ensures runs { HasCleanDisk (state D.Store conn.new) →
        Executes put_text (Int (pos id) ∷ Int (pos key) ∷ Int (pos value) ∷ []) (state D.Store conn.old) (state D.Store conn.new) result }
    ensures survives { Survives (state D.Store conn.old) (state D.Store conn.new)
        (CommitsBy put_text (Int (pos id) ∷ Int (pos key) ∷ Int (pos value) ∷ []) (state D.Store conn.old)) }
{
    conn.execute(
        "INSERT INTO entry (session, key, value) VALUES (?1, ?2, ?3)",
        params![id, key, value],
    )
}

/// Sets the time of a session's last use.
pub fn update_session<D: Alter>(
    conn: &mut Connection<D>,
    id: u32,
    used_at: u32,
) -> Result<usize, Error>
    ensures runs { HasCleanDisk (state D.Store conn.new) →
        Executes touch_text (Int (pos id) ∷ Int (pos used_at) ∷ []) (state D.Store conn.old) (state D.Store conn.new) result }
    ensures survives { Survives (state D.Store conn.old) (state D.Store conn.new)
        (CommitsBy touch_text (Int (pos id) ∷ Int (pos used_at) ∷ []) (state D.Store conn.old)) }
{
    conn.execute(
        "UPDATE session SET used_at = ?2 WHERE id = ?1",
        params![id, used_at],
    )
}

/// Removes a session with its values.
pub fn delete_session<D: Alter>(conn: &mut Connection<D>, id: u32) -> Result<usize, Error>
    ensures runs { HasCleanDisk (state D.Store conn.new) →
        Executes logout_text (Int (pos id) ∷ []) (state D.Store conn.old) (state D.Store conn.new) result }
    ensures survives { Survives (state D.Store conn.old) (state D.Store conn.new)
        (CommitsBy logout_text (Int (pos id) ∷ []) (state D.Store conn.old)) }
{
    conn.execute("DELETE FROM session WHERE id = ?1", params![id])
}
