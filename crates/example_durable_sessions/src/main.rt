//! Sessions that outlive the process: `example_durable_sessions FILE` reads commands from standard input,
//! one a line, and replies to each when the file has what it did. Killed at any point, it is started again
//! on the same file, and has each session and each value of the commands that were replied to.
//!
//! - `login ID TIME` starts a session: `ok`, or `no` if the id has one
//! - `put ID KEY VALUE` stores a value: `ok`, or `no` if the id has no session or the key has a value
//! - `get ID KEY`: the value, or `none`
//! - `touch ID TIME` sets the time of the last use, and `logout ID` ends a session: `ok`, or `no` if the id
//!   has none
//! - `list`: each session with its values, and how many sessions there are
//!
//! Ids, keys, values and times are numbers below 2^32. Any other line is replied to with `not understood`.
//! If the file can't be written or memory runs out, the program ends with status 1.
#![tactic(auto)]

mod commands;
mod durable;
mod statements;

ghost use Rattle.generational_core.specs.Conditions.{IsFresh};

use crate::commands::reply;
use crate::durable::DurableSessions;
use anyhow::{Result, bail};
use generational_box::{Storage, UnsyncStorage};
use sqlite::{Alter, Connection, File, FileStore};
use std::env;

fn main(rt: HostRuntime) -> Result<()> {
    let conn = open_file(&rt)?;
    let (conn, served) = serve_from_memory(&rt, conn);
    conn.close()?;
    served
}

// The database of the file that the argument names.
fn open_file(rt: &HostRuntime) -> Result<Connection<FileStore<File>>> {
    match env::args(rt)?.nth(1) {
        Some(path) => Ok(Connection::open(rt, path.as_str())?),
        None => bail!("the argument is the file of the sessions"),
    }
}

fn serve_from_memory<D: Alter, R: Input + Print + AllocGlobal>(
    rt: &R,
    conn: Connection<D>,
) -> (Connection<D>, Result<()>) {
    serve(rt, conn, UnsyncStorage::new(rt.alloc(), 1))
}

// Replies to the lines of standard input, over the sessions of a database. The connection comes back.
fn serve<D: Alter, S: Storage<u64> + Drop, R: Input + Print + AllocGlobal>(
    rt: &R,
    conn: Connection<D>,
    store: S,
) -> (Connection<D>, Result<()>)
    requires { IsFresh (S.state store) }
{
    match DurableSessions::open(rt.alloc(), conn, store) {
        Ok(mut sessions) => {
            let served = reply_to_each(rt, &mut sessions);
            (sessions.close(), served)
        }
        Err((error, conn)) => (conn, Err(error)),
    }
}

fn reply_to_each<D: Alter, S: Storage<u64>, R: Input + Print + AllocGlobal>(
    rt: &R,
    sessions: &mut DurableSessions<D, S>,
) -> Result<()> {
    for line in rt.lines(rt.alloc()) {
        reply(rt, sessions, line?.trim())?;
    }
    Ok(())
}
