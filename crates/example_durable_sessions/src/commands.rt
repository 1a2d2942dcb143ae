//! The commands, one a line, and their replies.

use crate::durable::DurableSessions;
use anyhow::Result;
use generational_box::Storage;
use sqlite::Alter;

/// A command that changes the sessions.
#[derive(Clone, Copy)]
enum Change {
    Login(u32, u32),
    Put(u32, u32, u32),
    Touch(u32, u32),
    Logout(u32),
}

/// Carries out a command, and prints its reply.
pub fn reply<D: Alter, S: Storage<u64>, R: Print + AllocGlobal>(
    rt: &R,
    sessions: &mut DurableSessions<D, S>,
    line: &str,
) -> Result<()> {
    let mut words = line.split(' ');
    let name = words.next().unwrap_or("");
    let (first, second, third) = (
        number(words.next()),
        number(words.next()),
        number(words.next()),
    );
    match (name, first, second, third) {
        ("get", Some(id), Some(key), None) => show(rt, sessions, id, key),
        ("list", None, None, None) => list(rt, sessions),
        (name, Some(id), second, third) => match change_of(name, id, second, third) {
            Some(change) => carry_out(rt, sessions, change),
            None => not_understood(rt),
        },
        _ => not_understood(rt),
    }
}

fn number(word: Option<&str>) -> Option<u32> {
    word?.parse().ok()
}

fn change_of(name: &str, id: u32, second: Option<u32>, third: Option<u32>) -> Option<Change> {
    match (name, second, third) {
        ("login", Some(now), None) => Some(Change::Login(id, now)),
        ("put", Some(key), Some(value)) => Some(Change::Put(id, key, value)),
        ("touch", Some(now), None) => Some(Change::Touch(id, now)),
        ("logout", None, None) => Some(Change::Logout(id)),
        _ => None,
    }
}

fn carry_out<D: Alter, S: Storage<u64>, R: Print>(
    rt: &R,
    sessions: &mut DurableSessions<D, S>,
    change: Change,
) -> Result<()> {
    let is_done = match change {
        Change::Login(id, now) => sessions.login(id, now)?,
        Change::Put(id, key, value) => sessions.put(id, key, value)?,
        Change::Touch(id, now) => sessions.touch(id, now)?,
        Change::Logout(id) => sessions.logout(id)?,
    };
    println!(rt; "{}", if is_done { "ok" } else { "no" })?;
    Ok(())
}

fn show<D: Alter, S: Storage<u64>, R: Print>(
    rt: &R,
    sessions: &DurableSessions<D, S>,
    id: u32,
    key: u32,
) -> Result<()> {
    match sessions.get(id, key) {
        Some(value) => println!(rt; "{value}")?,
        None => println!(rt; "none")?,
    }
    Ok(())
}

fn list<D: Alter, S: Storage<u64>, R: Print + AllocGlobal>(
    rt: &R,
    sessions: &DurableSessions<D, S>,
) -> Result<()> {
    let rows = sessions.rows(rt.alloc())?;
    for row in &rows {
        println!(rt; "{} used at {}", row.id, row.used_at)?;
        for (key, value) in &row.values {
            println!(rt; "  {key} {value}")?;
        }
    }
    println!(rt; "{} sessions", rows.len())?;
    Ok(())
}

fn not_understood<R: Print>(rt: &R) -> Result<()> {
    println!(rt; "not understood")?;
    Ok(())
}
