//! The commands of histories of tables of sessions, each named like the call that it makes.
//!
//! | command                                   | reply, if not an error                    |
//! |-------------------------------------------|-------------------------------------------|
//! | `login ID TIME`, `touch ID TIME`          | `ok`                                      |
//! | `put ID VALUE`, `put_at ID KEY VALUE`     | `ok`                                      |
//! | `set ENTRY VALUE`, `update ENTRY MORE`    | `ok`                                      |
//! | `remove ID KEY`                           | `took VALUE`, or `no entry`               |
//! | `rename ID OTHER`, `logout ID`            | `ok`                                      |
//! | `expire TIME`                             | `ended COUNT`                             |
//!
//! The key of `put` is the number of the entry that it makes. `update` adds to a value. A `touch` or
//! `logout` of an id without a session replies `no session`. The state has each session, in the order of
//! their ids, as `ID@TIME`, and then each entry that isn't gone, in the order in which they were put, as
//! `ENTRY=VALUE`.

use crate::expected::{answered, assert_same, given};
use crate::rows::{Made, Subject, Words, write_reply, write_text};
use generational_box::{Location, Storage};
use session_table::{Entry, EntryKind, SessionTable, Stale};
use std::alloc::Global;
use std::fmt::Write;
use std::process::Abort;

/// The ids of all sessions of histories are below this.
const IDS: u64 = 10;

/// Where a value is put: each at a line of its own, by its number.
pub(crate) fn put_at(number: usize) -> Location {
    Location::new("p.rs", u32::try_from(number).unwrap_or(0), 1)
}

/// How a call on an entry that is gone fails, by its number.
pub(crate) fn stale_of(number: usize) -> Stale {
    Stale {
        created_at: Some(put_at(number)),
    }
}

/// A table of sessions over a new store.
pub(crate) fn sessions_over<T, S: Storage<T>>(
    rt: &impl Abort,
    alloc: Global,
    store: S,
) -> SessionTable<u64, u64, T, S> {
    assert!(rt; store.is_fresh());
    SessionTable::new(alloc, store)
}

/// A table, and the entries that were put. It must be consumed by `finish`.
pub(crate) struct Desk<S: Storage<u64>> {
    table: SessionTable<u64, u64, u64, S>,
    entries: Made<u64, EntryKind>,
}

impl<S: Storage<u64>> Desk<S> {
    /// A table over a new store.
    pub(crate) fn new(rt: &impl Abort, alloc: Global, store: S) -> Desk<S> {
        Desk {
            table: sessions_over(rt, alloc, store),
            entries: Made::new(alloc),
        }
    }

    /// Asserts that nothing stays in the store once the table ends.
    pub(crate) fn finish(self, rt: &impl Abort)
    where
        S: Drop,
    {
        let Desk { table, entries: _ } = self;
        let left = table.finish();
        assert!(rt; left.free() == left.slots());
    }

    fn login(&mut self, rt: &impl Abort, words: &mut Words<'_>, text: &mut String) {
        let id = words.number(rt);
        let answer = self.table.login(id, words.number(rt));
        write_reply(rt, text, answered(rt, answer, &id));
    }

    // Puts a value under a key, by which its entry is found. Both come back if that fails.
    fn put(&mut self, rt: &impl Abort, id: u64, key: u64, value: u64, text: &mut String) {
        let answer = self.table.put(&id, key, value, put_at(self.entries.next()));
        match answered(rt, answer, &(key, value)) {
            Ok(entry) => {
                assert_same(rt, &self.table.entry(&id, &key), &Some(entry));
                self.entries.add(rt, entry);
                write_text(rt, text, &"ok");
            }
            Err(error) => write_text(rt, text, &error),
        }
    }

    // Sets a value. It comes back if that fails.
    fn set(&mut self, rt: &impl Abort, words: &mut Words<'_>, text: &mut String) {
        let entry = self.entries.named(rt, words);
        let value = words.number(rt);
        let answer = answered(rt, self.table.set(entry, value), &value);
        write_reply(rt, text, answer);
    }

    // Adds to a value in place. The closure is called only if the entry isn't stale.
    fn update(&mut self, rt: &impl Abort, words: &mut Words<'_>, text: &mut String) {
        let entry = self.entries.named(rt, words);
        let mut left = Some(words.number(rt));
        let answer = self.table.update(entry, |value: &mut u64| {
            *value = value.wrapping_add(left.take().unwrap_or(0));
        });
        assert_same(rt, &left.is_none(), &answer.is_ok());
        write_reply(rt, text, answer);
    }

    // Takes out what is under a key. It isn't found there any more, and the others keep their order.
    fn remove(&mut self, rt: &impl Abort, words: &mut Words<'_>, text: &mut String) {
        let id = words.number(rt);
        let key = words.number(rt);
        let had = self.table.entry(&id, &key).is_some();
        let answer = self.table.remove(&id, &key);
        assert_same(rt, &answer.is_some(), &had);
        assert_same(rt, &self.table.entry(&id, &key), &None);
        are_in_order(rt, &self.table, id);
        match answer {
            Some(value) => given(rt, write!(text, "took {value}")),
            None => write_text(rt, text, &"no entry"),
        }
    }

    fn rename(&mut self, rt: &impl Abort, words: &mut Words<'_>, text: &mut String) {
        let id = words.number(rt);
        let other = words.number(rt);
        let answer = answered(rt, self.table.rename(&id, other), &other);
        write_reply(rt, text, answer);
    }

    // Carries out a command of one id's session.
    fn answer_of_one(
        &mut self,
        rt: &impl Abort,
        word: &str,
        words: &mut Words<'_>,
        text: &mut String,
    ) {
        let id = words.number(rt);
        let had = match word {
            "touch" => self.table.touch(&id, words.number(rt)),
            "logout" => self.table.logout(&id),
            _ => panic!(rt; "no such command"),
        };
        write_text(rt, text, if had { &"ok" } else { &"no session" });
    }
}

impl<S: Storage<u64>> Subject for Desk<S> {
    fn carry_out<R: Abort>(&mut self, rt: &R, words: &mut Words<'_>, text: &mut String) {
        match words.word() {
            "login" => self.login(rt, words, text),
            "put" => {
                let id = words.number(rt);
                let key = self.entries.next() as u64;
                self.put(rt, id, key, words.number(rt), text);
            }
            "put_at" => {
                let id = words.number(rt);
                let key = words.number(rt);
                self.put(rt, id, key, words.number(rt), text);
            }
            "set" => self.set(rt, words, text),
            "update" => self.update(rt, words, text),
            "remove" => self.remove(rt, words, text),
            "rename" => self.rename(rt, words, text),
            "expire" => {
                let count = self.table.expire(words.number(rt));
                given(rt, write!(text, "ended {count}"));
            }
            word => self.answer_of_one(rt, word, words, text),
        }
    }

    fn show<R: Abort>(&mut self, rt: &R, text: &mut String) {
        write_sessions(rt, &self.table, text);
        for (number, entry) in self.entries.all().iter().enumerate() {
            write_entry(rt, &self.table, *entry, number, text);
        }
    }
}

/// Sees that the keys of an id's entries ascend.
fn are_in_order<S: Storage<u64>>(rt: &impl Abort, table: &SessionTable<u64, u64, u64, S>, id: u64) {
    let mut last = None;
    if let Some(session) = table.session(&id) {
        for (later, _) in session.entries() {
            assert!(rt; last < Some(*later));
            last = Some(*later);
        }
    }
}

/// Writes the sessions. The walk over the table gives the same ones.
fn write_sessions<S: Storage<u64>>(
    rt: &impl Abort,
    table: &SessionTable<u64, u64, u64, S>,
    text: &mut String,
) {
    let mut count: usize = 0;
    for id in 0..IDS {
        if let Some(session) = table.session(&id) {
            given(rt, write!(text, " {id}@{}", session.used_at()));
            count = count.wrapping_add(1);
        }
    }
    assert_same(rt, &table.len(), &count);
    for (id, session) in table.sessions() {
        let found = table.session(id).map(|session| session.used_at());
        assert_same(rt, &found, &Some(session.used_at()));
        count = count.wrapping_sub(1);
    }
    assert_same(rt, &count, &0);
}

/// Writes what an entry shows. A call on one that is gone fails with where it was put.
fn write_entry<S: Storage<u64>>(
    rt: &impl Abort,
    table: &SessionTable<u64, u64, u64, S>,
    entry: Entry<u64>,
    number: usize,
    text: &mut String,
) {
    let stale = stale_of(number);
    assert_same(rt, &table.created_at(entry), &stale.created_at);
    match table.get(entry).copied() {
        Ok(value) => {
            assert!(rt; table.shows(entry));
            given(rt, write!(text, " {number}={value}"));
        }
        Err(error) => {
            assert!(rt; !table.shows(entry));
            assert_same(rt, &error, &stale);
        }
    }
}
