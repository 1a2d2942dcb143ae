//! The commands of a script, and their replies.
ghost use Rattle.std.specs.Prelude.{◌<◌, ◌≤◌, OnOk, vec_len};
ghost use Rattle.generational_core.specs.Conditions.{IsFresh};

use crate::fault::ScriptFault;
use crate::numbers::line_number;
use generational_box::{BoxAt, Call, Location, Reply, Session, Storage, StoreError};
use std::alloc::{AllocError, Global};
use std::fmt::Display;
use std::io;
use std::io::Write;
use store_room::reserve_more;

/// What a command does in the session. Its lines have become places.
#[derive(Drop)]
enum Request {
    Call(Call<String>),
    View(usize),
    Stats,
}

/// What a line gave.
#[derive(Clone, Copy)]
struct Given {
    place: usize,
    is_owner: bool,
}

/// The places of the lines' calls.
#[derive(Drop)]
struct LinePlaces {
    alloc: Global,
    by_line: Vec<Option<Given>>,
    given: usize,
    ghost counted: { given ≤ vec_len by_line },
}

impl LinePlaces {
    fn new(alloc: Global) -> LinePlaces {
        LinePlaces {
            alloc,
            by_line: Vec::new(alloc),
            given: 0,
        }
    }

    // Begins a line, which has no place yet.
    fn add_line(&mut self) -> Result<(), AllocError>
        ensures room { OnOk result (self.new.given < vec_len self.new.by_line) }
    {
        reserve_more(&mut self.by_line, 1)?;
        self.by_line.push_reserved(None);
        Ok(())
    }

    // Gives the next place to the last line.
    fn give_place(&mut self, is_owner: bool)
        requires { self.old.given < vec_len self.old.by_line }
    {
        if let Some(last) = self.by_line.last_mut() {
            *last = Some(Given {
                place: self.given,
                is_owner,
            });
        }
        self.given += 1;
    }

    // What a line gave. A line without a call has the place of the next call, which holds nothing
    // yet.
    fn at(&self, line: u32) -> Given {
        let index = (line as usize).saturating_sub(1);
        match self.by_line.get(index) {
            Some(Some(given)) => *given,
            _ => Given {
                place: self.given,
                is_owner: false,
            },
        }
    }

    // What a line does in the session, if it has the form of a command.
    fn request(&self, line: &[u8], location: Location) -> Result<Option<Request>, AllocError> {
        let Ok(text) = str::from_utf8(line) else {
            return Ok(None);
        };
        match text.split_once(' ') {
            Some((word, rest)) => self.of_words(word, rest, location),
            None => Ok(of_word(text)),
        }
    }

    // What a line of several words does.
    fn of_words(
        &self,
        word: &str,
        rest: &str,
        location: Location,
    ) -> Result<Option<Request>, AllocError> {
        match word {
            "leak" | "leak_rc" => self.of_value(word, rest, location),
            "insert" | "insert_rc" | "replace" | "set" => {
                self.of_line_and_value(word, rest, location)
            }
            "insert_reference" | "point_to" | "ptr_eq" => Ok(self.of_lines(word, rest)),
            _ => Ok(self.of_line(word, rest, location)),
        }
    }

    // What `leak` and `leak_rc` do, with a value.
    fn of_value(
        &self,
        word: &str,
        value: &str,
        location: Location,
    ) -> Result<Option<Request>, AllocError> {
        let value = String::from_str(self.alloc, value)?;
        Ok(Some(Request::Call(match word {
            "leak" => Call::Leak(value, location),
            "leak_rc" => Call::LeakRc(value, location),
            _ => return Ok(None),
        })))
    }

    // What `insert`, `insert_rc`, `replace` and `set` do, with the number of a line and a value.
    fn of_line_and_value(
        &self,
        word: &str,
        rest: &str,
        location: Location,
    ) -> Result<Option<Request>, AllocError> {
        let Some((line, value)) = line_and_value(rest) else {
            return Ok(None);
        };
        let place = self.at(line).place;
        let value = String::from_str(self.alloc, value)?;
        Ok(Some(Request::Call(match word {
            "insert" => Call::Insert(place, value, location),
            "insert_rc" => Call::InsertRc(place, value, location),
            "replace" => Call::Replace(place, value),
            "set" => Call::Set(BoxAt::Place(place), value),
            _ => return Ok(None),
        })))
    }

    // What `insert_reference`, `point_to` and `ptr_eq` do, with the numbers of two lines.
    fn of_lines(&self, word: &str, rest: &str) -> Option<Request> {
        let (one, other) = two_lines(rest)?;
        let (one, other) = (self.at(one).place, BoxAt::Place(self.at(other).place));
        Some(Request::Call(match word {
            "insert_reference" => Call::InsertReference(one, other),
            "point_to" => Call::PointTo(BoxAt::Place(one), other),
            "ptr_eq" => Call::PtrEq(BoxAt::Place(one), other),
            _ => return None,
        }))
    }

    // What any other word does, with the number of a line.
    fn of_line(&self, word: &str, rest: &str, location: Location) -> Option<Request> {
        let Given { place, is_owner } = self.at(line_number(rest)?);
        Some(Request::Call(match word {
            "leak_reference" => Call::LeakReference(BoxAt::Place(place)),
            "clone" => Call::CloneOwner(place),
            "leak_owner" => Call::LeakOwner(place),
            "try_read" => Call::TryRead(BoxAt::Place(place), location),
            "try_write" => Call::TryWrite(BoxAt::Place(place), location),
            "can_read" => Call::CanRead(BoxAt::Place(place)),
            "can_write" => Call::CanWrite(BoxAt::Place(place)),
            "show" => return Some(Request::View(place)),
            "release" if is_owner => Call::ReleaseOwner(place),
            "release" => Call::Release(place),
            "end" => Call::ManuallyDrop(BoxAt::Place(place)),
            "id" => Call::Id(BoxAt::Place(place)),
            "created_at" => Call::CreatedAt(BoxAt::Place(place)),
            _ => return None,
        }))
    }
}

// What a line of one word does.
fn of_word(word: &str) -> Option<Request> {
    match word {
        "owner" => Some(Request::Call(Call::Owner)),
        "stats" => Some(Request::Stats),
        _ => None,
    }
}

/// A script that is running, over a store of texts.
///
/// It must be consumed by `finish`.
pub struct Script<S: Storage<String>> {
    session: Session<String, S>,
    places: LinePlaces,
}

impl<S: Storage<String>> Script<S> {
    /// A script without lines yet, over a fresh store (see `is_fresh`). Doesn't allocate.
    pub fn new(alloc: Global, store: S) -> Script<S>
        requires { IsFresh (S.state store) }
    {
        Script {
            session: Session::new(alloc, store),
            places: LinePlaces::new(alloc),
        }
    }

    /// Runs the next line, whose number is `number`. Lines count from 1 on.
    ///
    /// Memory for the line is allocated before its call is made.
    pub fn answer<W: Write>(
        &mut self,
        number: u32,
        line: &[u8],
        output: &mut W,
    ) -> Result<(), ScriptFault> {
        self.places.add_line().map_err(|_| ScriptFault::Memory)?;
        let location = Location::new("script", number, 1);
        let asked = self.places.request(line, location);
        let asked = asked.map_err(|_| ScriptFault::Memory)?;
        self.carry_out(asked, output)
            .map_err(|_| ScriptFault::Output)
    }

    // Runs a line's request, and writes the reply.
    fn carry_out<W: Write>(&mut self, asked: Option<Request>, output: &mut W) -> io::Result<()>
        requires { self.old.places.given < vec_len self.old.places.by_line }
    {
        match asked {
            Some(Request::Call(call)) => match self.call(call) {
                Some(reply) => write_reply(output, reply),
                None => write_shown(output, "refused: ", &StoreError::OutOfMemory),
            },
            Some(Request::View(place)) => self.view(place, output),
            Some(Request::Stats) => self.stats(output),
            None => output.write_all(b"bad line\n"),
        }
    }

    /// Makes a call on the next line, which may be one that no command has, and returns its reply. The
    /// only fault is `Memory`: then no call was made.
    pub fn call_next(&mut self, call: Call<String>) -> Result<Reply<String>, ScriptFault> {
        self.places.add_line().map_err(|_| ScriptFault::Memory)?;
        self.call(call).ok_or(ScriptFault::Memory)
    }

    /// Leaves the next line without a call and without a reply.
    pub fn pass_line(&mut self) -> Result<(), ScriptFault> {
        self.places.add_line().map_err(|_| ScriptFault::Memory)
    }

    /// The session that the script calls.
    pub fn session(&self) -> &Session<String, S> {
        &self.session
    }

    // Makes a call. If its place can't be allocated, the line gets none.
    fn call(&mut self, call: Call<String>) -> Option<Reply<String>>
        requires { self.old.places.given < vec_len self.old.places.by_line }
    {
        let reply = self.session.call(call).ok()?;
        self.places.give_place(matches!(reply, Reply::Owner));
        Some(reply)
    }

    // Writes the value of the guard at a place.
    fn view<W: Write>(&self, place: usize, output: &mut W) -> io::Result<()> {
        match self.session.view(place) {
            Some(value) => write_shown(output, "value ", value),
            None => output.write_all(b"no such\n"),
        }
    }

    // Writes how many slots there are, and of which kinds.
    fn stats<W: Write>(&self, output: &mut W) -> io::Result<()> {
        let store = self.session.store();
        writeln!(
            output,
            "slots {} free {} retired {} peak {}",
            store.slots(),
            store.free(),
            store.retired(),
            store.peak_live()
        )
    }

    /// Ends the session, which releases its guards and leaks its owners, and returns the store.
    pub fn finish(self) -> S {
        let Script { session, places: _ } = self;
        session.finish()
    }
}

// The number of a line, and the value behind the space after it.
fn line_and_value(rest: &str) -> Option<(u32, &str)> {
    let (line, value) = rest.split_once(' ')?;
    Some((line_number(line)?, value))
}

// The numbers of two lines.
fn two_lines(rest: &str) -> Option<(u32, u32)> {
    let (one, other) = rest.split_once(' ')?;
    Some((line_number(one)?, line_number(other)?))
}

/// Writes the reply to a call, like a script.
pub fn write_reply<W: Write>(output: &mut W, reply: Reply<String>) -> io::Result<()> {
    match reply {
        Reply::Box(made) => writeln!(output, "box {made:?}"),
        Reply::Owner => output.write_all(b"owner\n"),
        Reply::Reader => output.write_all(b"reader\n"),
        Reply::Writer => output.write_all(b"writer\n"),
        Reply::Done => output.write_all(b"ok\n"),
        Reply::Old(value) => write_shown(output, "old ", &value),
        Reply::Flag(flag) => write_shown(output, "", &flag),
        Reply::Id(id) => writeln!(output, "{id:?}"),
        Reply::Slot(slot) => write_shown(output, "", &slot),
        Reply::Created(location) => write_shown(output, "", &location),
        Reply::Error(error) => write_shown(output, "error: ", &error),
        Reply::Store(error) | Reply::Back(_, error) => write_shown(output, "refused: ", &error),
        Reply::Unready(_) => output.write_all(b"unready\n"),
        Reply::NoSuch(_) => output.write_all(b"no such\n"),
    }
}

// Writes a word and a printed value as one line.
fn write_shown<W: Write>(output: &mut W, word: &str, shown: &impl Display) -> io::Result<()> {
    writeln!(output, "{word}{shown}")
}
