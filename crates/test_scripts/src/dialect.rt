//! The dialect of the tests: the program's commands, and lines of the tests alone.
//!
//! | line              | what it does, and its reply                                       |
//! |-------------------|-------------------------------------------------------------------|
//! | `eight VALUE`     | makes a box in another store, of number 8: `box SLOT@GENERATION`  |
//! | `twin VALUE`      | the same in another store, of the session's own number            |
//! | `counts`          | `slots S free F retired R peak P next N`, N being the next ticket |
//! | `view P`          | `value ` and the value of the guard at place P, or `no such`      |
//! | `as N COMMAND`    | what the command does, called at the location of line N           |
//! | `WORD NAME ..`    | makes the call, with the reply of the program's command            |
//!
//! A NAME of a box is `#P`, the place P, counted from 0 whatever the calls before gave, or `*K`, the box
//! that the stores beside gave K-th, counted from 0. Other NAMEs are places. A value that comes back
//! unused is printed as `back VALUE`, or as `unready VALUE` from a set whose condition doesn't hold.

ghost use Rattle.generational_core.specs.Conditions.{IsFresh};

use crate::naming::Strangers;
use boxes_script::{Script, ScriptFault, write_reply};
use generational_box::{Call, Location, Reply, Storage};
use std::alloc::Global;
use std::io;
use std::io::Write;

/// A script of the dialect.
///
/// It must be consumed by `finish`.
pub(crate) struct Dialect<S: Storage<String> + Drop> {
    script: Script<S>,
    strangers: Strangers<S>,
}

impl<S: Storage<String> + Drop> Dialect<S> {
    /// A script without lines yet.
    pub(crate) fn new(alloc: Global, store: S, strangers: Strangers<S>) -> Dialect<S>
        requires { IsFresh (S.state store) }
    {
        Dialect {
            script: Script::new(alloc, store),
            strangers,
        }
    }

    /// Runs the next line, whose number is `number`.
    pub(crate) fn answer<W: Write>(
        &mut self,
        number: u32,
        line: &str,
        output: &mut W,
    ) -> Result<(), ScriptFault> {
        let location = Location::new("script", number, 1);
        let (word, rest) = line.split_once(' ').unwrap_or((line, ""));
        match word {
            "counts" | "view" | "eight" | "twin" => {
                self.script.pass_line()?;
                self.answer_beside(word, rest, location, output)
            }
            "as" => {
                let (place, command) = rest.split_once(' ').unwrap_or((rest, ""));
                let number = place.parse::<u32>().unwrap_or(number);
                self.script.answer(number, command.as_bytes(), output)
            }
            _ if rest.starts_with('#') || rest.starts_with('*') => {
                let call = self.strangers.call(word, rest, location)?;
                self.call(call, output)
            }
            _ => self.script.answer(number, line.as_bytes(), output),
        }
    }

    // Runs a line that makes no call.
    fn answer_beside<W: Write>(
        &mut self,
        word: &str,
        rest: &str,
        location: Location,
        output: &mut W,
    ) -> Result<(), ScriptFault> {
        match word {
            "counts" => written(self.counts(output)),
            "view" => written(self.view(rest, output)),
            _ => self.strangers.answer(word, rest, location, output),
        }
    }

    // Makes a call, and writes its reply.
    fn call<W: Write>(&mut self, call: Call<String>, output: &mut W) -> Result<(), ScriptFault> {
        let reply = self.script.call_next(call)?;
        written(write_with_value(output, reply))
    }

    // Writes what the store counts, and its next ticket.
    fn counts<W: Write>(&self, output: &mut W) -> io::Result<()> {
        let store = self.script.session().store();
        writeln!(
            output,
            "slots {} free {} retired {} peak {} next {}",
            store.slots(),
            store.free(),
            store.retired(),
            store.peak_live(),
            u64::MAX - store.tickets_left()
        )
    }

    // Writes the value that a place lends.
    fn view<W: Write>(&self, place: &str, output: &mut W) -> io::Result<()> {
        let place = place.parse::<usize>().unwrap_or(usize::MAX);
        match self.script.session().view(place) {
            Some(value) => writeln!(output, "value {value}"),
            None => writeln!(output, "no such"),
        }
    }

    /// Ends the session.
    pub(crate) fn finish(self) -> S {
        let Dialect {
            script,
            strangers: _,
        } = self;
        script.finish()
    }
}

/// The result of a write.
fn written(answer: io::Result<()>) -> Result<(), ScriptFault> {
    answer.map_err(|_| ScriptFault::Output)
}

/// Writes a reply, with the value that came back.
pub(crate) fn write_with_value<W: Write>(output: &mut W, reply: Reply<String>) -> io::Result<()> {
    match reply {
        Reply::NoSuch(Some(value)) => writeln!(output, "back {value}"),
        Reply::Unready(Some(value)) => writeln!(output, "unready {value}"),
        reply => write_reply(output, reply),
    }
}
