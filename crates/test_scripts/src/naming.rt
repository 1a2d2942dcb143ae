//! Calls in the dialect of the tests, by places and by the boxes of other stores.

use boxes_script::ScriptFault;
use generational_box::{BoxAt, Call, GenerationalBox, Location, Storage};
use std::alloc::{AllocError, Global};
use std::io::Write;

/// The stores other than the session's own, and the boxes that they issued.
#[derive(Drop)]
pub(crate) struct Strangers<S> {
    alloc: Global,
    eight: S,
    twin: S,
    boxes: Vec<GenerationalBox<String>>,
}

impl<S: Storage<String>> Strangers<S> {
    /// Two stores, and no box yet.
    pub(crate) fn new(alloc: Global, eight: S, twin: S) -> Strangers<S> {
        Strangers {
            alloc,
            eight,
            twin,
            boxes: Vec::new(alloc),
        }
    }

    /// Makes a box in the store that the word names, and writes it.
    pub(crate) fn answer<W: Write>(
        &mut self,
        word: &str,
        value: &str,
        location: Location,
        output: &mut W,
    ) -> Result<(), ScriptFault> {
        let made = match self.leak(word, value, location) {
            Ok(made) => made,
            Err(_) => return Err(ScriptFault::Memory),
        };
        writeln!(output, "box {made:?}").map_err(|_| ScriptFault::Output)
    }

    // Makes a box in the store that the word names.
    fn leak(
        &mut self,
        word: &str,
        value: &str,
        location: Location,
    ) -> Result<GenerationalBox<String>, AllocError> {
        let value = String::from_str(self.alloc, value)?;
        let answer = if word == "twin" {
            GenerationalBox::leak(&mut self.twin, value, location)
        } else {
            GenerationalBox::leak(&mut self.eight, value, location)
        };
        let made = answer.map_err(|_| AllocError)?;
        self.boxes.push(made)?;
        Ok(made)
    }

    /// The call of a line. Where the line is none, the call names no such place.
    pub(crate) fn call(
        &self,
        word: &str,
        rest: &str,
        location: Location,
    ) -> Result<Call<String>, ScriptFault> {
        let (name, value) = rest.split_once(' ').unwrap_or((rest, ""));
        match word {
            "leak" | "leak_rc" => self.of_value(word, name, rest, location),
            "insert" | "insert_rc" | "replace" | "set" => {
                self.of_value(word, name, value, location)
            }
            _ => Ok(self.of_place(word, name, value, location)),
        }
    }

    // The call of a line that takes a value.
    fn of_value(
        &self,
        word: &str,
        name: &str,
        value: &str,
        location: Location,
    ) -> Result<Call<String>, ScriptFault> {
        let Ok(value) = String::from_str(self.alloc, value) else {
            return Err(ScriptFault::Memory);
        };
        let place = place(name);
        Ok(match word {
            "leak" => Call::Leak(value, location),
            "leak_rc" => Call::LeakRc(value, location),
            "insert" => Call::Insert(place, value, location),
            "insert_rc" => Call::InsertRc(place, value, location),
            "replace" => Call::Replace(place, value),
            _ => Call::Set(self.named(name), value),
        })
    }

    // The call of a line, if it takes a place and no box.
    fn of_place(&self, word: &str, name: &str, other: &str, location: Location) -> Call<String> {
        let place = place(name);
        match word {
            "owner" => Call::Owner,
            "insert_reference" => Call::InsertReference(place, self.named(other)),
            "clone" => Call::CloneOwner(place),
            "leak_owner" => Call::LeakOwner(place),
            "release_owner" => Call::ReleaseOwner(place),
            "release" => Call::Release(place),
            _ => self.of_box(word, self.named(name), other, location),
        }
    }

    // The call of a line that takes a box.
    fn of_box(
        &self,
        word: &str,
        asked: BoxAt<String>,
        other: &str,
        location: Location,
    ) -> Call<String> {
        match word {
            "try_read" => Call::TryRead(asked, location),
            "try_write" => Call::TryWrite(asked, location),
            "read" => Call::Read(asked, location),
            "write" => Call::Write(asked, location),
            "can_read" => Call::CanRead(asked),
            "can_write" => Call::CanWrite(asked),
            "leak_reference" => Call::LeakReference(asked),
            "end" => Call::ManuallyDrop(asked),
            "point_to" => Call::PointTo(asked, self.named(other)),
            "id" => Call::Id(asked),
            "slot" => Call::RawPtr(asked),
            "created_at" => Call::CreatedAt(asked),
            "ptr_eq" => Call::PtrEq(asked, self.named(other)),
            _ => Call::Release(usize::MAX),
        }
    }

    // The box of a name.
    fn named(&self, name: &str) -> BoxAt<String> {
        match self.stranger(name) {
            Some(stranger) => BoxAt::Foreign(stranger),
            None => BoxAt::Place(place(name)),
        }
    }

    // The box of a store beside that has this name.
    fn stranger(&self, name: &str) -> Option<GenerationalBox<String>> {
        let index = name.strip_prefix("*")?.parse::<usize>().ok()?;
        self.boxes.get(index).copied()
    }
}

// The place of a name. Any other name is that of the last place.
fn place(name: &str) -> usize {
    let digits = name.strip_prefix("#").unwrap_or("");
    digits.parse::<usize>().unwrap_or(usize::MAX)
}
