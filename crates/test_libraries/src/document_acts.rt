//! The commands of histories of documents, each named like the call that it makes.
//!
//! | command                                       | reply, if not an error |
//! |-----------------------------------------------|------------------------|
//! | `add CONTENT`, `repeat PLACE`                 | `ok`                   |
//! | `append PARENT CHILD`                         | `ok`                   |
//! | `insert PARENT INDEX CHILD`                   | `ok`                   |
//! | `take_child PARENT INDEX`                     | `took CHILD`           |
//! | `clear_gone PARENT`                           | `ok`                   |
//! | `set PLACE CONTENT`, `update PLACE MORE`      | `ok`                   |
//! | `exchange PLACE OTHER`, `remove PLACE`        | `ok`                   |
//! | `retain_below PLACE`                          | `ok`                   |
//!
//! `update` adds to a content. The state has each place that isn't gone, in the order in which they were
//! made, as `PLACE=CONTENT(CHILD ..)`, without the brackets if there is no child.

use crate::expected::{answered, assert_same, given};
use crate::rows::{Made, Subject, Words, write_numbers, write_reply, write_text};
use document_tree::{Document, Place, PlaceError, PlaceKind};
use generational_box::{Location, Storage};
use std::alloc::Global;
use std::fmt::Write;
use std::process::Abort;

/// Where a part is added.
pub(crate) fn added_at(line: u32) -> Location {
    Location::new("d.rs", line, 1)
}

/// A document over a new store.
pub(crate) fn document_over<T, S: Storage<u32>>(
    rt: &impl Abort,
    alloc: Global,
    store: S,
) -> Document<T, S> {
    assert!(rt; store.is_fresh());
    Document::new(alloc, store)
}

/// Adds a part.
pub(crate) fn add<T: Drop, S: Storage<u32>>(
    rt: &impl Abort,
    document: &mut Document<T, S>,
    content: T,
) -> Place {
    given(rt, document.add(content, added_at(1)))
}

/// Sees the content of a place, or that it is gone.
pub(crate) fn has_content<S: Storage<u32>>(
    rt: &impl Abort,
    document: &Document<u64, S>,
    place: Place,
    content: Option<u64>,
) {
    assert_same(rt, &document.get(place).copied().ok(), &content);
}

/// A document, and the places that were made.
#[derive(Drop)]
pub(crate) struct Draft<S: Storage<u32>> {
    alloc: Global,
    document: Document<u64, S>,
    places: Made<u32, PlaceKind>,
}

impl<S: Storage<u32>> Draft<S> {
    /// A document over a new store.
    pub(crate) fn new(rt: &impl Abort, alloc: Global, store: S) -> Draft<S> {
        Draft {
            alloc,
            document: document_over(rt, alloc, store),
            places: Made::new(alloc),
        }
    }

    // Keeps a new place.
    fn keep(&mut self, rt: &impl Abort, made: Result<Place, PlaceError>) -> Result<(), PlaceError> {
        let place = made?;
        self.places.add(rt, place);
        Ok(())
    }

    fn add(&mut self, rt: &impl Abort, words: &mut Words<'_>) -> Result<(), PlaceError> {
        let made = given(rt, self.document.add(words.number(rt), added_at(1)));
        self.keep(rt, Ok(made))
    }

    fn repeat(&mut self, rt: &impl Abort, words: &mut Words<'_>) -> Result<(), PlaceError> {
        let place = self.places.named(rt, words);
        let made = self.document.repeat(place);
        self.keep(rt, made)
    }

    fn append(&mut self, rt: &impl Abort, words: &mut Words<'_>) -> Result<(), PlaceError> {
        let parent = self.places.named(rt, words);
        let child = self.places.named(rt, words);
        self.document.append(parent, child)
    }

    fn insert(&mut self, rt: &impl Abort, words: &mut Words<'_>) -> Result<(), PlaceError> {
        let parent = self.places.named(rt, words);
        let index = words.index(rt);
        let child = self.places.named(rt, words);
        self.document.insert(parent, index, child)
    }

    fn clear_gone(&mut self, rt: &impl Abort, words: &mut Words<'_>) -> Result<(), PlaceError> {
        let parent = self.places.named(rt, words);
        self.document.clear_gone(parent).map_err(PlaceError::from)
    }

    // Sets a content. It comes back if that fails.
    fn set(&mut self, rt: &impl Abort, words: &mut Words<'_>) -> Result<(), PlaceError> {
        let place = self.places.named(rt, words);
        let content = words.number(rt);
        let answer = answered(rt, self.document.set(place, content), &content);
        answer.map_err(PlaceError::from)
    }

    fn update(&mut self, rt: &impl Abort, words: &mut Words<'_>) -> Result<(), PlaceError> {
        let place = self.places.named(rt, words);
        let more = words.number(rt);
        let answer = self.document.update(place, |content: &mut u64| {
            *content = content.wrapping_add(more);
        });
        answer.map_err(PlaceError::from)
    }

    fn exchange(&mut self, rt: &impl Abort, words: &mut Words<'_>) -> Result<(), PlaceError> {
        let place = self.places.named(rt, words);
        let other = self.places.named(rt, words);
        self.document
            .exchange(place, other)
            .map_err(PlaceError::from)
    }

    fn remove(&mut self, rt: &impl Abort, words: &mut Words<'_>) -> Result<(), PlaceError> {
        let place = self.places.named(rt, words);
        self.document.remove(place).map_err(PlaceError::from)
    }

    fn retain_below(&mut self, rt: &impl Abort, words: &mut Words<'_>) -> Result<(), PlaceError> {
        let place = self.places.named(rt, words);
        self.document.retain_below(place)
    }

    // Carries out a command that replies `ok`.
    fn answer(
        &mut self,
        rt: &impl Abort,
        word: &str,
        words: &mut Words<'_>,
    ) -> Result<(), PlaceError> {
        match word {
            "add" => self.add(rt, words),
            "repeat" => self.repeat(rt, words),
            "append" => self.append(rt, words),
            "insert" => self.insert(rt, words),
            "clear_gone" => self.clear_gone(rt, words),
            "set" => self.set(rt, words),
            "update" => self.update(rt, words),
            "exchange" => self.exchange(rt, words),
            "remove" => self.remove(rt, words),
            "retain_below" => self.retain_below(rt, words),
            _ => panic!(rt; "no such command"),
        }
    }

    // Takes a child out of a place's children, and writes which it is.
    fn take(&mut self, rt: &impl Abort, words: &mut Words<'_>, text: &mut String) {
        let parent = self.places.named(rt, words);
        match self.document.take_child(parent, words.index(rt)) {
            Ok(child) => {
                let number = self.places.number_of(rt, child);
                given(rt, write!(text, "took {number}"));
            }
            Err(error) => write_text(rt, text, &error),
        }
    }
}

impl<S: Storage<u32>> Subject for Draft<S> {
    fn carry_out<R: Abort>(&mut self, rt: &R, words: &mut Words<'_>, text: &mut String) {
        match words.word() {
            "take_child" => self.take(rt, words, text),
            word => {
                let answer = self.answer(rt, word, words);
                write_reply(rt, text, answer);
            }
        }
    }

    fn show<R: Abort>(&mut self, rt: &R, text: &mut String) {
        for (number, place) in self.places.all().iter().enumerate() {
            if let Ok(content) = self.document.get(*place).copied() {
                given(rt, write!(text, " {number}={content}"));
                write_children(rt, self.alloc, &self.document, &self.places, *place, text);
            }
        }
    }
}

/// Writes the children of a place.
fn write_children<S: Storage<u32>>(
    rt: &impl Abort,
    alloc: Global,
    document: &Document<u64, S>,
    places: &Made<u32, PlaceKind>,
    place: Place,
    text: &mut String,
) {
    let mut numbers = Vec::new(alloc);
    for child in given(rt, document.children(place)) {
        given(rt, numbers.push(places.number_of(rt, *child)));
    }
    write_numbers(rt, text, numbers.as_slice());
}
