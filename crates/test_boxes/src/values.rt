//! Values of several types.

use crate::expected::{
    assert_released, assert_shows, assert_unread, begin, dropped, end, insert, leak, made,
    made_later, new_owner, read, release,
};
use crate::fresh::{Scenario, play};
use generational_box::{GenerationalBox, GenerationalRef, Storage, StoreError};
use std::alloc::Global;
use std::process::Abort;

#[derive(Clone, Copy, PartialEq)]
enum Answer {
    Yes,
    Number(i64),
}

/// Asserts that a guard opens a value.
pub(crate) fn assert_value<T: PartialEq, S: Storage<T>>(
    rt: &impl Abort,
    store: &S,
    guard: &GenerationalRef<T>,
    value: &T,
) {
    match guard.deref(store) {
        Some(view) => assert!(rt; *view == *value),
        None => assert!(rt; false, "the guard opens nothing"),
    }
}

/// A clone of the value that a guard lends.
pub(crate) fn clone_of<T: Clone, S: Storage<T>>(
    rt: &impl Abort,
    store: &S,
    guard: &GenerationalRef<T>,
) -> Result<T, StoreError> {
    guard.deref(store).expect(rt, "a view").cloned()
}

/// Asserts that a read gives a value.
fn assert_read<T: PartialEq, S: Storage<T>>(
    rt: &impl Abort,
    store: &mut S,
    asked: GenerationalBox<T>,
    value: &T,
) {
    let guard = begin(rt, store, asked, read());
    assert_value(rt, store, &guard, value);
    assert_released(rt, store, guard, true);
}

/// Makes a value, reads it and ends it.
fn live<T: PartialEq + Drop, S: Storage<T>>(rt: &impl Abort, store: &mut S, value: T, same: &T) {
    let only = leak(rt, store, value, made());
    assert_read(rt, store, only, same);
    end(rt, store, only);
}

struct Answers;

impl Scenario<Answer> for Answers {
    fn play<R: Abort, S: Storage<Answer>>(rt: &R, _: Global, store: &mut S) {
        for value in [Answer::Yes, Answer::Number(-3)] {
            live(rt, store, value, &value);
        }
    }
}

/// A text of its own.
fn text(rt: &impl Abort, alloc: Global) -> String {
    String::from_str(alloc, "hello world").expect(rt, "memory")
}

struct PairWithText;

impl Scenario<(String, u8)> for PairWithText {
    fn play<R: Abort, S: Storage<(String, u8)>>(rt: &R, alloc: Global, store: &mut S) {
        let pair = (text(rt, alloc), 200);
        let same = (text(rt, alloc), 200);
        live(rt, store, pair, &same);
    }
}

/// A store of names alone.
struct NamesAlone;

impl Scenario<()> for NamesAlone {
    fn play<R: Abort, S: Storage<()>>(rt: &R, alloc: Global, store: &mut S) {
        let one = leak(rt, store, (), made());
        let other = leak(rt, store, (), made());
        end(rt, store, one);
        assert_read(rt, store, other, &());
        assert_shows(rt, alloc, &other, "1@1");
    }
}

#[derive(PartialEq, Drop)]
pub(crate) enum Note {
    Text(String),
    Number(u32),
}

/// A value that is read stays where it is while its owner makes others.
struct NotesOfAnOwner;

impl Scenario<Note> for NotesOfAnOwner {
    fn play<R: Abort, S: Storage<Note>>(rt: &R, alloc: Global, store: &mut S) {
        let owner = new_owner(rt, store);
        let first = insert(rt, store, &owner, Note::Text(text(rt, alloc)), made());
        let guard = begin(rt, store, first, read());
        let second = insert(rt, store, &owner, Note::Number(1), made_later());
        assert_value(rt, store, &guard, &Note::Text(text(rt, alloc)));
        assert_released(rt, store, guard, true);

        assert_read(rt, store, second, &Note::Number(1));
        release(rt, store, owner);
        assert_unread(rt, store, first, dropped(made()));
    }
}

#[test]
fn values_of_several_types(rt: HostRuntime) {
    play::<Answer, Answers>(&rt, rt.alloc());
    play::<(String, u8), PairWithText>(&rt, rt.alloc());
    play::<(), NamesAlone>(&rt, rt.alloc());
    play::<Note, NotesOfAnOwner>(&rt, rt.alloc());
}
