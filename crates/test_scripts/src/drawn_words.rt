//! What a call of a drawn list is, names and has, and what its reply is, in words.

use crate::expected::push;
use generational_box::{BorrowMutError, BoxAt, Call, Location, Reply, StoreError};
use std::alloc::Global;
use std::process::Abort;

/// The number of the store on which the lists are run here.
pub(crate) const NUMBER: u64 = 1;

/// A call's kind.
pub(crate) fn call_word(call: &Call<String>) -> &'static str {
    match call {
        Call::Leak(_, _) => "leak",
        Call::LeakRc(_, _) => "leak_rc",
        Call::LeakReference(_) => "leak_reference",
        Call::Insert(_, _, _) => "insert",
        Call::InsertRc(_, _, _) => "insert_rc",
        Call::InsertReference(_, _) => "insert_reference",
        Call::Owner => "owner",
        Call::CloneOwner(_) => "clone_owner",
        Call::ReleaseOwner(_) => "release_owner",
        Call::LeakOwner(_) => "leak_owner",
        Call::TryRead(_, _) => "try_read",
        Call::TryWrite(_, _) => "try_write",
        Call::Replace(_, _) => "replace",
        Call::Release(_) => "release",
        Call::ManuallyDrop(_) => "manually_drop",
        Call::PointTo(_, _) => "point_to",
        Call::PtrEq(_, _) => "ptr_eq",
        Call::Id(_) => "id",
        Call::RawPtr(_) => "raw_ptr",
        Call::CreatedAt(_) => "created_at",
        Call::Read(_, _) => "read",
        Call::Write(_, _) => "write",
        Call::Set(_, _) => "set",
        Call::CanRead(_) => "can_read",
        Call::CanWrite(_) => "can_write",
    }
}

/// The boxes that a call names.
pub(crate) fn boxes_in(call: &Call<String>) -> (Option<&BoxAt<String>>, Option<&BoxAt<String>>) {
    match call {
        Call::LeakReference(at)
        | Call::InsertReference(_, at)
        | Call::TryRead(at, _)
        | Call::TryWrite(at, _)
        | Call::Read(at, _)
        | Call::Write(at, _)
        | Call::Set(at, _)
        | Call::CanRead(at)
        | Call::CanWrite(at)
        | Call::ManuallyDrop(at)
        | Call::Id(at)
        | Call::RawPtr(at)
        | Call::CreatedAt(at) => (Some(at), None),
        Call::PointTo(one, other) | Call::PtrEq(one, other) => (Some(one), Some(other)),
        _ => (None, None),
    }
}

/// The place of the owner that a call names.
pub(crate) fn owner_in(call: &Call<String>) -> Option<usize> {
    match call {
        Call::Insert(place, _, _)
        | Call::InsertRc(place, _, _)
        | Call::InsertReference(place, _)
        | Call::CloneOwner(place)
        | Call::ReleaseOwner(place)
        | Call::LeakOwner(place) => Some(*place),
        _ => None,
    }
}

/// The place of the guard that a call names.
pub(crate) fn guard_in(call: &Call<String>) -> Option<usize> {
    match call {
        Call::Replace(place, _) | Call::Release(place) => Some(*place),
        _ => None,
    }
}

/// The value that a call passes.
pub(crate) fn value_in(call: &Call<String>) -> Option<&str> {
    match call {
        Call::Leak(value, _)
        | Call::LeakRc(value, _)
        | Call::Insert(_, value, _)
        | Call::InsertRc(_, value, _)
        | Call::Set(_, value)
        | Call::Replace(_, value) => Some(value.as_str()),
        _ => None,
    }
}

/// The location that a call passes.
pub(crate) fn location_in(call: &Call<String>) -> Option<Location> {
    match call {
        Call::Leak(_, location)
        | Call::LeakRc(_, location)
        | Call::Insert(_, _, location)
        | Call::InsertRc(_, _, location)
        | Call::TryRead(_, location)
        | Call::TryWrite(_, location)
        | Call::Read(_, location)
        | Call::Write(_, location) => Some(*location),
        _ => None,
    }
}

/// A value, of those that drawn lists have.
fn value_word(value: &str) -> &'static str {
    match value {
        "" => "no text",
        "a" => "a letter",
        "bc" => "two letters",
        "def" => "three letters",
        _ => "another text",
    }
}

/// A reply's kind.
pub(crate) fn reply_word(reply: &Reply<String>) -> &'static str {
    match reply {
        Reply::Box(_) => "a box is given",
        Reply::Owner => "an owner is given",
        Reply::Reader => "a reader",
        Reply::Writer => "a writer",
        Reply::Done => "done",
        Reply::Old(_) => "the old value",
        Reply::Flag(true) => "true",
        Reply::Flag(false) => "false",
        Reply::Id(_) => "an id",
        Reply::Slot(_) => "a slot",
        Reply::Created(_) => "a location",
        Reply::Error(BorrowMutError::Dropped(_)) => "dropped",
        Reply::Error(BorrowMutError::AlreadyBorrowed(_)) => "borrowed",
        Reply::Error(BorrowMutError::AlreadyBorrowedMut(_)) => "borrowed mutably",
        Reply::Store(StoreError::NumbersExhausted) => "numbers exhausted",
        Reply::Store(_) | Reply::Back(_, _) => "another refusal",
        Reply::Unready(None) => "unready",
        Reply::Unready(Some(_)) => "unready, and a value comes back",
        Reply::NoSuch(None) => "no such",
        Reply::NoSuch(Some(_)) => "no such, and a value comes back",
    }
}

/// What a box is that the call of a place names.
fn box_word(place: usize, at: &BoxAt<String>, calls: &[Call<String>]) -> &'static str {
    match at {
        BoxAt::Foreign(stranger) if stranger.id().store == NUMBER =>
            "a foreign box of the same number",
        BoxAt::Foreign(_) => "a foreign box",
        BoxAt::Place(named) if *named >= place => "a box past the end",
        BoxAt::Place(named) => match calls.get(*named) {
            Some(Call::Leak(_, _) | Call::LeakRc(_, _) | Call::LeakReference(_)) => "nobody's box",
            Some(Call::Insert(_, _, _) | Call::InsertRc(_, _, _) | Call::InsertReference(_, _)) =>
                "an owner's box",
            _ => "no box",
        },
    }
}

/// Words for what a place gave that a call names.
struct Holder {
    past: &'static str,
    none: &'static str,
    spent: &'static str,
    held: &'static str,
}

const GUARD: Holder = Holder {
    past: "a guard past the end",
    none: "no guard",
    spent: "a spent guard",
    held: "a held guard",
};

const OWNER: Holder = Holder {
    past: "an owner past the end",
    none: "no owner",
    spent: "a spent owner",
    held: "a held owner",
};

impl Holder {
    // The word for a place in a call with this reply, which returned such a thing or didn't.
    fn word(
        &self,
        place: usize,
        named: usize,
        is_there: bool,
        reply: &Reply<String>,
    ) -> &'static str {
        if named >= place {
            return self.past;
        }
        match (is_there, reply) {
            (false, _) => self.none,
            (true, Reply::NoSuch(_)) => self.spent,
            (true, _) => self.held,
        }
    }
}

/// Adds the words for the boxes that the call of a place names.
fn add_boxes(
    rt: &impl Abort,
    words: &mut Vec<&'static str>,
    place: usize,
    call: &Call<String>,
    calls: &[Call<String>],
) {
    let (one, other) = boxes_in(call);
    for at in [one, other] {
        if let Some(at) = at {
            push(rt, words, box_word(place, at, calls));
        }
    }
}

/// Adds the word for the guard or the owner that the call of a place names.
fn add_holder(
    rt: &impl Abort,
    words: &mut Vec<&'static str>,
    place: usize,
    call: &Call<String>,
    replies: &[Reply<String>],
    reply: &Reply<String>,
) {
    if let Some(named) = guard_in(call) {
        let is_there = matches!(replies.get(named), Some(Reply::Reader | Reply::Writer));
        push(rt, words, GUARD.word(place, named, is_there, reply));
    }
    if let Some(named) = owner_in(call) {
        let is_there = matches!(replies.get(named), Some(Reply::Owner));
        push(rt, words, OWNER.word(place, named, is_there, reply));
    }
}

/// The words for the calls of a list and the replies to them: for each call its kind, its reply's,
/// its value, and what the things are that it names.
pub(crate) fn words_of(
    rt: &impl Abort,
    alloc: Global,
    calls: &[Call<String>],
    replies: &[Reply<String>],
) -> Vec<&'static str> {
    let mut words = Vec::new(alloc);
    for (place, (call, reply)) in calls.iter().zip(replies.iter()).enumerate() {
        push(rt, &mut words, call_word(call));
        push(rt, &mut words, reply_word(reply));
        if let Some(value) = value_in(call) {
            push(rt, &mut words, value_word(value));
        }
        add_boxes(rt, &mut words, place, call, calls);
        add_holder(rt, &mut words, place, call, replies, reply);
    }
    words
}
