//! Lists of calls that are drawn from words.

use generational_box::{BoxAt, Call, GenerationalBox, Location};
use std::alloc::{AllocError, Global};

/// How many words a call is drawn from.
pub(crate) const WORDS: usize = 8;

/// How many of the latest places of a kind are used.
const LATEST: usize = 16;

/// The values of the calls.
const VALUES: [&str; 5] = ["", "a", "bc", "def", "three words here"];

/// Draws a list of calls, each from eight words. The calls depend on the words, and on the boxes of other
/// stores that may be used.
///
/// Every kind of call can occur. Most places in calls hold a box, an owner or a guard, if no allocation
/// failed: perhaps one that is stale, or consumed, or a reader instead of a writer. Some were in an
/// earlier removal or release, so most of them are stale or consumed. Some may hold anything, and some
/// are past the end.
pub fn fuzz_calls(
    alloc: Global,
    words: &[u32],
    strangers: &[GenerationalBox<String>],
) -> Result<Vec<Call<String>>, AllocError> {
    let count = words.len() / WORDS;
    let mut calls = Vec::with_capacity(alloc, count)?;
    let mut drawing = Drawing::new(alloc, words, strangers);
    drawing.add_calls(&mut calls, count)?;
    Ok(calls)
}

/// A list that is being drawn.
#[derive(Drop)]
struct Drawing<'a> {
    alloc: Global,
    words: &'a [u32],
    strangers: &'a [GenerationalBox<String>],
    // the call that is being drawn, and its next word
    place: usize,
    next: usize,
    // the calls so far that may have returned a box, an owner and a guard
    boxes: Vec<usize>,
    owners: Vec<usize>,
    guards: Vec<usize>,
    // the boxes that a call was to remove, and the owners and guards that one was to consume
    ended: Vec<usize>,
    spent_owners: Vec<usize>,
    spent_guards: Vec<usize>,
}

impl<'a> Drawing<'a> {
    fn new(
        alloc: Global,
        words: &'a [u32],
        strangers: &'a [GenerationalBox<String>],
    ) -> Drawing<'a> {
        Drawing {
            alloc,
            words,
            strangers,
            place: 0,
            next: 0,
            boxes: Vec::new(alloc),
            owners: Vec::new(alloc),
            guards: Vec::new(alloc),
            ended: Vec::new(alloc),
            spent_owners: Vec::new(alloc),
            spent_guards: Vec::new(alloc),
        }
    }

    // Draws so many calls.
    fn add_calls(&mut self, calls: &mut Vec<Call<String>>, count: usize) -> Result<(), AllocError> {
        for (place, line) in (0..count).zip(1..u32::MAX) {
            calls.push(self.call_at(place, line)?)?;
        }
        Ok(())
    }

    // The call of a place, on this line.
    fn call_at(&mut self, place: usize, line: u32) -> Result<Call<String>, AllocError> {
        self.place = place;
        self.next = place.saturating_mul(WORDS);
        self.call(Location::new("fuzz", line, 1))
    }

    // The next word.
    fn word(&mut self) -> u32 {
        let word = self.words.get(self.next).copied();
        self.next = self.next.saturating_add(1);
        word.unwrap_or(0)
    }

    // A number below `n`, from the next word.
    fn below(&mut self, n: u32) -> u32 {
        self.word().checked_rem(n).unwrap_or(0)
    }

    // A call of any kind.
    fn call(&mut self, location: Location) -> Result<Call<String>, AllocError> {
        match self.below(16) {
            0..=3 => self.leak(location),
            4..=6 => self.insert(location),
            7..=11 => self.borrow(location),
            12..=14 => self.end(),
            _ => Ok(self.ask()),
        }
    }

    // A making without an owner.
    fn leak(&mut self, location: Location) -> Result<Call<String>, AllocError> {
        self.boxes.push(self.place)?;
        Ok(match self.below(4) {
            0 => Call::LeakRc(self.value()?, location),
            1 => Call::LeakReference(self.box_at()),
            _ => Call::Leak(self.value()?, location),
        })
    }

    // A making of an owner, or by one.
    fn insert(&mut self, location: Location) -> Result<Call<String>, AllocError> {
        let kind = self.below(8);
        if kind == 0 {
            self.owners.push(self.place)?;
            return Ok(Call::Owner);
        }
        let owner = self.owner();
        if kind == 1 {
            self.owners.push(self.place)?;
            return Ok(Call::CloneOwner(owner));
        }
        self.boxes.push(self.place)?;
        Ok(match kind {
            2 | 3 => Call::InsertRc(owner, self.value()?, location),
            4 | 5 => Call::InsertReference(owner, self.box_at()),
            _ => Call::Insert(owner, self.value()?, location),
        })
    }

    // A borrow, a `set` or a `replace`, or a borrow's end.
    fn borrow(&mut self, location: Location) -> Result<Call<String>, AllocError> {
        let kind = self.below(12);
        if kind < 6 {
            let asked = self.box_at();
            self.guards.push(self.place)?;
            return Ok(match kind {
                0 | 1 => Call::TryRead(asked, location),
                2 => Call::Read(asked, location),
                3 | 4 => Call::TryWrite(asked, location),
                _ => Call::Write(asked, location),
            });
        }
        if kind == 6 {
            return Ok(Call::Set(self.box_at(), self.value()?));
        }
        let guard = self.guard();
        if kind == 7 {
            return Ok(Call::Replace(guard, self.value()?));
        }
        self.spent_guards.push(guard)?;
        Ok(Call::Release(guard))
    }

    // A removal, or a `point_to`, which may drop a value.
    fn end(&mut self) -> Result<Call<String>, AllocError> {
        let kind = self.below(8);
        if kind < 2 {
            let owner = self.owner();
            self.spent_owners.push(owner)?;
            return Ok(if kind == 0 {
                Call::ReleaseOwner(owner)
            } else {
                Call::LeakOwner(owner)
            });
        }
        let asked = self.box_at();
        if kind < 4 {
            return Ok(Call::PointTo(asked, self.box_at()));
        }
        if let BoxAt::Place(place) = &asked {
            self.ended.push(*place)?;
        }
        Ok(Call::ManuallyDrop(asked))
    }

    // A question.
    fn ask(&mut self) -> Call<String> {
        match self.below(6) {
            0 => Call::Id(self.box_at()),
            1 => Call::RawPtr(self.box_at()),
            2 => Call::CreatedAt(self.box_at()),
            3 => Call::CanRead(self.box_at()),
            4 => Call::CanWrite(self.box_at()),
            _ => Call::PtrEq(self.box_at(), self.box_at()),
        }
    }

    // A value.
    fn value(&mut self) -> Result<String, AllocError> {
        let value = of(&VALUES, self.word());
        String::from_str(self.alloc, value.unwrap_or(""))
    }

    // A box: rarely a foreign one, or that of any place, or one that a call was to remove.
    fn box_at(&mut self) -> BoxAt<String> {
        let word = self.word();
        let rest = word / 16;
        match (word % 16, of(self.strangers, rest)) {
            (0, Some(stranger)) => BoxAt::Foreign(stranger),
            (1, _) => BoxAt::Place(picked(&[], self.place, rest)),
            (2, _) => BoxAt::Place(picked(&self.ended, self.place, rest)),
            _ => BoxAt::Place(picked(&self.boxes, self.place, rest)),
        }
    }

    // The place of an owner.
    fn owner(&mut self) -> usize {
        let word = self.word();
        let places = held(&self.owners, &self.spent_owners, word);
        picked(places, self.place, word / 16)
    }

    // The place of a guard.
    fn guard(&mut self) -> usize {
        let word = self.word();
        let places = held(&self.guards, &self.spent_guards, word);
        picked(places, self.place, word / 16)
    }
}

// The item that a word picks.
fn of<X: Copy>(items: &[X], word: u32) -> Option<X> {
    let index = (word as usize).checked_rem(items.len())?;
    items.get(index).copied()
}

// One of the latest of these places, picked by a word. If there is none, any place: as often one past the
// end as an earlier one.
fn picked(places: &[usize], place: usize, word: u32) -> usize {
    let back = (word as usize).checked_rem(places.len().min(LATEST));
    if let Some(found) = places.iter().rev().nth(back.unwrap_or(0)) {
        return *found;
    }
    let rest = (word / 2) as usize;
    if word % 2 == 0 {
        place.saturating_add(rest % 4)
    } else {
        rest.checked_rem(place).unwrap_or(0)
    }
}

// Which places a word means: rarely those that were consumed, or none of its kind.
fn held<'a>(places: &'a [usize], spent: &'a [usize], word: u32) -> &'a [usize] {
    match word % 16 {
        0 => &[],
        1 | 2 => spent,
        _ => places,
    }
}
