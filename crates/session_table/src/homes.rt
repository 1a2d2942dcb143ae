//! For each entry, where it is among the sessions: hints, by which its session is found at once.

ghost use Rattle.std.specs.Prelude.{◌↔◌, ℕ, IfNone, IfSome, IsTrue};
ghost use Rattle.session_table.specs.Homes.{IsInRow, IsEntryAt};

use crate::entry::Entry;
use crate::session::Session;
use handles::parts::slot_of;
use indexmap::IndexMap;
use std::alloc::Global;
use std::hash::Hash;

/// No seat.
const NONE: u32 = u32::MAX;

/// Where an entry is: at an index of the session that has a seat.
#[derive(Clone, Copy)]
struct Home {
    seat: u32,
    index: u32,
}

/// Hints of where entries are. A session keeps its seat while its row moves. Who reads a hint checks it
/// (`is_at`), so that memory that runs out costs only time.
#[derive(Drop)]
pub(crate) struct Homes {
    // the home of the last entry of each slot
    homes: Vec<Home>,
    // the row of each seat's session, or the next free seat
    rows: Vec<u32>,
    free: u32,
}

impl Homes {
    /// No hints. Doesn't allocate.
    pub(crate) fn new(alloc: Global) -> Self {
        Homes {
            homes: Vec::new(alloc),
            rows: Vec::new(alloc),
            free: NONE,
        }
    }

    /// Makes room for more seats, unless memory runs out.
    pub(crate) fn reserve(&mut self, additional: usize) {
        let _ = self.rows.reserve(additional);
    }

    /// A seat for the session of a row, or `NONE` if memory runs out.
    pub(crate) fn take_seat(&mut self, row: usize) -> u32 {
        let seat = self.free;
        if let Some(next) = self.rows.get(seat as usize).copied() {
            self.free = next;
            self.move_seat(seat, row);
            return seat;
        }
        let Ok(seat) = u32::try_from(self.rows.len()) else {
            return NONE;
        };
        match self.rows.push(NONE) {
            Ok(()) => {
                self.move_seat(seat, row);
                seat
            }
            Err(_) => NONE,
        }
    }

    /// Notes that the session of a seat is at a row.
    pub(crate) fn move_seat(&mut self, seat: u32, row: usize) {
        if let (Some(at), Ok(row)) = (self.rows.get_mut(seat as usize), u32::try_from(row)) {
            *at = row;
        }
    }

    /// Frees the seat of a session that has ended.
    pub(crate) fn free_seat(&mut self, seat: u32) {
        if let Some(at) = self.rows.get_mut(seat as usize) {
            *at = self.free;
            self.free = seat;
        }
    }

    /// Notes that the entries of a session from one index to another are there.
    pub(crate) fn note<K: Eq + Hash, T>(
        &mut self,
        session: &Session<K, T>,
        from: usize,
        to: usize,
    ) {
        for index in from..to {
            if let Some((_, entry)) = session.entries.get_index(index) {
                self.note_one(slot_of(*entry), session.seat, index);
            }
        }
    }

    // Notes the home of a slot's entry, unless memory runs out.
    fn note_one(&mut self, slot: usize, seat: u32, index: usize) {
        let Ok(index) = u32::try_from(index) else {
            return;
        };
        for _ in self.homes.len()..slot.saturating_add(1) {
            let vacant = Home {
                seat: NONE,
                index: 0,
            };
            if self.homes.push(vacant).is_err() {
                return;
            }
        }
        if let Some(home) = self.homes.get_mut(slot) {
            *home = Home { seat, index };
        }
    }

    /// Notes that the session of a row is there.
    pub(crate) fn settle<I: Eq + Hash, K: Eq + Hash, T>(
        &mut self,
        rows: &IndexMap<I, Session<K, T>>,
        row: usize,
    ) {
        if let Some((_, session)) = rows.get_index(row) {
            self.move_seat(session.seat, row);
        }
    }

    /// Notes where the other entries of a session are after one was removed: those behind it moved up, or
    /// the last one took its place.
    pub(crate) fn close<K: Eq + Hash, T>(
        &mut self,
        session: &Session<K, T>,
        removed: Entry<T>,
        in_order: bool,
    ) {
        let Some((_, from)) = self.at(removed) else {
            return;
        };
        let to = if in_order {
            session.entries.len()
        } else {
            from.saturating_add(1)
        };
        self.note(session, from, to);
    }

    // The row and the index that are noted for an entry's slot.
    fn at<T>(&self, entry: Entry<T>) -> Option<(usize, usize)> {
        let home = self.homes.get(slot_of(entry))?;
        let row = self.rows.get(home.seat as usize)?;
        Some((*row as usize, home.index as usize))
    }

    /// The row whose session has an entry, if there is one: by the hint, or else among all of them.
    pub(crate) fn row_of<I: Eq + Hash, K: Eq + Hash, T>(
        &self,
        rows: &IndexMap<I, Session<K, T>>,
        entry: Entry<T>,
    ) -> Option<usize>
        ensures found { IfSome result (λ row. IsInRow rows.now.entries row entry) }
        ensures none { IfNone result ((row : ℕ) → IsInRow rows.now.entries row entry → ⊥) }
    {
        if let Some((near, index)) = self.at(entry) {
            if is_at(rows, near, index, entry) {
                return Some(near);
            }
        }
        for row in 0..rows.len() {
            if lists(rows, row, entry) {
                return Some(row);
            }
        }
        None
    }
}

// Whether an entry is at an index of a row's session.
fn is_at<I: Eq + Hash, K: Eq + Hash, T>(
    rows: &IndexMap<I, Session<K, T>>,
    row: usize,
    index: usize,
    entry: Entry<T>,
) -> bool
    ensures { IsTrue result ↔ IsEntryAt rows.now.entries row index entry }
{
    let Some((_, session)) = rows.get_index(row) else {
        return false;
    };
    match session.entries.get_index(index) {
        Some((_, found)) => *found == entry,
        None => false,
    }
}

// Whether a row's session has an entry.
fn lists<I: Eq + Hash, K: Eq + Hash, T>(
    rows: &IndexMap<I, Session<K, T>>,
    row: usize,
    entry: Entry<T>,
) -> bool
    ensures { IsTrue result ↔ IsInRow rows.now.entries row entry }
{
    let Some((_, session)) = rows.get_index(row) else {
        return false;
    };
    for index in 0..session.entries.len() {
        if is_at(rows, row, index, entry) {
            return true;
        }
    }
    false
}
