//! Several borrows in order; one in the middle ends without moving the others.

ghost use Rattle.std.specs.Prelude.{◌≡◌, ◌≢◌, ◌<◌, ◌≤◌, ◌+◌, ◌-◌, ◌∷◌, ◌++◌, [], length, map};
ghost use Rattle.std.specs.Prelude.{IfOk, OnOk, OnErr, IfSome, Some, is_some, slice_get};
ghost use Rattle.std.specs.Prelude.{not, nat_eq, true};
ghost use Rattle.std.specs.VecDeque.{deque_len, deque_capacity};
ghost use Rattle.std.specs.List.{list_any, filter};
ghost use Rattle.generational_core.specs.Rows.{reader_row};
ghost use Rattle.store_parts.specs.Borrows.{AreTicketsBelow};
ghost use Rattle.store_parts.specs.Queues.{standing_in, TicketsAscend, StandsAt, IsOwnSeat, AreSeatsKept};

use generational_core::parts::Borrow;
use generational_core::{BaseRow, GenerationalBoxId, Location};
use std::alloc::{AllocError, Global};
use std::collections::VecDeque;
use std::marker::Model;
use store_room::push_more;

/// Several borrows in the order in which they began: so their tickets ascend. Contracts model them as
/// that list.
///
/// The one with a ticket is found by binary search. The first and the last are removed. One in the middle
/// is only marked dead, and stays until it comes first or last, or until more entries are dead than live.
/// Then the live ones move together. So the end of a borrow doesn't allocate, and takes amortised the
/// time of the search.
#[derive(Drop)]
pub struct Queue {
    // the first and the last seat live
    seats: VecDeque<Seat>,
    // how many seats live: half of them at least
    live: usize,
}

/// A borrow, and whether it is active.
#[derive(Clone, Copy, Drop)]
struct Seat {
    borrow: Borrow,
    stands: bool,
}

impl Model for Queue {
    ghost use Rattle.std.specs.Prelude.{List};
    ghost use Rattle.generational_core.specs.declared.borrow.Borrow.{Borrow};
    ghost use Rattle.store_parts.specs.Queues.{standing_in, IsQueue};

    ghost Value = { List Borrow };

    ghost view = { λ q. standing_in q.seats.items };

    ghost invariant = { λ q. IsQueue q.seats.items q.live };
}

impl Queue {
    /// Two borrows, in order.
    pub fn of_two(alloc: Global, first: Borrow, second: Borrow) -> Result<Box<Queue>, AllocError>
        requires { AreTicketsBelow second.ticket (first ∷ []) }
        ensures { IfOk result (λ queue. queue.value ≡ first ∷ second ∷ []) }
    {
        let mut seats = VecDeque::with_capacity(alloc, 2)?;
        seats.push_back_reserved(Seat::new(first));
        seats.push_back_reserved(Seat::new(second));
        let queue = Box::new(alloc, Queue { seats, live: 2 })?;
        Ok(queue)
    }

    /// How many there are.
    pub fn len(&self) -> usize
        ensures { result ≡ length self.now }
    {
        self.live
    }

    /// The borrow that began first.
    pub fn first(&self) -> Borrow
        requires { self.now ≢ [] }
        ensures { slice_get self.now 0 ≡ Some result }
    {
        self.seats[0].borrow
    }

    /// Adds a borrow at the end. An allocation can fail only if no entry is dead; nothing changes then.
    pub fn push(&mut self, borrow: Borrow) -> Result<(), AllocError>
        requires { AreTicketsBelow borrow.ticket self.old }
        ensures ok { OnOk result (self.new ≡ self.old ++ borrow ∷ []) }
        ensures err { OnErr result (self.new ≡ self.old) }
    {
        make_room(&mut self.seats)?;
        self.seats.push_back_reserved(Seat::new(borrow));
        self.live += 1;
        Ok(())
    }

    /// Whether a borrow has the ticket.
    pub fn contains(&self, ticket: u64) -> bool
        ensures { result ≡ list_any (λ b. nat_eq b.ticket ticket) self.now }
    {
        find(&self.seats, ticket).is_some()
    }

    /// Removes the ticket's borrow. Returns whether there was one. Doesn't allocate.
    #[cold]
    #[inline(never)]
    pub fn remove(&mut self, ticket: u64) -> bool
        ensures known { result ≡ list_any (λ b. nat_eq b.ticket ticket) self.old }
        ensures after { self.new ≡ filter (λ b. not (nat_eq b.ticket ticket)) self.old }
        ensures others { length self.old ≤ length self.new + 1 }
    {
        let Some(index) = find(&self.seats, ticket) else {
            return false;
        };
        self.seats[index].stands = false;
        self.live -= 1;
        drop_dead_before(&mut self.seats);
        drop_dead_behind(&mut self.seats);
        if self.seats.len() - self.live > self.live {
            drop_dead(&mut self.seats);
        }
        true
    }

    /// Where the borrows began, in order.
    pub fn locations(&self, alloc: Global) -> Result<Vec<Location>, AllocError>
        ensures { IfOk result (λ seats. seats.items ≡ map (λ b. b.location) self.now) }
    {
        locations_of(&self.seats, self.live, alloc)
    }

    /// Appends a row for each borrow in order, as a reader of the value with this id.
    pub fn push_readers(
        &self,
        id: GenerationalBoxId,
        rows: &mut Vec<BaseRow>,
    ) -> Result<(), AllocError>
        ensures { OnOk result (rows.new.items ≡ rows.old.items ++ map (reader_row id) self.now) }
    {
        push_all(&self.seats, id, rows)
    }
}

impl Seat {
    // The entry of a borrow that begins.
    fn new(borrow: Borrow) -> Seat
        ensures { result ≡ record { borrow = borrow; stands = true } }
    {
        Seat {
            borrow,
            stands: true,
        }
    }
}

/// The row of a reader of the value with this id.
pub fn reader_row(id: GenerationalBoxId, borrow: &Borrow) -> BaseRow
    ensures { result ≡ reader_row id borrow.now }
{
    BaseRow::Reader(id, borrow.ticket, borrow.location)
}

// Reserves room for another borrow: mostly it doubles the entries. If an allocation fails, the dead
// entries are removed first.
fn make_room(seats: &mut VecDeque<Seat>) -> Result<(), AllocError>
    ensures ok { OnOk result (deque_len seats.new < deque_capacity seats.new) }
    ensures kept { AreSeatsKept seats.old.items seats.new.items }
{
    if seats.reserve(1).is_ok() {
        return Ok(());
    }
    drop_dead(seats);
    let beside = seats.len().saturating_sub(1) / 2;
    reserve_beside(seats, beside)
}

// Reserves room for another borrow, and for so many in addition, or for half of those and so on.
#[cold]
#[inline(never)]
fn reserve_beside(seats: &mut VecDeque<Seat>, beside: usize) -> Result<(), AllocError>
    ensures items { seats.new.items ≡ seats.old.items }
    ensures ok { OnOk result (deque_len seats.new < deque_capacity seats.new) }
{
    if seats.reserve_exact(beside.saturating_add(1)).is_ok() {
        return Ok(());
    }
    if beside == 0 {
        return Err(AllocError);
    }
    reserve_beside(seats, beside / 2)
}

// The index of the ticket's borrow.
fn find(seats: &VecDeque<Seat>, ticket: u64) -> Option<usize>
    requires { TicketsAscend seats.now.items }
    ensures known { is_some result
        ≡ list_any (λ b. nat_eq b.ticket ticket) (standing_in seats.now.items) }
    ensures there { IfSome result (λ i. IsOwnSeat ticket seats.now.items i) }
{
    match seats.binary_search_by_key(&ticket, |seat| seat.borrow.ticket) {
        Ok(index) if seats[index].stands => Some(index),
        _ => None,
    }
}

// Removes the dead entries that come first.
fn drop_dead_before(seats: &mut VecDeque<Seat>)
    requires { TicketsAscend seats.old.items }
    ensures same { standing_in seats.new.items ≡ standing_in seats.old.items }
    ensures ascend { TicketsAscend seats.new.items }
    ensures first { StandsAt 0 seats.new.items }
{
    while let Some(seat) = seats.front() {
        if seat.stands {
            return;
        }
        seats.pop_front();
    }
}

// Removes the dead entries that come last.
fn drop_dead_behind(seats: &mut VecDeque<Seat>)
    requires ascend { TicketsAscend seats.old.items }
    requires first { StandsAt 0 seats.old.items }
    ensures same { standing_in seats.new.items ≡ standing_in seats.old.items }
    ensures ascend { TicketsAscend seats.new.items }
    ensures first { StandsAt 0 seats.new.items }
    ensures last { StandsAt (length seats.new.items - 1) seats.new.items }
{
    while let Some(seat) = seats.back() {
        if seat.stands {
            return;
        }
        seats.pop_back();
    }
}

// Removes all dead entries.
fn drop_dead(seats: &mut VecDeque<Seat>)
    ensures { seats.new.items ≡ filter (λ p. p.stands) seats.old.items }
{
    seats.retain(|seat| seat.stands);
}

// Where the active borrows began, in order; there are so many.
fn locations_of(
    seats: &VecDeque<Seat>,
    live: usize,
    alloc: Global,
) -> Result<Vec<Location>, AllocError>
    ensures { IfOk result
        (λ found. found.items ≡ map (λ b. b.location) (standing_in seats.now.items)) }
{
    let mut locations = Vec::new(alloc);
    // if the whole length can't be allocated, the list grows as it fills
    let _whole = locations.reserve_exact(live);
    for seat in seats.iter() {
        if seat.stands {
            push_more(&mut locations, seat.borrow.location)?;
        }
    }
    Ok(locations)
}

// Appends a row for each active borrow, in order.
fn push_all(
    seats: &VecDeque<Seat>,
    id: GenerationalBoxId,
    rows: &mut Vec<BaseRow>,
) -> Result<(), AllocError>
    ensures { OnOk result (rows.new.items
        ≡ rows.old.items ++ map (reader_row id) (standing_in seats.now.items)) }
{
    for seat in seats.iter() {
        if seat.stands {
            push_more(rows, reader_row(id, &seat.borrow))?;
        }
    }
    Ok(())
}
