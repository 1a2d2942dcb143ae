//! Calls that are drawn, over boxes that workers exchange.

ghost use Rattle.std.specs.Prelude.{◌<◌};

use crate::calls::Calls;
use generational_box::{GenerationalBox, GenerationalRef, GenerationalRefMut, Location, Owner};
use std::alloc::Global;
use std::sync::{Arc, Mutex, Wait};

/// What is drawn besides the calls of the lists.
pub(crate) trait DrawnCalls: Calls {
    /// Makes another owner of the same record.
    fn clone_owner(&mut self, rt: &impl Wait, owner: &Owner) -> Option<Owner>;

    /// Makes another reference, which ends with the owner.
    fn insert_reference(
        &mut self,
        rt: &impl Wait,
        owner: &Owner,
        of: GenerationalBox<u64>,
    ) -> Option<GenerationalBox<u64>>;

    /// Takes over what another worker has counted. False for the counts of another store.
    fn take_over(&mut self, other: Self) -> bool;

    /// Prints the base and the steps since, a line each, once all other workers' counts were taken over,
    /// and returns how many steps that were.
    fn print_audit(&mut self, rt: &(impl Wait + Print)) -> Option<usize>;
}

/// How many spots a board has.
pub(crate) const SPOTS: u32 = 32;

/// Boxes that workers exchange, each at a spot.
#[derive(Drop)]
pub(crate) struct Board {
    boxes: Arc<Mutex<Vec<GenerationalBox<u64>>>, Global>,
}

impl Board {
    /// A board with these boxes.
    pub(crate) fn new(alloc: Global, boxes: Vec<GenerationalBox<u64>>) -> Option<Board> {
        let boxes = Arc::new(alloc, Mutex::new(boxes)).ok()?;
        Some(Board { boxes })
    }

    /// Another handle of the same board.
    pub(crate) fn try_clone(&self) -> Option<Board> {
        let boxes = Arc::try_clone(&self.boxes).ok()?;
        Some(Board { boxes })
    }

    // The box at a spot.
    fn at(&self, rt: &impl Wait, spot: u32) -> Option<GenerationalBox<u64>> {
        let boxes = self.boxes.lock(rt);
        boxes.get(spot as usize).copied()
    }

    // Puts a box at a spot, and returns the one that was there.
    fn replace(
        &self,
        rt: &impl Wait,
        spot: u32,
        with: GenerationalBox<u64>,
    ) -> Option<GenerationalBox<u64>> {
        let mut boxes = self.boxes.lock(rt);
        let stood = boxes.get_mut(spot as usize)?;
        let old = *stood;
        *stood = with;
        Some(old)
    }
}

/// A worker that draws its calls. While it has a reader's guard, it makes no call that waits for a
/// reader, and while it has a writer's, none that waits: so no workers wait for each other.
#[derive(Drop)]
pub(crate) struct Drawing<S> {
    pub(crate) calls: S,
    board: Board,
    random: u64,
}

impl<S: DrawnCalls> Drawing<S> {
    /// A worker whose calls are drawn from a number.
    pub(crate) fn new(calls: S, board: Board, seed: u64) -> Self {
        Drawing {
            calls,
            board,
            random: seed,
        }
    }

    /// Makes the calls of so many rounds, with a checkpoint after each so many, and with none if that is
    /// 0. None if a checkpoint failed.
    pub(crate) fn rounds(&mut self, rt: &impl Wait, rounds: u64, between: u64) -> Option<()> {
        let mut since = 0u64;
        for _ in 0..rounds {
            self.round(rt);
            since = since.wrapping_add(1);
            if since == between {
                if !self.calls.checkpoint(rt) {
                    return None;
                }
                since = 0;
            }
        }
        Some(())
    }

    // Makes a few calls.
    fn round(&mut self, rt: &impl Wait) {
        let lines = if self.draw(16) == 0 { 200_000 } else { 40 };
        let (line, column) = (self.draw(lines), self.draw(80));
        let file = if self.draw(2) == 0 {
            "drawn.rs"
        } else {
            "board.rs"
        };
        self.calls.move_to(Location::new(file, line, column));
        match self.draw(8) {
            0 => self.make(rt),
            1 => self.own(rt),
            2 | 3 => self.write(rt),
            4 | 5 => self.change(rt),
            _ => self.read(rt),
        }
    }

    // A number below this one.
    fn draw(&mut self, below: u32) -> u32
        requires { 0 < below }
    {
        self.random = self
            .random
            .wrapping_mul(6_364_136_223_846_793_005)
            .wrapping_add(1_442_695_040_888_963_407);
        (self.random % 4_294_967_291) as u32 % below
    }

    // A box of the board.
    fn pick(&mut self, rt: &impl Wait) -> Option<GenerationalBox<u64>> {
        let spot = self.draw(SPOTS);
        self.board.at(rt, spot)
    }

    // Puts a box on the board, and mostly ends the one that it replaces.
    fn show(&mut self, rt: &impl Wait, made: Option<GenerationalBox<u64>>) {
        let Some(made) = made else {
            return;
        };
        let spot = self.draw(SPOTS);
        if let Some(old) = self.board.replace(rt, spot, made) {
            if self.draw(8) != 0 {
                self.calls.end(rt, old);
            }
        }
    }

    // Makes a box of some kind.
    fn make(&mut self, rt: &impl Wait) {
        let of = self.pick(rt);
        let made = match (self.draw(3), of) {
            (0, _) => self.calls.leak(rt, 0),
            (1, Some(of)) => self.calls.leak_reference(rt, of),
            _ => self.calls.leak_rc(rt, 0),
        };
        self.show(rt, made);
    }

    // Makes boxes of an owner's, which mostly end with it, and another owner value of its record.
    fn own(&mut self, rt: &impl Wait) {
        let Some(owner) = self.calls.owner(rt) else {
            return;
        };
        let made = self.calls.insert(rt, &owner, 0);
        self.show(rt, made);
        let made = self.calls.insert_rc(rt, &owner, 0);
        self.show(rt, made);
        if let Some(of) = self.pick(rt) {
            let made = self.calls.insert_reference(rt, &owner, of);
            self.show(rt, made);
        }
        if let Some(other) = self.calls.clone_owner(rt, &owner) {
            self.calls.release_owner(rt, other);
        }
        if self.draw(64) == 0 {
            owner.leak();
        } else {
            self.calls.release_owner(rt, owner);
        }
    }

    // Writes a box, and makes another meanwhile.
    fn write(&mut self, rt: &impl Wait) {
        let Some(asked) = self.pick(rt) else {
            return;
        };
        if let Some(mut guard) = self.calls.write(rt, asked) {
            guard.replace(1);
            let made = self.calls.leak(rt, 0);
            self.calls.release_write(rt, guard);
            self.show(rt, made);
        }
    }

    // Reads two boxes at once.
    fn read(&mut self, rt: &impl Wait) {
        let first = self.begin_read(rt);
        let second = self.begin_read(rt);
        self.end_read(rt, first);
        self.end_read(rt, second);
    }

    // Begins a read of a box.
    fn begin_read(&mut self, rt: &impl Wait) -> Option<GenerationalRef<u64>> {
        let asked = self.pick(rt)?;
        self.calls.read(rt, asked)
    }

    // Ends a read, if it was begun.
    fn end_read(&mut self, rt: &impl Wait, guard: Option<GenerationalRef<u64>>) {
        if let Some(guard) = guard {
            self.calls.release_read(rt, guard);
        }
    }

    // Sets another value, ends a box, or points one elsewhere.
    fn change(&mut self, rt: &impl Wait) {
        let (Some(asked), Some(other)) = (self.pick(rt), self.pick(rt)) else {
            return;
        };
        match self.draw(4) {
            0 => self.calls.set(rt, asked, 2),
            1 => self.calls.end(rt, asked),
            _ => self.calls.point_to(rt, asked, other),
        };
    }

    /// Makes an owner, which stays, with a value and a shared value.
    pub(crate) fn keep(&mut self, rt: &impl Wait) -> Option<Kept> {
        let owner = self.calls.owner(rt)?;
        let value = self.calls.insert(rt, &owner, 0);
        let shared = self.calls.insert_rc(rt, &owner, 0);
        owner.leak();
        Some(Kept {
            value: value?,
            shared: shared?,
        })
    }

    /// Ends the boxes of the board, so that fewer values live than before.
    pub(crate) fn clear(&mut self, rt: &impl Wait) {
        for spot in 0..SPOTS {
            if let Some(asked) = self.board.at(rt, spot) {
                self.calls.end(rt, asked);
            }
        }
    }

    /// Begins a write of one box, and two reads of another: of new ones at first, and then of those that
    /// were kept, which were there in the bases before, by turns.
    pub(crate) fn begin_borrows(
        &mut self,
        rt: &impl Wait,
        kept: Kept,
        turn: u64,
    ) -> Option<Borrows> {
        let (written, read) = match turn {
            0 | 1 => (self.calls.leak_rc(rt, 0)?, self.calls.leak(rt, 0)?),
            2 => (kept.shared, kept.value),
            _ => (kept.value, kept.shared),
        };
        let writer = self.calls.write(rt, written)?;
        let first = self.calls.read(rt, read);
        let second = self.calls.read(rt, read);
        Some(Borrows {
            writer,
            first,
            second,
        })
    }

    /// Ends them.
    pub(crate) fn end_borrows(&mut self, rt: &impl Wait, borrows: Borrows) {
        let Borrows {
            writer,
            first,
            second,
        } = borrows;
        self.end_read(rt, first);
        self.calls.release_write(rt, writer);
        self.end_read(rt, second);
    }
}

/// Boxes of an owner that live through all checkpoints.
#[derive(Clone, Copy)]
pub(crate) struct Kept {
    value: GenerationalBox<u64>,
    shared: GenerationalBox<u64>,
}

/// Borrows that stand while a checkpoint is made.
pub(crate) struct Borrows {
    writer: GenerationalRefMut<u64>,
    first: Option<GenerationalRef<u64>>,
    second: Option<GenerationalRef<u64>>,
}
