//! Drawn damage to bytes, and to files whose checksum is right again afterwards.

use std::alloc::Global;
use std::process::Abort;

/// The next of a sequence of pseudorandom numbers.
pub(crate) fn drawn(state: &mut u64) -> u64 {
    *state = state
        .wrapping_mul(6_364_136_223_846_793_005)
        .wrapping_add(1_442_695_040_888_963_407);
    *state >> 33
}

/// A drawn number below another, or 0.
pub(crate) fn drawn_below(state: &mut u64, end: usize) -> usize {
    (drawn(state) as usize).checked_rem(end).unwrap_or(0)
}

/// The bytes before an index, and those from it on.
fn split(bytes: &[u8], at: usize) -> (&[u8], &[u8]) {
    if at <= bytes.len() {
        bytes.split_at(at)
    } else {
        (bytes, &[])
    }
}

/// The bytes of these pieces, one after the other.
fn joined(rt: &impl Abort, alloc: Global, pieces: &[&[u8]]) -> Vec<u8> {
    let mut bytes = Vec::new(alloc);
    for piece in pieces {
        bytes.extend_from_slice(piece).expect(rt, "memory");
    }
    bytes
}

/// Numbers at the ends of their ranges, and lengths that no file has.
const ENDS: [u64; 8] = [0, 1, 5, 255, u32::MAX as u64, 1 << 32, 1 << 63, u64::MAX];

/// A number that replaces eight bytes.
fn drawn_end(state: &mut u64) -> [u8; 8] {
    let end = ENDS.get(drawn_below(state, ENDS.len())).copied();
    end.unwrap_or(0).to_le_bytes()
}

/// Bytes with one damage: a flipped bit, a piece that is cut out or doubled, two pieces that are swapped,
/// a number that is one of the ends, or an end that is cut off.
fn damaged(rt: &impl Abort, alloc: Global, bytes: &[u8], state: &mut u64) -> Vec<u8> {
    let (head, rest) = split(bytes, drawn_below(state, bytes.len()));
    let most = drawn_below(state, 40).saturating_add(1);
    let (one, rest) = split(rest, most);
    let (two, tail) = split(rest, most);
    match drawn(state) % 8 {
        0 => joined(rt, alloc, &[head, two, tail]),
        1 => joined(rt, alloc, &[head, one, one, two, tail]),
        2 => joined(rt, alloc, &[head, two, one, tail]),
        3 => joined(rt, alloc, &[head, one]),
        4 | 5 => {
            let (_, after) = split(split(bytes, head.len()).1, 8);
            joined(rt, alloc, &[head, &drawn_end(state), after])
        }
        _ => {
            let (byte, after) = split(split(bytes, head.len()).1, 1);
            let byte = byte.first().copied().unwrap_or(0) ^ 1 << drawn(state) % 8;
            joined(rt, alloc, &[head, &[byte], after])
        }
    }
}

/// Bytes with one to three damages.
pub(crate) fn mutated(rt: &impl Abort, alloc: Global, bytes: &[u8], state: &mut u64) -> Vec<u8> {
    let mut mutated = damaged(rt, alloc, bytes, state);
    for _ in 0..drawn(state) % 6 / 4 {
        mutated = damaged(rt, alloc, mutated.as_slice(), state);
    }
    mutated
}

/// How many bytes the first piece of a file takes.
const FRONT: usize = 68;

/// A piece with damage, behind a header of what it is then.
fn mutated_piece(rt: &impl Abort, alloc: Global, piece: &[u8], state: &mut u64) -> Vec<u8> {
    let (head, inner) = split(piece, 28);
    let (magic, _) = split(head, 12);
    let inner = mutated(rt, alloc, inner, state);
    let len = (inner.len() as u64).to_le_bytes();
    let sum = checksum(inner.as_slice()).to_le_bytes();
    joined(rt, alloc, &[magic, &len, &sum, inner.as_slice()])
}

/// A file of an image with damage, to the piece of its slots in six of eight files, and to its first
/// piece in one. The piece's header is right afterwards.
pub(crate) fn mutated_file(
    rt: &impl Abort,
    alloc: Global,
    file: &[u8],
    state: &mut u64,
) -> Vec<u8> {
    let (front, slots) = split(file, FRONT);
    match drawn(state) % 8 {
        0 => mutated(rt, alloc, file, state),
        1 => {
            let front = mutated_piece(rt, alloc, front, state);
            joined(rt, alloc, &[front.as_slice(), slots])
        }
        _ => {
            let slots = mutated_piece(rt, alloc, slots, state);
            joined(rt, alloc, &[front, slots.as_slice()])
        }
    }
}

/// What each sum is at first.
const START: u64 = 0x243f_6a88_85a3_08d3;

/// The checksum of a piece's bytes, as a reader in another language would compute it.
pub(crate) fn checksum(bytes: &[u8]) -> u64 {
    let mut sums = (START, START, START, START);
    let mut rest = bytes;
    for _ in 0..bytes.len() / 32 + 1 {
        let (one, after) = split(rest, 8);
        let (two, after) = split(after, 8);
        let (three, after) = split(after, 8);
        let (four, after) = split(after, 8);
        rest = after;
        sums = (
            mixed(sums.0, number(one)),
            mixed(sums.1, number(two)),
            mixed(sums.2, number(three)),
            mixed(sums.3, number(four)),
        );
    }
    mixed(mixed(mixed(sums.0, sums.1), sums.2), sums.3)
}

/// Up to eight bytes, as a number.
fn number(bytes: &[u8]) -> u64 {
    let mut number = 0;
    for byte in bytes.iter().rev() {
        number = number << 8 | u64::from(*byte);
    }
    number
}

fn mixed(sum: u64, word: u64) -> u64 {
    (sum ^ word)
        .wrapping_mul(0x9e37_79b9_7f4a_7c15)
        .rotate_left(31)
}

/// How many drawn files had which outcome.
#[derive(Clone, Copy, Debug)]
pub(crate) struct Counts {
    /// The file of the image is damaged.
    pub(crate) file: u64,
    /// The rows beside it are.
    pub(crate) rows: u64,
    /// No store can have the image.
    pub(crate) image: u64,
    /// No table or tree has such cells.
    pub(crate) cells: u64,
    /// A row has the id of nothing, or comes in the wrong order.
    pub(crate) ids: u64,
    /// All was loaded.
    pub(crate) loaded: u64,
}

/// What became of a drawn file.
#[derive(Clone, Copy)]
pub(crate) enum Outcome {
    File,
    Rows,
    Image,
    Cells,
    Ids,
    Loaded,
}

impl Counts {
    pub(crate) fn new() -> Counts {
        Counts {
            file: 0,
            rows: 0,
            image: 0,
            cells: 0,
            ids: 0,
            loaded: 0,
        }
    }

    pub(crate) fn add(&mut self, outcome: Outcome) {
        let count = match outcome {
            Outcome::File => &mut self.file,
            Outcome::Rows => &mut self.rows,
            Outcome::Image => &mut self.image,
            Outcome::Cells => &mut self.cells,
            Outcome::Ids => &mut self.ids,
            Outcome::Loaded => &mut self.loaded,
        };
        *count = count.wrapping_add(1);
    }

    /// Asserts that each outcome was one of some file.
    pub(crate) fn assert_all(&self, rt: &impl Abort) {
        let counts = [
            self.file,
            self.rows,
            self.image,
            self.cells,
            self.ids,
            self.loaded,
        ];
        assert!(rt; !counts.contains(&0), "{self:?}");
    }
}
