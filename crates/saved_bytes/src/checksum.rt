//! The checksum of a piece's bytes, which finds damage.

ghost use Rattle.std.specs.Prelude.{◌≡◌, ◌*◌, ◌<◌, ◌^◌, slice_index};
ghost use Rattle.saved_bytes.specs.Files.{checksum, four_sums, mixed, one_sum, word};

use crate::pieces::VERSION;

const START: u64 = 0x243f_6a88_85a3_08d3;

const FACTOR: u64 = 0x9e37_79b9_7f4a_7c15;

/// The bytes' checksum in a piece of this version: they are taken as numbers of eight bytes, each of
/// which is mixed in by a step that maps different numbers to different sums. So a change within one of
/// these numbers always changes the sum.
pub fn checksum(version: u32, bytes: &[u8]) -> u64
    ensures { result ≡ checksum version bytes.now }
{
    if version == VERSION {
        four_sums(bytes)
    } else {
        one_sum(bytes)
    }
}

fn one_sum(bytes: &[u8]) -> u64
    ensures { result ≡ one_sum bytes.now }
{
    let words = bytes.len() / 8;
    let mut sum = START;
    for k in 0..words {
        sum = mix(sum, word_at(bytes, k));
    }
    mix(sum, word_at(bytes, words))
}

// The numbers are dealt to four sums in turn: a processor computes these at the same time.
fn four_sums(bytes: &[u8]) -> u64
    ensures { result ≡ four_sums bytes.now }
{
    let (mut a, mut b, mut c, mut d) = (START, START, START, START);
    for k in 0..bytes.len() / 32 + 1 {
        let rest = &bytes[32 * k..];
        a = mix(a, word_at(rest, 0));
        b = mix(b, word_at(rest, 1));
        c = mix(c, word_at(rest, 2));
        d = mix(d, word_at(rest, 3));
    }
    mix(mix(mix(a, b), c), d)
}

fn mix(sum: u64, word: u64) -> u64
    ensures { result ≡ mixed sum word }
{
    (sum ^ word).wrapping_mul(FACTOR).rotate_left(31)
}

// The k-th eight bytes, as a number. Missing ones count as zeros.
fn word_at(bytes: &[u8], k: usize) -> u64
    requires { 8 * k < 2 ^ 64 }
    ensures { result ≡ word bytes.now k }
{
    let rest = &bytes[(8 * k).min(bytes.len())..];
    if rest.len() >= 8 {
        return u64::from_le_bytes([
            rest[0], rest[1], rest[2], rest[3], rest[4], rest[5], rest[6], rest[7],
        ]);
    }
    u64::from_le_bytes([
        byte_at(rest, 0),
        byte_at(rest, 1),
        byte_at(rest, 2),
        byte_at(rest, 3),
        byte_at(rest, 4),
        byte_at(rest, 5),
        byte_at(rest, 6),
        byte_at(rest, 7),
    ])
}

fn byte_at(bytes: &[u8], index: usize) -> u8
    ensures { result ≡ slice_index bytes.now index }
{
    match bytes.get(index) {
        Some(byte) => *byte,
        None => 0,
    }
}
