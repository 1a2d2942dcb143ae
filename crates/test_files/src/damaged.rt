//! Damaged and hostile files: each is an error, with the index of the byte where it was found.

use crate::files::{FILES, assert_reads, read};
use crate::stored::{MAGIC, NAMES, PLACE, SLOTS, STORED, TAIL, TEXT, UTF8, VARIANT, VERSION};
use saved_bytes::{DecodeError, Fault, ReadError};
use std::alloc::Global;
use std::process::Abort;

/// Whether these bytes are an error for a damaged file.
fn is_refused(alloc: Global, bytes: &[u8]) -> bool {
    matches!(
        read(alloc, bytes, &FILES),
        Err(ReadError::Decode(DecodeError::Damaged(_, _)))
    )
}

#[test]
fn hostile_files_are_refused(rt: HostRuntime) {
    let alloc = rt.alloc();
    assert_reads(&rt, alloc, &NAMES, "at byte 59: the bytes end too early");
    assert_reads(&rt, alloc, &SLOTS, "at byte 76: the bytes end too early");
    assert_reads(&rt, alloc, &TEXT, "at byte 44: the bytes end too early");
    assert_reads(&rt, alloc, &UTF8, "at byte 44: the text isn't UTF-8");
    assert_reads(
        &rt,
        alloc,
        &VARIANT,
        "at byte 84: no variant has this number",
    );
    assert_reads(
        &rt,
        alloc,
        &PLACE,
        "at byte 85: the location's file isn't in the table",
    );
    assert_reads(
        &rt,
        alloc,
        &TAIL,
        "at byte 76: bytes stand behind the values",
    );
    assert_reads(
        &rt,
        alloc,
        &VERSION,
        "at byte 8: the file has another version",
    );
    assert_reads(
        &rt,
        alloc,
        &MAGIC,
        "at byte 0: the file isn't one of saved values",
    );
    assert_reads(&rt, alloc, &[], "at byte 0: the bytes end too early");
}

/// Whether the first bytes of the stored file are an error at their end, or at the number of a header in
/// which they end.
fn is_refused_at_its_end(alloc: Global, len: usize) -> bool {
    if len > STORED.len() {
        return false;
    }
    match read(alloc, &STORED[..len], &FILES) {
        Err(ReadError::Decode(DecodeError::Damaged(at, Fault::Short))) => len
            .checked_sub(at)
            .is_some_and(|left| left < 8),
        _ => false,
    }
}

#[test]
fn cut_files_are_refused(rt: HostRuntime) {
    let alloc = rt.alloc();
    for len in 0..STORED.len() {
        assert!(rt; is_refused_at_its_end(alloc, len));
    }
}

/// Whether the stored file is an error with this bit flipped.
fn is_refused_flipped(alloc: Global, index: usize, bit: u32) -> bool {
    let mut bytes = STORED;
    if index < bytes.len() && bit < 8 {
        bytes[index] ^= 1 << bit;
    }
    is_refused(alloc, &bytes)
}

#[test]
fn flipped_files_are_refused(rt: HostRuntime) {
    let alloc = rt.alloc();
    for index in 0..STORED.len() {
        for bit in 0..8 {
            assert!(rt; is_refused_flipped(alloc, index, bit));
        }
    }
}

/// Whether the stored file is an error with this byte after it.
fn is_refused_with(rt: &impl Abort, alloc: Global, byte: u8) -> bool {
    let mut bytes = Vec::from_slice(alloc, &STORED).expect(rt, "memory");
    bytes.push(byte).expect(rt, "memory");
    is_refused(alloc, bytes.as_slice())
}

#[test]
fn longer_files_are_refused(rt: HostRuntime) {
    let alloc = rt.alloc();
    for byte in 0..=255 {
        assert!(rt; is_refused_with(&rt, alloc, byte));
    }
}

/// The next of a sequence of pseudorandom numbers.
fn drawn(state: &mut u64) -> usize {
    *state = state
        .wrapping_mul(6_364_136_223_846_793_005)
        .wrapping_add(1_442_695_040_888_963_407);
    (*state >> 33) as usize
}

/// The stored file with up to four random bytes, and truncated or not.
fn mutated(rt: &impl Abort, alloc: Global, state: &mut u64) -> Vec<u8> {
    let mut bytes = Vec::from_slice(alloc, &STORED).expect(rt, "memory");
    for _ in 0..drawn(state) % 4 + 1 {
        let index = drawn(state) % STORED.len();
        let byte = (drawn(state) % 256) as u8;
        if index < bytes.len() {
            bytes[index] = byte;
        }
    }
    if drawn(state) % 4 == 0 {
        bytes.truncate(drawn(state) % STORED.len());
    }
    bytes
}

/// Whether the bytes are the stored file, or an error.
fn is_known_or_refused(alloc: Global, bytes: &[u8]) -> bool {
    bytes == STORED.as_slice() || is_refused(alloc, bytes)
}

#[test]
fn mutated_files_are_refused(rt: HostRuntime) {
    let alloc = rt.alloc();
    let mut state = 1;
    for _ in 0..100_000 {
        let bytes = mutated(&rt, alloc, &mut state);
        assert!(rt; is_known_or_refused(alloc, bytes.as_slice()));
    }
}
