//! Lists in chunks, past several chunks. Each test passes whichever allocation fails: what fails to
//! allocate is tried a second time.

ghost use Rattle.std.specs.Prelude.{◌≤◌};

use shared_chunks::Chunks;
use std::alloc::Global;
use std::process::Abort;
use std::test::*;

/// Makes room. If an allocation fails, the list's length is unchanged.
fn reserve_or_again(rt: &impl Abort, list: &mut Chunks<u64>, more: usize)
    ensures { more ≤ list.new.room }
{
    let before = list.len();
    if list.reserve(more).is_ok() {
        return;
    }
    assert_eq!(rt; list.len(), before);
    list.reserve(more).expect(rt, "room");
}

/// Appends the numbers from this one up, room being made for each.
pub(crate) fn append(rt: &impl Abort, list: &mut Chunks<u64>, from: u64, count: u64) {
    for more in 0..count {
        reserve_or_again(rt, list, 1);
        list.push(from.wrapping_add(more));
    }
}

/// Asserts that the list has the numbers from 0 up, so many.
fn assert_counts_up(rt: &impl Abort, list: &Chunks<u64>, count: u64) {
    let all = match list.to_vec() {
        Ok(all) => all,
        Err(_) => list.to_vec().expect(rt, "memory"),
    };
    assert_eq!(rt; (list.len() as u64, all.len() as u64), (count, count));
    for (value, kept) in (0..count).zip(all.iter()) {
        assert_eq!(rt; *kept, value);
    }
}

/// Takes all away, and asserts that nothing is left.
pub(crate) fn empty_all(rt: &impl Abort, list: &mut Chunks<u64>, alloc: Global) {
    let anew = match Vec::with_capacity(alloc, 1) {
        Ok(anew) => anew,
        Err(_) => Vec::with_capacity(alloc, 1).expect(rt, "memory"),
    };
    drop(list.empty(anew));
    assert_counts_up(rt, list, 0);
}

/// One after the other, past the third of the largest chunks; and again after all were taken away.
#[test]
fn past_several_chunks(rt: HostRuntime) {
    let mut list = Chunks::new(rt.alloc());
    for count in [5_000, 40, 3_000] {
        append(&rt, &mut list, 0, count);
        assert_counts_up(&rt, &list, count);
        empty_all(&rt, &mut list, rt.alloc());
    }
}

/// Room for more than the largest chunk has at once, before anything is in the list and after.
#[test]
fn many_at_once(rt: HostRuntime) {
    let mut list = Chunks::new(rt.alloc());
    reserve_or_again(&rt, &mut list, 3_000);
    append(&rt, &mut list, 0, 3_500);
    reserve_or_again(&rt, &mut list, 7_000);
    append(&rt, &mut list, 3_500, 7_000);
    assert_counts_up(&rt, &list, 10_500);
}

/// What no memory reaches for changes nothing.
#[test]
fn more_than_there_is(rt: HostRuntime) {
    let mut list = Chunks::new(rt.alloc());
    append(&rt, &mut list, 0, 20);
    for more in [usize::MAX, usize::MAX / 8, usize::MAX / 16] {
        let reserved = list.reserve(more);
        assert!(rt; reserved.is_err());
    }
    append(&rt, &mut list, 20, 100);
    assert_counts_up(&rt, &list, 120);
}
