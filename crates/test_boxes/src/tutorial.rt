//! First steps, run: a value, two readers, an error, an owner.

use crate::expected::assert_same;
use crate::fresh::{Beginning, Kind, Over, run_over};
use generational_box::{AnyStorage, BorrowMutResult, GenerationalBox, Location, Storage};
use std::alloc::Global;
use std::process::Abort;

/// Where each call is made: errors have where a borrow began, and where a value was made.
fn line(line: u32) -> Location {
    Location::new("tutorial.rt", line, 5)
}

/// Reads a value by two guards at once. A write meanwhile fails with the lines 17 and 18.
pub fn read_twice<S: Storage<u64>>(store: &mut S, kept: GenerationalBox<u64>) -> Option<u64> {
    let first = kept.try_read(store, line(17)).ok()?;
    let Ok(second) = kept.try_read(store, line(18)) else {
        first.release(store);
        return None;
    };
    let is_written = write(store, kept).is_ok();
    let sum = match (first.deref(store), second.deref(store)) {
        (Some(one), Some(other)) if !is_written => Some(one.wrapping_add(*other)),
        _ => None,
    };
    first.release(store);
    second.release(store);
    sum
}

/// Replaces a value by 8, if it isn't borrowed.
pub fn write<S: Storage<u64>>(store: &mut S, kept: GenerationalBox<u64>) -> BorrowMutResult<()> {
    let mut writer = kept.try_write(store, line(34))?;
    *writer.deref_mut() = 8;
    let _ = writer.release(store);
    Ok(())
}

/// Keeps 7 by an owner, reads it, writes 8, looks at it in passing, and ends the owner. The box is
/// still there then, and reaches nothing.
pub fn first_steps<S: Storage<u64> + Drop>(mut store: S) -> Option<(u64, u64, bool)> {
    let owner = store.owner().ok()?;
    let Ok(kept) = owner.insert(&mut store, 7, line(45)) else {
        owner.leak();
        return None;
    };
    let sum = read_twice(&mut store, kept);
    let is_written = write(&mut store, kept).is_ok();
    let shown = kept.peek(&store).copied();
    match owner.release(&mut store) {
        Ok(()) if is_written => Some((sum?, shown?, kept.is_live(&store))),
        Ok(()) => None,
        Err((owner, _)) => {
            owner.leak();
            None
        }
    }
}

/// The steps, in a store that is made for them.
struct Steps;

impl<R: Abort> Over<u64, R> for Steps {
    type Answer = ();

    fn run<K: Kind<u64>>(rt: &R, alloc: Global, number: u64, beginning: Beginning) {
        let store = K::make(alloc, number, beginning);
        assert_same(rt, &first_steps(store), &Some((14, 8, false)));
    }
}

#[test]
fn a_value_two_readers_a_refusal_an_owner(rt: HostRuntime) {
    run_over::<u64, _, Steps>(&rt, rt.alloc(), 1, Beginning::First);
}
