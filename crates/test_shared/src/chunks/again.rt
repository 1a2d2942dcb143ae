//! A list in chunks that is filled and emptied many times, as a history is with each checkpoint.

use crate::chunks::memory::{append, empty_all};
use shared_chunks::Chunks;
use std::test::*;

/// The chunks of the first time serve each later one: memory is asked for seldom then.
#[test]
fn chunks_serve_again(rt: HostRuntime) {
    let mut list = Chunks::new(rt.alloc());
    for _ in 0..20u64 {
        append(&rt, &mut list, 0, 50_000);
        empty_all(&rt, &mut list, rt.alloc());
    }
}
