//! A list in chunks when there is just enough memory for what is needed.

use shared_chunks::Chunks;
use std::test::*;

/// Room for 3,000 numbers of 8 bytes, with no more memory for them than that.
#[test]
fn room_for_what_is_needed(rt: HostRuntime) {
    let mut list: Chunks<u64> = Chunks::new(rt.alloc());
    list.reserve(3_000).expect(&rt, "room");
}
