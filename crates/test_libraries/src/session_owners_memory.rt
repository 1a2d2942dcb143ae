//! Sessions that are found from their entries if memory ran out before: whichever allocation fails.

use crate::expected::{assert_same, given};
use crate::fresh::{Scene, play_both};
use crate::session_acts::sessions_over;
use crate::session_owners::{entry_or_again, reserve_or_again};
use generational_box::Storage;
use std::alloc::Global;
use std::process::Abort;

/// Sessions in room that was made for them, with entries that may have no hint of their place.
struct FindWithout;

impl Scene<u64> for FindWithout {
    fn play<R: Abort, S: Storage<u64> + Drop>(&self, rt: &R, alloc: Global, store: S) {
        let mut table = sessions_over(rt, alloc, store);
        reserve_or_again(rt, &mut table, 100);
        // No login asks for memory.
        for id in 0..100 {
            given(rt, table.login(id, 0));
        }
        for id in 0..100 {
            let entry = entry_or_again(rt, &mut table, id, 7);
            assert_same(rt, &table.session_of(entry).copied().ok(), &Some(id));
        }
        let _left = table.finish();
    }
}

#[test]
fn entries_without_hints_find_their_sessions(rt: HostRuntime) {
    play_both::<u64, FindWithout>(&rt, rt.alloc(), &FindWithout);
}
