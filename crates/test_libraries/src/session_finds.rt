//! Sessions that are found by a borrowed form of their ids, and the ids of those that expire.

use crate::expected::{assert_same, given};
use crate::fresh::{Scene, play};
use crate::session_acts::{put_at, sessions_over};
use example_libraries::sessions::is_left_after;
use generational_box::Storage;
use session_table::SessionTable;
use std::alloc::Global;
use std::process::Abort;
use std::string::String;

/// A session under a text, which is found by texts of the same letters.
struct TextsFind;

impl Scene<u64> for TextsFind {
    fn play<R: Abort, S: Storage<u64> + Drop>(&self, rt: &R, alloc: Global, store: S) {
        assert!(rt; store.is_fresh());
        let mut table: SessionTable<String, String, u64, S> = SessionTable::new(alloc, store);
        assert!(rt; table.is_empty());
        let ada = text(rt, alloc, "ada");
        given(rt, table.login(text(rt, alloc, "ada"), 7));
        let basket = given(rt, table.put(&ada, text(rt, alloc, "basket"), 5, put_at(3)));
        assert!(rt; table.has("ada") && table.has(&ada) && !table.has("bob"));
        assert_same(rt, &table.entry("ada", "basket"), &Some(basket));
        assert_same(rt, &table.get_at("ada", "basket").copied(), &Some(5));
        assert_same(rt, &table.get_at("ada", "name").copied(), &None);
        assert_same(rt, &table.get_at("bob", "basket").copied(), &None);
        let used_at = table.session("ada").map(|session| session.used_at());
        assert_same(rt, &used_at, &Some(7));
        assert!(rt; !table.is_empty());
        let _left = table.finish();
    }
}

/// A text of one's own.
fn text(rt: &impl Abort, alloc: Global, letters: &str) -> String {
    given(rt, String::from_str(alloc, letters))
}

/// Six sessions of which four expire: the last one takes the place of each.
struct ExpiredIdsCome;

impl Scene<u64> for ExpiredIdsCome {
    fn play<R: Abort, S: Storage<u64> + Drop>(&self, rt: &R, alloc: Global, store: S) {
        let mut table = sessions_over(rt, alloc, store);
        for (id, used_at) in [(1, 10), (2, 30), (3, 10), (4, 30), (5, 10), (6, 10)] {
            given(rt, table.login(id, used_at));
        }
        let mut ids = 0u64;
        let ended = table.expire_each(20, |id: u64| ids = ids.wrapping_mul(10).wrapping_add(id));
        assert_same(rt, &ids, &1653);
        assert_same(rt, &ended, &4);
        assert_same(rt, &table.expire(20), &0);
        assert!(rt; is_left_after(&mut table, 30, 2, |_id| {}) && table.has(&4));
        let _left = table.finish();
    }
}

#[test]
fn texts_find_sessions_and_expired_ids_come(rt: HostRuntime) {
    play::<u64, TextsFind>(&rt, rt.alloc(), &TextsFind);
    play::<u64, ExpiredIdsCome>(&rt, rt.alloc(), &ExpiredIdsCome);
}
