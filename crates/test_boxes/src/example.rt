//! A text is kept in a store, read and ended.

use crate::expected::assert_same;
use crate::fresh::{Beginning, Kind, Over, run_over};
use generational_box::{GenerationalBox, Location, Storage};
use std::alloc::Global;
use std::process::Abort;

/// The length of a text that is kept in a store, read and ended. The store is dropped then.
pub fn length_in<S: Storage<String> + Drop>(mut store: S, text: String) -> Option<usize> {
    let here = Location::new("example.rt", 9, 16);

    // The store owns the text. The box is Copy, and owns nothing.
    let made = GenerationalBox::leak(&mut store, text, here).ok()?;

    // A guard refers to its borrow, and gives a view of the value. It must be released.
    let guard = made.try_read(&mut store, here).ok()?;
    let length = guard.deref(&store).map(|view| view.len());
    guard.release(&mut store);

    // The text ends. The box stays a box, and a read of it fails.
    made.manually_drop(&mut store).ok()?;
    match made.try_read(&mut store, here) {
        Ok(guard) => {
            guard.release(&mut store);
            None
        }
        Err(_) => length,
    }
}

/// A text that is kept in a store and returned. The store is dropped then.
pub fn back_from<S: Storage<String> + Drop>(mut store: S, text: String) -> Option<String> {
    let made = GenerationalBox::leak(&mut store, text, Location::new("example.rt", 39, 16)).ok()?;
    let name: String = made.take(&mut store)?;
    Some(name)
}

/// A text.
fn hello(rt: &impl Abort, alloc: Global) -> String {
    String::from_str(alloc, "hello world").expect(rt, "memory")
}

/// A text that its store returns.
struct HandedBack;

impl<R: Abort> Over<String, R> for HandedBack {
    type Answer = ();

    fn run<K: Kind<String>>(rt: &R, alloc: Global, number: u64, beginning: Beginning) {
        let store = K::make(alloc, number, beginning);
        let back = back_from(store, hello(rt, alloc)).map(|name| name.len());
        assert_same(rt, &back, &Some(11));
    }
}

/// A text that is read and ended.
struct Ended;

impl<R: Abort> Over<String, R> for Ended {
    type Answer = ();

    fn run<K: Kind<String>>(rt: &R, alloc: Global, number: u64, beginning: Beginning) {
        let store = K::make(alloc, number, beginning);
        assert_same(rt, &length_in(store, hello(rt, alloc)), &Some(11));
    }
}

#[test]
fn a_text_that_is_handed_back_or_ended(rt: HostRuntime) {
    run_over::<String, _, HandedBack>(&rt, rt.alloc(), 1, Beginning::First);
    run_over::<String, _, Ended>(&rt, rt.alloc(), 1, Beginning::First);
}
