//! Who ends a test that finds what a scenario doesn't want.

use std::fmt::Debug;
use std::process::Abort;
use std::sync::Wait;
use std::thread::Threads;
use test_shared_workers::Judge;

/// A runtime that fails the test.
#[derive(Drop)]
pub(crate) struct Judging<R>(pub(crate) R);

impl<R: Wait> Wait for Judging<R> {}

impl<R: Threads> Threads for Judging<R> {}

impl<R: Abort> Judge for Judging<R> {
    fn stop<T>(&self, found: &str) -> T {
        panic!(&self.0; "{found}")
    }

    fn demand(&self, holds: bool, found: &str) {
        assert!(&self.0; holds, "{found}");
    }

    fn compare<T: PartialEq + Debug>(&self, found: &T, wanted: &T) {
        assert_eq!(&self.0; *found, *wanted);
    }

    fn expect<T, E: Debug + Drop>(&self, answer: Result<T, E>, wanted: &str) -> T {
        answer.expect(&self.0, wanted)
    }
}
