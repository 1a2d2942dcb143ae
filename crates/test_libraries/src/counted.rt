//! Values that are counted by what std's `Rc` counts, so that a test sees when one is dropped.

use crate::expected::{assert_same, given};
use std::alloc::Global;
use std::process::Abort;
use std::rc::Rc;

/// A value that is counted by its clones.
pub(crate) type Counted = Rc<u32>;

/// A value of which the test keeps a clone.
pub(crate) fn new_counted(rt: &impl Abort, alloc: Global) -> Counted {
    given(rt, Rc::new(alloc, 5))
}

/// Another clone of a value.
pub(crate) fn another(rt: &impl Abort, value: &Counted) -> Counted {
    value.clone().expect(rt, "a clone")
}

/// Asserts how many clones of a value there are.
pub(crate) fn assert_count(rt: &impl Abort, value: &Counted, count: usize) {
    assert_same(rt, &Rc::strong_count(value), &count);
}

/// Drops a value.
pub(crate) fn let_go(_value: Counted) {}
