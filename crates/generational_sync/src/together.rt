//! One lock round what several threads share, and several calls under it.

ghost use Rattle.std.specs.Fn.{FnOnceReturnsAtMut};

use std::sync::{Condvar, Mutex, MutexGuard, Wait};

/// What the lock protects.
#[derive(Drop)]
pub(crate) struct Held<S> {
    pub(crate) state: S,
    // how many calls sleep, or have come so far that a wake would reach them
    pub(crate) waiting: usize,
}

/// What the handles of one store share.
#[derive(Drop)]
pub(crate) struct Shared<S> {
    pub(crate) held: Mutex<Held<S>>,
    // notified after each step that may have freed a waiting call
    pub(crate) freed: Condvar,
}

impl<S> Shared<S> {
    // Releases the lock, and wakes all waiting calls if some may go on.
    pub(crate) fn unlock(&self, held: MutexGuard<'_, Held<S>>, frees: bool) {
        let wakes = frees && held.waiting != 0;
        drop(held);
        if wakes {
            self.freed.notify_all();
        }
    }
}

/// The lock of a shared store, for several calls under it: see
/// [`SyncStorage::together`](crate::SyncStorage::together).
#[derive(Clone, Copy)]
pub struct Together<'a, S> {
    shared: &'a Shared<S>,
}

impl<'a, S> Together<'a, S> {
    pub(crate) fn of(shared: &'a Shared<S>) -> Together<'a, S> {
        Together { shared }
    }

    /// Calls `f` once on what the lock protects, and returns its result. The lock is held meanwhile: each
    /// call that `f` makes is a separate step, and no step of another worker comes between. So several
    /// calls take the lock once. None of them waits: `ready` returns whether no borrow is in a call's
    /// way, and `f` decides what to do then. Waiting calls are woken at its end. `f` must not call the
    /// store by a handle: it would deadlock.
    ///
    /// It never fails, and allocates only what `f` does.
    ///
    /// ```rust
    /// let Worker { store, tally, .. } = self;
    /// store
    ///     .together()
    ///     .run(rt, |state| read_at_once(state, tally, value))
    /// ```
    pub fn run<A, F: FnOnce(&mut S) -> A>(&self, rt: &impl Wait, f: F) -> A
        requires { F.IsAlwaysCallable f }
        ensures { (old new : S) × FnOnceReturnsAtMut F.FnOnce f old result new }
    {
        let mut held = self.shared.held.lock(rt);
        let answer = f(&mut held.state);
        self.shared.unlock(held, true);
        answer
    }
}
