//! What a service does with a store that its workers share.

ghost use Rattle.std.specs.Prelude.{IfOk};
ghost use Rattle.shared_history.specs.Counts.{Counts};

use crate::worker::Worker;
use generational_box::StoreError;

/// What each worker does, in a thread of its own.
///
/// Nothing has to be proved of a job. A job that wants its callers to know what its workers counted
/// defines `serves`: how a worker's counts before and after, its input and its result are related.
pub trait Job<T>: Sync {
    /// After how many of its calls each worker makes a checkpoint, which drops the steps so far: so the
    /// history of a long run stays short. None are made if it is 0. A worker counts all calls that are
    /// steps, except for the releases of guards.
    const CHECKPOINT_EVERY: u64 = 0;

    /// What each worker gets, like boxes that were made before the threads started.
    type Shared: Copy + Send + Sync;
    /// What each worker returns.
    type Answer: Send + Drop;

    ghost serves: { Self → Self.Shared → Counts → Self.Answer → Counts → Type 0 } = { λ _ _ _ _ _. Unit {0} };

    /// Does the work of one worker.
    fn serve<W: Worker<T>>(&self, worker: &mut W, shared: Self::Shared) -> Self::Answer
        ensures serves { serves self.now shared (W.counts worker.old) result
            (W.counts worker.new) };
}

/// A job with `begin` and `end`, which run in the thread that calls [`run_workers`](crate::run_workers).
pub trait Service<T>: Job<T> {
    /// What the service returns at its end.
    type End: Drop;
    /// How it fails.
    type Error: From<StoreError> + Drop;

    ghost begins: { Self → Counts → Self.Shared → Counts → Type 0 } = { λ _ _ _ _. Unit {0} };

    ghost ends: { Self → Self.Shared → Counts → Self.End → Counts → Type 0 } = { λ _ _ _ _ _. Unit {0} };

    /// Makes what the workers share, before any of them starts.
    fn begin<W: Worker<T>>(&self, worker: &mut W) -> Result<Self::Shared, Self::Error>
        ensures begins { IfOk result (λ shared. begins self.now (W.counts worker.old) shared
            (W.counts worker.new)) };

    /// Runs once all workers have returned.
    fn end<W: Worker<T>>(
        &self,
        worker: &mut W,
        shared: Self::Shared,
    ) -> Result<Self::End, Self::Error>
        ensures ends { IfOk result (λ end. ends self.now shared (W.counts worker.old) end
            (W.counts worker.new)) };
}
