//! The tally of one worker, and what all of them have together.

ghost use Rattle.std.specs.Prelude.{◌≡◌, ◌+◌, All, IfErr, IfOk, length, map};
ghost use Rattle.generational_errors.specs.declared.error.StoreError.TheVariants.{OutOfMemory};
ghost use Rattle.generational_workers.specs.Runs.{all_merged};

use generational_box::StoreError;
use generational_sync::{Count, Tally};
use std::alloc::Global;

/// A tally that no other is merged in.
#[derive(Drop)]
pub(crate) struct OwnTally<M: Count, L: Count, C: Count, R: Count> {
    pub(crate) tally: Tally<M, L, C, R>,
    ghost one: { tally.parts ≡ 1 },
}

impl<M: Count, L: Count, C: Count, R: Count> OwnTally<M, L, C, R> {
    pub(crate) fn new(tally: Tally<M, L, C, R>) -> Self
        requires { tally.parts ≡ 1 }
        ensures { result.tally ≡ tally }
    {
        OwnTally { tally }
    }
}

/// All tallies in one, and what the workers returned. No tally is missing.
pub(crate) fn gather<M: Count, L: Count, C: Count, R: Count, A: Drop>(
    alloc: Global,
    workers: u32,
    chief: OwnTally<M, L, C, R>,
    served: Vec<(OwnTally<M, L, C, R>, A)>,
) -> Result<(Tally<M, L, C, R>, Vec<A>), StoreError>
    requires all { length served.items ≡ workers }
    requires workers { M.workers ≡ workers + 1 }
    ensures whole { IfOk result (λ r. r.0.parts ≡ M.workers) }
    ensures merged { IfOk result (λ r. r.0
        ≡ all_merged chief.tally (map (λ s. s.0.tally) served.items)) }
    ensures answers { IfOk result (λ r. r.1.items ≡ map (λ s. s.1) served.items) }
    ensures refusal { IfErr result (λ e. e ≡ OutOfMemory) }
{
    let _ = workers;
    let OwnTally { tally: mut whole } = chief;
    let mut answers = Vec::new(alloc);
    for (own, answer) in served {
        let Ok(()) = answers.push(answer) else {
            return Err(StoreError::OutOfMemory);
        };
        let OwnTally { tally } = own;
        let Ok(()) = whole.merge(tally) else {
            unreachable!();
        };
    }
    Ok((whole, answers))
}
