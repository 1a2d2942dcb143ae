//! A service's whole life without threads: its workers serve one after another.

ghost use Rattle.std.specs.Prelude.{◌≡◌, ◌+◌, All, IfErr, IfOk, IfSome, length, map};
ghost use Rattle.generational_errors.specs.declared.error.StoreError.TheVariants.{OutOfMemory};
ghost use Rattle.shared_state.specs.Shared.{IsBlank, IsHistory};
ghost use Rattle.generational_workers.specs.Runs.{HaveServed, IsRun, all_merged};
ghost use Rattle.generational_workers.specs.Waits.{WouldWait};
ghost use Rattle.shared_history.specs.Bases.{IsTallied};
ghost use Rattle.shared_history.specs.Counts.{Counts, new_tallies, new_tally};

use crate::job::{Job, Service};
use crate::lone::{Bench, Lone};
use crate::own::{OwnTally, gather};
use crate::pace::Pace;
use crate::run::{STORE_NUMBER, Served};
use generational_box::{StepCall, StoreError};
use generational_sync::laws::histories_lead_to_sound_states;
use generational_sync::{Base, Count, Step, SyncState, Tally};
use std::alloc::Global;
use std::marker::Brand;
use std::sync::ledger::Blank;

/// What came of a service whose workers served one after another.
#[derive(Drop)]
pub struct Alone<E, A, F> {
    /// What [`run_workers`](crate::run_workers) returns.
    pub outcome: Result<Served<E, A>, F>,
    /// The first call that would have waited for ever.
    pub stuck: Option<StepCall>,
}

/// Runs a service without threads: like [`run_workers`](crate::run_workers), but the workers serve one
/// after another, in the order of their numbers, in the thread that calls this. So a service is
/// tested, and each run of it is the same.
///
/// A call in whose way a borrow stands would wait for ever, since no other thread is there to end the
/// borrow. It fails with `OutOfMemory` instead, changes nothing, and the first such call comes back as
/// `stuck`.
///
/// # Errors
/// `outcome` is the error that the service's beginning or end fails with; `OutOfMemory`, also for
/// 2^32 - 1 workers. The store is dropped then, with what the workers returned.
pub fn run_alone<T: Drop, S: Service<T>>(
    alloc: Global,
    workers: u32,
    service: &S,
) -> Alone<S::End, S::Answer, S::Error>
    ensures history { IfOk result.outcome (λ s. IsHistory 18446744073709551615 s.base s.steps.items) }
    ensures run { IfOk result.outcome (λ s. IsRun (S.begins service.now) (S.serves service.now)
        (S.ends service.now) workers s.end s.answers.items s.base s.steps.items) }
    ensures stuck { IfSome result.stuck (WouldWait T 18446744073709551615) }
{
    let parts = u64::from(workers) + 1;
    run_named::<T, Brand, Brand, Brand, Brand, S>(
        alloc,
        workers,
        service,
        Blank::new(parts),
        Blank::new(parts),
        Blank::new(parts),
        Blank::new(parts),
    )
}

// The same for a store whose ledgers have these names.
fn run_named<T: Drop, M: Count, L: Count, C: Count, R: Count, S: Service<T>>(
    alloc: Global,
    workers: u32,
    service: &S,
    made: Blank,
    lent: Blank,
    changed: Blank,
    refused: Blank,
) -> Alone<S::End, S::Answer, S::Error>
    requires made { IsBlank (workers + 1) made M.name M.parts M.workers }
    requires lent { IsBlank (workers + 1) lent L.name L.parts L.workers }
    requires changed { IsBlank (workers + 1) changed C.name C.parts C.workers }
    requires refused { IsBlank (workers + 1) refused R.name R.parts R.workers }
    ensures history { IfOk result.outcome (λ s. IsHistory 18446744073709551615 s.base s.steps.items) }
    ensures run { IfOk result.outcome (λ s. IsRun (S.begins service.now) (S.serves service.now)
        (S.ends service.now) workers s.end s.answers.items s.base s.steps.items) }
    ensures stuck { IfSome result.stuck (WouldWait T 18446744073709551615) }
{
    let opened = open_bench::<T, STORE_NUMBER, M, L, C, R>(
        alloc, workers, made, lent, changed, refused,
    );
    match opened {
        Ok((bench, chief, tallies)) => {
            run_at_bench(alloc, workers, service, bench, chief, tallies)
        }
        Err(error) => Alone {
            outcome: Err(error.into()),
            stuck: None,
        },
    }
}

// A new store, the tally of the worker who begins and ends the run, and one for each other worker.
fn open_bench<T: Drop, const NUMBER: u64, M: Count, L: Count, C: Count, R: Count>(
    alloc: Global,
    workers: u32,
    made: Blank,
    lent: Blank,
    changed: Blank,
    refused: Blank,
) -> Result<
    (
        Bench<T, NUMBER, M, L, C, R>,
        OwnTally<M, L, C, R>,
        Vec<Tally<M, L, C, R>>,
    ),
    StoreError,
>
    requires made { IsBlank (workers + 1) made M.name M.parts M.workers }
    requires lent { IsBlank (workers + 1) lent L.name L.parts L.workers }
    requires changed { IsBlank (workers + 1) changed C.name C.parts C.workers }
    requires refused { IsBlank (workers + 1) refused R.name R.parts R.workers }
    ensures chief { IfOk result (λ r. r.1.tally ≡ new_tally workers) }
    ensures tallies { IfOk result (λ r. r.2.items ≡ new_tallies workers) }
{
    let (state, mut tallies) = SyncState::<T, NUMBER, M, L, C, R>::new(
        alloc,
        workers as usize + 1,
        made,
        lent,
        changed,
        refused,
    )?;
    let Some(chief) = tallies.pop() else {
        unreachable!();
    };
    Ok((Bench::new(state), OwnTally::new(chief), tallies))
}

// The same at an opened store.
fn run_at_bench<T: Drop, const NUMBER: u64, M: Count, L: Count, C: Count, R: Count, S: Service<T>>(
    alloc: Global,
    workers: u32,
    service: &S,
    bench: Bench<T, NUMBER, M, L, C, R>,
    chief: OwnTally<M, L, C, R>,
    tallies: Vec<Tally<M, L, C, R>>,
) -> Alone<S::End, S::Answer, S::Error>
    requires chief { chief.tally ≡ new_tally workers }
    requires tallies { tallies.items ≡ new_tallies workers }
    requires workers { M.workers ≡ workers + 1 }
    ensures history { IfOk result.outcome (λ s. IsHistory NUMBER s.base s.steps.items) }
    ensures run { IfOk result.outcome (λ s. IsRun (S.begins service.now) (S.serves service.now)
        (S.ends service.now) workers s.end s.answers.items s.base s.steps.items) }
    ensures stuck { IfSome result.stuck (WouldWait T NUMBER) }
{
    let mut first = Lone {
        bench,
        own: chief,
        pace: Pace::new(S::CHECKPOINT_EVERY),
    };
    let begun = service.begin(&mut first);
    let Lone { bench, own, pace } = first;
    let shared = match begun {
        Ok(shared) => shared,
        Err(error) => return fail(bench, error),
    };
    let (bench, served) = serve_in_turn(alloc, service, shared, bench, tallies);
    match served {
        Ok(served) => {
            let last = Lone { bench, own, pace };
            end_at_bench(alloc, workers, service, shared, last, served)
        }
        Err(error) => fail(bench, error.into()),
    }
}

// Ends a service once its workers have served.
fn end_at_bench<T: Drop, const NUMBER: u64, M: Count, L: Count, C: Count, R: Count, S: Service<T>>(
    alloc: Global,
    workers: u32,
    service: &S,
    shared: S::Shared,
    last: Lone<T, NUMBER, M, L, C, R>,
    served: Vec<(OwnTally<M, L, C, R>, S::Answer)>,
) -> Alone<S::End, S::Answer, S::Error>
    requires all { length served.items ≡ workers }
    requires workers { M.workers ≡ workers + 1 }
    ensures history { IfOk result.outcome (λ s. IsHistory NUMBER s.base s.steps.items) }
    ensures counts { IfOk result.outcome (λ s. (s.answers.items ≡ map (λ a. a.1) served.items)
        × ((ended : Counts) × S.ends service.now shared last.own.tally s.end ended
        × IsTallied (all_merged ended (map (λ a. a.0.tally) served.items)) s.base s.steps.items)) }
    ensures stuck { IfSome result.stuck (WouldWait T NUMBER) }
{
    let mut last = last;
    let ended = service.end(&mut last, shared);
    let Lone { bench, own, .. } = last;
    match ended {
        Ok(end) => close(alloc, workers, end, bench, own, served),
        Err(error) => fail(bench, error),
    }
}

// A run that failed.
fn fail<T: Drop, const NUMBER: u64, M: Count, L: Count, C: Count, R: Count, E, A, F>(
    bench: Bench<T, NUMBER, M, L, C, R>,
    error: F,
) -> Alone<E, A, F>
    ensures outcome { result.outcome ≡ Err error }
    ensures stuck { IfSome result.stuck (WouldWait T NUMBER) }
{
    let Bench { stuck, .. } = bench;
    Alone {
        outcome: Err(error),
        stuck,
    }
}

// Has each worker serve, one after another.
fn serve_in_turn<T: Drop, const NUMBER: u64, M: Count, L: Count, C: Count, R: Count, S: Job<T>>(
    alloc: Global,
    service: &S,
    shared: S::Shared,
    bench: Bench<T, NUMBER, M, L, C, R>,
    tallies: Vec<Tally<M, L, C, R>>,
) -> (
    Bench<T, NUMBER, M, L, C, R>,
    Result<Vec<(OwnTally<M, L, C, R>, S::Answer)>, StoreError>,
)
    requires each { All (λ t. t.parts ≡ 1) tallies.items }
    ensures len { IfOk result.1 (λ r. length r.items ≡ length tallies.items) }
    ensures served { IfOk result.1 (λ r. HaveServed (S.serves service.now shared) tallies.items
        (map (λ s. s.1) r.items) (map (λ s. s.0.tally) r.items)) }
{
    let mut bench = bench;
    let mut served = Vec::new(alloc);
    for tally in tallies {
        let given = OwnTally::new(tally);
        let (left, own, answer) = serve_one(service, shared, bench, given);
        bench = left;
        let Ok(()) = served.push((own, answer)) else {
            return (bench, Err(StoreError::OutOfMemory));
        };
    }
    (bench, Ok(served))
}

// Serves as one worker, and returns the store and the tally with what the worker returns.
fn serve_one<T: Drop, const NUMBER: u64, M: Count, L: Count, C: Count, R: Count, S: Job<T>>(
    service: &S,
    shared: S::Shared,
    bench: Bench<T, NUMBER, M, L, C, R>,
    own: OwnTally<M, L, C, R>,
) -> (
    Bench<T, NUMBER, M, L, C, R>,
    OwnTally<M, L, C, R>,
    S::Answer,
)
    ensures { S.serves service.now shared own.tally result.2 result.1.tally }
{
    let mut lone = Lone {
        bench,
        own,
        pace: Pace::new(S::CHECKPOINT_EVERY),
    };
    let answer = service.serve(&mut lone, shared);
    let Lone { bench, own, .. } = lone;
    (bench, own, answer)
}

// Merges the tallies, and audits the store.
fn close<
    T: Drop,
    const NUMBER: u64,
    M: Count,
    L: Count,
    C: Count,
    R: Count,
    E: Drop,
    A: Drop,
    F: From<StoreError>,
>(
    alloc: Global,
    workers: u32,
    end: E,
    bench: Bench<T, NUMBER, M, L, C, R>,
    chief: OwnTally<M, L, C, R>,
    served: Vec<(OwnTally<M, L, C, R>, A)>,
) -> Alone<E, A, F>
    requires all { length served.items ≡ workers }
    requires workers { M.workers ≡ workers + 1 }
    ensures history { IfOk result.outcome (λ s. IsHistory NUMBER s.base s.steps.items) }
    ensures counts { IfOk result.outcome (λ s. (s.end ≡ end)
        × (s.answers.items ≡ map (λ a. a.1) served.items)
        × IsTallied (all_merged chief.tally (map (λ a. a.0.tally) served.items)) s.base s.steps.items) }
    ensures stuck { IfSome result.stuck (WouldWait T NUMBER) }
{
    let Bench {
        mut state,
        stuck,
        ..
    } = bench;
    let outcome = match audit(alloc, workers, &mut state, chief, served) {
        Ok((answers, base, steps)) => Ok(Served {
            end,
            answers,
            base,
            steps,
        }),
        Err(error) => Err(error.into()),
    };
    Alone { outcome, stuck }
}

fn audit<T: Drop, const NUMBER: u64, M: Count, L: Count, C: Count, R: Count, A: Drop>(
    alloc: Global,
    workers: u32,
    state: &mut SyncState<T, NUMBER, M, L, C, R>,
    chief: OwnTally<M, L, C, R>,
    served: Vec<(OwnTally<M, L, C, R>, A)>,
) -> Result<(Vec<A>, Base, Vec<Step>), StoreError>
    requires all { length served.items ≡ workers }
    requires workers { M.workers ≡ workers + 1 }
    ensures answers { IfOk result (λ r. r.0.items ≡ map (λ s. s.1) served.items) }
    ensures history { IfOk result (λ r. IsHistory NUMBER r.1 r.2.items) }
    ensures counts { IfOk result (λ r. IsTallied
        (all_merged chief.tally (map (λ s. s.0.tally) served.items)) r.1 r.2.items) }
    ensures refusal { IfErr result (λ e. e ≡ OutOfMemory) }
{
    state.history_replays();
    let (mut whole, answers) = gather(alloc, workers, chief, served)?;
    let (base, steps) = state.audit(&mut whole)?;
    Ok((answers, base, steps))
}
