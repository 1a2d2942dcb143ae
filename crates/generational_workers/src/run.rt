//! A store's whole life: it is made, served by workers in threads of their own, and audited.

ghost use Rattle.std.specs.Prelude.{◌≡◌, ◌+◌, All, IfOk, length, map};
ghost use Rattle.std.specs.Thread.{IsSend, IsSync};
ghost use Rattle.shared_state.specs.Shared.{IsBlank, IsHistory};
ghost use Rattle.generational_workers.specs.Runs.{HaveServed, IsRun};
ghost use Rattle.shared_history.specs.Counts.{new_tallies, new_tally};

use crate::hand::Hand;
use crate::job::{Job, Service};
use crate::own::{OwnTally, gather};
use crate::pace::Pace;
use generational_box::StoreError;
use generational_sync::{Base, Count, Step, SyncStorage, Tally};
use std::alloc::Global;
use std::marker::Brand;
use std::sync::Wait;
use std::sync::ledger::Blank;
use std::thread;
use std::thread::Threads;

/// The number of each store that [`run_workers`] creates: a box of one run means nothing in another.
pub const STORE_NUMBER: u64 = u64::MAX;

/// What a service and each of its workers returned, in their order, and the history of the store: the
/// base that it starts from, and its steps.
#[derive(Drop)]
pub struct Served<E, A> {
    /// What the service returned at its end.
    pub end: E,
    /// What each worker returned: the first is that of worker 0.
    pub answers: Vec<A>,
    /// The state that the history starts from.
    pub base: Base,
    /// The steps from there on.
    pub steps: Vec<Step>,
}

/// Creates a store with the number [`STORE_NUMBER`], begins the service, starts a thread for each
/// worker, waits until all of them have returned, ends the service, and audits the store. Returns
/// what the service and its workers returned, with the store's history: it replays, and has exactly
/// as many steps of each kind as were counted by the workers and by the one that begins and ends.
/// If no thread can be started, workers serve one after another.
///
/// # Errors
/// What the service's beginning or end fails with; `OutOfMemory`, also for 2^32 - 1 workers. The
/// store is dropped then, with what the workers returned.
pub fn run_workers<T: Drop + Send, S: Service<T>, H: Threads + Wait + Sync>(
    rt: &H,
    alloc: Global,
    workers: u32,
    service: &S,
) -> Result<Served<S::End, S::Answer>, S::Error>
    ensures history { IfOk result (λ s. IsHistory 18446744073709551615 s.base s.steps.items) }
    ensures run { IfOk result (λ s. IsRun (S.begins service.now) (S.serves service.now)
        (S.ends service.now) workers s.end s.answers.items s.base s.steps.items) }
{
    let parts = u64::from(workers) + 1;
    run_named::<T, Brand, Brand, Brand, Brand, S, H>(
        rt,
        alloc,
        workers,
        service,
        Blank::new(parts),
        Blank::new(parts),
        Blank::new(parts),
        Blank::new(parts),
    )
}

// The same for a store whose ledgers have these names. It has no const parameter, since no names could
// be picked at a call of one that has.
fn run_named<
    T: Drop + Send,
    M: Count + Send + Sync,
    L: Count + Send + Sync,
    C: Count + Send + Sync,
    R: Count + Send + Sync,
    S: Service<T>,
    H: Threads + Wait + Sync,
>(
    rt: &H,
    alloc: Global,
    workers: u32,
    service: &S,
    made: Blank,
    lent: Blank,
    changed: Blank,
    refused: Blank,
) -> Result<Served<S::End, S::Answer>, S::Error>
    requires made { IsBlank (workers + 1) made M.name M.parts M.workers }
    requires lent { IsBlank (workers + 1) lent L.name L.parts L.workers }
    requires changed { IsBlank (workers + 1) changed C.name C.parts C.workers }
    requires refused { IsBlank (workers + 1) refused R.name R.parts R.workers }
    ensures history { IfOk result (λ s. IsHistory 18446744073709551615 s.base s.steps.items) }
    ensures run { IfOk result (λ s. IsRun (S.begins service.now) (S.serves service.now)
        (S.ends service.now) workers s.end s.answers.items s.base s.steps.items) }
{
    let (chief, desks) = open_desks::<T, STORE_NUMBER, M, L, C, R>(
        alloc, workers, made, lent, changed, refused,
    )?;
    let Desk { store, own } = chief;
    let pace = Pace::new(S::CHECKPOINT_EVERY);
    let mut chief = Hand {
        rt,
        store,
        own,
        pace,
    };
    let shared = service.begin(&mut chief)?;
    let served = serve_all(rt, service, shared, desks)?;
    let end = service.end(&mut chief, shared)?;
    let Hand { store, own, .. } = chief;
    let (mut whole, answers) = gather(alloc, workers, own, served)?;
    let (base, steps) = store.audit(rt, &mut whole)?;
    Ok(Served {
        end,
        answers,
        base,
        steps,
    })
}

/// What a worker gets.
#[derive(Drop)]
struct Desk<T, const NUMBER: u64, M: Count, L: Count, C: Count, R: Count> {
    store: SyncStorage<T, NUMBER, M, L, C, R>,
    own: OwnTally<M, L, C, R>,
}

// The desks of a new store: that of the worker who begins and ends the run, and one for each other
// worker, numbered from 0.
fn open_desks<T: Drop, const NUMBER: u64, M: Count, L: Count, C: Count, R: Count>(
    alloc: Global,
    workers: u32,
    made: Blank,
    lent: Blank,
    changed: Blank,
    refused: Blank,
) -> Result<
    (
        Desk<T, NUMBER, M, L, C, R>,
        Vec<Desk<T, NUMBER, M, L, C, R>>,
    ),
    StoreError,
>
    requires made { IsBlank (workers + 1) made M.name M.parts M.workers }
    requires lent { IsBlank (workers + 1) lent L.name L.parts L.workers }
    requires changed { IsBlank (workers + 1) changed C.name C.parts C.workers }
    requires refused { IsBlank (workers + 1) refused R.name R.parts R.workers }
    ensures chief { IfOk result (λ r. r.0.own.tally ≡ new_tally workers) }
    ensures desks { IfOk result (λ r. map (λ d. d.own.tally) r.1.items ≡ new_tallies workers) }
{
    let (store, tallies) = SyncStorage::<T, NUMBER, M, L, C, R>::new(
        alloc,
        workers as usize + 1,
        made,
        lent,
        changed,
        refused,
    )?;
    let mut desks = desks(alloc, &store, tallies)?;
    let Some(chief) = desks.pop() else {
        unreachable!();
    };
    Ok((chief, desks))
}

// A desk for each tally.
fn desks<T: Drop, const NUMBER: u64, M: Count, L: Count, C: Count, R: Count>(
    alloc: Global,
    store: &SyncStorage<T, NUMBER, M, L, C, R>,
    tallies: Vec<Tally<M, L, C, R>>,
) -> Result<Vec<Desk<T, NUMBER, M, L, C, R>>, StoreError>
    requires { All (λ t. t.parts ≡ 1) tallies.items }
    ensures { IfOk result (λ desks. map (λ d. d.own.tally) desks.items ≡ tallies.items) }
{
    let mut desks = Vec::new(alloc);
    for tally in tallies {
        let store = store.try_clone()?;
        let own = OwnTally::new(tally);
        let Ok(()) = desks.push(Desk { store, own }) else {
            return Err(StoreError::OutOfMemory);
        };
    }
    Ok(desks)
}

// Has each worker serve at its desk, in a thread of its own.
fn serve_all<
    T: Drop + Send,
    const NUMBER: u64,
    M: Count + Send + Sync,
    L: Count + Send + Sync,
    C: Count + Send + Sync,
    R: Count + Send + Sync,
    S: Job<T>,
    H: Threads + Wait + Sync,
>(
    rt: &H,
    service: &S,
    shared: S::Shared,
    desks: Vec<Desk<T, NUMBER, M, L, C, R>>,
) -> Result<Vec<(OwnTally<M, L, C, R>, S::Answer)>, StoreError>
    ensures len { IfOk result (λ r. length r.items ≡ length desks.items) }
    ensures served { IfOk result (λ r. HaveServed (S.serves service.now shared)
        (map (λ d. d.own.tally) desks.items) (map (λ s. s.1) r.items)
        (map (λ s. s.0.tally) r.items)) }
{
    let served = thread::map_vec(
        rt,
        desks,
        &|desk: Desk<T, NUMBER, M, L, C, R>| -> (OwnTally<M, L, C, R>, S::Answer)
            requires { IsSync S.row × IsSend S.Shared.row × IsSync S.Shared.row × IsSend S.Answer.row }
            ensures { S.serves service.entry.now shared desk.own.tally result.1 result.0.tally }
        { serve_one(rt, service, shared, desk) },
    );
    match served {
        Ok(served) => Ok(served),
        Err(_) => Err(StoreError::OutOfMemory),
    }
}

// Serves at one desk, and returns its tally with what the worker returns.
fn serve_one<
    T: Drop,
    const NUMBER: u64,
    M: Count,
    L: Count,
    C: Count,
    R: Count,
    S: Job<T>,
    H: Wait,
>(
    rt: &H,
    service: &S,
    shared: S::Shared,
    desk: Desk<T, NUMBER, M, L, C, R>,
) -> (OwnTally<M, L, C, R>, S::Answer)
    ensures { S.serves service.now shared desk.own.tally result.1 result.0.tally }
{
    let Desk { store, own } = desk;
    let pace = Pace::new(S::CHECKPOINT_EVERY);
    let mut hand = Hand {
        rt,
        store,
        own,
        pace,
    };
    let answer = service.serve(&mut hand, shared);
    let Hand { own, .. } = hand;
    (own, answer)
}
