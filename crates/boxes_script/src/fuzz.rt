//! One list of calls over two stores that take free slots in different orders.

ghost use Rattle.std.specs.Prelude.{◌≡◌, ◌^◌, ◌-◌};
ghost use Rattle.generational_core.specs.Conditions.{IsFresh, fresh};

use crate::drawing::{WORDS, fuzz_calls};
use crate::words::fuzz_words;
use crate::{Verdict, compare, is_bounded};
use generational_box::{
    Call, GenerationalBox, LastFirst, Location, Numbers, OldestFirst, Reply, Session, Storage,
    Store, StoreError, UnsyncStorage,
};
use std::alloc::{AllocError, Global};

/// The number of both stores.
const NUMBER: u64 = 1;

/// Where the second store begins: a slot has two generations, and is never reused after these.
const NEAR_THE_END: Numbers = Numbers {
    generation: u64::MAX - 1,
    ticket: 0,
};

/// How many boxes there are of each of the other stores.
const STRANGERS: u32 = 4;

/// Two stores for one list of calls: one reuses the slot that was freed last, the other the slot that has
/// been free for the longest.
#[derive(Drop)]
pub struct Pair {
    /// The store that runs first.
    pub one: Store<String, LastFirst>,
    /// The store whose replies are compared with those.
    pub other: Store<String, OldestFirst>,
}

/// The two stores over which the program runs its list. Both have the number 1; the first begins at the
/// first generation, the second at the last but one. Doesn't allocate.
pub fn fuzz_pair(alloc: Global) -> Pair
    ensures one { result.one.state ≡ fresh 1 1 0 }
    ensures other { result.other.state ≡ fresh 1 (2 ^ 64 - 2) 0 }
{
    Pair {
        one: Store::new(alloc, NUMBER),
        other: Store::new_at(alloc, NUMBER, NEAR_THE_END),
    }
}

/// The list of this many calls that the program draws from a seed. It may use four boxes of a store with
/// the number 2, and four of a store with the number 1, which is that of the pair.
pub fn fuzz_list(alloc: Global, seed: u64, count: usize) -> Result<Vec<Call<String>>, AllocError> {
    let words = fuzz_words(alloc, seed, count.saturating_mul(WORDS)).map_err(|_| AllocError)?;
    let mut strangers = Vec::new(alloc);
    add_strangers(alloc, NUMBER + 1, &mut strangers)?;
    add_strangers(alloc, NUMBER, &mut strangers)?;
    fuzz_calls(alloc, &words, &strangers)
}

// Adds boxes of a store of this number.
fn add_strangers(
    alloc: Global,
    number: u64,
    boxes: &mut Vec<GenerationalBox<String>>,
) -> Result<(), AllocError> {
    let store: UnsyncStorage<String> = Store::new(alloc, number);
    add_boxes(alloc, store, boxes)
}

// Adds boxes of a store that is dropped.
fn add_boxes<S: Storage<String> + Drop>(
    alloc: Global,
    mut store: S,
    boxes: &mut Vec<GenerationalBox<String>>,
) -> Result<(), AllocError> {
    for line in 1..=STRANGERS {
        let value = String::from_str(alloc, "a stranger")?;
        let location = Location::new("stranger", line, 1);
        let made = GenerationalBox::leak(&mut store, value, location);
        boxes.push(made.map_err(|_| AllocError)?)?;
    }
    Ok(())
}

/// Compares the replies of two fresh stores to the list of this many calls that is drawn from a seed,
/// like `compare_stores`.
pub(crate) fn compare_drawn<S: Storage<String> + Drop, R: Storage<String> + Drop>(
    alloc: Global,
    seed: u64,
    count: usize,
    one: S,
    other: R,
) -> Result<Verdict, AllocError>
    requires one { IsFresh (S.state one) }
    requires other { IsFresh (R.state other) }
{
    let calls = fuzz_list(alloc, seed, count)?;
    let again = fuzz_list(alloc, seed, count)?;
    compare_stores(alloc, (one, calls), (other, again))
}

/// Compares the replies of two fresh stores to their lists of calls. If a store has more slots after a
/// call than the peak number of live cells plus the retired slots, it differs from the other at the place
/// of that call.
pub fn compare_stores<S: Storage<String> + Drop, R: Storage<String> + Drop>(
    alloc: Global,
    one: (S, Vec<Call<String>>),
    other: (R, Vec<Call<String>>),
) -> Result<Verdict, AllocError>
    requires one { IsFresh (S.state one.0) }
    requires other { IsFresh (R.state other.0) }
{
    let ones = Answers::of(alloc, one.0, one.1)?;
    let others = Answers::of(alloc, other.0, other.1)?;
    let verdict = compare(&ones.replies, &others.replies);
    Ok(verdict.or_breach(ones.breach).or_breach(others.breach))
}

/// The replies of a store to a list of calls.
#[derive(Drop)]
struct Answers {
    replies: Vec<Reply<String>>,
    // the first place after which there are too many slots
    breach: Option<usize>,
}

impl Answers {
    // The replies of a fresh store to the calls.
    fn of<S: Storage<String> + Drop>(
        alloc: Global,
        store: S,
        calls: Vec<Call<String>>,
    ) -> Result<Answers, AllocError>
        requires { IsFresh (S.state store) }
    {
        let mut answers = Answers {
            replies: Vec::with_capacity(alloc, calls.len())?,
            breach: None,
        };
        let mut session = Session::new(alloc, store);
        let added = answers.add(&mut session, calls);
        let _store = session.finish();
        added?;
        Ok(answers)
    }

    // Runs the calls in order. One whose place can't be allocated is the last.
    fn add<S: Storage<String>>(
        &mut self,
        session: &mut Session<String, S>,
        calls: Vec<Call<String>>,
    ) -> Result<(), AllocError> {
        for (place, call) in calls.into_iter().enumerate() {
            if !self.answer(session, place, call)? {
                break;
            }
        }
        Ok(())
    }

    // Runs a call, and returns whether its place was allocated.
    fn answer<S: Storage<String>>(
        &mut self,
        session: &mut Session<String, S>,
        place: usize,
        call: Call<String>,
    ) -> Result<bool, AllocError> {
        let Some(reply) = session.call(call).ok() else {
            add(&mut self.replies, Reply::Store(StoreError::OutOfMemory))?;
            return Ok(false);
        };
        add(&mut self.replies, reply)?;
        if self.breach.is_none() && !is_bounded(session.store()) {
            self.breach = Some(place);
        }
        Ok(true)
    }
}

// Adds to a list. It is proved once, for all types.
fn add<T: Drop>(list: &mut Vec<T>, value: T) -> Result<(), AllocError> {
    Ok(list.push(value)?)
}
