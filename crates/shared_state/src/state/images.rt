//! Shared states that begin from an image, and images of them.

ghost use Rattle.std.specs.Prelude.{◌≡◌, [], IfErr, IfOk, OnErr, OnOk, option_map};
ghost use Rattle.generational_core.specs.Answers.{pointer_of};
ghost use Rattle.generational_core.specs.Keeping.{box_with};
ghost use Rattle.generational_core.specs.Rows.{ReadBack, rows_of};
ghost use Rattle.shared_history.specs.Bases.{Trims, all_trimmed};
ghost use Rattle.shared_history.specs.Counts.{new_tallies};
ghost use Rattle.store_images.specs.Images.{IsWholeImage, told};
ghost use Rattle.store_images.specs.Saving.{IsSaveError, IsStateCopy};
ghost use Rattle.shared_state.specs.Beginning.{HasBegunFrom, IsBeginError, IsOwnImage};
ghost use Rattle.shared_state.specs.Beginning.{IsUnbegun};
ghost use Rattle.shared_state.specs.Shared.{IsBlank};

use super::SyncState;
use crate::begin::{BeginError, BeginRefusal};
// A law does nothing when it is called: the caller's proof cites it.
use crate::laws::histories_lead_to_sound_states;
use generational_box::{
    AnyStorage, GenerationalBox, GenerationalBoxId, Image, LoadError, SaveError, StoreError,
    UnsyncStorage,
};
use generational_core::parts::box_at;
use shared_history::kept::KeptBase;
use shared_history::log::Log;
use shared_history::{Count, Tally};
use std::alloc::Global;
use std::mem;
use std::sync::ledger::Blank;
use store_rows::PackedRows;

impl<T: Drop, const NUMBER: u64, M: Count, L: Count, C: Count, R: Count> SyncState<
    T,
    NUMBER,
    M,
    L,
    C,
    R,
> {
    /// A store that goes on from the image of a store with the same number, and a tally for each
    /// worker, numbered from 0. The state is the image's, the history is empty, and its base is that
    /// state without its values. Each tally counts nothing. Any image may be passed
    /// in, and the blanks are as in `new`.
    ///
    /// # Errors
    ///
    /// In this order, but that memory may run out before: `OtherNumber`, if the image's number isn't
    /// the store's; `OtherStart`, if its first generation isn't 1; `Load`, with the image's fault if no
    /// store can have it, or `OutOfMemory`, also for 2^32 workers or more. The image comes back as it was;
    /// if memory runs out after the image's values are in a store, that store does. The blanks are consumed.
    ///
    /// Takes O(n) for n slots. Allocates what the sequential store's `from_image` allocates, and the
    /// base's rows.
    ///
    /// ```rust
    /// let begun = SyncState::<u64, 7, A, B, C, D>::from_image(
    ///     alloc, 1, image, made, lent, changed, refused,
    /// );
    /// ```
    pub fn from_image(
        alloc: Global,
        workers: usize,
        image: Image<T>,
        made: Blank,
        lent: Blank,
        changed: Blank,
        refused: Blank,
    ) -> Result<(Self, Vec<Tally<M, L, C, R>>), BeginRefusal<T>>
        requires made { IsBlank workers made M.name M.parts M.workers }
        requires lent { IsBlank workers lent L.name L.parts L.workers }
        requires changed { IsBlank workers changed C.name C.parts C.workers }
        requires refused { IsBlank workers refused R.name R.parts R.workers }
        ensures begun { IfOk result (λ r. HasBegunFrom image r.0) }
        ensures trimmed { IfOk result (λ r. all_trimmed r.0.base ≡ 0) }
        ensures tallies { IfOk result (λ r. r.1.items ≡ new_tallies workers) }
        ensures back { IfErr result (λ refusal. IsUnbegun image refusal.back refusal.cause) }
        ensures cause { IfErr result (λ refusal. IsBeginError NUMBER image refusal.cause) }
    {
        let fresh = SyncState::new(alloc, workers, made, lent, changed, refused);
        let Ok((mut state, tallies)) = fresh else {
            let cause = BeginError::Load(LoadError::OutOfMemory);
            return Err(BeginRefusal::of_image(image, cause));
        };
        match state.begin_from(image) {
            Ok(()) => Ok((state, tallies)),
            Err(refusal) => Err(refusal),
        }
    }

    /// Replaces the state by that of an image, and empties the history. Its base is that state, and counts
    /// all steps so far as trimmed.
    ///
    /// # Errors
    ///
    /// Like `from_image`; nothing changes, and the image comes back, or the store that was made of it.
    pub fn begin_from(&mut self, image: Image<T>) -> Result<(), BeginRefusal<T>>
        ensures begun { OnOk result (HasBegunFrom image self.new) }
        ensures trims { OnOk result (Trims self.old.base self.old.history self.new.base) }
        ensures left { OnErr result (self.new ≡ self.old) }
        ensures back { IfErr result (λ refusal. IsUnbegun image refusal.back refusal.cause) }
        ensures cause { IfErr result (λ refusal. IsBeginError NUMBER image refusal.cause) }
    {
        let store = match load(NUMBER, self.log.alloc(), image) {
            Ok(store) => store,
            Err(refusal) => return Err(refusal),
        };
        match rebase(&store, &mut self.log) {
            Ok(()) => {
                drop(mem::replace(&mut self.store, store));
                Ok(())
            }
            Err(_) => Err(BeginRefusal::of_store(store)),
        }
    }

    /// The box of an id that was kept, with the location where it was made: exactly if a live box of
    /// this store has the id. It isn't a step. Doesn't allocate, and is O(1).
    ///
    /// ```rust
    /// let found = state.find(id);
    /// ```
    pub fn find(&self, id: GenerationalBoxId) -> Option<GenerationalBox<T>>
        ensures { option_map pointer_of result ≡ box_with self.now.state id }
    {
        let pointer = self.store.find(id)?;
        Some(box_at(pointer))
    }

    /// An image of the store with a copy of each value. The store keeps its own, and it isn't a step.
    /// `from_image` begins from it under the same number.
    ///
    /// # Errors
    ///
    /// `Owned`, if the store has an owner's record; `Borrowed` with the first slot whose value is
    /// borrowed; `OutOfMemory`, also if a value's `clone` fails. Allocates the image's list of slots, and
    /// what the copies take. Takes O(n) for n slots and as many records of owners.
    ///
    /// ```rust
    /// let Ok(image) = state.image() else {
    ///     return rt.stop("a store without an image");
    /// };
    /// ```
    pub fn image(&self) -> Result<Image<T>, SaveError>
    where
        T: Clone,
        ensures copy { IfOk result (λ image. IsStateCopy T.is_clone self.now.state (told image)) }
        ensures own { IfOk result (λ image. IsOwnImage NUMBER image) }
        ensures whole { IfOk result IsWholeImage }
        ensures cause { IfErr result (λ cause. IsSaveError self.now.state cause) }
    {
        histories_lead_to_sound_states();
        self.history_replays();
        self.store.image()
    }
}

// The store of an image with this number, whose generations begin at 1.
fn load<T: Drop>(
    number: u64,
    alloc: Global,
    image: Image<T>,
) -> Result<UnsyncStorage<T>, BeginRefusal<T>>
    ensures state { IfOk result (λ store. store.state ≡ told image) }
    ensures own { OnOk result (IsOwnImage number image) }
    ensures back { IfErr result (λ refusal. IsUnbegun image refusal.back refusal.cause) }
    ensures cause { IfErr result (λ refusal. IsBeginError number image refusal.cause) }
{
    if image.number != number {
        return Err(BeginRefusal::of_image(image, BeginError::OtherNumber));
    }
    if image.start != 1 {
        return Err(BeginRefusal::of_image(image, BeginError::OtherStart));
    }
    match UnsyncStorage::from_image(alloc, image) {
        Ok(store) => Ok(store),
        Err(refusal) => Err(BeginRefusal::of_image(refusal.image, BeginError::Load(refusal.cause))),
    }
}

// Lets a history begin anew at a store's state, whatever state it led to before.
fn rebase<T: Drop, const NUMBER: u64, M: Count, L: Count, C: Count, R: Count>(
    store: &UnsyncStorage<T>,
    log: &mut Log<NUMBER, M, L, C, R>,
) -> Result<(), StoreError>
    ensures rows { OnOk result (log.new.bases.base.rows ≡ rows_of store.now.state) }
    ensures back { OnOk result (ReadBack store.now.state log.new.bases.base.rows) }
    ensures number { OnOk result (log.new.bases.base.number ≡ NUMBER) }
    ensures next { OnOk result (log.new.bases.base.next ≡ store.now.state.next) }
    ensures peak { OnOk result (log.new.bases.base.peak ≡ store.now.state.peak) }
    ensures past { OnOk result (log.new.bases.past ≡ []) }
    ensures steps { OnOk result (log.new.steps ≡ []) }
    ensures trims { OnOk result (Trims log.old.bases.base log.old.steps log.new.bases.base) }
    ensures err { OnErr result (log.new ≡ log.old) }
{
    let Some(steps) = log.trimmed_steps() else {
        return Err(StoreError::NumbersExhausted);
    };
    let rows = store.pack_rows(PackedRows::new(log.alloc()))?;
    let next = u64::MAX - store.tickets_left();
    let base = KeptBase::of(NUMBER, next, store.peak_live(), steps, rows);
    let outdated = log.rebase(base)?;
    drop(outdated);
    drop(log.take_past());
    Ok(())
}
