//! Shared stores that begin from an image, and images of them.

ghost use Rattle.std.specs.Prelude.{◌≡◌, IfErr, IfOk, IfSome};
ghost use Rattle.generational_core.specs.Answers.{pointer_of};
ghost use Rattle.shared_history.specs.Bases.{IsTallied};
ghost use Rattle.shared_history.specs.Counts.{new_tallies};
ghost use Rattle.store_images.specs.Images.{IsWholeImage};
ghost use Rattle.shared_state.specs.Beginning.{IsBeginError, IsOwnImage, IsUnbegun};
ghost use Rattle.shared_state.specs.Beginning.{IsUnseenImage, LeadsToImage};
ghost use Rattle.shared_state.specs.Shared.{IsBlank, IsHistory};

use super::SyncStorage;
use generational_box::{GenerationalBox, GenerationalBoxId, Image, LoadError, SaveError};
use shared_history::{Base, Count, Tally};
use shared_records::Step;
use shared_state::{BeginError, BeginRefusal};
use std::alloc::Global;
use std::sync::ledger::Blank;
use std::sync::{Arc, Wait};

impl<T: Drop, const NUMBER: u64, M: Count, L: Count, C: Count, R: Count> SyncStorage<
    T,
    NUMBER,
    M,
    L,
    C,
    R,
> {
    /// A store that goes on from the image of a store with the same number, and a tally for each
    /// worker, numbered from 0. Each tally counts nothing. Any image may be passed in, and the blanks are
    /// as in `new`. Boxes of the saved store are boxes of this one.
    ///
    /// # Errors
    ///
    /// In this order, but that memory may run out before: `OtherNumber`, if the image's number isn't
    /// the store's; `OtherStart`, if its first generation isn't 1; `Load`, with the image's fault if no
    /// store can have it, or `OutOfMemory`, also for 2^32 workers or more. The image comes back as it was;
    /// if memory runs out after the image's values are in a store, that store does. The blanks are consumed.
    ///
    /// Takes O(n) for n slots. Allocates what the sequential store's `from_image` allocates, and the
    /// base's rows.
    ///
    /// ```rust
    /// let begun = SyncStorage::<u64, 7, M, L, C, R>::from_image(
    ///     alloc, WORKERS, image, made, lent, changed, refused,
    /// );
    /// ```
    pub fn from_image(
        alloc: Global,
        workers: usize,
        image: Image<T>,
        made: Blank,
        lent: Blank,
        changed: Blank,
        refused: Blank,
    ) -> Result<(Self, Vec<Tally<M, L, C, R>>), BeginRefusal<T>>
        requires made { IsBlank workers made M.name M.parts M.workers }
        requires lent { IsBlank workers lent L.name L.parts L.workers }
        requires changed { IsBlank workers changed C.name C.parts C.workers }
        requires refused { IsBlank workers refused R.name R.parts R.workers }
        ensures tallies { IfOk result (λ r. r.1.items ≡ new_tallies workers) }
        ensures back { IfErr result (λ refusal. IsUnbegun image refusal.back refusal.cause) }
        ensures cause { IfErr result (λ refusal. IsBeginError NUMBER image refusal.cause) }
    {
        // All but the image's store is made first, so that the image isn't lost if memory runs out.
        let fresh = SyncStorage::new(alloc, workers, made, lent, changed, refused);
        let cause = BeginError::Load(LoadError::OutOfMemory);
        let Ok((mut begun, tallies)) = fresh else {
            return Err(BeginRefusal::of_image(image, cause));
        };
        let Some(shared) = Arc::get_mut(&mut begun.shared) else {
            return Err(BeginRefusal::of_image(image, cause));
        };
        match shared.held.get_mut().state.begin_from(image) {
            Ok(()) => Ok((begun, tallies)),
            Err(refusal) => Err(refusal),
        }
    }

    /// The box of an id that was kept, with the location where it was made: exactly if a live box of
    /// this store has the id while the lock is held. So a box of the saved store is found again. It isn't a
    /// step. Doesn't allocate, doesn't wait for borrows, and is O(1).
    ///
    /// ```rust
    /// let total = store.find(rt, id);
    /// ```
    pub fn find(&self, rt: &impl Wait, id: GenerationalBoxId) -> Option<GenerationalBox<T>>
        ensures { IfSome result (λ found. (pointer_of found).id ≡ id) }
    {
        self.shared.held.lock(rt).state.find(id)
    }

    /// An image of the store with a copy of each value, as it is while the lock is held. The store keeps
    /// its values, and it isn't a step. `from_image` begins from it under the same number.
    ///
    /// # Errors
    ///
    /// `Owned`, if the store has an owner's record; `Borrowed` with the first slot whose value is
    /// borrowed; `OutOfMemory`, also if a value's `clone` fails. Doesn't wait for borrows. Nothing changes.
    /// The lock is held while the values are cloned, so `clone` mustn't call the store. Allocates the
    /// image's list of slots, and what the copies take. Takes O(n) for n slots and as many places of
    /// owners.
    ///
    /// ```rust
    /// let image = store.image(rt)?;
    /// ```
    pub fn image(&self, rt: &impl Wait) -> Result<Image<T>, SaveError>
    where
        T: Clone,
        ensures copy { IfOk result (λ image. IsUnseenImage T.is_clone NUMBER image) }
        ensures own { IfOk result (λ image. IsOwnImage NUMBER image) }
        ensures whole { IfOk result IsWholeImage }
    {
        let held = self.shared.held.lock(rt);
        let state = &held.state;
        state.history_replays();
        state.image()
    }

    /// An image of the store, and the history that led to it: the base and the steps from there, as
    /// they are while the lock is held. The list replays from the base, and leads to the state that the
    /// image tells, without its values. Of each kind the base and the list together count exactly as many
    /// steps as the whole tally does (`is_whole` is the test). It isn't a step.
    ///
    /// # Errors
    ///
    /// The same as those of `image`. Nothing changes. Takes time and memory for each row of the base and
    /// each step besides.
    ///
    /// ```rust
    /// if !whole.is_whole() {
    ///     return Err(anyhow!("a tally is missing"));
    /// }
    /// let (image, base, steps) = store.audited_image(rt, &mut whole)?;
    /// ```
    pub fn audited_image(
        &self,
        rt: &impl Wait,
        whole: &mut Tally<M, L, C, R>,
    ) -> Result<(Image<T>, Base, Vec<Step>), SaveError>
    where
        T: Clone,
        requires { whole.old.parts ≡ M.workers }
        ensures leads { IfOk result (λ r. LeadsToImage r.1 r.2.items r.0) }
        ensures replays { IfOk result (λ r. IsHistory NUMBER r.1 r.2.items) }
        ensures counts { IfOk result (λ r. IsTallied whole.old r.1 r.2.items) }
        ensures own { IfOk result (λ r. IsOwnImage NUMBER r.0) }
        ensures whole { IfOk result (λ r. IsWholeImage r.0) }
        ensures tally { whole.new ≡ whole.old }
    {
        let mut held = self.shared.held.lock(rt);
        let state = &mut held.state;
        state.history_replays();
        let image = match state.image() {
            Ok(image) => image,
            Err(cause) => return Err(cause),
        };
        match state.audit(whole) {
            Ok((base, steps)) => Ok((image, base, steps)),
            Err(_) => Err(SaveError::OutOfMemory),
        }
    }
}
