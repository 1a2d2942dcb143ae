//! Tables of sessions.

ghost use Rattle.std.specs.Prelude.{ℕ, ◌≡◌, ◌↔◌, ◌⊎◌, ◌<◌, ◌≤◌, ◌/◌, ◌+◌, ◌++◌, ◌∷◌, [], true, false, length};
ghost use Rattle.std.specs.Prelude.{None, Some, is_some, option_map, option_copied, IfOk, IfSome, OnOk};
ghost use Rattle.std.specs.Prelude.{Ok, IfErr, IsErrAnd, IsOkAnd, OnErr, IsErr, IsTrue, IsFalse, IfNone, IsNone, IsSome, slice_get};
ghost use Rattle.std.specs.Prelude.{if◌then◌else◌, not};
ghost use Rattle.std.specs.Borrow.{MutBor};
ghost use Rattle.std.specs.Fn.{FnOnceReturnsAtMut};
ghost use Rattle.std.specs.List.{FoldsTo};
ghost use Rattle.generational_core.specs.Conditions.{IsFresh};
ghost use Rattle.generational_core.specs.Leaving.{HasNoBorrows};
ghost use Rattle.generational_core.specs.Machine.{OwnerName, ownership};
ghost use Rattle.generational_core.specs.Seeing.{value_in};
ghost use Rattle.generational_errors.specs.declared.error.Location.{Location};
ghost use Rattle.generational_errors.specs.declared.error.StoreError.TheVariants.{OutOfMemory};
ghost use Rattle.handles.specs.Handles.{pointer_in, IsOther};
ghost use Rattle.handles.specs.Sites.{TellsLocation};
ghost use Rattle.session_table.specs.Bounds.{AreLowerBounds, AreLowerBoundsBut, bound_at};
ghost use Rattle.session_table.specs.declared.session.Session.{Session};
ghost use Rattle.session_table.specs.declared.entry.PutError.TheVariants as put;
ghost use Rattle.session_table.specs.declared.session.LoginError.TheVariants as login;
ghost use Rattle.session_table.specs.declared.session.RenameError.TheVariants as rename;
ghost use Rattle.session_table.specs.Sessions.{Entry, LiveSession, begun, used, with_entry, without_entry, entry_in, find_entry, left_entry, swapped_entry};
ghost use Rattle.session_table.specs.Sessions.{is_young};
ghost use Rattle.session_table.specs.Tables.{EndsAt, HasExpired, KeepsEntryLocations, SessionsState, created_at, expired_ids, live, shown_in, Puts, Replaces};
ghost use Rattle.session_table.specs.Tables.{find_session, keeps, keeps_by, value_under};
ghost use Rattle.indexmap.specs.IndexMap.{index_of_by, swap_remove_entry};
ghost use Rattle.session_table.specs.Tables.{has_session, session_in, WasPut, IsOrderly};

use crate::bounds::{Bounds, ROWS};
use crate::homes::Homes;
use crate::session::{LoginError, RenameError, Session};
use crate::walk::Sessions;
use generational_core::{HandedBack, Location, Storage, StoreError};
use handles::parts::Sites;
use indexmap::{Equivalent, IndexMap};
use std::alloc::Global;
use std::cmp::min;
use std::hash::Hash;
use std::marker::{Model, PhantomData};

/// Sessions under ids, with their values under keys. Contracts model it as the machine's state, which
/// says which value each entry has, the sessions with their entries, and the locations where values were
/// put.
///
/// It has no `Drop`: `finish` must consume it.
pub struct SessionTable<I: Eq + Hash, K: Eq + Hash, T, S: Storage<T>> {
    pub(crate) store: S,
    pub(crate) rows: IndexMap<I, Session<K, T>>,
    // by which an expiry skips blocks of rows
    bounds: Bounds,
    // by which an entry finds its session
    pub(crate) homes: Homes,
    pub(crate) sites: Sites,
    marker: PhantomData<T>,
}

impl<I: Eq + Hash, K: Eq + Hash, T, S: Storage<T>> Model for SessionTable<I, K, T, S> {
    ghost use Rattle.std.specs.Coded.{codes};
    ghost use Rattle.std.specs.FinMap as map;
    ghost use Rattle.handles.specs.Sites.{told_in};
    ghost use Rattle.session_table.specs.Tables.{SessionsState, table_of};
    ghost use Rattle.session_table.specs.Bounds.{AreLowerBounds};
    ghost use Rattle.session_table.specs.Keeping.{AreSessionsKept, held_in};

    ghost Value = { SessionsState I K T };

    ghost coded = { Prim.hlevel (codes, map.code) };

    ghost view = { λ t. table_of (S.state t.store) t.rows.entries (told_in t.sites) };

    ghost invariant = { λ t. AreSessionsKept (S.state t.store) I.eq (held_in I.eq t.rows.entries)
        × AreLowerBounds t.bounds t.rows.entries };
}

impl<I: Eq + Hash, K: Eq + Hash, T, S: Storage<T>> SessionTable<I, K, T, S> {
    /// Creates a table without sessions, over a fresh store (see `is_fresh`). Doesn't allocate.
    ///
    /// ```rust
    /// let store = UnsyncStorage::<u64>::new(rt.alloc(), 1);
    /// let mut table = SessionTable::<u64, u64, u64, _>::new(rt.alloc(), store);
    /// ```
    pub fn new(alloc: Global, store: S) -> Self
        requires { IsFresh (S.state store) }
        ensures table { result ≡ record { state = S.state store; sessions = []; sites = [] } }
        ensures none { (e : Entry T) → shown_in result e ≡ None }
    {
        SessionTable {
            store,
            rows: IndexMap::new(alloc),
            bounds: Bounds::new(alloc),
            homes: Homes::new(alloc),
            sites: Sites::new(alloc),
            marker: PhantomData,
        }
    }

    /// Makes room for more sessions: the next `additional` logins don't allocate, and so don't fail. Every
    /// session and every entry is unchanged. O(n + additional) for n sessions.
    ///
    /// # Errors
    ///
    /// `OutOfMemory` is the only possible error.
    ///
    /// ```rust
    /// table.reserve(1000)?;
    /// ```
    pub fn reserve(&mut self, additional: usize) -> Result<(), StoreError>
        ensures same { self.new ≡ self.old }
        ensures short { IfErr result (λ cause. cause ≡ OutOfMemory) }
    {
        if self.rows.reserve(additional).is_err() {
            return Err(StoreError::OutOfMemory);
        }
        self.bounds.reserve(additional);
        self.homes.reserve(additional);
        Ok(())
    }

    /// Starts an empty session for an id, last used at `now`. It comes last; the other sessions and their
    /// order are unchanged, and so is every entry. Amortised O(1). Allocates if the rows have no room, or
    /// for a bound of 64 sessions, by which an expiry skips them.
    ///
    /// # Errors
    ///
    /// - `IdInUse` if the id has a session.
    /// - `Store` of `OutOfMemory`.
    ///
    /// The id comes back then, and the table is unchanged.
    ///
    /// ```rust
    /// table.login(7, 1000)?;
    /// ```
    pub fn login(&mut self, id: I, now: u64) -> Result<(), HandedBack<I, LoginError>>
    where
        I: Drop,
        ensures opened { OnOk result (session_in I.eq self.new id ≡ Some (begun now)) }
        ensures others { (other : I) → I.eq id other ≡ false →
            session_in I.eq self.new other ≡ session_in I.eq self.old other }
        ensures order { OnOk result (self.new.sessions ≡ self.old.sessions ++ (id, begun now) ∷ []) }
        ensures state { self.new.state ≡ self.old.state }
        ensures sites { self.new.sites ≡ self.old.sites }
        ensures in_use { IsTrue (has_session I.eq self.old id) →
            IsErrAnd result (λ refusal. refusal.cause ≡ login.IdInUse) }
        ensures short { IfErr result (λ refusal. (has_session I.eq self.old id ≡ true)
            ⊎ (refusal.cause ≡ login.Store OutOfMemory)) }
        ensures back { IfErr result (λ refusal. refusal.value ≡ id) }
        ensures refused { OnErr result (self.new ≡ self.old) }
    {
        if self.has(&id) {
            let cause = LoginError::IdInUse;
            return Err(HandedBack { value: id, cause });
        }
        if self.rows.reserve(1).is_err() {
            let cause = LoginError::Store(StoreError::OutOfMemory);
            return Err(HandedBack { value: id, cause });
        }
        let place = self.rows.len();
        let session = Session {
            used_at: now,
            seat: self.homes.take_seat(place),
            entries: IndexMap::new(*self.rows.allocator()),
        };
        self.bounds.cover(place);
        self.bounds.lower(place, now);
        match self.rows.insert(id, session) {
            Ok(None) => Ok(()),
            Ok(Some(_other)) => unreachable!(),
            Err(_full) => unreachable!(),
        }
    }

    /// Sets the time of a session's last use. Returns whether the id has a session; if it has none,
    /// nothing changes. Never fails. Doesn't allocate, and is O(1).
    ///
    /// ```rust
    /// let is_known = table.touch(&7, 1200);
    /// ```
    pub fn touch<P: Equivalent<I>>(&mut self, id: P, now: u64) -> bool
        ensures had { result ≡ is_some (find_session (P.equivalent id) self.old) }
        ensures used { find_session (P.equivalent id) self.new
            ≡ option_map (used now) (find_session (P.equivalent id) self.old) }
        ensures others { (other : I) → P.equivalent id other ≡ false →
            session_in I.eq self.new other ≡ session_in I.eq self.old other }
        ensures count { length self.new.sessions ≡ length self.old.sessions }
        ensures state { self.new.state ≡ self.old.state }
        ensures sites { self.new.sites ≡ self.old.sites }
    {
        let Some(session) = self.rows.get_mut(id) else {
            return false;
        };
        let goes_back = now < session.used_at;
        session.used_at = now;
        if goes_back {
            lower_at(&mut self.bounds, &self.rows, id, now);
        }
        true
    }

    /// Gives an id's session another id. Its entries and the time of its last use are unchanged. It comes
    /// last, after the last session has moved into its place. Every other session and every entry is
    /// unchanged. For example, a session that started before its user was authenticated continues under
    /// an id that nobody knew before. Allocates if the rows have no room. Amortised O(1).
    ///
    /// # Errors
    ///
    /// - `NoSession` if the id has none.
    /// - `IdInUse` if the new id has one, even if both ids are the same.
    /// - `Store` of `OutOfMemory`.
    ///
    /// The new id comes back then, and the table is unchanged.
    ///
    /// ```rust
    /// table.rename(&visitor, user).ok()?;
    /// ```
    pub fn rename<P: Equivalent<I>>(
        &mut self,
        id: P,
        to: I,
    ) -> Result<(), HandedBack<I, RenameError>>
    where
        I: Drop,
        ensures moved { OnOk result (session_in I.eq self.new to
            ≡ find_session (P.equivalent id) self.old) }
        ensures gone { OnOk result (find_session (P.equivalent id) self.new ≡ None) }
        ensures others { (other : I) → P.equivalent id other ≡ false → I.eq to other ≡ false →
            session_in I.eq self.new other ≡ session_in I.eq self.old other }
        ensures order { OnOk result ((session : LiveSession K T) →
            find_session (P.equivalent id) self.old ≡ Some session →
            self.new.sessions ≡ swap_remove_entry (P.equivalent id) self.old.sessions
            ++ (to, session) ∷ []) }
        ensures count { length self.new.sessions ≡ length self.old.sessions }
        ensures state { self.new.state ≡ self.old.state }
        ensures sites { self.new.sites ≡ self.old.sites }
        ensures unknown { is_some (find_session (P.equivalent id) self.old) ≡ false →
            IsErrAnd result (λ refusal. refusal.cause ≡ rename.NoSession) }
        ensures in_use { is_some (find_session (P.equivalent id) self.old) ≡ true →
            has_session I.eq self.old to ≡ true →
            IsErrAnd result (λ refusal. refusal.cause ≡ rename.IdInUse) }
        ensures short { IfErr result (λ refusal. (is_some (find_session (P.equivalent id) self.old) ≡ false)
            ⊎ ((has_session I.eq self.old to ≡ true)
            ⊎ (refusal.cause ≡ rename.Store OutOfMemory))) }
        ensures back { IfErr result (λ refusal. refusal.value ≡ to) }
        ensures refused { OnErr result (self.new ≡ self.old) }
    {
        if !self.has(id) {
            let cause = RenameError::NoSession;
            return Err(HandedBack { value: to, cause });
        }
        if self.has(&to) {
            let cause = RenameError::IdInUse;
            return Err(HandedBack { value: to, cause });
        }
        if self.rows.reserve(1).is_err() {
            let cause = RenameError::Store(StoreError::OutOfMemory);
            return Err(HandedBack { value: to, cause });
        }
        let Some((place, _id, moved)) = self.rows.swap_remove_full(id) else {
            unreachable!();
        };
        settle(&mut self.bounds, &self.rows, place);
        self.bounds.lower(self.rows.len(), moved.used_at);
        self.homes.settle(&self.rows, place);
        self.homes.move_seat(moved.seat, self.rows.len());
        match self.rows.insert(to, moved) {
            Ok(None) => Ok(()),
            Ok(Some(_other)) => unreachable!(),
            Err(_full) => unreachable!(),
        }
    }

    /// Ends an id's session, and drops its values: its entries are stale from then on, and never refer to
    /// later values. The last session moves into its place (swap-remove). Every other session and its
    /// entries are unchanged. Returns whether the id had a session; if it had none, nothing changes.
    ///
    /// Never fails, since no borrow outlives a call of the table. Doesn't allocate. O(k) for k entries of
    /// this session.
    ///
    /// ```rust
    /// let was_logged_in = table.logout(&7);
    /// ```
    pub fn logout<P: Equivalent<I>>(&mut self, id: P) -> bool
    where
        I: Drop,
        K: Drop,
        ensures had { result ≡ is_some (find_session (P.equivalent id) self.old) }
        ensures ended { find_session (P.equivalent id) self.new ≡ None }
        ensures others { (other : I) → P.equivalent id other ≡ false →
            session_in I.eq self.new other ≡ session_in I.eq self.old other }
        ensures order { self.new.sessions
            ≡ swap_remove_entry (P.equivalent id) self.old.sessions }
        ensures count { length self.new.sessions + (if result then 1 else 0)
            ≡ length self.old.sessions }
        ensures gone { (e : Entry T) → keeps_by (P.equivalent id) self.old e ≡ true →
            shown_in self.new e ≡ None }
        ensures kept { (other : I) (e : Entry T) → P.equivalent id other ≡ false →
            keeps I.eq self.old other e ≡ true → shown_in self.new e ≡ shown_in self.old e }
        ensures left { (e : Entry T) → keeps_by (P.equivalent id) self.old e ≡ false →
            shown_in self.new e ≡ shown_in self.old e }
        ensures put { (e : Entry T) → WasPut self.old e → WasPut self.new e }
        ensures tells { (e : Entry T) → created_at self.new e ≡ created_at self.old e }
        ensures ticket { self.new.state.next ≡ self.old.state.next }
        ensures none { IsFalse result → self.new ≡ self.old }
    {
        let Some((place, _id, session)) = self.rows.swap_remove_full(id) else {
            return false;
        };
        settle(&mut self.bounds, &self.rows, place);
        self.homes.free_seat(session.seat);
        self.homes.settle(&self.rows, place);
        session.end(&mut self.store);
        true
    }

    // Ends the session at an index, and returns its id. The last one moves into its place.
    fn end_at(&mut self, place: usize) -> I
    where
        K: Drop,
        requires within { place < length self.old.sessions }
        ensures ended { EndsAt I.eq place self.old self.new }
        ensures id { option_map (λ row. row.0) (slice_get self.old.sessions place) ≡ Some result }
    {
        prove!(place < self.rows.len());
        match self.rows.swap_remove_index(place) {
            Some((id, session)) => {
                settle(&mut self.bounds, &self.rows, place);
                self.homes.free_seat(session.seat);
                self.homes.settle(&self.rows, place);
                session.end(&mut self.store);
                id
            }
            None => unreachable!(),
        }
    }

    // Whether there is a session at a place that was last used before a time.
    fn is_old_at(&self, place: usize, before: u64) -> bool
        ensures { (e : I × LiveSession K T) → slice_get self.now.sessions place ≡ Some e →
            is_young before e.1 ≡ not result }
    {
        match self.rows.get_index(place) {
            Some((_, session)) => session.used_at < before,
            None => false,
        }
    }

    // The first place from one on whose session was last used before a time, or how many sessions there
    // are if there is none. Skips blocks by their bounds.
    fn next_old(&mut self, from: usize, before: u64) -> usize
        requires { from ≤ length self.old.sessions }
        ensures within { (from ≤ result) × (result ≤ length self.new.sessions) }
        ensures young { (place : ℕ) (e : I × LiveSession K T) → from ≤ place → place < result →
            slice_get self.new.sessions place ≡ Some e → is_young before e.1 ≡ true }
        ensures old { (e : I × LiveSession K T) → slice_get self.new.sessions result ≡ Some e →
            is_young before e.1 ≡ false }
        ensures same { self.new ≡ self.old }
    {
        let mut place = from;
        'places: while place < self.len() {
            if place % ROWS == 0 && self.is_young_block(place, before) {
                place += min(ROWS, self.len() - place);
            } else if self.is_old_at(place, before) {
                return place;
            } else {
                place += 1;
            }
        }
        place
    }

    // Whether no session of a row's block was last used before a time.
    fn is_young_block(&mut self, row: usize, before: u64) -> bool
        ensures young { IsTrue result → (place : ℕ) (e : I × LiveSession K T) → place / 64 ≡ row / 64 →
            slice_get self.new.sessions place ≡ Some e → is_young before e.1 ≡ true }
        ensures same { self.new ≡ self.old }
    {
        if self.bounds.at(row) >= before {
            return true;
        }
        let least = least_use(&self.rows, row);
        self.bounds.set(row, least);
        least >= before
    }

    /// Ends every session that was last used before a time, and drops its values. From the front on, the
    /// last remaining session moves into the place of each that ends. Every other session and its entries
    /// are unchanged. Returns how many ended.
    ///
    /// Never fails, like `logout`. Doesn't allocate. Skips 64 sessions at a time if it is known that none
    /// of them ends: O(n / 64) for n sessions if none ends, and none ended or was used since the last
    /// call, and O(n + k) at most, for k entries of those that end.
    ///
    /// ```rust
    /// let expired = table.expire(1100);
    /// ```
    pub fn expire(&mut self, before: u64) -> usize
    where
        I: Drop,
        K: Drop,
        ensures expired { HasExpired I.eq before self.old self.new }
        ensures count { result + length self.new.sessions ≡ length self.old.sessions }
    {
        self.expire_each(before, |_id: I| {})
    }

    /// Ends sessions like [`SessionTable::expire`], and passes the id of each to a closure once it has
    /// ended, in the order in which they end. Doesn't allocate itself.
    ///
    /// ```rust
    /// let mut last = None;
    /// table.expire_each(1100, |id| last = Some(id));
    /// ```
    pub fn expire_each<F: FnMut(I)>(&mut self, before: u64, mut f: F) -> usize
    where
        K: Drop,
        requires { F.IsAlwaysCallable f }
        ensures called { (last : F) × FoldsTo (λ p id q. F.step p id tt q) f
            (expired_ids before self.old) last }
        ensures expired { HasExpired I.eq before self.old self.new }
        ensures count { result + length self.new.sessions ≡ length self.old.sessions }
    {
        let count = self.len();
        let mut place = self.next_old(0, before);
        'places: while place < self.len() {
            f(self.end_at(place));
            place = self.next_old(place, before);
        }
        count - self.len()
    }

    /// Ends all sessions, drops their values, and returns the store, which is empty then: it has no
    /// value, no borrow and no owner. Never fails. Doesn't allocate. O(n + k) for n sessions and k
    /// entries.
    ///
    /// ```rust
    /// let store = table.finish();
    /// ```
    pub fn finish(mut self) -> S
    where
        I: Drop,
        K: Drop,
        ensures gone { (e : Entry T) → value_in (S.state result) (pointer_in e) ≡ None }
        ensures borrows { HasNoBorrows (S.state result) }
        ensures owners { (o : OwnerName) → ownership (S.state result) o ≡ None }
    {
        'places: while self.len() > 0 {
            drop(self.end_at(self.len() - 1));
        }
        let SessionTable {
            store,
            rows,
            bounds: _,
            homes: _,
            sites: _,
            marker: _,
        } = self;
        rows.destroy_empty();
        store
    }

    /// Whether an id has a session. Doesn't allocate, and is O(1).
    ///
    /// ```rust
    /// let is_logged_in = table.has(&7);
    /// ```
    pub fn has<P: Equivalent<I>>(&self, id: P) -> bool
        ensures { result ≡ is_some (find_session (P.equivalent id) self.now) }
    {
        self.session(id).is_some()
    }

    /// The session of an id, if it has one. Doesn't allocate, and is O(1).
    ///
    /// ```rust
    /// if let Some(session) = table.session(&7) {
    ///     println!(rt; "last used at {}", session.used_at())?;
    /// }
    /// ```
    pub fn session<P: Equivalent<I>>(&self, id: P) -> Option<&Session<K, T>>
        ensures { option_map live (option_copied result) ≡ find_session (P.equivalent id) self.now }
    {
        self.rows.get(id)
    }

    /// The sessions with their ids, in the order that `login`, `rename`, `logout` and `expire` state.
    /// Doesn't allocate, and is O(1).
    ///
    /// ```rust
    /// for (id, session) in table.sessions() {
    ///     println!(rt; "{id} was used at {}", session.used_at())?;
    /// }
    /// ```
    pub fn sessions(&self) -> Sessions<'_, I, K, T>
        ensures { result ≡ self.now.sessions }
    {
        Sessions {
            rows: self.rows.iter(),
        }
    }

    /// Whether there is no session. Doesn't allocate, and is O(1).
    ///
    /// ```rust
    /// let is_quiet = table.is_empty();
    /// ```
    pub fn is_empty(&self) -> bool
        ensures { IsTrue result ↔ length self.now.sessions ≡ 0 }
    {
        self.rows.len() == 0
    }

    /// How many sessions there are. Doesn't allocate, and is O(1).
    ///
    /// ```rust
    /// println!(rt; "{} sessions", table.len())?;
    /// ```
    pub fn len(&self) -> usize
        ensures count { result ≡ length self.now.sessions }
        ensures orderly { IsOrderly I.eq self.now }
    {
        self.rows.len()
    }
}

// Lowers the bound of the block of an id's row to a time.
fn lower_at<I: Eq + Hash, K: Eq + Hash, T, P: Equivalent<I>>(
    bounds: &mut Bounds,
    rows: &IndexMap<I, Session<K, T>>,
    id: P,
    time: u64,
)
    ensures here { IfSome (index_of_by (P.equivalent id) rows.now) (λ row. bound_at bounds.new row ≤ time) }
    ensures others { (row : ℕ) → bound_at bounds.new row ≤ bound_at bounds.old row }
{
    if let Some(row) = rows.get_index_of(id) {
        bounds.lower(row, time);
    }
}

// Lowers the bound of a row's block to the row's last use.
fn settle<I: Eq + Hash, K: Eq + Hash, T>(
    bounds: &mut Bounds,
    rows: &IndexMap<I, Session<K, T>>,
    row: usize,
)
    requires { AreLowerBoundsBut row bounds.old rows.now.entries }
    ensures { AreLowerBounds bounds.new rows.now.entries }
{
    if let Some((_, session)) = rows.get_index(row) {
        bounds.lower(row, session.used_at);
    }
}

// The least time of a last use in a row's block.
fn least_use<I: Eq + Hash, K: Eq + Hash, T>(rows: &IndexMap<I, Session<K, T>>, row: usize) -> u64
    ensures { (place : ℕ) (e : I × Session K T) → place / 64 ≡ row / 64 →
        slice_get rows.now.entries place ≡ Some e → result ≤ e.1.used_at }
{
    let first = row / ROWS * ROWS;
    let mut least = u64::MAX;
    for step in 0..ROWS {
        if let Some((_, session)) = rows.get_index(first + step) {
            least = min(least, session.used_at);
        }
    }
    least
}
