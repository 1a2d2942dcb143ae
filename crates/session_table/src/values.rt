//! The calls of a table on the values in its sessions.

ghost use Rattle.std.specs.Prelude.{◌≡◌, ◌↔◌, ◌⊎◌, true, false, length, None, Some, is_some};
ghost use Rattle.std.specs.Prelude.{option_map, option_copied, IfOk, IfSome, OnOk, Ok, IfErr, IsErrAnd, IsOkAnd};
ghost use Rattle.std.specs.Prelude.{OnErr, IsErr, IfNone, IsNone, IsSome};
ghost use Rattle.std.specs.Borrow.{MutBor};
ghost use Rattle.std.specs.Fn.{FnOnceReturnsAtMut};
ghost use Rattle.generational_errors.specs.declared.error.Location.{Location};
ghost use Rattle.generational_errors.specs.declared.error.StoreError.TheVariants.{OutOfMemory};
ghost use Rattle.handles.specs.Handles.{IsOther};
ghost use Rattle.handles.specs.Sites.{TellsLocation};
ghost use Rattle.session_table.specs.declared.entry.PutError.TheVariants as put;
ghost use Rattle.session_table.specs.Sessions.{Entry, with_entry, without_entry, entry_in, find_entry, left_entry};
ghost use Rattle.session_table.specs.Sessions.{swapped_entry};
ghost use Rattle.session_table.specs.Tables.{KeepsEntryLocations, created_at, shown_in, Puts, Replaces, find_session, keeps};
ghost use Rattle.session_table.specs.Tables.{keeps_by, value_under, session_in, WasPut};

use crate::entry::{Entry, PutError};
use crate::session::not_put;
use crate::table::SessionTable;
use generational_core::{HandedBack, Location, Storage};
use handles::Stale;
use handles::parts::{number_of, peek, pointer_to, site_of};
use indexmap::Equivalent;
use std::hash::Hash;

impl<I: Eq + Hash, K: Eq + Hash, T, S: Storage<T>> SessionTable<I, K, T, S> {
    /// Stores a value under a key in an id's session, and returns its entry, which was never issued
    /// before. Every other entry and every other session is unchanged. The table says for its whole
    /// lifetime where the value was put. Amortised O(1). Allocates if no slot is free, if the session has
    /// no room, or for a location from which nothing was put yet.
    ///
    /// # Errors
    ///
    /// - `NoSession` if the id has none.
    /// - `KeyInUse` if the session has an entry under the key.
    /// - `Store` of `OutOfMemory`.
    ///
    /// The key and the value come back then, and the table is unchanged.
    ///
    /// ```rust
    /// let basket = table.put(&7, 1, 42, here)?;
    /// ```
    pub fn put<P: Equivalent<I>>(
        &mut self,
        id: P,
        key: K,
        value: T,
        here: Location,
    ) -> Result<Entry<T>, HandedBack<(K, T), PutError>>
    where
        K: Drop,
        ensures shown { IfOk result (λ e. shown_in self.new e ≡ Some value) }
        ensures kept { IfOk result (λ e. find_session (P.equivalent id) self.new
            ≡ option_map (with_entry key e) (find_session (P.equivalent id) self.old)) }
        ensures keeps { IfOk result (λ e. keeps_by (P.equivalent id) self.new e ≡ true) }
        ensures still { (other : I) (f : Entry T) → keeps I.eq self.old other f ≡ true →
            keeps I.eq self.new other f ≡ true }
        ensures unkept { (other : I) (f : Entry T) → WasPut self.old f →
            keeps I.eq self.old other f ≡ false → keeps I.eq self.new other f ≡ false }
        ensures others { (other : I) → P.equivalent id other ≡ false →
            session_in I.eq self.new other ≡ session_in I.eq self.old other }
        ensures count { length self.new.sessions ≡ length self.old.sessions }
        ensures beside { IfOk result (λ e. (f : Entry T) → IsOther e f →
            shown_in self.new f ≡ shown_in self.old f) }
        ensures left { (f : Entry T) → WasPut self.old f →
            shown_in self.new f ≡ shown_in self.old f }
        ensures new { IfOk result (λ e. WasPut self.old e → ⊥) }
        ensures here { IfOk result (λ e. TellsLocation (created_at self.new e) here) }
        ensures tells { KeepsEntryLocations self.old self.new }
        ensures put { (f : Entry T) → WasPut self.old f → WasPut self.new f }
        ensures given { IfOk result (λ e. WasPut self.new e) }
        ensures ticket { self.new.state.next ≡ self.old.state.next }
        ensures unknown { is_some (find_session (P.equivalent id) self.old) ≡ false →
            IsErrAnd result (λ refusal. refusal.cause ≡ put.NoSession) }
        ensures in_use { is_some (entry_in K.eq (find_session (P.equivalent id) self.old) key) ≡ true →
            IsErrAnd result (λ refusal. refusal.cause ≡ put.KeyInUse) }
        ensures short { IfErr result (λ refusal. (is_some (find_session (P.equivalent id) self.old) ≡ false)
            ⊎ ((is_some (entry_in K.eq (find_session (P.equivalent id) self.old) key) ≡ true)
            ⊎ (refusal.cause ≡ put.Store OutOfMemory))) }
        ensures back { IfErr result (λ refusal. refusal.value ≡ (key, value)) }
        ensures refused { OnErr result (self.new ≡ self.old) }
    {
        let Some(session) = self.rows.get_mut(id) else {
            return Err(not_put(key, value, PutError::NoSession));
        };
        let (store, sites) = (&mut self.store, &mut self.sites);
        let index = session.entries.len();
        let entry = session.keep(store, sites, key, value, here)?;
        self.homes.note(session, index, index.saturating_add(1));
        Ok(entry)
    }

    /// The entry that an id's session has under a key; if it has none, the value is put, like by
    /// [`SessionTable::put`]. If it has one, the key and the value are dropped, and nothing changes.
    /// Amortised O(1). Allocates only when `put` does.
    ///
    /// # Errors
    ///
    /// - `NoSession` if the id has none.
    /// - `Store` of `OutOfMemory`, only if the session has no entry under the key.
    ///
    /// The key and the value come back then, and the table is unchanged.
    ///
    /// ```rust
    /// let basket = table.get_or_put(&7, 1, 0, here)?;
    /// ```
    pub fn get_or_put<P: Equivalent<I>>(
        &mut self,
        id: P,
        key: K,
        value: T,
        here: Location,
    ) -> Result<Entry<T>, HandedBack<(K, T), PutError>>
    where
        K: Drop,
        T: Drop,
        ensures found { (e : Entry T) →
            entry_in K.eq (find_session (P.equivalent id) self.old) key ≡ Some e → result ≡ Ok e }
        ensures same { is_some (entry_in K.eq (find_session (P.equivalent id) self.old) key) ≡ true →
            self.new ≡ self.old }
        ensures put { entry_in K.eq (find_session (P.equivalent id) self.old) key ≡ None →
            IfOk result (λ e. Puts I.eq (P.equivalent id) key here self.old e self.new) }
        ensures shown { entry_in K.eq (find_session (P.equivalent id) self.old) key ≡ None →
            IfOk result (λ e. shown_in self.new e ≡ Some value) }
        ensures unknown { is_some (find_session (P.equivalent id) self.old) ≡ false →
            IsErrAnd result (λ refusal. refusal.cause ≡ put.NoSession) }
        ensures short { IfErr result (λ refusal. (is_some (find_session (P.equivalent id) self.old) ≡ false)
            ⊎ (refusal.cause ≡ put.Store OutOfMemory)) }
        ensures back { IfErr result (λ refusal. refusal.value ≡ (key, value)) }
        ensures refused { OnErr result (self.new ≡ self.old) }
    {
        match self.entry(id, &key) {
            Some(entry) => Ok(entry),
            None => self.put(id, key, value, here),
        }
    }

    /// Sets the value that an id's session has under a key; if it has none, the value is put, like by
    /// [`SessionTable::put`]. Returns the entry, and the value that it had before, if there was one: the
    /// entry stays the same then, and the key is dropped. Amortised O(1). Allocates only when `put` does.
    ///
    /// # Errors
    ///
    /// - `NoSession` if the id has none.
    /// - `Store` of `OutOfMemory`, only if the session has no entry under the key.
    ///
    /// The key and the value come back then, and the table is unchanged.
    ///
    /// ```rust
    /// let (basket, before) = table.upsert(&7, 1, 42, here)?;
    /// ```
    pub fn upsert<P: Equivalent<I>>(
        &mut self,
        id: P,
        key: K,
        value: T,
        here: Location,
    ) -> Result<(Entry<T>, Option<T>), HandedBack<(K, T), PutError>>
    where
        K: Drop,
        ensures found { (e : Entry T) →
            entry_in K.eq (find_session (P.equivalent id) self.old) key ≡ Some e →
            IsOkAnd result (λ r. (r.0 ≡ e) × Replaces self.old e self.new) }
        ensures put { entry_in K.eq (find_session (P.equivalent id) self.old) key ≡ None →
            IfOk result (λ r. Puts I.eq (P.equivalent id) key here self.old r.0 self.new) }
        ensures shown { IfOk result (λ r. shown_in self.new r.0 ≡ Some value) }
        ensures before { IfOk result (λ r.
            r.1 ≡ value_under (P.equivalent id) (K.eq key) self.old) }
        ensures unknown { is_some (find_session (P.equivalent id) self.old) ≡ false →
            IsErrAnd result (λ refusal. refusal.cause ≡ put.NoSession) }
        ensures short { IfErr result (λ refusal. (is_some (find_session (P.equivalent id) self.old) ≡ false)
            ⊎ (refusal.cause ≡ put.Store OutOfMemory)) }
        ensures back { IfErr result (λ refusal. refusal.value ≡ (key, value)) }
        ensures refused { OnErr result (self.new ≡ self.old) }
    {
        let Some(entry) = self.entry(id, &key) else {
            let entry = self.put(id, key, value, here)?;
            return Ok((entry, None));
        };
        match self.replace(entry, value) {
            Ok(before) => Ok((entry, Some(before))),
            Err(_) => unreachable!(),
        }
    }

    /// The entry that an id's session has under a key, if it has one: it is live. Doesn't allocate, and is
    /// O(1).
    ///
    /// ```rust
    /// if let Some(entry) = table.entry(&7, &1) {
    ///     println!(rt; "{}", table.get(entry)?)?;
    /// }
    /// ```
    pub fn entry<P: Equivalent<I>, Q: Equivalent<K>>(&self, id: P, key: Q) -> Option<Entry<T>>
        ensures found { result ≡ find_entry (Q.equivalent key) (find_session (P.equivalent id) self.now) }
        ensures live { IfSome result (λ e. is_some (shown_in self.now e) ≡ true) }
    {
        self.rows.get(id)?.entry(key)
    }

    /// The value that an id's session has under a key, if it has one. The table is borrowed meanwhile.
    /// Doesn't allocate, and is O(1).
    ///
    /// ```rust
    /// if let Some(count) = table.get_at(&7, &1) {
    ///     println!(rt; "{count} in the basket")?;
    /// }
    /// ```
    pub fn get_at<P: Equivalent<I>, Q: Equivalent<K>>(&self, id: P, key: Q) -> Option<&T>
        ensures { option_copied result ≡ value_under (P.equivalent id) (Q.equivalent key) self.now }
    {
        peek(&self.store, self.entry(id, key)?)
    }

    /// Whether an entry is live: false once it was removed or its session has ended, and for an entry of
    /// another table whose store has another number. Doesn't allocate, and is O(1).
    ///
    /// ```rust
    /// let is_there = table.shows(basket);
    /// ```
    pub fn shows(&self, entry: Entry<T>) -> bool
        ensures { result ≡ is_some (shown_in self.now entry) }
    {
        peek(&self.store, entry).is_some()
    }

    /// The id of the session that an entry is in. The table is borrowed meanwhile. Doesn't allocate, and is
    /// O(1), unless memory ran out when the value was put or its session started: it's then O(n + k) for n
    /// sessions and k entries.
    ///
    /// # Errors
    ///
    /// `Stale` if the entry was removed, or belongs to another table.
    ///
    /// ```rust
    /// let user = *table.session_of(basket)?;
    /// ```
    pub fn session_of(&self, entry: Entry<T>) -> Result<&I, Stale>
        ensures kept { IfOk result (λ id. keeps I.eq self.now id.now entry ≡ true) }
        ensures stale { IsErr result ↔ shown_in self.now entry ≡ None }
        ensures told { IfErr result (λ stale. stale.created_at ≡ created_at self.now entry) }
    {
        if !self.shows(entry) {
            return Err(self.stale(entry));
        }
        let Some(row) = self.homes.row_of(&self.rows, entry) else {
            unreachable!();
        };
        match self.rows.get_index(row) {
            Some((id, _)) => Ok(id),
            None => unreachable!(),
        }
    }

    /// Where an entry's value was put, even after it was removed; None for an entry of another table.
    /// Doesn't allocate, and is O(1).
    ///
    /// ```rust
    /// if let Some(created_at) = table.created_at(basket) {
    ///     println!(rt; "put at {created_at}")?;
    /// }
    /// ```
    pub fn created_at(&self, entry: Entry<T>) -> Option<Location>
        ensures { result ≡ created_at self.now entry }
    {
        if number_of(entry) != self.store.number() {
            return None;
        }
        self.sites.get(site_of(entry))
    }

    // The error for a stale entry, with the location where its value was put.
    #[cold]
    #[inline(never)]
    fn stale(&self, entry: Entry<T>) -> Stale
        ensures { result.created_at ≡ created_at self.now entry }
    {
        Stale {
            created_at: self.created_at(entry),
        }
    }

    /// Borrows an entry's value. Doesn't allocate, and is O(1).
    ///
    /// # Errors
    ///
    /// `Stale` if the entry was removed, or belongs to another table.
    ///
    /// ```rust
    /// let count = *table.get(basket)?;
    /// ```
    pub fn get(&self, entry: Entry<T>) -> Result<&T, Stale>
        ensures seen { IfOk result (λ value. shown_in self.now entry ≡ Some value.now) }
        ensures stale { IsErr result ↔ shown_in self.now entry ≡ None }
        ensures told { IfErr result (λ stale. stale.created_at ≡ created_at self.now entry) }
    {
        match peek(&self.store, entry) {
            Some(value) => Ok(value),
            None => Err(self.stale(entry)),
        }
    }

    /// Replaces an entry's value, and drops the old one. Every other entry and the sessions are
    /// unchanged.
    ///
    /// Doesn't allocate, and is O(1) except for dropping the old value.
    ///
    /// # Errors
    ///
    /// `Stale` if the entry was removed, or belongs to another table. The value comes back, and the table
    /// is unchanged.
    ///
    /// ```rust
    /// if let Err(refusal) = table.set(basket, 43) {
    ///     println!(rt; "{refusal}, and {} comes back", refusal.value)?;
    /// }
    /// ```
    pub fn set(&mut self, entry: Entry<T>, value: T) -> Result<(), HandedBack<T, Stale>>
    where
        T: Drop,
        ensures shown { OnOk result (shown_in self.new entry ≡ Some value) }
        ensures others { (f : Entry T) → IsOther entry f →
            shown_in self.new f ≡ shown_in self.old f }
        ensures sessions { self.new.sessions ≡ self.old.sessions }
        ensures put { (f : Entry T) → WasPut self.old f → WasPut self.new f }
        ensures tells { (f : Entry T) → created_at self.new f ≡ created_at self.old f }
        ensures ticket { self.new.state.next ≡ self.old.state.next }
        ensures stale { IsErr result ↔ shown_in self.old entry ≡ None }
        ensures told { IfErr result (λ refusal. refusal.cause.created_at ≡ created_at self.old entry) }
        ensures back { IfErr result (λ refusal. refusal.value ≡ value) }
        ensures refused { OnErr result (self.new ≡ self.old) }
    {
        self.replace(entry, value)?;
        Ok(())
    }

    /// Replaces an entry's value, and returns the old one. Every other entry and the sessions are
    /// unchanged. Doesn't allocate, and is O(1).
    ///
    /// # Errors
    ///
    /// `Stale` if the entry was removed, or belongs to another table. The value comes back, and the table
    /// is unchanged.
    ///
    /// ```rust
    /// let before = table.replace(basket, 43)?;
    /// ```
    pub fn replace(&mut self, entry: Entry<T>, value: T) -> Result<T, HandedBack<T, Stale>>
        ensures taken { IfOk result (λ before. shown_in self.old entry ≡ Some before) }
        ensures shown { OnOk result (shown_in self.new entry ≡ Some value) }
        ensures others { (f : Entry T) → IsOther entry f →
            shown_in self.new f ≡ shown_in self.old f }
        ensures sessions { self.new.sessions ≡ self.old.sessions }
        ensures put { (f : Entry T) → WasPut self.old f → WasPut self.new f }
        ensures tells { (f : Entry T) → created_at self.new f ≡ created_at self.old f }
        ensures ticket { self.new.state.next ≡ self.old.state.next }
        ensures stale { IsErr result ↔ shown_in self.old entry ≡ None }
        ensures told { IfErr result (λ refusal. refusal.cause.created_at ≡ created_at self.old entry) }
        ensures back { IfErr result (λ refusal. refusal.value ≡ value) }
        ensures refused { OnErr result (self.new ≡ self.old) }
    {
        if !self.shows(entry) {
            let cause = self.stale(entry);
            return Err(HandedBack { value, cause });
        }
        Ok(self.store.replace_value(pointer_to(entry), value))
    }

    /// Calls a closure once on an entry's value, mutably, and returns the closure's result. Every other
    /// entry and the sessions are unchanged. Doesn't allocate itself, and is O(1) except for the closure.
    ///
    /// # Errors
    ///
    /// `Stale` if the entry was removed, or belongs to another table. The closure isn't called then, and
    /// the table is unchanged.
    ///
    /// ```rust
    /// let more = table.update(basket, |count: &mut u64| {
    ///     *count = count.wrapping_add(1);
    ///     *count
    /// })?;
    /// ```
    pub fn update<R, F: FnOnce(&mut T) -> R>(&mut self, entry: Entry<T>, f: F) -> Result<R, Stale>
        requires { (value : MutBor T) → shown_in self.old entry ≡ Some value.now → F.pre f value }
        ensures changed { IfOk result (λ answer. (old : T) × (new : T)
            × (shown_in self.old entry ≡ Some old)
            × FnOnceReturnsAtMut F.FnOnce f old answer new
            × (shown_in self.new entry ≡ Some new)) }
        ensures others { (e : Entry T) → IsOther entry e →
            shown_in self.new e ≡ shown_in self.old e }
        ensures sessions { self.new.sessions ≡ self.old.sessions }
        ensures put { (e : Entry T) → WasPut self.old e → WasPut self.new e }
        ensures tells { (e : Entry T) → created_at self.new e ≡ created_at self.old e }
        ensures ticket { self.new.state.next ≡ self.old.state.next }
        ensures stale { IsErr result ↔ shown_in self.old entry ≡ None }
        ensures told { IfErr result (λ stale. stale.created_at ≡ created_at self.old entry) }
        ensures refused { OnErr result (self.new ≡ self.old) }
    {
        if !self.shows(entry) {
            return Err(self.stale(entry));
        }
        Ok(self.store.change_value(pointer_to(entry), f))
    }

    /// Removes and returns the value that an id's session has under a key. Its entry is stale from then
    /// on, and never refers to a later value. The session's last entry takes its place (swap-remove).
    /// Every other session and every other entry is unchanged.
    ///
    /// `None` if the id has no session, or the session has no entry under the key: nothing changes then.
    /// Doesn't allocate, and is O(1).
    ///
    /// ```rust
    /// if let Some(count) = table.remove(&7, &1) {
    ///     println!(rt; "{count} were in the basket")?;
    /// }
    /// ```
    pub fn remove<P: Equivalent<I>, Q: Equivalent<K>>(&mut self, id: P, key: Q) -> Option<T>
    where
        K: Drop,
        ensures taken { (e : Entry T) →
            find_entry (Q.equivalent key) (find_session (P.equivalent id) self.old) ≡ Some e →
            result ≡ shown_in self.old e }
        ensures none { IsNone result
            ↔ find_entry (Q.equivalent key) (find_session (P.equivalent id) self.old) ≡ None }
        ensures kept { IsSome result → find_session (P.equivalent id) self.new
            ≡ option_map (swapped_entry (Q.equivalent key)) (find_session (P.equivalent id) self.old) }
        ensures others { (other : I) → P.equivalent id other ≡ false →
            session_in I.eq self.new other ≡ session_in I.eq self.old other }
        ensures count { length self.new.sessions ≡ length self.old.sessions }
        ensures gone { (e : Entry T) →
            find_entry (Q.equivalent key) (find_session (P.equivalent id) self.old) ≡ Some e →
            shown_in self.new e ≡ None }
        ensures beside { (e : Entry T) →
            find_entry (Q.equivalent key) (find_session (P.equivalent id) self.old) ≡ Some e →
            (f : Entry T) → IsOther e f → shown_in self.new f ≡ shown_in self.old f }
        ensures put { (f : Entry T) → WasPut self.old f → WasPut self.new f }
        ensures tells { (f : Entry T) → created_at self.new f ≡ created_at self.old f }
        ensures ticket { self.new.state.next ≡ self.old.state.next }
        ensures unchanged { IfNone result (self.new ≡ self.old) }
    {
        self.take_out(id, key, false)
    }

    /// Removes and returns the value that an id's session has under a key, like
    /// [`SessionTable::remove`], but the session's other entries keep their order.
    ///
    /// `None` if the id has no session, or the session has no entry under the key: nothing changes then.
    /// Doesn't allocate, and is O(k) for k entries of the session, since those after this one move up.
    ///
    /// ```rust
    /// let first_step = table.shift_remove(&7, &1);
    /// ```
    pub fn shift_remove<P: Equivalent<I>, Q: Equivalent<K>>(&mut self, id: P, key: Q) -> Option<T>
    where
        K: Drop,
        ensures taken { (e : Entry T) →
            find_entry (Q.equivalent key) (find_session (P.equivalent id) self.old) ≡ Some e →
            result ≡ shown_in self.old e }
        ensures none { IsNone result
            ↔ find_entry (Q.equivalent key) (find_session (P.equivalent id) self.old) ≡ None }
        ensures kept { IsSome result → find_session (P.equivalent id) self.new
            ≡ option_map (without_entry (Q.equivalent key)) (find_session (P.equivalent id) self.old) }
        ensures others { (other : I) → P.equivalent id other ≡ false →
            session_in I.eq self.new other ≡ session_in I.eq self.old other }
        ensures count { length self.new.sessions ≡ length self.old.sessions }
        ensures gone { (e : Entry T) →
            find_entry (Q.equivalent key) (find_session (P.equivalent id) self.old) ≡ Some e →
            shown_in self.new e ≡ None }
        ensures beside { (e : Entry T) →
            find_entry (Q.equivalent key) (find_session (P.equivalent id) self.old) ≡ Some e →
            (f : Entry T) → IsOther e f → shown_in self.new f ≡ shown_in self.old f }
        ensures put { (f : Entry T) → WasPut self.old f → WasPut self.new f }
        ensures tells { (f : Entry T) → created_at self.new f ≡ created_at self.old f }
        ensures ticket { self.new.state.next ≡ self.old.state.next }
        ensures unchanged { IfNone result (self.new ≡ self.old) }
    {
        self.take_out(id, key, true)
    }

    // Removes a value, with the session's other entries in order or not.
    fn take_out<P: Equivalent<I>, Q: Equivalent<K>>(
        &mut self,
        id: P,
        key: Q,
        in_order: bool,
    ) -> Option<T>
    where
        K: Drop,
        ensures taken { (e : Entry T) →
            find_entry (Q.equivalent key) (find_session (P.equivalent id) self.old) ≡ Some e →
            result ≡ shown_in self.old e }
        ensures none { IsNone result
            ↔ find_entry (Q.equivalent key) (find_session (P.equivalent id) self.old) ≡ None }
        ensures kept { IsSome result → find_session (P.equivalent id) self.new
            ≡ option_map (left_entry in_order (Q.equivalent key)) (find_session (P.equivalent id) self.old) }
        ensures others { (other : I) → P.equivalent id other ≡ false →
            session_in I.eq self.new other ≡ session_in I.eq self.old other }
        ensures count { length self.new.sessions ≡ length self.old.sessions }
        ensures gone { (e : Entry T) →
            find_entry (Q.equivalent key) (find_session (P.equivalent id) self.old) ≡ Some e →
            shown_in self.new e ≡ None }
        ensures beside { (e : Entry T) →
            find_entry (Q.equivalent key) (find_session (P.equivalent id) self.old) ≡ Some e →
            (f : Entry T) → IsOther e f → shown_in self.new f ≡ shown_in self.old f }
        ensures put { (f : Entry T) → WasPut self.old f → WasPut self.new f }
        ensures tells { (f : Entry T) → created_at self.new f ≡ created_at self.old f }
        ensures ticket { self.new.state.next ≡ self.old.state.next }
        ensures unchanged { IfNone result (self.new ≡ self.old) }
    {
        let Some(session) = self.rows.get_mut(id) else {
            return None;
        };
        let Some(entry) = session.forget(key, in_order) else {
            return None;
        };
        self.homes.close(session, entry, in_order);
        match self.store.take_value(pointer_to(entry)) {
            Some(value) => Some(value),
            None => unreachable!(),
        }
    }
}
