//! Sessions: what a table stores under an id, from its login to its end. They are a user's; a session of
//! `generational_sessions` is something else, a run of the machine.

ghost use Rattle.std.specs.Prelude.{◌≡◌, ◌⊎◌, ◌++◌, ◌∷◌, [], true, Some, is_some, slice_get, IfOk, IfErr, IsErrAnd, OnErr, IfNone};
ghost use Rattle.std.specs.List.{IsDistinct};
ghost use Rattle.std.specs.Map.{lookup};
ghost use Rattle.generational_core.specs.Boxes.{name_of};
ghost use Rattle.generational_core.specs.Names.{is_name};
ghost use Rattle.generational_core.specs.Seeing.{value_in};
ghost use Rattle.generational_errors.specs.declared.error.Location.{Location};
ghost use Rattle.generational_errors.specs.declared.error.StoreError.TheVariants.{OutOfMemory};
ghost use Rattle.generational_laws.specs.PlainStores.{IsSimple};
ghost use Rattle.handles.specs.Handles.{pointer_in};
ghost use Rattle.handles.specs.Sites.{TellsLocation, told_at, told_in};
ghost use Rattle.session_table.specs.declared.entry.PutError.TheVariants as put;
ghost use Rattle.session_table.specs.Keeping.{AreLive, HasLost, HasPut};
ghost use Rattle.session_table.specs.Sessions.{Entry, left_of, entry_names};

use crate::entry::{Entry, PutError};
use crate::walk::Entries;
use generational_core::{HandedBack, Location, Refusal, Storage, StoreError};
use handles::parts::{Sites, handle_at, pointer_to};
use indexmap::{Equivalent, IndexMap};
use std::error::Error;
use std::fmt;
use std::hash::Hash;

/// How many slots there may be: an entry has 32 bits for its slot.
const SLOTS: usize = 4294967296;

/// A session that is logged in. Its table stores it under its id.
pub struct Session<K: Eq + Hash, T> {
    pub(crate) used_at: u64,
    // by which its entries find its row
    pub(crate) seat: u32,
    pub(crate) entries: IndexMap<K, Entry<T>>,
}

impl<K: Eq + Hash, T> Session<K, T> {
    /// The time of its last use: of its login, or of the last `touch`.
    ///
    /// ```rust
    /// if let Some(session) = table.session(&7) {
    ///     println!(rt; "last used at {}", session.used_at())?;
    /// }
    /// ```
    pub fn used_at(&self) -> u64
        ensures { result ≡ self.now.used_at }
    {
        self.used_at
    }

    /// The entry under a key, if there is one. Doesn't allocate, and is O(1).
    ///
    /// ```rust
    /// let found = table.session(&7).and_then(|session| session.entry(&1));
    /// ```
    pub fn entry<Q: Equivalent<K>>(&self, key: Q) -> Option<Entry<T>>
        ensures { result ≡ lookup (Q.equivalent key) self.now.entries.entries }
    {
        self.entries.get(key).copied()
    }

    /// The entries with their keys, in the order that `put` and the removals state. Doesn't allocate, and
    /// is O(1).
    ///
    /// ```rust
    /// if let Some(session) = table.session(&7) {
    ///     for (key, entry) in session.entries() {
    ///         println!(rt; "{key}: {}", table.get(entry)?)?;
    ///     }
    /// }
    /// ```
    pub fn entries(&self) -> Entries<'_, K, T>
        ensures { result ≡ self.now.entries.entries }
    {
        Entries {
            pairs: self.entries.iter(),
        }
    }

    /// Stores a value under a key that has none. On an error the value comes back.
    pub(crate) fn keep<S: Storage<T>>(
        &mut self,
        store: &mut S,
        sites: &mut Sites,
        key: K,
        value: T,
        here: Location,
    ) -> Result<Entry<T>, HandedBack<(K, T), PutError>>
    where
        K: Drop,
        requires { IsSimple (S.state store.old) }
        ensures entries { IfOk result (λ e. self.new.entries.entries
            ≡ self.old.entries.entries ++ (key, e) ∷ []) }
        ensures used { self.new.used_at ≡ self.old.used_at }
        ensures put { IfOk result (λ e. HasPut (S.state store.old) value here e (S.state store.new)) }
        ensures here { IfOk result (λ e.
            TellsLocation (told_at (S.state store.old).number (told_in sites.new) e) here) }
        ensures tells { (e : Entry T) (l : Location) →
            told_at (S.state store.old).number (told_in sites.old) e ≡ Some l →
            told_at (S.state store.old).number (told_in sites.new) e ≡ Some l }
        ensures in_use { is_some (lookup (K.eq key) self.old.entries.entries) ≡ true →
            IsErrAnd result (λ refusal. refusal.cause ≡ put.KeyInUse) }
        ensures short { IfErr result (λ refusal.
            (is_some (lookup (K.eq key) self.old.entries.entries) ≡ true)
            ⊎ (refusal.cause ≡ put.Store OutOfMemory)) }
        ensures back { IfErr result (λ refusal. refusal.value ≡ (key, value)) }
        ensures same { OnErr result (self.new.entries.entries ≡ self.old.entries.entries) }
        ensures sites { OnErr result (told_in sites.new ≡ told_in sites.old) }
        ensures refused { OnErr result (S.state store.new ≡ S.state store.old) }
    {
        if self.entries.contains_key(&key) {
            return Err(not_put(key, value, PutError::KeyInUse));
        }
        let lacking = PutError::Store(StoreError::OutOfMemory);
        if store.slots() >= SLOTS || self.entries.reserve(1).is_err() {
            return Err(not_put(key, value, lacking));
        }
        let Ok(site) = sites.find_or_add(here) else {
            return Err(not_put(key, value, lacking));
        };
        let raw = match store.new(value, here, None) {
            Ok(raw) => raw,
            Err(Refusal { value, cause }) => {
                return Err(not_put(key, value, PutError::Store(cause)));
            }
        };
        let entry = handle_at(raw.id, site);
        sites.tell(site);
        match self.entries.insert(key, entry) {
            Ok(_) => Ok(entry),
            Err(_) => unreachable!(),
        }
    }

    /// Removes and returns the entry under a key, if there is one. The others keep their order, or else the
    /// last one takes its place.
    pub(crate) fn forget<Q: Equivalent<K>>(&mut self, key: Q, in_order: bool) -> Option<Entry<T>>
    where
        K: Drop,
        ensures entry { result ≡ lookup (Q.equivalent key) self.old.entries.entries }
        ensures entries { self.new.entries.entries
            ≡ left_of in_order (Q.equivalent key) self.old.entries.entries }
        ensures used { self.new.used_at ≡ self.old.used_at }
        ensures same { IfNone result (self.new.entries.entries ≡ self.old.entries.entries) }
    {
        if in_order {
            self.entries.shift_remove(key)
        } else {
            self.entries.swap_remove(key)
        }
    }

    /// Drops all its values.
    pub(crate) fn end<S: Storage<T>>(self, store: &mut S)
    where
        K: Drop,
        requires simple { IsSimple (S.state store.old) }
        requires live { AreLive (S.state store.old) self.entries.entries }
        requires once { IsDistinct is_name (entry_names self.entries.entries) }
        ensures { HasLost (S.state store.old) (entry_names self.entries.entries) (S.state store.new) }
    {
        let Session {
            used_at: _,
            seat: _,
            entries,
        } = self;
        let mut next = 0;
        'ends: while next < entries.len() {
            end_at(store, &entries, next);
            next += 1;
        }
    }
}

// Drops the value of the entry at an index.
fn end_at<K: Eq + Hash, T, S: Storage<T>>(
    store: &mut S,
    entries: &IndexMap<K, Entry<T>>,
    place: usize,
)
    requires simple { IsSimple (S.state store.old) }
    requires live { (k : K) (e : Entry T) → slice_get entries.now.entries place ≡ Some (k, e) →
        is_some (value_in (S.state store.old) (pointer_in e)) ≡ true }
    ensures { (k : K) (e : Entry T) → slice_get entries.now.entries place ≡ Some (k, e) →
        HasLost (S.state store.old) (name_of (pointer_in e) ∷ []) (S.state store.new) }
{
    let Some((_, entry)) = entries.get_index(place) else {
        return;
    };
    match store.recycle(pointer_to(*entry)) {
        Ok(()) => {}
        Err(_) => unreachable!(),
    }
}

/// A key and a value that weren't put, and why.
pub(crate) fn not_put<K, T>(key: K, value: T, cause: PutError) -> HandedBack<(K, T), PutError>
    ensures { result ≡ record { value = (key, value); cause = cause } }
{
    let value = (key, value);
    HandedBack { value, cause }
}

/// Why an id can't be logged in.
#[derive(Clone, Copy, Debug, PartialEq, Eq)]
pub enum LoginError {
    /// The id has a session already.
    IdInUse,
    /// Memory ran out.
    Store(StoreError),
}

/// Prints `the id has a session already`, or the text of the `StoreError`.
impl fmt::Display for LoginError {
    ghost use Rattle.session_table.specs.Texts.{login_error_text};

    ghost output = { λ it. Some (login_error_text it) };

    fn fmt<W: fmt::Write>(&self, f: &mut fmt::Formatter<W>) -> fmt::Result {
        match self {
            LoginError::IdInUse => write!(f, "the id has a session already"),
            LoginError::Store(cause) => write!(f, "{cause}"),
        }
    }
}

impl Error for LoginError {}

/// Why a session can't get another id.
#[derive(Clone, Copy, Debug, PartialEq, Eq)]
pub enum RenameError {
    /// The id has no session.
    NoSession,
    /// The new id has a session already.
    IdInUse,
    /// Memory ran out.
    Store(StoreError),
}

/// Prints `the id has no session`, `the new id has a session already`, or the text of the `StoreError`.
impl fmt::Display for RenameError {
    ghost use Rattle.session_table.specs.Texts.{rename_error_text};

    ghost output = { λ it. Some (rename_error_text it) };

    fn fmt<W: fmt::Write>(&self, f: &mut fmt::Formatter<W>) -> fmt::Result {
        match self {
            RenameError::NoSession => write!(f, "the id has no session"),
            RenameError::IdInUse => write!(f, "the new id has a session already"),
            RenameError::Store(cause) => write!(f, "{cause}"),
        }
    }
}

impl Error for RenameError {}
