//! Sessions, and entries that outlive them.

ghost use Rattle.std.specs.Prelude.{◌≡◌, ℕ, true, false, None, Some, IfOk, IfErr, IfSome, IsErr};
ghost use Rattle.std.specs.Prelude.{◌≤◌, ◌<◌, ◌+◌, ◌^◌, is_some, nat_eq, OnErr};
ghost use Rattle.generational_errors.specs.declared.error.Location.{Location};
ghost use Rattle.handles.specs.Handles.{IsOther};
ghost use Rattle.session_table.specs.Sessions.{Entry, LiveSession, entry_in, if_young};
ghost use Rattle.std.specs.Map.{lookup};
ghost use Rattle.session_table.specs.Tables.{created_at, keeps, session_in, shown_in, value_under, WasPut};

use generational_box::{Location, Storage};
use session_table::{Entry, Session, SessionTable, Stale};

/// Logs a session out, puts a value into another, and reads what the first had: that fails, and the error
/// says where it was put, even if the new value took its slot.
pub fn told_after_logout<S: Storage<u64>>(
    table: &mut SessionTable<u64, u64, u64, S>,
    id: u64,
    entry: Entry<u64>,
    other: u64,
    next: u64,
    here: Location,
) -> Result<u64, Stale>
    requires put { WasPut table.old entry }
    requires kept { keeps nat_eq table.old id entry ≡ true }
    ensures gone { IsErr result }
    ensures told { (l : Location) → created_at table.old entry ≡ Some l →
        IfErr result (λ stale. stale.created_at ≡ Some l) }
{
    let _ = table.logout(&id);
    let _ = table.put(&other, 1, next, here);
    table.get(entry).copied()
}

/// Logs a session out, and reads what another has: it is unchanged. Fails only if the entry was stale
/// before.
pub fn seen_beside<S: Storage<u64>>(
    table: &mut SessionTable<u64, u64, u64, S>,
    id: u64,
    other: u64,
    entry: Entry<u64>,
) -> Result<u64, Stale>
    requires apart { nat_eq id other ≡ false }
    requires kept { keeps nat_eq table.old other entry ≡ true }
    ensures same { IfOk result (λ seen. shown_in table.old entry ≡ Some seen) }
    ensures none { IfErr result (λ _. shown_in table.old entry ≡ None) }
{
    let _ = table.logout(&id);
    table.get(entry).copied()
}

/// Stores a value in a new session, reads it, and logs the session out: it is the same value. Every other
/// session, and every entry that was put before, is unchanged in each case.
pub fn one_visit<S: Storage<u64>>(
    table: &mut SessionTable<u64, u64, u64, S>,
    id: u64,
    now: u64,
    value: u64,
    here: Location,
) -> Option<u64>
    ensures same { IfSome result (λ seen. seen ≡ value) }
    ensures others { (other : ℕ) → nat_eq id other ≡ false →
        session_in nat_eq table.new other ≡ session_in nat_eq table.old other }
    ensures left { (e : Entry ℕ) → WasPut table.old e →
        shown_in table.new e ≡ shown_in table.old e }
{
    table.login(id, now).ok()?;
    let entry = table.put(&id, 1, value, here).ok();
    let seen = entry.and_then(|entry| table.get(entry).copied().ok());
    let _ = table.logout(&id);
    seen
}

/// Stores another value in a session, and logs another session out: an entry of the first is unchanged.
/// Fails only if the entry was stale before.
pub fn seen_after_put<S: Storage<u64>>(
    table: &mut SessionTable<u64, u64, u64, S>,
    id: u64,
    other: u64,
    entry: Entry<u64>,
    next: u64,
    here: Location,
) -> Result<u64, Stale>
    requires apart { nat_eq id other ≡ false }
    requires put { WasPut table.old entry }
    requires kept { keeps nat_eq table.old other entry ≡ true }
    ensures same { IfOk result (λ seen. shown_in table.old entry ≡ Some seen) }
    ensures none { IfErr result (λ _. shown_in table.old entry ≡ None) }
{
    let _ = table.put(&other, 1, next, here);
    let _ = table.logout(&id);
    table.get(entry).copied()
}

/// Removes what a session has under a key, stores another value there, and reads the first entry: it
/// returns the value that the entry had, and then the error that it is gone, even if the new value took
/// its slot.
pub fn put_anew<S: Storage<u64>>(
    table: &mut SessionTable<u64, u64, u64, S>,
    at: (u64, u64),
    entry: Entry<u64>,
    next: u64,
    here: Location,
) -> (Option<u64>, Result<u64, Stale>)
    requires put { WasPut table.old entry }
    requires found { entry_in nat_eq (session_in nat_eq table.old at.0) at.1 ≡ Some entry }
    ensures taken { result.0 ≡ shown_in table.old entry }
    ensures gone { IsErr result.1 }
    ensures left { (other : ℕ) → nat_eq at.0 other ≡ false →
        session_in nat_eq table.new other ≡ session_in nat_eq table.old other }
{
    let taken = table.remove(&at.0, &at.1);
    let _ = table.put(&at.0, at.1, next, here);
    (taken, table.get(entry).copied())
}

/// Gives a visitor's session the id of a user who was authenticated, and finds in it what the visitor
/// stored under a key. The visitor's id has no session then.
pub fn signed_in<S: Storage<u64>>(
    table: &mut SessionTable<u64, u64, u64, S>,
    visitor: u64,
    user: u64,
    key: u64,
) -> Option<Entry<u64>>
    ensures found { IfSome result (λ e.
        entry_in nat_eq (session_in nat_eq table.old visitor) key ≡ Some e) }
    ensures gone { IfSome result (λ _. session_in nat_eq table.new visitor ≡ None) }
{
    table.rename(&visitor, user).ok()?;
    table.entry(&user, &key)
}

/// Adds to an entry's value in place, and returns the sum.
pub fn added<S: Storage<u64>>(
    table: &mut SessionTable<u64, u64, u64, S>,
    entry: Entry<u64>,
    more: u64,
) -> Result<u64, Stale>
    requires { IfSome (shown_in table.old entry) (λ v. v + more < 2 ^ 64) }
    ensures added { IfOk result (λ now. (before : ℕ)
        × (shown_in table.old entry ≡ Some before) × (now ≡ before + more)
        × (shown_in table.new entry ≡ Some now)) }
    ensures others { (e : Entry ℕ) → IsOther entry e → shown_in table.new e ≡ shown_in table.old e }
    ensures refused { OnErr result (table.new ≡ table.old) }
{
    table.update(entry, |value: &mut u64| {
        *value += more;
        *value
    })
}

/// The value that an id's session has under a key, if it has one.
pub fn found_by_key<S: Storage<u64>>(
    table: &SessionTable<u64, u64, u64, S>,
    id: u64,
    key: u64,
) -> Option<u64>
    ensures { IfSome result (λ seen. (e : Entry ℕ)
        × (entry_in nat_eq (session_in nat_eq table.now id) key ≡ Some e)
        × (shown_in table.now e ≡ Some seen)) }
{
    let entry = table.entry(&id, &key)?;
    table.get(entry).copied().ok()
}

/// The value that an id's session has under a key, if it has one, in one call.
pub fn got_by_key<S: Storage<u64>>(
    table: &SessionTable<u64, u64, u64, S>,
    id: u64,
    key: u64,
) -> Option<u64>
    ensures { result ≡ value_under (nat_eq id) (nat_eq key) table.now }
{
    table.get_at(&id, &key).copied()
}

/// The entry that a session has under a key. If it had none, a first value was put there; if it had one,
/// nothing changes.
pub fn entry_or_put<S: Storage<u64>>(
    table: &mut SessionTable<u64, u64, u64, S>,
    at: (u64, u64),
    first: u64,
    here: Location,
) -> Option<Entry<u64>>
    ensures found { (e : Entry ℕ) →
        entry_in nat_eq (session_in nat_eq table.old at.0) at.1 ≡ Some e → result ≡ Some e }
    ensures same { is_some (entry_in nat_eq (session_in nat_eq table.old at.0) at.1) ≡ true →
        table.new ≡ table.old }
{
    table.get_or_put(&at.0, at.1, first, here).ok()
}

/// Sets the value that a session has under a key, or puts it there. Returns what its entry reads then, and
/// the value before.
pub fn set_by_key<S: Storage<u64>>(
    table: &mut SessionTable<u64, u64, u64, S>,
    at: (u64, u64),
    value: u64,
    here: Location,
) -> Option<(u64, Option<u64>)>
    ensures same { IfSome result (λ r. r.0 ≡ value) }
    ensures before { IfSome result (λ r. r.1 ≡ value_under (nat_eq at.0) (nat_eq at.1) table.old) }
{
    let (entry, before) = table.upsert(&at.0, at.1, value, here).ok()?;
    let seen = table.get(entry).copied().ok()?;
    Some((seen, before))
}

/// Replaces an entry's value, and returns the one before.
pub fn replaced<S: Storage<u64>>(
    table: &mut SessionTable<u64, u64, u64, S>,
    entry: Entry<u64>,
    value: u64,
) -> Option<u64>
    ensures { result ≡ shown_in table.old entry }
{
    table.replace(entry, value).ok()
}

/// Removes and returns what a session has under a key, in order, or so that the last entry takes its
/// place.
pub fn taken_from<S: Storage<u64>>(
    table: &mut SessionTable<u64, u64, u64, S>,
    at: (u64, u64),
    in_order: bool,
) -> Option<u64>
    ensures taken { (e : Entry ℕ) →
        entry_in nat_eq (session_in nat_eq table.old at.0) at.1 ≡ Some e →
        result ≡ shown_in table.old e }
    ensures others { (other : ℕ) → nat_eq at.0 other ≡ false →
        session_in nat_eq table.new other ≡ session_in nat_eq table.old other }
{
    if in_order {
        table.shift_remove(&at.0, &at.1)
    } else {
        table.remove(&at.0, &at.1)
    }
}

/// Ends the session that an entry is in, and returns its id. The entry is stale then.
pub fn ended_by_entry<S: Storage<u64>>(
    table: &mut SessionTable<u64, u64, u64, S>,
    entry: Entry<u64>,
) -> Option<u64>
    ensures kept { IfSome result (λ id. keeps nat_eq table.old id entry ≡ true) }
    ensures gone { shown_in table.new entry ≡ None }
{
    let id = *table.session_of(entry).ok()?;
    let _ = table.logout(&id);
    Some(id)
}

/// Makes room for more sessions, and returns whether there was memory for it: every session is unchanged.
pub fn has_room_for<S: Storage<u64>>(
    table: &mut SessionTable<u64, u64, u64, S>,
    more: usize,
) -> bool
    ensures { (id : ℕ) → session_in nat_eq table.new id ≡ session_in nat_eq table.old id }
{
    table.reserve(more).is_ok()
}

/// Ends the sessions that were last used before a time, passes their ids to a closure, and returns whether
/// an id still has a session: exactly if it had one that was used at the time or later.
pub fn is_left_after<S: Storage<u64>, F: FnMut(u64)>(
    table: &mut SessionTable<u64, u64, u64, S>,
    before: u64,
    id: u64,
    f: F,
) -> bool
    requires { F.IsAlwaysCallable f }
    ensures { result ≡ is_some (if_young before (session_in nat_eq table.old id)) }
{
    table.expire_each(before, f);
    table.has(&id)
}

/// The latest time of a last use, or 0 if there is no session.
pub fn latest_use<S: Storage<u64>>(table: &SessionTable<u64, u64, u64, S>) -> u64
    ensures { (id : ℕ) (s : LiveSession ℕ ℕ) → session_in nat_eq table.now id ≡ Some s →
        s.used_at ≤ result }
{
    let mut latest = 0;
    'walk: for (_, session) in table.sessions() {
        if session.used_at() > latest {
            latest = session.used_at();
        }
    }
    latest
}

/// The greatest key of a session's entries, or 0 if it has none.
pub fn greatest_key(session: &Session<u64, u64>) -> u64
    ensures { (key : ℕ) (e : Entry ℕ) →
        lookup (nat_eq key) session.now.entries.entries ≡ Some e → key ≤ result }
{
    let mut greatest = 0;
    'walk: for (key, _) in session.entries() {
        if *key > greatest {
            greatest = *key;
        }
    }
    greatest
}
