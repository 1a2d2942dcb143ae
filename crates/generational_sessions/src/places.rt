//! What the places of a session hold, and the replies to its calls.

ghost use Rattle.std.specs.Prelude.{◌≡◌, List, IfSome, IfNone, Some, option_map, option_copied};
ghost use Rattle.std.specs.Prelude.{slice_get, slice_set, vec_len, vec_capacity, map as list_map};
ghost use Rattle.std.specs.Option.{OnSome};
ghost use Rattle.generational_sessions.specs.declared.calls.Call.TheVariants as call;
ghost use Rattle.generational_sessions.specs.declared.places.Thing.TheVariants as thing;
ghost use Rattle.generational_core.specs.Answers.{pointer_of};
ghost use Rattle.generational_sessions.specs.Session.{Held, box_in, at_place, owner_held};
ghost use Rattle.generational_sessions.specs.Session.{release_held};
ghost use Rattle.generational_sessions.specs.Session.Held.{Nothing};
ghost use Rattle.generational_sessions.specs.Places.{as_held, as_reply, as_refusal, as_session};
ghost use Rattle.generational_sessions.specs.Places.{as_read_refusal, as_making};
ghost use Rattle.generational_sessions.specs.Places.{exchange, Gives};

use crate::calls::{BoxAt, Call, Reply};
use generational_core::{
    BorrowError, BorrowMutError, GenerationalBox, GenerationalRef, GenerationalRefMut, Location,
    Owner, Refusal, Refused, Storage,
};
use std::mem;

/// What a call gave to its place.
pub(crate) enum Thing<T> {
    Box(GenerationalBox<T>),
    Reader(GenerationalRef<T>),
    Writer(GenerationalRefMut<T>),
    Owner(Owner),
    Nothing,
}

// Runs a call: returns the reply, and what the call's place gets.
pub(crate) fn answer<T: Drop, S: Storage<T>>(
    store: &mut S,
    things: &mut Vec<Thing<T>>,
    call: Call<T>,
) -> (Reply<T>, Thing<T>)
    ensures step { Gives (as_session (S.state store.old) things.old.items) call
        (as_reply result.0) (as_held result.1)
        (as_session (S.state store.new) things.new.items) }
    ensures len { vec_len things.new ≡ vec_len things.old }
    ensures capacity { vec_capacity things.new ≡ vec_capacity things.old }
{
    match call {
        Call::Leak(value, location) => leak(store, value, location),
        Call::LeakRc(value, location) => leak_rc(store, value, location),
        Call::LeakReference(at) => leak_reference(store, things.as_slice(), at),
        Call::Insert(place, value, location) => {
            insert(store, things.as_slice(), place, value, location)
        }
        Call::InsertRc(place, value, location) => {
            insert_rc(store, things.as_slice(), place, value, location)
        }
        Call::InsertReference(place, at) => {
            insert_reference(store, things.as_slice(), place, at)
        }
        Call::Owner => owner(store),
        Call::CloneOwner(place) => clone_owner(store, things.as_slice(), place),
        Call::ReleaseOwner(place) => release_owner(store, things, place),
        Call::LeakOwner(place) => leak_owner(store, things, place),
        Call::TryRead(at, location) => try_read(store, things.as_slice(), at, location),
        Call::TryWrite(at, location) => try_write(store, things.as_slice(), at, location),
        Call::Read(at, location) => read(store, things.as_slice(), at, location),
        Call::Write(at, location) => write(store, things.as_slice(), at, location),
        Call::Set(at, value) => (set(store, things.as_slice(), at, value), Thing::Nothing),
        Call::CanRead(at) => (can_read(store, things.as_slice(), at), Thing::Nothing),
        Call::CanWrite(at) => (can_write(store, things.as_slice(), at), Thing::Nothing),
        Call::Replace(place, value) => replace(store, things, place, value),
        Call::Release(place) => release(store, things, place),
        Call::ManuallyDrop(at) => manually_drop(store, things.as_slice(), at),
        Call::PointTo(from, to) => point_to(store, things.as_slice(), from, to),
        Call::PtrEq(one, other) => (ptr_eq(store, things.as_slice(), one, other), Thing::Nothing),
        Call::Id(at) => (id(store, things.as_slice(), at), Thing::Nothing),
        Call::RawPtr(at) => (raw_ptr(store, things.as_slice(), at), Thing::Nothing),
        Call::CreatedAt(at) => (created_at(store, things.as_slice(), at), Thing::Nothing),
    }
}

// The box that a call refers to.
fn resolve<T, S: Storage<T>>(
    store: &S,
    things: &[Thing<T>],
    at: BoxAt<T>,
) -> Option<GenerationalBox<T>>
    ensures { option_map pointer_of result ≡ box_in (as_session (S.state store.now) things.now) at }
{
    match at {
        BoxAt::Place(place) => match things.get(place) {
            Some(Thing::Box(given)) => Some(*given),
            _ => None,
        },
        BoxAt::Foreign(foreign) => {
            if foreign.id().store == store.number() {
                None
            } else {
                Some(foreign)
            }
        }
    }
}

// Makes a box, whatever the places hold.
fn leak<T, S: Storage<T>>(store: &mut S, value: T, location: Location) -> (Reply<T>, Thing<T>)
    ensures { (table : List (Held T)) →
        Gives (record { state = S.state store.old; table = table }) (call.Leak value location)
        (as_reply result.0) (as_held result.1)
        (record { state = S.state store.new; table = table }) }
{
    made(GenerationalBox::leak(store, value, location))
}

// Makes a shared value and its first reference, whatever the places hold.
fn leak_rc<T, S: Storage<T>>(store: &mut S, value: T, location: Location) -> (Reply<T>, Thing<T>)
    ensures { (table : List (Held T)) →
        Gives (record { state = S.state store.old; table = table }) (call.LeakRc value location)
        (as_reply result.0) (as_held result.1)
        (record { state = S.state store.new; table = table }) }
{
    made(GenerationalBox::leak_rc(store, value, location))
}

// The reply to a making of a value, and what its place gets.
fn made<T>(making: Result<GenerationalBox<T>, Refusal<T>>) -> (Reply<T>, Thing<T>)
    ensures reply { as_reply result.0 ≡ (as_making making).0 }
    ensures thing { as_held result.1 ≡ (as_making making).1 }
{
    match making {
        Ok(made) => (Reply::Box(made), Thing::Box(made)),
        Err(Refusal { value, cause }) => (Reply::Back(value, cause), Thing::Nothing),
    }
}

// Adds a reference to the shared value that a box refers to.
fn leak_reference<T, S: Storage<T>>(
    store: &mut S,
    things: &[Thing<T>],
    at: BoxAt<T>,
) -> (Reply<T>, Thing<T>)
    ensures { Gives (as_session (S.state store.old) things.now) (call.LeakReference at)
        (as_reply result.0) (as_held result.1) (as_session (S.state store.new) things.now) }
{
    let Some(shared) = resolve(store, things, at) else {
        return (Reply::NoSuch(None), Thing::Nothing);
    };
    match shared.leak_reference(store) {
        Ok(reference) => (Reply::Box(reference), Thing::Box(reference)),
        Err(refused) => (read_refusal(refused), Thing::Nothing),
    }
}

// The owner that a place holds.
fn owner_at<T>(things: &[Thing<T>], place: usize) -> Option<&Owner>
    ensures { option_copied result ≡ owner_held (at_place (list_map as_held things.now) place) }
{
    match things.get(place) {
        Some(Thing::Owner(owner)) => Some(owner),
        _ => None,
    }
}

// Makes a box by the owner at a place.
fn insert<T, S: Storage<T>>(
    store: &mut S,
    things: &[Thing<T>],
    place: usize,
    value: T,
    location: Location,
) -> (Reply<T>, Thing<T>)
    ensures { Gives (as_session (S.state store.old) things.now) (call.Insert place value location)
        (as_reply result.0) (as_held result.1) (as_session (S.state store.new) things.now) }
{
    let Some(owner) = owner_at(things, place) else {
        return (Reply::NoSuch(Some(value)), Thing::Nothing);
    };
    made(owner.insert(store, value, location))
}

// Makes a shared value by the owner at a place, and its first reference.
fn insert_rc<T, S: Storage<T>>(
    store: &mut S,
    things: &[Thing<T>],
    place: usize,
    value: T,
    location: Location,
) -> (Reply<T>, Thing<T>)
    ensures { Gives (as_session (S.state store.old) things.now) (call.InsertRc place value location)
        (as_reply result.0) (as_held result.1) (as_session (S.state store.new) things.now) }
{
    let Some(owner) = owner_at(things, place) else {
        return (Reply::NoSuch(Some(value)), Thing::Nothing);
    };
    made(owner.insert_rc(store, value, location))
}

// Adds a reference to the shared value that a box refers to, by the owner at a place.
fn insert_reference<T, S: Storage<T>>(
    store: &mut S,
    things: &[Thing<T>],
    place: usize,
    at: BoxAt<T>,
) -> (Reply<T>, Thing<T>)
    ensures { Gives (as_session (S.state store.old) things.now) (call.InsertReference place at)
        (as_reply result.0) (as_held result.1) (as_session (S.state store.new) things.now) }
{
    let Some(owner) = owner_at(things, place) else {
        return (Reply::NoSuch(None), Thing::Nothing);
    };
    let Some(shared) = resolve(store, things, at) else {
        return (Reply::NoSuch(None), Thing::Nothing);
    };
    match owner.insert_reference(store, shared) {
        Ok(listed) => (Reply::Box(listed), Thing::Box(listed)),
        Err(refused) => (read_refusal(refused), Thing::Nothing),
    }
}

// Makes an owner, whatever the places hold.
fn owner<T, S: Storage<T>>(store: &mut S) -> (Reply<T>, Thing<T>)
    ensures { (table : List (Held T)) →
        Gives (record { state = S.state store.old; table = table }) call.Owner
        (as_reply result.0) (as_held result.1)
        (record { state = S.state store.new; table = table }) }
{
    match store.owner() {
        Ok(given) => (Reply::Owner, Thing::Owner(given)),
        Err(cause) => (Reply::Store(cause), Thing::Nothing),
    }
}

// Makes another owner value of the record of the owner at a place.
fn clone_owner<T, S: Storage<T>>(
    store: &mut S,
    things: &[Thing<T>],
    place: usize,
) -> (Reply<T>, Thing<T>)
    ensures { Gives (as_session (S.state store.old) things.now) (call.CloneOwner place)
        (as_reply result.0) (as_held result.1) (as_session (S.state store.new) things.now) }
{
    let Some(owner) = owner_at(things, place) else {
        return (Reply::NoSuch(None), Thing::Nothing);
    };
    match store.clone_owner(owner) {
        Ok(given) => (Reply::Owner, Thing::Owner(given)),
        Err(cause) => (Reply::Store(cause), Thing::Nothing),
    }
}

// Releases the owner at a place. If that fails, the owner goes back to its place.
fn release_owner<T, S: Storage<T>>(
    store: &mut S,
    things: &mut Vec<Thing<T>>,
    place: usize,
) -> (Reply<T>, Thing<T>)
    ensures step { Gives (as_session (S.state store.old) things.old.items) (call.ReleaseOwner place)
        (as_reply result.0) (as_held result.1)
        (as_session (S.state store.new) things.new.items) }
    ensures len { vec_len things.new ≡ vec_len things.old }
    ensures capacity { vec_capacity things.new ≡ vec_capacity things.old }
{
    let Some(owner) = take_owner(things, place) else {
        return (Reply::NoSuch(None), Thing::Nothing);
    };
    match store.release_owner(owner) {
        Ok(()) => (Reply::Done, Thing::Nothing),
        Err((owner, refused)) => {
            put_owner(things, place, owner);
            (refusal(refused), Thing::Nothing)
        }
    }
}

// Leaks the owner at a place. The store isn't called.
fn leak_owner<T, S: Storage<T>>(
    store: &S,
    things: &mut Vec<Thing<T>>,
    place: usize,
) -> (Reply<T>, Thing<T>)
    ensures step { Gives (as_session (S.state store.now) things.old.items) (call.LeakOwner place)
        (as_reply result.0) (as_held result.1)
        (as_session (S.state store.now) things.new.items) }
    ensures len { vec_len things.new ≡ vec_len things.old }
    ensures capacity { vec_capacity things.new ≡ vec_capacity things.old }
{
    match take_owner(things, place) {
        Some(owner) => {
            owner.leak();
            (Reply::Done, Thing::Nothing)
        }
        None => (Reply::NoSuch(None), Thing::Nothing),
    }
}

// Takes the owner from its place, which holds nothing then.
fn take_owner<T>(things: &mut Vec<Thing<T>>, place: usize) -> Option<Owner>
    ensures owner { result ≡ owner_held (at_place (list_map as_held things.old.items) place) }
    ensures taken { OnSome result
        (things.new.items ≡ slice_set things.old.items place thing.Nothing) }
    ensures there { IfSome result
        (λ owner. slice_get things.old.items place ≡ Some (thing.Owner owner)) }
    ensures none { IfNone result (things.new.items ≡ things.old.items) }
    ensures len { vec_len things.new ≡ vec_len things.old }
    ensures capacity { vec_capacity things.new ≡ vec_capacity things.old }
{
    match things.get(place) {
        Some(Thing::Owner(_)) => {}
        _ => return None,
    }
    match mem::replace(&mut things[place], Thing::Nothing) {
        Thing::Owner(owner) => Some(owner),
        _ => unreachable!(),
    }
}

// Puts an owner into a place that holds nothing.
fn put_owner<T>(things: &mut Vec<Thing<T>>, place: usize, owner: Owner)
    requires { slice_get things.old.items place ≡ Some thing.Nothing }
    ensures put { things.new.items ≡ slice_set things.old.items place (thing.Owner owner) }
    ensures len { vec_len things.new ≡ vec_len things.old }
    ensures capacity { vec_capacity things.new ≡ vec_capacity things.old }
{
    match mem::replace(&mut things[place], Thing::Owner(owner)) {
        Thing::Nothing => {}
        _ => unreachable!(),
    }
}

// The reply to an error, if no value was passed in.
fn refusal<T>(refused: Refused<BorrowMutError>) -> Reply<T>
    ensures { as_reply result ≡ as_refusal refused }
{
    match refused {
        Refused::Borrow(error) => Reply::Error(error),
        Refused::Store(cause) => Reply::Store(cause),
    }
}

// The reply to a read that failed, and to an insertion of a reference that failed.
fn read_refusal<T>(refused: Refused<BorrowError>) -> Reply<T>
    ensures { as_reply result ≡ as_read_refusal refused }
{
    match refused {
        Refused::Borrow(error) => Reply::Error(BorrowMutError::from(error)),
        Refused::Store(cause) => Reply::Store(cause),
    }
}

// Begins a read.
fn try_read<T, S: Storage<T>>(
    store: &mut S,
    things: &[Thing<T>],
    at: BoxAt<T>,
    location: Location,
) -> (Reply<T>, Thing<T>)
    ensures { Gives (as_session (S.state store.old) things.now) (call.TryRead at location)
        (as_reply result.0) (as_held result.1) (as_session (S.state store.new) things.now) }
{
    let Some(from) = resolve(store, things, at) else {
        return (Reply::NoSuch(None), Thing::Nothing);
    };
    match from.try_read(store, location) {
        Ok(guard) => (Reply::Reader, Thing::Reader(guard)),
        Err(refused) => (read_refusal(refused), Thing::Nothing),
    }
}

// Begins a write.
fn try_write<T, S: Storage<T>>(
    store: &mut S,
    things: &[Thing<T>],
    at: BoxAt<T>,
    location: Location,
) -> (Reply<T>, Thing<T>)
    ensures { Gives (as_session (S.state store.old) things.now) (call.TryWrite at location)
        (as_reply result.0) (as_held result.1) (as_session (S.state store.new) things.now) }
{
    let Some(from) = resolve(store, things, at) else {
        return (Reply::NoSuch(None), Thing::Nothing);
    };
    match from.try_write(store, location) {
        Ok(guard) => (Reply::Writer, Thing::Writer(guard)),
        Err(refused) => (refusal(refused), Thing::Nothing),
    }
}

// Begins a read of a value that may be read.
fn read<T, S: Storage<T>>(
    store: &mut S,
    things: &[Thing<T>],
    at: BoxAt<T>,
    location: Location,
) -> (Reply<T>, Thing<T>)
    ensures { Gives (as_session (S.state store.old) things.now) (call.Read at location)
        (as_reply result.0) (as_held result.1) (as_session (S.state store.new) things.now) }
{
    let Some(from) = resolve(store, things, at) else {
        return (Reply::NoSuch(None), Thing::Nothing);
    };
    if !from.can_read(store) {
        return (Reply::Unready(None), Thing::Nothing);
    }
    match from.read(store, location) {
        Ok(guard) => (Reply::Reader, Thing::Reader(guard)),
        Err(cause) => (Reply::Store(cause), Thing::Nothing),
    }
}

// Begins a write of a value that may be written.
fn write<T, S: Storage<T>>(
    store: &mut S,
    things: &[Thing<T>],
    at: BoxAt<T>,
    location: Location,
) -> (Reply<T>, Thing<T>)
    ensures { Gives (as_session (S.state store.old) things.now) (call.Write at location)
        (as_reply result.0) (as_held result.1) (as_session (S.state store.new) things.now) }
{
    let Some(from) = resolve(store, things, at) else {
        return (Reply::NoSuch(None), Thing::Nothing);
    };
    if !from.can_write(store) {
        return (Reply::Unready(None), Thing::Nothing);
    }
    match from.write(store, location) {
        Ok(guard) => (Reply::Writer, Thing::Writer(guard)),
        Err(cause) => (Reply::Store(cause), Thing::Nothing),
    }
}

// Sets a value that may be written.
fn set<T: Drop, S: Storage<T>>(
    store: &mut S,
    things: &[Thing<T>],
    at: BoxAt<T>,
    value: T,
) -> Reply<T>
    ensures { Gives (as_session (S.state store.old) things.now) (call.Set at value)
        (as_reply result) Nothing (as_session (S.state store.new) things.now) }
{
    let Some(from) = resolve(store, things, at) else {
        return Reply::NoSuch(Some(value));
    };
    if !from.can_write(store) {
        return Reply::Unready(Some(value));
    }
    from.set(store, value);
    Reply::Done
}

// Whether a value may be read.
fn can_read<T, S: Storage<T>>(store: &S, things: &[Thing<T>], at: BoxAt<T>) -> Reply<T>
    ensures { Gives (as_session (S.state store.now) things.now) (call.CanRead at)
        (as_reply result) Nothing (as_session (S.state store.now) things.now) }
{
    match resolve(store, things, at) {
        Some(named) => Reply::Flag(named.can_read(store)),
        None => Reply::NoSuch(None),
    }
}

// Whether a value may be written.
fn can_write<T, S: Storage<T>>(store: &S, things: &[Thing<T>], at: BoxAt<T>) -> Reply<T>
    ensures { Gives (as_session (S.state store.now) things.now) (call.CanWrite at)
        (as_reply result) Nothing (as_session (S.state store.now) things.now) }
{
    match resolve(store, things, at) {
        Some(named) => Reply::Flag(named.can_write(store)),
        None => Reply::NoSuch(None),
    }
}

// Replaces the value of the writer at a place. The store isn't called.
fn replace<T, S: Storage<T>>(
    store: &S,
    things: &mut Vec<Thing<T>>,
    place: usize,
    value: T,
) -> (Reply<T>, Thing<T>)
    ensures step { Gives (as_session (S.state store.now) things.old.items)
        (call.Replace place value) (as_reply result.0) (as_held result.1)
        (as_session (S.state store.now) things.new.items) }
    ensures len { vec_len things.new ≡ vec_len things.old }
    ensures capacity { vec_capacity things.new ≡ vec_capacity things.old }
{
    match things.get_mut(place) {
        Some(thing) => (exchange(thing, value), Thing::Nothing),
        None => (Reply::NoSuch(Some(value)), Thing::Nothing),
    }
}

// Puts another value into a thing that is a writer, and returns the old one.
fn exchange<T>(thing: &mut Thing<T>, value: T) -> Reply<T>
    ensures reply { as_reply result ≡ (exchange (as_held thing.old) value).0 }
    ensures thing { as_held thing.new ≡ (exchange (as_held thing.old) value).1 }
{
    match thing {
        Thing::Writer(guard) => Reply::Old(guard.replace(value)),
        _ => Reply::NoSuch(Some(value)),
    }
}

// Removes a cell.
fn manually_drop<T, S: Storage<T>>(
    store: &mut S,
    things: &[Thing<T>],
    at: BoxAt<T>,
) -> (Reply<T>, Thing<T>)
    ensures { Gives (as_session (S.state store.old) things.now) (call.ManuallyDrop at)
        (as_reply result.0) (as_held result.1) (as_session (S.state store.new) things.now) }
{
    let Some(from) = resolve(store, things, at) else {
        return (Reply::NoSuch(None), Thing::Nothing);
    };
    match from.manually_drop(store) {
        Ok(()) => (Reply::Done, Thing::Nothing),
        Err(refused) => (refusal(refused), Thing::Nothing),
    }
}

// Points a reference to the shared value that another box refers to.
fn point_to<T, S: Storage<T>>(
    store: &mut S,
    things: &[Thing<T>],
    from: BoxAt<T>,
    to: BoxAt<T>,
) -> (Reply<T>, Thing<T>)
    ensures { Gives (as_session (S.state store.old) things.now) (call.PointTo from to)
        (as_reply result.0) (as_held result.1) (as_session (S.state store.new) things.now) }
{
    let Some(from) = resolve(store, things, from) else {
        return (Reply::NoSuch(None), Thing::Nothing);
    };
    let Some(to) = resolve(store, things, to) else {
        return (Reply::NoSuch(None), Thing::Nothing);
    };
    match from.point_to(store, to) {
        Ok(()) => (Reply::Done, Thing::Nothing),
        Err(refused) => (refusal(refused), Thing::Nothing),
    }
}

// Whether two boxes have one id.
fn ptr_eq<T, S: Storage<T>>(
    store: &S,
    things: &[Thing<T>],
    one: BoxAt<T>,
    other: BoxAt<T>,
) -> Reply<T>
    ensures { Gives (as_session (S.state store.now) things.now) (call.PtrEq one other)
        (as_reply result) Nothing (as_session (S.state store.now) things.now) }
{
    let Some(one) = resolve(store, things, one) else {
        return Reply::NoSuch(None);
    };
    match resolve(store, things, other) {
        Some(other) => Reply::Flag(one.ptr_eq(&other)),
        None => Reply::NoSuch(None),
    }
}

// The id of a box.
fn id<T, S: Storage<T>>(store: &S, things: &[Thing<T>], at: BoxAt<T>) -> Reply<T>
    ensures { Gives (as_session (S.state store.now) things.now) (call.Id at)
        (as_reply result) Nothing (as_session (S.state store.now) things.now) }
{
    match resolve(store, things, at) {
        Some(named) => Reply::Id(named.id()),
        None => Reply::NoSuch(None),
    }
}

// The number of a box's slot.
fn raw_ptr<T, S: Storage<T>>(store: &S, things: &[Thing<T>], at: BoxAt<T>) -> Reply<T>
    ensures { Gives (as_session (S.state store.now) things.now) (call.RawPtr at)
        (as_reply result) Nothing (as_session (S.state store.now) things.now) }
{
    match resolve(store, things, at) {
        Some(named) => Reply::Slot(named.raw_ptr()),
        None => Reply::NoSuch(None),
    }
}

// The location at which a box was made.
fn created_at<T, S: Storage<T>>(store: &S, things: &[Thing<T>], at: BoxAt<T>) -> Reply<T>
    ensures { Gives (as_session (S.state store.now) things.now) (call.CreatedAt at)
        (as_reply result) Nothing (as_session (S.state store.now) things.now) }
{
    match resolve(store, things, at) {
        Some(named) => Reply::Created(named.created_at()),
        None => Reply::NoSuch(None),
    }
}

// Releases the guard at a place.
fn release<T: Drop, S: Storage<T>>(
    store: &mut S,
    things: &mut Vec<Thing<T>>,
    place: usize,
) -> (Reply<T>, Thing<T>)
    ensures step { Gives (as_session (S.state store.old) things.old.items) (call.Release place)
        (as_reply result.0) (as_held result.1)
        (as_session (S.state store.new) things.new.items) }
    ensures len { vec_len things.new ≡ vec_len things.old }
    ensures capacity { vec_capacity things.new ≡ vec_capacity things.old }
{
    match things.get(place) {
        Some(Thing::Reader(_) | Thing::Writer(_)) => {}
        _ => return (Reply::NoSuch(None), Thing::Nothing),
    }
    match mem::replace(&mut things[place], Thing::Nothing) {
        Thing::Reader(guard) => {
            guard.release(store);
            (Reply::Done, Thing::Nothing)
        }
        Thing::Writer(guard) => {
            let _ = guard.release(store);
            (Reply::Done, Thing::Nothing)
        }
        _ => unreachable!(),
    }
}

// Drops what a place holds.
pub(crate) fn let_go<T: Drop, S: Storage<T>>(store: &mut S, thing: Thing<T>)
    ensures { S.state store.new ≡ release_held (S.state store.old) (as_held thing) }
{
    match thing {
        Thing::Box(_) | Thing::Nothing => {}
        Thing::Reader(guard) => {
            guard.release(store);
        }
        Thing::Writer(guard) => {
            let _ = guard.release(store);
        }
        Thing::Owner(owner) => owner.leak(),
    }
}
