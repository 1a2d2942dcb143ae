//! The calls of one worker on a new store, and their results; the history is the calls that it made, in
//! order.

use crate::judge::Judge;
use crate::places::{made, made_later, read, read_later};
use crate::recorder::Recorder;
use crate::strangers::{Strangers, new_strangers, strange_owner};
use crate::workers::Worker;
use generational_box::{BaseRow, GenerationalBox};
use std::alloc::Global;
use std::sync::Wait;

/// An owner's box ends with the last owner of its list, and is then neither read nor set.
pub(crate) fn owners_end<W: Worker>(rt: &(impl Wait + Judge), mut one: Recorder<W>) -> u64 {
    owners_box_ends(rt, &mut one);
    one.finish(rt, &[[4, 1, 3, 2]])
}

// The calls of that row; the returned box has another value, which stays.
fn owners_box_ends<W: Worker>(
    rt: &(impl Wait + Judge),
    one: &mut Recorder<W>,
) -> GenerationalBox<String> {
    let kept = one.leak(rt, "x", made());
    let owner = one.owner(rt);
    let other = one.clone_owner(rt, &owner);
    let owned = one.insert(rt, &owner, "y", made_later());
    one.reads(rt, owned, read(), "y");
    one.release_owner(rt, owner);
    one.release_owner(rt, other);
    one.finds_dropped(rt, owned, read(), made_later());
    one.sets_dropped(rt, owned, "v", made_later());
    kept
}

/// The same, with a read of the other value. Whichever allocation fails, each call has this reply when it
/// is made again, and the history has no step of the call that failed.
pub(crate) fn memory_lacks<W: Worker>(rt: &(impl Wait + Judge), mut one: Recorder<W>) -> u64 {
    let kept = owners_box_ends(rt, &mut one);
    one.reads(rt, kept, read_later(), "x");
    one.finish(rt, &[[4, 2, 4, 2]])
}

/// A reference is pointed elsewhere, and what it leads to is written through either box.
pub(crate) fn references_turn<W: Worker>(rt: &(impl Wait + Judge), mut one: Recorder<W>) -> u64 {
    let owner = one.owner(rt);
    let shared = one.insert_rc(rt, &owner, "a", made());
    let turned = one.insert_reference(rt, &owner, shared);
    let other = one.leak_rc(rt, "b", made_later());
    one.reads_by_name(rt, turned, read(), "a");
    one.point_to(rt, turned, other);
    one.reads_by_name(rt, turned, read_later(), "b");
    let guard = one.begin_write_by_name(rt, other, read());
    one.release_over(rt, guard, "b", "c");
    one.set(rt, turned, "d");
    one.reads(rt, other, read_later(), "d");
    owner.leak();
    one.finish(rt, &[[4, 4, 6, 0]])
}

/// A value of an owner is read.
pub(crate) fn value_is_read<W: Worker>(rt: &(impl Wait + Judge), mut one: Recorder<W>) -> u64 {
    let owner = one.owner(rt);
    let owned = one.insert(rt, &owner, "1", made());
    one.reads(rt, owned, read(), "1");
    one.release_owner(rt, owner);
    one.finish(rt, &[[2, 1, 2, 0]])
}

/// A value outlives its owner if the owner is leaked.
pub(crate) fn owner_leaks<W: Worker>(rt: &(impl Wait + Judge), mut one: Recorder<W>) -> u64 {
    let owner = one.owner(rt);
    let owned = one.insert(rt, &owner, "hello world", made());
    owner.leak();
    one.reads(rt, owned, read(), "hello world");
    one.finish(rt, &[[2, 1, 1, 0]])
}

/// A value ends with its owner.
pub(crate) fn value_ends<W: Worker>(rt: &(impl Wait + Judge), mut one: Recorder<W>) -> u64 {
    let owner = one.owner(rt);
    let owned = one.insert(rt, &owner, "1", made());
    one.release_owner(rt, owner);
    one.finds_dropped(rt, owned, read(), made());
    one.finish(rt, &[[2, 0, 1, 1]])
}

/// A slot is used again at its next generation.
pub(crate) fn slot_is_reused<W: Worker>(rt: &(impl Wait + Judge), mut one: Recorder<W>) -> u64 {
    let owner = one.owner(rt);
    let first = one.insert(rt, &owner, "1", made());
    one.release_owner(rt, owner);
    let owner = one.owner(rt);
    let second = one.insert(rt, &owner, "1234", made());
    rt.compare(&(first.raw_ptr(), second.raw_ptr()), &(0, 0));
    rt.compare(&(first.id().generation, second.id().generation), &(1, 2));
    rt.demand(!first.ptr_eq(&second), "the same box");
    one.release_owner(rt, owner);
    one.finish(rt, &[[4, 0, 2, 0]])
}

/// A shared value outlives the owner by which it was made, and ends with its last reference.
pub(crate) fn references_count<W: Worker>(rt: &(impl Wait + Judge), mut one: Recorder<W>) -> u64 {
    let outer = one.owner(rt);
    let inner = one.owner(rt);
    let shared = one.insert_rc(rt, &inner, "hello world", made());
    let reference = one.insert_reference(rt, &outer, shared);
    rt.compare(&reference.created_at(), &made());
    one.release_owner(rt, inner);
    one.reads(rt, reference, read(), "hello world");
    one.release_owner(rt, outer);
    one.finds_dropped(rt, reference, read(), made());
    one.finish(rt, &[[4, 1, 3, 1]])
}

/// A reference that is pointed elsewhere reads the other value, and ends with its own owner.
pub(crate) fn reference_moves<W: Worker>(rt: &(impl Wait + Judge), mut one: Recorder<W>) -> u64 {
    let first = one.owner(rt);
    let original = one.insert_rc(rt, &first, "hello world", made());
    let reference = one.insert_reference(rt, &first, original);
    let second = one.owner(rt);
    let new = one.insert_rc(rt, &second, "hello world 2", made_later());
    one.point_to(rt, reference, new);
    one.reads(rt, reference, read(), "hello world 2");
    one.reads(rt, original, read(), "hello world");
    one.release_owner(rt, first);
    one.release_owner(rt, second);
    one.finds_dropped(rt, original, read(), made());
    one.finds_dropped(rt, new, read(), made_later());
    one.finds_dropped(rt, reference, read(), made());
    one.finish(rt, &[[5, 2, 5, 3]])
}

/// A guard opens its value while another is made by the same owner.
pub(crate) fn value_is_made_beside<W: Worker>(
    rt: &(impl Wait + Judge),
    mut one: Recorder<W>,
) -> u64 {
    let owner = one.owner(rt);
    let first = one.insert(rt, &owner, "hello world", made());
    let guard = one.begin(rt, first, read());
    let second = one.insert(rt, &owner, "1", made());
    one.assert_opens(rt, &guard, "hello world");
    one.release(rt, guard);
    one.reads(rt, second, read(), "1");
    one.release_owner(rt, owner);
    one.finish(rt, &[[3, 2, 3, 0]])
}

/// A base has what stands, a reader or a writer too, and nothing else; and nothing of the base before
/// the last, in whose memory it is.
pub(crate) fn bases_have_borrows<W: Worker>(rt: &(impl Wait + Judge), mut one: Recorder<W>) -> u64 {
    one.assert_base(rt, (0, 0), &[], [0, 0, 0, 0]);
    let kept = one.leak(rt, "x", made());
    let id = kept.id();
    let (slot, value) = (BaseRow::Slot(0, 1), BaseRow::Value(id, made()));
    let guard = one.begin(rt, kept, read());
    one.trim(rt, 2);
    let reader = BaseRow::Reader(id, 0, read());
    one.assert_base(rt, (1, 1), &[slot, value, reader], [1, 1, 0, 0]);
    one.release(rt, guard);
    let guard = one.begin_write(rt, kept, read_later());
    one.assert_base(rt, (1, 1), &[slot, value, reader], [1, 2, 1, 0]);
    one.trim(rt, 4);
    let writer = BaseRow::Writer(id, 1, read_later());
    one.assert_base(rt, (2, 1), &[slot, value, writer], [1, 2, 1, 0]);
    one.release_over(rt, guard, "x", "y");
    one.trim(rt, 5);
    one.assert_base(rt, (2, 1), &[slot, value], [1, 2, 2, 0]);
    one.reads(rt, kept, read_later(), "y");
    one.finish(rt, &[[0, 1, 1, 0]])
}

/// A history is trimmed during a read. The guard still opens the value, and the history has the later
/// steps.
pub(crate) fn history_is_trimmed<W: Worker>(rt: &(impl Wait + Judge), mut one: Recorder<W>) -> u64 {
    let kept = one.leak(rt, "x", made());
    let owner = one.owner(rt);
    let guard = one.begin(rt, kept, read());
    one.trim(rt, 3);
    one.assert_opens(rt, &guard, "x");
    one.release(rt, guard);
    one.reads(rt, kept, read_later(), "x");
    one.release_owner(rt, owner);
    one.finish(rt, &[[0, 1, 3, 0]])
}

/// Boxes and guards of another store are strangers here, even if the slot, the generation and the ticket
/// are those of a reader of this one.
pub(crate) fn strangers_come<W: Worker>(
    rt: &(impl Wait + Judge),
    alloc: Global,
    mut one: Recorder<W>,
) -> u64 {
    let own = one.leak(rt, "own", made());
    let guard = one.begin(rt, own, read());
    let Strangers {
        asked,
        reader,
        writer,
    } = new_strangers(rt, alloc);
    one.finds_dropped(rt, asked, read(), made_later());
    one.end(rt, asked);
    one.sets_dropped(rt, asked, "v", made_later());
    rt.compare(&reader.ticket(), &guard.ticket());
    one.refuses_reader(rt, reader, "own");
    one.refuses_writer(rt, writer, "strange");
    one.assert_opens(rt, &guard, "own");
    one.release(rt, guard);
    one.finish(rt, &[[1, 1, 2, 2]])
}

/// An owner of another store is a stranger here, even if its key is that of an owner of this one.
pub(crate) fn strange_owner_comes<W: Worker>(
    rt: &(impl Wait + Judge),
    alloc: Global,
    mut one: Recorder<W>,
) -> u64 {
    let own = one.owner(rt);
    let strange = strange_owner(rt, alloc);
    rt.compare(&strange.id().key, &own.id().key);
    one.refuses_owner(rt, strange, "v", made());
    one.release_owner(rt, own);
    one.finish(rt, &[[1, 0, 1, 3]])
}
