//! What a store has, in rows.

use crate::boxes::GenerationalBoxId;
use generational_errors::Location;

/// A row of what a store has, without values: a slot, a live cell, an active borrow, or a part of an
/// owner's record.
#[derive(Clone, Copy, Debug, PartialEq)]
pub enum BaseRow {
    /// A slot, and the generation of its last cell.
    Slot(usize, u64),
    /// A live value that isn't shared, and where it was made.
    Value(GenerationalBoxId, Location),
    /// A live shared value, and where it was made.
    Shared(GenerationalBoxId, Location),
    /// A live reference, the shared value that it refers to, and where that was made.
    Ref(GenerationalBoxId, GenerationalBoxId, Location),
    /// A reader of a value: its ticket, and where it began.
    Reader(GenerationalBoxId, u64, Location),
    /// The writer of a value: its ticket, and where it began.
    Writer(GenerationalBoxId, u64, Location),
    /// The key of an owner's record, and its number of owner values.
    Owner(u64, u64),
    /// The key of an owner's record, and a box on its list.
    Owned(u64, GenerationalBoxId),
}
