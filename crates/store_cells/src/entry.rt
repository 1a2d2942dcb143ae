//! What a slot stores in one place: the generation of its last cell, and that cell.

ghost use Rattle.std.specs.Prelude.{◌≡◌, ◌+◌, ◌<◌, IsSome, None, Some, is_some, nat_eq};
ghost use Rattle.std.specs.Prelude.{option_map};
ghost use Rattle.std.specs.Prelude.{if◌then◌else◌};
ghost use Rattle.generational_core.specs.Slots.{last_generation};
ghost use Rattle.std.specs.Prelude.{false, true};
ghost use Rattle.store_cells.specs.Data.{data_in};
ghost use Rattle.store_cells.specs.Entries.{full_data, is_lent_data, is_unborrowed_data};
ghost use Rattle.store_cells.specs.Entries.{lent_data};
ghost use Rattle.store_cells.specs.Entries.{read_data, unread_data, unread_in};
ghost use Rattle.store_cells.specs.Entries.{index_of, lead_of, kind_of, target_name_of};
ghost use Rattle.store_cells.specs.Entries.{data_value};
ghost use Rattle.store_parts.specs.CellNames.{name_of_cell};

use generational_core::Location;
use std::mem;
use store_parts::names::CellName;
use store_parts::table::NO_INDEX;

/// Whose a value is: a box's own, or shared by all references to its cell.
#[derive(Clone, Copy, Drop)]
pub enum CellKind {
    Value,
    Shared,
}

/// A slot: the generation of its last cell, and that cell while it is live.
#[derive(Drop)]
pub struct StorageEntry<T> {
    pub generation: u64,
    pub content: StorageEntryData<T>,
}

/// What is seldom read of a slot, and so is stored separately: where its last cell was made, and how many
/// live references that has.
#[derive(Clone, Copy)]
pub struct EntryDetails {
    pub created_at: Location,
    pub references: usize,
}

/// A live cell: a value of a box's own, or a shared one; each of them with the index of its readers in
/// the table of borrows; the index of its writer, while the value is being written, and whose it is; or a
/// reference, by its target's slot and generation. Or nothing.
///
/// What is read most of a box's own value has one variant, so that one comparison finds it; the values
/// without listed readers come first, and those that can be read next, so that one more finds each of
/// these.
#[derive(Drop)]
pub enum StorageEntryData<T> {
    Data(T),
    Shared(T),
    Read(u32, T),
    SharedRead(u32, T),
    Lent(u32, CellKind),
    Reference(u32, u64),
    Empty,
}

impl<T> StorageEntry<T> {
    /// The cell that a box of this name refers to, if the slot's cell has the name: its own one, if that
    /// is a value that isn't shared, or the target of a reference.
    #[inline(always)]
    pub fn reach(&self, name: CellName) -> Option<CellName>
        ensures { option_map name_of_cell result ≡ if nat_eq self.now.generation name.generation
            then lead_of (data_in self.now.content) (name_of_cell name) else None }
    {
        if self.generation != name.generation {
            return None;
        }
        // One test after the other, since a match over all kinds compiles to a jump table.
        if let StorageEntryData::Data(_) = &self.content {
            return Some(name);
        }
        if let StorageEntryData::Reference(slot, generation) = &self.content {
            return Some(CellName {
                slot: *slot as usize,
                generation: *generation,
            });
        }
        if let StorageEntryData::Read(_, _) = &self.content {
            return Some(name);
        }
        if let StorageEntryData::Lent(_, CellKind::Value) = &self.content {
            return Some(name);
        }
        None
    }

    /// Whose the slot's value is, even if it is being written, if the slot's cell has this generation.
    #[inline(always)]
    pub fn kind(&self, generation: u64) -> Option<CellKind>
        ensures { result ≡ if nat_eq self.now.generation generation
            then kind_of (data_in self.now.content) else None }
    {
        if self.generation != generation {
            return None;
        }
        match &self.content {
            StorageEntryData::Data(_) | StorageEntryData::Read(_, _) => Some(CellKind::Value),
            StorageEntryData::Shared(_) | StorageEntryData::SharedRead(_, _) => Some(
                CellKind::Shared,
            ),
            StorageEntryData::Lent(_, kind) => Some(*kind),
            _ => None,
        }
    }

    /// Whether the slot's cell has this generation, and is a value that isn't shared and has no
    /// borrow.
    #[inline(always)]
    pub fn has_unborrowed_value(&self, generation: u64) -> bool
        ensures { result ≡ if nat_eq self.now.generation generation
            then is_unborrowed_data (data_in self.now.content) else false }
    {
        if self.generation != generation {
            return false;
        }
        matches!(&self.content, StorageEntryData::Data(_))
    }

    /// The target of the slot's reference, if the slot's cell has this generation and is one.
    #[inline(always)]
    pub fn target(&self, generation: u64) -> Option<CellName>
        ensures { option_map name_of_cell result ≡ if nat_eq self.now.generation generation
            then target_name_of (data_in self.now.content) else None }
    {
        if self.generation != generation {
            return None;
        }
        self.content.target()
    }

    /// Where the borrows of the slot's cell are in the table.
    #[inline(always)]
    pub fn index(&self) -> u32
        ensures { result ≡ index_of (data_in self.now.content) }
    {
        match &self.content {
            StorageEntryData::Read(index, _)
            | StorageEntryData::SharedRead(index, _)
            | StorageEntryData::Lent(index, _) => *index,
            _ => NO_INDEX,
        }
    }

    /// Puts a cell into the slot, under the next generation, which is returned. The slot must have no
    /// cell: its old content isn't dropped.
    #[inline(always)]
    pub fn refill(&mut self, content: StorageEntryData<T>) -> u64
    where
        T: Drop,
        requires { self.old.generation < last_generation }
        ensures generation { result ≡ self.old.generation + 1 }
        ensures filled { self.new ≡ record { generation = result; content = content } }
    {
        self.generation += 1;
        mem::forget(mem::replace(&mut self.content, content));
        self.generation
    }
}

impl<T> StorageEntryData<T> {
    /// The cell's target, if it is a reference.
    #[inline(always)]
    pub fn target(&self) -> Option<CellName>
        ensures { option_map name_of_cell result ≡ target_name_of (data_in self.now) }
    {
        match self {
            StorageEntryData::Reference(slot, generation) => Some(CellName {
                slot: *slot as usize,
                generation: *generation,
            }),
            _ => None,
        }
    }

    /// Whether it is a value at which no reader is listed.
    #[inline(always)]
    pub fn is_unread(&self) -> bool
        ensures { result ≡ is_some (unread_in (data_in self.now)) }
    {
        matches!(
            self,
            StorageEntryData::Data(_) | StorageEntryData::Shared(_)
        )
    }

    /// Moves the value to a writer. There is a value, without listed readers, and the writer isn't
    /// listed.
    #[inline(always)]
    pub fn lend(&mut self) -> T
    where
        T: Drop,
        requires { IsSome (unread_in (data_in self.old)) }
        ensures value { unread_in (data_in self.old) ≡ Some result }
        ensures lent { data_in self.new ≡ lent_data (data_in self.old) }
    {
        let kind = match self {
            StorageEntryData::Data(_) => CellKind::Value,
            StorageEntryData::Shared(_) => CellKind::Shared,
            _ => unreachable!(),
        };
        match mem::replace(self, StorageEntryData::Lent(NO_INDEX, kind)) {
            StorageEntryData::Data(value) | StorageEntryData::Shared(value) => value,
            _ => unreachable!(),
        }
    }

    /// Puts a writer's value back. The writer is forgotten.
    #[inline(always)]
    pub fn put_back(&mut self, value: T)
    where
        T: Drop,
        requires { is_lent_data (data_in self.old) ≡ true }
        ensures { data_in self.new ≡ full_data value (data_in self.old) }
    {
        *self = match self {
            StorageEntryData::Lent(_, CellKind::Value) => StorageEntryData::Data(value),
            StorageEntryData::Lent(_, CellKind::Shared) => StorageEntryData::Shared(value),
            _ => unreachable!(),
        };
    }

    /// Gives a value without readers the index of its readers in the table.
    pub fn list(&mut self, index: u32)
    where
        T: Drop,
        ensures { data_in self.new ≡ read_data index (data_in self.old) }
    {
        *self = match mem::replace(self, StorageEntryData::Empty) {
            StorageEntryData::Data(value) => StorageEntryData::Read(index, value),
            StorageEntryData::Shared(value) => StorageEntryData::SharedRead(index, value),
            other => other,
        };
    }

    /// Removes the index of a value's readers, which was freed.
    pub fn unlist(&mut self)
    where
        T: Drop,
        ensures { data_in self.new ≡ unread_data (data_in self.old) }
    {
        if !matches!(
            self,
            StorageEntryData::Read(NO_INDEX, _) | StorageEntryData::SharedRead(NO_INDEX, _)
        ) {
            return;
        }
        *self = match mem::replace(self, StorageEntryData::Empty) {
            StorageEntryData::Read(_, value) => StorageEntryData::Data(value),
            StorageEntryData::SharedRead(_, value) => StorageEntryData::Shared(value),
            other => other,
        };
    }

    /// The value, which is there.
    pub fn into_value(self) -> T
    where
        T: Drop,
        requires { IsSome (data_value (data_in self)) }
        ensures { data_value (data_in self) ≡ Some result }
    {
        match self {
            StorageEntryData::Data(value)
            | StorageEntryData::Shared(value)
            | StorageEntryData::Read(_, value)
            | StorageEntryData::SharedRead(_, value) => value,
            _ => unreachable!(),
        }
    }
}
