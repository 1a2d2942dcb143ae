//! What a store has, as data.

use generational_core::Location;
use std::error::Error;
use std::fmt;

/// A store without borrows and owners, as plain data. Anyone may make an image or change one:
/// `Store::from_image` checks it.
///
/// How many references a shared value has isn't in it, nor which slots are free or retired: both
/// follow from the slots.
#[derive(Debug, Drop)]
pub struct Image<T> {
    /// The store's number.
    pub number: u64,
    /// The first generation of a slot.
    pub start: u64,
    /// The next ticket.
    pub next: u64,
    /// The peak number of live cells.
    pub peak: usize,
    /// The slots, in the order in which they were made.
    pub slots: Vec<SlotImage<T>>,
}

/// A slot: the generation of its last cell, and that cell while it is live.
#[derive(Debug, Drop)]
pub struct SlotImage<T> {
    /// The generation of the slot's last cell.
    pub generation: u64,
    /// That cell.
    pub cell: CellImage<T>,
}

/// A live cell with the location at which it was made, or none.
#[derive(Debug, Drop)]
pub enum CellImage<T> {
    /// The slot's last cell was removed. The slot is free, or retired after the last generation.
    Empty,
    /// A value of one box.
    Value(T, Location),
    /// A value that references share.
    Shared(T, Location),
    /// A reference to the shared value in this slot, under this generation.
    Reference(usize, u64, Location),
}

/// Why no store can have an image.
#[derive(Clone, Copy, Debug, PartialEq, Eq)]
pub enum ImageFault {
    /// This slot's generation is below the image's first.
    EarlyGeneration(usize),
    /// This slot's reference refers to no shared value of the image.
    DanglingReference(usize),
    /// No reference refers to this slot's shared value.
    UnreferencedValue(usize),
    /// The peak is less than the live and free slots together.
    LowPeak,
    /// The peak is more than all slots.
    HighPeak,
}

impl fmt::Display for ImageFault {
    fn fmt<W: fmt::Write>(&self, f: &mut fmt::Formatter<W>) -> fmt::Result {
        match self {
            ImageFault::EarlyGeneration(slot) => {
                write!(f, "slot {slot} has a generation below the first")
            }
            ImageFault::DanglingReference(slot) => {
                write!(f, "slot {slot} has a reference to no shared value")
            }
            ImageFault::UnreferencedValue(slot) => {
                write!(f, "slot {slot} has a shared value without a reference")
            }
            ImageFault::LowPeak => f.write_str("the peak is less than the live and free slots"),
            ImageFault::HighPeak => f.write_str("the peak is more than the slots"),
        }
    }
}

impl Error for ImageFault {}

/// Why an image isn't loaded.
#[derive(Clone, Copy, Debug, PartialEq, Eq)]
pub enum LoadError {
    /// No store can have the image.
    Unsound(ImageFault),
    /// Memory ran out, or the image has 2^32 - 1 slots or more.
    OutOfMemory,
}

impl fmt::Display for LoadError {
    fn fmt<W: fmt::Write>(&self, f: &mut fmt::Formatter<W>) -> fmt::Result {
        match self {
            LoadError::Unsound(fault) => write!(f, "no store has such an image: {fault}"),
            LoadError::OutOfMemory => f.write_str("out of memory"),
        }
    }
}

impl Error for LoadError {}

/// An image that can't be loaded, unchanged, and why.
#[derive(Debug, Drop)]
pub struct LoadRefusal<T> {
    /// The image.
    pub image: Image<T>,
    /// Why it isn't loaded.
    pub cause: LoadError,
}

/// Why a store has no image now.
#[derive(Clone, Copy, Debug, PartialEq, Eq)]
pub enum SaveError {
    /// The store has an owner's record: that owner's values belong to the holder of the owner.
    Owned,
    /// This slot's value is borrowed.
    Borrowed(usize),
    /// Memory ran out.
    OutOfMemory,
}

impl fmt::Display for SaveError {
    fn fmt<W: fmt::Write>(&self, f: &mut fmt::Formatter<W>) -> fmt::Result {
        match self {
            SaveError::Owned => f.write_str("the store has an owner"),
            SaveError::Borrowed(slot) => write!(f, "the value of slot {slot} is borrowed"),
            SaveError::OutOfMemory => f.write_str("out of memory"),
        }
    }
}

impl Error for SaveError {}
