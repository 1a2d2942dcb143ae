//! Locations, the errors of borrows, the store's own errors, and their texts.

ghost use Rattle.std.specs.Prelude.{◌≡◌, Some};
ghost use Rattle.generational_errors.specs.Texts.{location_text, dropped_text, borrowed_mut_text};
ghost use Rattle.generational_errors.specs.Texts.{borrowed_text, borrow_error_text};
ghost use Rattle.generational_errors.specs.Texts.{borrow_mut_error_text, store_error_text};
ghost use Rattle.generational_errors.specs.Texts.{as_borrow_mut, as_refused_mut};
ghost use Rattle.generational_errors.specs.declared.error.Refused.TheVariants as refused;
ghost use Rattle.generational_errors.specs.declared.error.StoreError.TheVariants.{OutOfMemory};

use std::alloc::AllocError;
use std::error::Error;
use std::fmt;
use std::marker::Model;

/// A place in a source text. The caller passes it to each call that makes a box or begins a borrow.
///
/// It replaces std's `panic::Location`, which Rattle doesn't have. Two locations are equal if their files
/// have the same text and their lines and columns are the same.
#[derive(Clone, Copy, Debug, PartialEq, Eq)]
pub struct Location {
    file: &'static str,
    line: u32,
    column: u32,
}

impl Location {
    /// The place in `file` at `line` and `column`. Doesn't allocate.
    pub fn new(file: &'static str, line: u32, column: u32) -> Location
        ensures file { result.file ≡ file.entry }
        ensures line { result.line ≡ line }
        ensures column { result.column ≡ column }
    {
        Location { file, line, column }
    }

    /// The file's name that was passed to `new`.
    pub fn file(&self) -> &'static str
        ensures { result ≡ self.now.file }
    {
        self.file
    }

    /// The line's number that was passed to `new`.
    pub fn line(&self) -> u32
        ensures { result ≡ self.now.line }
    {
        self.line
    }

    /// The column's number that was passed to `new`.
    pub fn column(&self) -> u32
        ensures { result ≡ self.now.column }
    {
        self.column
    }
}

/// Prints `file:line:column`, the numbers in decimal.
impl fmt::Display for Location {
    ghost output = { λ it. Some (location_text it) };

    fn fmt<W: fmt::Write>(&self, f: &mut fmt::Formatter<W>) -> fmt::Result {
        write!(f, "{}:{}:{}", self.file, self.line, self.column)
    }
}

/// The box's value was removed, or was never in the store that the call was made on.
#[derive(Clone, Copy, Debug, PartialEq, Eq)]
pub struct ValueDroppedError {
    created_at: Location,
}

impl ValueDroppedError {
    /// An error for a box that was made at `created_at`.
    pub fn new(created_at: Location) -> ValueDroppedError
        ensures { result.created_at ≡ created_at }
    {
        ValueDroppedError { created_at }
    }

    /// Where the box was made. Doesn't allocate.
    ///
    /// ```rust
    /// BorrowMutError::Dropped(gone) => Some(gone.created_at()),
    /// ```
    pub fn created_at(&self) -> Location
        ensures { result ≡ self.now.created_at }
    {
        self.created_at
    }
}

impl fmt::Display for ValueDroppedError {
    ghost output = { λ it. Some (dropped_text it.created_at) };

    fn fmt<W: fmt::Write>(&self, f: &mut fmt::Formatter<W>) -> fmt::Result {
        let created_at = self.created_at;
        write!(
            f,
            "Failed to borrow because the value was dropped.created_at: {created_at}"
        )
    }
}

impl Error for ValueDroppedError {}

/// The value is being written.
#[derive(Clone, Copy, Debug, PartialEq, Eq)]
pub struct AlreadyBorrowedMutError {
    borrowed_mut_at: Location,
}

impl AlreadyBorrowedMutError {
    /// An error for a writer that began at `borrowed_mut_at`.
    pub fn new(borrowed_mut_at: Location) -> AlreadyBorrowedMutError
        ensures { result.borrowed_mut_at ≡ borrowed_mut_at }
    {
        AlreadyBorrowedMutError { borrowed_mut_at }
    }

    /// Where the writer began. Doesn't allocate.
    ///
    /// ```rust
    /// BorrowMutError::AlreadyBorrowedMut(written) => Some(written.borrowed_mut_at()),
    /// ```
    pub fn borrowed_mut_at(&self) -> Location
        ensures { result ≡ self.now.borrowed_mut_at }
    {
        self.borrowed_mut_at
    }
}

impl fmt::Display for AlreadyBorrowedMutError {
    ghost output = { λ it. Some (borrowed_mut_text it.borrowed_mut_at) };

    fn fmt<W: fmt::Write>(&self, f: &mut fmt::Formatter<W>) -> fmt::Result {
        let borrowed_mut_at = self.borrowed_mut_at;
        write!(
            f,
            "Failed to borrow because the value was already borrowed mutably.borrowed_mut_at: {borrowed_mut_at}"
        )
    }
}

impl Error for AlreadyBorrowedMutError {}

/// The value is being read. Contracts model the error as the list of its readers' locations.
#[derive(Clone, Debug, Drop)]
pub struct AlreadyBorrowedError {
    borrowed_at: Vec<Location>,
}

impl Model for AlreadyBorrowedError {
    ghost use Rattle.std.specs.Prelude.{List};
    ghost use Rattle.generational_errors.specs.declared.error.Location.{Location};

    ghost Value = { List Location };

    ghost view = { λ e.
        e.borrowed_at.items };
}

impl AlreadyBorrowedError {
    /// An error for readers that began at these locations, in this order. Doesn't allocate.
    pub fn new(borrowed_at: Vec<Location>) -> AlreadyBorrowedError
        ensures { result ≡ borrowed_at.items }
    {
        AlreadyBorrowedError { borrowed_at }
    }

    /// Where the readers began, in this order. Doesn't allocate.
    ///
    /// ```rust
    /// BorrowMutError::AlreadyBorrowed(read) => read.borrowed_at().first().copied(),
    /// ```
    pub fn borrowed_at(&self) -> &[Location]
        ensures { result.now ≡ self.now }
    {
        self.borrowed_at.as_slice()
    }
}

/// Two errors are equal if their lists are.
impl PartialEq for AlreadyBorrowedError {
    ghost use Rattle.std.proofs.Common.{rules};
    ghost use Rattle.std.specs.Cmp.Lexicographic.{lists_per};
    ghost use Rattle.std.specs.Cmp.Rules.{comparing};
    ghost use Rattle.generational_errors.specs.Texts.{same_locations};

    ghost eq = { same_locations };

    ghost laws = { lists_per (Prim.search (comparing, rules)) };

    fn eq(&self, other: &AlreadyBorrowedError) -> bool {
        self.borrowed_at == other.borrowed_at
    }
}

impl fmt::Display for AlreadyBorrowedError {
    ghost output = { λ it. Some (borrowed_text it) };

    fn fmt<W: fmt::Write>(&self, f: &mut fmt::Formatter<W>) -> fmt::Result {
        f.write_str(
            "Failed to borrow mutably because the value was already borrowed immutably.borrowed_at:",
        )?;
        for location in self.borrowed_at.as_slice() {
            write!(f, "\t{location}")?;
        }
        Ok(())
    }
}

impl Error for AlreadyBorrowedError {}

/// Why a read or an insertion of a reference failed.
#[derive(Clone, Debug, PartialEq, Drop)]
pub enum BorrowError {
    /// The value was removed.
    Dropped(ValueDroppedError),
    /// The value is being written.
    AlreadyBorrowedMut(AlreadyBorrowedMutError),
}

impl fmt::Display for BorrowError {
    ghost output = { λ it. Some (borrow_error_text it) };

    fn fmt<W: fmt::Write>(&self, f: &mut fmt::Formatter<W>) -> fmt::Result {
        match self {
            BorrowError::Dropped(error) => write!(f, "{error}"),
            BorrowError::AlreadyBorrowedMut(error) => write!(f, "{error}"),
        }
    }
}

impl Error for BorrowError {}

/// Why a write, a removal or a change of a reference's target failed.
#[derive(Clone, Debug, PartialEq, Drop)]
pub enum BorrowMutError {
    /// The value was removed.
    Dropped(ValueDroppedError),
    /// The value is being read.
    AlreadyBorrowed(AlreadyBorrowedError),
    /// The value is being written.
    AlreadyBorrowedMut(AlreadyBorrowedMutError),
}

impl fmt::Display for BorrowMutError {
    ghost output = { λ it. Some (borrow_mut_error_text it) };

    fn fmt<W: fmt::Write>(&self, f: &mut fmt::Formatter<W>) -> fmt::Result {
        match self {
            BorrowMutError::Dropped(error) => write!(f, "{error}"),
            BorrowMutError::AlreadyBorrowed(error) => write!(f, "{error}"),
            BorrowMutError::AlreadyBorrowedMut(error) => write!(f, "{error}"),
        }
    }
}

impl Error for BorrowMutError {}

/// Keeps the variant and what it holds. Doesn't allocate.
impl From<BorrowError> for BorrowMutError {
    ghost from_gives = { λ error r. r ≡ as_borrow_mut error };

    fn from(error: BorrowError) -> BorrowMutError {
        match error {
            BorrowError::Dropped(error) => BorrowMutError::Dropped(error),
            BorrowError::AlreadyBorrowedMut(error) => BorrowMutError::AlreadyBorrowedMut(error),
        }
    }
}

/// An error of the store itself. A call that fails with it changes nothing.
#[derive(Clone, Copy, Debug, PartialEq, Eq)]
pub enum StoreError {
    /// An allocation failed.
    OutOfMemory,
    /// All tickets were issued.
    NumbersExhausted,
    /// The owner is of another store.
    UnknownOwner,
}

impl fmt::Display for StoreError {
    ghost output = { λ it. Some (store_error_text it) };

    fn fmt<W: fmt::Write>(&self, f: &mut fmt::Formatter<W>) -> fmt::Result {
        match self {
            StoreError::OutOfMemory => write!(f, "out of memory"),
            StoreError::NumbersExhausted => write!(f, "numbers exhausted"),
            StoreError::UnknownOwner => write!(f, "unknown owner"),
        }
    }
}

impl Error for StoreError {}

/// An allocation that failed is `OutOfMemory`. Doesn't allocate.
impl From<AllocError> for StoreError {
    ghost from_gives = { λ _ error. error ≡ OutOfMemory };

    fn from(_refused: AllocError) -> StoreError {
        StoreError::OutOfMemory
    }
}

/// The error of a call: a borrow is in the way or the value was removed, or the store itself fails.
#[derive(Clone, Debug, PartialEq, Drop)]
pub enum Refused<E> {
    /// A borrow error.
    Borrow(E),
    /// An error of the store.
    Store(StoreError),
}

/// Prints the text of what it holds.
impl<E: fmt::Display> fmt::Display for Refused<E> {
    ghost use Rattle.generational_errors.specs.Texts.{refused_output};

    ghost output = { refused_output E.output };

    fn fmt<W: fmt::Write>(&self, f: &mut fmt::Formatter<W>) -> fmt::Result {
        match self {
            Refused::Borrow(error) => write!(f, "{error}"),
            Refused::Store(error) => write!(f, "{error}"),
        }
    }
}

impl<E: Error> Error for Refused<E> {}

/// Keeps the store's error. Doesn't allocate.
impl<E> From<StoreError> for Refused<E> {
    ghost from_gives = { λ cause r. r ≡ refused.Store cause };

    fn from(cause: StoreError) -> Refused<E> {
        Refused::Store(cause)
    }
}

/// Converts a read's error to a write's: keeps the variant and what it holds. Doesn't allocate.
impl From<Refused<BorrowError>> for Refused<BorrowMutError> {
    ghost from_gives = { λ read r. r ≡ as_refused_mut read };

    fn from(read: Refused<BorrowError>) -> Refused<BorrowMutError> {
        match read {
            Refused::Borrow(error) => Refused::Borrow(BorrowMutError::from(error)),
            Refused::Store(cause) => Refused::Store(cause),
        }
    }
}

/// A value that a store didn't store, and why.
///
/// It is an error for every type of value, so `?` works if the value can be dropped.
#[derive(Drop)]
pub struct Refusal<T> {
    /// The value that was passed in.
    pub value: T,
    /// Why it wasn't stored.
    pub cause: StoreError,
}

/// Prints the text of the cause.
impl<T> fmt::Display for Refusal<T> {
    ghost output = { λ it. Some (store_error_text it.cause) };

    fn fmt<W: fmt::Write>(&self, f: &mut fmt::Formatter<W>) -> fmt::Result {
        write!(f, "{}", self.cause)
    }
}

/// Prints the cause, and of the value nothing: it needn't be `Debug`.
impl<T> fmt::Debug for Refusal<T> {
    fn fmt<W: fmt::Write>(&self, f: &mut fmt::Formatter<W>) -> fmt::Result {
        f.debug_struct("Refusal")
            .field("cause", &self.cause)
            .finish_non_exhaustive()
    }
}

impl<T: Drop> Error for Refusal<T> {}

/// A value that a call of a library built on boxes didn't store, and why.
///
/// It is an error for every type of value, so `?` works if the value can be dropped.
#[derive(Drop)]
pub struct HandedBack<T, E> {
    /// The value that was passed in.
    pub value: T,
    /// Why it wasn't stored.
    pub cause: E,
}

/// Prints the text of the cause.
impl<T, E: fmt::Display> fmt::Display for HandedBack<T, E> {
    ghost output = { λ it. E.output it.cause };

    fn fmt<W: fmt::Write>(&self, f: &mut fmt::Formatter<W>) -> fmt::Result {
        write!(f, "{}", self.cause)
    }
}

/// Prints the cause, and of the value nothing: it needn't be `Debug`.
impl<T, E: fmt::Debug> fmt::Debug for HandedBack<T, E> {
    fn fmt<W: fmt::Write>(&self, f: &mut fmt::Formatter<W>) -> fmt::Result {
        f.debug_struct("HandedBack")
            .field("cause", &self.cause)
            .finish_non_exhaustive()
    }
}

impl<T: Drop, E: Error> Error for HandedBack<T, E> {}

/// Keeps both parts, for example of the pair that a signal's `set` fails with. Doesn't allocate.
impl<T, E> From<(T, E)> for HandedBack<T, E> {
    ghost from_gives = { λ pair r. r ≡ record { value = pair.0; cause = pair.1 } };

    fn from(pair: (T, E)) -> HandedBack<T, E> {
        let (value, cause) = pair;
        HandedBack { value, cause }
    }
}

/// Keeps both parts. Doesn't allocate.
impl<T> From<Refusal<T>> for HandedBack<T, StoreError> {
    ghost from_gives = { λ refusal r. r ≡ record { value = refusal.value; cause = refusal.cause } };

    fn from(refusal: Refusal<T>) -> HandedBack<T, StoreError> {
        let Refusal { value, cause } = refusal;
        HandedBack { value, cause }
    }
}

/// The result of a read, or of an insertion of a reference.
pub type BorrowResult<T> = Result<T, Refused<BorrowError>>;

/// The result of a write, a removal, or a change of a reference's target.
pub type BorrowMutResult<T> = Result<T, Refused<BorrowMutError>>;
