//! The values of nodes: numbers, and texts, lists and pairs of values.

ghost use Rattle.std.specs.Prelude.{◌≡◌, ℕ, List, [], ◌∷◌, ◌++◌, Bool, IfOk, IsOk, IsTrue, OnOk, OnErr, length};
ghost use Rattle.std.specs.Cmp.Lexicographic.{pointwise};

use std::alloc::{AllocError, Global};
use std::fmt;
use std::marker::Model;

/// Values of nodes: they can be copied and compared.
pub trait Value: Sized {
    /// What `same` returns.
    ghost is_same: { Self → Self → Bool };

    /// Whether the two are one value. False is always allowed, and causes more runs of rules.
    fn same(&self, other: &Self) -> bool
        ensures is { result ≡ is_same self.now other.now }
        ensures right { IsTrue result → self.now ≡ other.now };

    /// A copy of the value doesn't allocate. A type may leave this out: then it holds for none.
    ghost is_plain: { Self → Type 0 } = { λ _. ⊥ };

    /// Returns a copy of the value. Fails if memory runs out.
    fn copy(&self) -> Result<Self, AllocError>
        ensures copy { IfOk result (λ v. v ≡ self.now) }
        ensures plain { is_plain self.now → IsOk result };
}

impl Value for u64 {
    ghost use Rattle.std.specs.Prelude.{nat_eq, ⊤};

    ghost is_same = { nat_eq };

    ghost is_plain = { λ _. ⊤ };

    fn same(&self, other: &u64) -> bool {
        *self == *other
    }

    fn copy(&self) -> Result<u64, AllocError> {
        Ok(*self)
    }
}

impl Value for i64 {
    ghost use Rattle.std.specs.Ordering.{int_eq};
    ghost use Rattle.std.specs.Prelude.{⊤};

    ghost is_same = { int_eq };

    ghost is_plain = { λ _. ⊤ };

    fn same(&self, other: &i64) -> bool {
        *self == *other
    }

    fn copy(&self) -> Result<i64, AllocError> {
        Ok(*self)
    }
}

impl Value for bool {
    ghost use Rattle.std.specs.Prelude.{cond, not, ⊤};

    ghost is_same = { λ a b. cond a b (not b) };

    ghost is_plain = { λ _. ⊤ };

    fn same(&self, other: &bool) -> bool {
        *self == *other
    }

    fn copy(&self) -> Result<bool, AllocError> {
        Ok(*self)
    }
}

impl<A: Value + Drop, B: Value> Value for (A, B) {
    ghost use Rattle.std.specs.Prelude.{◌&&◌};

    ghost is_same = { λ p q. A.is_same p.0 q.0 && B.is_same p.1 q.1 };

    ghost is_plain = { λ p. A.is_plain p.0 × B.is_plain p.1 };

    fn same(&self, other: &(A, B)) -> bool {
        self.0.same(&other.0) && self.1.same(&other.1)
    }

    fn copy(&self) -> Result<(A, B), AllocError> {
        let first = self.0.copy()?;
        let second = self.1.copy()?;
        Ok((first, second))
    }
}

/// A text. Contracts model it as its bytes.
#[derive(Drop)]
pub struct Text {
    text: String,
}

impl Model for Text {
    ghost use Rattle.std.specs.Prelude.{List, ℕ};
    ghost use Rattle.std.specs.String.{string_bytes};

    ghost Value = { List ℕ };

    ghost view = { λ t. string_bytes t.text };
}

impl Text {
    /// Creates an empty text. Doesn't allocate.
    ///
    /// ```rust
    /// let mut text = Text::new(*alloc);
    /// reader.kept(text.push_str("none"))?;
    /// ```
    pub fn new(alloc: Global) -> Text
        ensures { result ≡ [] }
    {
        Text {
            text: String::new(alloc),
        }
    }

    /// Creates a text from a `&str`. Fails if memory runs out.
    ///
    /// ```rust
    /// if let Ok(text) = Text::from_str(self.alloc, text) {
    ///     return text;
    /// }
    /// ```
    pub fn from_str(alloc: Global, text: &str) -> Result<Text, AllocError>
        ensures { IfOk result (λ made. made ≡ text.now) }
    {
        let text = String::from_str(alloc, text)?;
        Ok(Text { text })
    }

    /// The text as a `&str`.
    ///
    /// ```rust
    /// reader.kept(text.push_str(once.as_str()))?;
    /// ```
    pub fn as_str(&self) -> &str
        ensures { result.now ≡ self.now }
    {
        self.text.as_str()
    }

    /// Appends a string. Fails if memory runs out: the text is unchanged then.
    ///
    /// ```rust
    /// reader.kept(text.push_str(once.as_str()))?;
    /// ```
    pub fn push_str(&mut self, more: &str) -> Result<(), AllocError>
        ensures pushed { OnOk result (self.new ≡ self.old ++ more.now) }
        ensures kept { OnErr result (self.new ≡ self.old) }
    {
        self.text.push_str(more)
    }
}

/// Prints the text.
impl fmt::Display for Text {
    ghost use Rattle.std.specs.Prelude.{Some};

    ghost output = { λ t. Some t };

    fn fmt<W: fmt::Write>(&self, f: &mut fmt::Formatter<W>) -> fmt::Result {
        f.write_str(self.as_str())
    }
}

impl Value for Text {
    ghost use Rattle.std.specs.Prelude.{nat_eq};
    ghost use Rattle.std.specs.Cmp.Lexicographic.{pointwise};

    ghost is_same = { pointwise nat_eq };

    fn same(&self, other: &Text) -> bool {
        self.text.as_str() == other.text.as_str()
    }

    fn copy(&self) -> Result<Text, AllocError> {
        Text::from_str(*self.text.allocator(), self.text.as_str())
    }
}

/// A list of values. Contracts model it as their list.
#[derive(Drop)]
pub struct Items<T> {
    items: Vec<T>,
}

impl<T> Model for Items<T> {
    ghost use Rattle.std.specs.Prelude.{List};

    ghost Value = { List T };

    ghost view = { λ s. s.items.items };
}

impl<T> Items<T> {
    /// Creates an empty list. Doesn't allocate.
    ///
    /// ```rust
    /// let mut lengths = Items::new(*alloc);
    /// ```
    pub fn new(alloc: Global) -> Items<T>
        ensures { result ≡ [] }
    {
        Items {
            items: Vec::new(alloc),
        }
    }

    /// The items, in order.
    ///
    /// ```rust
    /// let second = reader.with(*b, |items: &Items<u64>| items.as_slice().len() as u64)?;
    /// ```
    pub fn as_slice(&self) -> &[T]
        ensures { result.now ≡ self.now }
    {
        self.items.as_slice()
    }
}

impl<T: Drop> Items<T> {
    /// Appends an item. Fails if memory runs out: the list is unchanged then, and the item is dropped.
    ///
    /// ```rust
    /// reader.kept(items.push(*last))?;
    /// ```
    pub fn push(&mut self, item: T) -> Result<(), AllocError>
        ensures pushed { OnOk result (self.new ≡ self.old ++ item ∷ []) }
        ensures kept { OnErr result (self.new ≡ self.old) }
    {
        self.items.push(item)?;
        Ok(())
    }
}

impl<T: Value + Drop> Value for Items<T> {
    ghost use Rattle.std.specs.Cmp.Lexicographic.{pointwise};

    ghost is_same = { pointwise T.is_same };

    fn same(&self, other: &Items<T>) -> bool {
        are_same(self.items.as_slice(), other.items.as_slice())
    }

    fn copy(&self) -> Result<Items<T>, AllocError> {
        let items = copies(*self.items.allocator(), self.items.as_slice())?;
        Ok(Items { items })
    }
}

// Whether two lists have the same values, item by item.
fn are_same<T: Value>(xs: &[T], ys: &[T]) -> bool
    ensures is { result ≡ pointwise T.is_same xs.now ys.now }
    ensures right { IsTrue result → xs.now ≡ ys.now }
{
    if xs.len() != ys.len() {
        return false;
    }
    for i in 0..xs.len() {
        if !xs[i].same(&ys[i]) {
            return false;
        }
    }
    true
}

// Returns copies of these items, in order.
fn copies<T: Value + Drop>(alloc: Global, xs: &[T]) -> Result<Vec<T>, AllocError>
    ensures { IfOk result (λ made. made.items ≡ xs.now) }
{
    let mut made = Vec::with_capacity(alloc, xs.len())?;
    for x in xs {
        made.push(x.copy()?)?;
    }
    Ok(made)
}
