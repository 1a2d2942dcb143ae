//! Two components that are changed at once.

ghost use Rattle.std.specs.Prelude.{◌≡◌, ◌<◌, None, Some, is_some, true, IfOk, IsErrAnd, IsOk, OnErr, length};
ghost use Rattle.std.specs.Borrow.{MutBor};
ghost use Rattle.handles.specs.declared.map.Row.TheVariants.{Vacant};
ghost use Rattle.handles.specs.Handles.{IsOther, IsSame, slot_in};
ghost use Rattle.handles.specs.Maps.{row_at};
ghost use Rattle.entity_table.specs.Components.{CalledOnPair, component_in};
ghost use Rattle.entity_table.specs.Tables.{Entity};
ghost use Rattle.entity_table.specs.declared.pair.PairError.TheVariants as pair;

use crate::components::ComponentTable;
use crate::entity::Entity;
use std::error::Error;
use std::fmt;

/// Why two components can't be changed at once.
#[derive(Clone, Copy, Debug, PartialEq, Eq)]
pub enum PairError {
    /// The first entity has no component.
    NoFirst,
    /// The second entity has no component.
    NoSecond,
    /// Both are the same entity.
    SameEntity,
}

/// Prints `the first entity has no component`, `the second entity has no component`, or `both are the same
/// entity`.
impl fmt::Display for PairError {
    ghost use Rattle.std.specs.Prelude.{Some};
    ghost use Rattle.entity_table.specs.Texts.{pair_error_text};

    ghost output = { λ it. Some (pair_error_text it) };

    fn fmt<W: fmt::Write>(&self, f: &mut fmt::Formatter<W>) -> fmt::Result {
        match self {
            PairError::NoFirst => write!(f, "the first entity has no component"),
            PairError::NoSecond => write!(f, "the second entity has no component"),
            PairError::SameEntity => write!(f, "both are the same entity"),
        }
    }
}

impl Error for PairError {}

impl<T, C> ComponentTable<T, C> {
    /// Calls a closure once on the components of two entities, mutably, and returns the closure's result.
    /// Every other component is unchanged. Doesn't allocate itself, and is O(1) except for the closure.
    ///
    /// # Errors
    ///
    /// - `NoFirst` if the first entity has no component.
    /// - `NoSecond` if the second has none.
    /// - `SameEntity` if both are the same.
    ///
    /// The closure isn't called then, and the table is unchanged.
    ///
    /// ```rust
    /// purses.update2(buyer, seller, |paid: &mut u64, got: &mut u64| {
    ///     *paid = paid.wrapping_sub(5);
    ///     *got = got.wrapping_add(5);
    /// })?;
    /// ```
    pub fn update2<R, F: FnOnce(&mut C, &mut C) -> R>(
        &mut self,
        first: Entity<T>,
        second: Entity<T>,
        f: F,
    ) -> Result<R, PairError>
    where
        C: Drop,
        requires { (x y : MutBor C) → component_in self.old first ≡ Some x.now →
            component_in self.old second ≡ Some y.now → F.pre f x y }
        ensures changed { IfOk result (λ answer. (old new : C × C)
            × (component_in self.old first ≡ Some old.0) × (component_in self.old second ≡ Some old.1)
            × CalledOnPair F.FnOnce f old answer new
            × (component_in self.new first ≡ Some new.0) × (component_in self.new second ≡ Some new.1)) }
        ensures others { (e : Entity T) → IsOther first e → IsOther second e →
            component_in self.new e ≡ component_in self.old e }
        ensures no_first { component_in self.old first ≡ None →
            IsErrAnd result (λ cause. cause ≡ pair.NoFirst) }
        ensures no_second { is_some (component_in self.old first) ≡ true →
            component_in self.old second ≡ None → IsErrAnd result (λ cause. cause ≡ pair.NoSecond) }
        ensures same { is_some (component_in self.old first) ≡ true → IsSame first second →
            IsErrAnd result (λ cause. cause ≡ pair.SameEntity) }
        ensures succeeds { is_some (component_in self.old first) ≡ true →
            is_some (component_in self.old second) ≡ true → IsOther first second → IsOk result }
        ensures refused { OnErr result (self.new ≡ self.old) }
        ensures number { self.new.number ≡ self.old.number }
    {
        if !self.contains(first) {
            return Err(PairError::NoFirst);
        }
        if !self.contains(second) {
            return Err(PairError::NoSecond);
        }
        if first == second {
            return Err(PairError::SameEntity);
        }
        let Some(value) = self.map.take(first) else {
            unreachable!();
        };
        let changed = self.map.change(
            second,
            move |other: &mut C|
                requires { (x y : MutBor C) → x.now ≡ value → y.now ≡ other.old → F.pre f x y }
                ensures { CalledOnPair F.FnOnce f (value, other.old) result.0 (result.1, other.new) }
            { called_on_both(f, value, other) },
        );
        let Some((answer, value)) = changed else {
            unreachable!();
        };
        self.map.put(first, value);
        Ok(answer)
    }
}

// The result of a closure on two values, and what it leaves of the first.
fn called_on_both<C, R, F: FnOnce(&mut C, &mut C) -> R>(
    f: F,
    mut first: C,
    second: &mut C,
) -> (R, C)
    requires { (x y : MutBor C) → x.now ≡ first → y.now ≡ second.old → F.pre f x y }
    ensures { CalledOnPair F.FnOnce f (first, second.old) result.0 (result.1, second.new) }
{
    let answer = f(&mut first, second);
    (answer, first)
}
