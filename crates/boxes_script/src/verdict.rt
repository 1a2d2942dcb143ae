//! Two lists of replies, compared.

ghost use Rattle.std.specs.Prelude.{◌≡◌};
ghost use Rattle.boxes_script.specs.Told.{Compares, with_breach};

use crate::replies::{is_lacking, is_same};
use generational_sessions::Reply;
use std::fmt;
use std::fmt::Display;

/// How two lists of replies compare, ids and numbers of slots aside.
#[derive(Clone, Copy, Debug, PartialEq, Eq)]
pub enum Verdict {
    /// All replies are the same.
    Same,
    /// The replies differ at this place, and at none before it.
    Differs(usize),
    /// A call at this place failed to allocate. The replies before it are the same.
    Refused(usize),
}

impl Display for Verdict {
    fn fmt<W: fmt::Write>(&self, f: &mut fmt::Formatter<W>) -> fmt::Result {
        match self {
            Verdict::Same => write!(f, "same"),
            Verdict::Differs(place) => write!(f, "differs at {place}"),
            Verdict::Refused(place) => write!(f, "refused at {place}"),
        }
    }
}

impl Verdict {
    /// The verdict if a store also breaks the bound on slots, first at this place: the stores differ
    /// there, unless the verdict is about an earlier place, or a call failed to allocate at the same one.
    pub fn or_breach(self, breach: Option<usize>) -> Verdict
        ensures { result ≡ with_breach self breach }
    {
        let Some(breach) = breach else {
            return self;
        };
        match self {
            Verdict::Differs(place) => Verdict::Differs(place.min(breach)),
            Verdict::Refused(place) if place <= breach => self,
            _ => Verdict::Differs(breach),
        }
    }
}

/// Compares two lists of replies, from the first place on. Doesn't allocate.
///
/// At a place where a call of either list failed to allocate, the verdict is `Refused`, even if the
/// replies differ. A list that ends before the other differs from it at its end.
pub fn compare(ones: &[Reply<String>], others: &[Reply<String>]) -> Verdict
    ensures { Compares ones.now others.now result }
{
    let shorter = ones.len().min(others.len());
    for place in 0..shorter {
        let (one, other) = (&ones[place], &others[place]);
        if is_lacking(one) || is_lacking(other) {
            return Verdict::Refused(place);
        }
        if !is_same(one, other) {
            return Verdict::Differs(place);
        }
    }
    if ones.len() == others.len() {
        Verdict::Same
    } else {
        Verdict::Differs(shorter)
    }
}
