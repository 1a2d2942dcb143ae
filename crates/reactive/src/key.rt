//! Handles of nodes.

ghost use Rattle.std.specs.Prelude.{Some};
ghost use Rattle.generational_core.specs.Texts.{id_text};

use generational_core::GenerationalBoxId;
use std::fmt;

/// A handle of a node: a source or a memo. It is `Copy`, owns nothing, and may outlive its node: it
/// never refers to a later one.
#[derive(Clone, Copy, PartialEq, Eq, PartialOrd, Ord, Hash, Debug)]
pub struct Key {
    pub(crate) id: GenerationalBoxId,
}

/// Prints `slot@generation`, both in decimal.
impl fmt::Display for Key {
    ghost output = { λ key. Some (id_text key.id) };

    fn fmt<W: fmt::Write>(&self, f: &mut fmt::Formatter<W>) -> fmt::Result {
        write!(f, "{:?}", self.id)
    }
}
