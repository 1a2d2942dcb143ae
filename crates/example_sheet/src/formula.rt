//! What a node of a sheet computes of others.

ghost use Rattle.example_sheet.specs.Formulas.{plan_of};

use reactive::{Key, Reads, Rule};

/// What a node computes: nothing if a sum or a product is too large.
#[derive(Clone, Copy)]
pub enum Formula {
    Blank,
    Same(Key),
    Add(Key, Key),
    Mul(Key, Key),
}

impl Rule<u64> for Formula {
    ghost plan = { plan_of };

    fn compute<D: Reads<u64>>(&self, reader: &mut D) -> Option<u64> {
        match *self {
            Formula::Blank => None,
            Formula::Same(a) => reader.get(a),
            Formula::Add(a, b) => reader.get(a)?.checked_add(reader.get(b)?),
            Formula::Mul(a, b) => reader.get(a)?.checked_mul(reader.get(b)?),
        }
    }
}
