//! What folding a value in does to another.

ghost use Rattle.std.specs.Prelude.{◌≡◌};
ghost use Rattle.shared_values.specs.Foldings.{IsFolding};

use value_terms::{Base, Contribution, Value};

/// What folding a value in does to another.
pub enum Folding<'a> {
    /// It stays as it is.
    Nothing,
    /// These entries are added to it.
    Adds(&'a [(Contribution, u64)]),
    /// It is raw from then on.
    Spoils,
}

/// What folding the value in by an operator does: only the identity, alone or with one group of the operator, does not spoil.
pub fn folding_of(from: &Value, op: u32) -> Folding<'_>
    ensures { IsFolding op from.now result }
{
    let Base::Ident = from.base() else {
        return Folding::Spoils;
    };
    match from.groups() {
        [] => Folding::Nothing,
        [group] => {
            if group.op == op {
                Folding::Adds(group.bag.as_slice())
            } else {
                Folding::Spoils
            }
        }
        [_, _, ..] => Folding::Spoils,
    }
}
