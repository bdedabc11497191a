//! What changes make of a value.

ghost use Rattle.std.specs.Prelude.{◌≡◌, ◌+◌, ◌-◌, ◌<◌, ◌≤◌, ◌^◌, IfOk};
ghost use Rattle.value_terms.specs.declared.terms.Base.TheVariants as bases;
ghost use Rattle.vocabulary.specs.Prelude.{plain, weight_of};
ghost use Rattle.serial_exec.specs.Changes.{after_changes, acted_by};

use crate::change::{Action, Change};
use std::alloc::Global;
use value_terms::{Base, Memory, Value};

/// What was put last, and the changes since.
pub(crate) fn latest(changes: &[Change]) -> (Base, &[Change])
    ensures { after_changes changes.now (plain bases.Init) ≡ after_changes result.1.now (plain result.0) }
{
    let mut from = changes.len();
    while from > 0 {
        if let Action::Put(base) = changes[from - 1].action {
            return (base, &changes[from..]);
        }
        from -= 1;
    }
    (Base::Init, changes)
}

/// What a change makes of a value.
#[tactic(auto, using(value_terms::proofs::lemmas::Sums::weight_added))]
fn apply(alloc: Global, value: Value, change: Change) -> Result<Value, Memory>
    requires { weight_of value < 2 ^ 64 - 1 }
    ensures value { IfOk result (λ v. v ≡ acted_by change.action value) }
    ensures weight { IfOk result (λ v. weight_of v ≤ weight_of value + 1) }
{
    match change.action {
        Action::Put(base) => Ok(Value::of(alloc, base)),
        Action::Add { op, by } => {
            let mut more = value;
            more.add(op, by)?;
            Ok(more)
        }
    }
}

/// What changes make of a base, one after the other.
pub(crate) fn sum_of(alloc: Global, base: Base, changes: &[Change]) -> Result<Value, Memory>
    ensures { IfOk result (λ v. v ≡ after_changes changes.now (plain base)) }
{
    let mut value = Value::of(alloc, base);
    for change in changes {
        value = apply(alloc, value, *change)?;
    }
    Ok(value)
}
