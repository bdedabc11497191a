//! Values, as rows tell them.

use std::alloc::Global;
use std::test::Fail;
use value_terms::{Base, Contribution, Value};

/// A base, and what is added to it, each time an operator, a task and a requirement.
pub type Written<'w> = (Base, &'w [(u32, u32, u32)]);

/// The value of a row.
pub fn value_of(alloc: Global, written: &Written<'_>) -> Result<Value, Fail> {
    let mut value = Value::of(alloc, written.0);
    for (op, task, req) in written.1 {
        let c = Contribution {
            task: *task,
            req: *req,
        };
        if value.weight() == u64::MAX || value.add(*op, c).is_err() {
            return Err("a value that is not added to".into());
        }
    }
    Ok(value)
}
