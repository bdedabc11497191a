//! From a number back to its base, and the value that the steps make.

ghost use Rattle.std.specs.Prelude.{◌≡◌, ◌<◌, [], length, IfOk};
ghost use Rattle.value_terms.specs.Values.{plain};
ghost use Rattle.shared_values.specs.Arenas.{value_at, built, after, AreFit, StepsFit, IsNodeAt};

use crate::node::{Node, Step};
use std::alloc::{AllocError, Global};
use value_terms::{Base, Contribution, Memory, Value};

/// A base, and the steps that were added to it, the last first.
#[derive(Drop)]
pub struct Way {
    /// Where the way begins.
    pub base: Base,
    /// What was added to it.
    pub steps: Vec<Step>,
}

/// The node at a place.
pub fn node_at(nodes: &[Node], at: usize) -> Node
    requires fit { AreFit [] nodes.now }
    requires known { at < length nodes.now }
    ensures { IsNodeAt (built [] nodes.now) at result }
{
    nodes[at]
}

/// The way from a number back to its base.
pub fn way_back(alloc: Global, nodes: &[Node], id: usize) -> Result<Way, AllocError>
    requires fit { AreFit [] nodes.now }
    requires known { id < length nodes.now }
    ensures is { IfOk result (λ w. after w.steps.items (plain w.base)
        ≡ value_at (built [] nodes.now) id) }
    ensures fit { IfOk result (λ w. StepsFit w.steps.items (plain w.base)) }
{
    let mut steps = Vec::new(alloc);
    let mut at = id;
    loop {
        match node_at(nodes, at) {
            Node::Start(base) => {
                return Ok(Way { base, steps });
            }
            Node::More(step) => {
                steps.push(step)?;
                at = step.before;
            }
            Node::Folded(fold) => {
                at = fold.result;
            }
        }
    }
}

/// The value at the end of a way.
pub fn rebuilt(alloc: Global, way: Way) -> Result<Value, Memory>
    requires { StepsFit way.steps.items (plain way.base) }
    ensures { IfOk result (λ v. v ≡ after way.steps.items (plain way.base)) }
{
    let mut value = Value::of(alloc, way.base);
    let mut steps = way.steps;
    while let Some(step) = steps.pop() {
        let c = Contribution {
            task: step.task,
            req: step.req,
        };
        value.add_many(step.op, c, step.n)?;
    }
    Ok(value)
}
