//! Two values, compared by what was added to the last one from which both came.

ghost use Rattle.std.specs.Prelude.{◌≡◌, ◌<◌, [], true, length, IfOk, IfSome};
ghost use Rattle.shared_values.specs.Arenas.{value_at, built, AreFit};
ghost use Rattle.std.specs.List.Sorted.{IsPermutation};
ghost use Rattle.shared_values.specs.Summing.{IsStepBy, AreSums, entry_of};

use crate::node::{Entry, Node, Step};
use crate::walk::node_at;
use std::alloc::{AllocError, Global};

/// What was added to one value on two ways.
#[derive(Drop)]
pub struct Sums {
    /// The number of the value to which it was added.
    pub at: usize,
    /// What was added on one way, the last first.
    pub one: Vec<Entry>,
    /// What was added on the other.
    pub other: Vec<Entry>,
}

/// The step at a place, if it adds by this operator.
fn step_by(nodes: &[Node], op: u32, at: usize) -> Option<Step>
    requires fit { AreFit [] nodes.now }
    requires known { at < length nodes.now }
    ensures { IfSome result (λ s. IsStepBy (built [] nodes.now) op at s) }
{
    match node_at(nodes, at) {
        Node::More(step) => {
            if step.op == op {
                return Some(step);
            }
            None
        }
        Node::Start(_) | Node::Folded(_) => None,
    }
}

/// What a step adds.
fn entry_by(step: Step) -> Entry
    ensures { result ≡ entry_of step }
{
    Entry {
        task: step.task,
        req: step.req,
        n: step.n,
    }
}

/// What was added to the last common value, if all by one operator. A number is above that of what it was made from, so the larger one steps back.
fn gathered(
    alloc: Global,
    nodes: &[Node],
    op: u32,
    a: usize,
    b: usize,
) -> Result<Option<Sums>, AllocError>
    requires fit { AreFit [] nodes.now }
    requires first { a < length nodes.now }
    requires second { b < length nodes.now }
    ensures { IfOk result (λ found. IfSome found (λ s. AreSums (built [] nodes.now) op a b s)) }
{
    let mut one = Vec::new(alloc);
    let mut other = Vec::new(alloc);
    let mut x = a;
    let mut y = b;
    while x != y {
        if y < x {
            let Some(step) = step_by(nodes, op, x) else {
                return Ok(None);
            };
            one.push(entry_by(step))?;
            x = step.before;
        } else {
            let Some(step) = step_by(nodes, op, y) else {
                return Ok(None);
            };
            other.push(entry_by(step))?;
            y = step.before;
        }
    }
    Ok(Some(Sums { at: x, one, other }))
}

/// Whether two lists hold the same, in whatever order.
fn same_entries(one: Vec<Entry>, other: Vec<Entry>) -> Result<bool, AllocError>
    ensures { IfOk result (λ same. same ≡ true → IsPermutation one.items other.items) }
{
    if one.len() != other.len() {
        return Ok(false);
    }
    let mut xs = one;
    let mut ys = other;
    xs.sort()?;
    ys.sort()?;
    Ok(xs.as_slice() == ys.as_slice())
}

/// Whether two numbers are seen to stand for equal values by what was added to a common one.
pub fn same_sums(alloc: Global, nodes: &[Node], a: usize, b: usize) -> Result<bool, AllocError>
    requires fit { AreFit [] nodes.now }
    requires first { a < length nodes.now }
    requires second { b < length nodes.now }
    ensures { IfOk result (λ same. same ≡ true
        → value_at (built [] nodes.now) a ≡ value_at (built [] nodes.now) b) }
{
    let last = if a < b { b } else { a };
    let Node::More(step) = node_at(nodes, last) else {
        return Ok(false);
    };
    let Some(sums) = gathered(alloc, nodes, step.op, a, b)? else {
        return Ok(false);
    };
    let same = same_entries(sums.one, sums.other)?;
    Ok(same)
}
