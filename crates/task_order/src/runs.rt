//! The node that runs each item.

ghost use Rattle.std.specs.Prelude.{◌≡◌, ◌+◌, ◌<◌, length, IfOk};
ghost use Rattle.task_order.specs.Runs.{AreRunsFrom, AreRunsOf};

use logs::Log;
use point_set::PointSet;
use semantics::{LogNode, Op};
use std::alloc::{AllocError, Global};

/// Notes the node at a position for the item that it runs, if it is a run.
fn note_run(runs: &mut [usize], nodes: &[LogNode], k: usize)
    requires within { k < length nodes.now }
    requires so_far { AreRunsFrom nodes.now (k + 1) runs.old }
    ensures each { length runs.new ≡ length runs.old }
    ensures runs { AreRunsFrom nodes.now k runs.new }
{
    match nodes[k].op {
        Op::Run { item } => {
            if item < runs.len() {
                runs[item] = k;
            }
        }
        _ => {}
    }
}

/// For each of so many items the first node that runs it, and the number of nodes where none does.
fn first_runs(alloc: Global, items: usize, nodes: &[LogNode]) -> Result<Vec<usize>, AllocError>
    ensures each { IfOk result (λ runs. length runs.items ≡ items) }
    ensures runs { IfOk result (λ runs. AreRunsFrom nodes.now 0 runs.items) }
{
    let mut runs = Vec::from_elem(alloc, nodes.len(), items)?;
    let mut k = nodes.len();
    while k > 0 {
        k -= 1;
        note_run(&mut runs, nodes, k);
    }
    Ok(runs)
}

/// For each item of a log the node that runs it.
pub(crate) fn runs_of<'a, P: PointSet + Copy>(
    alloc: Global,
    log: &Log<'a, P>,
) -> Result<Vec<usize>, AllocError>
    ensures { IfOk result (λ runs. AreRunsOf log.now runs.items) }
{
    let runs = first_runs(alloc, log.items().len(), log.nodes())?;
    Ok(runs)
}
