//! Whether the tasks of a log that interfere are run in serial order.

ghost use Rattle.std.specs.Prelude.{◌≡◌, IfOk, IfErr, None};
ghost use Rattle.findings.specs.Texts as texts;
ghost use Rattle.semantics.specs.declared.command.Command.TheVariants.{Ordered};
ghost use Rattle.vocabulary.specs.Prelude.{graph_of, HasNoCycle};
ghost use Rattle.outcomes.specs.Outcome.{OrderedFinds};
ghost use Rattle.log_findings.specs.Findings.{IsFoundOf};
ghost use Rattle.log_findings.specs.Sorted.{AreSorted, IsUnsorted};

use crate::items::{ids_by_serial, task_count};
use crate::node_order::{Sorting, Unsorted, sorting_of};
use crate::reports::{cycle_found, fault_found, ordered_found, unordered_found};
use crate::serial::serial_fault;
use findings::Finding;
use logs::Log;
use memory::Memory;
use region_tree::ArenaSet;
use std::alloc::Global;
use task_order::{SortedNodes, TaskOrder, task_order};

/// What `ordered` finds in a log whose nodes are sorted, of which none is on a cycle.
fn tasks_found<'a, P: ArenaSet<'a>>(
    alloc: Global,
    log: &Log<'a, P>,
    sorting: &Sorting,
) -> Result<Finding, Memory>
    requires no_cycle { HasNoCycle log.now }
    requires sorted { AreSorted (graph_of log.now.nodes) sorting.now }
    ensures found { IfOk result (OrderedFinds log.now) }
    ensures text { IfOk result texts.Good }
{
    log.is_declared();
    let sorted = SortedNodes {
        graph: &sorting.graph,
        order: &sorting.order,
    };
    match task_order(alloc, log, &sorted) {
        Ok(TaskOrder::Kept { pairs }) => Ok(ordered_found(task_count(log), pairs)),
        Ok(TaskOrder::Unordered { a, b, place }) => {
            let (t, u) = ids_by_serial(log, a, b);
            Ok(unordered_found(t, u, place))
        }
        Err(_) => Err(Memory),
    }
}

/// The nodes of a log sorted, or the cycle that is shown.
pub fn sort_log<'a, P: ArenaSet<'a>>(alloc: Global, log: &Log<'a, P>) -> Result<Sorting, Unsorted>
    ensures sorted { IfOk result (AreSorted (graph_of log.now.nodes)) }
    ensures unsorted { IfErr result (IsUnsorted (graph_of log.now.nodes)) }
{
    log.is_declared();
    sorting_of(alloc, log.nodes())
}

/// What `ordered` finds in a log, but for a fault of its serial order.
fn order_found<'a, P: ArenaSet<'a>>(alloc: Global, log: &Log<'a, P>) -> Result<Finding, Memory>
    ensures found { IfOk result (OrderedFinds log.now) }
    ensures text { IfOk result texts.Good }
{
    match sort_log(alloc, log) {
        Ok(sorting) => tasks_found(alloc, log, &sorting),
        Err(Unsorted::Cycle(events)) => Ok(cycle_found(events)),
        Err(Unsorted::Memory) => Err(Memory),
    }
}

/// What `ordered` finds in a log.
pub fn ordered_finding<'a, P: ArenaSet<'a>>(
    alloc: Global,
    log: &Log<'a, P>,
) -> Result<Finding, Memory>
    ensures found { IfOk result (IsFoundOf Ordered log.now) }
    ensures text { IfOk result texts.Good }
{
    match serial_fault(alloc, log) {
        Some(fault) => Ok(fault_found(fault.line, fault.code)),
        None => order_found(alloc, log),
    }
}
