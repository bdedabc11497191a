//! The listed waits of a log that others imply.

ghost use Rattle.std.specs.Prelude.{◌≡◌, IfOk, None, map, sum_by, length};
ghost use Rattle.findings.specs.Texts as texts;
ghost use Rattle.semantics.specs.declared.command.Command.TheVariants.{Spare};
ghost use Rattle.vocabulary.specs.Prelude.{graph_of, HasNoCycle};
ghost use Rattle.outcomes.specs.Outcome.{SpareFinds, events_of_wait};
ghost use Rattle.log_findings.specs.Findings.{IsFoundOf};
ghost use Rattle.log_findings.specs.Sorted.{AreSorted};

use crate::items::event_at;
use crate::node_order::{Sorting, Unsorted};
use crate::ordered::sort_log;
use crate::reports::{cycle_found, fault_found, spare_found};
use crate::serial::serial_fault;
use findings::{Finding, PairList};
use logs::Log;
use memory::Memory;
use reach_marks::Reach;
use region_tree::ArenaSet;
use semantics::{ListedWait, LogNode};
use spare_waits::spare;
use std::alloc::Global;

/// The events for which some nodes wait, list by list.
fn all_waits(alloc: Global, nodes: &[LogNode]) -> Result<Vec<u32>, Memory>
    ensures { IfOk result (λ all. length all.items ≡ sum_by (λ n. length n.waits) nodes.now) }
{
    let mut all = Vec::new(alloc);
    for node in nodes {
        all.extend_from_slice(node.waits.as_slice())?;
    }
    Ok(all)
}

/// How many waits some nodes list. Only a list of them all shows that the count has room in its type.
fn count_waits(alloc: Global, nodes: &[LogNode]) -> Result<u64, Memory>
    ensures { IfOk result (λ n. n ≡ sum_by (λ n. length n.waits) nodes.now) }
{
    let all = all_waits(alloc, nodes)?;
    Ok(all.len() as u64)
}

/// The event that a node lists in a place, and 0 where there is none.
fn event_listed<'a, P: ArenaSet<'a>>(log: &Log<'a, P>, wait: ListedWait) -> u32
    ensures { result ≡ (events_of_wait log.now wait).1 }
{
    match log.nodes().get(wait.node) {
        Some(node) => node.waits.as_slice().get(wait.k).copied().unwrap_or(0),
        None => 0,
    }
}

/// Listed waits of a log, by their events.
fn events_of<'a, P: ArenaSet<'a>>(
    alloc: Global,
    log: &Log<'a, P>,
    waits: &[ListedWait],
) -> Result<Vec<(u32, u32)>, Memory>
    ensures { IfOk result (λ list. list.items ≡ map (events_of_wait log.now) waits.now) }
{
    let mut list = Vec::with_capacity(alloc, waits.len())?;
    for wait in waits {
        list.push((event_at(log, wait.node), event_listed(log, *wait)))?;
    }
    Ok(list)
}

/// What `spare` finds in a log whose nodes are sorted.
fn waits_found<'a, P: ArenaSet<'a>>(
    alloc: Global,
    log: &Log<'a, P>,
    sorting: &Sorting,
) -> Result<Finding, Memory>
    requires { AreSorted (graph_of log.now.nodes) sorting.now }
    ensures found { IfOk result (SpareFinds log.now) }
    ensures text { IfOk result texts.Good }
{
    let waits = count_waits(alloc, log.nodes())?;
    let reach = Reach::build(alloc, &sorting.graph, &sorting.order)?;
    let list = spare(alloc, &sorting.graph, &sorting.order, &reach)?;
    let pairs = events_of(alloc, log, list.as_slice())?;
    Ok(spare_found(PairList::from_vec(pairs), waits))
}

/// What `spare` finds in a log, but for a fault of its serial order.
fn implied_found<'a, P: ArenaSet<'a>>(alloc: Global, log: &Log<'a, P>) -> Result<Finding, Memory>
    ensures found { IfOk result (SpareFinds log.now) }
    ensures text { IfOk result texts.Good }
{
    match sort_log(alloc, log) {
        Ok(sorting) => waits_found(alloc, log, &sorting),
        Err(Unsorted::Cycle(events)) => Ok(cycle_found(events)),
        Err(Unsorted::Memory) => Err(Memory),
    }
}

/// What `spare` finds in a log.
pub fn spare_finding<'a, P: ArenaSet<'a>>(
    alloc: Global,
    log: &Log<'a, P>,
) -> Result<Finding, Memory>
    ensures found { IfOk result (IsFoundOf Spare log.now) }
    ensures text { IfOk result texts.Good }
{
    match serial_fault(alloc, log) {
        Some(fault) => Ok(fault_found(fault.line, fault.code)),
        None => implied_found(alloc, log),
    }
}
