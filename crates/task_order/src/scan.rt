//! Whether tasks that interfere are run in serial order.

ghost use Rattle.std.specs.Prelude.{◌≡◌, ℕ, ◌<◌, All, IfOk, IsTrue, length};
ghost use Rattle.vocabulary.specs.Prelude.{graph_of};
ghost use Rattle.semantics.specs.Shown.{AreKept};
ghost use Rattle.event_graph.specs.Orders.{IsOrderOf};
ghost use Rattle.semantics.specs.SerialOrder.{serial, serial_place};
ghost use Rattle.reach_marks.specs.Reached.{AreMarksOf};
ghost use Rattle.cell_races.specs.CellAccesses.{AreInOrder};
ghost use Rattle.cell_races.specs.Turns.{IsMarked, is_noted};
ghost use Rattle.order_laws.specs.Turns.{AreKeptBut, ListsItems};
ghost use Rattle.task_order.specs.Gathered.{AreFirstCellAccesses, in_order};
ghost use Rattle.task_order.specs.Runs.{AreRunsOf};

use cell_races::{CellAccess, SortedNodes, are_in_turn_by_waits, unordered_places};
use log_laws::serial_order_lists;
use logs::Log;
use order_laws::places_tell_of_tasks;
use point_set::PointSet;
use reach_marks::{Reach, before_is_transitive};
use std::alloc::{AllocError, Global};

/// The law of the serial order of a log. There is nothing to do.
fn lists_items<'a, P: PointSet + Copy>(log: &Log<'a, P>)
    ensures { ListsItems log.now }
{
    log.is_declared();
    serial_order_lists();
}

/// The node that runs each item, in serial order.
fn runs_in_order<'a, P: PointSet + Copy>(
    alloc: Global,
    log: &Log<'a, P>,
    runs: &[usize],
) -> Result<Vec<usize>, AllocError>
    requires { All (λ item. item < length runs.now) (serial log.now) }
    ensures { IfOk result (λ v. v.items ≡ in_order runs.now log.now) }
{
    let mut order = Vec::new(alloc);
    for item in log.serial() {
        order.push(runs[*item])?;
    }
    Ok(order)
}

/// Whether waits are found that show that every two tasks that interfere are run in serial order, from what tasks do at first points alone.
pub(crate) fn are_kept_by_waits<'a, P: PointSet + Copy>(
    alloc: Global,
    log: &Log<'a, P>,
    sorted: &SortedNodes<'_>,
    runs: &[usize],
    cell_accesses: &[CellAccess],
) -> Result<bool, AllocError>
    requires graph { sorted.now.graph.now ≡ graph_of log.now.nodes }
    requires replayed { IsOrderOf sorted.now.graph.now sorted.now.order.now }
    requires runs { AreRunsOf log.now runs.now }
    requires cell_accesses { AreFirstCellAccesses log.now cell_accesses.now }
    requires order { AreInOrder cell_accesses.now }
    ensures { IfOk result (λ kept. IsTrue kept → AreKept log.now) }
{
    lists_items(log);
    places_tell_of_tasks();
    let _linked = sorted.graph.len();
    let _placed = sorted.order.places();
    let order = runs_in_order(alloc, log, runs)?;
    let turned = are_in_turn_by_waits(alloc, sorted, &order, cell_accesses)?;
    Ok(turned)
}

/// Whether what is done is done by nodes that are marked.
fn are_marked(reach: &Reach, order: &[usize], cell_accesses: &[CellAccess]) -> bool
    ensures { IsTrue result → All (IsMarked order.now reach.now) cell_accesses.now }
{
    for cell_access in cell_accesses {
        let place = cell_access.place;
        if place >= order.len() {
            return false;
        }
        if order[place] >= reach.len() {
            return false;
        }
    }
    true
}

/// For each item whether its place in serial order is noted.
fn items_noted<'a, P: PointSet + Copy>(
    alloc: Global,
    log: &Log<'a, P>,
    noted: &[bool],
) -> Result<Vec<bool>, AllocError>
    requires places { (item : ℕ) → item < length log.now.items
        → serial_place log.now item < length noted.now }
    ensures each { IfOk result (λ v. length v.items ≡ length log.now.items) }
    ensures items { IfOk result (λ v. (item : ℕ) → item < length log.now.items
        → is_noted v.items item ≡ is_noted noted.now (serial_place log.now item)) }
{
    let count = log.items().len();
    let mut items = Vec::with_capacity(alloc, count)?;
    for item in 0..count {
        items.push(noted[log.serial_place(item)])?;
    }
    Ok(items)
}

/// For each item whether it is noted as a task that is not in turn, from what tasks do at first points alone: every two tasks that interfere, neither of which is noted, are run in serial order. One pass over what they do.
pub(crate) fn unordered_tasks<'a, P: PointSet + Copy>(
    alloc: Global,
    log: &Log<'a, P>,
    reach: &Reach,
    runs: &[usize],
    cell_accesses: &[CellAccess],
) -> Result<Vec<bool>, AllocError>
    requires marks { AreMarksOf (graph_of log.now.nodes) reach.now }
    requires runs { AreRunsOf log.now runs.now }
    requires cell_accesses { AreFirstCellAccesses log.now cell_accesses.now }
    requires order { AreInOrder cell_accesses.now }
    ensures each { IfOk result (λ unordered. length unordered.items ≡ length log.now.items) }
    ensures kept { IfOk result (λ unordered. AreKeptBut log.now (is_noted unordered.items)) }
{
    lists_items(log);
    before_is_transitive();
    places_tell_of_tasks();
    let order = runs_in_order(alloc, log, runs)?;
    if !are_marked(reach, &order, cell_accesses) {
        let all = Vec::from_elem(alloc, true, log.items().len())?;
        return Ok(all);
    }
    let noted = unordered_places(alloc, reach, &order, cell_accesses)?;
    let items = items_noted(alloc, log, &noted)?;
    Ok(items)
}
