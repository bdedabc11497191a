//! Whether the tasks of a log that interfere are run in serial order, or the first two that are not.

ghost use Rattle.std.specs.Prelude.{◌≡◌, ℕ, ◌<◌, ◌^◌, length, true, false, IfOk, IsTrue, Some};
ghost use Rattle.vocabulary.specs.Prelude.{graph_of, least_place};
ghost use Rattle.semantics.specs.Shown.{AreKept};
ghost use Rattle.event_graph.specs.Orders.{IsOrderOf};
ghost use Rattle.cell_races.specs.Turns.{is_noted};
ghost use Rattle.order_laws.specs.Turns.{do_interfere};
ghost use Rattle.task_order.specs.Users.{AreTaskPlaces};
ghost use Rattle.task_order.specs.Rows.{IsSchedule};
ghost use Rattle.task_order.specs.Searched.{IsTaskOrder};

use crate::kept::Schedule;
use crate::least::first_unkept;
use crate::runs::runs_of;
use crate::scan::{are_kept_by_waits, unordered_tasks};
use crate::task_cell_accesses::cell_accesses_of_tasks;
use crate::tasks::{count_task_pairs, task_places};
use cell_races::SortedNodes;
use logs::Log;
use memory::Memory;
use order_laws::first_pair_is_shown;
use pair_rows::Places;
use point_kinds::FirstPoints;
use point_set::PointSet;
use reach_marks::Reach;
use region_tree::ArenaSet;
use semantics::Place;
use std::alloc::Global;

/// Whether every two tasks that interfere are run in serial order.
#[derive(Clone, Copy, PartialEq, Eq)]
pub enum TaskOrder {
    /// They are, and so many pairs interfere.
    Kept { pairs: u64 },
    /// The first two, by their positions, that are not, and the least place at which they interfere.
    Unordered { a: usize, b: usize, place: Place },
}

/// What is said where all are run in serial order.
fn kept_order<'a, P: PointSet + Copy>(
    alloc: Global,
    log: &Log<'a, P>,
    places: &Places,
) -> Result<TaskOrder, Memory>
    requires few { length log.now.items < 2 ^ 32 }
    requires places { AreTaskPlaces log.now places.now }
    requires kept { AreKept log.now }
    ensures { IfOk result (IsTaskOrder log.now) }
{
    let pairs = count_task_pairs(alloc, log, places)?;
    Ok(TaskOrder::Kept { pairs })
}

/// The least place at which two tasks that interfere do so.
fn place_between<'a, P: PointSet + Copy>(
    alloc: Global,
    log: &Log<'a, P>,
    a: usize,
    b: usize,
) -> Result<Place, Memory>
    requires a { a < length log.now.items }
    requires b { b < length log.now.items }
    requires interfere { do_interfere log.now a b ≡ true }
    ensures { IfOk result (λ place. least_place log.now a b ≡ Some place) }
{
    let asked = log.uses(alloc)?;
    let uses = asked.items();
    match uses[a].interference(&uses[b]).place {
        Some(place) => Ok(place),
        None => unreachable!(),
    }
}

/// Whether no item is noted.
fn none_noted(noted: &[bool]) -> bool
    ensures { IsTrue result → (item : ℕ) → is_noted noted.now item ≡ false }
{
    for flag in noted {
        if *flag {
            return false;
        }
    }
    true
}

/// What is said where a pair is looked for.
fn order_by_rows<'a, P: PointSet + Copy>(
    alloc: Global,
    schedule: &Schedule<'_, 'a, P>,
    places: &Places,
) -> Result<TaskOrder, Memory>
    requires few { length schedule.now.log.now.items < 2 ^ 32 }
    requires schedule { IsSchedule schedule.now }
    requires places { AreTaskPlaces schedule.now.log.now places.now }
    ensures { IfOk result (IsTaskOrder schedule.now.log.now) }
{
    first_pair_is_shown();
    let log = schedule.log;
    match first_unkept(alloc, schedule, places)? {
        Some((a, b)) => {
            let place = place_between(alloc, log, a, b)?;
            Ok(TaskOrder::Unordered { a, b, place })
        }
        None => kept_order(alloc, log, places),
    }
}

/// What is said of the tasks that use places. Where none is noted, no pair is looked for.
fn order_of_tasks<'a, P: PointSet + Copy>(
    alloc: Global,
    schedule: &Schedule<'_, 'a, P>,
    places: &Places,
) -> Result<TaskOrder, Memory>
    requires few { length schedule.now.log.now.items < 2 ^ 32 }
    requires schedule { IsSchedule schedule.now }
    requires places { AreTaskPlaces schedule.now.log.now places.now }
    ensures { IfOk result (IsTaskOrder schedule.now.log.now) }
{
    first_pair_is_shown();
    if none_noted(schedule.unordered) {
        kept_order(alloc, schedule.log, places)
    } else {
        order_by_rows(alloc, schedule, places)
    }
}

/// Whether every two tasks of a log that interfere are run in serial order. Marks of all nodes are made only where no waits are found that show that all are.
pub fn task_order<'a, P: ArenaSet<'a>>(
    alloc: Global,
    log: &Log<'a, P>,
    sorted: &SortedNodes<'_>,
) -> Result<TaskOrder, Memory>
    requires few { length log.now.items < 2 ^ 32 }
    requires graph { sorted.now.graph.now ≡ graph_of log.now.nodes }
    requires replayed { IsOrderOf sorted.now.graph.now sorted.now.order.now }
    ensures { IfOk result (IsTaskOrder log.now) }
{
    let firsts = FirstPoints::of(alloc, log)?;
    let runs = runs_of(alloc, log)?;
    let cell_accesses = cell_accesses_of_tasks(alloc, log, firsts.as_slice())?;
    let places = task_places(alloc, log, &cell_accesses)?;
    let kept = are_kept_by_waits(alloc, log, sorted, &runs, &cell_accesses)?;
    if kept {
        return kept_order(alloc, log, &places);
    }
    let reach = Reach::build(alloc, sorted.graph, sorted.order)?;
    let unordered = unordered_tasks(alloc, log, &reach, &runs, &cell_accesses)?;
    let schedule = Schedule {
        log,
        reach: &reach,
        runs: &runs,
        unordered: &unordered,
    };
    order_of_tasks(alloc, &schedule, &places)
}
