//! The tasks that use first places, and how many pairs of them interfere.

ghost use Rattle.std.specs.Prelude.{◌≡◌, ◌<◌, ◌^◌, IfOk, length};
ghost use Rattle.semantics.specs.Shown.{task_pairs};
ghost use Rattle.cell_races.specs.CellAccesses.{AreInOrder};
ghost use Rattle.task_order.specs.Gathered.{AreFirstCellAccesses};
ghost use Rattle.task_order.specs.Users.{AreTaskPlaces};

use crate::cells::users_of_cells;
use cell_races::CellAccess;
use log_laws::serial_order_lists;
use logs::Log;
use order_laws::{pairs_are_counted, tasks_agree_with_themselves};
use pair_rows::{Places, count_pairs};
use point_set::PointSet;
use std::alloc::{AllocError, Global};

/// The places at which tasks access first points, each with the tasks that use it: two items meet at some place exactly where they are tasks that interfere.
pub(crate) fn task_places<'a, P: PointSet + Copy>(
    alloc: Global,
    log: &Log<'a, P>,
    cell_accesses: &[CellAccess],
) -> Result<Places, AllocError>
    requires cell_accesses { AreFirstCellAccesses log.now cell_accesses.now }
    requires order { AreInOrder cell_accesses.now }
    ensures { IfOk result (AreTaskPlaces log.now) }
{
    log.is_declared();
    serial_order_lists();
    tasks_agree_with_themselves();
    pairs_are_counted();
    let places = users_of_cells(alloc, log.serial(), cell_accesses)?;
    Ok(places)
}

/// How many pairs of tasks interfere, by the places that tasks use.
pub(crate) fn count_task_pairs<'a, P: PointSet + Copy>(
    alloc: Global,
    log: &Log<'a, P>,
    places: &Places,
) -> Result<u64, AllocError>
    requires few { length log.now.items < 2 ^ 32 }
    requires places { AreTaskPlaces log.now places.now }
    ensures { IfOk result (λ n. n ≡ length (task_pairs log.now)) }
{
    pairs_are_counted();
    let count = count_pairs(alloc, places, log.items().len())?;
    Ok(count)
}
