//! Whether two tasks are run in serial order.

ghost use Rattle.std.specs.Prelude.{◌↔◌, ◌<◌, List, length, IsTrue};
ghost use Rattle.vocabulary.specs.Prelude.{Node, Before};
ghost use Rattle.semantics.specs.Shown.{IsKept};
ghost use Rattle.reach_marks.specs.Reached.{AreMarksOf};
ghost use Rattle.task_order.specs.Rows.{IsSchedule};

use logs::Log;
use point_set::PointSet;
use reach_marks::Reach;

/// What a question about two tasks goes by: their log, which nodes are before which, the node that runs each item, and items so that every two others that interfere are run in serial order.
#[derive(Clone, Copy)]
pub(crate) struct Schedule<'l, 'a, P: PointSet + Copy> {
    pub(crate) log: &'l Log<'a, P>,
    pub(crate) reach: &'l Reach,
    pub(crate) runs: &'l [usize],
    pub(crate) unordered: &'l [bool],
}

/// Whether a node is before another, where there are both.
fn is_before(reach: &Reach, a: usize, b: usize) -> bool
    ensures { (nodes : List Node) → AreMarksOf nodes reach.now → IsTrue result ↔ Before nodes a b }
{
    if a >= reach.len() || b >= reach.len() {
        return false;
    }
    reach.before(a, b)
}

/// Whether the run of the task that is earlier in serial order is before that of the other.
pub(crate) fn is_kept<'a, P: PointSet + Copy>(
    schedule: &Schedule<'_, 'a, P>,
    a: usize,
    b: usize,
) -> bool
    requires a { a < length schedule.now.log.now.items }
    requires b { b < length schedule.now.log.now.items }
    requires schedule { IsSchedule schedule.now }
    ensures { IsTrue result ↔ IsKept schedule.now.log.now (a, b) }
{
    let runs = schedule.runs;
    if schedule.log.serial_place(b) < schedule.log.serial_place(a) {
        is_before(schedule.reach, runs[b], runs[a])
    } else {
        is_before(schedule.reach, runs[a], runs[b])
    }
}
