//! What a node does.

ghost use Rattle.std.specs.Prelude.{◌≡◌, ◌<◌, length};
ghost use Rattle.std.specs.List.{AllByRecursion};
ghost use Rattle.std.specs.List.Sorted.{IsStrictlyIncreasing};
ghost use Rattle.point_laws.specs.Cut.{cut};
ghost use Rattle.inst_steps.specs.Acting.{IsBy, IsOwn, steps_in};
ghost use Rattle.inst_steps.specs.Stepping.{moves_at};

use crate::iterator::{Actions, Steps};
use cut_logs::CutLog;
use logs::Log;
use point_set::PointSet;

/// What a node does of a log that may be cut, move by move: of a run all its reads, and then all its changes, each by requirement, point and field; of another operation by point and field. It passes over points that are not listed by searches, and takes no memory.
pub fn steps_of<'l, 'a, 'p, P: PointSet + Copy>(
    log: &CutLog<'l, 'a, 'p, P>,
    node: usize,
) -> Steps<'l, 'a, 'p, P>
    requires { node < length log.now.nodes }
    ensures { result ≡ moves_at log.now node }
{
    Steps {
        actions: Actions::of(log, node),
    }
}

/// The same, each move with the position of the requirement by which a run makes it: the one of the move's task and number, whose privilege allows the move in the cell that its view has there.
pub fn actions_of<'l, 'a, 'p, P: PointSet + Copy>(
    log: &CutLog<'l, 'a, 'p, P>,
    node: usize,
) -> Actions<'l, 'a, 'p, P>
    requires { node < length log.now.nodes }
    ensures steps { steps_in result ≡ moves_at log.now node }
    ensures by { AllByRecursion (IsBy log.now) result }
    ensures own { AllByRecursion (IsOwn log.now) result }
{
    Actions::of(log, node)
}

/// What a node does at all points.
pub fn steps<'l, 'a, P: PointSet + Copy>(log: &'l Log<'a, P>, node: usize) -> Steps<'l, 'a, 'l, P>
    requires { node < length log.now.nodes }
    ensures { result ≡ moves_at log.now node }
{
    let log = CutLog::whole(log);
    steps_of(&log, node)
}

/// What a node does at listed points.
pub fn steps_on<'l, 'a, 'p, P: PointSet + Copy>(
    log: &'l Log<'a, P>,
    node: usize,
    points: &'p [u64],
) -> Steps<'l, 'a, 'p, P>
    requires node { node < length log.now.nodes }
    requires ascend { IsStrictlyIncreasing points.now }
    ensures { result ≡ moves_at (cut points.now log.now) node }
{
    let log = CutLog::at(log, points);
    steps_of(&log, node)
}

/// The same, each move with its requirement.
pub fn actions_on<'l, 'a, 'p, P: PointSet + Copy>(
    log: &'l Log<'a, P>,
    node: usize,
    points: &'p [u64],
) -> Actions<'l, 'a, 'p, P>
    requires node { node < length log.now.nodes }
    requires ascend { IsStrictlyIncreasing points.now }
    ensures steps { steps_in result ≡ moves_at (cut points.now log.now) node }
    ensures by { AllByRecursion (IsBy log.now) result }
    ensures own { AllByRecursion (IsOwn log.now) result }
{
    let log = CutLog::at(log, points);
    actions_of(&log, node)
}
