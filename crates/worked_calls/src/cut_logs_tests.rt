//! Sets and logs that are cut to listed points, and sets and logs at all of their points.

use crate::framed_logs::log_of;
use bumpalo::Bump;
use cut_logs::CutLog;
use inst_steps::{Store, actions_of, steps_of};
use listed_sets::Listed;
use point_set::{PointList, PointSet, RunSet, points_in};
use semantics::Cell;
use std::alloc::Global;
use std::process::Abort;
use std::test::Fail;

/// Asks a set of the points 2, 3 and 7, where all count and where some are listed.
fn ask<P: PointSet>(rt: &impl Abort, set: &P) {
    let all = Listed::at(set, None);
    assert_eq!(rt; all.next_from(2), Some(2));
    assert_eq!(rt; all.next_from(4), Some(7));
    assert_eq!(rt; all.gap_from(2), Some(4));
    assert_eq!(rt; all.count(), 3);
    assert_eq!(rt; all.last(), Some(7));
    let listed = Listed::at(set, Some(&[0, 3, 5]));
    assert_eq!(rt; listed.next_from(0), Some(3));
    assert_eq!(rt; listed.next_from(4), None);
    assert_eq!(rt; listed.gap_from(3), Some(4));
    assert_eq!(rt; listed.gap_from(7), Some(7));
    assert_eq!(rt; listed.count(), 1);
    assert_eq!(rt; listed.last(), Some(3));
}

#[test]
fn sets_at_listed_points(rt: HostRuntime) -> Result<(), Fail> {
    ask(&rt, &PointList::over(&[2, 3, 7]).ok_or("points ascend")?);
    ask(
        &rt,
        &RunSet::over(&[(2, 3), (7, 7)]).ok_or("runs in order")?,
    );
    Ok(())
}

/// A task that reads and writes space 2, whose points are 0 to 4.
const RECORDS: &[u8] = b"task 1\nreq 1 1 2 1 rw ex\ninst 1 1 1 1 home\nmap 1 1 1 1\n";

/// How many points a set gives.
fn point_count<P: PointSet>(set: &P) -> usize {
    let mut count = 0usize;
    for _ in points_in(set) {
        count = count.wrapping_add(1);
    }
    count
}

/// How many moves node 0 of a log makes, told by its steps and by its actions.
fn move_counts<P: PointSet + Copy>(log: &CutLog<'_, '_, '_, P>) -> (usize, usize) {
    let mut steps = 0usize;
    let mut actions = 0usize;
    if log.nodes().len() > 0 {
        for _ in steps_of(log, 0) {
            steps = steps.wrapping_add(1);
        }
        for _ in actions_of(log, 0) {
            actions = actions.wrapping_add(1);
        }
    }
    (steps, actions)
}

/// Whether space 2 of a log has so many points, the task at node 0 makes so many moves there, and an instance has a cell at the last of these points, and at point 1 only if the log is not cut.
fn has_points<P: PointSet + Copy>(
    alloc: Global,
    log: &CutLog<'_, '_, '_, P>,
    points: usize,
    moves: usize,
    is_whole: bool,
) -> bool {
    let Some(set) = log.set(2) else {
        return false;
    };
    let Ok(store) = Store::start_of(alloc, log) else {
        return false;
    };
    let cell = |point| Cell {
        inst: 1,
        point,
        field: 1,
    };
    point_count(&set) == points
        && move_counts(log) == (moves, moves)
        && store.number(&cell(4)).is_some()
        && store.number(&cell(1)).is_some() == is_whole
}

/// Whether a log has all of its points, and one that is cut has those that are listed.
fn is_as_wanted<'a>(alloc: Global, bump: &'a Bump) -> Result<bool, Fail> {
    let log = log_of(alloc, bump, RECORDS, 1)?;
    let all = has_points(alloc, &CutLog::whole(&log), 5, 10, true);
    let some = has_points(alloc, &CutLog::at(&log, &[0, 4, 7]), 2, 4, false);
    log.let_go();
    Ok(all && some)
}

#[test]
fn logs_at_listed_points(rt: HostRuntime) -> Result<(), Fail> {
    let bump = Bump::new(rt.alloc());
    assert!(rt; is_as_wanted(rt.alloc(), &bump)?);
    Ok(())
}
