//! Sets of points that lie in an arena.

ghost use Rattle.std.specs.Prelude.{◌≡◌, ◌+◌, ◌<◌, ◌↔◌, [], ◌∷◌, ◌++◌, length, OnOk, IfOk, IfNone, IfSome, IsTrue};
ghost use Rattle.point_set.specs.Runs.{AreRuns, points_of, run_points};
ghost use Rattle.arena_sets.specs.RunsFrom.{AreRunsFrom, BeginAs};

use crate::pieces;
use crate::set_of_rects::SetOfRects;
use bumpalo::Bump;
use bumpalo::collections::into_bump_slice;
use memory::Memory;
use point_set::{PointList, PointSet, RectSet, RunSet};

/// A set of points that is made from runs and told as rectangles, and lies in an arena as long as the arena is not reset.
pub trait ArenaSet<'a>: SetOfRects + Copy {
    /// The set of just the points of `runs`, each run a pair of its first and its last point.
    ///
    /// Each run has a point, and ends before the next begins. The only error is that memory ran out.
    fn place(bump: &'a Bump, runs: &[(u64, u64)]) -> Result<Self, Memory>
        requires { AreRuns runs.now }
        ensures { IfOk result (λ set. Self.points set ≡ points_of runs.now) };
}

/// Adds the points of one run.
fn push_run(points: &mut Vec<u64, &Bump>, first: u64, last: u64) -> Result<(), Memory>
    ensures { OnOk result (points.new.items ≡ points.old.items ++ run_points (first, last)) }
{
    for p in first..=last {
        points.push(p)?;
    }
    Ok(())
}

impl<'a> ArenaSet<'a> for PointList<'a> {
    fn place(bump: &'a Bump, runs: &[(u64, u64)]) -> Result<PointList<'a>, Memory> {
        let mut points = Vec::new(bump);
        for run in runs {
            push_run(&mut points, run.0, run.1)?;
        }
        match PointList::over(into_bump_slice(points)) {
            Some(set) => Ok(set),
            None => unreachable!(),
        }
    }
}

/// Whether `next` follows `last` with no number between them.
fn touches(last: u64, next: u64) -> bool
    ensures { IsTrue result ↔ (next ≡ last + 1) }
{
    last.checked_add(1) == Some(next)
}

/// The first run, with those after it that touch one another joined to it, and the runs after these.
fn cut_joined(runs: &[(u64, u64)]) -> Option<((u64, u64), &[(u64, u64)])>
    requires { AreRunsFrom 0 runs.now }
    ensures none { IfNone result (runs.now ≡ []) }
    ensures points { IfSome result (λ cut. points_of runs.now ≡ run_points cut.0 ++ points_of cut.1.now) }
    ensures order { IfSome result (λ cut. BeginAs runs.now (cut.0 ∷ cut.1.now)) }
    ensures shorter { IfSome result (λ cut. length cut.1.now < length runs.now) }
{
    let (first, mut rest) = runs.split_first()?;
    let mut last = first.1;
    while let Some((next, behind)) = rest.split_first()
        && touches(last, next.0)
    {
        last = next.1;
        rest = behind;
    }
    Some(((first.0, last), rest))
}

/// Joins runs that touch, so that each search among them counts once what a set has in a row.
impl<'a> ArenaSet<'a> for RunSet<'a> {
    fn place(bump: &'a Bump, runs: &[(u64, u64)]) -> Result<RunSet<'a>, Memory> {
        let mut joined = Vec::new(bump);
        let mut rest = runs;
        while let Some((run, behind)) = cut_joined(rest) {
            joined.push(run)?;
            rest = behind;
        }
        match RunSet::over(into_bump_slice(joined)) {
            Some(set) => Ok(set),
            None => unreachable!(),
        }
    }
}

impl<'a> ArenaSet<'a> for RectSet<'a> {
    fn place(bump: &'a Bump, runs: &[(u64, u64)]) -> Result<RectSet<'a>, Memory> {
        let mut rects = Vec::new(bump);
        for run in runs {
            pieces::push_run(&mut rects, run.0, run.1)?;
        }
        match RectSet::over(into_bump_slice(rects)) {
            Some(set) => Ok(set),
            None => unreachable!(),
        }
    }
}
