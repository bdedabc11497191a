ghost use Rattle.std.specs.Prelude.{◌≡◌, ◌^◌, ◌<◌, ◌↔◌, All, IsSome, IfSome};
ghost use Rattle.std.specs.List.Sorted.{IsStrictlyIncreasing};
ghost use Rattle.point_set.specs.Runs.{AreRuns, points_of, maximal_runs};

use crate::ascending::{gap_from, is_ascending, last, next_from};
use crate::runs::{run_at, run_count};
use crate::set::PointSet;
use crate::set_of_runs::SetOfRuns;

/// The points themselves, in an ascending slice, cut into runs that are as long as can be.
///
/// `has`, `first`, `next_from` and `gap_from` are binary searches, and `count` and `last` take one step. `run_count` takes one pass, and `run(k)` one up to the end of run `k`: asking for each of many runs in turn takes quadratic time, and going over the points by `next_from` does not.
#[derive(Clone, Copy)]
pub struct PointList<'a> {
    points: &'a [u64],
    // What the laws of `PointSet` say of each set.
    ghost ascends: { IsStrictlyIncreasing points.now },
    ghost bounded: { All (λ p. p < 2 ^ 64) points.now },
    ghost are_runs: { AreRuns (maximal_runs points.now) },
    ghost joined: { points_of (maximal_runs points.now) ≡ points.now },
}

impl<'a> PointList<'a> {
    /// The set of these points, or `None` if some point is not below the next.
    pub fn over(points: &'a [u64]) -> Option<PointList<'a>>
        ensures ascending { IsSome result ↔ IsStrictlyIncreasing points.now }
        ensures points { IfSome result (λ s. ⟦<PointList<'a> as PointSet>⟧.points s ≡ points.now) }
    {
        if is_ascending(points) {
            Some(PointList { points })
        } else {
            None
        }
    }
}

impl<'a> PointSet for PointList<'a> {
    ghost points = { λ s. s.points.now };

    ghost ascends = { λ s. s.ascends };

    ghost bounded = { λ s. s.bounded };

    fn count(&self) -> u128 {
        self.points.len() as u128
    }

    fn last(&self) -> Option<u64> {
        last(self.points)
    }

    fn next_from(&self, p: u64) -> Option<u64> {
        next_from(self.points, p)
    }

    fn gap_from(&self, p: u64) -> Option<u64> {
        gap_from(self.points, p)
    }
}

impl<'a> SetOfRuns for PointList<'a> {
    ghost runs = { λ s. maximal_runs s.points.now };

    ghost are_runs = { λ s. s.are_runs };

    ghost joined = { λ s. s.joined };

    fn run_count(&self) -> usize {
        run_count(self.points)
    }

    fn run(&self, k: usize) -> Option<(u64, u64)> {
        run_at(self.points, k)
    }
}
