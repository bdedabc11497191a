ghost use Rattle.std.specs.Prelude.{refl, ◌≡◌, ◌^◌, ◌<◌, ◌↔◌, All, IsSome, IfSome};
ghost use Rattle.std.specs.List.Sorted.{IsStrictlyIncreasing};
ghost use Rattle.point_set.specs.Runs.{AreRuns, points_of};

use crate::run_slice;
use crate::set::PointSet;
use crate::set_of_runs::SetOfRuns;

/// Runs of points in a slice, each a pair of its first and its last point. The set is cut into just these runs, two of which may touch.
///
/// What a call costs goes by the runs, however many points they hold. `has`, `first` and `next_from` are binary searches over the runs, and so is `gap_from`, but that it goes on over the runs that touch one another. `run` and `last` take one step, and `count` takes one pass over the runs.
#[derive(Clone, Copy)]
pub struct RunSet<'a> {
    runs: &'a [(u64, u64)],
    // What the laws of `PointSet` say of each set.
    ghost are_runs: { AreRuns runs.now },
    ghost ascends: { IsStrictlyIncreasing (points_of runs.now) },
    ghost bounded: { All (λ p. p < 2 ^ 64) (points_of runs.now) },
}

impl<'a> RunSet<'a> {
    /// The set of the points in these runs, or `None` if the first point of some run is after its last, or is not after the last point of the run before.
    pub fn over(runs: &'a [(u64, u64)]) -> Option<RunSet<'a>>
        ensures ordered { IsSome result ↔ AreRuns runs.now }
        ensures points { IfSome result (λ s. ⟦<RunSet<'a> as PointSet>⟧.points s ≡ points_of runs.now) }
        ensures runs { IfSome result (λ s. ⟦<RunSet<'a> as SetOfRuns>⟧.runs s ≡ runs.now) }
    {
        if run_slice::are_runs(runs) {
            Some(RunSet { runs })
        } else {
            None
        }
    }
}

impl<'a> PointSet for RunSet<'a> {
    ghost points = { λ s. points_of s.runs.now };

    ghost ascends = { λ s. s.ascends };

    ghost bounded = { λ s. s.bounded };

    fn has(&self, p: u64) -> bool {
        run_slice::has(self.runs, p)
    }

    fn count(&self) -> u128 {
        run_slice::count(self.runs)
    }

    fn last(&self) -> Option<u64> {
        run_slice::last(self.runs)
    }

    fn next_from(&self, p: u64) -> Option<u64> {
        run_slice::next_from(self.runs, p)
    }

    fn gap_from(&self, p: u64) -> Option<u64> {
        run_slice::gap_from(self.runs, p)
    }
}

impl<'a> SetOfRuns for RunSet<'a> {
    ghost runs = { λ s. s.runs.now };

    ghost are_runs = { λ s. s.are_runs };

    ghost joined = { λ s. refl };

    fn run_count(&self) -> usize {
        self.runs.len()
    }

    fn run(&self, k: usize) -> Option<(u64, u64)> {
        self.runs.get(k).copied()
    }
}
