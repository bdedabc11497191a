ghost use Rattle.std.specs.Prelude.{◌≡◌, ℕ, List, length, slice_get};
ghost use Rattle.point_set.specs.Runs.{AreRuns, points_of};

use crate::set::PointSet;

/// A set of points that is cut into runs of consecutive numbers. Where to cut is for the implementation to choose, so two runs may touch. No call takes memory.
pub trait SetOfRuns: PointSet {
    // The runs, each a pair of its first and its last point, in ascending order.
    ghost runs: { Self → List (ℕ × ℕ) };

    /// How many runs there are.
    fn run_count(&self) -> usize
        ensures { result ≡ length (runs self.now) };

    /// The first and the last point of run `k`, from 0, or `None` past the last run.
    fn run(&self, k: usize) -> Option<(u64, u64)>
        ensures { result ≡ slice_get (runs self.now) k };

    // Each run has a point, and ends before the next begins.
    ghost are_runs: { (s : Self) → AreRuns (runs s) };

    // The runs hold each point once, and no other number.
    ghost joined: { (s : Self) → points_of (runs s) ≡ Self.points s };
}
