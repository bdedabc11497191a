ghost use Rattle.std.specs.Prelude.{◌≡◌, ℕ, List, map};
ghost use Rattle.std.specs.List.Sorted.{IsStrictlyIncreasing};
ghost use Rattle.point_set.specs.Rects.{rect_points, strip};
ghost use Rattle.point_set.specs.Runs.{AreApart, points_of, maximal_runs};

/// No maximal run touches the next, so that no other runs of the same points are fewer.
pub fn maximal_runs_are_apart()
    ensures { (points : List ℕ) → IsStrictlyIncreasing points → AreApart (maximal_runs points) }
{}

/// Runs in the first column have the points of the runs.
pub fn strips_have_the_points_of_runs()
    ensures { (runs : List (ℕ × ℕ)) → rect_points (map strip runs) ≡ points_of runs }
{}
