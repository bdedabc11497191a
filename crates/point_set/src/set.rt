ghost use Rattle.std.specs.Prelude.{◌≡◌, ℕ, ◌^◌, ◌<◌, ◌↔◌, List, length, All, Contains, IsTrue};
ghost use Rattle.std.specs.List.{Any};
ghost use Rattle.std.specs.List.Sorted.{IsStrictlyIncreasing};
ghost use Rattle.point_set.specs.Least.{IsLeastOf, IsGreatestOf, IsLeastFrom, IsLeastGap, IsLeastCommon, IsLeastOutside};

/// A set of points, which contracts see as the ascending list of them. No call takes memory.
///
/// What a call costs is for the implementation to say. Code that serves any set goes over its points by `first` and `next_from`, and over those that follow one another by `next_from` and `gap_from`.
pub trait PointSet: Sized {
    // The points, in ascending order.
    ghost points: { Self → List ℕ };

    /// Whether `p` is a point of the set.
    fn has(&self, p: u64) -> bool
        ensures { IsTrue result ↔ Contains (points self.now) p }
    {
        self.next_from(p) == Some(p)
    }

    /// How many points there are.
    fn count(&self) -> u128
        ensures { result ≡ length (points self.now) };

    /// The least point, or `None` of the empty set.
    fn first(&self) -> Option<u64>
        ensures { IsLeastOf (points self.now) result }
    {
        self.next_from(0)
    }

    /// The greatest point, or `None` of the empty set.
    fn last(&self) -> Option<u64>
        ensures { IsGreatestOf (points self.now) result };

    /// The least point from `p` on, or `None` if each point is below `p`.
    fn next_from(&self, p: u64) -> Option<u64>
        ensures { IsLeastFrom (points self.now) p result };

    /// The least number from `p` on that is no point, or `None` if each `u64` from `p` on is one.
    fn gap_from(&self, p: u64) -> Option<u64>
        ensures { IsLeastGap (points self.now) p result };

    /// Whether a point is in both sets.
    fn meets(&self, other: &Self) -> bool
        ensures { IsTrue result ↔ Any (Contains (points other.now)) (points self.now) }
    {
        self.first_common(other).is_some()
    }

    /// The least point that is in both sets, or `None` if there is none.
    ///
    /// Each step passes over a gap of either set. So it takes two searches for each run of the set that has fewer, where runs that touch count as one.
    fn first_common(&self, other: &Self) -> Option<u64>
        ensures { IsLeastCommon (points self.now) (points other.now) result }
    {
        let mut from = 0;
        loop {
            let Some(ours) = self.next_from(from) else {
                return None;
            };
            let Some(theirs) = other.next_from(ours) else {
                return None;
            };
            if theirs == ours {
                return Some(ours);
            }
            from = theirs;
        }
    }

    /// The least point that is not in `other`, or `None` if there is none.
    ///
    /// Each step passes over a run of `other` and a gap of both sets. So it takes two searches for each run of the set that has fewer, where runs that touch count as one.
    fn outside(&self, other: &Self) -> Option<u64>
        ensures { IsLeastOutside (points self.now) (points other.now) result }
    {
        let mut from = 0;
        loop {
            let Some(ours) = self.next_from(from) else {
                return None;
            };
            let Some(gap) = other.gap_from(ours) else {
                return None;
            };
            if gap == ours {
                return Some(ours);
            }
            from = gap;
        }
    }

    /// Whether each point is in `other` too.
    fn within(&self, other: &Self) -> bool
        ensures { IsTrue result ↔ All (Contains (points other.now)) (points self.now) }
    {
        self.outside(other).is_none()
    }

    // Each point is below the next.
    ghost ascends: { (s : Self) → IsStrictlyIncreasing (points s) };

    ghost bounded: { (s : Self) → All (λ p. p < 2 ^ 64) (points s) };
}
