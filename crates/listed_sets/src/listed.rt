ghost use Rattle.std.specs.Prelude.{◌≡◌, ◌^◌, ◌<◌, All, ⊤};
ghost use Rattle.std.proofs.Props.{props};
ghost use Rattle.std.specs.List.Sorted.{IsStrictlyIncreasing};
ghost use Rattle.point_laws.specs.Cut.{kept};
ghost use Rattle.listed_sets.specs.Listed.{IsAscending, listed_of};

use crate::common::{count_common, gap_common, last_common, near, next_common};
use point_set::PointSet;
use std::alloc::AllocError;

/// The points of a set that are listed, or all of them where there is no list.
///
/// `has`, `first` and `next_from` take searches, in the set and in the list, for each gap that they pass over. `gap_from` takes a search in each. Where there is a list, `count` and `last` take a pass over it; where there is none, a call takes what it takes of the set.
#[derive(Copy)]
pub struct Listed<'s, 'p, S: PointSet> {
    set: &'s S,
    listed: Option<&'p [u64]>,
    ghost ascending: { IsAscending listed } by { Prim.hlevel props },
    // What the laws of `PointSet` say of each set.
    ghost ascends: { IsStrictlyIncreasing (kept (listed_of listed) (S.points set.now)) },
    ghost bounded: { All (λ p. p < 2 ^ 64) (kept (listed_of listed) (S.points set.now)) },
}

/// What is listed between the first and the last point of a set.
fn near_listed<'p, S: PointSet>(set: &S, listed: Option<&'p [u64]>) -> Option<&'p [u64]>
    requires { IsAscending listed }
    ensures ascending { IsAscending result }
    ensures same { kept (listed_of result) (S.points set.now) ≡ kept (listed_of listed.entry) (S.points set.now) }
{
    match listed {
        Some(listed) => Some(near(set, listed)),
        None => None,
    }
}

impl<'s, 'p, S: PointSet> Listed<'s, 'p, S> {
    /// The points of a set that are listed, or all of them where there is no list. What is listed before the set's first point or after its last is left out at once.
    pub fn at(set: &'s S, listed: Option<&'p [u64]>) -> Listed<'s, 'p, S>
        requires { IsAscending listed }
        ensures { ⟦<Listed<'s, 'p, S> as PointSet>⟧.points result ≡ kept (listed_of listed.entry) (S.points set.now) }
    {
        let listed = near_listed(set, listed);
        Listed { set, listed }
    }
}

impl<'s, 'p, S: PointSet + Copy> Clone for Listed<'s, 'p, S> {
    ghost is_clone = { λ one other. other ≡ one };

    ghost is_infallible = { λ one. ⊤ };

    fn clone(&self) -> Result<Listed<'s, 'p, S>, AllocError> {
        Ok(*self)
    }
}

impl<'s, 'p, S: PointSet> PointSet for Listed<'s, 'p, S> {
    ghost points = { λ s. kept (listed_of s.listed) (S.points s.set.now) };

    ghost ascends = { λ s. s.ascends };

    ghost bounded = { λ s. s.bounded };

    fn count(&self) -> u128 {
        match self.listed {
            Some(listed) => count_common(self.set, listed) as u128,
            None => self.set.count(),
        }
    }

    fn last(&self) -> Option<u64> {
        match self.listed {
            Some(listed) => last_common(self.set, listed),
            None => self.set.last(),
        }
    }

    fn next_from(&self, p: u64) -> Option<u64> {
        match self.listed {
            Some(listed) => next_common(self.set, listed, p),
            None => self.set.next_from(p),
        }
    }

    fn gap_from(&self, p: u64) -> Option<u64> {
        match self.listed {
            Some(listed) => gap_common(self.set, listed, p),
            None => self.set.gap_from(p),
        }
    }
}
