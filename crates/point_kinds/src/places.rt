//! Which points of a list a set has, by their places.

ghost use Rattle.std.specs.Prelude.{◌≡◌, ◌<◌, ◌≤◌, OnOk, length};
ghost use Rattle.std.specs.List.Sorted.{IsPartitionPoint, IsStrictlyIncreasing};
ghost use Rattle.point_kinds.specs.Kinds.{places_of};

use point_set::PointSet;
use std::alloc::AllocError;

/// The place of the first point of a list that is no less than `p`, by a binary search.
fn place_from(points: &[u64], p: u64) -> usize
    requires { IsStrictlyIncreasing points.now }
    ensures parts { IsPartitionPoint (λ q. q < p) (λ q. p ≤ q) points.now result }
    ensures within { result ≤ length points.now }
{
    points.partition_point(|q| *q < p)
}

/// Makes a list that of the places of the points that a set has. Takes a search in the set for each of them, and two for each gap.
pub(crate) fn list_places<P: PointSet>(
    places: &mut Vec<usize>,
    set: &P,
    points: &[u64],
) -> Result<(), AllocError>
    requires { IsStrictlyIncreasing points.now }
    ensures { OnOk result (places.new.items ≡ places_of (P.points set.now) points.now) }
{
    places.clear();
    let mut place = 0;
    while place < points.len() {
        let Some(next) = set.next_from(points[place]) else {
            return Ok(());
        };
        if next == points[place] {
            places.push(place)?;
            place += 1;
        } else {
            place = place_from(points, next);
        }
    }
    Ok(())
}
