//! What a set and an ascending list have in common.

ghost use Rattle.std.specs.Prelude.{ℕ, ◌≡◌, ◌<◌, ◌≤◌, ◌+◌, Contains, filter, length};
ghost use Rattle.std.specs.List.{slice_index_or};
ghost use Rattle.std.specs.List.Sorted.{IsPartitionPoint, IsStrictlyIncreasing};
ghost use Rattle.point_set.specs.Least.{IsGreatestOf, IsLeast, IsLeastGap};
ghost use Rattle.vocabulary.specs.Prelude.{is_in};

use point_set::{PointList, PointSet, next_from};

/// How many of some ascending points are below `p`.
fn count_below(points: &[u64], p: u64) -> usize
    requires { IsStrictlyIncreasing points.now }
    ensures below { IsPartitionPoint (λ q. q < p) (λ q. p ≤ q) points.now result }
    ensures within { result ≤ length points.now }
{
    points.partition_point(|q| *q < p)
}

/// How many of some ascending points are no greater than `p`.
fn count_up_to(points: &[u64], p: u64) -> usize
    requires { IsStrictlyIncreasing points.now }
    ensures past { (k d : ℕ) → result ≤ k → k < length points.now → p < slice_index_or points.now k d }
    ensures within { result ≤ length points.now }
{
    match p.checked_add(1) {
        Some(above) => count_below(points, above),
        None => points.len(),
    }
}

/// Those of some ascending points that are no less than `low`.
fn from_on(points: &[u64], low: u64) -> &[u64]
    requires { IsStrictlyIncreasing points.now }
    ensures ascend { IsStrictlyIncreasing result.now }
    ensures listed { (q : ℕ) → Contains result.now q → Contains points.now q }
    ensures all { (q : ℕ) → low ≤ q → Contains points.now q → Contains result.now q }
{
    let from = count_below(points, low);
    &points[from..]
}

/// Those of some ascending points that are no greater than `high`.
fn up_to(points: &[u64], high: u64) -> &[u64]
    requires { IsStrictlyIncreasing points.now }
    ensures ascend { IsStrictlyIncreasing result.now }
    ensures listed { (q : ℕ) → Contains result.now q → Contains points.now q }
    ensures all { (q : ℕ) → q ≤ high → Contains points.now q → Contains result.now q }
{
    let end = count_up_to(points, high);
    &points[..end]
}

/// Those of some ascending points that lie between the first and the last point of a set.
pub(crate) fn near<'p, P: PointSet>(set: &P, listed: &'p [u64]) -> &'p [u64]
    requires { IsStrictlyIncreasing listed.now }
    ensures ascend { IsStrictlyIncreasing result.now }
    ensures same { filter (is_in result.now) (P.points set.now) ≡ filter (is_in listed.now) (P.points set.now) }
{
    let Some(first) = set.first() else {
        return listed;
    };
    let Some(last) = set.last() else {
        return listed;
    };
    up_to(from_on(listed, first), last)
}

/// The least common point from `low` on. Each step passes over a gap of the list or of the set. Where the next listed point is common, it is found by one search in each.
pub(crate) fn next_common<P: PointSet>(set: &P, listed: &[u64], low: u64) -> Option<u64>
    requires { IsStrictlyIncreasing listed.now }
    ensures { IsLeast (λ q. Contains (P.points set.now) q × Contains listed.now q × (low ≤ q)) result }
{
    let mut from = low;
    loop {
        let Some(theirs) = next_from(listed, from) else {
            return None;
        };
        let Some(ours) = set.next_from(theirs) else {
            return None;
        };
        if ours == theirs {
            return Some(theirs);
        }
        from = ours;
    }
}

/// The greatest common point, by one pass over the list.
pub(crate) fn last_common<P: PointSet>(set: &P, listed: &[u64]) -> Option<u64>
    requires { IsStrictlyIncreasing listed.now }
    ensures { IsGreatestOf (filter (is_in listed.now) (P.points set.now)) result }
{
    let mut last = None;
    for point in listed {
        if set.has(*point) {
            last = Some(*point);
        }
    }
    last
}

/// How many common points there are, by one pass over the list.
pub(crate) fn count_common<P: PointSet>(set: &P, listed: &[u64]) -> usize
    requires { IsStrictlyIncreasing listed.now }
    ensures { result ≡ length (filter (is_in listed.now) (P.points set.now)) }
{
    let mut count = 0;
    for point in listed {
        if set.has(*point) {
            count += 1;
        }
    }
    count
}

/// The least number from `p` on that is not common: the lesser of the gaps of the set and of the list.
pub(crate) fn gap_common<P: PointSet>(set: &P, listed: &[u64], p: u64) -> Option<u64>
    requires { IsStrictlyIncreasing listed.now }
    ensures { IsLeastGap (filter (is_in listed.now) (P.points set.now)) p result }
{
    let gap = match PointList::over(listed) {
        Some(list) => list.gap_from(p),
        None => unreachable!(),
    };
    match (set.gap_from(p), gap) {
        (Some(one), Some(other)) => Some(one.min(other)),
        (Some(one), None) => Some(one),
        (None, other) => other,
    }
}
