ghost use Rattle.std.specs.Prelude.{◌≡◌, ℕ, ◌≤◌, All, AllPairs, IfOk, MatchOption};
ghost use Rattle.point_set.specs.Rects.{AreSmall};
ghost use Rattle.std.specs.List.{AllByRecursion};
ghost use Rattle.overlaps.specs.Meeting.{HasAllIn, IsIn, IsNoHigher};
ghost use Rattle.overlaps.specs.Between.{AreApartFrom, IsCommon, SpansApart, TellsBetween, corner};

use crate::node::{Columns, left_half, narrowed, right_half, spanning};
use crate::point::Point;
use crate::rows::shared_row;
use point_set::Rect;
use std::alloc::{AllocError, Global};

/// The columns between the first and the last one with a rectangle of either list.
fn hull(ours: &[Rect], theirs: &[Rect], lo: u32, hi: u32) -> Columns
    requires range { lo ≤ hi }
    requires ours { AllByRecursion (IsIn lo hi) ours.now }
    requires theirs { AllByRecursion (IsIn lo hi) theirs.now }
    ensures range { result.lo ≤ result.hi }
    ensures within { (lo ≤ result.lo) × (result.hi ≤ hi) }
    ensures ours { AllByRecursion (IsIn result.lo result.hi) ours.now }
    ensures theirs { AllByRecursion (IsIn result.lo result.hi) theirs.now }
    ensures all { AllByRecursion (HasAllIn lo hi result) ours.now }
{
    let a = narrowed(ours, lo, hi);
    let b = narrowed(theirs, lo, hi);
    Columns {
        lo: a.lo.min(b.lo),
        hi: a.hi.max(b.hi),
    }
}

/// The first point of two rectangles that share one.
fn corner(one: Rect, other: Rect) -> Point
    ensures { result ≡ corner one other }
{
    Point {
        x: one.x0.max(other.x0),
        y: one.y0.max(other.y0),
    }
}

/// A point that a rectangle which has all of some columns shares with one of the other list.
fn spanning_point(
    alloc: Global,
    ours: &[Rect],
    theirs: &[Rect],
    columns: Columns,
) -> Result<Option<Point>, AllocError>
    requires range { columns.lo ≤ columns.hi }
    requires ours { AllPairs IsNoHigher ours.now × AllByRecursion (IsIn columns.lo columns.hi) ours.now }
    requires theirs { AllPairs IsNoHigher theirs.now × AllByRecursion (IsIn columns.lo columns.hi) theirs.now }
    ensures { IfOk result (λ o. MatchOption o (SpansApart columns.lo columns.hi ours.now theirs.now)
        (IsCommon ours.now theirs.now)) }
{
    let wide = spanning(alloc, ours, columns.lo, columns.hi)?;
    if let Some((our, their)) = shared_row(wide.as_slice(), theirs) {
        return Ok(Some(corner(our, their)));
    }
    let wide = spanning(alloc, theirs, columns.lo, columns.hi)?;
    match shared_row(ours, wide.as_slice()) {
        Some((our, their)) => Ok(Some(corner(our, their))),
        None => Ok(None),
    }
}

/// A point of these columns that rectangles of both lists have. It halves the columns: in each half are only those that do not have all columns.
fn common_in(
    alloc: Global,
    ours: &[Rect],
    theirs: &[Rect],
    lo: u32,
    hi: u32,
) -> Result<Option<Point>, AllocError>
    requires range { lo ≤ hi }
    requires ours { AllPairs IsNoHigher ours.now × AllByRecursion (IsIn lo hi) ours.now }
    requires theirs { AllPairs IsNoHigher theirs.now × AllByRecursion (IsIn lo hi) theirs.now }
    ensures { IfOk result (TellsBetween lo hi ours.now theirs.now) }
{
    if ours.is_empty() || theirs.is_empty() {
        return Ok(None);
    }
    let node = hull(ours, theirs, lo, hi);
    if let Some(point) = spanning_point(alloc, ours, theirs, node)? {
        return Ok(Some(point));
    }
    if node.hi <= node.lo {
        return Ok(None);
    }
    let middle = node.lo + (node.hi - node.lo) / 2;
    let found = {
        let left = left_half(alloc, ours, node.lo, node.hi, middle)?;
        let others = left_half(alloc, theirs, node.lo, node.hi, middle)?;
        common_in(alloc, left.as_slice(), others.as_slice(), node.lo, middle)?
    };
    if let Some(point) = found {
        return Ok(Some(point));
    }
    let right = right_half(alloc, ours, node.lo, node.hi, middle)?;
    let others = right_half(alloc, theirs, node.lo, node.hi, middle)?;
    common_in(
        alloc,
        right.as_slice(),
        others.as_slice(),
        middle + 1,
        node.hi,
    )
}

/// A point that a rectangle of the one list shares with one of the other, or `None` if there is none. Both lists stand by ascending first rows, and each rectangle has a point. Those of one list may share points.
///
/// Each rectangle is looked at in at most two nodes of each of 33 levels.
pub fn common_point(
    alloc: Global,
    ours: &[Rect],
    theirs: &[Rect],
) -> Result<Option<Point>, AllocError>
    requires ours { AllPairs IsNoHigher ours.now × AreSmall ours.now }
    requires theirs { AllPairs IsNoHigher theirs.now × AreSmall theirs.now }
    requires some_ours { All (λ r. (r.x0 ≤ r.x1) × (r.y0 ≤ r.y1)) ours.now }
    requires some_theirs { All (λ r. (r.x0 ≤ r.x1) × (r.y0 ≤ r.y1)) theirs.now }
    ensures { IfOk result (λ o. MatchOption o (AreApartFrom ours.now theirs.now) (IsCommon ours.now theirs.now)) }
{
    common_in(alloc, ours, theirs, 0, u32::MAX)
}
