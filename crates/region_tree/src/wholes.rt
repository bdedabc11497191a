//! Whether rectangles lie within the space that a partition cuts: they are held against what it leaves free.

ghost use Rattle.std.specs.Prelude.{◌≡◌, ◌≤◌, ◌++◌, ◌∷◌, [], All, AllPairs, IfOk, OnOk};
ghost use Rattle.arena_sets.specs.Pieces.{AreRectsOf};
ghost use Rattle.log_tables.specs.Regions.{IsSetOf};
ghost use Rattle.overlaps.specs.Meeting.{IsNoHigher};
ghost use Rattle.point_set.specs.Rects.{AreSmall};
ghost use Rattle.region_tree.specs.Wholes.{AreGaps, IsPointOutside, near, whole_at};

use crate::claims::rects_of;
use crate::lookups::{sub_at, whole_set};
use arena_sets::SetOfRects;
use log_tables::Decls;
use overlaps::{Point, common_point, sort_by_row};
use plane_gaps::gaps_of;
use point_set::{PointSet, Rect};
use std::alloc::{AllocError, Global};

/// The set of the space that the partition of subspace `i` cuts.
fn whole_at<'d, P: PointSet>(decls: &'d Decls<P>, i: usize) -> Option<&'d P>
    ensures { IsSetOf P.points result (whole_at decls.now i) }
{
    let sub = sub_at(decls, i)?;
    whole_set(decls, sub.part)
}

/// The rectangles of that space.
fn whole_rects<P: SetOfRects>(
    alloc: Global,
    decls: &Decls<P>,
    i: usize,
) -> Result<Vec<Rect>, AllocError>
    ensures { IfOk result (λ v. AreRectsOf (whole_at decls.now i) v.items) }
{
    match whole_at(decls, i) {
        Some(whole) => rects_of(alloc, whole),
        None => Ok(Vec::new(alloc)),
    }
}

/// A column up to which rectangles go, none of them further.
fn last_column(rects: &[Rect]) -> u32
    ensures { All (λ r. r.x1 ≤ result) rects.now }
{
    let mut last = 0;
    for rect in rects {
        last = last.max(rect.x1);
    }
    last
}

/// Adds a rectangle, if it begins up to a column.
fn push_near(rects: &mut Vec<Rect>, rect: Rect, last: u32) -> Result<(), AllocError>
    ensures { OnOk result (rects.new.items ≡ rects.old.items ++ near last (rect ∷ [])) }
{
    if rect.x0 <= last {
        rects.push(rect)?;
    }
    Ok(())
}

/// The rectangles that begin up to a column.
fn near(alloc: Global, rects: &[Rect], last: u32) -> Result<Vec<Rect>, AllocError>
    ensures { IfOk result (λ v. v.items ≡ near last rects.now) }
{
    let mut found = Vec::new(alloc);
    for rect in rects {
        push_near(&mut found, *rect, last)?;
    }
    Ok(found)
}

/// What that space leaves free up to a column. What begins behind all columns that are asked about would only make the columns that are halved wider.
fn gaps_up_to<P: SetOfRects>(
    alloc: Global,
    decls: &Decls<P>,
    i: usize,
    last: u32,
) -> Result<Vec<Rect>, AllocError>
    ensures { IfOk result (λ v. AreGaps (whole_at decls.now i) last v.items) }
{
    let rects = whole_rects(alloc, decls, i)?;
    let gaps = gaps_of(alloc, rects.as_slice())?;
    let mut gaps = near(alloc, gaps.as_slice(), last)?;
    sort_by_row(&mut gaps);
    Ok(gaps)
}

/// A point of some rectangles that the space has not which the partition of subspace `i` cuts, or `None` if there is none.
pub(crate) fn outside_point<P: SetOfRects>(
    alloc: Global,
    decls: &Decls<P>,
    rects: &[Rect],
    i: usize,
) -> Result<Option<Point>, AllocError>
    requires order { AllPairs IsNoHigher rects.now }
    requires some { All (λ r. (r.x0 ≤ r.x1) × (r.y0 ≤ r.y1)) rects.now }
    requires small { AreSmall rects.now }
    ensures { IfOk result (IsPointOutside (whole_at decls.now i) rects.now) }
{
    if rects.is_empty() {
        return Ok(None);
    }
    let last = last_column(rects);
    let gaps = gaps_up_to(alloc, decls, i, last)?;
    common_point(alloc, rects, gaps.as_slice())
}
