ghost use Rattle.std.specs.Prelude.{◌≡◌, IfOk};
ghost use Rattle.point_set.specs.Rects.{AreBanded, rect_points};

use crate::arena_set::ArenaSet;
use crate::joined_rects::{first_joined, joined_count};
use bumpalo::Bump;
use bumpalo::collections::into_bump_slice;
use memory::Memory;
use point_set::{Rect, RectSet};

/// A set of points in an arena that can be made from rectangles.
pub trait ArenaRects<'a>: ArenaSet<'a> {
    /// The set of just the points of rectangles.
    ///
    /// Each rectangle has a point, and lies right of the one before, or in the same columns and above it. The only error is that memory ran out.
    fn place_rects(bump: &'a Bump, rects: &[Rect]) -> Result<Self, Memory>
        requires { AreBanded rects.now }
        ensures { IfOk result (λ set. Self.points set ≡ rect_points rects.now) };
}

/// Joins rectangles that go on from one another, so that each search among them counts once what a column has in a row.
impl<'a> ArenaRects<'a> for RectSet<'a> {
    fn place_rects(bump: &'a Bump, rects: &[Rect]) -> Result<RectSet<'a>, Memory> {
        let mut joined = Vec::with_capacity(bump, joined_count(rects))?;
        let mut rest = rects;
        while let Some((rect, behind)) = first_joined(rest) {
            joined.push(rect)?;
            rest = behind;
        }
        match RectSet::over(into_bump_slice(joined)) {
            Some(set) => Ok(set),
            None => unreachable!(),
        }
    }
}
