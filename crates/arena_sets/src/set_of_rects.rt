ghost use Rattle.std.specs.Prelude.{OnOk};
ghost use Rattle.arena_sets.specs.Pieces.{Adds, AreRectsOf};

use crate::pieces::push_runs;
use point_set::{PointList, PointSet, Rect, RectSet, RunSet};
use std::alloc::AllocError;

/// A set of points that is told as rectangles, however many columns it has.
pub trait SetOfRects: PointSet {
    /// Adds rectangles with just the points of the set, in bands, so that each has a point and no two share one. The only error is that memory ran out.
    fn push_rects(&self, rects: &mut Vec<Rect>) -> Result<(), AllocError>
        ensures { OnOk result (Adds rects.old.items rects.new.items (AreRectsOf (Self.points self.now))) };
}

/// Each run of points is three rectangles at most.
impl<'a> SetOfRects for PointList<'a> {
    fn push_rects(&self, rects: &mut Vec<Rect>) -> Result<(), AllocError> {
        push_runs(self, rects)
    }
}

/// Each run of points is three rectangles at most.
impl<'a> SetOfRects for RunSet<'a> {
    fn push_rects(&self, rects: &mut Vec<Rect>) -> Result<(), AllocError> {
        push_runs(self, rects)
    }
}

impl<'a> SetOfRects for RectSet<'a> {
    fn push_rects(&self, rects: &mut Vec<Rect>) -> Result<(), AllocError> {
        rects.extend_from_slice(self.rects())
    }
}
