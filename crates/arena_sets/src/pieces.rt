//! Runs of points, cut into rectangles.

ghost use Rattle.std.specs.Prelude.{◌≡◌, ◌≤◌, Contains, OnOk};
ghost use Rattle.point_set.specs.Runs.{run_points};
ghost use Rattle.arena_sets.specs.Pieces.{Adds, ArePieces, IsFilled, IsPiece, ends};

use point_set::{PointSet, Rect, column_and_row, next_after, point};
use std::alloc::{AllocError, Allocator};

/// The first rectangle of a run: part of its first column, full columns, or part of its last column.
fn first_piece(first: u64, last: u64) -> Rect
    requires { first ≤ last }
    ensures piece { IsPiece result }
    ensures begins { (ends result).0 ≡ first }
    ensures within { (ends result).1 ≤ last }
{
    let (x, y) = column_and_row(first);
    let (end_x, end_y) = column_and_row(last);
    let (x1, y1) = if x == end_x {
        (x, end_y)
    } else if y > 0 {
        (x, u32::MAX)
    } else if end_y == u32::MAX {
        (end_x, u32::MAX)
    } else {
        (end_x - 1, u32::MAX)
    };
    Rect {
        x0: x,
        x1,
        y0: y,
        y1,
    }
}

/// Adds the rectangles of a run, of which there are three at most.
pub(crate) fn push_run<A: Allocator>(
    rects: &mut Vec<Rect, A>,
    first: u64,
    last: u64,
) -> Result<(), AllocError>
    requires { first ≤ last }
    ensures { OnOk result (Adds rects.old.items rects.new.items (ArePieces (run_points (first, last)))) }
{
    let mut from = first;
    loop {
        let rect = first_piece(from, last);
        rects.push(rect)?;
        let end = point(rect.x1, rect.y1);
        if end >= last {
            return Ok(());
        }
        from = end + 1;
    }
}

/// The last of the points that follow one another from this one on.
fn run_end<P: PointSet>(set: &P, first: u64) -> u64
    requires { Contains (P.points set.now) first }
    ensures { IsFilled (P.points set.now) first result }
{
    match set.gap_from(first) {
        Some(gap) => gap - 1,
        None => u64::MAX,
    }
}

/// Adds the rectangles of the runs of a set.
pub(crate) fn push_runs<P: PointSet>(set: &P, rects: &mut Vec<Rect>) -> Result<(), AllocError>
    ensures { OnOk result (Adds rects.old.items rects.new.items (ArePieces (P.points set.now))) }
{
    let mut next = set.first();
    while let Some(first) = next {
        let last = run_end(set, first);
        push_run(rects, first, last)?;
        next = next_after(set, last);
    }
    Ok(())
}
