//! Grids, the cells of them that rectangles have points of, and sets made of rectangles, against lists of points.

use crate::planes::{plane, rect, runs_of};
use bumpalo::Bump;
use covered_cells::{GridCell, covered_cells};
use grid::Grid;
use point_set::{PointSet, RectSet, RunSet, points_in};
use region_tree::{ArenaRects, ArenaSet};
use std::process::Abort;
use std::test::Fail;

#[test]
fn grids_have_columns_and_rows(rt: HostRuntime) -> Result<(), Fail> {
    let top = u32::MAX;
    let rects = [rect(2, 5, 1, 1), rect(4, 5, 0, top), rect(9, 9, 1, 3)];
    let grid = Grid::build(rt.alloc(), &rects).ok().ok_or("no memory")?;
    assert!(rt; grid.columns() == 4 && grid.rows() == 4);
    let columns = [(2, 3), (4, 5), (6, 8), (9, 9)];
    let rows = [(0, 0), (1, 1), (2, 3), (4, top)];
    for k in 0..4 {
        assert!(rt; grid.column(k) == columns.get(k).copied());
        assert!(rt; grid.row(k) == rows.get(k).copied());
    }
    assert!(rt; grid.column(4).is_none() && grid.row(4).is_none());
    assert!(rt; grid.column_of(1).is_none() && grid.column_of(3) == Some(0));
    assert!(rt; grid.column_of(8) == Some(2) && grid.column_of(10).is_none());
    assert!(rt; grid.row_of(0) == Some(0) && grid.row_of(top) == Some(3));
    let none = Grid::build(rt.alloc(), &[]).ok().ok_or("no memory")?;
    assert!(rt; none.columns() == 0 && none.rows() == 0 && none.column(0).is_none());
    Ok(())
}

/// Whether a point is the first one of the next cell of a list, where each cell's column and row are those of that point.
fn is_next(grid: &Grid, cell: Option<&GridCell>, column: usize, row: usize, first: u64) -> bool {
    match cell {
        Some(cell) => cell.column == column
            && cell.row == row
            && cell.first == first
            && grid.columns() > column,
        None => false,
    }
}

/// How many cells of a grid have a first point in a set, and whether a list has just these in order.
fn compare(grid: &Grid, set: &RectSet<'_>, cells: &[GridCell]) -> (usize, bool) {
    let mut next = 0usize;
    let mut same = true;
    for k in 0..grid.columns() {
        for l in 0..grid.rows() {
            let (Some((x, _)), Some((y, _))) = (grid.column(k), grid.row(l)) else {
                return (next, false);
            };
            let first = (u64::from(x) << 32) + u64::from(y);
            if set.has(first) {
                same = same && is_next(grid, cells.get(next), k, l, first);
                next = next.saturating_add(1);
            }
        }
    }
    (next, same)
}

#[test]
fn covered_cells_are_listed(rt: HostRuntime) -> Result<(), Fail> {
    let mut bits = 1u64;
    for _ in 0..200 {
        let (_, rects) = plane(rt.alloc(), bits)?;
        bits = bits.wrapping_mul(48271) % 65537;
        let set = RectSet::over(&rects).ok_or("rectangles in bands")?;
        let grid = Grid::build(rt.alloc(), &rects).ok().ok_or("no memory")?;
        let cells = covered_cells(rt.alloc(), &grid, &rects)
            .ok()
            .ok_or("no memory")?;
        assert!(rt; compare(&grid, &set, &cells) == (cells.len(), true));
    }
    Ok(())
}

#[test]
fn empty_rectangles_cover_no_cell(rt: HostRuntime) -> Result<(), Fail> {
    let rects = [
        rect(1, 3, 2, 2),
        rect(3, 2, 0, 9),
        rect(0, 9, 4, 1),
        rect(4, 4, 2, 2),
    ];
    let grid = Grid::build(rt.alloc(), &rects).ok().ok_or("no memory")?;
    let cells = covered_cells(rt.alloc(), &grid, &rects)
        .ok()
        .ok_or("no memory")?;
    let set = [rect(1, 3, 2, 2), rect(4, 4, 2, 2)];
    let set = RectSet::over(&set).ok_or("rectangles in bands")?;
    assert!(rt; compare(&grid, &set, &cells) == (cells.len(), true) && cells.len() == 3);
    Ok(())
}

/// Whether a set has just these points.
fn has_just<P: PointSet>(set: &P, points: &[u64]) -> bool {
    let mut next = 0usize;
    for p in points_in(set) {
        if points.get(next) != Some(&p) {
            return false;
        }
        next = next.saturating_add(1);
    }
    next == points.len()
}

#[test]
fn rectangles_are_placed(rt: HostRuntime) -> Result<(), Fail> {
    let arena = Bump::new(rt.alloc());
    let mut bits = 1u64;
    for _ in 0..200 {
        let (points, rects) = plane(rt.alloc(), bits)?;
        bits = bits.wrapping_mul(48271) % 65537;
        let runs = runs_of(rt.alloc(), &points)?;
        if RectSet::over(&rects).is_none() || RunSet::over(&runs).is_none() {
            return Err("sets in order".into());
        }
        let placed = RectSet::place_rects(&arena, &rects)
            .ok()
            .ok_or("no memory")?;
        assert!(rt; has_just(&placed, &points));
        let made: RectSet<'_> = RectSet::place(&arena, &runs).ok().ok_or("no memory")?;
        assert!(rt; has_just(&made, &points));
    }
    let wide = [(3, (1u64 << 33) + 4), ((1u64 << 33) + 5, (1u64 << 33) + 5)];
    if RunSet::over(&wide).is_none() {
        return Err("runs in order".into());
    }
    let set: RectSet<'_> = RectSet::place(&arena, &wide).ok().ok_or("no memory")?;
    assert!(rt; set.count() == (1u128 << 33) + 3 && set.last() == Some((1u64 << 33) + 5));
    Ok(())
}

/// Rectangles of the same columns that touch are kept as one, so that a set of many is searched like one of few.
#[test]
fn rectangles_that_touch_are_joined(rt: HostRuntime) -> Result<(), Fail> {
    let arena = Bump::new(rt.alloc());
    let mut rects = Vec::new(rt.alloc());
    for y in 0..1000u32 {
        rects.push(rect(0, 3, y, y))?;
    }
    rects.push(rect(0, 3, 1001, 1001))?;
    rects.push(rect(4, 4, 1002, u32::MAX))?;
    if RectSet::over(&rects).is_none() {
        return Err("rectangles in bands".into());
    }
    let set = RectSet::place_rects(&arena, &rects)
        .ok()
        .ok_or("no memory")?;
    assert!(rt; set.rects().len() == 3 && set.has(999) && !set.has(1000) && set.has(1001));
    Ok(())
}
