//! How many cells grids have, and which of them begin in a set, against counts and lists of one cell and one point after the other.

use crate::planes::{plane, rect};
use cell_counts::{GridSize, corner_count, corner_points};
use grid::Grid;
use point_set::{PointSet, Rect, RectSet, column_and_row, points_in};
use std::alloc::{AllocError, Global};
use std::test::Fail;

/// A set of which each point is a square of so many columns and rows.
fn enlarged(alloc: Global, rects: &[Rect], by: u32) -> Result<Vec<Rect>, AllocError> {
    let mut large = Vec::new(alloc);
    for rect in rects {
        large.push(Rect {
            x0: rect.x0.saturating_mul(by),
            x1: rect
                .x1
                .saturating_add(1)
                .saturating_mul(by)
                .saturating_sub(1),
            y0: rect.y0.saturating_mul(by),
            y1: rect
                .y1
                .saturating_add(1)
                .saturating_mul(by)
                .saturating_sub(1),
        })?;
    }
    Ok(large)
}

/// Whether a cell of the grid begins at a point.
fn is_corner(grid: &Grid, p: u64) -> bool {
    let (x, y) = column_and_row(p);
    let (Some(k), Some(l)) = (grid.column_of(x), grid.row_of(y)) else {
        return false;
    };
    match (grid.column(k), grid.row(l)) {
        (Some((left, _)), Some((low, _))) => left == x && low == y,
        _ => false,
    }
}

/// The points of a set at which cells begin, point by point.
fn corners_of(alloc: Global, grid: &Grid, set: &RectSet<'_>) -> Result<Vec<u64>, AllocError> {
    let mut corners = Vec::new(alloc);
    for p in points_in(set) {
        if is_corner(grid, p) {
            corners.push(p)?;
        }
    }
    Ok(corners)
}

#[test]
fn cells_and_corners_are_counted(rt: HostRuntime) -> Result<(), Fail> {
    let mut bits = 1u64;
    for _ in 0..60 {
        let (_, small) = plane(rt.alloc(), bits)?;
        bits = bits.wrapping_mul(48271) % 65537;
        let (_, other) = plane(rt.alloc(), bits)?;
        let mut all = enlarged(rt.alloc(), &small, 3)?;
        let mut size = GridSize::new(rt.alloc());
        size.add(&all).ok().ok_or("no memory")?;
        let more = enlarged(rt.alloc(), &other, 2)?;
        size.add(&more).ok().ok_or("no memory")?;
        all.extend_from_slice(&more)?;
        let grid = Grid::build(rt.alloc(), &all).ok().ok_or("no memory")?;
        assert!(rt; size.cells() == (grid.columns() as u128).saturating_mul(grid.rows() as u128));
        let set = RectSet::over(&more).ok_or("rectangles in bands")?;
        let corners = corners_of(rt.alloc(), &grid, &set)?;
        assert!(rt; corner_count(&grid, &more) == corners.len() as u128);
        let listed = corner_points(rt.alloc(), &grid, &set)
            .ok()
            .ok_or("no memory")?;
        assert!(rt; listed == corners);
    }
    Ok(())
}

/// The whole plane has 2^64 points, and four cells where one rectangle cuts a corner off it.
#[test]
fn few_corners_of_many_points_are_found(rt: HostRuntime) -> Result<(), Fail> {
    let whole = [rect(0, u32::MAX, 0, u32::MAX)];
    let set = RectSet::over(&whole).ok_or("rectangles in bands")?;
    let grid = Grid::build(
        rt.alloc(),
        &[rect(0, u32::MAX, 0, u32::MAX), rect(0, 9, 0, 5)],
    )
    .ok()
    .ok_or("no memory")?;
    let listed = corner_points(rt.alloc(), &grid, &set)
        .ok()
        .ok_or("no memory")?;
    let right = 10u64 << 32;
    assert!(rt; listed.as_slice() == [0, 6, right, right + 6].as_slice());
    Ok(())
}
