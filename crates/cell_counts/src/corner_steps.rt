//! The points of a set at which cells of a grid begin.

ghost use Rattle.std.specs.Prelude.{◌≡◌, ◌<◌, ◌≤◌, ◌++◌, ◌∷◌, [], List, cond, IfOk, IfSome, OnOk};
ghost use Rattle.point_set.specs.declared.rect.Rect.{Rect};
ghost use Rattle.grid.specs.Corners.{corners_in, is_corner};
ghost use Rattle.grid.specs.Cuts.{grid_of, x_ends, y_ends};
ghost use Rattle.cell_counts.specs.Steps.{AreUncut, IsColumnAfter, IsPointAfter, IsStep, is_one};

use grid::Grid;
use memory::Memory;
use point_set::{PointSet, column_and_row, point};
use std::alloc::Global;

/// Whether the cells of a column begin at `x`, by two binary searches.
fn begins_column(grid: &Grid, x: u32) -> bool
    ensures { (all : List Rect) → grid.now ≡ grid_of all → result ≡ is_one (x_ends all) x }
{
    grid.column_cuts(x, x) != 0
}

/// Whether the cells of a row begin at `y`, by two binary searches.
fn begins_row(grid: &Grid, y: u32) -> bool
    ensures { (all : List Rect) → grid.now ≡ grid_of all → result ≡ is_one (y_ends all) y }
{
    grid.row_cuts(y, y) != 0
}

/// Whether a cell begins at a point.
fn begins_cell(grid: &Grid, p: u64) -> bool
    ensures { (all : List Rect) → grid.now ≡ grid_of all → result ≡ is_corner all p }
{
    let (x, y) = column_and_row(p);
    begins_column(grid, x) && begins_row(grid, y)
}

/// The last number of the column that has `x`, or `x` where none has it.
fn column_end(grid: &Grid, x: u32) -> u32
    ensures from { x ≤ result }
    ensures uncut { (all : List Rect) → grid.now ≡ grid_of all → AreUncut (x_ends all) x result }
{
    let Some(k) = grid.column_of(x) else {
        return x;
    };
    match grid.column(k) {
        Some((_, last)) => last,
        None => x,
    }
}

/// The last number of the row that has `y`, or `y` where none has it.
fn row_end(grid: &Grid, y: u32) -> u32
    ensures from { y ≤ result }
    ensures uncut { (all : List Rect) → grid.now ≡ grid_of all → AreUncut (y_ends all) y result }
{
    let Some(l) = grid.row_of(y) else {
        return y;
    };
    match grid.row(l) {
        Some((_, last)) => last,
        None => y,
    }
}

/// The first point of the column after `x`, if there is one.
fn column_after(x: u32) -> Option<u64>
    ensures { IsColumnAfter x result }
{
    if x == u32::MAX {
        return None;
    }
    Some(point(x + 1, 0))
}

/// A point above this one, below which no cell begins from here on; or `None` where none begins above this one.
///
/// It is the next row of the grid in a column in which cells begin, and else the next column in which they do.
fn step_from(grid: &Grid, p: u64) -> Option<u64>
    ensures above { IfSome result (λ q. p < q) }
    ensures step { IsStep grid.now p result }
{
    let (x, y) = column_and_row(p);
    if !begins_column(grid, x) {
        return column_after(column_end(grid, x));
    }
    let last = row_end(grid, y);
    if last == u32::MAX {
        return column_after(x);
    }
    Some(point(x, last + 1))
}

/// Adds a point, if a cell begins at it.
fn push_if_begins(corners: &mut Vec<u64>, grid: &Grid, p: u64) -> Result<(), Memory>
    ensures { OnOk result ((all : List Rect) → grid.now ≡ grid_of all
        → corners.new.items ≡ cond (is_corner all p) (corners.old.items ++ p ∷ []) corners.old.items) }
{
    if begins_cell(grid, p) {
        corners.push(p)?;
    }
    Ok(())
}

/// The next point of a set after the step from this point.
fn point_after<P: PointSet>(grid: &Grid, set: &P, p: u64) -> Option<u64>
    ensures above { IfSome result (λ q. p < q) }
    ensures next { (all : List Rect) → grid.now ≡ grid_of all → IsPointAfter all (P.points set.now) p result }
{
    match step_from(grid, p) {
        Some(from) => set.next_from(from),
        None => None,
    }
}

/// The points of a set at which cells of a grid begin, least first.
///
/// Each step passes over a row of the grid, or over the columns up to the next one in which cells begin. So it takes a few searches for each such point, where each rectangle of the set begins with a cell and ends with one.
pub fn corner_points<P: PointSet>(alloc: Global, grid: &Grid, set: &P) -> Result<Vec<u64>, Memory>
    ensures { IfOk result (λ corners. (all : List Rect) → grid.now ≡ grid_of all
        → corners.items ≡ corners_in all (P.points set.now)) }
{
    let mut corners = Vec::new(alloc);
    let mut next = set.first();
    while let Some(p) = next {
        push_if_begins(&mut corners, grid, p)?;
        next = point_after(grid, set, p);
    }
    Ok(corners)
}
