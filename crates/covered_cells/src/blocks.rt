//! A rectangle as a block of cells.

ghost use Rattle.std.specs.Prelude.{◌≡◌, ◌^◌, ◌<◌, ◌≤◌, true};
ghost use Rattle.grid.specs.Cuts.{IsInSpan};
ghost use Rattle.covered_cells.specs.Marks.{HasCellsOf, IsBlockOf, IsInSome, IsWithin, has_point};

use grid::Grid;
use point_set::Rect;

/// Cells of a grid: those of some columns and rows next to one another.
#[derive(Clone, Copy)]
pub struct Block {
    /// The first column, and the one behind the last.
    pub column: usize,
    pub column_end: usize,
    /// The first row, and the one behind the last.
    pub row: usize,
    pub row_end: usize,
}

/// The column that has `x`, where one has it.
fn column_with(grid: &Grid, x: u32) -> usize
    requires { IsInSome grid.now.xs x }
    ensures column { IsInSpan grid.now.xs result x }
    ensures low { result ≤ x }
{
    match grid.column_of(x) {
        Some(k) => k,
        None => unreachable!(),
    }
}

/// The row that has `y`, where one has it.
fn row_with(grid: &Grid, y: u32) -> usize
    requires { IsInSome grid.now.ys y }
    ensures row { IsInSpan grid.now.ys result y }
    ensures low { result ≤ y }
{
    match grid.row_of(y) {
        Some(l) => l,
        None => unreachable!(),
    }
}

/// Whether a rectangle has a point.
fn has_point(rect: Rect) -> bool
    ensures { result ≡ has_point rect }
{
    rect.x0 <= rect.x1 && rect.y0 <= rect.y1
}

/// The cells of a rectangle that has a point, by four searches.
fn cells_of(grid: &Grid, rect: Rect) -> Block
    requires { IsWithin grid.now rect }
    ensures { HasCellsOf grid.now rect result }
{
    Block {
        column: column_with(grid, rect.x0),
        column_end: column_with(grid, rect.x1) + 1,
        row: row_with(grid, rect.y0),
        row_end: row_with(grid, rect.y1) + 1,
    }
}

/// The cells of a rectangle: none, if it has no point.
pub(crate) fn block_of(grid: &Grid, rect: Rect) -> Block
    requires { has_point rect ≡ true → IsWithin grid.now rect }
    ensures block { IsBlockOf grid.now rect result }
    ensures small { ((rect.x0 < 2 ^ 32) × (rect.x1 < 2 ^ 32)) × ((rect.y0 < 2 ^ 32) × (rect.y1 < 2 ^ 32)) }
{
    if has_point(rect) {
        cells_of(grid, rect)
    } else {
        Block {
            column: 0,
            column_end: 0,
            row: 0,
            row_end: 0,
        }
    }
}
