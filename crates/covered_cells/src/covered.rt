ghost use Rattle.std.specs.Prelude.{◌≡◌, IfOk, map};
ghost use Rattle.std.specs.List.Sorted.{IsStrictlyIncreasing};
ghost use Rattle.grid.specs.Cuts.{grid_of};
ghost use Rattle.covered_cells.specs.Covered.{cells_of};

use crate::grid_cell::GridCell;
use crate::marks::marks_of;
use crate::sweep::swept_cells;
use grid::Grid;
use memory::Memory;
use point_set::Rect;
use std::alloc::Global;

/// The cells of the grid of some rectangles that have points of them, column by column and then row by row. Takes a step a cell of the grid, four searches a rectangle, and two sorts.
pub fn covered_cells(alloc: Global, grid: &Grid, rects: &[Rect]) -> Result<Vec<GridCell>, Memory>
    requires grid { grid.now ≡ grid_of rects.now }
    ensures cells { IfOk result (λ cells. cells.items ≡ cells_of rects.now) }
    ensures ascend { IfOk result (λ cells. IsStrictlyIncreasing (map (λ c. c.first) cells.items)) }
{
    let marks = marks_of(alloc, grid, rects)?;
    let cells = swept_cells(alloc, grid, marks.plus.as_slice(), marks.minus.as_slice())?;
    Ok(cells)
}
