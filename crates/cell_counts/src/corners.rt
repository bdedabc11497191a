ghost use Rattle.std.specs.Prelude.{◌≡◌, List, length};
ghost use Rattle.point_set.specs.declared.rect.Rect.{Rect};
ghost use Rattle.point_set.specs.Rects.{rect_points};
ghost use Rattle.grid.specs.Corners.{corners_in};
ghost use Rattle.grid.specs.Cuts.{grid_of};

use grid::Grid;
use point_set::Rect;

/// How many points of some rectangles are first points of cells of a grid, by four binary searches for each rectangle. A point that several of the rectangles have counts for each. The cuts behind the last column and row, where no cell begins, count like the others, but no rectangle of the grid has them.
pub fn corner_count(grid: &Grid, rects: &[Rect]) -> u128
    ensures { (all : List Rect) → grid.now ≡ grid_of all
        → result ≡ length (corners_in all (rect_points rects.now)) }
{
    let mut count = 0;
    for rect in rects {
        let columns = grid.column_cuts(rect.x0, rect.x1);
        let rows = grid.row_cuts(rect.y0, rect.y1);
        count += columns as u128 * rows as u128;
    }
    count
}
