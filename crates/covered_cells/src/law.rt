ghost use Rattle.std.specs.Prelude.{◌≡◌, ◌+◌, ◌↔◌, ℕ, List, All, Contains};
ghost use Rattle.point_set.specs.declared.rect.Rect.{Rect};
ghost use Rattle.grid.specs.Cuts.{grid_of};
ghost use Rattle.covered_cells.specs.declared.blocks.Block.{Block};
ghost use Rattle.covered_cells.specs.Covered.{HasPoint, cell_at, cells_of};
ghost use Rattle.covered_cells.specs.Marks.{AreBlocks, has_cell, is_below, minus_marks, plus_marks, times};

/// A cell is listed just where some rectangle has a point of it, be it the first or another; and nothing but cells is listed.
pub fn cells_with_points_are_listed()
    ensures points { (rects : List Rect) (k l : ℕ)
        → Contains (cells_of rects) (cell_at (grid_of rects) k l) ↔ HasPoint rects k l }
    ensures cells { (rects : List Rect) → All (λ c. c ≡ cell_at (grid_of rects) c.column c.row) (cells_of rects) }
{}

/// How many blocks have a cell is how many more marks for them than against them stand at or below it.
pub fn corners_tell()
    ensures { (blocks : List Block) (k l : ℕ) → AreBlocks blocks → times (is_below k l) (plus_marks blocks)
        ≡ times (is_below k l) (minus_marks blocks) + times (has_cell k l) blocks }
{}
