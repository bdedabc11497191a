ghost use Rattle.std.specs.Prelude.{◌≡◌, ◌+◌, ◌<◌, ◌++◌, ◌∷◌, [], cond, get_or, length, OnOk};
ghost use Rattle.covered_cells.specs.Covered.{cell_at};

use grid::Grid;
use memory::Memory;

/// What a column and a row of a grid have in common, by their places, and the first point of it.
#[derive(Clone, Copy, PartialEq, Eq)]
pub struct GridCell {
    pub column: usize,
    pub row: usize,
    pub first: u64,
}

/// The first number of a column.
fn first_column(grid: &Grid, k: usize) -> u32
    requires { k + 1 < length grid.now.xs }
    ensures { result ≡ get_or grid.now.xs k 0 }
{
    match grid.column(k) {
        Some((x, _)) => x,
        None => unreachable!(),
    }
}

/// The first number of a row.
fn first_row(grid: &Grid, l: usize) -> u32
    requires { l + 1 < length grid.now.ys }
    ensures { result ≡ get_or grid.now.ys l 0 }
{
    match grid.row(l) {
        Some((y, _)) => y,
        None => unreachable!(),
    }
}

/// The cell of a column and a row, which are given by their places.
pub fn cell_at(grid: &Grid, k: usize, l: usize) -> GridCell
    requires column { k + 1 < length grid.now.xs }
    requires row { l + 1 < length grid.now.ys }
    ensures { result ≡ cell_at grid.now k l }
{
    let x = u64::from(first_column(grid, k));
    let y = u64::from(first_row(grid, l));
    GridCell {
        column: k,
        row: l,
        first: x * 4_294_967_296 + y,
    }
}

/// Adds the cell of a column and a row, if it is wanted.
pub(crate) fn push_if(
    cells: &mut Vec<GridCell>,
    grid: &Grid,
    k: usize,
    l: usize,
    wanted: bool,
) -> Result<(), Memory>
    requires column { k + 1 < length grid.now.xs }
    requires row { l + 1 < length grid.now.ys }
    ensures { OnOk result (cells.new.items ≡ cells.old.items ++ cond wanted (cell_at grid.now k l ∷ []) []) }
{
    if wanted {
        cells.push(cell_at(grid, k, l))?;
    }
    Ok(())
}
