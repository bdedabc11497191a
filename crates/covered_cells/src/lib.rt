//! The cells of the grid of some rectangles that have points of them, each with its place in the grid and its first point, column by column and then row by row (`covered_cells`; `specs/Covered.antt` says which).
//!
//! No rectangle divides a cell, so it is asked of a cell's first point alone, and holds of all
//! (`cells_with_points_are_listed`).
//!
//! The rectangles become blocks of cells. Each block puts marks at its corners, two for it and two against
//! it, so that the marks at or below a cell tell how many blocks have it (`corners_tell`). One sweep over
//! the columns counts the marks in each row, and sums them up along the rows. So the time is a step a cell
//! of the grid and a sort of the marks, however many rectangles have a cell, and no table of all cells is
//! kept. Begin with `specs/Covered.antt` and `covered_cells`; `specs/Marks.antt` is of the way there only.
#![tactic(auto)]

mod blocks;
mod covered;
mod grid_cell;
mod law;
mod marks;
mod sweep;

pub use covered::covered_cells;
pub use grid_cell::{GridCell, cell_at};
pub use law::{cells_with_points_are_listed, corners_tell};
