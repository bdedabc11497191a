//! The grid of some rectangles: the columns begin where a rectangle begins or has just ended, and so do the rows.
//!
//! So no rectangle divides a cell of the grid, which is what one column and one row have in common
//! (`no_rectangle_divides_a_cell`): of the points of a cell one is as good as any other. The grid is made by
//! two sorts and kept as two ascending lists of cuts. It answers how many columns and rows there are, which
//! numbers each has, and by a binary search which of them has a number. Begin with `specs/Cuts.antt` and
//! `Grid::build`.
#![tactic(auto)]

mod grid;
mod law;

pub use grid::Grid;
pub use law::no_rectangle_divides_a_cell;
