//! How many cells grids of rectangles have, so that a log that has too many of them is refused before any cell is listed.
//!
//! `GridSize` grows by rectangles and always knows how many cells the grid of all rectangles so far has: it
//! keeps each cut once, in no order, so that nothing is sorted again, and many rectangles with few cuts take
//! little memory. `corner_count` counts the cells of a grid that begin in some rectangles: two binary
//! searches tell how many columns begin in a rectangle, and two how many rows do, however many points it
//! has. `grid/specs/Corners.antt` says what both count.
#![tactic(auto)]

mod corner_steps;
mod corners;
mod ends;
mod grid_size;

pub use corner_steps::corner_points;
pub use corners::corner_count;
pub use grid_size::GridSize;
