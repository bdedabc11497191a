//! Sets of points, each seen as an ascending list.
#![tactic(auto)]

mod ascending;
mod law;
mod plane;
mod point_list;
mod points;
mod rect;
mod rect_set;
mod rect_slice;
mod run_set;
mod run_slice;
mod runs;
mod set;
mod set_of_runs;
mod two_planes;

pub use ascending::next_from;
pub use law::{maximal_runs_are_apart, strips_have_the_points_of_runs};
pub use point_list::PointList;
pub use points::{Points, next_after, points_in};
pub use rect::Rect;
pub use rect_set::RectSet;
pub use rect_slice::{column_and_row, point};
pub use run_set::RunSet;
pub use run_slice::run_from;
pub use set::PointSet;
pub use set_of_runs::SetOfRuns;
