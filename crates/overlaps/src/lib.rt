//! A point that some of many rectangles share, in a time that goes by how many there are and never by how many columns or points they have.
//!
//! `shared_point` answers exactly, for rectangles that stand by ascending first rows, into which `sort_by_row`
//! puts them; the only error is that memory ran out. Begin with `meeting`, which halves columns; `node` has
//! the one pass over the rectangles of some columns.
#![tactic(auto)]

mod between;
mod meeting;
mod node;
mod point;
mod rows;

pub use between::common_point;
pub use meeting::{shared_point, sort_by_row};
pub use point::Point;
