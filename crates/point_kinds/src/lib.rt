//! One point of each kind: points that no space of a log tells apart are of one kind.
//!
//! What holds at a point holds at all points of its kind (`point_laws`), so whatever goes over points goes
//! over the least point of each kind: the `FirstPoints` of a log. They are found among the first points of
//! atoms, which are parted by one space after the other (`partings`). `read_points.rt` leaves those out that
//! nobody reads. Begin with `first.rt`.
#![tactic(auto)]

mod first;
mod kinds;
mod places;
mod read_points;

pub use first::{FirstPoints, MOST_SHARES};
