//! What the limits on a log count, and sums of it.
//!
//! In a log of the second version they count the cells of its grid, which is that of all rectangles that the
//! spaces of the log list: a space counts as often as a cell begins in it, however many points it has.
//! `Corners::of` counts these once for each space, and `cell_total` and `access_total` add up what the
//! instances and the records ask for. `specs/Corners.antt` says what is counted; begin with `corners.rt`.
#![tactic(auto)]

mod corners;
mod records;
mod sums;
mod totals;

pub use corners::Corners;
pub use records::asked;
pub use sums::{exceeds, raised};
pub use totals::{access_total, cell_total};
