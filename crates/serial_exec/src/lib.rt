//! The values of sequential execution: what each item should find at each place.
//!
//! `Versions::want` is the value that a read should see, by `Sequential` of `semantics`, at all points of a
//! log or at listed ones, and `changes_before` gives the changes that make it. For each place the changes
//! that items make there are kept in serial order, in `PlaceLists`. Begin with `versions.rt`; `gathering.rt`
//! gathers the changes.
#![tactic(auto)]

mod change;
mod gathering;
mod histories;
mod own_reqs;
mod place_lists;
mod sums;
mod versions;

pub use change::{Action, Change};
pub use place_lists::PlaceLists;
pub use versions::Versions;
