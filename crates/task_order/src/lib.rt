//! Whether the tasks of a log that interfere are run in serial order.
//!
//! `task_order` says so, or shows the first pair that is not, exactly as `Shown` of `semantics` defines it.
//! It goes over no pairs where all are in order. `task_cell_accesses.rt` gathers what tasks do at first points, and
//! `scan.rt` goes over it once, place by place, with the groups of `cell_races`: it asks whether waits are found
//! that show that all are in order, and where none are, it notes tasks, by marks, so that all others are run in
//! serial order. `tasks.rt` makes the users of each place, and counts the pairs of tasks that interfere by the
//! rows of bits of `pair_rows`. Where a task is noted, `sifting.rt` leaves in such rows its pairs, and `least.rt`
//! looks for the first of these. Begin with `search.rt`.
#![tactic(auto)]

mod cells;
mod kept;
mod least;
mod runs;
mod scan;
mod search;
mod sifting;
mod task_cell_accesses;
mod tasks;

pub use cell_races::SortedNodes;
pub use memory::Memory;
pub use search::{TaskOrder, task_order};
