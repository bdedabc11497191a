//! The race of a recorded run that is shown: two nodes that conflict at a cell, neither before the other.
//!
//! `scan` answers it exactly where the whole log has one, though it looks at one point of each kind alone. Where
//! nodes do little at these points, that is looked at first. Else fields of instances are, and no point where
//! waits are found that order whatever conflicts in one. The marks of all nodes are made only where no waits are
//! found that show that there is no race.
//! `accesses_by_node.rt` gathers what nodes access, and `cell_races` finds the race; begin with `shown.rt`,
//! which ties the two to the log.
#![tactic(auto)]

mod accesses_by_node;
mod shown;

pub use cell_races::SortedNodes;
pub use shown::{ScanEnd, scan};
