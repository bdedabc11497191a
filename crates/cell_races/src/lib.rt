//! The race that is shown of what the nodes of a replay do at cells: two that conflict at a cell, neither before the other.
//!
//! Whoever goes over the steps of nodes adds what each accesses (`push_cell_accesses`), and `shown_race` gives the
//! race at the least cell, exactly where there is one. At one cell neighbours that do not conflict form
//! groups, and a node is compared with a whole group at once; that this finds the same race is the law
//! `groups_tell`. `unordered_places` asks the same groups which nodes are not in turn, by an order of their own.
//! `are_free_by_waits` and `are_in_turn_by_waits` ask whether chains of waits are found that show that there is no
//! race, or that all nodes are in turn: chains of up to three are looked for first, which takes no marks, and what
//! they leave open (`questions.rt`) is answered by the marks of one block of nodes at a time (`answers.rt`). Begin
//! with `scan.rt`; `frontier.rt` has the groups of one cell.
#![tactic(auto)]

mod access;
mod answers;
mod asking;
mod by_waits;
mod cell_accesses;
mod cell_scan;
mod cell_sort;
mod chains;
mod frontier;
mod laws;
mod node_accesses;
mod questions;
mod scan;
mod sorted_nodes;
mod turns;

pub use access::{Access, NodeAccess};
pub use by_waits::{are_free_by_waits, are_in_turn_by_waits};
pub use cell_accesses::{CellAccess, push_cell_accesses};
pub use cell_sort::sort_cell_accesses;
pub use laws::{first_race_is_first, groups_tell};
pub use scan::{FoundRace, cell_end, shown_race};
pub use sorted_nodes::SortedNodes;
pub use turns::unordered_places;
