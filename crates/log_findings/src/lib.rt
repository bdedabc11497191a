//! What is found in a log by its items and events alone: the fault of its serial order, the order of its nodes, whether its tasks are run in serial order, which of its items interfere, and which of its waits others imply.
//!
//! `ordered_finding`, `deps_finding` and `spare_finding` are what the commands `ordered`, `deps` and `spare`
//! find; begin there. Each is exactly what `Outcome` of `outcomes` says of its command. `write_deps` writes what
//! `deps` finds as it is found. `sort_log` is the first stage of `check` too, and `reports` makes the findings
//! of all commands but `why`.
#![tactic(auto)]

mod dep_writer;
mod dependences;
mod implied;
mod items;
mod node_order;
mod ordered;
mod reports;
mod serial;
mod written_deps;

pub use dependences::deps_finding;
pub use implied::spare_finding;
pub use items::{event_at, operation_count, task_count};
pub use memory::Memory;
pub use node_order::{Sorting, Unsorted};
pub use ordered::{ordered_finding, sort_log};
pub use reports::{accepted_found, cycle_found, differ_found, fault_found, race_found};
pub use serial::serial_fault;
pub use written_deps::{DepsEnd, write_deps};
