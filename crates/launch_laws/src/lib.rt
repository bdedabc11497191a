//! Laws of launches, and of the order of items that do not interfere.
//!
//! `launches_in_any_order`: where a launch log has no fault and what it stands for has tables, the tasks of
//! one launch may be run in any order, and each place and each read has the same value.
//! `written_logs_are_logs`: what a launch log without a fault stands for is a log, and its text is read as
//! just that. `worked_launches` tries the definitions (`Launches` of `semantics`) on launch logs that are
//! written out. There is no code; begin with `laws.rt`.
#![tactic(auto)]

mod laws;
mod meanings;

pub use laws::{launches_in_any_order, neighbours_in_any_order, written_logs_are_logs};
pub use meanings::worked_launches;
