//! Logs with more records than a rule on single records can want.
//!
//! A record that stands later than the limit on records allows breaks that rule before any other is tried, so
//! the fault of a log without a fault of its frame is at that record or before it. The records after it
//! answer what the earlier ones ask of the log as a whole, and nothing else. `crowded_logs_are_told` says so:
//! the first records and those of the later ones that answer something tell the fault of the log. `Frame`
//! has what is noted of a log's frame in one pass over its records. Begin with `specs/Crowded.antt`.
#![tactic(auto)]

mod frame;
mod law;

pub use frame::{EndLine, Frame};
pub use law::{crowded_logs_are_told, frames_are_told};
