//! The definitions of what a log means, tried on worked logs.
//!
//! The logs are written out in `specs`, and what is said of them is proved by computing. `meanings.rt` says
//! what they mean and `reports.rt` what is found in them; `rules.rt` and `limits.rt` have for each rule a
//! log that just keeps it and one that breaks it. There is no code; begin with `specs/WorkedLogs.antt`.
#![tactic(auto)]

mod limits;
mod long;
mod meanings;
mod reports;
mod rules;

pub use limits::worked_limits;
pub use long::worked_long_values;
pub use meanings::worked_meanings;
pub use reports::worked_findings;
pub use rules::{worked_frames, worked_regions, worked_runs, worked_uses};
