//! The log that records declare, or the fault of its frame and records that is shown.
//!
//! `declare` gives the log exactly where the records break no rule of a log's frame and none on single
//! records, and else the one fault that is shown: the least line that breaks a rule, with the first rule
//! that it breaks. `records.rt` has the call; begin there. `broken.rt` has the rules in their order,
//! `walk.rt` the walk over the records, and `regions.rt` the two rules that the forest judges.
#![tactic(auto)]

mod broken;
mod crowded;
mod decl_end;
mod declaring;
mod frame;
mod records;
mod regions;
mod sizes;
mod walk;

pub use crowded::crowded_fault;
pub use decl_end::DeclEnd;
pub use logs::Log;
pub use records::{are_log_records, declare};
