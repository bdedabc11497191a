//! The log that a launch log stands for, or the fault that is shown of it.
//!
//! `expand` gives that log, each record with a spelling, exactly where the launch log breaks no rule, and
//! else the one fault that is shown. `expanding.rt` has the call; begin there. `walk.rt` has the walk over
//! the records, `writing.rt` the records that are written, as they grow, `step.rt` what one record more
//! writes, `rules.rt` the rules that are tried of it by itself, and `interference.rt` the rule on
//! interference.
#![tactic(auto)]

mod declaring;
mod expand_end;
mod expanding;
mod interference;
mod launched;
mod rules;
mod step;
mod tasks;
mod uses;
mod walk;
mod writing;

pub use expand_end::ExpandEnd;
pub use expanding::expand;
