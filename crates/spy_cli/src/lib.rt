//! The commands of `spy`: from bytes to a report.
//!
//! `run` is the call of the whole program: it takes the words, a source and a sink, and its clauses say what
//! it answers, in the definitions of `semantics` and `outcomes`; the headline stands on it. Begin with
//! `top.rt`; `judging.rt`, `listing.rt`, `launching.rt` and `nesting.rt` have the commands, and `report_laws.rt` what
//! follows from their answers.
#![tactic(auto)]

mod answering;
mod checking;
mod crowded;
mod demo;
mod judging;
mod launching;
mod listing;
mod nesting;
mod printing;
mod report;
mod report_laws;
mod status;
mod top;
mod writing;

pub use log_reading::{SpellEnd, read_records};
pub use report_laws::{
    answers_in_long, cut_logs_show_it, launched_is_checked, one_report, printed_again,
};
pub use status::Status;
pub use top::run;
