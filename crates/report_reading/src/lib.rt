//! Reports, read: each text is read back as the one report that has it.
//!
//! `read_text` gives that report, or refuses a text exactly where no report has it; so no two reports have
//! one text (`one_text`). It reads by the table of `findings` backwards, and then writes again what it read.
//! `spy` reads no report: the crate is for programs that do. Begin with `reading.rt`.
#![tactic(auto)]

mod codes;
mod law;
mod listed;
mod numbers;
mod reading;
mod value_reading;

pub use law::{one_code_text, one_text};
pub use reading::{TextFault, read_text};
