//! From bytes to the records of a log: an input is cut into lines, and each line read.
//!
//! `input_in` gives the records of an input with their lines, or its first fault, exactly where it has one;
//! `launch_input_in` and `nested_input_in` do so for the other two kinds of log, by the same code over a
//! `LogLine`. `kept_text` gives the text of the records in place of them, out of the input's own bytes. The definitions are in `Records` and `TextFaults` of `semantics`. Begin with `input.rt`.
#![tactic(auto)]

mod input;
mod kept_records;
mod log_line;
mod reading;

pub use input::{input_in, launch_input_in, lines_of, nested_input_in};
pub use kept_records::kept_text;
pub use log_line::LogLine;
pub use reading::{Input, SpellEnd, read_records, said_on};
