//! An input, read so far as a rule can want its records.
//!
//! `log_input` gives the records of an input, or of one with too many records those that tell its fault
//! (`crowded_logs`): the first ones, and of the later ones those that answer what no kept record answers.
//! All others are let go as they are read. Begin with `input.rt`.
#![tactic(auto)]

mod answered;
mod asked;
mod crowding;
mod first;
mod input;
mod later;

pub use input::{CrowdedInput, LogInput, log_input};
