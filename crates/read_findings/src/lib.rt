//! What is found of a read that is asked for, in a log without a cycle and a race: the links by which its value came, or that the log has no such read.
//!
//! `read_finding` is what the command `why` finds there, exactly as `Outcome` of `outcomes` says. Begin with
//! `links.rt`; `provenance` goes back along the steps.
#![tactic(auto)]

mod links;
mod reports;

pub use links::read_finding;
pub use memory::Memory;
