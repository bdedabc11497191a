//! What the words of a command line ask for.
//!
//! `request_in` says it exactly, or that they ask for no command. `clap` decides which words are taken; the
//! rules on the commands, and on which of them has which options, come after it. Begin with `asking.rt` and
//! `specs/Asked.antt`.
#![tactic(auto)]

mod asking;
mod command_line;
mod numbers;
mod request;

pub use asking::request_in;
pub use request::Request;
