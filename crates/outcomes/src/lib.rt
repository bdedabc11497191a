//! What each command finds in an input, and laws of it: a command finds one thing in a log, and has one outcome on an input.
//!
//! The definitions are in `specs/Outcome.antt`; begin there. They stand above `semantics`, so that it does
//! not wait for the reports of `findings`. `one_finding` and `some_finding`, `one_outcome` and
//! `some_outcome` say that there is exactly one of each, and `replays_speak_for_all` that without a race
//! what one replay shows holds in every interleaving.
#![tactic(auto)]

mod finding_laws;
mod input_laws;
mod replay_laws;

pub use finding_laws::{one_finding, one_outcome, some_finding, some_outcome};
pub use input_laws::inputs_are_read;
pub use replay_laws::replays_speak_for_all;
