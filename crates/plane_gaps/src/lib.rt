//! The rectangles that the rectangles of a set leave free, so that "within" becomes "apart from what is free".
//!
//! `gaps_of` answers exactly, with about two rectangles for each one of the set; its only error is that
//! memory ran out. Begin with `gaps`.
#![tactic(auto)]

mod gaps;

pub use gaps::gaps_of;
