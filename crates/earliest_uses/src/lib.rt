//! Of the uses of each place, those that are earliest in serial order.
//!
//! `EarliestUses` keeps for each place a few serial positions, however many uses it has: that of the earliest
//! use, and that of the earliest one which does not agree with it, of all uses and of the exclusive ones
//! alone. They bound any further use: none that may not change places with it is earlier than they say. How
//! close a bound is only costs time, and is not proved. Begin with `uses.rt`.
#![tactic(auto)]

mod earliest;
mod first_two;
mod place_uses;
mod serial_use;
mod uses;

pub use serial_use::SerialUse;
pub use uses::EarliestUses;
