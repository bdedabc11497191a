//! Logs that are made by rule.
//!
//! The stencil log is that of a program with pieces of points in a row, which in each of 10 steps computes
//! each piece from itself and a point of each neighbour, and then copies the points at the boundaries.
//! `stencil` makes it, record by record as `specs/Stencil.antt` lists it, and `stencil_logs_are_good` says
//! that each record has a spelling. Begin with `log.rt`.
#![tactic(auto)]

mod events;
mod laws;
mod log;
mod pieces;
mod runs;
mod waits;

pub use laws::stencil_logs_are_good;
pub use log::stencil;
pub use spy_grammar::Memory;
