//! Nested logs: whether each child asks for no more than its group licenses, and which groups are free of each other.
//!
//! `find` is what the command `nested` finds in the records of a nested log. `build` gives a `Nest` exactly
//! where no rule is broken and each child is licensed, and else the fault or the child that is shown;
//! `Nest::free` says whether two groups are free of each other, and that then no tasks below them interfere.
//! Begin with `building.rt` and `nest.rt`.
#![tactic(auto)]

mod apart;
mod building;
mod children;
mod commands;
mod counting;
mod finding;
mod nest;
mod nest_end;
mod own;
mod row;
mod rows;

pub use building::build;
pub use commands::find;
pub use nest::Nest;
pub use nest_end::NestEnd;
