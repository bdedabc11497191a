//! Where what a task reads came from, traced back along the steps of a replay.
//!
//! `trace` gives the links by which a read's value came: each copy that brought it, back to the write, the
//! put or the start, the same in every interleaving; or it says that there is no such read, exactly where
//! there is none. Begin with `tracing.rt`; `walking.rt` goes back, and `taking.rt` lists the steps at the
//! point and the field.
#![tactic(auto)]

mod ends;
mod flows;
mod taking;
mod tracing;
mod walking;

pub use ends::TraceEnd;
pub use tracing::trace;
