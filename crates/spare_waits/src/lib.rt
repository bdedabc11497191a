//! The listed waits of a graph that others imply.
//!
//! `spare` gives exactly these, in order, with both laws of `spare_laws` on them. A wait is spare where its
//! event stands earlier in the same list, or where its node is before another that the list names. Begin
//! with `search.rt`.
#![tactic(auto)]

mod list;
mod marks;
mod search;

pub use list::{SpareList, SpareWait};
pub use memory::Memory;
pub use search::spare;
