//! What is asked for at places of region trees, where others license it, and where two of them interfere.
//!
//! A `Claim` is some fields of the points of a space of a tree, with a privilege. `first_refused` gives the
//! first of some claims that others do not allow at each of its places, and the least such place; `are_free`
//! says whether two claims are in conflict nowhere. Sets are gone through by their runs, never point by
//! point. Begin with `refusal.rt`.
#![tactic(auto)]

mod claim;
mod free;
mod refusal;

pub use claim::{Claim, NumberedReq};
pub use free::are_free;
pub use refusal::{first_refused, refused};
