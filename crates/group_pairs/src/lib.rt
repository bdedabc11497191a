//! How many pairs of groups are free of each other.
//!
//! `count_apart` counts the pairs of groups of a nested log of which neither is above the other and whose
//! claims are nowhere in conflict, exactly. Two groups are compared claim by claim only where bounds leave
//! room for a conflict, and whether two spaces share a point is looked up in a table that is made once.
//! Begin with `counting.rt`; `sites.rt` has the table, and `outline.rt` the bounds.
#![tactic(auto)]

mod clashes;
mod counting;
mod ground;
mod marks;
mod outline;
mod party;
mod side;
mod sites;

pub use counting::count_apart;
pub use side::Side;
