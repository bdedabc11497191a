//! Where a serial order begins to stand against program order.
//!
//! `first_to_search` gives an item of which no earlier one comes in program order before another, with which it
//! may not change places, and in serial order after it. It goes once over what items ask for at first points,
//! from the last item back, and keeps the earliest uses of each place. Begin with `scan.rt`; `claims.rt`
//! gathers what items ask for.
#![tactic(auto)]

mod claims;
mod scan;

pub use scan::first_to_search;
