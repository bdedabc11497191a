//! Numbers at places, which are parted by one test after the other, and the first place of each number.
//!
//! Places that have one number are those that no test so far tells apart. `part` takes one test more, as the
//! list of the places that pass it: then two places have the same number exactly where they had, and both
//! pass or neither does. `leads` gives what stands at the first place of each number, so one of each kind of
//! what the tests do not tell apart. Begin with `parting.rt`.
#![tactic(auto)]

mod first_places;
mod parting;

pub use first_places::leads;
pub use parting::part;
