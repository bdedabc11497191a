//! The rules on groups, their privileges and their members, and what is nested so far.
//!
//! `split` parts the records of a nested log into its plain ones and the others, and `walk` gives what these
//! nest, or the first rule that one of them breaks, each exactly as `Nesting` of `semantics` defines it.
//! Begin with `walking.rt`; `rules.rt` has the rules, and `groups.rt` the groups so far.
#![tactic(auto)]

mod groups;
mod ids;
mod parts;
mod pending;
mod rules;
mod walking;

pub use groups::Groups;
pub use parts::{Parts, split};
pub use pending::Pending;
pub use walking::walk;
