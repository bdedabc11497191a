//! Values as terms: what a place got last, and what reductions have added to it since.
//!
//! A value is a base and groups of counted contributions, one operator each. `add`, `add_many` and `fold`
//! give exactly their definitions, and `same` says whether two values are equal; the laws say that
//! contributions of one operator commute, and what equal values are. Begin with `value.rt` and
//! `specs/Values.antt`.
#![tactic(auto)]

mod bag;
mod groups;
mod laws;
mod terms;
mod value;
mod worked;

pub use bag::{Bag, Group};
pub use laws::{
    bags_are_counts, changes_commute, same_values_are_equal, values_are_sums,
    values_stay_well_formed, weights_add_up,
};
pub use memory::Memory;
pub use terms::{Base, Contribution};
pub use value::Value;
pub use worked::worked_values;
