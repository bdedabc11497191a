//! Laws of the order in which tasks are run: what is asked of all pairs of tasks, told place by place.
//!
//! What interferes at any place does so at the first point of some atom, so first points tell which tasks
//! interfere, how many pairs do, and whether these are run in serial order; and at each place the groups of
//! `cell_races` tell the last. Begin with `laws.rt`.
#![tactic(auto)]

mod laws;

pub use laws::{
    first_pair_is_shown, groups_tell_of_tasks, pairs_are_counted, places_tell_of_tasks,
    tasks_agree_with_themselves,
};
