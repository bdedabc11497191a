//! Laws of groups: what their members may do, and what groups that are free of each other may do side by side.
//!
//! `children_are_licensed`: where no child asks for more than its group licenses, all groups above a task
//! license what it asks for. `free_groups_are_apart`: then no task below a group interferes with one below a
//! group that is free of it. The rest tries the definitions (`Nesting` of `semantics`) on nested logs that
//! are written out. There is no code; begin with `laws.rt`.
#![tactic(auto)]

mod laws;
mod meanings;

pub use laws::{
    ancestors_are_all_above, children_are_licensed, free_groups_are_apart, logs_are_nested_logs,
};
pub use meanings::{worked_group_limits, worked_group_rules, worked_nests};
