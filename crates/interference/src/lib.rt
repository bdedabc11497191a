//! The pairs of items of a log that interfere, and whether they keep the serial order.
//!
//! `pairs` goes over exactly the pairs of items that interfere, in order, each with its kind and its least
//! place. `serial_ok` says whether the serial order that a log lists keeps program order where it has to, or
//! shows the first pair that does not, which it looks for only from the item on that `serial_scan` gives, and
//! `task_pair_count` counts the pairs of tasks. Whole blocks of items are passed over by bounds, and items
//! that ask for the same are judged once. Begin with `all.rt` and
//! `iterator.rt`.
#![tactic(auto)]

mod all;
mod iterator;
mod pair;
mod partners;
mod recent;
mod search;
mod serial;
mod stretch;
mod tasks;

pub use all::pairs;
pub use iterator::Pairs;
pub use pair::Pair;
pub use serial::{SerialBreaks, serial_ok};
pub use stretch::Stretch;
pub use tasks::{are_tasks, task_pair_count};
