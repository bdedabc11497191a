//! What the tasks of launches claim, and the first record at which two of them clash.
//!
//! `first_interference` gives the first record at which requirements of two tasks of one launch are in
//! conflict, or says exactly when there is none; `first_clash` does so for claims of runs of points.
//! `interference.rt` has the call on requirements; begin there. `claiming.rt` has what these claim in a
//! launch: runs of points, where all sets lie in the first column, and else blocks of columns and rows.
//!
//! Of runs, `first.rt` has the first record at which they clash, `pass.rt` one pass over them, and
//! `reach.rt` what it keeps. Of blocks, `first_block.rt` has the first record at which they clash,
//! `meeting.rt` halves the columns, `node.rt` has the one pass over the blocks of some columns, and
//! `kept.rt` what it keeps. `pairs.rt` compares requirements pair by pair, where claims cannot tell.
#![tactic(auto)]

mod block;
mod claim;
mod claiming;
mod first;
mod first_block;
mod interference;
mod kept;
mod meeting;
mod node;
mod pairs;
mod pass;
mod reach;
mod requirement;

pub use claim::Claim;
pub use first::first_clash;
pub use interference::first_interference;
pub use memory::Memory;
pub use requirement::{LaunchTasks, Requirement};
