//! The replay of a recorded run: what its tasks read, against what they should have read.
//!
//! `replay` takes the steps of the first points that are read in replay order over a store, and gives the
//! first read that differs from sequential execution, exactly where the whole log has one, with the counts
//! of an accepted log else. By the laws that it cites this holds in every interleaving. Begin with
//! `replaying.rt`; `moving.rt` has one step, and `wanted.rt` the numbers of what is wanted, among those of
//! the store.
#![tactic(auto)]

mod counting;
mod ends;
mod moving;
mod replaying;
mod wanted;

pub use counting::count_reads;
pub use ends::{Reads, ReplayEnd};
pub use replaying::replay;
