//! Forests of regions: spaces, the partitions of spaces, and the subspaces of partitions.
//!
//! `Forest::judge` takes declarations exactly where no subspace is faulty, and else shows the least faulty
//! one with the least point at fault; a `Forest` tells which spaces lie below which, by which path, and
//! which points two of them share. Begin with `forest`; `faults` judges, by the search of
//! `clashes` among the rectangles of `claims`. `wholes` tells whether rectangles lie within a space.
#![tactic(auto)]

mod claims;
mod clashes;
mod climb;
mod faults;
mod forest;
mod forest_fault;
mod growing;
mod lookups;
mod owners;
mod path;
mod shape;
mod sharing;
mod wholes;

pub use arena_sets::{ArenaRects, ArenaSet, SetOfRects};
pub use forest::Forest;
pub use forest_fault::ForestFault;
pub use growing::declarations_grow;
pub use log_tables::{Decls, Space, Step};
pub use memory::Memory;
pub use path::Path;
pub use semantics::{Part, Sub};
pub use shape::is_forest;
