//! Sets of points that are cut to a list: `Listed` has the points of a set that a list has, or all of them.
//!
//! It is a set of points like any other (`PointSet`). Its next point is found by searches in the set and in
//! the list, so a set of very many points that is cut to few costs what the few do. Begin with `listed.rt`;
//! `common.rt` finds what a set and a list have in common.
#![tactic(auto)]

mod common;
mod listed;

pub use listed::Listed;
