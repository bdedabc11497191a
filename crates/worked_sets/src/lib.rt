//! Tests of sets of points, grids and forests, over the code that they try.
//!
//! Sets kept as lists, as runs and as rectangles are asked the same and have to answer alike, on sets that are drawn
//! from numbers; `planes.rt` draws them. The crate stands on no log, so it is tried while the rest is proved.
#![tactic(auto)]

#[cfg(test)]
mod counts_tests;
#[cfg(test)]
mod forests_tests;
#[cfg(test)]
mod planes;
#[cfg(test)]
mod point_set_tests;
#[cfg(test)]
mod rects_tests;
