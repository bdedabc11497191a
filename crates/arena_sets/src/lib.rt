//! Sets of points that lie in an arena, each made from runs of points or from rectangles, and each told as rectangles, so that code over any set need not go along its columns.
//!
//! Each call is exact, and its only error is that memory ran out. Begin with the traits: `ArenaSet` is made
//! from runs, `ArenaRects` from rectangles too, and `SetOfRects` is told as rectangles; `pieces` cuts runs
//! into rectangles.
#![tactic(auto)]

mod arena_rects;
mod arena_set;
mod joined_rects;
mod pieces;
mod set_of_rects;

pub use arena_rects::ArenaRects;
pub use arena_set::ArenaSet;
pub use memory::Memory;
pub use set_of_rects::SetOfRects;
