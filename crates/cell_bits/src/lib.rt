//! Which cells of a grid some points touch, as a row of bits, so that two large sets of whole cells are held against each other word by word.
//!
//! `CellBits` has a bit for each cell of a grid of 1,048,576 cells at most. `within` and `meets` take a few
//! thousand words of work, however many rectangles the sets have. `specs/Bits.antt` says which bits are
//! set. Begin with `cells.rt`; `words.rt` works on the words.
#![tactic(auto)]

mod cells;
mod words;

pub use cells::{CellBits, MOST_CELLS};
