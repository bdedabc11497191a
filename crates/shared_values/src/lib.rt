//! Values by number: a value is copied by copying its number.
//!
//! An `Arena` gives numbers to values and is seen as the list of them. `base`, `add`, `add_many` and `fold`
//! give the number of just the value that the definitions of `value_terms` make, and change no earlier one.
//! `get` makes the value of a number, and `same` says exactly whether two numbers stand for equal values,
//! mostly without making them. A fold is made once, and two values are found equal once. Begin with
//! `arena.rt`, and with `specs/Arenas.antt` for what a number stands for; `suffix.rt` compares two values by
//! what was added to a common one.
#![tactic(auto)]

mod arena;
mod folding;
mod node;
mod suffix;
mod walk;

pub use arena::Arena;
