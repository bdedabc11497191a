//! Sets of the numbers below 1,024, as bits in sixteen words.
//!
//! Each call says of every bit whether it is set, by `has_bit` of `Bits`, which reads a list of words of any
//! length. Begin with `bits.rt`.
#![tactic(auto)]

mod bits;

pub use bits::{all_bits, has, is_empty, is_full, join, minus, no_bits, set};
