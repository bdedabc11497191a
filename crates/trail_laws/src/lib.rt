//! Laws of where what is read came from.
//!
//! `trails_are_one`: in a log without a race a read came by the same steps in every interleaving, has one
//! list of links or is not there, and where nothing was added on the way it sees what the last link puts.
//! There is no code; begin with `laws.rt`, and `Links` of `semantics`.
#![tactic(auto)]

mod laws;

pub use laws::trails_are_one;
