//! What a task may do with a region, and how two accesses to one place interfere.
//!
//! `kind` gives how two accesses interfere, by the table of `specs/Interference.antt`, and `contains` which
//! privilege allows all that another does; `kind_laws` and `contained_kinds` are laws of both. The types
//! `Ro`, `Rw`, `Wd` and `Red` stand for privileges where the compiler is to refuse what is not allowed.
//! Begin with `table.rt`.
#![tactic(auto)]

mod kinds;
mod laws;
mod markers;
mod table;

pub use kinds::{Coherence, Kind, Priv};
pub use laws::{contained_kinds, kind_laws};
pub use markers::{Folds, Privilege, Reads, Red, Ro, Rw, Wd, Writes};
pub use table::{agree, contains, kind};
