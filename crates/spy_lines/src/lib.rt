//! Lines out of bytes that come in pieces, the same however the bytes were cut.
//!
//! `Lines` is seen as all the bytes so far; `feed` adds a piece, and `finish` gives the lines, or says that
//! the last has no line feed. So two ways to cut the same bytes give the same lines (`one_list_of_lines`).
//! Begin with `lines.rt`.
#![tactic(auto)]

mod kept;
mod law;
mod line_list;
mod lines;

pub use kept::KeptLines;
pub use law::one_list_of_lines;
pub use line_list::{LineIter, LineList};
pub use lines::{Lines, NoNewline};
pub use memory::Memory;
