//! The lines of the report of `deps`, spelled one after another without taking memory.
//!
//! `DepLines` takes all its memory when it is made. Each call spells one line, exactly as `Texts.antt` of
//! `findings` says of it. Begin with `lines.rt`.
#![tactic(auto)]

mod lines;
mod parts;
mod short_text;

pub use findings::Dep;
pub use lines::DepLines;
pub use memory::Memory;
