//! Bytes on their way to a sink, which are kept back until there are many of them.
//!
//! `Buffered` takes all its memory when it is made: `put` and `flush` take none, so that a text can be written
//! while it is found, and want of memory shows before its first byte. Begin with `buffer.rt`.
#![tactic(auto)]

mod buffer;

pub use buffer::Buffered;
pub use memory::Memory;
pub use spy_io::{Sink, WriteFault};
