//! Bytes that come from a source and go to a sink, each with a count of its faults.
//!
//! `read_all` takes all bytes of a source, or says exactly when there were too many or the source failed;
//! `write_all` adds all bytes to a sink or, after a failure, a part of them. Both are generic over the two.
//! `RealSource` and `RealSink` stand over a reader and a writer of std, and `MemSource` and `MemSink` over
//! memory, with faults where a test wants them. Begin with `source.rt` and `sink.rt`.
#![tactic(auto)]

mod counts;
mod memory_sink;
mod memory_source;
mod reading;
mod real_sink;
mod real_source;
mod sink;
mod source;
mod writing;

pub use memory::Memory;
pub use memory_sink::MemSink;
pub use memory_source::MemSource;
pub use reading::{ReadEnd, read_all};
pub use real_sink::RealSink;
pub use real_source::RealSource;
pub use sink::Sink;
pub use source::Source;
pub use writing::{WriteFault, write_all};

/// A call of a source or a sink failed.
#[derive(Clone, Copy, PartialEq, Eq)]
pub struct Failed;
