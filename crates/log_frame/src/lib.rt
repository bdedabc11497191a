//! The frame of a log: its header, its end, and the count that the end gives.
//!
//! `frame_fault` gives the fault of the header, else of the end, else of the count, of records of any kind
//! that may be a header or an end (`Framed`), exactly as `Faults` of `semantics` defines it. Plain logs and
//! launch logs are judged by it alike. Begin with `fault.rt`.
#![tactic(auto)]

mod fault;
mod framed;

pub use fault::frame_fault;
pub use framed::Framed;
