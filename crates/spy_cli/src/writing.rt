//! Texts, written to a sink.

ghost use Rattle.std.specs.Prelude.{◌≡◌, ◌≢◌, ◌≤◌};
ghost use Rattle.std.specs.Io.KnownBytes.{Appends};
ghost use Rattle.spy_io.specs.Causes.{Grows, Rose};
ghost use Rattle.findings.specs.declared.finding.Finding.TheVariants as findings;
ghost use Rattle.spy_cli.specs.Endings.{IsEnding};

use crate::report::fault_report;
use crate::status::Status;
use memory::Memory;
use spy_grammar::Code;
use spy_io::{Sink, WriteFault, write_all};
use std::alloc::Global;

/// Writes the text, and ends with this status if that succeeds.
pub(crate) fn written<K: Sink>(sink: &mut K, text: &[u8], status: Status) -> Status
    requires { status ≢ Status.WriteFault }
    ensures done { result ≢ Status.WriteFault → (result ≡ status)
        × Appends (K.held sink.old) (K.held sink.new) text.now × (K.faults sink.new ≡ K.faults sink.old) }
    ensures fault { result ≡ Status.WriteFault → Rose (K.faults sink.old) (K.faults sink.new)
        × Grows (K.held sink.old) (K.held sink.new) text.now }
    ensures once { K.ended sink.old ≡ 0 → K.ended sink.new ≤ 1 }
{
    match write_all(sink, text) {
        Ok(()) => status,
        Err(WriteFault) => Status::WriteFault,
    }
}

/// Writes the report of a fault.
pub(crate) fn fault_written<K: Sink>(alloc: Global, line: u32, code: Code, sink: &mut K) -> Status
    ensures ends { IsEnding (λ f. f ≡ findings.Fault line code) result
        (K.held sink.old) (K.held sink.new) (K.faults sink.old) (K.faults sink.new) }
    ensures stopped { K.ended sink.old ≡ 0 → K.ended sink.new ≤ 1 }
    ensures memory { result ≡ Status.Memory → sink.new ≡ sink.old }
{
    match fault_report(alloc, line, code) {
        Ok(report) => written(sink, &report.text, report.status),
        Err(Memory) => Status::Memory,
    }
}
