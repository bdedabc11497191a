//! `deps`, whose report is written as it is found.

ghost use Rattle.std.specs.Prelude.{◌≡◌, ◌≢◌, ◌⊎◌, ◌+◌, ◌≤◌, ℕ, All, List, Some, true};
ghost use Rattle.std.specs.Io.KnownBytes.{Appends};
ghost use Rattle.spy_io.specs.Causes.{Grows, Rose, Takes};
ghost use Rattle.vocabulary.specs.Prelude.{AreLines, Good};
ghost use Rattle.semantics.specs.declared.command.Command.TheVariants.{Deps};
ghost use Rattle.semantics.specs.declared.limits.TheConstants.{MOST_BYTES};
ghost use Rattle.findings.specs.declared.finding.Finding.TheVariants as findings;
ghost use Rattle.findings.specs.Texts as reports;
ghost use Rattle.outcomes.specs.Outcome.{IsFound, IsOutcome};
ghost use Rattle.log_input.specs.Inputs.{IsInput, SpellsCrowded};
ghost use Rattle.spy_cli.specs.Answers.{IsDecided, IsRead};
ghost use Rattle.spy_cli.specs.Endings.{IsEnding, IsReported, IsReportedInPart};

use crate::answering::input_of;
use crate::crowded::input_fault;
use crate::status::Status;
use crate::writing::{fault_written, written};
use findings::cannot_read_text;
use log_input::{CrowdedInput, LogInput, log_input};
use log_reading::SpellEnd;
use memory::Memory;
use semantics::Command;
use spy_args::Request;
use spy_grammar::{Code, Lined};
use spy_io::{ReadEnd, Sink, Source};
use std::alloc::Global;
use verdict::{DepsEnd, write_deps};

/// Whether `deps` is asked for.
pub(crate) fn is_deps(request: Request) -> bool
    ensures { result ≡ true → request ≡ Request.Judge Command.Deps }
{
    match request {
        Request::Judge(Command::Deps) => true,
        _ => false,
    }
}

/// Writes what is found in the records of a log.
fn records_listed<K: Sink>(alloc: Global, records: &Vec<Lined>, lines: u32, sink: &mut K) -> Status
    requires good { All (λ l. Good l.rec) records.now.items }
    requires lines { AreLines lines records.now.items }
    ensures ends { IsEnding (IsFound Deps lines records.now.items) result
        (K.held sink.old) (K.held sink.new) (K.faults sink.old) (K.faults sink.new) }
    ensures stopped { K.ended sink.old ≡ 0 → K.ended sink.new ≤ 1 }
    ensures memory { result ≡ Status.Memory → sink.new ≡ sink.old }
{
    match write_deps(alloc, records, lines, sink) {
        Ok(()) => Status::Yes,
        Err(DepsEnd::Fault { line, code }) => fault_written(alloc, line, code, sink),
        Err(DepsEnd::WriteFault) => Status::WriteFault,
        Err(DepsEnd::Memory) => Status::Memory,
    }
}

/// Writes what is found in an input whose log is crowded.
fn crowded_listed<K: Sink>(alloc: Global, input: &CrowdedInput, sink: &mut K) -> Status
    requires { (bytes : List ℕ) × SpellsCrowded bytes input.now }
    ensures ends { (bytes : List ℕ) → SpellsCrowded bytes input.now → IsEnding (IsOutcome Deps bytes) result
        (K.held sink.old) (K.held sink.new) (K.faults sink.old) (K.faults sink.new) }
    ensures stopped { K.ended sink.old ≡ 0 → K.ended sink.new ≤ 1 }
    ensures memory { result ≡ Status.Memory → sink.new ≡ sink.old }
{
    match input_fault(alloc, input) {
        Ok(fault) => fault_written(alloc, fault.line, fault.code, sink),
        Err(Memory) => Status::Memory,
    }
}

/// Writes what is found in an input that is read.
fn log_listed<K: Sink>(alloc: Global, input: &LogInput, sink: &mut K) -> Status
    requires { (bytes : List ℕ) × IsInput bytes input.now }
    ensures ends { (bytes : List ℕ) → IsInput bytes input.now → IsEnding (IsOutcome Deps bytes) result
        (K.held sink.old) (K.held sink.new) (K.faults sink.old) (K.faults sink.new) }
    ensures stopped { K.ended sink.old ≡ 0 → K.ended sink.new ≤ 1 }
    ensures memory { result ≡ Status.Memory → sink.new ≡ sink.old }
{
    match input {
        LogInput::Whole(input) => records_listed(alloc, &input.records, input.lines, sink),
        LogInput::Crowded(input) => crowded_listed(alloc, input, sink),
    }
}

/// Writes what is found in an input: the fault of its bytes and lines, or what is found in its records.
fn input_listed<K: Sink>(alloc: Global, bytes: Vec<u8>, sink: &mut K) -> Status
    ensures ends { IsEnding (IsOutcome Deps bytes.items) result
        (K.held sink.old) (K.held sink.new) (K.faults sink.old) (K.faults sink.new) }
    ensures stopped { K.ended sink.old ≡ 0 → K.ended sink.new ≤ 1 }
    ensures memory { result ≡ Status.Memory → sink.new ≡ sink.old }
{
    match log_input(alloc, bytes) {
        Ok(input) => log_listed(alloc, &input, sink),
        Err(SpellEnd::Fault { line, code }) => fault_written(alloc, line, code, sink),
        Err(SpellEnd::Memory) => Status::Memory,
    }
}

/// Answers `deps`: reads the input, and writes what is found as it is found.
pub(crate) fn deps_answered<S: Source, K: Sink>(
    alloc: Global,
    source: &mut S,
    sink: &mut K,
) -> Status
    // What the input decides is told, or a part of it where the sink failed.
    ensures told { IsDecided result → (bytes : List ℕ) → S.left source.old ≡ Some bytes
        → IsReported (IsOutcome Deps bytes) result (K.held sink.old) (K.held sink.new) }
    ensures part { result ≡ Status.WriteFault → (bytes : List ℕ) → S.left source.old ≡ Some bytes
        → IsReportedInPart (IsOutcome Deps bytes) (K.held sink.old) (K.held sink.new)
        ⊎ (Rose (S.faults source.old) (S.faults source.new)
        × Grows (K.held sink.old) (K.held sink.new) (reports.report_text findings.CannotRead)) }
    ensures not_usage { result ≢ Status.Usage }

    // What is taken of the source.
    ensures read { IsDecided result → IsRead (S.left source.old) (S.left source.new) }
    ensures read_unwritten { result ≡ Status.WriteFault → IsRead (S.left source.old) (S.left source.new)
        ⊎ (Rose (S.faults source.old) (S.faults source.new)
        × Takes (S.left source.old) (S.left source.new) (MOST_BYTES)) }
    ensures once { S.ended source.old ≡ 0 → S.ended source.new ≤ 1 }
    ensures roomy { S.idle source.new ≡ S.idle source.old }
    ensures taken { result ≡ Status.Memory → Takes (S.left source.old) (S.left source.new) (MOST_BYTES + 1) }

    // A device that failed says so by its count.
    ensures no_fault { IsDecided result
        → (S.faults source.new ≡ S.faults source.old) × (K.faults sink.new ≡ K.faults sink.old) }
    ensures read_fault { result ≡ Status.ReadFault → Rose (S.faults source.old) (S.faults source.new)
        × Takes (S.left source.old) (S.left source.new) (MOST_BYTES) }
    ensures said { result ≡ Status.ReadFault → (K.faults sink.new ≡ K.faults sink.old)
        × Appends (K.held sink.old) (K.held sink.new) (reports.report_text findings.CannotRead) }
    ensures write_fault { result ≡ Status.WriteFault → Rose (K.faults sink.old) (K.faults sink.new) }
    ensures stopped { K.ended sink.old ≡ 0 → K.ended sink.new ≤ 1 }

    // Without memory nothing is written, and no device failed.
    ensures memory { result ≡ Status.Memory → sink.new ≡ sink.old }
    ensures no_fault_memory { result ≡ Status.Memory → S.faults source.new ≡ S.faults source.old }
{
    match input_of(alloc, Request::Judge(Command::Deps), source) {
        Ok(bytes) => input_listed(alloc, bytes, sink),
        Err(ReadEnd::TooLong) => fault_written(alloc, 0, Code::TooLong, sink),
        Err(ReadEnd::ReadFault) => written(sink, cannot_read_text(), Status::ReadFault),
        Err(ReadEnd::Memory) => Status::Memory,
    }
}
