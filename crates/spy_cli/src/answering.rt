//! From what is asked, and a source, to a report.

ghost use Rattle.std.specs.Prelude.{◌≡◌, ◌≢◌, ◌+◌, ◌<◌, ◌≤◌, Err, true, false, Some, length, IfOk, IsErrOf};
ghost use Rattle.spy_io.specs.Causes.{Takes};
ghost use Rattle.spy_args.specs.Asked.{IsSized};
ghost use Rattle.spy_cli.specs.Answers.{FailsToRead, IsAnswer, IsDecided, IsRead, OfInput, takes_input};
ghost use Rattle.semantics.specs.declared.limits.TheConstants.{MOST_BYTES};

use crate::demo::demo_report;
use crate::judging::judged_report;
use crate::launching::{expanded_report, launched_report};
use crate::nesting::nested_report;
use crate::printing::printed_report;
use crate::report::{Report, fault_report};
use memory::Memory;
use semantics::MOST_BYTES;
use spy_args::Request;
use spy_grammar::Code;
use spy_io::{ReadEnd, Source, read_all};
use std::alloc::Global;

/// The input of a request: all that the source has left, of which at most one byte more than an input may have is taken. `demo` has none, and does not call the source.
pub(crate) fn input_of<S: Source>(
    alloc: Global,
    request: Request,
    source: &mut S,
) -> Result<Vec<u8>, ReadEnd>
    ensures input { IfOk result (λ read. OfInput request (S.left source.old) (λ bytes. bytes ≡ read.items)) }
    ensures too_long { IsErrOf result ReadEnd.TooLong
        → OfInput request (S.left source.old) (λ bytes. MOST_BYTES < length bytes) }
    ensures read { takes_input (Some request) ≡ true → result ≢ Err ReadEnd.ReadFault
        → result ≢ Err ReadEnd.Memory
        → IsRead (S.left source.old) (S.left source.new) }
    ensures not_called { takes_input (Some request) ≡ false → source.new ≡ source.old }
    ensures once { S.ended source.old ≡ 0 → S.ended source.new ≤ 1 }
    ensures roomy { S.idle source.new ≡ S.idle source.old }
    ensures no_fault { result ≢ Err ReadEnd.ReadFault → S.faults source.new ≡ S.faults source.old }
    ensures fault { IsErrOf result ReadEnd.ReadFault
        → FailsToRead request (S.faults source.old) (S.faults source.new) (S.left source.old) (S.left source.new) }
    ensures memory { IsErrOf result ReadEnd.Memory
        → Takes (S.left source.old) (S.left source.new) (MOST_BYTES + 1) }
{
    match request {
        Request::Demo { .. } => Ok(Vec::new(alloc)),
        _ => read_all(alloc, source, MOST_BYTES),
    }
}

/// The report on an input.
fn report_on_bytes(alloc: Global, request: Request, bytes: Vec<u8>) -> Result<Report, Memory>
    requires { IsSized request }
    ensures { IfOk result (λ r. IsAnswer request bytes.items r.status r.text.items) }
{
    match request {
        Request::Judge(command) => judged_report(alloc, command, bytes),
        Request::Print => printed_report(alloc, bytes),
        Request::Expand => expanded_report(alloc, bytes),
        Request::Launched => launched_report(alloc, bytes),
        Request::Nested => nested_report(alloc, bytes),
        Request::Demo { size } => demo_report(alloc, size),
    }
}

/// Why there is no report.
#[derive(Clone, Copy)]
pub(crate) enum ReportEnd {
    ReadFault,
    Memory,
}

impl From<Memory> for ReportEnd {
    ghost use Rattle.std.specs.Prelude.{◌≡◌};
    ghost use Rattle.spy_cli.specs.declared.answering.ReportEnd.TheVariants.{Memory};

    ghost from_gives = { λ _ e. e ≡ Memory };

    fn from(_e: Memory) -> ReportEnd {
        ReportEnd::Memory
    }
}

/// The report on what is asked.
pub(crate) fn report_on<S: Source>(
    alloc: Global,
    request: Request,
    source: &mut S,
) -> Result<Report, ReportEnd>
    requires sized { IsSized request }
    ensures outcome { IfOk result (λ r. OfInput request (S.left source.old)
        (λ bytes. IsAnswer request bytes r.status r.text.items)) }
    ensures decided { IfOk result (λ r. IsDecided r.status) }
    ensures read { takes_input (Some request) ≡ true
        → IfOk result (λ _. IsRead (S.left source.old) (S.left source.new)) }
    ensures not_called { takes_input (Some request) ≡ false → source.new ≡ source.old }
    ensures once { S.ended source.old ≡ 0 → S.ended source.new ≤ 1 }
    ensures roomy { S.idle source.new ≡ S.idle source.old }
    ensures no_fault { result ≢ Err ReportEnd.ReadFault → S.faults source.new ≡ S.faults source.old }
    ensures fault { IsErrOf result ReportEnd.ReadFault
        → FailsToRead request (S.faults source.old) (S.faults source.new) (S.left source.old) (S.left source.new) }
    ensures memory { IsErrOf result ReportEnd.Memory
        → Takes (S.left source.old) (S.left source.new) (MOST_BYTES + 1) }
{
    let report = match input_of(alloc, request, source) {
        Ok(bytes) => report_on_bytes(alloc, request, bytes)?,
        Err(ReadEnd::TooLong) => fault_report(alloc, 0, Code::TooLong)?,
        Err(ReadEnd::ReadFault) => return Err(ReportEnd::ReadFault),
        Err(ReadEnd::Memory) => return Err(ReportEnd::Memory),
    };
    Ok(report)
}
